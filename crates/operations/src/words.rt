// The operations on numbers of n bits, for n from 1 to 64.
ghost use Rattle.std.specs.Prelude.{◌≡◌, ◌+◌, ◌-◌, ◌%◌, ◌^◌, ◌<◌, ◌≤◌};
ghost use Rattle.theory.specs.Value.{bit_at, not_n, neg_n, xnor_n, add_n, mul_n, shl_n, lshr_n};
ghost use Rattle.theory.specs.Value.{ashr_n, udiv_n, urem_n, moved_n, rotate_left_n};
ghost use Rattle.theory.specs.Value.{rotate_right_n};
ghost use Rattle.operations.specs.Width.{Wide, Fits, Both, turn};

// The greatest number of n bits.
pub fn ones(n: u32) -> u64
    requires { Wide n }
    ensures { result ≡ 2 ^ n - 1 }
{
    u64::MAX >> (64 - n)
}

// The low n bits of x.
pub fn low(n: u32, x: u64) -> u64
    requires { Wide n }
    ensures { result ≡ x % 2 ^ n }
{
    x & ones(n)
}

// Bit i of x.
pub fn bit(i: u32, x: u64) -> bool
    requires { i < 64 }
    ensures { result ≡ bit_at i x }
{
    (x >> i) % 2 == 1
}

pub fn not_n(n: u32, x: u64) -> u64
    requires { Fits n x }
    ensures { result ≡ not_n n x }
{
    ones(n) - x
}

pub fn neg_n(n: u32, x: u64) -> u64
    requires { Fits n x }
    ensures { result ≡ neg_n n x }
{
    if x == 0 {
        return 0;
    }
    ones(n) - x + 1
}

pub fn xnor_n(n: u32, x: u64, y: u64) -> u64
    requires { Both n x y }
    ensures { result ≡ xnor_n n x y }
{
    ones(n) - (x ^ y)
}

pub fn add_n(n: u32, x: u64, y: u64) -> u64
    requires { Wide n }
    ensures { result ≡ add_n n x y }
{
    low(n, x.wrapping_add(y))
}

pub fn mul_n(n: u32, x: u64, y: u64) -> u64
    requires { Wide n }
    ensures { result ≡ mul_n n x y }
{
    low(n, x.wrapping_mul(y))
}

pub fn shl_n(n: u32, x: u64, y: u64) -> u64
    requires { Wide n }
    ensures { result ≡ shl_n n x y }
{
    if y < u64::from(n) {
        return low(n, x << y);
    }
    0
}

pub fn lshr_n(n: u32, x: u64, y: u64) -> u64
    requires { Wide n }
    ensures { result ≡ lshr_n n x y }
{
    if y < u64::from(n) {
        return x >> y;
    }
    0
}

pub fn ashr_n(n: u32, x: u64, y: u64) -> u64
    requires { Fits n x }
    ensures { result ≡ ashr_n n x y }
{
    let top = bit(n - 1, x);
    if y < u64::from(n) {
        let s = x >> y;
        if top {
            return s + (ones(n) - ones(n - y as u32));
        }
        return s;
    }
    if top { ones(n) } else { 0 }
}

pub fn udiv_n(n: u32, x: u64, y: u64) -> u64
    requires { Wide n }
    ensures { result ≡ udiv_n n x y }
{
    if y == 0 {
        return ones(n);
    }
    x / y
}

pub fn urem_n(n: u32, x: u64, y: u64) -> u64
    ensures { result ≡ urem_n n x y }
{
    if y == 0 {
        return x;
    }
    x % y
}

// The n bits of x, each s places lower; those that fall out at the bottom come in at the top.
fn turned(n: u32, s: u32, x: u64) -> u64
    requires fits { Fits n x }
    requires inside { s ≤ n }
    ensures { result ≡ moved_n (turn n s) x }
{
    // A shift by the whole width is none of a machine word's at n = 64.
    if s == 0 {
        return x;
    }
    if s == n {
        return x;
    }
    (x >> s) + (low(s, x) << (n - s))
}

pub fn rotate_left_n(n: u32, k: u32, x: u64) -> u64
    requires { Fits n x }
    ensures { result ≡ rotate_left_n k n x }
{
    turned(n, n - k % n, x)
}

pub fn rotate_right_n(n: u32, k: u32, x: u64) -> u64
    requires { Fits n x }
    ensures { result ≡ rotate_right_n k n x }
{
    turned(n, k % n, x)
}

ghost use Rattle.std.specs.Prelude.{◌≡◌, false, cond, pos};
ghost use Rattle.std.specs.Int.Signed.{lt_z};
ghost use Rattle.theory.specs.Sort.{is_width};
ghost use Rattle.theory.specs.Value.{signed};

// The low n bits of x as a signed number: the top one, bit n - 1, counts −2^(n − 1), the others as
// usual. A width that is not from 1 to 64 has the answer 0.
pub fn signed_value(n: u32, x: u64) -> i64
    ensures { result ≡ cond (is_width n) (signed n x) (pos 0) }
{
    if n == 0 {
        return 0;
    }
    if 64 < n {
        return 0;
    }
    // −2^(n − 1), at n = 64 too, where 2^63 itself is no i64.
    let weight = -1i64 << (n - 1);
    let low = (x % (1u64 << (n - 1))) as i64;
    if (x >> (n - 1)) % 2 == 1 {
        weight + low
    } else {
        low
    }
}

// What bvslt means on numbers: x is less than y, both read as signed numbers of n bits. Where n is
// no width, neither is less.
pub fn signed_less(n: u32, x: u64, y: u64) -> bool
    ensures { result ≡ cond (is_width n) (lt_z (signed n x) (signed n y)) false }
{
    signed_value(n, x) < signed_value(n, y)
}

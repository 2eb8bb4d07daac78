// One operation of a term, on the widths and the numbers of its arguments. A Bool has width 0 and
// the number 0 or 1.
ghost use Rattle.std.specs.Prelude.{◌≡◌, [], ◌∷◌};
ghost use Rattle.theory.specs.Value.{Assign, meaning};
ghost use Rattle.theory.specs.Kind.{Ite};
ghost use Rattle.sweeps.specs.Sweep.{as_number};
ghost use Rattle.operations.specs.Apply.{unary_op, binary_op, val_by, One, Two, Bools3};

pub use crate::many::{extend, start};
use crate::words::{
    ashr_n, bit, low, lshr_n, neg_n, not_n, ones, rotate_left_n, rotate_right_n, shl_n, udiv_n,
    urem_n, xnor_n,
};
use theory::sign::signed_less;

// The operations of one argument.
#[derive(Clone, Copy)]
pub enum Unary {
    Not,
    BvNot,
    BvNeg,
    // index
    BitOf(u32),
    // upper index, lower index
    Extract(u32, u32),
    // copies of the top bit
    Extend(u32),
    // zeros above
    ZeroExtend(u32),
    // places up, places down
    RotateLeft(u32),
    RotateRight(u32),
    // copies
    Repeat(u32),
}

// The operations of two arguments.
#[derive(Clone, Copy)]
pub enum Binary {
    Xor,
    Equals,
    XNor,
    Comp,
    ULt,
    SLt,
    Shl,
    LShr,
    AShr,
    UDiv,
    URem,
}

// The operations of one argument or more.
#[derive(Clone, Copy)]
pub enum Many {
    And,
    Or,
    Bits,
    BvAnd,
    BvOr,
    BvXor,
    Add,
    Mul,
    Concat,
}

// A width and a number.
#[derive(Clone, Copy)]
pub struct Word {
    pub width: u32,
    pub value: u64,
}

// x with k copies of its top bit above, at width m.
pub fn extended(m: u32, k: u32, x: u64) -> u64
    requires { One (unary_op (Unary.Extend k)) m x }
    ensures { (ρ : Assign)
        → result ≡ as_number (meaning ρ (unary_op (Unary.Extend k)) (val_by m x ∷ [])) }
{
    if bit(m - 1, x) {
        return x + (ones(m + k) - ones(m));
    }
    x
}

// k copies of x at width m, one above the other.
pub fn repeated(m: u32, k: u32, x: u64) -> u64
    requires { One (unary_op (Unary.Repeat k)) m x }
    ensures { (ρ : Assign)
        → result ≡ as_number (meaning ρ (unary_op (Unary.Repeat k)) (val_by m x ∷ [])) }
{
    let mut r = x;
    for _ in 1..k {
        r = (r << m) + x;
    }
    r
}

// An operation of one argument of width m.
pub fn apply_one(op: Unary, m: u32, x: u64) -> u64
    requires { One (unary_op op) m x }
    ensures { (ρ : Assign) → result ≡ as_number (meaning ρ (unary_op op) (val_by m x ∷ [])) }
{
    match op {
        Unary::Not => u64::from(x == 0),
        Unary::BvNot => not_n(m, x),
        Unary::BvNeg => neg_n(m, x),
        Unary::BitOf(i) => u64::from(bit(i, x)),
        Unary::Extract(i, j) => low(i - j + 1, x >> j),
        Unary::Extend(k) => extended(m, k, x),
        Unary::ZeroExtend(_) => x,
        Unary::RotateLeft(k) => rotate_left_n(m, k, x),
        Unary::RotateRight(k) => rotate_right_n(m, k, x),
        Unary::Repeat(k) => repeated(m, k, x),
    }
}

// An operation of two arguments of width m.
pub fn apply_two(op: Binary, m: u32, x: u64, y: u64) -> u64
    requires { Two (binary_op op) m x y }
    ensures { (ρ : Assign)
        → result ≡ as_number (meaning ρ (binary_op op) (val_by m x ∷ val_by m y ∷ [])) }
{
    match op {
        Binary::Xor => u64::from(x != y),
        Binary::Equals | Binary::Comp => u64::from(x == y),
        Binary::XNor => xnor_n(m, x, y),
        Binary::ULt => u64::from(x < y),
        Binary::SLt => u64::from(signed_less(m, x, y)),
        Binary::Shl => shl_n(m, x, y),
        Binary::LShr => lshr_n(m, x, y),
        Binary::AShr => ashr_n(m, x, y),
        Binary::UDiv => udiv_n(m, x, y),
        Binary::URem => urem_n(m, x, y),
    }
}

// The choice by a Bool between two.
pub fn choice(c: u64, x: u64, y: u64) -> u64
    requires { Bools3 c x y }
    ensures { (ρ : Assign)
        → result ≡ as_number (meaning ρ Ite (val_by 0 c ∷ val_by 0 x ∷ val_by 0 y ∷ [])) }
{
    if c == 1 { x } else { y }
}

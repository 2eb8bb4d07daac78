// Comparisons of two bit-vectors.
ghost use Rattle.std.specs.Prelude.{◌≡◌, length};
ghost use Rattle.theory.specs.Circuit.{less_step, sign_step, bitblast_ult, slt, equality};
ghost use Rattle.store.specs.Lookup.{gates};

use crate::bits::{Bits, eqs};
use store::gates::{FALSE, Lookup, TRUE};

// bitblast_ult, bit 0 alone: x is 0 and y is 1.
pub fn less_bit(lookup: &Lookup, x: u32, y: u32) -> u32
    ensures { result ≡ (gates lookup.now).and_gate ((gates lookup.now).not_gate x) y }
{
    lookup.and2(lookup.not1(x), y)
}

// slt, the sign bits alone: x is 1 and y is 0.
pub fn sign_bit(lookup: &Lookup, x: u32, y: u32) -> u32
    ensures { result ≡ (gates lookup.now).and_gate x ((gates lookup.now).not_gate y) }
{
    lookup.and2(x, lookup.not1(y))
}

// One more bit, where `below` is what the bits below say: equal and below, or `here`, which is what
// this bit says alone.
fn step(lookup: &Lookup, x: u32, y: u32, below: u32, here: u32) -> u32
    ensures { result ≡ (gates lookup.now).or_gate
        ((gates lookup.now).and_gate ((gates lookup.now).eq_gate x y) below) here }
{
    let equal = lookup.and2(lookup.eq2(x, y), below);
    lookup.or2(equal, here)
}

// bitblast_ult, one more bit: equal and below, or x 0 and y 1.
pub fn less_step(lookup: &Lookup, x: u32, y: u32, below: u32) -> u32
    ensures { result ≡ less_step (gates lookup.now) x y below }
{
    step(lookup, x, y, below, less_bit(lookup, x, y))
}

// slt, the sign bit: equal and below, or x negative and y not.
pub fn sign_step(lookup: &Lookup, x: u32, y: u32, below: u32) -> u32
    ensures { result ≡ sign_step (gates lookup.now) x y below }
{
    step(lookup, x, y, below, sign_bit(lookup, x, y))
}

// bitblast_ult: x < y, from bit 0 up.
pub fn bitblast_ult(lookup: &Lookup, x: &[u32], y: &[u32]) -> u32
    ensures { result ≡ bitblast_ult (gates lookup.now) x.now y.now }
{
    let [x0, xs @ ..] = x else {
        return FALSE;
    };
    let [y0, ys @ ..] = y else {
        return FALSE;
    };
    let mut res = less_bit(lookup, *x0, *y0);
    for (&a, &b) in xs.iter().zip(ys) {
        res = less_step(lookup, a, b, res);
    }
    res
}

// slt: x < y as signed numbers. The bits below the sign go as in bitblast_ult, and at width 1 there
// are none.
pub fn slt(lookup: &Lookup, x: &Bits, y: &Bits) -> u32
    requires alike { length x.now.items ≡ length y.now.items }
    ensures { result ≡ slt (gates lookup.now) x.now.items y.now.items }
{
    let [xs @ .., x_top] = x.as_slice() else {
        return FALSE;
    };
    let [ys @ .., y_top] = y.as_slice() else {
        return FALSE;
    };
    if xs.is_empty() {
        return sign_bit(lookup, *x_top, *y_top);
    }
    let below = bitblast_ult(lookup, xs, ys);
    sign_step(lookup, *x_top, *y_top, below)
}

// equality: the bits' equations, one alone, several under an And.
pub fn equality(lookup: &Lookup, x: &Bits, y: &Bits) -> u32
    ensures { result ≡ equality (gates lookup.now) x.now.items y.now.items }
{
    let bits = eqs(lookup, x, y);
    match bits.as_slice() {
        [] => TRUE,
        [bit] => *bit,
        several => lookup.all_of(several),
    }
}

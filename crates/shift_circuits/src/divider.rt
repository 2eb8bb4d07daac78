// Division, bit by bit; `standard` is false for the circuit as Rust has it, and true for the
// standard's division.
ghost use Rattle.std.specs.Prelude.{◌≡◌, cond, [], ◌∷◌, ◌++◌, ◌≤◌, length, drop, replicate, get_or};
ghost use Rattle.std.specs.List.{list_all};
ghost use Rattle.theory.specs.Circuit.{drop_top, next_remainder, divide_step};
ghost use Rattle.theory.specs.Circuit.{bitblast_udiv_urem_rec, is_zero, udiv, urem};
ghost use Rattle.store.specs.Numbers.{false_number, true_number, is_false_number};
ghost use Rattle.store.specs.Lookup.{gates};

use circuits::adder::{Sum, ripple_carry_adder};
use circuits::bits::{Bits, append, eqs, ites, nots, same_bits};
use store::gates::{FALSE, Lookup, TRUE};

// Whether every bit of x is literally `false`, where bitblast_udiv_urem_rec stops. No gate is read.
fn all_false(x: &[u32]) -> bool
    ensures { result ≡ list_all is_false_number x.now }
{
    x.iter().all(|&bit| bit == FALSE)
}

// shift_left, with a bit coming in below: the top bit falls out.
fn shift_left(x: &Bits, low: u32) -> Bits
    ensures { result.items ≡ low ∷ drop_top x.now.items }
{
    let mut out = Bits::new();
    out.push(low);
    let [below @ .., _] = x.as_slice() else {
        return out;
    };
    append(&mut out, below);
    out
}

// shift_right, `false` coming in above: bit 0 falls out.
fn shift_right(x: &Bits) -> Bits
    requires some { 1 ≤ length x.now.items }
    ensures { result.items ≡ drop 1 x.now.items ++ (false_number ∷ []) }
{
    let mut out = Bits::new();
    append(&mut out, &x[1..]);
    out.push(FALSE);
    out
}

// bitblast_udiv_urem_rec: the remainder shifted left, with bit 0 of the dividend added.
fn next_remainder(lookup: &Lookup, low: u32, r: &Bits) -> Bits
    ensures { result.items ≡ next_remainder (gates lookup.now) low r.now.items }
{
    let one_if_odd = lookup.ite3(lookup.eq2(low, TRUE), TRUE, FALSE);
    let shifted = shift_left(r, FALSE);
    let falses = same_bits(FALSE, shifted.len());
    let sum = ripple_carry_adder(lookup, &shifted, &falses, one_if_odd);
    sum.bits
}

// bitblast_udiv_urem_rec: whether x is below y, by the sum that is x - y: it has no carry then. Rust
// takes the carry into the top bit, and the standard the one out of it.
fn no_carry(lookup: &Lookup, sum: &Sum, standard: bool) -> u32
    ensures { result ≡ (gates lookup.now).not_gate (cond standard sum.now.out sum.now.carry) }
{
    let carry = if standard { sum.out } else { sum.carry };
    lookup.not1(carry)
}

// bitblast_udiv_urem_rec: the remainder where it is not below y, by the sum that is the remainder
// less y. Rust does not subtract y: it makes every bit `true`.
fn reduced(sum: Sum, standard: bool) -> Bits
    ensures { result.items ≡ cond standard sum.bits.items
        (replicate (length sum.bits.items) true_number) }
{
    if standard {
        return sum.bits;
    }
    same_bits(TRUE, sum.bits.len())
}

// A quotient and a remainder.
#[derive(Drop)]
pub struct Division {
    pub quot: Bits,
    pub rem: Bits,
}

// bitblast_udiv_urem_rec, one step: from the quotient and the remainder of x shifted right. Where
// Rust builds the inverted bits of y for each difference, they are looked up once.
fn divide_step(lookup: &Lookup, x: &Bits, y: &Bits, half: &Division, standard: bool) -> Division
    requires some { 1 ≤ length x.now.items }
    requires beside { length x.now.items ≤ length y.now.items }
    requires smaller { length half.now.rem.items ≤ length x.now.items }
    ensures value { (result.quot.items, result.rem.items)
        ≡ divide_step (gates lookup.now) standard (get_or x.now.items 0 0) (drop 1 x.now.items)
        y.now.items (half.now.quot.items, half.now.rem.items) }
    ensures smaller { length result.rem.items ≤ length x.now.items }
{
    let r1 = next_remainder(lookup, x[0], &half.rem);
    let not_y = nots(lookup, y);
    let r1_less_y = ripple_carry_adder(lookup, &r1, &not_y, TRUE);
    let sign = no_carry(lookup, &r1_less_y, standard);
    let low = lookup.ite3(sign, FALSE, TRUE);
    let q1 = shift_left(&half.quot, low);
    let less = reduced(r1_less_y, standard);
    let r2 = ites(lookup, sign, &r1, &less);
    let x_less_y = ripple_carry_adder(lookup, x, &not_y, TRUE);
    let below = no_carry(lookup, &x_less_y, standard);
    let falses = same_bits(FALSE, q1.len());
    let quot = ites(lookup, below, &falses, &q1);
    let rem = ites(lookup, below, x, &r2);
    Division { quot, rem }
}

// bitblast_udiv_urem_rec: the quotient and the remainder of x by y; `left` bits of x are left to go
// down by.
pub fn bitblast_udiv_urem_rec(
    lookup: &Lookup,
    x: &Bits,
    y: &Bits,
    left: usize,
    standard: bool,
) -> Division
    requires beside { length x.now.items ≤ length y.now.items }
    ensures value { (result.quot.items, result.rem.items)
        ≡ bitblast_udiv_urem_rec (gates lookup.now) standard is_false_number left
        x.now.items y.now.items }
    ensures smaller { length result.rem.items ≤ length x.now.items }
{
    if left == 0 || all_false(x) {
        return Division {
            quot: same_bits(FALSE, x.len()),
            rem: same_bits(FALSE, x.len()),
        };
    }
    let half = bitblast_udiv_urem_rec(lookup, &shift_right(x), y, left - 1, standard);
    divide_step(lookup, x, y, &half, standard)
}

// bitblast_udiv_urem: that every bit of y is false, an And of any number, one too.
fn is_zero(lookup: &Lookup, y: &Bits) -> u32
    ensures { result ≡ is_zero (gates lookup.now) y.now.items }
{
    let falses = same_bits(FALSE, y.len());
    let bits = eqs(lookup, y, &falses);
    lookup.all_of(bits.as_slice())
}

// bitblast_udiv_urem, the quotient: all `true` where y is zero.
pub fn udiv(lookup: &Lookup, x: &Bits, y: &Bits, standard: bool) -> Bits
    requires alike { length x.now.items ≡ length y.now.items }
    ensures { result.items
        ≡ udiv (gates lookup.now) standard is_false_number x.now.items y.now.items }
{
    let d = bitblast_udiv_urem_rec(lookup, x, y, x.len(), standard);
    let zero = is_zero(lookup, y);
    let trues = same_bits(TRUE, d.quot.len());
    ites(lookup, zero, &trues, &d.quot)
}

// bitblast_udiv_urem, the remainder: x where y is zero.
pub fn urem(lookup: &Lookup, x: &Bits, y: &Bits, standard: bool) -> Bits
    requires alike { length x.now.items ≡ length y.now.items }
    ensures { result.items
        ≡ urem (gates lookup.now) standard is_false_number x.now.items y.now.items }
{
    let d = bitblast_udiv_urem_rec(lookup, x, y, x.len(), standard);
    let zero = is_zero(lookup, y);
    ites(lookup, zero, x, &d.rem)
}

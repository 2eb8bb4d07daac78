// Addition, and what is built of it.
ghost use Rattle.std.specs.Prelude.{◌≡◌, ◌≤◌, length};
ghost use Rattle.theory.specs.Circuit.{sum_bit, next_carry, ripple_carry_adder};
ghost use Rattle.theory.specs.Circuit.{last_carry, carry_out, negate};
ghost use Rattle.store.specs.Lookup.{gates};

use crate::bits::{Bits, nots, same_bits};
use store::gates::{FALSE, Lookup, TRUE};

// A bit of a sum, and the carry out of it.
#[derive(Clone, Copy)]
pub struct SumBit {
    pub bit: u32,
    pub carry: u32,
}

// ripple_carry_adder, one bit: x, y and the carry into it. Where Rust builds their exclusive or for
// the sum and for the carry, it is looked up once.
#[inline]
pub fn full_adder(lookup: &Lookup, x: u32, y: u32, carry: u32) -> SumBit
    ensures bit_value { result.bit ≡ sum_bit (gates lookup.now) x y carry }
    ensures carry_value { result.carry ≡ next_carry (gates lookup.now) x y carry }
{
    let one = lookup.xor2(x, y);
    let both = lookup.and2(x, y);
    let bit = lookup.xor2(one, carry);
    let next = lookup.or2(both, lookup.and2(one, carry));
    SumBit { bit, carry: next }
}

// A sum's bits, the carry into the last of them, and the one out of it.
#[derive(Drop)]
pub struct Sum {
    pub bits: Bits,
    pub carry: u32,
    pub out: u32,
}

// ripple_carry_adder: the bits of x + y with a carry into bit 0. The carry is the last that Rust
// lists, which goes into the top bit: it is not the carry out of it.
pub fn ripple_carry_adder(lookup: &Lookup, x: &Bits, y: &Bits, carry: u32) -> Sum
    requires beside { length x.now.items ≤ length y.now.items }
    ensures bits_value { result.bits.items ≡
        ripple_carry_adder (gates lookup.now) carry x.now.items y.now.items }
    ensures carry_value { result.carry ≡
        last_carry (gates lookup.now) carry x.now.items y.now.items }
    ensures out_value { result.out ≡
        carry_out (gates lookup.now) carry x.now.items y.now.items }
{
    let mut bits = Bits::new();
    let mut last = carry;
    let mut c = carry;
    for (&a, &b) in x.iter().zip(y.as_slice()) {
        let sum = full_adder(lookup, a, b, c);
        bits.push(sum.bit);
        last = c;
        c = sum.carry;
    }
    Sum {
        bits,
        carry: last,
        out: c,
    }
}

// neg: the bits inverted and `false` added, with the carry `true`.
pub fn negate(lookup: &Lookup, x: &Bits) -> Bits
    ensures { result.items ≡ negate (gates lookup.now) x.now.items }
{
    let inverted = nots(lookup, x);
    let falses = same_bits(FALSE, x.len());
    let sum = ripple_carry_adder(lookup, &inverted, &falses, TRUE);
    sum.bits
}

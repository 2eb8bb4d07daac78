// Multiplication by rows: row j is x, j places up, where bit j of y is set.
ghost use Rattle.std.specs.Prelude.{◌≡◌, ◌≤◌, length};
ghost use Rattle.theory.specs.Circuit.{ripple_carry_adder, partial_products, shift_add_multiplier};
ghost use Rattle.store.specs.Numbers.{false_number};
ghost use Rattle.store.specs.Lookup.{gates};

use crate::adder::full_adder;
use crate::bits::{Bits, ands, append, same_bits};
use store::gates::{FALSE, Lookup};

// A row: added to the bits of the sum so far from its own place on.
fn add_row(lookup: &Lookup, sum: &[u32], x: &Bits, y: u32) -> Bits
    ensures { result.items ≡ ripple_carry_adder (gates lookup.now) false_number sum.now
        (partial_products (gates lookup.now) y x.now.items) }
{
    let mut out = Bits::new();
    let mut carry = FALSE;
    for (&bit, &a) in sum.iter().zip(x.as_slice()) {
        let product = lookup.and2(y, a);
        let next = full_adder(lookup, bit, product, carry);
        out.push(next.bit);
        carry = next.carry;
    }
    out
}

// shift_add_multiplier: the product of x and y, at their width. Rust keeps a table of partial
// products, one of results and one of carries, each of w × w terms; here a partial product is
// formed where its row adds it, the results are one row that each turn replaces, and the carry is
// one number. So no array of the multiplier holds more than MAX_BITS numbers (.ci/run looks for
// one), whatever the width.
pub fn shift_add_multiplier(lookup: &Lookup, x: &Bits, y: &Bits) -> Bits
    ensures { result.items ≡ shift_add_multiplier (gates lookup.now) x.now.items y.now.items }
{
    let mut out = Bits::new();
    let [y0, ys @ ..] = y.as_slice() else {
        return out;
    };
    let low = same_bits(*y0, x.len());
    let mut sum = ands(lookup, &low, x);
    for &bit in ys {
        let [low, above @ ..] = sum.as_slice() else {
            return out;
        };
        out.push(*low);
        sum = add_row(lookup, above, x, bit);
    }
    append(&mut out, sum.as_slice());
    out
}

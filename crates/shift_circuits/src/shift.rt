// Shifts by a bit-vector: stage s shifts by 2^s places where bit s of y is set.
ghost use Rattle.std.specs.Prelude.{◌≡◌, ◌≤◌, List, ℕ, length, take};
ghost use Rattle.theory.specs.Gates.{Gates};
ghost use Rattle.theory.specs.Circuit.{shl_stage, shr_stage, clog2, bounded, shl, lshr, ashr};
ghost use Rattle.store.specs.Lookup.{gates};
ghost use Rattle.shift_circuits.specs.Stages.{staged};

use circuits::bits::{Bits, append, ites, same_bits};
use circuits::compare::bitblast_ult;
use store::gates::{FALSE, Lookup};
use theory::stages::shift_stages;

// The direction of a shift.
trait Direction {
    // stage s, where y is the bit that it reads
    ghost shifted: { Self → Gates ℕ → ℕ → ℕ → List ℕ → List ℕ };

    fn stage(&self, lookup: &Lookup, s: u32, y: u32, p: &Bits) -> Bits
        requires stage { s ≤ 63 }
        ensures { result.items ≡ shifted self.now (gates lookup.now) s y p.now.items };
}

#[derive(Clone, Copy)]
struct Left;

impl Direction for Left {
    ghost shifted = { λ a g. shl_stage g };

    // bitblast_shift_op, stage s to the left: where y is true, bit i is bit i - 2^s of p, and
    // `false` where there is none.
    fn stage(&self, lookup: &Lookup, s: u32, y: u32, p: &Bits) -> Bits {
        let thresh = 1usize << s;
        let bits = p.as_slice();
        let mut out = Bits::new();
        for (i, &bit) in bits.iter().enumerate() {
            let from = if i < thresh { FALSE } else { bits[i - thresh] };
            out.push(lookup.ite3(y, from, bit));
        }
        out
    }
}

// To the right, `fill` coming in from above.
#[derive(Clone, Copy)]
struct Right {
    fill: u32,
}

impl Direction for Right {
    ghost shifted = { λ a g. shr_stage g a.fill };

    // bitblast_shift_op, stage s to the right: where y is true, bit i is bit i + 2^s of p, and
    // `fill` where there is none.
    fn stage(&self, lookup: &Lookup, s: u32, y: u32, p: &Bits) -> Bits {
        let thresh = 1usize << s;
        let stays = lookup.not1(y);
        let bits = p.as_slice();
        let mut above = bits[thresh.min(bits.len())..].iter();
        let mut out = Bits::new();
        for &bit in bits {
            let shifted = match above.next() {
                Some(&from) => lookup.ite3(stays, bit, from),
                None => lookup.ite3(y, self.fill, bit),
            };
            out.push(shifted);
        }
        out
    }
}

// bitblast_shift_op, all stages.
fn stages<D: Direction>(direction: &D, lookup: &Lookup, x: &Bits, y: &Bits) -> Bits
    requires beside { length x.now.items ≤ length y.now.items }
    ensures { result.items
        ≡ staged (D.shifted direction.now (gates lookup.now)) 0
        (take (clog2 (length x.now.items)) y.now.items) x.now.items }
{
    let stages = shift_stages(x.len() as u64);
    let mut res = Bits::new();
    append(&mut res, x.as_slice());
    for (s, &bit) in (0..stages).zip(y.as_slice()) {
        res = direction.stage(lookup, s, bit, &res);
    }
    res
}

// bitblast_shift_op, at last: every bit is `beyond` unless y is below the width. `size` are the
// bits of the width as a constant.
fn bounded(lookup: &Lookup, beyond: u32, size: &Bits, y: &Bits, p: &Bits) -> Bits
    ensures { result.items
        ≡ bounded (gates lookup.now) beyond size.now.items y.now.items p.now.items }
{
    let below = bitblast_ult(lookup, y, size);
    let others = same_bits(beyond, p.len());
    ites(lookup, below, p, &others)
}

// shl: x shifted left by y. `size` are the bits of the width as a constant of that width.
pub fn shl(lookup: &Lookup, size: &Bits, x: &Bits, y: &Bits) -> Bits
    requires alike { length x.now.items ≡ length y.now.items }
    ensures { result.items ≡ shl (gates lookup.now) size.now.items x.now.items y.now.items }
{
    let shifted = stages(&Left, lookup, x, y);
    bounded(lookup, FALSE, size, y, &shifted)
}

// lshr: x shifted right by y, `false` coming in.
pub fn lshr(lookup: &Lookup, size: &Bits, x: &Bits, y: &Bits) -> Bits
    requires alike { length x.now.items ≡ length y.now.items }
    ensures { result.items ≡ lshr (gates lookup.now) size.now.items x.now.items y.now.items }
{
    let shifted = stages(&Right { fill: FALSE }, lookup, x, y);
    bounded(lookup, FALSE, size, y, &shifted)
}

// ashr: x shifted right by y, its top bit coming in. Where y is not below the width the answer is
// all `false`, as in Rust, or, by the standard, the top bit at every place.
pub fn ashr(lookup: &Lookup, size: &Bits, x: &Bits, y: &Bits, standard: bool) -> Bits
    requires alike { length x.now.items ≡ length y.now.items }
    ensures { result.items
        ≡ ashr (gates lookup.now) standard size.now.items x.now.items y.now.items }
{
    let sign = x.last().copied().unwrap_or(FALSE);
    let shifted = stages(&Right { fill: sign }, lookup, x, y);
    let beyond = if standard { sign } else { FALSE };
    bounded(lookup, beyond, size, y, &shifted)
}

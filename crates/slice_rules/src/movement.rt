// Bits that are moved, and the last test of a rule that moves them.
ghost use Rattle.std.specs.Prelude.{◌≡◌, ◌+◌, ◌%◌, ◌<◌, ◌≤◌};
ghost use Rattle.theory.specs.Limit.{first_terms, max_width};
ghost use Rattle.theory.specs.Move.{bits, bit_of};
ghost use Rattle.theory.specs.Bits.{bb, moved_bits};
ghost use Rattle.theory.specs.Verdict.{held};
ghost use Rattle.theory.specs.Rule.{compare};
ghost use Rattle.store.specs.Numbers.{false_number};
ghost use Rattle.store.specs.Kept.{kept_term, kept_bits};
ghost use Rattle.operand_rules.specs.Rules.{Operand, verdict_of};
ghost use Rattle.slice_rules.specs.Moves.{move_of};

use circuits::bits::Bits;
use operand_rules::Verdict;
use operand_rules::bits::{compare_bits, get_term_bits};
use store::gates::{FALSE, Kept};

// Bit i of x, `false` where x has ended.
fn bit_at(x: &Bits, i: usize) -> u32
    ensures { result ≡ bit_of false_number x.now.items i }
{
    x.as_slice().get(i).copied().unwrap_or(FALSE)
}

// How bits are moved: of `size` bits, bit j is bit (j + shift) modulo `cycle` of the operand's.
#[derive(Clone, Copy)]
pub(crate) struct Move {
    pub(crate) size: usize,
    pub(crate) shift: usize,
    pub(crate) cycle: usize,
}

// The bits of x moved: `false` comes from where x has ended.
fn moved(x: &Bits, by: Move) -> Bits
    requires size { by.size ≤ max_width }
    requires shift { by.shift ≤ max_width }
    requires cycle { 1 ≤ by.cycle }
    ensures { result.items
        ≡ bits by.size (λ j. bit_of false_number x.now.items ((j + by.shift) % by.cycle)) }
{
    let mut out = Bits::new();
    for j in 0..by.size {
        out.push(bit_at(x, (j + by.shift) % by.cycle));
    }
    out
}

// The claim is the term of x's bits moved.
pub(crate) fn moved_check(kept: &Kept, x: u32, w: usize, by: Move, claim: u32) -> Verdict
    requires operand { Operand kept.now x w }
    requires claim { claim < first_terms + kept.now.lookup.rows }
    requires size { by.size ≤ max_width }
    requires shift { by.shift ≤ max_width }
    requires cycle { 1 ≤ by.cycle }
    ensures { verdict_of result ≡ compare held
        (bb (moved_bits (move_of by) (kept_bits kept.now x))) (kept_term kept.now claim) }
{
    let bits = moved(&get_term_bits(kept, x, w), by);
    compare_bits(&kept.lookup, &bits, claim)
}

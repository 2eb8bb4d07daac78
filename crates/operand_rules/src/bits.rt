// The bits of a term, and the claim that a term of bits is compared with.
ghost use Rattle.std.specs.Prelude.{◌≡◌, cond, map, ◌≤◌, eqb};
ghost use Rattle.theory.specs.Limit.{max_width};
ghost use Rattle.theory.specs.Verdict.{held, terms_differ};
ghost use Rattle.terms.specs.Decoded.{Inside, words_in};
ghost use Rattle.store.specs.Kept.{kept_number, kept_bits, kept_width};
ghost use Rattle.store.specs.Lookup.{bb_gate};
ghost use Rattle.operand_rules.specs.Rules.{Operand, verdict_of};

use crate::{Verdict, compare, compare_as};
use circuits::bits::{Bits, select_bits};
use store::gates::{Kept, Lookup};
use store::sorts::width_of;
use terms::{Args, Term};

// The width of the bit-vector at a place.
pub fn width_at(kept: &Kept, place: u32) -> usize
    requires { Operand kept.now place (kept_width kept.now place) }
    ensures value { result ≡ kept_width kept.now place }
    ensures bound { (1 ≤ result) × (result ≤ max_width) }
{
    width_of(kept.sort_at(place)) as usize
}

// The numbers of an argument list.
#[tactic(auto, using(terms::proofs::Lists::words_few))]
fn argument_bits(job: &[u8], list: Args) -> Bits
    requires { Inside job.now list }
    ensures { result.items ≡ words_in job.now list }
{
    let mut out = Bits::new();
    for x in list.numbers(job) {
        out.push(x);
    }
    out
}

// get_term_bits: a BvBbTerm gives its arguments, any other bit-vector of width w its bits 0 to
// w - 1.
pub fn get_term_bits(kept: &Kept, place: u32, w: usize) -> Bits
    requires { Operand kept.now place w }
    ensures { result.items ≡ map (kept_number kept.now) (kept_bits kept.now place) }
{
    let Term::BvBbTerm(list) = kept.term_at(place) else {
        return select_bits(&kept.lookup, place, w);
    };
    argument_bits(kept.lookup.job, list)
}

// The last test of a rule that expects a term of these bits: the step is accepted so where the
// claim is this term.
pub fn compare_bits_as(accepted: Verdict, lookup: &Lookup, bits: &Bits, claim: u32) -> Verdict
    ensures { verdict_of result ≡
        cond (eqb (bb_gate lookup.now bits.now.items) claim) (verdict_of accepted) terms_differ }
{
    compare_as(accepted, lookup.bb_term(bits.as_slice()), claim)
}

// The same, of a rule that is held.
pub fn compare_bits(lookup: &Lookup, bits: &Bits, claim: u32) -> Verdict
    ensures { verdict_of result ≡
        cond (eqb (bb_gate lookup.now bits.now.items) claim) held terms_differ }
{
    compare(lookup.bb_term(bits.as_slice()), claim)
}

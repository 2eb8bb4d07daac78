// The rule bitwise_slicing.
ghost use Rattle.std.specs.Prelude.{◌≡◌, ◌+◌, ◌<◌};
ghost use Rattle.theory.specs.Limit.{first_terms};
ghost use Rattle.theory.specs.RuleTable.{by_bitwise_slicing};
ghost use Rattle.theory.specs.Rule.{slice_verdict, slices_verdict, verdict};
ghost use Rattle.terms.specs.declared.Operands.TheVariants.{List as Listed};
ghost use Rattle.store.specs.Kept.{KeptArguments, kept_term, kept_width, kept_arguments};
ghost use Rattle.operand_rules.specs.Literal.{literal_term};
ghost use Rattle.operand_rules.specs.Rules.{verdict_of};
ghost use Rattle.slice_rules.specs.Slices.{Conjunction, number_tests, Answers};

use crate::parts::Extraction;
use operand_rules::Verdict;
use operand_rules::literal::Literal;
use operand_rules::operation::Unary;
use store::gates::Kept;
use store::sorts::width_of;
use terms::{Args, Term};

// The two arguments of a BvAnd of just two.
fn and_pair(kept: &Kept, place: u32) -> Option<(u32, u32)>
    requires { place < first_terms + kept.now.lookup.rows }
    ensures { Conjunction kept.now place result }
{
    let Term::BvAnd(list) = kept.term_at(place) else {
        return None;
    };
    if list.count != 2 {
        return None;
    }
    let x = Term::argument(kept.lookup.job, list, 0);
    let y = Term::argument(kept.lookup.job, list, 1);
    Some((x, y))
}

// The tests on a slice of a and c, which takes bits of x and of y, where `done` is the lowest index
// so far: its lower index, or the verdict on it.
fn slice_check(
    a: u32,
    c: u32,
    done: usize,
    left: Extraction,
    x: u32,
    right: Extraction,
    y: u32,
) -> Result<u32, Verdict>
    ensures { Answers result (number_tests a c done left x right y) }
{
    if left != right {
        return Err(Verdict::WrongForm);
    }
    if left.upper as usize + 1 != done {
        return Err(Verdict::IndexNotNext);
    }
    if a != x {
        return Err(Verdict::TermsDiffer);
    }
    if c != y {
        return Err(Verdict::TermsDiffer);
    }
    Ok(left.lower)
}

// One slice of a and c.
fn next_slice(kept: &Kept, a: u32, c: u32, done: usize, slice: u32) -> Result<u32, Verdict>
    requires slice { slice < first_terms + kept.now.lookup.rows }
    requires left { a < first_terms + kept.now.lookup.rows }
    requires right { c < first_terms + kept.now.lookup.rows }
    ensures { Answers result (slice_verdict done
        (kept_term kept.now a) (kept_term kept.now c) (kept_term kept.now slice)) }
{
    let (p, q) = and_pair(kept, slice).ok_or(Verdict::WrongForm)?;
    let (left, x) = Extraction::of(kept.term_at(p)).ok_or(Verdict::WrongForm)?;
    let (right, y) = Extraction::of(kept.term_at(q)).ok_or(Verdict::WrongForm)?;
    slice_check(a, c, done, left, x, right, y)
}

// The slices are those of a and c, from the top of c down.
fn slices_check(kept: &Kept, a: u32, c: u32, list: Args) -> Verdict
    requires arguments { KeptArguments kept.now (Listed list) }
    requires left { a < first_terms + kept.now.lookup.rows }
    requires right { c < first_terms + kept.now.lookup.rows }
    ensures { verdict_of result ≡ slices_verdict (kept_term kept.now a) (kept_term kept.now c)
        (kept_width kept.now c) (kept_arguments kept.now list) }
{
    let mut done = width_of(kept.sort_at(c)) as usize;
    for x in list.numbers(kept.lookup.job) {
        match next_slice(kept, a, c, done, x) {
            Ok(low) => {
                done = low as usize;
            }
            Err(refused) => {
                return refused;
            }
        }
    }
    Verdict::Held
}

// bitwise_slicing: (= (bvand a c) (concat (bvand ((_ extract i j) a) ((_ extract i j) c)) ..)).
pub fn bitwise_slicing(literal: &Literal) -> Verdict
    ensures { verdict_of result ≡ verdict by_bitwise_slicing (literal_term literal.now) }
{
    let kept = &literal.kept;
    let Term::Equals(l, r) = kept.term_at(literal.place) else {
        return Verdict::WrongForm;
    };
    let Some((a, c)) = and_pair(kept, l) else {
        return Verdict::WrongForm;
    };
    let Term::BvConcat(list) = kept.term_at(r) else {
        return Verdict::WrongForm;
    };
    slices_check(kept, a, c, list)
}

// The rule of an operation on an argument list: its circuit, applied to the arguments' bits from
// the left.
ghost use mathlib.Core.List.{foldl};
ghost use Rattle.std.specs.Prelude.{◌≡◌, List, [], ◌∷◌, ℕ, suc, length, map, ◌<◌, ◌≤◌};
ghost use Rattle.theory.specs.Kind.{Op, arity, many};
ghost use Rattle.theory.specs.Term.{Term as Tree};
ghost use Rattle.theory.specs.Sort.{Sort, alike, fitting};
ghost use Rattle.theory.specs.Bits.{bb, get_term_bits};
ghost use Rattle.theory.specs.Verdict.{held};
ghost use Rattle.theory.specs.Rule.{compare};
ghost use Rattle.store.specs.Kept.{kept_number, kept_term, kept_arguments};
ghost use Rattle.operand_rules.specs.Literal.{literal_term};
ghost use Rattle.operand_rules.specs.Rules.{verdict_of};
ghost use Rattle.list_rules.specs.Lists.{ArgumentsOf, Alike, Many, next_bits, folded_bits, by_list};

use circuits::bits::Bits;
use operand_rules::bits::{compare_bits, get_term_bits, width_at};
use operand_rules::literal::Literal;
use operand_rules::{Verdict, compare};
use store::gates::Kept;
use terms::{Args, Term};

// An operation that takes an argument list.
pub trait Operation {
    // the kind of its terms
    ghost kind: { Op };

    // its circuit, on the bits of two terms
    ghost circuit: { List Tree → List Tree → List Tree };

    // the term that its rule expects of its arguments
    ghost expected: { List Tree → Tree };

    ghost LEAST: { ℕ };

    // The least number of arguments of which the term of bits is expected: fewer are expected as
    // they are.
    const LEAST: usize;

    // The arguments, of a term of this kind.
    fn arguments(term: Term) -> Option<Args>
        ensures { ArgumentsOf kind term result };

    // The numbers of the circuit's bits, by those of the operands' bits.
    fn combine(kept: &Kept, x: &Bits, y: &Bits) -> Bits
        requires { length x.now.items ≤ length y.now.items }
        ensures shorter { length result.items ≤ length x.now.items }
        ensures value { (xs ys : List Tree)
            → x.now.items ≡ map (kept_number kept.now) xs
            → y.now.items ≡ map (kept_number kept.now) ys
            → result.items ≡ map (kept_number kept.now) (circuit xs ys) };

    // it takes 1 to 64 arguments
    ghost takes: { arity kind ≡ many };

    // these are bit-vectors of one width
    ghost asks: { (ss : List Sort) → fitting kind ss ≡ alike ss };

    // so many arguments or more are expected as the term of their bits
    ghost enough: { (t : Tree) (ts : List Tree) → LEAST ≤ suc (length ts)
        → expected (t ∷ ts) ≡ bb (foldl (next_bits circuit) (get_term_bits t) ts) };

    // fewer are expected as they are: one, as itself
    ghost alone: { (t : Tree) (ts : List Tree) → suc (length ts) < LEAST → expected (t ∷ ts) ≡ t };
}

// The bits of the operation on all arguments, from the left.
fn fold_arguments<O: Operation>(kept: &Kept, list: Args, w: usize) -> Bits
    requires { Alike kept.now list w }
    ensures { result.items
        ≡ map (kept_number kept.now) (folded_bits O.circuit (kept_arguments kept.now list)) }
{
    let (first, others) = list.split_first(kept.lookup.job);
    let mut bits = get_term_bits(kept, first, w);
    for x in others.numbers(kept.lookup.job) {
        let next = get_term_bits(kept, x, w);
        bits = O::combine(kept, &bits, &next);
    }
    bits
}

// The claim is the term that the operation expects of its arguments.
fn folded_check<O: Operation>(kept: &Kept, list: Args, claim: u32) -> Verdict
    requires { Many kept.now list claim }
    ensures { verdict_of result ≡ compare held
        (O.expected (kept_arguments kept.now list)) (kept_term kept.now claim) }
{
    let first = Term::argument(kept.lookup.job, list, 0);
    if list.count < O::LEAST {
        return compare(first, claim);
    }
    let w = width_at(kept, first);
    let bits = fold_arguments::<O>(kept, list, w);
    compare_bits(&kept.lookup, &bits, claim)
}

// The rule: (= (op x ..) claim).
pub fn rule<O: Operation>(literal: &Literal) -> Verdict
    ensures { verdict_of result ≡ by_list O.kind O.expected (literal_term literal.now) }
{
    let kept = &literal.kept;
    let Term::Equals(l, r) = kept.term_at(literal.place) else {
        return Verdict::WrongForm;
    };
    let Some(list) = O::arguments(kept.term_at(l)) else {
        return Verdict::WrongForm;
    };
    folded_check::<O>(kept, list, r)
}

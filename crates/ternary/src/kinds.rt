// The kinds of terms of bits: variables, constants, `true`, `false`, gates over Bools, BvBitOf and
// BvBbTerm.
ghost use Rattle.std.specs.Prelude.{◌≡◌, ◌+◌, ◌<◌};
ghost use Rattle.theory.specs.Limit.{first_terms};
ghost use Rattle.store.specs.KeptTerms.{kept_term};
ghost use Rattle.ternary.specs.Bits.{bit_kind_in};

use store::shelf::Terms;
use store::sorts::Sort;
use terms::Term;

// Is the kind of the term at a place bit-level? An Equals is where its sides are Bools.
pub fn is_bit_kind(terms: &Terms, place: u32) -> bool
    requires { place < first_terms + terms.now.rows }
    ensures { result ≡ bit_kind_in (kept_term terms.now place) }
{
    match terms.term_on(place) {
        Term::Equals(x, _) => terms.sort_on(x) == Sort::Bool,
        Term::True
        | Term::False
        | Term::BoolVar(_)
        | Term::BvVar(_, _)
        | Term::Const(_, _)
        | Term::Not(_)
        | Term::And(_)
        | Term::Or(_)
        | Term::Xor(_, _)
        | Term::Ite(_, _, _)
        | Term::BvBitOf(_, _)
        | Term::BvBbTerm(_) => true,
        _ => false,
    }
}

// The rules of equations: comp and equality.
ghost use Rattle.std.specs.Prelude.{◌≡◌, ◌∷◌, [], refl};
ghost use Rattle.theory.specs.Kind.{BvComp};
ghost use Rattle.theory.specs.Bits.{bb, get_term_bits};
ghost use Rattle.theory.specs.Verdict.{held};
ghost use Rattle.theory.specs.Gates.{term_gates};
ghost use Rattle.theory.specs.Circuit.{equality};
ghost use Rattle.theory.specs.RuleTable.{by_comp, by_equality};
ghost use Rattle.theory.specs.Rule.{compare, of_bits, verdict};
ghost use Rattle.store.specs.Kept.{kept_term, kept_bits};
ghost use Rattle.operand_rules.specs.Literal.{literal_term};
ghost use Rattle.operand_rules.specs.Rules.{Same, verdict_of};

use crate::Verdict;
use crate::bits::get_term_bits;
use crate::literal::Literal;
use crate::operation::{Binary, binary_rule};
use circuits::bits::Bits;
use store::gates::Kept;
use store::sorts::Sort;
use terms::Term;

#[derive(Clone, Copy)]
struct Comparison;

impl Binary for Comparison {
    ghost kind = { BvComp };

    ghost verdict = { λ s x y claim. compare held
        (bb (equality term_gates (get_term_bits x) (get_term_bits y) ∷ [])) claim };

    ghost asks = { λ ss. refl };

    fn operands(term: Term) -> Option<(u32, u32)> {
        let Term::BvComp(x, y) = term else {
            return None;
        };
        Some((x, y))
    }

    // The claim is the term of one bit, whether all bits are equal.
    fn check(self, kept: &Kept, x: &Bits, y: &Bits, claim: u32) -> Verdict {
        let bit = circuits::compare::equality(&kept.lookup, x, y);
        crate::compare(kept.lookup.bb_term(&[bit]), claim)
    }
}

// comp: (= (bvcomp x y) claim).
pub fn comp(literal: &Literal) -> Verdict
    ensures { verdict_of result ≡ verdict by_comp (literal_term literal.now) }
{
    binary_rule(Comparison, literal)
}

// The claim is whether all bits of x and y are equal.
fn equality_check(kept: &Kept, x: u32, y: u32, claim: u32) -> Verdict
    requires { Same kept.now x y claim }
    ensures { verdict_of result ≡ of_bits (kept_term kept.now x) (compare held
        (equality term_gates (kept_bits kept.now x) (kept_bits kept.now y))
        (kept_term kept.now claim)) }
{
    let Sort::Bv(width) = kept.sort_at(x) else {
        return Verdict::NotBitVector;
    };
    let w = width as usize;
    let xs = get_term_bits(kept, x, w);
    let ys = get_term_bits(kept, y, w);
    crate::compare(circuits::compare::equality(&kept.lookup, &xs, &ys), claim)
}

// equality: (= (= x y) claim).
pub fn equality(literal: &Literal) -> Verdict
    ensures { verdict_of result ≡ verdict by_equality (literal_term literal.now) }
{
    let kept = &literal.kept;
    let Term::Equals(l, r) = kept.term_at(literal.place) else {
        return Verdict::WrongForm;
    };
    let Term::Equals(x, y) = kept.term_at(l) else {
        return Verdict::WrongForm;
    };
    equality_check(kept, x, y, r)
}

// The rules ult and slt.
ghost use Rattle.std.specs.Prelude.{◌≡◌, refl};
ghost use Rattle.theory.specs.Kind.{BvULt, BvSLt};
ghost use Rattle.theory.specs.Bits.{get_term_bits};
ghost use Rattle.theory.specs.Verdict.{held};
ghost use Rattle.theory.specs.Gates.{term_gates};
ghost use Rattle.theory.specs.Circuit.{bitblast_ult, slt};
ghost use Rattle.theory.specs.RuleTable.{by_ult, by_slt};
ghost use Rattle.theory.specs.Rule.{compare, verdict};
ghost use Rattle.operand_rules.specs.Literal.{literal_term};
ghost use Rattle.operand_rules.specs.Rules.{verdict_of};

use crate::Verdict;
use crate::literal::Literal;
use crate::operation::{Binary, binary_rule};
use circuits::bits::Bits;
use circuits::compare::bitblast_ult;
use store::gates::Kept;
use terms::Term;

#[derive(Clone, Copy)]
struct Less;

impl Binary for Less {
    ghost kind = { BvULt };

    ghost verdict = { λ s x y claim.
        compare held (bitblast_ult term_gates (get_term_bits x) (get_term_bits y)) claim };

    ghost asks = { λ ss. refl };

    fn operands(term: Term) -> Option<(u32, u32)> {
        let Term::BvULt(x, y) = term else {
            return None;
        };
        Some((x, y))
    }

    // The claim is the circuit of x < y.
    fn check(self, kept: &Kept, x: &Bits, y: &Bits, claim: u32) -> Verdict {
        crate::compare(bitblast_ult(&kept.lookup, x, y), claim)
    }
}

// ult: (= (bvult x y) claim).
pub fn ult(literal: &Literal) -> Verdict
    ensures { verdict_of result ≡ verdict by_ult (literal_term literal.now) }
{
    binary_rule(Less, literal)
}

#[derive(Clone, Copy)]
struct SignedLess;

impl Binary for SignedLess {
    ghost kind = { BvSLt };

    ghost verdict = { λ s x y claim.
        compare held (slt term_gates (get_term_bits x) (get_term_bits y)) claim };

    ghost asks = { λ ss. refl };

    fn operands(term: Term) -> Option<(u32, u32)> {
        let Term::BvSLt(x, y) = term else {
            return None;
        };
        Some((x, y))
    }

    // The claim is the circuit of x < y, of signed numbers.
    fn check(self, kept: &Kept, x: &Bits, y: &Bits, claim: u32) -> Verdict {
        crate::compare(circuits::compare::slt(&kept.lookup, x, y), claim)
    }
}

// slt: (= (bvslt x y) claim).
pub fn slt(literal: &Literal) -> Verdict
    ensures { verdict_of result ≡ verdict by_slt (literal_term literal.now) }
{
    binary_rule(SignedLess, literal)
}

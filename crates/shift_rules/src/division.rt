// The rules udiv and urem, accepted for their form only; and the two by the standard, which are
// held.
ghost use Rattle.std.specs.Prelude.{◌≡◌, cond, refl};
ghost use Rattle.theory.specs.Kind.{BvUDiv, BvURem};
ghost use Rattle.theory.specs.Bits.{divided};
ghost use Rattle.theory.specs.Verdict.{held, form_only};
ghost use Rattle.theory.specs.Gates.{term_gates};
ghost use Rattle.theory.specs.Circuit.{udiv, urem};
ghost use Rattle.theory.specs.RuleTable.{by_udiv, by_urem, by_udiv_standard, by_urem_standard};
ghost use Rattle.theory.specs.Rule.{compare, verdict};
ghost use Rattle.operand_rules.specs.Literal.{literal_term};
ghost use Rattle.operand_rules.specs.Rules.{verdict_of};

use crate::held_or_form_only;
use circuits::bits::Bits;
use operand_rules::Verdict;
use operand_rules::bits::compare_bits_as;
use operand_rules::literal::Literal;
use operand_rules::operation::{Binary, binary_rule};
use shift_circuits::divider;
use store::gates::Kept;
use terms::Term;

// The quotient.
#[derive(Clone, Copy)]
struct Quotient {
    standard: bool,
}

impl Binary for Quotient {
    ghost kind = { BvUDiv };

    ghost verdict = { λ s x y claim. compare (cond s.standard held form_only)
        (divided (udiv term_gates s.standard) x y) claim };

    ghost asks = { λ ss. refl };

    fn operands(term: Term) -> Option<(u32, u32)> {
        let Term::BvUDiv(x, y) = term else {
            return None;
        };
        Some((x, y))
    }

    // The claim is the term of the quotient's bits.
    fn check(self, kept: &Kept, x: &Bits, y: &Bits, claim: u32) -> Verdict {
        let bits = divider::udiv(&kept.lookup, x, y, self.standard);
        compare_bits_as(held_or_form_only(self.standard), &kept.lookup, &bits, claim)
    }
}

// The remainder.
#[derive(Clone, Copy)]
struct Remainder {
    standard: bool,
}

impl Binary for Remainder {
    ghost kind = { BvURem };

    ghost verdict = { λ s x y claim. compare (cond s.standard held form_only)
        (divided (urem term_gates s.standard) x y) claim };

    ghost asks = { λ ss. refl };

    fn operands(term: Term) -> Option<(u32, u32)> {
        let Term::BvURem(x, y) = term else {
            return None;
        };
        Some((x, y))
    }

    // The claim is the term of the remainder's bits.
    fn check(self, kept: &Kept, x: &Bits, y: &Bits, claim: u32) -> Verdict {
        let bits = divider::urem(&kept.lookup, x, y, self.standard);
        compare_bits_as(held_or_form_only(self.standard), &kept.lookup, &bits, claim)
    }
}

// udiv: (= (bvudiv x y) claim).
pub fn udiv(literal: &Literal) -> Verdict
    ensures { verdict_of result ≡ verdict by_udiv (literal_term literal.now) }
{
    binary_rule(Quotient { standard: false }, literal)
}

// The same by the standard.
pub fn udiv_standard(literal: &Literal) -> Verdict
    ensures { verdict_of result ≡ verdict by_udiv_standard (literal_term literal.now) }
{
    binary_rule(Quotient { standard: true }, literal)
}

// urem: (= (bvurem x y) claim).
pub fn urem(literal: &Literal) -> Verdict
    ensures { verdict_of result ≡ verdict by_urem (literal_term literal.now) }
{
    binary_rule(Remainder { standard: false }, literal)
}

// The same by the standard.
pub fn urem_standard(literal: &Literal) -> Verdict
    ensures { verdict_of result ≡ verdict by_urem_standard (literal_term literal.now) }
{
    binary_rule(Remainder { standard: true }, literal)
}

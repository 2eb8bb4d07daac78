// The rules shl, lshr and ashr; ashr is accepted for its form only, unless the shifted term ends in
// `false`; by the standard it is held.
ghost use Rattle.std.specs.Prelude.{◌≡◌, true, cond, map, length, ◌≤◌, refl};
ghost use Rattle.theory.specs.Term.{Term as Tree};
ghost use Rattle.theory.specs.Kind.{BvShl, BvLShr, BvAShr};
ghost use Rattle.theory.specs.Bits.{shifted, size_bits};
ghost use Rattle.theory.specs.Verdict.{held, form_only};
ghost use Rattle.theory.specs.Gates.{term_gates};
ghost use Rattle.theory.specs.Circuit.{shl, lshr, ashr};
ghost use Rattle.theory.specs.RuleTable.{by_shl, by_lshr, by_ashr, by_ashr_standard};
ghost use Rattle.theory.specs.Rule.{compare, ends_in_false, verdict};
ghost use Rattle.store.specs.declared.gates.Kept.{Kept};
ghost use Rattle.store.specs.Kept.{kept_number};
ghost use Rattle.operand_rules.specs.Literal.{literal_term};
ghost use Rattle.operand_rules.specs.Rules.{BitsOf, verdict_of};

use crate::held_or_form_only;
use circuits::bits::{Bits, select_bits};
use operand_rules::Verdict;
use operand_rules::bits::{compare_bits, compare_bits_as};
use operand_rules::literal::Literal;
use operand_rules::operation::{Binary, binary_rule};
use shift_circuits::shift;
use store::gates::{FALSE, Kept, TRUE};
use terms::Term;

// The bits of x's width, as a constant of that width.
fn width_bits(kept: &Kept, x: &Bits) -> Bits
    requires { 1 ≤ length x.now.items }
    ensures { (t : Tree) → BitsOf kept.now x.now.items t
        → result.items ≡ map (kept_number kept.now) (size_bits t) }
{
    let w = x.len();
    let size = kept.lookup.constant(w as u32, w as u64);
    select_bits(&kept.lookup, size, w)
}

#[derive(Clone, Copy)]
struct Left;

impl Binary for Left {
    ghost kind = { BvShl };

    ghost verdict = { λ s x y claim. compare held (shifted (shl term_gates) x y) claim };

    ghost asks = { λ ss. refl };

    fn operands(term: Term) -> Option<(u32, u32)> {
        let Term::BvShl(x, y) = term else {
            return None;
        };
        Some((x, y))
    }

    // The claim is the term of x's bits, y places up.
    fn check(self, kept: &Kept, x: &Bits, y: &Bits, claim: u32) -> Verdict {
        let bits = shift::shl(&kept.lookup, &width_bits(kept, x), x, y);
        compare_bits(&kept.lookup, &bits, claim)
    }
}

#[derive(Clone, Copy)]
struct Right;

impl Binary for Right {
    ghost kind = { BvLShr };

    ghost verdict = { λ s x y claim. compare held (shifted (lshr term_gates) x y) claim };

    ghost asks = { λ ss. refl };

    fn operands(term: Term) -> Option<(u32, u32)> {
        let Term::BvLShr(x, y) = term else {
            return None;
        };
        Some((x, y))
    }

    // The claim is the term of x's bits, y places down.
    fn check(self, kept: &Kept, x: &Bits, y: &Bits, claim: u32) -> Verdict {
        let bits = shift::lshr(&kept.lookup, &width_bits(kept, x), x, y);
        compare_bits(&kept.lookup, &bits, claim)
    }
}

#[derive(Clone, Copy)]
struct SignedRight {
    standard: bool,
}

impl SignedRight {
    // Whether a claim is held, by the bits of x. Only a BvBbTerm has the bit `false`.
    fn is_held(self, x: &Bits) -> bool
        ensures { (k : Kept) (t : Tree) → BitsOf k x.now.items t
            → result ≡ cond self.standard true (ends_in_false t) }
    {
        self.standard || x.last().copied().unwrap_or(TRUE) == FALSE
    }
}

impl Binary for SignedRight {
    ghost kind = { BvAShr };

    ghost verdict = { λ s x y claim.
        compare (cond (cond s.standard true (ends_in_false x)) held form_only)
        (shifted (ashr term_gates s.standard) x y) claim };

    ghost asks = { λ ss. refl };

    fn operands(term: Term) -> Option<(u32, u32)> {
        let Term::BvAShr(x, y) = term else {
            return None;
        };
        Some((x, y))
    }

    // The claim is the term of x's bits, y places down.
    fn check(self, kept: &Kept, x: &Bits, y: &Bits, claim: u32) -> Verdict {
        let bits = shift::ashr(&kept.lookup, &width_bits(kept, x), x, y, self.standard);
        compare_bits_as(
            held_or_form_only(self.is_held(x)),
            &kept.lookup,
            &bits,
            claim,
        )
    }
}

// shl: (= (bvshl x y) claim).
pub fn shl(literal: &Literal) -> Verdict
    ensures { verdict_of result ≡ verdict by_shl (literal_term literal.now) }
{
    binary_rule(Left, literal)
}

// lshr: (= (bvlshr x y) claim).
pub fn lshr(literal: &Literal) -> Verdict
    ensures { verdict_of result ≡ verdict by_lshr (literal_term literal.now) }
{
    binary_rule(Right, literal)
}

// ashr: (= (bvashr x y) claim).
pub fn ashr(literal: &Literal) -> Verdict
    ensures { verdict_of result ≡ verdict by_ashr (literal_term literal.now) }
{
    binary_rule(SignedRight { standard: false }, literal)
}

// ashr by the standard: (= (bvashr x y) claim).
pub fn ashr_standard(literal: &Literal) -> Verdict
    ensures { verdict_of result ≡ verdict by_ashr_standard (literal_term literal.now) }
{
    binary_rule(SignedRight { standard: true }, literal)
}

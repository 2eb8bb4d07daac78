// Rules of bits: xnor, not and neg.
ghost use Rattle.std.specs.Prelude.{◌≡◌, map, refl};
ghost use Rattle.theory.specs.Sort.{is_bv_sort};
ghost use Rattle.theory.specs.Bits.{bb, get_term_bits, zipped};
ghost use Rattle.theory.specs.Verdict.{held};
ghost use Rattle.theory.specs.Term.{two};
ghost use Rattle.theory.specs.Kind.{Equals, BvNot, BvNeg, BvXNor, kind as kind_number};
ghost use Rattle.theory.specs.Gates.{term_gates};
ghost use Rattle.theory.specs.Circuit.{negate};
ghost use Rattle.theory.specs.RuleTable.{by_xnor, by_not, by_neg};
ghost use Rattle.theory.specs.Rule.{compare, verdict};
ghost use Rattle.operand_rules.specs.Literal.{literal_term};
ghost use Rattle.operand_rules.specs.Rules.{verdict_of};
ghost use lib.Ieee.Fits.{and_l};

use crate::Verdict;
use crate::bits::{compare_bits, get_term_bits, width_at};
use crate::literal::Literal;
use crate::operation::{Binary, Unary, binary_rule, unary_rule};
use circuits::adder::negate;
use circuits::bits::{Bits, eqs, nots};
use store::gates::Kept;
use terms::Term;

#[derive(Clone, Copy)]
struct Equivalence;

impl Binary for Equivalence {
    ghost kind = { BvXNor };

    ghost verdict = { λ s x y claim. compare held (zipped (two Equals) x y) claim };

    ghost asks = { λ ss. refl };

    fn operands(term: Term) -> Option<(u32, u32)> {
        let Term::BvXNor(x, y) = term else {
            return None;
        };
        Some((x, y))
    }

    // The claim is the term of the bits' equations.
    fn check(self, kept: &Kept, x: &Bits, y: &Bits, claim: u32) -> Verdict {
        compare_bits(&kept.lookup, &eqs(&kept.lookup, x, y), claim)
    }
}

// xnor: (= (bvxnor x y) claim).
pub fn xnor(literal: &Literal) -> Verdict
    ensures { verdict_of result ≡ verdict by_xnor (literal_term literal.now) }
{
    binary_rule(Equivalence, literal)
}

#[derive(Clone, Copy)]
struct Complement;

impl Unary for Complement {
    ghost kind = { λ s. BvNot };

    ghost number = { kind_number BvNot };

    ghost verdict = { λ i x claim.
        compare held (bb (map term_gates.not_gate (get_term_bits x))) claim };

    ghost numbered = { λ s. refl };

    ghost asks = { λ s t h. and_l (is_bv_sort t) _ h };

    fn of(term: Term) -> Option<(Complement, u32)> {
        let Term::BvNot(x) = term else {
            return None;
        };
        Some((Complement, x))
    }

    // The claim is the term of the bits inverted.
    fn check(self, kept: &Kept, x: u32, claim: u32) -> Verdict {
        let w = width_at(kept, x);
        let xs = get_term_bits(kept, x, w);
        compare_bits(&kept.lookup, &nots(&kept.lookup, &xs), claim)
    }
}

// not: (= (bvnot x) claim).
pub fn not(literal: &Literal) -> Verdict
    ensures { verdict_of result ≡ verdict by_not (literal_term literal.now) }
{
    unary_rule::<Complement>(literal)
}

#[derive(Clone, Copy)]
struct Negation;

impl Unary for Negation {
    ghost kind = { λ s. BvNeg };

    ghost number = { kind_number BvNeg };

    ghost verdict = { λ i x claim.
        compare held (bb (negate term_gates (get_term_bits x))) claim };

    ghost numbered = { λ s. refl };

    ghost asks = { λ s t h. and_l (is_bv_sort t) _ h };

    fn of(term: Term) -> Option<(Negation, u32)> {
        let Term::BvNeg(x) = term else {
            return None;
        };
        Some((Negation, x))
    }

    // The claim is the term of the negated number's bits.
    fn check(self, kept: &Kept, x: u32, claim: u32) -> Verdict {
        let w = width_at(kept, x);
        let xs = get_term_bits(kept, x, w);
        compare_bits(&kept.lookup, &negate(&kept.lookup, &xs), claim)
    }
}

// neg: (= (bvneg x) claim).
pub fn neg(literal: &Literal) -> Verdict
    ensures { verdict_of result ≡ verdict by_neg (literal_term literal.now) }
{
    unary_rule::<Negation>(literal)
}

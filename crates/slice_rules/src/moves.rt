// The rules zero_extend, rotate_left, rotate_right and repeat: bits that are moved, and no gates.
ghost use Rattle.std.specs.Prelude.{◌≡◌, refl};
ghost use lib.Ieee.Fits.{and_l};
ghost use Rattle.theory.specs.Kind as K;
ghost use Rattle.theory.specs.Sort.{is_bv_sort};
ghost use Rattle.theory.specs.Move.{zero_extension, left_rotation, right_rotation, repetition};
ghost use Rattle.theory.specs.RuleTable.{by_zero_extend, by_repeat};
ghost use Rattle.theory.specs.RuleTable.{by_rotate_left, by_rotate_right};
ghost use Rattle.theory.specs.Rule.{verdict};
ghost use Rattle.operand_rules.specs.Literal.{literal_term};
ghost use Rattle.operand_rules.specs.Rules.{verdict_of};
ghost use Rattle.slice_rules.specs.Moves.{moving};

use crate::movement::{Move, moved_check};
use operand_rules::Verdict;
use operand_rules::bits::width_at;
use operand_rules::literal::Literal;
use operand_rules::operation::{Unary, unary_rule};
use store::gates::Kept;
use terms::Term;

// So many zeros above the operand's bits.
#[derive(Clone, Copy)]
struct ZeroExtension {
    zeros: u32,
}

impl Unary for ZeroExtension {
    ghost kind = { λ s. K.ZeroExtend s.zeros };

    ghost number = { K.kind (K.ZeroExtend 0) };

    ghost verdict = { moving zero_extension };

    ghost numbered = { λ s. refl };

    ghost asks = { λ s t h. and_l (is_bv_sort t) _ h };

    fn of(term: Term) -> Option<(ZeroExtension, u32)> {
        let Term::ZeroExtend(zeros, x) = term else {
            return None;
        };
        Some((ZeroExtension { zeros }, x))
    }

    fn check(self, kept: &Kept, x: u32, claim: u32) -> Verdict {
        let w = width_at(kept, x);
        let size = w + self.zeros as usize;
        let by = Move {
            size,
            shift: 0,
            cycle: size,
        };
        moved_check(kept, x, w, by, claim)
    }
}

// zero_extend: (= ((_ zero_extend k) x) claim).
pub fn zero_extend(literal: &Literal) -> Verdict
    ensures { verdict_of result ≡ verdict by_zero_extend (literal_term literal.now) }
{
    unary_rule::<ZeroExtension>(literal)
}

// The operand's bits so many places up, the top ones coming in below.
#[derive(Clone, Copy)]
struct LeftRotation {
    places: u32,
}

impl Unary for LeftRotation {
    ghost kind = { λ s. K.RotateLeft s.places };

    ghost number = { K.kind (K.RotateLeft 0) };

    ghost verdict = { moving left_rotation };

    ghost numbered = { λ s. refl };

    ghost asks = { λ s t h. and_l (is_bv_sort t) _ h };

    fn of(term: Term) -> Option<(LeftRotation, u32)> {
        let Term::RotateLeft(places, x) = term else {
            return None;
        };
        Some((LeftRotation { places }, x))
    }

    fn check(self, kept: &Kept, x: u32, claim: u32) -> Verdict {
        let w = width_at(kept, x);
        let shift = w - self.places as usize % w;
        let by = Move {
            size: w,
            shift,
            cycle: w,
        };
        moved_check(kept, x, w, by, claim)
    }
}

// rotate_left: (= ((_ rotate_left k) x) claim).
pub fn rotate_left(literal: &Literal) -> Verdict
    ensures { verdict_of result ≡ verdict by_rotate_left (literal_term literal.now) }
{
    unary_rule::<LeftRotation>(literal)
}

// The operand's bits so many places down, the low ones coming in above.
#[derive(Clone, Copy)]
struct RightRotation {
    places: u32,
}

impl Unary for RightRotation {
    ghost kind = { λ s. K.RotateRight s.places };

    ghost number = { K.kind (K.RotateRight 0) };

    ghost verdict = { moving right_rotation };

    ghost numbered = { λ s. refl };

    ghost asks = { λ s t h. and_l (is_bv_sort t) _ h };

    fn of(term: Term) -> Option<(RightRotation, u32)> {
        let Term::RotateRight(places, x) = term else {
            return None;
        };
        Some((RightRotation { places }, x))
    }

    fn check(self, kept: &Kept, x: u32, claim: u32) -> Verdict {
        let w = width_at(kept, x);
        let shift = self.places as usize % w;
        let by = Move {
            size: w,
            shift,
            cycle: w,
        };
        moved_check(kept, x, w, by, claim)
    }
}

// rotate_right: (= ((_ rotate_right k) x) claim).
pub fn rotate_right(literal: &Literal) -> Verdict
    ensures { verdict_of result ≡ verdict by_rotate_right (literal_term literal.now) }
{
    unary_rule::<RightRotation>(literal)
}

// So many copies of the operand's bits.
#[derive(Clone, Copy)]
struct Repetition {
    copies: u32,
}

impl Unary for Repetition {
    ghost kind = { λ s. K.Repeat s.copies };

    ghost number = { K.kind (K.Repeat 0) };

    ghost verdict = { moving repetition };

    ghost numbered = { λ s. refl };

    ghost asks = { λ s t h. and_l (is_bv_sort t) _ h };

    fn of(term: Term) -> Option<(Repetition, u32)> {
        let Term::Repeat(copies, x) = term else {
            return None;
        };
        Some((Repetition { copies }, x))
    }

    fn check(self, kept: &Kept, x: u32, claim: u32) -> Verdict {
        let w = width_at(kept, x);
        let size = self.copies as usize * w;
        let by = Move {
            size,
            shift: 0,
            cycle: w,
        };
        moved_check(kept, x, w, by, claim)
    }
}

// repeat: (= ((_ repeat k) x) claim).
pub fn repeat(literal: &Literal) -> Verdict
    ensures { verdict_of result ≡ verdict by_repeat (literal_term literal.now) }
{
    unary_rule::<Repetition>(literal)
}

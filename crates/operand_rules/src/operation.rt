// The rule of an operation of one or two bit-vectors: its literal is (= (op x ..) claim).
ghost use Rattle.std.specs.Prelude.{◌≡◌, List, [], ◌∷◌, ℕ, T, ◌+◌, ◌<◌, ◌≤◌, length};
ghost use Rattle.theory.specs.Limit.{first_terms};
ghost use Rattle.theory.specs.Kind.{Op, indices, kind as kind_number};
ghost use Rattle.theory.specs.Term.{Term as Tree};
ghost use Rattle.theory.specs.Sort.{Sort, is_bv_sort, alike, fitting};
ghost use Rattle.theory.specs.Verdict.{Verdict as Said};
ghost use Rattle.theory.specs.Rule.{nth};
ghost use Rattle.store.specs.Kept.{kept_term};
ghost use Rattle.operand_rules.specs.Literal.{literal_term};
ghost use Rattle.operand_rules.specs.Rules.{BitsOf, OneFits, verdict_of};
ghost use Rattle.operand_rules.specs.Operations.{OperandOf, OperandsOf, by_unary, by_binary};

use crate::Verdict;
use crate::bits::{get_term_bits, width_at};
use crate::literal::Literal;
use circuits::bits::Bits;
use store::gates::Kept;
use terms::Term;

// An operation of one bit-vector, with the numbers in its kind.
pub trait Unary: Sized {
    // the kind of its terms
    ghost kind: { Self → Op };

    // that kind's number, whatever the numbers in it
    ghost number: { ℕ };

    // the verdict on an operand and a claim, by the numbers in the kind
    ghost verdict: { (ℕ → ℕ) → Tree → Tree → Said };

    // The operation and its operand, of a term of this kind.
    fn of(term: Term) -> Option<(Self, u32)>
        ensures { OperandOf kind number term result };

    // Whether the claim is what the rule expects of the operand x.
    fn check(self, kept: &Kept, x: u32, claim: u32) -> Verdict
        requires { OneFits kept.now (kind self) x claim }
        ensures { verdict_of result
            ≡ verdict (λ i. nth i (indices (kind self))) (kept_term kept.now x)
            (kept_term kept.now claim) };

    // its terms have the kind's number
    ghost numbered: { (s : Self) → kind_number (kind s) ≡ number };

    // its operand is a bit-vector
    ghost asks: { (s : Self) (t : Sort) → T (fitting (kind s) (t ∷ [])) → T (is_bv_sort t) };
}

// The rule: (= (op x) claim).
pub fn unary_rule<U: Unary>(literal: &Literal) -> Verdict
    ensures { verdict_of result ≡ by_unary U.number U.verdict (literal_term literal.now) }
{
    let kept = &literal.kept;
    let Term::Equals(l, r) = kept.term_at(literal.place) else {
        return Verdict::WrongForm;
    };
    let Some((operation, x)) = U::of(kept.term_at(l)) else {
        return Verdict::WrongForm;
    };
    operation.check(kept, x, r)
}

// An operation of two bit-vectors of one width.
pub trait Binary: Copy {
    // the kind of its terms
    ghost kind: { Op };

    // the verdict on both operands and a claim
    ghost verdict: { Self → Tree → Tree → Tree → Said };

    // The two, of a term of this kind.
    fn operands(term: Term) -> Option<(u32, u32)>
        ensures { OperandsOf kind term result };

    // Whether the claim is what the rule expects of operands that have the bits x and y.
    fn check(self, kept: &Kept, x: &Bits, y: &Bits, claim: u32) -> Verdict
        requires some { 1 ≤ length x.now.items }
        requires alike { length x.now.items ≡ length y.now.items }
        requires claimed { claim < first_terms + kept.now.lookup.rows }
        ensures { (s t : Tree) → BitsOf kept.now x.now.items s → BitsOf kept.now y.now.items t
            → verdict_of result ≡ verdict self s t (kept_term kept.now claim) };

    // its operands are bit-vectors of one width
    ghost asks: { (ss : List Sort) → fitting kind ss ≡ alike ss };
}

// The rule: (= (op x y) claim).
pub fn binary_rule<B: Binary>(operation: B, literal: &Literal) -> Verdict
    ensures { verdict_of result
        ≡ by_binary B.kind (B.verdict operation) (literal_term literal.now) }
{
    let kept = &literal.kept;
    let Term::Equals(l, r) = kept.term_at(literal.place) else {
        return Verdict::WrongForm;
    };
    let Some((x, y)) = B::operands(kept.term_at(l)) else {
        return Verdict::WrongForm;
    };
    let w = width_at(kept, x);
    let xs = get_term_bits(kept, x, w);
    let ys = get_term_bits(kept, y, w);
    operation.check(kept, &xs, &ys, r)
}

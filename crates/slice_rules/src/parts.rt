// The rules extract, sign_extend and concat: bits that are copied, and no gates.
ghost use Rattle.std.specs.Prelude.{◌≡◌, cond, ◌+◌, eqb, refl};
ghost use lib.Ieee.Fits.{and_l};
ghost use Rattle.theory.specs.Kind as K;
ghost use Rattle.theory.specs.Sort.{is_bv_sort};
ghost use Rattle.theory.specs.Bits.{get_term_bits, bb, extract_bits, concat_bits, extend_bits};
ghost use Rattle.theory.specs.Verdict.{held};
ghost use Rattle.theory.specs.RuleTable.{by_extract, by_concat, by_sign_extend};
ghost use Rattle.theory.specs.Rule.{args_of, extend_kind, extract_kind, form, compare, verdict};
ghost use Rattle.store.specs.Kept.{kept_term, kept_arguments};
ghost use Rattle.operand_rules.specs.Literal.{literal_term};
ghost use Rattle.operand_rules.specs.Rules.{verdict_of};
ghost use Rattle.slice_rules.specs.Given.{Concat};

use circuits::bits::{Bits, append, same_bits};
use operand_rules::Verdict;
use operand_rules::bits::{compare_bits, get_term_bits, width_at};
use operand_rules::literal::Literal;
use operand_rules::operation::{Unary, unary_rule};
use store::gates::Kept;
use terms::{Args, Term};

// The operand's bits `lower` to `upper`.
#[derive(Clone, Copy, PartialEq)]
pub(crate) struct Extraction {
    pub(crate) upper: u32,
    pub(crate) lower: u32,
}

impl Unary for Extraction {
    ghost kind = { λ s. K.BvExtract s.upper s.lower };

    ghost number = { extract_kind };

    ghost verdict = { λ i x claim. form (args_of (K.kind K.BvBbTerm) claim) (λ ts.
        compare held (bb (extract_bits (i 0) (i 1) (get_term_bits x))) claim) };

    ghost numbered = { λ s. refl };

    ghost asks = { λ s t h. and_l (is_bv_sort t) _ h };

    fn of(term: Term) -> Option<(Extraction, u32)> {
        let Term::BvExtract(upper, lower, x) = term else {
            return None;
        };
        Some((Extraction { upper, lower }, x))
    }

    // The claim is the term of these bits, and a BvBbTerm.
    fn check(self, kept: &Kept, x: u32, claim: u32) -> Verdict {
        let Term::BvBbTerm(_) = kept.term_at(claim) else {
            return Verdict::WrongForm;
        };
        let xs = get_term_bits(kept, x, width_at(kept, x));
        let part = &xs[self.lower as usize..self.upper as usize + 1];
        operand_rules::compare(kept.lookup.bb_term(part), claim)
    }
}

// extract: (= ((_ extract i j) x) claim), the claim a BvBbTerm.
pub fn extract(literal: &Literal) -> Verdict
    ensures { verdict_of result ≡ verdict by_extract (literal_term literal.now) }
{
    unary_rule::<Extraction>(literal)
}

// So many copies of the operand's top bit above its bits.
#[derive(Clone, Copy)]
struct SignExtension {
    copies: u32,
}

impl Unary for SignExtension {
    ghost kind = { λ s. K.SignExtend s.copies };

    ghost number = { extend_kind };

    ghost verdict = { λ i x claim. compare held
        (cond (eqb (i 0) 0) x (bb (extend_bits (i 0) (get_term_bits x)))) claim };

    ghost numbered = { λ s. refl };

    ghost asks = { λ s t h. and_l (is_bv_sort t) _ h };

    fn of(term: Term) -> Option<(SignExtension, u32)> {
        let Term::SignExtend(copies, x) = term else {
            return None;
        };
        Some((SignExtension { copies }, x))
    }

    // The claim is the operand itself where there are no copies, else the term of the bits.
    fn check(self, kept: &Kept, x: u32, claim: u32) -> Verdict {
        if self.copies == 0 {
            return operand_rules::compare(x, claim);
        }
        let w = width_at(kept, x);
        let mut bits = get_term_bits(kept, x, w);
        let top = bits[w - 1];
        append(&mut bits, &same_bits(top, self.copies as usize));
        compare_bits(&kept.lookup, &bits, claim)
    }
}

// sign_extend: (= ((_ sign_extend k) x) claim).
pub fn sign_extend(literal: &Literal) -> Verdict
    ensures { verdict_of result ≡ verdict by_sign_extend (literal_term literal.now) }
{
    unary_rule::<SignExtension>(literal)
}

// The claim is the term of all arguments' bits, the last argument's first.
fn concat_check(kept: &Kept, list: Args, claim: u32) -> Verdict
    requires { Concat kept.now list claim }
    ensures { verdict_of result ≡ compare held
        (bb (concat_bits (kept_arguments kept.now list))) (kept_term kept.now claim) }
{
    let mut bits = Bits::new();
    for x in list.numbers(kept.lookup.job).rev() {
        append(&mut bits, &get_term_bits(kept, x, width_at(kept, x)));
    }
    compare_bits(&kept.lookup, &bits, claim)
}

// concat: (= (concat x y ..) claim), the claim a BvBbTerm.
pub fn concat(literal: &Literal) -> Verdict
    ensures { verdict_of result ≡ verdict by_concat (literal_term literal.now) }
{
    let kept = &literal.kept;
    let Term::Equals(l, r) = kept.term_at(literal.place) else {
        return Verdict::WrongForm;
    };
    let Term::BvConcat(list) = kept.term_at(l) else {
        return Verdict::WrongForm;
    };
    let Term::BvBbTerm(_) = kept.term_at(r) else {
        return Verdict::WrongForm;
    };
    concat_check(kept, list, r)
}

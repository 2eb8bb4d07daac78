// The operations on lists that take bits one by one: and, or and xor.
ghost use Rattle.std.specs.Prelude.{refl};
ghost use Rattle.theory.specs.Kind as K;
ghost use Rattle.theory.specs.Term.{two};
ghost use Rattle.theory.specs.Circuit.{zip_with};
ghost use Rattle.theory.specs.Bits.{fold_terms, zipped};
ghost use Rattle.operand_rules.proofs.Folds.{two_or_more, one_alone};

use crate::folds::Operation;
use circuits::bits::{Bits, ands, ors, xors};
use store::gates::Kept;
use terms::{Args, Term};

pub(crate) struct Conjunction;

impl Operation for Conjunction {
    ghost kind = { K.BvAnd };

    ghost circuit = { zip_with (two K.And) };

    ghost expected = { fold_terms (zipped (two K.And)) };

    ghost LEAST = { 2 };

    const LEAST: usize = 2;

    ghost takes = { refl };

    ghost asks = { λ ss. refl };

    ghost enough = { two_or_more (zip_with (two K.And)) };

    ghost alone = { one_alone (zipped (two K.And)) };

    fn arguments(term: Term) -> Option<Args> {
        let Term::BvAnd(list) = term else {
            return None;
        };
        Some(list)
    }

    fn combine(kept: &Kept, x: &Bits, y: &Bits) -> Bits {
        ands(&kept.lookup, x, y)
    }
}

pub(crate) struct Disjunction;

impl Operation for Disjunction {
    ghost kind = { K.BvOr };

    ghost circuit = { zip_with (two K.Or) };

    ghost expected = { fold_terms (zipped (two K.Or)) };

    ghost LEAST = { 2 };

    const LEAST: usize = 2;

    ghost takes = { refl };

    ghost asks = { λ ss. refl };

    ghost enough = { two_or_more (zip_with (two K.Or)) };

    ghost alone = { one_alone (zipped (two K.Or)) };

    fn arguments(term: Term) -> Option<Args> {
        let Term::BvOr(list) = term else {
            return None;
        };
        Some(list)
    }

    fn combine(kept: &Kept, x: &Bits, y: &Bits) -> Bits {
        ors(&kept.lookup, x, y)
    }
}

pub(crate) struct ExclusiveOr;

impl Operation for ExclusiveOr {
    ghost kind = { K.BvXor };

    ghost circuit = { zip_with (two K.Xor) };

    ghost expected = { fold_terms (zipped (two K.Xor)) };

    ghost LEAST = { 2 };

    const LEAST: usize = 2;

    ghost takes = { refl };

    ghost asks = { λ ss. refl };

    ghost enough = { two_or_more (zip_with (two K.Xor)) };

    ghost alone = { one_alone (zipped (two K.Xor)) };

    fn arguments(term: Term) -> Option<Args> {
        let Term::BvXor(list) = term else {
            return None;
        };
        Some(list)
    }

    fn combine(kept: &Kept, x: &Bits, y: &Bits) -> Bits {
        xors(&kept.lookup, x, y)
    }
}

// The operations on lists that carry from bit to bit: mult and add.
ghost use Rattle.std.specs.Prelude.{refl};
ghost use Rattle.theory.specs.Kind as K;
ghost use Rattle.theory.specs.Term.{node, nil};
ghost use Rattle.theory.specs.Gates.{term_gates};
ghost use Rattle.theory.specs.Circuit.{ripple_carry_adder, shift_add_multiplier};
ghost use Rattle.theory.specs.Bits.{bb, fold_terms, product, add_bits};
ghost use Rattle.operand_rules.proofs.Folds.{two_or_more, one_alone, sum_bits, none_fewer};

use crate::folds::Operation;
use circuits::adder::ripple_carry_adder;
use circuits::bits::Bits;
use circuits::multiplier::shift_add_multiplier;
use store::gates::{FALSE, Kept};
use terms::{Args, Term};

pub(crate) struct Product;

impl Operation for Product {
    ghost kind = { K.BvMul };

    ghost circuit = { shift_add_multiplier term_gates };

    ghost expected = { fold_terms product };

    ghost LEAST = { 2 };

    const LEAST: usize = 2;

    ghost takes = { refl };

    ghost asks = { λ ss. refl };

    ghost enough = { two_or_more (shift_add_multiplier term_gates) };

    ghost alone = { one_alone product };

    fn arguments(term: Term) -> Option<Args> {
        let Term::BvMul(list) = term else {
            return None;
        };
        Some(list)
    }

    fn combine(kept: &Kept, x: &Bits, y: &Bits) -> Bits {
        shift_add_multiplier(&kept.lookup, x, y)
    }
}

pub(crate) struct Sum;

impl Operation for Sum {
    ghost kind = { K.BvAdd };

    ghost circuit = { ripple_carry_adder term_gates (node K.False nil) };

    ghost expected = { λ ts. bb (add_bits ts) };

    ghost LEAST = { 1 };

    const LEAST: usize = 1;

    ghost takes = { refl };

    ghost asks = { λ ss. refl };

    ghost enough = { λ t ts h. sum_bits t ts };

    ghost alone = { none_fewer };

    fn arguments(term: Term) -> Option<Args> {
        let Term::BvAdd(list) = term else {
            return None;
        };
        Some(list)
    }

    fn combine(kept: &Kept, x: &Bits, y: &Bits) -> Bits {
        let sum = ripple_carry_adder(&kept.lookup, x, y, FALSE);
        sum.bits
    }
}

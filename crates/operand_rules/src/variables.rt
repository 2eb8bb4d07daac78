// The rule var.
ghost use Rattle.std.specs.Prelude.{◌≡◌, ◌+◌, ◌<◌};
ghost use Rattle.theory.specs.Bits.{bb};
ghost use Rattle.theory.specs.Verdict.{held};
ghost use Rattle.theory.specs.Limit.{first_terms};
ghost use Rattle.theory.specs.RuleTable.{by_var};
ghost use Rattle.theory.specs.Rule.{compare, of_bits, verdict};
ghost use Rattle.store.specs.Kept.{kept_term, kept_bits};
ghost use Rattle.operand_rules.specs.Literal.{literal_term};
ghost use Rattle.operand_rules.specs.Rules.{verdict_of};

use crate::Verdict;
use crate::bits::{compare_bits, get_term_bits};
use crate::literal::Literal;
use store::gates::Kept;
use store::sorts::Sort;
use terms::Term;

// The claim is the term of the bits of x.
fn var_check(kept: &Kept, x: u32, claim: u32) -> Verdict
    requires place { x < first_terms + kept.now.lookup.rows }
    requires claim { claim < first_terms + kept.now.lookup.rows }
    ensures { verdict_of result ≡ of_bits (kept_term kept.now x)
        (compare held (bb (kept_bits kept.now x)) (kept_term kept.now claim)) }
{
    let Sort::Bv(width) = kept.sort_at(x) else {
        return Verdict::NotBitVector;
    };
    compare_bits(&kept.lookup, &get_term_bits(kept, x, width as usize), claim)
}

// var: (= x claim).
pub fn var(literal: &Literal) -> Verdict
    ensures { verdict_of result ≡ verdict by_var (literal_term literal.now) }
{
    let kept = &literal.kept;
    let Term::Equals(l, r) = kept.term_at(literal.place) else {
        return Verdict::WrongForm;
    };
    var_check(kept, l, r)
}

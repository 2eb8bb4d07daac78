// The rules of the operations whose circuits shift: shl, lshr and ashr, udiv and urem.
#![tactic(auto, unfolding(theory::specs::Rule::verdict, theory::specs::Rule::on_sides))]

pub mod division;
pub mod shifts;

ghost use Rattle.std.specs.Prelude.{◌≡◌, cond};
ghost use Rattle.theory.specs.Verdict.{held, form_only};
ghost use Rattle.operand_rules.specs.Rules.{verdict_of};

use operand_rules::Verdict;

// The verdict where the claim is the expected one: held, or accepted for its form only.
fn held_or_form_only(is_held: bool) -> Verdict
    ensures { verdict_of result ≡ cond is_held held form_only }
{
    if is_held {
        Verdict::Held
    } else {
        Verdict::FormOnly
    }
}

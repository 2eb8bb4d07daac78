// Chains: steps that join the equalities of earlier steps. A premise is an earlier step that is
// held and whose literal has not been dropped since.
#![tactic(auto)]

mod joining;
pub mod premises;

ghost use Rattle.std.specs.Prelude.{◌≡◌, ◌+◌, ◌<◌, cond, Some as some};
ghost use Rattle.theory.specs.Limit.{first_terms};
ghost use Rattle.theory.specs.Optional.{is_some};
ghost use Rattle.theory.specs.Verdict.{wrong_form, premise_broken};
ghost use Rattle.theory.specs.RuleTable.{ChainRule as Rule, chain_rule_at};
ghost use Rattle.theory.specs.Chain.{joined};
ghost use Rattle.terms.specs.Decoded.{Inside};
ghost use Rattle.store.specs.KeptTerms.{kept_term};
ghost use Rattle.operand_rules.specs.Rules.{verdict_of};
ghost use Rattle.chains.specs.Rules.{rule_of, Decodes};
ghost use Rattle.chains.specs.Told.{premises_told};

use crate::joining::Claim;
use crate::premises::Past;
use operand_rules::Verdict;
use rules::UnknownRule;
use terms::{Args, Term};

// How premises may join.
#[derive(Clone, Copy)]
pub enum ChainRule {
    Symm,
    Trans,
    Cong,
}

impl TryFrom<u32> for ChainRule {
    type Error = UnknownRule;

    ghost try_from_gives = { Decodes };

    fn try_from(number: u32) -> Result<Self, UnknownRule> {
        match number {
            31 => Ok(ChainRule::Symm),
            32 => Ok(ChainRule::Trans),
            33 => Ok(ChainRule::Cong),
            _ => Err(UnknownRule(number)),
        }
    }
}

// Why a chain is not held: a premise is broken, or else its form is wrong.
fn refused(past: &Past, premises: Args) -> Verdict
    requires { Inside past.now.terms.job.now premises }
    ensures { verdict_of result
        ≡ cond (is_some (premises_told past.now premises)) wrong_form premise_broken }
{
    if past.all_stand(premises) {
        Verdict::WrongForm
    } else {
        Verdict::PremiseBroken
    }
}

// The verdict of a chain's rule on its literal. Premises that join all stand, so whether they do is
// asked only where the joining fails.
pub fn verdict_by(past: &Past, rule: ChainRule, premises: Args, literal: u32) -> Verdict
    requires inside { Inside past.now.terms.job.now premises }
    requires below { literal < first_terms + past.now.terms.rows }
    ensures { verdict_of result ≡ joined (rule_of rule) (premises_told past.now premises)
        (kept_term past.now.terms literal) }
{
    let Term::Equals(left, right) = past.terms.term_on(literal) else {
        return refused(past, premises);
    };
    let claim = Claim {
        past,
        premises,
        left,
        right,
    };
    if claim.joins_by(rule) {
        return Verdict::Held;
    }
    refused(past, premises)
}

// The same by the rule's number. Of a number that no rule has, nothing is promised.
pub fn chain_verdict(past: &Past, number: u32, premises: Args, literal: u32) -> Verdict
    requires inside { Inside past.now.terms.job.now premises }
    requires below { literal < first_terms + past.now.terms.rows }
    ensures { (by : Rule) → chain_rule_at number ≡ some by
        → verdict_of result ≡ joined by (premises_told past.now premises)
        (kept_term past.now.terms literal) }
{
    match ChainRule::try_from(number) {
        Ok(rule) => verdict_by(past, rule, premises, literal),
        Err(_) => Verdict::WrongForm,
    }
}

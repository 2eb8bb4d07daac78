// The answer to a step's clause: the verdict, and the depth of the right side where the step
// is accepted.
#![tactic(auto)]

pub mod answers;

ghost use Rattle.std.specs.Prelude.{◌≡◌, ℕ};
ghost use Rattle.theory.specs.Verdict.{accepted};
ghost use Rattle.theory.specs.Job.{answer_to};
ghost use Rattle.store.specs.Kept.{kept_arguments};
ghost use Rattle.operand_rules.specs.Literal.{literal_term};
ghost use Rattle.operand_rules.specs.Rules.{verdict_of};
ghost use Rattle.rules.specs.Rules.{rule_of};
ghost use Rattle.steps.specs.Answering.{given, equation_depth, Literals, Judged};

use crate::answers::Reply;
use rules::{Literal, Rule, Verdict, verdict};
use store::gates::Kept;
use terms::{Args, Term};

// Does a verdict accept the step?
fn accepts(v: Verdict) -> bool
    ensures { result ≡ accepted (verdict_of v) }
{
    matches!(v, Verdict::Held | Verdict::FormOnly)
}

// The depth of the right side of a literal that is an equation, and 0 of any other.
fn right_depth(literal: &Literal) -> usize
    ensures { result ≡ equation_depth (literal_term literal.now) }
{
    let kept = &literal.kept;
    let Term::Equals(_, r) = kept.term_at(literal.place) else {
        return 0;
    };
    kept.depth_at(r)
}

// The answer with that verdict on a literal.
pub fn judge(literal: &Literal, v: Verdict) -> Reply
    ensures { Judged (verdict_of v) (literal_term literal.now) result }
{
    let depth = if accepts(v) { right_depth(literal) } else { 0 };
    Reply { verdict: v, depth }
}

// The answer of a rule to a clause, but for the rule's number.
pub fn answer(kept: &Kept, rule: Rule, literals: Args) -> Reply
    requires { Literals kept.now literals }
    ensures { (number : ℕ) → given number result
        ≡ answer_to number (rule_of rule) (kept_arguments kept.now literals) }
{
    if literals.count != 1 {
        return Reply {
            verdict: Verdict::NotOneLiteral,
            depth: 0,
        };
    }
    let place = Term::argument(kept.lookup.job, literals, 0);
    let literal = Literal::new(kept, place);
    judge(&literal, verdict(rule, &literal))
}

// Records that are answered: steps of either kind.
ghost use Rattle.std.specs.Prelude.{◌≡◌, cond, [], ◌∷◌, ℕ, suc, ◌+◌, ◌*◌, ◌≤◌, leb, length};
ghost use Rattle.theory.specs.Limit.{answer_bytes};
ghost use Rattle.theory.specs.Limit as L;
ghost use Rattle.theory.specs.Record.{number_length};
ghost use Rattle.terms.specs.declared.Item.TheVariants as I;
ghost use Rattle.terms.specs.Numbered.{code_in};
ghost use Rattle.steps.specs.Answering.{given, with_notes};
ghost use Rattle.chains.specs.Premises.{Noted};
ghost use Rattle.records.specs.Turning.{turn, Reading, Turned};

use crate::{Position, Turn};
use chains::premises::Past;
use chains::{ChainRule, verdict_by};
use rows::FIRST_PLACE;
use rules::{Literal, Rule};
use steps::answers::{Answers, Reply, put_answer};
use steps::{answer, judge};
use store::gates::Kept;
use terms::stop::Stop;
use terms::{Args, DEPTH_AT, Term};

// `NoRoom` where there is no room for one more answer.
fn room_fault(here: &Position, space: usize) -> Result<(), Stop>
    requires { answer_bytes (number_length here.now.job.now) * here.now.answered ≤ space }
    ensures { code_in result ≡ cond
        (leb (answer_bytes (number_length here.now.job.now) * suc here.now.answered) space) 0 19 }
{
    let size = DEPTH_AT + Term::number_length(here.job);
    if space - size * here.answered < size {
        return Err(Stop::NoRoom);
    }
    Ok(())
}

// The answer to a step of either kind is written.
fn answered_turn(here: &Position, answers: &mut [u8], rule: u32, reply: Reply) -> Turn
    requires { answer_bytes (number_length here.now.job.now) * suc here.now.answered
        ≤ length answers.old }
    ensures written { answers.new ≡ with_notes (number_length here.now.job.now) answers.old
        here.now.answered here.now.at (given rule reply ∷ []) }
    ensures turned { result ≡ turn (here.now.answered + 1) here.now.rows 0 }
{
    let bytes = Term::number_length(here.job);
    let code = u32::from(reply.verdict);
    put_answer(
        answers,
        bytes,
        here.answered,
        here.at,
        rule,
        code,
        reply.depth,
    );
    Turn {
        answers: here.answered + 1,
        rows: here.rows,
        repeats: 0,
    }
}

// A step: `NoTerm` where a literal is not kept, `NoRule` where there is no such rule, `NoRoom`
// where there is no room for its answer; else the answer is written.
pub(crate) fn step_record(
    here: &Position,
    work: &[u8],
    answers: &mut [u8],
    rule: u32,
    literals: Args,
) -> Result<Turn, Stop>
    requires reading { Reading here.now.job.now work.now here.now.rows here.now.at
        (I.Step rule literals) }
    requires roomy { answer_bytes (number_length here.now.job.now) * here.now.answered
        ≤ length answers.old }
    ensures { (limits : L.Limits) (place : ℕ)
        → Turned limits place here.now.job.now work.now answers.old
        here.now.rows here.now.answered here.now.at work.now answers.new result }
{
    if !Term::all_below(here.job, literals, (here.rows + FIRST_PLACE) as u32) {
        return Err(Stop::NoTerm);
    }
    let by = Rule::try_from(rule)?;
    room_fault(here, answers.len())?;
    let reply = answer(&Kept::new(here.job, work, here.rows), by, literals);
    Ok(answered_turn(here, answers, rule, reply))
}

// A chain: the same tests, of its rules and of its literal.
pub(crate) fn chain_record(
    here: &Position,
    work: &[u8],
    answers: &mut [u8],
    rule: u32,
    premises: Args,
    literal: u32,
) -> Result<Turn, Stop>
    requires reading { Reading here.now.job.now work.now here.now.rows here.now.at
        (I.Chain rule premises literal) }
    requires noted { Noted here.now.job.now work.now answers.old here.now.rows here.now.answered }
    ensures { (limits : L.Limits) (place : ℕ)
        → Turned limits place here.now.job.now work.now answers.old
        here.now.rows here.now.answered here.now.at work.now answers.new result }
{
    if (here.rows + FIRST_PLACE) as u32 <= literal {
        return Err(Stop::NoTerm);
    }
    let joins = ChainRule::try_from(rule)?;
    let kept = Kept::new(here.job, work, here.rows);
    let past = Past {
        terms: kept.terms(),
        answers: Answers {
            memory: answers,
            bytes: Term::number_length(here.job),
            count: here.answered,
        },
    };
    room_fault(here, past.answers.memory.len())?;
    let v = verdict_by(&past, joins, premises, literal);
    let reply = judge(&Literal::new(&kept, literal), v);
    Ok(answered_turn(here, answers, rule, reply))
}

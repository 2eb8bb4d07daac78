// One record of a job: its tests in document 01's order, and what it does to the terms and the
// answers where it passes.
#![tactic(auto)]

mod answering;
mod keeping;

ghost use Rattle.std.specs.Prelude.{◌≡◌, true, drop};
ghost use Rattle.theory.specs.Record.{whole};
ghost use Rattle.theory.specs.Codes.{first_fault, opening_tests};
ghost use Rattle.terms.specs.Framing.{record_at};
ghost use Rattle.terms.specs.Numbered.{code_in};
ghost use Rattle.intern.specs.Interning.{limits_of};
ghost use Rattle.chains.specs.Premises.{Noted};
ghost use Rattle.records.specs.Turning.{Turned};

use crate::answering::{chain_record, step_record};
use crate::keeping::{back_record, term_record};
use intern::Limits;
use terms::stop::Stop;
use terms::{Fault, Item, Term};

// What stands after a record that passed: the answers written, the rows kept, and the repeats: 1
// where it is a term that was found, not new.
#[derive(Clone, Copy)]
pub struct Turn {
    pub answers: usize,
    pub rows: usize,
    pub repeats: usize,
}

// Where a job stands before a record: the rows kept, the answers written, and the record's place.
#[derive(Clone, Copy)]
struct Position<'a> {
    job: &'a [u8],
    rows: usize,
    answered: usize,
    at: usize,
}

impl<'a> Position<'a> {
    ghost use Rattle.records.specs.Turning.{turn};

    // What stands after a record that writes no answer.
    fn unanswered(&self, rows: usize, repeats: usize) -> Turn
        ensures { result ≡ turn self.now.answered rows repeats }
    {
        Turn {
            answers: self.answered,
            rows,
            repeats,
        }
    }
}

// Why a record that says no term, step, chain or back stops the job: `Unknown`, unless it is the
// job's first and asks for long numbers; then `Misfit` where it has a body.
fn opening_fault(here: &Position, place: usize) -> Result<(), Stop>
    requires { whole (drop here.now.at here.now.job.now) ≡ true }
    ensures { code_in result
        ≡ first_fault (opening_tests place (record_at here.now.job.now here.now.at)) }
{
    if place != 0 {
        return Err(Stop::Unknown);
    }
    if Term::number(here.job, here.at + Term::KIND_AT) != u32::from(Term::LONG_KIND) {
        return Err(Stop::Unknown);
    }
    // A record's length counts its kind.
    if Term::number(here.job, here.at) as usize != Term::NUMBER_BYTES {
        return Err(Stop::Misfit);
    }
    Ok(())
}

// The whole record at `at`, before which `place` others stand, under limits that the caller states.
// A record that stops the job changes neither memory.
pub fn take_record(
    job: &[u8],
    work: &mut [u8],
    answers: &mut [u8],
    limits: Limits,
    rows: usize,
    answered: usize,
    place: usize,
    at: usize,
) -> Result<Turn, Stop>
    requires noted { Noted job.now work.old answers.old rows answered }
    requires stands { whole (drop at job.now) ≡ true }
    ensures { Turned (limits_of limits) place job.now work.old answers.old
        rows answered at work.new answers.new result }
{
    let here = Position {
        job,
        rows,
        answered,
        at,
    };
    match Term::read(job, at) {
        Ok(Item::Term(t)) => term_record(&here, work, limits, t),
        Ok(Item::Step(rule, literals)) => step_record(&here, work, answers, rule, literals),
        Ok(Item::Chain(rule, premises, literal)) => {
            chain_record(&here, work, answers, rule, premises, literal)
        }
        Ok(Item::Back(count)) => back_record(&here, work, count),
        Err(Fault::Unknown) => {
            opening_fault(&here, place)?;
            Ok(here.unanswered(rows, 0))
        }
        Err(Fault::Misfit) => Err(Stop::Misfit),
    }
}

// A job run to its end, for a host or for what is asked of its final store afterwards.
ghost use Rattle.std.specs.Prelude.{◌≡◌, ◌+◌, ◌<◌, ◌≤◌};
ghost use Rattle.theory.specs.Limit.{rack, first_terms, max_job};
ghost use Rattle.rows.specs.Layout.{place_end};
ghost use Rattle.intern.specs.Interning.{limits_of};
ghost use Rattle.runs.specs.Walking.{told, returned_of, reached};
ghost use Rattle.runs.specs.Finished.{Finished, Small};

use crate::walk::{State, walk};
use crate::{MAX_JOB, Outcome};
use intern::Limits;
use rows::FIRST_PLACE;
use steps::answers::seal;
use terms::Term;
use terms::stop::Stop;

// Runs a job under limits that the caller states: `TooLong` where it is too long. If the job is not
// stopped, the rows of the work memory are the final store.
pub fn run_within(job: &[u8], work: &mut [u8], answers: &mut [u8], limits: Limits) -> State
    ensures { Finished (limits_of limits) job.now work.old answers.old
        work.new answers.new result }
{
    if MAX_JOB < job.len() {
        return State {
            stop: Some(Stop::TooLong),
            ..State::start()
        };
    }
    let s = walk(job, work, answers, limits);
    seal(answers, Term::number_length(job), s.answers);
    s
}

// The same under the rack's limits.
pub fn run_job(job: &[u8], work: &mut [u8], answers: &mut [u8]) -> State
    ensures { Finished rack job.now work.old answers.old
        work.new answers.new result }
{
    let rack = Limits {
        width: Term::MAX_WIDTH,
        terms: Term::LONG_MAX_TERMS as u32,
    };
    run_within(job, work, answers, rack)
}

// What the host is told of a job by its numbers: any code, the records done, the answers written,
// the rows kept, the repeats.
pub fn outcome_of(stop: u32, records: usize, answers: usize, rows: usize, repeats: usize) -> Outcome
    requires few_records { records ≤ max_job }
    requires few_answers { answers ≤ max_job }
    requires few_terms { rows + first_terms < place_end }
    requires few_repeats { repeats ≤ max_job }
    ensures { told result ≡ returned_of stop records answers rows repeats }
{
    Outcome {
        stop,
        records: records as u32,
        answers: answers as u32,
        terms: (rows + FIRST_PLACE) as u32,
        repeats: repeats as u32,
    }
}

impl State {
    // What the host is told of a job that ended so.
    pub fn outcome(self) -> Outcome
        requires { Small self }
        ensures { told result ≡ reached self }
    {
        let stop = self.stop.map_or(0, u32::from);
        outcome_of(stop, self.records, self.answers, self.rows, self.repeats)
    }
}

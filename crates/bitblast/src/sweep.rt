// The sweep of an equality of a job's final store.
ghost use Rattle.std.specs.Prelude.{◌≡◌};
ghost use Rattle.theory.specs.Limit.{rack};
ghost use Rattle.sweeps.specs.Calls.{values_after};
ghost use Rattle.runs.specs.Walking.{told, job_call};
ghost use Rattle.sweeper.specs.Sweeping.{as_swept as swept_by};
ghost use Rattle.bitblast.specs.Asking.{as_swept, sweep_call};

use runs::finished::run_job;
use runs::{Outcome, lend};
use sweeper::sweep_number;
use terms::refusal::Refusal;

// What a sweep comes to: a code, how many assignments there were, on how many the sides differ, and
// the job's own outcome.
#[repr(C)]
#[derive(Clone, Copy)]
pub struct Swept {
    pub code: u32,
    pub assignments: u32,
    pub differing: u32,
    pub outcome: Outcome,
}

impl Swept {
    ghost use Rattle.bitblast.specs.Asking.{as_swept};

    // A refusal has counts of 0.
    fn new(swept: Result<sweeper::Swept, Refusal>, outcome: Outcome) -> Swept
        ensures numbers { as_swept result ≡ swept_by swept }
        ensures outcome { result.outcome ≡ outcome }
    {
        let none = sweeper::Swept {
            assignments: 0,
            differing: 0,
        };
        let counts = swept.unwrap_or(none);
        Swept {
            code: swept.err().map_or(0, u32::from),
            assignments: counts.assignments,
            differing: counts.differing,
            outcome,
        }
    }
}

// Runs a job and sweeps the equality of that number: on how many assignments of its variables the
// two sides differ, for a host. If the job stops early, the code is that of `Refusal::NotAsked`.
#[tactic(auto, using(crate::proofs::AskingLaws::lent_outcome))]
pub fn bb_sweep(
    job: &[u8],
    work: &mut [u8],
    answers: &mut [u8],
    values: &mut [u8],
    number: u32,
) -> Swept
    ensures outcome { told result.outcome ≡ (job_call rack job work answers).result }
    ensures answers { answers.new ≡ (job_call rack job work answers).answer_memory }
    ensures work { work.new ≡ (job_call rack job work answers).work_memory }
    ensures result { as_swept result ≡ sweep_call job work answers values number }
    ensures values { values.new ≡ values_after result.code values.old }
{
    let n = lend(job.len(), work);
    let lent = &mut work[..n];
    let s = run_job(job, lent, answers);
    let swept = match s.stop {
        None => sweep_number(job, lent, s.rows, values, number),
        Some(_) => Err(Refusal::NotAsked),
    };
    table::wipe(work);
    Swept::new(swept, s.outcome())
}

// The bits of a term of a job's final store where only part of its inputs is known.
ghost use Rattle.std.specs.Prelude.{◌≡◌};
ghost use Rattle.theory.specs.Limit.{rack};
ghost use Rattle.sweeps.specs.Calls.{values_after, written};
ghost use Rattle.runs.specs.Walking.{told, job_call};
ghost use Rattle.bitblast.specs.Asking.{known_call};

use partial::number::known_number;
use runs::finished::run_job;
use runs::{Outcome, lend};
use terms::refusal::Refusal;

// What it comes to: a code, and the job's own outcome.
#[repr(C)]
#[derive(Clone, Copy)]
pub struct Known {
    pub code: u32,
    pub outcome: Outcome,
}

// Runs a job and writes the bits of the term of that number, bit 0 first, for a host. A byte is 0,
// 1, or 2 for a bit that is not known; `inputs` has one for each bit of the variables that stand in
// the term, the lowest number first. If the job stops early, the code is that of
// `Refusal::NotAsked`.
#[tactic(auto, using(crate::proofs::AskingLaws::lent_outcome))]
pub fn bb_known(
    job: &[u8],
    work: &mut [u8],
    answers: &mut [u8],
    values: &mut [u8],
    number: u32,
    inputs: &[u8],
    outputs: &mut [u8],
) -> Known
    ensures outcome { told result.outcome ≡ (job_call rack job work answers).result }
    ensures answers { answers.new ≡ (job_call rack job work answers).answer_memory }
    ensures work { work.new ≡ (job_call rack job work answers).work_memory }
    ensures code { result.code ≡ (known_call job work answers values number inputs outputs).code }
    ensures outputs { outputs.new
        ≡ written (known_call job work answers values number inputs outputs).bytes outputs.old }
    ensures values { values.new ≡ values_after result.code values.old }
{
    let n = lend(job.len(), work);
    let lent = &mut work[..n];
    let s = run_job(job, lent, answers);
    let known = match s.stop {
        None => known_number(job, lent, s.rows, values, number, inputs, outputs),
        Some(_) => Err(Refusal::NotAsked),
    };
    table::wipe(work);
    Known {
        code: known.err().map_or(0, u32::from),
        outcome: s.outcome(),
    }
}

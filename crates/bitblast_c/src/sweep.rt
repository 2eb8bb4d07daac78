// The sweep of an equality, for C.
ghost use Rattle.std.specs.Prelude.{◌≡◌};
ghost use Rattle.theory.specs.Limit.{rack};
ghost use Rattle.sweeps.specs.Calls.{values_after};
ghost use Rattle.runs.specs.Walking.{told, job_call};
ghost use Rattle.bitblast.specs.Asking.{as_swept, sweep_call};

use bitblast::sweep::Swept;

// Runs a job and sweeps the equality of that number: on how many assignments of its variables the
// two sides differ, for a host.
#[unsafe(no_mangle)]
pub extern "C" fn bb_sweep(
    job: &[u8],
    work: &mut [u8],
    answers: &mut [u8],
    values: &mut [u8],
    number: u32,
) -> Swept
    ensures outcome { told result.outcome ≡ (job_call rack job work answers).result }
    ensures answers { answers.new ≡ (job_call rack job work answers).answer_memory }
    ensures work { work.new ≡ (job_call rack job work answers).work_memory }
    ensures result { as_swept result ≡ sweep_call job work answers values number }
    ensures values { values.new ≡ values_after result.code values.old }
{
    bitblast::sweep::bb_sweep(job, work, answers, values, number)
}

// The bits of a term where only part of its inputs is known, for C.
ghost use Rattle.std.specs.Prelude.{◌≡◌};
ghost use Rattle.theory.specs.Limit.{rack};
ghost use Rattle.sweeps.specs.Calls.{values_after, written};
ghost use Rattle.runs.specs.Walking.{told, job_call};
ghost use Rattle.bitblast.specs.Asking.{known_call};

use bitblast::known::Known;

// Runs a job and writes the bits of the term of that number, bit 0 first, for a host. A byte is 0,
// 1, or 2 for a bit that is not known; `inputs` has one for each bit of the variables that stand in
// the term, the lowest number first.
#[unsafe(no_mangle)]
pub extern "C" fn bb_known(
    job: &[u8],
    work: &mut [u8],
    answers: &mut [u8],
    values: &mut [u8],
    number: u32,
    inputs: &[u8],
    outputs: &mut [u8],
) -> Known
    ensures outcome { told result.outcome ≡ (job_call rack job work answers).result }
    ensures answers { answers.new ≡ (job_call rack job work answers).answer_memory }
    ensures work { work.new ≡ (job_call rack job work answers).work_memory }
    ensures code { result.code ≡ (known_call job work answers values number inputs outputs).code }
    ensures outputs { outputs.new
        ≡ written (known_call job work answers values number inputs outputs).bytes outputs.old }
    ensures values { values.new ≡ values_after result.code values.old }
{
    bitblast::known::bb_known(job, work, answers, values, number, inputs, outputs)
}

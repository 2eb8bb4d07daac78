// A job run to its end: its records one after the other, the terms kept in work memory, and an
// answer for each step.
#![tactic(auto)]

pub mod finished;
pub mod walk;

ghost use Rattle.std.specs.Prelude.{◌≡◌, length};
ghost use Rattle.table.specs.Promise.{carried};
ghost use Rattle.intern.specs.Interning.{limits_of};
ghost use Rattle.runs.specs.Walking.{told, job_call, Enough, memory_left};

use crate::finished::run_within;
use intern::Limits;

// The longest job, in bytes.
pub const MAX_JOB: usize = 16777216;

// What a job comes to: the code that stopped it or 0, the records done, the answers written, the
// terms kept at the end, and the repeats: the term records done whose term was there already.
#[repr(C)]
#[derive(Clone, Copy)]
pub struct Outcome {
    pub stop: u32,
    pub records: u32,
    pub answers: u32,
    pub terms: u32,
    pub repeats: u32,
}

// The outcome of a job under limits that the caller states, and its answers. The work memory is
// left as the job used it.
pub fn check_job(job: &[u8], work: &mut [u8], answers: &mut [u8], limits: Limits) -> Outcome
    ensures result { told result ≡ (job_call (limits_of limits) job work answers).result }
    ensures answers { answers.new ≡ (job_call (limits_of limits) job work answers).answer_memory }
    ensures work { work.new
        ≡ memory_left (limits_of limits) job.now work.old (length answers.old) }
{
    run_within(job, work, answers, limits).outcome()
}

// The bytes of work memory that a job of `size` bytes is given of those lent: four for each of its
// own, which leaves room in the table over its terms. A short job is not spread over a long memory.
pub fn used(size: usize, lent: usize) -> usize
    ensures { Enough size lent result }
{
    if size < lent / 4 { 4 * size } else { lent }
}

// Gives a job its part of the work memory, the first bytes of it, with the seed at their end.
pub fn lend(size: usize, work: &mut [u8]) -> usize
    ensures part { Enough size (length work.old) result }
    ensures memory { work.new ≡ carried work.old result }
{
    let n = used(size, work.len());
    table::carry_seed(work, n);
    n
}

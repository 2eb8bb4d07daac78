// What C calls: each of the library's functions for hosts under its own name, with its promises and
// no condition on the caller. include/bitblast.h declares them.
#![tactic(auto)]

pub mod alethe;
pub mod count;
pub mod known;
pub mod sweep;
pub mod totals;

ghost use Rattle.std.specs.Prelude.{◌≡◌, length};
ghost use Rattle.theory.specs.Limit.{stated, rack};
ghost use Rattle.theory.specs.Record.{number_length};
ghost use Rattle.theory.specs.Answer.{decode_answers};
ghost use Rattle.theory.specs.Demand.{Demand3};
ghost use Rattle.theory.specs.Demands.{Stops, Demand2};
ghost use Rattle.runs.specs.Walking.{told, job_call};

use runs::Outcome;

// Checks a job, for a host, under a width limit and a limit of the number of terms, `true` and
// `false` counted; a limit above the rack's is the rack's. The answers stand at the start of their
// memory, and the work memory is all zero: nothing of the job stays in it.
#[unsafe(no_mangle)]
pub extern "C" fn bb_job_within(
    job: &[u8],
    work: &mut [u8],
    answers: &mut [u8],
    width_limit: u32,
    term_limit: u32,
) -> Outcome
    ensures result { told result
        ≡ (job_call (stated width_limit term_limit) job work answers).result }
    ensures answers { answers.new
        ≡ (job_call (stated width_limit term_limit) job work answers).answer_memory }
    ensures work { work.new
        ≡ (job_call (stated width_limit term_limit) job work answers).work_memory }
    ensures demand1 { Stops (stated width_limit term_limit) job.now (length work.old)
        (length answers.old) result.stop result.records }
    ensures demand2 { Demand2 (stated width_limit term_limit) job.now (length work.old)
        (length answers.old)
        (decode_answers (number_length job.now) result.answers answers.new) }
    ensures demand3 { Demand3 (stated width_limit term_limit) job.now (length work.old)
        (length answers.old) result.records
        (decode_answers (number_length job.now) result.answers answers.new) }
{
    bitblast::bb_job_within(job, work, answers, width_limit, term_limit)
}

// Checks a job, for a host: the same under the rack's limits.
#[unsafe(no_mangle)]
pub extern "C" fn bb_job(job: &[u8], work: &mut [u8], answers: &mut [u8]) -> Outcome
    ensures result { told result ≡ (job_call rack job work answers).result }
    ensures answers { answers.new ≡ (job_call rack job work answers).answer_memory }
    ensures work { work.new ≡ (job_call rack job work answers).work_memory }
    ensures demand1 { Stops rack job.now (length work.old)
        (length answers.old) result.stop result.records }
    ensures demand2 { Demand2 rack job.now (length work.old)
        (length answers.old)
        (decode_answers (number_length job.now) result.answers answers.new) }
    ensures demand3 { Demand3 rack job.now (length work.old)
        (length answers.old) result.records
        (decode_answers (number_length job.now) result.answers answers.new) }
{
    bitblast::bb_job(job, work, answers)
}

// The number of the interface, for a host to compare with the one that it was written for.
#[unsafe(no_mangle)]
pub extern "C" fn bb_version() -> u32
    ensures { result ≡ 8 }
{
    bitblast::bb_version()
}

// A text of Alethe steps, converted into a job.
ghost use Rattle.std.specs.Prelude.{◌≡◌, take};
ghost use Rattle.text.specs.Claim.{steps_of, StepsWritten};
ghost use Rattle.convert.specs.Text.{told, text_call};

use convert::{Converted, convert};

// Reads a text of declarations and steps, and writes a job with a step for each step line, for a
// host. Where a line is refused, the job's memory is all zero. The work memory makes lookups faster
// and changes no result; it may be of any length, hold anything, and is all zero afterwards.
pub fn bb_text(text: &[u8], work: &mut [u8], job: &mut [u8]) -> Converted
    ensures result { told result ≡ (text_call text work job).result }
    ensures work { work.new ≡ (text_call text work job).work_memory }
    ensures job { job.new ≡ (text_call text work job).job_memory }
    ensures steps { result.code ≡ 0
        → StepsWritten (take result.length job.new) (steps_of text.now) }
{
    convert(text, work, job)
}

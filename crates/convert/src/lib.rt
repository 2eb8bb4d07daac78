// A text of declarations and steps read into a job.
//
// To read: line (one line), and here the text.
#![tactic(auto)]

mod line;

ghost use Rattle.std.specs.Prelude.{[], ◌≡◌};
ghost use Rattle.table.specs.Buckets.{Table};
ghost use Rattle.writer.specs.Written.{Moved};
ghost use Rattle.convert.specs.Text.{told, text_call, Taken};

use crate::line::{State, take_line};
use names::lines::Lines;
use table::{clear, wipe};
use text::REFUSED;
use writer::places::{Spot, Writer};

// What a text comes to: 0 and the job's length, or 25 and the place of the first line that is
// refused.
#[repr(C)]
#[derive(Clone, Copy)]
pub struct Converted {
    pub code: u32,
    pub line: u64,
    pub length: u64,
}

// Reads the lines of a text into a job in which nothing is put yet: the job's length, or the place
// of the first line that is refused.
fn take_lines(text: &[u8], writer: &mut Writer<'_>) -> Result<usize, u64>
    requires { writer.old.spot.done ≡ 0 }
    ensures moved { Moved writer.old writer.new }
    ensures takes { Taken text.now writer.old.out.now writer.new.out.now result }
{
    let mut s = State {
        declarations: &text[..0],
        declared: 0,
        begun: false,
    };
    let mut next = 0;
    for (k, line) in Lines::new(text).enumerate() {
        // The last line may lack its newline.
        next = text.len().min(next + line.len() + 1);
        s = take_line(line, &text[..next], s, writer).ok_or(k as u64 + 1)?;
    }
    Ok(writer.spot.done)
}

// The same, from the start of a job's memory, with a work memory that is cleared but for the seed.
fn write_job(text: &[u8], work: &mut [u8], out: &mut [u8]) -> Result<usize, u64>
    requires { Table [] work.old 0 }
    ensures { Taken text.now out.old out.new result }
{
    let spot = Spot {
        done: 0,
        terms: 0,
        rows: 0,
        covered: 0,
    };
    let mut writer = Writer { out, work, spot };
    take_lines(text, &mut writer)
}

// Reads a text into a job. The work memory makes lookups faster; it may hold anything, and is all
// zero afterwards.
pub fn convert(text: &[u8], work: &mut [u8], job: &mut [u8]) -> Converted
    ensures result { told result ≡ (text_call text work job).result }
    ensures work { work.new ≡ (text_call text work job).work_memory }
    ensures job { job.new ≡ (text_call text work job).job_memory }
{
    clear(work);
    let lines = write_job(text, work, job);
    wipe(work);
    match lines {
        Ok(length) => Converted {
            code: 0,
            line: 0,
            length: length as u64,
        },
        Err(line) => {
            wipe(job);
            Converted {
                code: REFUSED,
                line,
                length: 0,
            }
        }
    }
}

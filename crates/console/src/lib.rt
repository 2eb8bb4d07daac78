// The program `bbcheck`: a job from its input, and the text of what it came to.
#![tactic(auto)]

ghost use Rattle.std.specs.Prelude.{◌≡◌, ◌≤◌, IfOk, IfSome, OnOk, OnErr, length};
ghost use Rattle.std.specs.Io.KnownBytes.{Appends};
ghost use Rattle.theory.specs.Program.{bbcheck};
ghost use Rattle.report.specs.Text.{written};
ghost use Rattle.console.specs.Shown.{shown, Printed, Checked, Stopped};

use bitblast::bb_job;
use report::{HEAD_SPACE, LINE_SPACE};
use std::io;
use std::io::{Read, Write};
use streams::read_full;
use terms::{ANSWER_BYTES, Term};

// The bytes lent for the job, for work memory and for answers.
const MEMORY: usize = 65536;

// The space for the text of any such job: it has no more answers than fit into their memory, of
// which none is shorter than ten bytes.
const TEXT_SPACE: usize = HEAD_SPACE + MEMORY / ANSWER_BYTES * LINE_SPACE;

// Writes what `bbcheck` prints for an input, and answers how many bytes that is. Nothing is written
// where `out` has not the space for any such text.
#[tactic(auto, using(crate::proofs::Showing::shown_none, crate::proofs::Showing::shown_long))]
pub fn bbcheck_text(input: &[u8], out: &mut [u8]) -> usize
    ensures memory { out.new
        ≡ written (shown input.now (length out.old)) out.old }
    ensures size { result ≡ length (shown input.now (length out.old)) }
    ensures bound { result ≤ length out.new }
{
    if out.len() < TEXT_SPACE {
        return 0;
    }
    if MEMORY < input.len() {
        return report::too_long(out);
    }
    let mut work = [0u8; MEMORY];
    let mut answers = [0u8; MEMORY];
    let bytes = Term::number_length(input);
    let o = bb_job(input, &mut work, &mut answers);
    report::report(o.stop, o.terms, o.repeats, o.answers, &answers, bytes, out)
}

// Reads the input, of which one byte more than is lent for a job tells that it is too long, prints
// the text, and answers how many bytes that is. Where a reader's and a writer's bytes are known,
// what is written is the text of all that there is to read. The first read or write that fails ends
// it; nothing is written where a read failed.
pub fn check_input<R: Read, W: Write>(input: &mut R, output: &mut W) -> io::Result<usize>
    ensures printed { IfOk result Printed }
    ensures text { OnOk result (IfSome (R.remaining input.old)
        (λ bytes. Appends (W.contents output.old) (W.contents output.new) (bbcheck bytes))) }
    ensures checked { IfOk result (Checked (R.remaining input.old) (R.remaining input.new)
        (W.contents output.old) (W.contents output.new)) }
    ensures stopped { OnErr result (Stopped (R.remaining input.old) (R.remaining input.new)
        (W.contents output.old) (W.contents output.new)) }
{
    let mut job = [0u8; MEMORY + 1];
    let n = read_full(input, &mut job)?;
    let mut out = [0u8; TEXT_SPACE];
    let size = bbcheck_text(&job[..n], &mut out);
    output.write_all(&out[..size])?;
    Ok(size)
}

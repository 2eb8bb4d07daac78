// The text of what a run came to: a line of totals, then a line for each answer.
#![tactic(auto)]

ghost use Rattle.std.specs.Prelude.{◌≡◌, ◌+◌, ◌<◌, ◌≤◌, length};
ghost use Rattle.terms.specs.Bodies.{Length};
ghost use Rattle.theory.specs.Answer.{decode_answer};
ghost use Rattle.report.specs.Text.{head, line, report_text, too_long, written};

use arrayvec::ArrayString;
use itoa::Buffer;
use terms::{CODE_AT, DEPTH_AT, RULE_AT, Term};

// No first line is longer than this.
pub const HEAD_SPACE: usize = 80;

// No line of an answer is longer than this.
pub const LINE_SPACE: usize = 34;

// The first line, `steps N terms T repeats R stop C`.
#[tactic(auto, using(crate::proofs::Decimal::printed))]
fn head(steps: u32, terms: u32, repeats: u32, stop: u32) -> ArrayString<HEAD_SPACE>
    ensures { result.bytes ≡ head steps terms repeats stop }
{
    let mut digits = Buffer::new();
    let mut text = ArrayString::new();
    text.push_str("steps ");
    text.push_str(digits.format(steps));
    text.push_str(" terms ");
    text.push_str(digits.format(terms));
    text.push_str(" repeats ");
    text.push_str(digits.format(repeats));
    text.push_str(" stop ");
    text.push_str(digits.format(stop));
    text.push_str("\n");
    text
}

// The line of answer k, counted from 0: its place from 1, rule, code and depth, which has so many
// bytes.
#[tactic(auto, using(crate::proofs::Decimal::printed, crate::proofs::Decimal::word_short))]
fn line(answer: &[u8], bytes: usize, k: u32) -> ArrayString<LINE_SPACE>
    requires small { k < 4294967295 }
    requires sized { Length bytes }
    ensures { result.bytes ≡ line (k + 1) (decode_answer bytes answer.now) }
{
    let mut digits = Buffer::new();
    let mut text = ArrayString::new();
    text.push_str(digits.format(k + 1));
    text.push_str(" ");
    text.push_str(digits.format(Term::number(answer, RULE_AT)));
    text.push_str(" ");
    text.push_str(digits.format(Term::number(answer, CODE_AT)));
    text.push_str(" ");
    text.push_str(digits.format(Term::place(answer, DEPTH_AT, bytes)));
    text.push_str("\n");
    text
}

// Writes a text at the start of `out`, and returns how many bytes it has.
fn put_text(text: &str, out: &mut [u8]) -> usize
    requires { length text.now ≤ length out.old }
    ensures memory { out.new ≡ written text.now out.old }
    ensures size { result ≡ length text.now }
{
    out[..text.len()].copy_from_slice(text.as_bytes());
    text.len()
}

// Writes what a run came to into `out`, and returns how many bytes that is. The depths of the
// answers have `bytes` bytes. Nothing is written where `answers` holds fewer than `count` answers,
// or where `out` has not the space for the longest such text.
#[tactic(auto, using(crate::proofs::Lines::laws), unfolding(crate::specs::Text::report_text))]
pub fn report(
    stop: u32,
    terms: u32,
    repeats: u32,
    count: u32,
    answers: &[u8],
    bytes: usize,
    out: &mut [u8],
) -> usize
    requires { Length bytes }
    ensures memory { out.new
        ≡ written (report_text stop terms repeats count bytes answers.now (length out.old))
        out.old }
    ensures size { result
        ≡ length (report_text stop terms repeats count bytes answers.now (length out.old)) }
{
    let n = count as usize;
    let answer_bytes = DEPTH_AT + bytes;
    if answers.len() < n * answer_bytes || out.len() < HEAD_SPACE + n * LINE_SPACE {
        return 0;
    }
    let mut size = put_text(&head(count, terms, repeats, stop), out);
    for (k, answer) in (0..count).zip(answers.chunks_exact(answer_bytes)) {
        size += put_text(&line(answer, bytes, k), &mut out[size..]);
    }
    size
}

// Writes `too long`, and returns how many bytes that is. Nothing is written where `out` has not the
// space for a first line.
#[tactic(auto, using(crate::proofs::Lines::laws), unfolding(crate::specs::Text::too_long))]
pub fn too_long(out: &mut [u8]) -> usize
    ensures memory { out.new ≡ written (too_long (length out.old)) out.old }
    ensures size { result ≡ length (too_long (length out.old)) }
{
    if out.len() < HEAD_SPACE {
        return 0;
    }
    put_text("too long\n", out)
}

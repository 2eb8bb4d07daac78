// Runs each job of the file `jobs` and prints what it came to.
//
// A line of the file is five numbers of eight hexadecimal digits, the bytes of work memory lent, of
// answers lent, and of the job, the width limit and the term limit, and then the job's bytes. What
// is printed for it: stop code, records done, answers written, terms kept, repeats, and the bytes
// of the answers. Both lent memories are full of other bytes before. No character is refused: each
// is read as a digit, as `digit` says.
#![tactic(auto)]

ghost use Rattle.std.specs.Prelude.{◌≡◌, ◌≤◌, ◌<◌, length};

use bitblast::bb_job_within;
use std::io::Read;
use std::{fs, io};
use streams::read_full;
use terms::{DEPTH_AT, Term};

// The digits of a number, and those with the space after them.
const DIGITS: usize = 8;

const FIELD: usize = DIGITS + 1;

// How many numbers stand in front of a job, and their bytes.
const FIELDS: usize = 5;

const HEAD: usize = FIELDS * FIELD;

// The most bytes that are lent for each of a line's text, job, work memory and answers.
const LENT: usize = 65536;

// The most lines that are read.
const MOST: usize = 1000000;

// What the lent memories hold before a job.
const OLD: u8 = 165;

// What is lent for a line: its text, the job, work memory and answers.
#[derive(Drop)]
struct Lent {
    text: [u8; LENT],
    job: [u8; LENT],
    work: [u8; LENT],
    answers: [u8; LENT],
}

// The value of a hexadecimal digit. Any other character has a value too, below 16.
fn digit(character: u8) -> u8
    ensures { result < 16 }
{
    match character {
        b'a'.. => (character - b'a') % 6 + 10,
        b'0'.. => (character - b'0') % 10,
        _ => 0,
    }
}

// Stores the bytes of the digits, two each.
fn decode(text: &[u8], bytes: &mut [u8])
    ensures { length bytes.new ≡ length bytes.old }
{
    for (byte, digits) in bytes.iter_mut().zip(text.chunks_exact(2)) {
        *byte = digit(digits[0]) * 16 + digit(digits[1]);
    }
}

// The number of field k.
fn field(head: &[u8; HEAD], k: usize) -> u32
    requires { k < 5 }
    ensures { result < 4294967296 }
{
    let at = FIELD * k;
    let mut number = [0u8; DIGITS / 2];
    decode(&head[at..at + DIGITS], &mut number);
    u32::from_be_bytes(number)
}

// The same, but no more than `most`.
fn capped(head: &[u8; HEAD], k: usize, most: usize) -> usize
    requires { k < 5 }
    ensures { result ≤ most }
{
    (field(head, k) as usize).min(most)
}

// Prints the first n bytes in two hexadecimal digits each, and ends the line.
fn print_bytes(rt: &impl Print, bytes: &[u8], n: usize) -> io::Result<()> {
    for byte in bytes.iter().take(n) {
        print!(rt; "{byte:02x}")?;
    }
    print!(rt; "\n")
}

// The bytes of so many answers to a job's steps.
#[tactic(auto, using(theory::proofs::Lengths::length_most))]
fn answers_size(job: &[u8], count: u32) -> usize {
    count as usize * (DEPTH_AT + Term::number_length(job))
}

// Runs a job on the lent memories under two limits, and prints what it came to.
fn run(
    rt: &impl Print,
    job: &[u8],
    work: &mut [u8],
    answers: &mut [u8],
    width: u32,
    terms: u32,
) -> io::Result<()> {
    work.fill(OLD);
    answers.fill(OLD);
    let o = bb_job_within(job, work, answers, width, terms);
    print!(rt;
        "{} {} {} {} {} ",
        o.stop, o.records, o.answers, o.terms, o.repeats
    )?;
    print_bytes(rt, answers, answers_size(job, o.answers))
}

// Reads the next line of the file and runs its job; answers whether there was one.
fn line<P: Print, R: Read>(rt: &P, file: &mut R, lent: &mut Lent) -> io::Result<bool> {
    let mut head = [0u8; HEAD];
    if read_full(file, &mut head)? < HEAD {
        return Ok(false);
    }
    let room = capped(&head, 0, LENT);
    let answered = capped(&head, 1, LENT);
    let size = capped(&head, 2, LENT);
    let width = field(&head, 3);
    let terms = field(&head, 4);
    if LENT <= 2 * size {
        return Ok(false);
    }
    let text = &mut lent.text[..];
    let job = &mut lent.job[..];
    let work = &mut lent.work[..];
    let answers = &mut lent.answers[..];
    read_full(file, &mut text[..2 * size + 1])?;
    decode(&text[..2 * size], &mut job[..size]);
    run(
        rt,
        &job[..size],
        &mut work[..room],
        &mut answers[..answered],
        width,
        terms,
    )?;
    Ok(true)
}

// Runs the jobs of all lines, at most MOST.
fn all<P: Print, R: Read>(rt: &P, file: &mut R, lent: &mut Lent) -> io::Result<()> {
    for _ in 0..MOST {
        if !line(rt, file, lent)? {
            break;
        }
    }
    Ok(())
}

fn main(rt: HostRuntime) -> io::Result<()> {
    let mut file = fs::open(&rt, "jobs")?;
    let mut lent = Lent {
        text: [0; LENT],
        job: [0; LENT],
        work: [0; LENT],
        answers: [0; LENT],
    };
    all(&rt, &mut file, &mut lent)
}

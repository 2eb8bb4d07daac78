// Reads a text of Alethe steps from standard input and prints what it comes to: code, line and
// length, the bytes of the job, those past it, and those of the work memory. Both lent memories are
// full of other bytes before.
#![tactic(auto)]

use convert::{Converted, convert};
use std::io;
use streams::read_full;

// The bytes lent for the text and for the job.
const MEMORY: usize = 4096;

// The bytes of work memory lent: rows for some of the terms, and not for all.
const LENT: usize = 200;

// What the lent memories hold before.
const OLD: u8 = 165;

// Prints bytes as numbers, a space after each, and ends the line.
fn print_bytes(rt: &impl Print, bytes: &[u8]) -> io::Result<()> {
    for byte in bytes {
        print!(rt; "{byte} ")?;
    }
    print!(rt; "\n")
}

fn main(rt: HostRuntime) -> io::Result<()> {
    let mut text = [0u8; MEMORY];
    let n = read_full(&mut rt.stdin(), &mut text)?;
    let mut work = [OLD; LENT];
    let mut job = [OLD; MEMORY];
    let Converted { code, line, length } = convert(&text[..n], &mut work, &mut job);
    print!(&rt; "{code} {line} {length} \n")?;
    let (made, past) = job.split_at((length as usize).min(MEMORY));
    print_bytes(&rt, made)?;
    print_bytes(&rt, past)?;
    print_bytes(&rt, &work)
}

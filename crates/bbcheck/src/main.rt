// Reads a job from standard input, and prints what it came to.
#![tactic(auto)]

use std::io;

fn main(rt: HostRuntime) -> io::Result<()> {
    console::check_input(&mut rt.stdin(), &mut rt.stdout())?;
    Ok(())
}

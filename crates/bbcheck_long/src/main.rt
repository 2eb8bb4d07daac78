// `bbcheck`, on one byte more than it takes.
#![tactic(auto)]

use std::io;

fn main(rt: HostRuntime) -> io::Result<()> {
    console::check_input(&mut rt.stdin(), &mut rt.stdout())?;
    Ok(())
}

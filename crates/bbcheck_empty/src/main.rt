// `bbcheck`, on no input.
#![tactic(auto)]

use std::io;

fn main(rt: HostRuntime) -> io::Result<()> {
    console::check_input(&mut rt.stdin(), &mut rt.stdout())?;
    Ok(())
}

// `bbcheck`, on exactly 65,536 bytes.
#![tactic(auto)]

use std::io;

fn main(rt: HostRuntime) -> io::Result<()> {
    console::check_input(&mut rt.stdin(), &mut rt.stdout())?;
    Ok(())
}

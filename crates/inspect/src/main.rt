// Inspects the archive on standard input, and prints what was found in one line: `sound J`, `fault NUMBER PLACE` or
// `too long`. A read that fails is told on standard error instead, with status 1.

#![tactic(auto)]

use inspection::input::inspect_input;
use std::io::Write;

fn main(rt: HostRuntime) -> anyhow::Result<()> {
    let line = inspect_input(rt.alloc(), rt.stdin())?;
    rt.stdout().write_all(line.as_bytes())?;
    Ok(())
}

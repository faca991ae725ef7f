// Reads a schedule from standard input, and prints what its calls answer. A line that is no call
// ends the program with status 1.

#![tactic(auto)]

use schedule_session::run::run;
use std::io::{Read, Write};

fn main(rt: HostRuntime) -> anyhow::Result<()> {
    let mut input = Vec::new(rt.alloc());
    rt.stdin().read_to_end(&mut input)?;
    let printout = run(rt.alloc(), &input)?;
    rt.stdout().write_all(printout.text.as_bytes())?;
    Ok(printout.ending?)
}

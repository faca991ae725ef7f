// A refusal of every number that a run can reach.
use crate::printed::{ends, prints};
use std::fmt::Write;
use std::test::Fail;

#[test]
fn foundings(rt: HostRuntime) -> Result<(), Fail> {
    let heap = rt.alloc();
    let refused = "found: refused 1\nrun: 1 calls, 1 refused, 0 jobs in the journal\n";
    prints(heap, "found whole card 8", refused)?;
    prints(heap, "found whole card 0 1:mm:1", refused)?;
    prints(heap, "found page item 4097 withdrawn", refused)?;
    prints(
        heap,
        "found page item 99999999999999999999 withdrawn",
        refused,
    )?;
    ends(
        heap,
        "found page card 4096 1:mm:1\n",
        "found: 1 records\nrun: 1 calls, 0 refused, 0 jobs in the journal\n",
    )?;
    let mut many = String::from_str(heap, "found whole item 1")?;
    many.push_str(&" withdrawn".repeat(heap, 1024)?)?;
    ends(
        heap,
        &many,
        "found: 1024 records\nrun: 1 calls, 0 refused, 0 jobs in the journal\n",
    )?;
    many.push_str(" withdrawn")?;
    prints(heap, &many, refused)
}

#[test]
fn of_one_job(rt: HostRuntime) -> Result<(), Fail> {
    prints(
        rt.alloc(),
        "found whole card 1 1:mm:1 2:mm:2\ndecide\npublish\nopen A 0\nopen A 1\nlook A 0 at 0\nlook A 002\nput A 99999999999999999999 1:mm:1\ntune A 1\nopen B 1\nput B 0 3:mm:3\nlook A 0\nput A 0 4:mm:4\nsubmit B\ndecide\nsettle B 1\npublish\ntune A 2\nsubmit A\nopen C 2\nsubmit C\ndecide\n",
        "found: 2 records\ndecide: refused 9\npublish: image 1\nopen A: refused 3\nopen A: live\nlook A 0: refused 3\nlook A 2: refused 5\nput A 99999999999999999999: refused 5\ntune A: refused 4\nopen B: live\nput B 0: done\nlook A 0: 1:mm:1\nput A 0: done\nsubmit B: ticket 1\ndecide: ticket 1 accepted 65536\nsettle B: refused 12\npublish: image 2\ntune A: shut\nsubmit A: refused 2\nopen C: live\nsubmit C: ticket 2\ndecide: refused 10\nrun: 22 calls, 9 refused, 1 jobs in the journal\n",
    )
}

#[test]
fn full_sheet(rt: HostRuntime) -> Result<(), Fail> {
    let heap = rt.alloc();
    let mut input = String::from_str(heap, "found whole item 1")?;
    input.push_str(&" withdrawn".repeat(heap, 17)?)?;
    input.push_str("\npublish\nopen A 1\n")?;
    for i in 0..17u8 {
        writeln!(input, "look A {i}")?;
    }
    input.push_str("put A 15 solid:1\n")?;
    ends(
        heap,
        &input,
        "look A 15: withdrawn\nlook A 16: refused 6\nput A 15: done\nrun: 21 calls, 1 refused, 0 jobs in the journal\n",
    )
}

#[test]
fn full_queue(rt: HostRuntime) -> Result<(), Fail> {
    let heap = rt.alloc();
    let mut input = String::from_str(heap, "found whole card 1 1:mm:1\npublish\n")?;
    for i in 0..17u8 {
        writeln!(input, "open A{i} 1\nsubmit A{i}")?;
    }
    ends(
        heap,
        &input,
        "submit A15: ticket 16\nopen A16: live\nsubmit A16: refused 8\nrun: 36 calls, 1 refused, 0 jobs in the journal\n",
    )
}

#[test]
fn full_outcomes(rt: HostRuntime) -> Result<(), Fail> {
    let heap = rt.alloc();
    let mut input = String::from_str(heap, "found whole card 40 1:mm:1\npublish\n")?;
    for i in 0..33u8 {
        writeln!(input, "open A{i} 1\nsubmit A{i}\ndecide")?;
    }
    ends(
        heap,
        &input,
        "submit A32: ticket 33\ndecide: refused 11\nrun: 101 calls, 1 refused, 32 jobs in the journal\n",
    )
}

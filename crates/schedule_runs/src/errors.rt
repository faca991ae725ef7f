// Lines that are no call.
use crate::printed::{prints, stops};
use std::alloc::Global;
use std::test::Fail;

// After a register with job A, ticket B and one image, this line is no call, for this reason.
fn refused(heap: Global, line: &str, reason: &str) -> Result<(), Fail> {
    let input = format!(in heap;
        "# Some run.\nfound whole card 8 1:mm:10\npublish\nopen A 1\nopen B 1\nsubmit B\n\n{line}\npublish\n"
    )?;
    let text = format!(in heap; "submit B: ticket 1\nline 8: {reason}\n")?;
    stops(heap, &input, 8, &text)
}

#[test]
fn words(rt: HostRuntime) -> Result<(), Fail> {
    let heap = rt.alloc();
    refused(
        heap,
        "broadcast",
        "expected a command; an empty input prints them all",
    )?;
    refused(heap, "publish 2", "expected publish")?;
    refused(heap, "open C", "expected open NAME IMAGE")?;
    refused(
        heap,
        "look A",
        "expected look NAME RECORD or look NAME RECORD at IMAGE",
    )?;
    refused(
        heap,
        "look A 0 in 1",
        "expected look NAME RECORD or look NAME RECORD at IMAGE",
    )?;
    refused(
        heap,
        "put A 0",
        "expected put NAME RECORD VALUE or put NAME RECORD VALUE at IMAGE",
    )?;
    refused(heap, "tune A", "expected tune NAME IMAGE")?;
    refused(heap, "submit", "expected submit NAME")?;
    refused(heap, "decide B", "expected decide")?;
    refused(heap, "settle B", "expected settle NAME IMAGE")?;
    refused(heap, "waive", "expected waive NAME")?;
    refused(heap, "drop", "expected drop NAME")?;
    refused(heap, "archive 1", "expected archive")?;
    refused(heap, "inspect 1", "expected inspect")?;
    refused(heap, "play", "expected play M")
}

#[test]
fn values(rt: HostRuntime) -> Result<(), Fail> {
    let heap = rt.alloc();
    refused(heap, "open C_1 1", "expected a name of letters and digits")?;
    refused(heap, "look A -1", "expected a number")?;
    refused(heap, "look A 0x1", "expected a number")?;
    refused(
        heap,
        "put A 0 withdrawn",
        "expected a value of the register's record kind",
    )?;
    refused(
        heap,
        "put A 0 1:ft:1",
        "expected a value of the register's record kind",
    )?;
    refused(heap, "pick whole 5", "expected pick KIND LOWER UPPER")?;
    refused(heap, "row", "expected row RECORD")?;
    refused(heap, "row 1", "no record of this number")?;
    refused(heap, "row 99999999999999999999", "no record of this number")?;
    refused(heap, "job", "expected job NAME")?;
    refused(heap, "journal 1", "expected journal")?;
    refused(heap, "image", "expected image IMAGE")?;
    refused(heap, "play all", "expected a number")
}

#[test]
fn names(rt: HostRuntime) -> Result<(), Fail> {
    let heap = rt.alloc();
    refused(heap, "look Q 0", "no job of this name: Q")?;
    refused(heap, "put B 0 1:mm:1", "no job of this name: B")?;
    refused(heap, "tune B 1", "no job of this name: B")?;
    refused(heap, "submit B", "no job of this name: B")?;
    refused(heap, "drop B", "no job of this name: B")?;
    refused(heap, "job B", "no job of this name: B")?;
    refused(heap, "settle A 1", "no ticket of this name: A")?;
    refused(heap, "waive A", "no ticket of this name: A")?;
    refused(heap, "open A 1", "a job or ticket of this name stands: A")?;
    refused(heap, "open B 1", "a job or ticket of this name stands: B")
}

#[test]
fn images(rt: HostRuntime) -> Result<(), Fail> {
    let heap = rt.alloc();
    let never = "no image of this number was published";
    refused(heap, "open C 2", never)?;
    refused(heap, "look A 0 at 4294967296", never)?;
    refused(heap, "put A 0 1:mm:1 at 2", never)?;
    refused(heap, "tune A 99999999999999999999", never)?;
    refused(heap, "settle B 2", never)?;
    refused(heap, "image 2", never)
}

#[test]
fn foundings(rt: HostRuntime) -> Result<(), Fail> {
    let heap = rt.alloc();
    stops(heap, "publish", 1, "line 1: expected found first\n")?;
    stops(heap, "inspect", 1, "line 1: expected found first\n")?;
    stops(
        heap,
        "found whole card 0 1:mm:1\npublish\n",
        2,
        "found: refused 1\nline 2: found was refused, so there is no register\n",
    )?;
    stops(
        heap,
        "found whole card 0 1:mm:1\nfound whole card 1 1:mm:1\n",
        2,
        "line 2: found stands once\n",
    )?;
    refused(heap, "found whole card 1 1:mm:1", "found stands once")?;
    stops(
        heap,
        "found whole card",
        1,
        "line 1: expected found STAMPKIND RECORDKIND PLACES VALUE ...\n",
    )?;
    stops(
        heap,
        "found card card 1",
        1,
        "line 1: expected the stamp kind whole or page\n",
    )?;
    stops(
        heap,
        "found page page 1",
        1,
        "line 1: expected the record kind card or item\n",
    )?;
    stops(
        heap,
        "found whole card many 1:mm:1",
        1,
        "line 1: expected a number\n",
    )?;
    stops(
        heap,
        "found whole item 1 sub:1:0",
        1,
        "line 1: expected a value of the register's record kind\n",
    )
}

#[test]
fn without_a_register(rt: HostRuntime) -> Result<(), Fail> {
    let heap = rt.alloc();
    prints(heap, "\n  \n# found\n", "")?;
    prints(heap, "pick whole 5 7\n", "pick whole 5 7: 6\n")
}

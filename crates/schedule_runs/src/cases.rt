// The worked cases of docs/PROTOCOL.md.
use crate::printed::ends;
use std::test::Fail;

#[test]
fn an_early_place(rt: HostRuntime) -> Result<(), Fail> {
    ends(
        rt.alloc(),
        "found whole card 8 1:mm:10 2:cm:20\npublish\nopen A 1\nlook A 0\nput A 0 7:mm:11\nopen B 1\nlook B 0\nsubmit A\ndecide\nlook B 1\nsubmit B\ndecide\njournal\n",
        "decide: ticket 2 accepted 32768\njournal: 2 jobs\n  32768 ticket 2 looks 0@0=1:mm:10 1@0=2:cm:20 puts\n  65536 ticket 1 looks 0@0=1:mm:10 puts 0=7:mm:11\nrun: 12 calls, 0 refused, 2 jobs in the journal\n",
    )
}

#[test]
fn no_place(rt: HostRuntime) -> Result<(), Fail> {
    ends(
        rt.alloc(),
        "found whole item 8 withdrawn withdrawn\npublish\nopen W 1\nlook W 1\nput W 0 solid:1\nopen Z 1\nput Z 1 solid:2\nsubmit Z\ndecide\npublish\nopen T 2\nlook T 0\nlook T 1\nsubmit W\nsubmit T\ndecide\ndecide\n",
        "decide: ticket 2 accepted 32768\ndecide: ticket 3 no place\nrun: 17 calls, 0 refused, 2 jobs in the journal\n",
    )
}

#[test]
fn a_put_after_a_look(rt: HostRuntime) -> Result<(), Fail> {
    ends(
        rt.alloc(),
        "found whole card 8 1:mm:1\npublish\nopen R 1\nlook R 0\nopen V 1\nput V 0 2:mm:2\nsubmit R\nsubmit V\ndecide\ndecide\nrow 0\n",
        "decide: ticket 1 accepted 65536\ndecide: ticket 2 accepted 131072\nrow 0: 2:mm:2 read 65536 versions 0 131072 first 131072\nrun: 10 calls, 0 refused, 2 jobs in the journal\n",
    )
}

#[test]
fn two_puts(rt: HostRuntime) -> Result<(), Fail> {
    ends(
        rt.alloc(),
        "found page card 8 1:mm:1\npublish\nopen A 1\nput A 0 2:mm:2\nopen B 1\nput B 0 3:mm:3\nsubmit A\nsubmit B\ndecide\ndecide\npublish\nsettle A 2\nsettle B 2\n",
        "decide: ticket 1 accepted 1/0\ndecide: ticket 2 overtaken\npublish: image 2\nsettle A: accepted 1/0\nsettle B: overtaken\nrun: 13 calls, 0 refused, 1 jobs in the journal\n",
    )
}

#[test]
fn tuned(rt: HostRuntime) -> Result<(), Fail> {
    ends(
        rt.alloc(),
        "found whole card 8 1:mm:10\npublish\nopen A 1\nput A 0 7:mm:11\nopen B 1\nlook B 0\nsubmit A\ndecide\npublish\ntune B 2\njob B\nput B 0 9:m:9\n",
        "tune B: live\njob B: image 2 live lower 0 upper 65536\n  entry 0: record 0 noted 0 seen 1:mm:10 put 1:mm:10 seen\nput B 0: refused 7\nrun: 11 calls, 1 refused, 1 jobs in the journal\n",
    )
}

#[test]
fn gone(rt: HostRuntime) -> Result<(), Fail> {
    let heap = rt.alloc();
    let start =
        "found whole item 8 withdrawn\npublish\nopen A 1\nlook A 0\nopen P 1\nput P 0 solid:1\nsubmit P\ndecide\npublish\nwaive P\nopen P 2\nput P 0 solid:2\nsubmit P\ndecide\npublish\nwaive P\nopen P 3\nput P 0 solid:3\nsubmit P\ndecide\n";
    let kept = format!(in heap; "{start}submit A\ndecide\n")?;
    ends(
        heap,
        &kept,
        "decide: ticket 4 accepted 32768\nrun: 22 calls, 0 refused, 4 jobs in the journal\n",
    )?;
    let lost = format!(in heap;
        "{start}publish\nopen Q 4\nput Q 0 solid:4\nsubmit Q\ndecide\nsubmit A\ndecide\n"
    )?;
    ends(
        heap,
        &lost,
        "decide: ticket 5 gone\nrun: 27 calls, 0 refused, 4 jobs in the journal\n",
    )
}

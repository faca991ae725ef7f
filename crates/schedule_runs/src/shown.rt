// Commands that show a state or the archive, and the free names.
use crate::printed::{ends, prints};
use std::test::Fail;

#[test]
fn images(rt: HostRuntime) -> Result<(), Fail> {
    ends(
        rt.alloc(),
        "found whole card 8 1:mm:10 2:cm:20\npublish\nopen A 1\nput A 1 3:m:30\nsubmit A\ndecide\npublish\npick whole 5 7\nimage 2\nimage 000\n",
        "publish: image 2\npick whole 5 7: 6\nimage 2: 2 records, 1 outcomes\n  0: 1:mm:10 write 0 read 0 first none\n  1: 3:m:30 write 65536 read 0 first 65536\n  outcome: ticket 1 accepted 65536\nimage 0: 2 records, 0 outcomes\n  0: 1:mm:10 write 0 read 0 first none\n  1: 2:cm:20 write 0 read 0 first none\nrun: 7 calls, 0 refused, 1 jobs in the journal\n",
    )
}

#[test]
fn jobs(rt: HostRuntime) -> Result<(), Fail> {
    ends(
        rt.alloc(),
        "found page item 8 withdrawn solid:77\npublish\nopen A 1\njob A\nlook A 1\nput A 1 sub:1:2\nput A 0 solid:5\njob A\n",
        "open A: live\njob A: image 1 live lower 0/0 upper none\nlook A 1: solid:77\nput A 1: done\nput A 0: done\njob A: image 1 live lower 0/0 upper none\n  entry 0: record 1 noted 0/0 seen solid:77 put sub:1:2 seen put open\n  entry 1: record 0 noted 0/0 seen solid:5 put solid:5 put\nrun: 6 calls, 0 refused, 0 jobs in the journal\n",
    )
}

#[test]
fn free_names(rt: HostRuntime) -> Result<(), Fail> {
    ends(
        rt.alloc(),
        "found whole card 8 1:mm:1\npublish\nopen A 1\ndrop A\nopen A 1\nsubmit A\ndecide\npublish\nsettle A 2\nopen A 2\nsubmit A\nwaive A\nopen A 2\nsubmit A\njournal\n",
        "open A: live\ndrop A: done\nopen A: live\nsubmit A: ticket 1\ndecide: ticket 1 accepted 65536\npublish: image 2\nsettle A: accepted 65536\nopen A: live\nsubmit A: ticket 2\nwaive A: done\nopen A: live\nsubmit A: ticket 3\njournal: 1 jobs\n  65536 ticket 1 looks puts\nrun: 13 calls, 0 refused, 1 jobs in the journal\n",
    )
}

#[test]
fn archives(rt: HostRuntime) -> Result<(), Fail> {
    prints(
        rt.alloc(),
        "found whole card 8 1:mm:10\ninspect\nplay 00\nplay 1\nplay 99999999999999999999\narchive\n",
        "found: 1 records\ninspect: sound 0\nplay 0: 1 values\n  0: 1:mm:10\nplay 1: refused 18\nplay 99999999999999999999: refused 18\narchive: 32 bytes\n  41534a310101000100000000000000140000000c00000001000000000000000a\nrun: 1 calls, 0 refused, 0 jobs in the journal\n",
    )
}

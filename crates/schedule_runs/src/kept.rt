// Schedules that are kept with their whole printouts.
use crate::printed::{prints, stops};
use std::test::Fail;

// A register of cards by whole stamps: one job, and its archive.
#[test]
fn one_job_of_cards(rt: HostRuntime) -> Result<(), Fail> {
    prints(
        rt.alloc(),
        "found whole card 8 1:mm:10 2:cm:20\npublish\nopen A 1\nlook A 0\nput A 1 7:mm:11\nsubmit A\ndecide\narchive\n",
        "found: 2 records\npublish: image 1\nopen A: live\nlook A 0: 1:mm:10\nput A 1: done\nsubmit A: ticket 1\ndecide: ticket 1 accepted 65536\narchive: 104 bytes\n  41534a3101010002000000010000001c00000018000000340000003400000001\n  000000000000000a000000020100000000000014000000000001000000000001\n  010100000000000000000000000000000001000000000000000a000100000007\n  000000000000000b\nrun: 7 calls, 0 refused, 1 jobs in the journal\n",
    )
}

// A register of items by volume and page: an early place, the next one, and a job that is overtaken.
#[test]
fn jobs_of_items_by_pages(rt: HostRuntime) -> Result<(), Fail> {
    prints(
        rt.alloc(),
        "found page item 8 withdrawn solid:77 sub:1:4\npublish\nopen A 1\nlook A 0\nput A 0 solid:1\nopen B 1\nlook B 0\nsubmit A\ndecide\nlook B 1\nsubmit B\ndecide\nopen C 1\nlook C 0\nput C 1 withdrawn\nsubmit C\ndecide\nopen D 1\nlook D 0\nput D 1 sub:2:65535\nsubmit D\ndecide\njournal\nrow 0\nrow 1\narchive\n",
        "found: 3 records\npublish: image 1\nopen A: live\nlook A 0: withdrawn\nput A 0: done\nopen B: live\nlook B 0: withdrawn\nsubmit A: ticket 1\ndecide: ticket 1 accepted 1/0\nlook B 1: solid:77\nsubmit B: ticket 2\ndecide: ticket 2 accepted 0/1\nopen C: live\nlook C 0: withdrawn\nput C 1: done\nsubmit C: ticket 3\ndecide: ticket 3 accepted 0/2\nopen D: live\nlook D 0: withdrawn\nput D 1: done\nsubmit D: ticket 4\ndecide: ticket 4 overtaken\njournal: 3 jobs\n  0/1 ticket 2 looks 0@0/0=withdrawn 1@0/0=solid:77 puts\n  0/2 ticket 3 looks 0@0/0=withdrawn puts 1=withdrawn\n  1/0 ticket 1 looks 0@0/0=withdrawn puts 0=solid:1\nrow 0: solid:1 read 1/0 versions 0/0 1/0 first 1/0\nrow 1: withdrawn read 0/1 versions 0/0 0/2 first 0/2\narchive: 244 bytes\n  41534a3102020003000000030000002c00000024000000500000003c0000008c\n  00000034000000c000000034000000000000000000000000010000000000004d\n  0000000002000000000100040000000000000000000000010000000202000000\n  0000000000000000000000000000000000000000000000010000000000000000\n  010000000000004d000000000000000000000002000000030101000000000000\n  0000000000000000000000000000000000000001000000000000000000000000\n  0000000100000000000000010101000000000000000000000000000000000000\n  0000000000000000010000000000000100000000\nrun: 22 calls, 0 refused, 3 jobs in the journal\n",
    )
}

// Items by volume and page: jobs that only look, and one that is not submitted; the archive played too far, and once.
#[test]
fn looks_of_items_by_pages(rt: HostRuntime) -> Result<(), Fail> {
    prints(
        rt.alloc(),
        "found page item 50 withdrawn withdrawn solid:3\npublish\nopen J1 1\nopen J2 1\nlook J2 2\nlook J2 0\ndecide\njournal\ndecide\nsubmit J2\ntune J1 1\ndrop J1\nopen J3 1\nput J3 0 withdrawn\ntune J3 1\nopen J4 1\nlook J4 0\nimage 1\nlook J3 0\nput J4 0 withdrawn\nlook J3 0\nplay 1\npublish\nput J4 1 withdrawn\ndecide\nsettle J2 2\npublish\nsubmit J4\nput J3 0 sub:7:3\ntune J3 2\ntune J3 3\ntune J3 1\ndrop J3\nrow 0\nrow 1\nrow 2\njournal\narchive\ninspect\nplay 1\n",
        "found: 3 records\npublish: image 1\nopen J1: live\nopen J2: live\nlook J2 2: solid:3\nlook J2 0: withdrawn\ndecide: refused 9\njournal: 0 jobs\ndecide: refused 9\nsubmit J2: ticket 1\ntune J1: refused 4\ndrop J1: done\nopen J3: live\nput J3 0: done\ntune J3: refused 4\nopen J4: live\nlook J4 0: withdrawn\nimage 1: 3 records, 0 outcomes\n  0: withdrawn write 0/0 read 0/0 first none\n  1: withdrawn write 0/0 read 0/0 first none\n  2: solid:3 write 0/0 read 0/0 first none\nlook J3 0: withdrawn\nput J4 0: done\nlook J3 0: withdrawn\nplay 1: refused 18\npublish: image 2\nput J4 1: done\ndecide: ticket 1 accepted 1/0\nsettle J2: refused 12\npublish: image 3\nsubmit J4: ticket 2\nput J3 0: done\ntune J3: live\ntune J3: live\ntune J3: refused 4\ndrop J3: done\nrow 0: withdrawn read 1/0 versions 0/0 first none\nrow 1: withdrawn read 0/0 versions 0/0 first none\nrow 2: solid:3 read 1/0 versions 0/0 first none\njournal: 1 jobs\n  1/0 ticket 1 looks 2@0/0=solid:3 0@0/0=withdrawn puts\narchive: 124 bytes\n  41534a3102020003000000010000001c00000024000000400000003c00000000\n  0000000000000000000000000000000000000000010000000000000300000000\n  0000000100000000000000010200000000020000000000000000010000000000\n  00030000000000000000000000000000000000000000000000000000\ninspect: sound 1\nplay 1: 3 values\n  0: withdrawn\n  1: withdrawn\n  2: solid:3\nrun: 28 calls, 6 refused, 1 jobs in the journal\n",
    )
}

// Items by whole stamps: four versions of one record, and the archive played to its end.
#[test]
fn versions_of_items(rt: HostRuntime) -> Result<(), Fail> {
    prints(
        rt.alloc(),
        "found whole item 50 withdrawn withdrawn\npublish\nopen J1 1\nlook J1 0\nlook J1 0\npublish\nlook J1 1\nopen J2 1\nlook J2 0\nopen P3 2\nlook P3 0\nput P3 0 sub:3:4\nsubmit P3\ndecide\npublish\nopen P4 3\nlook P4 0\nput P4 0 withdrawn\nsubmit P4\ndecide\npublish\nopen P5 4\nlook P5 0\nput P5 0 solid:5\nsubmit P5\ndecide\npublish\nopen P6 5\nlook P6 0\nput P6 0 solid:6\nsubmit P6\ndecide\npublish\nopen P7 6\nlook P7 0\nput P7 0 sub:7:3\nrow 0\nrow 1\njob J1\njob J2\njob P7\njournal\narchive\ninspect\nplay 4\n",
        "found: 2 records\npublish: image 1\nopen J1: live\nlook J1 0: withdrawn\nlook J1 0: withdrawn\npublish: image 2\nlook J1 1: withdrawn\nopen J2: live\nlook J2 0: withdrawn\nopen P3: live\nlook P3 0: withdrawn\nput P3 0: done\nsubmit P3: ticket 1\ndecide: ticket 1 accepted 65536\npublish: image 3\nopen P4: live\nlook P4 0: sub:3:4\nput P4 0: done\nsubmit P4: ticket 2\ndecide: ticket 2 accepted 131072\npublish: image 4\nopen P5: live\nlook P5 0: withdrawn\nput P5 0: done\nsubmit P5: ticket 3\ndecide: ticket 3 accepted 196608\npublish: image 5\nopen P6: live\nlook P6 0: solid:5\nput P6 0: done\nsubmit P6: ticket 4\ndecide: ticket 4 accepted 262144\npublish: image 6\nopen P7: live\nlook P7 0: solid:6\nput P7 0: done\nrow 0: solid:6 read 262144 versions 65536 131072 196608 262144 first none\nrow 1: withdrawn read 0 versions 0 first none\njob J1: image 1 live lower 0 upper none\n  entry 0: record 0 noted 0 seen withdrawn put withdrawn seen open\n  entry 1: record 1 noted 0 seen withdrawn put withdrawn seen open\njob J2: image 1 live lower 0 upper none\n  entry 0: record 0 noted 0 seen withdrawn put withdrawn seen open\njob P7: image 6 live lower 262144 upper none\n  entry 0: record 0 noted 262144 seen solid:6 put sub:7:3 seen put open\njournal: 4 jobs\n  65536 ticket 1 looks 0@0=withdrawn puts 0=sub:3:4\n  131072 ticket 2 looks 0@65536=sub:3:4 puts 0=withdrawn\n  196608 ticket 3 looks 0@131072=withdrawn puts 0=solid:5\n  262144 ticket 4 looks 0@196608=solid:5 puts 0=solid:6\narchive: 284 bytes\n  41534a31010200020000000400000034000000180000004c0000003400000080\n  00000034000000b400000034000000e800000034000000000000000000000000\n  0000000000000000000000000000000000010000000000010101000000000000\n  0000000000000000000000000000000000000000020000000003000400000000\n  0000000000020000000000020101000000000000000000010000020000000003\n  0004000000000000000000000000000000000000000000000003000000000003\n  0101000000000000000000020000000000000000000000000000000001000000\n  0000000500000000000000000004000000000004010100000000000000000003\n  00000100000000000005000000000000010000000000000600000000\ninspect: sound 4\nplay 4: 2 values\n  0: solid:6\n  1: withdrawn\nrun: 36 calls, 0 refused, 4 jobs in the journal\n",
    )
}

// Cards by volume and page.
#[test]
fn cards_by_pages(rt: HostRuntime) -> Result<(), Fail> {
    prints(
        rt.alloc(),
        "found page card 5 1:mm:4294967295 2:cm:250\npublish\nopen J1 1\ntune J1 1\nlook J1 1\nsubmit J1\nopen J2 1\nopen J3 1\nlook J2 0\nopen J4 1\nput J2 0 3:m:4294967295\nlook J4 1\nput J4 1 4:mm:250\nopen J5 1\nlook J5 1\nput J3 1 5:inch:4294967295\nput J3 1 6:m:250\nlook J3 1 at 1\nput J4 0 7:inch:0\nsubmit J3\ntune J5 1\nput J5 0 8:mm:4294967295\nput J2 0 9:inch:0\nlook J4 1 at 0\npublish\nput J4 0 10:inch:250\nopen J6 2\nopen J7 2\nlook J5 1\ndecide\ndecide\nopen P8 2\nlook P8 1\nput P8 1 11:inch:4294967295\nsubmit P8\ndecide\npublish\nopen P9 3\nlook P9 1\nput P9 1 12:cm:4294967295\nsubmit P9\ndecide\npublish\nopen P10 4\nlook P10 1\nput P10 1 13:mm:4294967295\nsubmit P10\ndecide\npublish\nopen P11 5\nlook P11 1\nput P11 1 14:inch:0\nsubmit P11\nrow 0\nrow 1\njob J2\njob J4\njob J5\njob J6\njob J7\njournal\narchive\ninspect\nplay 4\n",
        "found: 2 records\npublish: image 1\nopen J1: live\ntune J1: refused 4\nlook J1 1: 2:cm:250\nsubmit J1: ticket 1\nopen J2: live\nopen J3: live\nlook J2 0: 1:mm:4294967295\nopen J4: live\nput J2 0: done\nlook J4 1: 2:cm:250\nput J4 1: done\nopen J5: live\nlook J5 1: 2:cm:250\nput J3 1: done\nput J3 1: done\nlook J3 1: 6:m:250\nput J4 0: done\nsubmit J3: ticket 2\ntune J5: refused 4\nput J5 0: done\nput J2 0: done\nlook J4 1: refused 3\npublish: image 2\nput J4 0: done\nopen J6: live\nopen J7: live\nlook J5 1: 2:cm:250\ndecide: ticket 1 accepted 1/0\ndecide: ticket 2 accepted 2/0\nopen P8: live\nlook P8 1: 2:cm:250\nput P8 1: done\nsubmit P8: ticket 3\ndecide: ticket 3 overtaken\npublish: image 3\nopen P9: live\nlook P9 1: 6:m:250\nput P9 1: done\nsubmit P9: ticket 4\ndecide: ticket 4 accepted 3/0\npublish: image 4\nopen P10: live\nlook P10 1: 12:cm:4294967295\nput P10 1: done\nsubmit P10: ticket 5\ndecide: ticket 5 accepted 4/0\npublish: image 5\nopen P11: live\nlook P11 1: 13:mm:4294967295\nput P11 1: done\nsubmit P11: ticket 6\nrow 0: 1:mm:4294967295 read 0/0 versions 0/0 first none\nrow 1: 13:mm:4294967295 read 4/0 versions 0/0 2/0 3/0 4/0 first none\njob J2: image 1 live lower 0/0 upper none\n  entry 0: record 0 noted 0/0 seen 1:mm:4294967295 put 9:inch:0 seen put open\njob J4: image 1 live lower 0/0 upper none\n  entry 0: record 1 noted 0/0 seen 2:cm:250 put 4:mm:250 seen put open\n  entry 1: record 0 noted 0/0 seen 7:inch:0 put 10:inch:250 put\njob J5: image 1 live lower 0/0 upper none\n  entry 0: record 1 noted 0/0 seen 2:cm:250 put 2:cm:250 seen open\n  entry 1: record 0 noted 0/0 seen 8:mm:4294967295 put 8:mm:4294967295 put\njob J6: image 2 live lower 0/0 upper none\njob J7: image 2 live lower 0/0 upper none\njournal: 4 jobs\n  1/0 ticket 1 looks 1@0/0=2:cm:250 puts\n  2/0 ticket 2 looks puts 1=6:m:250\n  3/0 ticket 4 looks 1@2/0=6:m:250 puts 1=12:cm:4294967295\n  4/0 ticket 5 looks 1@3/0=12:cm:4294967295 puts 1=13:mm:4294967295\narchive: 248 bytes\n  41534a31020100020000000400000034000000180000004c0000002600000072\n  0000001e0000009000000034000000c4000000340000000100000000ffffffff\n  0000000201000000000000fa0000000100000000000000010100000000010000\n  0000000000000000000201000000000000fa0000000200000000000000020001\n  000000010000000602000000000000fa00000003000000000000000401010000\n  000100000002000000000000000602000000000000fa00010000000c01000000\n  ffffffff00000004000000000000000501010000000100000003000000000000\n  000c01000000ffffffff00010000000d00000000ffffffff\ninspect: sound 4\nplay 4: 2 values\n  0: 1:mm:4294967295\n  1: 13:mm:4294967295\nrun: 53 calls, 3 refused, 4 jobs in the journal\n",
    )
}

// A line that is no call ends the run.
#[test]
fn a_line_that_is_no_call(rt: HostRuntime) -> Result<(), Fail> {
    stops(
        rt.alloc(),
        "found whole card 2 1:mm:10\npublish\nopen A 1\nlook Q 0\npublish\n",
        4,
        "found: 1 records\npublish: image 1\nopen A: live\nline 4: no job of this name: Q\n",
    )
}

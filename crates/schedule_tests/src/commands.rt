// Each command, at ordinary values and at the largest.
use crate::printed::prints;
use std::test::Fail;

#[test]
fn picks(rt: HostRuntime) -> Result<(), Fail> {
    let heap = rt.alloc();
    prints(heap, "pick whole 5 7", "pick whole 5 7: 6\n")?;
    prints(heap, "pick whole 5 6", "pick whole 5 6: none\n")?;
    prints(heap, "pick whole 0 none", "pick whole 0 none: 65536\n")?;
    prints(
        heap,
        "pick whole 4611686018427387903 none",
        "pick whole 4611686018427387903 none: none\n",
    )?;
    prints(heap, "pick page 3/17 none", "pick page 3/17 none: 4/0\n")?;
    prints(heap, "pick page 3/9999 4/0", "pick page 3/9999 4/0: none\n")?;
    prints(heap, "pick page 3/9999 4/1", "pick page 3/9999 4/1: 4/0\n")?;
    prints(
        heap,
        "pick page 9999/9999 none",
        "pick page 9999/9999 none: none\n",
    )
}

#[test]
fn forms(rt: HostRuntime) -> Result<(), Fail> {
    let heap = rt.alloc();
    prints(heap, "form whole 6", "form whole 6: 0000000000000006\n")?;
    prints(
        heap,
        "form whole 4611686018427387903",
        "form whole 4611686018427387903: 3fffffffffffffff\n",
    )?;
    prints(
        heap,
        "form page 9999/17",
        "form page 9999/17: 0000270f00000011\n",
    )?;
    prints(
        heap,
        "form card 4294967295:inch:4294967295",
        "form card 4294967295:inch:4294967295: ffffffff03000000ffffffff\n",
    )?;
    prints(
        heap,
        "form card 1:cm:2\nform card 1:m:2\nform card 4:mm:250",
        "form card 1:cm:2: 000000010100000000000002\nform card 1:m:2: 000000010200000000000002\nform card 4:mm:250: 0000000400000000000000fa\n",
    )?;
    prints(
        heap,
        "form item withdrawn",
        "form item withdrawn: 000000000000000000000000\n",
    )?;
    prints(
        heap,
        "form item solid:4294967295",
        "form item solid:4294967295: 01000000ffffffff00000000\n",
    )?;
    prints(
        heap,
        "form item sub:65535:65535\nform item sub:12:4",
        "form item sub:65535:65535: 02000000ffffffff00000000\nform item sub:12:4: 02000000000c000400000000\n",
    )
}

#[test]
fn readings(rt: HostRuntime) -> Result<(), Fail> {
    let heap = rt.alloc();
    prints(
        heap,
        "read whole 0000000000000006",
        "read whole 0000000000000006: 6\n",
    )?;
    prints(
        heap,
        "read whole ffffffffffffffff",
        "read whole ffffffffffffffff: wrong\n",
    )?;
    prints(
        heap,
        "read page 0000270f00000011",
        "read page 0000270f00000011: 9999/17\n",
    )?;
    prints(
        heap,
        "read page 0000271000000011",
        "read page 0000271000000011: wrong\n",
    )?;
    prints(
        heap,
        "read card 0000000400000000000000fa",
        "read card 0000000400000000000000fa: 4:mm:250\n",
    )?;
    prints(
        heap,
        "read card 0000000404000000000000fa",
        "read card 0000000404000000000000fa: wrong\n",
    )?;
    prints(
        heap,
        "read item 010000000000004d00000000",
        "read item 010000000000004d00000000: solid:77\n",
    )?;
    prints(
        heap,
        "read item 02000000000c000000000000",
        "read item 02000000000c000000000000: wrong\n",
    )
}

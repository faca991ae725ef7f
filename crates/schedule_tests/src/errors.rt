// Lines that are no call.
use crate::printed::stops;
use std::alloc::Global;
use std::test::Fail;

// A schedule of this one line ends there, for this reason.
fn refused(heap: Global, line: &str, reason: &str) -> Result<(), Fail> {
    let text = format!(in heap; "line 1: expected {reason}\n")?;
    stops(heap, line, 1, text.as_str())
}

#[test]
fn words(rt: HostRuntime) -> Result<(), Fail> {
    let heap = rt.alloc();
    refused(heap, "choose whole 5 7", "pick, form or read")?;
    refused(heap, "PICK whole 5 7", "pick, form or read")?;
    refused(heap, "pick", "pick KIND LOWER UPPER")?;
    refused(heap, "pick whole 5", "pick KIND LOWER UPPER")?;
    refused(heap, "pick whole 5 7 9", "pick KIND LOWER UPPER")?;
    refused(heap, "form whole", "form KIND VALUE")?;
    refused(heap, "form whole 5 7", "form KIND VALUE")?;
    refused(heap, "read card", "read KIND DIGITS")?;
    refused(heap, "read whole 0000000000000006 x", "read KIND DIGITS")?;
    refused(heap, "pick card 5 7", "the stamp kind whole or page")?;
    refused(heap, "form part 5", "the kind whole, page, card or item")?;
    refused(heap, "read part 5", "the kind whole, page, card or item")
}

#[test]
fn stamps(rt: HostRuntime) -> Result<(), Fail> {
    let heap = rt.alloc();
    let whole = "a whole stamp, 0 to 4611686018427387903";
    let page = "a volume and a page, as 3/17, each 0 to 9999";
    refused(heap, "form whole 4611686018427387904", whole)?;
    refused(
        heap,
        "form whole 99999999999999999999999999999999999999",
        whole,
    )?;
    refused(heap, "form whole -1", whole)?;
    refused(heap, "form whole +1", whole)?;
    refused(heap, "form whole none", whole)?;
    refused(heap, "pick whole none 7", whole)?;
    refused(heap, "pick whole 5 7\r", whole)?;
    refused(heap, "form page 10000/0", page)?;
    refused(heap, "form page 0/10000", page)?;
    refused(heap, "form page 3", page)?;
    refused(heap, "form page 3/", page)?;
    refused(heap, "pick page 3/17 3/17/1", page)
}

#[test]
fn values(rt: HostRuntime) -> Result<(), Fail> {
    let heap = rt.alloc();
    let card = "a card, as 4:mm:250";
    let item = "an item: withdrawn, solid:77 or sub:12:4";
    refused(heap, "form card 4294967296:mm:250", card)?;
    refused(heap, "form card 4:mm:4294967296", card)?;
    refused(heap, "form card 4:km:250", card)?;
    refused(heap, "form card 4:mm", card)?;
    refused(heap, "form card 4:mm:250:1", card)?;
    refused(heap, "form item solid:4294967296", item)?;
    refused(heap, "form item sub:65536:1", item)?;
    refused(heap, "form item sub:1:65536", item)?;
    refused(heap, "form item sub:1:0", item)?;
    refused(heap, "form item withdrawn:", item)?;
    refused(heap, "form item solid:", item)
}

#[test]
fn digits(rt: HostRuntime) -> Result<(), Fail> {
    let heap = rt.alloc();
    let stamp = "16 hexadecimal digits in lower case";
    let value = "24 hexadecimal digits in lower case";
    refused(heap, "read whole 000000000000000", stamp)?;
    refused(heap, "read whole 00000000000000006", stamp)?;
    refused(heap, "read whole 000000000000000A", stamp)?;
    refused(heap, "read page 000000000000000g", stamp)?;
    refused(heap, "read page 0000000400000000000000fa", stamp)?;
    refused(heap, "read card 0000000400000000000000FA", value)?;
    refused(heap, "read card 0000000000000006", value)?;
    refused(heap, "read item 0000000400000000000000fa0", value)
}

#[test]
fn places(rt: HostRuntime) -> Result<(), Fail> {
    let heap = rt.alloc();
    stops(
        heap,
        "# a comment\n\npick whole 5 7\nform item sub:1:0\npick whole 5 7\n",
        4,
        "pick whole 5 7: 6\nline 4: expected an item: withdrawn, solid:77 or sub:12:4\n",
    )
}

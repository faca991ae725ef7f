// Lines, words and numbers as they may be written.
use crate::printed::prints;
use std::test::Fail;

#[test]
fn blanks_and_comments(rt: HostRuntime) -> Result<(), Fail> {
    let heap = rt.alloc();
    prints(heap, "\n", "")?;
    prints(heap, "\n   \n# a comment\n  #another one\n", "")?;
    prints(
        heap,
        "# one\n\nform whole 6\n#two",
        "form whole 6: 0000000000000006\n",
    )?;
    prints(
        heap,
        "   form   whole    6   ",
        "form whole 6: 0000000000000006\n",
    )?;
    prints(
        heap,
        "form whole 6\nform whole 7",
        "form whole 6: 0000000000000006\nform whole 7: 0000000000000007\n",
    )
}

#[test]
fn leading_zeros(rt: HostRuntime) -> Result<(), Fail> {
    let heap = rt.alloc();
    prints(
        heap,
        "pick whole 0005 00000000000000000000000000000000007",
        "pick whole 5 7: 6\n",
    )?;
    prints(
        heap,
        "form page 003/0017",
        "form page 3/17: 0000000300000011\n",
    )?;
    prints(
        heap,
        "form card 04:mm:0250\nform item sub:0012:04\nform item solid:00",
        "form card 4:mm:250: 0000000400000000000000fa\nform item sub:12:4: 02000000000c000400000000\nform item solid:0: 010000000000000000000000\n",
    )
}

#[test]
fn help(rt: HostRuntime) -> Result<(), Fail> {
    prints(
        rt.alloc(),
        "",
        "pick KIND LOWER UPPER\n  a stamp after LOWER and before UPPER, which may be none; KIND is whole or page\nform KIND VALUE\n  the written form of a stamp or value; KIND is whole, page, card or item\nread KIND DIGITS\n  the stamp or value of a written form of 16 or 24 hexadecimal digits\nvalues: whole 65536, page 3/17, card 4:mm:250, item withdrawn, solid:77 or sub:12:4\n",
    )
}

// What a row of a table asks of any stamp kind, and of any written form.
use kinds::stamp::Stamp;
use std::test::Fail;

// The last whole stamp, 2^62 - 1; the next two contents count as it.
pub const LAST: u64 = 0x3fff_ffff_ffff_ffff;

pub const OVER: u64 = 0x4000_0000_0000_0000;

pub const MOST: u64 = 0xffff_ffff_ffff_ffff;

// Stamps that are listed from the earliest on: each two compare as their places in the list do.
pub fn in_order<S: Stamp>(stamps: &[S]) -> Result<(), Fail> {
    for (i, a) in stamps.iter().enumerate() {
        for (j, b) in stamps.iter().enumerate() {
            if a.compare(*b) != i.cmp(&j) {
                return Err(Fail::new("two stamps compare otherwise"));
            }
        }
    }
    Ok(())
}

// A stamp or value is written as these bytes, and what they are read as is written so again.
pub fn is_form<const N: usize>(
    bytes: [u8; N],
    written: [u8; N],
    again: Option<[u8; N]>,
) -> Result<(), Fail> {
    if written != bytes {
        return Err(Fail::new("it is written otherwise"));
    }
    match again {
        Some(again) if again == bytes => Ok(()),
        Some(_) => Err(Fail::new("what is read is written otherwise")),
        None => Err(Fail::new("a written form is no form")),
    }
}

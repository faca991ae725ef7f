// Whole stamps at and around their bounds.
use crate::tables::{LAST, MOST, OVER, in_order, is_form};
use kinds::stamp::Stamp;
use kinds::whole::Whole;
use std::test::Fail;

fn whole(place: u64) -> Whole {
    Whole { place }
}

fn place(stamp: Whole) -> u64 {
    stamp.place
}

#[test]
fn whole_order() -> Result<(), Fail> {
    in_order(&[
        whole(0),
        whole(1),
        whole(65_535),
        whole(65_536),
        whole(LAST - 1),
        whole(LAST),
    ])?;
    in_order(&[whole(LAST - 1), whole(OVER)])?;
    in_order(&[whole(LAST - 1), whole(MOST)])
}

#[test]
fn whole_number_least_and_counted(rt: HostRuntime) {
    assert_eq!(rt; Whole::number(), 1);
    assert_eq!(rt; Whole::least().place, 0);
    for (content, counts_as) in [
        (0, 0),
        (LAST - 1, LAST - 1),
        (LAST, LAST),
        (OVER, LAST),
        (MOST, LAST),
    ] {
        assert_eq!(rt; whole(content).counted(), counts_as);
    }
}

// A lower bound, an upper bound that may be absent, and what is picked.
#[test]
fn whole_picks(rt: HostRuntime) {
    for (lower, upper, expected) in [
        (5, Some(7), Some(6)),
        (5, Some(6), None),
        (5, Some(5), None),
        (7, Some(5), None),
        (0, Some(2), Some(1)),
        (0, Some(65_536), Some(32_768)),
        (0, Some(3), Some(1)),
        (5, Some(10), Some(7)),
        (LAST - 2, Some(LAST), Some(LAST - 1)),
        (LAST - 2, Some(OVER), Some(LAST - 1)),
        (LAST - 1, Some(MOST), None),
        (0, None, Some(65_536)),
        (LAST - 65_537, None, Some(LAST - 1)),
        (LAST - 65_536, None, Some(LAST)),
        (LAST - 1, None, Some(LAST)),
        (LAST, None, None),
        (OVER, None, None),
        (MOST, None, None),
    ] {
        assert_eq!(rt; whole(lower).pick(upper.map(whole)).map(place), expected);
    }
}

#[test]
fn whole_forms(rt: HostRuntime) -> Result<(), Fail> {
    for (content, bytes) in [
        (0, [0, 0, 0, 0, 0, 0, 0, 0]),
        (1, [0, 0, 0, 0, 0, 0, 0, 1]),
        (65_535, [0, 0, 0, 0, 0, 0, 255, 255]),
        (65_536, [0, 0, 0, 0, 0, 1, 0, 0]),
        (0x0102_0304_0506_0708, [1, 2, 3, 4, 5, 6, 7, 8]),
        (LAST - 1, [0x3f, 255, 255, 255, 255, 255, 255, 254]),
        (LAST, [0x3f, 255, 255, 255, 255, 255, 255, 255]),
        (OVER, [0x3f, 255, 255, 255, 255, 255, 255, 255]),
        (MOST, [0x3f, 255, 255, 255, 255, 255, 255, 255]),
    ] {
        let read = Whole::from_bytes(bytes);
        is_form(bytes, whole(content).to_bytes(), read.map(Whole::to_bytes))?;
        assert_eq!(rt; read.map(place), Some(content.min(LAST)));
    }
    Ok(())
}

#[test]
fn whole_no_forms(rt: HostRuntime) {
    for bytes in [
        [0x40, 0, 0, 0, 0, 0, 0, 0],
        [0x40, 0, 0, 0, 0, 0, 0, 1],
        [0x80, 0, 0, 0, 0, 0, 0, 0],
        [255, 255, 255, 255, 255, 255, 255, 255],
    ] {
        assert!(rt; Whole::from_bytes(bytes).is_none());
    }
}

// Stamps of volume and page at and around their bounds.
use crate::tables::{in_order, is_form};
use kinds::stamp::Stamp;
use kinds::volume::VolumePage;
use std::test::Fail;

fn at(volume: u32, page: u32) -> VolumePage {
    VolumePage { volume, page }
}

fn numbers(stamp: VolumePage) -> (u32, u32) {
    (stamp.volume, stamp.page)
}

// By volume first, and then by page.
#[test]
fn volume_order() -> Result<(), Fail> {
    in_order(&[
        at(0, 0),
        at(0, 9_999),
        at(1, 0),
        at(9_998, 9_999),
        at(9_999, 0),
        at(9_999, 9_999),
    ])?;
    in_order(&[at(9_998, 10_000), at(10_000, 0), at(10_000, 10_000)])
}

#[test]
fn volume_number_least_and_counted(rt: HostRuntime) {
    assert_eq!(rt; VolumePage::number(), 2);
    let least = VolumePage::least();
    assert_eq!(rt; (least.volume, least.page), (0, 0));
    for (content, counts_as) in [
        (0, 0),
        (9_999, 9_999),
        (10_000, 9_999),
        (0xffff_ffff, 9_999),
    ] {
        assert_eq!(rt; at(content, 17).counted_volume(), counts_as);
        assert_eq!(rt; at(content, 17).counted_page(), 17);
        assert_eq!(rt; at(17, content).counted_volume(), 17);
        assert_eq!(rt; at(17, content).counted_page(), counts_as);
    }
}

#[test]
fn volume_next(rt: HostRuntime) {
    for (volume, page, expected) in [
        (0, 0, Some((0, 1))),
        (0, 9_998, Some((0, 9_999))),
        (0, 9_999, Some((1, 0))),
        (3, 10_000, Some((4, 0))),
        (9_998, 9_999, Some((9_999, 0))),
        (9_999, 9_998, Some((9_999, 9_999))),
        (9_999, 9_999, None),
        (10_000, 10_000, None),
    ] {
        assert_eq!(rt; at(volume, page).next().map(numbers), expected);
    }
}

// A lower bound, an upper bound that may be absent, and what is picked.
#[test]
fn volume_picks(rt: HostRuntime) {
    for ((volume, page), upper, expected) in [
        ((3, 9_999), Some((4, 1)), Some((4, 0))),
        ((3, 9_999), Some((4, 0)), None),
        ((3, 17), Some((3, 19)), Some((3, 18))),
        ((3, 17), Some((3, 18)), None),
        ((3, 17), Some((3, 17)), None),
        ((3, 17), Some((2, 9_999)), None),
        ((3, 17), Some((4, 0)), Some((3, 18))),
        ((9_999, 9_998), Some((9_999, 9_999)), None),
        ((9_999, 9_997), Some((10_000, 10_000)), Some((9_999, 9_998))),
        ((9_999, 9_999), Some((9_999, 9_999)), None),
        ((3, 17), None, Some((4, 0))),
        ((3, 9_999), None, Some((4, 0))),
        ((9_998, 9_999), None, Some((9_999, 0))),
        ((9_999, 17), None, Some((9_999, 18))),
        ((10_000, 17), None, Some((9_999, 18))),
        ((9_999, 9_998), None, Some((9_999, 9_999))),
        ((9_999, 9_999), None, None),
        ((9_999, 10_000), None, None),
    ] {
        let upper = upper.map(|(v, p)| at(v, p));
        assert_eq!(rt; at(volume, page).pick(upper).map(numbers), expected);
    }
}

// 9,999 is 0x270f.
#[test]
fn volume_forms(rt: HostRuntime) -> Result<(), Fail> {
    for (volume, page, bytes) in [
        (0, 0, [0, 0, 0, 0, 0, 0, 0, 0]),
        (0, 9_999, [0, 0, 0, 0, 0, 0, 0x27, 0x0f]),
        (1, 0, [0, 0, 0, 1, 0, 0, 0, 0]),
        (258, 772, [0, 0, 1, 2, 0, 0, 3, 4]),
        (9_999, 9_999, [0, 0, 0x27, 0x0f, 0, 0, 0x27, 0x0f]),
        (10_000, 17, [0, 0, 0x27, 0x0f, 0, 0, 0, 17]),
        (3, 10_000, [0, 0, 0, 3, 0, 0, 0x27, 0x0f]),
        (
            0xffff_ffff,
            0xffff_ffff,
            [0, 0, 0x27, 0x0f, 0, 0, 0x27, 0x0f],
        ),
    ] {
        let read = VolumePage::from_bytes(bytes);
        is_form(
            bytes,
            at(volume, page).to_bytes(),
            read.map(VolumePage::to_bytes),
        )?;
        assert_eq!(rt;
            read.map(numbers),
            Some((volume.min(9_999), page.min(9_999)))
        );
    }
    Ok(())
}

// 10,000 is 0x2710.
#[test]
fn volume_no_forms(rt: HostRuntime) {
    for bytes in [
        [0, 0, 0x27, 0x10, 0, 0, 0, 0],
        [0, 0, 0, 0, 0, 0, 0x27, 0x10],
        [0, 0, 0x27, 0x10, 0, 0, 0x27, 0x10],
        [1, 0, 0, 0, 0, 0, 0, 0],
        [0, 0, 0, 0, 1, 0, 0, 0],
        [255, 255, 255, 255, 255, 255, 255, 255],
    ] {
        assert!(rt; VolumePage::from_bytes(bytes).is_none());
    }
}

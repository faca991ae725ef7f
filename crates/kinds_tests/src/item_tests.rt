// Items: each case both ways, the count that counts as 1, and what is no form.
use crate::tables::is_form;
use kinds::item::Item;
use kinds::value::Record;
use std::test::Fail;

// The numbers in an item: its tag, and the two that its case may hold.
fn item_numbers(item: Item) -> (u8, u32, u16) {
    match item {
        Item::Withdrawn => (0, 0, 0),
        Item::Solid { shape } => (1, shape, 0),
        Item::SubAssembly { part, count } => (2, u32::from(part), count),
    }
}

#[test]
fn item_number_and_tags(rt: HostRuntime) {
    assert_eq!(rt; Item::number(), 2);
    assert_eq!(rt; Item::Withdrawn.tag(), 0);
    assert_eq!(rt; (Item::Solid { shape: 9 }).tag(), 1);
    assert_eq!(rt; (Item::SubAssembly { part: 9, count: 0 }).tag(), 2);
}

// An item, its form, and what the form is read as.
#[test]
fn item_forms(rt: HostRuntime) -> Result<(), Fail> {
    for (item, bytes, read) in [
        (
            Item::Withdrawn,
            [0, 0, 0, 0, 0, 0, 0, 0, 0, 0, 0, 0],
            (0, 0, 0),
        ),
        (
            Item::Solid { shape: 0 },
            [1, 0, 0, 0, 0, 0, 0, 0, 0, 0, 0, 0],
            (1, 0, 0),
        ),
        (
            Item::Solid { shape: 0x0102_0304 },
            [1, 0, 0, 0, 1, 2, 3, 4, 0, 0, 0, 0],
            (1, 0x0102_0304, 0),
        ),
        (
            Item::Solid { shape: 0xffff_ffff },
            [1, 0, 0, 0, 255, 255, 255, 255, 0, 0, 0, 0],
            (1, 0xffff_ffff, 0),
        ),
        (
            Item::SubAssembly { part: 0, count: 1 },
            [2, 0, 0, 0, 0, 0, 0, 1, 0, 0, 0, 0],
            (2, 0, 1),
        ),
        (
            Item::SubAssembly { part: 0, count: 0 },
            [2, 0, 0, 0, 0, 0, 0, 1, 0, 0, 0, 0],
            (2, 0, 1),
        ),
        (
            Item::SubAssembly {
                part: 0x0102,
                count: 0x0304,
            },
            [2, 0, 0, 0, 1, 2, 3, 4, 0, 0, 0, 0],
            (2, 0x0102, 0x0304),
        ),
        (
            Item::SubAssembly {
                part: 65_535,
                count: 65_535,
            },
            [2, 0, 0, 0, 255, 255, 255, 255, 0, 0, 0, 0],
            (2, 65_535, 65_535),
        ),
    ] {
        let back = Item::from_bytes(bytes);
        is_form(bytes, item.to_bytes(), back.map(Item::to_bytes))?;
        assert_eq!(rt; back.map(item_numbers), Some(read));
    }
    Ok(())
}

// A tag above 2, data of a withdrawn item, and a sub-assembly that is counted 0 times.
#[test]
fn item_no_forms(rt: HostRuntime) {
    for bytes in [
        [3, 0, 0, 0, 0, 0, 0, 1, 0, 0, 0, 0],
        [255, 0, 0, 0, 0, 0, 0, 1, 0, 0, 0, 0],
        [0, 0, 0, 0, 1, 0, 0, 0, 0, 0, 0, 0],
        [0, 0, 0, 0, 0, 1, 0, 0, 0, 0, 0, 0],
        [0, 0, 0, 0, 0, 0, 1, 0, 0, 0, 0, 0],
        [0, 0, 0, 0, 0, 0, 0, 1, 0, 0, 0, 0],
        [2, 0, 0, 0, 0, 0, 0, 0, 0, 0, 0, 0],
        [2, 0, 0, 0, 255, 255, 0, 0, 0, 0, 0, 0],
    ] {
        assert!(rt; Item::from_bytes(bytes).is_none());
    }
}

// Each case with each of its seven zero bytes, those beside the tag and the data, set to 1. One range with a test,
// since of a chain of two it is not proved that its places lie in the form.
#[test]
fn item_zero_bytes(rt: HostRuntime) {
    for form in [
        [0, 0, 0, 0, 0, 0, 0, 0, 0, 0, 0, 0],
        [1, 0, 0, 0, 1, 2, 3, 4, 0, 0, 0, 0],
        [2, 0, 0, 0, 1, 2, 3, 4, 0, 0, 0, 0],
    ] {
        assert!(rt; Item::from_bytes(form).is_some());
        for at in 1..12 {
            if at < 4 || 8 <= at {
                let mut bytes = form;
                bytes[at] = 1;
                assert!(rt; Item::from_bytes(bytes).is_none());
            }
        }
    }
}

// The generic functions, also of contents that count alike.
use crate::tables::{LAST, MOST, OVER};
use kinds::bounds::{before, earlier, later, same};
use kinds::card::{Card, Unit};
use kinds::item::Item;
use kinds::value::same_value;
use kinds::volume::VolumePage;
use kinds::whole::Whole;

// Of two that are the same, neither.
#[test]
fn before_of_two(rt: HostRuntime) {
    for (a, b, expected) in [
        (5, 7, true),
        (7, 5, false),
        (5, 5, false),
        (LAST - 1, MOST, true),
        (LAST, OVER, false),
        (OVER, LAST, false),
    ] {
        assert_eq!(rt; before(Whole { place: a }, Whole { place: b }), expected);
    }
}

// Of two that are the same, the first.
#[test]
fn later_of_two(rt: HostRuntime) {
    for (a, b, expected) in [
        (5, 7, 7),
        (7, 5, 7),
        (5, 5, 5),
        (LAST - 1, MOST, MOST),
        (LAST, OVER, LAST),
        (OVER, MOST, OVER),
        (MOST, OVER, MOST),
    ] {
        assert_eq!(rt;
            later(Whole { place: a }, Whole { place: b }).place,
            expected
        );
    }
}

// Of two that are the same, the bound.
#[test]
fn earlier_of_bound_and_stamp(rt: HostRuntime) {
    assert_eq!(rt; earlier(None, Whole { place: MOST }).place, MOST);
    for (upper, stamp, expected) in [
        (5, 7, 5),
        (7, 5, 5),
        (5, 5, 5),
        (MOST, LAST - 1, LAST - 1),
        (LAST, OVER, LAST),
        (OVER, MOST, OVER),
        (MOST, OVER, MOST),
    ] {
        assert_eq!(rt;
            earlier(Some(Whole { place: upper }), Whole { place: stamp }).place,
            expected
        );
    }
}

#[test]
fn same_whole(rt: HostRuntime) {
    for (a, b, expected) in [
        (0, 0, true),
        (0, 1, false),
        (1, 0, false),
        (LAST - 1, LAST, false),
        (LAST, OVER, true),
        (OVER, MOST, true),
        (LAST - 1, MOST, false),
    ] {
        assert_eq!(rt; same(Whole { place: a }, Whole { place: b }), expected);
    }
}

#[test]
fn same_volume_and_page(rt: HostRuntime) {
    for ((v, p), (w, q), expected) in [
        ((3, 9_999), (3, 10_000), true),
        ((3, 9_999), (4, 0), false),
        ((3, 4), (4, 3), false),
        ((9_999, 1), (10_000, 1), true),
        ((10_000, 10_000), (0xffff_ffff, 0xffff_ffff), true),
        ((9_998, 1), (10_000, 1), false),
    ] {
        let a = VolumePage { volume: v, page: p };
        let b = VolumePage { volume: w, page: q };
        assert_eq!(rt; same(a, b), expected);
    }
}

#[test]
fn same_item(rt: HostRuntime) {
    for (a, b, expected) in [
        (Item::Withdrawn, Item::Withdrawn, true),
        (Item::Withdrawn, Item::Solid { shape: 0 }, false),
        (
            Item::Solid { shape: 1 },
            Item::SubAssembly { part: 0, count: 1 },
            false,
        ),
        (
            Item::SubAssembly { part: 3, count: 0 },
            Item::SubAssembly { part: 3, count: 1 },
            true,
        ),
        (
            Item::SubAssembly { part: 3, count: 0 },
            Item::SubAssembly { part: 4, count: 0 },
            false,
        ),
        (
            Item::SubAssembly { part: 3, count: 1 },
            Item::SubAssembly { part: 3, count: 2 },
            false,
        ),
    ] {
        assert_eq!(rt; same_value(a, b), expected);
    }
}

// Two cards are the same where their revision, unit and mass are.
#[test]
fn same_card(rt: HostRuntime) {
    let card = Card {
        revision: 1,
        unit: Unit::Metre,
        mass: 2,
    };
    for (revision, unit, mass, expected) in [
        (1, Unit::Metre, 2, true),
        (2, Unit::Metre, 2, false),
        (1, Unit::Inch, 2, false),
        (1, Unit::Metre, 1, false),
    ] {
        let other = Card {
            revision,
            unit,
            mass,
        };
        assert_eq!(rt; same_value(card, other), expected);
    }
}

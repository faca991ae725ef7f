// Cards: each unit both ways, the ends of revision and mass, and what is no form.
use crate::tables::is_form;
use kinds::card::{Card, NoUnit, Unit};
use kinds::value::Record;
use std::test::Fail;

const MOST: u32 = 0xffff_ffff;

#[test]
fn card_number(rt: HostRuntime) {
    assert_eq!(rt; Card::number(), 1);
}

#[test]
fn unit_numbers(rt: HostRuntime) {
    for (unit, number) in [
        (Unit::Millimetre, 0),
        (Unit::Centimetre, 1),
        (Unit::Metre, 2),
        (Unit::Inch, 3),
    ] {
        assert_eq!(rt; u8::from(unit), number);
        assert_eq!(rt; Unit::try_from(number), Ok(unit));
    }
    for number in 4..=255 {
        assert_eq!(rt; Unit::try_from(number), Err(NoUnit(number)));
    }
}

#[test]
fn card_forms(rt: HostRuntime) -> Result<(), Fail> {
    for (revision, unit, mass, bytes) in [
        (0, Unit::Millimetre, 0, [0, 0, 0, 0, 0, 0, 0, 0, 0, 0, 0, 0]),
        (1, Unit::Centimetre, 2, [0, 0, 0, 1, 1, 0, 0, 0, 0, 0, 0, 2]),
        (
            MOST,
            Unit::Metre,
            0,
            [255, 255, 255, 255, 2, 0, 0, 0, 0, 0, 0, 0],
        ),
        (
            0,
            Unit::Inch,
            MOST,
            [0, 0, 0, 0, 3, 0, 0, 0, 255, 255, 255, 255],
        ),
        (
            0x0102_0304,
            Unit::Inch,
            0x0506_0708,
            [1, 2, 3, 4, 3, 0, 0, 0, 5, 6, 7, 8],
        ),
    ] {
        let card = Card {
            revision,
            unit,
            mass,
        };
        let read = Card::from_bytes(bytes);
        is_form(bytes, card.to_bytes(), read.map(Card::to_bytes))?;
        assert_eq!(rt; read, Some(card));
    }
    Ok(())
}

// A unit above 3, and each of the three zero bytes set to 1.
#[test]
fn card_no_forms(rt: HostRuntime) {
    for bytes in [
        [1, 2, 3, 4, 4, 0, 0, 0, 5, 6, 7, 8],
        [1, 2, 3, 4, 255, 0, 0, 0, 5, 6, 7, 8],
        [1, 2, 3, 4, 2, 1, 0, 0, 5, 6, 7, 8],
        [1, 2, 3, 4, 2, 0, 1, 0, 5, 6, 7, 8],
        [1, 2, 3, 4, 2, 0, 0, 1, 5, 6, 7, 8],
    ] {
        assert!(rt; Card::from_bytes(bytes).is_none());
    }
}

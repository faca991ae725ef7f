// Cards, record kind 1: the revision of a part, the unit of its drawing, and its mass.
ghost use Rattle.std.specs.Prelude.{◌≡◌, Some};
ghost use Rattle.std.specs.Option.{ok_or};
ghost use Rattle.kinds.specs.Card.{unit_number, unit_numbered, no_unit, no_unit_text, card_kind, card_read};
ghost use Rattle.kinds.specs.CardLaws.{card_laws};

use crate::value::Record;
use std::error::Error;
use std::fmt;

// The units, each with its number in a card's form.
#[derive(Clone, Copy, Debug, PartialEq, Eq)]
pub enum Unit {
    Millimetre = 0,
    Centimetre = 1,
    Metre = 2,
    Inch = 3,
}

// A number that no unit has.
#[derive(Clone, Copy, Debug, PartialEq, Eq)]
pub struct NoUnit(pub u8);

impl fmt::Display for NoUnit {
    ghost output = { λ x. Some (no_unit_text x.0) };

    fn fmt<W: fmt::Write>(&self, f: &mut fmt::Formatter<W>) -> fmt::Result {
        let n = self.0;
        write!(f, "no unit has number {n}")
    }
}

impl Error for NoUnit {}

// The number of a unit.
impl From<Unit> for u8 {
    ghost from_gives = { λ unit n. n ≡ unit_number unit };

    fn from(unit: Unit) -> u8 {
        unit as u8
    }
}

// The unit that has a number, if any.
impl TryFrom<u8> for Unit {
    type Error = NoUnit;

    ghost try_from_gives = { λ n r. r ≡ ok_or (unit_numbered n) (no_unit n) };

    fn try_from(n: u8) -> Result<Unit, NoUnit> {
        match n {
            0 => Ok(Unit::Millimetre),
            1 => Ok(Unit::Centimetre),
            2 => Ok(Unit::Metre),
            3 => Ok(Unit::Inch),
            _ => Err(NoUnit(n)),
        }
    }
}

// The mass is in grams.
#[derive(Clone, Copy, Debug, PartialEq, Eq)]
pub struct Card {
    pub revision: u32,
    pub unit: Unit,
    pub mass: u32,
}

impl Record for Card {
    ghost kind = { card_kind };

    ghost written = { card_laws };

    fn number() -> u8 {
        1
    }

    // Revision 4 bytes, unit 1 byte, three zero bytes, mass 4 bytes.
    fn to_bytes(self) -> [u8; 12] {
        let [a, b, c, d] = self.revision.to_be_bytes();
        let [e, f, g, h] = self.mass.to_be_bytes();
        [a, b, c, d, u8::from(self.unit), 0, 0, 0, e, f, g, h]
    }

    // A unit above 3, or a byte beside it that is not zero, is no form.
    fn from_bytes(bytes: [u8; 12]) -> Option<Card>
        ensures { result ≡ card_read bytes }
    {
        let [a, b, c, d, unit, 0, 0, 0, e, f, g, h] = bytes else {
            return None;
        };
        let unit = Unit::try_from(unit).ok()?;
        Some(Card {
            revision: u32::from_be_bytes([a, b, c, d]),
            unit,
            mass: u32::from_be_bytes([e, f, g, h]),
        })
    }
}

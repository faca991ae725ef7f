// Cards as text: revision, unit and mass in grams, as `4:mm:250`.
ghost use Rattle.std.specs.Prelude.{◌≡◌};
ghost use Rattle.notation.specs.Card.{unit_name, unit_named, card_notes, card_parsed};
ghost use Rattle.notation.specs.CardLaws.{card_back, card_alike};

use crate::cut::cut;
use crate::numbers::number;
use crate::text::Notation;
use kinds::card::{Card, Unit};
use std::fmt;

// The word for a unit; a function, since a unit's `Display` could stand only in kinds, beside the type, and kinds holds
// no text: how stamps and values are written lies here together.
pub fn unit_text(unit: Unit) -> &'static str
    ensures { result.now ≡ unit_name unit }
{
    match unit {
        Unit::Millimetre => "mm",
        Unit::Centimetre => "cm",
        Unit::Metre => "m",
        Unit::Inch => "inch",
    }
}

// The unit that a word names, if any.
pub fn parse_unit(word: &[u8]) -> Option<Unit>
    ensures { result ≡ unit_named word.now }
{
    match word {
        b"mm" => Some(Unit::Millimetre),
        b"cm" => Some(Unit::Centimetre),
        b"m" => Some(Unit::Metre),
        b"inch" => Some(Unit::Inch),
        _ => None,
    }
}

impl Notation for Card {
    ghost notes = { card_notes };

    ghost back = { card_back };

    ghost alike = { card_alike };

    // A revision or a mass above 2^32 - 1, or another unit, is no card.
    fn parse(word: &[u8]) -> Option<Card>
        ensures { result ≡ card_parsed word.now }
    {
        let (revision, rest) = cut(word, b':')?;
        let (unit, mass) = cut(rest, b':')?;
        let revision = number(revision, u32::MAX.into())? as u32;
        let unit = parse_unit(unit)?;
        let mass = number(mass, u32::MAX.into())? as u32;
        Some(Card {
            revision,
            unit,
            mass,
        })
    }

    fn show<W: fmt::Write>(self, f: &mut fmt::Formatter<W>) -> fmt::Result {
        let revision = self.revision;
        let unit = unit_text(self.unit);
        let mass = self.mass;
        write!(f, "{revision}:{unit}:{mass}")
    }
}

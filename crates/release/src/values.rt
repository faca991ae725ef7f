// Values drawn by chance.
use crate::chance::Chance;
use kinds::card::{Card, Unit};
use kinds::item::Item;
use kinds::value::Record;

// A record kind whose values can be drawn.
pub trait Drawn: Record {
    // A value by chance.
    fn drawn(chance: &mut Chance) -> Self;
}

impl Drawn for Card {
    fn drawn(chance: &mut Chance) -> Card {
        let unit = match chance.below(4) {
            0 => Unit::Millimetre,
            1 => Unit::Centimetre,
            2 => Unit::Metre,
            _ => Unit::Inch,
        };
        Card {
            revision: chance.below(100) as u32,
            unit,
            mass: chance.below(100_000) as u32,
        }
    }
}

// A sub-assembly may be drawn with a count of 0, which counts as 1.
impl Drawn for Item {
    fn drawn(chance: &mut Chance) -> Item {
        match chance.below(4) {
            0 => Item::Withdrawn,
            1 => Item::Solid {
                shape: chance.below(100_000) as u32,
            },
            _ => Item::SubAssembly {
                part: chance.below(1024) as u16,
                count: chance.below(4) as u16,
            },
        }
    }
}

// The values that the tests are run with, of both record kinds.
use kinds::card::{Card, Unit};
use kinds::item::Item;

// A value that a register opens with, and another, which is put.
#[derive(Clone, Copy)]
pub struct Values<R> {
    pub old: R,
    pub new: R,
}

pub const CARDS: Values<Card> = Values {
    old: Card {
        revision: 1,
        unit: Unit::Millimetre,
        mass: 4_000,
    },
    new: Card {
        revision: 2,
        unit: Unit::Inch,
        mass: 250,
    },
};

pub const ITEMS: Values<Item> = Values {
    old: Item::Solid { shape: 77 },
    new: Item::SubAssembly { part: 1, count: 2 },
};

// Items as text: `withdrawn`, `solid:77` or `sub:12:4`.
ghost use Rattle.std.specs.Prelude.{◌≡◌};
ghost use Rattle.notation.specs.Item.{item_notes, item_parsed, solid_parsed, sub_parsed};
ghost use Rattle.notation.specs.ItemLaws.{item_back, item_alike};

use crate::cut::cut;
use crate::numbers::number;
use crate::text::Notation;
use kinds::item::Item;
use std::fmt;

// A solid, by the number of its shape.
fn parse_solid(word: &[u8]) -> Option<Item>
    ensures { result ≡ solid_parsed word.now }
{
    let shape = number(word, u32::MAX.into())? as u32;
    Some(Item::Solid { shape })
}

// A sub-assembly, by its record's number and its count; a count of 0 is none.
fn parse_sub(word: &[u8]) -> Option<Item>
    ensures { result ≡ sub_parsed word.now }
{
    let (part, count) = cut(word, b':')?;
    let part = number(part, u16::MAX.into())? as u16;
    let count = number(count, u16::MAX.into())? as u16;
    (count != 0).then_some(Item::SubAssembly { part, count })
}

impl Notation for Item {
    ghost notes = { item_notes };

    ghost back = { item_back };

    ghost alike = { item_alike };

    // A shape above 2^32 - 1, a record's number above 65,535, or a count of 0 or above 65,535, is no item.
    fn parse(word: &[u8]) -> Option<Item>
        ensures { result ≡ item_parsed word.now }
    {
        if word == b"withdrawn".as_slice() {
            return Some(Item::Withdrawn);
        }
        match cut(word, b':')? {
            (b"solid", shape) => parse_solid(shape),
            (b"sub", parts) => parse_sub(parts),
            _ => None,
        }
    }

    fn show<W: fmt::Write>(self, f: &mut fmt::Formatter<W>) -> fmt::Result {
        match self {
            Item::Withdrawn => write!(f, "withdrawn"),
            Item::Solid { shape } => write!(f, "solid:{shape}"),
            Item::SubAssembly { part, count } => {
                let count = count.max(1);
                write!(f, "sub:{part}:{count}")
            }
        }
    }
}

// Items, record kind 2: what stands at a place of an assembly.
ghost use Rattle.std.specs.Prelude.{◌≡◌};
ghost use Rattle.kinds.specs.Item.{item_kind, item_read, item_tag};
ghost use Rattle.kinds.specs.ItemLaws.{item_laws};

use crate::value::Record;

// A sub-assembly names the record it is made of and how often it stands there; a count of 0 counts as 1.
#[derive(Clone, Copy)]
pub enum Item {
    Withdrawn,
    Solid { shape: u32 },
    SubAssembly { part: u16, count: u16 },
}

impl Item {
    // The number of a case in an item's form. It leaves the data out, so it is no conversion.
    pub fn tag(self) -> u8
        ensures { result ≡ item_tag self }
    {
        match self {
            Item::Withdrawn => 0,
            Item::Solid { .. } => 1,
            Item::SubAssembly { .. } => 2,
        }
    }
}

impl Record for Item {
    ghost kind = { item_kind };

    ghost written = { item_laws };

    fn number() -> u8 {
        2
    }

    // Tag 1 byte, three zero bytes, data 4 bytes, four zero bytes.
    fn to_bytes(self) -> [u8; 12] {
        let [a, b, c, d] = match self {
            Item::Withdrawn => [0, 0, 0, 0],
            Item::Solid { shape } => shape.to_be_bytes(),
            Item::SubAssembly { part, count } => {
                let [p, q] = part.to_be_bytes();
                let [m, n] = count.max(1).to_be_bytes();
                [p, q, m, n]
            }
        };
        [self.tag(), 0, 0, 0, a, b, c, d, 0, 0, 0, 0]
    }

    // A tag above 2, data of a withdrawn item, a count of 0, or a stated zero byte that is not zero, is no form.
    fn from_bytes(bytes: [u8; 12]) -> Option<Item>
        ensures { result ≡ item_read bytes }
    {
        let [tag, 0, 0, 0, a, b, c, d, 0, 0, 0, 0] = bytes else {
            return None;
        };
        match (tag, [a, b, c, d]) {
            (0, [0, 0, 0, 0]) => Some(Item::Withdrawn),
            (1, shape) => Some(Item::Solid {
                shape: u32::from_be_bytes(shape),
            }),
            (2, [p, q, m, n]) => {
                let part = u16::from_be_bytes([p, q]);
                let count = u16::from_be_bytes([m, n]);
                (count != 0).then_some(Item::SubAssembly { part, count })
            }
            _ => None,
        }
    }
}

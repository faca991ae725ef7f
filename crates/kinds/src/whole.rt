// Whole stamps, kind 1: the numbers 0 to 2^62 - 1.
ghost use Rattle.std.specs.Prelude.{◌≡◌};
ghost use Rattle.kinds.specs.Whole.{counted, whole_kind, whole_pick, whole_read};
ghost use Rattle.kinds.specs.WholeLaws.{whole_laws};

use crate::stamp::Stamp;
use std::cmp::Ordering;

// The last whole stamp, 2^62 - 1.
pub const LAST: u64 = 4611686018427387903;

const STEP: u64 = 65536;

// A content above 2^62 - 1 counts as 2^62 - 1.
#[derive(Clone, Copy)]
pub struct Whole {
    pub place: u64,
}

impl Whole {
    // The number that this content counts as.
    pub fn counted(self) -> u64
        ensures { result ≡ counted self }
    {
        self.place.min(LAST)
    }
}

impl Stamp for Whole {
    ghost kind = { whole_kind };

    ghost lawful = { whole_laws };

    fn number() -> u8 {
        1
    }

    fn compare(self, other: Whole) -> Ordering {
        self.counted().cmp(&other.counted())
    }

    fn least() -> Whole {
        Whole { place: 0 }
    }

    // Between two bounds the midpoint, rounded down; without an upper bound 65,536 further on,
    // or the last stamp where that is smaller.
    fn pick(self, upper: Option<Whole>) -> Option<Whole>
        ensures { result ≡ whole_pick self upper }
    {
        let lower = self.counted();
        match upper.map(Whole::counted) {
            None if lower < LAST => Some(Whole {
                place: (lower + STEP).min(LAST),
            }),
            Some(bound) if lower + 1 < bound => Some(Whole {
                place: lower + (bound - lower) / 2,
            }),
            _ => None,
        }
    }

    fn to_bytes(self) -> [u8; 8] {
        self.counted().to_be_bytes()
    }

    // Numbers above 2^62 - 1 are no form.
    fn from_bytes(bytes: [u8; 8]) -> Option<Whole>
        ensures { result ≡ whole_read bytes }
    {
        let place = u64::from_be_bytes(bytes);
        (place <= LAST).then_some(Whole { place })
    }
}

// Images of the register, as they are broadcast.
ghost use Rattle.std.specs.Prelude.{◌≡◌, true, ◌&&◌, ◌==◌};
ghost use Rattle.model.specs.Tables.{lawful_size};

use crate::tables::lawful;
use crate::verdict::Outcome;

// A record in an image: its value, its write and read stamps, and its first write since the image before.
#[derive(Clone, Copy)]
pub struct ImageRow<S, R> {
    pub value: R,
    pub write: S,
    pub read: S,
    pub first: Option<S>,
}

// An image as a station has heard it: the number of records, its own number, a row for each record,
// and 32 places for outcomes, of which the first `count` count: tables that callers bring are not cut.
#[derive(Clone, Copy)]
pub struct Image<'a, S, R> {
    pub records: usize,
    pub number: u32,
    pub rows: &'a [ImageRow<S, R>],
    pub outcomes: &'a [Outcome<S>],
    pub count: usize,
}

// Whether an image of this many records has a row for each, and 32 places for outcomes.
pub fn fits(records: usize, rows: usize, outcomes: usize) -> bool
    ensures told { result ≡ (lawful_size records && (rows == records && outcomes == 32)) }
    ensures lengths { result ≡ true → (rows ≡ records) × (outcomes ≡ 32) }
{
    lawful(records) && rows == records && outcomes == 32
}

// Refusals.
ghost use Rattle.std.specs.Prelude.{◌≡◌, Some};
ghost use Rattle.model.specs.Refusals.{refusal_number, refusal_text};

use std::error::Error;
use std::fmt;

// Why a call was refused, each with its number. A refused call alters nothing.
#[derive(Clone, Copy, Debug, PartialEq, Eq)]
pub enum Refusal {
    WrongTables = 1,
    JobShut = 2,
    OtherImage = 3,
    NotNextImage = 4,
    NoSuchRecord = 5,
    SheetFull = 6,
    NoRoom = 7,
    QueueFull = 8,
    NoneWaiting = 9,
    JournalFull = 10,
    OutcomesFull = 11,
    NotInImage = 12,
    CountEnded = 13,
}

// The number of a refusal.
impl From<Refusal> for u8 {
    ghost from_gives = { λ refusal n. n ≡ refusal_number refusal };

    fn from(refusal: Refusal) -> u8 {
        refusal as u8
    }
}

// A refusal by its number, as `refused 7`.
impl fmt::Display for Refusal {
    ghost output = { λ x. Some (refusal_text x) };

    fn fmt<W: fmt::Write>(&self, f: &mut fmt::Formatter<W>) -> fmt::Result {
        let number = u8::from(*self);
        write!(f, "refused {number}")
    }
}

impl Error for Refusal {}

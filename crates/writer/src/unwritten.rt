// Why an archive is not written.
ghost use Rattle.std.specs.Prelude.{◌≡◌, Some};
ghost use Rattle.writer.specs.Unwritten.{unwritten_number, unwritten_text};

use std::error::Error;
use std::fmt;

// Why an archive is not written, each case with its number. A refused call alters nothing.
#[derive(Clone, Copy, Debug, PartialEq, Eq)]
pub enum Unwritten {
    WrongTables = 1,
    SpaceShort = 18,
}

// The number of a case.
impl From<Unwritten> for u8 {
    ghost from_gives = { λ why n. n ≡ unwritten_number why };

    fn from(why: Unwritten) -> u8 {
        why as u8
    }
}

// A case by its number, as `refused 18`.
impl fmt::Display for Unwritten {
    ghost output = { λ x. Some (unwritten_text x) };

    fn fmt<W: fmt::Write>(&self, f: &mut fmt::Formatter<W>) -> fmt::Result {
        let number = u8::from(*self);
        write!(f, "refused {number}")
    }
}

impl Error for Unwritten {}

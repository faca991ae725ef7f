// Whole stamps as text: the number, as `65536`.
ghost use Rattle.std.specs.Prelude.{◌≡◌};
ghost use Rattle.notation.specs.Whole.{whole_notes, whole_parsed};
ghost use Rattle.notation.specs.WholeLaws.{whole_back, whole_alike};

use crate::numbers::number;
use crate::text::Notation;
use kinds::whole::{LAST, Whole};
use std::fmt;

impl Notation for Whole {
    ghost notes = { whole_notes };

    ghost back = { whole_back };

    ghost alike = { whole_alike };

    // A number above 2^62 - 1 is no stamp.
    fn parse(word: &[u8]) -> Option<Whole>
        ensures { result ≡ whole_parsed word.now }
    {
        let place = number(word, LAST)?;
        Some(Whole { place })
    }

    fn show<W: fmt::Write>(self, f: &mut fmt::Formatter<W>) -> fmt::Result {
        let place = self.counted();
        write!(f, "{place}")
    }
}

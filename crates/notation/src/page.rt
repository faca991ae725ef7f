// Stamps of volume and page as text: the two numbers, as `3/17`.
ghost use Rattle.std.specs.Prelude.{◌≡◌};
ghost use Rattle.notation.specs.Page.{page_notes, page_parsed};
ghost use Rattle.notation.specs.PageLaws.{page_back, page_alike};

use crate::cut::cut;
use crate::numbers::number;
use crate::text::Notation;
use kinds::volume::{LAST, VolumePage};
use std::fmt;

impl Notation for VolumePage {
    ghost notes = { page_notes };

    ghost back = { page_back };

    ghost alike = { page_alike };

    // A volume or a page above 9,999 is no stamp.
    fn parse(word: &[u8]) -> Option<VolumePage>
        ensures { result ≡ page_parsed word.now }
    {
        let (volume, page) = cut(word, b'/')?;
        let volume = number(volume, u64::from(LAST))? as u32;
        let page = number(page, u64::from(LAST))? as u32;
        Some(VolumePage { volume, page })
    }

    fn show<W: fmt::Write>(self, f: &mut fmt::Formatter<W>) -> fmt::Result {
        let volume = self.counted_volume();
        let page = self.counted_page();
        write!(f, "{volume}/{page}")
    }
}

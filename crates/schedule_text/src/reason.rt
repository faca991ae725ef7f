// Why a line is no call.
ghost use Rattle.std.specs.Prelude.{◌≡◌, Some};
ghost use Rattle.schedule_text.specs.Reasons.{reason_text};

use std::error::Error;
use std::fmt;

// What was expected where the line has something else.
#[derive(Clone, Copy, Debug, PartialEq, Eq)]
pub enum Reason {
    Command,
    PickWords,
    FormWords,
    ReadWords,
    StampKind,
    Kind,
    WholeStamp,
    PageStamp,
    CardValue,
    ItemValue,
    StampForm,
    ValueForm,
}

impl Reason {
    // The reason in words, which `Display` prints.
    pub fn text(self) -> &'static str
        ensures { result.now ≡ reason_text self }
    {
        match self {
            Reason::Command => "expected pick, form or read",
            Reason::PickWords => "expected pick KIND LOWER UPPER",
            Reason::FormWords => "expected form KIND VALUE",
            Reason::ReadWords => "expected read KIND DIGITS",
            Reason::StampKind => "expected the stamp kind whole or page",
            Reason::Kind => "expected the kind whole, page, card or item",
            Reason::WholeStamp => "expected a whole stamp, 0 to 4611686018427387903",
            Reason::PageStamp => "expected a volume and a page, as 3/17, each 0 to 9999",
            Reason::CardValue => "expected a card, as 4:mm:250",
            Reason::ItemValue => "expected an item: withdrawn, solid:77 or sub:12:4",
            Reason::StampForm => "expected 16 hexadecimal digits in lower case",
            Reason::ValueForm => "expected 24 hexadecimal digits in lower case",
        }
    }
}

impl fmt::Display for Reason {
    ghost output = { λ x. Some (reason_text x) };

    fn fmt<W: fmt::Write>(&self, f: &mut fmt::Formatter<W>) -> fmt::Result {
        f.write_str(self.text())
    }
}

impl Error for Reason {}

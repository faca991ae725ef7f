// What every notation offers, and its laws: a printed stamp or value parses back as the same one,
// and contents that are the same one are printed alike.
ghost use Rattle.std.specs.Prelude.{◌≡◌, Some};
ghost use Rattle.std.specs.Fmt.{WritesOnOk};
ghost use Rattle.notation.specs.Text.{Notes, ParsesBack, PrintsAlike, text_or};

use std::fmt;

// A stamp or value that is written as text.
pub trait Notation: Copy {
    ghost notes: { Notes Self };

    // The stamp or value of a word, or none where the word writes none of this kind.
    fn parse(word: &[u8]) -> Option<Self>
        ensures { result ≡ notes.parsed word.now };

    // Prints the stamp or value that this content counts as.
    fn show<W: fmt::Write>(self, f: &mut fmt::Formatter<W>) -> fmt::Result
        ensures { WritesOnOk W.Write.write_str_gives f.old result (notes.text self) f.new };

    ghost back: { ParsesBack notes };

    ghost alike: { PrintsAlike notes };
}

// A stamp or value as `{}` prints it.
#[derive(Clone, Copy)]
pub struct Shown<T>(pub T);

impl<T: Notation> fmt::Display for Shown<T> {
    ghost output = { λ x. Some (T.Notation.notes.text x.0) };

    fn fmt<W: fmt::Write>(&self, f: &mut fmt::Formatter<W>) -> fmt::Result {
        self.0.show(f)
    }
}

// A stamp or value that may be absent, with the word for none.
#[derive(Clone, Copy)]
pub struct ShownOr<T> {
    pub value: Option<T>,
    pub none: &'static str,
}

impl<T: Notation> fmt::Display for ShownOr<T> {
    ghost output = { λ x. Some (text_or T.Notation.notes x.value x.none.now) };

    fn fmt<W: fmt::Write>(&self, f: &mut fmt::Formatter<W>) -> fmt::Result {
        match self.value {
            Some(value) => value.show(f),
            None => f.write_str(self.none),
        }
    }
}

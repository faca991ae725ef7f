// The lines of an input, and what each one is.
ghost use Rattle.std.specs.Prelude.{◌≡◌, ◌<◌, ◌∷◌, length, IfOk};
ghost use Rattle.std.specs.Iterator.{YieldsFirstRef, at_most};
ghost use Rattle.schedule_text.specs.Words.{texts};
ghost use Rattle.schedule_text.specs.Lines.{lines_of, passed_over, line_of};

use crate::command::Command;
use crate::parse::parse;
use crate::reason::Reason;
use crate::words::words;
use notation::cut::cut;
use std::alloc::{AllocError, Global};

// The first line of an input that is not empty, and what follows it.
pub fn first_line(input: &[u8]) -> (&[u8], &[u8])
    ensures lines { 0 < length input.now → lines_of input.now ≡ result.0.now ∷ lines_of result.1.now }
    ensures shorter { 0 < length input.now → length result.1.now < length input.now }
{
    match cut(input, b'\n') {
        Some(parts) => parts,
        None => (input, &[]),
    }
}

// The lines of an input, each ended by a line feed; the last may lack it.
#[derive(Clone, Copy)]
pub struct Lines<'a>(pub &'a [u8]);

impl<'a> Iterator for Lines<'a> {
    type Item = &'a [u8];

    ghost next_gives = { YieldsFirstRef (λ s. lines_of s.0.now) };

    ghost remaining = { λ s. at_most (length s.0.now) };

    fn next(&mut self) -> Option<&'a [u8]> {
        if self.0.is_empty() {
            return None;
        }
        let (line, rest) = first_line(self.0);
        self.0 = rest;
        Some(line)
    }
}

// Whether a line has no word, or its first word begins with `#`.
pub fn is_passed_over(words: &[&[u8]]) -> bool
    ensures { result ≡ passed_over (texts words.now) }
{
    match words {
        [] => true,
        [first, ..] => first.first() == Some(&b'#'),
    }
}

// What a line is: a call, none where it is passed over, or the reason why it is no call. A run tells that reason
// and passes a lack of memory up, so the two stand apart.
pub fn read_line(heap: Global, line: &[u8]) -> Result<Result<Option<Command>, Reason>, AllocError>
    ensures { IfOk result (λ l. l ≡ line_of line.now) }
{
    let words = words(heap, line)?;
    if is_passed_over(&words) {
        return Ok(Ok(None));
    }
    Ok(parse(&words).map(Some))
}

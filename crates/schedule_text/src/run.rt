// A whole schedule, from its text to the printout.
ghost use Rattle.std.specs.Prelude.{◌≡◌, ◌↔◌, IfOk, IfErr, IsOk, IsTrue, Some, codes, eqb, string_bytes};
ghost use Rattle.std.specs.List.{ends_with};
ghost use Rattle.schedule_text.specs.Runs.{error_text, told, printout};

use crate::answer::answer;
use crate::line::{Lines, read_line};
use crate::reason::Reason;
use std::alloc::{AllocError, Global};
use std::error::Error;
use std::fmt;

// What an empty input is answered with.
const HELP: &str = "pick KIND LOWER UPPER
  a stamp after LOWER and before UPPER, which may be none; KIND is whole or page
form KIND VALUE
  the written form of a stamp or value; KIND is whole, page, card or item
read KIND DIGITS
  the stamp or value of a written form of 16 or 24 hexadecimal digits
values: whole 65536, page 3/17, card 4:mm:250, item withdrawn, solid:77 or sub:12:4
";

// The line at which a run stopped, since it is no call.
#[derive(Clone, Copy, Debug, PartialEq, Eq)]
pub struct Stopped {
    pub line: usize,
}

impl fmt::Display for Stopped {
    ghost output = { λ _. Some (codes "a line is no call") };

    fn fmt<W: fmt::Write>(&self, f: &mut fmt::Formatter<W>) -> fmt::Result {
        f.write_str("a line is no call")
    }
}

impl Error for Stopped {}

// What a run prints, and whether it came to its end.
#[derive(Debug, Drop)]
pub struct Printout {
    pub text: String,
    pub ending: Result<(), Stopped>,
}

impl Printout {
    // The printout is the error, unless its text is just this and its run ended so.
    pub fn is(self, text: &str, ending: Result<(), Stopped>) -> Result<(), Printout>
        ensures same { IsOk result ↔ ((string_bytes self.text ≡ text.now) × (self.ending ≡ ending)) }
        ensures other { IfErr result (λ p. p ≡ self) }
    {
        if self.text.as_str() == text && self.ending == ending {
            Ok(())
        } else {
            Err(self)
        }
    }

    // The printout is the error, unless its text ends in this and its run ended so.
    pub fn ends(self, text: &str, ending: Result<(), Stopped>) -> Result<(), Printout>
        ensures same { IsOk result ↔ (IsTrue (ends_with eqb (string_bytes self.text) text.now) × (self.ending ≡ ending)) }
        ensures other { IfErr result (λ p. p ≡ self) }
    {
        if self.text.as_bytes().ends_with(text.as_bytes()) && self.ending == ending {
            Ok(())
        } else {
            Err(self)
        }
    }
}

// The line that says why a line is no call.
pub fn error_line(heap: Global, line: usize, reason: Reason) -> Result<String, AllocError>
    ensures { IfOk result (λ t. string_bytes t ≡ error_text line reason) }
{
    format!(in heap; "line {line}: {reason}\n")
}

// The printout of a schedule; of an empty one, the help.
pub fn run(heap: Global, input: &[u8]) -> Result<Printout, AllocError>
    ensures { IfOk result (λ p. told p ≡ printout input.now) }
{
    if input.is_empty() {
        return Ok(Printout {
            text: String::from_str(heap, HELP)?,
            ending: Ok(()),
        });
    }
    let mut text = String::new(heap);
    for (i, line) in Lines(input).enumerate() {
        match read_line(heap, line)? {
            Ok(None) => {}
            Ok(Some(command)) => {
                text.push_str(&answer(heap, command)?)?;
            }
            Err(reason) => {
                let line = i + 1;
                text.push_str(&error_line(heap, line, reason)?)?;
                return Ok(Printout {
                    text,
                    ending: Err(Stopped { line }),
                });
            }
        }
    }
    Ok(Printout {
        text,
        ending: Ok(()),
    })
}

// Numbers of any size.
ghost use Rattle.std.specs.Prelude.{◌≡◌, ◌≤◌, IfOk, Some};
ghost use Rattle.std.specs.Char.{is_ascii_digit};
ghost use Rattle.std.specs.List.{list_all};
ghost use Rattle.schedule_calls.specs.Numbers.{is_number, capped_at, index_of, without_zeros, numeral, numeral_of};
ghost use Rattle.schedule_calls.specs.Readings.{read_as};

use crate::reason::Reason;
use notation::numbers::number;
use std::fmt;

// A number as a schedule writes it: one that the library can take, or a larger one by its digits without leading zeros.
#[derive(Clone, Copy)]
pub enum Number<'a> {
    Index(usize),
    Larger(&'a str),
}

impl Number<'_> {
    // The number that is handed on: the largest in place of a larger one.
    pub fn value(&self) -> usize
        ensures { result ≡ (numeral self.now).value }
    {
        match self {
            Number::Index(index) => *index,
            Number::Larger(_) => usize::MAX,
        }
    }
}

// A number by its digits without leading zeros.
impl fmt::Display for Number<'_> {
    ghost output = { λ x. Some (numeral x).digits };

    fn fmt<W: fmt::Write>(&self, f: &mut fmt::Formatter<W>) -> fmt::Result {
        match self {
            Number::Index(index) => write!(f, "{index}"),
            Number::Larger(digits) => f.write_str(digits),
        }
    }
}

// Whether each byte of a word is a decimal digit.
fn are_digits(word: &[u8]) -> bool
    ensures { result ≡ list_all is_ascii_digit word.now }
{
    word.iter().all(|c| c.is_ascii_digit())
}

// Whether a word is one or more decimal digits.
fn is_number(word: &[u8]) -> bool
    ensures { result ≡ is_number word.now }
{
    !word.is_empty() && are_digits(word)
}

// The number that a word of digits writes, or the largest where it is above that.
pub fn capped(word: &[u8], most: u64) -> Result<u64, Reason>
    ensures value { result ≡ capped_at most word.now }
    ensures bound { IfOk result (λ n. n ≤ most) }
{
    if !is_number(word) {
        return Err(Reason::Number);
    }
    Ok(number(word, most).unwrap_or(most))
}

// A number of the library's, or the largest. The cast loses nothing, and `try_from` would want a reason for a case
// that cannot come.
pub fn parse_index(word: &[u8]) -> Result<usize, Reason>
    ensures { result ≡ index_of word.now }
{
    Ok(capped(word, u64::MAX)? as usize)
}

// The digits without leading zeros; of zeros alone one is kept.
fn without_zeros(word: &[u8]) -> &[u8]
    ensures { result.now ≡ without_zeros word.now }
{
    match word {
        [b'0', rest @ ..] if !rest.is_empty() => without_zeros(rest),
        _ => word,
    }
}

// A number with its digits. Only a larger one keeps them: those of an index are read off its value. The cast loses
// nothing, as above.
pub fn parse_number(word: &[u8]) -> Result<Number<'_>, Reason>
    ensures { read_as numeral result ≡ numeral_of word.now }
{
    if let Some(index) = number(word, u64::MAX) {
        return Ok(Number::Index(index as usize));
    }
    if !is_number(word) {
        return Err(Reason::Number);
    }
    let Ok(digits) = std::str::from_utf8(without_zeros(word)) else {
        return Err(Reason::Number);
    };
    Ok(Number::Larger(digits))
}

// Bytes as hexadecimal digits in lower case, two to a byte.
ghost use Rattle.std.specs.Prelude.{◌≡◌, ◌<◌, IfSome, Some};
ghost use Rattle.notation.specs.Hex.{hex, digit_value, unhexed, ReadsBack};

use std::fmt;

// The half of a byte that a digit writes; digits are in lower case.
fn digit_half(digit: u8) -> Option<u8>
    ensures value { result ≡ digit_value digit }
    ensures bound { IfSome result (λ half. half < 16) }
{
    match digit {
        b'0'..=b'9' => Some(digit - b'0'),
        b'a'..=b'f' => Some(digit - b'a' + 10),
        _ => None,
    }
}

// Bytes as `{}` prints them: two digits for each.
#[derive(Clone, Copy)]
pub struct Hex<'a>(pub &'a [u8]);

impl fmt::Display for Hex<'_> {
    ghost output = { λ x. Some (hex x.0.now) };

    fn fmt<W: fmt::Write>(&self, f: &mut fmt::Formatter<W>) -> fmt::Result {
        for &byte in self.0 {
            write!(f, "{byte:02x}")?;
        }
        Ok(())
    }
}

// The bytes that exactly two digits for each write, or none.
pub fn unhex<const N: usize>(word: &[u8]) -> Option<[u8; N]>
    ensures { result ≡ unhexed N word.now }
{
    let mut bytes = [0; N];
    let mut rest = word;
    for byte in bytes.iter_mut() {
        let [high, low, others @ ..] = rest else {
            return None;
        };
        *byte = digit_half(*high)? * 16 + digit_half(*low)?;
        rest = others;
    }
    if rest.is_empty() { Some(bytes) } else { None }
}

// What is written is read back, and what is read was written so.
pub fn hex_reads_back()
    ensures { ReadsBack }
{}

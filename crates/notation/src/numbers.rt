// Numbers as text.
ghost use Rattle.std.specs.Prelude.{◌≡◌, ◌≤◌, IfSome};
ghost use Rattle.notation.specs.Numbers.{number_of};

// The number that one or more decimal digits write, unless it is above the largest. Callers cast it to the size
// of their field: the bound proves that it fits, where `try_from` would test it once more.
pub fn number(word: &[u8], most: u64) -> Option<u64>
    ensures value { result ≡ number_of most word.now }
    ensures bound { IfSome result (λ n. n ≤ most) }
{
    if word.is_empty() {
        return None;
    }
    let mut n = 0u64;
    for &digit in word {
        if !digit.is_ascii_digit() {
            return None;
        }
        n = n.checked_mul(10)?.checked_add(u64::from(digit - b'0'))?;
    }
    (n <= most).then_some(n)
}

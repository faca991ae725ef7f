// Words in two parts.
ghost use Rattle.std.specs.Prelude.{◌≡◌, Some, None, MatchOption};
ghost use Rattle.notation.specs.Cuts.{cut_at};

// What stands before and after the first mark, or none where the word has no mark.
pub fn cut(word: &[u8], mark: u8) -> Option<(&[u8], &[u8])>
    ensures { MatchOption result (cut_at mark word.now ≡ None) (λ p. cut_at mark word.now ≡ Some (record { front = p.0.now; back = p.1.now })) }
{
    let at = word.iter().position(|c| *c == mark)?;
    Some((&word[..at], &word[at + 1..]))
}

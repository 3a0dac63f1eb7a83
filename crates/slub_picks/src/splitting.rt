//! Texts that a byte parts.

ghost use Rattle.std.specs.Prelude.{◌≡◌, ◌==◌, ◌++◌, ◌∷◌, false, All, MatchOption};

/// What stands before the first `mark`, and what follows that; None where there is none.
pub fn split(text: &[u8], mark: u8) -> Option<(&[u8], &[u8])>
    ensures { MatchOption result (All (λ b. (b == mark) ≡ false) text.now)
        (λ x. (text.now ≡ x.0.now ++ mark ∷ x.1.now) × All (λ b. (b == mark) ≡ false) x.0.now) }
{
    let at = text.iter().position(|b| *b == mark)?;
    Some((&text[..at], &text[at + 1..]))
}

//! Words of a line, taken off the front one after the other, and what stands in a word.

ghost use Rattle.std.specs.Prelude.{◌≡◌, ◌≢◌, ◌⊎◌, ◌∷◌, ◌++◌, [], ◌<◌, ◌≤◌, length, All, IfSome, IfNone, true, false};
ghost use Rattle.slub_recording.specs.Words.{Gives, is_blank, is_blank_front, words, strip, strip_last, split_at, value_in, field_of};

/// A space or a tab.
pub(crate) fn is_blank_byte(c: u8) -> bool
    ensures { result ≡ is_blank c }
{
    c == b' ' || c == b'\t'
}

/// What follows the blanks in front.
fn past_blanks(bytes: &[u8]) -> &[u8]
    ensures same { words result.now ≡ words bytes.now }
    ensures front { (result.now ≡ []) ⊎ (is_blank_front result.now ≡ false) }
    ensures within { length result.now ≤ length bytes.now }
{
    let mut rest = bytes;
    while let Some((c, behind)) = rest.split_first() {
        if !is_blank_byte(*c) {
            return rest;
        }
        rest = behind;
    }
    rest
}

/// What stands before the first blank, and the rest.
fn split_word(bytes: &[u8]) -> (&[u8], &[u8])
    ensures whole { bytes.now ≡ result.0.now ++ result.1.now }
    ensures word { All (λ c. is_blank c ≡ false) result.0.now }
    ensures behind { is_blank_front result.1.now ≡ true }
{
    match bytes.iter().position(|c| is_blank_byte(*c)) {
        Some(at) => (&bytes[..at], &bytes[at..]),
        None => (bytes, &bytes[bytes.len()..]),
    }
}

/// The first word, and what follows it.
pub(crate) fn next_word(bytes: &[u8]) -> Option<(&[u8], &[u8])>
    ensures found { IfSome result (λ x. words bytes.now ≡ x.0.now ∷ words x.1.now) }
    ensures shorter { IfSome result (λ x. length x.1.now < length bytes.now) }
    ensures none { IfNone result (words bytes.now ≡ []) }
{
    let rest = past_blanks(bytes);
    if rest.is_empty() {
        return None;
    }
    Some(split_word(rest))
}

/// What follows a fixed text.
pub(crate) fn after<'a>(bytes: &'a [u8], text: &[u8]) -> Option<&'a [u8]>
    ensures { Gives (λ rest. rest.now) result (strip text.now bytes.now) }
{
    let mut rest = bytes;
    let mut ahead = text;
    while let Some((t, more)) = ahead.split_first() {
        let Some((b, behind)) = rest.split_first() else {
            return None;
        };
        if *b != *t {
            return None;
        }
        ahead = more;
        rest = behind;
    }
    Some(rest)
}

/// What stands before this last byte.
pub(crate) fn before_last(bytes: &[u8], mark: u8) -> Option<&[u8]>
    ensures { Gives (λ init. init.now) result (strip_last mark bytes.now) }
{
    let (last, init) = bytes.split_last()?;
    if *last == mark { Some(init) } else { None }
}

/// What stands before the first `mark`, and what follows that.
fn split(bytes: &[u8], mark: u8) -> Option<(&[u8], &[u8])>
    ensures found { IfSome result (λ x. (bytes.now ≡ x.0.now ++ mark ∷ x.1.now) × All (λ b. b ≢ mark) x.0.now) }
    ensures none { IfNone result (All (λ b. b ≢ mark) bytes.now) }
{
    let at = bytes.iter().position(|b| *b == mark)?;
    Some((&bytes[..at], &bytes[at + 1..]))
}

/// What stands before the first `mark`, and what follows that.
pub(crate) fn cut(bytes: &[u8], mark: u8) -> Option<(&[u8], &[u8])>
    ensures { Gives (λ x. (x.0.now, x.1.now)) result (split_at mark bytes.now) }
{
    split(bytes, mark)
}

/// The value of a word `KEY=VALUE`.
#[tactic(auto, unfolding(crate::specs::Words::value_in))]
fn value<'a>(word: &'a [u8], key: &[u8]) -> Option<&'a [u8]>
    ensures { Gives (λ value. value.now) result (value_in key.now word.now) }
{
    let rest = after(word, key)?;
    after(rest, b"=")
}

/// The value of the first such word.
pub(crate) fn field<'a>(bytes: &'a [u8], key: &[u8]) -> Option<&'a [u8]>
    ensures { Gives (λ value. value.now) result (field_of key.now (words bytes.now)) }
{
    let mut rest = bytes;
    while let Some((word, behind)) = next_word(rest) {
        if let Some(found) = value(word, key) {
            return Some(found);
        }
        rest = behind;
    }
    None
}

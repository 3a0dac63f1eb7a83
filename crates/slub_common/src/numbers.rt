//! Reading numbers.

ghost use Rattle.std.specs.Prelude.{◌≡◌, ℕ, ◌^◌, ◌<◌, MatchOption};
ghost use Rattle.std.specs.List.{list_all};
ghost use Rattle.slub_common.specs.Numbers.{Writes, is_digit, is_number, number_of};

/// As great as every number that 64 bits don't hold.
pub const GREAT: u128 = 18446744073709551616;

/// Whether a byte is a decimal digit.
pub fn is_decimal(c: u8) -> bool
    ensures { result ≡ is_digit c }
{
    b'0' <= c && c <= b'9'
}

fn are_digits(word: &[u8]) -> bool
    ensures { result ≡ list_all is_digit word.now }
{
    word.iter().all(|c| is_decimal(*c))
}

/// Whether a word is a number: digits, with no zero in front of others.
fn is_numeral(word: &[u8]) -> bool
    ensures { result ≡ is_number word.now }
{
    match word {
        [] => false,
        [c] => is_decimal(*c),
        [c, ..] => *c != b'0' && are_digits(word),
    }
}

/// The number that a word spells, as great as `GREAT` where 64 bits don't hold it; None where it
/// spells none.
#[tactic(auto, unfolding(crate::specs::Numbers::number_of))]
pub fn number(word: &[u8]) -> Option<u128>
    ensures { result ≡ number_of word.now }
{
    if !is_numeral(word) {
        return None;
    }
    let Ok(text) = str::from_utf8(word) else {
        return None;
    };
    match text.parse::<u64>() {
        Ok(n) => Some(u128::from(n)),
        Err(_) => Some(GREAT),
    }
}

/// The number that a word spells, where 64 bits hold it.
pub fn small_number(word: &[u8]) -> Option<u64>
    ensures { MatchOption result ((n : ℕ) → Writes word.now n → n < 2 ^ 64 → ⊥) (Writes word.now) }
{
    let Some(n) = number(word) else {
        return None;
    };
    if n < GREAT { Some(n as u64) } else { None }
}

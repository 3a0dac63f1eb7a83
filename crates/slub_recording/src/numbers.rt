//! Numbers that words spell.

ghost use Rattle.std.specs.Prelude.{◌≡◌, ◌+◌, ◌*◌, ◌<◌, ◌≤◌, ◌^◌, true, MatchOption};
ghost use Rattle.std.specs.Char.{digit_value};
ghost use Rattle.std.specs.List.{list_all};
ghost use Rattle.std.specs.Str.Parse.{digits_value};
ghost use Rattle.slub_common.specs.Numbers.{is_digit};
ghost use Rattle.slub_recording.specs.Words.{is_hex, within, decimal_of, short_of, hex_of};

use slub_common::numbers::is_decimal;

fn is_hex_digit(c: u8) -> bool
    ensures { result ≡ is_hex c }
{
    is_decimal(c) || (b'a' <= c && c <= b'f') || (b'A' <= c && c <= b'F')
}

fn are_decimal(word: &[u8]) -> bool
    ensures { result ≡ list_all is_digit word.now }
{
    word.iter().all(|c| is_decimal(*c))
}

fn are_hex(word: &[u8]) -> bool
    ensures { result ≡ list_all is_hex word.now }
{
    word.iter().all(|c| is_hex_digit(*c))
}

/// The value of a digit.
fn digit(c: u8) -> u8
    requires { is_hex c ≡ true }
    ensures value { result ≡ digit_value c }
    ensures small { result < 16 }
{
    if c <= b'9' {
        c - b'0'
    } else if c <= b'F' {
        c - 55
    } else {
        c - 87
    }
}

/// The number that digits write when one more follows; None where 64 bits don't hold it.
fn with_digit(n: u64, radix: u64, c: u8) -> Option<u64>
    requires { is_hex c ≡ true }
    ensures { MatchOption result (2 ^ 64 ≤ n * radix + digit_value c) (λ m. (m ≡ n * radix + digit_value c) × (m < 2 ^ 64)) }
{
    let product = n.checked_mul(radix)?;
    product.checked_add(u64::from(digit(c)))
}

/// The number that digits write, where 64 bits hold it.
fn value(word: &[u8], radix: u64) -> Option<u64>
    requires digits { list_all is_hex word.now ≡ true }
    requires radix { 1 ≤ radix }
    ensures { result ≡ within 64 (digits_value radix word.now) }
{
    let mut n: u64 = 0;
    for c in word {
        n = with_digit(n, radix, *c)?;
    }
    Some(n)
}

/// The number of a word of decimal digits.
#[tactic(auto, unfolding(crate::specs::Words::decimal_of))]
pub(crate) fn decimal(word: &[u8]) -> Option<u64>
    ensures { result ≡ decimal_of word.now }
{
    if word.is_empty() || !are_decimal(word) {
        return None;
    }
    value(word, 10)
}

/// The number of a word of decimal digits, where 32 bits hold it.
#[tactic(auto, unfolding(crate::specs::Words::short_of))]
pub(crate) fn short(word: &[u8]) -> Option<u32>
    ensures { result ≡ short_of word.now }
{
    let n = decimal(word)?;
    if n < 4294967296 { Some(n as u32) } else { None }
}

/// The number of a word of hexadecimal digits.
#[tactic(auto, unfolding(crate::specs::Words::hex_of))]
pub(crate) fn hex(word: &[u8]) -> Option<u64>
    ensures { result ≡ hex_of word.now }
{
    if word.is_empty() || !are_hex(word) {
        return None;
    }
    value(word, 16)
}

//! Numbers, read in place.

ghost use Rattle.std.specs.Prelude.{◌≡◌, ◌<◌, ◌≤◌, ◌^◌, ◌∷◌, IfSome};
ghost use Rattle.slub_common.specs.Numbers.{number_of};
ghost use Rattle.slub_trace_reader.specs.Digits.{IsFront};
ghost use Rattle.slub_trace_reader.specs.Forms.{Gives, number_at};

use crate::words::field_of;
use slub_common::numbers::{is_decimal, number as any_number};

/// The greatest number that takes one digit more, whichever, and that 64 bits still hold then.
const LAST: u64 = 1844674407370955160;

/// The number that begins with a digit which is no zero, up to its last digit, and what follows;
/// None where it is near to what 64 bits hold.
fn digits(first: u8, bytes: &[u8]) -> Option<(u64, &[u8])>
    requires { (49 ≤ first) × (first ≤ 57) }
    ensures front { IfSome result (λ x. IsFront (first ∷ bytes.now) x.0 x.1.now) }
    ensures small { IfSome result (λ x. x.0 < 2 ^ 64) }
{
    let mut n = u64::from(first - b'0');
    let mut rest = bytes;
    while let Some((c, more)) = rest.split_first() {
        if !is_decimal(*c) {
            return Some((n, rest));
        }
        if n > LAST {
            return None;
        }
        n = 10 * n + u64::from(*c - b'0');
        rest = more;
    }
    Some((n, rest))
}

/// The number in front, and what follows it; None where there is none, or it is near to what 64
/// bits hold.
pub(crate) fn front(bytes: &[u8]) -> Option<(u64, &[u8])>
    ensures front { IfSome result (λ x. IsFront bytes.now x.0 x.1.now) }
    ensures small { IfSome result (λ x. x.0 < 2 ^ 64) }
{
    let (c, rest) = bytes.split_first()?;
    if *c == b'0' {
        return Some((0, rest));
    }
    if b'1' <= *c && *c <= b'9' {
        return digits(*c, rest);
    }
    None
}

/// The number that a word spells.
pub(crate) fn number(word: &[u8]) -> Option<u128>
    ensures { result ≡ number_of word.now }
{
    if let Some((n, rest)) = front(word) {
        if rest.is_empty() {
            return Some(u128::from(n));
        }
    }
    any_number(word)
}

/// The number in front, with a space behind it, and what follows.
pub(crate) fn number_field(bytes: &[u8]) -> Option<(u128, &[u8])>
    ensures { Gives (λ x. (x.0, x.1.now)) result (number_at bytes.now) }
{
    if let Some((n, behind)) = front(bytes) {
        if let Some((b' ', rest)) = behind.split_first() {
            return Some((u128::from(n), rest));
        }
    }
    any_field(bytes)
}

/// The number up to the first space, of any length, and what follows.
#[tactic(auto, unfolding(crate::specs::Forms::number_at))]
fn any_field(bytes: &[u8]) -> Option<(u128, &[u8])>
    ensures { Gives (λ x. (x.0, x.1.now)) result (number_at bytes.now) }
{
    let (word, rest) = field_of(bytes)?;
    let n = any_number(word)?;
    Some((n, rest))
}

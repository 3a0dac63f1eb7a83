//! The words of a line, taken off the front one after the other.

ghost use Rattle.std.specs.Prelude.{◌≡◌, ◌≢◌, ◌∷◌, ◌++◌, All, IfSome, IfNone, true};
ghost use Rattle.std.specs.List.{list_all};
ghost use Rattle.slub_trace_reader.specs.Forms.{Gives, strip, field, offset_of, name_of, flags_of, byte_of, knob_of, version_of, name_at, offset_at, knob_at};
ghost use Rattle.slub_trace_reader.specs.Words.{is_letter, stands_in, are_distinct, are_flags, is_hex, hex_value};

use crate::digits::number;
use crate::line::Knob;
use slub_common::numbers::is_decimal;
use slub_object_layout::layout::Flags;
use slub_object_layout::name::Name;

/// What follows a fixed text.
pub(crate) fn after<'a>(bytes: &'a [u8], text: &[u8]) -> Option<&'a [u8]>
    ensures { Gives (λ rest. rest.now) result (strip text.now bytes.now) }
{
    let mut rest = bytes;
    let mut ahead = text;
    while let Some((t, more)) = ahead.split_first() {
        let Some((b, behind)) = rest.split_first() else {
            return None;
        };
        if *b != *t {
            return None;
        }
        ahead = more;
        rest = behind;
    }
    Some(rest)
}

/// The word up to the first space, and what follows that.
pub(crate) fn field_of(bytes: &[u8]) -> Option<(&[u8], &[u8])>
    ensures { Gives (λ x. (x.0.now, x.1.now)) result (field bytes.now) }
{
    cut(bytes, b' ')
}

/// What stands before the first `end`, and what follows that.
pub(crate) fn cut(bytes: &[u8], end: u8) -> Option<(&[u8], &[u8])>
    ensures found { IfSome result (λ x. (bytes.now ≡ x.0.now ++ end ∷ x.1.now) × All (λ b. b ≢ end) x.0.now) }
    ensures none { IfNone result (All (λ b. b ≢ end) bytes.now) }
{
    let at = bytes.iter().position(|b| *b == end)?;
    Some((&bytes[..at], &bytes[at + 1..]))
}

/// The sign and the size of an offset.
#[tactic(auto, unfolding(crate::specs::Forms::offset_of))]
pub(crate) fn offset(word: &[u8]) -> Option<(bool, u128)>
    ensures { result ≡ offset_of word.now }
{
    match word {
        [] => None,
        [b'-', rest @ ..] => Some((true, number(rest)?)),
        _ => Some((false, number(word)?)),
    }
}

pub(crate) fn name(word: &[u8]) -> Option<Name>
    ensures { result ≡ name_of word.now }
{
    Name::read_bytes(word)
}

fn stands(word: &[u8], letter: u8) -> bool
    ensures { result ≡ stands_in letter word.now }
{
    word.contains(&letter)
}

/// Whether no byte stands twice.
fn is_each_once(word: &[u8]) -> bool
    ensures { result ≡ are_distinct word.now }
{
    match word {
        [] => true,
        [c, rest @ ..] => !stands(rest, *c) && is_each_once(rest),
    }
}

fn are_letters(word: &[u8]) -> bool
    ensures { result ≡ list_all is_letter word.now }
{
    word.iter().all(|c| is_flag(*c))
}

/// Whether a word is `-`, or some of the letters.
fn is_flags(word: &[u8]) -> bool
    ensures { result ≡ are_flags word.now }
{
    word == b"-".as_slice() || (!word.is_empty() && are_letters(word) && is_each_once(word))
}

fn is_flag(c: u8) -> bool
    ensures { result ≡ is_letter c }
{
    matches!(c, b'H' | b'R' | b'F' | b'Z' | b'P' | b'U' | b'T' | b'A')
}

/// The flags that a word says.
#[tactic(auto, unfolding(crate::specs::Forms::flags_of))]
pub(crate) fn flags(word: &[u8]) -> Option<Flags>
    ensures { result ≡ flags_of word.now }
{
    if !is_flags(word) {
        return None;
    }
    Some(Flags {
        line: stands(word, b'H'),
        reclaim: stands(word, b'R'),
        checks: stands(word, b'F'),
        zones: stands(word, b'Z'),
        poison: stands(word, b'P'),
        user: stands(word, b'U'),
        trace: stands(word, b'T'),
        fail: stands(word, b'A'),
    })
}

fn is_hex_digit(c: u8) -> bool
    ensures { result ≡ is_hex c }
{
    is_decimal(c) || (b'a' <= c && c <= b'f')
}

/// The value of a hexadecimal digit.
fn digit(c: u8) -> u8
    requires { is_hex c ≡ true }
    ensures { result ≡ hex_value c }
{
    if c <= b'9' { c - b'0' } else { c - 87 }
}

/// The byte of two lower-case hexadecimal digits.
#[tactic(auto, unfolding(crate::specs::Forms::byte_of))]
pub(crate) fn byte(word: &[u8]) -> Option<u8>
    ensures { result ≡ byte_of word.now }
{
    match word {
        [high, low] if is_hex_digit(*high) && is_hex_digit(*low) => {
            Some(16 * digit(*high) + digit(*low))
        }
        _ => None,
    }
}

/// What a `tune` line sets.
#[tactic(auto, unfolding(crate::specs::Forms::knob_of))]
fn knob(word: &[u8]) -> Option<Knob>
    ensures { result ≡ knob_of word.now }
{
    if word == b"min_partial".as_slice() {
        return Some(Knob::MinPartial);
    }
    if word == b"cpu_partial".as_slice() {
        return Some(Knob::CpuPartial);
    }
    None
}

/// The version of a digit from 1 to 4.
#[tactic(auto, unfolding(crate::specs::Forms::version_of))]
pub(crate) fn version(word: &[u8]) -> Option<u32>
    ensures { result ≡ version_of word.now }
{
    match word {
        [digit] if b'1' <= *digit && *digit <= b'4' => Some(u32::from(*digit - b'0')),
        _ => None,
    }
}

/// The name in front, with a space behind it, and what follows.
#[tactic(auto, unfolding(crate::specs::Forms::name_at))]
pub(crate) fn name_field(bytes: &[u8]) -> Option<(Name, &[u8])>
    ensures { Gives (λ x. (x.0, x.1.now)) result (name_at bytes.now) }
{
    let (word, rest) = field_of(bytes)?;
    let n = name(word)?;
    Some((n, rest))
}

/// The offset in front, with a space behind it, and what follows.
#[tactic(auto, unfolding(crate::specs::Forms::offset_at))]
pub(crate) fn offset_field(bytes: &[u8]) -> Option<((bool, u128), &[u8])>
    ensures { Gives (λ x. (x.0, x.1.now)) result (offset_at bytes.now) }
{
    let (word, rest) = field_of(bytes)?;
    let n = offset(word)?;
    Some((n, rest))
}

/// What a `tune` line sets, in front with a space behind it, and what follows.
#[tactic(auto, unfolding(crate::specs::Forms::knob_at))]
pub(crate) fn knob_field(bytes: &[u8]) -> Option<(Knob, &[u8])>
    ensures { Gives (λ x. (x.0, x.1.now)) result (knob_at bytes.now) }
{
    let (word, rest) = field_of(bytes)?;
    let found = knob(word)?;
    Some((found, rest))
}

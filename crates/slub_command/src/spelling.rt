//! Reading the numbers and the flags of a command line.

ghost use Rattle.std.specs.Prelude.{◌≡◌, ℕ, MatchOption};
ghost use Rattle.std.specs.List.{list_all};
ghost use Rattle.slub_object_layout.specs.declared.layout.Flags.{Flags};
ghost use Rattle.slub_command.specs.Spelling.{IsFlags, IsNumber, are_letters, is_flag_word, is_letter, stands_in, stands_once};

use slub_common::numbers::small_number;
use slub_object_layout::layout::Flags;

/// The number that a word spells, of those that 64 bits hold.
pub(crate) fn number(word: &str) -> Option<u64>
    ensures { MatchOption result ((n : ℕ) → ¬ IsNumber 0 18446744073709551615 word.now n) (IsNumber 0 18446744073709551615 word.now) }
{
    small_number(word.as_bytes())
}

/// The number from `least` to `most` that a word spells.
pub(crate) fn number_within(word: &str, least: u32, most: u32) -> Option<u32>
    ensures { MatchOption result ((n : ℕ) → ¬ IsNumber least most word.now n) (IsNumber least most word.now) }
{
    let n = u32::try_from(number(word)?).ok()?;
    if least <= n && n <= most {
        Some(n)
    } else {
        None
    }
}

fn stands_in(c: u8, word: &[u8]) -> bool
    ensures { result ≡ stands_in c word.now }
{
    word.iter().any(|b| *b == c)
}

fn is_letter(c: u8) -> bool
    ensures { result ≡ is_letter c }
{
    matches!(c, b'H' | b'R' | b'F' | b'Z' | b'P' | b'U' | b'T' | b'A')
}

fn stands_once(word: &[u8], c: u8) -> bool
    ensures { result ≡ stands_once word.now c }
{
    word.iter().filter(|b| **b == c).count() == 1
}

fn is_each_letter(word: &[u8]) -> bool
    ensures { result ≡ list_all is_letter word.now }
{
    word.iter().all(|c| is_letter(*c))
}

fn is_each_once(word: &[u8]) -> bool
    ensures { result ≡ list_all (stands_once word.now) word.now }
{
    word.iter().all(|c| stands_once(word, *c))
}

/// Whether a word is some of the letters, none twice.
fn are_letters(word: &[u8]) -> bool
    ensures { result ≡ are_letters word.now }
{
    !word.is_empty() && is_each_letter(word) && is_each_once(word)
}

/// Whether a word is `-`, or letters.
fn is_flag_word(word: &[u8]) -> bool
    ensures { result ≡ is_flag_word word.now }
{
    word == b"-".as_slice() || are_letters(word)
}

/// The flags that a word spells.
pub(crate) fn flags(text: &str) -> Option<Flags>
    ensures { MatchOption result ((flags : Flags) → ¬ IsFlags text.now flags) (IsFlags text.now) }
{
    let word = text.as_bytes();
    if !is_flag_word(word) {
        return None;
    }
    Some(Flags {
        line: stands_in(b'H', word),
        reclaim: stands_in(b'R', word),
        checks: stands_in(b'F', word),
        zones: stands_in(b'Z', word),
        poison: stands_in(b'P', word),
        user: stands_in(b'U', word),
        trace: stands_in(b'T', word),
        fail: stands_in(b'A', word),
    })
}

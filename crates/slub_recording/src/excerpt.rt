//! A piece of a bad line.

ghost use Rattle.std.specs.Prelude.{◌≡◌, ◌≤◌, length, take};

use std::marker::Model;

/// The most bytes of an excerpt.
const EXCERPT_MAX: usize = 31;

/// The first bytes of a word, at most 31, for a message.
#[derive(Clone, Copy, Debug)]
pub struct Excerpt {
    len: usize,
    bytes: [u8; 31],
}

impl Model for Excerpt {
    ghost use Rattle.std.specs.Prelude.{◌≡◌, ℕ, ◌-◌, ◌≤◌, List, ◌++◌, take, drop, length, replicate};

    ghost Value = { List ℕ };

    ghost view = { λ n. take n.len n.bytes };

    ghost invariant = { λ n. (n.len ≤ 31) × (length n.bytes ≡ 31) × (drop n.len n.bytes ≡ replicate (31 - n.len) 0) };

    ghost inverse = { λ text. record { len = length text; bytes = text ++ replicate (31 - length text) 0 } };

    ghost use Rattle.slub_recording.specs.ExcerptFields.{fields_again};

    ghost inverse_ok = { λ a h. fields_again a h.0 h.1 h.2 };
}

/// The first bytes of a text, at most so many.
pub(crate) fn front(text: &[u8], most: usize) -> &[u8]
    ensures front { result.now ≡ take most text.now }
    ensures within { length result.now ≤ most }
{
    if text.len() <= most {
        return text;
    }
    &text[..most]
}

impl Excerpt {
    /// The first bytes of a word.
    pub fn new(word: &[u8]) -> Excerpt
        ensures { result ≡ take 31 word.now }
    {
        let text = front(word, EXCERPT_MAX);
        let mut bytes = [0; EXCERPT_MAX];
        bytes[..text.len()].copy_from_slice(text);
        Excerpt {
            len: text.len(),
            bytes,
        }
    }

    /// The bytes.
    pub fn as_bytes(&self) -> &[u8]
        ensures { result.now ≡ self.now }
    {
        &self.bytes[..self.len]
    }
}

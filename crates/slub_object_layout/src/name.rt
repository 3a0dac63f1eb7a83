//! Names of caches.

ghost use Rattle.std.specs.Prelude.{◌≡◌, ◌↔◌, IsTrue, SomeIff};
ghost use Rattle.std.proofs.Common.{rules};
ghost use Rattle.std.specs.Cmp.{partial_equiv_from_equiv};
ghost use Rattle.std.specs.Cmp.Lexicographic.{nat_list_eq_equiv};
ghost use Rattle.std.specs.Cmp.Rules.{hashing};
ghost use Rattle.std.specs.Hash as fed;
ghost use Rattle.std.specs.Str.{bytes_eq};
ghost use Rattle.slub_object_layout.specs.Name.{IsName, IsLetterOrDigit, IsNameByte};

use std::hash::{Hash, Hasher};
use std::marker::Model;

/// The most characters of a name.
pub const NAME_MAX: usize = 31;

/// A name: 1 to 31 characters of `A-Z a-z 0-9 _ . -`, the first a letter or digit.
#[derive(Clone, Copy, Debug)]
pub struct Name {
    len: usize,
    bytes: [u8; 31],
}

impl Model for Name {
    ghost use Rattle.std.specs.Prelude.{◌≡◌, ℕ, ◌-◌, ◌≤◌, List, ◌++◌, take, drop, length, replicate};
    ghost use Rattle.slub_object_layout.specs.Name.{IsName};

    ghost Value = { List ℕ };

    ghost view = { λ n. take n.len n.bytes };

    ghost invariant = { λ n. (n.len ≤ 31) × (length n.bytes ≡ 31) × (drop n.len n.bytes ≡ replicate (31 - n.len) 0) × IsName (take n.len n.bytes) };

    ghost inverse = { λ text. record { len = length text; bytes = text ++ replicate (31 - length text) 0 } };

    ghost use Rattle.slub_object_layout.specs.NameFields.{fields_again};

    ghost inverse_ok = { λ a h. fields_again a h.0 h.1 h.2 };
}

impl Name {
    /// The name of this text; None where the text is no name.
    pub fn read(text: &str) -> Option<Name>
        ensures { SomeIff result (IsName text.now) text.now }
    {
        Name::read_bytes(text.as_bytes())
    }

    /// The name of these bytes; None where they are no name.
    pub fn read_bytes(text: &[u8]) -> Option<Name>
        ensures { SomeIff result (IsName text.now) text.now }
    {
        if !is_name(text) {
            return None;
        }
        let mut bytes = [0; NAME_MAX];
        bytes[..text.len()].copy_from_slice(text);
        Some(Name {
            len: text.len(),
            bytes,
        })
    }

    /// The text of the name.
    pub fn as_bytes(&self) -> &[u8]
        ensures text { result.now ≡ self.now }
        ensures named { IsName self.now }
    {
        &self.bytes[..self.len]
    }
}

/// Whether bytes are a name.
fn is_name(text: &[u8]) -> bool
    ensures { IsTrue result ↔ IsName text.now }
{
    match text {
        [] => false,
        [first, rest @ ..] => {
            is_letter_or_digit(*first)
                && rest.len() < NAME_MAX
                && rest.iter().all(|c| is_name_byte(*c))
        }
    }
}

/// Whether a byte is a letter or a digit.
fn is_letter_or_digit(c: u8) -> bool
    ensures { IsTrue result ↔ IsLetterOrDigit c }
{
    matches!(c, b'A'..=b'Z' | b'a'..=b'z' | b'0'..=b'9')
}

/// Whether a byte can stand in a name.
fn is_name_byte(c: u8) -> bool
    ensures { IsTrue result ↔ IsNameByte c }
{
    is_letter_or_digit(c) || matches!(c, b'_' | b'.' | b'-')
}

impl PartialEq for Name {
    ghost eq = { bytes_eq };

    ghost laws = { partial_equiv_from_equiv nat_list_eq_equiv };

    /// Whether the texts are equal.
    fn eq(&self, other: &Name) -> bool
        ensures { IsTrue result ↔ (self.now ≡ other.now) }
    {
        self.as_bytes() == other.as_bytes()
    }
}

impl Eq for Name {
    ghost laws = { nat_list_eq_equiv };
}

impl Hash for Name {
    ghost hash_input = { λ n. fed.slice fed.u8 n };

    ghost respects_eq = { Prim.search (hashing, rules) };

    /// Feeds the text.
    fn hash<H: Hasher>(&self, state: &mut H) {
        self.as_bytes().hash(state);
    }
}

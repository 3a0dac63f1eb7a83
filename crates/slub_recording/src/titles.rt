//! Names that titles of caches are turned into.

ghost use Rattle.std.specs.Prelude.{◌≡◌, ◌≤◌, ◌∷◌, length, map, Some};
ghost use Rattle.slub_recording.specs.Names.{first_of, later_of, name_of};
ghost use Rattle.slub_common.specs.Names.{is_letter_or_digit, is_name_byte};

use crate::excerpt::front;
use slub_object_layout::name::Name;

/// The most bytes of a name.
const NAME_MAX: usize = 31;

fn is_alphanumeric(c: u8) -> bool
    ensures { result ≡ is_letter_or_digit c }
{
    matches!(c, b'A'..=b'Z' | b'a'..=b'z' | b'0'..=b'9')
}

/// The byte that stands in front of the name.
fn first(c: u8) -> u8
    ensures { result ≡ first_of c }
{
    if is_alphanumeric(c) { c } else { b'x' }
}

/// The byte that stands behind it.
fn later(c: u8) -> u8
    ensures { result ≡ later_of c }
{
    if is_alphanumeric(c) || matches!(c, b'_' | b'.' | b'-') {
        c
    } else {
        b'_'
    }
}

/// The name of these bytes, each that can't stand there changed.
fn spell(c: u8, rest: &[u8]) -> Option<Name>
    requires { length rest.now ≤ 30 }
    ensures { result ≡ Some (first_of c ∷ map later_of rest.now) }
{
    let mut text = [b'_'; NAME_MAX];
    text[0] = first(c);
    for i in 0..rest.len() {
        text[i + 1] = later(rest[i]);
    }
    Name::read_bytes(&text[..rest.len() + 1])
}

/// The name of a cache's title; None where the title is empty.
#[tactic(auto, unfolding(crate::specs::Names::name_of))]
pub(crate) fn name(title: &[u8]) -> Option<Name>
    ensures { result ≡ name_of title.now }
{
    let (c, rest) = title.split_first()?;
    spell(*c, front(rest, NAME_MAX - 1))
}

//! Names of caches and of reserves, looked up.

ghost use Rattle.std.specs.Prelude.{◌≡◌, ◌≢◌, ◌∷◌, ◌++◌, ◌^◌, ◌<◌, ◌≤◌, ℕ, List, length, true, IfNone, IfSome};
ghost use Rattle.std.specs.List.{list_any};
ghost use Rattle.std.specs.Str.{bytes_eq};
ghost use Rattle.slub_object_layout.specs.Name.{IsName};
ghost use Rattle.slub_trace_reader.specs.Above.{place_of};
ghost use Rattle.slub_trace_reader.specs.Parsing.{IsNameFront};

use crate::words::{after, cut};
use indexmap::IndexSet;
use slub_object_layout::name::Name;

/// So many names are looked through one after the other, and more are looked up by their hashes.
const FEW: usize = 8;

/// Whether a name is among these.
pub(crate) fn has_name(names: &IndexSet<Name>, name: &Name) -> bool
    ensures { result ≡ list_any (bytes_eq name.now) names.now.keys }
{
    if names.len() <= FEW {
        names.as_slice().contains(name)
    } else {
        names.contains(name)
    }
}

/// The place of a name that is among these.
pub(crate) fn place_among(names: &IndexSet<Name>, name: &Name) -> u32
    requires known { list_any (bytes_eq name.now) names.now.keys ≡ true }
    requires small { length names.now.keys < 2 ^ 32 }
    ensures { result ≡ place_of name.now names.now.keys }
{
    if names.len() <= FEW {
        return place_in(names.as_slice(), name) as u32;
    }
    names.get_index_of(name).unwrap() as u32
}

/// The place of a name among these, or how many they are.
fn place_in(names: &[Name], name: &Name) -> usize
    ensures place { result ≡ place_of name.now names.now }
    ensures within { result ≤ length names.now }
{
    let Some((other, rest)) = names.split_first() else {
        return 0;
    };
    if *name == *other {
        return 0;
    }
    1 + place_in(rest, name)
}

/// The place of the name in front, with a space behind it, and what follows; None where none of
/// these stands there.
pub(crate) fn name_before<'a>(names: &IndexSet<Name>, bytes: &'a [u8]) -> Option<(u32, &'a [u8])>
    requires small { length names.now.keys < 2 ^ 32 }
    ensures { IfSome result (λ x. IsNameFront names.now.keys bytes.now x.0 x.1.now) }
{
    if names.len() <= FEW {
        return one_before(names.as_slice(), bytes);
    }
    let (word, rest) = cut(bytes, b' ')?;
    let name = Name::read_bytes(word)?;
    let place = names.get_index_of(&name)?;
    Some((place as u32, rest))
}

/// The same of few names, tried one after the other.
fn one_before<'a>(names: &[Name], bytes: &'a [u8]) -> Option<(u32, &'a [u8])>
    requires small { length names.now < 2 ^ 32 }
    ensures { IfSome result (λ x. IsNameFront names.now bytes.now x.0 x.1.now) }
{
    let mut place = 0;
    while place < names.len() {
        if let Some(rest) = past_name(&names[place], bytes) {
            return Some((place as u32, rest));
        }
        place += 1;
    }
    None
}

/// What follows a name in front and the space behind it.
fn past_name<'a>(name: &Name, bytes: &'a [u8]) -> Option<&'a [u8]>
    ensures found { IfSome result (λ rest. bytes.now ≡ name.now ++ 32 ∷ rest.now) }
    ensures none { IfNone result ((rest : List ℕ) → bytes.now ≢ name.now ++ 32 ∷ rest) }
    ensures named { IsName name.now }
{
    let behind = after(bytes, name.as_bytes())?;
    let (c, rest) = behind.split_first()?;
    if *c != b' ' {
        return None;
    }
    Some(rest)
}

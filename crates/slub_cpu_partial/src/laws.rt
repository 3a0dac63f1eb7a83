//! What follows from the clauses, for the crates above. None of these does anything.

ghost use Rattle.std.specs.Prelude.{◌≡◌, ℕ, ◌+◌, ◌≤◌, ◌↔◌, ◌++◌, length, slice_index, slice_set, Contains};
ghost use Rattle.slub_cpu_partial.specs.Strings.{list_bits, link_bits, IsList, IsListWord, IsLinkWord, string_in, frame_after};

use crate::words::{LinkWord, ListWord};

/// List words that are one number have equal fields, so that what is packed is what is unpacked again.
pub fn list_word_has_fields(one: ListWord, other: ListWord)
    requires { list_bits one ≡ list_bits other }
    ensures { one ≡ other }
{}

/// The number of a front and a count is the word of a list exactly where they are those of a list: `unpack` answers
/// None for the number of any others.
pub fn list_words_are_of_lists(list: ListWord)
    ensures { IsListWord (list_bits list) ↔ IsList list.front list.count }
{}

/// Link words that are one number have equal fields, so that what is packed is what is unpacked again.
pub fn link_word_has_fields(one: LinkWord, other: LinkWord)
    requires { link_bits one ≡ link_bits other }
    ensures { one ≡ other }
{}

/// The number of every link is the word of one.
pub fn links_have_words(link: LinkWord)
    ensures { IsLinkWord (link_bits link) }
{}

/// A string has as many frames as its count says.
pub fn strings_have_their_count(front: u16, count: u16, links: &[u16])
    ensures { length (string_in links.now front count) ≡ count }
{}

/// Slabs whose last leads to the front of a list stand before that list's own: joined strings are one string.
pub fn joined_strings(list: ListWord, front: u16, more: u16, links: &[u16])
    requires { 1 ≤ list.count → frame_after (λ frame. slice_index links.now frame) front more ≡ list.front }
    ensures { string_in links.now front (more + list.count) ≡ string_in links.now front more ++ string_in links.now list.front list.count }
{}

/// A new link of a frame that is not on a string leaves the string as it is.
pub fn strings_stay(front: u16, count: u16, links: &[u16])
    ensures { (frame next : ℕ) → ¬ Contains (string_in links.now front count) frame → string_in (slice_set links.now frame next) front count ≡ string_in links.now front count }
{}

//! The table of a cache's slabs, by frame.

ghost use Rattle.std.specs.Prelude.{◌≡◌, ◌==◌, if◌then◌else◌, [], ◌∷◌, ◌*◌, ◌+◌, ◌<◌, ◌≤◌, ◌++◌, length, map, vec_capacity, take, drop, slice_index_or, slice_set, slice_range, None, Some, MatchOption, IfOk, All};
ghost use Rattle.std.specs.Int.{w64, from_le_bytes, to_le_bytes};
ghost use Rattle.slub_object_layout.specs.Layout.{IsWithinBounds};
ghost use Rattle.slub_red_zone.specs.State.{objects_in, slab_at};
ghost use Rattle.slub_red_zone.specs.Sound.{IsFreeList};
ghost use Rattle.slub_red_zone.specs.Steps.{slab_with_given, slab_with_taken, slab_set_aside, no_slabs};

use crate::slab::Slab;
use slub_common::limits::FRAMES_MAX;
use slub_node_partial::NodeList;
use slub_object_layout::layout::{Flags, Layout};
use std::alloc::{AllocError, Global};

/// A table with no slab.
pub(crate) fn open(alloc: Global) -> Result<Vec<Option<Slab>>, AllocError>
    ensures { IfOk result (λ slabs. slabs.items ≡ no_slabs) }
{
    open_places(alloc, FRAMES_MAX as usize)
}

/// A table of so many places, with no slab.
#[tactic(auto, unfolding(crate::specs::Steps::no_slabs))]
fn open_places(alloc: Global, frames: usize) -> Result<Vec<Option<Slab>>, AllocError>
    requires { frames ≡ 4096 }
    ensures { IfOk result (λ slabs. slabs.items ≡ no_slabs) }
{
    let mut slabs = Vec::with_capacity(alloc, frames)?;
    for _ in 0..frames {
        slabs.push(None)?;
    }
    Ok(slabs)
}

/// The slab whose run begins at this frame.
pub(crate) fn slab_of(slabs: &[Option<Slab>], frame: u16) -> Option<&Slab>
    ensures { MatchOption result (slice_index_or slabs.now frame None ≡ None) (λ slab. slice_index_or slabs.now frame None ≡ Some slab.now) }
{
    match slabs.get(frame as usize) {
        Some(Some(slab)) => Some(slab),
        _ => None,
    }
}

/// How many objects of a slab are free.
pub(crate) fn free_in(slabs: &[Option<Slab>], frame: u16) -> usize
    ensures { result ≡ length (slab_at slabs.now frame).free }
{
    match slab_of(slabs, frame) {
        Some(slab) => slab.free().len(),
        None => 0,
    }
}

/// Sets the first free object of a slab up as used.
pub(crate) fn give(
    slabs: &mut Vec<Option<Slab>>,
    layout: &Layout,
    flags: &Flags,
    frame: u16,
    index: u16,
)
    requires bounds { IsWithinBounds layout.now }
    requires object { index < objects_in (slab_at slabs.old.items frame) }
    requires inside { index * layout.now.size + layout.now.size ≤ length (slab_at slabs.old.items frame).bytes }
    requires some { 0 < length (slab_at slabs.old.items frame).free }
    ensures slabs { slabs.new.items ≡ slice_set slabs.old.items frame (Some (slab_with_given layout.now flags.now (slab_at slabs.old.items frame) index)) }
    ensures bytes { length (slab_with_given layout.now flags.now (slab_at slabs.old.items frame) index).bytes ≡ length (slab_at slabs.old.items frame).bytes }
{
    let slab = &mut slabs[frame as usize];
    if let Some(slab) = slab {
        slab.give(layout, flags, index);
    }
}

/// Sets a used object of a slab up as free.
pub(crate) fn take_back(
    slabs: &mut Vec<Option<Slab>>,
    layout: &Layout,
    flags: &Flags,
    frame: u16,
    index: u16,
)
    requires bounds { IsWithinBounds layout.now }
    requires object { index < objects_in (slab_at slabs.old.items frame) }
    requires inside { index * layout.now.size + layout.now.size ≤ length (slab_at slabs.old.items frame).bytes }
    requires room { length (slab_at slabs.old.items frame).free < objects_in (slab_at slabs.old.items frame) }
    ensures slabs { slabs.new.items ≡ slice_set slabs.old.items frame (Some (slab_with_taken layout.now flags.now (slab_at slabs.old.items frame) index)) }
    ensures bytes { length (slab_with_taken layout.now flags.now (slab_at slabs.old.items frame) index).bytes ≡ length (slab_at slabs.old.items frame).bytes }
{
    let slab = &mut slabs[frame as usize];
    if let Some(slab) = slab {
        slab.take_back(layout, flags, index);
    }
}

/// Sets all free objects of a slab aside.
pub(crate) fn set_aside(slabs: &mut Vec<Option<Slab>>, frame: u16)
    requires free { IsFreeList (slab_at slabs.old.items frame).states (slab_at slabs.old.items frame).free }
    requires some { 0 < length (slab_at slabs.old.items frame).free }
    ensures { slabs.new.items ≡ slice_set slabs.old.items frame (Some (slab_set_aside (slab_at slabs.old.items frame))) }
{
    let slab = &mut slabs[frame as usize];
    if let Some(slab) = slab {
        slab.set_aside();
    }
}

/// Writes one byte of a slab.
pub(crate) fn set_byte(slabs: &mut Vec<Option<Slab>>, frame: u16, at: usize, byte: u8)
    requires { at < length (slab_at slabs.old.items frame).bytes }
    ensures { slabs.new.items ≡ slice_set slabs.old.items frame (Some (record (slab_at slabs.old.items frame) { bytes = slice_set (slab_at slabs.old.items frame).bytes at byte })) }
{
    let slab = &mut slabs[frame as usize];
    if let Some(slab) = slab {
        slab.set_byte(at, byte);
    }
}

/// The eight bytes of a slab from this place on, little endian.
pub(crate) fn word(slabs: &[Option<Slab>], frame: u16, at: usize) -> u64
    requires { at + 8 ≤ length (slab_at slabs.now frame).bytes }
    ensures { result ≡ from_le_bytes w64 (slice_range (slab_at slabs.now frame).bytes at (at + 8)) }
{
    match slab_of(slabs, frame) {
        Some(slab) => slab.word(at),
        None => 0,
    }
}

/// Writes eight bytes of a slab from this place on, little endian.
pub(crate) fn set_word(slabs: &mut Vec<Option<Slab>>, frame: u16, at: usize, value: u64)
    requires { at + 8 ≤ length (slab_at slabs.old.items frame).bytes }
    ensures slabs { slabs.new.items ≡ slice_set slabs.old.items frame (Some (record (slab_at slabs.old.items frame) { bytes = take at (slab_at slabs.old.items frame).bytes ++ to_le_bytes w64 value ++ drop (at + 8) (slab_at slabs.old.items frame).bytes })) }
    ensures bytes { length (take at (slab_at slabs.old.items frame).bytes ++ to_le_bytes w64 value ++ drop (at + 8) (slab_at slabs.old.items frame).bytes) ≡ length (slab_at slabs.old.items frame).bytes }
{
    let slab = &mut slabs[frame as usize];
    if let Some(slab) = slab {
        slab.set_word(at, value);
    }
}

/// Writes for each of these slabs how many of its objects are free.
pub(crate) fn count_free(slabs: &[Option<Slab>], frames: &[u16], counts: &mut Vec<u16>)
    requires few { length frames.now ≤ vec_capacity counts.old }
    requires small { All (λ frame. length (slab_at slabs.now frame).free ≤ 512) frames.now }
    ensures counts { counts.new.items ≡ map (λ frame. length (slab_at slabs.now frame).free) frames.now }
    ensures capacity { vec_capacity counts.old ≤ vec_capacity counts.new }
{
    counts.clear();
    for frame in frames {
        counts.push_reserved(free_in(slabs, *frame) as u16);
    }
}

/// Takes the front off the list where its slab has no free object left.
pub(crate) fn unlist_spent(listed: &mut NodeList, free: usize)
    ensures frames { listed.new.frames ≡ (if free == 0 then drop 1 listed.old.frames else listed.old.frames) }
    ensures room { listed.new.room ≡ listed.old.room }
{
    if free == 0 {
        listed.pop();
    }
}

/// Puts a slab at the tail of the list where it has no free object yet.
pub(crate) fn list_first(listed: &mut NodeList, frame: u16, free: usize)
    requires { free ≡ 0 → length listed.old.frames < listed.old.room }
    ensures frames { listed.new.frames ≡ (if free == 0 then listed.old.frames ++ frame ∷ [] else listed.old.frames) }
    ensures room { listed.new.room ≡ listed.old.room }
{
    if free == 0 {
        listed.push_tail(frame);
    }
}

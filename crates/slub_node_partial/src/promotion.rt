//! The order in which shrinking leaves a node's partial list (`__kmem_cache_do_shrink`).

ghost use Rattle.std.specs.Prelude.{◌≡◌, ◌+◌, ◌^◌, ◌<◌, ◌≤◌, ◌++◌, length, map, filter, AllPairs, IsPermutation, vec_len, vec_capacity};
ghost use Rattle.slub_node_partial.specs.Promotion.{slabs_of, is_promoted, GoesBefore, IsPromoted};
ghost use Rattle.slub_node_partial.specs.Gathering.{is_among};

use std::cmp::Reverse;

/// The most free objects of a slab that shrinking moves to the front (`SHRINK_PROMOTE_MAX`).
pub const SHRINK_PROMOTE_MAX: u16 = 32;

/// A slab of a node's partial list, as shrinking sees it.
#[derive(Clone, Copy, Debug, PartialEq, Eq)]
pub struct Slab {
    /// Its place on the list, counted from the head.
    pub place: u32,
    /// Its first frame.
    pub frame: u16,
    /// How many of its objects are free.
    pub free: u16,
}

impl Slab {
    /// Whether it moves to the front: 1 to 32 of its objects are free.
    pub fn is_promoted(&self) -> bool
        ensures { result ≡ is_promoted self.now }
    {
        1 <= self.free && self.free <= SHRINK_PROMOTE_MAX
    }

    /// Whether it is one of those that move to the front, or one of the others.
    fn is_among(&self, promoted: bool) -> bool
        ensures { result ≡ is_among promoted self.now }
    {
        self.is_promoted() == promoted
    }
}

/// Puts the frames into the order in which shrinking leaves them. `slabs` lends its room.
pub(crate) fn promote(frames: &mut [u16], free: &[u16], slabs: &mut Vec<Slab>)
    requires as_many { length free.now ≡ length frames.old }
    requires few { length frames.old < 2 ^ 32 }
    requires room { length frames.old ≤ vec_capacity slabs.old }
    ensures promoted { IsPromoted frames.old free.now frames.new }
    ensures capacity { vec_capacity slabs.new ≡ vec_capacity slabs.old }
{
    slabs.clear();
    gather(slabs, true, frames, free);
    sort(slabs);
    gather(slabs, false, frames, free);
    write(frames, slabs);
}

/// Puts the slabs that are promoted, or those that are not, behind what is there, in their order.
fn gather(slabs: &mut Vec<Slab>, promoted: bool, frames: &[u16], free: &[u16])
    requires as_many { length free.now ≡ length frames.now }
    requires few { length frames.now < 2 ^ 32 }
    requires room { vec_len slabs.old + length (filter (is_among promoted) (slabs_of frames.now free.now)) ≤ vec_capacity slabs.old }
    ensures slabs { slabs.new.items ≡ slabs.old.items ++ filter (is_among promoted) (slabs_of frames.now free.now) }
    ensures capacity { vec_capacity slabs.new ≡ vec_capacity slabs.old }
{
    for (place, frame) in frames.iter().enumerate() {
        let slab = Slab {
            place: place as u32,
            frame: *frame,
            free: free[place],
        };
        if slab.is_among(promoted) {
            slabs.push_reserved(slab);
        }
    }
}

/// Sorts slabs that stand as on the list by their free objects, and those with equally many the
/// other way round.
fn sort(slabs: &mut Vec<Slab>)
    requires { AllPairs (λ one other. one.place < other.place) slabs.old.items }
    ensures same { IsPermutation slabs.old.items slabs.new.items }
    ensures sorted { AllPairs GoesBefore slabs.new.items }
    ensures capacity { vec_capacity slabs.new ≡ vec_capacity slabs.old }
{
    slabs.sort_unstable_by_key(|slab| (slab.free, Reverse(slab.place)));
}

/// Writes the frames of the slabs, which are as many.
fn write(frames: &mut [u16], slabs: &[Slab])
    requires { length slabs.now ≡ length frames.old }
    ensures { frames.new ≡ map (λ slab. slab.frame) slabs.now }
{
    for (place, slab) in slabs.iter().enumerate() {
        frames[place] = slab.frame;
    }
}

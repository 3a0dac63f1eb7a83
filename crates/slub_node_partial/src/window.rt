//! The list as one piece of a longer row of slots, so that it can grow and shrink at either end.

ghost use Rattle.std.specs.Prelude.{◌≡◌, ◌≢◌, ◌+◌, ◌*◌, ◌^◌, ◌<◌, ◌≤◌, ◌↔◌, [], ◌∷◌, ◌++◌, length, IfOk, MatchOption, IsTrue, IsFalse, All, Contains, remove, vec_capacity, slice_index};
ghost use Rattle.std.specs.List.{AllWithin};
ghost use Rattle.slub_node_partial.specs.PartialList.{IsTakenOut};
ghost use Rattle.slub_node_partial.specs.Promotion.{IsPromoted};
ghost use Rattle.slub_node_partial.specs.Window.{frames_of, IsWindow};

use crate::promotion::{Slab, promote};
use std::alloc::{AllocError, Global};

/// The frames are those from `start` up to `end`, head first.
#[derive(Debug, Drop)]
pub struct Window {
    pub(crate) slots: Vec<u16>,
    pub(crate) start: usize,
    pub(crate) end: usize,
}

impl Window {
    /// No frame, in the middle of twice as many slots as there is room for.
    pub(crate) fn open(alloc: Global, room: usize) -> Result<Window, AllocError>
        requires { room < 2 ^ 32 }
        ensures frames { IfOk result (λ window. frames_of window ≡ []) }
        ensures window { IfOk result IsWindow }
        ensures slots { IfOk result (λ window. length window.slots.items ≡ 2 * room) }
    {
        let slots = vec![in alloc; 0; 2 * room]?;
        Ok(Window {
            slots,
            start: room,
            end: room,
        })
    }

    /// Puts a frame before the others.
    pub(crate) fn push_head(&mut self, frame: u16)
        requires window { IsWindow self.old }
        requires spare { 2 * length (frames_of self.old) + 2 ≤ length self.old.slots.items }
        ensures frames { frames_of self.new ≡ frame ∷ frames_of self.old }
        ensures window { IsWindow self.new }
        ensures slots { length self.new.slots.items ≡ length self.old.slots.items }
    {
        self.make_head();
        self.start -= 1;
        self.slots[self.start] = frame;
    }

    /// Puts a frame behind the others.
    pub(crate) fn push_tail(&mut self, frame: u16)
        requires window { IsWindow self.old }
        requires spare { 2 * length (frames_of self.old) + 2 ≤ length self.old.slots.items }
        ensures frames { frames_of self.new ≡ frames_of self.old ++ frame ∷ [] }
        ensures window { IsWindow self.new }
        ensures slots { length self.new.slots.items ≡ length self.old.slots.items }
    {
        self.make_tail();
        self.slots[self.end] = frame;
        self.end += 1;
    }

    /// Takes the first frame off.
    pub(crate) fn pop(&mut self) -> Option<u16>
        requires { IsWindow self.old }
        ensures popped { MatchOption result ((frames_of self.old ≡ []) × (frames_of self.new ≡ [])) (λ frame. frames_of self.old ≡ frame ∷ frames_of self.new) }
        ensures window { IsWindow self.new }
        ensures slots { length self.new.slots.items ≡ length self.old.slots.items }
    {
        if self.start == self.end {
            return None;
        }
        let frame = self.slots[self.start];
        self.start += 1;
        Some(frame)
    }

    /// Takes the first such frame out, if there is one.
    pub(crate) fn remove(&mut self, frame: u16) -> bool
        requires { IsWindow self.old }
        ensures there { IsTrue result ↔ Contains (frames_of self.old) frame }
        ensures taken { IsTrue result → IsTakenOut (frames_of self.old) frame (frames_of self.new) }
        ensures kept { IsFalse result → frames_of self.new ≡ frames_of self.old }
        ensures window { IsWindow self.new }
        ensures slots { length self.new.slots.items ≡ length self.old.slots.items }
    {
        let Some(place) = place_of(self.frames(), frame) else {
            return false;
        };
        self.close_gap(place);
        true
    }

    /// Puts the frames in the order in which shrinking leaves them.
    pub(crate) fn promote(&mut self, free: &[u16], slabs: &mut Vec<Slab>)
        requires window { IsWindow self.old }
        requires as_many { length free.now ≡ length (frames_of self.old) }
        requires few { length (frames_of self.old) < 2 ^ 32 }
        requires room { length (frames_of self.old) ≤ vec_capacity slabs.old }
        ensures promoted { IsPromoted (frames_of self.old) free.now (frames_of self.new) }
        ensures as_many { length (frames_of self.new) ≡ length (frames_of self.old) }
        ensures window { IsWindow self.new }
        ensures slots { length self.new.slots.items ≡ length self.old.slots.items }
        ensures capacity { vec_capacity slabs.new ≡ vec_capacity slabs.old }
    {
        promote(&mut self.slots[self.start..self.end], free, slabs);
    }

    pub(crate) fn frames(&self) -> &[u16]
        requires { IsWindow self.now }
        ensures { result.now ≡ frames_of self.now }
    {
        &self.slots[self.start..self.end]
    }

    /// A free slot before the list.
    fn make_head(&mut self)
        requires window { IsWindow self.old }
        requires spare { 2 * length (frames_of self.old) + 2 ≤ length self.old.slots.items }
        ensures frames { frames_of self.new ≡ frames_of self.old }
        ensures window { IsWindow self.new }
        ensures slots { length self.new.slots.items ≡ length self.old.slots.items }
        ensures free { 1 ≤ self.new.start }
    {
        if self.start == 0 {
            self.center();
        }
    }

    /// A free slot behind the list.
    fn make_tail(&mut self)
        requires window { IsWindow self.old }
        requires spare { 2 * length (frames_of self.old) + 2 ≤ length self.old.slots.items }
        ensures frames { frames_of self.new ≡ frames_of self.old }
        ensures window { IsWindow self.new }
        ensures slots { length self.new.slots.items ≡ length self.old.slots.items }
        ensures free { self.new.end < length self.new.slots.items }
    {
        if self.end == self.slots.len() {
            self.center();
        }
    }

    /// Moves the list to the middle of its slots. As it fills no more than half of them, a quarter
    /// is then free at either end, and that many pushes pass before it is moved again.
    fn center(&mut self)
        requires window { IsWindow self.old }
        requires spare { 2 * length (frames_of self.old) + 2 ≤ length self.old.slots.items }
        ensures frames { frames_of self.new ≡ frames_of self.old }
        ensures window { IsWindow self.new }
        ensures slots { length self.new.slots.items ≡ length self.old.slots.items }
        ensures before { 1 ≤ self.new.start }
        ensures behind { self.new.end < length self.new.slots.items }
    {
        let len = self.end - self.start;
        let start = (self.slots.len() - len) / 2;
        self.slots.copy_within(self.start..self.end, start);
        self.start = start;
        self.end = start + len;
    }

    /// Takes the frame at a place out.
    fn close_gap(&mut self, place: usize)
        requires window { IsWindow self.old }
        requires there { place < length (frames_of self.old) }
        ensures frames { frames_of self.new ≡ remove (frames_of self.old) place }
        ensures window { IsWindow self.new }
        ensures slots { length self.new.slots.items ≡ length self.old.slots.items }
    {
        let gap = self.start + place;
        self.slots.copy_within(gap + 1..self.end, gap);
        self.end -= 1;
    }
}

/// The first place of a frame.
fn place_of(frames: &[u16], frame: u16) -> Option<usize>
    ensures { MatchOption result (All (λ other. other ≢ frame) frames.now) (λ place. (place < length frames.now) × (slice_index frames.now place ≡ frame) × AllWithin (λ other. other ≢ frame) frames.now 0 place) }
{
    frames.iter().position(|other| *other == frame)
}

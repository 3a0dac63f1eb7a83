//! `slab->freelist`: the slabs' own freelists, which stand in one room (profile).

ghost use Rattle.std.specs.Prelude.{◌≡◌, ◌+◌, ◌<◌, ◌≤◌, ◌==◌, ◌++◌, [], ◌∷◌, length, replicate, take, drop, reverse, slice_get, slice_index_or, slice_set, IfOk};

use slub_common::no_memory::NoMemory;
use slub_lists::lists::FreeList;
use slub_words::memory::store_up_to;
use std::alloc::Global;
use std::marker::Model;

/// A frame has places for so many objects.
const PLACES: usize = 512;

/// The slabs' own freelists, by frame: the free objects of the slab whose run begins there, as indexes,
/// front first.
///
/// The room for all is taken when they are made: no later call takes memory. Each frame has 512 places in
/// it, and its list stands in the first of them back to front, so that the front comes and goes at the end.
/// The places behind the last one that was ever used are not stored yet, so a machine touches the room only
/// as far as its slabs reach.
#[derive(Debug, Drop)]
pub struct OwnLists {
    /// The places up to the last one that was ever used.
    room: Vec<u16>,
    /// By frame: how many of its places are used.
    counts: Vec<u16>,
}

impl Model for OwnLists {
    ghost use Rattle.std.specs.Prelude.{ℕ, List, vec_capacity};
    ghost use Rattle.slub_list_machine.specs.Places.{IsStored, own_lists};

    ghost Value = { List (List ℕ) };

    ghost view = { λ l. own_lists l.room.items l.counts.items };

    ghost invariant = { λ l. IsStored l.room.items l.counts.items (vec_capacity l.room) };
}

impl OwnLists {
    /// So many empty lists.
    pub fn open(alloc: Global, frames: usize) -> Result<OwnLists, NoMemory>
        requires { frames ≤ 4096 }
        ensures { IfOk result (λ lists. lists ≡ replicate frames []) }
    {
        Ok(OwnLists {
            room: Vec::with_capacity(alloc, PLACES * frames)?,
            counts: zeros(alloc, frames)?,
        })
    }

    /// How many objects a list has, at most 512.
    pub fn len_of(&self, frame: u16) -> usize
        ensures value { result ≡ length (slice_index_or self.now frame []) }
        ensures room { result ≤ 512 }
    {
        count_at(&self.counts, frame) as usize
    }

    pub fn is_empty_at(&self, frame: u16) -> bool
        ensures value { result ≡ (length (slice_index_or self.now frame []) == 0) }
    {
        self.len_of(frame) == 0
    }

    /// The object at this place of a list, counted from the front, if there is one.
    pub fn get(&self, frame: u16, at: usize) -> Option<u16>
        ensures { result ≡ slice_get (slice_index_or self.now frame []) at }
    {
        let count = self.len_of(frame);
        if at < count {
            place_at(&self.room, PLACES * frame as usize + (count - 1 - at))
        } else {
            None
        }
    }

    /// Puts an object before the others of a list.
    pub fn push(&mut self, frame: u16, item: u16)
        requires frame { frame < length self.old }
        requires room { length (slice_index_or self.old frame []) < 512 }
        ensures { self.new ≡ slice_set self.old frame (item ∷ slice_index_or self.old frame []) }
    {
        let count = self.len_of(frame);
        let at = PLACES * frame as usize + count;
        store_up_to(&mut self.room, at + 1, 0);
        self.room[at] = item;
        self.counts[frame as usize] = (count + 1) as u16;
    }

    /// Takes all out of a list.
    pub fn clear(&mut self, frame: u16)
        requires { frame < length self.old }
        ensures { self.new ≡ slice_set self.old frame [] }
    {
        self.counts[frame as usize] = 0;
    }

    /// Turns a list around: the last object is at the front then.
    pub fn turn(&mut self, frame: u16)
        requires { frame < length self.old }
        ensures { self.new ≡ slice_set self.old frame (reverse (slice_index_or self.old frame [])) }
    {
        let count = self.len_of(frame);
        if count > 0 {
            reverse_part(&mut self.room, PLACES * frame as usize, count);
        }
    }

    /// Puts those of a CPU's list before a list, in their order, and leaves the CPU's empty.
    pub fn take_before(&mut self, frame: u16, front: &mut FreeList)
        requires frame { frame < length self.old }
        requires room { length front.old + length (slice_index_or self.old frame []) ≤ 512 }
        ensures joined { self.new ≡ slice_set self.old frame (front.old ++ slice_index_or self.old frame []) }
        ensures emptied { front.new ≡ [] }
    {
        for at in (0..front.len()).rev() {
            if let Some(item) = front.get(at) {
                self.push(frame, item);
            }
        }
        front.clear();
    }

    /// Takes all out of a list, in their order, into a CPU's list, which is empty.
    pub fn move_to(&mut self, frame: u16, free: &mut FreeList)
        requires frame { frame < length self.old }
        requires empty { free.old ≡ [] }
        ensures moved { free.new ≡ slice_index_or self.old frame [] }
        ensures emptied { self.new ≡ slice_set self.old frame [] }
    {
        for at in 0..self.len_of(frame) {
            if let Some(item) = self.get(frame, at) {
                free.push_back(item);
            }
        }
        self.clear(frame);
    }
}

/// So many counts that are 0.
fn zeros(alloc: Global, count: usize) -> Result<Vec<u16>, NoMemory>
    requires { count ≤ 4096 }
    ensures { IfOk result (λ counts. counts.items ≡ replicate count 0) }
{
    Ok(vec![in alloc; 0; count]?)
}

/// The count of a frame; 0 where there is none.
fn count_at(counts: &[u16], frame: u16) -> u16
    ensures { result ≡ slice_index_or counts.now frame 0 }
{
    counts.get(frame as usize).copied().unwrap_or(0)
}

/// What stands at a place, if it is stored.
fn place_at(room: &[u16], place: usize) -> Option<u16>
    ensures { result ≡ slice_get room.now place }
{
    room.get(place).copied()
}

/// Turns a part of a room around.
fn reverse_part(room: &mut [u16], first: usize, count: usize)
    requires { first + count ≤ length room.old }
    ensures { room.new ≡ take first room.old ++ reverse (take count (drop first room.old)) ++ drop (first + count) room.old }
{
    room[first..first + count].reverse();
}

//! A node's partial list (`struct kmem_cache_node`): the slabs of a cache that are on no CPU and have
//! free objects, by their first frames, head first.
//!
//! A `NodeList` owns its frames and has a room, which is taken when it is opened: no later call takes
//! memory. The list is one piece of a longer row of slots (`window`), so that a push or a pop at
//! either end moves no other frame, but now and then the whole list to the middle of its slots.
//!
//! Contracts see a list as a `PartialList`: its frames and its room. `IsTakenOut` of
//! `specs/PartialList.antt` says what a removal leaves, and `IsPromoted` of `specs/Promotion.antt`
//! the order in which shrinking leaves the list. `laws` has what follows: each of the two leaves one
//! list, and no slab is added or lost.
//!
//! # What it promises
//!
//! Each call is the plain list operation; `promote` leaves the one order that `IsPromoted`
//! describes. `laws`: a removal and a promotion leave one list, and lose no slab.
#![tactic(auto)]

ghost use Rattle.std.specs.Prelude.{◌≡◌, ◌<◌, ◌↔◌, [], ◌∷◌, ◌++◌, length, IfOk, MatchOption, IsTrue, IsFalse, Contains};
ghost use Rattle.slub_node_partial.specs.PartialList.{opening, IsWithinRoom, IsTakenOut};
ghost use Rattle.slub_node_partial.specs.Promotion.{IsPromoted};

pub mod laws;
pub mod promotion;
mod window;

use crate::promotion::Slab;
use crate::window::Window;
use slub_common::no_memory::NoMemory;
use std::alloc::Global;
use std::marker::Model;

/// The partial list of a node.
#[derive(Debug, Drop)]
pub struct NodeList {
    room: u32,
    window: Window,
    /// Room for the slabs of the list while they are put in order.
    slabs: Vec<Slab>,
}

impl Model for NodeList {
    ghost use Rattle.std.specs.Prelude.{◌≡◌, ◌*◌, ◌^◌, ◌<◌, ◌≤◌, length, vec_capacity};
    ghost use Rattle.slub_node_partial.specs.PartialList.{PartialList};
    ghost use Rattle.slub_node_partial.specs.Window.{frames_of, IsWindow};

    ghost Value = { PartialList };

    ghost view = { λ l. record { frames = frames_of l.window; room = l.room } };

    ghost invariant = { λ l. (l.room < 2 ^ 32) × IsWindow l.window × (length l.window.slots.items ≡ 2 * l.room) × (l.room ≤ vec_capacity l.slabs) };
}

impl NodeList {
    /// An empty list with room for so many slabs. No later call takes memory.
    pub fn open(alloc: Global, room: u32) -> Result<NodeList, NoMemory>
        ensures { IfOk result (λ list. list ≡ opening room) }
    {
        let window = Window::open(alloc, room as usize)?;
        let slabs = Vec::with_capacity(alloc, room as usize)?;
        Ok(NodeList {
            room,
            window,
            slabs,
        })
    }

    /// Puts a slab at the head (`add_partial` with `DEACTIVATE_TO_HEAD`).
    pub fn push_head(&mut self, frame: u16)
        requires { length self.old.frames < self.old.room }
        ensures frames { self.new.frames ≡ frame ∷ self.old.frames }
        ensures room { self.new.room ≡ self.old.room }
        ensures within { IsWithinRoom self.new }
    {
        self.window.push_head(frame);
    }

    /// Puts a slab at the tail (`add_partial` with `DEACTIVATE_TO_TAIL`).
    pub fn push_tail(&mut self, frame: u16)
        requires { length self.old.frames < self.old.room }
        ensures frames { self.new.frames ≡ self.old.frames ++ frame ∷ [] }
        ensures room { self.new.room ≡ self.old.room }
        ensures within { IsWithinRoom self.new }
    {
        self.window.push_tail(frame);
    }

    /// Takes the slab at the head (`get_partial_node`). None comes exactly where the list is empty.
    pub fn pop(&mut self) -> Option<u16>
        ensures popped { MatchOption result ((self.old.frames ≡ []) × (self.new.frames ≡ [])) (λ frame. self.old.frames ≡ frame ∷ self.new.frames) }
        ensures room { self.new.room ≡ self.old.room }
        ensures within { IsWithinRoom self.new }
    {
        self.window.pop()
    }

    /// Takes a slab off the list, wherever it stands (`remove_partial`), and says whether it was
    /// there. Of equal frames it takes the first; the others keep their order.
    pub fn remove(&mut self, frame: u16) -> bool
        ensures there { IsTrue result ↔ Contains self.old.frames frame }
        ensures taken { IsTrue result → IsTakenOut self.old.frames frame self.new.frames }
        ensures kept { IsFalse result → self.new.frames ≡ self.old.frames }
        ensures room { self.new.room ≡ self.old.room }
        ensures within { IsWithinRoom self.new }
    {
        self.window.remove(frame)
    }

    /// Puts the list into the order in which shrinking leaves it (`__kmem_cache_do_shrink`): slabs
    /// with 1 to 32 free objects come first, the fewest first and, among equals, in the reverse of
    /// their order; the others follow in their order. `free[i]` is how many objects of the i-th slab
    /// are free. A slab without free objects stays behind (*profile*: Linux has none on this list).
    pub fn promote(&mut self, free: &[u16])
        requires { length free.now ≡ length self.old.frames }
        ensures promoted { IsPromoted self.old.frames free.now self.new.frames }
        ensures room { self.new.room ≡ self.old.room }
        ensures within { IsWithinRoom self.new }
    {
        self.window.promote(free, &mut self.slabs);
    }

    /// How many slabs stand on the list (`nr_partial`).
    pub fn len(&self) -> u32
        ensures count { result ≡ length self.now.frames }
        ensures within { IsWithinRoom self.now }
    {
        self.window.frames().len() as u32
    }

    /// The slabs' first frames, head first.
    pub fn frames(&self) -> &[u16]
        ensures frames { result.now ≡ self.now.frames }
        ensures within { IsWithinRoom self.now }
    {
        self.window.frames()
    }
}

//! The machine's page frames, given out in runs and taken back.
//!
//! A `Pool` owns the set of free frames and a count for each order. It gives runs of 2^order frames
//! that start at a multiple of 2^order, and takes them back, as the buddy allocator does for the
//! slab allocator of Linux 6.1 (`mm/page_alloc.c`). Which run it gives is *profile*: the front of
//! the least sufficient block, and of the lowest such block.
//!
//! Contracts see a pool as a `FreeFrames` and cite the definitions of `specs/Block.antt`: `IsBlock`,
//! `IsTaken`, `Takes`, `TakesOrNotes`, `CanPut` and `Puts`. `history::keeps_frames` states what
//! holds over any number of calls, by `specs/History.antt`. Inside, `marks` has a mark for each
//! frame, and `tree` over them finds a block in a few steps.
//!
//! # What it promises
//!
//! `Pool::take` gives the front of the lowest block of the least sufficient order, and None exactly
//! where no such block exists; `take_or_note` counts each None; `put` gives a run back.
//! `history::keeps_frames` and its neighbours: over every list of calls the frames out and the free
//! frames are a partition of 1 to F - 1, and a pool that got everything back is as it was opened.
#![tactic(auto)]

ghost use Rattle.std.specs.Prelude.{◌≡◌, ◌+◌, ◌-◌, ◌^◌, ◌<◌, ◌≤◌, ◌↔◌, length, take, drop, IfOk, IfSome, IsTrue, Contains, slice_index};
ghost use Rattle.slub_page_pool.specs.FreeFrames.{opening, IsPool};
ghost use Rattle.slub_page_pool.specs.Block.{Takes, TakesOrNotes, CanPut, Puts};

pub mod history;
mod marks;
mod tree;

use slub_common::no_memory::NoMemory;
use std::alloc::Global;
use std::marker::Model;

/// The greatest order of a run: 2^10 frames (`MAX_ORDER - 1` in Linux 6.1).
pub const MAX_ORDER: u32 = 10;

/// The free page frames of a machine, of 4096 bytes each.
#[derive(Debug, Drop)]
pub struct Pool {
    /// For each frame whether it is free.
    marks: Vec<bool>,
    /// The tree of runs over the marks.
    orders: Vec<u16>,
    /// For each order how often `take_or_note` found no block.
    dry: [u64; 11],
}

impl Model for Pool {
    ghost use Rattle.std.specs.Prelude.{length};
    ghost use Rattle.slub_page_pool.specs.FreeFrames.{FreeFrames};
    ghost use Rattle.slub_page_pool.specs.Marks.{free_of};
    ghost use Rattle.slub_page_pool.specs.Orders.{IsKept};

    ghost Value = { FreeFrames };

    ghost view = { λ p. record { frames = length p.marks.items; free = free_of p.marks.items; dry = p.dry } };

    ghost invariant = { λ p. IsKept p.marks.items p.orders.items p.dry };
}

impl Pool {
    /// The pool of a machine of 2 to 4096 frames (*profile*), all of them free but frame 0. No later
    /// call takes memory.
    pub fn open(alloc: Global, frames: u32) -> Result<Pool, NoMemory>
        requires least { 2 ≤ frames }
        requires most { frames ≤ 4096 }
        ensures opened { IfOk result (λ p. p ≡ opening frames) }
        ensures pool { IfOk result IsPool }
    {
        let mut marks = vec![in alloc; true; frames as usize]?;
        marks[0] = false;
        let mut orders = vec![in alloc; 0; tree::NODES]?;
        tree::refresh(&mut orders, &marks, 0, frames as usize - 1);
        Ok(Pool {
            marks,
            orders,
            dry: [0; 11],
        })
    }

    /// Takes 2^order frames (`alloc_pages`) and answers with the first of them: the front of the
    /// least block that is large enough (`__rmqueue_smallest`), and of the lowest such block where
    /// there are several (*profile*). None comes exactly where no block is large enough, and then
    /// nothing changes.
    pub fn take(&mut self, order: u32) -> Option<u32>
        requires { order ≤ 10 }
        ensures takes { Takes self.old order result self.new }
        ensures inside { IfSome result (λ frame. (1 ≤ frame) × (frame + 2 ^ order ≤ self.old.frames)) }
        ensures pool { IsPool self.new }
    {
        let frame = tree::least_block(&self.marks, &self.orders, order)?;
        tree::set_run(&mut self.marks, &mut self.orders, frame, order, false);
        Some(frame as u32)
    }

    /// As `take`, and a None raises the count of its order by one, up to 2^64 - 1. The counts are
    /// *profile*: they stand for the warnings of `slab_out_of_memory` in `mm/slub.c`.
    pub fn take_or_note(&mut self, order: u32) -> Option<u32>
        requires { order ≤ 10 }
        ensures takes { TakesOrNotes self.old order result self.new }
        ensures inside { IfSome result (λ frame. (1 ≤ frame) × (frame + 2 ^ order ≤ self.old.frames)) }
        ensures pool { IsPool self.new }
    {
        let taken = self.take(order);
        if taken.is_none() {
            self.dry[order as usize] = self.dry[order as usize].saturating_add(1);
        }
        taken
    }

    /// Takes back the 2^order frames from `frame` on (`__free_pages`). None of them is free.
    pub fn put(&mut self, frame: u32, order: u32)
        requires { CanPut self.old frame order }
        ensures puts { Puts self.old frame order self.new }
        ensures pool { IsPool self.new }
    {
        let frame = frame as usize;
        tree::set_run(&mut self.marks, &mut self.orders, frame, order, true);
    }

    /// How many frames are free.
    pub fn free_frames(&self) -> u32
        ensures count { result ≡ length self.now.free }
        ensures pool { IsPool self.now }
    {
        marks::count(&self.marks) as u32
    }

    /// How often `take_or_note` of this order found no block.
    pub fn dry(&self, order: u32) -> u64
        requires { order ≤ 10 }
        ensures count { result ≡ slice_index self.now.dry order }
        ensures pool { IsPool self.now }
    {
        self.dry[order as usize]
    }

    /// How many frames the machine has, free or not.
    pub fn frames(&self) -> u32
        ensures count { result ≡ self.now.frames }
        ensures pool { IsPool self.now }
    {
        self.marks.len() as u32
    }

    /// Whether a frame is free. It is not where the machine has no such frame.
    pub fn is_free(&self, frame: u32) -> bool
        ensures free { IsTrue result ↔ Contains self.now.free frame }
        ensures pool { IsPool self.now }
    {
        (frame as usize) < self.marks.len() && self.marks[frame as usize]
    }

    /// Writes the free frames, in rising order, at the front of `out`. It takes no memory.
    pub fn write_free(&self, out: &mut [u16])
        requires { length self.now.free ≤ length out.old }
        ensures free { take (length self.now.free) out.new ≡ self.now.free }
        ensures rest { drop (length self.now.free) out.new ≡ drop (length self.now.free) out.old }
        ensures pool { IsPool self.now }
    {
        marks::write_marked(&self.marks, out);
    }
}

//! `alloc_single_from_partial`, `alloc_single_from_new_slab`, `free_debug_processing`: allocating
//! from a checked cache and freeing to it.

ghost use Rattle.std.specs.Prelude.{◌≡◌, ◌<◌, ◌≤◌, ◌^◌, length, IsSome, MatchOption, None, Some, slice_index_or, slice_set};
ghost use Rattle.slub_object_layout.specs.Layout.{address_of, IsSized};
ghost use Rattle.slub_page_pool.specs.Block.{CanPut, with_run};
ghost use Rattle.slub_page_pool.specs.FreeFrames.{IsPool};
ghost use Rattle.slub_red_zone.specs.State.{Has, IsUsed};
ghost use Rattle.slub_lists.specs.Alloc.{checked_of, with_held, HasLayout, IsLive};
ghost use Rattle.slub_lists.specs.Checked.{AllocatesChecked, AllocatesNewChecked, FreesChecked, kept_by, put_back};
ghost use Rattle.slub_lists.specs.CheckedSteps.{DiscardsSpare, FindsRunIn, GivesIn, GivesNewIn, TakesBackIn, TakesEmptyIn, run_of, slab_of_run};
ghost use Rattle.slub_lists.specs.Coherent.{IsConsistent};
ghost use Rattle.slub_lists.specs.Steps.{KeepsFound};

use crate::alloc::find_run;
use crate::lists::Lists;
use slub_common::no_memory::NoMemory;
use slub_lists::lists::{Held, Run, Slab};
use slub_object_layout::layout::{Layout, address};
use slub_red_zone::checked::{self, CheckedGive, Slot};
use slub_trace::damage::Damage;
use slub_trace::reply::Reply;

impl Lists {
    /// Allocates an object of a checked cache (`alloc_debug_processing`): one of a listed slab, else
    /// the first of a new slab.
    pub(crate) fn alloc_checked(
        &mut self,
        cache: u8,
        worker: u8,
        object: u32,
        layout: &Layout,
    ) -> Reply
        requires consistent { IsConsistent self.old }
        requires live { HasLayout self.old cache layout.now }
        requires checked { IsSome (checked_of self.old cache) }
        requires object { (1 ≤ object) × (object < length self.old.board) }
        requires unused { slice_index_or self.old.board object None ≡ None }
        ensures allocates { MatchOption (checked_of self.old cache) ⊥ (λ slabs. AllocatesChecked self.old layout.now cache slabs worker object result self.new) }
        ensures found { KeepsFound self.old self.new }
        ensures consistent { IsConsistent self.new }
    {
        match self.give_in(cache) {
            CheckedGive::Given(slot) => {
                Reply::Given(self.hold(cache, worker, object, slot, layout))
            }
            CheckedGive::Empty => self.alloc_new_checked(cache, worker, object, layout),
        }
    }

    /// Allocates the first object of a new checked slab (`alloc_single_from_new_slab`). Where no
    /// memory is there for it, its run is put back.
    fn alloc_new_checked(&mut self, cache: u8, worker: u8, object: u32, layout: &Layout) -> Reply
        requires consistent { IsConsistent self.old }
        requires live { HasLayout self.old cache layout.now }
        requires checked { IsSome (checked_of self.old cache) }
        requires object { (1 ≤ object) × (object < length self.old.board) }
        requires unused { slice_index_or self.old.board object None ≡ None }
        ensures allocates { MatchOption (checked_of self.old cache) ⊥ (λ slabs. AllocatesNewChecked self.old layout.now cache slabs worker object result self.new) }
        ensures found { KeepsFound self.old self.new }
        ensures consistent { IsConsistent self.new }
    {
        let Some(run) = self.find_run_in(layout) else {
            return Reply::NoFrames;
        };
        match self.give_new_in(cache, &run) {
            Ok(slot) => {
                self.enter(cache, &run);
                Reply::Given(self.hold(cache, worker, object, slot, layout))
            }
            Err(_) => {
                self.put_run(&run);
                Reply::NoMemory
            }
        }
    }

    /// Looks for a run of frames for a slab.
    fn find_run_in(&mut self, layout: &Layout) -> Option<Run>
        requires pool { IsPool self.old.pool }
        requires layout { IsLive layout.now }
        ensures { FindsRunIn self.old layout.now result self.new }
    {
        find_run(&mut self.pool, layout)
    }

    /// Enters the slab of a run, which no CPU owns.
    fn enter(&mut self, cache: u8, run: &Run)
        requires { run.now.frame < length self.old.slabs }
        ensures { self.new ≡ record self.old { slabs = slice_set self.old.slabs run.now.frame (Some (slab_of_run cache run.now)) } }
    {
        self.slabs[run.frame as usize] = Some(Slab {
            cache,
            order: run.order,
            objects: run.objects,
            frozen: false,
        });
    }

    /// Puts a run back.
    fn put_run(&mut self, run: &Run)
        requires { CanPut self.old.pool run.now.frame run.now.order }
        ensures put { self.new ≡ record self.old { pool = put_back self.old.pool run.now } }
        ensures pool { IsPool self.new.pool }
    {
        self.pool.put(u32::from(run.frame), run.order);
    }

    /// Puts an object on the board, for a worker, and says its address.
    fn hold(&mut self, cache: u8, worker: u8, object: u32, slot: Slot, layout: &Layout) -> u32
        requires object { object < length self.old.board }
        requires cache { cache < length self.old.live }
        requires room { slice_index_or self.old.live cache 0 ≤ 2 ^ 32 }
        requires inside { (slot.frame < 4096) × (slot.index < layout.now.objects) }
        requires layout { IsLive layout.now }
        ensures address { result ≡ address_of slot.frame slot.index layout.now }
        ensures held { self.new ≡ with_held self.old object (record { frame = slot.frame; index = slot.index; cache = cache; worker = Some worker }) }
    {
        self.board[object as usize] = Some(Held {
            frame: slot.frame,
            index: slot.index,
            cache,
            worker: Some(worker),
        });
        self.live[cache as usize] += 1;
        address(u32::from(slot.frame), u32::from(slot.index), layout)
    }

    /// Frees an object of a checked cache (`free_debug_processing`). Where it is found damaged the
    /// worker holds it.
    pub(crate) fn free_checked(
        &mut self,
        worker: u8,
        object: u32,
        held: &Held,
        layout: &Layout,
    ) -> Reply
        requires consistent { IsConsistent self.old }
        requires held { slice_index_or self.old.board object None ≡ Some held.now }
        requires live { HasLayout self.old held.now.cache layout.now }
        requires checked { IsSome (checked_of self.old held.now.cache) }
        ensures frees { MatchOption (checked_of self.old held.now.cache) ⊥ (λ slabs. FreesChecked self.old layout.now slabs worker object held.now result self.new) }
        ensures found { KeepsFound self.old self.new }
        ensures consistent { IsConsistent self.new }
    {
        let slot = Slot {
            frame: held.frame,
            index: held.index,
        };
        match self.take_back_in(held.cache, slot) {
            Err(damage) => {
                self.keep(worker, object, held);
                Reply::Corrupt(damage)
            }
            Ok(()) => {
                self.take_off(object, held.cache);
                self.discard_spare(held.cache, held.frame, layout.min_partial);
                self.note_gone(worker, object, held);
                Reply::Freed(address(u32::from(held.frame), u32::from(held.index), layout))
            }
        }
    }

    /// Leaves an object on the board, for a worker.
    fn keep(&mut self, worker: u8, object: u32, held: &Held)
        requires { object < length self.old.board }
        ensures { self.new ≡ kept_by self.old object worker held.now }
    {
        let kept = Held {
            worker: Some(worker),
            ..*held
        };
        self.board[object as usize] = Some(kept);
    }

    /// A checked slab goes, where all of it is free and so many slabs are listed
    /// (`free_debug_processing`).
    pub(crate) fn discard_spare(&mut self, cache: u8, frame: u16, min_partial: u32)
        requires consistent { IsConsistent self.old }
        requires slab { MatchOption (checked_of self.old cache) ⊥ (λ slabs. Has slabs frame) }
        ensures discards { DiscardsSpare self.old cache frame min_partial self.new }
        ensures consistent { IsConsistent self.new }
    {
        match self.take_empty_in(cache, frame, min_partial) {
            Some(run) => self.take_out(frame, run.order),
            None => {}
        }
    }

    /// Takes a slab out, and puts its run back.
    fn take_out(&mut self, frame: u16, order: u32)
        requires slab { frame < length self.old.slabs }
        requires run { CanPut self.old.pool frame order }
        ensures out { self.new ≡ record self.old { pool = record self.old.pool { free = with_run self.old.pool.free frame order }; slabs = slice_set self.old.slabs frame None } }
        ensures pool { IsPool self.new.pool }
    {
        self.pool.put(u32::from(frame), order);
        self.slabs[frame as usize] = None;
    }

    /// Asks the listed slabs of a checked cache for an object.
    fn give_in(&mut self, cache: u8) -> CheckedGive
        requires { IsSome (checked_of self.old cache) }
        ensures { GivesIn self.old cache result self.new }
    {
        let slabs = &mut self.checked[cache as usize];
        match slabs {
            Some(slabs) => slabs.give(),
            None => unreachable!(),
        }
    }

    /// Makes a slab of a checked cache, and gives its first object.
    fn give_new_in(&mut self, cache: u8, run: &Run) -> Result<Slot, NoMemory>
        requires frame { (1 ≤ run.now.frame) × (run.now.frame < 4096) }
        requires slab { MatchOption (checked_of self.old cache) ⊥ (λ slabs. (¬ Has slabs run.now.frame) × IsSized slabs.layout run.now.order run.now.objects) }
        ensures { GivesNewIn self.old cache run.now result self.new }
    {
        let slabs = &mut self.checked[cache as usize];
        match slabs {
            Some(slabs) => slabs.give_new(run_of(run), run.objects),
            None => unreachable!(),
        }
    }

    /// Takes an object of a checked cache back, or finds it damaged.
    fn take_back_in(&mut self, cache: u8, slot: Slot) -> Result<(), Damage>
        requires { MatchOption (checked_of self.old cache) ⊥ (λ slabs. IsUsed slabs slot) }
        ensures { TakesBackIn self.old cache slot result self.new }
    {
        let slabs = &mut self.checked[cache as usize];
        match slabs {
            Some(slabs) => slabs.take_back(slot),
            None => unreachable!(),
        }
    }

    /// Takes a slab of a checked cache out, where all of it is free and so many slabs are listed.
    fn take_empty_in(&mut self, cache: u8, frame: u16, limit: u32) -> Option<checked::Run>
        requires { MatchOption (checked_of self.old cache) ⊥ (λ slabs. Has slabs frame) }
        ensures { TakesEmptyIn self.old cache frame limit result self.new }
    {
        let slabs = &mut self.checked[cache as usize];
        match slabs {
            Some(slabs) => slabs.take_empty(frame, limit),
            None => unreachable!(),
        }
    }
}

/// The run of a slab, as the slabs of a checked cache have it.
fn run_of(run: &Run) -> checked::Run
    ensures { result ≡ run_of run.now }
{
    checked::Run {
        frame: u32::from(run.frame),
        order: run.order,
    }
}

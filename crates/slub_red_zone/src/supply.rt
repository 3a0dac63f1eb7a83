//! Slabs that come and go.

ghost use Rattle.std.specs.Prelude.{◌≡◌, ◌+◌, ◌^◌, ◌<◌, ◌≤◌, IfOk, OnOk, OnErr, OnSome, vec_capacity};
ghost use Rattle.slub_red_zone.specs.State.{Has};
ghost use Rattle.slub_red_zone.specs.Sound.{IsSound};
ghost use Rattle.slub_object_layout.specs.Layout.{IsSized};
ghost use Rattle.slub_red_zone.specs.Steps as step;
ghost use Rattle.slub_red_zone.specs.Objects.{AddsSlab, AddsGivenSlab, TakesSlab};

use crate::checked::{CheckedSlabs, Run, Slot};
use crate::slab::Slab;
use crate::slabs;
use slub_common::no_memory::NoMemory;
use slub_trace::damage::Report;
use std::alloc::AllocError;

impl CheckedSlabs {
    /// Adds a new slab, at the head of the listed slabs (`new_slab`): every object is set up as free,
    /// in rising order (`setup_slab_debug`, `init_object`).
    ///
    /// The run begins at frame 1 to 4095, where no slab begins yet. Its order and the number of
    /// objects are the layout's, or its least ones. All memory, that for one report per object
    /// included, is taken first: after an error nothing has changed.
    pub fn add_slab(&mut self, run: Run, objects: u32) -> Result<(), NoMemory>
        requires new { ¬ Has self.old run.frame }
        requires frame { (1 ≤ run.frame) × (run.frame < 4096) }
        requires sized { IsSized self.old.layout run.order objects }
        ensures added { OnOk result (self.new ≡ step.with_new_slab self.old run objects) }
        ensures slab { OnOk result (AddsSlab self.old run objects self.new) }
        ensures kept { OnErr result (self.new ≡ self.old) }
        ensures sound { IsSound self.new }
    {
        let totals = self.totals;
        let room = (totals.free + totals.used + totals.aside + objects) as usize;
        reserve(&mut self.reports, room)?;
        let alloc = *self.slabs.allocator();
        let slab = Slab::open(alloc, &self.layout, &self.flags, run.order, objects)?;
        self.slabs[run.frame as usize] = Some(slab);
        self.listed.push_head(run.frame as u16);
        self.totals.free += objects;
        self.totals.slabs += 1;
        Ok(())
    }

    /// Adds a new slab as `add_slab` does, and gives its first object (`new_slab`,
    /// `alloc_single_from_new_slab`). A new slab is whole, so the object isn't examined. After an error
    /// nothing has changed.
    pub fn give_new(&mut self, run: Run, objects: u32) -> Result<Slot, NoMemory>
        requires new { ¬ Has self.old run.frame }
        requires frame { (1 ≤ run.frame) × (run.frame < 4096) }
        requires sized { IsSized self.old.layout run.order objects }
        ensures gives { step.GivesNew self.old run objects result self.new }
        ensures slab { IfOk result (λ slot. AddsGivenSlab self.old run objects slot self.new) }
        ensures sound { IsSound self.new }
    {
        self.add_slab(run, objects)?;
        let slot = Slot {
            frame: run.frame as u16,
            index: 0,
        };
        self.give_next(slot);
        Ok(slot)
    }

    /// Takes a slab out where all its objects are free and at least `limit` slabs are listed, this one
    /// counted, and answers with its run; else None, and nothing changes (the discard of
    /// `free_debug_processing`).
    pub fn take_empty(&mut self, frame: u16, limit: u32) -> Option<Run>
        requires { Has self.old frame }
        ensures taken { step.TakesEmpty self.old frame limit result self.new }
        ensures slab { OnSome result (TakesSlab self.old frame self.new) }
        ensures sound { IsSound self.new }
    {
        let slab = slabs::slab_of(&self.slabs, frame)?;
        let objects = slab.objects();
        if slab.free().len() < objects || self.listed.len() < limit {
            return None;
        }
        let order = slab.order();
        self.slabs[frame as usize] = None;
        self.listed.remove(frame);
        self.totals.free -= objects as u32;
        self.totals.slabs -= 1;
        Some(Run {
            frame: frame as u32,
            order,
        })
    }
}

/// Takes memory for so many reports in all.
fn reserve(reports: &mut Vec<Report>, room: usize) -> Result<(), AllocError>
    requires { room < 2 ^ 32 }
    ensures items { reports.new.items ≡ reports.old.items }
    ensures kept { vec_capacity reports.old ≤ vec_capacity reports.new }
    ensures room { OnOk result (room ≤ vec_capacity reports.new) }
{
    let more = room.saturating_sub(reports.len());
    reports.reserve(more)?;
    Ok(())
}

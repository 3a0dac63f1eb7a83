//! The slabs of a checked cache.

ghost use Rattle.std.specs.Prelude.{◌≡◌, ◌+◌, ◌*◌, ◌<◌, ◌↔◌, [], IsTrue, IfOk, None, Some, Ok, MatchOption};
ghost use Rattle.slub_object_layout.specs.Layout.{is_checked};
ghost use Rattle.slub_node_partial.specs.Promotion.{IsPromoted};
ghost use Rattle.slub_red_zone.specs.State.{Has, IsUsed, slab_of, state_of, objects_in, aside_in, free_count, used_count, aside_count, slab_count};
ghost use Rattle.slub_red_zone.specs.Sound.{IsSound, IsLayoutFor};
ghost use Rattle.slub_red_zone.specs.Steps as step;
ghost use Rattle.slub_red_zone.specs.Objects.{GivesObject, TakesObject, KeepsObjects};

use crate::slab::{ObjectState, Slab};
use crate::totals::Totals;
use crate::{slabs, zones};
use slub_common::limits::FRAMES_MAX;
use slub_common::no_memory::NoMemory;
use slub_node_partial::NodeList;
use slub_object_layout::layout::{self, Flags, Layout};
use slub_trace::damage::{Damage, Report};
use std::alloc::Global;
use std::marker::Model;

/// An object's place: the first frame of its slab, and its index there.
#[derive(Clone, Copy, Debug, PartialEq, Eq)]
pub struct Slot {
    pub frame: u16,
    pub index: u16,
}

/// A run of 2^order page frames.
#[derive(Clone, Copy, Debug, PartialEq, Eq)]
pub struct Run {
    pub frame: u32,
    pub order: u32,
}

/// What `give` answers.
#[derive(Clone, Copy, Debug, PartialEq, Eq)]
pub enum CheckedGive {
    Given(Slot),
    /// No slab has a free object.
    Empty,
}

/// The offset lies outside the object's slot.
#[derive(Clone, Copy, Debug, PartialEq, Eq)]
pub struct OutOfSlot;

/// The slabs of a checked cache: what the lock of its node guards.
///
/// Each object of a slab is free, used, or set aside for good since damage was found in its slab.
#[derive(Debug, Drop)]
pub struct CheckedSlabs {
    pub(crate) layout: Layout,
    pub(crate) flags: Flags,
    cache: u8,
    /// By frame: the slab whose run begins there.
    pub(crate) slabs: Vec<Option<Slab>>,
    /// The slabs with a free object.
    pub(crate) listed: NodeList,
    /// Room for how many objects of each listed slab are free.
    counts: Vec<u16>,
    pub(crate) reports: Vec<Report>,
    pub(crate) totals: Totals,
}

impl Model for CheckedSlabs {
    ghost use Rattle.std.specs.Prelude.{vec_capacity};
    ghost use Rattle.slub_red_zone.specs.State.{CheckedState};

    ghost Value = { CheckedState };

    ghost use Rattle.slub_red_zone.specs.Kept.{IsKept};

    ghost view = { λ c. record { layout = c.layout; flags = c.flags; cache = c.cache; slabs = c.slabs.items; listed = c.listed.frames; reports = c.reports.items } };

    ghost invariant = { λ c. IsKept (record { layout = c.layout; flags = c.flags; cache = c.cache; slabs = c.slabs.items; listed = c.listed.frames; reports = c.reports.items }) c.totals c.listed.room (vec_capacity c.counts) (vec_capacity c.reports) };
}

impl CheckedSlabs {
    /// The slabs of cache number `cache`, 0 to 31, with at least one of the flags F, Z and P: none
    /// yet. The layout is the one for a spec with these flags.
    ///
    /// `add_slab` and `give_new` alone take memory after this.
    pub fn open(
        alloc: Global,
        layout: &Layout,
        flags: Flags,
        cache: u8,
    ) -> Result<CheckedSlabs, NoMemory>
        requires cache { cache < 32 }
        requires checked { IsTrue (is_checked flags) }
        requires layout { IsLayoutFor flags layout.now }
        ensures opened { IfOk result (λ slabs. slabs ≡ step.opening layout.now flags cache) }
        ensures sound { IfOk result IsSound }
    {
        Ok(CheckedSlabs {
            layout: *layout,
            flags,
            cache,
            slabs: slabs::open(alloc)?,
            listed: NodeList::open(alloc, FRAMES_MAX)?,
            counts: Vec::with_capacity(alloc, FRAMES_MAX as usize)?,
            reports: Vec::new(alloc),
            totals: Totals {
                free: 0,
                used: 0,
                aside: 0,
                slabs: 0,
            },
        })
    }

    /// Gives an object: the first free object of the first listed slab (`alloc_single_from_partial`).
    ///
    /// With F it is examined first (`alloc_debug_processing`). Where a byte is damaged, the first is
    /// reported, all free objects of that slab are set aside for good, and the next listed slab is
    /// tried. Empty comes exactly where no listed slab is left.
    pub fn give(&mut self) -> CheckedGive
        ensures gives { step.Gives self.old result self.new }
        ensures objects { GivesObject self.old result self.new }
        ensures sound { IsSound self.new }
    {
        while let Some(slot) = self.next() {
            match self.damage_of_free(slot) {
                None => {
                    self.give_next(slot);
                    return CheckedGive::Given(slot);
                }
                Some(damage) => self.set_aside_next(slot, damage),
            }
        }
        CheckedGive::Empty
    }

    /// The first free object of the first listed slab.
    fn next(&self) -> Option<Slot>
        ensures next { MatchOption result (self.now.listed ≡ []) (step.IsNext self.now) }
        ensures sound { IsSound self.now }
    {
        let frame = *self.listed.frames().first()?;
        let slab = slabs::slab_of(&self.slabs, frame)?;
        let index = *slab.free().first()?;
        Some(Slot { frame, index })
    }

    /// The damage for which a free object can't be given (`check_object`).
    fn damage_of_free(&self, slot: Slot) -> Option<Damage>
        requires object { slot.index < objects_in (slab_of self.now slot.frame) }
        ensures damage { result ≡ step.damage_of_free self.now slot }
        ensures sound { IsSound self.now }
    {
        let slab = slabs::slab_of(&self.slabs, slot.frame)?;
        let bytes = slab.slot(&self.layout, slot.index);
        zones::damage_when_given(&self.layout, &self.flags, bytes)
    }

    /// The damage for which a used object can't be taken back (`check_object`).
    fn damage_of_used(&self, slot: Slot) -> Option<Damage>
        requires object { slot.index < objects_in (slab_of self.now slot.frame) }
        ensures damage { result ≡ step.damage_of_used self.now slot }
        ensures sound { IsSound self.now }
    {
        let slab = slabs::slab_of(&self.slabs, slot.frame)?;
        let bytes = slab.slot(&self.layout, slot.index);
        zones::damage_when_taken(&self.layout, &self.flags, bytes)
    }

    /// Sets the next object up as used.
    pub(crate) fn give_next(&mut self, slot: Slot)
        requires next { step.IsNext self.old slot }
        ensures given { self.new ≡ step.with_given self.old slot }
        ensures sound { IsSound self.new }
    {
        slabs::give(
            &mut self.slabs,
            &self.layout,
            &self.flags,
            slot.frame,
            slot.index,
        );
        let free = slabs::free_in(&self.slabs, slot.frame);
        slabs::unlist_spent(&mut self.listed, free);
        self.totals.used += 1;
        self.totals.free -= 1;
    }

    /// Reports the next object, and sets all free objects of its slab aside (`alloc_debug_processing`).
    fn set_aside_next(&mut self, slot: Slot, damage: Damage)
        requires next { step.IsNext self.old slot }
        ensures { self.new ≡ step.with_damaged self.old slot damage }
    {
        let count = slabs::free_in(&self.slabs, slot.frame) as u32;
        self.reports.push_reserved(Report {
            cache: self.cache,
            address: layout::address(slot.frame as u32, slot.index as u32, &self.layout),
            damage,
        });
        slabs::set_aside(&mut self.slabs, slot.frame);
        slabs::unlist_spent(&mut self.listed, 0);
        self.totals.free -= count;
        self.totals.aside += count;
    }

    /// Takes a used object back (`free_debug_processing`): it is set up as free, and stands before the
    /// other free objects of its slab. A slab that had none is listed at the tail.
    ///
    /// With F the object is examined first. Where a byte is damaged, the answer is the first, and
    /// nothing changes.
    pub fn take_back(&mut self, slot: Slot) -> Result<(), Damage>
        requires used { IsUsed self.old slot }
        ensures taken { step.TakesBack self.old slot result self.new }
        ensures objects { TakesObject self.old slot result self.new }
        ensures sound { IsSound self.new }
    {
        if let Some(damage) = self.damage_of_used(slot) {
            return Err(damage);
        }
        self.put_back(slot);
        Ok(())
    }

    /// Sets a used object up as free.
    fn put_back(&mut self, slot: Slot)
        requires used { IsUsed self.old slot }
        ensures taken { self.new ≡ step.with_taken self.old slot }
        ensures objects { TakesObject self.old slot (Ok tt) self.new }
        ensures sound { IsSound self.new }
    {
        let free = slabs::free_in(&self.slabs, slot.frame);
        slabs::list_first(&mut self.listed, slot.frame, free);
        slabs::take_back(
            &mut self.slabs,
            &self.layout,
            &self.flags,
            slot.frame,
            slot.index,
        );
        self.totals.used -= 1;
        self.totals.free += 1;
    }

    /// Puts the listed slabs into the order in which a shrink leaves them (`__kmem_cache_do_shrink`),
    /// by how many objects of each are free.
    pub fn promote(&mut self)
        ensures promoted { IsPromoted self.old.listed (step.free_counts self.old) self.new.listed }
        ensures rest { self.new ≡ record self.old { listed = self.new.listed } }
        ensures objects { KeepsObjects self.old self.new }
        ensures sound { IsSound self.new }
    {
        slabs::count_free(&self.slabs, self.listed.frames(), &mut self.counts);
        self.listed.promote(&self.counts);
    }

    /// The layout of the slots.
    pub fn layout(&self) -> &Layout
        ensures layout { result.now ≡ self.now.layout }
        ensures sound { IsSound self.now }
    {
        &self.layout
    }

    /// The listed slabs, those with a free object, by their first frames, front first.
    pub fn listed(&self) -> &[u16]
        ensures listed { result.now ≡ self.now.listed }
        ensures sound { IsSound self.now }
    {
        self.listed.frames()
    }

    /// What was found so far, oldest first.
    pub fn reports(&self) -> &[Report]
        ensures reports { result.now ≡ self.now.reports }
        ensures sound { IsSound self.now }
    {
        &self.reports
    }

    /// Whether a slab's run begins at this frame.
    pub fn has(&self, frame: u16) -> bool
        ensures has { IsTrue result ↔ Has self.now frame }
        ensures sound { IsSound self.now }
    {
        slabs::slab_of(&self.slabs, frame).is_some()
    }

    /// What an object is. None where there is no such object.
    pub fn state(&self, slot: Slot) -> Option<ObjectState>
        ensures state { result ≡ state_of self.now slot }
        ensures sound { IsSound self.now }
    {
        slabs::slab_of(&self.slabs, slot.frame)?.state(slot.index)
    }

    /// The free objects of a slab, front first.
    pub fn free_of(&self, frame: u16) -> &[u16]
        requires { Has self.now frame }
        ensures free { result.now ≡ (slab_of self.now frame).free }
        ensures sound { IsSound self.now }
    {
        match slabs::slab_of(&self.slabs, frame) {
            Some(slab) => slab.free(),
            None => &[],
        }
    }

    /// How many objects of a slab are set aside.
    pub fn aside_of(&self, frame: u16) -> u16
        requires { Has self.now frame }
        ensures aside { result ≡ aside_in (slab_of self.now frame) }
        ensures sound { IsSound self.now }
    {
        match slabs::slab_of(&self.slabs, frame) {
            Some(slab) => slab.aside() as u16,
            None => 0,
        }
    }

    /// How many objects a slab has.
    pub fn objects_of(&self, frame: u16) -> u16
        requires { Has self.now frame }
        ensures objects { result ≡ objects_in (slab_of self.now frame) }
        ensures sound { IsSound self.now }
    {
        match slabs::slab_of(&self.slabs, frame) {
            Some(slab) => slab.objects() as u16,
            None => 0,
        }
    }

    /// How many objects are used, of all slabs.
    pub fn used(&self) -> u32
        ensures used { result ≡ used_count self.now }
        ensures sound { IsSound self.now }
    {
        self.totals.used
    }

    /// How many objects are free, of all slabs.
    pub fn free(&self) -> u32
        ensures free { result ≡ free_count self.now }
        ensures sound { IsSound self.now }
    {
        self.totals.free
    }

    /// How many objects are set aside, of all slabs.
    pub fn aside(&self) -> u32
        ensures aside { result ≡ aside_count self.now }
        ensures sound { IsSound self.now }
    {
        self.totals.aside
    }

    /// How many slabs there are.
    pub fn slabs(&self) -> u32
        ensures slabs { result ≡ slab_count self.now }
        ensures sound { IsSound self.now }
    {
        self.totals.slabs
    }
}

//! One slab of a checked cache: its bytes, what each object is, and the free objects.

ghost use Rattle.std.specs.Prelude.{◌≡◌, ◌*◌, ◌+◌, ◌<◌, ◌≤◌, ◌++◌, length, map, take, drop, replicate, slice_get, slice_set, slice_range, IfOk};
ghost use Rattle.std.specs.Int.{w64, from_le_bytes, to_le_bytes};
ghost use Rattle.std.specs.List.{concat, range_with_len};
ghost use Rattle.slub_object_layout.specs.Layout.{IsWithinBounds};
ghost use Rattle.slub_red_zone.specs.Zones as spec;
ghost use Rattle.slub_red_zone.specs.State.{aside_in, objects_in, slot_of, with_slot};
ghost use Rattle.slub_red_zone.specs.Sound.{IsFreeList};
ghost use Rattle.slub_red_zone.specs.Steps as step;

use crate::zones::{self, RED_ACTIVE, RED_INACTIVE};
use slub_object_layout::layout::{Flags, Layout};
use std::alloc::{AllocError, Global};
use std::marker::Model;

/// The bytes of a word.
const WORD: usize = 8;

/// What an object of a slab is.
#[derive(Clone, Copy, Debug, PartialEq, Eq)]
pub enum ObjectState {
    Free,
    Used,
    /// Set aside for good, since it or another object of its slab was found damaged.
    Aside,
}

/// A slab (`struct slab`).
#[derive(Debug, Drop)]
pub(crate) struct Slab {
    order: u32,
    bytes: Vec<u8>,
    states: Vec<ObjectState>,
    /// The free objects stand at the end, front first.
    free: Vec<u16>,
    /// Where the first of them stands.
    start: usize,
}

impl Model for Slab {
    ghost use Rattle.std.specs.Prelude.{◌≡◌, ◌≤◌, length, drop};
    ghost use Rattle.slub_red_zone.specs.State.{SlabState};

    ghost Value = { SlabState };

    ghost view = { λ s. record { order = s.order; bytes = s.bytes.items; states = s.states.items; free = drop s.start s.free.items } };

    ghost invariant = { λ s. (s.start ≤ length s.free.items) × (length s.free.items ≡ length s.states.items) };
}

impl Slab {
    /// A slab of 2^order frames with this many objects: every object is set up as free, in rising
    /// order (`setup_slab_debug`, `setup_object_debug`).
    pub(crate) fn open(
        alloc: Global,
        layout: &Layout,
        flags: &Flags,
        order: u32,
        objects: u32,
    ) -> Result<Slab, AllocError>
        requires bounds { IsWithinBounds layout.now }
        requires few { objects ≤ 512 }
        ensures slab { IfOk result (λ slab. slab ≡ step.new_slab layout.now flags.now order objects) }
        ensures bytes { IfOk result (λ slab. length slab.bytes ≡ objects * layout.now.size) }
    {
        Ok(Slab {
            order,
            bytes: new_bytes(alloc, layout, flags, objects)?,
            states: vec![in alloc; ObjectState::Free; objects as usize]?,
            free: rising(alloc, objects as u16)?,
            start: 0,
        })
    }

    pub(crate) fn order(&self) -> u32
        ensures { result ≡ self.now.order }
    {
        self.order
    }

    /// How many objects it has.
    pub(crate) fn objects(&self) -> usize
        ensures { result ≡ objects_in self.now }
    {
        self.states.len()
    }

    /// How many objects are set aside.
    pub(crate) fn aside(&self) -> usize
        ensures { result ≡ aside_in self.now }
    {
        self.states
            .iter()
            .filter(|state| **state == ObjectState::Aside)
            .count()
    }

    /// What an object is, if there is one of this index.
    pub(crate) fn state(&self, index: u16) -> Option<ObjectState>
        ensures { result ≡ slice_get self.now.states index }
    {
        self.states.get(index as usize).copied()
    }

    /// The free objects, front first.
    pub(crate) fn free(&self) -> &[u16]
        ensures { result.now ≡ self.now.free }
    {
        &self.free[self.start..]
    }

    /// The bytes of an object's slot.
    pub(crate) fn slot(&self, layout: &Layout, index: u16) -> &[u8]
        requires inside { index * layout.now.size + layout.now.size ≤ length self.now.bytes }
        ensures slot { result.now ≡ slot_of layout.now self.now.bytes index }
        ensures length { length result.now ≡ layout.now.size }
    {
        let at = index as usize * layout.size as usize;
        &self.bytes[at..at + layout.size as usize]
    }

    /// Sets the first free object up as used, and takes it off the free objects.
    pub(crate) fn give(&mut self, layout: &Layout, flags: &Flags, index: u16)
        requires bounds { IsWithinBounds layout.now }
        requires object { index < objects_in self.old }
        requires inside { index * layout.now.size + layout.now.size ≤ length self.old.bytes }
        requires some { 0 < length self.old.free }
        ensures slab { self.new ≡ step.slab_with_given layout.now flags.now self.old index }
        ensures bytes { length self.new.bytes ≡ length self.old.bytes }
    {
        set_up(&mut self.bytes, layout, flags, index, RED_ACTIVE);
        self.states[index as usize] = ObjectState::Used;
        self.skip_first();
    }

    /// Takes the front off the free objects.
    fn skip_first(&mut self)
        requires { 0 < length self.old.free }
        ensures { self.new ≡ record self.old { free = drop 1 self.old.free } }
    {
        self.start += 1;
    }

    /// Sets a used object up as free, and puts it before the other free objects.
    pub(crate) fn take_back(&mut self, layout: &Layout, flags: &Flags, index: u16)
        requires bounds { IsWithinBounds layout.now }
        requires object { index < objects_in self.old }
        requires inside { index * layout.now.size + layout.now.size ≤ length self.old.bytes }
        requires room { length self.old.free < objects_in self.old }
        ensures slab { self.new ≡ step.slab_with_taken layout.now flags.now self.old index }
        ensures bytes { length self.new.bytes ≡ length self.old.bytes }
    {
        set_up(&mut self.bytes, layout, flags, index, RED_INACTIVE);
        self.states[index as usize] = ObjectState::Free;
        self.start -= 1;
        self.free[self.start] = index;
    }

    /// Sets all free objects aside.
    pub(crate) fn set_aside(&mut self)
        requires { IsFreeList self.old.states self.old.free }
        ensures { self.new ≡ step.slab_set_aside self.old }
    {
        set_aside(&mut self.states, &self.free[self.start..]);
        self.start = self.free.len();
    }

    /// Writes the byte at this place among the bytes of all slots.
    pub(crate) fn set_byte(&mut self, at: usize, byte: u8)
        requires { at < length self.old.bytes }
        ensures { self.new ≡ record self.old { bytes = slice_set self.old.bytes at byte } }
    {
        self.bytes[at] = byte;
    }

    /// The eight bytes from this place on, little endian.
    pub(crate) fn word(&self, at: usize) -> u64
        requires { at + 8 ≤ length self.now.bytes }
        ensures { result ≡ from_le_bytes w64 (slice_range self.now.bytes at (at + 8)) }
    {
        let mut word = [0; WORD];
        word.copy_from_slice(&self.bytes[at..at + WORD]);
        u64::from_le_bytes(word)
    }

    /// Writes eight bytes from this place on, little endian.
    pub(crate) fn set_word(&mut self, at: usize, value: u64)
        requires { at + 8 ≤ length self.old.bytes }
        ensures slab { self.new ≡ record self.old { bytes = take at self.old.bytes ++ to_le_bytes w64 value ++ drop (at + 8) self.old.bytes } }
        ensures bytes { length self.new.bytes ≡ length self.old.bytes }
    {
        self.bytes[at..at + WORD].copy_from_slice(&value.to_le_bytes());
    }
}

/// The bytes of a new slab.
fn new_bytes(
    alloc: Global,
    layout: &Layout,
    flags: &Flags,
    objects: u32,
) -> Result<Vec<u8>, AllocError>
    requires bounds { IsWithinBounds layout.now }
    requires few { objects ≤ 512 }
    ensures bytes { IfOk result (λ bytes. bytes.items ≡ concat (replicate objects (spec.new_slot layout.now flags.now))) }
    ensures count { IfOk result (λ bytes. length bytes.items ≡ objects * layout.now.size) }
{
    let mut slot = vec![in alloc; zones::fill_byte(flags); layout.size as usize]?;
    zones::set_up(layout, flags, RED_INACTIVE, &mut slot);
    repeated(alloc, &slot, objects as usize)
}

/// So many copies of these bytes, one after the other.
#[tactic(auto, using(crate::proofs::Times::list_more))]
fn repeated(alloc: Global, bytes: &[u8], count: usize) -> Result<Vec<u8>, AllocError>
    requires few { count ≤ 512 }
    requires small { length bytes.now ≤ 32768 }
    ensures copies { IfOk result (λ all. all.items ≡ concat (replicate count bytes.now)) }
    ensures length { IfOk result (λ all. length all.items ≡ count * length bytes.now) }
{
    let mut all = Vec::with_capacity(alloc, count * bytes.len())?;
    for _ in 0..count {
        all.extend_from_slice(bytes)?;
    }
    Ok(all)
}

/// The numbers from 0 up to `count`.
#[tactic(auto, using(crate::proofs::Times::list_more))]
fn rising(alloc: Global, count: u16) -> Result<Vec<u16>, AllocError>
    ensures numbers { IfOk result (λ numbers. numbers.items ≡ range_with_len 0 count) }
    ensures count { IfOk result (λ numbers. length numbers.items ≡ count) }
{
    let mut numbers = Vec::with_capacity(alloc, count as usize)?;
    for number in 0..count {
        numbers.push(number)?;
    }
    Ok(numbers)
}

/// Sets an object up with this byte in its red zones (`init_object`).
fn set_up(bytes: &mut [u8], layout: &Layout, flags: &Flags, index: u16, byte: u8)
    requires bounds { IsWithinBounds layout.now }
    requires inside { index * layout.now.size + layout.now.size ≤ length bytes.old }
    ensures { bytes.new ≡ with_slot layout.now bytes.old index (spec.set_up layout.now flags.now byte (slot_of layout.now bytes.old index)) }
{
    let at = index as usize * layout.size as usize;
    zones::set_up(
        layout,
        flags,
        byte,
        &mut bytes[at..at + layout.size as usize],
    );
}

/// Sets these objects aside: they are all that are free.
fn set_aside(states: &mut [ObjectState], free: &[u16])
    requires { IsFreeList states.old free.now }
    ensures { states.new ≡ map step.set_aside states.old }
{
    for index in free {
        states[*index as usize] = ObjectState::Aside;
    }
}

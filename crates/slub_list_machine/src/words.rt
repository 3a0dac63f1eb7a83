//! Profile, with no function of `mm/slub.c`: words and bytes of objects, written, read and poked.

ghost use Rattle.std.specs.Prelude.{◌≡◌, ◌<◌, ◌≤◌, ◌+◌, ◌*◌, ◌↔◌, length, true, nat_lt, IsSome, IsTrue, MatchOption};
ghost use Rattle.std.specs.Option.{option_and_then};
ghost use Rattle.slub_red_zone.specs.State.{IsUsed, objects_in, slab_of as checked_slab};
ghost use Rattle.slub_red_zone.specs.Steps.{IsOffset};
ghost use Rattle.slub_lists.specs.Alloc.{checked_of, HasLayout, IsLive};
ghost use Rattle.slub_lists.specs.Checked.{slot_of_held};
ghost use Rattle.slub_lists.specs.Coherent.{IsCoherent, KeepsOthers};
ghost use Rattle.slub_lists.specs.Words.{Pokes, PokesChecked, Reads, Writes, held_by, is_word, is_worker, known_to, own, with_word, word_at, word_of};
ghost use Rattle.slub_lists.specs.WordSteps.{IsHeld, KeepsAll, PokesIn, WritesIn};

use crate::lists::Lists;
use slub_lists::lists::Held;
use slub_object_layout::layout::{Layout, address};
use slub_red_zone::checked::{OutOfSlot, Slot};
use slub_trace::reply::Reply;

impl Lists {
    /// Writes a word, of eight bytes, of an object that the worker holds.
    pub fn write(&mut self, worker: u8, object: u32, word: u32, value: u64) -> Reply
        requires coherent { IsCoherent self.old }
        requires object { object < length self.old.board }
        requires word { word ≤ 4095 }
        ensures writes { Writes self.old worker object word value result self.new }
        ensures board { self.new.board ≡ self.old.board }
        ensures others { KeepsOthers self.old object self.new }
        ensures coherent { IsCoherent self.new }
    {
        let Some(held) = self.held_by(worker, object) else {
            return Reply::NotHeld;
        };
        let layout = self.layout(held.cache);
        if !is_word(&layout, word) {
            return Reply::OutOfObject;
        }
        self.set_word(&held, &layout, word, value);
        Reply::Wrote
    }

    /// Reads a word of an object that the worker holds: of a checked object its bytes as they stand, of
    /// any other what its holder wrote there last.
    pub fn read(&self, worker: u8, object: u32, word: u32) -> Reply
        requires coherent { IsCoherent self.now }
        requires object { object < length self.now.board }
        requires word { word ≤ 4095 }
        ensures reads { Reads self.now worker object word result }
    {
        let Some(held) = self.held_by(worker, object) else {
            return Reply::NotHeld;
        };
        let layout = self.layout(held.cache);
        if !is_word(&layout, word) {
            return Reply::OutOfObject;
        }
        Reply::Value(self.word(&held, &layout, word))
    }

    /// Writes one byte in the slot of a checked object that the worker holds, or freed in this round (a
    /// use after free); `offset` counts in bytes from the object's address.
    pub fn poke(&mut self, worker: u8, object: u32, offset: i32, byte: u8) -> Reply
        requires coherent { IsCoherent self.old }
        requires object { object < length self.old.board }
        ensures pokes { Pokes self.old worker object offset byte result self.new }
        ensures board { self.new.board ≡ self.old.board }
        ensures others { KeepsOthers self.old object self.new }
        ensures coherent { IsCoherent self.new }
    {
        match self.known_to(worker, object) {
            Some(held) => self.poke_known(&held, offset, byte),
            None => Reply::NotHeld,
        }
    }

    /// The object that a worker holds under a number.
    fn held_by(&self, worker: u8, object: u32) -> Option<Held>
        requires { object < length self.now.board }
        ensures { result ≡ held_by self.now worker object }
    {
        own(worker, self.board[object as usize])
    }

    /// The object that a worker holds under a number, or freed under it in this round.
    fn known_to(&self, worker: u8, object: u32) -> Option<Held>
        requires board { object < length self.now.board }
        requires gone { object < length self.now.gone }
        ensures { result ≡ known_to self.now worker object }
    {
        self.held_by(worker, object)
            .or(own(worker, self.gone[object as usize]))
    }

    /// Writes a word of an object that is held.
    fn set_word(&mut self, held: &Held, layout: &Layout, word: u32, value: u64)
        requires coherent { IsCoherent self.old }
        requires held { IsHeld self.old held.now }
        requires live { HasLayout self.old held.now.cache layout.now }
        requires word { is_word layout.now word ≡ true }
        ensures written { self.new ≡ with_word self.old layout.now held.now word value }
        ensures others { KeepsAll self.old self.new }
        ensures coherent { IsCoherent self.new }
    {
        if self.is_checked(held.cache) {
            self.set_slab_word(held.cache, slot_of(held), word, value);
            return;
        }
        let at = word_at(held, layout, word);
        self.memory.write(at, value);
    }

    /// A word of an object that is held.
    fn word(&self, held: &Held, layout: &Layout, word: u32) -> u64
        requires coherent { IsCoherent self.now }
        requires held { IsHeld self.now held.now }
        requires live { HasLayout self.now held.now.cache layout.now }
        requires word { is_word layout.now word ≡ true }
        ensures { result ≡ word_of self.now layout.now held.now word }
    {
        match &self.checked[held.cache as usize] {
            Some(slabs) => slabs.word(slot_of(held), word),
            None => self.memory.read(word_at(held, layout, word)),
        }
    }

    /// Writes a byte in the slot of an object that a worker knows.
    fn poke_known(&mut self, held: &Held, offset: i32, byte: u8) -> Reply
        requires coherent { IsCoherent self.old }
        ensures pokes { MatchOption (checked_of self.old held.now.cache) ((result ≡ Reply.NotChecked) × (self.new ≡ self.old)) (λ slabs. PokesChecked self.old slabs held.now offset byte result self.new) }
        ensures board { self.new.board ≡ self.old.board }
        ensures others { KeepsAll self.old self.new }
        ensures coherent { IsCoherent self.new }
    {
        if !self.is_checked(held.cache) {
            return Reply::NotChecked;
        }
        if !self.has_offset(held.cache, offset) {
            return Reply::OutOfSlot;
        }
        if !self.has_object(held) {
            return Reply::NotHeld;
        }
        match self.poke_slab(held.cache, slot_of(held), offset, byte) {
            Ok(()) => Reply::Poked,
            Err(_) => Reply::OutOfSlot,
        }
    }

    /// The number is that of a live checked cache.
    fn is_checked(&self, cache: u8) -> bool
        ensures { IsTrue result ↔ IsSome (checked_of self.now cache) }
    {
        match self.checked.get(cache as usize) {
            Some(slabs) => slabs.is_some(),
            None => false,
        }
    }

    /// A byte at this offset lies in the slots of a checked cache.
    fn has_offset(&self, cache: u8, offset: i32) -> bool
        requires { IsSome (checked_of self.now cache) }
        ensures { MatchOption (checked_of self.now cache) ⊥ (λ slabs. IsTrue result ↔ IsOffset slabs.layout offset) }
    {
        match &self.checked[cache as usize] {
            Some(slabs) => slabs.has_offset(offset),
            None => unreachable!(),
        }
    }

    /// A slab of a checked cache has this object.
    fn has_object(&self, held: &Held) -> bool
        requires { IsSome (checked_of self.now held.now.cache) }
        ensures { MatchOption (checked_of self.now held.now.cache) ⊥ (λ slabs. result ≡ nat_lt held.now.index (objects_in (checked_slab slabs held.now.frame))) }
    {
        match &self.checked[held.cache as usize] {
            Some(slabs) => slabs.state(slot_of(held)).is_some(),
            None => unreachable!(),
        }
    }

    /// Writes a word of an object of a checked cache.
    fn set_slab_word(&mut self, cache: u8, slot: Slot, word: u32, value: u64)
        requires { MatchOption (checked_of self.old cache) ⊥ (λ slabs. IsUsed slabs slot × (8 * (word + 1) ≤ slabs.layout.object_size)) }
        ensures { WritesIn self.old cache slot word value self.new }
    {
        let slabs = &mut self.checked[cache as usize];
        match slabs {
            Some(slabs) => slabs.set_word(slot, word, value),
            None => unreachable!(),
        }
    }

    /// Writes a byte of a slot of a checked cache.
    fn poke_slab(&mut self, cache: u8, slot: Slot, offset: i32, byte: u8) -> Result<(), OutOfSlot>
        requires { MatchOption (checked_of self.old cache) ⊥ (λ slabs. slot.index < objects_in (checked_slab slabs slot.frame)) }
        ensures { PokesIn self.old cache slot offset byte result self.new }
    {
        let slabs = &mut self.checked[cache as usize];
        match slabs {
            Some(slabs) => slabs.poke(slot, offset, byte),
            None => unreachable!(),
        }
    }
}

/// The object, where it is this worker's.
fn own(worker: u8, held: Option<Held>) -> Option<Held>
    ensures { result ≡ option_and_then (own worker) held }
{
    match held {
        Some(held) if is_worker(worker, held.worker) => Some(held),
        _ => None,
    }
}

fn is_worker(worker: u8, holder: Option<u8>) -> bool
    ensures { result ≡ is_worker worker holder }
{
    match holder {
        Some(holder) => holder == worker,
        None => false,
    }
}

/// The word lies in the object.
fn is_word(layout: &Layout, word: u32) -> bool
    requires { word ≤ 4095 }
    ensures { result ≡ is_word layout.now word }
{
    8 * (word + 1) <= layout.object_size
}

/// Where an object is.
fn slot_of(held: &Held) -> Slot
    ensures { result ≡ slot_of_held held.now }
{
    Slot {
        frame: held.frame,
        index: held.index,
    }
}

/// Where a word of an object is among the words of the frames.
fn word_at(held: &Held, layout: &Layout, word: u32) -> usize
    requires inside { (held.now.frame < 4096) × (held.now.index < layout.now.objects) }
    requires layout { IsLive layout.now }
    ensures { result ≡ word_at layout.now held.now word }
{
    let address = address(u32::from(held.frame), u32::from(held.index), layout);
    address as usize / 8 + word as usize
}

//! The words that are written in a round.

ghost use Rattle.std.specs.Prelude.{◌≡◌, ◌<◌, ◌^◌, ℕ, [], OnOk, IsSome, false, None, get_or, length};
ghost use Rattle.std.specs.List.{list_any};
ghost use Rattle.slub_trace_reader.specs.Above.{is_spot, with_one};
ghost use Rattle.slub_trace_reader.specs.State.{IsNoted, is_noted, noted_of};

use indexmap::IndexSet;
use slub_common::sequence::Sequence;
use std::alloc::{AllocError, Global};

/// Worker, object and word.
type Spot = (u8, u32, u16);

/// How many places are made at a time.
const PLACES: usize = 1024;

/// The worker, object and word of each write of a round, once and in the order in which they came.
/// The first write of an object is found by the object's number, every other write of it by its
/// hash.
#[derive(Drop)]
pub(crate) struct Written {
    pub(crate) keys: Sequence<Spot>,
    /// By object number: where the first write of the object stands. Of an object that has none in
    /// this round it leads to a write of another, or to nothing.
    pub(crate) places: Vec<u32>,
    /// The other writes of these objects.
    pub(crate) more: IndexSet<Spot>,
}

impl Written {
    /// No writes. It takes no memory.
    pub(crate) fn new(alloc: Global) -> Written
        ensures empty { result.keys ≡ [] }
        ensures noted { IsNoted result }
    {
        Written {
            keys: Sequence::new(alloc),
            places: Vec::new(alloc),
            more: IndexSet::new(alloc),
        }
    }

    /// No writes again, in a round that begins. The places stay, since none leads to a write now.
    pub(crate) fn begin(&mut self, alloc: Global)
        ensures empty { self.new.keys ≡ [] }
        ensures noted { IsNoted self.new }
    {
        self.keys = Sequence::new(alloc);
        self.more = IndexSet::new(alloc);
    }

    /// The first write of an object.
    #[inline(always)]
    fn noted(&self, object: u32) -> Option<Spot>
        ensures { result ≡ noted_of self.now.keys self.now.places.items object }
    {
        let place = self.places.get(object as usize).copied().unwrap_or(0) as usize;
        let first = *self.keys.get(place)?;
        if first.1 == object { Some(first) } else { None }
    }

    /// Whether a word was written.
    #[inline(always)]
    pub(crate) fn has(&self, worker: u8, object: u32, word: u16) -> bool
        requires { IsNoted self.now }
        ensures { result ≡ list_any (is_spot (worker, object, word)) self.now.keys }
    {
        let spot = (worker, object, word);
        match self.noted(object) {
            None => false,
            Some(first) => spot == first || self.more.contains(&spot),
        }
    }

    /// Puts a write behind the others, where its word was not written.
    #[inline(always)]
    pub(crate) fn put(&mut self, worker: u8, object: u32, word: u16) -> Result<(), AllocError>
        requires noted { IsNoted self.old }
        requires few { length self.old.keys < 2 ^ 32 }
        ensures put { OnOk result (self.new.keys ≡ with_one is_spot self.old.keys (worker, object, word)) }
        ensures noted { OnOk result (IsNoted self.new) }
    {
        let spot = (worker, object, word);
        match self.noted(object) {
            None => self.put_first(spot),
            Some(first) if first == spot => Ok(()),
            Some(_) => self.put_more(spot),
        }
    }

    /// Puts the first write of an object.
    fn put_first(&mut self, spot: Spot) -> Result<(), AllocError>
        requires noted { IsNoted self.old }
        requires few { length self.old.keys < 2 ^ 32 }
        requires first { noted_of self.old.keys self.old.places.items spot.1 ≡ None }
        ensures put { OnOk result (self.new.keys ≡ with_one is_spot self.old.keys spot) }
        ensures noted { OnOk result (IsNoted self.new) }
    {
        let at = spot.1 as usize;
        self.make_place(at)?;
        self.places[at] = self.keys.len() as u32;
        self.keys.push(spot)?;
        Ok(())
    }

    /// Makes room for the place of a number.
    fn make_place(&mut self, at: usize) -> Result<(), AllocError>
        requires small { at < 2 ^ 32 }
        ensures keys { self.new.keys ≡ self.old.keys }
        ensures more { self.new.more ≡ self.old.more }
        ensures made { OnOk result (at < length self.new.places.items) }
        ensures same { OnOk result ((n : ℕ) → get_or self.new.places.items n 0 ≡ get_or self.old.places.items n 0) }
    {
        if self.places.len() <= at {
            self.places.resize(at + PLACES, 0)?;
        }
        Ok(())
    }

    /// Puts another write of an object, unless it is there already.
    fn put_more(&mut self, spot: Spot) -> Result<(), AllocError>
        requires noted { IsNoted self.old }
        requires known { IsSome (noted_of self.old.keys self.old.places.items spot.1) }
        requires other { is_noted spot (noted_of self.old.keys self.old.places.items spot.1) ≡ false }
        ensures put { OnOk result (self.new.keys ≡ with_one is_spot self.old.keys spot) }
        ensures noted { OnOk result (IsNoted self.new) }
    {
        if self.more.insert(spot)? {
            self.keys.push(spot)?;
        }
        Ok(())
    }
}

//! The workers that are unfinished, in rising number.

ghost use Rattle.std.specs.Prelude.{◌≡◌, ◌%◌, ◌<◌, ◌≤◌, ◌==◌, false, length, Bool, List, slice_index, slice_set, IfOk};
ghost use Rattle.slub_schedule.specs.Schedule.{places_of};

use slub_common::no_memory::NoMemory;
use std::alloc::Global;
use std::marker::Model;

/// The numbers of the unfinished workers. Contracts see them as a list.
#[derive(Debug, Drop)]
pub struct Order {
    workers: Vec<usize>,
}

impl Model for Order {
    ghost use Rattle.std.specs.Prelude.{ℕ, List};

    ghost Value = { List ℕ };

    ghost view = { λ o. o.workers.items };
}

impl Order {
    /// The workers that are marked as unfinished.
    pub fn open(alloc: Global, marks: &[bool]) -> Result<Order, NoMemory>
        ensures { IfOk result (λ o. o ≡ places_of marks.now) }
    {
        let mut workers = Vec::with_capacity(alloc, marks.len())?;
        for (worker, marked) in marks.iter().enumerate() {
            if *marked {
                workers.push(worker)?;
            }
        }
        Ok(Order { workers })
    }

    /// Whether each worker is finished.
    #[inline(always)]
    pub fn is_empty(&self) -> bool
        ensures { result ≡ (length self.now == 0) }
    {
        self.workers.is_empty()
    }

    /// The unfinished workers.
    pub fn workers(&self) -> &[usize]
        ensures { result.now ≡ self.now }
    {
        self.workers.as_slice()
    }

    /// The place among the unfinished workers that a number chooses.
    #[inline(always)]
    pub fn place(&self, number: u32) -> usize
        requires { 1 ≤ length self.now }
        ensures place { result ≡ number % length self.now }
        ensures below { result < length self.now }
    {
        number as usize % self.workers.len()
    }

    /// The worker at a place.
    #[inline(always)]
    pub fn worker(&self, place: usize) -> usize
        requires { place < length self.now }
        ensures { result ≡ slice_index self.now place }
    {
        self.workers[place]
    }

    /// The worker at a place is finished.
    pub fn remove(&mut self, place: usize)
        requires { place < length self.old }
        ensures { (marks : List Bool) → self.old ≡ places_of marks → self.new ≡ places_of (slice_set marks (slice_index self.old place) false) }
    {
        let _finished = self.workers.remove(place);
    }
}

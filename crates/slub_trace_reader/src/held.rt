//! What a worker holds.

ghost use Rattle.std.specs.Prelude.{◌≡◌, ◌==◌, ◌<◌, ◌≤◌, ◌++◌, [], ◌∷◌, length, IfOk, MatchOption, slice_index};

use std::alloc::{AllocError, Global};
use std::collections::VecDeque;
use std::marker::Model;

/// The most objects that a worker holds (profile).
pub(crate) const HELD_MAX: usize = 64;

/// The objects that a worker holds, longest held first.
///
/// Room for all is taken when it is made: no later call takes memory.
#[derive(Debug, Drop)]
pub(crate) struct Held {
    objects: VecDeque<u32>,
}

impl Model for Held {
    ghost use Rattle.std.specs.Prelude.{ℕ, ◌≤◌, List, length};
    ghost use Rattle.std.specs.VecDeque.{deque_len, deque_capacity};

    ghost Value = { List ℕ };

    ghost view = { λ h. h.objects.items };

    ghost invariant = { λ h. (deque_len h.objects ≤ 64) × (64 ≤ deque_capacity h.objects) };
}

impl Held {
    /// Nothing is held.
    pub(crate) fn open(alloc: Global) -> Result<Held, AllocError>
        ensures { IfOk result (λ h. h ≡ []) }
    {
        Ok(Held {
            objects: VecDeque::with_capacity(alloc, HELD_MAX)?,
        })
    }

    /// Whether no more can be held.
    pub(crate) fn is_full(&self) -> bool
        ensures full { result ≡ (length self.now == 64) }
        ensures room { length self.now ≤ 64 }
    {
        self.objects.len() == HELD_MAX
    }

    /// How many objects are held.
    pub(crate) fn len(&self) -> usize
        ensures value { result ≡ length self.now }
        ensures room { result ≤ 64 }
    {
        self.objects.len()
    }

    /// The object at this place, the longest held at 0.
    pub(crate) fn at(&self, place: usize) -> u32
        requires { place < length self.now }
        ensures { result ≡ slice_index self.now place }
    {
        self.objects[place]
    }

    /// Takes out the object that was held longest, if there is one.
    pub(crate) fn take_longest(&mut self) -> Option<u32>
        ensures { MatchOption result
            ((self.old ≡ []) × (self.new ≡ [])) (λ object. self.old ≡ object ∷ self.new) }
    {
        self.objects.pop_front()
    }

    /// Puts in an object that is held from now on.
    pub(crate) fn put(&mut self, object: u32)
        requires { length self.old < 64 }
        ensures { self.new ≡ self.old ++ object ∷ [] }
    {
        self.objects.push_back_reserved(object);
    }
}

//! Lists of small numbers, front first, whose room is taken once.

ghost use Rattle.std.specs.List.{range_with_len};
ghost use Rattle.std.specs.Prelude.{slice_get, ◌≡◌, ◌<◌, ◌≤◌, ◌==◌, ◌++◌, [], ◌∷◌, length, filter, nat_lt, not, IfOk, MatchOption};
ghost use Rattle.slub_common.specs.Times.{times};

use std::alloc::{AllocError, Global};
use std::collections::VecDeque;
use std::marker::Model;

/// A list of small numbers, front first, with room for `ROOM` of them.
///
/// The room is taken when the list is made: no later call takes memory.
#[derive(Debug, Drop)]
pub struct FrontList<const ROOM: usize> {
    items: VecDeque<u16>,
}

impl<const ROOM: usize> Model for FrontList<ROOM> {
    ghost use Rattle.std.specs.Prelude.{ℕ, ◌≤◌, List, length};
    ghost use Rattle.std.specs.VecDeque.{deque_len, deque_capacity};

    ghost Value = { List ℕ };

    ghost view = { λ l. l.items.items };

    ghost invariant = { λ l. (deque_len l.items ≤ ROOM) × (ROOM ≤ deque_capacity l.items) };
}

impl<const ROOM: usize> FrontList<ROOM> {
    /// An empty list.
    pub fn open(alloc: Global) -> Result<FrontList<ROOM>, AllocError>
        ensures { IfOk result (λ l. l ≡ []) }
    {
        Ok(FrontList {
            items: VecDeque::with_capacity(alloc, ROOM)?,
        })
    }

    pub fn is_empty(&self) -> bool
        ensures value { result ≡ (length self.now == 0) }
    {
        self.items.is_empty()
    }

    /// How many there are, at most `ROOM`.
    pub fn len(&self) -> usize
        ensures value { result ≡ length self.now }
        ensures room { result ≤ ROOM }
    {
        self.items.len()
    }

    /// Takes the front off, if there is one.
    pub fn pop(&mut self) -> Option<u16>
        ensures popped { MatchOption result ((self.old ≡ []) × (self.new ≡ [])) (λ item. self.old ≡ item ∷ self.new) }
        ensures room { length self.old ≤ ROOM }
    {
        self.items.pop_front()
    }

    /// Puts one before the others.
    pub fn push(&mut self, item: u16)
        requires { length self.old < ROOM }
        ensures { self.new ≡ item ∷ self.old }
    {
        self.items.push_front_reserved(item);
    }

    /// Puts one behind the others.
    pub fn push_back(&mut self, item: u16)
        requires { length self.old < ROOM }
        ensures { self.new ≡ self.old ++ item ∷ [] }
    {
        self.items.push_back_reserved(item);
    }

    /// Takes one out, wherever it stands. False where it doesn't stand there.
    pub fn remove(&mut self, item: u16) -> bool
        ensures found { result ≡ nat_lt 0 (times item self.old) }
        ensures removed { self.new ≡ filter (λ other. not (other == item)) self.old }
    {
        let before = self.items.len();
        self.items.retain(|other| *other != item);
        self.items.len() < before
    }

    /// Takes all out.
    pub fn clear(&mut self)
        ensures { self.new ≡ [] }
    {
        self.items.clear();
    }

    /// Puts 0 to `count` - 1 in, in rising order.
    pub fn fill_rising(&mut self, count: u16)
        requires empty { self.old ≡ [] }
        requires room { count ≤ ROOM }
        ensures { self.new ≡ range_with_len 0 count }
    {
        for item in (0..count).rev() {
            self.push(item);
        }
    }

    /// The one at this place, counted from the front, if there is one.
    pub fn get(&self, at: usize) -> Option<u16>
        ensures { result ≡ slice_get self.now at }
    {
        self.items.get(at).copied()
    }
}

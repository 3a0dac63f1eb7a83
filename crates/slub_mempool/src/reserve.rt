//! One reserve.

ghost use Rattle.std.specs.Prelude.{◌≡◌, ◌+◌, ◌<◌, ◌≤◌, ◌++◌, ◌∷◌, [], length, is_some, nat_lt, vec_capacity};
ghost use Rattle.slub_lists.specs.Coherent.{held_under};
ghost use Rattle.slub_rounds.specs.Reserves.{Pops, has_number, kept_of};

use slub_list_machine::lists::Lists;
use slub_object_layout::name::Name;
use std::marker::Model;

/// A reserve (`mempool_t`): numbers of objects of one cache. The last one is lent next.
#[derive(Debug, Drop)]
pub struct Reserve {
    pub(crate) name: Name,
    /// The place of its cache's name among those of the trace.
    pub(crate) cache: u32,
    /// How many numbers it keeps at most.
    pub(crate) min_nr: u32,
    numbers: Vec<u32>,
}

impl Model for Reserve {
    ghost use Rattle.std.specs.Prelude.{◌≤◌, vec_capacity};
    ghost use Rattle.slub_rounds.specs.Reserves.{Reserve as Seen};

    ghost Value = { Seen };

    ghost view = { λ r. record { name = r.name; cache = r.cache; min_nr = r.min_nr; numbers = r.numbers.items } };

    ghost invariant = { λ r. 64 ≤ vec_capacity r.numbers };
}

/// Whether a number is on the board.
fn is_on_board(lists: &Lists, number: u32) -> bool
    ensures { result ≡ is_some (held_under lists.now number) }
{
    let board = lists.board();
    (number as usize) < board.len() && board[number as usize].is_some()
}

impl Reserve {
    /// A reserve of these numbers, with room for 64.
    pub(crate) fn of(name: &Name, cache: u32, min_nr: u32, numbers: Vec<u32>) -> Reserve
        requires { 64 ≤ vec_capacity numbers }
        ensures { result ≡ record { name = name.now; cache = cache; min_nr = min_nr; numbers = numbers.items } }
    {
        Reserve {
            name: *name,
            cache,
            min_nr,
            numbers,
        }
    }

    /// Its numbers.
    pub(crate) fn numbers(&self) -> &[u32]
        ensures { result.now ≡ self.now.numbers }
    {
        self.numbers.as_slice()
    }

    /// Whether it has a number.
    pub(crate) fn has(&self, number: u32) -> bool
        ensures { result ≡ has_number number self.now }
    {
        self.numbers.as_slice().contains(&number)
    }

    /// Whether it has fewer numbers than it may keep.
    pub(crate) fn has_room(&self) -> bool
        ensures { result ≡ nat_lt (length self.now.numbers) self.now.min_nr }
    {
        self.numbers.len() < self.min_nr as usize
    }

    /// Its last number leaves it.
    pub(crate) fn take_last(&mut self) -> Option<u32>
        ensures popped { Pops self.old.numbers result self.new.numbers }
        ensures rest { self.new ≡ record self.old { numbers = self.new.numbers } }
    {
        self.numbers.pop()
    }

    /// A number goes last.
    pub(crate) fn put(&mut self, number: u32)
        requires { length self.old.numbers < 64 }
        ensures { self.new ≡ record self.old { numbers = self.old.numbers ++ number ∷ [] } }
    {
        self.numbers.push_reserved(number);
    }

    /// Numbers that are no longer on the board are dropped.
    pub(crate) fn drop_freed(&mut self, lists: &Lists)
        ensures { self.new ≡ kept_of lists.now self.old }
    {
        self.numbers.retain(|number| is_on_board(lists, *number));
    }
}

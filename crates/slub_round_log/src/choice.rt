//! Whose turn comes next.

ghost use Rattle.std.specs.Prelude.{◌≡◌, ◌≤◌, ◌<◌, ◌==◌, true, [], length, position, slice_index, IfOk, IfErr};
ghost use Rattle.slub_picks.specs.Turns.{is_among};
ghost use Rattle.slub_round_log.specs.Choices.{Chooses, Goes, Refuses, IsOver};

use slub_picks::walk::{Ended, Misfit, Walk};
use slub_schedule::draws::Draws;
use slub_schedule::order::Order;

/// Who says whose turn comes next.
#[derive(Debug, Drop)]
pub enum Choice<'a> {
    /// A round of one worker says it itself.
    Alone,
    /// The numbers that a seed draws.
    Seed(Draws),
    /// The way along a part of a list of picks.
    Part(Walk<'a>),
}

/// The first place at which a worker is among these.
fn first_place(workers: &[usize], worker: usize) -> Option<usize>
    ensures { result ≡ position (λ other. other == worker) workers.now }
{
    workers.iter().position(|other| *other == worker)
}

/// The place of a worker among the unfinished ones.
fn place_of(order: &Order, worker: usize) -> usize
    requires { is_among worker order.now ≡ true }
    ensures within { result < length order.now }
    ensures there { slice_index order.now result ≡ worker }
{
    match first_place(order.workers(), worker) {
        Some(place) => place,
        None => unreachable!(),
    }
}

impl Choice<'_> {
    /// The place, among the unfinished workers, of the one whose turn comes next.
    pub fn next(&mut self, order: &Order) -> Result<usize, Misfit>
        requires { 1 ≤ length order.now }
        ensures within { IfOk result (λ place. place < length order.now) }
        ensures chosen { IfOk result (λ place. Chooses self.old order.now (slice_index order.now place) self.new) }
        ensures refused { IfErr result (λ misfit. Refuses self.old order.now misfit) }
    {
        match self {
            Choice::Alone => Ok(0),
            Choice::Seed(draws) => {
                let number = draws.draw();
                Ok(order.place(number))
            }
            Choice::Part(walk) => {
                let worker = walk.next(order.workers())?;
                Ok(place_of(order, worker))
            }
        }
    }

    /// The turn is made, and ended so.
    pub fn told(&mut self, ended: Ended)
        ensures { Goes self.old ended self.new }
    {
        if let Choice::Part(walk) = self {
            walk.told(ended);
        }
    }

    /// Each worker is finished: whether nothing more is said.
    pub fn end(&mut self) -> Result<(), Misfit>
        ensures over { IfOk result (λ _. IsOver self.old) }
        ensures refused { IfErr result (λ misfit. Refuses self.old [] misfit) }
    {
        match self {
            Choice::Part(walk) => walk.end(),
            Choice::Alone | Choice::Seed(_) => Ok(()),
        }
    }
}

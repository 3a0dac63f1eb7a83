//! What a trace does with the objects of its caches.

ghost use Rattle.std.specs.Prelude.{◌≡◌, ◌+◌, ◌<◌, ◌≤◌, [], ◌∷◌, ◌++◌, filter_map, IfOk, OnOk};
ghost use Rattle.slub_recorded.specs.Turns.{count_kept, kept_at, numbered, turn_of, turns_of};

use crate::pairing::Move;
use slub_common::no_memory::NoMemory;
use std::alloc::Global;

/// What a trace does with an object, and on which CPU. Objects are numbered from 1 on.
#[derive(Clone, Copy, Debug)]
pub enum Turn {
    /// The cache is a place among those of the trace.
    Alloc { cpu: u32, cache: u32, object: u32 },
    Free { cpu: u32, object: u32 },
}

/// An object that stands in the trace.
#[derive(Clone, Copy, Debug)]
pub struct Kept {
    /// The place of its cache.
    pub place: u32,
    /// Its number there, from 1 on.
    pub number: u32,
}

/// Numbers the objects whose caches have places in the trace.
fn number(alloc: Global, places: &[Option<u32>]) -> Result<Vec<Option<Kept>>, NoMemory>
    requires { count_kept places.now ≤ 1048576 }
    ensures { IfOk result (λ kept. kept.items ≡ numbered 0 places.now) }
{
    let mut kept = Vec::with_capacity(alloc, places.len())?;
    let mut count: u32 = 0;
    for place in places {
        kept.push(next_kept(&mut count, *place))?;
    }
    Ok(kept)
}

/// The next object by the place of its cache, where so many are kept before it.
fn next_kept(count: &mut u32, place: Option<u32>) -> Option<Kept>
    requires { count.old < 4294967295 }
    ensures kept { numbered count.old (place ∷ []) ≡ result ∷ [] }
    ensures count { count.new ≡ count.old + count_kept (place ∷ []) }
{
    let place = place?;
    *count += 1;
    Some(Kept {
        place,
        number: *count,
    })
}

/// How many objects are kept.
#[tactic(auto, using(crate::proofs::Numbers::count_some))]
pub fn count_kept(places: &[Option<u32>]) -> usize
    ensures { result ≡ count_kept places.now }
{
    places.iter().filter(|place| place.is_some()).count()
}

/// What the trace does of the moves of a recording.
pub fn turns_of(
    alloc: Global,
    places: &[Option<u32>],
    cpus: u32,
    moves: &[Move],
) -> Result<Vec<Turn>, NoMemory>
    requires few { count_kept places.now ≤ 1048576 }
    requires some { 1 ≤ cpus }
    ensures { IfOk result (λ turns. turns.items ≡ turns_of places.now cpus moves.now) }
{
    let kept = number(alloc, places)?;
    let mut turns = Vec::with_capacity(alloc, moves.len())?;
    for step in moves {
        push_turn(&mut turns, kept.as_slice(), cpus, step)?;
    }
    Ok(turns)
}

/// Puts what the trace does of a move behind others.
fn push_turn(
    turns: &mut Vec<Turn>,
    kept: &[Option<Kept>],
    cpus: u32,
    step: &Move,
) -> Result<(), NoMemory>
    requires { 1 ≤ cpus }
    ensures { OnOk result (turns.new.items
        ≡ turns.old.items ++ filter_map (turn_of kept.now cpus) (step.now ∷ [])) }
{
    if let Some(turn) = turn_of(kept, cpus, step) {
        turns.push(turn)?;
    }
    Ok(())
}

/// What the trace does of a move.
#[inline]
fn turn_of(kept: &[Option<Kept>], cpus: u32, step: &Move) -> Option<Turn>
    requires { 1 ≤ cpus }
    ensures { result ≡ turn_of kept.now cpus step.now }
{
    match *step {
        Move::Alloc { cpu, object } => {
            let Kept { place, number } = kept_at(kept, object)?;
            Some(Turn::Alloc {
                cpu: cpu % cpus,
                cache: place,
                object: number,
            })
        }
        Move::Free { cpu, object, .. } => {
            let Kept { number, .. } = kept_at(kept, object)?;
            Some(Turn::Free {
                cpu: cpu % cpus,
                object: number,
            })
        }
    }
}

/// The cache and the number of an object.
fn kept_at(kept: &[Option<Kept>], object: usize) -> Option<Kept>
    ensures { result ≡ kept_at kept.now object }
{
    kept.get(object).copied().flatten()
}

//! What a worker is to do, event by event.

ghost use Rattle.std.specs.Prelude.{◌≡◌, ℕ, List, [], ◌∷◌, ◌++◌, IfOk, IsSome, None, OnOk, map};
ghost use Rattle.slub_trace.specs.declared.event.Event.{Event};
ghost use Rattle.slub_core.specs.Run.{idle};
ghost use Rattle.slub_calls.specs.Calls.{IsNamedEvent, call_at, object_named, room_for, worker_with};
ghost use Rattle.slub_calls.specs.Share.{gathered};

use crate::number_hasher::NumberHasher;
use indexmap::IndexSet;
use slub_cache_create::caches::Caches;
use slub_common::no_memory::NoMemory;
use slub_core::call::Call;
use slub_core::local::Known;
use slub_core::worker_local::Local;
use slub_trace::event::{Act, Event};
use std::alloc::Global;
use std::hash::BuildHasherDefault;

/// A worker's share of the events of a round, as far as they were handed out.
#[derive(Drop)]
pub struct Share {
    worker: u8,
    /// The object numbers that its events name, each once, in the order in which they come.
    numbers: IndexSet<u32, BuildHasherDefault<NumberHasher>>,
    /// The calls of its events.
    calls: Vec<Call>,
}

impl Share {
    /// The share of a worker that has no event yet, with room for so many.
    pub fn open(alloc: Global, worker: u8, events: usize) -> Result<Share, NoMemory>
        ensures { IfOk result (λ share. gathered share ≡ record idle { worker = worker }) }
    {
        let calls = Vec::with_capacity(alloc, events)?;
        // most objects are named twice and more: where they are given and where they are freed
        let numbers = IndexSet::with_capacity_and_hasher(
            alloc,
            events / 2,
            BuildHasherDefault::new(),
        )?;
        Ok(Share {
            worker,
            numbers,
            calls,
        })
    }

    /// The worker has one event more. A number keeps its place, since each new one goes last.
    pub fn push(&mut self, table: &Caches, event: &Event) -> Result<(), NoMemory>
        requires { IsNamedEvent table.now event.now }
        ensures { OnOk result ((worker : ℕ) (events : List Event) → gathered self.old ≡ worker_with table.now worker events → gathered self.new ≡ worker_with table.now worker (events ++ event.now ∷ [])) }
    {
        let call = match object_named(&event.act) {
            Some(object) => {
                let place = self.numbers.insert_full(object)?.0;
                call_at(table, place, event)
            }
            None => call_without(table, event),
        };
        self.calls.push(call)?;
        Ok(())
    }

    /// The worker with all these events to come.
    pub fn into_local(self, alloc: Global) -> Result<Local, NoMemory>
        ensures { IfOk result (λ local. local ≡ gathered self) }
    {
        let rooms = rooms(alloc, &self.numbers)?;
        Local::open(alloc, self.worker, rooms, self.calls)
    }
}

/// The object number that an act names.
fn object_named(act: &Act) -> Option<u32>
    ensures { result ≡ object_named act.now }
{
    match act {
        Act::Alloc { cache: _, object } => Some(*object),
        Act::Free { object } => Some(*object),
        Act::Write { object, .. } => Some(*object),
        Act::Read { object, .. } => Some(*object),
        Act::Poke { object, .. } => Some(*object),
        Act::Trim { cache: _ } => None,
        Act::Flush => None,
    }
}

/// What an event calls for that names an object, which has this place.
fn call_at(table: &Caches, place: usize, event: &Event) -> Call
    requires named { IsNamedEvent table.now event.now }
    requires object { IsSome (object_named event.now.act) }
    ensures { result ≡ call_at table.now place event.now.cpu event.now.act }
{
    let cpu = event.cpu as u32;
    match event.act {
        Act::Alloc { cache, object } => Call::Alloc {
            cpu,
            cache: table.at(cache),
            object,
            place,
        },
        Act::Free { object } => Call::Free { cpu, object, place },
        Act::Write {
            word,
            object,
            value,
        } => Call::Write {
            object,
            place,
            word: word as u32,
            value,
        },
        Act::Read { word, object } => Call::Read {
            object,
            place,
            word: word as u32,
        },
        Act::Poke {
            object,
            offset,
            byte,
        } => Call::Poke {
            object,
            place,
            offset,
            byte,
        },
        Act::Trim { .. } | Act::Flush => unreachable!(),
    }
}

/// What an event calls for that names no object.
fn call_without(table: &Caches, event: &Event) -> Call
    requires named { IsNamedEvent table.now event.now }
    requires none { object_named event.now.act ≡ None }
    ensures { (place : ℕ) → result ≡ call_at table.now place event.now.cpu event.now.act }
{
    match event.act {
        Act::Trim { cache } => Call::Trim {
            cache: table.at(cache),
        },
        Act::Flush => Call::Flush {
            cpu: event.cpu as u32,
        },
        _ => unreachable!(),
    }
}

/// Room for what a worker will know of each of these objects.
fn rooms(
    alloc: Global,
    numbers: &IndexSet<u32, BuildHasherDefault<NumberHasher>>,
) -> Result<Vec<Known>, NoMemory>
    ensures { IfOk result (λ rooms. rooms.items ≡ map room_for numbers.now.keys) }
{
    let mut rooms = Vec::with_capacity(alloc, numbers.len())?;
    for at in 0..numbers.len() {
        if let Some(object) = numbers.get_index(at) {
            rooms.push(room_for(*object))?;
        }
    }
    Ok(rooms)
}

/// Room for what a worker will know of an object.
fn room_for(object: u32) -> Known
    ensures { result ≡ room_for object }
{
    Known {
        object,
        frame: 0,
        index: 0,
        cache: 0,
        held: false,
    }
}

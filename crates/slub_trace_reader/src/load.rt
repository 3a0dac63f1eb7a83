//! Making a load.

ghost use Rattle.std.specs.Prelude.{◌≡◌, ◌+◌, ◌*◌, ◌%◌, ◌<◌, ◌≤◌, [], ◌∷◌, ◌++◌, length, map, replicate, true, false, IfNone, IfOk, MatchOption, vec_len, vec_capacity};
ghost use Rattle.slub_object_layout.specs.Name.{IsName};
ghost use Rattle.slub_trace.specs.Sound.{IsSound, objects_of};
ghost use Rattle.slub_trace_reader.specs.Generator.{drawn, next};
ghost use Rattle.slub_trace_reader.specs.Kept.{AreHeld};
ghost use Rattle.slub_trace_reader.specs.Load.{cache_names, create, creations, drawn_events, emptied, event_behind, event_of, free_by, freed_of, is_free, items_of, load_of, plain};

use crate::generator::Generator;
use crate::held::{HELD_MAX, Held};
use slub_common::no_memory::NoMemory;
use slub_common::sequence::Sequence;
use slub_object_layout::layout::{Flags, Spec};
use slub_object_layout::name::Name;
use slub_trace::event::{Act, Event, Round};
use slub_trace::trace::{Item, Trace};
use std::alloc::{AllocError, Global};

/// The page frames of the machine of a load (profile).
const FRAMES: u32 = 4096;

/// The CPUs of the machine of a load (profile).
const CPUS: u8 = 4;

/// The trace that a seed gives: so many drawn events, at most 500000, of 1 to 16 workers in one
/// round, at whose end each worker frees what it still holds (profile).
///
/// The `line` of every event is 0. Every error is want of memory.
pub fn load_trace(alloc: Global, seed: u64, events: u32, workers: u32) -> Result<Trace, NoMemory>
    requires few_events { events ≤ 500000 }
    requires some_workers { 1 ≤ workers }
    requires few_workers { workers ≤ 16 }
    ensures made { IfOk result (λ trace. trace ≡ load_of seed events workers) }
    ensures sound { IfOk result IsSound }
{
    let names = cache_names(alloc)?;
    let mut items = cache_items(alloc)?;
    let room = events as usize + workers as usize * HELD_MAX;
    let mut load = Load::open(alloc, seed, workers, room)?;
    load.draw_events(events);
    free_rest(&mut load.events, &load.held);
    let objects = load.given;
    push_rest(&mut items, workers, load.events);
    Ok(Trace {
        version: 1,
        frames: FRAMES,
        cpus: CPUS as u32,
        tid: 0,
        objects,
        names,
        items: Sequence::from_vec(items),
    })
}

/// A load that is being made.
#[derive(Drop)]
struct Load {
    generator: Generator,
    /// What each worker holds.
    held: Vec<Held>,
    /// How many objects were allocated; their numbers are those from 1 on.
    given: u32,
    /// The events so far, with room for all.
    events: Vec<Event>,
}

impl Load {
    /// No events yet, and room for so many.
    fn open(alloc: Global, seed: u64, workers: u32, room: usize) -> Result<Load, AllocError>
        requires few_workers { workers ≤ 16 }
        ensures state { IfOk result (λ l. l.generator.state ≡ seed) }
        ensures held { IfOk result (λ l. l.held.items ≡ replicate workers []) }
        ensures given { IfOk result (λ l. l.given ≡ 0) }
        ensures events { IfOk result (λ l. l.events.items ≡ []) }
        ensures room { IfOk result (λ l. room ≤ vec_capacity l.events) }
    {
        let events = Vec::with_capacity(alloc, room)?;
        let mut held = Vec::with_capacity(alloc, workers as usize)?;
        for _ in 0..workers {
            held.push(Held::open(alloc)?)?;
        }
        Ok(Load {
            generator: Generator { state: seed },
            held,
            given: 0,
            events,
        })
    }

    /// The next event, by two drawn numbers.
    fn draw_event(&mut self)
        requires some_workers { 1 ≤ vec_len self.old.held }
        requires few_workers { vec_len self.old.held ≤ 16 }
        requires few_events { vec_len self.old.events < 500000 }
        requires room { vec_len self.old.events < vec_capacity self.old.events }
        requires held { AreHeld self.old.events.items self.old.held.items }
        requires given { self.old.given ≡ length (objects_of self.old.events.items) }
        ensures state { self.new.generator.state ≡ next (next self.old.generator.state) }
        ensures event { let first = next self.old.generator.state in
            let worker = drawn first % vec_len self.old.held in
            let eighth = drawn (next first) % 8 in
            self.new.events.items
            ≡ self.old.events.items ++ event_behind self.old.events.items worker eighth ∷ [] }
        ensures room { vec_capacity self.new.events ≡ vec_capacity self.old.events }
        ensures workers { vec_len self.new.held ≡ vec_len self.old.held }
        ensures held { AreHeld self.new.events.items self.new.held.items }
        ensures given { self.new.given ≡ length (objects_of self.new.events.items) }
    {
        let first = self.generator.draw();
        let second = self.generator.draw();
        let worker = (first % self.held.len() as u32) as u8;
        let eighth = (second % 8) as u8;
        let held = &mut self.held[worker as usize];
        let event = turn(held, &mut self.given, worker, eighth);
        self.events.push_reserved(event);
    }

    /// So many events, where there is none yet.
    fn draw_events(&mut self, count: u32)
        requires some_workers { 1 ≤ vec_len self.old.held }
        requires few_workers { vec_len self.old.held ≤ 16 }
        requires few_events { count ≤ 500000 }
        requires room { count ≤ vec_capacity self.old.events }
        requires none { self.old.events.items ≡ [] }
        requires held { AreHeld self.old.events.items self.old.held.items }
        requires given { self.old.given ≡ 0 }
        ensures events { self.new.events.items
            ≡ drawn_events self.old.generator.state (vec_len self.old.held) count }
        ensures room { vec_capacity self.new.events ≡ vec_capacity self.old.events }
        ensures workers { vec_len self.new.held ≡ vec_len self.old.held }
        ensures held { AreHeld self.new.events.items self.new.held.items }
        ensures given { self.new.given ≡ length (objects_of self.new.events.items) }
    {
        for _ in 0..count {
            self.draw_event();
        }
    }
}

/// Takes out the object that was held longest, where a worker frees one at this number below 8.
fn take_freed(held: &mut Held, eighth: u8) -> Option<u32>
    ensures freed { MatchOption result
        ((is_free held.old eighth ≡ false) × (held.new ≡ held.old))
        (λ object. (is_free held.old eighth ≡ true) × (held.old ≡ object ∷ held.new)) }
    ensures room { IfNone result (length held.new < 64) }
{
    if held.is_full() || eighth < 3 {
        held.take_longest()
    } else {
        None
    }
}

/// What a worker does at this number below 8, where so many objects were allocated.
#[tactic(auto, unfolding(crate::specs::Load::event_of))]
fn turn(held: &mut Held, given: &mut u32, worker: u8, eighth: u8) -> Event
    requires few_workers { worker < 16 }
    requires eighth { eighth < 8 }
    requires few { given.old < 500000 }
    ensures event { result ≡ event_of held.old worker eighth (given.old + 1) }
    ensures held { held.old ++ objects_of (result ∷ []) ≡ freed_of (result ∷ []) ++ held.new }
    ensures given { given.new ≡ given.old + length (objects_of (result ∷ [])) }
{
    match take_freed(held, eighth) {
        Some(object) => free(worker, (worker + eighth) % CPUS, object),
        None => {
            *given += 1;
            held.put(*given);
            Event {
                line: 0,
                worker,
                cpu: worker % CPUS,
                act: Act::Alloc {
                    cache: u32::from(eighth % 3),
                    object: *given,
                },
            }
        }
    }
}

/// A worker frees an object.
fn free(worker: u8, cpu: u8, object: u32) -> Event
    ensures { result ≡ free_by worker cpu object }
{
    Event {
        line: 0,
        worker,
        cpu,
        act: Act::Free { object },
    }
}

/// A worker frees what it holds, longest held first.
fn free_all(events: &mut Vec<Event>, worker: u8, held: &Held)
    requires room { vec_len events.old + 64 ≤ vec_capacity events.old }
    ensures freed { events.new.items
        ≡ events.old.items ++ map (free_by worker (worker % 4)) held.now }
    ensures few { vec_len events.new ≤ vec_len events.old + 64 }
    ensures room { vec_capacity events.new ≡ vec_capacity events.old }
{
    for place in 0..held.len() {
        events.push_reserved(free(worker, worker % CPUS, held.at(place)));
    }
}

/// Each worker from 0 on frees what it still holds.
fn free_rest(events: &mut Vec<Event>, held: &[Held])
    requires few_workers { length held.now ≤ 16 }
    requires room { vec_len events.old + 64 * length held.now ≤ vec_capacity events.old }
    requires held { AreHeld events.old.items held.now }
    ensures { events.new.items ≡ emptied (length held.now) events.old.items }
{
    for (worker, held) in held.iter().enumerate() {
        free_all(events, worker as u8, held);
    }
}

/// The name of a text that is one.
fn named(text: &[u8]) -> Name
    requires { IsName text.now }
    ensures { result ≡ text.now }
{
    Name::read_bytes(text).unwrap()
}

/// The names of the caches, by their places.
#[tactic(auto, unfolding(crate::specs::Load::cache_names))]
fn cache_names(alloc: Global) -> Result<Sequence<Name>, NoMemory>
    ensures { IfOk result (λ names. names ≡ cache_names) }
{
    let mut names = Sequence::with_capacity(alloc, 3)?;
    names.push(named(b"dentry"))?;
    names.push(named(b"filp"))?;
    names.push(named(b"node"))?;
    Ok(names)
}

/// Creates a cache of this size whose objects are aligned to a word.
fn create(name: u32, size: u32, reclaim: bool, line: bool) -> Item
    ensures { result ≡ create name size (record plain { reclaim = reclaim; line = line }) }
{
    Item::Cache {
        name,
        spec: Spec {
            size,
            align: 8,
            flags: Flags {
                line,
                reclaim,
                checks: false,
                zones: false,
                poison: false,
                user: false,
                trace: false,
                fail: false,
            },
        },
    }
}

/// The creations of the caches, with room for all items.
fn cache_items(alloc: Global) -> Result<Vec<Item>, NoMemory>
    ensures items { IfOk result (λ items. items.items ≡ creations) }
    ensures room { IfOk result (λ items. 7 ≤ vec_capacity items) }
{
    let mut items = Vec::with_capacity(alloc, 7)?;
    items.push_reserved(create(0, 192, true, false));
    items.push_reserved(create(1, 256, false, true));
    items.push_reserved(create(2, 128, false, false));
    Ok(items)
}

/// Puts the round of these events and the shrinks of the caches behind their creations.
fn push_rest(items: &mut Vec<Item>, workers: u32, events: Vec<Event>)
    requires created { items.old.items ≡ creations }
    requires room { 7 ≤ vec_capacity items.old }
    ensures { items.new.items ≡ items_of workers events.items }
{
    items.push_reserved(Item::Round(Round {
        workers,
        events: Sequence::from_vec(events),
    }));
    items.push_reserved(Item::Shrink { name: 0 });
    items.push_reserved(Item::Shrink { name: 1 });
    items.push_reserved(Item::Shrink { name: 2 });
}

//! Serving `kmalloc`, `kget` and `krealloc`.

ghost use Rattle.std.specs.Prelude.{◌≡◌, ◌^◌, ◌<◌, [], ◌∷◌, not, false, length, position, IfErr, IfOk, IfSome, IsSome, Ok};
ghost use Rattle.std.specs.List.{list_any};
ghost use Rattle.std.specs.Option.{option_map_or};
ghost use Rattle.std.specs.Str.{bytes_eq};
ghost use Rattle.slub_object_layout.specs.Layout.{is_checked};
ghost use Rattle.slub_lists.specs.Alloc.{cache_of};
ghost use Rattle.slub_trace.specs.Sound.{IsSound, IsSoundObject, asked_objects};
ghost use Rattle.slub_slabinfo_text.specs.Lawful.{IsUnheld};
ghost use Rattle.slub_engine.specs.Steps.{KeepsUnheld};
ghost use Rattle.slub_trace.specs.declared.event.Act.TheVariants.{Free};
ghost use Rattle.slub_rounds.specs.Asked.{IsOpenTo, IsServable, SpendsAsked, StaysOpen};
ghost use Rattle.slub_rounds.specs.Kmalloc.{IsKmallocLine, Moves, MovesOn, ServesClasses, ServesHeld, ServesKget, ServesKmalloc, ServesKrealloc, SpendsClasses, SpendsHeld, SpendsKget, SpendsKrealloc, SpendsMove, SpendsOfClass, TakesOfClass, given_answer, is_enough, is_kmalloc, names_cache, place_of_class};
ghost use Rattle.slub_rounds.specs.ClientStopped.{IsStoppedWhere};

use crate::classes::{class_place, class_spec};
use slub_common::no_memory::NoMemory;
use slub_common::sequence::Sequence;
use slub_list_machine::lists::Lists;
use slub_object_layout::name::Name;
use slub_rounds::client::{LineStopped, at_once, client_round, told};
use slub_rounds::create::create;
use slub_rounds::heap::Heap;
use slub_slabinfo_text::client::{CacheRefusal, ClientAnswer, ClientDone, ClientRound};
use slub_slabinfo_text::names::class_names;
use slub_trace::classes::class_name;
use slub_trace::event::Act;
use slub_trace::trace::{Client, Trace};
use std::alloc::Global;

/// The place of a class's name among those of the trace.
fn place_of_class(trace: &Trace, class: u32) -> Option<u32>
    requires few { length trace.now.names < 2 ^ 32 }
    requires class { class < 13 }
    ensures place { result ≡ place_of_class trace.now class }
    ensures within { IfSome result (λ place. place < length trace.now.names) }
{
    match place_of(trace.names.as_slice(), &class_name(class)) {
        Some(place) => Some(place as u32),
        None => None,
    }
}

/// The place of a name among these.
fn place_of(names: &[Name], name: &Name) -> Option<usize>
    ensures first { result ≡ position (bytes_eq name.now) names.now }
    ensures inside { IfSome result (λ at. at < length names.now) }
{
    names.iter().position(|other| name == other)
}

/// One allocation from the cache that a class's name names now: the address, or why the cache gave none.
/// A name that the trace doesn't have names none.
fn take_of_class(
    alloc: Global,
    heap: Heap,
    trace: &Trace,
    cpu: u32,
    class: u32,
    object: u32,
    rounds: &mut Vec<ClientRound>,
) -> Result<(Heap, Result<u32, CacheRefusal>), LineStopped>
    requires asks { IsOpenTo heap trace.now 1 }
    requires few { length trace.now.names < 2 ^ 32 }
    requires cpu { cpu < trace.now.cpus }
    requires class { class < 13 }
    requires object { IsSoundObject trace.now object }
    requires unheld { IsUnheld heap.lists object }
    requires empty { rounds.old.items ≡ [] }
    ensures takes { IfOk result (λ done.
        TakesOfClass heap trace.now cpu class object rounds.new.items done.1 done.0) }
    ensures stays { IfOk result (λ done. StaysOpen heap trace.now 1 done.0) }
    ensures unheld { IfOk result (λ done. KeepsUnheld heap.lists (object ∷ []) done.0.lists) }
    ensures stopped { IfErr result (IsStoppedWhere (SpendsOfClass heap trace.now cpu class object)) }
{
    let Some(cache) = place_of_class(trace, class) else {
        return Ok((heap, Err(CacheRefusal::NoSuchCache)));
    };
    let (after, round) = client_round(alloc, heap, cpu, &[Act::Alloc { cache, object }])?;
    let told = told(&round)?;
    rounds.push(round)?;
    Ok((after, told))
}

/// What an allocation answers a client.
fn given_answer(told: Result<u32, CacheRefusal>) -> ClientAnswer
    ensures { result ≡ given_answer told }
{
    match told {
        Ok(address) => ClientAnswer::Given(address),
        Err(why) => ClientAnswer::Refused(why),
    }
}

/// Allocates an object of at least this size, in bytes (`kmalloc`).
fn kget(
    alloc: Global,
    heap: Heap,
    trace: &Trace,
    cpu: u32,
    size: u32,
    object: u32,
) -> Result<(Heap, ClientDone), LineStopped>
    requires asks { IsOpenTo heap trace.now 1 }
    requires few { length trace.now.names < 2 ^ 32 }
    requires cpu { cpu < trace.now.cpus }
    requires object { IsSoundObject trace.now object }
    requires unheld { IsUnheld heap.lists object }
    ensures served { IfOk result (λ done. ServesKget heap trace.now cpu size object done.1 done.0) }
    ensures stays { IfOk result (λ done. StaysOpen heap trace.now 1 done.0) }
    ensures unheld { IfOk result (λ done. KeepsUnheld heap.lists (object ∷ []) done.0.lists) }
    ensures stopped { IfErr result (IsStoppedWhere (SpendsKget heap trace.now cpu size object)) }
{
    let Some(class) = class_place(size) else {
        return Ok((heap, at_once(alloc, ClientAnswer::TooLarge)));
    };
    let mut rounds = Vec::new(alloc);
    let (after, told) = take_of_class(alloc, heap, trace, cpu, class, object, &mut rounds)?;
    let done = ClientDone {
        rounds: Sequence::from_vec(rounds),
        answer: given_answer(told),
    };
    Ok((after, done))
}

/// Creates the caches of the classes, in rising order (`create_kmalloc_caches`).
fn kmalloc(alloc: Global, heap: Heap, trace: &Trace) -> Result<(Heap, ClientDone), NoMemory>
    requires sound { IsSound trace.now }
    requires asks { IsOpenTo heap trace.now 0 }
    ensures served { IfOk result (λ done. ServesKmalloc heap trace.now done.1 done.0) }
    ensures stays { IfOk result (λ done. StaysOpen heap trace.now 0 done.0) }
    ensures board { IfOk result (λ done. done.0.lists.board ≡ heap.lists.board) }
{
    let mut now = heap;
    let mut answers = Vec::new(alloc);
    for class in 0..13 {
        let (after, made) = create(now, trace, &class_name(class), &class_spec(class))?;
        now = after;
        answers.push(made)?;
    }
    let answer = ClientAnswer::Created(Sequence::from_vec(answers));
    Ok((now, at_once(alloc, answer)))
}

/// What a `krealloc` asks: an object of at least this size, in bytes, in the place of another one, under a
/// fresh number where it moves.
#[derive(Clone, Copy, Debug)]
struct Wish {
    cpu: u32,
    object: u32,
    size: u32,
    fresh: u32,
}

/// Whether a class's name names this live cache, which isn't checked.
fn is_kmalloc(lists: &Lists, cache: u8) -> bool
    requires live { IsSome (cache_of lists.now cache) }
    ensures { result ≡ is_kmalloc lists.now cache }
{
    !is_checked(lists, cache) && has_class(lists, cache, &class_names())
}

/// Whether a live cache is checked.
fn is_checked(lists: &Lists, cache: u8) -> bool
    requires live { IsSome (cache_of lists.now cache) }
    ensures { not result ≡
        option_map_or (λ live. not (is_checked live.flags)) (cache_of lists.now cache) false }
{
    lists.caches().flags(cache).is_checked()
}

/// Whether one of these names names this cache.
fn has_class(lists: &Lists, cache: u8, names: &[Name]) -> bool
    ensures { result ≡ list_any (names_cache lists.now cache) names.now }
{
    names.iter().any(|name| names_cache(lists, cache, name))
}

/// Whether a name names this cache.
fn names_cache(lists: &Lists, cache: u8, name: &Name) -> bool
    ensures { result ≡ names_cache lists.now cache name.now }
{
    match lists.caches().find(name) {
        Some(number) => number == cache,
        None => false,
    }
}

/// Whether an object of a live cache is large enough.
fn is_enough(lists: &Lists, cache: u8, size: u32) -> bool
    requires live { IsSome (cache_of lists.now cache) }
    ensures { result ≡ is_enough lists.now cache size }
{
    size <= lists.caches().layout(cache).object_size
}

/// Has an object that is large enough: the one that is there, or a fresh one in its place (`krealloc`).
fn krealloc(
    alloc: Global,
    heap: Heap,
    trace: &Trace,
    asked: Wish,
) -> Result<(Heap, ClientDone), LineStopped>
    requires asks { IsOpenTo heap trace.now 1 }
    requires few { length trace.now.names < 2 ^ 32 }
    requires cpu { asked.cpu < trace.now.cpus }
    requires object { IsSoundObject trace.now asked.object }
    requires fresh { IsSoundObject trace.now asked.fresh }
    requires unheld { IsUnheld heap.lists asked.fresh }
    ensures served { IfOk result (λ done. ServesKrealloc heap trace.now asked.cpu asked.object
        asked.size asked.fresh done.1 done.0) }
    ensures stays { IfOk result (λ done. StaysOpen heap trace.now 1 done.0) }
    ensures unheld { IfOk result (λ done. KeepsUnheld heap.lists (asked.fresh ∷ []) done.0.lists) }
    ensures stopped { IfErr result (IsStoppedWhere
        (SpendsKrealloc heap trace.now asked.cpu asked.object asked.size asked.fresh)) }
{
    match heap.lists.board()[asked.object as usize] {
        None => Ok((heap, at_once(alloc, ClientAnswer::NotHeld))),
        Some(held) => krealloc_of(alloc, heap, trace, asked, held.cache),
    }
}

/// The same for an object of this live cache.
fn krealloc_of(
    alloc: Global,
    heap: Heap,
    trace: &Trace,
    asked: Wish,
    cache: u8,
) -> Result<(Heap, ClientDone), LineStopped>
    requires asks { IsOpenTo heap trace.now 1 }
    requires live { IsSome (cache_of heap.lists cache) }
    requires few { length trace.now.names < 2 ^ 32 }
    requires cpu { asked.cpu < trace.now.cpus }
    requires object { IsSoundObject trace.now asked.object }
    requires fresh { IsSoundObject trace.now asked.fresh }
    requires unheld { IsUnheld heap.lists asked.fresh }
    ensures served { IfOk result (λ done. ServesHeld heap trace.now asked.cpu asked.object
        asked.size asked.fresh cache done.1 done.0) }
    ensures stays { IfOk result (λ done. StaysOpen heap trace.now 1 done.0) }
    ensures unheld { IfOk result (λ done. KeepsUnheld heap.lists (asked.fresh ∷ []) done.0.lists) }
    ensures stopped { IfErr result (IsStoppedWhere
        (SpendsHeld heap trace.now asked.cpu asked.object asked.size asked.fresh cache)) }
{
    if !is_kmalloc(&heap.lists, cache) {
        return Ok((heap, at_once(alloc, ClientAnswer::NotKmalloc)));
    }
    let Some(class) = class_place(asked.size) else {
        return Ok((heap, at_once(alloc, ClientAnswer::TooLarge)));
    };
    if is_enough(&heap.lists, cache, asked.size) {
        return Ok((heap, at_once(alloc, ClientAnswer::Stays)));
    }
    move_to(alloc, heap, trace, asked, class)
}

/// Takes a fresh object of a class, and then frees the other one. Where none is given, the other one stays.
fn move_to(
    alloc: Global,
    heap: Heap,
    trace: &Trace,
    asked: Wish,
    class: u32,
) -> Result<(Heap, ClientDone), LineStopped>
    requires asks { IsOpenTo heap trace.now 1 }
    requires few { length trace.now.names < 2 ^ 32 }
    requires cpu { asked.cpu < trace.now.cpus }
    requires class { class < 13 }
    requires object { IsSoundObject trace.now asked.object }
    requires fresh { IsSoundObject trace.now asked.fresh }
    requires unheld { IsUnheld heap.lists asked.fresh }
    ensures served { IfOk result (λ done. Moves heap trace.now asked.cpu class asked.object
        asked.fresh done.1 done.0) }
    ensures stays { IfOk result (λ done. StaysOpen heap trace.now 1 done.0) }
    ensures unheld { IfOk result (λ done. KeepsUnheld heap.lists (asked.fresh ∷ []) done.0.lists) }
    ensures stopped { IfErr result (IsStoppedWhere
        (SpendsMove heap trace.now asked.cpu class asked.object asked.fresh)) }
{
    let mut rounds = Vec::new(alloc);
    let (mid, told) = take_of_class(
        alloc,
        heap,
        trace,
        asked.cpu,
        class,
        asked.fresh,
        &mut rounds,
    )?;
    match told {
        Ok(address) => free_other(alloc, mid, trace, asked, address, rounds),
        Err(why) => {
            let done = ClientDone {
                rounds: Sequence::from_vec(rounds),
                answer: ClientAnswer::Refused(why),
            };
            Ok((mid, done))
        }
    }
}

/// Frees the object that a fresh one at this address stands for, after these rounds.
fn free_other(
    alloc: Global,
    heap: Heap,
    trace: &Trace,
    asked: Wish,
    address: u32,
    rounds: Vec<ClientRound>,
) -> Result<(Heap, ClientDone), LineStopped>
    requires asks { IsOpenTo heap trace.now 0 }
    requires cpu { asked.cpu < trace.now.cpus }
    requires object { IsSoundObject trace.now asked.object }
    ensures moved { IfOk result (λ done.
        MovesOn heap asked.cpu asked.object (Ok address) rounds.items done.1 done.0) }
    ensures stays { IfOk result (λ done. StaysOpen heap trace.now 0 done.0) }
    ensures unheld { IfOk result (λ done. KeepsUnheld heap.lists [] done.0.lists) }
    ensures stopped { IfErr result (IsStoppedWhere (SpendsAsked heap asked.cpu (Free asked.object ∷ []))) }
{
    let mut rounds = rounds;
    let freed = Act::Free {
        object: asked.object,
    };
    let (after, round) = client_round(alloc, heap, asked.cpu, &[freed])?;
    rounds.push(round)?;
    let done = ClientDone {
        rounds: Sequence::from_vec(rounds),
        answer: ClientAnswer::Moved(address),
    };
    Ok((after, done))
}

/// Does a `kmalloc`, a `kget` or a `krealloc`. Where it finds no memory, or all turns of a round of it are made, the
/// heap is gone.
pub fn serve(
    alloc: Global,
    heap: Heap,
    trace: &Trace,
    client: &Client,
) -> Result<(Heap, ClientDone), LineStopped>
    requires servable { IsServable heap trace.now client.now }
    requires line { IsKmallocLine client.now }
    ensures served { IfOk result (λ done. ServesClasses heap trace.now client.now done.1 done.0) }
    ensures stays { IfOk result (λ done.
        StaysOpen heap trace.now (length (asked_objects client.now)) done.0) }
    ensures unheld { IfOk result (λ done.
        KeepsUnheld heap.lists (asked_objects client.now) done.0.lists) }
    ensures stopped { IfErr result (IsStoppedWhere (SpendsClasses heap trace.now client.now)) }
{
    match client {
        Client::Kget { cpu, size, object } => kget(alloc, heap, trace, *cpu, *size, *object),
        Client::Krealloc {
            cpu,
            object,
            size,
            fresh,
        } => {
            let asked = Wish {
                cpu: *cpu,
                object: *object,
                size: *size,
                fresh: *fresh,
            };
            krealloc(alloc, heap, trace, asked)
        }
        Client::Kmalloc => Ok(kmalloc(alloc, heap, trace)?),
        Client::Bulk { .. }
        | Client::Bulkfree { .. }
        | Client::Mempool { .. }
        | Client::Mget { .. }
        | Client::Mput { .. } => unreachable!(),
    }
}

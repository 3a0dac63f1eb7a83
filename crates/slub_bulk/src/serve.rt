//! Serving `bulk` and `bulkfree`.

ghost use Rattle.std.specs.Prelude.{◌≡◌, ◌+◌, ◌^◌, ◌<◌, ◌≤◌, [], length, count_by, All, IfErr, IfOk};
ghost use Rattle.std.specs.List.{range_with_len};
ghost use Rattle.slub_trace.specs.Kinds.{is_freed};
ghost use Rattle.slub_trace.specs.declared.trace.Trace.{Trace as Read};
ghost use Rattle.slub_trace.specs.Sound.{asked_objects};
ghost use Rattle.slub_slabinfo_text.specs.Asked.{frees_of};
ghost use Rattle.slub_slabinfo_text.specs.Bulk.{free_order};
ghost use Rattle.slub_slabinfo_text.specs.Lawful.{IsUnheld};
ghost use Rattle.slub_engine.specs.Steps.{KeepsUnheld};
ghost use Rattle.slub_rounds.specs.Asked.{IsOpenTo, IsServable, SpendsAsked, StaysOpen};
ghost use Rattle.slub_rounds.specs.BulkLines.{FreesInOrder, IsBulkLine, ServesBulk, ServesBulkFree, ServesBulkLines, SpendsBulkFree, SpendsBulkLines, SpendsTaking, bulk_answer, first_unheld, frame_under, places_under};
ghost use Rattle.slub_rounds.specs.ClientLaws.{IsNumber};
ghost use Rattle.slub_rounds.specs.ClientStopped.{IsStoppedWhere};
ghost use Rattle.slub_bulk.specs.Places.{places_of};

use crate::all::{free_round, take_all};
use crate::order::{ObjectAt, free_order};
use slub_common::no_memory::NoMemory;
use slub_common::sequence::Sequence;
use slub_rounds::client::{LineStopped, at_once};
use slub_rounds::heap::Heap;
use slub_slabinfo_text::client::{CacheRefusal, ClientAnswer, ClientDone};
use slub_trace::reply::{Kind, Reply};
use slub_trace::trace::{Client, Trace};
use std::alloc::{AllocError, Global};

/// These many numbers, from the first on.
pub fn numbers_from(alloc: Global, first: u32, count: u32) -> Result<Vec<u32>, AllocError>
    requires { first + count < 2 ^ 32 }
    ensures { IfOk result (λ numbers. numbers.items ≡ range_with_len first count) }
{
    let mut numbers = Vec::with_capacity(alloc, count as usize)?;
    for at in 0..count {
        numbers.push(first + at)?;
    }
    Ok(numbers)
}

/// What a `bulk` is answered.
fn bulk_answer(refusal: Option<CacheRefusal>) -> ClientAnswer
    ensures { result ≡ bulk_answer refusal }
{
    match refusal {
        None => ClientAnswer::All,
        Some(why) => ClientAnswer::Nothing(why),
    }
}

/// Allocates an object under each of so many numbers from the first on, or none
/// (`kmem_cache_alloc_bulk`).
fn bulk(
    alloc: Global,
    heap: Heap,
    cpu: u32,
    place: u32,
    first: u32,
    count: u32,
) -> Result<(Heap, ClientDone), LineStopped>
    requires asks { (trace : Read) × IsOpenTo heap trace (length (range_with_len first count)) }
    requires cpu { cpu < heap.lists.cpus }
    requires place { place < length heap.lists.table.kept }
    requires first { 1 ≤ first }
    requires last { first + count ≤ length heap.lists.board }
    requires unheld { All (IsUnheld heap.lists) (range_with_len first count) }
    ensures served { IfOk result (λ done.
        ServesBulk heap cpu place (range_with_len first count) done.1 done.0) }
    ensures stays { IfOk result (λ done.
        (trace : Read) → StaysOpen heap trace (length (range_with_len first count)) done.0) }
    ensures unheld { IfOk result (λ done. KeepsUnheld heap.lists (range_with_len first count) done.0.lists) }
    ensures stopped { IfErr result (IsStoppedWhere (SpendsTaking heap cpu place (range_with_len first count))) }
{
    let numbers = numbers_from(alloc, first, count)?;
    let mut rounds = Vec::new(alloc);
    let (after, refusal) = take_all(alloc, heap, cpu, place, numbers.as_slice(), &mut rounds)?;
    let done = ClientDone {
        rounds: Sequence::from_vec(rounds),
        answer: bulk_answer(refusal),
    };
    Ok((after, done))
}

/// The first of these numbers that isn't on the board.
fn first_unheld(heap: &Heap, numbers: &[u32]) -> Option<u32>
    requires { All (IsNumber heap.now) numbers.now }
    ensures { result ≡ first_unheld heap.now.lists numbers.now }
{
    for number in numbers {
        if heap.lists.board()[*number as usize].is_none() {
            return Some(*number);
        }
    }
    None
}

/// Numbers, each with the first frame of the slab in which its object stands.
fn places(alloc: Global, heap: &Heap, numbers: &[u32]) -> Result<Vec<ObjectAt>, NoMemory>
    requires { All (IsNumber heap.now) numbers.now }
    ensures { IfOk result (λ places. places_of places.items ≡ places_under heap.now.lists numbers.now) }
{
    let mut places = Vec::with_capacity(alloc, numbers.len())?;
    for number in numbers {
        places.push(ObjectAt {
            object: *number,
            frame: frame_under(heap, *number),
        })?;
    }
    Ok(places)
}

/// The first frame of the slab in which the object of a number stands, or 0.
fn frame_under(heap: &Heap, object: u32) -> u16
    requires { IsNumber heap.now object }
    ensures { result ≡ frame_under heap.now.lists object }
{
    match heap.lists.board()[object as usize] {
        Some(held) => held.frame,
        None => 0,
    }
}

/// How many of these replies tell that an object was freed.
fn freed_in(replies: &[Reply]) -> usize
    ensures value { result ≡ count_by is_freed replies.now }
    ensures few { result ≤ length replies.now }
{
    replies
        .iter()
        .filter(|reply| matches!(reply.kind(), Kind::Frees))
        .count()
}

/// These numbers in the order of a bulk free.
fn in_free_order(alloc: Global, heap: &Heap, numbers: &[u32]) -> Result<Vec<u32>, NoMemory>
    requires { All (IsNumber heap.now) numbers.now }
    ensures { IfOk result (λ order. order.items ≡ free_order (places_under heap.now.lists numbers.now)) }
{
    let places = places(alloc, heap, numbers)?;
    let mut order = vec![in alloc; 0; numbers.len()]?;
    free_order(places.as_slice(), order.as_mut_slice());
    Ok(order)
}

/// Frees so many numbers from the first on, slab by slab (`kmem_cache_free_bulk`), where all are on the
/// board.
fn bulk_free(
    alloc: Global,
    heap: Heap,
    cpu: u32,
    first: u32,
    count: u32,
) -> Result<(Heap, ClientDone), LineStopped>
    requires asks { (trace : Read) × IsOpenTo heap trace 0 }
    requires cpu { cpu < heap.lists.cpus }
    requires first { 1 ≤ first }
    requires last { first + count ≤ length heap.lists.board }
    ensures served { IfOk result (λ done.
        ServesBulkFree heap cpu (range_with_len first count) done.1 done.0) }
    ensures stays { IfOk result (λ done. (trace : Read) → StaysOpen heap trace 0 done.0) }
    ensures unheld { IfOk result (λ done. KeepsUnheld heap.lists [] done.0.lists) }
    ensures stopped { IfErr result (IsStoppedWhere (SpendsBulkFree heap cpu (range_with_len first count))) }
{
    let numbers = numbers_from(alloc, first, count)?;
    if let Some(number) = first_unheld(&heap, numbers.as_slice()) {
        return Ok((heap, at_once(alloc, ClientAnswer::NotHeldOf(number))));
    }
    let order = in_free_order(alloc, &heap, numbers.as_slice())?;
    free_all(alloc, heap, cpu, order.as_slice())
}

/// Frees these numbers by one round, in this order.
fn free_all(
    alloc: Global,
    heap: Heap,
    cpu: u32,
    numbers: &[u32],
) -> Result<(Heap, ClientDone), LineStopped>
    requires asks { (trace : Read) × IsOpenTo heap trace 0 }
    requires cpu { cpu < heap.lists.cpus }
    requires known { All (IsNumber heap) numbers.now }
    requires few { length numbers.now < 2 ^ 32 }
    ensures served { IfOk result (λ done. FreesInOrder heap cpu numbers.now done.1 done.0) }
    ensures stays { IfOk result (λ done. (trace : Read) → StaysOpen heap trace 0 done.0) }
    ensures unheld { IfOk result (λ done. KeepsUnheld heap.lists [] done.0.lists) }
    ensures stopped { IfErr result (IsStoppedWhere (SpendsAsked heap cpu (frees_of numbers.now))) }
{
    let (after, round) = free_round(alloc, heap, cpu, numbers)?;
    let freed = freed_in(round.result.replies.as_slice()) as u32;
    let mut rounds = Vec::new(alloc);
    rounds.push(round)?;
    let done = ClientDone {
        rounds: Sequence::from_vec(rounds),
        answer: ClientAnswer::BulkFreed(freed),
    };
    Ok((after, done))
}

/// Does a `bulk` or a `bulkfree`. Where it stops, the heap is gone.
pub fn serve(
    alloc: Global,
    heap: Heap,
    trace: &Trace,
    client: &Client,
) -> Result<(Heap, ClientDone), LineStopped>
    requires servable { IsServable heap trace.now client.now }
    requires line { IsBulkLine client.now }
    ensures served { IfOk result (λ done. ServesBulkLines heap client.now done.1 done.0) }
    ensures stays { IfOk result (λ done. StaysOpen heap trace.now (length (asked_objects client.now)) done.0) }
    ensures unheld { IfOk result (λ done. KeepsUnheld heap.lists (asked_objects client.now) done.0.lists) }
    ensures stopped { IfErr result (IsStoppedWhere (SpendsBulkLines heap client.now)) }
{
    match client {
        Client::Bulk {
            cpu,
            name,
            first,
            count,
        } => bulk(alloc, heap, *cpu, *name, *first, *count),
        Client::Bulkfree { cpu, first, count } => bulk_free(alloc, heap, *cpu, *first, *count),
        Client::Kmalloc
        | Client::Kget { .. }
        | Client::Krealloc { .. }
        | Client::Mempool { .. }
        | Client::Mget { .. }
        | Client::Mput { .. } => unreachable!(),
    }
}

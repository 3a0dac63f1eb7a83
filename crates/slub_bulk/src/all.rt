//! Taking all of some numbers, or none.

ghost use Rattle.std.specs.Prelude.{◌≡◌, ◌^◌, ◌<◌, ◌≤◌, ◌++◌, [], ◌∷◌, length, All, IfErr, IfOk, if◌then◌else◌, nat_eq};
ghost use Rattle.std.specs.List.{IsDistinct};
ghost use Rattle.slub_trace.specs.Kinds.{is_given};
ghost use Rattle.slub_trace.specs.declared.trace.Trace.{Trace};
ghost use Rattle.slub_slabinfo_text.specs.Asked.{first_refusal, frees_of};
ghost use Rattle.slub_slabinfo_text.specs.Lawful.{IsUnheld};
ghost use Rattle.slub_engine.specs.Steps.{KeepsUnheld};
ghost use Rattle.slub_rounds.specs.Asked.{DoesAsked, IsOpenTo, SpendsAsked, StaysOpen};
ghost use Rattle.slub_rounds.specs.BulkLines.{FreesAgain, SpendsAgain, SpendsTaking, TakesAll, allocs_of, replied};
ghost use Rattle.slub_rounds.specs.ClientLaws.{IsNumber};
ghost use Rattle.slub_rounds.specs.ClientStopped.{IsStoppedWhere};

use slub_common::no_memory::NoMemory;
use slub_rounds::client::{LineStopped, client_round};
use slub_rounds::heap::Heap;
use slub_slabinfo_text::client::{CacheRefusal, ClientRound};
use slub_trace::event::Act;
use slub_trace::reply::{Kind, Reply};
use std::alloc::{AllocError, Global};

/// Allocates an object under each of these numbers from the cache that the name at a place names, in one
/// round. Where one is refused, a second round frees those that were given, in their order; the first
/// refusal, or none where all were given.
pub fn take_all(
    alloc: Global,
    heap: Heap,
    cpu: u32,
    place: u32,
    numbers: &[u32],
    rounds: &mut Vec<ClientRound>,
) -> Result<(Heap, Option<CacheRefusal>), LineStopped>
    requires asks { (trace : Trace) × IsOpenTo heap trace (length numbers.now) }
    requires cpu { cpu < heap.lists.cpus }
    requires place { place < length heap.lists.table.kept }
    requires known { All (IsNumber heap) numbers.now }
    requires unheld { All (IsUnheld heap.lists) numbers.now }
    requires distinct { IsDistinct nat_eq numbers.now }
    requires empty { rounds.old.items ≡ [] }
    ensures taken { IfOk result (λ done.
        TakesAll heap cpu place numbers.now done.1 rounds.new.items done.0) }
    ensures stays { IfOk result (λ done. (trace : Trace) → StaysOpen heap trace (length numbers.now) done.0) }
    ensures unheld { IfOk result (λ done. KeepsUnheld heap.lists numbers.now done.0.lists) }
    ensures stopped { IfErr result (IsStoppedWhere (SpendsTaking heap cpu place numbers.now)) }
{
    let (mid, first) = alloc_round(alloc, heap, cpu, place, numbers)?;
    let replies = first.result.replies.as_slice();
    let Some(why) = first_refusal(replies) else {
        rounds.push(first)?;
        return Ok((mid, None));
    };
    let given = given_of(alloc, numbers, replies)?;
    let after = free_again(alloc, mid, cpu, given.as_slice(), first, rounds)?;
    Ok((after, Some(why)))
}

/// Frees these numbers by one more round, where there are any, behind the first round.
fn free_again(
    alloc: Global,
    heap: Heap,
    cpu: u32,
    numbers: &[u32],
    first: ClientRound,
    rounds: &mut Vec<ClientRound>,
) -> Result<Heap, LineStopped>
    requires asks { (trace : Trace) × IsOpenTo heap trace 0 }
    requires cpu { cpu < heap.lists.cpus }
    requires known { All (IsNumber heap) numbers.now }
    requires few { length numbers.now ≤ 2 ^ 32 }
    requires empty { rounds.old.items ≡ [] }
    ensures freed { IfOk result (λ after. FreesAgain heap cpu numbers.now first rounds.new.items after) }
    ensures stays { IfOk result (λ after. (trace : Trace) → StaysOpen heap trace 0 after) }
    ensures unheld { IfOk result (λ after. KeepsUnheld heap.lists [] after.lists) }
    ensures stopped { IfErr result (IsStoppedWhere (SpendsAgain heap cpu numbers.now)) }
{
    rounds.push(first)?;
    if numbers.is_empty() {
        return Ok(heap);
    }
    let (after, second) = free_round(alloc, heap, cpu, numbers)?;
    rounds.push(second)?;
    Ok(after)
}

/// One round that allocates an object under each of these numbers from the cache that the name at a place
/// names.
fn alloc_round(
    alloc: Global,
    heap: Heap,
    cpu: u32,
    place: u32,
    numbers: &[u32],
) -> Result<(Heap, ClientRound), LineStopped>
    requires asks { (trace : Trace) × IsOpenTo heap trace (length numbers.now) }
    requires cpu { cpu < heap.lists.cpus }
    requires place { place < length heap.lists.table.kept }
    requires known { All (IsNumber heap) numbers.now }
    requires unheld { All (IsUnheld heap.lists) numbers.now }
    requires distinct { IsDistinct nat_eq numbers.now }
    ensures done { IfOk result (λ done. DoesAsked heap cpu (allocs_of place numbers.now) done.1 done.0) }
    ensures stays { IfOk result (λ done. (trace : Trace) → StaysOpen heap trace (length numbers.now) done.0) }
    ensures unheld { IfOk result (λ done. KeepsUnheld heap.lists numbers.now done.0.lists) }
    ensures stopped { IfErr result (IsStoppedWhere (SpendsAsked heap cpu (allocs_of place numbers.now))) }
{
    let asked = allocs(alloc, place, numbers)?;
    client_round(alloc, heap, cpu, asked.as_slice())
}

/// One round that frees these numbers.
pub(crate) fn free_round(
    alloc: Global,
    heap: Heap,
    cpu: u32,
    numbers: &[u32],
) -> Result<(Heap, ClientRound), LineStopped>
    requires asks { (trace : Trace) × IsOpenTo heap trace 0 }
    requires cpu { cpu < heap.lists.cpus }
    requires known { All (IsNumber heap) numbers.now }
    requires few { length numbers.now ≤ 2 ^ 32 }
    ensures done { IfOk result (λ done. DoesAsked heap cpu (frees_of numbers.now) done.1 done.0) }
    ensures replies { IfOk result (λ done. length done.1.result.replies ≡ length numbers.now) }
    ensures stays { IfOk result (λ done. (trace : Trace) → StaysOpen heap trace 0 done.0) }
    ensures unheld { IfOk result (λ done. KeepsUnheld heap.lists [] done.0.lists) }
    ensures stopped { IfErr result (IsStoppedWhere (SpendsAsked heap cpu (frees_of numbers.now))) }
{
    let acts = frees(alloc, numbers)?;
    client_round(alloc, heap, cpu, acts.as_slice())
}

/// The allocations of these numbers.
fn allocs(alloc: Global, place: u32, numbers: &[u32]) -> Result<Vec<Act>, AllocError>
    ensures { IfOk result (λ acts. acts.items ≡ allocs_of place numbers.now) }
{
    numbers
        .iter()
        .map(|number| Act::Alloc {
            cache: place,
            object: *number,
        })
        .collect(alloc)
}

/// The frees of these numbers.
fn frees(alloc: Global, numbers: &[u32]) -> Result<Vec<Act>, AllocError>
    ensures { IfOk result (λ acts. acts.items ≡ frees_of numbers.now) }
{
    numbers
        .iter()
        .map(|number| Act::Free { object: *number })
        .collect(alloc)
}

/// Why the first allocation that a cache refused was.
fn first_refusal(replies: &[Reply]) -> Option<CacheRefusal>
    ensures { result ≡ first_refusal replies.now }
{
    for reply in replies {
        match CacheRefusal::of(reply) {
            Some(why) => return Some(why),
            None => {}
        }
    }
    None
}

/// The numbers that were given.
fn given_of(alloc: Global, numbers: &[u32], replies: &[Reply]) -> Result<Vec<u32>, NoMemory>
    ensures { IfOk result (λ given. given.items ≡ replied is_given numbers.now replies.now) }
{
    let mut given = Vec::new(alloc);
    for (number, reply) in numbers.iter().zip(replies) {
        note_given(&mut given, *number, reply)?;
    }
    Ok(given)
}

/// Notes a number where its reply tells that it was given.
fn note_given(given: &mut Vec<u32>, number: u32, reply: &Reply) -> Result<(), NoMemory>
    ensures { IfOk result (λ _. given.new.items
        ≡ (if is_given reply.now then given.old.items ++ number ∷ [] else given.old.items)) }
{
    if matches!(reply.kind(), Kind::Gives) {
        given.push(number)?;
    }
    Ok(())
}

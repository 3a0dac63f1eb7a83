//! A client's round: one worker's acts on one CPU.

ghost use Rattle.std.specs.Prelude.{◌≡◌, ◌<◌, [], IfErr, IfOk, MatchOption, length, slice_get};
ghost use Rattle.std.specs.List.{list_any};
ghost use Rattle.slub_trace.specs.Kinds.{is_no_memory};
ghost use Rattle.slub_trace.specs.declared.trace.Trace.{Trace};
ghost use Rattle.slub_trace.specs.Sound.{objects_of};
ghost use Rattle.slub_calls.specs.Laws.{MayDo};
ghost use Rattle.slub_slabinfo_text.specs.Asked.{Tells, round_of};
ghost use Rattle.slub_law_rounds.specs.Round.{IsRound};
ghost use Rattle.slub_engine.specs.Steps.{KeepsUnheld};
ghost use Rattle.slub_rounds.specs.Asked.{DoesAsked, IsOpenTo, SpendsAsked, StaysOpen};
ghost use Rattle.slub_rounds.specs.ClientStopped.{IsStoppedWhere};
ghost use Rattle.slub_rounds.specs.declared.client.LineStopped.TheVariants as stopped;

use crate::heap::{Heap, RoundStopped};
use slub_common::no_memory::NoMemory;
use slub_common::sequence::Sequence;
use slub_slabinfo_text::client::{CacheRefusal, ClientAnswer, ClientDone, ClientRound};
use slub_trace::event::{Act, Event, Round};
use slub_trace::reply::{Kind, Reply};
use std::alloc::{AllocError, AllocFailed, Global};

/// Why a client's line wasn't served. What it did so far is gone with the heap.
#[derive(Clone, Copy, Debug, PartialEq, Eq)]
pub enum LineStopped {
    /// There was no memory for it.
    NoMemory,
    /// All turns of a round of it are made, and the worker is unfinished.
    TurnsSpent,
}

impl From<NoMemory> for LineStopped {
    ghost from_gives = { λ _ e. e ≡ stopped.NoMemory };

    fn from(_want: NoMemory) -> LineStopped {
        LineStopped::NoMemory
    }
}

impl From<AllocError> for LineStopped {
    ghost from_gives = { λ _ e. e ≡ stopped.NoMemory };

    fn from(_e: AllocError) -> LineStopped {
        LineStopped::NoMemory
    }
}

impl<T: Drop> From<AllocFailed<T>> for LineStopped {
    ghost from_gives = { λ _ e. e ≡ stopped.NoMemory };

    fn from(_e: AllocFailed<T>) -> LineStopped {
        LineStopped::NoMemory
    }
}

/// Does a round of one worker: these acts on one CPU, in their order. A reply that no memory was there is want of memory
/// of the whole.
pub fn client_round(
    alloc: Global,
    heap: Heap,
    cpu: u32,
    acts: &[Act],
) -> Result<(Heap, ClientRound), LineStopped>
    requires cpu { cpu < heap.lists.cpus }
    requires asks { (trace : Trace) × IsOpenTo heap trace (length (objects_of (round_of cpu acts.now).events)) }
    requires may_do { (trace : Trace) × MayDo heap.lists trace (round_of cpu acts.now) }
    ensures done { IfOk result (λ done. DoesAsked heap cpu acts.now done.1 done.0) }
    ensures lawful { IfOk result (λ done.
        IsRound heap.lists (round_of cpu acts.now) done.1.result done.0.lists) }
    ensures stays { IfOk result (λ done. (trace : Trace)
        → StaysOpen heap trace (length (objects_of (round_of cpu acts.now).events)) done.0) }
    ensures unheld { IfOk result (λ done.
        KeepsUnheld heap.lists (objects_of (round_of cpu acts.now).events) done.0.lists) }
    ensures stopped { IfErr result (IsStoppedWhere (SpendsAsked heap cpu acts.now)) }
{
    let asked = one_worker(alloc, cpu, acts)?;
    match heap.round_by_text(alloc, &asked) {
        Ok((after, result)) => {
            if has_no_memory(result.replies.as_slice()) {
                return Err(LineStopped::NoMemory);
            }
            Ok((after, ClientRound { asked, result }))
        }
        Err(RoundStopped::NoMemory(_)) => Err(LineStopped::NoMemory),
        Err(RoundStopped::TurnsSpent) => Err(LineStopped::TurnsSpent),
    }
}

/// The round of one worker that does these acts on one CPU.
fn one_worker(alloc: Global, cpu: u32, acts: &[Act]) -> Result<Round, NoMemory>
    requires { cpu < 16 }
    ensures { IfOk result (λ round. round ≡ round_of cpu acts.now) }
{
    let mut events = Vec::with_capacity(alloc, acts.len())?;
    for act in acts {
        events.push(Event {
            line: 0,
            worker: 0,
            cpu: cpu as u8,
            act: *act,
        })?;
    }
    Ok(Round {
        workers: 1,
        events: Sequence::from_vec(events),
    })
}

/// An answer without a round.
pub fn at_once(alloc: Global, answer: ClientAnswer) -> ClientDone
    ensures rounds { result.rounds ≡ [] }
    ensures answer { result.answer ≡ answer }
{
    ClientDone {
        rounds: Sequence::new(alloc),
        answer,
    }
}

/// What the reply to the one allocation of a round tells: the address, or why the cache gave none. The one
/// other reply to an allocation is that no memory was there.
pub fn told(round: &ClientRound) -> Result<Result<u32, CacheRefusal>, NoMemory>
    ensures { IfOk result (λ told. MatchOption (slice_get round.now.result.replies 0) ⊥
        (λ reply. Tells reply told)) }
{
    match round.result.replies.as_slice() {
        [Reply::Given(address), ..] => Ok(Ok(*address)),
        [reply, ..] => match CacheRefusal::of(reply) {
            Some(why) => Ok(Err(why)),
            None => Err(NoMemory),
        },
        [] => Err(NoMemory),
    }
}

/// Whether one of the replies is that no memory was there.
fn has_no_memory(replies: &[Reply]) -> bool
    ensures { result ≡ list_any is_no_memory replies.now }
{
    replies
        .iter()
        .any(|reply| matches!(reply.kind(), Kind::LacksMemory))
}

//! What a round answers: replies in the order of the text, ledgers, and damages.

ghost use Rattle.std.specs.Prelude.{◌≡◌, ◌+◌, ◌<◌, ◌≤◌, ◌^◌, [], All, IfOk, length, replicate, slice_index, slice_index_or, slice_set, vec_capacity};
ghost use Rattle.std.specs.List.{zip};
ghost use Rattle.slub_lists.specs.State.{State};
ghost use Rattle.slub_lists.specs.Coherent.{IsCoherent};
ghost use Rattle.slub_core.specs.Run.{idle};
ghost use Rattle.slub_slabinfo_text.specs.Lawful.{AreLedgers};
ghost use Rattle.slub_engine.specs.Steps.{IsBlank, IsKnown};
ghost use Rattle.slub_calls.specs.Replies.{AreReplies};
ghost use Rattle.slub_rounds.specs.Answers.{AreAnswered, IsRoomFor, IsTold, MayTell, dones_of, told_by};

use slub_common::no_memory::NoMemory;
use slub_common::sequence::Sequence;
use slub_core::worker_local::Local;
use slub_engine::found::{counts_told, push_found, room_to_find};
use slub_engine::item::{blank_ledgers, note_own};
use slub_list_machine::lists::Lists;
use slub_slabinfo_text::journal::{Found, RoundResult};
use slub_trace::event::{Event, Round};
use slub_trace::ledger::Ledger;
use slub_trace::reply::Reply;
use std::alloc::Global;

/// Room for what a round answers.
#[derive(Debug, Drop)]
pub struct Answers {
    pub replies: Vec<Reply>,
    /// By worker: how many of its replies are among them.
    pub cursors: Vec<usize>,
    /// By worker.
    pub ledgers: Vec<Ledger>,
    /// By cache number: how much was found before the round.
    pub told: Vec<usize>,
    pub damages: Vec<Found>,
}

impl Answers {
    /// Room for the answers to so many events of so many workers.
    pub fn open(
        alloc: Global,
        lists: &Lists,
        events: usize,
        workers: usize,
    ) -> Result<Answers, NoMemory>
        requires coherent { IsCoherent lists.now }
        requires few { events < 2 ^ 63 }
        ensures { IfOk result (IsRoomFor lists.now events workers) }
    {
        let replies = Vec::with_capacity(alloc, events)?;
        let cursors = vec![in alloc; 0; workers]?;
        let ledgers = blank_ledgers(alloc, workers)?;
        let told = counts_told(alloc, lists)?;
        let damages = Vec::with_capacity(alloc, room_to_find(lists, events))?;
        Ok(Answers {
            replies,
            cursors,
            ledgers,
            told,
            damages,
        })
    }
}

/// What came of a round whose workers have all their replies, on the lists that it left.
pub fn result_of(lists: &Lists, round: &Round, locals: &[Local], answers: Answers) -> RoundResult
    requires { (s : State) × MayTell s lists.now round.now locals.now answers }
    ensures { (s : State) → MayTell s lists.now round.now locals.now answers → IsTold s lists.now round.now locals.now result }
{
    let Answers {
        mut replies,
        mut cursors,
        mut ledgers,
        told,
        mut damages,
    } = answers;
    let events = round.events.as_slice();
    push_replies(
        lists,
        events,
        locals,
        &mut cursors,
        &mut replies,
        &mut ledgers,
    );
    push_found(lists, &told, &mut damages);
    RoundResult {
        replies: Sequence::from_vec(replies),
        damages: Sequence::from_vec(damages),
        ledgers: Sequence::from_vec(ledgers),
    }
}

/// Puts the replies of the workers into the order of the events, and counts them in the ledgers.
fn push_replies(
    lists: &Lists,
    events: &[Event],
    locals: &[Local],
    cursors: &mut [usize],
    replies: &mut Vec<Reply>,
    ledgers: &mut [Ledger],
)
    requires coherent { IsCoherent lists.now }
    requires known { All (IsKnown lists.now (length locals.now)) events.now }
    requires answered { AreAnswered events.now locals.now }
    requires cursors { cursors.old ≡ replicate (length locals.now) 0 }
    requires empty { replies.old.items ≡ [] }
    requires room { length events.now ≤ vec_capacity replies.old }
    requires ledgers { length ledgers.old ≡ length locals.now }
    requires blank { All IsBlank ledgers.old }
    ensures replies { AreReplies events.now (dones_of locals.now) replies.new.items }
    ensures ledgers { AreLedgers lists.now (zip events.now replies.new.items) (length locals.now) ledgers.new }
{
    for event in events {
        let reply = next_reply(locals, cursors, event.worker as usize);
        note_own(ledgers, lists, event, reply);
        replies.push_reserved(reply);
    }
}

/// The next reply of a worker.
fn next_reply(locals: &[Local], cursors: &mut [usize], worker: usize) -> Reply
    requires within { worker < length locals.now }
    requires each { length cursors.old ≡ length locals.now }
    requires left { slice_index cursors.old worker < length (slice_index_or locals.now worker idle).done }
    ensures reply { result ≡ slice_index_or (told_by (slice_index_or locals.now worker idle)) (slice_index cursors.old worker) result }
    ensures cursors { cursors.new ≡ slice_set cursors.old worker (slice_index cursors.old worker + 1) }
{
    let cursor = cursors[worker];
    let reply = locals[worker].answers()[cursor].reply;
    cursors[worker] = cursor + 1;
    reply
}

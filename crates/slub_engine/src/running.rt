//! A round in the order of the text, event by event.

ghost use Rattle.std.specs.Prelude.{◌≡◌, ℕ, ◌^◌, ◌<◌, List, [], ◌∷◌, ◌++◌, IfOk};
ghost use Rattle.slub_trace.specs.declared.event.Event.{Event};
ghost use Rattle.slub_trace.specs.declared.event.Round.{Round};
ghost use Rattle.slub_lists.specs.State.{State};
ghost use Rattle.slub_lists.specs.Coherent.{IsCoherent, KeepsOthers, all_on_board};
ghost use Rattle.slub_trace.specs.Sound.{objects_of};
ghost use Rattle.slub_slabinfo_text.specs.Lawful.{Answers, DoesRound};
ghost use Rattle.slub_engine.specs.Steps.{KeepsUnheld, object_of};
ghost use Rattle.slub_engine.specs.Running.{HasRun, MayAnswer, replies_in};

use crate::found::{counts_told, push_found, room_to_find};
use crate::item::{answer, blank_ledgers, note_own};
use slub_common::no_memory::NoMemory;
use slub_common::sequence::Sequence;
use slub_list_machine::lists::Lists;
use slub_slabinfo_text::journal::{Found, RoundResult};
use slub_trace::event::Event;
use slub_trace::ledger::Ledger;
use slub_trace::reply::Reply;
use std::alloc::Global;

/// A round whose events are answered one after the other, each to its end, while it is under way.
///
/// All its memory is taken before the first event: each event makes at most one more slab that may be
/// reported, and where no cache is checked there is none.
#[derive(Debug, Drop)]
pub struct Running {
    replies: Vec<Reply>,
    /// By worker.
    ledgers: Vec<Ledger>,
    /// By cache number: how much was found before the round.
    told: Vec<usize>,
    damages: Vec<Found>,
}

impl Running {
    /// Begins a round of so many workers, with room for so many events.
    pub fn begin(
        alloc: Global,
        lists: &Lists,
        workers: usize,
        events: usize,
    ) -> Result<Running, NoMemory>
        requires coherent { IsCoherent lists.now }
        requires few { events < 2 ^ 63 }
        ensures { IfOk result (λ running. HasRun lists.now workers events [] running lists.now) }
    {
        let replies = Vec::with_capacity(alloc, events)?;
        let ledgers = blank_ledgers(alloc, workers)?;
        let told = counts_told(alloc, lists)?;
        let damages = Vec::with_capacity(alloc, room_to_find(lists, events))?;
        Ok(Running {
            replies,
            ledgers,
            told,
            damages,
        })
    }

    /// Answers the next event, counts the reply in the ledger of the event's worker, and keeps it.
    pub fn event(&mut self, lists: &mut Lists, event: &Event) -> Reply
        requires { (s : State) × (workers : ℕ) × (most : ℕ) × (done : List Event)
            × MayAnswer s workers most done self.old lists.old event.now }
        ensures runs { (s : State) (workers most : ℕ) (done : List Event)
            → MayAnswer s workers most done self.old lists.old event.now
            → HasRun s workers most (done ++ event.now ∷ []) self.new lists.new }
        ensures replies { replies_in self.new ≡ replies_in self.old ++ result ∷ [] }
        ensures answers { Answers lists.old event.now event.now.act result lists.new }
        ensures coherent { IsCoherent lists.new }
        ensures others { KeepsOthers lists.old (object_of event.now.act) lists.new }
        ensures unheld { KeepsUnheld lists.old (objects_of (event.now ∷ [])) lists.new }
    {
        let reply = answer(lists, event);
        note_own(&mut self.ledgers, lists, event, reply);
        self.replies.push_reserved(reply);
        reply
    }

    /// Ends the round: tells what was found, and puts what the workers hold on the board.
    pub fn end(self, lists: &mut Lists) -> RoundResult
        requires { (s : State) × (workers : ℕ) × (most : ℕ) × (done : List Event)
            × HasRun s workers most done self lists.old }
        ensures round { (s : State) (most : ℕ) (round : Round)
            → HasRun s round.workers most round.events self lists.old
            → DoesRound s round result lists.new }
        ensures replies { result.replies ≡ replies_in self }
        ensures coherent { IsCoherent lists.new }
        ensures board { lists.new ≡ all_on_board lists.old }
    {
        let Running {
            replies,
            ledgers,
            told,
            mut damages,
        } = self;
        push_found(lists, &told, &mut damages);
        lists.end_round();
        RoundResult {
            replies: Sequence::from_vec(replies),
            damages: Sequence::from_vec(damages),
            ledgers: Sequence::from_vec(ledgers),
        }
    }
}

//! The events of a round by tries.

ghost use Rattle.std.specs.Prelude.{◌≡◌, ◌≤◌, None, IfOk, IfSome, length};
ghost use Rattle.slub_trace.specs.declared.trace.Trace.{Trace};
ghost use Rattle.slub_lists.specs.Coherent.{IsCoherent};
ghost use Rattle.slub_law_opening.specs.Opening.{IsLaidDown};
ghost use Rattle.slub_calls.specs.Laws.{MayDo};
ghost use Rattle.slub_core.specs.Run.{IsFinished};
ghost use Rattle.slub_open_close.specs.Ids.{AreIds};
ghost use Rattle.slub_tries.specs.Begun.{PlaysRound};
ghost use Rattle.slub_tries.specs.Told.{AllAreTold, IsTold};

use crate::lone::LoneWorker;
use slub_common::no_memory::NoMemory;
use slub_list_machine::lists::Lists;
use slub_open_close::ids::Ids;
use slub_trace::event::Round;
use slub_trace::reply::Reply;
use slub_turns::machine::StepMachine;
use slub_workers::fast::Fast;
use std::alloc::Global;
use std::sync::Wait;

/// What an event was answered.
#[derive(Clone, Copy, Debug, PartialEq, Eq)]
pub struct Told {
    /// By a try of it, where it could be tried.
    pub tried: Option<Fast>,
    /// At last: with the object of the try, or by a call.
    pub reply: Reply,
}

/// What came of a round by tries.
#[derive(Debug, Drop)]
pub struct Tried {
    /// What its events were answered, in their order.
    pub told: Vec<Told>,
    /// The machine that it left, in words.
    pub machine: StepMachine,
}

impl LoneWorker {
    /// Makes the next event: by a try where it may, and by a call where that gave no object.
    pub fn next<W: Wait>(&mut self, wait: &W) -> Option<Told>
        ensures key { self.new.key ≡ self.old.key }
        ensures told { IfSome result (λ told. IsTold self.old.key self.old.standing told self.new.standing) }
        ensures none { result ≡ None → IsFinished self.old.standing.local }
        ensures same { result ≡ None → self.new ≡ self.old }
    {
        let tried = self.try_next();
        if let Some(Fast::Given(address)) = tried {
            return Some(Told {
                tried,
                reply: Reply::Given(address),
            });
        }
        match self.call_next(wait) {
            Some(reply) => Some(Told { tried, reply }),
            None => None,
        }
    }

    /// Makes all events that are left.
    pub fn all<W: Wait>(&mut self, alloc: Global, wait: &W) -> Result<Vec<Told>, NoMemory>
        ensures key { self.new.key ≡ self.old.key }
        ensures told { IfOk result (λ all. AllAreTold self.old.key self.old.standing all.items self.new.standing) }
    {
        let mut all = Vec::new(alloc);
        for _ in wait.forever() {
            match self.next(wait) {
                Some(told) => all.push(told)?,
                None => return Ok(all),
            }
        }
        unreachable!()
    }
}

/// Does the events of a round of one worker by tries, on lists and the transaction ids beside them. Where there is no
/// memory the lists are gone.
pub fn by_tries<W: Wait>(
    alloc: Global,
    wait: &W,
    lists: Lists,
    ids: &Ids,
    round: &Round,
) -> Result<Tried, NoMemory>
    requires coherent { IsCoherent lists }
    requires laid_down { IsLaidDown lists }
    requires objects { length lists.board ≤ 1048577 }
    requires may_do { (trace : Trace) × MayDo lists trace round.now }
    requires ids { AreIds lists ids.now }
    requires alone { round.now.workers ≡ 1 }
    ensures { IfOk result (λ tried. PlaysRound lists ids.now round.now tried.told.items tried.machine) }
{
    let mut lone = LoneWorker::open(alloc, lists, ids, round)?;
    let told = lone.all(alloc, wait);
    let machine = lone.close();
    Ok(Tried {
        told: told?,
        machine,
    })
}

//! A worker alone at a table of its own.

ghost use Rattle.std.specs.Prelude.{◌≡◌, ◌≤◌, None, IfOk, IfSome, length};
ghost use Rattle.slub_trace.specs.declared.trace.Trace.{Trace};
ghost use Rattle.slub_lists.specs.Coherent.{IsCoherent};
ghost use Rattle.slub_law_opening.specs.Opening.{IsLaidDown};
ghost use Rattle.slub_calls.specs.Laws.{MayDo};
ghost use Rattle.slub_open_close.specs.Ids.{AreIds};
ghost use Rattle.slub_workers.specs.Calls.{HasCalled};
ghost use Rattle.slub_workers.specs.Rule.{setup_in};
ghost use Rattle.slub_workers.specs.Try.{MayTry};
ghost use Rattle.slub_core.specs.Run.{IsFinished};
ghost use Rattle.slub_tries.specs.Begun.{Leaves, OpensInto};
ghost use Rattle.slub_tries.specs.Lone.{begins_as};
ghost use Rattle.slub_tries.specs.Told.{HasTriedNext};

use crate::opening::{machine_of, seated};
use slub_common::no_memory::NoMemory;
use slub_list_machine::lists::Lists;
use slub_open_close::ids::Ids;
use slub_trace::event::Round;
use slub_trace::reply::Reply;
use slub_turns::machine::StepMachine;
use slub_workers::fast::Fast;
use slub_workers::shared::Shared;
use slub_workers::workers::Workers;
use std::alloc::Global;
use std::marker::Model;
use std::sync::Wait;

/// A worker alone at a table of its own, between two calls. The table has to be closed.
pub struct LoneWorker {
    shared: Shared,
    /// That one.
    workers: Workers,
}

impl Model for LoneWorker {
    ghost use Rattle.slub_workers.specs.Tables.{begun_at, table_of};
    ghost use Rattle.slub_tries.specs.Lone.{Lone, SitsAlone, standing_of};

    ghost Value = { Lone };

    ghost view = { λ l. record { key = begun_at l.shared; standing = standing_of l.workers.list.items } };

    ghost invariant = { λ l. SitsAlone (begun_at l.shared) (table_of l.shared) l.workers };
}

impl LoneWorker {
    /// Opens lists, and the transaction ids beside them, into a table for the one worker of a round. Where there is no
    /// memory the lists are gone.
    pub fn open(
        alloc: Global,
        lists: Lists,
        ids: &Ids,
        round: &Round,
    ) -> Result<LoneWorker, NoMemory>
        requires coherent { IsCoherent lists }
        requires laid_down { IsLaidDown lists }
        requires objects { length lists.board ≤ 1048577 }
        requires may_do { (trace : Trace) × MayDo lists trace round.now }
        requires ids { AreIds lists ids.now }
        requires alone { round.now.workers ≡ 1 }
        ensures opens { IfOk result (λ lone. OpensInto lists ids.now round.now lone.key) }
        ensures stands { IfOk result (λ lone. lone.standing ≡ begins_as lone.key) }
    {
        let (machine, sizes) = machine_of(alloc, lists, ids, round)?;
        let (shared, workers) = seated(alloc, machine, sizes)?;
        Ok(LoneWorker { shared, workers })
    }

    /// Tries the next event by the fast path alone, where it is an allocation of a cache that isn't checked
    /// (`slab_alloc_node`).
    pub fn try_next(&mut self) -> Option<Fast>
        ensures key { self.new.key ≡ self.old.key }
        ensures tried { IfSome result (λ fast. HasTriedNext self.old.key self.old.standing fast self.new.standing) }
        ensures none { result ≡ None → ¬ MayTry (setup_in self.old.key) self.old.standing.local }
        ensures same { result ≡ None → self.new ≡ self.old }
    {
        let worker = &mut self.workers.list[0];
        if !worker.may_try(&self.shared) {
            return None;
        }
        Some(worker.try_alloc_fast(&self.shared))
    }

    /// Makes the next event, to its end, by a call.
    pub fn call_next<W: Wait>(&mut self, wait: &W) -> Option<Reply>
        ensures key { self.new.key ≡ self.old.key }
        ensures called { IfSome result (λ reply. HasCalled self.old.key self.old.standing reply self.new.standing) }
        ensures none { result ≡ None → IsFinished self.old.standing.local }
        ensures same { result ≡ None → self.new ≡ self.old }
    {
        let worker = &mut self.workers.list[0];
        if !worker.has_next() {
            return None;
        }
        Some(worker.call(wait, &self.shared))
    }

    /// Closes the table. The machine is given as the last step left it, in words.
    pub fn close(self) -> StepMachine
        ensures { Leaves self result }
    {
        let LoneWorker { shared, workers } = self;
        let ended = workers.end(&shared);
        shared.close(ended)
    }
}

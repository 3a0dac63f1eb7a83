//! A call of a worker, to its end.

ghost use Rattle.std.specs.Prelude.{◌≡◌, true, false, reverse, slice_index_or, IfSome, None};
ghost use Rattle.slub_core.specs.declared.local.Answered.{Answered};
ghost use Rattle.slub_workers.specs.Calls.{IsOver, HasCalled};
ghost use Rattle.slub_workers.specs.Tables.{begun_at, table_of};
ghost use Rattle.slub_workers.specs.Turns.{HasNext};
ghost use Rattle.slub_workers.specs.Workers.{MayTurnAt, worker_in};

use crate::shared::Shared;
use crate::waits::Waits;
use crate::worker::Worker;
use slub_core::spot::Spot;
use slub_core::worker_local::Local;
use slub_trace::reply::Reply;
use std::sync::Wait;

/// The reply to the call that came after so many replies, where that call is over.
#[inline(always)]
fn reply_after(local: &Local, told: usize) -> Option<Reply>
    ensures over { IfSome result (λ reply. IsOver told local.now × ((d : Answered) → (slice_index_or (reverse local.now.done) told d).reply ≡ reply)) }
    ensures none { result ≡ None → ¬ IsOver told local.now }
{
    let Spot::Between = local.spot() else {
        return None;
    };
    match local.answers().get(told) {
        Some(answered) => Some(answered.reply),
        None => None,
    }
}

impl Worker {
    /// Whether the worker is between two calls and has a next one.
    #[inline(always)]
    pub fn has_next(&self) -> bool
        ensures yes { result ≡ true → HasNext self.now.1.local }
        ensures no { result ≡ false → ¬ HasNext self.now.1.local }
    {
        if let Spot::Between = self.standing.local.spot() {
            return self.standing.local.has_call();
        }
        false
    }

    /// Makes the worker's next call, to its end, and tells the reply.
    pub fn call<W: Wait>(&mut self, wait: &W, shared: &Shared) -> Reply
        requires seat { MayTurnAt (begun_at shared.now) (table_of shared.now) self.old }
        requires next { HasNext self.old.1.local }
        ensures seat { MayTurnAt (begun_at shared.now) (table_of shared.now) self.new }
        ensures number { worker_in self.new ≡ worker_in self.old }
        ensures called { HasCalled (begun_at shared.now) self.old.1 result self.new.1 }
    {
        let told = self.standing.local.answers().len();
        let mut waits = Waits::new();
        for _ in wait.forever() {
            let (step, answer) = self.turn(shared, false);
            waits.pause(wait, shared, step, answer);
            if let Some(reply) = reply_after(&self.standing.local, told) {
                return reply;
            }
        }
        unreachable!()
    }
}

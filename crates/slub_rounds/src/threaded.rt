//! A round of several workers by threads.

ghost use Rattle.std.specs.Prelude.{◌≡◌, ◌≤◌, IfErr, IfOk, length};
ghost use Rattle.slub_trace.specs.declared.trace.Trace.{Trace};
ghost use Rattle.slub_lists.specs.Coherent.{IsCoherent};
ghost use Rattle.slub_law_opening.specs.Opening.{IsLaidDown};
ghost use Rattle.slub_calls.specs.Laws.{MayDo};
ghost use Rattle.slub_open_close.specs.Ids.{AreIds};
ghost use Rattle.slub_law_rounds.specs.Round.{IsRound};
ghost use Rattle.slub_rounds.specs.Rounds.{DoesRoundByThreads};

use crate::ended::Ended;
use crate::seated::{Seated, closed_at, seat_workers};
use slub_edges::gate::Gate;
use slub_list_machine::lists::Lists;
use slub_open_close::ids::Ids;
use slub_trace::event::Round;
use slub_workers::round as tables;
use std::alloc::Global;
use std::sync::Wait;
use std::thread::Threads;

/// Does a round of several workers, each in a thread of its own, which passes the gate before each of its events.
///
/// All memory is taken before the first event, but the bytes of new checked slabs; where none is found, the lists are
/// given back as they were. The cost is in proportion to the words of the machine and to the steps.
pub fn threaded<R: Threads + Wait + Sync, G: Gate + Sync>(
    rt: &R,
    gate: &G,
    alloc: Global,
    lists: Lists,
    ids: &Ids,
    round: &Round,
) -> Result<Ended, Lists>
    requires coherent { IsCoherent lists }
    requires laid_down { IsLaidDown lists }
    requires objects { length lists.board ≤ 1048577 }
    requires may_do { (trace : Trace) × MayDo lists trace round.now }
    requires ids { AreIds lists ids.now }
    ensures does { IfOk result (λ done. DoesRoundByThreads lists ids.now round.now done.result done.lists done.ids) }
    ensures lawful { IfOk result (λ done. IsRound lists round.now done.result done.lists) }
    ensures coherent { IfOk result (λ done. IsCoherent done.lists) }
    ensures laid_down { IfOk result (λ done. IsLaidDown done.lists) }
    ensures ids { IfOk result (λ done. AreIds done.lists done.ids) }
    ensures err { IfErr result (λ after. after ≡ lists) }
{
    match seat_workers(alloc, lists, ids, round) {
        Ok(seats) => {
            let Seated {
                shared,
                workers,
                waiting,
            } = seats;
            let gathered = tables::round(rt, gate, &shared, workers);
            Ok(closed_at(shared, waiting, gathered, round))
        }
        Err(lists) => Err(lists),
    }
}

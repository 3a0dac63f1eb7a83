//! A round on the lists, beside which transaction ids stand.
//!
//! `raising` raises the ids of one event: before it by what it changes whatever its reply is, and
//! after it by the object that it was given (`specs/Raising.antt`, `proofs/Raised.antt`). Here the
//! events of a round are gone over so; `proofs/Going.antt` has the invariant, that the events so
//! far ran with these ids. An event changes a CPU word twice at most (`proofs/Growing.antt`), so
//! ids that last never wrap, and the round is one that the workers can do (`proofs/Standing.antt`).

ghost use Rattle.std.specs.Prelude.{◌≡◌, ◌+◌, ◌*◌, ◌^◌, ◌<◌, ◌≤◌, ◌↔◌, IsTrue, IfOk, OnErr, All, length};
ghost use Rattle.slub_trace.specs.declared.trace.Trace.{Trace};
ghost use Rattle.slub_trace.specs.Ranges.{step_of};
ghost use Rattle.slub_lists.specs.Coherent.{IsCoherent};
ghost use Rattle.slub_calls.specs.Laws.{MayDo};
ghost use Rattle.slub_open_close.specs.Ids.{AreIds};
ghost use Rattle.slub_rounds.specs.ByText.{DoesRoundOnLists, IdsLast};

use crate::raising::{raise, raise_given};
use slub_common::no_memory::NoMemory;
use slub_engine::running::Running;
use slub_list_machine::lists::Lists;
use slub_slabinfo_text::journal::RoundResult;
use slub_trace::event::Round;
use std::alloc::Global;

/// Whether each id would have room for one change more after a round of so many events, each of which changed each CPU
/// word twice.
pub fn ids_last(words: &[u32], step: u32, events: usize) -> bool
    requires step { step ≤ 16 }
    requires few { events ≤ 2 ^ 32 }
    ensures { IsTrue result ↔ All (λ id. id + (2 * events + 1) * step < 2 ^ 32) words.now }
{
    let room = (2 * events as u64 + 1) * u64::from(step);
    for id in words {
        if u64::from(*id) + room > 0xffff_ffff {
            return false;
        }
    }
    true
}

/// Does a round: the events are answered one after the other on the lists, and the ids grow with each.
///
/// All memory is taken before the first event, but the bytes of new checked slabs.
pub fn on_lists(
    alloc: Global,
    lists: &mut Lists,
    words: &mut [u32],
    step: u32,
    round: &Round,
) -> Result<RoundResult, NoMemory>
    requires coherent { IsCoherent lists.old }
    requires objects { length lists.old.board ≤ 1048577 }
    requires may_do { (trace : Trace) × MayDo lists.old trace round.now }
    requires ids { AreIds lists.old words.old }
    requires last { IdsLast lists.old words.old round.now }
    requires step { step ≡ step_of lists.old.cpus }
    ensures does { IfOk result (λ done. DoesRoundOnLists lists.old words.old round.now done lists.new words.new) }
    ensures err_lists { OnErr result (lists.new ≡ lists.old) }
    ensures err_ids { OnErr result (words.new ≡ words.old) }
{
    let events = round.events.as_slice();
    let mut running = Running::begin(alloc, lists, round.workers as usize, events.len())?;
    for event in events {
        let word = raise(words, lists, step, event);
        let reply = running.event(lists, event);
        raise_given(words, step, word, reply);
    }
    Ok(running.end(lists))
}

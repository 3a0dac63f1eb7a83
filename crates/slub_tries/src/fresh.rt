//! A worker alone with the first round of a trace.

ghost use Rattle.std.specs.Prelude.{◌≡◌, IfOk, IfSome};
ghost use Rattle.slub_trace.specs.Sound.{IsSound};
ghost use Rattle.slub_tries.specs.Fresh.{BeginsTrace, IsFresh, IsRoundOf, PlaysTrace};

use crate::lone::LoneWorker;
use crate::tries::{Tried, by_tries};
use slub_common::no_memory::NoMemory;
use slub_engine::item::create;
use slub_list_machine::lists::Lists;
use slub_open_close::ids::Ids;
use slub_slabinfo_text::names::name_of;
use slub_trace::event::Round;
use slub_trace::trace::{Item, Trace};
use std::alloc::Global;
use std::sync::Wait;

/// A machine with the caches that a trace creates, as far as they are accepted.
fn machine(alloc: Global, trace: &Trace) -> Result<Lists, NoMemory>
    requires { IsSound trace.now }
    ensures { IfOk result (IsFresh trace.now) }
{
    let mut lists = Lists::open(
        alloc,
        trace.frames,
        trace.cpus,
        trace.objects,
        trace.names.as_slice(),
    )?;
    for item in trace.items.as_slice() {
        if let Item::Cache { name, spec } = item {
            let _answer = create(&mut lists, name_of(trace, *name), spec)?;
        }
    }
    Ok(lists)
}

/// The first round of a trace, where it has one worker.
fn first_round(trace: &Trace) -> Option<&Round>
    ensures of { IfSome result (λ round. IsRoundOf trace.now round.now) }
    ensures alone { IfSome result (λ round. round.now.workers ≡ 1) }
{
    for item in trace.items.as_slice() {
        if let Item::Round(round) = item {
            return if round.workers == 1 {
                Some(round)
            } else {
                None
            };
        }
    }
    None
}

/// The worker of the first round of a trace, alone at a table, where that round has one worker. The machine has the
/// caches that the trace creates, of which the contract says nothing, and no object.
pub fn begin(alloc: Global, trace: &Trace) -> Result<Option<LoneWorker>, NoMemory>
    requires { IsSound trace.now }
    ensures { IfOk result (λ begun. IfSome begun (BeginsTrace trace.now)) }
{
    let Some(round) = first_round(trace) else {
        return Ok(None);
    };
    let lists = machine(alloc, trace)?;
    let ids = Ids::first(alloc, trace.tid, trace.cpus)?;
    let lone = LoneWorker::open(alloc, lists, &ids, round)?;
    Ok(Some(lone))
}

/// Does the first round of a trace by tries, on such a machine.
pub fn replay<W: Wait>(alloc: Global, wait: &W, trace: &Trace) -> Result<Option<Tried>, NoMemory>
    requires { IsSound trace.now }
    ensures { IfOk result (λ done. IfSome done (λ tried. PlaysTrace trace.now tried.told.items tried.machine)) }
{
    let Some(round) = first_round(trace) else {
        return Ok(None);
    };
    let lists = machine(alloc, trace)?;
    let ids = Ids::first(alloc, trace.tid, trace.cpus)?;
    let tried = by_tries(alloc, wait, lists, &ids, round)?;
    Ok(Some(tried))
}

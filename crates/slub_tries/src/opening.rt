//! From lists to a table with one worker.

ghost use Rattle.std.specs.Prelude.{◌≡◌, ◌≤◌, IfOk, length};
ghost use Rattle.slub_trace.specs.declared.trace.Trace.{Trace};
ghost use Rattle.slub_lists.specs.Coherent.{IsCoherent};
ghost use Rattle.slub_law_opening.specs.Opening.{IsLaidDown};
ghost use Rattle.slub_calls.specs.Laws.{MayDo};
ghost use Rattle.slub_open_close.specs.Ids.{AreIds};
ghost use Rattle.slub_workers.specs.Round.{MayWork, begun_by};
ghost use Rattle.slub_workers.specs.Tables.{begun_at, table_of};
ghost use Rattle.slub_tries.specs.Begun.{OpensInto};
ghost use Rattle.slub_tries.specs.Lone.{SitsAlone, begins_as, standing_of};

use slub_calls::workers::workers;
use slub_common::no_memory::NoMemory;
use slub_list_machine::lists::Lists;
use slub_open_close::beside::Beside;
use slub_open_close::ids::Ids;
use slub_open_close::laws::besides_fit;
use slub_open_close::opening::open;
use slub_rounds::begins::begun;
use slub_trace::event::Round;
use slub_turns::machine::StepMachine;
use slub_workers::round;
use slub_workers::shared::Shared;
use slub_workers::workers::Workers;
use std::alloc::Global;

/// How many frames and object numbers a machine has.
#[derive(Clone, Copy, Debug, PartialEq, Eq)]
pub(crate) struct Sizes {
    frames: u32,
    objects: u32,
}

/// The machine in words before the first turn of a round, and its sizes.
pub(crate) fn machine_of(
    alloc: Global,
    lists: Lists,
    ids: &Ids,
    round: &Round,
) -> Result<(StepMachine, Sizes), NoMemory>
    requires coherent { IsCoherent lists }
    requires laid_down { IsLaidDown lists }
    requires objects { length lists.board ≤ 1048577 }
    requires may_do { (trace : Trace) × MayDo lists trace round.now }
    requires ids { AreIds lists ids.now }
    ensures work { IfOk result (λ m. MayWork m.0) }
    ensures sizes { IfOk result (λ m. (m.1.frames ≡ m.0.table.frames) × (m.1.objects ≡ m.0.table.objects)) }
    ensures workers { IfOk result (λ m. length m.0.locals.items ≡ round.now.workers) }
    ensures opens { IfOk result (λ m. OpensInto lists ids.now round.now (begun_by m.0)) }
{
    besides_fit();
    let beside = Beside::of(alloc, ids, lists.frames(), lists.cpus())?;
    let locals = workers(alloc, lists.caches(), round)?;
    let Ok(opened) = open(alloc, lists, beside) else {
        return Err(NoMemory);
    };
    let (machine, rest) = begun(opened, locals);
    let sizes = Sizes {
        frames: rest.frames,
        objects: rest.board.len() as u32,
    };
    Ok((machine, sizes))
}

/// A table with this machine, at which its one worker has a seat.
pub(crate) fn seated(
    alloc: Global,
    machine: StepMachine,
    sizes: Sizes,
) -> Result<(Shared, Workers), NoMemory>
    requires work { MayWork machine }
    requires sizes { (sizes.frames ≡ machine.table.frames) × (sizes.objects ≡ machine.table.objects) }
    requires alone { length machine.locals.items ≡ 1 }
    ensures key { IfOk result (λ r. begun_at r.0 ≡ begun_by machine) }
    ensures sits { IfOk result (λ r. SitsAlone (begun_at r.0) (table_of r.0) r.1) }
    ensures stands { IfOk result (λ r. standing_of r.1.list.items ≡ begins_as (begun_at r.0)) }
{
    match round::open(alloc, sizes.frames, sizes.objects, machine) {
        Ok(seated) => Ok(seated),
        Err(_unopened) => Err(NoMemory),
    }
}

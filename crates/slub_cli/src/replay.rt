//! Replaying a trace: each item is done, put into the journal, and its text is written.
//!
//! `way` says how the rounds are done, and `replies` whether the lines are written that `--replies` asks for. What takes
//! memory of an item's text is made before the item is put into the journal; the lines of a round's replies are made
//! as they are written, in one buffer that is used again. `rt` starts the threads of rounds by threads, and their
//! workers pass `gate`.

ghost use Rattle.std.specs.Prelude.{Bool, ◌≡◌, ◌<◌, ◌≤◌, [], None, Some, length, IfErr, IfOk, OnOk, IsSome};
ghost use Rattle.slub_edges.specs.Pieces.{Gives};
ghost use Rattle.slub_lists.specs.Coherent.{IsCoherent};
ghost use Rattle.slub_slabinfo_text.specs.Given.{AreWholeLines};
ghost use Rattle.slub_slabinfo_text.specs.Journal.{IsEmpty};
ghost use Rattle.slub_trace.specs.Sound.{IsSound};
ghost use Rattle.slub_slabinfo_text.specs.Lawful.{opening_of};
ghost use Rattle.slub_law_replay.specs.Runs.{IsLawful, IsReadyMachine, RunsItems, machine_of};
ghost use Rattle.slub_cli.specs.Inner.{DoesItem, IsItemStop, IsMachineOf, LeavesMachine, PutsItem, StopsAtWriteFault, StopsSpent, Tells, TookText, Totals};

use crate::stop::Stop;
use slub_edges::edges::Sink;
use slub_edges::gate::Gate;
use slub_edges::pieces::write_lines;
use slub_items::machine::Machine;
use slub_law_replay::way::Way;
use slub_slabinfo_text::item::ItemText;
use slub_slabinfo_text::journal::{Done, Journal};
use slub_slabinfo_text::journal_text::push_sums;
use slub_trace::trace::Trace;
use std::alloc::Global;
use std::sync::Wait;
use std::thread::Threads;

/// Puts an item that was done into the journal. What takes memory of its text is made before, and the text is
/// written after.
fn put_item<K: Sink>(
    alloc: Global,
    replies: bool,
    trace: &Trace,
    number: usize,
    done: Done,
    text: &mut ItemText,
    sink: &mut K,
    journal: &mut Journal,
) -> Result<(), Stop>
    requires sound { IsSound trace.now }
    requires within { number < length trace.now.items }
    requires so_far { length journal.old.items ≡ number }
    requires no_total { journal.old.total ≡ None }
    ensures put { PutsItem done journal.old journal.new result }
    ensures told { Tells replies (K.taken sink.old) (K.taken sink.new) trace.now
        journal.old journal.new result }
    ensures stops { IfErr result (IsItemStop (K.faults sink.old) (K.faults sink.new) journal.new) }
    ensures write_faults { StopsAtWriteFault (K.faults sink.old) (K.faults sink.new) result }
    ensures lines { Gives (K.pieces sink.old) (K.pieces sink.new) AreWholeLines }
    ensures counts { K.faults sink.old ≤ K.faults sink.new }
{
    text.make(alloc, trace, number, &done, replies)?;
    journal.items.push(done)?;
    text.write(
        sink,
        trace,
        number,
        &journal.items.as_slice()[number],
        replies,
    )?;
    Ok(())
}

/// Does the item of a number, and puts it into the journal.
fn do_item<R: Threads + Wait + Sync, K: Sink, G: Gate + Sync>(
    rt: &R,
    gate: &G,
    alloc: Global,
    way: Way,
    replies: bool,
    trace: &Trace,
    number: usize,
    machine: Machine,
    text: &mut ItemText,
    sink: &mut K,
    journal: &mut Journal,
) -> Result<Machine, Stop>
    requires sound { IsSound trace.now }
    requires within { number < length trace.now.items }
    requires ready { IsReadyMachine machine trace.now number }
    requires so_far { length journal.old.items ≡ number }
    requires no_total { journal.old.total ≡ None }
    ensures done { DoesItem way machine trace.now number journal.old journal.new result }
    ensures told { Tells replies (K.taken sink.old) (K.taken sink.new) trace.now
        journal.old journal.new result }
    ensures stops { IfErr result (IsItemStop (K.faults sink.old) (K.faults sink.new) journal.new) }
    ensures write_faults { StopsAtWriteFault (K.faults sink.old) (K.faults sink.new) result }
    ensures lines { Gives (K.pieces sink.old) (K.pieces sink.new) AreWholeLines }
    ensures counts { K.faults sink.old ≤ K.faults sink.new }
{
    let (after, done) = machine.item(rt, gate, alloc, trace, number, way)?;
    put_item(alloc, replies, trace, number, done, text, sink, journal)?;
    Ok(after)
}

/// Does the items in order.
fn do_items<R: Threads + Wait + Sync, K: Sink, G: Gate + Sync>(
    rt: &R,
    gate: &G,
    alloc: Global,
    way: Way,
    replies: bool,
    trace: &Trace,
    opened: Machine,
    text: &mut ItemText,
    sink: &mut K,
    journal: &mut Journal,
) -> Result<Machine, Stop>
    requires sound { IsSound trace.now }
    requires opened { opened ≡ machine_of trace.now }
    requires coherent { IsCoherent (opening_of trace.now) }
    requires begun { IsMachineOf trace.now journal.old }
    requires no_items { journal.old.items ≡ [] }
    requires no_total { journal.old.total ≡ None }
    ensures run { IfOk result (λ machine. RunsItems way (machine_of trace.now) trace.now
        trace.now.items journal.new.items machine) }
    ensures coherent { IfOk result (λ machine. IsCoherent machine.lists) }
    ensures lawful { IsLawful way trace.now journal.new }
    ensures spent { StopsSpent way trace.now journal.new result }
    ensures no_total { journal.new.total ≡ None }
    ensures told { Tells replies (K.taken sink.old) (K.taken sink.new) trace.now
        journal.old journal.new result }
    ensures stops { IfErr result (IsItemStop (K.faults sink.old) (K.faults sink.new) journal.new) }
    ensures write_faults { StopsAtWriteFault (K.faults sink.old) (K.faults sink.new) result }
    ensures lines { Gives (K.pieces sink.old) (K.pieces sink.new) AreWholeLines }
    ensures counts { K.faults sink.old ≤ K.faults sink.new }
{
    let mut machine = opened;
    for number in 0..trace.items.len() {
        machine = do_item(
            rt, gate, alloc, way, replies, trace, number, machine, text, sink, journal,
        )?;
    }
    Ok(machine)
}

/// Sums up. The text of the total is made before it is put into the journal, and written after.
fn do_total<K: Sink>(
    alloc: Global,
    trace: &Trace,
    machine: &Machine,
    sink: &mut K,
    journal: &mut Journal,
) -> Result<(), Stop>
    requires sound { IsSound trace.now }
    requires opened { IsCoherent (opening_of trace.now) }
    requires coherent { IsCoherent machine.now.lists }
    requires run { LeavesMachine trace.now journal.old machine.now }
    requires no_total { journal.old.total ≡ None }
    ensures done { Totals machine.now.lists journal.old journal.new result }
    ensures told { (replies : Bool) → Tells replies (K.taken sink.old) (K.taken sink.new)
        trace.now journal.old journal.new result }
    ensures stops { IfErr result (IsItemStop (K.faults sink.old) (K.faults sink.new) journal.new) }
    ensures write_faults { StopsAtWriteFault (K.faults sink.old) (K.faults sink.new) result }
    ensures lines { Gives (K.pieces sink.old) (K.pieces sink.new) AreWholeLines }
    ensures counts { K.faults sink.old ≤ K.faults sink.new }
{
    let sums = machine.total(journal.items.as_slice());
    let mut text = Vec::new(alloc);
    push_sums(&mut text, &sums)?;
    journal.total = Some(sums);
    write_lines(sink, &text)?;
    Ok(())
}

/// The journal is for the machine of the trace.
fn begin(trace: &Trace, journal: &mut Journal)
    ensures machine { IsMachineOf trace.now journal.new }
    ensures items { journal.new.items ≡ journal.old.items }
    ensures total { journal.new.total ≡ journal.old.total }
{
    journal.frames = trace.frames;
    journal.cpus = trace.cpus;
    journal.tid = trace.tid;
}

/// Replays a trace on a machine of its own.
pub fn do_trace<R: Threads + Wait + Sync, K: Sink, G: Gate + Sync>(
    rt: &R,
    gate: &G,
    alloc: Global,
    way: Way,
    replies: bool,
    trace: &Trace,
    sink: &mut K,
    journal: &mut Journal,
) -> Result<(), Stop>
    requires sound { IsSound trace.now }
    requires empty { IsEmpty journal.old }
    ensures lawful { IsLawful way trace.now journal.new }
    ensures spent { StopsSpent way trace.now journal.new result }
    ensures all { OnOk result (IsSome journal.new.total) }
    ensures told { TookText replies (K.taken sink.old) (K.taken sink.new) (Some trace.now)
        journal.new result }
    ensures stops { IfErr result (IsItemStop (K.faults sink.old) (K.faults sink.new) journal.new) }
    ensures write_faults { StopsAtWriteFault (K.faults sink.old) (K.faults sink.new) result }
    ensures lines { Gives (K.pieces sink.old) (K.pieces sink.new) AreWholeLines }
    ensures counts { K.faults sink.old ≤ K.faults sink.new }
{
    begin(trace, journal);
    let opened = Machine::open(alloc, trace)?;
    let mut text = ItemText::new(alloc);
    let machine = do_items(
        rt, gate, alloc, way, replies, trace, opened, &mut text, sink, journal,
    )?;
    do_total(alloc, trace, &machine, sink, journal)
}

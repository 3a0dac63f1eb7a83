//! Replaying a trace step by step.

ghost use Rattle.std.specs.Prelude.{◌≡◌, ◌+◌, ◌-◌, ◌^◌, ◌<◌, ◌∷◌, ◌++◌, [], false, IfErr, IfOk, MatchOption, OnOk, length, nat_le};
ghost use Rattle.std.specs.Option.{option_map_or};
ghost use Rattle.slub_lists.specs.Coherent.{IsCoherent};
ghost use Rattle.slub_trace.specs.Sound.{IsSound};
ghost use Rattle.slub_slabinfo_text.specs.Journal.{IsEmpty};
ghost use Rattle.slub_slabinfo_text.specs.Lawful.{opening_of};
ghost use Rattle.slub_law_replay.specs.Runs.{IsReadyMachine, machine_of};
ghost use Rattle.slub_asked.specs.declared.stop.Stop.TheVariants.{NoMemory as Want};
ghost use Rattle.slub_steps.specs.Counted.{AreCounted, AreFew, CountsOn};
ghost use Rattle.slub_steps.specs.Inner.{AreBefore, FinishesLog, IsGoodEnd, LacksEnd, MovesOn, RunsItems, StopsPlain, WritesItem, WritesPlain, WritesTotal, wanted_by};
ghost use Rattle.slub_steps.specs.Live.{live_after};
ghost use Rattle.slub_steps.specs.Written.{shows};

use crate::choices::{RoundCounts, choice_of};
use crate::live::note;
use crate::round::{ToldRound, do_round};
use crate::writing::write_item;
use slub_asked::stop::Stop;
use slub_edges::edges::Sink;
use slub_edges::gate::Gate;
use slub_edges::pieces::write_lines;
use slub_items::machine::{Machine, Stopped};
use slub_law_replay::way::Way as ReplayWay;
use slub_picks::faults::Bad;
use slub_picks::list::Part;
use slub_picks::words::Way;
use slub_slabinfo_text::journal::{Done, Journal};
use slub_slabinfo_text::journal_text::push_sums;
use slub_state_text::names::LiveNames;
use slub_trace::trace::{Item, Trace};
use std::alloc::Global;
use std::sync::Wait;
use std::thread::Threads;

/// What is done of a trace so far.
#[derive(Drop)]
pub struct Progress<K: Sink> {
    pub sink: K,
    pub journal: Journal,
    live: LiveNames,
    rounds: RoundCounts,
}

impl<K: Sink> Progress<K> {
    /// Nothing is done.
    pub fn open(alloc: Global, sink: K) -> Progress<K>
        ensures empty { IsEmpty result.journal }
        ensures live { result.live ≡ [] }
        ensures rounds { result.rounds ≡ record { lines = 0; several = 0 } }
        ensures sink { result.sink ≡ sink }
    {
        Progress {
            sink,
            journal: Journal::empty(alloc),
            live: LiveNames::new(alloc),
            rounds: RoundCounts {
                lines: 0,
                several: 0,
            },
        }
    }
}

/// Does an item that is no round, by schedule, and writes its text, if it is shown.
fn do_plain<R: Threads + Wait + Sync, K: Sink, G: Gate + Sync>(
    rt: &R,
    gate: &G,
    alloc: Global,
    machine: Machine,
    trace: &Trace,
    number: usize,
    is_shown: bool,
    sink: &mut K,
) -> Result<(Machine, Done), Stop>
    requires sound { IsSound trace.now }
    requires within { number < length trace.now.items }
    requires ready { IsReadyMachine machine trace.now number }
    ensures written { WritesPlain trace.now number machine is_shown (record { taken = K.taken sink.old; faults = K.faults sink.old }) (record { taken = K.taken sink.new; faults = K.faults sink.new }) result }
    ensures ready { IfOk result (λ done. IsReadyMachine done.0 trace.now (number + 1)) }
{
    let way = ReplayWay::Schedule { seed: 0 };
    let (after, done) = match machine.item(rt, gate, alloc, trace, number, way) {
        Ok(done) => done,
        Err(stopped) => return Err(stop_of(&stopped)),
    };
    write_item(alloc, sink, trace, number, is_shown, b"", &done)?;
    Ok((after, done))
}

/// Why an item that wasn't done stops the run.
fn stop_of(stopped: &Stopped) -> Stop
    ensures { StopsPlain stopped.now result }
{
    match stopped {
        Stopped::NoMemory(_) => Stop::NoMemory,
        Stopped::TurnsSpent => Stop::TurnsSpent,
    }
}

/// What a replay is asked for.
#[derive(Clone, Copy)]
pub struct Plan<'a> {
    pub way: &'a Way,
    /// A part that makes no turn.
    pub nothing: &'a Part,
    /// The `round` line of the one round that is shown, from 1; where none is named, all is shown.
    pub round: Option<u32>,
}

/// Does the item of a number, and writes its text, if it is shown.
fn do_one<R: Threads + Wait + Sync, K: Sink, G: Gate + Sync>(
    rt: &R,
    gate: &G,
    alloc: Global,
    plan: Plan,
    machine: Machine,
    trace: &Trace,
    number: usize,
    live: &LiveNames,
    before: RoundCounts,
    sink: K,
) -> (K, Result<(Machine, Done), Stop>)
    requires sound { IsSound trace.now }
    requires within { number < length trace.now.items }
    requires ready { IsReadyMachine machine trace.now number }
    requires few { number < 2 ^ 64 - 1 }
    requires before { AreBefore before trace.now number }
    requires nothing { plan.nothing.now.entries ≡ [] }
    ensures ready { IfOk result.1 (λ done. IsReadyMachine done.0 trace.now (number + 1)) }
    ensures counted { IfOk result.1 (λ done. CountsOn trace.now number machine.lists done.1 done.0.lists) }
    ensures written { WritesItem (wanted_by plan.entry) trace.now number machine live.now (record { taken = K.taken sink; faults = K.faults sink }) (record { taken = K.taken result.0; faults = K.faults result.0 }) result.1 }
{
    let mut sink = sink;
    match &trace.items.as_slice()[number] {
        Item::Round(round) => {
            let choice = choice_of(plan.way, plan.nothing, round, before);
            let line = before.lines.saturating_add(1);
            let place = ToldRound {
                number,
                round: line,
                is_shown: plan.shows(line),
            };
            do_round(alloc, machine, trace, place, round, live, choice, sink)
        }
        _ => {
            let is_shown = plan.round.is_none();
            let result = do_plain(rt, gate, alloc, machine, trace, number, is_shown, &mut sink);
            (sink, result)
        }
    }
}

/// Puts an item that was done into the journal, and notes the live names after it.
fn keep(
    trace: &Trace,
    item: &Item,
    machine: Machine,
    done: Done,
    live: &mut LiveNames,
    journal: &mut Journal,
) -> Result<Machine, Stop>
    ensures same { IfOk result (λ after. after ≡ machine) }
    ensures put { OnOk result (journal.new.items ≡ journal.old.items ++ done ∷ []) }
    ensures live { OnOk result (live.new ≡ live_after trace.now live.old item.now done) }
    ensures want { IfErr result (λ stop. stop ≡ Want) }
{
    note(live, trace, item, &done)?;
    journal.items.push(done)?;
    Ok(machine)
}

impl<K: Sink> Progress<K> {
    /// Does the item of a number.
    fn do_item<R: Threads + Wait + Sync, G: Gate + Sync>(
        self,
        rt: &R,
        gate: &G,
        alloc: Global,
        plan: Plan,
        machine: Machine,
        trace: &Trace,
        number: usize,
    ) -> (Progress<K>, Result<Machine, Stop>)
        requires sound { IsSound trace.now }
        requires within { number < length trace.now.items }
        requires ready { IsReadyMachine machine trace.now number }
        requires few { number < 2 ^ 64 - 1 }
        requires counted { AreCounted trace.now number self.journal.items machine.lists }
        requires before { AreBefore self.rounds trace.now number }
        requires nothing { plan.nothing.now.entries ≡ [] }
        ensures ready { IfOk result.1 (λ after. IsReadyMachine after trace.now (number + 1)) }
        ensures counted { IfOk result.1 (λ after. AreCounted trace.now (number + 1) result.0.journal.items after.lists) }
        ensures before { AreBefore result.0.rounds trace.now (number + 1) }
        ensures moved { MovesOn (wanted_by plan.entry) trace.now number machine self.journal.items self.live (record { taken = K.taken self.sink; faults = K.faults self.sink }) result.0.journal.items result.0.live (record { taken = K.taken result.0.sink; faults = K.faults result.0.sink }) result.1 }
    {
        let Progress {
            sink,
            mut journal,
            mut live,
            rounds,
        } = self;
        let item = &trace.items.as_slice()[number];
        let (sink, result) = do_one(
            rt, gate, alloc, plan, machine, trace, number, &live, rounds, sink,
        );
        let rounds = rounds.after(item);
        match result {
            Ok((machine, done)) => {
                let result = keep(trace, item, machine, done, &mut live, &mut journal);
                let progress = Progress {
                    sink,
                    journal,
                    live,
                    rounds,
                };
                (progress, result)
            }
            Err(stop) => {
                let progress = Progress {
                    sink,
                    journal,
                    live,
                    rounds,
                };
                (progress, Err(stop))
            }
        }
    }

    /// Whether all is done that is asked for.
    fn is_done(&self, plan: Plan) -> bool
        ensures { result ≡ option_map_or (λ only. nat_le only self.now.rounds.lines) plan.entry.round false }
    {
        match plan.round {
            Some(round) => self.rounds.lines >= round,
            None => false,
        }
    }

    /// Does the items, as far as they are asked for.
    pub fn do_items<R: Threads + Wait + Sync, G: Gate + Sync>(
        self,
        rt: &R,
        gate: &G,
        alloc: Global,
        plan: Plan,
        machine: Machine,
        trace: &Trace,
    ) -> (Progress<K>, Result<Machine, Stop>)
        requires sound { IsSound trace.now }
        requires opened { machine ≡ machine_of trace.now }
        requires coherent { IsCoherent (opening_of trace.now) }
        requires empty { IsEmpty self.journal }
        requires live { self.live ≡ [] }
        requires rounds { self.rounds ≡ record { lines = 0; several = 0 } }
        requires nothing { plan.nothing.now.entries ≡ [] }
        ensures coherent { IfOk result.1 (λ after. IsCoherent after.lists) }
        ensures few { IfOk result.1 (λ _. AreFew result.0.journal.items) }
        ensures run { RunsItems (wanted_by plan.entry) trace.now result.0.journal.items result.0.rounds (record { taken = K.taken self.sink; faults = K.faults self.sink }) (record { taken = K.taken result.0.sink; faults = K.faults result.0.sink }) result.1 }
    {
        let mut progress = self;
        let mut machine = machine;
        for number in 0..trace.items.len() {
            if progress.is_done(plan) {
                break;
            }
            let (after, result) = progress.do_item(rt, gate, alloc, plan, machine, trace, number);
            progress = after;
            match result {
                Ok(next) => machine = next,
                Err(stop) => return (progress, Err(stop)),
            }
        }
        (progress, Ok(machine))
    }

    /// Writes the total line.
    fn write_total(&mut self, alloc: Global, machine: &Machine) -> Result<(), Stop>
        requires coherent { IsCoherent machine.now.lists }
        requires few { AreFew self.old.journal.items }
        ensures written { WritesTotal self.old.journal.items machine.now.lists (record { taken = K.taken self.old.sink; faults = K.faults self.old.sink }) (record { taken = K.taken self.new.sink; faults = K.faults self.new.sink }) result }
        ensures items { self.new.journal.items ≡ self.old.journal.items }
        ensures rounds { self.new.rounds ≡ self.old.rounds }
    {
        let sums = machine.total(self.journal.items.as_slice());
        let mut text = Vec::new(alloc);
        push_sums(&mut text, &sums)?;
        write_lines(&mut self.sink, text.as_slice())?;
        self.journal.total = Some(sums);
        Ok(())
    }

    /// Writes what stands behind the items, and says what is lacking.
    pub fn finish(&mut self, alloc: Global, plan: Plan, machine: &Machine) -> Result<(), Stop>
        requires coherent { IsCoherent machine.now.lists }
        requires few { AreFew self.old.journal.items }
        ensures finished { FinishesLog (wanted_by plan.entry) self.old.journal.items machine.now.lists self.old.rounds (record { taken = K.taken self.old.sink; faults = K.faults self.old.sink }) (record { taken = K.taken self.new.sink; faults = K.faults self.new.sink }) result }
        ensures items { self.new.journal.items ≡ self.old.journal.items }
    {
        if plan.round.is_none() {
            self.write_total(alloc, machine)?;
        }
        match lacking(plan, self.rounds) {
            None => Ok(()),
            Some(bad) => Err(Stop::of_picks(alloc, bad)),
        }
    }
}

/// What is lacking once all is done: the round that is to be shown, or rounds for all parts of the picks.
fn lacking(plan: Plan, rounds: RoundCounts) -> Option<Bad>
    ensures { MatchOption result (IsGoodEnd (wanted_by plan.entry) rounds) (LacksEnd (wanted_by plan.entry) rounds) }
{
    match (plan.round, plan.way) {
        (Some(round), _) if rounds.lines < round => Some(Bad::NoRound(round)),
        (None, Way::Picks(list)) if list.parts.as_slice().len() > rounds.several => {
            Some(Bad::PartsLeft {
                parts: list.parts.as_slice().len(),
                rounds: rounds.several,
            })
        }
        _ => None,
    }
}

impl Plan<'_> {
    /// Whether the round that the `round` line of this number begins is shown.
    fn shows(&self, number: u32) -> bool
        ensures { result ≡ shows (wanted_by self.now) number }
    {
        match self.round {
            Some(round) => number == round,
            None => true,
        }
    }
}

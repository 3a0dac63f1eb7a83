//! The machine, and what an item does to it.

ghost use Rattle.std.specs.Prelude.{◌≡◌, ℕ, ◌+◌, ◌-◌, ◌^◌, ◌<◌, ◌≤◌, length, IfErr, IfOk, IfSome, MatchOption, None, OnErr, OnOk, Some};
ghost use Rattle.slub_lists.specs.Coherent.{IsCoherent};
ghost use Rattle.slub_trace.specs.declared.trace.Trace.{Trace as Read};
ghost use Rattle.slub_trace.specs.Sound.{IsSound, asked_objects};
ghost use Rattle.slub_calls.specs.Laws.{MayDo};
ghost use Rattle.slub_open_close.specs.Due.{AreAfter};
ghost use Rattle.slub_open_close.specs.Ids.{AreIds};
ghost use Rattle.slub_slabinfo_text.specs.Lawful.{DoesPlainAt, IsAtRest, IsPlainAt, IsReady, IsTotal, TakesMemoryAt, all_freed, all_given, opening_of};
ghost use Rattle.slub_law_rounds.specs.Round.{IsRound};
ghost use Rattle.slub_engine.specs.Steps.{KeepsUnheld};
ghost use Rattle.slub_rounds.specs.Heap.{IsSoundHeap};
ghost use Rattle.slub_rounds.specs.Asked.{IsServable, StaysOpen};
ghost use Rattle.slub_rounds.specs.Reserves.{AreSoundReserves};
ghost use Rattle.slub_rounds.specs.ClientStopped.{IsStoppedWhere};
ghost use Rattle.slub_law_replay.specs.Ways.{DoesRoundBy, ids_before};
ghost use Rattle.slub_law_replay.specs.Runs.{DoesAt, IsReadyMachine, KeepsReserves, KeepsRounds, Serves, SpendsLine, heap_of, machine_of, opening_ids};
ghost use Rattle.slub_items.specs.Ids.{LeavesIdsAt};
ghost use Rattle.slub_items.specs.Parts.{machine_on};
ghost use Rattle.slub_items.specs.Stopped.{IsMachineStopped, IsStopped};
ghost use Rattle.slub_items.specs.Watched.{DoesWatched, IsDue, IsUnwatched};

use crate::round::by_way;
use crate::watched::{Unwatched, on_heap};
use slub_common::no_memory::NoMemory;
use slub_edges::gate::Gate;
use slub_engine::item;
use slub_law_replay::laws::{
    items_leave_room, ready_lines_may_be_served, ready_rounds_may_be_done,
};
use slub_law_replay::way::Way;
use slub_list_machine::lists::Lists;
use slub_mempool::reserves::Reserves;
use slub_open_close::growth::{Due, settle};
use slub_open_close::ids::Ids;
use slub_rounds::client::LineStopped;
use slub_rounds::heap::{Heap, RoundStopped};
use slub_slabinfo_text::client::ClientDone;
use slub_slabinfo_text::journal::{Done, RoundResult, Total};
use slub_trace::event::Round;
use slub_trace::trace::{Client, Item, Trace};
use slub_turns::watch::Watch;
use std::alloc::Global;
use std::marker::Model;
use std::sync::Wait;
use std::thread::Threads;

/// The machine between two items: its lists, beside them the transaction ids of its CPU words, where the trace gives
/// the first one, the reserves of its clients, and how many `round` lines were done.
#[derive(Drop)]
pub struct Machine {
    heap: Heap,
    reserves: Reserves,
    rounds: u64,
}

impl Model for Machine {
    ghost use Rattle.slub_law_replay.specs.Runs.{MachineState};
    ghost use Rattle.slub_items.specs.Parts.{machine_on};

    ghost Value = { MachineState };

    ghost view = { λ m. machine_on m.heap m.reserves m.rounds };
}

/// Why an item wasn't done.
#[derive(Drop)]
pub enum Stopped {
    /// There was no memory for it. The machine is as it was given; with a client's line it may be gone.
    NoMemory(Option<Machine>),
    /// All turns of the round, or of one that the client's line made, are made, and a worker is unfinished.
    TurnsSpent,
}

impl Machine {
    /// The machine before the first item of a trace: no cache, no reserve, and no round done. The CPU words begin at
    /// the first ids, where the trace gives one.
    pub fn open(alloc: Global, trace: &Trace) -> Result<Machine, NoMemory>
        requires { IsSound trace.now }
        ensures opened { IfOk result (λ machine. machine ≡ machine_of trace.now) }
        ensures coherent { IsCoherent (opening_of trace.now) }
    {
        let lists = open_lists(alloc, trace)?;
        let ids = open_ids(alloc, trace)?;
        let reserves = Reserves::open(alloc)?;
        Ok(Machine {
            heap: Heap { lists, ids },
            reserves,
            rounds: 0,
        })
    }

    /// Does the item of this number, a round by the way, and gives the machine back with what came of it. The workers
    /// of a round by threads pass the gate before each of their events.
    ///
    /// The errors: `NoMemory` where none was found, only for an item that takes some, which a shrink, a destroy and a
    /// setting don't; `TurnsSpent` only for a round of two or more workers by `Way::Schedule`, or where a transaction
    /// id beside the lists may be spent.
    pub fn item<R: Threads + Wait + Sync, G: Gate + Sync>(
        mut self,
        rt: &R,
        gate: &G,
        alloc: Global,
        trace: &Trace,
        number: usize,
        way: Way,
    ) -> Result<(Machine, Done), Stopped>
        requires sound { IsSound trace.now }
        requires within { number < length trace.now.items }
        requires ready { IsReadyMachine self trace.now number }
        ensures done { IfOk result (λ done. DoesAt way self trace.now number done.1 done.0) }
        ensures ready { IfOk result (λ done. IsReadyMachine done.0 trace.now (number + 1)) }
        ensures stopped { IfErr result (IsStopped way self trace.now number) }
    {
        ready_rounds_may_be_done();
        ready_lines_may_be_served();
        items_leave_room();
        match &trace.items.as_slice()[number] {
            Item::Round(round) => {
                let (after, result) = self.round(rt, gate, alloc, round, way)?;
                Ok((after, Done::Round(result)))
            }
            Item::Client(client) => match self.serve(alloc, trace, client) {
                Ok((after, served)) => Ok((after, Done::Client(served))),
                Err(LineStopped::NoMemory) => Err(Stopped::NoMemory(None)),
                Err(LineStopped::TurnsSpent) => Err(Stopped::TurnsSpent),
            },
            _ => match self.plain_item(alloc, trace, number) {
                Ok(done) => Ok((self, done)),
                Err(NoMemory) => Err(Stopped::NoMemory(Some(self))),
            },
        }
    }

    /// Does a round by the way.
    fn round<R: Threads + Wait + Sync, G: Gate + Sync>(
        self,
        rt: &R,
        gate: &G,
        alloc: Global,
        round: &Round,
        way: Way,
    ) -> Result<(Machine, RoundResult), Stopped>
        requires sound { IsSoundHeap (heap_of self) }
        requires rest { IsAtRest self.lists }
        requires objects { length self.lists.board ≤ 1048577 }
        requires may_do { (trace : Read) × MayDo self.lists trace round.now }
        requires few { self.rounds < 2 ^ 64 - 1 }
        ensures does { IfOk result (λ done. DoesRoundBy way self.rounds self.lists self.ids
            round.now done.1 done.0.lists done.0.ids) }
        ensures lawful { IfOk result (λ done. IsRound self.lists round.now done.1 done.0.lists) }
        ensures sound { IfOk result (λ done. IsSoundHeap (heap_of done.0)) }
        ensures reserves { IfOk result (λ done. KeepsReserves self done.0) }
        ensures counted { IfOk result (λ done. done.0.rounds ≡ self.rounds + 1) }
        ensures stopped { IfErr result (IsMachineStopped way self round.now) }
    {
        let Machine {
            heap,
            reserves,
            rounds,
        } = self;
        match by_way(rt, gate, alloc, heap, round, rounds, way) {
            Ok((heap, result)) => Ok((
                Machine {
                    heap,
                    reserves,
                    rounds: rounds + 1,
                },
                result,
            )),
            Err(RoundStopped::NoMemory(heap)) => Err(Stopped::NoMemory(Some(Machine {
                heap,
                reserves,
                rounds,
            }))),
            Err(RoundStopped::TurnsSpent) => Err(Stopped::TurnsSpent),
        }
    }

    /// Does a round that is watched, of however many workers: by steps, each turn that of the worker that the watcher
    /// says, which hears what comes about in it. Where no ids stand beside the lists, it begins with new ones, and those
    /// after it are given besides the machine.
    pub fn watched_round<W: Watch>(
        self,
        alloc: Global,
        round: &Round,
        watch: W,
    ) -> (
        Result<(Machine, RoundResult, Option<Ids>), Unwatched<Machine, W::Halt>>,
        W,
    )
        requires { (trace : Read) × (number : ℕ) × IsDue self trace number round.now }
        ensures does { IfOk result.0 (λ done. DoesWatched W.begins_round W.chooses W.hears W.is_done watch result.1 self.lists self.ids round.now done.1 done.0.lists done.0.ids done.2) }
        ensures lawful { IfOk result.0 (λ done. IsRound self.lists round.now done.1 done.0.lists) }
        ensures ready { IfOk result.0 (λ done. (trace : Read) (number : ℕ) → IsDue self trace number round.now → IsReadyMachine done.0 trace (number + 1)) }
        ensures reserves { IfOk result.0 (λ done. KeepsReserves self done.0) }
        ensures counted { IfOk result.0 (λ done. done.0.rounds ≡ self.rounds + 1) }
        ensures unwatched { IfErr result.0 (IsUnwatched W.begins_round W.chooses W.hears W.halts self self.lists (ids_before self.lists self.ids) round.now watch result.1) }
    {
        ready_rounds_may_be_done();
        let Machine {
            heap,
            reserves,
            rounds,
        } = self;
        let (ran, watch) = on_heap(alloc, heap, round, watch);
        match ran {
            Ok((heap, result, others)) => {
                let machine = Machine {
                    heap,
                    reserves,
                    rounds: rounds + 1,
                };
                (Ok((machine, result, others)), watch)
            }
            Err(Unwatched::NoMemory(heap)) => {
                let machine = Machine {
                    heap,
                    reserves,
                    rounds,
                };
                (Err(Unwatched::NoMemory(machine)), watch)
            }
            Err(Unwatched::TurnsSpent) => (Err(Unwatched::TurnsSpent), watch),
            Err(Unwatched::Halted(why)) => (Err(Unwatched::Halted(why)), watch),
        }
    }

    /// Its lists.
    pub fn lists(&self) -> &Lists
        ensures { result.now ≡ self.now.lists }
    {
        &self.heap.lists
    }

    /// The transaction ids beside them, where there are some.
    pub fn ids(&self) -> Option<&Ids>
        ensures { MatchOption result (self.now.ids ≡ None) (λ ids. self.now.ids ≡ Some ids.now) }
    {
        self.heap.ids.as_ref()
    }

    /// Does an item that is neither a round nor a client's line. Where no memory is found, the machine is as it was
    /// given.
    fn plain_item(&mut self, alloc: Global, trace: &Trace, number: usize) -> Result<Done, NoMemory>
        requires sound { IsSound trace.now }
        requires within { number < length trace.now.items }
        requires plain { IsPlainAt trace.now number }
        requires ready { IsReady self.old.lists trace.now number }
        requires ids { IfSome self.old.ids (AreIds self.old.lists) }
        ensures done { IfOk result (λ done.
            DoesPlainAt self.old.lists trace.now number done self.new.lists) }
        ensures ids { IfOk result (λ done.
            LeavesIdsAt trace.now self.old.lists number done self.old.ids self.new.ids) }
        ensures reserves { KeepsReserves self.old self.new }
        ensures rounds { KeepsRounds self.old self.new }
        ensures ready { OnOk result (IsReady self.new.lists trace.now (number + 1)) }
        ensures err { OnErr result (self.new ≡ self.old) }
        ensures memory { OnErr result (TakesMemoryAt trace.now number) }
    {
        let heap = &mut self.heap;
        match &mut heap.ids {
            Some(ids) => item_beside(alloc, &mut heap.lists, ids, trace, number),
            None => item::item(alloc, &mut heap.lists, trace, number),
        }
    }

    /// Serves a client's line. Where it isn't served, the machine is gone.
    fn serve(
        self,
        alloc: Global,
        trace: &Trace,
        client: &Client,
    ) -> Result<(Machine, ClientDone), LineStopped>
        requires servable { IsServable (heap_of self) trace.now client.now }
        requires reserves { AreSoundReserves trace.now self.reserves }
        ensures served { IfOk result (λ done. Serves self trace.now client.now done.1 done.0) }
        ensures stays { IfOk result (λ done. StaysOpen (heap_of self) trace.now
            (length (asked_objects client.now)) (heap_of done.0)) }
        ensures unheld { IfOk result (λ done.
            KeepsUnheld self.lists (asked_objects client.now) done.0.lists) }
        ensures reserves { IfOk result (λ done. AreSoundReserves trace.now done.0.reserves) }
        ensures rounds { IfOk result (λ done. KeepsRounds self done.0) }
        ensures stopped { IfErr result (IsStoppedWhere (SpendsLine self trace.now client.now)) }
    {
        let Machine {
            heap,
            mut reserves,
            rounds,
        } = self;
        let (heap, done) = serve_on(alloc, heap, &mut reserves, trace, client)?;
        Ok((
            Machine {
                heap,
                reserves,
                rounds,
            },
            done,
        ))
    }

    /// The sums over all that was done, and over the machine.
    pub fn total(&self, items: &[Done]) -> Total
        requires coherent { IsCoherent self.now.lists }
        requires given { all_given items.now < 2 ^ 64 }
        requires freed { all_freed items.now < 2 ^ 64 }
        ensures { IsTotal self.now.lists items.now result }
    {
        item::total(&self.heap.lists, items)
    }
}

/// Serves a client's line on a heap, by the crate of its request. Only the last of them changes reserves.
fn serve_on(
    alloc: Global,
    heap: Heap,
    reserves: &mut Reserves,
    trace: &Trace,
    client: &Client,
) -> Result<(Heap, ClientDone), LineStopped>
    requires servable { IsServable heap trace.now client.now }
    requires reserves { AreSoundReserves trace.now reserves.old }
    ensures served { IfOk result (λ done. (rounds : ℕ) →
        Serves (machine_on heap reserves.old rounds) trace.now client.now done.1
        (machine_on done.0 reserves.new rounds)) }
    ensures stays { IfOk result (λ done.
        StaysOpen heap trace.now (length (asked_objects client.now)) done.0) }
    ensures unheld { IfOk result (λ done.
        KeepsUnheld heap.lists (asked_objects client.now) done.0.lists) }
    ensures reserves { OnOk result (AreSoundReserves trace.now reserves.new) }
    ensures stopped { IfErr result (λ why. (rounds : ℕ) → IsStoppedWhere
        (SpendsLine (machine_on heap reserves.old rounds) trace.now client.now) why) }
{
    match client {
        Client::Kmalloc | Client::Kget { .. } | Client::Krealloc { .. } => {
            slub_kmalloc::serve::serve(alloc, heap, trace, client)
        }
        Client::Bulk { .. } | Client::Bulkfree { .. } => {
            slub_bulk::serve::serve(alloc, heap, trace, client)
        }
        Client::Mempool { .. } | Client::Mget { .. } | Client::Mput { .. } => {
            reserves.serve(alloc, heap, trace, client)
        }
    }
}

/// Does an item that is neither a round nor a client's line, on lists beside which ids stand. Where no memory is found,
/// both are as they were.
fn item_beside(
    alloc: Global,
    lists: &mut Lists,
    ids: &mut Ids,
    trace: &Trace,
    number: usize,
) -> Result<Done, NoMemory>
    requires sound { IsSound trace.now }
    requires within { number < length trace.now.items }
    requires plain { IsPlainAt trace.now number }
    requires ready { IsReady lists.old trace.now number }
    requires ids { AreIds lists.old ids.old }
    ensures done { IfOk result (λ done. DoesPlainAt lists.old trace.now number done lists.new) }
    ensures ids { IfOk result (λ done.
        AreAfter trace.now lists.old number done ids.old ids.new) }
    ensures ready { OnOk result (IsReady lists.new trace.now (number + 1)) }
    ensures same_lists { OnErr result (lists.new ≡ lists.old) }
    ensures same_ids { OnErr result (ids.new ≡ ids.old) }
    ensures memory { OnErr result (TakesMemoryAt trace.now number) }
{
    let due = Due::of(lists, trace, number);
    let done = item::item(alloc, lists, trace, number)?;
    settle(ids, trace, number, &due, &done);
    Ok(done)
}

/// The lists before the first item of a trace.
fn open_lists(alloc: Global, trace: &Trace) -> Result<Lists, NoMemory>
    requires { IsSound trace.now }
    ensures opened { IfOk result (λ lists. lists ≡ opening_of trace.now) }
    ensures coherent { IsCoherent (opening_of trace.now) }
{
    Lists::open(
        alloc,
        trace.frames,
        trace.cpus,
        trace.objects,
        trace.names.as_slice(),
    )
}

/// The transaction ids before the first item of a trace, where it gives the first one.
fn open_ids(alloc: Global, trace: &Trace) -> Result<Option<Ids>, NoMemory>
    requires { IsSound trace.now }
    ensures { IfOk result (λ ids. ids ≡ opening_ids trace.now) }
{
    if trace.tid == 0 {
        return Ok(None);
    }
    let first = Ids::first(alloc, trace.tid, trace.cpus)?;
    Ok(Some(first))
}

//! A round by threads: seats for the workers, a thread for each, and the end.

ghost use Rattle.std.specs.Prelude.{◌≡◌, ◌||◌, ◌+◌, ◌<◌, ◌≤◌, Bool, List, [], ◌∷◌, ◌++◌, length, replicate, vec_capacity, map, All, IfOk, IfErr};
ghost use denote.Param.Send.{IsSync};
ghost use Rattle.slub_core.specs.declared.spot.Spot.TheVariants.{Between};
ghost use Rattle.slub_core.specs.declared.guarded.Guarded.TheVariants.{Nothing};
ghost use Rattle.slub_workers.specs.Standing.{Fork, branch, one_way};
ghost use Rattle.slub_workers.specs.Rule.{standing_first};
ghost use Rattle.slub_workers.specs.Ends.{AreFinished, AreGathered, AreSeated, AreUntried, HaveEnded, IsIdleAt, IsRoom, seated_first};
ghost use Rattle.slub_workers.specs.Ranks.{AreFresh, view_of};
ghost use Rattle.slub_workers.specs.Round.{IsUnchanged, MayWork, begun_by};
ghost use Rattle.slub_workers.specs.Seats.{all_but_last};
ghost use Rattle.slub_workers.specs.Tables.{begun_at, table_of};
ghost use Rattle.slub_workers.specs.Workers.{HasWorkedAt, MayWorkAt, countdown, worker_in};

use crate::rule::{Deals, Returns};
use crate::shared::{Opened, Shared, Unopened, WorkerSeat};
use crate::standing::Standing;
use crate::worker::Worker;
use crate::workers::{Ended, Rest, Workers};
use slub_common::no_memory::NoMemory;
use slub_core::guarded::Guarded;
use slub_core::step::Answer;
use slub_core::worker_local::Local;
use slub_edges::gate::Gate;
use slub_turns::machine::StepMachine;
use std::alloc::Global;
use std::sync::Wait;
use std::thread::{Threads, join};

/// The memory that a round takes, but for its table.
struct Room {
    /// For what the locks guard, at the end.
    values: Vec<Guarded>,
    /// By worker: what is guarded by the locks that it has, which is nothing yet.
    hands: Vec<Vec<Guarded>>,
    /// For the workers that are to work, and for those that have worked.
    workers: Vec<Worker>,
    done: Vec<Worker>,
}

/// Takes the memory of a round.
fn take_room(alloc: Global, machine: &StepMachine) -> Result<Room, NoMemory>
    ensures values { IfOk result (λ r. (r.values.items ≡ []) × (33 ≤ vec_capacity r.values)) }
    ensures hands { IfOk result (λ r. (length r.hands.items ≡ length machine.now.locals.items) × All (λ hand. hand.items ≡ replicate 33 Nothing) r.hands.items) }
    ensures workers { IfOk result (λ r. (r.workers.items ≡ []) × (length machine.now.locals.items ≤ vec_capacity r.workers)) }
    ensures done { IfOk result (λ r. (r.done.items ≡ []) × (length machine.now.locals.items ≤ vec_capacity r.done)) }
{
    let count = machine.locals.len();
    let values = Vec::with_capacity(alloc, 33)?;
    let hands = empty_hands(alloc, count)?;
    let workers = Vec::with_capacity(alloc, count)?;
    let done = Vec::with_capacity(alloc, count)?;
    Ok(Room {
        values,
        hands,
        workers,
        done,
    })
}

/// For each of so many workers nothing at each lock.
fn empty_hands(alloc: Global, count: usize) -> Result<Vec<Vec<Guarded>>, NoMemory>
    ensures count { IfOk result (λ hands. length hands.items ≡ count) }
    ensures empty { IfOk result (λ hands. All (λ hand. hand.items ≡ replicate 33 Nothing) hands.items) }
{
    let mut hands = Vec::with_capacity(alloc, count)?;
    for _ in 0..count {
        hands.push_reserved(empty_hand(alloc)?);
    }
    Ok(hands)
}

/// Nothing at each lock.
fn empty_hand(alloc: Global) -> Result<Vec<Guarded>, NoMemory>
    ensures { IfOk result (λ hand. hand.items ≡ replicate 33 Nothing) }
{
    let mut values = Vec::with_capacity(alloc, 33)?;
    for _ in 0..33usize {
        values.push_reserved(Guarded::Nothing);
    }
    Ok(values)
}

/// A seat for the last worker of the first seat's view.
fn seat_one(shared: &Shared, root: &mut WorkerSeat, local: Local, values: Vec<Guarded>) -> Worker
    requires table { root.old.table_id ≡ shared.now.words.shared.table_id }
    requires last { (view : List Fork) × (root.old.me ≡ (view ++ one_way (standing_first local) ∷ [], [])) }
    requires between { local.spot ≡ Between }
    requires values { values.items ≡ replicate 33 Nothing }
    ensures root { (root.new.table_id ≡ root.old.table_id) × (root.new.me ≡ (all_but_last root.old.me.0, [])) }
    ensures worker { result ≡ (root.old.table_id, standing_first local) }
{
    let seat = shared.words.shared.split_seat::<Deals>(root);
    Worker {
        seat,
        standing: Standing {
            local,
            values,
            tried: false,
            answer: Answer::Done,
            steps: 0,
        },
    }
}

/// A seat for each worker, the last one first. There is room for them in the list.
fn seat_all(
    shared: &Shared,
    root: &mut WorkerSeat,
    locals: &mut Vec<Local>,
    mut hands: Vec<Vec<Guarded>>,
    mut list: Vec<Worker>,
) -> Vec<Worker>
    requires table { root.old.table_id ≡ shared.now.words.shared.table_id }
    requires view { root.old.me ≡ (view_of locals.old.items, []) }
    requires fresh { AreFresh shared.now.words.shared.key locals.old.items }
    requires hands { (length hands.items ≡ length locals.old.items) × All (λ hand. hand.items ≡ replicate 33 Nothing) hands.items }
    requires room { (list.items ≡ []) × (length locals.old.items ≤ vec_capacity list) }
    ensures root { (root.new.table_id ≡ root.old.table_id) × (root.new.me ≡ ([], [])) }
    ensures seated { All (MayWorkAt shared.now.words.shared.key shared.now.words.shared.table_id) result.items }
    ensures idle { All (IsIdleAt shared.now.words.shared.table_id) result.items }
    ensures numbers { map worker_in result.items ≡ countdown (length locals.old.items) }
    ensures first { result.items ≡ seated_first shared.now.words.shared.table_id locals.old.items }
    ensures locals { (locals.new.items ≡ []) × (vec_capacity locals.new ≡ vec_capacity locals.old) }
{
    while let Some(local) = locals.pop() {
        let Some(values) = hands.pop() else {
            unreachable!()
        };
        list.push_reserved(seat_one(shared, root, local, values));
    }
    list
}

/// The worker works in the thread of this call. There is room for it in the list.
fn work_last<W: Wait, G: Gate>(
    wait: &W,
    gate: &G,
    shared: &Shared,
    worker: Worker,
    mut done: Vec<Worker>,
) -> Vec<Worker>
    requires worker { MayWorkAt shared.now.words.shared.key shared.now.words.shared.table_id worker }
    requires done { All (HasWorkedAt shared.now.words.shared.table_id) done.items }
    requires room { length done.items < vec_capacity done }
    ensures finished { All (HasWorkedAt shared.now.words.shared.table_id) result.items }
    ensures numbers { map worker_in result.items ≡ map worker_in done.items ++ worker_in worker ∷ [] }
    ensures room { vec_capacity result ≡ vec_capacity done }
{
    done.push_reserved(worker.work(wait, gate, shared));
    done
}

/// Each worker of the list works in a thread of its own, one of them in that of this call. Those that have worked stand
/// in `done`, for which there is room.
fn work_all<R: Threads + Wait + Sync, G: Gate + Sync>(
    rt: &R,
    gate: &G,
    shared: &Shared,
    mut todo: Vec<Worker>,
    done: Vec<Worker>,
) -> Vec<Worker>
    requires todo { All (MayWorkAt shared.now.words.shared.key shared.now.words.shared.table_id) todo.items }
    requires done { All (HasWorkedAt shared.now.words.shared.table_id) done.items }
    requires room { length done.items + length todo.items ≤ vec_capacity done }
    ensures finished { All (HasWorkedAt shared.now.words.shared.table_id) result.items }
    ensures numbers { map worker_in result.items ≡ map worker_in done.items ++ map worker_in todo.items }
    ensures room { vec_capacity result ≡ vec_capacity done }
{
    let Some(worker) = todo.pop() else {
        return done;
    };
    if todo.is_empty() {
        return work_last(rt, gate, shared, worker, done);
    }
    let (mut done, worker) = join(
        rt,
        || -> Vec<Worker>
            requires { IsSync R.row × IsSync G.row × All (MayWorkAt shared.now.words.shared.key shared.now.words.shared.table_id) todo.items × All (HasWorkedAt shared.now.words.shared.table_id) done.items × (length done.items + length todo.items ≤ vec_capacity done) }
            ensures { All (HasWorkedAt shared.entry.now.words.shared.table_id) result.items × (map worker_in result.items ≡ map worker_in done.items ++ map worker_in todo.items) × (vec_capacity result ≡ vec_capacity done) }
        { work_all(rt, gate, shared, todo, done) },
        || -> Worker
            requires { IsSync R.row × IsSync G.row × MayWorkAt shared.now.words.shared.key shared.now.words.shared.table_id worker }
            ensures { HasWorkedAt shared.entry.now.words.shared.table_id result × (worker_in result ≡ worker_in worker) }
        { worker.work(rt, gate, shared) },
    );
    done.push_reserved(worker);
    done
}

/// A worker that is between two calls gives its seat back. The worker, and whether it has tried.
fn take_back(shared: &Shared, root: &mut WorkerSeat, worker: Worker) -> (Local, bool)
    requires table { (root.old.table_id ≡ shared.now.words.shared.table_id) × (worker.0 ≡ shared.now.words.shared.table_id) }
    requires between { worker.1.local.spot ≡ Between }
    ensures table { root.new.table_id ≡ root.old.table_id }
    ensures root { (refused : Bool) × (f : Fork) × (result.0 ≡ (branch refused f).local) × (result.1 ≡ (branch refused f).tried) × (root.new.me ≡ (root.old.me.0 ++ f ∷ [], root.old.me.1)) }
    ensures worker { (result.0 ≡ worker.1.local) × (result.1 ≡ worker.1.tried) }
{
    let Worker { seat, standing } = worker;
    shared.words.shared.join_seat::<Returns>(root, seat);
    let Standing {
        local,
        values: _,
        tried,
        answer: _,
        steps: _,
    } = standing;
    (local, tried)
}

/// Whether one has tried, with one worker more.
fn one_tried(tried: bool, more: bool) -> bool
    ensures { result ≡ (tried || more) }
{
    tried || more
}

/// All workers give their seats back, in rising number. There is room for them.
fn take_all(
    shared: &Shared,
    mut root: WorkerSeat,
    values: Vec<Guarded>,
    mut list: Vec<Worker>,
    mut locals: Vec<Local>,
) -> Ended
    requires table { root.table_id ≡ shared.now.words.shared.table_id }
    requires view { root.me ≡ ([], []) }
    requires values { (values.items ≡ []) × (33 ≤ vec_capacity values) }
    requires list { All (IsIdleAt shared.now.words.shared.table_id) list.items }
    requires numbers { map worker_in list.items ≡ countdown (length list.items) }
    requires room { (locals.items ≡ []) × (length list.items ≤ vec_capacity locals) }
    ensures { HaveEnded shared.now.words.shared.table_id list.items result }
{
    let mut tried = false;
    while let Some(worker) = list.pop() {
        let (local, more) = take_back(shared, &mut root, worker);
        tried = one_tried(tried, more);
        locals.push_reserved(local);
    }
    Ended {
        root,
        values,
        locals,
        tried,
    }
}

impl Workers {
    /// All workers give their seats back. Each is between two calls.
    pub fn end(self, shared: &Shared) -> Ended
        requires idle { All (IsIdleAt (table_of shared.now)) self.list.items }
        requires numbers { map worker_in self.list.items ≡ countdown (length self.list.items) }
        requires room { IsRoom (table_of shared.now) (length self.list.items) self.rest }
        ensures { HaveEnded (table_of shared.now) self.list.items result }
    {
        let Workers { list, rest } = self;
        let Rest {
            root,
            values,
            locals,
            done: _,
        } = rest;
        take_all(shared, root, values, list, locals)
    }
}

/// Opens a table with the machine, which has so many frames and object numbers, and gives each of its workers a seat.
/// All memory of a round is taken here.
pub fn open(
    alloc: Global,
    frames: u32,
    objects: u32,
    machine: StepMachine,
) -> Result<(Shared, Workers), Unopened>
    requires sizes { (frames ≡ machine.table.frames) × (objects ≡ machine.table.objects) }
    requires work { MayWork machine }
    ensures key { IfOk result (λ r. begun_at r.0 ≡ begun_by machine) }
    ensures seated { IfOk result (λ r. AreSeated (begun_at r.0) (table_of r.0) r.1) }
    ensures unopened { IfErr result (λ u. IsUnchanged machine u.machine) }
{
    let Ok(room) = take_room(alloc, &machine) else {
        return Err(Unopened { machine });
    };
    let Room {
        values,
        hands,
        workers,
        done,
    } = room;
    let Opened {
        shared,
        mut root,
        mut locals,
    } = Shared::open(alloc, frames, objects, machine)?;
    let list = seat_all(&shared, &mut root, &mut locals, hands, workers);
    let rest = Rest {
        root,
        values,
        locals,
        done,
    };
    Ok((shared, Workers { list, rest }))
}

/// Each worker of a table that was opened makes its turns, in a thread of its own, until each of its calls has a reply;
/// and all give their seats back. It takes no memory, but the bytes of new checked slabs.
///
/// The table is the one that was opened with these workers: what they gave back closes that one and no other. Where the
/// system gives no more threads, a worker is run after another one.
pub fn round<R: Threads + Wait + Sync, G: Gate + Sync>(
    rt: &R,
    gate: &G,
    shared: &Shared,
    workers: Workers,
) -> Ended
    requires seated { AreSeated (begun_at shared.now) (table_of shared.now) workers }
    ensures ended { AreGathered (table_of shared.now) (length (begun_at shared.now).locals) result }
    ensures untried { AreUntried result }
    ensures finished { AreFinished result }
{
    let Workers { list, rest } = workers;
    let Rest {
        root,
        values,
        locals,
        done,
    } = rest;
    let list = work_all(rt, gate, shared, list, done);
    take_all(shared, root, values, list, locals)
}

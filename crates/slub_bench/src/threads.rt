//! Rounds of several workers by threads, against one worker, against as many replays side by side, and against a schedule:
//! in all, and from the first event to the end of the last one, as a gate notes them. The rate that several workers are to
//! have is one of events alone.

use crate::apart::four_nanos;
use crate::held::keep_memory;
use crate::runs::{best_read, best_run, gated_nanos};
use crate::schedule::{ROUNDS, SCHEDULE, small_rounds};
use crate::tries;
use crate::waits::{CountingGate, Waits};
use slub_edges::faultless::FaultlessSink;
use std::alloc::{AllocError, Global};
use std::io;
use std::rt::Clock;
use std::sync::Wait;
use std::thread::Threads;

/// The workers of a round.
const WORKERS: u32 = 4;

/// The events of a worker; with more the text of a round would be too long.
const EACH: u32 = 200_000;

/// How many runs there are of a round.
const FEW: u32 = 3;

/// How many runs there are of a round whose time is subtracted from another's: a thread that runs alone is fast at some times
/// and slow at others, and the best of each round is to be a fast one.
const MANY: u32 = 9;

/// A replay by threads.
const THREADS: &[&str] = &["replay", "--how", "threads"];

/// What a trace begins with: 4 CPUs, and a cache for each worker. None merges with another: each is larger than those
/// before it.
const HEAD: &[u8] =
    b"slubtrace 1\nmachine 4096 4\ncache dentry 192 8 R\ncache inode 200 8 R\ncache filp 208 8 R\ncache vma 216 8 R\n";

/// On which CPUs the workers allocate.
#[derive(Clone, Copy)]
enum Cpus {
    /// Each on one of its own.
    Own,
    /// All on CPU 0.
    One,
}

impl Cpus {
    fn of(self, worker: u32) -> u32 {
        match self {
            Cpus::Own => worker % 4,
            Cpus::One => 0,
        }
    }

    /// Where a worker's object is freed: one in ten on another CPU, where each has its own.
    fn of_free(self, worker: u32, nth: u32) -> u32 {
        match self {
            Cpus::Own if nth % 10 == 0 => (worker % 4 + 1) % 4,
            Cpus::Own => worker % 4,
            Cpus::One => 0,
        }
    }
}

/// Which caches the workers allocate from.
#[derive(Clone, Copy)]
enum Caches {
    /// All from one.
    One,
    /// Each from one of its own, so that no slab is shared.
    Own,
}

impl Caches {
    fn of(self, worker: u32) -> &'static str {
        match (self, worker % WORKERS) {
            (Caches::Own, 1) => "inode",
            (Caches::Own, 2) => "filp",
            (Caches::Own, 3) => "vma",
            _ => "dentry",
        }
    }
}

/// What the workers of a round do.
#[derive(Clone, Copy)]
struct Load {
    cpus: Cpus,
    caches: Caches,
    /// How many objects a worker holds at most. With 64 nearly every object is freed after its slab was left by its CPU; with
    /// 8 the slab is mostly the CPU's still.
    live: u32,
}

/// Long-lived objects, on CPUs of the workers' own.
const LONG: Load = Load {
    cpus: Cpus::Own,
    caches: Caches::One,
    live: 64,
};

/// Short-lived objects, on CPUs of the workers' own.
const SHORT: Load = Load {
    cpus: Cpus::Own,
    caches: Caches::One,
    live: 8,
};

/// Long-lived objects of caches of the workers' own, on CPUs of their own: what the machine's processors give where
/// workers share next to nothing.
const APART: Load = Load {
    cpus: Cpus::Own,
    caches: Caches::Own,
    live: 64,
};

/// Long-lived objects, all on one CPU.
const SAME: Load = Load {
    cpus: Cpus::One,
    caches: Caches::One,
    live: 64,
};

/// The lines of one worker: half as many allocations as events, and each object is freed when `load.live` more were
/// allocated.
fn push_worker(
    alloc: Global,
    text: &mut Vec<u8>,
    worker: u32,
    events: u32,
    load: Load,
) -> Result<(), AllocError> {
    let first = (worker % WORKERS) * EACH;
    let cpu = load.cpus.of(worker);
    let cache = load.caches.of(worker);
    for nth in 1..=events / 2 {
        let object = first + nth;
        let line = format!(in alloc; "alloc {worker} {cpu} {cache} {object}\n")?;
        text.extend_from_slice(line.as_bytes())?;
        if nth > load.live {
            let freed = object - load.live;
            let there = load.cpus.of_free(worker, nth);
            let line = format!(in alloc; "free {worker} {there} {freed}\n")?;
            text.extend_from_slice(line.as_bytes())?;
        }
    }
    Ok(())
}

/// A round of several workers, of which some have so many events; the others have two.
fn round_of(alloc: Global, busy: u32, events: u32, load: Load) -> Result<Vec<u8>, AllocError> {
    let mut text = Vec::from_slice(alloc, HEAD)?;
    text.extend_from_slice(format!(in alloc; "round {WORKERS}\n")?.as_bytes())?;
    for worker in 0..WORKERS {
        let events = if worker < busy { events } else { 2 };
        push_worker(alloc, &mut text, worker, events, load)?;
    }
    text.extend_from_slice(b"done\nend\n")?;
    Ok(text)
}

/// A run of a round.
#[derive(Clone, Copy)]
struct Run {
    /// Its nanoseconds, reading left out.
    nanos: u64,
    /// The nanoseconds from its first event to the end of its last one; 0 by schedule.
    events: u64,
    /// How often its workers had to wait.
    waits: Waits,
}

impl Run {
    /// The least of each of two runs, and the waits of the one with the shorter events.
    fn least(self, other: Run) -> Run {
        let waits = if other.events < self.events {
            other.waits
        } else {
            self.waits
        };
        Run {
            nanos: self.nanos.min(other.nanos),
            events: self.events.min(other.events),
            waits,
        }
    }
}

/// A run of this text.
fn run_of(
    rt: &(impl Clock + AllocGlobal + Threads + Wait + Sync),
    text: &[u8],
    words: &[&str],
) -> io::Result<Run> {
    let gate = CountingGate::new(rt)?;
    let nanos = gated_nanos(rt, text, words, &mut FaultlessSink::new(), &gate)?;
    let Some(events) = gate.nanos() else {
        return Err(io::Error::from(io::ErrorKind::Other));
    };
    Ok(Run {
        nanos,
        events,
        waits: gate.waits(),
    })
}

/// The best of so many runs of a round, and of one at least.
fn best_of(
    rt: &(impl Clock + AllocGlobal + Threads + Wait + Sync),
    busy: u32,
    events: u32,
    load: Load,
    words: &[&str],
    runs: u32,
) -> io::Result<Run> {
    let text = round_of(rt.alloc(), busy, events, load)?;
    let reading = best_read(rt, &text)?;
    let mut best = run_of(rt, &text, words)?;
    for _ in 1..runs {
        best = best.least(run_of(rt, &text, words)?);
    }
    best.nanos = best.nanos.saturating_sub(reading);
    Ok(best)
}

/// What a round costs, in picoseconds an event.
#[derive(Clone, Copy)]
struct Cost {
    /// All of it but reading: with its calls, the opening of the machine into words, its closing, and its replies.
    whole: u64,
    /// From the first event to the end of the last one.
    events: u64,
    waits: Waits,
}

/// What so many nanoseconds are in picoseconds an event.
fn each(nanos: u64, events: u64) -> u64 {
    nanos.saturating_mul(1000) / events.max(1)
}

/// What a round by threads costs of so many busy workers.
fn cost_of(
    rt: &(impl Clock + AllocGlobal + Threads + Wait + Sync),
    busy: u32,
    load: Load,
) -> io::Result<Cost> {
    let run = best_of(rt, busy, EACH, load, THREADS, FEW)?;
    let events = u64::from(busy) * u64::from(EACH);
    Ok(Cost {
        whole: each(run.nanos, events),
        events: each(run.events, events),
        waits: run.waits,
    })
}

/// The picoseconds that an event of one worker takes more in a round of twice as many: without what a round costs that
/// has none. By the best of many runs of each.
fn more_of(
    rt: &(impl Clock + AllocGlobal + Threads + Wait + Sync),
    words: &[&str],
) -> io::Result<u64> {
    let half = best_of(rt, 1, EACH / 2, LONG, words, MANY)?;
    let all = best_of(rt, 1, EACH, LONG, words, MANY)?;
    Ok(each(all.nanos.saturating_sub(half.nanos), u64::from(EACH / 2)))
}

/// How many per cent of one rate another is, by what an event costs at each.
fn percent(one: u64, each: u64) -> u64 {
    one.saturating_mul(100) / each.max(1)
}

/// Measures one worker by threads, and prints what an event costs.
fn measure_one(
    rt: &(impl Clock + AllocGlobal + Print + Threads + Wait + Sync),
    load: Load,
) -> io::Result<Cost> {
    let one = cost_of(rt, 1, load)?;
    let live = load.live;
    let whole = one.whole / 1000;
    let events = one.events / 1000;
    println!(rt;
        "one worker that holds {live} objects: {whole} ns an event, of which {events} ns from the first event to the end of the last"
    )?;
    Ok(one)
}

/// Measures four replays of one busy worker side by side, and prints what an event costs against one replay's: no more can
/// be asked of four workers of one round. The picoseconds of an event.
fn measure_apart(
    rt: &(impl Clock + AllocGlobal + Print + Threads + Wait + Sync),
    one: Cost,
) -> io::Result<u64> {
    let text = round_of(rt.alloc(), 1, EACH, LONG)?;
    let nanos = four_nanos(rt, &text, THREADS, WORKERS)?;
    let picos = each(nanos, 4 * u64::from(EACH));
    let events = picos / 1000;
    let rate = percent(one.events, picos);
    println!(rt;
        "  four such replays side by side, which share nothing: {events} ns an event, {rate} % of one's rate"
    )?;
    Ok(picos)
}

/// Prints what several workers cost against as many replays side by side, of which an event takes so many picoseconds.
fn compare(rt: &impl Print, apart: u64, several: Cost) -> io::Result<()> {
    let rate = percent(apart, several.events);
    println!(rt;
        "  from the first event to the end of the last {rate} % of the rate of the four replays side by side"
    )
}

/// Measures several workers by threads, and prints what an event costs against one worker's, and how often they had to
/// wait. What it costs.
fn measure_against(
    rt: &(impl Clock + AllocGlobal + Print + Threads + Wait + Sync),
    which: &str,
    one: Cost,
    load: Load,
) -> io::Result<Cost> {
    let several = cost_of(rt, WORKERS, load)?;
    let live = load.live;
    let whole = several.whole / 1000;
    let events = several.events / 1000;
    let whole_rate = percent(one.whole, several.whole);
    let events_rate = percent(one.events, several.events);
    let lost = several.waits.lost;
    let parked = several.waits.parked;
    println!(rt; "{WORKERS} workers on {which}, each of which holds {live} objects:")?;
    println!(rt;
        "  from the first event to the end of the last {events} ns an event, {events_rate} % of one worker's rate"
    )?;
    println!(rt; "  in all {whole} ns an event, {whole_rate} % of one worker's rate")?;
    println!(rt; "  {lost} exchanges lost, {parked} times slept on a lock")?;
    Ok(several)
}

/// Measures one worker by threads and by a schedule, each by the difference of two rounds, and prints both.
fn measure_schedule(
    rt: &(impl Clock + AllocGlobal + Print + Threads + Wait + Sync),
) -> io::Result<()> {
    let threads = more_of(rt, THREADS)?;
    let drawn = more_of(rt, SCHEDULE)?;
    let one = threads / 1000;
    let turn = drawn / 1000;
    let ratio = percent(threads, drawn);
    println!(rt;
        "  by the difference of two rounds {one} ns an event, by schedule {turn} ns: {ratio} % of that"
    )
}

/// Measures a trace of small rounds by threads, and prints it against the schedule's.
fn measure_small(
    rt: &(impl Clock + AllocGlobal + Print + Threads + Wait + Sync),
) -> io::Result<()> {
    let text = small_rounds(rt.alloc())?;
    let threads = best_run(rt, &text, THREADS)? / 1_000_000;
    let drawn = best_run(rt, &text, SCHEDULE)? / 1_000_000;
    println!(rt;
        "{ROUNDS} rounds of two workers and two events: {threads} ms, by schedule {drawn} ms"
    )
}

/// Measures small rounds, in memory that isn't held; one worker by threads and by schedule; four replays side by side;
/// several workers on CPUs of their own, with long-lived and with short-lived objects, and with caches of their own, and
/// several on one CPU, each against one, and those with long-lived objects on CPUs of their own against the four replays,
/// too; and tries.
pub(crate) fn measure(
    rt: &(impl Clock + AllocGlobal + Print + Threads + Wait + Sync),
) -> io::Result<()> {
    measure_small(rt)?;
    let _held = keep_memory(rt.alloc())?;
    let one = measure_one(rt, LONG)?;
    measure_schedule(rt)?;
    let apart = measure_apart(rt, one)?;
    let own = measure_against(rt, "CPUs of their own", one, LONG)?;
    compare(rt, apart, own)?;
    let short = measure_one(rt, SHORT)?;
    measure_against(rt, "CPUs of their own", short, SHORT)?;
    let parted = measure_against(
        rt,
        "CPUs of their own, with caches of their own",
        one,
        APART,
    )?;
    compare(rt, apart, parted)?;
    measure_against(rt, "one CPU", one, SAME)?;
    tries::measure(rt)
}

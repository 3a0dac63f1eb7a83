//! A try of the fast path and the push that undoes it, against as many loads, stores and exchanges on the words of a
//! bare table.

ghost use Rattle.std.specs.Prelude.{◌≡◌};
ghost use Rattle.slub_trace.specs.Sound.{IsSound};

use crate::nanos_since;
use crate::runs::out_of_memory;
use atomic_table::{Play, Seat, Table, TableRule};
use slub_edges::faultless::FaultlessSource;
use slub_trace::trace::Trace;
use slub_trace_reader::reading::read_trace;
use slub_tries::fresh::begin;
use slub_tries::lone::LoneWorker;
use std::alloc::{AllocError, Global};
use std::io;
use std::rt::Clock;
use std::sync::Wait;
use std::time::Instant;

/// How many allocations are made, each with the free that undoes it: so few that the worker's calls and replies stay in
/// the processor's caches.
const PAIRS: u32 = 1000;

/// How often each is measured.
const RUNS: u32 = 100;

/// A round of one worker that frees each object before it allocates the next one.
fn pairs_text(alloc: Global) -> Result<Vec<u8>, AllocError> {
    let mut text = Vec::from_slice(
        alloc,
        b"slubtrace 1\nmachine 16 1\ncache dentry 192 8 -\nround 1\n",
    )?;
    for object in 1..=PAIRS {
        let lines = format!(in alloc; "alloc 0 0 dentry {object}\nfree 0 0 {object}\n")?;
        text.extend_from_slice(lines.as_bytes())?;
    }
    text.extend_from_slice(b"done\nend\n")?;
    Ok(text)
}

/// The nanoseconds that a worker takes for all pairs. Its first allocation is made by a call: its CPU has no slab.
fn worker_nanos(rt: &(impl Clock + AllocGlobal + Wait), lone: &mut LoneWorker) -> io::Result<u64> {
    let start = Instant::now(rt)?;
    for _ in 0..PAIRS {
        lone.next(rt);
        lone.next(rt);
    }
    nanos_since(rt, &start)
}

/// The nanoseconds that all pairs take, by tries and calls.
fn tries_nanos(rt: &(impl Clock + AllocGlobal + Wait), trace: &Trace) -> io::Result<u64>
    requires { IsSound trace.now }
{
    let Ok(Some(mut lone)) = begin(rt.alloc(), trace) else {
        return Err(out_of_memory());
    };
    let nanos = worker_nanos(rt, &mut lone);
    let _machine = lone.close();
    nanos
}

/// Any numbers may stand in the words.
struct Anything;

impl TableRule<(), (), ()> for Anything {
    ghost holds = { λ _ _. Unit {0} };

    ghost first = { λ _. tt };
}

impl Play<(), ()> for Anything {
    ghost then = { λ _ _ _ _. Unit {0} };
}

type Words = Table<(), (), (), Anything, Global>;

/// The operations of a pop and of a push, the first word standing for the CPU word, the second one for a free pointer.
fn bare_pair(words: &Words, seat: &mut Seat<(), ()>)
    requires seat { seat.old.table_id ≡ words.now.shared.table_id }
    requires words { words.now.shared.table_id.words ≡ 2 }
    ensures { seat.new.table_id ≡ seat.old.table_id }
{
    let shared = &words.shared;
    let popped = shared.load::<Anything>(seat, 0);
    let next = shared.load::<Anything>(seat, 1);
    shared.compare_exchange::<Anything>(seat, 0, popped, popped.wrapping_add(1));
    let pushed = shared.load::<Anything>(seat, 0);
    shared.store::<Anything>(seat, 1, next);
    shared.compare_exchange::<Anything>(seat, 0, pushed, pushed.wrapping_add(1));
}

/// The nanoseconds that as many pairs take on a bare table.
fn bare_nanos(rt: &(impl Clock + AllocGlobal)) -> io::Result<u64> {
    let (words, mut seat) = Words::of_words(rt.alloc(), &[0, 0], &())?;
    let start = Instant::now(rt)?;
    for _ in 0..PAIRS {
        bare_pair(&words, &mut seat);
    }
    nanos_since(rt, &start)
}

/// Measures both, the best of all runs of each.
pub(crate) fn measure(rt: &(impl Clock + AllocGlobal + Print + Wait)) -> io::Result<()> {
    let text = pairs_text(rt.alloc())?;
    let Ok(mut source) = FaultlessSource::of(rt.alloc(), text.as_slice()) else {
        return Err(out_of_memory());
    };
    let Ok(trace) = read_trace(rt.alloc(), &mut source) else {
        return Err(out_of_memory());
    };
    let mut tries = tries_nanos(rt, &trace)?;
    let mut bare = bare_nanos(rt)?;
    for _ in 1..RUNS {
        tries = tries.min(tries_nanos(rt, &trace)?);
        bare = bare.min(bare_nanos(rt)?);
    }
    let pairs = u64::from(PAIRS);
    let each = tries / pairs;
    let plain = bare / pairs;
    let ratio = tries.saturating_mul(100) / bare.max(1);
    println!(rt;
        "a try and the push that undoes it: {each} ns; their two loads and exchange, and load, store and exchange, on a bare table: {plain} ns: {ratio} %"
    )
}

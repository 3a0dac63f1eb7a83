//! Generated traces and timed runs, which several parts measure.

use crate::nanos_since;
use slub_cli::run::run;
use slub_edges::edges::Sink;
use slub_edges::faultless::{FaultlessSink, FaultlessSource};
use slub_edges::gate::{Gate, OpenGate};
use slub_trace_reader::reading::read_trace;
use std::alloc::{AllocError, Global};
use std::io;
use std::rt::Clock;
use std::sync::Wait;
use std::thread::Threads;
use std::time::Instant;

/// How many objects are live at most.
const LIVE: u32 = 64;

/// What a trace begins with: 4 CPUs and 3 caches.
pub(crate) const HEAD: &[u8] =
    b"slubtrace 1\nmachine 4096 4\ncache dentry 192 8 R\ncache filp 256 8 H\ncache node 128 8 -\n";

/// The line of an allocation of an object by one of so many workers.
fn alloc_line(alloc: Global, workers: u32, object: u32) -> Result<String, AllocError> {
    let worker = object % workers.max(1);
    let cpu = object % 4;
    let cache = match object % 3 {
        0 => "dentry",
        1 => "filp",
        _ => "node",
    };
    format!(in alloc; "alloc {worker} {cpu} {cache} {object}\n")
}

/// The line of the free of an object by the same worker, mostly on another CPU.
fn free_line(alloc: Global, workers: u32, object: u32) -> Result<String, AllocError> {
    let worker = object % workers.max(1);
    let cpu = (object / 2) % 4;
    format!(in alloc; "free {worker} {cpu} {object}\n")
}

/// A trace of one round of so many workers and about so many events: each object is freed when 64 more were allocated.
pub(crate) fn one_round(alloc: Global, workers: u32, events: u32) -> Result<Vec<u8>, AllocError> {
    let mut text = Vec::from_slice(alloc, HEAD)?;
    text.extend_from_slice(format!(in alloc; "round {workers}\n")?.as_bytes())?;
    for object in 1..=events / 2 {
        text.extend_from_slice(alloc_line(alloc, workers, object)?.as_bytes())?;
        if object > LIVE {
            text.extend_from_slice(free_line(alloc, workers, object - LIVE)?.as_bytes())?;
        }
    }
    text.extend_from_slice(b"done\nend\n")?;
    Ok(text)
}

pub(crate) fn out_of_memory() -> io::Error {
    io::Error::from(io::ErrorKind::OutOfMemory)
}

/// The nanoseconds that reading a trace takes.
pub(crate) fn read_nanos(rt: &(impl Clock + AllocGlobal), text: &[u8]) -> io::Result<u64> {
    let Ok(mut source) = FaultlessSource::of(rt.alloc(), text) else {
        return Err(out_of_memory());
    };
    let start = Instant::now(rt)?;
    let _trace = read_trace(rt.alloc(), &mut source);
    nanos_since(rt, &start)
}

/// The nanoseconds that a whole run of these words takes to a sink.
pub(crate) fn run_nanos<R: Clock + AllocGlobal + Threads + Wait + Sync, K: Sink>(
    rt: &R,
    text: &[u8],
    words: &[&str],
    sink: &mut K,
) -> io::Result<u64> {
    gated_nanos(rt, text, words, sink, &OpenGate)
}

/// The nanoseconds that a whole run of these words takes to a sink, whose workers pass this gate.
pub(crate) fn gated_nanos<R, K, G>(
    rt: &R,
    text: &[u8],
    words: &[&str],
    sink: &mut K,
    gate: &G,
) -> io::Result<u64>
where
    R: Clock + AllocGlobal + Threads + Wait + Sync,
    K: Sink,
    G: Gate + Sync,
{
    let Ok(mut source) = FaultlessSource::of(rt.alloc(), text) else {
        return Err(out_of_memory());
    };
    let mut asked = Vec::new(rt.alloc());
    for word in words {
        asked.push(String::from_str(rt.alloc(), word)?)?;
    }
    let start = Instant::now(rt)?;
    let _outcome = run(rt, rt.alloc(), &asked, &mut source, sink, gate);
    nanos_since(rt, &start)
}

/// The least nanoseconds of three runs.
pub(crate) fn best_run(
    rt: &(impl Clock + AllocGlobal + Threads + Wait + Sync),
    text: &[u8],
    words: &[&str],
) -> io::Result<u64> {
    let mut nowhere = FaultlessSink::new();
    let mut best = run_nanos(rt, text, words, &mut nowhere)?;
    for _ in 0..2 {
        best = best.min(run_nanos(rt, text, words, &mut nowhere)?);
    }
    Ok(best)
}

/// The least nanoseconds of three readings.
pub(crate) fn best_read(rt: &(impl Clock + AllocGlobal), text: &[u8]) -> io::Result<u64> {
    let mut best = read_nanos(rt, text)?;
    for _ in 0..2 {
        best = best.min(read_nanos(rt, text)?);
    }
    Ok(best)
}

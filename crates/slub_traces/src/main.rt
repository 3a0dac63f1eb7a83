//! `slub_traces`: replays stored traces, and compares each output with a stored one.
//!
//! Each line of standard input is the name of a trace and the words that it is replayed with. The file
//! `NAME` is the trace, and `NAME.out` what it must print, from outside this repository or worked out
//! by hand. For each trace a line says with which number the run ended, and whether its output is the
//! stored one.
#![tactic(auto)]

use slub_cli::run::run;
use slub_common::no_memory::NoMemory;
use slub_edges::gate::OpenGate;
use slub_edges::memory::{MemSink, MemSource};
use std::alloc::Global;
use std::rt::Files;
use std::sync::Wait;
use std::thread::Threads;
use std::{fs, io};

/// How a run ended.
#[derive(Clone, Copy)]
struct Replayed {
    status: u8,
    is_stored: bool,
}

/// Runs words on a trace, and compares the output.
fn replay<R: Threads + Wait + Sync>(
    rt: &R,
    alloc: Global,
    words: &[String],
    trace: &[u8],
    stored: &[u8],
) -> Result<Replayed, NoMemory> {
    let mut source = MemSource::of(alloc, trace, &[])?;
    let mut sink = MemSink::of(alloc, &[], 65536)?;
    let outcome = run(rt, alloc, words, &mut source, &mut sink, &OpenGate);
    Ok(Replayed {
        status: outcome.status.number(),
        is_stored: sink.bytes() == stored,
    })
}

/// Replays the trace that a line names, with the words that follow the name.
fn replay_line<R: Files + AllocGlobal + Threads + Wait + Sync>(
    rt: &R,
    line: &str,
) -> io::Result<Replayed> {
    let mut parts = line.split(' ');
    let name = parts.next().unwrap_or("");
    let mut words = Vec::new(rt.alloc());
    for word in parts {
        words.push(String::from_str(rt.alloc(), word)?)?;
    }
    let trace = fs::read(rt, name)?;
    let stored = fs::read(rt, format!(in rt.alloc(); "{name}.out")?.as_str())?;
    match replay(rt, rt.alloc(), &words, &trace, &stored) {
        Ok(replayed) => Ok(replayed),
        Err(NoMemory) => Err(io::Error::from(io::ErrorKind::OutOfMemory)),
    }
}

fn main(rt: HostRuntime) -> io::Result<()> {
    for line in rt.lines(rt.alloc()) {
        let line = line?;
        let replayed = replay_line(&rt, &line)?;
        let output = if replayed.is_stored {
            "as stored"
        } else {
            "another output"
        };
        println!(rt; "{line}: {}, {output}", replayed.status)?;
    }
    Ok(())
}

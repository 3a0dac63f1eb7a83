//! `slub`: replays traces on the slab allocator of Linux 6.1.
//!
//! The words after the program's name are the command, the trace comes on standard input, the text
//! goes to standard output, through a buffer of 64 KiB, and the process ends with the number of the
//! status. All of that is `slub_cli::run::run`; this file hands it the real ends, the threads of the runtime and a
//! gate that is open.
#![tactic(auto)]

mod output;

use output::{HELD, ended};
use slub_cli::run::run;
use slub_cli::status::Status;
use slub_edges::adapters::{ReadSource, WriteSink};
use slub_edges::gate::OpenGate;
use std::alloc::{AllocError, Global};
use std::io::{BufWriter, Read, Write};
use std::process::ExitCode;
use std::rt::Env;
use std::sync::Wait;
use std::thread::Threads;
use std::{env, io};

/// The words after the program's name; none where one of them is no text, which is no command.
fn words(rt: &(impl Env + AllocGlobal)) -> Result<Vec<String>, AllocError> {
    match env::args(rt) {
        Ok(args) => args.skip(1).collect(rt.alloc()),
        Err(error) if error.kind() == io::ErrorKind::OutOfMemory => Err(AllocError),
        Err(_) => Ok(Vec::new(rt.alloc())),
    }
}

/// Runs the words on these ends.
fn work<R: Threads + Wait + Sync, I: Read + Drop, O: Write + Drop>(
    rt: &R,
    alloc: Global,
    words: &[String],
    input: I,
    output: O,
) -> Result<Status, AllocError> {
    let Ok(buffer) = BufWriter::with_capacity(alloc, HELD, output) else {
        return Err(AllocError);
    };
    let mut source = ReadSource::of(input);
    let mut sink = WriteSink::of(buffer);
    let outcome = run(rt, alloc, words, &mut source, &mut sink, &OpenGate);
    Ok(ended(outcome.status, sink.into_inner()))
}

fn main(rt: HostRuntime) -> ExitCode {
    let done = match words(&rt) {
        Ok(words) => work(&rt, rt.alloc(), &words, rt.stdin(), rt.stdout()),
        Err(AllocError) => Err(AllocError),
    };
    match done {
        Ok(status) => ExitCode::from(status.number()),
        Err(AllocError) => match println!(rt; "slub: out of memory") {
            Ok(()) => ExitCode::from(Status::NoMemory.number()),
            Err(_) => ExitCode::from(Status::WriteFault.number()),
        },
    }
}

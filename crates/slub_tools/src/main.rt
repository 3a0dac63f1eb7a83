//! `slub_tools`: what is asked of a trace beside its replay by `slub`.
//!
//! The first word after the program's name is the command: `recorded` turns a recording of kmem events into a trace,
//! `outcomes` tells the outcomes of many seeds of a trace. The recording or the trace comes on standard input, the text
//! goes to standard output, through a buffer of 64 KiB, and the process ends with the number of the status. Where
//! standard error is a terminal, a line there each second says how far a run of `outcomes` is, which no contract speaks
//! of. All else is `slub_recorded::run::run` or `slub_outcomes::run::run`; this file hands them the real ends, and the
//! latter the threads of the runtime, of which it starts none, and a gate that is open.
#![tactic(auto)]

mod output;
mod page;
mod shown;

use output::{HELD, ended};
use shown::Shown;
use slub_edges::adapters::{ReadSource, WriteSink};
use slub_edges::gate::OpenGate;
use slub_outcomes::run::run as outcomes;
use slub_outcomes::status::Status;
use slub_recorded::run::run as recorded;
use slub_steps::run::{Page, run as steps};
use std::alloc::{AllocError, Global};
use std::io::{BufWriter, IsTerminal, Read, Write};
use std::process::ExitCode;
use std::rt::{Clock, Env};
use std::sync::Wait;
use std::thread::Threads;
use std::{env, io};

/// The words after the program's name; none where one of them is no text, which is no command.
fn words(rt: &(impl Env + AllocGlobal)) -> Result<Vec<String>, AllocError> {
    match env::args(rt) {
        Ok(args) => args.skip(1).collect(rt.alloc()),
        Err(error) if error.kind() == io::ErrorKind::OutOfMemory => Err(AllocError),
        Err(_) => Ok(Vec::new(rt.alloc())),
    }
}

/// Whether the first word is this one. A command that is neither `steps` nor `recorded` is for `outcomes` to read.
fn is_command(words: &[String], name: &str) -> bool {
    match words.first() {
        Some(command) => command.as_str() == name,
        None => false,
    }
}

/// Runs the words on these ends, and answers the number of the status.
fn work<R: Clock + Eprint + Threads + Wait + Sync, I: Read + Drop, O: Write + Drop>(
    rt: &R,
    alloc: Global,
    words: &[String],
    input: I,
    output: O,
    is_shown: bool,
) -> Result<u8, AllocError> {
    let Ok(buffer) = BufWriter::with_capacity(alloc, HELD, output) else {
        return Err(AllocError);
    };
    let mut source = ReadSource::of(input);
    let mut sink = WriteSink::of(buffer);
    let status = if is_command(words, "steps") {
        let back = page::behind_log(alloc)?;
        let page = Page {
            front: page::before_log(),
            back: back.as_slice(),
        };
        let (after, status) = steps(rt, alloc, words, page, &mut source, sink, &OpenGate);
        sink = after;
        status.number()
    } else if is_command(words, "recorded") {
        recorded(alloc, words, &mut source, &mut sink).number()
    } else {
        let mut shown = Shown::of(rt, is_shown);
        outcomes(
            rt,
            alloc,
            words,
            &mut source,
            &mut sink,
            &OpenGate,
            &mut shown,
        )
        .number()
    };
    Ok(ended(status, sink.into_inner()))
}

fn main(rt: HostRuntime) -> ExitCode {
    let done = match words(&rt) {
        Ok(words) => work(
            &rt,
            rt.alloc(),
            &words,
            rt.stdin(),
            rt.stdout(),
            rt.stderr().is_terminal(),
        ),
        Err(AllocError) => Err(AllocError),
    };
    match done {
        Ok(number) => ExitCode::from(number),
        Err(AllocError) => match println!(rt; "slub: out of memory") {
            Ok(()) => ExitCode::from(Status::NoMemory.number()),
            Err(_) => ExitCode::from(Status::WriteFault.number()),
        },
    }
}

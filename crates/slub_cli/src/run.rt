//! The top call.

ghost use Rattle.std.specs.Prelude.{◌≡◌, ◌≤◌, ℕ, List, None, map, string_bytes, IfErr, IfOk};
ghost use Rattle.slub_edges.specs.Pieces.{Gives};
ghost use Rattle.slub_trace.specs.Sound.{IsSound};
ghost use Rattle.slub_slabinfo_text.specs.Given.{AreWholeLines};
ghost use Rattle.slub_slabinfo_text.specs.Journal.{IsEmpty};
ghost use Rattle.slub_cli.specs.Run.{AsksReplay, IsRunOf, way_of};
ghost use Rattle.slub_cli.specs.Inner.{Finishes, HasLine, Loaded, ReadsInput, Replayed, StopsAtReadFault, StopsAtWriteFault, Worked, stop_line, stop_status};

use crate::layout::print_layout;
use crate::replay::do_trace;
use crate::status::{Outcome, Status, done_status};
use crate::stop::Stop;
use slub_command::command::{Command, CommandFault, How, read};
use slub_edges::edges::{Sink, Source};
use slub_edges::gate::Gate;
use slub_edges::pieces::write_lines;
use slub_law_replay::way::Way;
use slub_slabinfo_text::journal::Journal;
use slub_trace::trace::Trace;
use slub_trace_reader::load::load_trace;
use slub_trace_reader::reading::read_trace;
use std::alloc::Global;
use std::sync::Wait;
use std::thread::Threads;

/// Reads the trace that the source has.
fn read_input<S: Source>(alloc: Global, source: &mut S) -> Result<Trace, Stop>
    ensures reads { ReadsInput (S.rest source.old) (S.rest source.new)
        (S.faults source.old, S.faults source.new) result }
    ensures read_faults { StopsAtReadFault (S.faults source.old) (S.faults source.new) result }
    ensures sound { IfOk result IsSound }
{
    match read_trace(alloc, source) {
        Ok(trace) => Ok(trace),
        Err(fault) => Err(Stop::of(alloc, fault)),
    }
}

/// Replays the trace that the source has, and keeps it.
fn replay<R: Threads + Wait + Sync, S: Source, K: Sink, G: Gate + Sync>(
    rt: &R,
    gate: &G,
    alloc: Global,
    way: Way,
    replies: bool,
    source: &mut S,
    sink: &mut K,
    trace: &mut Option<Trace>,
    journal: &mut Journal,
) -> Result<Status, Stop>
    requires unread { trace.old ≡ None }
    requires empty { IsEmpty journal.old }
    ensures replayed { (words : List (List ℕ)) → Replayed (record {
      words = words;
      told = S.rest source.old;
      left = S.rest source.new;
      old = K.taken sink.old;
      new = K.taken sink.new;
      read = (S.faults source.old, S.faults source.new);
      write = (K.faults sink.old, K.faults sink.new);
    }) way replies trace.new journal.new result }
    ensures read_faults { StopsAtReadFault (S.faults source.old) (S.faults source.new) result }
    ensures write_faults { StopsAtWriteFault (K.faults sink.old) (K.faults sink.new) result }
    ensures lines { Gives (K.pieces sink.old) (K.pieces sink.new) AreWholeLines }
    ensures counts { K.faults sink.old ≤ K.faults sink.new }
{
    let read = match read_input(alloc, source) {
        Ok(read) => read,
        Err(stop) => return Err(stop),
    };
    let end = do_trace(rt, gate, alloc, way, replies, &read, sink, journal);
    *trace = Some(read);
    match end {
        Ok(()) => Ok(done_status(trace, journal)),
        Err(stop) => Err(stop),
    }
}

/// How a replay does its rounds.
fn way_of(how: How, seed: u64) -> Way
    ensures { result ≡ way_of how seed }
{
    match how {
        How::Serial => Way::Serial,
        How::Schedule => Way::Schedule { seed },
        How::Threads => Way::Threads,
    }
}

/// Makes the trace of a seed, replays it by schedule with the same seed, and keeps it. The lines that `--replies`
/// asks for aren't written.
fn load<R: Threads + Wait + Sync, K: Sink, G: Gate + Sync>(
    rt: &R,
    gate: &G,
    alloc: Global,
    seed: u64,
    events: u32,
    workers: u32,
    sink: &mut K,
    trace: &mut Option<Trace>,
    journal: &mut Journal,
) -> Result<Status, Stop>
    requires few_events { events ≤ 500000 }
    requires some_workers { 1 ≤ workers }
    requires few_workers { workers ≤ 16 }
    requires unread { trace.old ≡ None }
    requires empty { IsEmpty journal.old }
    ensures loaded { Loaded (K.taken sink.old) (K.taken sink.new)
        (K.faults sink.old, K.faults sink.new) seed events workers trace.new journal.new result }
    ensures write_faults { StopsAtWriteFault (K.faults sink.old) (K.faults sink.new) result }
    ensures lines { Gives (K.pieces sink.old) (K.pieces sink.new) AreWholeLines }
    ensures counts { K.faults sink.old ≤ K.faults sink.new }
{
    let made = load_trace(alloc, seed, events, workers)?;
    let way = Way::Schedule { seed };
    let end = do_trace(rt, gate, alloc, way, false, &made, sink, journal);
    *trace = Some(made);
    match end {
        Ok(()) => Ok(done_status(trace, journal)),
        Err(stop) => Err(stop),
    }
}

/// Does all of a run but the fault line.
fn work<R: Threads + Wait + Sync, S: Source, K: Sink, G: Gate + Sync>(
    rt: &R,
    gate: &G,
    alloc: Global,
    words: &[String],
    source: &mut S,
    sink: &mut K,
    trace: &mut Option<Trace>,
    journal: &mut Journal,
) -> Result<Status, Stop>
    requires unread { trace.old ≡ None }
    requires empty { IsEmpty journal.old }
    ensures worked { Worked (record {
      words = map string_bytes words.now;
      told = S.rest source.old;
      left = S.rest source.new;
      old = K.taken sink.old;
      new = K.taken sink.new;
      read = (S.faults source.old, S.faults source.new);
      write = (K.faults sink.old, K.faults sink.new);
    }) trace.new journal.new result }
    ensures untouched { ¬ AsksReplay (map string_bytes words.now) → source.new ≡ source.old }
    ensures read_faults { StopsAtReadFault (S.faults source.old) (S.faults source.new) result }
    ensures write_faults { StopsAtWriteFault (K.faults sink.old) (K.faults sink.new) result }
    ensures lines { Gives (K.pieces sink.old) (K.pieces sink.new) AreWholeLines }
    ensures counts { K.faults sink.old ≤ K.faults sink.new }
{
    let command = match read(alloc, words) {
        Ok(command) => command,
        Err(CommandFault::BadWords) => return Err(Stop::BadWords),
        Err(CommandFault::NoMemory) => return Err(Stop::NoMemory),
    };
    match command {
        Command::Replay { how, seed, replies } => {
            let way = way_of(how, seed);
            replay(rt, gate, alloc, way, replies, source, sink, trace, journal)
        }
        Command::Layout { spec, cpus } => print_layout(alloc, &spec, cpus, sink),
        Command::Load {
            seed,
            events,
            workers,
        } => load(rt, gate, alloc, seed, events, workers, sink, trace, journal),
    }
}

/// Writes the line of a stop, and says how the run ended.
fn finish<K: Sink>(sink: &mut K, end: Result<Status, Stop>) -> Status
    requires line { IfErr end HasLine }
    ensures finishes { Finishes (K.taken sink.old) (K.taken sink.new)
        (K.faults sink.old, K.faults sink.new) end result }
    ensures lines { Gives (K.pieces sink.old) (K.pieces sink.new) AreWholeLines }
    ensures counts { K.faults sink.old ≤ K.faults sink.new }
{
    match end {
        Ok(status) => status,
        Err(stop) => match write_lines(sink, line_of(&stop)) {
            Ok(()) => status_of(&stop),
            Err(_) => Status::WriteFault,
        },
    }
}

/// The fault line of a stop; nothing more is written after a write that failed.
fn line_of(stop: &Stop) -> &[u8]
    ensures { result.now ≡ stop_line stop.now }
{
    match stop {
        Stop::BadWords => b"slub: bad command\n",
        Stop::BadLine(text) => text.as_slice(),
        Stop::TooLong => b"slub: input too long\n",
        Stop::ReadFault => b"slub: read fault\n",
        Stop::WriteFault => b"",
        Stop::NoMemory => b"slub: out of memory\n",
        Stop::TurnsSpent => b"slub: turns spent\n",
    }
}

fn status_of(stop: &Stop) -> Status
    ensures { result ≡ stop_status stop.now }
{
    match stop {
        Stop::BadWords => Status::BadWords,
        Stop::BadLine(_) | Stop::TooLong => Status::BadTrace,
        Stop::ReadFault => Status::ReadFault,
        Stop::WriteFault => Status::WriteFault,
        Stop::NoMemory => Status::NoMemory,
        Stop::TurnsSpent => Status::TurnsSpent,
    }
}

/// Runs a command, writes its text to the sink, and says how it ended.
///
/// `replay` reads a trace from the source to its end, does its items in order, and writes the text of
/// each as it is done and the total at the end; `load` does so with a trace that it makes from a number, by
/// schedule; `layout` writes a layout. Neither of these two reads the source. The words are read before a
/// byte of the source. Where a run ends early, one fault line says why. Each line that is written is given to the sink
/// as one piece.
///
/// A replay does its rounds in the order of the text, by schedule or by threads: then `rt` starts a thread for each
/// worker of a round, and the workers pass `gate` before each of their events.
pub fn run<R: Threads + Wait + Sync, S: Source, K: Sink, G: Gate + Sync>(
    rt: &R,
    alloc: Global,
    words: &[String],
    source: &mut S,
    sink: &mut K,
    gate: &G,
) -> Outcome
    ensures run { IsRunOf (record {
      words = map string_bytes words.now;
      told = S.rest source.old;
      left = S.rest source.new;
      old = K.taken sink.old;
      new = K.taken sink.new;
      read = (S.faults source.old, S.faults source.new);
      write = (K.faults sink.old, K.faults sink.new);
    }) result }
    ensures lines { Gives (K.pieces sink.old) (K.pieces sink.new) AreWholeLines }
    ensures untouched { ¬ AsksReplay (map string_bytes words.now) → source.new ≡ source.old }
{
    let mut trace = None;
    let mut journal = Journal::empty(alloc);
    let end = work(
        rt,
        gate,
        alloc,
        words,
        source,
        sink,
        &mut trace,
        &mut journal,
    );
    let status = finish(sink, end);
    Outcome {
        status,
        trace,
        journal,
    }
}

//! The top call.

ghost use Rattle.std.specs.Prelude.{◌≡◌, ◌≤◌, map, string_bytes};
ghost use Rattle.slub_outcomes.specs.Run.{Ends, IsRunOf, WritesOut, done_status, end_status, end_text};
ghost use Rattle.slub_outcomes.specs.Words.{AreBadWords};

use crate::count::count;
use crate::progress::Progress;
use crate::span::span_of;
use crate::status::Status;
use crate::stop::Stop;
use crate::table::table;
use crate::words::read;
use slub_edges::edges::{Sink, Source};
use slub_edges::gate::Gate;
use slub_edges::pieces::write_lines;
use slub_trace_reader::reading::read_trace;
use std::alloc::Global;
use std::sync::Wait;
use std::thread::Threads;

/// The status and the text of a run that replayed the trace with each seed.
#[derive(Debug, Drop)]
pub(crate) struct Finished {
    pub(crate) status: Status,
    pub(crate) text: Vec<u8>,
}

/// The status of such a run.
fn done_status(is_spent: bool) -> Status
    ensures { result ≡ done_status is_spent }
{
    if is_spent {
        Status::TurnsSpent
    } else {
        Status::Fine
    }
}

/// Does all of a run but the writing.
fn work<R: Threads + Wait + Sync, S: Source, G: Gate + Sync, P: Progress>(
    rt: &R,
    gate: &G,
    alloc: Global,
    words: &[String],
    source: &mut S,
    progress: &mut P,
) -> Result<Finished, Stop>
    ensures ends { Ends (record {
      words = map string_bytes words.now;
      told = S.rest source.old;
      left = S.rest source.new;
      read = (S.faults source.old, S.faults source.new);
    }) (end_status result) (end_text result) }
    ensures untouched { AreBadWords (map string_bytes words.now) → source.new ≡ source.old }
{
    let Some(request) = read(words) else {
        return Err(Stop::BadWords);
    };
    let trace = match read_trace(alloc, source) {
        Ok(trace) => trace,
        Err(fault) => return Err(Stop::of(alloc, fault)),
    };
    let span = span_of(trace.items.as_slice(), request.round);
    let counted = count(
        rt,
        gate,
        alloc,
        request.from,
        request.seeds,
        &trace,
        &span,
        progress,
    )?;
    let text = table(alloc, counted.outcomes.as_slice(), &request)?;
    Ok(Finished {
        status: done_status(counted.is_spent),
        text,
    })
}

/// Writes the text of a run, and says how the run ended.
fn finish<K: Sink>(sink: &mut K, end: &Result<Finished, Stop>) -> Status
    ensures { WritesOut (K.taken sink.old) (K.taken sink.new)
        (K.faults sink.old, K.faults sink.new) (end_status end.now) (end_text end.now) result }
{
    let (status, text) = match end {
        Ok(finished) => (finished.status, finished.text.as_slice()),
        Err(stop) => (stop.status(), stop.line()),
    };
    match write_lines(sink, text) {
        Ok(()) => status,
        Err(_) => Status::WriteFault,
    }
}

/// Does what the words ask for, writes its text to the sink, and says how it ended.
///
/// The words are read before a byte of the source. Then the trace is read from the source to its end, and replayed by
/// schedule with each seed. The text is written behind the last replay: a line for each outcome, and one that sums up.
/// Where a run ends early, one fault line says why.
///
/// `rt` and `gate` are what a machine asks of its caller for rounds by threads. No round is by threads here. `progress`
/// is told before each replay how many are done.
pub fn run<R: Threads + Wait + Sync, S: Source, K: Sink, G: Gate + Sync, P: Progress>(
    rt: &R,
    alloc: Global,
    words: &[String],
    source: &mut S,
    sink: &mut K,
    gate: &G,
    progress: &mut P,
) -> Status
    ensures run { IsRunOf (record {
      words = map string_bytes words.now;
      told = S.rest source.old;
      left = S.rest source.new;
      read = (S.faults source.old, S.faults source.new);
    }) (K.taken sink.old) (K.taken sink.new) (K.faults sink.old, K.faults sink.new) result }
    ensures untouched { AreBadWords (map string_bytes words.now) → source.new ≡ source.old }
{
    let end = work(rt, gate, alloc, words, source, progress);
    finish(sink, &end)
}

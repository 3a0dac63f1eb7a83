//! The top call.

ghost use Rattle.std.specs.Prelude.{◌≡◌, [], if◌then◌else◌, Some, map, string_bytes};
ghost use Rattle.slub_picks.specs.Words.{AreBadWords};
ghost use Rattle.slub_trace.specs.Sound.{IsSound};
ghost use Rattle.slub_cli.specs.Run.{done_status};
ghost use Rattle.slub_steps.specs.Run.{IsLogOf, IsRunOf, wanted_of};
ghost use Rattle.slub_steps.specs.Written.{WritesLog, status_as};

use crate::replay::{Plan, Progress};
use crate::writing::show;
use slub_asked::asked::{Asked, read_asked};
use slub_asked::ending::end;
use slub_asked::stop::Stop;
use slub_cli::status::{Status as Done, done_status};
use slub_common::no_memory::NoMemory;
use slub_common::sequence::Sequence;
use slub_edges::edges::{Failed, Sink, Source};
use slub_edges::gate::Gate;
use slub_edges::pieces::write_lines;
use slub_items::machine::Machine;
use slub_log_text::parts::put_head;
use slub_picks::list::Part;
use slub_picks::status::Status;
use slub_picks::words::Request;
use slub_slabinfo_text::journal::Journal;
use slub_trace::trace::Trace;
use std::alloc::Global;
use std::sync::Wait;
use std::thread::Threads;

/// What stands before a log in a page, and what behind it.
#[derive(Clone, Copy, Debug)]
pub struct Page<'a> {
    pub front: &'a [u8],
    pub back: &'a [u8],
}

/// How a run ended that did all that was asked for.
fn done_as(trace: Trace, journal: &Journal) -> Status
    ensures { result ≡ status_as (done_status (Some trace) journal.now) }
{
    match done_status(&Some(trace), journal) {
        Done::Fine => Status::Fine,
        Done::NoMemory => Status::NoMemory,
        _ => Status::Refused,
    }
}

/// Replays the trace, and writes its log.
fn replay<R: Threads + Wait + Sync, K: Sink, G: Gate + Sync>(
    rt: &R,
    gate: &G,
    alloc: Global,
    request: &Request,
    trace: Trace,
    sink: K,
) -> (K, Result<Status, Stop>)
    requires { IsSound trace }
    ensures { WritesLog (wanted_of request.now) trace (record { taken = K.taken sink; faults = K.faults sink }) (record { taken = K.taken result.0; faults = K.faults result.0 }) result.1 }
{
    let mut sink = sink;
    let mut head = Vec::new(alloc);
    if let Err(NoMemory) = put_head(&mut head, &trace, &request.way) {
        return (sink, Err(Stop::NoMemory));
    }
    if let Err(stop) = show(&mut sink, true, head.as_slice()) {
        return (sink, Err(stop));
    }
    let machine = match Machine::open(alloc, &trace) {
        Ok(machine) => machine,
        Err(NoMemory) => return (sink, Err(Stop::NoMemory)),
    };
    let nothing = Part {
        entries: Sequence::new(alloc),
    };
    let plan = Plan {
        way: &request.way,
        nothing: &nothing,
        round: request.round,
    };
    let (mut progress, result) = Progress::open(alloc, sink).do_items(
        rt, gate, alloc, plan, machine, &trace,
    );
    let machine = match result {
        Ok(machine) => machine,
        Err(stop) => {
            let Progress { sink, .. } = progress;
            return (sink, Err(stop));
        }
    };
    let finished = progress.finish(alloc, plan, &machine);
    let Progress { sink, journal, .. } = progress;
    match finished {
        Ok(()) => (sink, Ok(done_as(trace, &journal))),
        Err(stop) => (sink, Err(stop)),
    }
}

/// A text of a page, where a page is asked for.
fn page_text(is_page: bool, text: &[u8]) -> &[u8]
    ensures { result.now ≡ (if is_page then text.now else []) }
{
    if is_page { text } else { b"" }
}

/// Replays the trace that was read, and writes the log, in its page where one was asked for.
fn write_log<R: Threads + Wait + Sync, K: Sink, G: Gate + Sync>(
    rt: &R,
    gate: &G,
    alloc: Global,
    page: Page,
    asked: Asked,
    sink: K,
) -> (K, Status)
    requires { IsSound asked.trace }
    ensures { IsLogOf asked (record { front = page.entry.front.now; back = page.entry.back.now }) (record { taken = K.taken sink; faults = K.faults sink }) (record { taken = K.taken result.0; faults = K.faults result.0 }) result.1 }
{
    let Asked { request, trace } = asked;
    let front = page_text(request.page, page.front);
    let back = page_text(request.page, page.back);
    let mut sink = sink;
    if let Err(Failed) = write_lines(&mut sink, front) {
        return (sink, Status::WriteFault);
    }
    let (mut sink, outcome) = replay(rt, gate, alloc, &request, trace, sink);
    let status = end(&mut sink, back, &outcome);
    (sink, status)
}

/// Does what the words ask for, writes its text to the sink, and says how it ended.
///
/// The words are read before a byte of the source, and the trace to its end before a byte is written. The lines are
/// written as they come about. Where a run ends early, one fault line says why. As a page, the log stands between the
/// page's front and back; where no trace was read, the fault line comes alone.
///
/// `rt` and `gate` are what a machine asks of its caller for rounds by threads. No round is by threads here.
pub fn run<R: Threads + Wait + Sync, S: Source, K: Sink, G: Gate + Sync>(
    rt: &R,
    alloc: Global,
    words: &[String],
    page: Page,
    source: &mut S,
    sink: K,
    gate: &G,
) -> (K, Status)
    ensures run { IsRunOf (record {
      words = map string_bytes words.now;
      told = S.rest source.old;
      left = S.rest source.new;
      read = (S.faults source.old, S.faults source.new);
    }) (record { front = page.entry.front.now; back = page.entry.back.now }) (record { taken = K.taken sink; faults = K.faults sink }) (record { taken = K.taken result.0; faults = K.faults result.0 }) result.1 }
    ensures untouched { AreBadWords (map string_bytes words.now) → source.new ≡ source.old }
{
    match read_asked(alloc, words, source) {
        Ok(asked) => write_log(rt, gate, alloc, page, asked, sink),
        Err(stop) => {
            let mut sink = sink;
            let status = end(&mut sink, b"", &Err(stop));
            (sink, status)
        }
    }
}

//! What is written at the end of a run.

ghost use Rattle.std.specs.Prelude.{◌≡◌, ◌++◌, Err, OnErr, OnOk};
ghost use Rattle.std.specs.Io.KnownBytes.{Appends};
ghost use Rattle.slub_edges.specs.Edges.{AppendsFront, Rose};
ghost use Rattle.slub_asked.specs.Ending.{Ends, Writes};

use crate::stop::Stop;
use slub_edges::edges::{Failed, Sink};
use slub_edges::pieces::write_lines;
use slub_picks::status::Status;

/// Writes two texts, one behind the other.
fn write_both<K: Sink>(sink: &mut K, one: &[u8], other: &[u8]) -> Result<(), Failed>
    ensures ok { OnOk result (Appends (K.taken sink.old) (K.taken sink.new) (one.now ++ other.now)) }
    ensures err { OnErr result
        (AppendsFront (K.taken sink.old) (K.taken sink.new) 0 (one.now ++ other.now)) }
    ensures still { OnOk result (K.faults sink.new ≡ K.faults sink.old) }
    ensures failed { OnErr result (Rose (K.faults sink.old) (K.faults sink.new)) }
{
    write_lines(sink, one)?;
    write_lines(sink, other)
}

/// Writes the text of an end, and says how the run ended that came to this status.
fn write_end<K: Sink>(sink: &mut K, line: &[u8], back: &[u8], meant: Status) -> Status
    ensures { Writes (K.taken sink.old) (K.taken sink.new)
        (K.faults sink.old, K.faults sink.new) (line.now ++ back.now) meant result }
{
    match write_both(sink, line, back) {
        Ok(()) => meant,
        Err(_) => Status::WriteFault,
    }
}

/// Writes the end of a run that stopped early.
fn end_stopped<K: Sink>(sink: &mut K, back: &[u8], stop: &Stop) -> Status
    ensures { Ends (K.taken sink.old) (K.taken sink.new)
        (K.faults sink.old, K.faults sink.new) back.now (Err stop.now) result }
{
    match stop {
        Stop::WriteFault => Status::WriteFault,
        _ => write_end(sink, stop.line(), back, stop.status()),
    }
}

/// Writes what stands at the end of a run, its fault line and the back of its page, and says how the run ended. Behind a
/// failed write nothing is written.
pub fn end<K: Sink>(sink: &mut K, back: &[u8], end: &Result<Status, Stop>) -> Status
    ensures { Ends (K.taken sink.old) (K.taken sink.new)
        (K.faults sink.old, K.faults sink.new) back.now end.now result }
{
    match end {
        Ok(status) => write_end(sink, b"", back, *status),
        Err(stop) => end_stopped(sink, back, stop),
    }
}

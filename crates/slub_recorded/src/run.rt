//! The top call.

ghost use Rattle.std.specs.Prelude.{◌≡◌, map, string_bytes, IfErr, IfOk};
ghost use Rattle.slub_recorded.specs.Converted.{IsConverted};
ghost use Rattle.slub_recorded.specs.Stop.{StopsFor};
ghost use Rattle.slub_recorded.specs.Run.{Ends, IsRunOf, WritesOut, end_status, end_text};
ghost use Rattle.slub_recorded.specs.Words.{AreBadWords, tunes_asked};

use crate::convert::{Converted, Options, convert};
use crate::settings::tunes;
use crate::status::Status;
use crate::stop::Stop;
use crate::words::read;
use slub_common::no_memory::NoMemory;
use slub_edges::edges::{Sink, Source};
use slub_edges::pieces::write_lines;
use slub_recording::reading::read_recording;
use slub_recording::recording::Recording;
use std::alloc::Global;

/// Converts a recording as the words ask for it.
fn converted(
    alloc: Global,
    words: &[String],
    recording: &Recording,
    options: &Options,
) -> Result<Converted, Stop>
    ensures trace { IfOk result (λ c. IsConverted recording.now options.now
        (tunes_asked (map string_bytes words.now)) c.notes.items c.text.items) }
    ensures stop { IfErr result (StopsFor recording.now options.now (tunes_asked (map string_bytes words.now))) }
{
    let tunes = match tunes(alloc, words) {
        Ok(tunes) => tunes,
        Err(NoMemory) => return Err(Stop::NoMemory),
    };
    match convert(alloc, recording, options, tunes.as_slice()) {
        Ok(converted) => Ok(converted),
        Err(fault) => Err(Stop::of_converting(alloc, &fault)),
    }
}

/// Does all of a run but the writing.
fn work<S: Source>(alloc: Global, words: &[String], source: &mut S) -> Result<Converted, Stop>
    ensures ends { Ends (record {
      words = map string_bytes words.now;
      told = S.rest source.old;
      left = S.rest source.new;
      old = S.faults source.old;
      new = S.faults source.new;
    }) (end_status result) (end_text result) }
    ensures untouched { AreBadWords (map string_bytes words.now) → source.new ≡ source.old }
{
    let Some(options) = read(words) else {
        return Err(Stop::BadWords);
    };
    let recording = match read_recording(alloc, source) {
        Ok(recording) => recording,
        Err(fault) => return Err(Stop::of_reading(alloc, &fault)),
    };
    converted(alloc, words, &recording, &options)
}

/// Writes the text of a run, and says how the run ended.
fn finish<K: Sink>(sink: &mut K, end: &Result<Converted, Stop>) -> Status
    ensures { WritesOut (K.taken sink.old) (K.taken sink.new)
        (K.faults sink.old, K.faults sink.new) (end_status end.now) (end_text end.now) result }
{
    let (status, text) = match end {
        Ok(converted) => (Status::Fine, converted.text.as_slice()),
        Err(stop) => (stop.status(), stop.line()),
    };
    match write_lines(sink, text) {
        Ok(()) => status,
        Err(_) => Status::WriteFault,
    }
}

/// Does what the words ask for, writes its text to the sink, and says how it ended.
///
/// The words are read before a byte of the source. Then the recording is read from the source to its end, at most
/// 268435456 bytes, and turned into a trace. Its text is written whole, behind all that can fail but the writing. Where
/// a run ends early, one fault line says why.
pub fn run<S: Source, K: Sink>(
    alloc: Global,
    words: &[String],
    source: &mut S,
    sink: &mut K,
) -> Status
    ensures run { IsRunOf (record {
      words = map string_bytes words.now;
      told = S.rest source.old;
      left = S.rest source.new;
      old = S.faults source.old;
      new = S.faults source.new;
    }) (K.taken sink.old) (K.taken sink.new) (K.faults sink.old, K.faults sink.new) result }
    ensures untouched { AreBadWords (map string_bytes words.now) → source.new ≡ source.old }
{
    let end = work(alloc, words, source);
    finish(sink, &end)
}

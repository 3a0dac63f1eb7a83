//! The words of the command line and the trace, read.

ghost use Rattle.std.specs.Prelude.{◌≡◌, map, string_bytes};
ghost use Rattle.slub_asked.specs.Asked.{IsAsked};
ghost use Rattle.slub_picks.specs.Words.{AreBadWords};

use crate::stop::Stop;
use slub_edges::edges::Source;
use slub_picks::unread::Unread;
use slub_picks::words::{Request, read};
use slub_trace::trace::Trace;
use slub_trace_reader::reading::read_trace;
use std::alloc::Global;

/// What a run was asked for, and of which trace.
#[derive(Debug, Drop)]
pub struct Asked {
    pub request: Request,
    pub trace: Trace,
}

/// Reads the words, and then the trace from the source to its end.
pub fn read_asked<S: Source>(alloc: Global, words: &[String], source: &mut S) -> Result<Asked, Stop>
    ensures asked { IsAsked (record {
      words = map string_bytes words.now;
      told = S.rest source.old;
      left = S.rest source.new;
      read = (S.faults source.old, S.faults source.new);
    }) result }
    ensures untouched { AreBadWords (map string_bytes words.now) → source.new ≡ source.old }
{
    let request = match read(alloc, words) {
        Ok(request) => request,
        Err(Unread::BadWords) => return Err(Stop::BadWords),
        Err(Unread::NoMemory) => return Err(Stop::NoMemory),
    };
    match read_trace(alloc, source) {
        Ok(trace) => Ok(Asked { request, trace }),
        Err(fault) => Err(Stop::of(alloc, fault)),
    }
}

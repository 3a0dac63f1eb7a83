//! The trace reader against counting lines and words.

use crate::nanos_since;
use crate::runs::out_of_memory;
use slub_common::limits::INPUT_MAX;
use slub_edges::faultless::FaultlessSource;
use slub_edges::reading::read_all;
use slub_trace_reader::reading::read_trace;
use std::alloc::{AllocError, Global};
use std::io;
use std::rt::Clock;
use std::time::Instant;

/// The objects that the trace allocates and frees.
const OBJECTS: u32 = 400_000;

/// A trace of one round that allocates every object and frees it.
fn long_trace(alloc: Global) -> Result<Vec<u8>, AllocError> {
    let mut text = Vec::from_slice(
        alloc,
        b"slubtrace 1\nmachine 4096 16\ncache a 64 8 -\nround 1\n",
    )?;
    for object in 1..OBJECTS {
        text.extend_from_slice(format!(in alloc; "alloc 0 0 a {object}\n")?.as_bytes())?;
    }
    for object in 1..OBJECTS {
        text.extend_from_slice(format!(in alloc; "free 0 0 {object}\n")?.as_bytes())?;
    }
    text.extend_from_slice(b"done\nend\n")?;
    Ok(text)
}

/// How many lines and words there are.
fn lines_and_words(text: &[u8]) -> (usize, usize) {
    let lines = text.iter().filter(|byte| **byte == b'\n').count();
    let spaces = text.iter().filter(|byte| **byte == b' ').count();
    (lines, lines.saturating_add(spaces))
}

/// The least nanoseconds of three countings of the lines and words of a text.
pub(crate) fn best_count(rt: &impl Clock, text: &[u8]) -> io::Result<u64> {
    let mut best = u64::MAX;
    for _ in 0..3 {
        let start = Instant::now(rt)?;
        let (lines, words) = lines_and_words(text);
        best = best.min(nanos_since(rt, &start)?);
        if lines > words {
            return Err(io::Error::from(io::ErrorKind::InvalidData));
        }
    }
    Ok(best)
}

/// The nanoseconds that one way of going over the text takes.
#[derive(Clone, Copy, Debug)]
struct Spent {
    /// Counting its lines and words.
    counting: u64,
    /// Taking its bytes from a source into one list, which reading doesn't do.
    taking: u64,
    /// Reading the trace from a source, by a window of its bytes.
    reading: u64,
}

/// Goes over the text once each way.
fn spend(rt: &(impl Clock + AllocGlobal), text: &[u8]) -> io::Result<Spent> {
    let start = Instant::now(rt)?;
    let (lines, words) = lines_and_words(text);
    let counting = nanos_since(rt, &start)?;
    let Ok(mut source) = FaultlessSource::of(rt.alloc(), text) else {
        return Err(out_of_memory());
    };
    let start = Instant::now(rt)?;
    let taken = read_all(rt.alloc(), &mut source, INPUT_MAX);
    let taking = nanos_since(rt, &start)?;
    let Ok(mut source) = FaultlessSource::of(rt.alloc(), text) else {
        return Err(out_of_memory());
    };
    let start = Instant::now(rt)?;
    let read = read_trace(rt.alloc(), &mut source);
    let reading = nanos_since(rt, &start)?;
    if lines > words || taken.is_err() || read.is_err() {
        return Err(io::Error::from(io::ErrorKind::InvalidData));
    }
    Ok(Spent {
        counting,
        taking,
        reading,
    })
}

/// Reads the trace and counts its lines and words, five times, and prints the least times.
pub(crate) fn measure(rt: &(impl Clock + AllocGlobal + Print)) -> io::Result<()> {
    let text = long_trace(rt.alloc())?;
    let mut best = spend(rt, &text)?;
    for _ in 0..4 {
        let next = spend(rt, &text)?;
        best.counting = best.counting.min(next.counting);
        best.taking = best.taking.min(next.taking);
        best.reading = best.reading.min(next.reading);
    }
    let (lines, words) = lines_and_words(&text);
    let bytes = text.len();
    let each = best.reading / (lines as u64).max(1);
    let tenths = best.reading.saturating_mul(10) / best.counting.max(1);
    let (whole, tenth) = (tenths / 10, tenths % 10);
    let counting = best.counting / 1000;
    let taking = best.taking / 1000;
    let reading = best.reading / 1000;
    println!(rt; "{bytes} bytes, {lines} lines, {words} words")?;
    println!(rt;
        "reading: {each} ns a line, {whole}.{tenth} times as long as counting lines and words"
    )?;
    println!(rt;
        "counting {counting} us, reading {reading} us; all bytes into one list, beside it, {taking} us"
    )
}

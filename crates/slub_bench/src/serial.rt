//! Replays of generated traces.

use crate::held::keep_memory;
use crate::reader::best_count;
use crate::runs::{best_run, one_round, read_nanos, run_nanos};
use slub_edges::adapters::WriteSink;
use slub_edges::faultless::FaultlessSink;
use std::alloc::{AllocError, Global};
use std::io::BufWriter;
use std::rt::{Clock, Files};
use std::sync::Wait;
use std::thread::Threads;
use std::{fs, io};

/// The file that a run with replies is written to, and that is removed at the end.
const WRITTEN: &str = "slub_bench.out";

/// A replay without replies.
const PLAIN: &[&str] = &["replay"];

/// A replay with replies.
const REPLIES: &[&str] = &["replay", "--replies"];

/// The nanoseconds that a whole run with replies takes to a file, through a buffer of 64 KiB.
fn file_nanos(
    rt: &(impl Clock + Files + AllocGlobal + Threads + Wait + Sync),
    text: &[u8],
) -> io::Result<u64> {
    let file = fs::create(rt, WRITTEN)?;
    let mut sink = WriteSink::of(BufWriter::with_capacity(rt.alloc(), 65536, file)?);
    run_nanos(rt, text, REPLIES, &mut sink)
}

/// The nanoseconds of the parts of a run.
#[derive(Clone, Copy)]
struct Parts {
    /// Reading the trace.
    reading: u64,
    /// A run without replies, reading included.
    plain: u64,
    /// A run with replies to a sink that keeps nothing.
    told: u64,
    /// A run with replies to a file.
    written: u64,
}

impl Parts {
    fn measured(
        rt: &(impl Clock + Files + AllocGlobal + Threads + Wait + Sync),
        text: &[u8],
    ) -> io::Result<Parts> {
        let mut nowhere = FaultlessSink::new();
        Ok(Parts {
            reading: read_nanos(rt, text)?,
            plain: run_nanos(rt, text, PLAIN, &mut nowhere)?,
            told: run_nanos(rt, text, REPLIES, &mut nowhere)?,
            written: file_nanos(rt, text)?,
        })
    }

    fn least(self, other: Parts) -> Parts {
        Parts {
            reading: self.reading.min(other.reading),
            plain: self.plain.min(other.plain),
            told: self.told.min(other.told),
            written: self.written.min(other.written),
        }
    }

    /// The least times of three.
    fn best(
        rt: &(impl Clock + Files + AllocGlobal + Threads + Wait + Sync),
        text: &[u8],
    ) -> io::Result<Parts> {
        let mut best = Parts::measured(rt, text)?;
        for _ in 0..2 {
            best = best.least(Parts::measured(rt, text)?);
        }
        Ok(best)
    }
}

/// Measures a trace of about so many events: the nanoseconds of one event, reading it included, and the
/// opening of the machine left out; and what of it is reading, replay, text and writing.
fn measure_one(
    rt: &(impl Clock + Files + AllocGlobal + Threads + Wait + Sync + Print),
    events: u32,
    opening: u64,
    first: Option<u64>,
) -> io::Result<u64> {
    let text = one_round(rt.alloc(), 1, events)?;
    let best = Parts::best(rt, &text)?;
    let count = u64::from(events).max(1);
    let plain = best.plain.saturating_sub(opening);
    let each = plain / count;
    let reading = best.reading / count;
    let replay = plain.saturating_sub(best.reading) / count;
    let told = best.told.saturating_sub(best.plain) / count;
    let writing = best.written.saturating_sub(best.told) / count;
    let ratio = best.written.saturating_mul(100) / best.plain.max(1);
    let percent = each.saturating_mul(100) / first.unwrap_or(each).max(1);
    println!(rt;
        "{events} events: {each} ns an event, {percent} % of the first: {reading} ns reading, {replay} ns replay; with replies {told} ns more for text and {writing} ns more for writing, in all {ratio} % of the run without"
    )?;
    Ok(each)
}

/// The nanoseconds that an event takes in the first replay of a trace of about so many events, the opening of the machine
/// left out. Most of its memory is touched for the first time.
fn first_each(
    rt: &(impl Clock + AllocGlobal + Threads + Wait + Sync),
    events: u32,
    opening: u64,
) -> io::Result<u64> {
    let text = one_round(rt.alloc(), 1, events)?;
    let plain = run_nanos(rt, &text, PLAIN, &mut FaultlessSink::new())?;
    Ok(plain.saturating_sub(opening) / u64::from(events).max(1))
}

/// Measures the first replay of each of three lengths, the shortest first.
fn measure_first(
    rt: &(impl Clock + AllocGlobal + Threads + Wait + Sync + Print),
    opening: u64,
) -> io::Result<()> {
    let short = first_each(rt, 10_000, opening)?;
    let middle = first_each(rt, 100_000, opening)?;
    let long = first_each(rt, 500_000, opening)?;
    let percent = long.saturating_mul(100) / short.max(1);
    println!(rt;
        "the first replay of each length, in memory that isn't touched yet: 10000 events: {short} ns an event; 100000 events: {middle} ns; 500000 events: {long} ns, {percent} % of the first"
    )
}

/// The objects of the trace of a checked cache.
const CHECKED: u32 = 100_000;

/// A round that allocates objects with every zone, writes and reads each, and frees it when 64 more were allocated.
fn checked_round(alloc: Global) -> Result<Vec<u8>, AllocError> {
    let mut text = Vec::from_slice(
        alloc,
        b"slubtrace 1\nmachine 4096 4\ncache c 64 8 HRFZP\nround 1\n",
    )?;
    for object in 1..=CHECKED {
        let lines = format!(in alloc;
            "alloc 0 0 c {object}\nwrite 0 {object} 1 {object}\nread 0 {object} 1\n"
        )?;
        text.extend_from_slice(lines.as_bytes())?;
        if object > 64 {
            let freed = object - 64;
            text.extend_from_slice(format!(in alloc; "free 0 0 {freed}\n")?.as_bytes())?;
        }
    }
    text.extend_from_slice(b"done\nend\n")?;
    Ok(text)
}

/// What a whole replay of a text takes against counting its lines and words, in tenths.
fn tenths_of_counting(
    rt: &(impl Clock + AllocGlobal + Threads + Wait + Sync),
    text: &[u8],
) -> io::Result<u64> {
    let counting = best_count(rt, text)?;
    Ok(best_run(rt, text, PLAIN)?.saturating_mul(10) / counting.max(1))
}

/// Measures whole replays against counting the lines and words of the same bytes: of 500,000 events, and of a checked
/// cache.
fn measure_whole(
    rt: &(impl Clock + AllocGlobal + Threads + Wait + Sync + Print),
) -> io::Result<()> {
    let plain = tenths_of_counting(rt, &one_round(rt.alloc(), 1, 500_000)?)?;
    let checked = tenths_of_counting(rt, &checked_round(rt.alloc())?)?;
    let (whole, tenth) = (plain / 10, plain % 10);
    let (checked_whole, checked_tenth) = (checked / 10, checked % 10);
    println!(rt;
        "a whole replay takes {whole}.{tenth} times as long as counting the lines and words of its bytes; with objects of every zone {checked_whole}.{checked_tenth} times"
    )
}

/// The nanoseconds in which a machine of 4096 frames is opened.
fn opening_nanos(
    rt: &(impl Clock + Files + AllocGlobal + Threads + Wait + Sync),
) -> io::Result<u64> {
    Ok(Parts::best(rt, &one_round(rt.alloc(), 1, 0)?)?.plain)
}

/// Measures three lengths; the cost of an event doesn't grow with the length.
pub(crate) fn measure(
    rt: &(impl Clock + Files + AllocGlobal + Threads + Wait + Sync + Print),
) -> io::Result<()> {
    let opening = opening_nanos(rt)?;
    let micros = opening / 1000;
    println!(rt; "a machine of 4096 frames is opened in {micros} us")?;
    measure_first(rt, opening)?;
    let _held = keep_memory(rt.alloc())?;
    let opening = opening_nanos(rt)?;
    let micros = opening / 1000;
    println!(rt; "in memory that was touched before, a machine is opened in {micros} us, and")?;
    let first = measure_one(rt, 10_000, opening, None)?;
    measure_one(rt, 100_000, opening, Some(first))?;
    measure_one(rt, 500_000, opening, Some(first))?;
    measure_whole(rt)?;
    fs::remove_file(rt, WRITTEN)
}

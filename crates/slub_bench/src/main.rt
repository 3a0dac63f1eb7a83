//! Measures parts of the allocator against plain bodies of the same meaning, both in one run.
//!
//! The word after the program's name is the part: `pool` drains a page pool of 4096 frames, and
//! prints what a take costs, by the pool and by a scan of all frames, and the ratio; `reader` reads a
//! trace of some twelve million bytes, and prints what that costs against counting its lines and
//! words; `serial` replays traces of 10,000, 100,000 and 500,000 events, and prints what an event costs
//! in each (the first time, and then at best, in memory that was touched before), what of it is reading,
//! replay, text and writing, and what whole replays cost against counting; `schedule` replays rounds of
//! eight workers by schedule and in the order of the text, a round of fast paths, a load, and a trace of
//! small rounds; `threads` replays rounds by threads, of one worker, of four on CPUs of their own, with
//! long-lived and with short-lived objects, and with caches of their own, and of four on one CPU, in all and
//! from the first event to the end of the last, and prints how often the workers lost an exchange or slept;
//! four replays of one worker side by side, which is what the machine gives to four threads, and how much of
//! their rate four workers on CPUs of their own have; a trace of small rounds; and a try of the fast path with
//! the push that undoes it.
#![tactic(auto)]

mod apart;
mod held;
mod pool;
mod reader;
mod runs;
mod schedule;
mod serial;
mod threads;
mod tries;
mod waits;

use std::rt::{Clock, Env};
use std::time::Instant;
use std::{env, io};

/// The nanoseconds since a start.
pub(crate) fn nanos_since(rt: &impl Clock, start: &Instant) -> io::Result<u64> {
    let spent = start.elapsed(rt)?.as_nanos();
    Ok(u64::try_from(spent).unwrap_or(u64::MAX))
}

fn main(rt: HostRuntime) -> io::Result<()> {
    let part = env::args(&rt)?.nth(1);
    match part {
        Some(word) if word.as_str() == "pool" => pool::measure_all(&rt),
        Some(word) if word.as_str() == "reader" => reader::measure(&rt),
        Some(word) if word.as_str() == "schedule" => schedule::measure(&rt),
        Some(word) if word.as_str() == "serial" => serial::measure(&rt),
        Some(word) if word.as_str() == "threads" => threads::measure(&rt),
        _ => println!(rt;
            "slub_bench: name what is to be measured: pool, reader, schedule, serial or threads"
        ),
    }
}

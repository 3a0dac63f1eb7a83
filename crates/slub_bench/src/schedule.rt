//! Rounds of several workers by schedule, against the order of the text: an event, a turn, a load, and small rounds.

use crate::runs::{HEAD, best_read, best_run, one_round};
use std::alloc::{AllocError, Global};
use std::io;
use std::rt::Clock;
use std::sync::Wait;
use std::thread::Threads;

/// The workers of a round.
const WORKERS: u32 = 8;

/// The events of the load that is measured.
const LOADED: u32 = 200_000;

/// The events of each worker where a turn is measured.
const EACH: u32 = 100_000;

/// How many turns a fast path takes.
const TURNS: u64 = 3;

/// How many small rounds stand in a trace, which is as many as there may be.
pub(crate) const ROUNDS: u32 = 256;

/// A replay in the order of the text.
const SERIAL: &[&str] = &["replay"];

/// A replay by schedule.
pub(crate) const SCHEDULE: &[&str] = &["replay", "--how", "schedule"];

/// A trace of as many rounds as there may be, of two workers and two events each.
pub(crate) fn small_rounds(alloc: Global) -> Result<Vec<u8>, AllocError> {
    let mut text = Vec::from_slice(alloc, HEAD)?;
    for round in 1..=ROUNDS {
        let other = round + ROUNDS;
        let lines = format!(in alloc;
            "round 2\nalloc 0 0 dentry {round}\nalloc 1 1 filp {other}\ndone\n"
        )?;
        text.extend_from_slice(lines.as_bytes())?;
    }
    text.extend_from_slice(b"end\n")?;
    Ok(text)
}

/// The nanoseconds that a round without events takes, by schedule and in the order of the text.
#[derive(Clone, Copy)]
struct Openings {
    schedule: u64,
    serial: u64,
}

impl Openings {
    fn measured(rt: &(impl Clock + AllocGlobal + Threads + Wait + Sync)) -> io::Result<Openings> {
        let nothing = one_round(rt.alloc(), WORKERS, 0)?;
        Ok(Openings {
            schedule: best_run(rt, &nothing, SCHEDULE)?,
            serial: best_run(rt, &nothing, SERIAL)?,
        })
    }
}

/// What an event of a trace of about so many costs by schedule and in the order of the text, reading and the opening of
/// the machine left out. Gives the first of the two.
fn measure_one(
    rt: &(impl Clock + AllocGlobal + Threads + Wait + Sync + Print),
    events: u32,
    openings: Openings,
    first: Option<u64>,
) -> io::Result<u64> {
    let text = one_round(rt.alloc(), WORKERS, events)?;
    let count = u64::from(events).max(1);
    let reading = best_read(rt, &text)?;
    let drawn = best_run(rt, &text, SCHEDULE)?
        .saturating_sub(reading)
        .saturating_sub(openings.schedule)
        / count;
    let serial = best_run(rt, &text, SERIAL)?
        .saturating_sub(reading)
        .saturating_sub(openings.serial)
        / count;
    let ratio = drawn.saturating_mul(100) / serial.max(1);
    let percent = drawn.saturating_mul(100) / first.unwrap_or(drawn).max(1);
    println!(rt;
        "{events} events of {WORKERS} workers: by schedule {drawn} ns an event, {percent} % of the first; in the order of the text {serial} ns: {ratio} %"
    )?;
    Ok(drawn)
}

/// A round of four workers, each on a CPU of its own, that free each object before they allocate the next one: every
/// event is a fast path of three turns, but for the first.
fn pairs(alloc: Global, each: u32) -> Result<Vec<u8>, AllocError> {
    let mut text = Vec::from_slice(alloc, HEAD)?;
    text.extend_from_slice(b"round 4\n")?;
    for worker in 0..4u32 {
        for nth in 1..=each / 2 {
            let object = worker * (EACH / 2) + nth;
            let lines = format!(in alloc;
                "alloc {worker} {worker} dentry {object}\nfree {worker} {worker} {object}\n"
            )?;
            text.extend_from_slice(lines.as_bytes())?;
        }
    }
    text.extend_from_slice(b"done\nend\n")?;
    Ok(text)
}

/// The picoseconds that an event of pairs costs, by the difference of a round and one of half as many.
fn pair_cost(
    rt: &(impl Clock + AllocGlobal + Threads + Wait + Sync),
    words: &[&str],
) -> io::Result<u64> {
    let half = pairs(rt.alloc(), EACH / 2)?;
    let all = pairs(rt.alloc(), EACH)?;
    let less = best_run(rt, &half, words)?.saturating_sub(best_read(rt, &half)?);
    let more = best_run(rt, &all, words)?.saturating_sub(best_read(rt, &all)?);
    Ok(more.saturating_sub(less).saturating_mul(1000) / u64::from(2 * EACH))
}

/// What a turn of a fast path costs against an event in the order of the text.
fn measure_turn(rt: &(impl Clock + AllocGlobal + Threads + Wait + Sync + Print)) -> io::Result<()> {
    let drawn = pair_cost(rt, SCHEDULE)? / 1000;
    let serial = pair_cost(rt, SERIAL)? / 1000;
    let turn = drawn / TURNS;
    let ratio = turn.saturating_mul(100) / serial.max(1);
    println!(rt;
        "fast paths of 4 workers: by schedule {drawn} ns an event of {TURNS} turns; in the order of the text {serial} ns; a turn {turn} ns: {ratio} %"
    )
}

/// What a load costs, against reading a trace of as many events.
fn measure_load(rt: &(impl Clock + AllocGlobal + Threads + Wait + Sync + Print)) -> io::Result<()> {
    let text = one_round(rt.alloc(), WORKERS, LOADED)?;
    let reading = best_read(rt, &text)? / 1_000_000;
    let load = best_run(rt, b"", &["load", "1", "200000", "8"])? / 1_000_000;
    println!(rt; "load 1 {LOADED} 8: {load} ms; reading as many events as text: {reading} ms")
}

/// What small rounds cost, each of which opens the machine and closes it.
fn measure_rounds(
    rt: &(impl Clock + AllocGlobal + Threads + Wait + Sync + Print),
) -> io::Result<()> {
    let text = small_rounds(rt.alloc())?;
    let all = best_run(rt, &text, SCHEDULE)?;
    let millis = all / 1_000_000;
    let each = all / u64::from(ROUNDS) / 1000;
    println!(rt; "{ROUNDS} rounds of two workers on 4096 frames: {millis} ms, {each} us a round")
}

/// Measures three lengths, a load and small rounds.
pub(crate) fn measure(
    rt: &(impl Clock + AllocGlobal + Threads + Wait + Sync + Print),
) -> io::Result<()> {
    let openings = Openings::measured(rt)?;
    let first = measure_one(rt, 50_000, openings, None)?;
    measure_one(rt, 200_000, openings, Some(first))?;
    measure_one(rt, 500_000, openings, Some(first))?;
    measure_turn(rt)?;
    measure_load(rt)?;
    measure_rounds(rt)
}

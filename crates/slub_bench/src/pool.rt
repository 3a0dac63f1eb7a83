//! The page pool against a scan of all frames.

ghost use Rattle.std.specs.Prelude.{◌≤◌};

use crate::nanos_since;
use slub_common::limits::FRAMES_MAX;
use slub_page_pool::Pool;
use std::io;
use std::rt::Clock;
use std::time::Instant;

/// Whether a block of this order is free at a frame.
fn is_free(marks: &[bool], frame: usize, len: usize) -> bool {
    match marks.get(frame..).and_then(|rest| rest.get(..len)) {
        Some(run) => run.iter().all(|mark| *mark),
        None => false,
    }
}

/// Takes the lowest free run of an order by a scan of all frames.
fn plain_take(marks: &mut [bool], order: u32) -> Option<usize>
    requires { order ≤ 10 }
{
    let len = 1usize << order;
    let found = (0..marks.len()).find(|frame| frame % len == 0 && is_free(marks, *frame, len))?;
    for mark in marks.iter_mut().skip(found).take(len) {
        *mark = false;
    }
    Some(found)
}

/// How often a pool gave a run of an order, and the nanoseconds that took.
fn drain_pool(rt: &(impl Clock + AllocGlobal), order: u32) -> io::Result<(u64, u64)>
    requires { order ≤ 10 }
{
    let Ok(mut pool) = Pool::open(rt.alloc(), FRAMES_MAX) else {
        return Err(io::Error::from(io::ErrorKind::OutOfMemory));
    };
    let start = Instant::now(rt)?;
    let mut takes = 0u64;
    for _ in 0..FRAMES_MAX {
        if pool.take(order).is_none() {
            break;
        }
        takes = takes.saturating_add(1);
    }
    Ok((takes, nanos_since(rt, &start)?))
}

/// The same of a scan of all frames.
fn drain_plain(rt: &(impl Clock + AllocGlobal), order: u32) -> io::Result<(u64, u64)>
    requires { order ≤ 10 }
{
    let mut marks = vec![in rt.alloc(); true; FRAMES_MAX as usize]?;
    if let Some(first) = marks.first_mut() {
        *first = false;
    }
    let start = Instant::now(rt)?;
    let mut takes = 0u64;
    for _ in 0..FRAMES_MAX {
        if plain_take(&mut marks, order).is_none() {
            break;
        }
        takes = takes.saturating_add(1);
    }
    Ok((takes, nanos_since(rt, &start)?))
}

fn measure(rt: &(impl Clock + AllocGlobal + Print), order: u32) -> io::Result<()>
    requires { order ≤ 10 }
{
    let (takes, nanos) = drain_pool(rt, order)?;
    let (plain_takes, plain_nanos) = drain_plain(rt, order)?;
    let each = nanos / takes.max(1);
    let plain = plain_nanos / plain_takes.max(1);
    let ratio = plain / each.max(1);
    println!(rt;
        "order {order}: {takes} takes of {each} ns; {plain_takes} plain takes of {plain} ns; {ratio} times"
    )
}

/// Measures takes of three orders.
pub(crate) fn measure_all(rt: &(impl Clock + AllocGlobal + Print)) -> io::Result<()> {
    for order in [0, 1, 3] {
        measure(rt, order)?;
    }
    Ok(())
}

//! What no clause of `run` says: that two workers of a round are in it at one time, when they pass a gate, which pieces
//! the sink is given, and at which line the text ends when a write fails. What a run prints stands in `slub_traces`.

use slub_cli::run::run;
use slub_cli::status::Status;
use slub_edges::gate::Gate;
use slub_edges::memory::{MemSink, MemSource};
use std::sync::Wait;
use std::sync::atomic::{AtomicU64, Ordering};
use std::test::Fail;
use std::thread::{Threads, yield_now};

/// How often a gate looks for the other worker at most.
const TURNS: u64 = 20_000_000;

/// A gate that holds two workers at their first events until both have come.
#[derive(Drop)]
struct BothGate {
    came: AtomicU64,
    met: AtomicU64,
    /// How many workers passed it for each event, a hexadecimal digit an event.
    passed: AtomicU64,
}

impl BothGate {
    fn new() -> BothGate {
        BothGate {
            came: AtomicU64::new(0),
            met: AtomicU64::new(0),
            passed: AtomicU64::new(0),
        }
    }

    /// How many workers passed for each event, where the two met; else 0.
    fn passed(&self) -> u64 {
        if self.met.load(Ordering::SeqCst) == 2 {
            self.passed.load(Ordering::SeqCst)
        } else {
            0
        }
    }
}

impl Gate for BothGate {
    fn pass(&self, _worker: u32, event: u32) {
        let digit = match event {
            0 => 0x1,
            1 => 0x10,
            2 => 0x100,
            _ => 0x1000,
        };
        self.passed.fetch_add(digit, Ordering::SeqCst);
        if event != 0 {
            return;
        }
        self.came.fetch_add(1, Ordering::SeqCst);
        for _ in 0..TURNS {
            if self.came.load(Ordering::SeqCst) >= 2 {
                self.met.fetch_add(1, Ordering::SeqCst);
                return;
            }
            yield_now();
        }
    }
}

/// A round of two workers that prints the same in every order. The writes take no step: that of worker 1, its first
/// event, is of an object that it never holds, and that of worker 0, its second, is of a word that lies behind the object.
const TWO: &str =
    "slubtrace 1\nmachine 16 2\ncache dentry 192 8 -\nround 2\nalloc 0 0 dentry 1\nwrite 1 1 0 7\nalloc 1 1 dentry 2\nwrite 0 1 24 7\nfree 0 0 2\nfree 1 1 1\ndone\nslabinfo\nend\n";

/// How many lines that prints without `--replies`: two refused writes, two refused frees, slabinfo and the total.
const LINES: u64 = 8;

/// What a run of these words on `TWO`, with a read or a write of a number that fails, comes to: the status, how many
/// pieces the sink was given, each a line, and how many workers passed for each event, where they met.
fn ran<R: Threads + Wait + Sync + AllocGlobal>(
    rt: &R,
    line: &str,
    reads: &[u64],
    writes: &[u64],
) -> Result<(Status, u64, u64), Fail> {
    let alloc = rt.alloc();
    let mut source = MemSource::of(alloc, TWO.as_bytes(), reads)?;
    let mut sink = MemSink::of(alloc, writes, 4096)?;
    let mut words = Vec::new(alloc);
    for word in line.split(' ') {
        words.push(String::from_str(alloc, word)?)?;
    }
    let gate = BothGate::new();
    let outcome = run(rt, alloc, &words, &mut source, &mut sink, &gate);
    Ok((outcome.status, lines_of(&sink)?, gate.passed()))
}

/// How many pieces a sink was given, of which each has to be one line with its line feed.
fn lines_of(sink: &MemSink) -> Result<u64, Fail> {
    for piece in sink.pieces() {
        let feeds = piece.iter().filter(|byte| **byte == b'\n').count();
        if feeds != 1 || piece.last() != Some(&b'\n') {
            return Err("a piece that is no line".into());
        }
    }
    Ok(sink.pieces().len() as u64)
}

/// Both workers pass the gate once for each of their three events, whether it takes a step or not.
#[test]
fn two_workers_are_side_by_side(rt: HostRuntime) -> Result<(), Fail> {
    let words = "replay --how threads";
    assert_eq!(rt; ran(&rt, words, &[], &[])?, (Status::Refused, LINES, 0x222));
    // the second read is the one that finds the end; one line tells of it
    for read in 0..2 {
        assert_eq!(rt; ran(&rt, words, &[read], &[])?, (Status::ReadFault, 1, 0));
    }
    for line in 0..LINES {
        assert_eq!(rt;
            ran(&rt, words, &[], &[line])?,
            (Status::WriteFault, line, 0x222)
        );
    }
    Ok(())
}

/// A layout has twelve lines.
#[test]
fn lines_of_a_layout(rt: HostRuntime) -> Result<(), Fail> {
    let words = "layout 24 8 FZP 2";
    for line in 0..12 {
        assert_eq!(rt;
            ran(&rt, words, &[], &[line])?,
            (Status::WriteFault, line, 0)
        );
    }
    assert_eq!(rt; ran(&rt, words, &[], &[12])?, (Status::Fine, 12, 0));
    Ok(())
}

//! Reading a trace from a source that tells nothing of its bytes, so that no clause says what comes: it gives so many
//! bytes a call, and one of its calls fails.

ghost use Rattle.std.specs.Prelude.{None};

use slub_edges::edges::{Failed, Source};
use slub_trace::event::{Act, Event};
use slub_trace::trace::{Item, Trace};
use slub_trace_reader::reading::{TraceFault, read_trace};
use std::alloc::{AllocError, Global};
use std::test::Fail;

/// A source that gives so many bytes a call at most, and whose call of one number fails.
#[derive(Drop)]
struct Pieces {
    bytes: Vec<u8>,
    at: usize,
    most: usize,
    calls: u64,
    failing: u64,
    faults: u64,
}

impl Pieces {
    fn of(bytes: Vec<u8>, most: usize, failing: u64) -> Pieces {
        Pieces {
            bytes,
            at: 0,
            most,
            calls: 0,
            failing,
            faults: 0,
        }
    }
}

impl Source for Pieces {
    ghost rest = { λ _. None };

    ghost faults = { λ s. s.faults };

    fn read(&mut self, buf: &mut [u8]) -> Result<usize, Failed> {
        let call = self.calls;
        self.calls = call.saturating_add(1);
        if call == self.failing {
            self.faults = self.faults.saturating_add(1);
            return Err(Failed);
        }
        let at = self.at.min(self.bytes.len());
        let rest = &self.bytes[at..];
        let n = self.most.min(rest.len()).min(buf.len());
        buf[..n].copy_from_slice(&rest[..n]);
        self.at = at.saturating_add(n);
        Ok(n)
    }
}

/// A trace of 200,048 bytes, whose first line has this byte 65,529 times: a comment, where that is `#`. The first room
/// of the window, 64 KiB, ends within `slubtrace`. Line 5 is a comment of 134,424 bytes, for which the window grows twice.
fn text(alloc: Global, byte: u8) -> Result<Vec<u8>, AllocError> {
    let mut bytes = vec![in alloc; byte; 65_529]?;
    bytes.extend_from_slice(b"\nslubtrace 1\nmachine 16 2\ncache dentry 192 8 -\n")?;
    bytes.resize(200_000, b'#')?;
    bytes.extend_from_slice(b"\nround 1\nalloc 0 0 dentry 7\nfree 0 0 7\ndone\nend\n")?;
    Ok(bytes)
}

/// Whether that text was read: its machine, its cache, and its events, which stand on these lines.
fn is_read(trace: &Trace, lines: [u32; 2]) -> bool {
    let [Item::Cache { .. }, Item::Round(round)] = trace.items.as_slice() else {
        return false;
    };
    let events = [
        Event {
            line: lines[0],
            worker: 0,
            cpu: 0,
            act: Act::Alloc {
                cache: 0,
                object: 7,
            },
        },
        Event {
            line: lines[1],
            worker: 0,
            cpu: 0,
            act: Act::Free { object: 7 },
        },
    ];
    (trace.frames, trace.cpus, trace.objects) == (16, 2, 7)
        && round.events.as_slice() == events.as_slice()
}

/// Bytes that come one by one, in odd pieces, and in pieces of the window and of all that there is.
#[test]
fn a_trace_comes_in_pieces(rt: HostRuntime) -> Result<(), Fail> {
    for most in [1, 1009, 65_536, 1_000_000] {
        let mut source = Pieces::of(text(rt.alloc(), b'#')?, most, u64::MAX);
        let trace = read_trace(rt.alloc(), &mut source)?;
        assert!(rt; is_read(&trace, [7, 8]), "in pieces of {most}");
    }
    Ok(())
}

/// A read that fails is told as that: in the midst of a line, behind a bad line, and where all bytes were read and the
/// end alone is left to find. A trace that begins behind the failing read is read whole by the next call.
#[test]
fn a_failing_read_is_no_end(rt: HostRuntime) -> Result<(), Fail> {
    for byte in [b'#', b'x'] {
        let mut whole = Pieces::of(text(rt.alloc(), byte)?, 65_530, u64::MAX);
        let read = read_trace(rt.alloc(), &mut whole);
        assert_eq!(rt; read.is_ok(), byte == b'#');
        for call in 0..whole.calls {
            let mut source = Pieces::of(text(rt.alloc(), byte)?, 65_530, call);
            let fault = read_trace(rt.alloc(), &mut source).err();
            assert_eq!(rt; fault, Some(TraceFault::ReadFault), "at call {call}");
        }
    }
    let mut source = Pieces::of(text(rt.alloc(), b'#')?, 65_530, 1);
    let fault = read_trace(rt.alloc(), &mut source).err();
    assert_eq!(rt; fault, Some(TraceFault::ReadFault));
    let trace = read_trace(rt.alloc(), &mut source)?;
    assert!(rt; is_read(&trace, [6, 7]));
    Ok(())
}

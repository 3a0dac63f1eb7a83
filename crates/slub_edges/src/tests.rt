//! What no clause says: what a reader and a writer of std are given, and when a gate opens.

ghost use Rattle.std.specs.Prelude.{◌≡◌};

use crate::adapters::{ReadSource, WriteSink};
use crate::edges::{Failed, Sink, Source};
use crate::gate::{Gate, PairGate};
use std::io;
use std::io::{ErrorKind, Read};
use std::test::Fail;
use std::thread::{Threads, join};

/// A reader whose second call fails.
#[derive(Drop)]
struct Broken {
    calls: u64,
}

impl Read for Broken {
    fn read(&mut self, buf: &mut [u8]) -> io::Result<usize> {
        let call = self.calls;
        self.calls = call.saturating_add(1);
        match call {
            1 => Err(ErrorKind::Other.into()),
            0 | 2 if buf.len() > 1 => {
                buf[..2].copy_from_slice(b"ab");
                Ok(2)
            }
            _ => Ok(0),
        }
    }
}

/// A read that fails is told at once, and the next one goes on; a writer that has no room takes no byte.
#[test]
fn std_reads_and_writes(rt: HostRuntime) -> Result<(), Fail> {
    let mut broken = ReadSource::of(Broken { calls: 0 });
    let mut read = [0u8; 4];
    assert_eq!(rt; broken.read(&mut read), Ok(2));
    assert_eq!(rt; read, [b'a', b'b', 0, 0]);
    assert_eq!(rt; broken.read(&mut read), Err(Failed));
    assert_eq!(rt; broken.read(&mut read), Ok(2));
    assert_eq!(rt; broken.read(&mut read), Ok(0));
    assert_eq!(rt; broken.into_inner().calls, 4);

    let mut room = [0u8; 2];
    let mut sink = WriteSink::of(room.as_mut_slice());
    assert_eq!(rt; sink.write(b"abc"), Ok(2));
    assert_eq!(rt; sink.write(b"c"), Err(Failed));

    let mut output = WriteSink::of(rt.stdout());
    assert_eq!(rt; output.write(b"to standard output\n"), Ok(19));
    Ok(())
}

/// A worker that passes a gate before each of its events.
fn pass_all<G: Gate>(gate: &G, worker: u32, events: u32) -> u32
    ensures { result ≡ events }
{
    for event in 0..events {
        gate.pass(worker, event);
    }
    events
}

/// Two workers in threads of their own, which share a gate.
fn pass_both<G: Gate + Sync, R: Threads>(rt: &R, gate: &G) -> (u32, u32)
    ensures { result ≡ (3, 2) }
{
    join(rt, || pass_all(gate, 0, 3), || pass_all(gate, 1, 2))
}

#[test]
fn workers_pass_a_gate(rt: HostRuntime) {
    // worker 0 waits for worker 1
    let gate = PairGate::of(10_000_000);
    assert_eq!(rt; pass_both(&rt, &gate), (3, 2));
    assert!(rt; !gate.gave_up());

    // worker 1 never comes
    let alone = PairGate::of(100);
    assert_eq!(rt; pass_all(&alone, 0, 2), 2);
    assert!(rt; alone.gave_up());
}

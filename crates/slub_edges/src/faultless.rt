//! A source and a sink that never fail.

ghost use Rattle.std.specs.Prelude.{◌≡◌, ◌<◌, None, Some, Ok, min, length, IfOk};
ghost use Rattle.std.specs.Io.{ReadsAtMost};
ghost use Rattle.std.specs.Io.KnownBytes.{ReadConsumes};
ghost use Rattle.slub_edges.specs.Edges.{EndsExactly};

use crate::edges::{Failed, Sink, Source};
use slub_common::no_memory::NoMemory;
use std::alloc::Global;
use std::marker::Model;

/// A source of given bytes. Contracts see the bytes still to come.
#[derive(Debug, Drop)]
pub struct FaultlessSource {
    bytes: Vec<u8>,
    at: usize,
}

impl Model for FaultlessSource {
    ghost use Rattle.std.specs.Prelude.{ℕ, List, drop};

    ghost Value = { List ℕ };

    ghost view = { λ s. drop s.at s.bytes.items };
}

impl FaultlessSource {
    /// A source of these bytes.
    pub fn of(alloc: Global, bytes: &[u8]) -> Result<FaultlessSource, NoMemory>
        ensures { IfOk result (λ source. source ≡ bytes.now) }
    {
        Ok(FaultlessSource {
            bytes: bytes.to_vec(alloc)?,
            at: 0,
        })
    }
}

impl Source for FaultlessSource {
    ghost rest = { λ s. Some s };

    ghost faults = { λ _. 0 };

    fn read(&mut self, buf: &mut [u8]) -> Result<usize, Failed>
        requires { 0 < length buf.old }
        ensures bound { ReadsAtMost result buf.new }
        ensures bytes { ReadConsumes (Some self.old) (Some self.new) result buf.new }
        ensures end { EndsExactly (Some self.old) result }
        ensures faultless { result ≡ Ok (min (length self.old) (length buf.old)) }
    {
        let n = self.bytes.len().saturating_sub(self.at).min(buf.len());
        if n > 0 {
            buf[..n].copy_from_slice(&self.bytes[self.at..self.at + n]);
            self.at += n;
        }
        Ok(n)
    }
}

/// A sink that takes all and keeps nothing. It doesn't tell what it took.
#[derive(Clone, Copy, Debug, Default, PartialEq, Eq)]
pub struct FaultlessSink;

impl FaultlessSink {
    /// The sink. It takes no memory.
    pub fn new() -> FaultlessSink
        ensures { result ≡ record {} }
    {
        FaultlessSink
    }
}

impl Sink for FaultlessSink {
    ghost taken = { λ _. None };

    ghost pieces = { λ _. None };

    ghost faults = { λ _. 0 };

    fn write(&mut self, piece: &[u8]) -> Result<usize, Failed>
        requires { 0 < length piece.now }
        ensures faultless { result ≡ Ok (length piece.now) }
    {
        Ok(piece.len())
    }
}

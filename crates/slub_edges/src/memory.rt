//! A source and a sink in memory.

ghost use Rattle.std.specs.Prelude.{◌≡◌, ◌<◌, ◌≤◌, ◌↔◌, ◌+◌, ◌-◌, ◌^◌, ◌++◌, [], ◌∷◌, min, map, take, Some, length, Contains, IsErr, IfOk, OnOk, OnErr};
ghost use Rattle.std.specs.Io.{ReadsAtMost};
ghost use Rattle.std.specs.Io.KnownBytes.{ReadConsumes, WriteAppends};
ghost use Rattle.slub_edges.specs.Edges.{Rose, EndsExactly, faults_after};
ghost use Rattle.slub_edges.specs.Memory.{supply_of, store_of};
ghost use Rattle.slub_edges.specs.Pieces.{piece_of};

use crate::edges::{Failed, Sink, Source};
use crate::faultless::FaultlessSource;
use slub_common::no_memory::NoMemory;
use std::alloc::{AllocError, Global};
use std::marker::Model;

/// A source of given bytes. Its calls are numbered from 0, and those that are named fail.
#[derive(Debug, Drop)]
pub struct MemSource {
    bytes: FaultlessSource,
    call: u64,
    failing: Vec<u64>,
    faults: u64,
}

impl Model for MemSource {
    ghost use Rattle.slub_edges.specs.Memory.{Supply};

    ghost Value = { Supply };

    ghost view = { λ s. record {
      rest = s.bytes;
      call = s.call;
      failing = s.failing.items;
      faults = s.faults;
    } };
}

impl MemSource {
    /// A source of these bytes, of which the calls with these numbers fail.
    pub fn of(alloc: Global, bytes: &[u8], failing: &[u64]) -> Result<MemSource, NoMemory>
        ensures { IfOk result (λ source. source ≡ supply_of bytes.now failing.now) }
    {
        Ok(MemSource {
            bytes: FaultlessSource::of(alloc, bytes)?,
            call: 0,
            failing: failing.to_vec(alloc)?,
            faults: 0,
        })
    }
}

impl Source for MemSource {
    ghost rest = { λ s. Some s.rest };

    ghost faults = { λ s. s.faults };

    fn read(&mut self, buf: &mut [u8]) -> Result<usize, Failed>
        requires { 0 < length buf.old }
        ensures bound { ReadsAtMost result buf.new }
        ensures bytes { ReadConsumes (Some self.old.rest) (Some self.new.rest) result buf.new }
        ensures end { EndsExactly (Some self.old.rest) result }
        ensures counts { self.old.faults ≤ self.new.faults }
        ensures failed { OnErr result (Rose self.old.faults self.new.faults) }

        // which call fails, how many bytes another gives, and what a call changes
        ensures named { IsErr result ↔ Contains self.old.failing self.old.call }
        ensures all { IfOk result (λ n. n ≡ min (length self.old.rest) (length buf.old)) }
        ensures count { self.new.faults ≡ faults_after result self.old.faults }
        ensures call { self.new.call ≡ min (self.old.call + 1) (2 ^ 64 - 1) }
        ensures failing { self.new.failing ≡ self.old.failing }
    {
        let call = self.call;
        self.call = call.saturating_add(1);
        if self.failing.contains(&call) {
            self.faults = self.faults.saturating_add(1);
            return Err(Failed);
        }
        self.bytes.read(buf)
    }
}

/// A sink that keeps what it takes. Its calls are numbered from 0, and those that are named fail.
#[derive(Debug, Drop)]
pub struct MemSink {
    bytes: Vec<u8>,
    /// The pieces of which some was taken.
    pieces: Vec<Vec<u8>>,
    most: usize,
    call: u64,
    failing: Vec<u64>,
    faults: u64,
}

impl Model for MemSink {
    ghost use Rattle.std.specs.Prelude.{◌<◌, map};
    ghost use Rattle.slub_edges.specs.Memory.{Store};

    ghost Value = { Store };

    ghost view = { λ s. record {
      taken = s.bytes.items;
      pieces = map (λ piece. piece.items) s.pieces.items;
      most = s.most;
      call = s.call;
      failing = s.failing.items;
      faults = s.faults;
    } };

    ghost invariant = { λ s. 0 < s.most };
}

impl MemSink {
    /// A sink that takes at most `most` bytes at a call, and whose calls with these numbers fail.
    pub fn of(alloc: Global, failing: &[u64], most: usize) -> Result<MemSink, NoMemory>
        requires { 0 < most }
        ensures { IfOk result (λ sink. sink ≡ store_of failing.now most) }
    {
        Ok(MemSink {
            bytes: Vec::new(alloc),
            pieces: Vec::new(alloc),
            most,
            call: 0,
            failing: failing.to_vec(alloc)?,
            faults: 0,
        })
    }

    /// What was taken.
    pub fn bytes(&self) -> &[u8]
        ensures { result.now ≡ self.now.taken }
    {
        self.bytes.as_slice()
    }

    /// The pieces of which some was taken, each as it was given.
    pub fn pieces(&self) -> &[Vec<u8>]
        ensures { map (λ piece. piece.items) result.now ≡ self.now.pieces }
    {
        self.pieces.as_slice()
    }

    /// Keeps a piece of which `n` bytes are taken.
    fn keep(&mut self, piece: &[u8], n: usize) -> Result<(), AllocError>
        requires { n ≤ length piece.now }
        ensures kept { OnOk result (self.new ≡ record self.old {
          taken = self.old.taken ++ take n piece.now;
          pieces = self.old.pieces ++ piece.now ∷ [];
        }) }
        ensures none { OnErr result (self.new ≡ self.old) }
    {
        let alloc = *self.bytes.allocator();
        let kept = piece.to_vec(alloc)?;
        self.pieces.reserve(1)?;
        self.bytes.extend_from_slice(&piece[..n])?;
        self.pieces.push_reserved(kept);
        Ok(())
    }
}

impl Sink for MemSink {
    ghost taken = { λ s. Some s.taken };

    ghost pieces = { λ s. Some s.pieces };

    ghost faults = { λ s. s.faults };

    fn write(&mut self, piece: &[u8]) -> Result<usize, Failed>
        requires { 0 < length piece.now }
        ensures some { IfOk result (λ n. 0 < n) }
        ensures bound { IfOk result (λ n. n ≤ length piece.now) }
        ensures bytes { WriteAppends (Some self.old.taken) (Some self.new.taken) result piece.now }
        ensures piece { self.new.pieces ≡ self.old.pieces ++ piece_of result piece.now }
        ensures counts { self.old.faults ≤ self.new.faults }
        ensures failed { OnErr result (Rose self.old.faults self.new.faults) }

        // which call fails, how many bytes another takes, and what a call changes; a call may also
        // fail for want of memory
        ensures named { Contains self.old.failing self.old.call → IsErr result }
        ensures all { IfOk result (λ n. n ≡ min self.old.most (length piece.now)) }
        ensures count { self.new.faults ≡ faults_after result self.old.faults }
        ensures call { self.new.call ≡ min (self.old.call + 1) (2 ^ 64 - 1) }
        ensures failing { self.new.failing ≡ self.old.failing }
        ensures most { self.new.most ≡ self.old.most }
    {
        let call = self.call;
        self.call = call.saturating_add(1);
        let n = self.most.min(piece.len());
        let failing = self.failing.contains(&call);
        if failing || self.keep(piece, n).is_err() {
            self.faults = self.faults.saturating_add(1);
            return Err(Failed);
        }
        Ok(n)
    }
}

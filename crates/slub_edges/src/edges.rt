//! What gives bytes and what takes them.

ghost use Rattle.std.specs.Prelude.{◌≡◌, ℕ, ◌<◌, ◌≤◌, List, length, IfOk, OnErr, OnOk, Option};
ghost use Rattle.std.specs.Io.{ReadsAtMost};
ghost use Rattle.std.specs.Io.KnownBytes.{ReadConsumes, WriteAppends};
ghost use Rattle.slub_edges.specs.Edges.{Rose, EndsExactly};
ghost use Rattle.slub_edges.specs.Pieces.{Gains, piece_of};

/// A read or a write failed. The end that answers this counted it, and counts nothing else.
#[derive(Clone, Copy, Debug, PartialEq, Eq)]
pub struct Failed;

/// Where bytes come from.
pub trait Source {
    // the bytes still to come, where the source tells them
    ghost rest: { Self → Option (List ℕ) };

    // how many calls failed, at most 2 ^ 64 - 1
    ghost faults: { Self → ℕ };

    /// Puts the next bytes at the front of `buf` and says how many. 0 is the end of the input.
    /// At `Failed` no byte is lost.
    fn read(&mut self, buf: &mut [u8]) -> Result<usize, Failed>
        requires { 0 < length buf.old }
        ensures bound { ReadsAtMost result buf.new }
        ensures bytes { ReadConsumes (rest self.old) (rest self.new) result buf.new }
        ensures end { EndsExactly (rest self.old) result }
        ensures counts { faults self.old ≤ faults self.new }
        ensures still { OnOk result (faults self.new ≡ faults self.old) }
        ensures failed { OnErr result (Rose (faults self.old) (faults self.new)) };
}

/// Where bytes go to.
pub trait Sink {
    // the bytes taken so far, where the sink tells them
    ghost taken: { Self → Option (List ℕ) };

    // the pieces of which it took some, where the sink tells them
    ghost pieces: { Self → Option (List (List ℕ)) };

    // how many calls failed, at most 2 ^ 64 - 1
    ghost faults: { Self → ℕ };

    /// Takes bytes from the front of `piece` and says how many, at least one.
    /// At `Failed` nothing was taken.
    fn write(&mut self, piece: &[u8]) -> Result<usize, Failed>
        requires { 0 < length piece.now }
        ensures some { IfOk result (λ n. 0 < n) }
        ensures bound { IfOk result (λ n. n ≤ length piece.now) }
        ensures bytes { WriteAppends (taken self.old) (taken self.new) result piece.now }
        ensures piece { Gains (pieces self.old) (pieces self.new) (piece_of result piece.now) }
        ensures counts { faults self.old ≤ faults self.new }
        ensures still { OnOk result (faults self.new ≡ faults self.old) }
        ensures failed { OnErr result (Rose (faults self.old) (faults self.new)) };
}

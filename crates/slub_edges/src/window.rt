//! A window onto a source: the bytes that were read and not yet taken.

ghost use Rattle.std.specs.Prelude.{◌≡◌, ◌-◌, ◌+◌, ◌<◌, ◌≤◌, [], drop, length, vec_len, false, true, IfOk, IfErr, OnOk};
ghost use Rattle.std.specs.Io.KnownBytes.{IsAtEnd};

use crate::edges::Source;
use crate::reading::ReadAllFault;
use std::alloc::{AllocError, Global};

/// How many bytes a window has room for at first: 64 KiB.
const ROOM: usize = 65536;

/// Some bytes of a source, in a buffer with room behind them.
///
/// It reads a source piece by piece, so that of a long source no more is kept than a line of it, or the room.
#[derive(Drop)]
pub struct Window {
    bytes: Vec<u8>,
    /// Where the bytes begin in the buffer.
    start: usize,
    /// Where the room behind them begins.
    end: usize,
    /// How many bytes the source gave, those that were taken too.
    count: usize,
    ghost ordered: { start ≤ end },
    ghost within: { end ≤ vec_len bytes },
    ghost some: { 65536 ≤ vec_len bytes },
}

impl Window {
    ghost use Rattle.slub_edges.specs.Window.{items, count_of, Counts, Grows, StopsRead};

    /// No bytes.
    pub fn new(alloc: Global) -> Result<Window, AllocError>
        ensures none { IfOk result (λ w. items w ≡ []) }
        ensures count { IfOk result (λ w. count_of w ≡ 0) }
    {
        Ok(Window {
            bytes: vec![in alloc; 0; ROOM]?,
            start: 0,
            end: 0,
            count: 0,
        })
    }

    pub fn as_slice(&self) -> &[u8]
        ensures { result.now ≡ items self.now }
    {
        &self.bytes[self.start..self.end]
    }

    /// Keeps the last so many bytes alone.
    pub fn keep(&mut self, last: usize)
        requires { last ≤ length (items self.old) }
        ensures kept { items self.new ≡ drop (length (items self.old) - last) (items self.old) }
        ensures count { count_of self.new ≡ count_of self.old }
    {
        self.start = self.end - last;
    }

    /// Moves the bytes to the front of the buffer, and doubles it where they fill it.
    fn make_room(&mut self) -> Result<(), AllocError>
        ensures kept { OnOk result (items self.new ≡ items self.old) }
        ensures count { count_of self.new ≡ count_of self.old }
        ensures front { OnOk result (self.new.start ≡ 0) }
        ensures room { OnOk result (self.new.end < vec_len self.new.bytes) }
    {
        let (start, end) = (self.start, self.end);
        self.bytes.copy_within(start..end, 0);
        self.start = 0;
        self.end = end - start;
        let room = self.bytes.len();
        if self.end == room {
            self.bytes.resize(2 * room, 0)?;
        }
        Ok(())
    }

    /// Reads a piece into the room, and says how many bytes came. 0 is the end. The source may give at most so many bytes
    /// in all.
    fn read_piece<S: Source>(&mut self, source: &mut S, most: usize) -> Result<usize, ReadAllFault>
        requires room { self.old.end < vec_len self.old.bytes }
        requires few { count_of self.old ≤ most }
        ensures grows { OnOk result (Grows (S.rest source.old) (S.rest source.new) (items self.old) (items self.new)
            (count_of self.old) (count_of self.new)) }
        ensures count { IfOk result (λ n. count_of self.new ≡ count_of self.old + n) }
        ensures few { OnOk result (count_of self.new ≤ most) }
        ensures start { OnOk result (self.new.start ≡ self.old.start) }
        ensures end { IfOk result (λ n. n ≡ 0 → IsAtEnd (S.rest source.new)) }
        ensures still { OnOk result (S.faults source.new ≡ S.faults source.old) }
        ensures stops { IfErr result (StopsRead most (S.rest source.old) (S.rest source.new) (count_of self.old)
            (S.faults source.old) (S.faults source.new)) }
        ensures counts { S.faults source.old ≤ S.faults source.new }
    {
        let end = self.end;
        let n = source.read(&mut self.bytes[end..])?;
        if n > most - self.count {
            return Err(ReadAllFault::TooLong);
        }
        self.end = end + n;
        self.count += n;
        Ok(n)
    }

    /// Reads until the buffer is full, or to the end of the source, and says whether that came. The source may give at
    /// most so many bytes in all.
    pub fn fill<S: Source>(&mut self, source: &mut S, most: usize) -> Result<bool, ReadAllFault>
        requires { count_of self.old ≤ most }
        ensures grows { OnOk result (Grows (S.rest source.old) (S.rest source.new) (items self.old) (items self.new)
            (count_of self.old) (count_of self.new)) }
        ensures few { OnOk result (count_of self.new ≤ most) }
        ensures whole { IfOk result (λ ended. ended ≡ false → 65536 ≤ length (items self.new)) }
        ensures goes_on { IfOk result (λ ended. ended ≡ false → count_of self.old < count_of self.new) }
        ensures end { IfOk result (λ ended. ended ≡ true → IsAtEnd (S.rest source.new)) }
        ensures still { OnOk result (S.faults source.new ≡ S.faults source.old) }
        ensures stops { IfErr result (StopsRead most (S.rest source.old) (S.rest source.new) (count_of self.old)
            (S.faults source.old) (S.faults source.new)) }
        ensures counts { S.faults source.old ≤ S.faults source.new }
    {
        self.make_room()?;
        while self.end < self.bytes.len() {
            if self.read_piece(source, most)? == 0 {
                return Ok(true);
            }
        }
        Ok(false)
    }

    /// Reads the source to its end, and keeps nothing of it. It may give at most so many bytes in all.
    pub fn pass_rest<S: Source>(&mut self, source: &mut S, most: usize) -> Result<(), ReadAllFault>
        requires { count_of self.old ≤ most }
        ensures few { OnOk result (count_of self.new ≤ most) }
        ensures passed { OnOk result (Counts (S.rest source.old) (S.rest source.new) (count_of self.old) (count_of self.new)) }
        ensures end { OnOk result (IsAtEnd (S.rest source.new)) }
        ensures still { OnOk result (S.faults source.new ≡ S.faults source.old) }
        ensures stops { IfErr result (StopsRead most (S.rest source.old) (S.rest source.new) (count_of self.old)
            (S.faults source.old) (S.faults source.new)) }
        ensures counts { S.faults source.old ≤ S.faults source.new }
    {
        loop {
            self.start = 0;
            self.end = 0;
            let n = self.read_piece(source, most)?;
            if n == 0 {
                return Ok(());
            }
        }
    }
}

//! Readers and writers of std as sources and sinks.

ghost use Rattle.std.specs.Prelude.{◌≡◌, ◌<◌, ◌≤◌, length, IfOk, OnErr, None};
ghost use Rattle.std.specs.Io.{ReadsAtMost};
ghost use Rattle.std.specs.Io.KnownBytes.{ReadConsumes, WriteAppends};
ghost use Rattle.slub_edges.specs.Edges.{Rose, EndsExactly, faults_after};
ghost use Rattle.slub_edges.specs.Adapters.{reader_of, read_faults, writer_of, write_faults};

use crate::edges::{Failed, Sink, Source};
use std::io::{Read, Write};

/// A source over a reader. It counts each `Err` of the reader as a fault, and tells the bytes that
/// the reader tells: none for standard input.
#[derive(Debug, Drop)]
pub struct ReadSource<R: Read + Drop> {
    reader: R,
    faults: u64,
}

impl<R: Read + Drop> ReadSource<R> {
    /// A source over this reader.
    pub fn of(reader: R) -> ReadSource<R>
        ensures reader { reader_of result ≡ reader }
        ensures faults { read_faults result ≡ 0 }
    {
        ReadSource { reader, faults: 0 }
    }

    /// The reader.
    pub fn into_inner(self) -> R
        ensures { result ≡ reader_of self }
    {
        let ReadSource { reader, faults: _ } = self;
        reader
    }
}

impl<R: Read + Drop> Source for ReadSource<R> {
    ghost rest = { λ source. R.remaining (reader_of source) };

    ghost faults = { λ source. read_faults source };

    fn read(&mut self, buf: &mut [u8]) -> Result<usize, Failed>
        requires { 0 < length buf.old }
        ensures bound { ReadsAtMost result buf.new }
        ensures bytes { ReadConsumes (R.remaining (reader_of self.old))
            (R.remaining (reader_of self.new)) result buf.new }
        ensures end { EndsExactly (R.remaining (reader_of self.old)) result }
        ensures counts { read_faults self.old ≤ read_faults self.new }
        ensures failed { OnErr result (Rose (read_faults self.old) (read_faults self.new)) }
        ensures count { read_faults self.new ≡ faults_after result (read_faults self.old) }
    {
        match self.reader.read(buf) {
            Ok(n) => Ok(n),
            Err(_) => {
                self.faults = self.faults.saturating_add(1);
                Err(Failed)
            }
        }
    }
}

/// A sink over a writer. It counts each `Err` of the writer as a fault, and each write of which
/// the writer took no byte. It tells the bytes that the writer tells: none for standard output.
#[derive(Debug, Drop)]
pub struct WriteSink<W: Write + Drop> {
    writer: W,
    faults: u64,
}

impl<W: Write + Drop> WriteSink<W> {
    /// A sink over this writer.
    pub fn of(writer: W) -> WriteSink<W>
        ensures writer { writer_of result ≡ writer }
        ensures faults { write_faults result ≡ 0 }
    {
        WriteSink { writer, faults: 0 }
    }

    /// The writer. What it holds back isn't flushed.
    pub fn into_inner(self) -> W
        ensures { result ≡ writer_of self }
    {
        let WriteSink { writer, faults: _ } = self;
        writer
    }
}

impl<W: Write + Drop> Sink for WriteSink<W> {
    ghost taken = { λ sink. W.contents (writer_of sink) };

    ghost pieces = { λ _. None };

    ghost faults = { λ sink. write_faults sink };

    fn write(&mut self, piece: &[u8]) -> Result<usize, Failed>
        requires { 0 < length piece.now }
        ensures some { IfOk result (λ n. 0 < n) }
        ensures bound { IfOk result (λ n. n ≤ length piece.now) }
        ensures bytes { WriteAppends (W.contents (writer_of self.old))
            (W.contents (writer_of self.new)) result piece.now }
        ensures counts { write_faults self.old ≤ write_faults self.new }
        ensures failed { OnErr result (Rose (write_faults self.old) (write_faults self.new)) }
        ensures count { write_faults self.new ≡ faults_after result (write_faults self.old) }
    {
        match self.writer.write(piece) {
            Ok(n) if n > 0 => Ok(n),
            _ => {
                self.faults = self.faults.saturating_add(1);
                Err(Failed)
            }
        }
    }
}

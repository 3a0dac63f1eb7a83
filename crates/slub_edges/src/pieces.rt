//! Writing pieces and texts whole.

ghost use Rattle.std.specs.Prelude.{◌≡◌, ◌<◌, ◌≤◌, ◌==◌, length, position, OnOk, OnErr};
ghost use Rattle.std.specs.Io.BufRead.{take_through};
ghost use Rattle.std.specs.Io.KnownBytes.{Appends};
ghost use Rattle.slub_edges.specs.Edges.{Rose, AppendsFront};
ghost use Rattle.slub_edges.specs.Pieces.{AreOf, IsGiven, AreOfLines, AreOfFirstLines, Gives, lines_of};

use crate::edges::{Failed, Sink};

/// Writes a piece, whole at the first call. Where a part of it was taken, it is written on from
/// there. At `Failed` a byte of it or more was not taken.
pub fn write_all<K: Sink>(sink: &mut K, piece: &[u8]) -> Result<(), Failed>
    ensures ok { OnOk result (Appends (K.taken sink.old) (K.taken sink.new) piece.now) }
    ensures err { OnErr result (AppendsFront (K.taken sink.old) (K.taken sink.new) 0 piece.now) }
    ensures given { OnOk result (Gives (K.pieces sink.old) (K.pieces sink.new) (IsGiven piece.now)) }
    ensures begun { OnErr result (Gives (K.pieces sink.old) (K.pieces sink.new) (AreOf piece.now)) }
    ensures counts { K.faults sink.old ≤ K.faults sink.new }
    ensures still { OnOk result (K.faults sink.new ≡ K.faults sink.old) }
    ensures failed { OnErr result (Rose (K.faults sink.old) (K.faults sink.new)) }
{
    let mut rest = piece;
    while !rest.is_empty() {
        let n = sink.write(rest)?;
        rest = &rest[n..];
    }
    Ok(())
}

/// Writes a text line by line. A line with its line feed is one piece, and so is what stands after
/// the last line feed. At `Failed` a byte of the text or more was not taken.
pub fn write_lines<K: Sink>(sink: &mut K, text: &[u8]) -> Result<(), Failed>
    ensures ok { OnOk result (Appends (K.taken sink.old) (K.taken sink.new) text.now) }
    ensures err { OnErr result (AppendsFront (K.taken sink.old) (K.taken sink.new) 0 text.now) }
    ensures lines { OnOk result (Gives (K.pieces sink.old) (K.pieces sink.new)
        (AreOfLines (lines_of text.now))) }
    ensures begun { OnErr result (Gives (K.pieces sink.old) (K.pieces sink.new)
        (AreOfFirstLines (lines_of text.now))) }
    ensures counts { K.faults sink.old ≤ K.faults sink.new }
    ensures still { OnOk result (K.faults sink.new ≡ K.faults sink.old) }
    ensures failed { OnErr result (Rose (K.faults sink.old) (K.faults sink.new)) }
{
    let mut rest = text;
    while !rest.is_empty() {
        let (line, after) = rest.split_at(line_len(rest));
        write_all(sink, line)?;
        rest = after;
    }
    Ok(())
}

/// The length of the first line, with its line feed.
fn line_len(text: &[u8]) -> usize
    requires { 0 < length text.now }
    ensures some { 0 < result }
    ensures within { result ≤ length text.now }
    ensures line { result ≡ length (take_through 10 text.now) }
{
    match line_feed(text) {
        Some(at) => at + 1,
        None => text.len(),
    }
}

/// Where the first line feed stands.
fn line_feed(text: &[u8]) -> Option<usize>
    ensures { result ≡ position (λ b. b == 10) text.now }
{
    text.iter().position(|b| *b == b'\n')
}

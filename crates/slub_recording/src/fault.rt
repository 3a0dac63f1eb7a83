//! Why nothing was read.

ghost use Rattle.std.specs.Prelude.{◌≡◌, ◌++◌, IfOk, OnOk};
ghost use Rattle.slub_recording.specs.declared.fault.RecordingFault.TheVariants as fault;
ghost use Rattle.slub_recording.specs.declared.fault.Stop.TheVariants as stop;
ghost use Rattle.slub_recording.specs.Texts.{why_text, fault_text, fault_of_source};

use crate::event::{Key, KmemKind};
use crate::excerpt::Excerpt;
use slub_edges::reading::ReadAllFault;
use std::alloc::{AllocError, Global};

/// Why a line is bad, in the order in which the reasons are tried.
#[derive(Clone, Copy, Debug)]
pub enum LineFault {
    /// The last bytes have no line feed.
    Unfinished,
    /// It is no event, and no other line that the tools print.
    NoLine,
    /// A value of the event isn't there: the first such.
    Without { kind: KmemKind, key: Key },
    /// A size is no decimal number of 32 bits.
    BadSize { kind: KmemKind },
    /// The pointer was printed before pointers could be hashed (`____ptrval____`).
    Unhashed,
    /// The pointer is no hexadecimal number of 64 bits: its first bytes, at most 31.
    BadPointer { text: Excerpt },
}

/// Writes three texts behind a text.
fn write_three(text: &mut Vec<u8>, a: &[u8], b: &[u8], c: &[u8]) -> Result<(), AllocError>
    ensures { OnOk result (text.new.items ≡ text.old.items ++ (a.now ++ b.now ++ c.now)) }
{
    text.extend_from_slice(a)?;
    text.extend_from_slice(b)?;
    text.extend_from_slice(c)
}

impl LineFault {
    /// Writes the reason behind a text.
    fn write(&self, text: &mut Vec<u8>) -> Result<(), AllocError>
        ensures { OnOk result (text.new.items ≡ text.old.items ++ why_text self.now) }
    {
        match self {
            LineFault::Unfinished => text.extend_from_slice(b"unfinished line"),
            LineFault::NoLine => {
                text.extend_from_slice(b"no event, and no other line that the tools print")
            }
            LineFault::Without { kind, key } => {
                write_three(text, kind.text(), b" without ", key.text())
            }
            LineFault::BadSize { kind } => {
                text.extend_from_slice(kind.text())?;
                text.extend_from_slice(b" with a size that is no number")
            }
            LineFault::Unhashed => text.extend_from_slice(
                b"the pointer was not yet hashed: boot with no_hash_pointers",
            ),
            LineFault::BadPointer { text: word } => {
                write_three(text, b"bad pointer '", word.as_bytes(), b"'")
            }
        }
    }
}

/// Why a line isn't told: it is bad, or no memory was found.
#[derive(Clone, Copy, Debug)]
pub(crate) enum Stop {
    Line(LineFault),
    NoMemory,
}

impl From<LineFault> for Stop {
    ghost from_gives = { λ why s. s ≡ stop.Line why };

    fn from(why: LineFault) -> Stop {
        Stop::Line(why)
    }
}

impl From<AllocError> for Stop {
    ghost from_gives = { λ _ s. s ≡ stop.NoMemory };

    fn from(_e: AllocError) -> Stop {
        Stop::NoMemory
    }
}

/// Why no recording was read.
#[derive(Clone, Copy, Debug)]
pub enum RecordingFault {
    /// A read failed.
    ReadFault,
    /// There are more than 268435456 bytes.
    TooLong,
    /// They are the file of `trace-cmd record`, and not its text.
    TraceDat,
    /// They are the file of `perf record`, and not its text.
    PerfData,
    /// The first bad line, from 1 on, and why it is bad.
    BadLine { line: u32, why: LineFault },
    /// Each line is good, and none is an event of the four kinds.
    NoKmemEvent,
    NoMemory,
}

impl RecordingFault {
    /// The fault in words, as a message has them behind the program's name.
    pub fn text(&self, alloc: Global) -> Result<Vec<u8>, AllocError>
        ensures { IfOk result (λ text. text.items ≡ fault_text self.now) }
    {
        match self {
            RecordingFault::ReadFault => Vec::from_slice(alloc, b"read fault"),
            RecordingFault::TooLong => Vec::from_slice(alloc, b"input too long"),
            RecordingFault::TraceDat => Vec::from_slice(
                alloc,
                b"this is trace.dat: give the text of `trace-cmd report`",
            ),
            RecordingFault::PerfData => Vec::from_slice(
                alloc,
                b"this is perf.data: give the text of `perf script`",
            ),
            RecordingFault::BadLine { line, why } => {
                let place = format!(in alloc; "line {line}: ")?;
                let mut text = Vec::from_slice(alloc, place.as_bytes())?;
                why.write(&mut text)?;
                Ok(text)
            }
            RecordingFault::NoKmemEvent => {
                Vec::from_slice(alloc, b"no kmem event in the recording")
            }
            RecordingFault::NoMemory => Vec::from_slice(alloc, b"out of memory"),
        }
    }
}

/// The fault of a source that wasn't read to its end.
pub(crate) fn of_source(fault: ReadAllFault) -> RecordingFault
    ensures { result ≡ fault_of_source fault }
{
    match fault {
        ReadAllFault::Failed => RecordingFault::ReadFault,
        ReadAllFault::TooLong => RecordingFault::TooLong,
        ReadAllFault::NoMemory => RecordingFault::NoMemory,
    }
}

impl From<AllocError> for RecordingFault {
    ghost from_gives = { λ _ f. f ≡ fault.NoMemory };

    fn from(_e: AllocError) -> RecordingFault {
        RecordingFault::NoMemory
    }
}

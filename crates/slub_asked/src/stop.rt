//! Why a run stops early.

ghost use Rattle.std.specs.Prelude.{◌≡◌, IfOk};
ghost use Rattle.slub_asked.specs.declared.stop.Stop.TheVariants.{NoMemory as Want, WriteFault as Fault};
ghost use Rattle.slub_asked.specs.Stop.{IsBadStopOf, IsStopOf, stop_line, stop_status};
ghost use Rattle.slub_trace_reader.specs.Faults.{bad_line};

use slub_common::no_memory::NoMemory;
use slub_edges::edges::Failed;
use slub_picks::faults::Bad;
use slub_picks::status::Status;
use slub_trace_reader::reading::{TraceFault, Why};
use std::alloc::{AllocError, AllocFailed, Global};

/// Why a run stops early.
#[derive(Debug, Drop)]
pub enum Stop {
    /// The words ask for nothing that is done here.
    BadWords,
    /// A line of the trace is bad: the line that tells of it.
    BadLine(Vec<u8>),
    /// There are too many bytes.
    TooLong,
    /// A read failed.
    ReadFault,
    /// A write failed.
    WriteFault,
    /// Memory ran out.
    NoMemory,
    /// All turns of a round are made, of a client's line too, and a worker of it is unfinished.
    TurnsSpent,
    /// The picks don't fit the trace, or it has no such round: the line that tells of it.
    BadPicks(Vec<u8>),
}

impl From<NoMemory> for Stop {
    ghost from_gives = { λ _ e. e ≡ Want };

    fn from(_want: NoMemory) -> Stop {
        Stop::NoMemory
    }
}

impl From<AllocError> for Stop {
    ghost from_gives = { λ _ e. e ≡ Want };

    fn from(_want: AllocError) -> Stop {
        Stop::NoMemory
    }
}

impl<T: Drop> From<AllocFailed<T>> for Stop {
    ghost from_gives = { λ _ e. e ≡ Want };

    fn from(_want: AllocFailed<T>) -> Stop {
        Stop::NoMemory
    }
}

impl From<Failed> for Stop {
    ghost from_gives = { λ _ e. e ≡ Fault };

    fn from(_failed: Failed) -> Stop {
        Stop::WriteFault
    }
}

impl Stop {
    /// What a fault of the reader stops for. The line of a bad one is made here; want of memory for it stops the run as
    /// any other.
    pub fn of(alloc: Global, fault: TraceFault) -> Stop
        ensures { IsStopOf fault result }
    {
        match fault {
            TraceFault::ReadFault => Stop::ReadFault,
            TraceFault::TooLong => Stop::TooLong,
            TraceFault::BadLine { line, why } => match bad_line(alloc, line, why) {
                Ok(text) => Stop::BadLine(text),
                Err(_) => Stop::NoMemory,
            },
            TraceFault::NoMemory => Stop::NoMemory,
        }
    }

    /// What picks that don't fit stop for. The line is made here; want of memory for it stops the run as any other.
    pub fn of_picks(alloc: Global, bad: Bad) -> Stop
        ensures { IsBadStopOf bad result }
    {
        match bad.line(alloc) {
            Ok(line) => Stop::BadPicks(line),
            Err(NoMemory) => Stop::NoMemory,
        }
    }

    /// The line that tells of it; none of a failed write.
    pub fn line(&self) -> &[u8]
        ensures { result.now ≡ stop_line self.now }
    {
        match self {
            Stop::BadWords => b"slub: bad command\n",
            Stop::BadLine(line) | Stop::BadPicks(line) => line.as_slice(),
            Stop::TooLong => b"slub: input too long\n",
            Stop::ReadFault => b"slub: read fault\n",
            Stop::WriteFault => b"",
            Stop::NoMemory => b"slub: out of memory\n",
            Stop::TurnsSpent => b"slub: turns spent\n",
        }
    }

    /// The status with which the run ends.
    pub fn status(&self) -> Status
        ensures { result ≡ stop_status self.now }
    {
        match self {
            Stop::BadWords => Status::BadWords,
            Stop::BadLine(_) | Stop::TooLong => Status::BadTrace,
            Stop::ReadFault => Status::ReadFault,
            Stop::WriteFault => Status::WriteFault,
            Stop::NoMemory => Status::NoMemory,
            Stop::TurnsSpent => Status::TurnsSpent,
            Stop::BadPicks(_) => Status::BadPicks,
        }
    }
}

/// The line that tells of a bad one.
fn bad_line(alloc: Global, line: u32, why: Why) -> Result<Vec<u8>, AllocError>
    ensures { IfOk result (λ text. text.items ≡ bad_line line why) }
{
    let mut text = format!(in alloc; "slub: line {line}: ")?.into_bytes();
    text.extend_from_slice(why.text())?;
    text.extend_from_slice(b"\n")?;
    Ok(text)
}

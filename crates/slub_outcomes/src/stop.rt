//! Why a run stops early.

ghost use Rattle.std.specs.Prelude.{◌≡◌, IfOk};
ghost use Rattle.slub_outcomes.specs.declared.stop.Stop.TheVariants.{NoMemory as Want};
ghost use Rattle.slub_outcomes.specs.Stop.{IsStopOf, stop_line, stop_status};
ghost use Rattle.slub_trace_reader.specs.Faults.{bad_line};

use crate::status::Status;
use slub_common::no_memory::NoMemory;
use slub_trace_reader::reading::{TraceFault, Why};
use std::alloc::{AllocError, Global};

/// Why a run stops early.
#[derive(Debug, Drop)]
pub enum Stop {
    /// The words ask for nothing that is done here.
    BadWords,
    /// A line of the trace is bad: the line that tells of it.
    BadLine(Vec<u8>),
    /// There are too many bytes.
    TooLong,
    /// A read failed.
    ReadFault,
    /// Memory ran out, for the run or for one of the replies.
    NoMemory,
}

impl From<NoMemory> for Stop {
    ghost from_gives = { λ _ e. e ≡ Want };

    fn from(_want: NoMemory) -> Stop {
        Stop::NoMemory
    }
}

impl Stop {
    /// What a fault of the reader stops for. The line of a bad one is made here; want of memory for it
    /// stops the run as any other.
    pub fn of(alloc: Global, fault: TraceFault) -> Stop
        ensures { IsStopOf fault result }
    {
        match fault {
            TraceFault::ReadFault => Stop::ReadFault,
            TraceFault::TooLong => Stop::TooLong,
            TraceFault::BadLine { line, why } => match bad_line(alloc, line, why) {
                Ok(text) => Stop::BadLine(text),
                Err(_) => Stop::NoMemory,
            },
            TraceFault::NoMemory => Stop::NoMemory,
        }
    }

    /// The line that tells of it.
    pub fn line(&self) -> &[u8]
        ensures { result.now ≡ stop_line self.now }
    {
        match self {
            Stop::BadWords => b"slub: bad command\n",
            Stop::BadLine(text) => text.as_slice(),
            Stop::TooLong => b"slub: input too long\n",
            Stop::ReadFault => b"slub: read fault\n",
            Stop::NoMemory => b"slub: out of memory\n",
        }
    }

    /// The status with which the run ends.
    pub fn status(&self) -> Status
        ensures { result ≡ stop_status self.now }
    {
        match self {
            Stop::BadWords => Status::BadWords,
            Stop::BadLine(_) | Stop::TooLong => Status::BadTrace,
            Stop::ReadFault => Status::ReadFault,
            Stop::NoMemory => Status::NoMemory,
        }
    }
}

/// The line that tells of a bad one.
fn bad_line(alloc: Global, line: u32, why: Why) -> Result<Vec<u8>, AllocError>
    ensures { IfOk result (λ text. text.items ≡ bad_line line why) }
{
    let mut text = format!(in alloc; "slub: line {line}: ")?.into_bytes();
    text.extend_from_slice(why.text())?;
    text.extend_from_slice(b"\n")?;
    Ok(text)
}

//! Why a run ended early.

ghost use Rattle.std.specs.Prelude.{◌≡◌, IfOk};
ghost use Rattle.slub_cli.specs.declared.stop.Stop.TheVariants.{WriteFault, NoMemory};
ghost use Rattle.slub_trace_reader.specs.Faults.{bad_line};
ghost use Rattle.slub_cli.specs.Stop.{IsStopOf, item_stop};

use slub_edges::edges::Failed;
use slub_items::machine::Stopped;
use slub_trace_reader::reading::{TraceFault, Why};
use std::alloc::{AllocError, AllocFailed, Global};

/// Why a run ended early.
#[derive(Debug, Drop)]
pub enum Stop {
    /// The words are no command.
    BadWords,
    /// A line of the trace is bad: the line that tells of it.
    BadLine(Vec<u8>),
    TooLong,
    ReadFault,
    WriteFault,
    NoMemory,
    /// All turns of a round are made, of a client's line too, and a worker of it is unfinished.
    TurnsSpent,
}

impl From<AllocError> for Stop {
    ghost from_gives = { λ _ e. e ≡ NoMemory };

    fn from(_error: AllocError) -> Stop {
        Stop::NoMemory
    }
}

impl<T: Drop> From<AllocFailed<T>> for Stop {
    ghost from_gives = { λ _ e. e ≡ NoMemory };

    fn from(_failed: AllocFailed<T>) -> Stop {
        Stop::NoMemory
    }
}

impl From<slub_common::no_memory::NoMemory> for Stop {
    ghost from_gives = { λ _ e. e ≡ NoMemory };

    fn from(_want: slub_common::no_memory::NoMemory) -> Stop {
        Stop::NoMemory
    }
}

impl Stop {
    /// What a fault of the reader stops for. The line of a bad one is made here; want of memory for it
    /// stops the run as any other.
    pub fn of(alloc: Global, fault: TraceFault) -> Stop
        ensures { IsStopOf fault result }
    {
        match fault {
            TraceFault::ReadFault => Stop::ReadFault,
            TraceFault::TooLong => Stop::TooLong,
            TraceFault::BadLine { line, why } => match bad_line(alloc, line, why) {
                Ok(text) => Stop::BadLine(text),
                Err(_) => Stop::NoMemory,
            },
            TraceFault::NoMemory => Stop::NoMemory,
        }
    }
}

/// The line that tells of a bad one.
fn bad_line(alloc: Global, line: u32, why: Why) -> Result<Vec<u8>, AllocError>
    ensures { IfOk result (λ text. text.items ≡ bad_line line why) }
{
    let mut text = format!(in alloc; "slub: line {line}: ")?.into_bytes();
    text.extend_from_slice(why.text())?;
    text.extend_from_slice(b"\n")?;
    Ok(text)
}

// What a piece that wasn't written stops for.
impl From<Failed> for Stop {
    ghost from_gives = { λ _ e. e ≡ WriteFault };

    fn from(_failed: Failed) -> Stop {
        Stop::WriteFault
    }
}

// What an item that wasn't done stops for; its machine is let go.
impl From<Stopped> for Stop {
    ghost from_gives = { λ stopped e. e ≡ item_stop stopped };

    fn from(stopped: Stopped) -> Stop {
        match stopped {
            Stopped::NoMemory(_) => Stop::NoMemory,
            Stopped::TurnsSpent => Stop::TurnsSpent,
        }
    }
}

//! Why a run stops early.

ghost use Rattle.std.specs.Prelude.{◌≡◌, IfOk, MatchResult};
ghost use Rattle.slub_recorded.specs.declared.stop.Stop.TheVariants.{BadInput as With, NoMemory as Want};
ghost use Rattle.slub_recording.specs.Texts.{fault_text};
ghost use Rattle.slub_recorded.specs.Stop.{IsConvertStop, IsReadStop, convert_text, stop_line, stop_status};
ghost use Rattle.slub_trace_reader.specs.Faults.{fault_line};

use crate::convert::ConvertFault;
use crate::status::Status;
use slub_recording::fault::RecordingFault;
use std::alloc::{AllocError, Global};

/// Why a run stops early.
#[derive(Debug, Drop)]
pub enum Stop {
    /// The words ask for nothing that is done here.
    BadWords,
    /// The bytes are no recording, or there is no trace of it: the line that tells why.
    BadInput(Vec<u8>),
    ReadFault,
    NoMemory,
}

impl Stop {
    /// The stop with a line, where memory was found for it.
    fn with(line: Result<Vec<u8>, AllocError>) -> Stop
        ensures { MatchResult line (λ text. result ≡ With text) (λ _. result ≡ Want) }
    {
        match line {
            Ok(text) => Stop::BadInput(text),
            Err(_) => Stop::NoMemory,
        }
    }

    /// What a fault of the reader stops for. The line that tells of it is made here; want of memory
    /// for it stops the run as any other.
    pub fn of_reading(alloc: Global, fault: &RecordingFault) -> Stop
        ensures { IsReadStop fault.now result }
    {
        match fault {
            RecordingFault::ReadFault => Stop::ReadFault,
            RecordingFault::NoMemory => Stop::NoMemory,
            _ => Stop::with(read_line(alloc, fault)),
        }
    }

    /// What a fault of the conversion stops for, in the same way.
    pub fn of_converting(alloc: Global, fault: &ConvertFault) -> Stop
        ensures { IsConvertStop fault.now result }
    {
        match fault {
            ConvertFault::NoMemory => Stop::NoMemory,
            _ => Stop::with(convert_line(alloc, fault)),
        }
    }

    /// The line that tells of it.
    pub fn line(&self) -> &[u8]
        ensures { result.now ≡ stop_line self.now }
    {
        match self {
            Stop::BadWords => b"slub: bad command\n",
            Stop::BadInput(line) => line.as_slice(),
            Stop::ReadFault => b"slub: read fault\n",
            Stop::NoMemory => b"slub: out of memory\n",
        }
    }

    pub fn status(&self) -> Status
        ensures { result ≡ stop_status self.now }
    {
        match self {
            Stop::BadWords => Status::BadWords,
            Stop::BadInput(_) => Status::BadInput,
            Stop::ReadFault => Status::ReadFault,
            Stop::NoMemory => Status::NoMemory,
        }
    }
}

/// Why there is no trace, in words.
fn convert_text(alloc: Global, fault: &ConvertFault) -> Result<Vec<u8>, AllocError>
    ensures { IfOk result (λ text. text.items ≡ convert_text fault.now) }
{
    match fault {
        ConvertFault::NoMemory => Vec::from_slice(alloc, b"out of memory"),
        ConvertFault::TooManyCpus { cpus } => {
            let text = format!(in alloc;
                "{cpus} CPUs: at most 16; --cpus N puts CPU c to c modulo N"
            )?;
            Ok(text.into_bytes())
        }
        ConvertFault::NoSuchGroup { group, groups } => {
            let text = format!(in alloc; "no group {group}: there are {groups}")?;
            Ok(text.into_bytes())
        }
        ConvertFault::TooManyObjects { objects } => {
            let text = format!(in alloc; "{objects} objects: at most 1048576")?;
            Ok(text.into_bytes())
        }
        ConvertFault::TooLong { bytes } => {
            let text = format!(in alloc; "{bytes} bytes of trace: at most 16777216")?;
            Ok(text.into_bytes())
        }
    }
}

/// The line of the program's own that says this.
fn fault_line(alloc: Global, why: &[u8]) -> Result<Vec<u8>, AllocError>
    ensures { IfOk result (λ line. line.items ≡ fault_line why.now) }
{
    let mut line = Vec::from_slice(alloc, b"slub: ")?;
    line.extend_from_slice(why)?;
    line.extend_from_slice(b"\n")?;
    Ok(line)
}

/// The line that tells of a fault of the reader.
fn read_line(alloc: Global, fault: &RecordingFault) -> Result<Vec<u8>, AllocError>
    ensures { IfOk result (λ line. line.items ≡ fault_line (fault_text fault.now)) }
{
    let text = fault.text(alloc)?;
    fault_line(alloc, text.as_slice())
}

/// The line that tells of a fault of the conversion.
fn convert_line(alloc: Global, fault: &ConvertFault) -> Result<Vec<u8>, AllocError>
    ensures { IfOk result (λ line. line.items ≡ fault_line (convert_text fault.now)) }
{
    let text = convert_text(alloc, fault)?;
    fault_line(alloc, text.as_slice())
}

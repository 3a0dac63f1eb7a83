//! Reading a source to its end.

ghost use Rattle.std.specs.Prelude.{◌≡◌, ◌≤◌};
ghost use Rattle.slub_edges.specs.declared.reading.ReadAllFault.TheVariants as fault;
ghost use Rattle.slub_edges.specs.Reading.{ReadsAll};

use crate::edges::{Failed, Source};
use std::alloc::{AllocError, AllocFailed, Global};

/// How many bytes are asked for at once: 4 KiB.
const PIECE: usize = 4096;

/// Why a source wasn't read to its end.
#[derive(Clone, Copy, Debug, PartialEq, Eq)]
pub enum ReadAllFault {
    /// A read failed.
    Failed,
    /// There are more bytes than were asked for.
    TooLong,
    /// No memory was found for them.
    NoMemory,
}

impl From<Failed> for ReadAllFault {
    ghost from_gives = { λ _ e. e ≡ fault.Failed };

    fn from(_e: Failed) -> ReadAllFault {
        ReadAllFault::Failed
    }
}

impl From<AllocError> for ReadAllFault {
    ghost from_gives = { λ _ e. e ≡ fault.NoMemory };

    fn from(_e: AllocError) -> ReadAllFault {
        ReadAllFault::NoMemory
    }
}

impl<T: Drop> From<AllocFailed<T>> for ReadAllFault {
    ghost from_gives = { λ _ e. e ≡ fault.NoMemory };

    fn from(_e: AllocFailed<T>) -> ReadAllFault {
        ReadAllFault::NoMemory
    }
}

/// All bytes of a source, up to its end: at most `most` bytes. At an error the bytes that were
/// read are lost.
pub fn read_all<S: Source>(
    alloc: Global,
    source: &mut S,
    most: usize,
) -> Result<Vec<u8>, ReadAllFault>
    ensures all { ReadsAll (S.rest source.old) (S.rest source.new)
        (S.faults source.old) (S.faults source.new) most result }
    ensures counts { S.faults source.old ≤ S.faults source.new }
{
    let mut bytes = Vec::new(alloc);
    loop {
        let mut buffer = [0u8; PIECE];
        let n = source.read(&mut buffer)?;
        if n == 0 {
            return Ok(bytes);
        }
        if n > most - bytes.len() {
            return Err(ReadAllFault::TooLong);
        }
        bytes.extend_from_slice(&buffer[..n])?;
    }
}

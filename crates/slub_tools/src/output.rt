//! What a buffer before standard output still holds when the run is over.

ghost use Rattle.std.specs.Prelude.{◌≡◌, IfOk};
ghost use Rattle.std.specs.Io.Buffered.{writer_contents};
ghost use Rattle.std.specs.Io.KnownBytes.{Keeps};

use slub_edges::edges::Failed;
use std::io::{BufWriter, Write};

/// The bytes that are held back at most.
pub const HELD: usize = 65536;

/// Writes what the buffer still holds, and gives the writer behind it, which has all then. At `Failed`
/// what was not written is dropped.
pub fn written_out<W: Write + Drop>(buffer: BufWriter<W>) -> Result<W, Failed>
    ensures { IfOk result (λ writer.
        Keeps (writer_contents W.contents buffer) (W.contents writer)) }
{
    match buffer.into_inner() {
        Ok(mut writer) => match writer.flush() {
            Ok(()) => Ok(writer),
            Err(_) => Err(Failed),
        },
        Err(error) => {
            let _dropped = error.into_inner().into_parts();
            Err(Failed)
        }
    }
}

/// The number of a failed write, of each command.
const WRITE_FAULT: u8 = 5;

/// The number of a run's status, once the buffer was written out. A failed write goes before every other status, and
/// nothing more is written after one.
pub fn ended<W: Write + Drop>(number: u8, buffer: BufWriter<W>) -> u8
    ensures { ¬ (result ≡ 5) → result ≡ number }
{
    if number == WRITE_FAULT {
        let _dropped = buffer.into_parts();
        return number;
    }
    match written_out(buffer) {
        Ok(_) => number,
        Err(Failed) => WRITE_FAULT,
    }
}

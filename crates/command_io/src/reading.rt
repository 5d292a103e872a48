//! Ends the reading of a file.
ghost use Rattle.std.specs.Prelude.{◌≡◌};
ghost use Rattle.heap_layout.specs.Counted.{failures_of};
ghost use Rattle.command_io.specs.FileCalls.{LeavesRead};
ghost use Rattle.command_io.specs.Reading.{CountsRead};

use crate::opening::Files;
use crate::refusal::CommandRefusal;
use heap_layout::Counted;

/// Gives what was read through a reader, and takes the reader back if a call of it failed: then the files count the
/// call. What was read must be refused for a failed call if and only if one call of the reader failed.
pub fn end_reading<F: Files, T>(
    files: &mut F,
    reader: Counted<F::Reader>,
    read: Result<T, CommandRefusal>,
) -> Result<T, CommandRefusal>
    requires { CountsRead 0 (failures_of reader) read }
    ensures same { result ≡ read }
    ensures left { LeavesRead (F.disk files.old) files.old files.new result }
{
    if reader.failures() > 0 {
        files.take_back(reader);
    }
    read
}

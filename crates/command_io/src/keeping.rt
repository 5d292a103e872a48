//! Keeps what was written.
ghost use Rattle.std.specs.Prelude.{IfErr, OnOk};
ghost use Rattle.command_io.specs.KeptFiles.{IsOfKeeping, KeepsAll};

use crate::flushed::Flushed;
use crate::opening::Files;
use crate::refusal::Output;
use heap_layout::Counted;

/// Why a file was not kept.
#[derive(Clone, Copy, Debug, PartialEq, Eq)]
pub enum Unkept {
    /// Its writer could not be flushed, or the file not be put at its path.
    Device,
    /// An allocation failed.
    OutOfMemory,
}

/// Flushes a writer that a path gave, and keeps at the path all that it took.
pub(crate) fn keep_all<F: Files>(
    files: &mut F,
    output: Output,
    path: &str,
    written: Counted<F::Writer>,
) -> Result<(), Unkept>
    ensures kept { OnOk result (KeepsAll (F.disk files.old) F.Writer.contents output path.now written files.new) }
    ensures cause { IfErr result (IsOfKeeping (F.disk files.old) F.Writer.contents written files.old files.new) }
{
    match Flushed::of(written) {
        Ok(flushed) => files.keep(output, path, flushed),
        Err(failed) => {
            files.give_up(failed);
            Err(Unkept::Device)
        }
    }
}

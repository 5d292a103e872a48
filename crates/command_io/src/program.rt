//! Reads the program's own file.
ghost use Rattle.std.specs.Prelude.{◌≡◌, ◌-◌, ◌^◌, ◌<◌, IfOk, IfErr};
ghost use Rattle.heap_layout.specs.Counted.{inner_of, failures_of};
ghost use Rattle.command_io.specs.Disk.{RefusesFile};
ghost use Rattle.command_io.specs.FileCalls.{LeavesRead};
ghost use Rattle.command_io.specs.Texts.{IsProgramAt, RefusesProgram, SomeText};
ghost use Rattle.command_io.specs.Reading.{CountsRead};
ghost use Rattle.command_io.specs.declared.refusal.Input.TheVariants as inputs;

use crate::opening::Files;
use crate::reading::end_reading;
use crate::refusal::{CommandRefusal, Input};
use crate::texts::Unread;
use crate::whole::whole_in;
use heap_layout::Counted;
use std::alloc::Global;
use std::io::Read;

/// Reads the whole file of the program, at a path. Refuses if it cannot be opened or read, and if memory runs out. The
/// files count a failed call if the refusal names one; else they stay as they were.
pub fn program_at<F: Files>(
    alloc: Global,
    files: &mut F,
    path: &str,
) -> Result<Vec<u8>, CommandRefusal>
    ensures bytes { IfOk result (λ bytes. IsProgramAt (F.disk files.old) path.now bytes.items) }
    ensures cause { IfErr result (RefusesFile (F.disk files.old) inputs.Program path.now RefusesProgram) }
    ensures left { LeavesRead (F.disk files.old) files.old files.new result }
{
    let mut reader = Counted::new(files.open(Input::Program, path)?);
    let read = program_in(alloc, &mut reader);
    end_reading(files, reader, read)
}

// Reads to the end of the reader. Refuses if a call of the reader fails, and if memory runs out.
fn program_in<S: Read>(alloc: Global, r: &mut Counted<S>) -> Result<Vec<u8>, CommandRefusal>
    requires read { failures_of r.old < 2 ^ 64 - 1 }
    ensures bytes { IfOk result (λ bytes. SomeText (λ text. text ≡ bytes.items) (S.remaining (inner_of r.old))) }
    ensures cause { IfErr result (λ refusal. RefusesProgram refusal (S.remaining (inner_of r.old))) }
    ensures reads { CountsRead (failures_of r.old) (failures_of r.new) result }
{
    match whole_in(alloc, r) {
        Ok(bytes) => Ok(bytes),
        Err(Unread::Failed) => Err(CommandRefusal::ReadFailed(Input::Program)),
        Err(Unread::OutOfMemory) => Err(CommandRefusal::OutOfMemory),
    }
}

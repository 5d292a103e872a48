//! Reads the texts of roots.
ghost use Rattle.std.specs.Prelude.{◌≡◌, ◌-◌, ◌^◌, ◌<◌, All, Ok, IfOk, IfErr};
ghost use Rattle.heap_layout.specs.Counted.{inner_of, failures_of};
ghost use Rattle.comp_trace.specs.RootsText.{new_roots_of, IsRootWithin};
ghost use Rattle.command_io.specs.Disk.{RefusesFile};
ghost use Rattle.command_io.specs.FileCalls.{LeavesRead};
ghost use Rattle.command_io.specs.Texts.{AreRootsAt, RefusesRootsText, SomeText};
ghost use Rattle.command_io.specs.Reading.{CountsRead};
ghost use Rattle.command_io.specs.declared.refusal.Input.TheVariants as inputs;

use crate::opening::Files;
use crate::reading::end_reading;
use crate::refusal::{CommandRefusal, Input};
use crate::texts::{Unread, text_in};
use comp_trace::{NewRoot, RootsFault, read_roots};
use heap_layout::Counted;
use std::alloc::Global;
use std::io::Read;

/// Reads the roots whose text is at a path, for this number of mutators. Refuses if the file cannot be opened or read,
/// if a line of it is no root, with the number of the first such line, and if memory runs out. A line of more than
/// 1,024 bytes is no root, and nothing is read after these. The files count a failed call if the refusal names one;
/// else they stay as they were.
pub fn roots_at<F: Files>(
    alloc: Global,
    files: &mut F,
    path: &str,
    mutators: u8,
) -> Result<Vec<NewRoot>, CommandRefusal>
    ensures roots { IfOk result (λ roots. AreRootsAt (F.disk files.old) path.now mutators roots.items) }
    ensures within { IfOk result (λ roots. All (IsRootWithin mutators) roots.items) }
    ensures cause { IfErr result (RefusesFile (F.disk files.old) inputs.Roots path.now (RefusesRootsText mutators)) }
    ensures left { LeavesRead (F.disk files.old) files.old files.new result }
{
    let mut reader = Counted::new(files.open(Input::Roots, path)?);
    let read = roots_in(alloc, &mut reader, mutators);
    end_reading(files, reader, read)
}

// Reads roots to the end of the reader, or to a line that is too long, for this number of mutators. Refuses if a call
// of the reader fails, if a line is no root, with the number of the first such line, and if memory runs out.
fn roots_in<S: Read>(
    alloc: Global,
    r: &mut Counted<S>,
    mutators: u8,
) -> Result<Vec<NewRoot>, CommandRefusal>
    requires read { failures_of r.old < 2 ^ 64 - 1 }
    ensures roots { IfOk result (λ roots. SomeText (λ text. new_roots_of mutators text ≡ Ok roots.items) (S.remaining (inner_of r.old))) }
    ensures within { IfOk result (λ roots. All (IsRootWithin mutators) roots.items) }
    ensures cause { IfErr result (λ refusal. RefusesRootsText mutators refusal (S.remaining (inner_of r.old))) }
    ensures reads { CountsRead (failures_of r.old) (failures_of r.new) result }
{
    let text = match text_in(alloc, r) {
        Ok(text) => text,
        Err(Unread::Failed) => return Err(CommandRefusal::ReadFailed(Input::Roots)),
        Err(Unread::OutOfMemory) => return Err(CommandRefusal::OutOfMemory),
    };
    match read_roots(alloc, &text, mutators) {
        Ok(roots) => Ok(roots),
        Err(RootsFault::BadRoots(n)) => Err(CommandRefusal::BadRoots(n)),
        Err(RootsFault::OutOfMemory) => Err(CommandRefusal::OutOfMemory),
    }
}

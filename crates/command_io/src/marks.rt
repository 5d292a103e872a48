//! Reads the texts of marks.
ghost use Rattle.std.specs.Prelude.{◌≡◌, ◌-◌, ◌^◌, ◌<◌, Ok, IfOk, IfErr};
ghost use Rattle.comp_trace.specs.MarksText.{marks_of};
ghost use Rattle.heap_layout.specs.Counted.{inner_of, failures_of};
ghost use Rattle.command_io.specs.Disk.{RefusesFile};
ghost use Rattle.command_io.specs.FileCalls.{LeavesRead};
ghost use Rattle.command_io.specs.Texts.{AreMarksAt, RefusesMarksText, SomeText};
ghost use Rattle.command_io.specs.Reading.{CountsRead};
ghost use Rattle.command_io.specs.declared.refusal.Input.TheVariants as inputs;

use crate::opening::Files;
use crate::reading::end_reading;
use crate::refusal::{CommandRefusal, Input};
use crate::texts::{Unread, text_in};
use comp_trace::{MarksFault, read_marks};
use heap_layout::Counted;
use std::alloc::Global;
use std::io::Read;

/// Reads the marks whose text is at a path. Refuses if the file cannot be opened or read, if a line of it is no mark,
/// with the number of the first such line, and if memory runs out. A line of more than 1,024 bytes is no mark, and
/// nothing is read after these. The files count a failed call if the refusal names one; else they stay as they were.
pub fn marks_at<F: Files>(
    alloc: Global,
    files: &mut F,
    path: &str,
) -> Result<Vec<u32>, CommandRefusal>
    ensures marks { IfOk result (λ marks. AreMarksAt (F.disk files.old) path.now marks.items) }
    ensures cause { IfErr result (RefusesFile (F.disk files.old) inputs.Marks path.now RefusesMarksText) }
    ensures left { LeavesRead (F.disk files.old) files.old files.new result }
{
    let mut reader = Counted::new(files.open(Input::Marks, path)?);
    let read = marks_in(alloc, &mut reader);
    end_reading(files, reader, read)
}

// Reads marks to the end of the reader, or to a line that is too long. Refuses if a call of the reader fails, if a line
// is no mark, with the number of the first such line, and if memory runs out.
fn marks_in<S: Read>(alloc: Global, r: &mut Counted<S>) -> Result<Vec<u32>, CommandRefusal>
    requires read { failures_of r.old < 2 ^ 64 - 1 }
    ensures marks { IfOk result (λ marks. SomeText (λ text. marks_of text ≡ Ok marks.items) (S.remaining (inner_of r.old))) }
    ensures cause { IfErr result (λ refusal. RefusesMarksText refusal (S.remaining (inner_of r.old))) }
    ensures reads { CountsRead (failures_of r.old) (failures_of r.new) result }
{
    let text = match text_in(alloc, r) {
        Ok(text) => text,
        Err(Unread::Failed) => return Err(CommandRefusal::ReadFailed(Input::Marks)),
        Err(Unread::OutOfMemory) => return Err(CommandRefusal::OutOfMemory),
    };
    match read_marks(alloc, &text) {
        Ok(marks) => Ok(marks),
        Err(MarksFault::BadMarks(n)) => Err(CommandRefusal::BadMarks(n)),
        Err(MarksFault::OutOfMemory) => Err(CommandRefusal::OutOfMemory),
    }
}

//! Reads the texts of traces.
ghost use Rattle.std.specs.Prelude.{◌≡◌, ◌-◌, ◌^◌, ◌<◌, IfOk, IfErr};
ghost use Rattle.heap_layout.specs.Counted.{inner_of, failures_of};
ghost use Rattle.comp_trace.specs.Traces.{lines_of, mutators_of, roots_of};
ghost use Rattle.command_io.specs.Disk.{RefusesFile};
ghost use Rattle.command_io.specs.FileCalls.{LeavesRead};
ghost use Rattle.command_io.specs.Reading.{CountsRead};
ghost use Rattle.command_io.specs.Texts.{HasLines, HasLinesAt, RefusesText, SomeText};
ghost use Rattle.command_io.specs.declared.refusal.Input.TheVariants as inputs;

use crate::opening::Files;
use crate::reading::end_reading;
use crate::refusal::{CommandRefusal, Input};
use crate::texts::{Unread, text_in};
use comp_trace::{Trace, TraceFault, parse};
use heap_layout::Counted;
use std::alloc::Global;
use std::io::Read;

/// Reads the trace whose text is at a path, for these numbers of mutators and shared roots. Refuses if the file cannot
/// be opened or read, if its text is no such trace, with its first fault, and if memory runs out. A line of more than
/// 1,024 bytes is a bad one, and nothing is read after these. The files count a failed call if the refusal names one;
/// else they stay as they were.
pub fn trace_at<F: Files>(
    alloc: Global,
    files: &mut F,
    path: &str,
    mutators: u8,
    roots: u32,
) -> Result<Trace, CommandRefusal>
    ensures lines { IfOk result (λ trace. HasLinesAt (F.disk files.old) path.now mutators roots (lines_of trace)) }
    ensures counts { IfOk result (λ trace. (mutators_of trace ≡ mutators) × (roots_of trace ≡ roots)) }
    ensures cause { IfErr result (RefusesFile (F.disk files.old) inputs.Trace path.now (RefusesText mutators roots)) }
    ensures left { LeavesRead (F.disk files.old) files.old files.new result }
{
    let mut reader = Counted::new(files.open(Input::Trace, path)?);
    let read = trace_in(alloc, &mut reader, mutators, roots);
    end_reading(files, reader, read)
}

// Reads a trace to the end of the reader, or to a line that is too long, for these numbers of mutators and shared
// roots.
fn trace_in<S: Read>(
    alloc: Global,
    r: &mut Counted<S>,
    mutators: u8,
    roots: u32,
) -> Result<Trace, CommandRefusal>
    requires read { failures_of r.old < 2 ^ 64 - 1 }
    ensures lines { IfOk result (λ trace. SomeText (HasLines mutators roots (lines_of trace)) (S.remaining (inner_of r.old))) }
    ensures counts { IfOk result (λ trace. (mutators_of trace ≡ mutators) × (roots_of trace ≡ roots)) }
    ensures cause { IfErr result (λ refusal. RefusesText mutators roots refusal (S.remaining (inner_of r.old))) }
    ensures reads { CountsRead (failures_of r.old) (failures_of r.new) result }
{
    let text = match text_in(alloc, r) {
        Ok(text) => text,
        Err(Unread::Failed) => return Err(CommandRefusal::ReadFailed(Input::Trace)),
        Err(Unread::OutOfMemory) => return Err(CommandRefusal::Trace(TraceFault::OutOfMemory)),
    };
    Ok(parse(alloc, &text, mutators, roots)?)
}

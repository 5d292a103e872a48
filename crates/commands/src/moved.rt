//! The command `moved`.
ghost use Rattle.std.specs.Prelude.{◌≡◌, ◌-◌, ◌^◌, ◌<◌, IfOk, IfErr, OnOk, OnErr, Err};
ghost use Rattle.std.specs.Io.KnownBytes.{Appends};
ghost use Rattle.heap_layout.specs.Counted.{inner_of, failures_of, writer_of};
ghost use Rattle.heap_layout.specs.Writing.{AppendsSome};
ghost use Rattle.moved_heaps.specs.Moved.{Moved as AMoved};
ghost use Rattle.command_io.specs.Images.{SomeHeapAt};
ghost use Rattle.command_io.specs.Disk.{RefusesFile, SomeFile};
ghost use Rattle.command_io.specs.FileCalls.{LeavesRead};
ghost use Rattle.command_io.specs.Printing.{CountsPrint};
ghost use Rattle.command_io.specs.Reading.{CountsRead};
ghost use Rattle.command_io.specs.declared.refusal.Input.TheVariants as inputs;
ghost use Rattle.command_io.specs.declared.refusal.CommandRefusal.TheVariants as refusals;
ghost use Rattle.commands.specs.TaskAnswers.{IsAnswered, IsComing};
ghost use Rattle.commands.specs.Inputs.{IsMovedIn, RefusesBytes, RefusesThen};
ghost use Rattle.commands.specs.HeapTasks.{moves_lines, refusal_of, IsJudged};

use crate::answers::Answer;
use command_io::{CommandRefusal, Files, Input, end_reading, heap_at, print_line};
use heap_layout::{Counted, MarkedHeap};
use moved_heaps::{MovedFault, MovedHeap, Moves, judge, read_moved};
use std::alloc::Global;
use std::io::{Read, Write};

/// What moved, if a collection of the heap image at `image`, which is read first, may have left the moved heap at
/// `path`. Both are of edition three or four only if `large`. Else the refusal is its first fault (`Moved`), but
/// `OutOfMemory` if memory ran out.
pub fn moves_at<F: Files>(
    alloc: Global,
    files: &mut F,
    image: &str,
    path: &str,
    large: bool,
) -> Result<Answer, CommandRefusal>
    ensures { IsAnswered (F.disk files.old) files.old files.new (λ outcome. SomeHeapAt (F.disk files.old) large image.now (λ heap. (now : AMoved) × SomeFile (F.disk files.old) inputs.Moved path.now (IsMovedIn large now) × IsJudged heap now outcome)) (RefusesThen (F.disk files.old) large image.now (λ heap. RefusesFile (F.disk files.old) inputs.Moved path.now (RefusesBytes large))) result }
{
    let heap = heap_at(alloc, files, image, large)?;
    let moved = moved_at(alloc, files, path, large)?;
    judged(alloc, &heap, &moved)
}

// Whether the heap may have moved so.
fn judged(alloc: Global, heap: &MarkedHeap, moved: &MovedHeap) -> Result<Answer, CommandRefusal>
    ensures { IsComing (IsJudged heap.now moved.now) result }
{
    match judge(alloc, heap, moved) {
        Ok(moves) => Ok(Answer::Moved(moves)),
        Err(fault) => Err(refusal_of(fault)),
    }
}

/// Prints the words that moved, and how many objects.
pub fn print_moves<O: Write>(moves: &Moves, out: &mut Counted<&mut O>) -> Result<(), CommandRefusal>
    requires { failures_of out.old < 2 ^ 64 - 1 }
    ensures printed { OnOk result (Appends (O.contents (inner_of out.old).now) (O.contents (inner_of out.new).now) (moves_lines moves.now.words moves.now.objects)) }
    ensures begun { OnErr result (AppendsSome (O.contents (inner_of out.old).now) (O.contents (inner_of out.new).now) (moves_lines moves.now.words moves.now.objects)) }
    ensures cause { OnErr result (result ≡ Err refusals.CannotPrint) }
    ensures counts { CountsPrint (failures_of out.old) (failures_of out.new) result }
    ensures same_writer { writer_of out.new ≡ writer_of out.old }
{
    print_line("ok ", moves.words, out)?;
    print_line("objects ", moves.objects, out)
}

// How the command refuses a moved heap with this fault.
fn refusal_of(fault: MovedFault) -> CommandRefusal
    ensures { result ≡ refusal_of fault }
{
    match fault {
        MovedFault::OutOfMemory => CommandRefusal::OutOfMemory,
        MovedFault::WrongHead(_)
        | MovedFault::PlaceOutside(_)
        | MovedFault::Overlap(_, _)
        | MovedFault::WrongRoot(_)
        | MovedFault::WrongWord(_, _) => CommandRefusal::Moved(fault),
    }
}

// Reads the moved heap at a path, of edition three or four only if `large`.
fn moved_at<F: Files>(
    alloc: Global,
    files: &mut F,
    path: &str,
    large: bool,
) -> Result<MovedHeap, CommandRefusal>
    ensures moved { IfOk result (λ now. SomeFile (F.disk files.old) inputs.Moved path.now (IsMovedIn large now)) }
    ensures cause { IfErr result (RefusesFile (F.disk files.old) inputs.Moved path.now (RefusesBytes large)) }
    ensures left { LeavesRead (F.disk files.old) files.old files.new result }
{
    let mut reader = Counted::new(files.open(Input::Moved, path)?);
    let read = moved_in(alloc, &mut reader, large);
    end_reading(files, reader, read)
}

// Reads a moved heap to the end of the reader, of edition three or four only if `large`.
fn moved_in<S: Read>(
    alloc: Global,
    r: &mut Counted<S>,
    large: bool,
) -> Result<MovedHeap, CommandRefusal>
    requires read { failures_of r.old < 2 ^ 64 - 1 }
    ensures moved { IfOk result (λ now. IsMovedIn large now (S.remaining (inner_of r.old))) }
    ensures cause { IfErr result (λ refusal. RefusesBytes large refusal (S.remaining (inner_of r.old))) }
    ensures reads { CountsRead (failures_of r.old) (failures_of r.new) result }
{
    moved_heaps::moved_is_read_again();
    Ok(read_moved(alloc, r, large)?)
}

//! The command `mark`.
ghost use Rattle.std.specs.Prelude.{IfErr, IfOk};
ghost use Rattle.heap_layout.specs.ImageParts.{heap_in};
ghost use Rattle.command_io.specs.Disk.{RefusesFile};
ghost use Rattle.command_io.specs.Images.{RefusesImageParts, SomePartsAt};
ghost use Rattle.command_io.specs.declared.refusal.Input.TheVariants as inputs;
ghost use Rattle.commands.specs.TaskAnswers.{IsAnswered, IsComing};
ghost use Rattle.commands.specs.HeapTasks.{IsMarked, IsMarkedHeap, IsUnmarkable};

use crate::answers::Answer;
use command_io::{CommandRefusal, Files, parts_at};
use heap_layout::{ImageParts, MarkedHeap};
use reachability::reachable_heap_by_threads;
use std::alloc::Global;
use std::thread::Threads;

/// The heap whose image is at a path, of edition three or four only if `large`, whatever marks it has, marked by what
/// its roots reach, by at most `workers` threads, and checked with these marks.
pub fn mark_at<R: Threads + Sync, F: Files>(
    alloc: Global,
    rt: &R,
    files: &mut F,
    image: &str,
    workers: u8,
    large: bool,
) -> Result<Answer, CommandRefusal>
    ensures { IsAnswered (F.disk files.old) files.old files.new (λ outcome. SomePartsAt (F.disk files.old) large image.now (λ parts. IsMarked parts outcome)) (RefusesFile (F.disk files.old) inputs.Image image.now (RefusesImageParts large)) result }
{
    let parts = parts_at(alloc, files, image, large)?;
    marked(alloc, rt, parts, workers)
}

// The heap of these parts, marked by its roots, without values before it.
fn marked<R: Threads + Sync>(
    alloc: Global,
    rt: &R,
    parts: ImageParts,
    workers: u8,
) -> Result<Answer, CommandRefusal>
    ensures { IsComing (IsMarked (heap_in parts)) result }
{
    let heap = mark_by_roots(alloc, rt, parts, workers)?;
    Ok(Answer::Followed(Vec::new(alloc), heap))
}

// The heap of these parts, marked by its roots.
fn mark_by_roots<R: Threads + Sync>(
    alloc: Global,
    rt: &R,
    parts: ImageParts,
    workers: u8,
) -> Result<MarkedHeap, CommandRefusal>
    ensures marked { IfOk result (IsMarkedHeap (heap_in parts)) }
    ensures cause { IfErr result (IsUnmarkable (heap_in parts)) }
{
    reachability::reachable_once();
    drop(parts.marks);
    let heap = reachable_heap_by_threads(
        alloc,
        rt,
        usize::from(workers),
        parts.edition,
        parts.words,
        parts.roots,
    )?;
    Ok(heap)
}

//! The command `collect`.
ghost use Rattle.std.specs.Prelude.{◌≡◌, length, IfErr, IfOk};
ghost use Rattle.heap_layout.specs.Heap.{Heap};
ghost use Rattle.heap_layout.specs.ImageParts.{heap_in};
ghost use Rattle.stopped_heap.specs.Collecting.{RefusesCollection};
ghost use Rattle.command_io.specs.Disk.{RefusesFile};
ghost use Rattle.command_io.specs.Images.{RefusesImageParts, SomePartsAt};
ghost use Rattle.command_io.specs.declared.refusal.Input.TheVariants as inputs;
ghost use Rattle.command_io.specs.declared.refusal.CommandRefusal.TheVariants as refusals;
ghost use Rattle.commands.specs.TaskAnswers.{IsAnswered, IsComing};
ghost use Rattle.commands.specs.CollectedHeaps.{AreLeftBy, AreSlid, IsLeftBy, IsReachedHeap};
ghost use Rattle.commands.specs.HeapTasks.{IsCollected, IsCollectedHeap, IsUncollectable};

use crate::answers::Answer;
use command_io::{CommandRefusal, Files, parts_at};
use heap_layout::{Edition, ImageParts, LayoutFault, MarkedHeap};
use reachability::reachable_heap_by_threads;
use std::alloc::Global;
use std::thread::Threads;
use stopped_heap::{CollectFault, SurveyFault, collect_by_threads};

/// What is left of the heap whose image is at a path, of edition three or four only if `large`. Whatever marks it has,
/// what its roots reach slides to the beginning, by at most `workers` threads. Nothing is asked of the other words.
pub fn collect_at<R: Threads + Sync, F: Files>(
    alloc: Global,
    rt: &R,
    files: &mut F,
    image: &str,
    workers: u8,
    large: bool,
) -> Result<Answer, CommandRefusal>
    ensures { IsAnswered (F.disk files.old) files.old files.new (λ outcome. SomePartsAt (F.disk files.old) large image.now (λ parts. IsCollected parts outcome)) (RefusesFile (F.disk files.old) inputs.Image image.now (RefusesImageParts large)) result }
{
    let parts = parts_at(alloc, files, image, large)?;
    collected(alloc, rt, parts, workers)
}

// What a collection of the heap of these parts leaves, without values before it.
fn collected<R: Threads + Sync>(
    alloc: Global,
    rt: &R,
    parts: ImageParts,
    workers: u8,
) -> Result<Answer, CommandRefusal>
    ensures { IsComing (IsCollected (heap_in parts)) result }
{
    let heap = collect_by_roots(alloc, rt, parts, workers)?;
    Ok(Answer::Followed(Vec::new(alloc), heap))
}

// What a collection of the heap of these parts by its roots leaves.
fn collect_by_roots<R: Threads + Sync>(
    alloc: Global,
    rt: &R,
    parts: ImageParts,
    workers: u8,
) -> Result<MarkedHeap, CommandRefusal>
    ensures collected { IfOk result (IsCollectedHeap (heap_in parts)) }
    ensures cause { IfErr result (IsUncollectable parts.edition parts.words.items parts.roots.items) }
{
    drop(parts.marks);
    let mut roots = parts.roots;
    let words = slide_reached(alloc, rt, parts.edition, &parts.words, &mut roots, workers)?;
    drop(parts.words);
    mark_left(alloc, rt, parts.edition, words, roots, workers)
}

// Slides what the roots reach into new memory, and makes the roots lead there.
fn slide_reached<R: Threads + Sync>(
    alloc: Global,
    rt: &R,
    edition: Edition,
    words: &[u64],
    roots: &mut [u64],
    workers: u8,
) -> Result<Vec<u64>, CommandRefusal>
    ensures left { IfOk result (λ to. AreSlid edition words.now roots.old to.items roots.new) }
    ensures cause { IfErr result (IsUncollectable edition words.now roots.old) }
{
    let mut to = vec![in alloc; 0; words.len()]?;
    let workers = usize::from(workers);
    match collect_by_threads(alloc, rt, edition, words, roots, &mut to, workers) {
        Ok(live) => {
            to.truncate(live as usize);
            Ok(to)
        }
        Err(fault) => Err(uncollected(edition, words, roots, fault)),
    }
}

// Why a heap is not collected into as many words as it has.
fn uncollected(
    edition: Edition,
    words: &[u64],
    roots: &[u64],
    fault: CollectFault,
) -> CommandRefusal
    requires { RefusesCollection edition words.now roots.now (length words.now) fault }
    ensures { IsUncollectable edition words.now roots.now result }
{
    match fault {
        CollectFault::Survey(SurveyFault::OutOfMemory) => CommandRefusal::OutOfMemory,
        CollectFault::Survey(fault) => CommandRefusal::from(fault),
        CollectFault::NoRoom(_) => unreachable!(),
    }
}

// Marks what a collection left by its roots, which reach all of it.
fn mark_left<R: Threads + Sync>(
    alloc: Global,
    rt: &R,
    edition: Edition,
    words: Vec<u64>,
    roots: Vec<u64>,
    workers: u8,
) -> Result<MarkedHeap, CommandRefusal>
    requires { (heap : Heap) × (edition ≡ heap.edition) × IsReachedHeap heap heap × AreLeftBy heap words.items roots.items }
    ensures left { (heap : Heap) → edition ≡ heap.edition → IsReachedHeap heap heap → AreLeftBy heap words.items roots.items → IfOk result (IsLeftBy heap) }
    ensures cause { IfErr result (λ refusal. refusal ≡ refusals.OutOfMemory) }
{
    let threads = usize::from(workers);
    match reachable_heap_by_threads(alloc, rt, threads, edition, words, roots) {
        Ok(heap) => Ok(heap),
        Err(fault) => {
            let memory = matches!(fault, LayoutFault::OutOfMemory);
            prove!(memory);
            Err(CommandRefusal::OutOfMemory)
        }
    }
}

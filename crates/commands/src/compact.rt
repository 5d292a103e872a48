//! The command `compact`.
ghost use Rattle.std.specs.Prelude.{◌≡◌, ◌<◌, ◌≤◌, map, IfOk, IfErr};
ghost use Rattle.heap_layout.specs.Heap.{live};
ghost use Rattle.page_plan.specs.Sliding.{pages};
ghost use Rattle.comp_mutator.specs.CellViews.{steps_of, AreNew};
ghost use Rattle.comp_mutator.specs.Finishes.{IsOfFlip};
ghost use Rattle.comp_mutator.specs.Mutators.{cells_of, pass_of, setup_of, AreMutatorsOf};
ghost use Rattle.command_io.specs.Images.{SomeHeapAt};
ghost use Rattle.commands.specs.TaskAnswers.{IsAnswered, IsComing};
ghost use Rattle.commands.specs.HeapTasks.{IsCompacted, IsOfSweeping};
ghost use Rattle.commands.specs.Inputs.{RefusesHeapAt};
ghost use Rattle.commands.specs.Leftovers.{IsSweptHeap};

use crate::answers::{Answer, Left};
use crate::flipping::{finish_all, flip_plan, plan_heap};
use command_io::{CommandRefusal, Files, heap_at};
use comp_mutator::{Finished, Mutator, Space};
use comp_sweep::{Open, sweep};
use heap_layout::MarkedHeap;
use page_plan::Plan;
use std::alloc::Global;
use std::marker::Brand;
use std::sync::ledger::{Blank, Ledger};
use std::sync::{Arc, Wait};
use std::thread::Threads;

/// Compacts the heap whose image is at a path, of edition three or four only if `large`, with 1 to 64 workers. Workers
/// in threads of their own build the pages.
pub fn compact_at<R: Threads + Wait + Sync, F: Files>(
    alloc: Global,
    rt: &R,
    files: &mut F,
    image: &str,
    workers: u8,
    large: bool,
) -> Result<Answer, CommandRefusal>
    requires workers { (1 ≤ workers) × (workers ≤ 64) }
    ensures { IsAnswered (F.disk files.old) files.old files.new (λ outcome. SomeHeapAt (F.disk files.old) large image.now (λ heap. IsCompacted workers heap outcome)) (RefusesHeapAt (F.disk files.old) large image.now) result }
{
    let heap = heap_at(alloc, files, image, large)?;
    compacted(alloc, rt, heap, workers)
}

// What 1 to 64 workers leave that sweep a heap. They show no values.
fn compacted<R: Threads + Wait + Sync>(
    alloc: Global,
    rt: &R,
    heap: MarkedHeap,
    workers: u8,
) -> Result<Answer, CommandRefusal>
    requires workers { (1 ≤ workers) × (workers ≤ 64) }
    ensures { IsComing (IsCompacted workers heap) result }
{
    let finished = swept_heap(alloc, rt, heap, workers)?;
    Ok(Answer::Ran(Left {
        shown: Vec::new(alloc),
        finished,
        mutators: workers,
        fresh: 0,
    }))
}

// Sweeps a heap by 1 to 64 workers, and finishes it.
fn swept_heap<R: Threads + Wait + Sync>(
    alloc: Global,
    rt: &R,
    heap: MarkedHeap,
    workers: u8,
) -> Result<Finished, CommandRefusal>
    requires workers { (1 ≤ workers) × (workers ≤ 64) }
    ensures swept { IfOk result (λ f. IsSweptHeap workers f heap) }
    ensures flipped { IfOk result (IsOfFlip workers 0) }
    ensures cause { IfErr result (IsOfSweeping heap) }
{
    let plan = plan_heap(alloc, rt, heap)?;
    flipped_and_swept::<Brand, R>(alloc, rt, Blank::new(u64::from(workers)), plan, workers)
}

// Flips the heap of a plan for `workers` mutators with no fresh page, sweeps it by them, and finishes it. Then each
// page of the slid words was built, and nobody wrote.
fn flipped_and_swept<L: Ledger + Send, R: Threads + Wait + Sync>(
    alloc: Global,
    rt: &R,
    blank: Blank,
    plan: Arc<Plan>,
    workers: u8,
) -> Result<Finished, CommandRefusal>
    requires name { blank.name ≡ L.name }
    requires parts { blank.parts ≡ L.parts }
    requires count { blank.parts ≡ workers }
    requires workers { (1 ≤ workers) × (workers ≤ 64) }
    ensures swept { IfOk result (λ f. IsSweptHeap workers f plan.value) }
    ensures flipped { IfOk result (IsOfFlip workers 0) }
    ensures cause { IfErr result (IsOfSweeping plan.value) }
{
    let (space, mutators) = flip_plan::<L>(alloc, blank, plan, workers, 0)?;
    sweep_and_finish(alloc, rt, space, mutators)
}

// Sweeps a space by all its mutators, which did nothing yet, and finishes it.
fn sweep_and_finish<L: Ledger + Send, R: Threads + Wait + Sync>(
    alloc: Global,
    rt: &R,
    space: Space<L, Plan>,
    mutators: Vec<Mutator<L>>,
) -> Result<Finished, CommandRefusal>
    requires of { AreMutatorsOf space mutators.items }
    requires new { AreNew (steps_of (cells_of space)) (setup_of space).mutators (map pass_of mutators.items) }
    requires some { 0 < (setup_of space).mutators }
    requires whole { (setup_of space).mutators ≡ L.parts }
    requires compacted { (setup_of space).compacted ≡ pages (live (setup_of space).heap) }
    requires no_fresh { (setup_of space).fresh ≡ 0 }
    ensures swept { IfOk result (λ f. IsSweptHeap (setup_of space).mutators f (setup_of space).heap) }
    ensures flipped { IfOk result (IsOfFlip (setup_of space).mutators 0) }
    ensures cause { IfErr result (IsOfSweeping (setup_of space).heap) }
{
    let back = match sweep(alloc, rt, &space, mutators, &Open) {
        Ok(report) => report.mutators,
        Err(refused) => return Err(CommandRefusal::Sweep(refused.fault)),
    };
    finish_all(alloc, space, back)
}

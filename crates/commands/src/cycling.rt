//! Runs a trace over a heap, and makes the heap with which the next cycle begins.
ghost use Rattle.std.specs.Prelude.{◌≡◌, ◌≤◌, ℕ, IfErr, IfOk, List, None, Some, length};
ghost use Rattle.comp_mutator.specs.Ends.{IsEndOf};
ghost use Rattle.comp_trace.specs.CycleRuns.{IsParsedFor};
ghost use Rattle.comp_trace.specs.Markings.{marks_given};
ghost use Rattle.comp_trace.specs.Replays.{Hold};
ghost use Rattle.comp_trace.specs.RootsNamed.{words_named};
ghost use Rattle.comp_trace.specs.Traces.{lines_of};
ghost use Rattle.commands.specs.TaskAnswers.{IsComing};
ghost use Rattle.commands.specs.TraceTasks.{IsFollowed};
ghost use Rattle.commands.specs.Following.{given_by, IsGivenWithin, IsNextHeap, IsUnmarked};

use crate::answers::{Answer, halted};
use command_io::CommandRefusal;
use comp_mutator::Finished;
use comp_trace::{Marking, NewRoot, Trace, next_marked, root_words, run_cycle};
use heap_layout::MarkedHeap;
use page_plan::Plan;
use reachable_cycles::{next_reachable_by_threads, next_reachable_with_by_threads};
use std::alloc::Global;
use std::sync::Arc;
use std::thread::Threads;

/// What is handed in for the heap with which the next cycle begins.
#[derive(Drop)]
pub enum Handed {
    /// How it is marked. Its roots stay.
    Marked(Marking),
    /// Its roots. It is marked by what they reach.
    Roots(Vec<NewRoot>),
}

/// Flips a heap, runs a trace over it by one thread, finishes it, and makes the heap with which the next cycle begins,
/// from what is handed in. There are 1 to 64 mutators and at most 4,096 fresh pages. The trace was parsed for these
/// mutators and for the heap's number of roots. A root that is a register is one of these mutators, and names the word
/// that the register holds when the run ends. What roots reach is marked by at most `workers` threads.
///
/// If a line is refused, the answer has the values of the lines before it. It is refused if the next heap is, with its
/// first fault, which is `TooLarge` if that heap is marked by what its roots reach, or `BadRoot` for the first root
/// that is handed in and leads nowhere; and if memory runs out. Of the last two no value is printed.
pub fn cycle_heap<R: Threads + Sync>(
    alloc: Global,
    rt: &R,
    heap: MarkedHeap,
    trace: &Trace,
    handed: Handed,
    mutators: u8,
    fresh: u32,
    workers: u8,
) -> Result<Answer, CommandRefusal>
    requires mutators { (1 ≤ mutators) × (mutators ≤ 64) }
    requires fresh { fresh ≤ 4096 }
    requires parsed { IsParsedFor mutators (length heap.roots) trace.now }
    requires within { IsGivenWithin mutators (given_by handed) }
    ensures { IsComing (IsFollowed mutators fresh (lines_of trace.now) (given_by handed) heap) result }
{
    match run_cycle(alloc, rt, heap, trace, mutators, fresh) {
        Ok(ran) => {
            let heap = make_next(
                alloc,
                rt,
                ran.plan,
                ran.finished,
                &ran.registers,
                handed,
                workers,
            )?;
            Ok(Answer::Followed(ran.shown, heap))
        }
        Err(halt) => Ok(halted(alloc, halt)),
    }
}

// The heap with which the next cycle begins, from what is handed in, if it is accepted.
fn make_next<R: Threads + Sync>(
    alloc: Global,
    rt: &R,
    plan: Arc<Plan>,
    finished: Finished,
    registers: &[[u64; 16]],
    handed: Handed,
    workers: u8,
) -> Result<MarkedHeap, CommandRefusal>
    requires end { IsEndOf plan.value finished }
    requires within { IsGivenWithin (length registers.now) (given_by handed) }
    ensures next { IfOk result (λ next. (now : ℕ → List ℕ) → Hold (length registers.now) registers.now now
        → IsNextHeap plan.value finished (given_by handed).marks (words_named now (given_by handed).roots) next) }
    ensures refused { IfErr result (λ refusal. (now : ℕ → List ℕ) → Hold (length registers.now) registers.now now
        → IsUnmarked plan.value finished (given_by handed).marks (words_named now (given_by handed).roots) refusal) }
{
    match handed {
        Handed::Marked(marking) => mark_anew(alloc, rt, plan, finished, marking, workers),
        Handed::Roots(roots) => {
            let words = root_words(alloc, registers, &roots)?;
            root_anew(alloc, rt, plan, finished, &words, workers)
        }
    }
}

// That heap with other roots, marked by what they reach, if it is accepted.
fn root_anew<R: Threads + Sync>(
    alloc: Global,
    rt: &R,
    plan: Arc<Plan>,
    finished: Finished,
    roots: &[u64],
    workers: u8,
) -> Result<MarkedHeap, CommandRefusal>
    requires end { IsEndOf plan.value finished }
    ensures next { IfOk result (IsNextHeap plan.value finished None (Some roots.now)) }
    ensures refused { IfErr result (IsUnmarked plan.value finished None (Some roots.now)) }
{
    let threads = usize::from(workers);
    match next_reachable_with_by_threads(finished, alloc, rt, threads, &*plan, roots) {
        Ok(heap) => Ok(heap),
        Err(left) => Err(CommandRefusal::Layout(left.fault)),
    }
}

// The heap with which the next cycle begins, marked so, if it is accepted. The roots stay.
fn mark_anew<R: Threads + Sync>(
    alloc: Global,
    rt: &R,
    plan: Arc<Plan>,
    finished: Finished,
    marking: Marking,
    workers: u8,
) -> Result<MarkedHeap, CommandRefusal>
    requires end { IsEndOf plan.value finished }
    ensures next { IfOk result (IsNextHeap plan.value finished (marks_given marking) None) }
    ensures refused { IfErr result (IsUnmarked plan.value finished (marks_given marking) None) }
{
    match marking {
        Marking::Given(marks) => mark_given(alloc, plan, finished, marks),
        Marking::Reachable => mark_reached(alloc, rt, plan, finished, workers),
    }
}

// That heap with these marks, if it is accepted. The roots stay.
fn mark_given(
    alloc: Global,
    plan: Arc<Plan>,
    finished: Finished,
    marks: Vec<u32>,
) -> Result<MarkedHeap, CommandRefusal>
    requires end { IsEndOf plan.value finished }
    ensures next { IfOk result (IsNextHeap plan.value finished (Some marks.items) None) }
    ensures refused { IfErr result (IsUnmarked plan.value finished (Some marks.items) None) }
{
    match next_marked(finished, alloc, &*plan, Marking::Given(marks)) {
        Ok(heap) => Ok(heap),
        Err(left) => Err(CommandRefusal::Layout(left.fault)),
    }
}

// That heap, marked by what its roots reach, if it is accepted. The roots stay.
fn mark_reached<R: Threads + Sync>(
    alloc: Global,
    rt: &R,
    plan: Arc<Plan>,
    finished: Finished,
    workers: u8,
) -> Result<MarkedHeap, CommandRefusal>
    requires end { IsEndOf plan.value finished }
    ensures next { IfOk result (IsNextHeap plan.value finished None None) }
    ensures refused { IfErr result (IsUnmarked plan.value finished None None) }
{
    match next_reachable_by_threads(finished, alloc, rt, usize::from(workers), &*plan) {
        Ok(heap) => Ok(heap),
        Err(left) => Err(CommandRefusal::Layout(left.fault)),
    }
}

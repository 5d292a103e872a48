//! Runs one cycle: flips a heap, runs a trace over it, and finishes it.
ghost use Rattle.std.specs.Prelude.{◌≡◌, ◌≤◌, IfErr, IfOk, length};
ghost use Rattle.comp_cycles.specs.Ends.{IsEndOf};
ghost use Rattle.comp_cycles.specs.Finishes.{IsOfFlip};
ghost use Rattle.comp_trace.specs.Traces.{lines_of};
ghost use Rattle.comp_trace.specs.Heaps.{HasRunOver};
ghost use Rattle.comp_trace.specs.CycleRuns.{IsCycleHaltOf, IsLastRun, IsLastRunWith, IsParsedFor};

use crate::replays::{Halt, Ran, run_over};
use crate::text::Trace;
use heap_layout::MarkedHeap;
use page_plan::Plan;
use std::alloc::Global;
use std::sync::Arc;
use std::thread::Threads;

/// Runs one cycle: flips the heap for this number of mutators and fresh pages, runs the trace over it by one thread,
/// and finishes it.
///
/// `Halt::Cut` means that a line was refused, and has the values of the lines before it; or that memory ran out for the
/// values, and has none. `Halt::Unfinished` has the values of all lines. In each case the heap is dropped.
///
/// Requires 1 to 64 mutators, at most 4,096 fresh pages, and a trace that was parsed for these mutators and for the
/// heap's number of roots.
pub fn run_cycle(
    alloc: Global,
    rt: &(impl Threads + Sync),
    heap: MarkedHeap,
    trace: &Trace,
    mutators: u8,
    fresh: u32,
) -> Result<Ran, Halt>
    requires mutators { (1 ≤ mutators) × (mutators ≤ 64) }
    requires fresh { fresh ≤ 4096 }
    requires parsed { IsParsedFor mutators (length heap.roots) trace.now }
    ensures run { IfOk result (λ ran. IsLastRun mutators fresh (lines_of trace.now) ran.shown.items heap ran.finished) }
    ensures over { IfOk result (λ ran. HasRunOver mutators fresh (lines_of trace.now) ran.shown.items heap ran.finished) }
    ensures registers { IfOk result (λ ran. IsLastRunWith mutators fresh (lines_of trace.now) ran.shown.items heap ran.finished ran.registers.items) }
    ensures plan { IfOk result (λ ran. ran.plan.value ≡ heap) }
    ensures flipped { IfOk result (λ ran. IsOfFlip mutators fresh ran.finished) }
    ensures end { IfOk result (λ ran. IsEndOf ran.plan.value ran.finished) }
    ensures halted { IfErr result (IsCycleHaltOf mutators fresh (lines_of trace.now) heap) }
{
    let Ok(plan) = Plan::new(alloc, rt, heap) else {
        return Err(Halt::Unplanned);
    };
    let Ok(plan) = Arc::new(alloc, plan) else {
        return Err(Halt::Unplanned);
    };
    let Ok(own) = plan.clone() else {
        return Err(Halt::Unplanned);
    };
    match run_over(alloc, own, plan, trace, mutators, fresh) {
        Ok(ran) => Ok(ran),
        Err(halt) => Err(halt),
    }
}

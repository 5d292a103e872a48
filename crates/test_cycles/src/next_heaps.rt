//! Runs of texts over heaps, and the heaps that follow them.
ghost use Rattle.std.specs.Prelude.{◌≤◌};
ghost use Rattle.comp_cycles.specs.Ends.{IsEndOf};

use comp_cycles::NotCycled;
use comp_trace::{Ran, parse, run_cycle};
use heap_layout::{MarkedHeap, PageWords};
use page_plan::Plan;
use reachable_cycles::{next_reachable, next_reachable_with};
use std::alloc::Global;
use std::process::Abort;
use std::thread::Threads;
use test_support::{Worked, worked_heap};

/// The heap of the three objects.
pub fn three(rt: &impl Abort, alloc: Global) -> MarkedHeap {
    worked_heap(alloc, Worked::Three).expect(rt, "a heap")
}

/// A run of a text over a heap, by `mutators` mutators and with `fresh` fresh pages.
pub fn ran(
    rt: &(impl Abort + Threads + Sync),
    alloc: Global,
    heap: MarkedHeap,
    text: &[u8],
    mutators: u8,
    fresh: u32,
) -> Ran
    requires mutators { (1 ≤ mutators) × (mutators ≤ 64) }
    requires fresh { fresh ≤ 4096 }
    ensures { IsEndOf result.plan.value result.finished }
{
    let roots = heap.roots().len() as u32;
    let trace = parse(alloc, text, mutators, roots).expect(rt, "a trace");
    match run_cycle(alloc, rt, heap, &trace, mutators, fresh) {
        Ok(ran) => ran,
        Err(_halt) => rt.panic("a run"),
    }
}

/// The next heap with these marks, or the refusal.
pub fn followed(
    rt: &impl Abort,
    alloc: Global,
    ran: Ran,
    marks: &[u32],
) -> Result<MarkedHeap, NotCycled>
    requires { IsEndOf ran.plan.value ran.finished }
{
    let marks = marks.to_vec(alloc).expect(rt, "marks");
    ran.finished.next_cycle(alloc, &*ran.plan, marks)
}

/// The next heap with these marks, which must be accepted.
pub fn follow(rt: &impl Abort, alloc: Global, ran: Ran, marks: &[u32]) -> MarkedHeap
    requires { IsEndOf ran.plan.value ran.finished }
{
    match followed(rt, alloc, ran, marks) {
        Ok(heap) => heap,
        Err(_left) => rt.panic("a heap that follows"),
    }
}

/// The next heap, marked by what its roots reach.
pub fn follow_reachable(rt: &impl Abort, alloc: Global, ran: Ran) -> MarkedHeap
    requires { IsEndOf ran.plan.value ran.finished }
{
    match next_reachable(ran.finished, alloc, &*ran.plan) {
        Ok(heap) => heap,
        Err(_left) => rt.panic("a heap that follows"),
    }
}

/// The next heap with these roots, to-space addresses, marked by what they reach.
pub fn follow_from(rt: &impl Abort, alloc: Global, ran: Ran, roots: &[u64]) -> MarkedHeap
    requires { IsEndOf ran.plan.value ran.finished }
{
    match next_reachable_with(ran.finished, alloc, &*ran.plan, roots) {
        Ok(heap) => heap,
        Err(_left) => rt.panic("a heap that follows"),
    }
}

/// Page 0 of a plan, which must exist.
pub fn first_page(rt: &impl Abort, alloc: Global, plan: &Plan) -> PageWords {
    assert!(rt; 0 < plan.pages(), "no page");
    plan.build_page(alloc, 0).expect(rt, "a page")
}

//! Runs several cycles, with a trace over each.
ghost use Rattle.std.specs.Prelude.{◌≡◌, ◌<◌, ◌≤◌, ◌++◌, All, IfErr, IfOk, length, map, vec_capacity};
ghost use Rattle.comp_cycles.specs.Ends.{IsEndOf};
ghost use Rattle.comp_cycles.specs.Finishes.{IsOfFlip};
ghost use Rattle.comp_trace.specs.Traces.{lines_of};
ghost use Rattle.comp_trace.specs.CycleRuns.{CyclesRan, IsMarkedNext, IsParsedFor};
ghost use Rattle.comp_trace.specs.Stops.{fault_of, further_by, marking_and_lines, marks_and_lines, shown_by, values_of, IsNoNext, StopsCycles};

use crate::cycles::cycle::run_cycle;
use crate::cycles::fault::CycleFault;
use crate::cycles::marking::{Marking, Marks, next_marked};
use crate::replays::Halt;
use crate::steps::Shown;
use crate::text::Trace;
use comp_cycles::Finished;
use heap_layout::MarkedHeap;
use page_plan::Plan;
use std::alloc::Global;
use std::sync::Arc;
use std::thread::Threads;

/// What is left after cycles with traces.
#[derive(Drop)]
pub struct CyclesRun {
    /// For each cycle, the values that its `get` lines showed, in the order of the lines.
    pub shown: Vec<Vec<Shown>>,
    /// The heap at the end of the last cycle.
    pub finished: Finished,
}

/// Why cycles were not run to their end.
#[derive(Drop)]
pub struct CyclesStopped {
    /// The values of each cycle that came to its end. If a further cycle was flipped, the values of its lines so far
    /// follow as one list more.
    pub shown: Vec<Vec<Shown>>,
    /// The fault, with the number of the cycle, from 0.
    pub fault: CycleFault,
}

// Makes the heap that follows what is left of cycle `c`, with a copy of these marks.
fn next_heap<M: Marks>(
    alloc: Global,
    plan: Arc<Plan>,
    finished: Finished,
    marks: &M,
    c: u64,
) -> Result<MarkedHeap, CycleFault>
    requires end { IsEndOf plan.value finished }
    ensures next { IfOk result (IsMarkedNext (M.given marks.now) plan.value finished) }
    ensures refused { IfErr result (IsNoNext (M.given marks.now) plan.value finished c) }
{
    let Ok(marking) = marks.marking(alloc) else {
        return Err(CycleFault::OutOfMemory(c));
    };
    match next_marked(finished, alloc, &*plan, marking) {
        Ok(heap) => Ok(heap),
        Err(left) => Err(CycleFault::NotMarked(c, left.fault)),
    }
}

// Why cycles were not run to their end, if cycle `c` was halted and the cycles before it showed these values. Requires
// room for one more list.
fn stopped(mut shown: Vec<Vec<Shown>>, c: u64, halt: Halt) -> CyclesStopped
    requires { length shown.items < vec_capacity shown }
    ensures shown { values_of result.shown.items ≡ values_of shown.items ++ shown_by halt }
    ensures fault { result.fault ≡ fault_of c halt }
{
    match halt {
        Halt::Cut(cut) => {
            shown.push_reserved(cut.shown);
            CyclesStopped {
                shown,
                fault: CycleFault::Stopped(c, cut.fault),
            }
        }
        Halt::Unfinished(values) => {
            shown.push_reserved(values);
            CyclesStopped {
                shown,
                fault: CycleFault::OutOfMemory(c),
            }
        }
        Halt::Unplanned | Halt::Unflipped => CyclesStopped {
            shown,
            fault: CycleFault::OutOfMemory(c),
        },
    }
}

/// Runs cycles, one after the other, by one thread. The first cycle runs the trace `first` over the heap. Each pair of
/// `rest` is one cycle more: its marks make the next heap, as in `Finished::next_cycle`, and its trace runs over that
/// heap. Each cycle is flipped for this number of mutators and fresh pages.
///
/// An Err names a cycle `c`, counted from 0: `Stopped(c, ..)` if its trace was stopped, `NotMarked(c, ..)` if the marks
/// that were handed in after it are refused, and `OutOfMemory(c)` if memory ran out elsewhere. It has the values that
/// were shown until then; the heap is dropped.
///
/// Requires 1 to 64 mutators, at most 4,096 fresh pages, and traces that were parsed for these mutators and for the
/// heap's number of roots.
pub fn replay_cycles(
    alloc: Global,
    rt: &(impl Threads + Sync),
    heap: MarkedHeap,
    first: &Trace,
    rest: &[(Vec<u32>, Trace)],
    mutators: u8,
    fresh_pages: u32,
) -> Result<CyclesRun, CyclesStopped>
    requires mutators { (1 ≤ mutators) × (mutators ≤ 64) }
    requires fresh { fresh_pages ≤ 4096 }
    requires first { IsParsedFor mutators (length heap.roots) first.now }
    requires rest { All (λ further. IsParsedFor mutators (length heap.roots) further.1) rest.now }
    ensures ran { IfOk result (λ run. CyclesRan mutators fresh_pages heap (lines_of first.now) (map marks_and_lines rest.now) (values_of run.shown.items) run.finished) }
    ensures flipped { IfOk result (λ run. IsOfFlip mutators fresh_pages run.finished) }
    ensures stopped { IfErr result (λ stopped. StopsCycles mutators fresh_pages heap (lines_of first.now) (map marks_and_lines rest.now) (values_of stopped.shown.items) stopped.fault) }
{
    replay_all(alloc, rt, heap, first, rest, mutators, fresh_pages)
}

/// Runs cycles as `replay_cycles` does. Each pair of `rest` says how the next heap is marked, and has the trace that
/// runs over that heap. A heap that is marked by what its roots reach is refused only if it has too many words, or if
/// memory runs out.
pub fn replay_marked(
    alloc: Global,
    rt: &(impl Threads + Sync),
    heap: MarkedHeap,
    first: &Trace,
    rest: &[(Marking, Trace)],
    mutators: u8,
    fresh_pages: u32,
) -> Result<CyclesRun, CyclesStopped>
    requires mutators { (1 ≤ mutators) × (mutators ≤ 64) }
    requires fresh { fresh_pages ≤ 4096 }
    requires first { IsParsedFor mutators (length heap.roots) first.now }
    requires rest { All (λ further. IsParsedFor mutators (length heap.roots) further.1) rest.now }
    ensures ran { IfOk result (λ run. CyclesRan mutators fresh_pages heap (lines_of first.now) (map marking_and_lines rest.now) (values_of run.shown.items) run.finished) }
    ensures flipped { IfOk result (λ run. IsOfFlip mutators fresh_pages run.finished) }
    ensures stopped { IfErr result (λ stopped. StopsCycles mutators fresh_pages heap (lines_of first.now) (map marking_and_lines rest.now) (values_of stopped.shown.items) stopped.fault) }
{
    replay_all(alloc, rt, heap, first, rest, mutators, fresh_pages)
}

// Runs cycles, each next heap marked as its pair says.
fn replay_all<M: Marks>(
    alloc: Global,
    rt: &(impl Threads + Sync),
    heap: MarkedHeap,
    first: &Trace,
    rest: &[(M, Trace)],
    mutators: u8,
    fresh_pages: u32,
) -> Result<CyclesRun, CyclesStopped>
    requires mutators { (1 ≤ mutators) × (mutators ≤ 64) }
    requires fresh { fresh_pages ≤ 4096 }
    requires first { IsParsedFor mutators (length heap.roots) first.now }
    requires rest { All (λ further. IsParsedFor mutators (length heap.roots) further.1) rest.now }
    ensures ran { IfOk result (λ run. CyclesRan mutators fresh_pages heap (lines_of first.now) (map (further_by M.given) rest.now) (values_of run.shown.items) run.finished) }
    ensures flipped { IfOk result (λ run. IsOfFlip mutators fresh_pages run.finished) }
    ensures stopped { IfErr result (λ stopped. StopsCycles mutators fresh_pages heap (lines_of first.now) (map (further_by M.given) rest.now) (values_of stopped.shown.items) stopped.fault) }
{
    comp_cycles::one_life();
    comp_cycles::one_writing();
    let Ok(mut shown) = Vec::with_capacity(alloc, rest.len() + 1) else {
        return Err(CyclesStopped {
            shown: Vec::new(alloc),
            fault: CycleFault::OutOfMemory(0),
        });
    };
    let (mut plan, mut finished) = match run_cycle(alloc, rt, heap, first, mutators, fresh_pages) {
        Ok(ran) => {
            shown.push_reserved(ran.shown);
            (ran.plan, ran.finished)
        }
        Err(halt) => return Err(stopped(shown, 0, halt)),
    };
    for (c, further) in rest.iter().enumerate() {
        let heap = match next_heap(alloc, plan, finished, &further.0, c as u64) {
            Ok(heap) => heap,
            Err(fault) => return Err(CyclesStopped { shown, fault }),
        };
        match run_cycle(alloc, rt, heap, &further.1, mutators, fresh_pages) {
            Ok(ran) => {
                shown.push_reserved(ran.shown);
                plan = ran.plan;
                finished = ran.finished;
            }
            Err(halt) => return Err(stopped(shown, c as u64 + 1, halt)),
        }
    }
    Ok(CyclesRun { shown, finished })
}

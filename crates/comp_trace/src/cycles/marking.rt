//! How the heap with which the next cycle begins is marked.
ghost use Rattle.std.specs.Prelude.{◌≡◌, ℕ, IfErr, IfOk, List, Option, Some};
ghost use Rattle.heap_layout.specs.Faults.{IsAccepted};
ghost use Rattle.heap_layout.specs.Heap.{IsStored};
ghost use Rattle.comp_cycles.specs.Cycles.{heap_after, IsChapter, IsCycleOf};
ghost use Rattle.comp_cycles.specs.Ends.{cycle_of, IsEndOf};
ghost use Rattle.comp_cycles.specs.NumberedHeaps.{IsNumberedAs};
ghost use Rattle.comp_cycles.specs.Stable.{StableHeap};
ghost use Rattle.comp_trace.specs.Markings.{marks_given, IsMarkedBy, IsUnmarkable, KeepsReached};

use comp_cycles::{Finished, NotCycled};
use heap_layout::MarkedHeap;
use page_plan::Builder;
use reachable_cycles::next_reachable;
use std::alloc::{AllocError, Global};

/// How the heap with which the next cycle begins is marked.
#[derive(Drop)]
pub enum Marking {
    /// By these marks: the rising indices of the words at which the marked objects start.
    Given(Vec<u32>),
    /// By what its roots reach: exactly those objects are marked.
    Reachable,
}

/// What says how a heap is marked.
pub(crate) trait Marks {
    ghost given: { Self → Option (List ℕ) };

    /// A copy, as a marking. Err if out of memory.
    fn marking(&self, alloc: Global) -> Result<Marking, AllocError>
        ensures { IfOk result (λ marking. marks_given marking ≡ given self.now) };
}

impl Marks for Vec<u32> {
    ghost given = { λ marks. Some marks.items };

    fn marking(&self, alloc: Global) -> Result<Marking, AllocError> {
        Ok(Marking::Given(self.to_vec(alloc)?))
    }
}

impl Marks for Marking {
    ghost given = { marks_given };

    fn marking(&self, alloc: Global) -> Result<Marking, AllocError> {
        match self {
            Marking::Given(marks) => Ok(Marking::Given(marks.to_vec(alloc)?)),
            Marking::Reachable => Ok(Marking::Reachable),
        }
    }
}

/// Makes the heap with which the next cycle begins, as `Finished::next_cycle` does with marks that are given, and as
/// `next_reachable` does for the objects that its roots reach. The builder must be that of the flip.
///
/// Refusals are those of `next_cycle`; without marks that are given only `TooLarge` and `OutOfMemory`. After a refusal
/// the finished heap is handed back unchanged.
pub fn next_marked<B: Builder>(
    finished: Finished,
    alloc: Global,
    builder: &B,
    marking: Marking,
) -> Result<MarkedHeap, NotCycled>
    requires { IsEndOf (B.heap builder.now) finished }
    ensures next { IfOk result (λ heap. heap ≡ heap_after (cycle_of (B.heap builder.now) finished heap.marks)) }
    ensures marked { IfOk result (λ heap. IsMarkedBy (marks_given marking) (cycle_of (B.heap builder.now) finished heap.marks)) }
    ensures stored { IfOk result IsStored }
    ensures accepted { IfOk result IsAccepted }
    ensures cycle { IfOk result (λ heap. IsCycleOf (B.heap builder.now) (cycle_of (B.heap builder.now) finished heap.marks)) }
    ensures chapter { IfOk result (λ heap. (numbers : List ℕ) (stable : StableHeap) → IsNumberedAs (B.heap builder.now) numbers stable
        → IsChapter (cycle_of (B.heap builder.now) finished heap.marks) numbers stable) }
    ensures keeps { IfOk result (λ heap. KeepsReached (marks_given marking) (B.heap builder.now) (cycle_of (B.heap builder.now) finished heap.marks)) }
    ensures refused { IfErr result (λ left. IsUnmarkable (marks_given marking) (B.heap builder.now) finished left.fault) }
    ensures back { IfErr result (λ left. left.finished ≡ finished) }
{
    match marking {
        Marking::Given(marks) => finished.next_cycle(alloc, builder, marks),
        Marking::Reachable => next_reachable(finished, alloc, builder),
    }
}

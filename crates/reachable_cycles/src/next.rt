//! The heap with which the next cycle begins, marked by what its roots reach.
ghost use Rattle.std.specs.Prelude.{◌≡◌, ℕ, IfErr, IfOk, List};
ghost use Rattle.heap_layout.specs.Faults.{IsAccepted};
ghost use Rattle.heap_layout.specs.Heap.{IsStored};
ghost use Rattle.comp_cycles.specs.Cycles.{given_after, heap_after, AreApart, IsChapter, IsCycleOf, numbers_after};
ghost use Rattle.comp_cycles.specs.Ends.{cycle_of, cycle_with, setup_in, IsEndOf};
ghost use Rattle.comp_cycles.specs.Finishes.{journals_of, roots_of};
ghost use Rattle.comp_cycles.specs.NumberedHeaps.{IsNumberedAs};
ghost use Rattle.comp_cycles.specs.Stable.{StableHeap};
ghost use Rattle.reachable_cycles.specs.NextMarks.{IsFound};
ghost use Rattle.reachable_cycles.specs.NextRoots.{IsRefusedNext, IsRefusedWith};
ghost use Rattle.reachable_cycles.specs.StableReach.{AreMarkedReachable, KeepsExactly, written};

use crate::laws;
use crate::marking::{Marked, mark_next, mark_next_by_threads};
use comp_cycles::{Finished, NotCycled};
use heap_layout::{LayoutFault, MarkedHeap};
use page_plan::Builder;
use std::alloc::Global;
use std::thread::Threads;

// The next heap of what was found, or the reason why nothing was. The roots stay.
fn next_of<B: Builder>(
    finished: Finished,
    builder: &B,
    found: Result<Marked, LayoutFault>,
) -> Result<MarkedHeap, NotCycled>
    requires of { IsEndOf (B.heap builder.now) finished }
    requires found { IfOk found (IsFound (B.heap builder.now) finished (roots_of finished)) }
    requires refused { IfErr found (IsRefusedWith (setup_in (B.heap builder.now) finished) (journals_of finished) (roots_of finished)) }
    ensures next { IfOk result (λ heap. heap ≡ heap_after (cycle_of (B.heap builder.now) finished heap.marks)) }
    ensures reachable { IfOk result (λ heap. AreMarkedReachable (cycle_of (B.heap builder.now) finished heap.marks)) }
    ensures stored { IfOk result IsStored }
    ensures accepted { IfOk result IsAccepted }
    ensures cycle { IfOk result (λ heap. IsCycleOf (B.heap builder.now) (cycle_of (B.heap builder.now) finished heap.marks)) }
    ensures chapter { IfOk result (λ heap. (numbers : List ℕ) (stable : StableHeap) → IsNumberedAs (B.heap builder.now) numbers stable
        → IsChapter (cycle_of (B.heap builder.now) finished heap.marks) numbers stable) }
    ensures keeps { IfOk result (λ heap. (numbers : List ℕ) (stable : StableHeap) → IsNumberedAs (B.heap builder.now) numbers stable
        → AreApart (setup_in (B.heap builder.now) finished).heap.edition (given_after (cycle_of (B.heap builder.now) finished heap.marks) stable.given)
        → KeepsExactly (written (cycle_of (B.heap builder.now) finished heap.marks) numbers stable) (numbers_after (cycle_of (B.heap builder.now) finished heap.marks) numbers stable.given)) }
    ensures refused { IfErr result (λ left. IsRefusedNext (setup_in (B.heap builder.now) finished) left.fault) }
    ensures back { IfErr result (λ left. left.finished ≡ finished) }
{
    laws::cycle_keeps_reachable();
    laws::next_heap_is_accepted();
    match found {
        Ok(found) => { Ok(finished.next_accepted(builder, found.moved, found.marks, found.roots)) }
        Err(fault) => Err(NotCycled { fault, finished }),
    }
}

/// Makes the heap with which the next cycle begins, as `Finished::next_cycle` does, but finds the marks itself: exactly
/// the objects are marked that the roots of that heap reach. So each object that a root reaches is kept, and each other
/// one is dropped. The next heap has 64 words for each page. With these marks it is accepted, by the law
/// `next_heap_is_accepted`, so it is not checked again. The builder must be that of the flip.
///
/// Refusals: `TooLarge` if the next heap would have more words than its edition allows; if it would not, `OutOfMemory`.
/// After a refusal the finished heap is handed back unchanged.
pub fn next_reachable<B: Builder>(
    finished: Finished,
    alloc: Global,
    builder: &B,
) -> Result<MarkedHeap, NotCycled>
    requires { IsEndOf (B.heap builder.now) finished }
    ensures next { IfOk result (λ heap. heap ≡ heap_after (cycle_of (B.heap builder.now) finished heap.marks)) }
    ensures reachable { IfOk result (λ heap. AreMarkedReachable (cycle_of (B.heap builder.now) finished heap.marks)) }
    ensures stored { IfOk result IsStored }
    ensures accepted { IfOk result IsAccepted }
    ensures cycle { IfOk result (λ heap. IsCycleOf (B.heap builder.now) (cycle_of (B.heap builder.now) finished heap.marks)) }
    ensures chapter { IfOk result (λ heap. (numbers : List ℕ) (stable : StableHeap) → IsNumberedAs (B.heap builder.now) numbers stable
        → IsChapter (cycle_of (B.heap builder.now) finished heap.marks) numbers stable) }
    ensures keeps { IfOk result (λ heap. (numbers : List ℕ) (stable : StableHeap) → IsNumberedAs (B.heap builder.now) numbers stable
        → AreApart (setup_in (B.heap builder.now) finished).heap.edition (given_after (cycle_of (B.heap builder.now) finished heap.marks) stable.given)
        → KeepsExactly (written (cycle_of (B.heap builder.now) finished heap.marks) numbers stable) (numbers_after (cycle_of (B.heap builder.now) finished heap.marks) numbers stable.given)) }
    ensures refused { IfErr result (λ left. IsRefusedNext (setup_in (B.heap builder.now) finished) left.fault) }
    ensures back { IfErr result (λ left. left.finished ≡ finished) }
{
    let found = mark_next(alloc, builder, &finished, finished.roots());
    next_of(finished, builder, found)
}

/// Like `next_reachable`, marked in so many threads, the caller among them: the same heap, or the same refusal.
/// `reachability::reachable_marks_by_threads` says what is gained, and what it costs. The words are moved by the caller
/// alone.
pub fn next_reachable_by_threads<R: Threads + Sync, B: Builder>(
    finished: Finished,
    alloc: Global,
    rt: &R,
    threads: usize,
    builder: &B,
) -> Result<MarkedHeap, NotCycled>
    requires { IsEndOf (B.heap builder.now) finished }
    ensures next { IfOk result (λ heap. heap ≡ heap_after (cycle_of (B.heap builder.now) finished heap.marks)) }
    ensures reachable { IfOk result (λ heap. AreMarkedReachable (cycle_of (B.heap builder.now) finished heap.marks)) }
    ensures stored { IfOk result IsStored }
    ensures accepted { IfOk result IsAccepted }
    ensures cycle { IfOk result (λ heap. IsCycleOf (B.heap builder.now) (cycle_of (B.heap builder.now) finished heap.marks)) }
    ensures chapter { IfOk result (λ heap. (numbers : List ℕ) (stable : StableHeap) → IsNumberedAs (B.heap builder.now) numbers stable
        → IsChapter (cycle_of (B.heap builder.now) finished heap.marks) numbers stable) }
    ensures keeps { IfOk result (λ heap. (numbers : List ℕ) (stable : StableHeap) → IsNumberedAs (B.heap builder.now) numbers stable
        → AreApart (setup_in (B.heap builder.now) finished).heap.edition (given_after (cycle_of (B.heap builder.now) finished heap.marks) stable.given)
        → KeepsExactly (written (cycle_of (B.heap builder.now) finished heap.marks) numbers stable) (numbers_after (cycle_of (B.heap builder.now) finished heap.marks) numbers stable.given)) }
    ensures refused { IfErr result (λ left. IsRefusedNext (setup_in (B.heap builder.now) finished) left.fault) }
    ensures back { IfErr result (λ left. left.finished ≡ finished) }
{
    let found = mark_next_by_threads(alloc, rt, threads, builder, &finished, finished.roots());
    next_of(finished, builder, found)
}

// The next heap of what was found with these roots, or the reason why nothing was.
fn next_of_with<B: Builder>(
    finished: Finished,
    builder: &B,
    roots: &[u64],
    found: Result<Marked, LayoutFault>,
) -> Result<MarkedHeap, NotCycled>
    requires of { IsEndOf (B.heap builder.now) finished }
    requires found { IfOk found (IsFound (B.heap builder.now) finished roots.now) }
    requires refused { IfErr found (IsRefusedWith (setup_in (B.heap builder.now) finished) (journals_of finished) roots.now) }
    ensures next { IfOk result (λ heap. heap ≡ heap_after (cycle_with (B.heap builder.now) finished roots.now heap.marks)) }
    ensures reachable { IfOk result (λ heap. AreMarkedReachable (cycle_with (B.heap builder.now) finished roots.now heap.marks)) }
    ensures stored { IfOk result IsStored }
    ensures accepted { IfOk result IsAccepted }
    ensures cycle { IfOk result (λ heap. IsCycleOf (B.heap builder.now) (cycle_with (B.heap builder.now) finished roots.now heap.marks)) }
    ensures chapter { IfOk result (λ heap. (numbers : List ℕ) (stable : StableHeap) → IsNumberedAs (B.heap builder.now) numbers stable
        → IsChapter (cycle_with (B.heap builder.now) finished roots.now heap.marks) numbers stable) }
    ensures keeps { IfOk result (λ heap. (numbers : List ℕ) (stable : StableHeap) → IsNumberedAs (B.heap builder.now) numbers stable
        → AreApart (setup_in (B.heap builder.now) finished).heap.edition (given_after (cycle_with (B.heap builder.now) finished roots.now heap.marks) stable.given)
        → KeepsExactly (written (cycle_with (B.heap builder.now) finished roots.now heap.marks) numbers stable) (numbers_after (cycle_with (B.heap builder.now) finished roots.now heap.marks) numbers stable.given)) }
    ensures refused { IfErr result (λ left. IsRefusedWith (setup_in (B.heap builder.now) finished) (journals_of finished) roots.now left.fault) }
    ensures back { IfErr result (λ left. left.finished ≡ finished) }
{
    laws::cycle_keeps_reachable();
    laws::next_heap_is_accepted();
    match found {
        Ok(found) => {
            Ok(finished.next_accepted_with(builder, found.moved, found.marks, roots, found.roots))
        }
        Err(fault) => Err(NotCycled { fault, finished }),
    }
}

/// As `next_reachable`, with other roots: those of the next heap are `roots`. Each is a to-space address, the start of
/// an object that slid or was made, or null, or in edition four an immediate. A mutator's stack and registers at the
/// end of the cycle are such roots. What only the roots of before reach is dropped.
///
/// Refusals, in this order: `TooLarge` if the next heap would have more words or more roots than its edition allows;
/// `BadRoot(k)` for the first root that is neither null, nor an immediate, nor the start of an object. `OutOfMemory`
/// may replace any other answer but `TooLarge`. After a refusal the finished heap is handed back unchanged.
pub fn next_reachable_with<B: Builder>(
    finished: Finished,
    alloc: Global,
    builder: &B,
    roots: &[u64],
) -> Result<MarkedHeap, NotCycled>
    requires { IsEndOf (B.heap builder.now) finished }
    ensures next { IfOk result (λ heap. heap ≡ heap_after (cycle_with (B.heap builder.now) finished roots.now heap.marks)) }
    ensures reachable { IfOk result (λ heap. AreMarkedReachable (cycle_with (B.heap builder.now) finished roots.now heap.marks)) }
    ensures stored { IfOk result IsStored }
    ensures accepted { IfOk result IsAccepted }
    ensures cycle { IfOk result (λ heap. IsCycleOf (B.heap builder.now) (cycle_with (B.heap builder.now) finished roots.now heap.marks)) }
    ensures chapter { IfOk result (λ heap. (numbers : List ℕ) (stable : StableHeap) → IsNumberedAs (B.heap builder.now) numbers stable
        → IsChapter (cycle_with (B.heap builder.now) finished roots.now heap.marks) numbers stable) }
    ensures keeps { IfOk result (λ heap. (numbers : List ℕ) (stable : StableHeap) → IsNumberedAs (B.heap builder.now) numbers stable
        → AreApart (setup_in (B.heap builder.now) finished).heap.edition (given_after (cycle_with (B.heap builder.now) finished roots.now heap.marks) stable.given)
        → KeepsExactly (written (cycle_with (B.heap builder.now) finished roots.now heap.marks) numbers stable) (numbers_after (cycle_with (B.heap builder.now) finished roots.now heap.marks) numbers stable.given)) }
    ensures refused { IfErr result (λ left. IsRefusedWith (setup_in (B.heap builder.now) finished) (journals_of finished) roots.now left.fault) }
    ensures back { IfErr result (λ left. left.finished ≡ finished) }
{
    let found = mark_next(alloc, builder, &finished, roots);
    next_of_with(finished, builder, roots, found)
}

/// Like `next_reachable_with`, marked in so many threads, the caller among them: the same heap, or the same refusal.
/// `reachability::reachable_marks_by_threads` says what is gained, and what it costs. The words are moved by the caller
/// alone.
pub fn next_reachable_with_by_threads<R: Threads + Sync, B: Builder>(
    finished: Finished,
    alloc: Global,
    rt: &R,
    threads: usize,
    builder: &B,
    roots: &[u64],
) -> Result<MarkedHeap, NotCycled>
    requires { IsEndOf (B.heap builder.now) finished }
    ensures next { IfOk result (λ heap. heap ≡ heap_after (cycle_with (B.heap builder.now) finished roots.now heap.marks)) }
    ensures reachable { IfOk result (λ heap. AreMarkedReachable (cycle_with (B.heap builder.now) finished roots.now heap.marks)) }
    ensures stored { IfOk result IsStored }
    ensures accepted { IfOk result IsAccepted }
    ensures cycle { IfOk result (λ heap. IsCycleOf (B.heap builder.now) (cycle_with (B.heap builder.now) finished roots.now heap.marks)) }
    ensures chapter { IfOk result (λ heap. (numbers : List ℕ) (stable : StableHeap) → IsNumberedAs (B.heap builder.now) numbers stable
        → IsChapter (cycle_with (B.heap builder.now) finished roots.now heap.marks) numbers stable) }
    ensures keeps { IfOk result (λ heap. (numbers : List ℕ) (stable : StableHeap) → IsNumberedAs (B.heap builder.now) numbers stable
        → AreApart (setup_in (B.heap builder.now) finished).heap.edition (given_after (cycle_with (B.heap builder.now) finished roots.now heap.marks) stable.given)
        → KeepsExactly (written (cycle_with (B.heap builder.now) finished roots.now heap.marks) numbers stable) (numbers_after (cycle_with (B.heap builder.now) finished roots.now heap.marks) numbers stable.given)) }
    ensures refused { IfErr result (λ left. IsRefusedWith (setup_in (B.heap builder.now) finished) (journals_of finished) roots.now left.fault) }
    ensures back { IfErr result (λ left. left.finished ≡ finished) }
{
    let found = mark_next_by_threads(alloc, rt, threads, builder, &finished, roots);
    next_of_with(finished, builder, roots, found)
}

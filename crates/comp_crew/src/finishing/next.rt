ghost use Rattle.std.specs.Prelude.{◌≡◌, ℕ, IfErr, IfOk, List};
ghost use Rattle.heap_layout.specs.Faults.{IsAccepted};
ghost use Rattle.heap_layout.specs.Heap.{IsStored};
ghost use Rattle.comp_cycles.specs.Cycles.{given_after, heap_after, AreApart, IsChapter, IsCycleOf, numbers_after};
ghost use Rattle.comp_cycles.specs.Ends.{checked_faults, cycle_with, next_sizes, setup_in, IsRefusedFor, IsRefusedWithin};
ghost use Rattle.comp_cycles.specs.Finishes.{journals_of};
ghost use Rattle.comp_cycles.specs.NumberedHeaps.{IsNumberedAs};
ghost use Rattle.comp_cycles.specs.Stable.{StableHeap};
ghost use Rattle.reachable_cycles.specs.NextRoots.{IsRefusedWith};
ghost use Rattle.reachable_cycles.specs.StableReach.{AreMarkedReachable, KeepsExactly, written};
ghost use Rattle.comp_crew.specs.Finishing.{finished_of, heap_of, rest_words, IsEnded};

use crate::finishing::Ended;
use comp_cycles::{Finished, Moved, moved_words};
use heap_layout::{LayoutFault, MarkedHeap, OutOfMemory};
use reachable_cycles::next_reachable_with;
use std::alloc::Global;

/// A refused `next_heap` or `next_reached`: the fault, and the end of the crew as it was.
#[derive(Drop)]
pub struct NotFollowed {
    /// The first fault of the next heap, or out of memory.
    pub fault: LayoutFault,
    /// The end of the crew, unchanged.
    pub ended: Ended,
}

impl Ended {
    /// The finished heap.
    pub fn finished(&self) -> &Finished
        ensures { result.now ≡ finished_of self.now }
    {
        &self.finished
    }

    /// Makes the heap with which the next cycle begins, as `next_cycle_with` of comp_cycles does. `marks` are the
    /// rising indices of the words at which the marked objects start, and `roots` are its roots: to-space addresses of
    /// the end, or null. After a refusal the end is handed back unchanged.
    ///
    /// Refusals, in this order: `TooLarge`, also if there are more roots than the edition allows; mark by mark
    /// `MarksNotRising`, then `MarkNotStart`; then `BadRoot(k)` for the first root that is neither null, nor an
    /// immediate of the edition, nor the start of a marked object; then `UnmarkedTarget`. `OutOfMemory` may replace any
    /// other answer but `TooLarge`.
    ///
    /// Requires what `finish` ensures.
    pub fn next_heap(
        self,
        alloc: Global,
        marks: Vec<u32>,
        roots: &[u64],
    ) -> Result<MarkedHeap, NotFollowed>
        requires { IsEnded self }
        ensures next { IfOk result (λ heap. heap ≡ heap_after (cycle_with (heap_of self) (finished_of self) roots.now marks.items)) }
        ensures stored { IfOk result IsStored }
        ensures accepted { IfOk result IsAccepted }
        ensures cycle { IfOk result (λ _. IsCycleOf (heap_of self) (cycle_with (heap_of self) (finished_of self) roots.now marks.items)) }
        ensures chapter { IfOk result (λ _. (numbers : List ℕ) (stable : StableHeap) → IsNumberedAs (heap_of self) numbers stable
            → IsChapter (cycle_with (heap_of self) (finished_of self) roots.now marks.items) numbers stable) }
        ensures refused { IfErr result (λ left. IsRefusedFor (checked_faults (heap_of self) (finished_of self) roots.now marks.items) left.fault) }
        ensures memory { IfErr result (λ left. IsRefusedWithin (next_sizes (finished_of self) marks.items roots.now) left.fault) }
        ensures back { IfErr result (λ left. left.ended ≡ self) }
    {
        let Ended { plan, finished } = self;
        match finished.next_cycle_with(alloc, &*plan, marks, roots) {
            Ok(heap) => Ok(heap),
            Err(left) => Err(NotFollowed {
                fault: left.fault,
                ended: Ended {
                    plan,
                    finished: left.finished,
                },
            }),
        }
    }

    /// The words with which the next cycle would begin: those of all pages, 64 each, where references and weak words
    /// are addresses of from-space. A page that nobody built has those of the plan, or zeros if it is fresh. Err if out
    /// of memory.
    ///
    /// Requires what `finish` ensures.
    pub fn rest_words(&self, alloc: Global) -> Result<Vec<u64>, OutOfMemory>
        requires { IsEnded self.now }
        ensures { IfOk result (λ words. words.items ≡ rest_words self.now) }
    {
        let Moved { words, starts } = moved_words(alloc, &*self.plan, &self.finished)?;
        drop(starts);
        Ok(words)
    }

    /// Makes the heap with which the next cycle begins, as `next_reachable_with` of reachable_cycles does: its roots
    /// are `roots`, to-space addresses of the end or null, and exactly the objects are marked that they reach. So each
    /// object that a root reaches is kept, and each other one is dropped.
    ///
    /// Refusals, in this order: `TooLarge` if the next heap would have more words or more roots than its edition
    /// allows; `BadRoot(k)` for the first root that is neither null, nor an immediate of the edition, nor the start of
    /// an object. `OutOfMemory` may replace any other answer but `TooLarge`. After a refusal the end is handed back
    /// unchanged.
    ///
    /// Requires what `finish` ensures.
    pub fn next_reached(self, alloc: Global, roots: &[u64]) -> Result<MarkedHeap, NotFollowed>
        requires { IsEnded self }
        ensures next { IfOk result (λ heap. heap ≡ heap_after (cycle_with (heap_of self) (finished_of self) roots.now heap.marks)) }
        ensures reachable { IfOk result (λ heap. AreMarkedReachable (cycle_with (heap_of self) (finished_of self) roots.now heap.marks)) }
        ensures stored { IfOk result IsStored }
        ensures accepted { IfOk result IsAccepted }
        ensures cycle { IfOk result (λ heap. IsCycleOf (heap_of self) (cycle_with (heap_of self) (finished_of self) roots.now heap.marks)) }
        ensures chapter { IfOk result (λ heap. (numbers : List ℕ) (stable : StableHeap) → IsNumberedAs (heap_of self) numbers stable
            → IsChapter (cycle_with (heap_of self) (finished_of self) roots.now heap.marks) numbers stable) }
        ensures keeps { IfOk result (λ heap. (numbers : List ℕ) (stable : StableHeap) → IsNumberedAs (heap_of self) numbers stable
            → AreApart (heap_of self).edition (given_after (cycle_with (heap_of self) (finished_of self) roots.now heap.marks) stable.given)
            → KeepsExactly (written (cycle_with (heap_of self) (finished_of self) roots.now heap.marks) numbers stable) (numbers_after (cycle_with (heap_of self) (finished_of self) roots.now heap.marks) numbers stable.given)) }
        ensures refused { IfErr result (λ left. IsRefusedWith (setup_in (heap_of self) (finished_of self)) (journals_of (finished_of self)) roots.now left.fault) }
        ensures back { IfErr result (λ left. left.ended ≡ self) }
    {
        let Ended { plan, finished } = self;
        match next_reachable_with(finished, alloc, &*plan, roots) {
            Ok(heap) => Ok(heap),
            Err(left) => Err(NotFollowed {
                fault: left.fault,
                ended: Ended {
                    plan,
                    finished: left.finished,
                },
            }),
        }
    }
}

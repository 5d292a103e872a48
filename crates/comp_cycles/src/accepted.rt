//! The heap with which the next cycle begins, where it is known to have no fault.
ghost use Rattle.std.specs.Prelude.{◌≡◌, ℕ, ◌*◌, [], List, length};
ghost use Rattle.heap_layout.specs.Faults.{IsAccepted};
ghost use Rattle.heap_layout.specs.Heap.{IsStored};
ghost use Rattle.comp_cycles.specs.Cycles.{heap_after, IsChapter, IsCycleOf};
ghost use Rattle.comp_cycles.specs.Ends.{checked_faults, cycle_of, cycle_with, setup_in, AreLowered, AreMoved, IsEndOf};
ghost use Rattle.comp_cycles.specs.Stable.{StableHeap};
ghost use Rattle.comp_cycles.specs.NumberedHeaps.{IsNumberedAs};
ghost use Rattle.comp_cycles.specs.Finishes.{journals_of, pages_of, roots_of};

use crate::finished::Finished;
use crate::laws;
use crate::moving::Moved;
use heap_layout::MarkedHeap;
use page_plan::Builder;

impl Finished {
    /// As `next_moved`, of marks for which the next heap is known to have no fault: its words, marks and roots are not
    /// looked at again, nothing is allocated, and nothing is refused. `lowered` are the roots of the flipped heap,
    /// forwarded, as `lowered_roots` makes them. The builder must be that of the flip.
    pub fn next_accepted<B: Builder>(
        self,
        _builder: &B,
        moved: Moved,
        marks: Vec<u32>,
        lowered: Vec<u64>,
    ) -> MarkedHeap
        requires of { IsEndOf (B.heap _builder.now) self }
        requires moved { AreMoved (setup_in (B.heap _builder.now) self) (journals_of self) (64 * length (pages_of self)) moved.words.items moved.starts.items }
        requires lowered { AreLowered self (roots_of self) lowered.items }
        requires faultless { checked_faults (B.heap _builder.now) self (roots_of self) marks.items ≡ [] }
        ensures next { result ≡ heap_after (cycle_of (B.heap _builder.now) self marks.items) }
        ensures stored { IsStored result }
        ensures accepted { IsAccepted result }
        ensures cycle { IsCycleOf (B.heap _builder.now) (cycle_of (B.heap _builder.now) self marks.items) }
        ensures chapter { (numbers : List ℕ) (stable : StableHeap) → IsNumberedAs (B.heap _builder.now) numbers stable
            → IsChapter (cycle_of (B.heap _builder.now) self marks.items) numbers stable }
    {
        laws::one_chapter();
        MarkedHeap::of_accepted(self.edition(), moved.words, marks, lowered)
    }

    /// As `next_accepted`, with other roots: those of the next heap are `roots`. `lowered` are these roots as
    /// `lowered_roots` makes them.
    pub fn next_accepted_with<B: Builder>(
        self,
        _builder: &B,
        moved: Moved,
        marks: Vec<u32>,
        _roots: &[u64],
        lowered: Vec<u64>,
    ) -> MarkedHeap
        requires of { IsEndOf (B.heap _builder.now) self }
        requires moved { AreMoved (setup_in (B.heap _builder.now) self) (journals_of self) (64 * length (pages_of self)) moved.words.items moved.starts.items }
        requires lowered { AreLowered self _roots.now lowered.items }
        requires faultless { checked_faults (B.heap _builder.now) self _roots.now marks.items ≡ [] }
        ensures next { result ≡ heap_after (cycle_with (B.heap _builder.now) self _roots.now marks.items) }
        ensures stored { IsStored result }
        ensures accepted { IsAccepted result }
        ensures cycle { IsCycleOf (B.heap _builder.now) (cycle_with (B.heap _builder.now) self _roots.now marks.items) }
        ensures chapter { (numbers : List ℕ) (stable : StableHeap) → IsNumberedAs (B.heap _builder.now) numbers stable
            → IsChapter (cycle_with (B.heap _builder.now) self _roots.now marks.items) numbers stable }
    {
        laws::one_chapter();
        let edition = self.edition();
        MarkedHeap::of_accepted(edition, moved.words, marks, lowered)
    }
}

//! Laws of a collection at rest in object numbers, and of what a cycle leaves. Each law is the contract of a function
//! that does nothing.
ghost use Rattle.std.specs.Prelude.{◌≡◌, ◌*◌, ◌<◌, ℕ, List};
ghost use Rattle.heap_layout.specs.Heap.{Heap, IsClosed};
ghost use Rattle.comp_cycles.specs.Locks.{Journals};
ghost use Rattle.comp_cycles.specs.Merged.{CanMerge};
ghost use Rattle.comp_cycles.specs.Setup.{Setup, pages};
ghost use Rattle.comp_cycles.specs.Ends.{setup_in, IsEndOf};
ghost use Rattle.comp_cycles.specs.Finishes.{journals_of};
ghost use Rattle.comp_cycles.specs.NextHeap.{next_word, word_in};
ghost use Rattle.comp_cycles.specs.NumberedHeaps.{IsNumberedAs};
ghost use Rattle.comp_cycles.specs.declared.finished.Finished.{Finished as AFinished};
ghost use Rattle.comp_cycles.specs.Stable.{StableHeap};
ghost use Rattle.rest_marks.specs.Reached.{IsSound};
ghost use Rattle.rest_slide.specs.Settled.{collected};
ghost use Rattle.pinned_heap.specs.Collecting.{IsCollectedAround};
ghost use Rattle.pinned_heap.specs.declared.run.Run.{Run};
ghost use Rattle.stopped_cycles.specs.Left.{left_around};
ghost use Rattle.stopped_cycles.specs.Outside.{IsOutside};

/// What a collection leaves is the same heap in object numbers. If a stable heap stands for the marked objects of a
/// sound heap, it stands for the collected heap too, with the same numbers. By the law `first_numbering` of comp_cycles
/// each heap has such a stable heap. A weak word that is the address of no marked object is 0 there, before and after.
pub fn collected_in_object_numbers()
    ensures { (heap : Heap) (numbers : List ℕ) (stable : StableHeap) → IsSound heap → IsNumberedAs heap numbers stable → IsNumberedAs (collected heap) numbers stable }
{}

/// What a collection around pinned objects leaves is the same heap in object numbers. If a stable heap stands for the
/// marked objects of a heap, it stands for the heap that was left too, with the same numbers. That heap is sound: the
/// next collection of its marked objects keeps the numbers too, around other pins or none.
pub fn pinned_in_object_numbers()
    ensures numbers { (heap : Heap) (pins : List ℕ) (end : ℕ) (runs : List Run) (roots after : List ℕ) (numbers : List ℕ) (stable : StableHeap)
        → IsCollectedAround heap pins end runs roots after → IsNumberedAs heap numbers stable → IsNumberedAs (left_around heap pins roots after) numbers stable }
    ensures sound { (heap : Heap) (pins : List ℕ) (end : ℕ) (runs : List Run) (roots after : List ℕ)
        → IsCollectedAround heap pins end runs roots after → IsSound (left_around heap pins roots after) }
{}

/// A word that no object has at the end of a cycle is 0, in to-space and in the next heap. An object has the words from
/// its first one on, as many as its header says.
pub fn words_of_no_object_are_zero()
    ensures cycle { (u : Setup) (journals : Journals) (i : ℕ) → IsClosed u.heap → CanMerge u journals → i < 64 * pages u → IsOutside u journals i → word_in u journals i ≡ 0 }
    ensures next { (u : Setup) (journals : Journals) (i : ℕ) → IsClosed u.heap → CanMerge u journals → i < 64 * pages u → IsOutside u journals i → next_word u journals i ≡ 0 }
    ensures end { (heap : Heap) (f : AFinished) (i : ℕ) → IsEndOf heap f → i < 64 * pages (setup_in heap f) → IsOutside (setup_in heap f) (journals_of f) i → word_in (setup_in heap f) (journals_of f) i ≡ 0 }
{}

//! Laws of cycles. Each law is the contract of a function that does nothing.
ghost use Rattle.std.specs.Prelude.{◌≡◌, ◌≢◌, ◌+◌, ◌*◌, ◌^◌, ◌<◌, ◌≤◌, ℕ, [], List, length};
ghost use Rattle.comp_history.specs.Locks.{Journals};
ghost use Rattle.comp_history.specs.Setup.{Setup};
ghost use Rattle.comp_history.specs.Pass.{Pass as APass};
ghost use Rattle.heap_layout.specs.declared.edition.Edition.{Edition};
ghost use Rattle.heap_layout.specs.declared.edition.Edition.TheVariants.{Four};
ghost use Rattle.heap_layout.specs.Faults.{mark_faults, weak_faults};
ghost use Rattle.heap_layout.specs.Heap.{live, Heap, IsClosed};
ghost use Rattle.heap_layout.specs.Limits.{most_fresh_pages};
ghost use Rattle.page_plan.specs.Sliding as sliding;
ghost use Rattle.comp_history.specs.Merged.{CanMerge};
ghost use Rattle.comp_cycles.specs.Cycles.{Cycle, Follow, given_after, given_left, AreApart, IsChapter, IsCycleOf, IsLow, IsOneLife, IsWriting};
ghost use Rattle.comp_cycles.specs.Ends.{cycle_of, cycle_with, setup_in, IsEndOf};
ghost use Rattle.comp_cycles.specs.Finishes.{IsFinished};
ghost use Rattle.comp_cycles.specs.NextHeap.{next_heap, object_starts};
ghost use Rattle.comp_cycles.specs.declared.finished.Finished.{Finished as AFinished};
ghost use Rattle.comp_cycles.specs.Stable.{StableHeap};
ghost use Rattle.comp_cycles.specs.NumberedHeaps.{first_numbers, first_numbered, IsNumberedAs};

/// A finished heap is the end of the heap that was flipped, so the next cycle may begin with it. `IsFinished` and the
/// number of mutators are known from `finish`, the counts of pages from `flip`, and `IsClosed` from any plan of the
/// heap. The setup of the cycle is then that of the flip.
pub fn finished_is_end()
    ensures end { (u : Setup) (row : List APass) (f : AFinished) → IsFinished u row f → length row ≡ u.mutators → u.compacted ≡ sliding.pages (live u.heap) → u.fresh ≤ most_fresh_pages u.heap.edition → IsClosed u.heap → IsEndOf u.heap f }
    ensures setup { (u : Setup) (row : List APass) (f : AFinished) → IsFinished u row f → length row ≡ u.mutators → u.compacted ≡ sliding.pages (live u.heap) → setup_in u.heap f ≡ u }
{}

/// The first heap, in object numbers: its marked objects are numbered from 1 by rising address.
pub fn first_numbering()
    ensures { (heap : Heap) → IsNumberedAs heap (first_numbers heap) (first_numbered heap) }
{}

/// A cycle is a chapter in the life of a heap whose objects never move.
pub fn one_chapter()
    ensures { (heap : Heap) (c : Cycle) (numbers : List ℕ) (stable : StableHeap) → IsClosed heap → IsCycleOf heap c → IsNumberedAs heap numbers stable → IsChapter c numbers stable }
{}

/// What is written in a cycle is written in the life of a heap whose objects never move, even if no other cycle
/// follows.
pub fn one_writing()
    ensures { (c : Cycle) (numbers : List ℕ) (stable : StableHeap) → IsClosed c.setup.heap → CanMerge c.setup c.journals → IsNumberedAs c.setup.heap numbers stable → IsWriting c numbers stable }
{}

/// Cycles that follow one another are one life of a heap whose objects never move.
pub fn one_life()
    ensures { (heap last : Heap) (cycles : List Cycle) → IsClosed heap → Follow heap cycles last → IsOneLife heap cycles last }
{}

/// If the marks have no fault, each weak word of a marked object of the next heap is null or the address of an object.
/// So the fault of a weak word that leads nowhere never occurs in that heap.
pub fn weak_words_lead()
    ensures { (u : Setup) (journals : Journals) (roots marks : List ℕ) → IsClosed u.heap → CanMerge u journals → mark_faults (object_starts u journals) 0 marks ≡ []
        → weak_faults u.heap.edition (next_heap u journals roots marks).words marks ≡ [] }
{}

/// Which numbers are no immediates: in editions one to three all, in edition four those below 2^63. A cycle gives out a
/// number for each new object, of which there are no more than words on fresh pages. So a life of fewer than 2^31
/// cycles has no number that is an immediate, as `one_life` asks.
pub fn numbers_are_apart()
    ensures others { (edition : Edition) (n : ℕ) → edition ≢ Four → AreApart edition n }
    ensures small { (edition : Edition) (n : ℕ) → n < 2 ^ 63 → AreApart edition n }
    ensures given { (c : Cycle) (given : ℕ) → CanMerge c.setup c.journals → given_after c given ≤ given + 64 * c.setup.fresh }
    ensures life { (heap last : Heap) (cycles : List Cycle) → IsClosed heap → Follow heap cycles last → length cycles < 2 ^ 31 → AreApart heap.edition (given_left cycles (length heap.marks)) }
{}

/// No to-space address of a cycle is an immediate, as `one_writing` asks: not if it can be followed by another cycle,
/// and not if it is that of a finished heap.
pub fn addresses_are_low()
    ensures cycle { (heap : Heap) (c : Cycle) → IsClosed heap → IsCycleOf heap c → IsLow c }
    ensures end { (heap : Heap) (f : AFinished) (marks : List ℕ) → IsEndOf heap f → IsLow (cycle_of heap f marks) }
    ensures handed { (heap : Heap) (f : AFinished) (roots marks : List ℕ) → IsEndOf heap f → IsLow (cycle_with heap f roots marks) }
{}

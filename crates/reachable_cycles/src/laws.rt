//! Laws of cycles with reachable marks. Each is the contract of a function that does nothing.
ghost use Rattle.std.specs.Prelude.{◌≡◌, ◌↔◌, ℕ, ◌*◌, ◌≤◌, All, List, [], length, Contains};
ghost use Rattle.heap_layout.specs.Limits.{most_words};
ghost use Rattle.heap_layout.specs.Heap.{Heap, from_address, IsClosed};
ghost use Rattle.comp_history.specs.Locks.{Journals};
ghost use Rattle.comp_history.specs.Objects.{LeadsToObject};
ghost use Rattle.comp_history.specs.Merged.{CanMerge};
ghost use Rattle.comp_history.specs.Setup.{Setup, pages};
ghost use Rattle.comp_cycles.specs.Forwarded.{AreForwarded};
ghost use Rattle.comp_cycles.specs.NextHeap.{next_faults, next_heap};
ghost use Rattle.comp_cycles.specs.Cycles.{Cycle, Follow, AreApart, IsCycleOf, given_after, given_left, numbers_after, story};
ghost use Rattle.comp_cycles.specs.NumberedHeaps.{first_numbers, first_numbered, names_in, number_at, IsNumberedAs};
ghost use Rattle.comp_cycles.specs.Stable.{StableHeap};
ghost use Rattle.reachability.specs.Reachable.{AreReachable, IsReachable};
ghost use Rattle.reachable_cycles.specs.NextRoots.{Fits};
ghost use Rattle.reachable_cycles.specs.StableReach.{AreMarkedReachable, IsReachableIn, KeepsExactly, KeepsReachable, written};

/// The roots of a heap reach a marked object if they reach it in object numbers, and only then, if no object's number
/// is an immediate.
pub fn numbers_reach()
    ensures { (heap : Heap) (numbers : List ℕ) (stable : StableHeap) (i : ℕ) → IsClosed heap → IsNumberedAs heap numbers stable → AreApart heap.edition stable.given → Contains heap.marks i
        → IsReachable heap.edition heap.words heap.roots i ↔ IsReachableIn stable stable.roots (number_at (names_in heap numbers) (from_address i)) }
{}

/// If exactly the reachable objects are marked at the end of a cycle, the cycle keeps exactly the objects that the
/// roots reach in the stable heap just before the others are dropped: after all that was written, and with the roots
/// that were handed in, if any were.
pub fn cycle_keeps_reachable()
    ensures { (heap : Heap) (c : Cycle) (numbers : List ℕ) (stable : StableHeap) → IsClosed heap → IsCycleOf heap c → IsNumberedAs heap numbers stable → AreApart c.setup.heap.edition (given_after c stable.given) → AreMarkedReachable c
        → KeepsExactly (written c numbers stable) (numbers_after c numbers stable.given) }
{}

/// Cycles that follow one another, each with the reachable objects marked at its end, are one life of the stable heap
/// in which each step that keeps objects keeps exactly those that the roots reach at that point.
pub fn cycles_keep_reachable()
    ensures { (heap last : Heap) (cycles : List Cycle) → IsClosed heap → Follow heap cycles last → AreApart heap.edition (given_left cycles (length heap.marks)) → ((c : Cycle) → Contains cycles c → AreMarkedReachable c)
        → KeepsReachable (first_numbered heap) (story cycles (first_numbers heap) (length heap.marks)) }
{}

/// If exactly the reachable objects of the next heap are marked, it has no fault, unless it has more words or roots
/// than its edition allows. Its roots are those of the heap before it, or others that are null or immediates or lead to
/// objects.
pub fn next_heap_is_accepted()
    ensures stayed { (u : Setup) (journals : Journals) (roots marks : List ℕ) → IsClosed u.heap → CanMerge u journals → AreForwarded u.heap roots → 64 * pages u ≤ most_words u.heap.edition
        → AreReachable u.heap.edition (next_heap u journals roots marks).words (next_heap u journals roots marks).roots marks → next_faults u journals (next_heap u journals roots marks) ≡ [] }
    ensures handed { (u : Setup) (journals : Journals) (roots marks : List ℕ) → IsClosed u.heap → CanMerge u journals → All (LeadsToObject u journals) roots → Fits u roots
        → AreReachable u.heap.edition (next_heap u journals roots marks).words (next_heap u journals roots marks).roots marks → next_faults u journals (next_heap u journals roots marks) ≡ [] }
{}

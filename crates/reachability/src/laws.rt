//! Laws of reachable objects. Each is the contract of a function that does nothing.
ghost use Rattle.std.specs.Prelude.{◌≡◌, ℕ, List, [], Contains};
ghost use Rattle.heap_layout.specs.declared.edition.Edition.{Edition};
ghost use Rattle.heap_layout.specs.Faults.{mark_faults, IsAccepted};
ghost use Rattle.heap_layout.specs.Heap.{Heap, starts};
ghost use Rattle.reachability.specs.Reachable.{AreReachable, IsReachable};

/// For all words and roots there is one list of the objects that the roots reach, and no other.
pub fn reachable_once()
    ensures some { (edition : Edition) (words roots : List ℕ) → (marks : List ℕ) × AreReachable edition words roots marks }
    ensures one { (edition : Edition) (words roots marks others : List ℕ) → AreReachable edition words roots marks → AreReachable edition words roots others → marks ≡ others }
{}

/// In an accepted heap each object that the roots reach is marked, and the heap is accepted with these marks alone.
pub fn reachable_are_least()
    ensures marked { (heap : Heap) (i : ℕ) → IsAccepted heap → IsReachable heap.edition heap.words heap.roots i → Contains heap.marks i }
    ensures accepted { (heap : Heap) (marks : List ℕ) → IsAccepted heap → AreReachable heap.edition heap.words heap.roots marks
        → IsAccepted (record { edition = heap.edition; words = heap.words; marks = marks; roots = heap.roots }) }
{}

/// The marks of the objects that the roots reach have no fault: they rise, and an object starts at each.
pub fn reachable_marks_are_sound()
    ensures { (edition : Edition) (words roots marks : List ℕ) → AreReachable edition words roots marks → mark_faults (starts edition words) 0 marks ≡ [] }
{}

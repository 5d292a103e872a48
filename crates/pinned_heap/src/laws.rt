//! Laws of the places of objects some of which stay. Each law is the contract of a function that does nothing.
ghost use Rattle.std.specs.Prelude.{◌≡◌, ℕ, ◌+◌, ◌<◌, ◌≤◌, Bool, false, List, [], length, slice_index, take};
ghost use Rattle.heap_layout.specs.declared.edition.Edition.{Edition};
ghost use Rattle.heap_layout.specs.Heap.{Object};
ghost use Rattle.mark_tables.specs.LiveWords.{live_words};
ghost use Rattle.stopped_heap.specs.Collecting.{HasCollected};
ghost use Rattle.pinned_heap.specs.Collecting.{HasCollectedAround};
ghost use Rattle.pinned_heap.specs.declared.run.Run.{Run};
ghost use Rattle.pinned_heap.specs.Pins.{gaps_from, indices_of, places_from, AreAtMost, AreInOrder, AreRising, IsPlacement};

/// The places are a placement: in order, apart, and what stays is where it was.
pub fn places_are_a_placement()
    ensures { (staying : ℕ → Bool) (objects : List Object) → AreInOrder 0 objects → IsPlacement staying 0 objects (places_from staying 0 objects) }
{}

/// No object moves up.
pub fn nothing_moves_up()
    ensures { (staying : ℕ → Bool) (objects : List Object) → AreInOrder 0 objects → AreAtMost (places_from staying 0 objects) (indices_of objects) }
{}

/// There is no placement in which any object lies lower.
pub fn places_are_the_least()
    ensures { (staying : ℕ → Bool) (objects : List Object) (places : List ℕ) → IsPlacement staying 0 objects places → AreAtMost (places_from staying 0 objects) places }
{}

/// If nothing stays, each object lies behind all live words of the objects before it.
pub fn without_pins_all_slides()
    ensures { (objects : List Object) (k : ℕ) → k < length objects → slice_index (places_from (λ _. false) 0 objects) k ≡ live_words (take k objects) }
{}

/// A place is the number of the live words of the objects before it, and of the free words below it.
pub fn places_are_sums()
    ensures { (staying : ℕ → Bool) (objects : List Object) (k : ℕ) → AreInOrder 0 objects → k < length objects
        → slice_index (places_from staying 0 objects) k ≡ live_words (take k objects) + slice_index (gaps_from staying 0 0 objects) k }
{}

/// The numbers of free words rise from object to object.
pub fn gaps_rise()
    ensures { (staying : ℕ → Bool) (objects : List Object) → AreInOrder 0 objects → AreRising 0 (gaps_from staying 0 0 objects) }
{}

/// Without pins a collection leaves what a collection within the words leaves, word for word, and no run of free words.
pub fn without_pins_in_place()
    ensures { (edition : Edition) (words roots new_roots after : List ℕ) (end : ℕ) (runs : List Run)
        → HasCollectedAround edition words roots [] end runs new_roots after → HasCollected edition words roots end new_roots words after × (runs ≡ []) }
{}

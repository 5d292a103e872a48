//! A law of what slid whole, wherever its weak words led.
ghost use Rattle.std.specs.Prelude.{◌≡◌, List, ℕ};
ghost use Rattle.heap_layout.specs.Heap.{Heap};
ghost use Rattle.rest_marks.specs.Given.{heap_now, HasSlid};
ghost use Rattle.rest_marks.specs.Places.{words_now, Found, IsFoundOf};
ghost use Rattle.stopped_heap.specs.Tidied.{tidied};

/// What slid whole out of any words was sound but for wild weak words, those that led to no word, and that became null.
/// With null in their place the heap is one of which this was found, and the same slides. So all that is known of a
/// survey is known of it.
pub fn slid_is_tidied()
    ensures sound { (found : Found) (before : Heap) (words roots : List ℕ) → IsFoundOf found before → HasSlid found words roots
        → IsFoundOf found (heap_now found (tidied found words) roots) }
    ensures words { (found : Found) (before : Heap) (words roots : List ℕ) → IsFoundOf found before → HasSlid found words roots
        → words_now found (tidied found words) ≡ words_now found words }
{}

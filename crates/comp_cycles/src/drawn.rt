//! An example of two cycles, in object numbers.
ghost use Rattle.std.specs.Prelude.{◌≡◌, [], ◌∷◌, map};
ghost use Rattle.heap_layout.specs.Header.{header_word};
ghost use Rattle.heap_layout.specs.Heap.{from_address};
ghost use Rattle.comp_cycles.specs.Cycles.{heap_after, numbers_after, numbers_left, story, story_of};
ghost use Rattle.comp_cycles.specs.DrawnCycle.{drawn_cycle, drawn_cycles, rooted_cycle, words_of_three};
ghost use Rattle.comp_cycles.specs.NextHeap.{next_word};
ghost use Rattle.comp_cycles.specs.Stable.{lived, Keeps, Makes, Roots, Writes};
ghost use Rattle.heap_layout.specs.declared.kind.Kind.TheVariants.{Reference};
ghost use Rattle.comp_cycles.specs.NumberedHeaps.{first_numbered};
ghost use Rattle.comp_history.specs.Drawn.{three_objects};

/// The cycle makes object 3 and stores it in object 2; then these two are kept.
pub fn cycle_is_numbered()
    ensures numbers { numbers_after (drawn_cycle (2 ∷ 64 ∷ [])) (1 ∷ 2 ∷ []) 2 ≡ 2 ∷ 3 ∷ [] }
    ensures story { story_of (drawn_cycle (2 ∷ 64 ∷ [])) (1 ∷ 2 ∷ []) 2 ≡ Makes (header_word 0 0 9) ∷ Writes Reference 2 0 3 ∷ Keeps (2 ∷ 3 ∷ []) ∷ [] }
    ensures first { words_of_three (first_numbered three_objects) ≡ (header_word 0 1 1 ∷ 11 ∷ []) ∷ (header_word 1 0 3 ∷ 1 ∷ []) ∷ [] ∷ [] }
    ensures last { words_of_three (lived (first_numbered three_objects) (story_of (drawn_cycle (2 ∷ 64 ∷ [])) (1 ∷ 2 ∷ []) 2)) ≡ (header_word 0 1 1 ∷ 11 ∷ []) ∷ (header_word 1 0 3 ∷ 3 ∷ []) ∷ (header_word 0 0 9 ∷ []) ∷ [] }
{}

/// If the mutator hands in a root that leads to object 3, only this object has to be kept. The root led to object 2.
pub fn root_is_changed()
    ensures story { story_of rooted_cycle (1 ∷ 2 ∷ []) 2 ≡ Makes (header_word 0 0 9) ∷ Writes Reference 2 0 3 ∷ Roots (3 ∷ []) ∷ Keeps (3 ∷ []) ∷ [] }
    ensures first { (first_numbered three_objects).roots ≡ 2 ∷ [] }
    ensures last { (lived (first_numbered three_objects) (story_of rooted_cycle (1 ∷ 2 ∷ []) 2)).roots ≡ 3 ∷ [] }
    ensures next { (heap_after rooted_cycle).roots ≡ from_address 64 ∷ [] }
{}

/// The first words of pages 0 and 1 of the next heap: references are lowered to from-space addresses.
pub fn words_are_lowered()
    ensures { map (next_word (drawn_cycle []).setup (drawn_cycle []).journals) (0 ∷ 1 ∷ 2 ∷ 3 ∷ 4 ∷ 64 ∷ 65 ∷ []) ≡ header_word 0 1 1 ∷ 11 ∷ header_word 1 0 3 ∷ from_address 64 ∷ 0 ∷ header_word 0 0 9 ∷ 0 ∷ [] }
{}

/// The second cycle stores null in object 2, which is then the only one kept. The two cycles are one story.
pub fn cycles_are_one_story()
    ensures numbers { numbers_left drawn_cycles (1 ∷ 2 ∷ []) 2 ≡ 2 ∷ [] }
    ensures story { story drawn_cycles (1 ∷ 2 ∷ []) 2
        ≡ Makes (header_word 0 0 9) ∷ Writes Reference 2 0 3 ∷ Keeps (2 ∷ 3 ∷ []) ∷ Writes Reference 2 0 0 ∷ Keeps (2 ∷ []) ∷ [] }
    ensures last { words_of_three (lived (first_numbered three_objects) (story drawn_cycles (1 ∷ 2 ∷ []) 2))
        ≡ (header_word 0 1 1 ∷ 11 ∷ []) ∷ (header_word 1 0 3 ∷ 0 ∷ []) ∷ (header_word 0 0 9 ∷ []) ∷ [] }
{}

//! What follows from the layout.
ghost use Rattle.std.specs.Prelude.{◌≡◌, ℕ};
ghost use Rattle.heap_map.specs.Layout.{cell_at};
ghost use Rattle.heap_map.specs.declared.layout.Scale.TheVariants as scales;

/// In the scale of words no two words have one cell.
pub fn words_have_cells_of_their_own()
    ensures { (i j : ℕ) → cell_at scales.Words i ≡ cell_at scales.Words j → i ≡ j }
{}

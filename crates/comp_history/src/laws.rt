//! Laws of the merged history. Each law is the contract of a function that does nothing.
ghost use Rattle.std.specs.Prelude.{◌≡◌, ◌≢◌, ℕ, ◌*◌, ◌<◌, ◌≤◌, List, []};
ghost use Rattle.heap_layout.specs.Heap.{IsClosed};
ghost use Rattle.heap_layout.specs.declared.edition.Edition.TheVariants.{One};
ghost use Rattle.heap_layout.specs.declared.kind.Kind.TheVariants.{Weak};
ghost use Rattle.comp_journal.specs.declared.entry.Entry.{Entry as Written};
ghost use Rattle.cell_steps.specs.Lists.{below, by, total, StartsWith};
ghost use Rattle.cell_steps.specs.Locks.{Journals};
ghost use Rattle.cell_steps.specs.Setup.{pages, Setup};
ghost use Rattle.page_cells.specs.Objects.{AreLawful, ReferencesAreStarts};
ghost use mathlib.Core.Option.{some};
ghost use lib.ListN.{get_elem?};
ghost use Rattle.comp_history.specs.Merged.{history, written_by, AreOwn, CanMerge, IsOneHistory, IsPoint};
ghost use Rattle.comp_history.specs.MadeWords.{allocated};

/// If journals can be merged, a single thread could have written their merged history into the slid heap, and it makes
/// the words and the objects of all pages.
pub fn one_history()
    ensures { (u : Setup) (journals : Journals) → IsClosed u.heap → CanMerge u journals
        → IsOneHistory u journals (history u journals) }
{}

/// What was seen of a page is the state of the page at some point of the merged history.
pub fn beginnings_are_points()
    ensures { (u : Setup) (journals : Journals) → IsClosed u.heap → CanMerge u journals
        → (p : ℕ) (seen : List Written) → p < pages u → StartsWith (journals p) seen
        → IsPoint u (history u journals) p seen }
{}

/// In the merged history the entries of a writer are those that it wrote, each once, in its order.
pub fn own_entries()
    ensures { (u : Setup) (journals : Journals) → CanMerge u journals
        → (k : ℕ) (did : List (ℕ × Written)) → AreOwn journals k did
        → written_by k (history u journals) ≡ did }
{}

/// Each entry of the merged history has one writer. If no writer with the number n or more wrote, the weight of all
/// entries is the sum of the weights of each writer's entries, for any weights.
pub fn writers_add_up()
    ensures { (u : Setup) (journals : Journals) → CanMerge u journals
        → (n : ℕ) → ((k p : ℕ) → n ≤ k → by k (journals p) ≡ []) → (weight : ℕ × Written → ℕ)
        → total weight (history u journals)
        ≡ below (λ k. total weight (written_by k (history u journals))) n }
{}

/// The objects that entries make fit on the fresh pages.
pub fn objects_fit()
    ensures { (u : Setup) (journals : Journals) → CanMerge u journals
        → allocated u.heap.edition (history u journals) ≤ 64 * u.fresh }
{}

/// Each word that refers on each page is null or the start of an object, or in edition four an immediate.
pub fn merged_references_are_starts()
    ensures { (u : Setup) (journals : Journals) → CanMerge u journals
        → ReferencesAreStarts u journals }
{}

/// In an accepted heap of edition one, no entry of a lawful journal writes a weak word.
pub fn weak_entries_are_not_of_edition_one()
    ensures { (u : Setup) (journals : Journals) → IsClosed u.heap → AreLawful u journals
        → (p i : ℕ) (e : Written) → get_elem? (journals p) i ≡ some e → e.kind ≡ Weak → u.heap.edition ≢ One }
{}

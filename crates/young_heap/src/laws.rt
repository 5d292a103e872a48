//! Laws of young collections. Each is the contract of a function that does nothing.
ghost use Rattle.std.specs.Prelude.{◌≡◌, List, ℕ, ◌<◌, ◌≤◌, [], All, Bool, length, false, true};
ghost use Rattle.heap_layout.specs.declared.edition.Edition.{Edition};
ghost use Rattle.heap_layout.specs.Bits.{bit};
ghost use Rattle.heap_layout.specs.Heap.{Heap};
ghost use Rattle.stopped_heap.specs.Collecting.{HasCollected, IsCollected};
ghost use Rattle.rest_marks.specs.Reached.{IsSound};
ghost use Rattle.rest_slide.specs.Settled.{collected, places};
ghost use Rattle.rest_marks.specs.Surveys.{marks_of};
ghost use Rattle.young_heap.specs.Cards.{AreGathered, AreGatheredWeak, AreStored, AreUnasked};
ghost use Rattle.young_heap.specs.Raising.{AreUnaskedFrom};
ghost use Rattle.young_heap.specs.Rows.{IsInRow};
ghost use Rattle.young_heap.specs.Young.{AreKeptBelow, AreOld, AreRemembered, HasCollectedYoung};

/// Before the first collection nothing is old: the premise holds with watermark 0, whatever the words and tables, and
/// whatever is asked for: the words on dirty cards, those that are listed, or none.
pub fn nothing_is_old()
    ensures row { (edition : Edition) (words starts : List ℕ) → AreOld edition words starts 0 }
    ensures clean { (edition : Edition) (words starts : List ℕ) (asked : ℕ → Bool)
        → AreUnasked edition words starts 0 asked }
{}

/// A young collection with watermark 0 is a collection of all: what lives is exactly what the roots reach.
pub fn all_is_collected()
    ensures { (edition : Edition) (words roots starts fields : List ℕ) (live : ℕ) (new_roots after : List ℕ)
        → All (λ j. j < 0) fields
        → HasCollectedYoung edition words roots starts 0 fields live new_roots after
        → HasCollected edition words roots live new_roots words after }
{}

/// If no word has to be remembered, as after a collection, then each card may be clean, and nothing need be listed.
pub fn remembered_is_clean()
    ensures { (edition : Edition) (words starts : List ℕ) (old : ℕ) (asked : ℕ → Bool)
        → AreRemembered edition words starts old [] []
        → AreUnasked edition words starts old asked }
{}

/// Mutators that mark the card of each reference and each weak word that they store into an old object, or list it, and
/// change no header there, keep the premise of the next young collection.
pub fn stored_is_clean()
    ensures row { (edition : Edition) (words starts : List ℕ) (old : ℕ) (asked : ℕ → Bool) (after : List ℕ)
        (now : ℕ → Bool) → AreStored edition words starts old asked after now
        → AreOld edition words starts old → AreOld edition after starts old }
    ensures clean { (edition : Edition) (words starts : List ℕ) (old : ℕ) (asked : ℕ → Bool) (after : List ℕ)
        (now : ℕ → Bool) → AreStored edition words starts old asked after now
        → AreUnasked edition words starts old asked → AreUnasked edition after starts old now }
{}

/// What a collection leaves, a young one or one of all, is a row of objects that lead to one another alone, if `starts`
/// has the bits of their places. So the next young collection may take the end of the live words for its watermark, and
/// no field is remembered as long as nothing is written.
pub fn collected_is_old()
    ensures row { (heap : Heap) (starts : List ℕ) → IsSound heap → marks_of starts ≡ places heap
        → AreOld heap.edition (collected heap).words starts (length (collected heap).words) }
    ensures clean { (heap : Heap) (starts : List ℕ) → IsSound heap → marks_of starts ≡ places heap
        → AreRemembered heap.edition (collected heap).words starts (length (collected heap).words) [] [] }
{}

/// If what is not asked for leads below, as references and weak words on clean cards do, then what was gathered from
/// the rest is all that has to be remembered.
pub fn gathered_is_remembered()
    ensures { (edition : Edition) (words starts : List ℕ) (old : ℕ) (asked : ℕ → Bool) (fields weaks : List ℕ)
        → AreUnasked edition words starts old asked
        → AreGathered edition words starts old asked old fields
        → AreGatheredWeak edition words starts old asked old weaks → AreOld edition words starts old
        → AreRemembered edition words starts old fields weaks }
{}

/// After a young collection, and after `promote`, the premise of the next one holds, with the end of the live words for
/// its watermark and no fields: whatever was a row of old objects before is one again. Here `heads` are the marks of
/// the collection, and `next` are the bits that `promote` leaves.
pub fn promoted_is_old()
    ensures row { (edition : Edition) (words roots heads next : List ℕ) (old total : ℕ) (new_roots after : List ℕ)
        → IsCollected (record { edition = edition; words = words; marks = marks_of heads; roots = roots })
        total new_roots words after
        → AreOld edition words heads old → AreKeptBelow old heads next
        → ((j : ℕ) → old ≤ j → bit next j ≡ true → IsInRow edition after total old j)
        → ((j : ℕ) → IsInRow edition after total old j → bit next j ≡ true)
        → AreOld edition after next total }
    ensures clean { (edition : Edition) (words roots heads next : List ℕ) (old total : ℕ) (new_roots after : List ℕ)
        → IsCollected (record { edition = edition; words = words; marks = marks_of heads; roots = roots })
        total new_roots words after
        → AreOld edition words heads old → AreKeptBelow old heads next
        → ((j : ℕ) → old ≤ j → bit next j ≡ true → IsInRow edition after total old j)
        → ((j : ℕ) → IsInRow edition after total old j → bit next j ≡ true)
        → AreRemembered edition after next total [] [] }
{}

/// What `OldTables::raise` leaves keeps the premise of the next young collection, if of the objects that became old
/// each reference and each weak word that is not asked for leads below the watermark as it is then. If those of all old
/// objects lead below, no word has to be remembered: each card may be clean (`remembered_is_clean`). Here `next` are
/// the starts that it leaves.
pub fn raised_is_clean()
    ensures clean { (edition : Edition) (words starts next : List ℕ) (old end : ℕ) (asked : ℕ → Bool)
        → AreKeptBelow old starts next → old ≤ end
        → AreUnasked edition words starts old asked
        → AreUnaskedFrom edition words next old end asked
        → AreUnasked edition words next end asked }
    ensures all { (edition : Edition) (words next : List ℕ) (end : ℕ)
        → AreUnaskedFrom edition words next 0 end (λ j. false)
        → AreRemembered edition words next end [] [] }
{}

//! Laws of collections. Each is the contract of a function that does nothing.
ghost use Rattle.std.specs.Prelude.{◌≡◌, ◌+◌, ◌≤◌, ℕ, List, [], Contains, length, sum};
ghost use Rattle.heap_layout.specs.declared.edition.Edition.{Edition};
ghost use Rattle.heap_layout.specs.Faults.{IsAccepted};
ghost use Rattle.heap_layout.specs.Heap.{Heap, live};
ghost use Rattle.page_plan.specs.Sliding.{live_words};
ghost use Rattle.reachability.specs.Reachable.{AreReachable};
ghost use Rattle.stopped_heap.specs.Collecting.{HasCollected, RefusesCollection};
ghost use Rattle.stopped_heap.specs.Growth.{IsFoundIn};
ghost use Rattle.stopped_heap.specs.InPlace.{HaveLeftTheSame};
ghost use Rattle.rest_marks.specs.Reached.{AreReached, IsReachedFrom, IsSound, IsFaultOf};
ghost use Rattle.stopped_heap.specs.SlideParts.{joined_parts};
ghost use Rattle.rest_marks.specs.Places.{led_by, words_now, Found, IsFoundOf, IsSlideFault};
ghost use Rattle.rest_slide.specs.Settled.{collected, settled_word, settled_words, AreSlid};
ghost use Rattle.stopped_heap.specs.Steps.{growth_roots, found_at_last, kept_at_last, roots_of_all, AreFoundAlike, AreGrowthSteps, AreSteps, GrowthStep, Step};
ghost use Rattle.rest_marks.specs.declared.fault.CollectFault.{CollectFault};
ghost use Rattle.rest_marks.specs.declared.fault.CollectFault.TheVariants as collection;
ghost use Rattle.rest_marks.specs.declared.fault.SlideFault.{SlideFault};
ghost use Rattle.rest_marks.specs.declared.fault.SurveyFault.{SurveyFault};
ghost use Rattle.rest_marks.specs.declared.fault.SurveyFault.TheVariants as survey;

/// The words that a collection leaves are the slid words of page_plan, each reference and weak word lowered by 2^32 if
/// it is no immediate.
pub fn collected_is_slid()
    ensures { (heap : Heap) → AreSlid heap.edition (live heap) }
{}

/// What a collection leaves is an accepted heap, a row of objects all of which are marked. So it may be collected
/// again.
pub fn collected_is_accepted()
    ensures { (heap : Heap) → IsSound heap → IsAccepted (collected heap) }
{}

/// If the roots of a heap reach exactly its marked objects, so they do after the collection. So of a heap that is
/// collected again, with nothing written in between, nothing goes.
pub fn collected_is_reached()
    ensures { (heap : Heap) → IsSound heap → AreReached heap.edition heap.words heap.roots heap.marks
        → AreReached heap.edition (collected heap).words (collected heap).roots (collected heap).marks }
{}

/// Of an accepted heap of which just the reachable objects are marked, these are the objects that the roots reach, and
/// the heap is sound. So all that is known of reachable objects in a row of objects holds of these.
pub fn accepted_is_sound()
    ensures reached { (heap : Heap) → IsAccepted heap → AreReachable heap.edition heap.words heap.roots heap.marks → AreReached heap.edition heap.words heap.roots heap.marks }
    ensures sound { (heap : Heap) → IsAccepted heap → IsSound heap }
{}

/// A sound heap of which the reached objects are marked has no fault but that memory may run out. So a heap is surveyed
/// if and only if it is sound, as far as memory allows.
pub fn sound_has_no_fault()
    ensures { (heap : Heap) (fault : SurveyFault) → IsSound heap → AreReached heap.edition heap.words heap.roots heap.marks
        → IsFaultOf heap.edition heap.words heap.roots fault → fault ≡ survey.OutOfMemory }
{}

/// There is one list of the objects that are reached.
pub fn reached_is_one()
    ensures { (edition : Edition) (words roots marks others : List ℕ) → AreReached edition words roots marks → AreReached edition words roots others → marks ≡ others }
{}

/// Of the same words and roots each collection leaves the same live words and roots, whatever memory it slides into. So
/// `collect_in_place` leaves what `collect` leaves, and where that slides into a memory that held the words of the
/// heap, the words behind the live ones are the same too. What the one collects the other refuses only if memory runs
/// out; and `collect` always has room in a memory as long as the words.
pub fn collected_is_one()
    ensures same { (edition : Edition) (words roots : List ℕ) (count other : ℕ) (new_roots other_roots before other_before after other_after : List ℕ)
        → HasCollected edition words roots count new_roots before after → HasCollected edition words roots other other_roots other_before other_after
        → HaveLeftTheSame count other new_roots other_roots before other_before after other_after }
    ensures fault { (edition : Edition) (words roots : List ℕ) (count : ℕ) (new_roots before after : List ℕ) (fault : SurveyFault)
        → HasCollected edition words roots count new_roots before after → IsFaultOf edition words roots fault → fault ≡ survey.OutOfMemory }
    ensures room { (edition : Edition) (words roots : List ℕ) (room : ℕ) (fault : CollectFault) → length words ≤ room → RefusesCollection edition words roots room fault
        → (refused : SurveyFault) × (fault ≡ collection.Survey refused) }
{}

/// Whoever marked the objects of a sound heap: each object that the roots reach is marked. So of a heap that is
/// surveyed by marks of the caller's own nothing that the roots reach is lost.
pub fn reached_is_marked()
    ensures { (heap : Heap) (i : ℕ) → IsSound heap → IsReachedFrom heap.edition heap.words heap.roots i → Contains heap.marks i }
{}

/// Parts that lie side by side and have as many words as live, each filled by `Survey::slide`, are the collected heap
/// when they are joined, in whatever order and by whatever threads they were filled.
pub fn parts_are_whole()
    ensures { (heap : Heap) (counts : List ℕ) → IsSound heap → sum counts ≡ live_words (live heap) → joined_parts (settled_words (live heap)) 0 counts ≡ (collected heap).words }
{}

/// Of the words that were surveyed: what slides as they are now is what slides. So `Places::try_slide` fills the parts
/// that `Survey::slide` fills, and those that lie side by side are the collected heap.
pub fn words_now_are_settled()
    ensures { (found : Found) (heap : Heap) → IsFoundOf found heap → words_now found heap.words ≡ settled_words (live heap) }
{}

/// Roots and weak words lead where they lead after the collection, whatever was written to the words since.
pub fn led_is_settled()
    ensures { (found : Found) (heap : Heap) (word : ℕ) → IsFoundOf found heap → led_by found word ≡ settled_word heap.edition (live heap) word }
{}

/// Of the words that were surveyed no part within the live words is refused.
pub fn found_has_no_fault()
    ensures { (found : Found) (heap : Heap) (first count : ℕ) (fault : SlideFault) → IsFoundOf found heap → first + count ≤ length found.indices
        → IsSlideFault found heap.words first count fault → ⊥ }
{}

/// A survey that grows by some lists of roots, one after the other, keeps at last what all these roots reach together,
/// however many lists they are: what one survey of all these roots marks. So it does not matter how they are handed in,
/// and `settle` changes nothing of it. Of a `Growth` this is so if the words stay the same. It is then found alike by
/// one survey of all these roots, and each call of `Places` answers the same.
pub fn steps_are_one()
    ensures growing { (edition : Edition) (words : List ℕ) (steps : List Step) → AreSteps edition words [] steps
        → AreReached edition words (roots_of_all steps) (kept_at_last [] steps) }
    ensures one { (edition : Edition) (words : List ℕ) (steps : List Step) (marks : List ℕ) → AreSteps edition words [] steps
        → AreReached edition words (roots_of_all steps) marks → kept_at_last [] steps ≡ marks }
    ensures growth { (words : List ℕ) (begun : Found) (steps : List GrowthStep) → begun.marks ≡ [] → IsFoundIn begun words → AreGrowthSteps words begun steps
        → AreReached begun.edition words (growth_roots steps) (found_at_last begun steps).marks }
    ensures alike { (words : List ℕ) (begun : Found) (steps : List GrowthStep) (at_once : Found) → begun.marks ≡ [] → IsFoundIn begun words → AreGrowthSteps words begun steps
        → IsFoundIn at_once words → at_once.edition ≡ begun.edition → AreReached begun.edition words (growth_roots steps) at_once.marks
        → AreFoundAlike (found_at_last begun steps) at_once }
{}

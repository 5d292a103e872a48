//! A collection within the memory of the heap, around objects that stay.
ghost use Rattle.std.specs.Prelude.{◌≡◌, ℕ, ◌++◌, ◌≤◌, true, List, length, map, slice_index, All, EachIndex, IfErr, IfOk, OnErr, OnOk};
ghost use Rattle.heap_layout.specs.Heap.{IsValue};
ghost use Rattle.pinned_heap.specs.Around.{end_from, runs_from, stays};
ghost use Rattle.pinned_heap.specs.Collecting.{refused_with, AreFewWith, HasCollectedAround, RefusesPinned};
ghost use Rattle.pinned_heap.specs.Pinned.{is_object, is_still, led_in, objects_in};
ghost use Rattle.pinned_heap.specs.Refusing.{IsPinRefused};
ghost use Rattle.stopped_heap.specs.Growth.{IsFoundIn};
ghost use Rattle.rest_marks.specs.Reached.{AreReached};

use crate::fault::{CollectPinnedFault, PinFault};
use crate::pinned::Pinned;
use crate::run::Run;
use heap_layout::Edition;
use std::alloc::Global;
use std::thread::Threads;
use stopped_heap::{Growing, Places, SurveyFault};

/// What a collection around objects that stay has left.
#[derive(Drop)]
pub struct Collected {
    /// Where the last live object ends: all words from there on are free.
    pub end: u64,
    /// The free words below that, in runs: one right before each object that stayed, unless it has no words.
    pub runs: Vec<Run>,
}

// The fault of a survey that went on from the pins.
fn pin_fault(fault: SurveyFault) -> CollectPinnedFault
    ensures { result ≡ refused_with fault }
{
    match fault {
        SurveyFault::BadRoot(k) => CollectPinnedFault::BadPin(k),
        other => CollectPinnedFault::Survey(other),
    }
}

// Finds what the roots and the pins reach.
fn survey_with(
    alloc: Global,
    edition: Edition,
    words: &[u64],
    roots: &[u64],
    pins: &[u64],
) -> Result<Places, CollectPinnedFault>
    ensures found { IfOk result (λ places. IsFoundIn places words.now) }
    ensures edition { IfOk result (λ places. places.edition ≡ edition) }
    ensures reached { IfOk result (λ places. AreReached edition words.now (roots.now ++ pins.now) places.marks) }
    ensures leads { IfOk result (λ places. All (IsValue edition places.marks) roots.now) }
    ensures few { OnOk result (AreFewWith edition words.now roots.now pins.now) }
    ensures fault { (most : ℕ) → IfErr result (RefusesPinned edition words.now roots.now pins.now most) }
{
    if words.len() > edition.max_words()
        || roots.len() > edition.max_roots()
        || pins.len() > edition.max_roots()
    {
        return Err(CollectPinnedFault::Survey(SurveyFault::TooLarge));
    }
    let begun = match Growing::begin(alloc, edition, words) {
        Ok(begun) => begun,
        Err(fault) => return Err(CollectPinnedFault::Survey(fault)),
    };
    let rooted = match begun.also(roots) {
        Ok(rooted) => rooted,
        Err(refused) => return Err(CollectPinnedFault::Survey(refused.fault)),
    };
    let grown = match rooted.also(pins) {
        Ok(grown) => grown,
        Err(refused) => return Err(pin_fault(refused.fault)),
    };
    Ok(grown.settle().release())
}

// Pins these objects, if that leaves at most so many runs.
fn pin_few<'p>(
    alloc: Global,
    places: &'p Places,
    pins: &[u64],
    most: usize,
) -> Result<Pinned<'p>, CollectPinnedFault>
    ensures found { IfOk result (λ pinned. pinned.found ≡ places.now) }
    ensures staying { IfOk result (λ pinned. (i : ℕ) → is_still pinned i ≡ stays pins.now i) }
    ensures objects { IfOk result (λ _. EachIndex pins.now (λ k. is_object places.now (slice_index pins.now k) ≡ true)) }
    ensures few { IfOk result (λ pinned. (words : List ℕ) → IsFoundIn pinned.found words → length (runs_from (is_still pinned) 0 (objects_in pinned.found words)) ≤ most) }
    ensures fault { IfErr result (IsPinRefused places.now pins.now most) }
{
    let pinned = match Pinned::of(alloc, places, pins) {
        Ok(pinned) => pinned,
        Err(PinFault::BadPin(k)) => return Err(CollectPinnedFault::BadPin(k)),
        Err(PinFault::OutOfMemory) => {
            return Err(CollectPinnedFault::Survey(SurveyFault::OutOfMemory));
        }
    };
    let count = pinned.runs().len();
    if count > most {
        return Err(CollectPinnedFault::TooManyRuns(count as u64));
    }
    Ok(pinned)
}

// Makes the roots lead to where their objects are after the slide, and answers what it leaves.
fn leave(pinned: Pinned<'_>, roots: &mut [u64]) -> Collected
    ensures roots { (words : List ℕ) → IsFoundIn pinned.entry.found words → roots.new ≡ map (led_in pinned.entry words) roots.old }
    ensures end { (words : List ℕ) → IsFoundIn pinned.entry.found words → result.end ≡ end_from (is_still pinned.entry) 0 (objects_in pinned.entry.found words) }
    ensures runs { (words : List ℕ) → IsFoundIn pinned.entry.found words → result.runs.items ≡ runs_from (is_still pinned.entry) 0 (objects_in pinned.entry.found words) }
{
    // Each root was met, so none leads astray, and none becomes null.
    pinned.forward_weak(roots);
    let end = pinned.end();
    Collected {
        end,
        runs: pinned.into_runs(),
    }
}

/// Collects the heap of these words and roots within the words, and leaves the objects at the pins where they are:
/// their addresses stay. Each pin keeps its object, and what that reaches, as a root does. The other objects slide down
/// around them, each behind the one before, and the roots lead there. Ok with where the last object ends, and with the
/// runs of free words below it; each run is filled with objects that nobody looks at. The words behind the last object
/// are as they were. Without pins it leaves what `collect_in_place` of stopped_heap does (`without_pins_in_place`).
///
/// Err if the heap is refused, if a pin is not the address of a word, if it would leave more than `most` runs, or if
/// memory runs out; then neither the words nor the roots have changed. There are never more runs than pins. Beside what
/// a survey takes it takes a bit a word, 4 bytes for each 64 words, and 16 bytes a run.
pub fn collect_pinned(
    alloc: Global,
    edition: Edition,
    words: &mut [u64],
    roots: &mut [u64],
    pins: &[u64],
    most: usize,
) -> Result<Collected, CollectPinnedFault>
    ensures collected { IfOk result (λ left. HasCollectedAround edition words.old roots.old pins.now left.end left.runs.items roots.new words.new) }
    ensures few { IfOk result (λ left. length left.runs.items ≤ most) }
    ensures fault { IfErr result (RefusesPinned edition words.old roots.old pins.now most) }
    ensures words_stay { OnErr result (words.new ≡ words.old) }
    ensures roots_stay { OnErr result (roots.new ≡ roots.old) }
{
    let places = match survey_with(alloc, edition, words, roots, pins) {
        Ok(places) => places,
        Err(fault) => return Err(fault),
    };
    let pinned = match pin_few(alloc, &places, pins, most) {
        Ok(pinned) => pinned,
        Err(fault) => return Err(fault),
    };
    pinned.slide_within(words);
    Ok(leave(pinned, roots))
}

/// Like `collect_pinned`, but that at most `threads` threads slide, the caller among them, and 64 at most, as
/// `Pinned::slide_within_by_threads` says. The caller alone surveys, and leads the roots. What is left is the same, and
/// so is what is refused.
pub fn collect_pinned_by_threads<R: Threads + Sync>(
    alloc: Global,
    rt: &R,
    threads: usize,
    edition: Edition,
    words: &mut [u64],
    roots: &mut [u64],
    pins: &[u64],
    most: usize,
) -> Result<Collected, CollectPinnedFault>
    ensures collected { IfOk result (λ left. HasCollectedAround edition words.old roots.old pins.now left.end left.runs.items roots.new words.new) }
    ensures few { IfOk result (λ left. length left.runs.items ≤ most) }
    ensures fault { IfErr result (RefusesPinned edition words.old roots.old pins.now most) }
    ensures words_stay { OnErr result (words.new ≡ words.old) }
    ensures roots_stay { OnErr result (roots.new ≡ roots.old) }
{
    let places = match survey_with(alloc, edition, words, roots, pins) {
        Ok(places) => places,
        Err(fault) => return Err(fault),
    };
    let pinned = match pin_few(alloc, &places, pins, most) {
        Ok(pinned) => pinned,
        Err(fault) => return Err(fault),
    };
    pinned.slide_within_by_threads(rt, threads, words);
    Ok(leave(pinned, roots))
}

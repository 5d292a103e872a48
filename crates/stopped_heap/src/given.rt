//! Bits that the caller set: those of the first words of marked objects, and those of all their words. They are taken
//! with no look at the heap: the slide asks of each object what a survey would have asked.
ghost use Rattle.std.specs.Prelude.{◌≡◌, ℕ, ◌+◌, ◌/◌, ◌^◌, ◌<◌, ◌≤◌, length, List, All, Contains, IfErr, IfOk, OnErr, OnOk};
ghost use Rattle.heap_layout.specs.Heap.{Heap, IsValue};
ghost use Rattle.heap_layout.specs.Limits.{most_object_words, most_roots, most_words};
ghost use Rattle.mark_tables.specs.MarkBitmap.{set_bits};
ghost use Rattle.rest_marks.specs.Given.{heap_now, AreTaken, HasCollectedAs, HasSlid, HasWeak, IsBitsFaultOf, RefusesByBits};
ghost use Rattle.rest_marks.specs.Places.{Found, IsAsFound, IsFoundOf};
ghost use Rattle.rest_marks.specs.Reached.{IsReachedFrom};
ghost use Rattle.rest_marks.specs.Surveys.{marks_of};

use crate::places::Places;
use heap_layout::Edition;
use rest_marks::{BitsFault, ByBitsFault, bit_past, check_kept, odd_word, offsets, starts_of};
use std::alloc::Global;

// Whether the bits and the roots are taken. It looks at no word of the heap.
fn check_bits(
    edition: Edition,
    count: usize,
    roots: &[u64],
    heads: &[u64],
    bits: &[u64],
) -> Result<(), BitsFault>
    ensures taken { OnOk result (AreTaken edition count roots.now heads.now bits.now) }
    ensures long { OnOk result (most_words edition ≤ most_object_words edition) }
    ensures heads { OnOk result (length heads.now ≡ (count + 63) / 64) }
    ensures bits { OnOk result (length bits.now ≡ (count + 63) / 64) }
    ensures fault { IfErr result (IsBitsFaultOf edition count roots.now heads.now bits.now) }
{
    if edition.max_object_words() < edition.max_words() {
        return Err(BitsFault::ShortObjects);
    }
    if count > edition.max_words() || roots.len() > edition.max_roots() {
        return Err(BitsFault::TooLarge);
    }
    let blocks = count.div_ceil(64);
    if heads.len() != blocks || bits.len() != blocks {
        return Err(BitsFault::WrongLength);
    }
    if let Some(i) = odd_word(heads, bits) {
        return Err(BitsFault::NotARun(i as u64));
    }
    if let Some(i) = bit_past(bits, count) {
        return Err(BitsFault::PastEnd(i as u64));
    }
    if let Err(k) = check_kept(edition, heads, roots) {
        return Err(BitsFault::BadRoot(k as u64));
    }
    Ok(())
}

impl Places {
    /// What a survey by marks of the caller's own would find, told by bits that the caller set: `heads` has those of
    /// the first words of marked objects, `bits` those of all their words, each in `count.div_ceil(64)` blocks, bit `i
    /// % 64` of block `i / 64` for the word at index `i`. It looks at no word of the heap. What a survey asks of the
    /// objects, `try_slide` asks: if all parts slide, `slid_is_sound` says that the heap is sound as it is then, and
    /// that nothing which the roots reach is lost. Err with `ShortObjects`, then `TooLarge`, then `WrongLength`, each
    /// asked where the one before is not there; if none of them is, with a fault that is there; if none is, with
    /// `OutOfMemory`.
    pub fn of_bits(
        alloc: Global,
        edition: Edition,
        count: usize,
        roots: &[u64],
        heads: &[u64],
        bits: &[u64],
    ) -> Result<Places, BitsFault>
        ensures edition { IfOk result (λ places. places.edition ≡ edition) }
        ensures count { IfOk result (λ places. places.count ≡ count) }
        ensures marks { IfOk result (λ places. places.marks ≡ marks_of heads.now) }
        ensures indices { IfOk result (λ places. places.indices ≡ set_bits bits.now) }
        ensures room { IfOk result (λ places. places.room ≡ 0) }
        ensures found { IfOk result (λ places. (heap : Heap) × IsFoundOf places heap) }
        ensures few_roots { IfOk result (λ _. length roots.now ≤ most_roots edition) }
        ensures roots { IfOk result (λ places. All (IsValue places.edition places.marks) roots.now) }
        ensures taken { IfOk result (λ _. AreTaken edition count roots.now heads.now bits.now) }
        ensures fault { IfErr result (IsBitsFaultOf edition count roots.now heads.now bits.now) }
    {
        check_bits(edition, count, roots, heads, bits)?;
        let own_heads = Vec::from_slice(alloc, heads)?;
        let own_bits = Vec::from_slice(alloc, bits)?;
        let counts = offsets(alloc, bits)?;
        let starts = starts_of(alloc, heads)?;
        Ok(Places {
            edition,
            count,
            room: 0,
            heads: own_heads,
            bits: own_bits,
            counts,
            starts,
            queue: Vec::new(alloc),
        })
    }
}

/// What slid whole was sound: if `Places::try_slide` filled all live words out of some words, and the roots lead to
/// live objects, each object that the roots reach in these words is live, whoever marked, and whatever was written
/// before the slide. If weak words lead to words too, all that is known of a survey of these words is known of what was
/// found. Two parts, one behind the other, are a part.
pub fn slid_is_sound()
    ensures reached { (found : Found) (before : Heap) (words roots : List ℕ) → IsFoundOf found before → HasSlid found words roots
        → (i : ℕ) → IsReachedFrom found.edition words roots i → Contains found.marks i }
    ensures sound { (found : Found) (before : Heap) (words roots : List ℕ) → IsFoundOf found before → HasSlid found words roots → HasWeak found words
        → IsFoundOf found (heap_now found words roots) }
    ensures joined { (found : Found) (words : List ℕ) (first a b : ℕ) → IsAsFound found words first a → IsAsFound found words (first + a) b
        → IsAsFound found words first (a + b) }
{}

/// Collects the heap of these words and roots by bits that the caller set, as `Places::of_bits` takes them: slides the
/// marked objects to the beginning of `to`, and makes the roots lead there. Ok with the number of words that are there
/// then; each object that the roots reach is among them, whoever marked. Err if the bits are not taken, if the live
/// words do not fit, or if the slide finds that an object is not as the bits say, or leads to one that is not marked;
/// then the roots are as they were, and `to` may have some of the words. So the heap can still be collected by its
/// roots.
pub fn collect_by_bits(
    alloc: Global,
    edition: Edition,
    words: &[u64],
    roots: &mut [u64],
    heads: &[u64],
    bits: &[u64],
    to: &mut [u64],
) -> Result<u64, ByBitsFault>
    ensures collected { IfOk result (λ live. HasCollectedAs edition words.now roots.old (marks_of heads.now) live roots.new to.old to.new) }
    ensures fault { IfErr result (RefusesByBits edition words.now roots.old heads.now bits.now (length to.old)) }
    ensures roots_stay { OnErr result (roots.new ≡ roots.old) }
{
    let places = match Places::of_bits(alloc, edition, words.len(), roots, heads, bits) {
        Ok(places) => places,
        Err(fault) => return Err(ByBitsFault::Bits(fault)),
    };
    let live = places.live_words();
    if live > to.len() as u64 {
        return Err(ByBitsFault::NoRoom(live));
    }
    if let Err(fault) = places.try_slide(words, 0, &mut to[..live as usize]) {
        return Err(ByBitsFault::Slide(fault));
    }
    // Each root leads to a marked object, so none becomes null.
    places.forward_weak(roots);
    Ok(live)
}

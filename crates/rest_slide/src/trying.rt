//! Slides live objects out of words that may be others than those that were surveyed.
ghost use Rattle.std.specs.Prelude.{◌≡◌, ◌≢◌, ℕ, ◌*◌, ◌<◌, ◌^◌, ◌≤◌, ◌+◌, false, true, List, length, slice_index, IfErr, IfNone, IfSome, OnOk};
ghost use Rattle.heap_layout.specs.declared.edition.Edition.{Edition};
ghost use Rattle.heap_layout.specs.Bits.{bit};
ghost use Rattle.heap_layout.specs.Header.{refs_of, weak_of, size_of};
ghost use Rattle.heap_layout.specs.Heap.{header_at, is_value, object_at, IsPlaced, IsValue};
ghost use Rattle.mark_tables.specs.MarkBitmap.{set_bits, AreOffsets};
ghost use Rattle.mark_tables.specs.LiveWords.{live_below};
ghost use Rattle.rest_marks.specs.Places.{found_in, led_by, led_words, words_now, AreTablesOf, IsAsFound, IsSlideFault};
ghost use Rattle.rest_marks.specs.Starts.{AreStarts};
ghost use Rattle.rest_marks.specs.Surveys.{marks_of, AreTables};

use crate::sliding::copy_in;
use heap_layout::{Edition, is_set};
use rest_marks::{
    Shape, SlideFault, below, is_last_before, last_head, leads_to, next_set, settled_weak, shape_of,
};

// Writes `count` words of the object at index `start` into the part, from its word `begin` on: those from the word
// `from` of the object on, as they are after the collection. Err with the number of a word of the object that is a
// reference among them, and leads to no live object.
#[inline(always)]
fn try_slide_object(
    edition: Edition,
    words: &[u64],
    heads: &[u64],
    bits: &[u64],
    counts: &[u32],
    start: usize,
    shape: Shape,
    from: usize,
    count: usize,
    part: &mut [u64],
    begin: usize,
) -> Result<(), usize>
    requires few { length words.now ≤ 2 ^ 31 }
    requires offsets { AreOffsets bits.now counts.now }
    requires same { length heads.now ≡ length bits.now }
    requires placed { IsPlaced edition words.now start }
    requires refs { shape.refs ≡ refs_of (header_at edition words.now start) }
    requires weak { shape.weak ≡ weak_of (header_at edition words.now start) }
    requires some { 0 < count }
    requires inside { from + count ≤ size_of (header_at edition words.now start) }
    requires room { begin + count ≤ length part.old }
    ensures written { OnOk result ((j : ℕ) → j < count → slice_index part.new (begin + j) ≡ slice_index (led_words (led_by (found_in edition (length words.now) heads.now bits.now 0)) (object_at edition words.now start)) (from + j)) }
    ensures before { OnOk result ((k : ℕ) → k < begin → slice_index part.new k ≡ slice_index part.old k) }
    ensures marked { OnOk result ((f : ℕ) → from ≤ f → f < from + count → 1 ≤ f → f ≤ refs_of (header_at edition words.now start) → IsValue edition (marks_of heads.now) (slice_index words.now (start + f))) }
    ensures inside { IfErr result (λ f. (from ≤ f) × (f < from + count) × (1 ≤ f) × (f ≤ refs_of (header_at edition words.now start))) }
    ensures unmarked { IfErr result (λ f. is_value edition (marks_of heads.now) (slice_index words.now (start + f)) ≡ false) }
    ensures length { length part.new ≡ length part.old }
{
    let references_end = 1 + shape.refs;
    let weak_end = references_end + shape.weak;
    let end = from + count;
    let mut at = from;
    if at == 0 {
        part[begin] = words[start];
        at = 1;
    }
    let stop = references_end.min(end);
    while at < stop {
        let reference = words[start + at];
        if !leads_to(edition, heads, reference) {
            return Err(at);
        }
        part[begin + (at - from)] = settled_weak(edition, heads, bits, counts, reference);
        at += 1;
    }
    let last = weak_end.min(end);
    while at < last {
        part[begin + (at - from)] = settled_weak(edition, heads, bits, counts, words[start + at]);
        at += 1;
    }
    if at < end {
        copy_in(part, begin + (at - from), words, start + at, end - at);
    }
    Ok(())
}

// The first bit behind bit `i` that is set; the number of all bits, or more, if there is none.
#[inline(always)]
fn head_behind(heads: &[u64], i: usize) -> usize
    requires few { length heads.now ≤ 2 ^ 25 }
    requires known { i < 64 * length heads.now }
    ensures from { i < result }
    ensures none { (j : ℕ) → i < j → j < result → bit heads.now j ≡ false }
    ensures here { result < 64 * length heads.now → bit heads.now result ≡ true }
{
    if i + 1 < 64 * heads.len() {
        next_set(heads, i + 1)
    } else {
        i + 1
    }
}

// How many live words are below word `i`; how many there are, if there is no bit for it.
#[inline(always)]
fn all_below(bits: &[u64], counts: &[u32], i: usize) -> u64
    requires { AreOffsets bits.now counts.now }
    ensures below { i < 64 * length bits.now → result ≡ live_below (set_bits bits.now) i }
    ensures all { 64 * length bits.now ≤ i → result ≡ length (set_bits bits.now) }
    ensures few { result ≤ 2 ^ 31 }
{
    if i < 64 * bits.len() {
        below(bits, counts, i)
    } else {
        u64::from(counts[bits.len()])
    }
}

// Whether the object at `start`, which slides to `place`, had so many words when it was surveyed: so many live words
// are there, none of them is the first word of another object, and the word behind them is not one more. Takes constant
// time.
#[inline(always)]
fn had_size(
    heads: &[u64],
    bits: &[u64],
    counts: &[u32],
    starts: &[u32],
    start: usize,
    place: usize,
    size: usize,
) -> bool
    requires offsets { AreOffsets bits.now counts.now }
    requires starts { AreStarts heads.now starts.now }
    requires same { length heads.now ≡ length bits.now }
    requires head { bit heads.now start ≡ true }
    requires place { place ≡ live_below (set_bits bits.now) start }
    requires some { 0 < size }
    ensures had { result ≡ true → (edition : Edition) (words : List ℕ) → AreTables edition words heads.now bits.now counts.now
        → size ≡ size_of (header_at edition words start) }
    ensures other { result ≡ false → (edition : Edition) (words : List ℕ) → AreTables edition words heads.now bits.now counts.now
        → size ≢ size_of (header_at edition words start) }
    ensures inside { result ≡ true → start + size ≤ 64 * length heads.now }
{
    let all = 64 * bits.len();
    if size > all - start {
        return false;
    }
    let end = start + size;
    let live = all_below(bits, counts, end) as usize - place;
    if live != size {
        return false;
    }
    if !is_last_before(heads, starts, start, end) {
        return false;
    }
    if end == all {
        return true;
    }
    if !is_set(bits, end) {
        return true;
    }
    is_set(heads, end)
}

// The index of an object, and of the slid word at which it starts.
#[derive(Clone, Copy)]
struct Next {
    start: usize,
    place: usize,
}

// What comes behind the object at `start`, which slides to `place`, if it had so many words when it was surveyed; None
// if it had not. Where that slides to the slid word `end` or behind it, nobody looks for its index.
#[inline(always)]
fn next_behind(
    heads: &[u64],
    bits: &[u64],
    counts: &[u32],
    starts: &[u32],
    start: usize,
    place: usize,
    size: usize,
    end: usize,
) -> Option<Next>
    requires offsets { AreOffsets bits.now counts.now }
    requires starts { AreStarts heads.now starts.now }
    requires same { length heads.now ≡ length bits.now }
    requires head { bit heads.now start ≡ true }
    requires place { place ≡ live_below (set_bits bits.now) start }
    requires some { 0 < size }
    requires inside { place < end }
    ensures had { IfSome result (λ next. (edition : Edition) (words : List ℕ) → AreTables edition words heads.now bits.now counts.now
        → size ≡ size_of (header_at edition words start)) }
    ensures place { IfSome result (λ next. next.place ≡ place + size) }
    ensures from { IfSome result (λ next. next.place < end → start < next.start) }
    ensures none { IfSome result (λ next. next.place < end → (j : ℕ) → start < j → j < next.start → bit heads.now j ≡ false) }
    ensures here { IfSome result (λ next. next.place < end → next.start < 64 * length heads.now → bit heads.now next.start ≡ true) }
    ensures other { IfNone result ((edition : Edition) (words : List ℕ) → AreTables edition words heads.now bits.now counts.now
        → size ≢ size_of (header_at edition words start)) }
{
    if size >= end - place {
        if !had_size(heads, bits, counts, starts, start, place, size) {
            return None;
        }
        return Some(Next {
            start,
            place: place + size,
        });
    }
    let next = head_behind(heads, start);
    let next_place = all_below(bits, counts, next) as usize;
    if size != next_place - place {
        return None;
    }
    Some(Next {
        start: next,
        place: next_place,
    })
}

/// Fills the part with the words of the live objects as they are now and slide, from the slid word `first` on. Err with
/// a fault that is there; then the part has some of its words.
pub fn try_slide_part(
    edition: Edition,
    words: &[u64],
    heads: &[u64],
    bits: &[u64],
    counts: &[u32],
    starts: &[u32],
    first: u64,
    part: &mut [u64],
) -> Result<(), SlideFault>
    requires tables { AreTablesOf edition (length words.now) heads.now bits.now counts.now }
    requires starts { AreStarts heads.now starts.now }
    requires inside { first + length part.old ≤ length (set_bits bits.now) }
    ensures words { OnOk result ((j : ℕ) → j < length part.old → slice_index part.new j ≡ slice_index (words_now (found_in edition (length words.now) heads.now bits.now 0) words.now) (first + j)) }
    ensures as_found { OnOk result ((room : ℕ) → IsAsFound (found_in edition (length words.now) heads.now bits.now room) words.now first (length part.old)) }
    ensures fault { IfErr result (λ fault. (room : ℕ) → IsSlideFault (found_in edition (length words.now) heads.now bits.now room) words.now first (length part.old) fault) }
    ensures length { length part.new ≡ length part.old }
{
    // Each arm is compiled for its edition.
    match edition {
        Edition::One => try_slide_run(edition, words, heads, bits, counts, starts, first, part),
        Edition::Two => try_slide_run(edition, words, heads, bits, counts, starts, first, part),
        Edition::Three => try_slide_run(edition, words, heads, bits, counts, starts, first, part),
        Edition::Four => try_slide_run(edition, words, heads, bits, counts, starts, first, part),
    }
}

// The same, compiled into its caller.
#[inline(always)]
fn try_slide_run(
    edition: Edition,
    words: &[u64],
    heads: &[u64],
    bits: &[u64],
    counts: &[u32],
    starts: &[u32],
    first: u64,
    part: &mut [u64],
) -> Result<(), SlideFault>
    requires tables { AreTablesOf edition (length words.now) heads.now bits.now counts.now }
    requires starts { AreStarts heads.now starts.now }
    requires inside { first + length part.old ≤ length (set_bits bits.now) }
    ensures words { OnOk result ((j : ℕ) → j < length part.old → slice_index part.new j ≡ slice_index (words_now (found_in edition (length words.now) heads.now bits.now 0) words.now) (first + j)) }
    ensures as_found { OnOk result ((room : ℕ) → IsAsFound (found_in edition (length words.now) heads.now bits.now room) words.now first (length part.old)) }
    ensures fault { IfErr result (λ fault. (room : ℕ) → IsSlideFault (found_in edition (length words.now) heads.now bits.now room) words.now first (length part.old) fault) }
    ensures length { length part.new ≡ length part.old }
{
    if part.len() == 0 {
        return Ok(());
    }
    let end = first as usize + part.len();
    let mut start = last_head(heads, bits, counts, starts, first);
    let mut place = below(bits, counts, start) as usize;
    while place < end {
        let shape = shape_of(edition, words[start]);
        let behind = next_behind(heads, bits, counts, starts, start, place, shape.size, end);
        let Some(next) = behind else {
            return Err(SlideFault::Changed(start as u64));
        };
        let from = (first as usize).saturating_sub(place);
        let stop = shape.size.min(end - place);
        let begin = place + from - first as usize;
        let tried = try_slide_object(
            edition,
            words,
            heads,
            bits,
            counts,
            start,
            shape,
            from,
            stop - from,
            part,
            begin,
        );
        if let Err(f) = tried {
            return Err(SlideFault::Unmarked((start + f) as u64));
        }
        place = next.place;
        start = next.start;
    }
    Ok(())
}

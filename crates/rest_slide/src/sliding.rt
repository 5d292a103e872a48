//! Slides live objects.
ghost use Rattle.std.specs.Prelude.{◌≡◌, ◌*◌, ◌<◌, ◌^◌, ◌≤◌, ◌+◌, ℕ, true, length, slice_index};
ghost use Rattle.heap_layout.specs.Bits.{bit};
ghost use Rattle.heap_layout.specs.Header.{refs_of, weak_of, size_of};
ghost use Rattle.heap_layout.specs.Heap.{header_at, live, object_at};
ghost use Rattle.mark_tables.specs.MarkBitmap.{set_bits};
ghost use Rattle.rest_slide.specs.Settled.{settled, settled_words};
ghost use Rattle.rest_marks.specs.Starts.{AreStarts};
ghost use Rattle.rest_marks.specs.Surveys.{told, AreTables};

use heap_layout::Edition;
use rest_marks::{Shape, below, last_head, next_set, settled_reference, settled_weak, shape_of};

/// Copies `count` words, from index `from` on, into the part, from its word `at` on.
#[inline(always)]
pub(crate) fn copy_in(part: &mut [u64], at: usize, words: &[u64], from: usize, count: usize)
    requires room { at + count ≤ length part.old }
    requires known { from + count ≤ length words.now }
    ensures written { (k : ℕ) → k < count → slice_index part.new (at + k) ≡ slice_index words.now (from + k) }
    ensures before { (k : ℕ) → k < at → slice_index part.new k ≡ slice_index part.old k }
{
    part[at..at + count].copy_from_slice(&words[from..from + count]);
}

// Writes `count` words of the live object at index `start` into the part, from its word `begin` on: those from the word
// `from` of the object on, as they are after the collection.
#[inline(always)]
fn slide_object(
    edition: Edition,
    words: &[u64],
    heads: &[u64],
    bits: &[u64],
    counts: &[u32],
    start: usize,
    shape: Shape,
    from: usize,
    count: usize,
    part: &mut [u64],
    begin: usize,
)
    requires tables { AreTables edition words.now heads.now bits.now counts.now }
    requires head { bit heads.now start ≡ true }
    requires refs { shape.refs ≡ refs_of (header_at edition words.now start) }
    requires weak { shape.weak ≡ weak_of (header_at edition words.now start) }
    requires some { 0 < count }
    requires inside { from + count ≤ size_of (header_at edition words.now start) }
    requires room { begin + count ≤ length part.old }
    ensures written { (j : ℕ) → j < count → slice_index part.new (begin + j) ≡ slice_index (settled (live (told edition words.now heads.now)) (object_at edition words.now start)) (from + j) }
    ensures before { (k : ℕ) → k < begin → slice_index part.new k ≡ slice_index part.old k }
    ensures length { length part.new ≡ length part.old }
{
    let references_end = 1 + shape.refs;
    let weak_end = references_end + shape.weak;
    let end = from + count;
    let mut at = from;
    if at == 0 {
        part[begin] = words[start];
        at = 1;
    }
    let stop = references_end.min(end);
    while at < stop {
        part[begin + (at - from)] = settled_reference(edition, bits, counts, words[start + at]);
        at += 1;
    }
    let last = weak_end.min(end);
    while at < last {
        part[begin + (at - from)] = settled_weak(edition, heads, bits, counts, words[start + at]);
        at += 1;
    }
    if at < end {
        copy_in(part, begin + (at - from), words, start + at, end - at);
    }
}

/// Fills the part with the words of the live objects as they are after the collection, from the slid word `first` on.
pub fn slide_part(
    edition: Edition,
    words: &[u64],
    heads: &[u64],
    bits: &[u64],
    counts: &[u32],
    starts: &[u32],
    first: u64,
    part: &mut [u64],
)
    requires tables { AreTables edition words.now heads.now bits.now counts.now }
    requires starts { AreStarts heads.now starts.now }
    requires inside { first + length part.old ≤ length (set_bits bits.now) }
    ensures words { (j : ℕ) → j < length part.old → slice_index part.new j ≡ slice_index (settled_words (live (told edition words.now heads.now))) (first + j) }
    ensures length { length part.new ≡ length part.old }
{
    // Each arm is compiled for its edition.
    match edition {
        Edition::One => slide_run(edition, words, heads, bits, counts, starts, first, part),
        Edition::Two => slide_run(edition, words, heads, bits, counts, starts, first, part),
        Edition::Three => slide_run(edition, words, heads, bits, counts, starts, first, part),
        Edition::Four => slide_run(edition, words, heads, bits, counts, starts, first, part),
    }
}

// The same, compiled into its caller.
#[inline(always)]
fn slide_run(
    edition: Edition,
    words: &[u64],
    heads: &[u64],
    bits: &[u64],
    counts: &[u32],
    starts: &[u32],
    first: u64,
    part: &mut [u64],
)
    requires tables { AreTables edition words.now heads.now bits.now counts.now }
    requires starts { AreStarts heads.now starts.now }
    requires inside { first + length part.old ≤ length (set_bits bits.now) }
    ensures words { (j : ℕ) → j < length part.old → slice_index part.new j ≡ slice_index (settled_words (live (told edition words.now heads.now))) (first + j) }
    ensures length { length part.new ≡ length part.old }
{
    if part.len() == 0 {
        return;
    }
    let end = first as usize + part.len();
    let mut next = last_head(heads, bits, counts, starts, first);
    let mut place = below(bits, counts, next) as usize;
    while place < end {
        let start = next_set(heads, next);
        let shape = shape_of(edition, words[start]);
        let from = (first as usize).saturating_sub(place);
        let stop = shape.size.min(end - place);
        let begin = place + from - first as usize;
        slide_object(
            edition,
            words,
            heads,
            bits,
            counts,
            start,
            shape,
            from,
            stop - from,
            part,
            begin,
        );
        place += shape.size;
        next = start + shape.size;
    }
}

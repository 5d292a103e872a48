//! Slides live objects down around those that stay, within the words in which they lie. No object moves up, so each
//! word is read before another one is written over it, if the words are taken from low to high.
ghost use Rattle.std.specs.Prelude.{◌≡◌, ℕ, ◌+◌, ◌-◌, ◌*◌, ◌<◌, ◌^◌, ◌≤◌, ◌⊎◌, true, false, cond, length, slice_index};
ghost use Rattle.heap_layout.specs.Bits.{bit};
ghost use Rattle.heap_layout.specs.Values.{is_immediate};
ghost use Rattle.rest_marks.specs.Surveys.{told, AreTables};
ghost use Rattle.pinned_heap.specs.Around.{IsFilled, IsSlidAround};
ghost use Rattle.pinned_heap.specs.Parts.{AreObjectsSlid, ArePartTables, IsPartSlid};
ghost use Rattle.pinned_heap.specs.Tables.{kept_at_place, led_to_place, AreBases};

use crate::filling::fill_run;
use crate::placing::{settled_reference, settled_weak};
use heap_layout::{Edition, is_set};
use stopped_heap::{Shape, next_set, shape_of};

// Moves `count` references down, those from index `from` on to index `to`, and makes them lead to where their objects
// are after the slide.
#[inline(always)]
fn move_references(
    edition: Edition,
    bits: &[u64],
    stays: &[u64],
    bases: &[u32],
    words: &mut [u64],
    from: usize,
    to: usize,
    count: usize,
)
    requires bases { AreBases bits.now stays.now bases.now }
    requires down { to ≤ from }
    requires inside { from + count ≤ length words.old }
    requires known { (k : ℕ) → k < count → is_immediate edition (slice_index words.old (from + k)) ≡ false → slice_index words.old (from + k) - 2 ^ 32 < 64 * length bits.now }
    ensures moved { (k : ℕ) → k < count → slice_index words.new (to + k) ≡ led_to_place edition bits.now stays.now (slice_index words.old (from + k)) }
    ensures before { (k : ℕ) → k < to → slice_index words.new k ≡ slice_index words.old k }
    ensures behind { (k : ℕ) → to + count ≤ k → slice_index words.new k ≡ slice_index words.old k }
    ensures length { length words.new ≡ length words.old }
{
    for k in 0..count {
        words[to + k] = settled_reference(edition, bits, stays, bases, words[from + k]);
    }
}

// The same with weak words.
#[inline(always)]
fn move_weak(
    edition: Edition,
    heads: &[u64],
    bits: &[u64],
    stays: &[u64],
    bases: &[u32],
    words: &mut [u64],
    from: usize,
    to: usize,
    count: usize,
)
    requires bases { AreBases bits.now stays.now bases.now }
    requires same { length heads.now ≡ length bits.now }
    requires down { to ≤ from }
    requires inside { from + count ≤ length words.old }
    ensures moved { (k : ℕ) → k < count → slice_index words.new (to + k) ≡ kept_at_place edition heads.now bits.now stays.now (slice_index words.old (from + k)) }
    ensures before { (k : ℕ) → k < to → slice_index words.new k ≡ slice_index words.old k }
    ensures behind { (k : ℕ) → to + count ≤ k → slice_index words.new k ≡ slice_index words.old k }
    ensures length { length words.new ≡ length words.old }
{
    for k in 0..count {
        words[to + k] = settled_weak(edition, heads, bits, stays, bases, words[from + k]);
    }
}

// Moves an object of this shape down from index `start` to index `place`, with its references and weak words as they
// are after the slide.
#[inline(always)]
fn move_object(
    edition: Edition,
    heads: &[u64],
    bits: &[u64],
    stays: &[u64],
    bases: &[u32],
    words: &mut [u64],
    start: usize,
    place: usize,
    shape: Shape,
)
    requires bases { AreBases bits.now stays.now bases.now }
    requires same { length heads.now ≡ length bits.now }
    requires down { place ≤ start }
    requires inside { start + shape.size ≤ length words.old }
    requires size { 1 + shape.refs + shape.weak ≤ shape.size }
    requires known { (k : ℕ) → k < shape.refs → is_immediate edition (slice_index words.old (start + 1 + k)) ≡ false → slice_index words.old (start + 1 + k) - 2 ^ 32 < 64 * length bits.now }
    ensures header { slice_index words.new place ≡ slice_index words.old start }
    ensures references { (k : ℕ) → k < shape.refs → slice_index words.new (place + 1 + k) ≡ led_to_place edition bits.now stays.now (slice_index words.old (start + 1 + k)) }
    ensures weak { (k : ℕ) → k < shape.weak → slice_index words.new (place + 1 + shape.refs + k) ≡ kept_at_place edition heads.now bits.now stays.now (slice_index words.old (start + 1 + shape.refs + k)) }
    ensures data { (k : ℕ) → 1 + shape.refs + shape.weak ≤ k → k < shape.size → slice_index words.new (place + k) ≡ slice_index words.old (start + k) }
    ensures before { (k : ℕ) → k < place → slice_index words.new k ≡ slice_index words.old k }
    ensures behind { (k : ℕ) → place + shape.size ≤ k → slice_index words.new k ≡ slice_index words.old k }
    ensures length { length words.new ≡ length words.old }
{
    let weak = 1 + shape.refs;
    let data = weak + shape.weak;
    words[place] = words[start];
    move_references(
        edition,
        bits,
        stays,
        bases,
        words,
        start + 1,
        place + 1,
        shape.refs,
    );
    move_weak(
        edition,
        heads,
        bits,
        stays,
        bases,
        words,
        start + weak,
        place + weak,
        shape.weak,
    );
    // Of an object that stays the data words are there already.
    if place < start {
        words.copy_within(start + data..start + shape.size, place + data);
    }
}

// Where the object at index `start` goes, if the words from index `place` on are free up to it: to its own index if it
// stays, and then these free words are filled, and else to index `place`.
#[inline(always)]
fn place_behind(
    edition: Edition,
    words: &mut [u64],
    place: usize,
    start: usize,
    stays: bool,
) -> usize
    requires down { place ≤ start }
    requires inside { start ≤ length words.old }
    requires few { length words.old ≤ 2 ^ 31 }
    ensures place { result ≡ cond stays start place }
    ensures filled { place < result → IsFilled edition words.new (record { start = place; end = result }) }
    ensures before { (k : ℕ) → k < place → slice_index words.new k ≡ slice_index words.old k }
    ensures behind { (k : ℕ) → result ≤ k → slice_index words.new k ≡ slice_index words.old k }
    ensures length { length words.new ≡ length words.old }
{
    if stays {
        fill_run(edition, words, place, start);
        return start;
    }
    place
}

// Slides the live objects of a part of the words, which begins at word `low`: each behind the one before, the first
// one to the start of the part. Fills the runs of free words before those that stay within it. Answers where the last
// one ends; the words from there on stay as they are.
fn slide_objects(
    edition: Edition,
    heads: &[u64],
    bits: &[u64],
    stays: &[u64],
    bases: &[u32],
    low: usize,
    part: &mut [u64],
) -> usize
    requires bases { AreBases bits.now stays.now bases.now }
    requires tables { ArePartTables edition heads.now bits.now stays.now low part.old }
    ensures { AreObjectsSlid edition heads.now bits.now stays.now low part.old result part.new }
{
    let limit = (64 * heads.len()).min(low + part.len());
    let mut next = low;
    let mut place = 0;
    while next < limit {
        let start = next_set(heads, next);
        if start >= limit {
            return place;
        }
        let from = start - low;
        place = place_behind(edition, part, place, from, is_set(stays, start));
        let shape = shape_of(edition, part[from]);
        move_object(edition, heads, bits, stays, bases, part, from, place, shape);
        place += shape.size;
        next = start + shape.size;
    }
    place
}

/// Slides the live objects of a part of the words down, around those that stay: each behind the one before. The part
/// begins at word `low`, which is 0 or the start of an object that stays, and ends with the words or before such a
/// start. Fills the runs of free words before objects that stay, also the one that ends where the part does. If the
/// part ends with the words, those behind its last object stay as they are.
pub(crate) fn slide_part(
    edition: Edition,
    heads: &[u64],
    bits: &[u64],
    stays: &[u64],
    bases: &[u32],
    low: usize,
    part: &mut [u64],
)
    requires bases { AreBases bits.now stays.now bases.now }
    requires tables { ArePartTables edition heads.now bits.now stays.now low part.old }
    ensures { IsPartSlid edition heads.now bits.now stays.now low part.old part.new }
{
    let place = slide_objects(edition, heads, bits, stays, bases, low, part);
    let end = low + part.len();
    if end < 64 * stays.len() && is_set(stays, end) {
        fill_run(edition, part, place, part.len());
    }
}

/// Slides all live objects down, around those that stay: the part of the words that begins at word 0 is all of them.
pub(crate) fn slide_around(
    edition: Edition,
    heads: &[u64],
    bits: &[u64],
    counts: &[u32],
    stays: &[u64],
    bases: &[u32],
    words: &mut [u64],
)
    requires tables { AreTables edition words.old heads.now bits.now counts.now }
    requires bases { AreBases bits.now stays.now bases.now }
    requires objects { (i : ℕ) → bit stays.now i ≡ true → bit heads.now i ≡ true }
    ensures { IsSlidAround (told edition words.old heads.now) (bit stays.now) words.new }
{
    slide_part(edition, heads, bits, stays, bases, 0, words);
}

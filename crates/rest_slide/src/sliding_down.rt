//! Slides live objects down, within the words in which they lie. No object moves up, so each word is read before
//! another one is written over it, if the words are taken from low to high.
ghost use Rattle.std.specs.Prelude.{◌≡◌, ℕ, ◌+◌, ◌-◌, ◌*◌, ◌<◌, ◌^◌, ◌≤◌, ◌⊎◌, ◌++◌, true, false, length, drop, slice_index};
ghost use Rattle.heap_layout.specs.Bits.{bit};
ghost use Rattle.heap_layout.specs.Heap.{live};
ghost use Rattle.heap_layout.specs.Values.{is_immediate};
ghost use Rattle.mark_tables.specs.MarkBitmap.{set_bits, AreOffsets};
ghost use Rattle.page_plan.specs.Sliding.{live_words};
ghost use Rattle.rest_marks.specs.Looking.{led_to, kept_by};
ghost use Rattle.rest_slide.specs.Settled.{settled_words};
ghost use Rattle.rest_marks.specs.Surveys.{told, AreTables};

use crate::staying::{dense_words, stay};
use heap_layout::Edition;
use rest_marks::{Shape, next_set, settled_reference, settled_weak, shape_of};

// Moves `count` references down, those from index `from` on to index `to`, and makes them lead to where their objects
// are after the collection.
#[inline(always)]
fn move_references(
    edition: Edition,
    bits: &[u64],
    counts: &[u32],
    words: &mut [u64],
    from: usize,
    to: usize,
    count: usize,
)
    requires offsets { AreOffsets bits.now counts.now }
    requires down { to ≤ from }
    requires inside { from + count ≤ length words.old }
    requires known { (k : ℕ) → k < count → is_immediate edition (slice_index words.old (from + k)) ≡ false → slice_index words.old (from + k) - 2 ^ 32 < 64 * length bits.now }
    ensures moved { (k : ℕ) → k < count → slice_index words.new (to + k) ≡ led_to edition (set_bits bits.now) (slice_index words.old (from + k)) }
    ensures before { (k : ℕ) → k < to → slice_index words.new k ≡ slice_index words.old k }
    ensures behind { (k : ℕ) → to + count ≤ k → slice_index words.new k ≡ slice_index words.old k }
    ensures length { length words.new ≡ length words.old }
{
    for k in 0..count {
        words[to + k] = settled_reference(edition, bits, counts, words[from + k]);
    }
}

// The same with weak words.
#[inline(always)]
fn move_weak(
    edition: Edition,
    heads: &[u64],
    bits: &[u64],
    counts: &[u32],
    words: &mut [u64],
    from: usize,
    to: usize,
    count: usize,
)
    requires offsets { AreOffsets bits.now counts.now }
    requires same { length heads.now ≡ length bits.now }
    requires down { to ≤ from }
    requires inside { from + count ≤ length words.old }
    ensures moved { (k : ℕ) → k < count → slice_index words.new (to + k) ≡ kept_by edition heads.now (set_bits bits.now) (slice_index words.old (from + k)) }
    ensures before { (k : ℕ) → k < to → slice_index words.new k ≡ slice_index words.old k }
    ensures behind { (k : ℕ) → to + count ≤ k → slice_index words.new k ≡ slice_index words.old k }
    ensures length { length words.new ≡ length words.old }
{
    for k in 0..count {
        words[to + k] = settled_weak(edition, heads, bits, counts, words[from + k]);
    }
}

// Moves `count` data words down, those from index `from` on to index `to`.
#[inline(always)]
fn move_data(words: &mut [u64], from: usize, to: usize, count: usize)
    requires down { to ≤ from }
    requires inside { from + count ≤ length words.old }
    ensures moved { (k : ℕ) → k < count → slice_index words.new (to + k) ≡ slice_index words.old (from + k) }
    ensures before { (k : ℕ) → k < to → slice_index words.new k ≡ slice_index words.old k }
    ensures behind { (k : ℕ) → to + count ≤ k → slice_index words.new k ≡ slice_index words.old k }
    ensures length { length words.new ≡ length words.old }
{
    // Of an object that stays the data words are there already.
    if to < from {
        words.copy_within(from..from + count, to);
    }
}

// Moves the header of an object and its `count` references down from index `start` to index `place`, the references as
// they are after the collection. All words below index `dense` are live.
#[inline(always)]
fn move_front(
    edition: Edition,
    bits: &[u64],
    counts: &[u32],
    words: &mut [u64],
    start: usize,
    place: usize,
    dense: usize,
    count: usize,
)
    requires offsets { AreOffsets bits.now counts.now }
    requires down { place ≤ start }
    requires inside { start + 1 + count ≤ length words.old }
    requires dense { (i : ℕ) → i < dense → bit bits.now i ≡ true }
    requires known { (k : ℕ) → k < count → is_immediate edition (slice_index words.old (start + 1 + k)) ≡ false → slice_index words.old (start + 1 + k) - 2 ^ 32 < 64 * length bits.now }
    requires addresses { (k : ℕ) → k < count → is_immediate edition (slice_index words.old (start + 1 + k)) ≡ false → (slice_index words.old (start + 1 + k) ≡ 0) ⊎ (2 ^ 32 ≤ slice_index words.old (start + 1 + k)) }
    ensures header { slice_index words.new place ≡ slice_index words.old start }
    ensures references { (k : ℕ) → k < count → slice_index words.new (place + 1 + k) ≡ led_to edition (set_bits bits.now) (slice_index words.old (start + 1 + k)) }
    ensures before { (k : ℕ) → k < place → slice_index words.new k ≡ slice_index words.old k }
    ensures behind { (k : ℕ) → place + 1 + count ≤ k → slice_index words.new k ≡ slice_index words.old k }
    ensures length { length words.new ≡ length words.old }
{
    if place == start {
        // The header is there already.
        stay(edition, bits, counts, words, start + 1, count, dense);
        return;
    }
    words[place] = words[start];
    move_references(edition, bits, counts, words, start + 1, place + 1, count);
}

// Moves an object of this shape down from index `start` to index `place`, with its references and weak words as they
// are after the collection. All words below index `dense` are live.
#[inline(always)]
fn slide_down_object(
    edition: Edition,
    heads: &[u64],
    bits: &[u64],
    counts: &[u32],
    words: &mut [u64],
    start: usize,
    place: usize,
    dense: usize,
    shape: Shape,
)
    requires offsets { AreOffsets bits.now counts.now }
    requires same { length heads.now ≡ length bits.now }
    requires down { place ≤ start }
    requires inside { start + shape.size ≤ length words.old }
    requires size { 1 + shape.refs + shape.weak ≤ shape.size }
    requires dense { (i : ℕ) → i < dense → bit bits.now i ≡ true }
    requires known { (k : ℕ) → k < shape.refs → is_immediate edition (slice_index words.old (start + 1 + k)) ≡ false → slice_index words.old (start + 1 + k) - 2 ^ 32 < 64 * length bits.now }
    requires addresses { (k : ℕ) → k < shape.refs → is_immediate edition (slice_index words.old (start + 1 + k)) ≡ false → (slice_index words.old (start + 1 + k) ≡ 0) ⊎ (2 ^ 32 ≤ slice_index words.old (start + 1 + k)) }
    ensures header { slice_index words.new place ≡ slice_index words.old start }
    ensures references { (k : ℕ) → k < shape.refs → slice_index words.new (place + 1 + k) ≡ led_to edition (set_bits bits.now) (slice_index words.old (start + 1 + k)) }
    ensures weak { (k : ℕ) → k < shape.weak → slice_index words.new (place + 1 + shape.refs + k) ≡ kept_by edition heads.now (set_bits bits.now) (slice_index words.old (start + 1 + shape.refs + k)) }
    ensures data { (k : ℕ) → 1 + shape.refs + shape.weak ≤ k → k < shape.size → slice_index words.new (place + k) ≡ slice_index words.old (start + k) }
    ensures before { (k : ℕ) → k < place → slice_index words.new k ≡ slice_index words.old k }
    ensures behind { (k : ℕ) → place + shape.size ≤ k → slice_index words.new k ≡ slice_index words.old k }
    ensures length { length words.new ≡ length words.old }
{
    let weak = 1 + shape.refs;
    let data = weak + shape.weak;
    move_front(
        edition, bits, counts, words, start, place, dense, shape.refs,
    );
    move_weak(
        edition,
        heads,
        bits,
        counts,
        words,
        start + weak,
        place + weak,
        shape.weak,
    );
    move_data(words, start + data, place + data, shape.size - data);
}

/// Slides the live objects down: the first one to index 0, each behind the one before. The words behind them stay as
/// they are.
pub fn slide_down(edition: Edition, heads: &[u64], bits: &[u64], counts: &[u32], words: &mut [u64])
    requires tables { AreTables edition words.old heads.now bits.now counts.now }
    ensures { words.new ≡ settled_words (live (told edition words.old heads.now)) ++ drop (live_words (live (told edition words.old heads.now))) words.old }
{
    // Each arm is compiled for its edition.
    match edition {
        Edition::One => slide_down_all(edition, heads, bits, counts, words),
        Edition::Two => slide_down_all(edition, heads, bits, counts, words),
        Edition::Three => slide_down_all(edition, heads, bits, counts, words),
        Edition::Four => slide_down_all(edition, heads, bits, counts, words),
    }
}

// The same, compiled into its caller.
#[inline(always)]
fn slide_down_all(edition: Edition, heads: &[u64], bits: &[u64], counts: &[u32], words: &mut [u64])
    requires tables { AreTables edition words.old heads.now bits.now counts.now }
    ensures { words.new ≡ settled_words (live (told edition words.old heads.now)) ++ drop (live_words (live (told edition words.old heads.now))) words.old }
{
    let live = counts[bits.len()] as usize;
    let dense = dense_words(bits);
    let mut next = 0;
    let mut place = 0;
    while place < live {
        let start = next_set(heads, next);
        let shape = shape_of(edition, words[start]);
        slide_down_object(
            edition, heads, bits, counts, words, start, place, dense, shape,
        );
        place += shape.size;
        next = start + shape.size;
    }
}

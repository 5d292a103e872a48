//! Slides live objects down, within the words in which they lie. No object moves up, so each word is read before
//! another one is written over it, if the words are taken from low to high.
ghost use Rattle.std.specs.Prelude.{◌≡◌, ℕ, ◌+◌, ◌-◌, ◌*◌, ◌<◌, ◌^◌, ◌≤◌, false, length, slice_index};
ghost use Rattle.heap_layout.specs.Values.{is_immediate};
ghost use Rattle.mark_tables.specs.MarkBitmap.{set_bits, AreOffsets};
ghost use Rattle.rest_marks.specs.Looking.{led_to, kept_by};

use crate::forwarding::{settled_reference, settled_weak};
use crate::shape::Shape;
use heap_layout::Edition;

// Moves `count` references down, those from index `from` on to index `to`, and makes them lead to where their objects
// are after the collection.
#[inline(always)]
fn move_references(
    edition: Edition,
    bits: &[u64],
    counts: &[u32],
    words: &mut [u64],
    from: usize,
    to: usize,
    count: usize,
)
    requires offsets { AreOffsets bits.now counts.now }
    requires down { to ≤ from }
    requires inside { from + count ≤ length words.old }
    requires known { (k : ℕ) → k < count → is_immediate edition (slice_index words.old (from + k)) ≡ false
        → slice_index words.old (from + k) - 2 ^ 32 < 64 * length bits.now }
    ensures moved { (k : ℕ) → k < count → slice_index words.new (to + k)
        ≡ led_to edition (set_bits bits.now) (slice_index words.old (from + k)) }
    ensures before { (k : ℕ) → k < to → slice_index words.new k ≡ slice_index words.old k }
    ensures behind { (k : ℕ) → to + count ≤ k → slice_index words.new k ≡ slice_index words.old k }
    ensures length { length words.new ≡ length words.old }
{
    for k in 0..count {
        words[to + k] = settled_reference(edition, bits, counts, words[from + k]);
    }
}

// The same with weak words.
#[inline(always)]
fn move_weak(
    edition: Edition,
    heads: &[u64],
    bits: &[u64],
    counts: &[u32],
    words: &mut [u64],
    from: usize,
    to: usize,
    count: usize,
)
    requires offsets { AreOffsets bits.now counts.now }
    requires same { length heads.now ≡ length bits.now }
    requires down { to ≤ from }
    requires inside { from + count ≤ length words.old }
    ensures moved { (k : ℕ) → k < count → slice_index words.new (to + k)
        ≡ kept_by edition heads.now (set_bits bits.now) (slice_index words.old (from + k)) }
    ensures before { (k : ℕ) → k < to → slice_index words.new k ≡ slice_index words.old k }
    ensures behind { (k : ℕ) → to + count ≤ k → slice_index words.new k ≡ slice_index words.old k }
    ensures length { length words.new ≡ length words.old }
{
    for k in 0..count {
        words[to + k] = settled_weak(edition, heads, bits, counts, words[from + k]);
    }
}

// Moves `count` data words down, those from index `from` on to index `to`.
#[inline(always)]
fn move_data(words: &mut [u64], from: usize, to: usize, count: usize)
    requires down { to ≤ from }
    requires inside { from + count ≤ length words.old }
    ensures moved { (k : ℕ) → k < count → slice_index words.new (to + k) ≡ slice_index words.old (from + k) }
    ensures before { (k : ℕ) → k < to → slice_index words.new k ≡ slice_index words.old k }
    ensures behind { (k : ℕ) → to + count ≤ k → slice_index words.new k ≡ slice_index words.old k }
    ensures length { length words.new ≡ length words.old }
{
    // Of an object that stays the data words are there already.
    if to < from {
        words.copy_within(from..from + count, to);
    }
}

// Moves an object of this shape down from index `start` to index `place`, with its references and weak words as they
// are after the collection.
#[inline(always)]
pub(crate) fn slide_down_object(
    edition: Edition,
    heads: &[u64],
    bits: &[u64],
    counts: &[u32],
    words: &mut [u64],
    start: usize,
    place: usize,
    shape: Shape,
)
    requires offsets { AreOffsets bits.now counts.now }
    requires same { length heads.now ≡ length bits.now }
    requires down { place ≤ start }
    requires inside { start + shape.size ≤ length words.old }
    requires size { 1 + shape.refs + shape.weak ≤ shape.size }
    requires known { (k : ℕ) → k < shape.refs → is_immediate edition (slice_index words.old (start + 1 + k)) ≡ false
        → slice_index words.old (start + 1 + k) - 2 ^ 32 < 64 * length bits.now }
    ensures header { slice_index words.new place ≡ slice_index words.old start }
    ensures references { (k : ℕ) → k < shape.refs → slice_index words.new (place + 1 + k)
        ≡ led_to edition (set_bits bits.now) (slice_index words.old (start + 1 + k)) }
    ensures weak { (k : ℕ) → k < shape.weak → slice_index words.new (place + 1 + shape.refs + k)
        ≡ kept_by edition heads.now (set_bits bits.now) (slice_index words.old (start + 1 + shape.refs + k)) }
    ensures data { (k : ℕ) → 1 + shape.refs + shape.weak ≤ k → k < shape.size
        → slice_index words.new (place + k) ≡ slice_index words.old (start + k) }
    ensures before { (k : ℕ) → k < place → slice_index words.new k ≡ slice_index words.old k }
    ensures behind { (k : ℕ) → place + shape.size ≤ k → slice_index words.new k ≡ slice_index words.old k }
    ensures length { length words.new ≡ length words.old }
{
    words[place] = words[start];
    let refs = 1;
    let weak = refs + shape.refs;
    let data = weak + shape.weak;
    move_references(
        edition,
        bits,
        counts,
        words,
        start + refs,
        place + refs,
        shape.refs,
    );
    move_weak(
        edition,
        heads,
        bits,
        counts,
        words,
        start + weak,
        place + weak,
        shape.weak,
    );
    move_data(words, start + data, place + data, shape.size - data);
}

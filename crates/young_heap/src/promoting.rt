//! The tables after a collection: all objects that live are old then.
ghost use Rattle.std.specs.Prelude.{◌≡◌, ℕ, ◌+◌, ◌*◌, ◌/◌, ◌^◌, ◌<◌, ◌≤◌, true, false, length, min, slice_index};
ghost use Rattle.std.specs.Int.{bit_at};
ghost use Rattle.heap_layout.specs.Bits.{bit};
ghost use Rattle.heap_layout.specs.Header.{size_of};
ghost use Rattle.heap_layout.specs.Heap.{header_at};
ghost use Rattle.mark_tables.specs.MarkBitmap.{AreOffsets};
ghost use Rattle.young_heap.specs.Rows.{IsInRow};
ghost use Rattle.young_heap.specs.Young.{AreKeptBelow};

use crate::bits::{mask, take_run};
use crate::recounting::recount;
use crate::shape::shape_of;
use heap_layout::{Edition, set};

// The first `s` bits of a block.
fn low_part(block: u64, s: usize) -> u64
    requires { s < 64 }
    ensures below { (k : ℕ) → k < s → bit_at result k ≡ bit_at block k }
    ensures above { (k : ℕ) → s ≤ k → bit_at result k ≡ 0 }
{
    if s == 0 {
        return 0;
    }
    block & mask(0, s)
}

// Clears the bits of this block from its bit `s` on.
fn clear_block(bits: &mut [u64], b: usize, s: usize)
    requires few { length bits.old ≤ 2 ^ 25 }
    requires known { b < length bits.old }
    requires low { s < 64 }
    ensures before { (i : ℕ) → i < 64 * b + s → bit bits.new i ≡ bit bits.old i }
    ensures cleared { (i : ℕ) → 64 * b + s ≤ i → i < 64 * (b + 1) → bit bits.new i ≡ false }
    ensures length { length bits.new ≡ length bits.old }
{
    bits[b] = low_part(bits[b], s);
}

/// Clears the bits from bit `old` on.
pub(crate) fn clear_from(bits: &mut [u64], old: usize)
    requires few { length bits.old ≤ 2 ^ 25 }
    ensures below { AreKeptBelow old bits.old bits.new }
    ensures none { (i : ℕ) → old ≤ i → bit bits.new i ≡ false }
    ensures length { length bits.new ≡ length bits.old }
{
    let first = old / 64;
    if first >= bits.len() {
        return;
    }
    clear_block(bits, first, old % 64);
    for k in first + 1..bits.len() {
        clear_block(bits, k, 0);
    }
}

// Where the object at index `i` ends, or `live`, if it ends behind it.
fn end_of(edition: Edition, words: &[u64], i: usize, live: usize) -> usize
    requires few { length words.now ≤ 2 ^ 31 }
    requires low { i < live }
    requires inside { live ≤ length words.now }
    ensures end { result ≡ min (i + size_of (header_at edition words.now i)) live }
    ensures up { i < result }
{
    let size = shape_of(edition, words[i]).size;
    if size >= live - i {
        return live;
    }
    i + size
}

// Sets the bits of the starts of the objects that stand from index `old` up to `live`, and no others from there on.
fn mark_starts(edition: Edition, words: &[u64], old: usize, live: usize, heads: &mut [u64])
    requires few { length words.now ≤ 2 ^ 31 }
    requires few_bits { length heads.old ≤ 2 ^ 25 }
    requires inside { live ≤ length words.now }
    requires room { length words.now ≤ 64 * length heads.old }
    ensures below { AreKeptBelow old heads.old heads.new }
    ensures starts { (j : ℕ) → old ≤ j → bit heads.new j ≡ true → IsInRow edition words.now live old j }
    ensures all { (j : ℕ) → IsInRow edition words.now live old j → bit heads.new j ≡ true }
    ensures length { length heads.new ≡ length heads.old }
{
    clear_from(heads, old);
    let mut i = old;
    while i < live {
        set(heads, i);
        i = end_of(edition, words, i, live);
    }
}

/// Makes the tables of the watermark `live` out of those of the watermark `old`: in `heads` the bits of the objects
/// that stand from `old` up to `live`, and none behind; in `bits` all below `live`, and none behind; `counts` has the
/// bits before each block, and last those of all. Below `old` the tables are right before, and stay; what they have
/// from there on is not asked. So out of tables of zeros it makes those of a heap of `live` words, with `old` 0.
///
/// It reads the headers of the objects between. They are meant to end at `live`, as they do after a collection; one
/// that ends behind is cut there.
pub fn promote(
    edition: Edition,
    words: &[u64],
    old: usize,
    live: usize,
    heads: &mut [u64],
    bits: &mut [u64],
    counts: &mut [u32],
)
    requires few { length words.now ≤ 2 ^ 31 }
    requires few_bits { length heads.old ≤ 2 ^ 25 }
    requires order { old ≤ live }
    requires inside { live ≤ length words.now }
    requires room { length words.now ≤ 64 * length heads.old }
    requires long { length bits.old ≡ length heads.old }
    requires counts_long { length counts.old ≡ length bits.old + 1 }
    requires ones { (i : ℕ) → i < old → bit bits.old i ≡ true }
    requires offsets { (b : ℕ) → b ≤ old / 64 → slice_index counts.old b ≡ 64 * b }
    ensures below { AreKeptBelow old heads.old heads.new }
    ensures starts { (j : ℕ) → old ≤ j → bit heads.new j ≡ true → IsInRow edition words.now live old j }
    ensures all { (j : ℕ) → IsInRow edition words.now live old j → bit heads.new j ≡ true }
    ensures no_heads { (i : ℕ) → live ≤ i → bit heads.new i ≡ false }
    ensures ones { (i : ℕ) → i < live → bit bits.new i ≡ true }
    ensures no_bits { (i : ℕ) → live ≤ i → bit bits.new i ≡ false }
    ensures offsets { (b : ℕ) → b ≤ live / 64 → slice_index counts.new b ≡ 64 * b }
    ensures counts { AreOffsets bits.new counts.new }
    ensures heads_long { length heads.new ≡ length heads.old }
    ensures bits_long { length bits.new ≡ length bits.old }
    ensures counts_long { length counts.new ≡ length counts.old }
{
    mark_starts(edition, words, old, live, heads);
    clear_from(bits, old);
    // No bit is set there, so it takes them all.
    let _ = take_run(bits, old, live - old);
    recount(bits, counts, old / 64);
}

/// Makes the tables of the watermark `live` as `promote` does, but those of these words alone, whatever room they have:
/// of what is behind the words nothing is said.
pub(crate) fn promote_within(
    edition: Edition,
    words: &[u64],
    old: usize,
    live: usize,
    heads: &mut [u64],
    bits: &mut [u64],
    counts: &mut [u32],
)
    requires few { length words.now ≤ 2 ^ 31 }
    requires few_bits { length heads.old ≤ 2 ^ 25 }
    requires order { old ≤ live }
    requires inside { live ≤ length words.now }
    requires room { length words.now ≤ 64 * length heads.old }
    requires long { length bits.old ≡ length heads.old }
    requires counts_long { length counts.old ≡ length bits.old + 1 }
    requires ones { (i : ℕ) → i < old → bit bits.old i ≡ true }
    requires offsets { (b : ℕ) → b ≤ old / 64 → slice_index counts.old b ≡ 64 * b }
    ensures below { AreKeptBelow old heads.old heads.new }
    ensures starts { (j : ℕ) → old ≤ j → j < live → bit heads.new j ≡ true → IsInRow edition words.now live old j }
    ensures all { (j : ℕ) → IsInRow edition words.now live old j → bit heads.new j ≡ true }
    ensures ones { (i : ℕ) → i < live → bit bits.new i ≡ true }
    ensures offsets { (b : ℕ) → b ≤ live / 64 → slice_index counts.new b ≡ 64 * b }
    ensures heads_long { length heads.new ≡ length heads.old }
    ensures bits_long { length bits.new ≡ length bits.old }
    ensures counts_long { length counts.new ≡ length counts.old }
{
    let blocks = words.len().div_ceil(64);
    promote(
        edition,
        words,
        old,
        live,
        &mut heads[..blocks],
        &mut bits[..blocks],
        &mut counts[..blocks + 1],
    );
}

/// Makes `bits` those of the watermark `old`, all below it, and `counts` theirs, and leaves what is behind. Unlike
/// `promote` it reads no header.
pub(crate) fn set_below(bits: &mut [u64], counts: &mut [u32], old: usize)
    requires few_bits { length bits.old ≤ 2 ^ 25 }
    requires room { old ≤ 64 * length bits.old }
    requires counts_long { length counts.old ≡ length bits.old + 1 }
    requires first { slice_index counts.old 0 ≡ 0 }
    ensures ones { (i : ℕ) → i < old → bit bits.new i ≡ true }
    ensures offsets { (b : ℕ) → b ≤ old / 64 → slice_index counts.new b ≡ 64 * b }
    ensures bits_long { length bits.new ≡ length bits.old }
    ensures counts_long { length counts.new ≡ length counts.old }
{
    // What is behind the watermark is not asked.
    let blocks = old.div_ceil(64);
    let bits = &mut bits[..blocks];
    clear_from(bits, 0);
    // No bit is set, so it takes them all.
    let _ = take_run(bits, 0, old);
    recount(bits, &mut counts[..blocks + 1], 0);
}

//! The bits of all live words, by the bits of their objects' first words. Several threads set them, each those of a
//! part.
ghost use Rattle.std.specs.Prelude.{◌≡◌, ℕ, ◌+◌, ◌*◌, ◌^◌, ◌<◌, ◌≤◌, ◌⊎◌, true, false, length, slice_index};
ghost use Rattle.heap_layout.specs.Bits.{bit};
ghost use Rattle.heap_layout.specs.Heap.{IsPlaced};
ghost use Rattle.rest_marks.specs.Kept.{AreKeptIn};
ghost use Rattle.rest_marks.specs.LiveBits.{AreLiveTo, IsLiveBlock};
ghost use Rattle.rest_marks.specs.Reached.{IsWordOf};

use crate::bit_search::next_set;
use crate::bits::take_run;
use crate::shape::shape_of;
use heap_layout::{Edition, is_set};
use std::thread;
use std::thread::Threads;

// Clears all bits.
fn clear(bits: &mut [u64])
    ensures length { length bits.new ≡ length bits.old }
    ensures none { (n : ℕ) → bit bits.new n ≡ false }
{
    bits.fill(0);
}

// A bit that is set, or the first bit, at or below bit `from`: mostly the last below it.
fn head_before(bits: &[u64], from: usize) -> usize
    requires few { length bits.now ≤ 2 ^ 25 }
    requires known { from ≤ 64 * length bits.now }
    ensures below { result ≤ from }
    ensures here { 0 < result → bit bits.now result ≡ true }
{
    if from == 0 {
        return 0;
    }
    let mut i = from - 1;
    while i > 0 && !is_set(bits, i) {
        if bits[i / 64] == 0 {
            i -= i % 64;
        }
        i = i.saturating_sub(1);
    }
    i
}

// Sets the bits of the words of the object at index `i`, as far as they lie in the part that begins at word `base`.
#[inline(always)]
fn take_live(edition: Edition, words: &[u64], base: usize, part: &mut [u64], i: usize)
    requires few { length words.now ≤ 2 ^ 31 }
    requires few_bits { length part.old ≤ 2 ^ 25 }
    requires near { base ≤ 2 ^ 31 }
    requires placed { IsPlaced edition words.now i }
    requires free { (n : ℕ) → IsWordOf edition words.now i (base + n) → bit part.old n ≡ false }
    ensures inside { (n : ℕ) → n < 64 * length part.new → IsWordOf edition words.now i (base + n) → bit part.new n ≡ true }
    ensures stay { (n : ℕ) → bit part.old n ≡ true → bit part.new n ≡ true }
    ensures only { (n : ℕ) → bit part.new n ≡ true → (bit part.old n ≡ true) ⊎ IsWordOf edition words.now i (base + n) }
    ensures length { length part.new ≡ length part.old }
{
    let size = shape_of(edition, words[i]).size;
    let from = i.max(base);
    let end = (i + size).min(base + 64 * part.len());
    if from >= end {
        return;
    }
    // None of these is set.
    let _ = take_run(part, from - base, end - from);
}

// Sets the bits of a part that begins at block `start`.
fn fill_part(edition: Edition, words: &[u64], heads: &[u64], start: usize, part: &mut [u64])
    requires few { length words.now ≤ 2 ^ 31 }
    requires few_bits { length heads.now ≤ 2 ^ 25 }
    requires within { start + length part.old ≤ length heads.now }
    requires kept { AreKeptIn edition words.now heads.now 0 (64 * length heads.now) }
    ensures live { AreLiveTo edition words.now heads.now (64 * start) (64 * (start + length part.new)) part.new }
    ensures length { length part.new ≡ length part.old }
{
    clear(part);
    let base = 64 * start;
    let limit = base + 64 * part.len();
    let mut next = head_before(heads, base);
    while next < limit {
        let i = next_set(heads, next);
        if i >= limit {
            return;
        }
        take_live(edition, words, base, part, i);
        next = i + 1;
    }
}

// The same, block by block.
fn fill_at(edition: Edition, words: &[u64], heads: &[u64], start: usize, part: &mut [u64])
    requires few { length words.now ≤ 2 ^ 31 }
    requires few_bits { length heads.now ≤ 2 ^ 25 }
    requires within { start + length part.old ≤ length heads.now }
    requires kept { AreKeptIn edition words.now heads.now 0 (64 * length heads.now) }
    ensures live { (k : ℕ) → k < length part.old → IsLiveBlock edition words.now heads.now (start + k) (slice_index part.new k) }
    ensures length { length part.new ≡ length part.old }
{
    fill_part(edition, words, heads, start, part);
}

/// Sets the bits of the words of all marked objects, in so many threads. What was in `bits` before is dropped.
pub(crate) fn fill_by_threads<R: Threads + Sync>(
    rt: &R,
    workers: usize,
    edition: Edition,
    words: &[u64],
    heads: &[u64],
    bits: &mut [u64],
)
    requires workers { 0 < workers }
    requires few { length words.now ≤ 2 ^ 31 }
    requires few_bits { length heads.now ≤ 2 ^ 25 }
    requires long { length bits.old ≡ length heads.now }
    requires kept { AreKeptIn edition words.now heads.now 0 (64 * length heads.now) }
    ensures live { (b : ℕ) → b < length bits.new → IsLiveBlock edition words.now heads.now b (slice_index bits.new b) }
    ensures length { length bits.new ≡ length bits.old }
{
    let size = bits.len() / workers + 1;
    thread::for_each_chunk_mut(
        rt,
        bits,
        size,
        &|start, part| { fill_at(edition, words, heads, start, part) },
    );
}

//! Finds live objects by the bits of their first words.
ghost use Rattle.std.specs.Prelude.{◌≡◌, ◌-◌, ◌*◌, ◌<◌, ◌^◌, ◌≤◌, ◌+◌, ◌&&◌, ℕ, true, false, nat_le, length, slice_index};
ghost use Rattle.heap_layout.specs.Bits.{bit};
ghost use Rattle.mark_tables.specs.MarkBitmap.{set_bits, AreOffsets};
ghost use Rattle.mark_tables.specs.LiveWords.{live_below};
ghost use Rattle.rest_marks.specs.Starts.{AreStarts};

use crate::forwarding::below;
use heap_layout::is_set;

/// The first bit from `i` on that is set; the number of all bits if there is none.
#[inline(always)]
pub fn next_set(bits: &[u64], i: usize) -> usize
    requires few { length bits.now ≤ 2 ^ 25 }
    requires known { i < 64 * length bits.now }
    ensures from { i ≤ result }
    ensures within { result ≤ 64 * length bits.now }
    ensures none { (j : ℕ) → i ≤ j → j < result → bit bits.now j ≡ false }
    ensures here { result < 64 * length bits.now → bit bits.now result ≡ true }
{
    let rest = bits[i / 64] >> (i % 64);
    if rest != 0 {
        return i + rest.trailing_zeros() as usize;
    }
    let mut b = i / 64 + 1;
    while b < bits.len() {
        let block = bits[b];
        if block != 0 {
            return 64 * b + block.trailing_zeros() as usize;
        }
        b += 1;
    }
    64 * bits.len()
}

// The block of bits in which the number of set bits passes `n`.
fn block_of(counts: &[u32], n: u64) -> usize
    requires some { 1 < length counts.now }
    requires few { length counts.now ≤ 2 ^ 26 }
    requires first { slice_index counts.now 0 ≤ n }
    requires last { n < slice_index counts.now (length counts.now - 1) }
    ensures known { result + 1 < length counts.now }
    ensures below { slice_index counts.now result ≤ n }
    ensures above { n < slice_index counts.now (result + 1) }
{
    let mut low = 0;
    let mut high = counts.len() - 1;
    while low + 1 < high {
        let middle = low + (high - low) / 2;
        if u64::from(counts[middle]) <= n {
            low = middle;
        } else {
            high = middle;
        }
    }
    low
}

// Whether bit `i` of `heads` is set, and at most `n` bits are set below bit `i` of `bits`.
#[inline(always)]
fn is_at_most(heads: &[u64], bits: &[u64], counts: &[u32], n: u64, i: usize) -> bool
    requires offsets { AreOffsets bits.now counts.now }
    requires same { length heads.now ≡ length bits.now }
    requires known { i < 64 * length bits.now }
    ensures { result ≡ (bit heads.now i && nat_le (live_below (set_bits bits.now) i) n) }
{
    is_set(heads, i) && below(bits, counts, i) <= n
}

/// The last bit of `heads` that is set, and below which at most `n` bits of `bits` are set. There must be one, and more
/// than `n` bits of `bits` must be set. It finds the block by bisection, and looks at no other block.
pub fn last_head(heads: &[u64], bits: &[u64], counts: &[u32], starts: &[u32], n: u64) -> usize
    requires offsets { AreOffsets bits.now counts.now }
    requires starts { AreStarts heads.now starts.now }
    requires same { length heads.now ≡ length bits.now }
    requires some { (i : ℕ) × (bit heads.now i ≡ true) × (live_below (set_bits bits.now) i ≤ n) }
    requires more { n < length (set_bits bits.now) }
    ensures known { result < 64 * length heads.now }
    ensures here { bit heads.now result ≡ true }
    ensures below { live_below (set_bits bits.now) result ≤ n }
    ensures last { (j : ℕ) → result < j → bit heads.now j ≡ true → n < live_below (set_bits bits.now) j }
{
    let b = block_of(counts, n);
    let first = 64 * b;
    let before = starts[b] as usize;
    if heads[b] == 0 {
        return before;
    }
    let mut i = first + 64;
    while i > first {
        i -= 1;
        if is_at_most(heads, bits, counts, n, i) {
            return i;
        }
    }
    before
}

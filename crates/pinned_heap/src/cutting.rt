//! Finds where to cut words into parts that slide independently: at the starts of objects that stay.
ghost use Rattle.std.specs.Prelude.{◌≡◌, ℕ, ◌+◌, ◌*◌, ◌<◌, ◌^◌, ◌≤◌, true, false, length, slice_index, IfNone, IfSome};
ghost use Rattle.heap_layout.specs.Bits.{bit};
ghost use Rattle.mark_tables.specs.MarkBitmap.{AreOffsets};

use heap_layout::is_set;
use stopped_heap::next_set;

// The last of the blocks from `from` to `to` below which at most `wanted` words are live; `from` if none is.
fn block_of(counts: &[u32], from: usize, to: usize, wanted: u64) -> usize
    requires order { from ≤ to }
    requires known { to < length counts.now }
    requires few { length counts.now ≤ 2 ^ 26 }
    ensures from { from ≤ result }
    ensures to { result ≤ to }
    ensures below { from < result → slice_index counts.now result ≤ wanted }
    ensures above { result < to → wanted < slice_index counts.now (result + 1) }
{
    let mut low = from;
    let mut high = to + 1;
    while low + 1 < high {
        let middle = low + (high - low) / 2;
        if u64::from(counts[middle]) <= wanted {
            low = middle;
        } else {
            high = middle;
        }
    }
    low
}

// A word of those from `low` on, up to `high`: below it are about so many of `threads` equal shares of the live words
// among them.
fn middle_of(counts: &[u32], low: usize, high: usize, share: usize, threads: usize) -> usize
    requires few { length counts.now ≤ 2 ^ 26 }
    requires order { low < high }
    requires known { high < 64 * length counts.now }
    requires shares { share < threads }
    requires small { threads ≤ 64 }
    ensures from { low < result }
    ensures to { result ≤ high }
{
    let from = low / 64;
    let to = high / 64;
    let before = u64::from(counts[from]);
    let live = u64::from(counts[to]).saturating_sub(before);
    let wanted = before + live * share as u64 / threads as u64;
    let block = block_of(counts, from, to, wanted);
    (64 * block).max(low + 1)
}

// The last bit that is set behind bit `low` and before bit `end`.
fn last_between(bits: &[u64], low: usize, end: usize) -> Option<usize>
    requires few { length bits.now ≤ 2 ^ 25 }
    requires order { low < end }
    requires known { end ≤ 64 * length bits.now }
    ensures inside { IfSome result (λ i. (low < i) × (i < end) × (bit bits.now i ≡ true)) }
    ensures none { IfNone result ((i : ℕ) → low < i → i < end → bit bits.now i ≡ false) }
{
    let mut next = end;
    while low + 1 < next {
        let i = next - 1;
        if is_set(bits, i) {
            return Some(i);
        }
        next = if bits[i / 64] == 0 { i - i % 64 } else { i };
    }
    None
}

/// An object that stays and starts behind word `low` and before word `high`: the first from word `middle` on, or else
/// the last before it. None only if there is none.
pub(crate) fn cut_near(stays: &[u64], low: usize, middle: usize, high: usize) -> Option<usize>
    requires few { length stays.now ≤ 2 ^ 25 }
    requires order { low < middle }
    requires under { middle ≤ high }
    requires known { high ≤ 64 * length stays.now }
    ensures inside { IfSome result (λ i. (low < i) × (i < high) × (bit stays.now i ≡ true)) }
    ensures none { IfNone result ((i : ℕ) → low < i → i < high → bit stays.now i ≡ false) }
{
    if middle < high {
        let next = next_set(stays, middle);
        if next < high {
            return Some(next);
        }
    }
    last_between(stays, low, middle)
}

/// Where to cut the words from `low` on, up to `high`, into two parts for these threads: at an object that stays, near
/// the middle of the live words. None for fewer than two threads, and where no object stays behind word `low`.
pub(crate) fn cut_of(
    counts: &[u32],
    stays: &[u64],
    low: usize,
    high: usize,
    threads: usize,
) -> Option<usize>
    requires few { length stays.now ≤ 2 ^ 25 }
    requires long { length counts.now ≡ length stays.now + 1 }
    requires small { threads ≤ 64 }
    requires order { low ≤ high }
    ensures inside { IfSome result (λ i. (low < i) × (i < high) × (bit stays.now i ≡ true)) }
    ensures many { IfSome result (λ _. 1 < threads) }
    ensures none { IfNone result (1 < threads → (i : ℕ) → low < i → i < high → bit stays.now i ≡ false) }
{
    let end = high.min(64 * stays.len());
    if threads < 2 || low >= end {
        return None;
    }
    cut_near(
        stays,
        low,
        middle_of(counts, low, end, threads / 2, threads),
        end,
    )
}

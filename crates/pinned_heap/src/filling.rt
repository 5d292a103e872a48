//! Fills runs of free words with objects that nobody looks at.
ghost use Rattle.std.specs.Prelude.{◌≡◌, ℕ, ◌<◌, ◌^◌, ◌≤◌, length, slice_index};
ghost use Rattle.pinned_heap.specs.Around.{IsFilled};

use heap_layout::Edition;

/// Fills the words from index `start` on, up to index `end`: with zeros in editions one and two, where each is an
/// object, and else with one header of an object that has them all. It does nothing if there are none.
pub(crate) fn fill_run(edition: Edition, words: &mut [u64], start: usize, end: usize)
    requires order { start ≤ end }
    requires inside { end ≤ length words.old }
    requires few { length words.old ≤ 2 ^ 31 }
    ensures filled { start < end → IsFilled edition words.new (record { start = start; end = end }) }
    ensures before { (k : ℕ) → k < start → slice_index words.new k ≡ slice_index words.old k }
    ensures behind { (k : ℕ) → end ≤ k → slice_index words.new k ≡ slice_index words.old k }
    ensures length { length words.new ≡ length words.old }
{
    if start == end {
        return;
    }
    match edition {
        Edition::One | Edition::Two => words[start..end].fill(0),
        Edition::Three | Edition::Four => words[start] = (1 << 63) + (end - start - 1) as u64,
    }
}

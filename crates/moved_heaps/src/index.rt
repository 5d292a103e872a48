//! The index of the marked objects: which number the object at a from-space index has.
ghost use Rattle.std.specs.Prelude.{◌≡◌, ◌≢◌, ◌+◌, ◌*◌, ◌<◌, ◌≤◌, ◌^◌, ℕ, length, slice_index, IfOk, MatchOption};
ghost use Rattle.mark_tables.specs.MarkBitmap.{set_bits, AreOffsets};

use heap_layout::{MarkedHeap, is_set, set};
use std::alloc::{AllocError, Global};
use std::marker::Model;

/// At which from-space indices marked objects start, as one bit for each word, and how many bits are set before each
/// block of 64. It answers in constant time.
#[derive(Drop)]
pub(crate) struct Index {
    bits: Vec<u64>,
    below: Vec<u32>,
}

impl Model for Index {
    ghost use Rattle.std.specs.Prelude.{ℕ, List};
    ghost use Rattle.mark_tables.specs.MarkBitmap.{set_bits, AreOffsets};

    ghost Value = { List ℕ };

    ghost view = { λ index. set_bits index.bits.items };

    ghost invariant = { λ index. AreOffsets index.bits.items index.below.items };
}

impl Index {
    /// The index of the marked objects of this heap.
    pub(crate) fn new(alloc: Global, heap: &MarkedHeap) -> Result<Index, AllocError>
        ensures { IfOk result (λ index. index ≡ heap.now.marks) }
    {
        let bits = starts(alloc, heap)?;
        let below = counts(alloc, &bits)?;
        Ok(Index { bits, below })
    }

    /// The number of the marked object that starts at from-space index `i`. None if none does.
    pub(crate) fn number_at(&self, i: u64) -> Option<usize>
        ensures { MatchOption result ((k : ℕ) → k < length self.now → slice_index self.now k ≢ i) (λ k. (k < length self.now) × (slice_index self.now k ≡ i)) }
    {
        if i >= 64 * self.bits.len() as u64 || !is_set(&self.bits, i as usize) {
            return None;
        }
        let block = (i / 64) as usize;
        let below = self.bits[block] & ((1 << (i % 64)) - 1);
        Some((self.below[block] + below.count_ones()) as usize)
    }
}

// A bit for each from-space word, set if a marked object starts there.
fn starts(alloc: Global, heap: &MarkedHeap) -> Result<Vec<u64>, AllocError>
    ensures starts { IfOk result (λ bits. set_bits bits.items ≡ heap.now.marks) }
    ensures few { IfOk result (λ bits. length bits.items ≤ 2 ^ 25) }
{
    let mut bits = vec![in alloc; 0; heap.words().len().div_ceil(64)]?;
    for &mark in heap.marks() {
        set(&mut bits, mark as usize);
    }
    Ok(bits)
}

// For each block of 64 bits, how many bits are set before it, and last how many are set.
fn counts(alloc: Global, bits: &[u64]) -> Result<Vec<u32>, AllocError>
    requires { length bits.now ≤ 2 ^ 25 }
    ensures { IfOk result (λ below. AreOffsets bits.now below.items) }
{
    let mut below = Vec::with_capacity(alloc, bits.len() + 1)?;
    let mut total = 0;
    for block in bits {
        below.push(total)?;
        total += block.count_ones();
    }
    below.push(total)?;
    Ok(below)
}

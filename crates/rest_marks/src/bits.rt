//! Bit sets, as those of heap_layout: bit `i` is bit `i % 64` of block `i / 64`.
ghost use Rattle.std.specs.Prelude.{◌≡◌, ℕ, ◌+◌, ◌-◌, ◌*◌, ◌%◌, ◌^◌, ◌<◌, ◌≤◌, true, false, length, IfOk, IfSome, IfNone};
ghost use Rattle.std.specs.Int.{bit_at};
ghost use Rattle.heap_layout.specs.Bits.{bit};
ghost use Rattle.rest_marks.specs.Checks.{AreOthers};

use std::alloc::{AllocError, Global};

// A block with the bits from `from` up to `to` set, and no others.
fn mask(from: usize, to: usize) -> u64
    requires some { from < to }
    requires within { to ≤ 64 }
    ensures below { (k : ℕ) → k < from → bit_at result k ≡ 0 }
    ensures inside { (k : ℕ) → from ≤ k → k < to → bit_at result k ≡ 1 }
    ensures above { (k : ℕ) → to ≤ k → bit_at result k ≡ 0 }
{
    (u64::MAX << from) & (u64::MAX >> (64 - to))
}

// Sets the bits from `start` up to `end`, and changes no others, if none of them is set. They must all be in one block.
#[inline(always)]
fn take_in_block(bits: &mut [u64], start: usize, end: usize) -> bool
    requires some { start < end }
    requires block { start % 64 + (end - start) ≤ 64 }
    requires known { start < 64 * length bits.old }
    ensures length { length bits.new ≡ length bits.old }
    ensures free { result ≡ true → (j : ℕ) → start ≤ j → j < end → bit bits.old j ≡ false }
    ensures taken { result ≡ false → (j : ℕ) × (start ≤ j) × (j < end) × (bit bits.old j ≡ true) }
    ensures below { result ≡ true → (j : ℕ) → j < start → bit bits.new j ≡ bit bits.old j }
    ensures inside { result ≡ true → (j : ℕ) → start ≤ j → j < end → bit bits.new j ≡ true }
    ensures above { result ≡ true → (j : ℕ) → end ≤ j → bit bits.new j ≡ bit bits.old j }
{
    let from = start % 64;
    let wanted = mask(from, from + (end - start));
    let block = bits[start / 64];
    if block & wanted != 0 {
        return false;
    }
    bits[start / 64] = block | wanted;
    true
}

/// Sets `size` bits from `start` on, block by block, and changes no others, if none of them is set. If one of them is
/// set, some bits may have changed.
#[inline(always)]
pub fn take_run(bits: &mut [u64], start: usize, size: usize) -> bool
    requires few { length bits.old ≤ 2 ^ 25 }
    requires known { start + size ≤ 64 * length bits.old }
    ensures length { length bits.new ≡ length bits.old }
    ensures free { result ≡ true → (j : ℕ) → start ≤ j → j < start + size → bit bits.old j ≡ false }
    ensures taken { result ≡ false → (j : ℕ) × (start ≤ j) × (j < start + size) × (bit bits.old j ≡ true) }
    ensures below { result ≡ true → (j : ℕ) → j < start → bit bits.new j ≡ bit bits.old j }
    ensures inside { result ≡ true → (j : ℕ) → start ≤ j → j < start + size → bit bits.new j ≡ true }
    ensures above { result ≡ true → (j : ℕ) → start + size ≤ j → bit bits.new j ≡ bit bits.old j }
{
    let end = start + size;
    let mut next = start;
    while next < end {
        let stop = end.min(next - next % 64 + 64);
        if !take_in_block(bits, next, stop) {
            return false;
        }
        next = stop;
    }
    true
}

/// The bits that are not set in these.
pub fn inverted(alloc: Global, bits: &[u64]) -> Result<Vec<u64>, AllocError>
    ensures length { IfOk result (λ others. length others.items ≡ length bits.now) }
    ensures others { IfOk result (λ others. AreOthers bits.now others.items) }
{
    let mut others = Vec::with_capacity(alloc, bits.len())?;
    for &block in bits {
        others.push_reserved(!block);
    }
    Ok(others)
}

/// The first bit that is not set, if there is one.
pub fn first_unset(bits: &[u64]) -> Option<usize>
    requires { length bits.now ≤ 2 ^ 25 }
    ensures known { IfSome result (λ j. j < 64 * length bits.now) }
    ensures unset { IfSome result (λ j. bit bits.now j ≡ false) }
    ensures below { IfSome result (λ j. (i : ℕ) → i < j → bit bits.now i ≡ true) }
    ensures none { IfNone result ((j : ℕ) → j < 64 * length bits.now → bit bits.now j ≡ true) }
{
    for b in 0..bits.len() {
        let others = !bits[b];
        if others != 0 {
            return Some(64 * b + others.trailing_zeros() as usize);
        }
    }
    None
}

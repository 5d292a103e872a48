//! Where the last object before each block of words starts.
ghost use Rattle.std.specs.Prelude.{◌≡◌, ℕ, ◌+◌, ◌-◌, ◌*◌, ◌<◌, ◌^◌, ◌≤◌, true, false, length, vec_capacity, IfOk};
ghost use Rattle.std.specs.Int.{bit_at};
ghost use Rattle.heap_layout.specs.Bits.{bit};
ghost use Rattle.rest_marks.specs.Starts.{AreStarts};

use std::alloc::{AllocError, Global};

// The last bit of a block that is set. There must be one.
#[inline(always)]
fn last_set(block: u64) -> u32
    requires { 0 < block }
    ensures known { result < 64 }
    ensures here { bit_at block result ≡ 1 }
    ensures last { (k : ℕ) → result < k → bit_at block k ≡ 0 }
{
    63 - block.leading_zeros()
}

/// Puts for each block of `heads` the last bit before it that is set into `starts`, or 0 if none is. There must be room
/// for them; what was there before is dropped. This does not allocate.
pub fn put_starts(heads: &[u64], starts: &mut Vec<u32>)
    requires few { length heads.now ≤ 2 ^ 25 }
    requires room { length heads.now ≤ vec_capacity starts.old }
    ensures starts { AreStarts heads.now starts.new.items }
    ensures capacity { vec_capacity starts.new ≡ vec_capacity starts.old }
{
    starts.clear();
    let mut last = 0;
    let mut base = 0;
    for &block in heads {
        starts.push_reserved(last);
        if block != 0 {
            last = base + last_set(block);
        }
        base += 64;
    }
}

/// For each block of `heads` the last bit before it that is set, or 0 if none is.
pub fn starts_of(alloc: Global, heads: &[u64]) -> Result<Vec<u32>, AllocError>
    requires { length heads.now ≤ 2 ^ 25 }
    ensures { IfOk result (λ starts. AreStarts heads.now starts.items) }
{
    let mut starts = Vec::with_capacity(alloc, heads.len())?;
    put_starts(heads, &mut starts);
    Ok(starts)
}

/// Whether no bit of `heads` between bit `i`, which is set, and bit `end` is set. Takes constant time.
#[inline(always)]
pub fn is_last_before(heads: &[u64], starts: &[u32], i: usize, end: usize) -> bool
    requires few { length heads.now ≤ 2 ^ 25 }
    requires starts { AreStarts heads.now starts.now }
    requires here { bit heads.now i ≡ true }
    requires order { i < end }
    requires known { end ≤ 64 * length heads.now }
    ensures last { result ≡ true → (j : ℕ) → i < j → j < end → bit heads.now j ≡ false }
    ensures other { result ≡ false → (j : ℕ) × (i < j) × (j < end) × (bit heads.now j ≡ true) }
{
    let b = (end - 1) / 64;
    if starts[b] as usize > i {
        return false;
    }
    let from = (i + 1).max(64 * b);
    if from >= end {
        return true;
    }
    let rest = heads[b] >> (from % 64);
    rest == 0 || from + rest.trailing_zeros() as usize >= end
}

//! Where the live words below each block end after the slide.
ghost use Rattle.std.specs.Prelude.{◌≡◌, ◌+◌, ◌*◌, ◌<◌, ◌^◌, ◌≤◌, length, IfOk};
ghost use Rattle.heap_layout.specs.Bits.{bit};
ghost use Rattle.pinned_heap.specs.Tables.{end_below, AreBases};

use std::alloc::{AllocError, Global};

// Where the live words end that lie below the end of block `b`, if those below the block end at word `next`.
#[inline(always)]
fn end_of_block(bits: &[u64], stays: &[u64], b: usize, next: u64) -> u64
    requires few { length bits.now ≤ 2 ^ 25 }
    requires same { length stays.now ≡ length bits.now }
    requires known { b < length bits.now }
    requires before { next ≡ end_below (bit bits.now) (bit stays.now) (64 * b) }
    ensures { result ≡ end_below (bit bits.now) (bit stays.now) (64 * (b + 1)) }
{
    let block = bits[b];
    let stay = stays[b];
    if stay == 0 {
        return next + u64::from(block.count_ones());
    }
    let last = 63 - stay.leading_zeros() as usize;
    (64 * b + last) as u64 + u64::from((block >> last).count_ones())
}

/// The bases of these bits.
pub(crate) fn bases(alloc: Global, bits: &[u64], stays: &[u64]) -> Result<Vec<u32>, AllocError>
    requires few { length bits.now ≤ 2 ^ 25 }
    requires same { length stays.now ≡ length bits.now }
    ensures { IfOk result (λ bases. AreBases bits.now stays.now bases.items) }
{
    let mut bases = Vec::with_capacity(alloc, bits.len())?;
    let mut next = 0;
    for b in 0..bits.len() {
        bases.push_reserved(next as u32);
        next = end_of_block(bits, stays, b, next);
    }
    Ok(bases)
}

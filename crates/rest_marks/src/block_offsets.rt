//! The offset of each block of bits: how many bits are set before it.
ghost use Rattle.std.specs.Prelude.{◌≡◌, ◌+◌, ◌^◌, ◌≤◌, length, vec_capacity, IfOk};
ghost use Rattle.mark_tables.specs.MarkBitmap.{AreOffsets};

use std::alloc::{AllocError, Global};

/// Puts the offset of each block into `offsets`, and last the number of all set bits. There must be room for them; what
/// was there before is dropped. This does not allocate.
pub fn put_offsets(bits: &[u64], offsets: &mut Vec<u32>)
    requires few { length bits.now ≤ 2 ^ 25 }
    requires room { length bits.now + 1 ≤ vec_capacity offsets.old }
    ensures offsets { AreOffsets bits.now offsets.new.items }
    ensures capacity { vec_capacity offsets.new ≡ vec_capacity offsets.old }
{
    offsets.clear();
    let mut total = 0;
    for &block in bits {
        offsets.push_reserved(total);
        total += block.count_ones();
    }
    offsets.push_reserved(total);
}

/// The offset of each block, and last the number of all set bits.
pub fn offsets(alloc: Global, bits: &[u64]) -> Result<Vec<u32>, AllocError>
    requires { length bits.now ≤ 2 ^ 25 }
    ensures { IfOk result (λ offsets. AreOffsets bits.now offsets.items) }
{
    let mut offsets = Vec::with_capacity(alloc, bits.len() + 1)?;
    put_offsets(bits, &mut offsets);
    Ok(offsets)
}

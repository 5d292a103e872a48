//! The offsets of the blocks of bits, from a block on.
ghost use Rattle.std.specs.Prelude.{◌≡◌, ℕ, ◌+◌, ◌*◌, ◌^◌, ◌≤◌, length, slice_index};
ghost use Rattle.heap_layout.specs.Bits.{bit};
ghost use Rattle.mark_tables.specs.MarkBitmap.{passing, AreOffsets};

/// Puts the offset of each block from this one on into `offsets`, and last the number of all set bits. Those up to it
/// must be there.
pub(crate) fn recount(bits: &[u64], offsets: &mut [u32], first: usize)
    requires few { length bits.now ≤ 2 ^ 25 }
    requires long { length offsets.old ≡ length bits.now + 1 }
    requires known { first ≤ length bits.now }
    requires before { (b : ℕ) → b ≤ first → slice_index offsets.old b ≡ length (passing (bit bits.now) (64 * b)) }
    ensures offsets { AreOffsets bits.now offsets.new }
    ensures long { length offsets.new ≡ length offsets.old }
{
    let mut total = offsets[first];
    for b in first..bits.len() {
        offsets[b] = total;
        total += bits[b].count_ones();
    }
    offsets[bits.len()] = total;
}

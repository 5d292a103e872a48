//! Bit sets, as those of heap_layout: bit `i` is bit `i % 64` of block `i / 64`.
ghost use Rattle.std.specs.Prelude.{◌≡◌, ◌≢◌, ℕ, ◌*◌, ◌<◌, false, length};
ghost use Rattle.heap_layout.specs.Bits.{bit};

/// Clears bit `i`, and changes no other. The blocks must have a bit `i`.
pub(crate) fn clear(bits: &mut [u64], i: usize)
    requires { i < 64 * length bits.old }
    ensures length { length bits.new ≡ length bits.old }
    ensures here { bit bits.new i ≡ false }
    ensures elsewhere { (j : ℕ) → j ≢ i → bit bits.new j ≡ bit bits.old j }
{
    bits[i / 64] &= !(1 << (i % 64));
}

//! Finds live objects by the bits of their first words.
ghost use Rattle.std.specs.Prelude.{◌≡◌, ◌*◌, ◌<◌, ◌^◌, ◌≤◌, ℕ, true, false, length};
ghost use Rattle.heap_layout.specs.Bits.{bit};

/// The first bit from `i` on that is set; the number of all bits if there is none.
#[inline(always)]
pub(crate) fn next_set(bits: &[u64], i: usize) -> usize
    requires few { length bits.now ≤ 2 ^ 25 }
    requires known { i < 64 * length bits.now }
    ensures from { i ≤ result }
    ensures none { (j : ℕ) → i ≤ j → j < result → bit bits.now j ≡ false }
    ensures here { result < 64 * length bits.now → bit bits.now result ≡ true }
{
    let rest = bits[i / 64] >> (i % 64);
    if rest != 0 {
        return i + rest.trailing_zeros() as usize;
    }
    let mut b = i / 64 + 1;
    while b < bits.len() {
        let block = bits[b];
        if block != 0 {
            return 64 * b + block.trailing_zeros() as usize;
        }
        b += 1;
    }
    64 * bits.len()
}

//! The live words that stay where they are in a slide within one memory: those below the first word that is not live.
ghost use Rattle.std.specs.Prelude.{◌≡◌, ℕ, ◌+◌, ◌-◌, ◌*◌, ◌<◌, ◌^◌, ◌≤◌, ◌⊎◌, true, false, length, slice_index};
ghost use Rattle.heap_layout.specs.Bits.{bit};
ghost use Rattle.heap_layout.specs.Values.{is_immediate};
ghost use Rattle.mark_tables.specs.MarkBitmap.{set_bits, AreOffsets};
ghost use Rattle.rest_marks.specs.Looking.{led_to};

use heap_layout::{Edition, FROM_SPACE};
use rest_marks::{first_unset, settled_reference};

/// How many live words are below the first word that is not live.
pub(crate) fn dense_words(bits: &[u64]) -> usize
    requires { length bits.now ≤ 2 ^ 25 }
    ensures dense { (i : ℕ) → i < result → bit bits.now i ≡ true }
    ensures end { result < 64 * length bits.now → bit bits.now result ≡ false }
{
    match first_unset(bits) {
        Some(first) => first,
        None => 64 * bits.len(),
    }
}

/// Makes `count` references, from index `from` on, lead to where their objects are after the collection. All words
/// below index `dense` are live, so those that lead below it lead there already. They are not written, and neither are
/// null and immediates.
#[inline(always)]
pub(crate) fn stay(
    edition: Edition,
    bits: &[u64],
    counts: &[u32],
    words: &mut [u64],
    from: usize,
    count: usize,
    dense: usize,
)
    requires offsets { AreOffsets bits.now counts.now }
    requires dense { (i : ℕ) → i < dense → bit bits.now i ≡ true }
    requires inside { from + count ≤ length words.old }
    requires known { (k : ℕ) → k < count → is_immediate edition (slice_index words.old (from + k)) ≡ false → slice_index words.old (from + k) - 2 ^ 32 < 64 * length bits.now }
    requires addresses { (k : ℕ) → k < count → is_immediate edition (slice_index words.old (from + k)) ≡ false → (slice_index words.old (from + k) ≡ 0) ⊎ (2 ^ 32 ≤ slice_index words.old (from + k)) }
    ensures led { (k : ℕ) → k < count → slice_index words.new (from + k) ≡ led_to edition (set_bits bits.now) (slice_index words.old (from + k)) }
    ensures before { (k : ℕ) → k < from → slice_index words.new k ≡ slice_index words.old k }
    ensures behind { (k : ℕ) → from + count ≤ k → slice_index words.new k ≡ slice_index words.old k }
    ensures length { length words.new ≡ length words.old }
{
    let first = FROM_SPACE + dense as u64;
    let others = 64 * bits.len() as u64 - dense as u64;
    for k in 0..count {
        let word = words[from + k];
        // Immediates are above all addresses; for null and for the lower addresses the difference wraps.
        if word.wrapping_sub(first) < others {
            words[from + k] = settled_reference(edition, bits, counts, word);
        }
    }
}

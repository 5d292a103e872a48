//! Where words lead after the collection.
ghost use Rattle.std.specs.Prelude.{◌≡◌, false, ◌-◌, ◌*◌, ◌<◌, ◌^◌, ◌≤◌, length, map};
ghost use Rattle.heap_layout.specs.Bits.{bit};
ghost use Rattle.heap_layout.specs.Values.{is_immediate};
ghost use Rattle.mark_tables.specs.MarkBitmap.{set_bits, AreOffsets};
ghost use Rattle.mark_tables.specs.LiveWords.{live_below};
ghost use Rattle.rest_marks.specs.Looking.{led_to, kept_by};
ghost use Rattle.reachability.specs.Queue.{is_address};

use heap_layout::{Edition, FROM_SPACE, is_set};

/// How many live words are below word `i`. `counts` are the offsets of the blocks of `bits`.
#[inline(always)]
pub fn below(bits: &[u64], counts: &[u32], i: usize) -> u64
    requires offsets { AreOffsets bits.now counts.now }
    requires known { i < 64 * length bits.now }
    ensures below { result ≡ live_below (set_bits bits.now) i }
    ensures few { result ≤ 2 ^ 31 }
{
    let low = bits[i / 64] & ((1 << (i % 64)) - 1);
    u64::from(counts[i / 64] + low.count_ones())
}

/// A reference after the collection, which must be null, the address of a live object, or an immediate. There must be
/// some bits.
#[inline(always)]
pub fn settled_reference(edition: Edition, bits: &[u64], counts: &[u32], reference: u64) -> u64
    requires offsets { AreOffsets bits.now counts.now }
    requires known { is_immediate edition reference ≡ false → reference - 2 ^ 32 < 64 * length bits.now }
    ensures { result ≡ led_to edition (set_bits bits.now) reference }
{
    if edition.is_immediate(reference) {
        return reference;
    }
    // Null is looked up too, so that the choice below needs no branch: null is about as frequent as not.
    let i = reference.saturating_sub(FROM_SPACE) as usize;
    let at = FROM_SPACE + below(bits, counts, i);
    if reference == 0 { 0 } else { at }
}

/// Whether a word is the address of a live object. `heads` has the bits of their first words.
#[inline(always)]
pub fn is_kept(heads: &[u64], word: u64) -> bool
    requires { length heads.now ≤ 2 ^ 25 }
    ensures { result ≡ is_address (bit heads.now) word }
{
    let i = word.wrapping_sub(FROM_SPACE);
    if i >= 64 * heads.len() as u64 {
        return false;
    }
    is_set(heads, i as usize)
}

/// A root or a weak word after the collection: an immediate stays, and any other word that is not the address of a live
/// object becomes null.
#[inline(always)]
pub fn settled_weak(edition: Edition, heads: &[u64], bits: &[u64], counts: &[u32], word: u64) -> u64
    requires offsets { AreOffsets bits.now counts.now }
    requires same { length heads.now ≡ length bits.now }
    ensures { result ≡ kept_by edition heads.now (set_bits bits.now) word }
{
    if edition.is_immediate(word) {
        return word;
    }
    if is_kept(heads, word) {
        settled_reference(edition, bits, counts, word)
    } else {
        0
    }
}

/// Makes these roots or weak words lead to where their objects are after the collection.
pub fn settle_all(edition: Edition, heads: &[u64], bits: &[u64], counts: &[u32], words: &mut [u64])
    requires offsets { AreOffsets bits.now counts.now }
    requires same { length heads.now ≡ length bits.now }
    ensures { words.new ≡ map (kept_by edition heads.now (set_bits bits.now)) words.old }
{
    for k in 0..words.len() {
        words[k] = settled_weak(edition, heads, bits, counts, words[k]);
    }
}

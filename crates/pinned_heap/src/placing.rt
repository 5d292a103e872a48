//! Where words lead after the slide.
ghost use Rattle.std.specs.Prelude.{◌≡◌, false, ◌-◌, ◌*◌, ◌<◌, ◌^◌, ◌≤◌, length, map};
ghost use Rattle.heap_layout.specs.Bits.{bit};
ghost use Rattle.heap_layout.specs.Values.{is_immediate};
ghost use Rattle.reachability.specs.Queue.{object_of};
ghost use Rattle.pinned_heap.specs.Tables.{kept_at_place, led_to_place, place_by, AreBases};

use heap_layout::{Edition, FROM_SPACE, is_set};

/// Where word `i` goes, if it is live: to its own index if it is the first word of an object that stays, and else to
/// the words behind the live words below it.
#[inline(always)]
pub(crate) fn place_of(bits: &[u64], stays: &[u64], bases: &[u32], i: usize) -> u64
    requires bases { AreBases bits.now stays.now bases.now }
    requires known { i < 64 * length bits.now }
    ensures place { result ≡ place_by bits.now stays.now i }
    ensures few { result ≤ i }
{
    let b = i / 64;
    let at = i % 64;
    let low = bits[b] & ((1 << at) - 1);
    // Those that stay at or below the word.
    let stay = stays[b] & (u64::MAX >> (63 - at));
    if stay == 0 {
        return u64::from(bases[b] + low.count_ones());
    }
    let last = 63 - stay.leading_zeros() as usize;
    (64 * b + last) as u64 + u64::from((low >> last).count_ones())
}

/// A reference after the slide, which must be null, the address of a live object, or an immediate. There must be some
/// bits.
#[inline(always)]
pub(crate) fn settled_reference(
    edition: Edition,
    bits: &[u64],
    stays: &[u64],
    bases: &[u32],
    reference: u64,
) -> u64
    requires bases { AreBases bits.now stays.now bases.now }
    requires known { is_immediate edition reference ≡ false → reference - 2 ^ 32 < 64 * length bits.now }
    ensures { result ≡ led_to_place edition bits.now stays.now reference }
{
    if edition.is_immediate(reference) || reference == 0 {
        return reference;
    }
    FROM_SPACE
        + place_of(
            bits,
            stays,
            bases,
            reference.saturating_sub(FROM_SPACE) as usize,
        )
}

/// The index of the live object whose address a word is. `heads` has the bits of their first words.
#[inline(always)]
pub(crate) fn object_of(heads: &[u64], word: u64) -> Option<usize>
    requires { length heads.now ≤ 2 ^ 25 }
    ensures { result ≡ object_of (bit heads.now) word }
{
    let i = word.wrapping_sub(FROM_SPACE);
    if i < 64 * heads.len() as u64 && is_set(heads, i as usize) {
        Some(i as usize)
    } else {
        None
    }
}

/// A root or a weak word after the slide: an immediate stays, and any other word that is not the address of a live
/// object becomes null.
#[inline(always)]
pub(crate) fn settled_weak(
    edition: Edition,
    heads: &[u64],
    bits: &[u64],
    stays: &[u64],
    bases: &[u32],
    word: u64,
) -> u64
    requires bases { AreBases bits.now stays.now bases.now }
    requires same { length heads.now ≡ length bits.now }
    ensures { result ≡ kept_at_place edition heads.now bits.now stays.now word }
{
    if edition.is_immediate(word) {
        return word;
    }
    match object_of(heads, word) {
        Some(i) => FROM_SPACE + place_of(bits, stays, bases, i),
        None => 0,
    }
}

/// Makes these roots or weak words lead to where their objects are after the slide.
pub(crate) fn settle_all(
    edition: Edition,
    heads: &[u64],
    bits: &[u64],
    stays: &[u64],
    bases: &[u32],
    words: &mut [u64],
)
    requires bases { AreBases bits.now stays.now bases.now }
    requires same { length heads.now ≡ length bits.now }
    ensures { words.new ≡ map (kept_at_place edition heads.now bits.now stays.now) words.old }
{
    for word in words {
        *word = settled_weak(edition, heads, bits, stays, bases, *word);
    }
}

//! Whether the words below the watermark are what a collection leaves, and their cards what mutators keep.
ghost use Rattle.std.specs.Prelude.{◌≡◌, ℕ, ◌+◌, ◌*◌, ◌^◌, ◌<◌, ◌≤◌, true, false, length, slice_index, IfErr, IfSome, IfNone, OnOk};
ghost use Rattle.heap_layout.specs.Bits.{bit};
ghost use Rattle.young_heap.specs.Cards.{is_dirty, AreCleanCards};
ghost use Rattle.young_heap.specs.OldFaults.{IsOldFaultOf, IsLastRow};
ghost use Rattle.young_heap.specs.Young.{is_below_led, AreOld};

use crate::fault::OldFault;
use crate::finding::next_set;
use crate::remembering::{CARD, leads_below};
use crate::shape::shape_of;
use heap_layout::{Edition, is_set};

// Whether no bit is set from bit `from` up to bit `to`.
fn are_none(bits: &[u64], from: usize, to: usize) -> bool
    requires few { length bits.now ≤ 2 ^ 25 }
    requires known { to ≤ 64 * length bits.now }
    ensures none { result ≡ true → (j : ℕ) → from ≤ j → j < to → bit bits.now j ≡ false }
    ensures some { result ≡ false → (j : ℕ) × (from ≤ j) × (j < to) × (bit bits.now j ≡ true) }
{
    if from >= to {
        return true;
    }
    next_set(bits, from) >= to
}

// Where the object at index `next` ends, if it starts at a set bit, is placed, ends at or below `old`, and no bit of
// its other words is set.
fn row_step(
    edition: Edition,
    words: &[u64],
    starts: &[u64],
    old: usize,
    next: usize,
) -> Option<usize>
    requires few_bits { length starts.now ≤ 2 ^ 25 }
    requires known { old ≤ 64 * length starts.now }
    requires low { next < old }
    ensures longer { IfSome result (λ end. (next < end) × (end ≤ old)) }
    ensures row { IfSome result (λ end. AreOld edition words.now starts.now next
        → AreOld edition words.now starts.now end) }
    ensures last { IfNone result (AreOld edition words.now starts.now next
        → IsLastRow edition words.now starts.now old next) }
{
    if next >= words.len() || !is_set(starts, next) {
        return None;
    }
    let size = shape_of(edition, words[next]).size;
    if size > edition.max_object_words() || size > old - next || size > words.len() - next {
        return None;
    }
    if !are_none(starts, next + 1, next + size) {
        return None;
    }
    Some(next + size)
}

// Up to where the words are a row of objects that start exactly at the bits which are set in `starts`; at most up to
// index `old`.
fn row_end(edition: Edition, words: &[u64], starts: &[u64], old: usize) -> usize
    requires few_bits { length starts.now ≤ 2 ^ 25 }
    requires known { old ≤ 64 * length starts.now }
    ensures row { AreOld edition words.now starts.now result }
    ensures within { result ≤ old }
    ensures last { result < old → IsLastRow edition words.now starts.now old result }
{
    let mut next = 0;
    while next < old {
        match row_step(edition, words, starts, old, next) {
            Some(end) => next = end,
            None => return next,
        }
    }
    next
}

/// Whether the words below index `old` are a row of objects, side by side from index 0, that start exactly at the bits
/// which are set in `starts` below bit `old`. It reads each header below `old`, and each block of those bits. So a
/// caller that does not know that its tables are those of its words can ask before it collects what is young.
pub fn are_old(edition: Edition, words: &[u64], starts: &[u64], old: usize) -> bool
    requires few_bits { length starts.now ≤ 2 ^ 25 }
    requires known { old ≤ 64 * length starts.now }
    ensures row { result ≡ true → AreOld edition words.now starts.now old }
    ensures no_row { result ≡ false → AreOld edition words.now starts.now old → ⊥ }
{
    row_end(edition, words, starts, old) == old
}

// Whether the card of word `j` was written to.
fn is_marked(cards: &[u8], j: usize) -> bool
    ensures { result ≡ is_dirty cards.now j }
{
    j / CARD < cards.len() && cards[j / CARD] != 0
}

// Err with the number of the first of the words of this object behind its header, up to the one with number `last`,
// that stands on a clean card and does not lead below.
fn check_words(
    edition: Edition,
    old: usize,
    words: &[u64],
    starts: &[u64],
    cards: &[u8],
    i: usize,
    last: usize,
) -> Result<(), usize>
    requires few { old ≤ 2 ^ 31 }
    requires known { old ≤ 64 * length starts.now }
    requires inside { i + last < length words.now }
    ensures all { OnOk result ((f : ℕ) → 1 ≤ f → f ≤ last → is_dirty cards.now (i + f) ≡ false
        → is_below_led edition starts.now old (slice_index words.now (i + f)) ≡ true) }
    ensures number { IfErr result (λ f. (1 ≤ f) × (f ≤ last)) }
    ensures clean { IfErr result (λ f. is_dirty cards.now (i + f) ≡ false) }
    ensures above { IfErr result (λ f. is_below_led edition starts.now old (slice_index words.now (i + f)) ≡ false) }
{
    for f in 1..last + 1 {
        if !is_marked(cards, i + f) && !leads_below(edition, starts, old, words[i + f]) {
            return Err(f);
        }
    }
    Ok(())
}

/// Whether the words below index `old` are a row of objects that start at these bits, of which each reference and each
/// weak word on a clean card leads below. Err with the first thing that is not so; the row is looked at first.
pub(crate) fn check_old(
    edition: Edition,
    old: usize,
    words: &[u64],
    starts: &[u64],
    cards: &[u8],
) -> Result<(), OldFault>
    requires few_bits { length starts.now ≤ 2 ^ 25 }
    requires known { old ≤ 64 * length starts.now }
    ensures row { OnOk result (AreOld edition words.now starts.now old) }
    ensures clean { OnOk result (AreCleanCards edition words.now starts.now old cards.now) }
    ensures fault { IfErr result (IsOldFaultOf edition words.now starts.now old cards.now) }
{
    let end = row_end(edition, words, starts, old);
    if end < old {
        return Err(OldFault::NotARow(end as u64));
    }
    let mut i = 0;
    while i < old {
        let shape = shape_of(edition, words[i]);
        let last = shape.refs + shape.weak;
        if let Err(f) = check_words(edition, old, words, starts, cards, i, last) {
            return Err(OldFault::LeadsAbove((i + f) as u64));
        }
        i += shape.size;
    }
    Ok(())
}

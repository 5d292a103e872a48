//! The cards after a collection that leaves some objects young: just those are dirty that have a word of an old object
//! that leads above.
ghost use Rattle.std.specs.Prelude.{◌≡◌, ℕ, ◌*◌, ◌+◌, ◌<◌, ◌≤◌, ◌^◌, [], All, false, length, slice_index, true};
ghost use Rattle.heap_layout.specs.Bits.{bit};
ghost use Rattle.reachability.specs.Queue.{has};
ghost use Rattle.young_heap.specs.Dirty.{AreMarked, IsAsked, IsWordFrom, LeadsAbove};

use crate::finding::next_set;
use crate::remembering::{CARD, leads_below};
use crate::shape::shape_of;
use heap_layout::Edition;

// Marks the card of word `j`, if it does not lead below.
#[inline(always)]
fn mark_word(
    edition: Edition,
    old: usize,
    words: &[u64],
    starts: &[u64],
    j: usize,
    cards: &mut [u8],
)
    requires few { old ≤ 2 ^ 31 }
    requires known { old ≤ 64 * length starts.now }
    requires inside { j < length words.now }
    requires room { j < 64 * length cards.old }
    ensures marked { AreMarked cards.old cards.new
        (λ n. (n ≡ j) × LeadsAbove edition words.now starts.now old n) }
    ensures length { length cards.new ≡ length cards.old }
{
    if !leads_below(edition, starts, old, words[j]) {
        cards[j / CARD] = 1;
    }
}

// Marks the cards of the words from index `from` up to `to` that do not lead below.
fn mark_words(
    edition: Edition,
    old: usize,
    words: &[u64],
    starts: &[u64],
    from: usize,
    to: usize,
    cards: &mut [u8],
)
    requires few { old ≤ 2 ^ 31 }
    requires known { old ≤ 64 * length starts.now }
    requires order { from ≤ to }
    requires inside { to ≤ length words.now }
    requires room { to ≤ 64 * length cards.old }
    ensures marked { AreMarked cards.old cards.new
        (λ n. (from ≤ n) × (n < to) × LeadsAbove edition words.now starts.now old n) }
    ensures length { length cards.new ≡ length cards.old }
{
    for j in from..to {
        mark_word(edition, old, words, starts, j, cards);
    }
}

// Marks the cards of those of these words that do not lead below.
fn mark_listed(
    edition: Edition,
    old: usize,
    words: &[u64],
    starts: &[u64],
    list: &[u32],
    cards: &mut [u8],
)
    requires few { old ≤ 2 ^ 31 }
    requires known { old ≤ 64 * length starts.now }
    requires inside { All (λ j. j < length words.now) list.now }
    requires room { All (λ j. j < 64 * length cards.old) list.now }
    ensures marked { AreMarked cards.old cards.new
        (λ n. (has list.now n ≡ true) × LeadsAbove edition words.now starts.now old n) }
    ensures length { length cards.new ≡ length cards.old }
{
    for n in 0..list.len() {
        mark_word(edition, old, words, starts, list[n] as usize, cards);
    }
}

// The first start from index `i` on and below `end`, or `end`, if there is none.
#[inline(always)]
fn first_start(starts: &[u64], i: usize, end: usize) -> usize
    requires few { length starts.now ≤ 2 ^ 25 }
    requires known { end ≤ 64 * length starts.now }
    requires order { i ≤ end }
    ensures from { i ≤ result }
    ensures to { result ≤ end }
    ensures none { (j : ℕ) → i ≤ j → j < result → bit starts.now j ≡ false }
    ensures here { result < end → bit starts.now result ≡ true }
{
    if i == end {
        return end;
    }
    next_set(starts, i).min(end)
}

// Marks the cards of the references and weak words of the objects that start from index `from` on and below `old`,
// those that do not lead below.
fn mark_objects(
    edition: Edition,
    from: usize,
    old: usize,
    words: &[u64],
    starts: &[u64],
    cards: &mut [u8],
)
    requires few { length words.now ≤ 2 ^ 31 }
    requires few_bits { length starts.now ≤ 2 ^ 25 }
    requires order { from ≤ old }
    requires known { old ≤ 64 * length starts.now }
    requires inside { old ≤ length words.now }
    requires room { old ≤ 64 * length cards.old }
    ensures marked { AreMarked cards.old cards.new
        (λ n. (IsWordFrom edition words.now starts.now from old n × (n < old))
        × LeadsAbove edition words.now starts.now old n) }
    ensures length { length cards.new ≡ length cards.old }
{
    let mut start = first_start(starts, from, old);
    while start < old {
        let shape = shape_of(edition, words[start]);
        let end = old.min(start + 1 + shape.refs + shape.weak);
        mark_words(edition, old, words, starts, start + 1, end, cards);
        start = first_start(starts, start + 1, old);
    }
}

// Makes all cards clean.
fn clear(cards: &mut [u8])
    ensures none { (k : ℕ) → slice_index cards.new k ≡ 0 }
    ensures length { length cards.new ≡ length cards.old }
{
    cards.fill(0);
}

/// Makes the cards anew: just those are dirty of the words that do not lead below watermark `old`, of these fields and
/// weak words, and of the references and weak words of the objects that start from index `from` on and below `old`.
/// Bit `i` of `starts` is set if an old object starts at index `i`.
pub(crate) fn make_cards(
    edition: Edition,
    from: usize,
    old: usize,
    words: &[u64],
    starts: &[u64],
    fields: &[u32],
    weaks: &[u32],
    cards: &mut [u8],
)
    requires few { length words.now ≤ 2 ^ 31 }
    requires few_bits { length starts.now ≤ 2 ^ 25 }
    requires order { from ≤ old }
    requires known { old ≤ 64 * length starts.now }
    requires inside { old ≤ length words.now }
    requires room { old ≤ 64 * length cards.old }
    requires fields { All (λ j. j < from) fields.now }
    requires weaks { All (λ j. j < from) weaks.now }
    ensures marked { AreMarked [] cards.new
        (λ n. IsAsked edition words.now starts.now from old fields.now weaks.now n) }
    ensures length { length cards.new ≡ length cards.old }
{
    clear(cards);
    mark_listed(edition, old, words, starts, fields, cards);
    mark_listed(edition, old, words, starts, weaks, cards);
    mark_objects(edition, from, old, words, starts, cards);
}

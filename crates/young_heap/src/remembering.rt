//! Which words of old objects lead above, by cards: a byte for each 64 words, which the mutator sets when it stores
//! into a word of an old object.
ghost use Rattle.std.specs.Prelude.{◌≡◌, ℕ, ◌+◌, ◌*◌, ◌/◌, ◌^◌, ◌<◌, ◌≤◌, ◌⊎◌, false, true, length, vec_capacity, vec_len, OnErr, OnOk};
ghost use Rattle.heap_layout.specs.Bits.{bit};
ghost use Rattle.heap_layout.specs.Header.{refs_of, weak_of, size_of};
ghost use Rattle.heap_layout.specs.Heap.{header_at};
ghost use Rattle.young_heap.specs.Cards.{is_dirty, with_word, AreFound, AreGathered, AreGatheredWeak, IsOwner};
ghost use Rattle.young_heap.specs.Young.{is_below_led, AreOld};

use crate::shape::shape_of;
use heap_layout::{Edition, FROM_SPACE, is_set};
use std::alloc::AllocError;

/// How many words a card has.
pub const CARD: usize = 64;

// An old object: its header, its last reference, its last weak word, which stands behind that one, and where it ends.
#[derive(Clone, Copy)]
pub(crate) struct Owner {
    pub start: usize,
    pub last_ref: usize,
    pub last_weak: usize,
    pub end: usize,
}

/// Whether a word is null, an immediate, or the address of an old object.
#[inline(always)]
pub(crate) fn leads_below(edition: Edition, starts: &[u64], old: usize, word: u64) -> bool
    requires few { old ≤ 2 ^ 31 }
    requires known { old ≤ 64 * length starts.now }
    ensures { result ≡ is_below_led edition starts.now old word }
{
    let i = word.wrapping_sub(FROM_SPACE);
    if i < old as u64 {
        return is_set(starts, i as usize);
    }
    word == 0 || edition.is_immediate(word)
}

/// The last start at or before a word, or 0 if there is none.
pub(crate) fn last_start(starts: &[u64], word: usize) -> usize
    requires known { word < 64 * length starts.now }
    ensures here { (s : ℕ) → s ≤ word → bit starts.now s ≡ true → bit starts.now result ≡ true }
    ensures from { result ≤ word }
    ensures none { (j : ℕ) → result < j → j ≤ word → bit starts.now j ≡ false }
{
    let mut i = word;
    while i > 0 {
        if is_set(starts, i) {
            return i;
        }
        if starts[i / 64] == 0 {
            i -= i % 64;
        }
        i = i.saturating_sub(1);
    }
    i
}

// The object at this index, by its header.
#[inline(always)]
fn owner_at(edition: Edition, words: &[u64], start: usize) -> Owner
    requires few { length words.now ≤ 2 ^ 31 }
    requires inside { start < length words.now }
    ensures same { result.start ≡ start }
    ensures last_ref { result.last_ref ≡ start + refs_of (header_at edition words.now start) }
    ensures last_weak { result.last_weak ≡ result.last_ref + weak_of (header_at edition words.now start) }
    ensures ends { result.end ≡ start + size_of (header_at edition words.now start) }
{
    let shape = shape_of(edition, words[start]);
    let last_ref = start + shape.refs;
    Owner {
        start,
        last_ref,
        last_weak: last_ref + shape.weak,
        end: start + shape.size,
    }
}

// The old object that has word `j`, if this one has it or ends there.
#[inline(always)]
fn owner_of(
    edition: Edition,
    old: usize,
    words: &[u64],
    starts: &[u64],
    owner: Owner,
    j: usize,
) -> Owner
    requires few { length words.now ≤ 2 ^ 31 }
    requires within { old ≤ length words.now }
    requires low { j < old }
    ensures owner { AreOld edition words.now starts.now old → IsOwner edition words.now starts.now old owner j
        → IsOwner edition words.now starts.now old result j }
    ensures inside { AreOld edition words.now starts.now old → IsOwner edition words.now starts.now old owner j
        → j < result.end }
{
    // Only the clauses read these.
    let _ = old;
    let _ = starts;
    if j == owner.end {
        return owner_at(edition, words, j);
    }
    owner
}

// The old object that has this word, if the words below are a row of objects.
pub(crate) fn first_owner(
    edition: Edition,
    old: usize,
    words: &[u64],
    starts: &[u64],
    word: usize,
) -> Owner
    requires few { length words.now ≤ 2 ^ 31 }
    requires within { old ≤ length words.now }
    requires known { old ≤ 64 * length starts.now }
    requires low { word < old }
    ensures owner { AreOld edition words.now starts.now old → IsOwner edition words.now starts.now old result word }
    ensures inside { AreOld edition words.now starts.now old → word < result.end }
{
    // Only the clauses read it.
    let _ = old;
    owner_at(edition, words, last_start(starts, word))
}

// Puts word `j` at the end of the fields, if it is behind word `first` up to word `last` and does not lead below.
#[inline(always)]
pub(crate) fn gather(
    edition: Edition,
    old: usize,
    words: &[u64],
    starts: &[u64],
    first: usize,
    last: usize,
    j: usize,
    fields: &mut Vec<u32>,
) -> Result<(), AllocError>
    requires few { length words.now ≤ 2 ^ 31 }
    requires within { old ≤ length words.now }
    requires known { old ≤ 64 * length starts.now }
    requires low { j < old }
    ensures word { OnOk result (fields.new.items
        ≡ with_word edition words.now starts.now old first last fields.old.items j) }
    ensures full { OnErr result (vec_capacity fields.old ≤ vec_len fields.old) }
    ensures capacity { vec_capacity fields.old ≤ vec_capacity fields.new }
{
    if first < j && j <= last && !leads_below(edition, starts, old, words[j]) {
        fields.push(j as u32)?;
    }
    Ok(())
}

// Gathers what the card has that has the words from `first` up to `end`, which is dirty.
fn gather_card(
    edition: Edition,
    old: usize,
    words: &[u64],
    starts: &[u64],
    cards: &[u8],
    first: usize,
    end: usize,
    fields: &mut Vec<u32>,
    weaks: &mut Vec<u32>,
) -> Result<(), AllocError>
    requires few { length words.now ≤ 2 ^ 31 }
    requires within { old ≤ length words.now }
    requires known { old ≤ 64 * length starts.now }
    requires order { first < end }
    requires inside { end ≤ old }
    requires dirty { (j : ℕ) → first ≤ j → j < end → is_dirty cards.now j ≡ true }
    requires found { AreFound edition words.now starts.now old (is_dirty cards.now) first fields.old.items }
    requires found_weak { AreFound edition words.now starts.now old (is_dirty cards.now) first weaks.old.items }
    ensures found { OnOk result (AreFound edition words.now starts.now old (is_dirty cards.now) end fields.new.items) }
    ensures found_weak { OnOk result
        (AreFound edition words.now starts.now old (is_dirty cards.now) end weaks.new.items) }
    ensures gathered { OnOk result (AreOld edition words.now starts.now old
        → AreGathered edition words.now starts.now old (is_dirty cards.now) first fields.old.items
        → AreGathered edition words.now starts.now old (is_dirty cards.now) end fields.new.items) }
    ensures gathered_weak { OnOk result (AreOld edition words.now starts.now old
        → AreGatheredWeak edition words.now starts.now old (is_dirty cards.now) first weaks.old.items
        → AreGatheredWeak edition words.now starts.now old (is_dirty cards.now) end weaks.new.items) }
    ensures full { OnErr result ((vec_capacity fields.old < old) ⊎ (vec_capacity weaks.old < old)) }
    ensures capacity { vec_capacity fields.old ≤ vec_capacity fields.new }
    ensures weak_capacity { vec_capacity weaks.old ≤ vec_capacity weaks.new }
{
    // Only the clauses read it.
    let _ = cards;
    let mut owner = first_owner(edition, old, words, starts, first);
    for j in first..end {
        owner = owner_of(edition, old, words, starts, owner, j);
        gather(
            edition,
            old,
            words,
            starts,
            owner.start,
            owner.last_ref,
            j,
            fields,
        )?;
        gather(
            edition,
            old,
            words,
            starts,
            owner.last_ref,
            owner.last_weak,
            j,
            weaks,
        )?;
    }
    Ok(())
}

/// Puts into `fields` and `weaks`, in place of what they held, the indices of all references and of all weak words of
/// old objects that stand on dirty cards and do not lead below, rising. Bit `i` of `starts` is set exactly if an old
/// object starts at index `i`, for each `i` below `old`. Card `k` has the words from `CARD * k` on, and is dirty if its
/// byte is not 0; the words of clean cards are not read, but for the header of an object that goes on behind one.
///
/// A word leads below if it is null, an immediate, or the address of an old object. So of what is on a dirty card
/// nothing is believed. If the words below are no row of objects that start at these bits (`AreOld`), fields and weak
/// words are still words below `old`, rising, that stand on dirty cards and do not lead below (`AreFound`), yet maybe
/// not all of them, or no references or weak words.
///
/// Err if memory runs out, which it does only if one of the two has room for fewer than `old` indices. Then they hold
/// some of them.
pub fn remember(
    edition: Edition,
    old: usize,
    words: &[u64],
    starts: &[u64],
    cards: &[u8],
    fields: &mut Vec<u32>,
    weaks: &mut Vec<u32>,
) -> Result<(), AllocError>
    requires few { length words.now ≤ 2 ^ 31 }
    requires within { old ≤ length words.now }
    requires known { old ≤ 64 * length starts.now }
    requires cards { old ≤ 64 * length cards.now }
    ensures found { OnOk result (AreFound edition words.now starts.now old (is_dirty cards.now) old fields.new.items) }
    ensures found_weak { OnOk result
        (AreFound edition words.now starts.now old (is_dirty cards.now) old weaks.new.items) }
    ensures gathered { OnOk result (AreOld edition words.now starts.now old
        → AreGathered edition words.now starts.now old (is_dirty cards.now) old fields.new.items) }
    ensures gathered_weak { OnOk result (AreOld edition words.now starts.now old
        → AreGatheredWeak edition words.now starts.now old (is_dirty cards.now) old weaks.new.items) }
    ensures short { OnErr result ((vec_capacity fields.old < old) ⊎ (vec_capacity weaks.old < old)) }
    ensures capacity { vec_capacity fields.old ≤ vec_capacity fields.new }
    ensures weak_capacity { vec_capacity weaks.old ≤ vec_capacity weaks.new }
{
    fields.clear();
    weaks.clear();
    let mut first = 0;
    while first < old {
        let end = old.min(first + CARD);
        if cards[first / CARD] != 0 {
            gather_card(
                edition, old, words, starts, cards, first, end, fields, weaks,
            )?;
        }
        first = end;
    }
    Ok(())
}

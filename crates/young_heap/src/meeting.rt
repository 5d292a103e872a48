//! The queue of the objects above the old ones that were met.
ghost use Rattle.std.specs.Prelude.{◌≡◌, ℕ, ◌*◌, ◌^◌, ◌<◌, ◌≤◌, false, true, All, fold, length, slice_index, vec_capacity, IfErr, OnOk};
ghost use Rattle.reachability.specs.Queue.{after_word, has};
ghost use Rattle.rest_marks.specs.Meeting.{AllLead, AreOnce};
ghost use Rattle.rest_marks.specs.Reached.{is_within};
ghost use Rattle.young_heap.specs.Young.{is_above, is_led, words_at, AllLed, AreMetAbove, AreKeptBelow};
ghost use Rattle.young_heap.specs.Stops.{IsShort, IsStopAt, IsStopIn, IsStopOf};

use heap_layout::{Edition, FROM_SPACE, is_set, set};

/// Why marking stopped.
pub(crate) enum Stop {
    /// An allocation failed. The queue had room for fewer objects than there are words.
    Memory,
    /// The word with this number is neither null nor the address of one of the words, nor an immediate.
    Stray(usize),
}

// Puts the object to which a word leads at the end of the queue, if it is not below `old` and was not met. Err if the
// word, which has number `k`, is neither null nor an immediate, and leads neither to a start that is set below `old`
// nor to one of `count` words above; or if memory runs out.
#[inline(always)]
fn meet_above(
    edition: Edition,
    old: usize,
    count: usize,
    met: &mut [u64],
    queue: &mut Vec<u32>,
    word: u64,
    k: usize,
) -> Result<(), Stop>
    requires few { count ≤ 2 ^ 31 }
    requires room { count ≤ 64 * length met.old }
    requires met { AreMetAbove old queue.old.items met.old }
    requires once { AreOnce count queue.old.items }
    ensures queue { OnOk result (queue.new.items ≡ after_word (is_above old count) queue.old.items word) }
    ensures met { OnOk result (AreMetAbove old queue.new.items met.new) }
    ensures once { OnOk result (AreOnce count queue.new.items) }
    ensures leads { OnOk result (is_led edition met.old old count word ≡ true) }
    ensures stop { IfErr result (IsStopAt edition met.old old count word k) }
    ensures short { IfErr result (IsShort count (vec_capacity queue.old)) }
    ensures below { AreKeptBelow old met.old met.new }
    ensures length { length met.new ≡ length met.old }
    ensures capacity { vec_capacity queue.old ≤ vec_capacity queue.new }
{
    let i = word.wrapping_sub(FROM_SPACE);
    if i >= count as u64 {
        return if word == 0 || edition.is_immediate(word) {
            Ok(())
        } else {
            Err(Stop::Stray(k))
        };
    }
    let i = i as usize;
    if !is_set(met, i) {
        if i < old {
            return Err(Stop::Stray(k));
        }
        let Ok(()) = queue.push(i as u32) else {
            return Err(Stop::Memory);
        };
        set(met, i);
    }
    Ok(())
}

/// Meets the objects to which these words lead, one after the other, as `meet_above` does.
#[inline(always)]
pub(crate) fn meet_all_above(
    edition: Edition,
    old: usize,
    count: usize,
    met: &mut [u64],
    queue: &mut Vec<u32>,
    words: &[u64],
) -> Result<(), Stop>
    requires few { count ≤ 2 ^ 31 }
    requires room { count ≤ 64 * length met.old }
    requires met { AreMetAbove old queue.old.items met.old }
    requires once { AreOnce count queue.old.items }
    ensures queue { OnOk result (queue.new.items ≡ fold (after_word (is_above old count)) queue.old.items words.now) }
    ensures met { OnOk result (AreMetAbove old queue.new.items met.new) }
    ensures once { OnOk result (AreOnce count queue.new.items) }
    ensures leads { OnOk result (AllLed edition met.old old count words.now) }
    ensures stop { IfErr result (IsStopIn edition met.old old count words.now) }
    ensures short { IfErr result (IsShort count (vec_capacity queue.old)) }
    ensures below { AreKeptBelow old met.old met.new }
    ensures length { length met.new ≡ length met.old }
    ensures capacity { vec_capacity queue.old ≤ vec_capacity queue.new }
{
    for k in 0..words.len() {
        meet_above(edition, old, count, met, queue, words[k], k)?;
    }
    Ok(())
}

/// Meets the objects to which the words at these indices lead, as `meet_above` does.
#[inline(always)]
pub(crate) fn meet_fields(
    edition: Edition,
    old: usize,
    words: &[u64],
    met: &mut [u64],
    queue: &mut Vec<u32>,
    fields: &[u32],
) -> Result<(), Stop>
    requires few { length words.now ≤ 2 ^ 31 }
    requires room { length words.now ≤ 64 * length met.old }
    requires within { old ≤ length words.now }
    requires fields { All (λ j. j < old) fields.now }
    requires met { AreMetAbove old queue.old.items met.old }
    requires once { AreOnce (length words.now) queue.old.items }
    ensures queue { OnOk result (queue.new.items
        ≡ fold (after_word (is_above old (length words.now))) queue.old.items (words_at words.now fields.now)) }
    ensures met { OnOk result (AreMetAbove old queue.new.items met.new) }
    ensures once { OnOk result (AreOnce (length words.now) queue.new.items) }
    ensures leads { OnOk result (AllLed edition met.old old (length words.now) (words_at words.now fields.now)) }
    ensures stop { IfErr result (IsStopOf edition met.old old words.now fields.now) }
    ensures short { IfErr result (IsShort (length words.now) (vec_capacity queue.old)) }
    ensures below { AreKeptBelow old met.old met.new }
    ensures length { length met.new ≡ length met.old }
    ensures capacity { vec_capacity queue.old ≤ vec_capacity queue.new }
{
    for n in 0..fields.len() {
        let j = fields[n] as usize;
        meet_above(edition, old, words.len(), met, queue, words[j], j)?;
    }
    Ok(())
}

// Whether a word is null, the address of one of `count` words, or an immediate.
#[inline(always)]
fn is_leading(edition: Edition, count: usize, word: u64) -> bool
    requires { count ≤ 2 ^ 31 }
    ensures { result ≡ is_within edition count word }
{
    word == 0 || word.wrapping_sub(FROM_SPACE) < count as u64 || edition.is_immediate(word)
}

/// Err with the number of the first of these words that is neither null nor the address of one of `count` words, nor an
/// immediate.
#[inline(always)]
pub(crate) fn check_leads(edition: Edition, count: usize, words: &[u64]) -> Result<(), usize>
    requires { count ≤ 2 ^ 31 }
    ensures all { OnOk result (AllLead edition count words.now) }
    ensures inside { IfErr result (λ k. k < length words.now) }
    ensures stray { IfErr result (λ k. is_within edition count (slice_index words.now k) ≡ false) }
{
    for k in 0..words.len() {
        if !is_leading(edition, count, words[k]) {
            return Err(k);
        }
    }
    Ok(())
}

/// Err with the first of these indices whose word is neither null nor the address of one of the words, nor an
/// immediate.
pub(crate) fn check_at(edition: Edition, words: &[u64], weaks: &[u32]) -> Result<(), usize>
    requires few { length words.now ≤ 2 ^ 31 }
    requires below { All (λ j. j < length words.now) weaks.now }
    ensures all { OnOk result ((n : ℕ) → n < length weaks.now
        → is_within edition (length words.now) (slice_index words.now (slice_index weaks.now n)) ≡ true) }
    ensures index { IfErr result (λ j. has weaks.now j ≡ true) }
    ensures stray { IfErr result (λ j. is_within edition (length words.now) (slice_index words.now j) ≡ false) }
{
    for n in 0..weaks.len() {
        let j = weaks[n] as usize;
        if !is_leading(edition, words.len(), words[j]) {
            return Err(j);
        }
    }
    Ok(())
}

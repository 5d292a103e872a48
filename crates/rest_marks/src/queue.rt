//! The queue of the objects that were met, in the order in which they were met. Each is there once: its bit is set when
//! it is met.
ghost use Rattle.std.specs.Prelude.{◌≡◌, ◌*◌, ◌^◌, ◌<◌, ◌≤◌, [], ◌∷◌, fold, length, true, false, slice_index, vec_capacity, IfErr, OnOk};
ghost use Rattle.reachability.specs.Queue.{after_word};
ghost use Rattle.rest_marks.specs.Reached.{is_below, is_within};
ghost use Rattle.rest_marks.specs.Meeting.{AllLead, AreMet, AreOnce, IsMore, IsShort, IsStopAt, IsStop};

use heap_layout::{Edition, FROM_SPACE, is_set, set};

/// Why marking stopped.
pub enum Stop {
    /// An allocation failed. The queue had room for fewer objects than there are words.
    Memory,
    /// The word with this number is neither null nor the address of one of the words, nor an immediate.
    Stray(usize),
}

// Puts the object to which a word leads at the end of the queue, if it was not met. Err if the word, which has number
// `k`, is neither null nor the address of one of `count` words, nor an immediate, or if memory runs out. `met` has the
// bits of the objects in the queue.
#[inline(always)]
fn meet(
    edition: Edition,
    count: usize,
    met: &mut [u64],
    queue: &mut Vec<u32>,
    word: u64,
    k: usize,
) -> Result<(), Stop>
    requires few { count ≤ 2 ^ 31 }
    requires room { count ≤ 64 * length met.old }
    requires met { AreMet queue.old.items met.old }
    requires once { AreOnce count queue.old.items }
    ensures queue { OnOk result (queue.new.items ≡ after_word (is_below count) queue.old.items word) }
    ensures met { OnOk result (AreMet queue.new.items met.new) }
    ensures once { OnOk result (AreOnce count queue.new.items) }
    ensures leads { OnOk result (is_within edition count word ≡ true) }
    ensures stop { IfErr result (IsStopAt edition count word k) }
    ensures short { IfErr result (IsShort count (vec_capacity queue.old)) }
    ensures more { IfErr result (IsMore count queue.old.items (word ∷ [])) }
    ensures length { length met.new ≡ length met.old }
    ensures capacity { vec_capacity queue.old ≤ vec_capacity queue.new }
{
    let i = word.wrapping_sub(FROM_SPACE);
    if i >= count as u64 {
        return if word == 0 || edition.is_immediate(word) {
            Ok(())
        } else {
            Err(Stop::Stray(k))
        };
    }
    let i = i as usize;
    if !is_set(met, i) {
        let Ok(()) = queue.push(i as u32) else {
            return Err(Stop::Memory);
        };
        set(met, i);
    }
    Ok(())
}

/// Puts the objects to which these words lead at the end of the queue, except those that were met. Err if one of the
/// words is neither null nor the address of one of `count` words, nor an immediate, or if memory runs out.
#[inline(always)]
pub fn meet_all(
    edition: Edition,
    count: usize,
    met: &mut [u64],
    queue: &mut Vec<u32>,
    words: &[u64],
) -> Result<(), Stop>
    requires few { count ≤ 2 ^ 31 }
    requires room { count ≤ 64 * length met.old }
    requires met { AreMet queue.old.items met.old }
    requires once { AreOnce count queue.old.items }
    ensures queue { OnOk result (queue.new.items ≡ fold (after_word (is_below count)) queue.old.items words.now) }
    ensures met { OnOk result (AreMet queue.new.items met.new) }
    ensures once { OnOk result (AreOnce count queue.new.items) }
    ensures leads { OnOk result (AllLead edition count words.now) }
    ensures stop { IfErr result (IsStop edition count words.now) }
    ensures short { IfErr result (IsShort count (vec_capacity queue.old)) }
    ensures more { IfErr result (IsMore count queue.old.items words.now) }
    ensures length { length met.new ≡ length met.old }
    ensures capacity { vec_capacity queue.old ≤ vec_capacity queue.new }
{
    for k in 0..words.len() {
        meet(edition, count, met, queue, words[k], k)?;
    }
    Ok(())
}

/// Whether a word is null, the address of one of `count` words, or an immediate.
#[inline(always)]
pub fn is_leading(edition: Edition, count: usize, word: u64) -> bool
    requires { count ≤ 2 ^ 31 }
    ensures { result ≡ is_within edition count word }
{
    word == 0 || word.wrapping_sub(FROM_SPACE) < count as u64 || edition.is_immediate(word)
}

/// Err with the number of the first of these words that is neither null nor the address of one of `count` words, nor an
/// immediate.
#[inline(always)]
pub fn check_leads(edition: Edition, count: usize, words: &[u64]) -> Result<(), usize>
    requires { count ≤ 2 ^ 31 }
    ensures all { OnOk result (AllLead edition count words.now) }
    ensures inside { IfErr result (λ k. k < length words.now) }
    ensures stray { IfErr result (λ k. is_within edition count (slice_index words.now k) ≡ false) }
{
    for k in 0..words.len() {
        if !is_leading(edition, count, words[k]) {
            return Err(k);
        }
    }
    Ok(())
}

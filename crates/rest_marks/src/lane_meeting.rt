//! Meets objects for one of several markers: those that its lane did not know it knows then, and those of them that it
//! claims wait in its queue.
ghost use Rattle.std.specs.Prelude.{◌≡◌, ◌⊎◌, ◌*◌, ◌^◌, ◌<◌, ◌≤◌, ◌++◌, [], ◌∷◌, length, true, false, IfErr, OnOk};
ghost use Rattle.heap_layout.specs.Bits.{bit, leads};
ghost use Rattle.heap_layout.specs.Heap.{from_address};
ghost use Rattle.heap_layout.specs.Values.{or_immediate};
ghost use Rattle.rest_marks.specs.Lanes.{IsLack, IsLedTo, IsTold};
ghost use Rattle.rest_marks.specs.Marks.{AllKept};
ghost use Rattle.rest_marks.specs.Meeting.{AllLead, AreMet, AreOnce, IsStopAt, IsStop};
ghost use Rattle.rest_marks.specs.Reached.{is_within};

use crate::claims::Claims;
use crate::queue::Stop;
use heap_layout::{Edition, FROM_SPACE, is_set, set};
use std::alloc::AllocError;

// Puts the object at index `i` at the end of the queue, if nobody claimed it before.
#[inline(always)]
fn claim_one(
    count: usize,
    heads: &mut [u64],
    queue: &mut Vec<u32>,
    claims: &Claims,
    i: usize,
) -> Result<(), AllocError>
    requires few { count ≤ 2 ^ 31 }
    requires room { count ≤ 64 * length heads.old }
    requires met { AreMet queue.old.items heads.old }
    requires once { AreOnce count queue.old.items }
    requires inside { i < count }
    ensures queue { OnOk result (
        (queue.new.items ≡ queue.old.items) ⊎ (queue.new.items ≡ queue.old.items ++ i ∷ [])) }
    ensures met { OnOk result (AreMet queue.new.items heads.new) }
    ensures once { OnOk result (AreOnce count queue.new.items) }
    ensures heads { length heads.new ≡ length heads.old }
{
    if !claims.claim(i) {
        return Ok(());
    }
    if is_set(heads, i) {
        return Ok(());
    }
    queue.push(i as u32)?;
    set(heads, i);
    Ok(())
}

// Meets the object at index `i`, which is not known: it waits, if nobody claimed it before, and it is known then.
#[inline(always)]
fn know(
    count: usize,
    known: &mut [u64],
    heads: &mut [u64],
    queue: &mut Vec<u32>,
    claims: &Claims,
    i: usize,
) -> Result<(), AllocError>
    requires few { count ≤ 2 ^ 31 }
    requires room_known { count ≤ 64 * length known.old }
    requires room { count ≤ 64 * length heads.old }
    requires met { AreMet queue.old.items heads.old }
    requires once { AreOnce count queue.old.items }
    requires inside { i < count }
    requires unknown { bit known.old i ≡ false }
    ensures here { OnOk result (bit known.new i ≡ true) }
    ensures told { OnOk result (
        IsTold (IsLedTo count (from_address i ∷ [])) queue.old.items known.old queue.new.items known.new) }
    ensures met { OnOk result (AreMet queue.new.items heads.new) }
    ensures once { OnOk result (AreOnce count queue.new.items) }
    ensures known { length known.new ≡ length known.old }
    ensures heads { length heads.new ≡ length heads.old }
{
    claim_one(count, heads, queue, claims, i)?;
    set(known, i);
    Ok(())
}

// Meets the object to which a word leads, if it was not known. Err if the word, which has number `k`, is neither null
// nor the address of one of `count` words, nor an immediate, or if memory runs out.
#[inline(always)]
fn meet(
    edition: Edition,
    count: usize,
    known: &mut [u64],
    heads: &mut [u64],
    queue: &mut Vec<u32>,
    claims: &Claims,
    word: u64,
    k: usize,
) -> Result<(), Stop>
    requires few { count ≤ 2 ^ 31 }
    requires room_known { count ≤ 64 * length known.old }
    requires room { count ≤ 64 * length heads.old }
    requires met { AreMet queue.old.items heads.old }
    requires once { AreOnce count queue.old.items }
    ensures kept { OnOk result (or_immediate edition (leads known.new) word ≡ true) }
    ensures told { OnOk result (
        IsTold (IsLedTo count (word ∷ [])) queue.old.items known.old queue.new.items known.new) }
    ensures leads { OnOk result (is_within edition count word ≡ true) }
    ensures met { OnOk result (AreMet queue.new.items heads.new) }
    ensures once { OnOk result (AreOnce count queue.new.items) }
    ensures stop { IfErr result (IsStopAt edition count word k) }
    ensures lack { IfErr result (IsLack count known.old (word ∷ [])) }
    ensures known { length known.new ≡ length known.old }
    ensures heads { length heads.new ≡ length heads.old }
{
    let i = word.wrapping_sub(FROM_SPACE);
    if i >= count as u64 {
        return if word == 0 || edition.is_immediate(word) {
            Ok(())
        } else {
            Err(Stop::Stray(k))
        };
    }
    let i = i as usize;
    if !is_set(known, i) {
        let Ok(()) = know(count, known, heads, queue, claims, i) else {
            return Err(Stop::Memory);
        };
    }
    Ok(())
}

/// Meets the objects to which these words lead, those that were not known. Err if one of the words is neither null nor
/// the address of one of `count` words, nor an immediate, or if memory runs out.
#[inline(always)]
pub fn meet_known(
    edition: Edition,
    count: usize,
    known: &mut [u64],
    heads: &mut [u64],
    queue: &mut Vec<u32>,
    claims: &Claims,
    words: &[u64],
) -> Result<(), Stop>
    requires few { count ≤ 2 ^ 31 }
    requires room_known { count ≤ 64 * length known.old }
    requires room { count ≤ 64 * length heads.old }
    requires met { AreMet queue.old.items heads.old }
    requires once { AreOnce count queue.old.items }
    ensures kept { OnOk result (AllKept edition known.new words.now) }
    ensures told { OnOk result (
        IsTold (IsLedTo count words.now) queue.old.items known.old queue.new.items known.new) }
    ensures leads { OnOk result (AllLead edition count words.now) }
    ensures met { OnOk result (AreMet queue.new.items heads.new) }
    ensures once { OnOk result (AreOnce count queue.new.items) }
    ensures stop { IfErr result (IsStop edition count words.now) }
    ensures lack { IfErr result (IsLack count known.old words.now) }
    ensures known { length known.new ≡ length known.old }
    ensures heads { length heads.new ≡ length heads.old }
{
    for k in 0..words.len() {
        meet(edition, count, known, heads, queue, claims, words[k], k)?;
    }
    Ok(())
}

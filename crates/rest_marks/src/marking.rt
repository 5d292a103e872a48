//! Marks what the roots reach.
ghost use Rattle.std.specs.Prelude.{◌≡◌, ℕ, ◌+◌, ◌*◌, ◌^◌, ◌<◌, ◌≤◌, true, false, List, [], length, vec_capacity, IfErr, OnOk};
ghost use Rattle.heap_layout.specs.Bits.{bit};
ghost use Rattle.heap_layout.specs.Header.{refs_of, weak_of, size_of};
ghost use Rattle.heap_layout.specs.Heap.{header_at, object_at, IsPlaced};
ghost use Rattle.heap_layout.specs.Limits.{most_words, most_roots};
ghost use Rattle.rest_marks.specs.Reached.{IsReachedFrom, IsFaultOf, IsWordOf};
ghost use Rattle.rest_marks.specs.Meeting.{AllLead, AreMet, AreOnce, IsDone, AreApart};
ghost use Rattle.rest_marks.specs.Growing.{roots_on, IsBegun, IsBegunIn, IsMoreFaultOf, IsOnward, IsSeenFaultOf};
ghost use Rattle.rest_marks.specs.declared.fault.SurveyFault.TheVariants as survey;

use crate::bits::take_run;
use crate::fault::SurveyFault;
use crate::following::{Ahead, WIDE};
use crate::queue::{Stop, check_leads, meet_all};
use heap_layout::Edition;
use std::alloc::Global;

/// The references of the object at index `i`, of which it has so many.
#[inline(always)]
pub fn references(edition: Edition, words: &[u64], i: usize, refs: usize) -> &[u64]
    requires few { length words.now ≤ 2 ^ 31 }
    requires placed { IsPlaced edition words.now i }
    requires refs { refs ≡ refs_of (header_at edition words.now i) }
    ensures { result.now ≡ (object_at edition words.now i).references }
{
    // Only the clauses read it.
    let _ = edition;
    &words[i + 1..i + 1 + refs]
}

/// Its weak words.
#[inline(always)]
pub fn weak_words(edition: Edition, words: &[u64], i: usize, refs: usize, weak: usize) -> &[u64]
    requires few { length words.now ≤ 2 ^ 31 }
    requires placed { IsPlaced edition words.now i }
    requires refs { refs ≡ refs_of (header_at edition words.now i) }
    requires weak { weak ≡ weak_of (header_at edition words.now i) }
    ensures { result.now ≡ (object_at edition words.now i).weak }
{
    // Only the clauses read it.
    let _ = edition;
    let first = i + 1 + refs;
    &words[first..first + weak]
}

/// Meets each object that the roots reach: sets the bit of its first word in `heads`, and those of all its words in
/// `bits`. Err with a fault that is there, or if memory runs out. In `heads` and `bits` no bit may be set before. This
/// is Cheney's walk, breadth first, with the queue beside the heap: a number of 4 bytes for each object met.
pub fn mark(
    alloc: Global,
    edition: Edition,
    words: &[u64],
    roots: &[u64],
    heads: &mut [u64],
    bits: &mut [u64],
) -> Result<(), SurveyFault>
    requires few { length words.now ≤ 2 ^ 31 }
    requires sizes { (length words.now ≤ most_words edition) × (length roots.now ≤ most_roots edition) }
    requires few_bits { length heads.old ≤ 2 ^ 25 }
    requires room { length words.now ≤ 64 * length heads.old }
    requires long { length bits.old ≡ length heads.old }
    requires no_heads { (i : ℕ) → bit heads.old i ≡ false }
    requires no_bits { (i : ℕ) → bit bits.old i ≡ false }
    ensures reached { OnOk result ((i : ℕ) → bit heads.new i ≡ true → IsReachedFrom edition words.now roots.now i) }
    ensures all { OnOk result ((i : ℕ) → IsReachedFrom edition words.now roots.now i → bit heads.new i ≡ true) }
    ensures done { OnOk result ((i : ℕ) → bit heads.new i ≡ true → IsDone edition words.now bits.new i) }
    ensures only { OnOk result ((j : ℕ) → bit bits.new j ≡ true → (i : ℕ) × (bit heads.new i ≡ true) × IsWordOf edition words.now i j) }
    ensures apart { OnOk result (AreApart edition words.now heads.new) }
    ensures roots { OnOk result (AllLead edition (length words.now) roots.now) }
    ensures fault { IfErr result (IsFaultOf edition words.now roots.now) }
    ensures same { length heads.new ≡ length heads.old }
    ensures long { length bits.new ≡ length bits.old }
{
    mark_with(edition, words, roots, heads, bits, &mut Vec::new(alloc))
}

/// Marks as `mark` does with this queue, which must be empty. It has the objects that were met afterwards. If it has
/// room for as many as there are words, nothing is allocated.
pub fn mark_with(
    edition: Edition,
    words: &[u64],
    roots: &[u64],
    heads: &mut [u64],
    bits: &mut [u64],
    queue: &mut Vec<u32>,
) -> Result<(), SurveyFault>
    requires few { length words.now ≤ 2 ^ 31 }
    requires sizes { (length words.now ≤ most_words edition) × (length roots.now ≤ most_roots edition) }
    requires few_bits { length heads.old ≤ 2 ^ 25 }
    requires room { length words.now ≤ 64 * length heads.old }
    requires long { length bits.old ≡ length heads.old }
    requires no_heads { (i : ℕ) → bit heads.old i ≡ false }
    requires no_bits { (i : ℕ) → bit bits.old i ≡ false }
    requires empty { queue.old.items ≡ [] }
    ensures reached { OnOk result ((i : ℕ) → bit heads.new i ≡ true → IsReachedFrom edition words.now roots.now i) }
    ensures all { OnOk result ((i : ℕ) → IsReachedFrom edition words.now roots.now i → bit heads.new i ≡ true) }
    ensures done { OnOk result ((i : ℕ) → bit heads.new i ≡ true → IsDone edition words.now bits.new i) }
    ensures only { OnOk result ((j : ℕ) → bit bits.new j ≡ true → (i : ℕ) × (bit heads.new i ≡ true) × IsWordOf edition words.now i j) }
    ensures apart { OnOk result (AreApart edition words.now heads.new) }
    ensures roots { OnOk result (AllLead edition (length words.now) roots.now) }
    ensures fault { IfErr result (IsFaultOf edition words.now roots.now) }
    ensures same { length heads.new ≡ length heads.old }
    ensures long { length bits.new ≡ length bits.old }
    ensures short { IfErr result (λ fault. fault ≡ survey.OutOfMemory → vec_capacity queue.old < length words.now) }
    ensures capacity { vec_capacity queue.old ≤ vec_capacity queue.new }
{
    if let Err(fault) = mark_on(edition, words, roots, heads, bits, queue) {
        return Err(fault);
    }
    Ok(())
}

/// Marks more objects, from these roots, where others were marked before. The queue has those that were marked, and
/// after them those that are met now. Of those before no reference is followed again, and no word is looked at.
#[inline(always)]
pub(crate) fn mark_on(
    edition: Edition,
    words: &[u64],
    roots: &[u64],
    heads: &mut [u64],
    bits: &mut [u64],
    queue: &mut Vec<u32>,
) -> Result<(), SurveyFault>
    requires few { length words.now ≤ 2 ^ 31 }
    requires sizes { (length words.now ≤ most_words edition) × (length roots.now ≤ most_roots edition) }
    requires few_bits { length heads.old ≤ 2 ^ 25 }
    requires room { length words.now ≤ 64 * length heads.old }
    requires long { length bits.old ≡ length heads.old }
    requires begun { IsBegun edition words.now queue.old.items heads.old bits.old }
    ensures reached { OnOk result ((i : ℕ) → bit heads.new i ≡ true → IsReachedFrom edition words.now (roots_on queue.old.items roots.now) i) }
    ensures all { OnOk result ((i : ℕ) → IsReachedFrom edition words.now (roots_on queue.old.items roots.now) i → bit heads.new i ≡ true) }
    ensures done { OnOk result ((i : ℕ) → bit heads.new i ≡ true → IsDone edition words.now bits.new i) }
    ensures only { OnOk result ((j : ℕ) → bit bits.new j ≡ true → (i : ℕ) × (bit heads.new i ≡ true) × IsWordOf edition words.now i j) }
    ensures apart { OnOk result (AreApart edition words.now heads.new) }
    ensures roots { OnOk result (AllLead edition (length words.now) roots.now) }
    ensures fault { IfErr result (IsMoreFaultOf edition words.now queue.old.items roots.now) }
    ensures same { length heads.new ≡ length heads.old }
    ensures long { length bits.new ≡ length bits.old }
    ensures short { IfErr result (λ fault. fault ≡ survey.OutOfMemory → vec_capacity queue.old < length words.now) }
    ensures capacity { vec_capacity queue.old ≤ vec_capacity queue.new }
    ensures met { OnOk result (AreMet queue.new.items heads.new) }
    ensures once { OnOk result (AreOnce (length words.now) queue.new.items) }
{
    if let Err(fault) = mark_in(edition, words, roots, heads, bits, queue) {
        return Err(fault);
    }
    Ok(())
}

/// Marks as `mark_on` does in words that may have been written to since the objects in the queue were marked. Whatever
/// words were seen then, and are the same where no bit is set: of these is all that is found.
pub fn mark_in(
    edition: Edition,
    words: &[u64],
    roots: &[u64],
    heads: &mut [u64],
    bits: &mut [u64],
    queue: &mut Vec<u32>,
) -> Result<(), SurveyFault>
    requires few { length words.now ≤ 2 ^ 31 }
    requires sizes { (length words.now ≤ most_words edition) × (length roots.now ≤ most_roots edition) }
    requires few_bits { length heads.old ≤ 2 ^ 25 }
    requires room { length words.now ≤ 64 * length heads.old }
    requires long { length bits.old ≡ length heads.old }
    requires met { AreMet queue.old.items heads.old }
    requires once { AreOnce (length words.now) queue.old.items }
    ensures onward { OnOk result ((seen : List ℕ) → IsBegunIn edition words.now seen queue.old.items heads.old bits.old → IsOnward edition seen queue.old.items roots.now heads.new bits.new) }
    ensures stay { OnOk result ((j : ℕ) → bit bits.old j ≡ true → bit bits.new j ≡ true) }
    ensures fault { IfErr result (λ fault. (seen : List ℕ) → IsBegunIn edition words.now seen queue.old.items heads.old bits.old → IsSeenFaultOf edition words.now seen queue.old.items roots.now fault) }
    ensures same { length heads.new ≡ length heads.old }
    ensures long { length bits.new ≡ length bits.old }
    ensures short { IfErr result (λ fault. fault ≡ survey.OutOfMemory → vec_capacity queue.old < length words.now) }
    ensures capacity { vec_capacity queue.old ≤ vec_capacity queue.new }
    ensures met { OnOk result (AreMet queue.new.items heads.new) }
    ensures once { OnOk result (AreOnce (length words.now) queue.new.items) }
{
    // Each arm is compiled for its edition.
    match edition {
        Edition::One => mark_by(edition, words, roots, heads, bits, queue),
        Edition::Two => mark_by(edition, words, roots, heads, bits, queue),
        Edition::Three => mark_by(edition, words, roots, heads, bits, queue),
        Edition::Four => mark_by(edition, words, roots, heads, bits, queue),
    }
}

// The same, compiled into its caller.
#[inline(always)]
fn mark_by(
    edition: Edition,
    words: &[u64],
    roots: &[u64],
    heads: &mut [u64],
    bits: &mut [u64],
    queue: &mut Vec<u32>,
) -> Result<(), SurveyFault>
    requires few { length words.now ≤ 2 ^ 31 }
    requires sizes { (length words.now ≤ most_words edition) × (length roots.now ≤ most_roots edition) }
    requires few_bits { length heads.old ≤ 2 ^ 25 }
    requires room { length words.now ≤ 64 * length heads.old }
    requires long { length bits.old ≡ length heads.old }
    requires met { AreMet queue.old.items heads.old }
    requires once { AreOnce (length words.now) queue.old.items }
    ensures onward { OnOk result ((seen : List ℕ) → IsBegunIn edition words.now seen queue.old.items heads.old bits.old → IsOnward edition seen queue.old.items roots.now heads.new bits.new) }
    ensures stay { OnOk result ((j : ℕ) → bit bits.old j ≡ true → bit bits.new j ≡ true) }
    ensures fault { IfErr result (λ fault. (seen : List ℕ) → IsBegunIn edition words.now seen queue.old.items heads.old bits.old → IsSeenFaultOf edition words.now seen queue.old.items roots.now fault) }
    ensures same { length heads.new ≡ length heads.old }
    ensures long { length bits.new ≡ length bits.old }
    ensures short { IfErr result (λ fault. fault ≡ survey.OutOfMemory → vec_capacity queue.old < length words.now) }
    ensures capacity { vec_capacity queue.old ≤ vec_capacity queue.new }
    ensures met { OnOk result (AreMet queue.new.items heads.new) }
    ensures once { OnOk result (AreOnce (length words.now) queue.new.items) }
{
    let count = words.len();
    let mut next = queue.len();
    let mut ahead = Ahead::none(next);
    let mut headers = [0u64; WIDE];
    match meet_all(edition, count, heads, queue, roots) {
        Ok(()) => {}
        Err(Stop::Memory) => return Err(SurveyFault::OutOfMemory),
        Err(Stop::Stray(k)) => return Err(SurveyFault::BadRoot(k as u64)),
    }
    while next < queue.len() {
        let i = queue[next] as usize;
        let shape = ahead.shape(edition, words, queue, &mut headers, next, i);
        if shape.size > edition.max_object_words() {
            return Err(SurveyFault::ObjectTooLong(i as u64));
        }
        if shape.size > count - i {
            return Err(SurveyFault::ObjectPastEnd(i as u64));
        }
        if !take_run(bits, i, shape.size) {
            return Err(SurveyFault::Overlap(i as u64));
        }
        let references = references(edition, words, i, shape.refs);
        match meet_all(edition, count, heads, queue, references) {
            Ok(()) => {}
            Err(Stop::Memory) => return Err(SurveyFault::OutOfMemory),
            Err(Stop::Stray(k)) => return Err(SurveyFault::BadReference((i + 1 + k) as u64)),
        }
        let weak = weak_words(edition, words, i, shape.refs, shape.weak);
        if let Err(k) = check_leads(edition, count, weak) {
            return Err(SurveyFault::BadWeak((i + 1 + shape.refs + k) as u64));
        }
        next += 1;
    }
    Ok(())
}

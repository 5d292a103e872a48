//! Marks what the roots and some fields of old objects reach above the old ones.
ghost use Rattle.std.specs.Prelude.{◌≡◌, ℕ, ◌+◌, ◌*◌, ◌^◌, ◌<◌, ◌≤◌, true, false, [], All, length, vec_capacity, IfErr, OnOk};
ghost use Rattle.heap_layout.specs.Bits.{bit};
ghost use Rattle.heap_layout.specs.Header.{refs_of, weak_of, size_of};
ghost use Rattle.heap_layout.specs.Heap.{header_at, object_at, IsPlaced};
ghost use Rattle.heap_layout.specs.Limits.{most_words, most_roots};
ghost use Rattle.rest_marks.specs.Reached.{IsWordOf};
ghost use Rattle.rest_marks.specs.declared.fault.SurveyFault.TheVariants as survey;
ghost use Rattle.young_heap.specs.Refusals.{IsYoungFaultOf};
ghost use Rattle.young_heap.specs.Young.{seeds, words_at, AllLed, AreKeptBelow, IsDoneAbove, IsReachedAbove};

use crate::bits::take_run;
use crate::meeting::{Stop, check_leads, meet_all_above, meet_fields};
use crate::shape::shape_of;
use heap_layout::Edition;
use stopped_heap::SurveyFault;

// How many places ahead in the queue an object is looked at before its turn.
const AHEAD: usize = 8;

// How many words away it may lie and not be looked at, since the processor has it soon enough.
const NEAR: usize = 512;

// The references of the object at index `i`, of which it has so many.
#[inline(always)]
fn references(edition: Edition, words: &[u64], i: usize, refs: usize) -> &[u64]
    requires few { length words.now ≤ 2 ^ 31 }
    requires placed { IsPlaced edition words.now i }
    requires refs { refs ≡ refs_of (header_at edition words.now i) }
    ensures { result.now ≡ (object_at edition words.now i).references }
{
    // Only the clauses read it.
    let _ = edition;
    &words[i + 1..i + 1 + refs]
}

// Its weak words.
#[inline(always)]
fn weak_words(edition: Edition, words: &[u64], i: usize, refs: usize, weak: usize) -> &[u64]
    requires few { length words.now ≤ 2 ^ 31 }
    requires placed { IsPlaced edition words.now i }
    requires refs { refs ≡ refs_of (header_at edition words.now i) }
    requires weak { weak ≡ weak_of (header_at edition words.now i) }
    ensures { result.now ≡ (object_at edition words.now i).weak }
{
    // Only the clauses read it.
    let _ = edition;
    let first = i + 1 + refs;
    &words[first..first + weak]
}

// Whether the object at index `ahead` ends within the words, or lies near index `i`. It has its turn later, and by
// then its header has come from memory, while other objects are followed.
#[inline(always)]
fn ends_within(edition: Edition, words: &[u64], i: usize, ahead: usize) -> bool
    requires { ahead < length words.now }
    ensures { result ≡ false → length words.now < ahead + size_of (header_at edition words.now ahead) }
{
    ahead.abs_diff(i) <= NEAR || shape_of(edition, words[ahead]).size <= words.len() - ahead
}

/// Meets each object that these roots and fields reach above index `old`: sets the bit of its first word in `heads`,
/// and those of all its words in `bits`. Old objects are not followed, and the bits below bit `old` stay: those of
/// `heads` say where old objects start. Err with a fault, or if memory runs out. Above no bit may be set before, and
/// the queue must be empty.
#[inline(always)]
pub(crate) fn mark_above(
    edition: Edition,
    old: usize,
    words: &[u64],
    fields: &[u32],
    roots: &[u64],
    heads: &mut [u64],
    bits: &mut [u64],
    queue: &mut Vec<u32>,
) -> Result<(), SurveyFault>
    requires few { length words.now ≤ 2 ^ 31 }
    requires sizes { (length words.now ≤ most_words edition) × (length roots.now ≤ most_roots edition) }
    requires few_bits { length heads.old ≤ 2 ^ 25 }
    requires room { length words.now ≤ 64 * length heads.old }
    requires long { length bits.old ≡ length heads.old }
    requires within { old ≤ length words.now }
    requires fields { All (λ j. j < old) fields.now }
    requires no_heads { (i : ℕ) → old ≤ i → bit heads.old i ≡ false }
    requires no_bits { (i : ℕ) → old ≤ i → bit bits.old i ≡ false }
    requires empty { queue.old.items ≡ [] }
    ensures reached { OnOk result ((i : ℕ) → old ≤ i → bit heads.new i ≡ true
        → IsReachedAbove edition old words.now (seeds words.now roots.now fields.now) i) }
    ensures all { OnOk result ((i : ℕ) → IsReachedAbove edition old words.now (seeds words.now roots.now fields.now) i
        → bit heads.new i ≡ true) }
    ensures done { OnOk result ((i : ℕ) → old ≤ i → bit heads.new i ≡ true
        → IsDoneAbove edition heads.old old words.now bits.new i) }
    ensures only { OnOk result ((j : ℕ) → old ≤ j → bit bits.new j ≡ true → (i : ℕ) × (old ≤ i)
        × (bit heads.new i ≡ true) × IsWordOf edition words.now i j) }
    ensures apart { OnOk result ((i j : ℕ) → old ≤ i → bit heads.new i ≡ true → bit heads.new j ≡ true → i < j
        → i + size_of (header_at edition words.now i) ≤ j) }
    ensures roots { OnOk result (AllLed edition heads.old old (length words.now) roots.now) }
    ensures led { OnOk result (AllLed edition heads.old old (length words.now) (words_at words.now fields.now)) }
    ensures fault { IfErr result (IsYoungFaultOf edition words.now roots.now heads.old old fields.now []) }
    ensures short { IfErr result (λ fault. fault ≡ survey.OutOfMemory → vec_capacity queue.old < length words.now) }
    ensures heads_below { AreKeptBelow old heads.old heads.new }
    ensures bits_below { AreKeptBelow old bits.old bits.new }
    ensures same { length heads.new ≡ length heads.old }
    ensures long { length bits.new ≡ length bits.old }
    ensures capacity { vec_capacity queue.old ≤ vec_capacity queue.new }
{
    let count = words.len();
    match meet_all_above(edition, old, count, heads, queue, roots) {
        Ok(()) => {}
        Err(Stop::Memory) => return Err(SurveyFault::OutOfMemory),
        Err(Stop::Stray(k)) => return Err(SurveyFault::BadRoot(k as u64)),
    }
    match meet_fields(edition, old, words, heads, queue, fields) {
        Ok(()) => {}
        Err(Stop::Memory) => return Err(SurveyFault::OutOfMemory),
        Err(Stop::Stray(k)) => return Err(SurveyFault::BadReference(k as u64)),
    }
    let mut next = 0;
    while next < queue.len() {
        let i = queue[next] as usize;
        if next + AHEAD < queue.len() {
            let ahead = queue[next + AHEAD] as usize;
            if !ends_within(edition, words, i, ahead) {
                return Err(SurveyFault::ObjectPastEnd(ahead as u64));
            }
        }
        let shape = shape_of(edition, words[i]);
        if shape.size > edition.max_object_words() {
            return Err(SurveyFault::ObjectTooLong(i as u64));
        }
        if shape.size > count - i {
            return Err(SurveyFault::ObjectPastEnd(i as u64));
        }
        if !take_run(bits, i, shape.size) {
            return Err(SurveyFault::Overlap(i as u64));
        }
        let references = references(edition, words, i, shape.refs);
        match meet_all_above(edition, old, count, heads, queue, references) {
            Ok(()) => {}
            Err(Stop::Memory) => return Err(SurveyFault::OutOfMemory),
            Err(Stop::Stray(k)) => return Err(SurveyFault::BadReference((i + 1 + k) as u64)),
        }
        let weak = weak_words(edition, words, i, shape.refs, shape.weak);
        if let Err(k) = check_leads(edition, count, weak) {
            return Err(SurveyFault::BadWeak((i + 1 + shape.refs + k) as u64));
        }
        next += 1;
    }
    Ok(())
}

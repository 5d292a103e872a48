//! Takes the words of objects that the caller marked.
ghost use Rattle.std.specs.Prelude.{◌≡◌, ◌≢◌, ℕ, ◌+◌, ◌*◌, ◌^◌, ◌<◌, ◌≤◌, true, false, List, length, slice_index, IfErr, OnOk};
ghost use Rattle.heap_layout.specs.Bits.{bit, leads};
ghost use Rattle.heap_layout.specs.Values.{or_immediate};
ghost use Rattle.rest_marks.specs.Marks.{IsMarkingFaultOf, AllKept, IsKept, AreBefore};
ghost use Rattle.rest_marks.specs.Meeting.{AreApart};
ghost use Rattle.rest_marks.specs.Reached.{IsWordOf};
ghost use Rattle.rest_marks.specs.declared.fault.MarksFault.TheVariants as refusal;

use crate::bit_search::next_set;
use crate::bits::take_run;
use crate::fault::MarksFault;
use crate::forwarding::is_kept;
use crate::marking::{references, weak_words};
use crate::queue::check_leads;
use crate::shape::shape_of;
use heap_layout::Edition;

/// Whether a word is null, the address of a marked object, or an immediate.
#[inline(always)]
pub fn leads_to(edition: Edition, heads: &[u64], word: u64) -> bool
    requires { length heads.now ≤ 2 ^ 25 }
    ensures { result ≡ or_immediate edition (leads heads.now) word }
{
    word == 0 || is_kept(heads, word) || edition.is_immediate(word)
}

/// Err with the number of the first of these words that is neither null nor the address of a marked object, nor an
/// immediate.
#[inline(always)]
pub fn check_kept(edition: Edition, heads: &[u64], words: &[u64]) -> Result<(), usize>
    requires { length heads.now ≤ 2 ^ 25 }
    ensures all { OnOk result (AllKept edition heads.now words.now) }
    ensures first { IfErr result (λ k. (j : ℕ) → j < k → or_immediate edition (leads heads.now) (slice_index words.now j) ≡ true) }
    ensures inside { IfErr result (λ k. k < length words.now) }
    ensures stray { IfErr result (λ k. or_immediate edition (leads heads.now) (slice_index words.now k) ≡ false) }
{
    for k in 0..words.len() {
        if !leads_to(edition, heads, words[k]) {
            return Err(k);
        }
    }
    Ok(())
}

// Takes the words of the marked object at index `i`: sets their bits. The bits that are set before must be those of
// marked objects before it.
#[inline(always)]
fn take_mark(
    edition: Edition,
    words: &[u64],
    heads: &[u64],
    bits: &mut [u64],
    i: usize,
) -> Result<(), MarksFault>
    requires few { length words.now ≤ 2 ^ 31 }
    requires few_bits { length heads.now ≤ 2 ^ 25 }
    requires room { length words.now ≤ 64 * length heads.now }
    requires long { length bits.old ≡ length heads.now }
    requires head { bit heads.now i ≡ true }
    requires before { AreBefore edition words.now heads.now i bits.old }
    ensures kept { OnOk result (IsKept edition words.now heads.now i) }
    ensures free { OnOk result ((j : ℕ) → IsWordOf edition words.now i j → bit bits.old j ≡ false) }
    ensures inside { OnOk result ((j : ℕ) → IsWordOf edition words.now i j → bit bits.new j ≡ true) }
    ensures stay { OnOk result ((j : ℕ) → bit bits.old j ≡ true → bit bits.new j ≡ true) }
    ensures before { OnOk result (AreBefore edition words.now heads.now (i + 1) bits.new) }
    ensures fault { IfErr result (λ fault. (roots : List ℕ) → IsMarkingFaultOf edition words.now roots heads.now fault) }
    ensures never { IfErr result (λ fault. fault ≢ refusal.OutOfMemory) }
    ensures long { length bits.new ≡ length bits.old }
{
    let count = words.len();
    if i >= count {
        return Err(MarksFault::ObjectPastEnd(i as u64));
    }
    let shape = shape_of(edition, words[i]);
    if shape.size > edition.max_object_words() {
        return Err(MarksFault::ObjectTooLong(i as u64));
    }
    if shape.size > count - i {
        return Err(MarksFault::ObjectPastEnd(i as u64));
    }
    if !take_run(bits, i, shape.size) {
        return Err(MarksFault::Overlap(i as u64));
    }
    let references = references(edition, words, i, shape.refs);
    if let Err(k) = check_kept(edition, heads, references) {
        return Err(MarksFault::UnmarkedTarget((i + 1 + k) as u64));
    }
    let weak = weak_words(edition, words, i, shape.refs, shape.weak);
    if let Err(k) = check_leads(edition, count, weak) {
        return Err(MarksFault::BadWeak((i + 1 + shape.refs + k) as u64));
    }
    Ok(())
}

/// Takes the words of all marked objects: sets their bits. Err with a fault that is there. No bit may be set before.
pub fn take_marks(
    edition: Edition,
    words: &[u64],
    heads: &[u64],
    bits: &mut [u64],
) -> Result<(), MarksFault>
    requires few { length words.now ≤ 2 ^ 31 }
    requires few_bits { length heads.now ≤ 2 ^ 25 }
    requires room { length words.now ≤ 64 * length heads.now }
    requires long { length bits.old ≡ length heads.now }
    requires no_bits { (i : ℕ) → bit bits.old i ≡ false }
    ensures kept { OnOk result ((i : ℕ) → bit heads.now i ≡ true → IsKept edition words.now heads.now i) }
    ensures run { OnOk result ((i j : ℕ) → bit heads.now i ≡ true → IsWordOf edition words.now i j → bit bits.new j ≡ true) }
    ensures only { OnOk result ((j : ℕ) → bit bits.new j ≡ true → (i : ℕ) × (bit heads.now i ≡ true) × IsWordOf edition words.now i j) }
    ensures apart { OnOk result (AreApart edition words.now heads.now) }
    ensures fault { IfErr result (λ fault. (roots : List ℕ) → IsMarkingFaultOf edition words.now roots heads.now fault) }
    ensures never { IfErr result (λ fault. fault ≢ refusal.OutOfMemory) }
    ensures long { length bits.new ≡ length bits.old }
{
    let end = 64 * heads.len();
    let mut next = 0;
    while next < end {
        let found = next_set(heads, next);
        let i = found.min(end);
        if i < end {
            take_mark(edition, words, heads, bits, i)?;
        }
        next = i + 1;
    }
    Ok(())
}

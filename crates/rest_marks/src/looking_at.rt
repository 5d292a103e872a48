//! Looks at an object whose words were handed in.
ghost use Rattle.std.specs.Prelude.{◌≡◌, ◌⊎◌, ℕ, ◌+◌, ◌*◌, ◌^◌, ◌<◌, ◌≤◌, true, false, List, length, slice_index, take, drop, IfErr, OnOk};
ghost use Rattle.heap_layout.specs.Bits.{bit};
ghost use Rattle.heap_layout.specs.Header.{refs_of, weak_of, size_of};
ghost use Rattle.heap_layout.specs.Heap.{header_at, object_at};
ghost use Rattle.heap_layout.specs.Limits.{most_object_words};
ghost use Rattle.rest_marks.specs.LookFaults.{IsFieldsFault, IsPlacingFault};
ghost use Rattle.rest_marks.specs.Looks.{met_by, IsAt, AreLookedAt, AreSameBut};
ghost use Rattle.rest_marks.specs.Meeting.{AllLead, AreMet, AreOnce};

use crate::bits::take_run;
use crate::fault::LookFault;
use crate::queue::{Stop, check_leads, meet_all};
use crate::shape::shape_of;
use heap_layout::Edition;

/// Some of the words that were handed in.
#[inline(always)]
pub(crate) fn part(run: &[u64], first: usize, many: usize) -> &[u64]
    requires { first + many ≤ length run.now }
    ensures { result.now ≡ take many (drop first run.now) }
{
    &run[first..first + many]
}

/// Sets the bits of the words of the object at index `i`, which its header says. Err if it does not lie within `count`
/// words, or if one of its bits is set.
#[inline(always)]
pub(crate) fn place(
    edition: Edition,
    count: usize,
    bits: &mut [u64],
    i: usize,
    run: &[u64],
) -> Result<(), LookFault>
    requires few { count ≤ 2 ^ 31 }
    requires few_bits { length bits.old ≤ 2 ^ 25 }
    requires room { count ≤ 64 * length bits.old }
    requires inside { i < count }
    requires some { 0 < length run.now }
    ensures within { OnOk result (i + size_of (header_at edition run.now 0) ≤ count) }
    ensures short { OnOk result (size_of (header_at edition run.now 0) ≤ most_object_words edition) }
    ensures free { OnOk result ((j : ℕ) → i ≤ j → j < i + size_of (header_at edition run.now 0) → bit bits.old j ≡ false) }
    ensures below { OnOk result ((j : ℕ) → j < i → bit bits.new j ≡ bit bits.old j) }
    ensures inside { OnOk result ((j : ℕ) → i ≤ j → j < i + size_of (header_at edition run.now 0) → bit bits.new j ≡ true) }
    ensures above { OnOk result ((j : ℕ) → i + size_of (header_at edition run.now 0) ≤ j → bit bits.new j ≡ bit bits.old j) }
    ensures fault { IfErr result (IsPlacingFault edition count bits.old i run.now) }
    ensures length { length bits.new ≡ length bits.old }
{
    let size = shape_of(edition, run[0]).size;
    if size > edition.max_object_words() {
        return Err(LookFault::ObjectTooLong(i as u64));
    }
    if size > count - i {
        return Err(LookFault::ObjectPastEnd(i as u64));
    }
    if !take_run(bits, i, size) {
        return Err(LookFault::Overlap(i as u64));
    }
    Ok(())
}

// Meets the objects to which the references of the object at index `i` lead.
fn meet_fields(
    edition: Edition,
    count: usize,
    heads: &mut [u64],
    queue: &mut Vec<u32>,
    i: usize,
    run: &[u64],
) -> Result<(), LookFault>
    requires few { count ≤ 2 ^ 31 }
    requires room { count ≤ 64 * length heads.old }
    requires met { AreMet queue.old.items heads.old }
    requires once { AreOnce count queue.old.items }
    requires inside { i < count }
    requires some { 0 < length run.now }
    ensures long { OnOk result (1 + refs_of (header_at edition run.now 0) + weak_of (header_at edition run.now 0) ≤ length run.now) }
    ensures queue { OnOk result (queue.new.items ≡ met_by count queue.old.items (object_at edition run.now 0).references) }
    ensures references { OnOk result (AllLead edition count (object_at edition run.now 0).references) }
    ensures weak { OnOk result (AllLead edition count (object_at edition run.now 0).weak) }
    ensures met { OnOk result (AreMet queue.new.items heads.new) }
    ensures once { OnOk result (AreOnce count queue.new.items) }
    ensures fault { IfErr result (IsFieldsFault edition count queue.old.items i run.now) }
    ensures heads { length heads.new ≡ length heads.old }
{
    let shape = shape_of(edition, run[0]);
    let fields = shape.refs + shape.weak;
    if run.len() <= fields {
        return Err(LookFault::ShortRun(1 + fields as u64));
    }
    let references = part(run, 1, shape.refs);
    match meet_all(edition, count, heads, queue, references) {
        Ok(()) => {}
        Err(Stop::Memory) => return Err(LookFault::OutOfMemory),
        Err(Stop::Stray(k)) => return Err(LookFault::BadReference((i + 1 + k) as u64)),
    }
    let weak = part(run, 1 + shape.refs, shape.weak);
    if let Err(k) = check_leads(edition, count, weak) {
        return Err(LookFault::BadWeak((i + 1 + shape.refs + k) as u64));
    }
    Ok(())
}

/// Looks at the object at index `i`, whose words are these, as far as they were handed in: sets the bits of its words,
/// and meets the objects to which its references lead.
pub fn look_at(
    edition: Edition,
    count: usize,
    heads: &mut [u64],
    bits: &mut [u64],
    queue: &mut Vec<u32>,
    i: usize,
    run: &[u64],
) -> Result<(), LookFault>
    requires few { count ≤ 2 ^ 31 }
    requires few_bits { length bits.old ≤ 2 ^ 25 }
    requires room { count ≤ 64 * length heads.old }
    requires long { length heads.old ≡ length bits.old }
    requires met { AreMet queue.old.items heads.old }
    requires once { AreOnce count queue.old.items }
    requires inside { i < count }
    ensures looked { OnOk result ((words : List ℕ) (next : ℕ) → length words ≡ count → next < length queue.old.items → slice_index queue.old.items next ≡ i
        → IsAt words i run.now → AreLookedAt edition words queue.old.items next heads.old bits.old
        → AreLookedAt edition words queue.new.items (next + 1) heads.new bits.new) }
    ensures queue { OnOk result (queue.new.items ≡ met_by count queue.old.items (object_at edition run.now 0).references) }
    ensures stay { OnOk result ((k : ℕ) → k < length queue.old.items → (k < length queue.new.items) × (slice_index queue.new.items k ≡ slice_index queue.old.items k)) }
    ensures met { OnOk result (AreMet queue.new.items heads.new) }
    ensures once { OnOk result (AreOnce count queue.new.items) }
    ensures set { OnOk result ((j : ℕ) → bit bits.old j ≡ true → bit bits.new j ≡ true) }
    ensures words { OnOk result ((j : ℕ) → i ≤ j → j < i + size_of (header_at edition run.now 0) → bit bits.new j ≡ true) }
    ensures only { OnOk result ((j : ℕ) → bit bits.new j ≡ true → (bit bits.old j ≡ true) ⊎ ((i ≤ j) × (j < i + size_of (header_at edition run.now 0)))) }
    ensures fault { IfErr result (λ fault. IsPlacingFault edition count bits.old i run.now fault ⊎ IsFieldsFault edition count queue.old.items i run.now fault) }
    ensures heads { length heads.new ≡ length heads.old }
    ensures bits { length bits.new ≡ length bits.old }
{
    if run.len() == 0 {
        return Err(LookFault::ShortRun(1));
    }
    place(edition, count, bits, i, run)?;
    meet_fields(edition, count, heads, queue, i, run)?;
    Ok(())
}

/// Looks again at the object at index `i`: meets the objects to which its references lead now. It must be as long as it
/// was, if it was looked at before.
pub fn look_again_at(
    edition: Edition,
    count: usize,
    heads: &mut [u64],
    queue: &mut Vec<u32>,
    i: usize,
    run: &[u64],
) -> Result<(), LookFault>
    requires few { count ≤ 2 ^ 31 }
    requires room { count ≤ 64 * length heads.old }
    requires met { AreMet queue.old.items heads.old }
    requires once { AreOnce count queue.old.items }
    requires inside { i < count }
    ensures looked { OnOk result ((before now bits : List ℕ) (next : ℕ) → length before ≡ count → length now ≡ count → next ≤ length queue.old.items
        → IsAt now i run.now → AreSameBut edition before now queue.old.items next i
        → AreLookedAt edition before queue.old.items next heads.old bits → AreLookedAt edition now queue.new.items next heads.new bits) }
    ensures queue { OnOk result (queue.new.items ≡ met_by count queue.old.items (object_at edition run.now 0).references) }
    ensures stay { OnOk result ((k : ℕ) → k < length queue.old.items → (k < length queue.new.items) × (slice_index queue.new.items k ≡ slice_index queue.old.items k)) }
    ensures met { OnOk result (AreMet queue.new.items heads.new) }
    ensures once { OnOk result (AreOnce count queue.new.items) }
    ensures fault { IfErr result (IsFieldsFault edition count queue.old.items i run.now) }
    ensures heads { length heads.new ≡ length heads.old }
{
    if run.len() == 0 {
        return Err(LookFault::ShortRun(1));
    }
    meet_fields(edition, count, heads, queue, i, run)?;
    Ok(())
}

//! The checks that a heap passes before it is accepted, in the order in which their faults count.
ghost use Rattle.std.specs.Prelude.{◌≡◌, ℕ, ◌+◌, ◌*◌, ◌^◌, ◌<◌, ◌≤◌, ◌==◌, ◌&&◌, ◌++◌, nat_lt, false, [], All, length, slice_index, IfOk};
ghost use Rattle.std.specs.List.{flat_map};
ghost use Rattle.heap_layout.specs.Heap.{starts, is_start, is_target, IsPlaced};
ghost use Rattle.heap_layout.specs.Bits.{bit, leads};
ghost use Rattle.heap_layout.specs.Values.{or_immediate};
ghost use Rattle.heap_layout.specs.Faults.{IsReached, Meets, size_faults, object_faults, mark_faults, root_faults_by, misled, reference_faults_by, field_faults_by, weak_faults, part_faults, faults, Reports, Answers};

use crate::bits::set_if;
use crate::edition::Edition;
use crate::fault::LayoutFault;
use crate::header::Header;
use crate::kind::Kind;
use crate::targets::{holds, put_marks, put_row};
use std::alloc::Global;

/// Checks a heap made of these parts: Ok if it is accepted, otherwise Err with its first fault. It allocates a bit for
/// each word, and `OutOfMemory` may replace any other answer but `TooLarge`.
pub fn check(
    alloc: Global,
    edition: Edition,
    words: &[u64],
    marks: &[u32],
    roots: &[u64],
) -> Result<(), LayoutFault>
    ensures { Answers (faults (record { edition = edition; words = words.now; marks = marks.now; roots = roots.now })) result }
{
    check_sizes(edition, words.len(), marks.len(), roots.len())?;
    let mut bits = vec![in alloc; 0; words.len() / 64 + 1]?;
    check_parts(&mut bits, edition, words, marks, roots)
}

// The checks after that of the sizes, with these bits, which must be none, and enough for all words.
fn check_parts(
    bits: &mut [u64],
    edition: Edition,
    words: &[u64],
    marks: &[u32],
    roots: &[u64],
) -> Result<(), LayoutFault>
    requires few { length words.now ≤ 2 ^ 31 }
    requires some { 0 < length bits.old }
    requires fits { length bits.old ≤ 2 ^ 26 }
    requires room { length words.now ≤ 64 * length bits.old }
    requires none { (i : ℕ) → bit bits.old i ≡ false }
    ensures { Reports (part_faults (record { edition = edition; words = words.now; marks = marks.now; roots = roots.now })) result }
{
    check_objects(bits, edition, words, marks)?;
    check_roots(bits, edition, roots)?;
    check_fields(bits, Kind::Reference, edition, words, marks)?;
    check_weak(bits, edition, words, marks)
}

/// Checks the numbers of words, marks and roots against the limits of the edition: Err with `TooLarge` if one is
/// exceeded.
pub fn check_sizes(
    edition: Edition,
    words: usize,
    marks: usize,
    roots: usize,
) -> Result<(), LayoutFault>
    ensures { Reports (size_faults edition words marks roots) result }
{
    if words > edition.max_words() || marks > edition.max_marks() || roots > edition.max_roots() {
        Err(LayoutFault::TooLarge)
    } else {
        Ok(())
    }
}

// Checks the objects, then the marks. No object may be too long or end past the words. Each mark must be above the one
// before it and be the start of an object. No bit must be set; after an Ok the bits are those of the marked objects.
fn check_objects(
    bits: &mut [u64],
    edition: Edition,
    words: &[u64],
    marks: &[u32],
) -> Result<(), LayoutFault>
    requires few { length words.now ≤ 2 ^ 31 }
    requires room { length words.now ≤ 64 * length bits.old }
    requires none { (i : ℕ) → bit bits.old i ≡ false }
    ensures length { length bits.new ≡ length bits.old }
    ensures reported { Reports (flat_map (object_faults edition words.now) (starts edition words.now) ++ mark_faults (starts edition words.now) 0 marks.now) result }
    ensures targets { IfOk result (λ _. leads bits.new ≡ is_target marks.now) }
{
    let met = check_row(bits, edition, words, marks)?;
    if met == marks.len() {
        return Ok(());
    }
    // A mark that was not met has a fault, and `check_marks` finds it. No clause of `check_row` says so, and what
    // follows keeps the promise without it.
    check_marks(edition, words, marks)?;
    put_marks(bits, marks);
    Ok(())
}

// Checks that no object is too long or ends past the words. Answers how many marks, from the first on, were met in
// order at starts of objects. Their bits are then set, and no others; no bit must be set before.
fn check_row(
    bits: &mut [u64],
    edition: Edition,
    words: &[u64],
    marks: &[u32],
) -> Result<usize, LayoutFault>
    requires few { length words.now ≤ 2 ^ 31 }
    requires room { length words.now ≤ 64 * length bits.old }
    requires none { (i : ℕ) → bit bits.old i ≡ false }
    ensures length { length bits.new ≡ length bits.old }
    ensures reported { Reports (flat_map (object_faults edition words.now) (starts edition words.now)) result }
    ensures met { IfOk result (λ met. Meets (starts edition words.now) marks.now met bits.new) }
{
    let mut met = 0;
    let mut start = 0;
    while start < words.len() {
        let size = Header::from_word_of(edition, words[start]).size() as usize;
        if size > edition.max_object_words() {
            return Err(LayoutFault::ObjectTooLong(start as u64));
        }
        if size > words.len() - start {
            return Err(LayoutFault::ObjectPastEnd(start as u64));
        }
        let marked = is_mark(marks, met, start);
        set_if(bits, marked, start);
        met += usize::from(marked);
        start += size;
    }
    Ok(met)
}

// Whether there is a mark with this number and it equals `i`.
fn is_mark(marks: &[u32], number: usize, i: usize) -> bool
    ensures { result ≡ (nat_lt number (length marks.now) && (slice_index marks.now number == i)) }
{
    number < marks.len() && marks[number] as usize == i
}

// Checks that each mark is above the one before it and is the start of an object.
fn check_marks(edition: Edition, words: &[u64], marks: &[u32]) -> Result<(), LayoutFault>
    requires few { length words.now ≤ 2 ^ 31 }
    requires row { flat_map (object_faults edition words.now) (starts edition words.now) ≡ [] }
    ensures { Reports (mark_faults (starts edition words.now) 0 marks.now) result }
{
    let mut low = 0;
    let mut start = 0;
    for &mark in marks {
        let mark = mark as usize;
        if mark < low {
            return Err(LayoutFault::MarksNotRising(mark as u64));
        }
        start = next_start(edition, words, start, mark);
        if start != mark || mark >= words.len() {
            return Err(LayoutFault::MarkNotStart(mark as u64));
        }
        low = mark + 1;
    }
    Ok(())
}

// The first object start at or above `low`, or the end of the words. The walk begins with the object at `start`.
fn next_start(edition: Edition, words: &[u64], mut start: usize, low: usize) -> usize
    requires few { length words.now ≤ 2 ^ 31 }
    requires reached { IsReached edition words.now start }
    requires order { start ≤ low }
    ensures reached { IsReached edition words.now result }
    ensures found { is_start (starts edition words.now) low ≡ (result == low && nat_lt low (length words.now)) }
{
    while start < low && start < words.len() {
        start += Header::from_word_of(edition, words[start]).size() as usize;
    }
    start
}

// Checks that each root is null, the address of a marked object, or an immediate.
fn check_roots(bits: &[u64], edition: Edition, roots: &[u64]) -> Result<(), LayoutFault>
    requires some { 0 < length bits.now }
    requires fits { length bits.now ≤ 2 ^ 26 }
    ensures { Reports (root_faults_by (or_immediate edition (leads bits.now)) roots.now) result }
{
    for (number, &root) in roots.iter().enumerate() {
        if !holds(bits, edition, root) {
            return Err(LayoutFault::BadRoot(number as u64));
        }
    }
    Ok(())
}

// Checks that each weak word of each marked object is null, the address of an object, marked or not, or an immediate.
// Of a row with weak words the bits are then those of all objects.
fn check_weak(
    bits: &mut [u64],
    edition: Edition,
    words: &[u64],
    marks: &[u32],
) -> Result<(), LayoutFault>
    requires few { length words.now ≤ 2 ^ 31 }
    requires some { 0 < length bits.old }
    requires fits { length bits.old ≤ 2 ^ 26 }
    requires room { length words.now ≤ 64 * length bits.old }
    requires row { flat_map (object_faults edition words.now) (starts edition words.now) ≡ [] }
    requires placed { All (IsPlaced edition words.now) marks.now }
    ensures { Reports (weak_faults edition words.now marks.now) result }
{
    match edition {
        Edition::One => Ok(()),
        Edition::Two | Edition::Three | Edition::Four => {
            put_row(bits, edition, words);
            check_fields(bits, Kind::Weak, edition, words, marks)
        }
    }
}

// Checks that each field of this kind of each marked object is null, leads to one of the targets, or is an immediate.
#[inline(always)]
fn check_fields(
    bits: &[u64],
    kind: Kind,
    edition: Edition,
    words: &[u64],
    marks: &[u32],
) -> Result<(), LayoutFault>
    requires few { length words.now ≤ 2 ^ 31 }
    requires some { 0 < length bits.now }
    requires fits { length bits.now ≤ 2 ^ 26 }
    requires placed { All (IsPlaced edition words.now) marks.now }
    ensures { Reports (field_faults_by kind edition (or_immediate edition (leads bits.now)) words.now marks.now) result }
{
    for &mark in marks {
        let header = Header::from_word_of(edition, words[mark as usize]);
        let first = mark as usize + header.first(kind) as usize;
        let count = header.count(kind) as usize;
        check_references(
            bits,
            kind,
            edition,
            first as u64,
            &words[first..first + count],
        )?;
    }
    Ok(())
}

// Checks that each of these words is null, leads to one of the targets, or is an immediate. They are of one kind; the
// first has index `first`.
fn check_references(
    bits: &[u64],
    kind: Kind,
    edition: Edition,
    first: u64,
    references: &[u64],
) -> Result<(), LayoutFault>
    requires some { 0 < length bits.now }
    requires fits { length bits.now ≤ 2 ^ 26 }
    requires few { first + length references.now ≤ 2 ^ 32 }
    ensures { Reports (reference_faults_by kind (or_immediate edition (leads bits.now)) first references.now) result }
{
    for (i, &reference) in references.iter().enumerate() {
        if !holds(bits, edition, reference) {
            return Err(misled(kind, first + i as u64));
        }
    }
    Ok(())
}

// The fault of a word of this kind, at index `i`, that is neither null nor an immediate, and leads to none of its
// targets.
fn misled(kind: Kind, i: u64) -> LayoutFault
    ensures { result ≡ misled kind i }
{
    match kind {
        Kind::Weak => LayoutFault::BadWeak(i),
        _ => LayoutFault::UnmarkedTarget(i),
    }
}

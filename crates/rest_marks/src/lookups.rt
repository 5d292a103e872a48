//! What the references of some objects lead to, and the queue and the bits of the objects that were met. Threads look
//! it up side by side, with the bits read alone; the caller then meets what they found.
ghost use Rattle.std.specs.Prelude.{◌≡◌, ℕ, ◌*◌, ◌^◌, ◌<◌, ◌≤◌, true, All, length, IfSome, OnOk};
ghost use Rattle.heap_layout.specs.Header.{refs_of, size_of};
ghost use Rattle.heap_layout.specs.Heap.{from_address, header_at, IsPlaced};
ghost use Rattle.rest_marks.specs.Reached.{IsReachedFrom};
ghost use Rattle.rest_marks.specs.Rounds.{AreReaching, IsFoundPart, IsReachedBy, LeadToReached};

use crate::following::{Ahead, WIDE};
use crate::marking::references;
use crate::shape::{Shape, shape_of};
use heap_layout::{Edition, FROM_SPACE, is_set, set};
use std::alloc::{AllocError, Global};

// The index of the word whose address this is, if it is that of one of `count` words.
#[inline(always)]
fn index_of(count: usize, word: u64) -> Option<usize>
    requires { count ≤ 2 ^ 31 }
    ensures inside { IfSome result (λ i. i < count) }
    ensures address { IfSome result (λ i. word ≡ from_address i) }
{
    let i = word.wrapping_sub(FROM_SPACE);
    if i >= count as u64 {
        return None;
    }
    Some(i as usize)
}

/// How many references the object at index `i` has. None if it is too long for the edition or ends past the words.
#[inline(always)]
pub(crate) fn refs_at(edition: Edition, words: &[u64], i: usize) -> Option<usize>
    requires few { length words.now ≤ 2 ^ 31 }
    requires inside { i < length words.now }
    ensures placed { IfSome result (λ _. IsPlaced edition words.now i) }
    ensures refs { IfSome result (λ refs. refs ≡ refs_of (header_at edition words.now i)) }
{
    let shape = shape_of(edition, words[i]);
    if shape.size > edition.max_object_words() || shape.size > words.len() - i {
        return None;
    }
    Some(shape.refs)
}

// Puts the object to which a word leads at the end of the list, if its bit is not set.
#[inline(always)]
fn find(
    edition: Edition,
    words: &[u64],
    roots: &[u64],
    heads: &[u64],
    found: &mut Vec<u32>,
    word: u64,
) -> Result<(), AllocError>
    requires few { length words.now ≤ 2 ^ 31 }
    requires room { length words.now ≤ 64 * length heads.now }
    requires lead { IsReachedBy edition words.now roots.now word }
    requires found { All (IsReachedFrom edition words.now roots.now) found.old.items }
    ensures { OnOk result (All (IsReachedFrom edition words.now roots.now) found.new.items) }
{
    // Only the clauses read these.
    let _ = edition;
    let _ = roots;
    let Some(i) = index_of(words.len(), word) else {
        return Ok(());
    };
    if is_set(heads, i) {
        return Ok(());
    }
    found.push(i as u32)?;
    Ok(())
}

// The same for the references of the object at index `i`, which has this shape. The answer is false if it is too long
// for the edition or ends past the words, or memory runs out.
#[inline(always)]
fn find_from(
    edition: Edition,
    words: &[u64],
    roots: &[u64],
    heads: &[u64],
    found: &mut Vec<u32>,
    i: usize,
    shape: Shape,
) -> bool
    requires few { length words.now ≤ 2 ^ 31 }
    requires room { length words.now ≤ 64 * length heads.now }
    requires reached { IsReachedFrom edition words.now roots.now i }
    requires refs { shape.refs ≡ refs_of (header_at edition words.now i) }
    requires size { shape.size ≡ size_of (header_at edition words.now i) }
    requires found { All (IsReachedFrom edition words.now roots.now) found.old.items }
    ensures { result ≡ true → All (IsReachedFrom edition words.now roots.now) found.new.items }
{
    if shape.size > edition.max_object_words() || shape.size > words.len() - i {
        return false;
    }
    let from = references(edition, words, i, shape.refs);
    for k in 0..from.len() {
        if find(edition, words, roots, heads, found, from[k]).is_err() {
            return false;
        }
    }
    true
}

/// The objects to which these words lead, except those whose bits are set. One to which several lead is there as often.
/// None if memory runs out.
pub(crate) fn found_among(
    alloc: Global,
    edition: Edition,
    words: &[u64],
    roots: &[u64],
    heads: &[u64],
    from: &[u64],
) -> Option<Vec<u32>>
    requires few { length words.now ≤ 2 ^ 31 }
    requires room { length words.now ≤ 64 * length heads.now }
    requires lead { All (IsReachedBy edition words.now roots.now) from.now }
    ensures { IsFoundPart edition words.now roots.now result }
{
    let mut found = Vec::new(alloc);
    for k in 0..from.len() {
        if find(edition, words, roots, heads, &mut found, from[k]).is_err() {
            return None;
        }
    }
    Some(found)
}

/// The objects to which the references of these objects lead, except those whose bits are set. One to which several
/// references lead is there as often. None if memory runs out, or an object is too long or ends past the words.
pub(crate) fn found_by(
    alloc: Global,
    edition: Edition,
    words: &[u64],
    roots: &[u64],
    heads: &[u64],
    objects: &[u32],
) -> Option<Vec<u32>>
    requires few { length words.now ≤ 2 ^ 31 }
    requires room { length words.now ≤ 64 * length heads.now }
    requires objects { All (IsReachedFrom edition words.now roots.now) objects.now }
    ensures { IsFoundPart edition words.now roots.now result }
{
    let Ok(mut found) = Vec::with_capacity(alloc, objects.len()) else {
        return None;
    };
    let mut ahead = Ahead::none(0);
    let mut headers = [0u64; WIDE];
    for k in 0..objects.len() {
        let i = objects[k] as usize;
        let shape = ahead.shape(edition, words, objects, &mut headers, k, i);
        if !find_from(edition, words, roots, heads, &mut found, i, shape) {
            return None;
        }
    }
    Some(found)
}

// Puts the object at index `i` at the end of the queue and sets its bit, if that is not set.
#[inline(always)]
fn meet_object(
    edition: Edition,
    words: &[u64],
    roots: &[u64],
    heads: &mut [u64],
    queue: &mut Vec<u32>,
    i: usize,
) -> Result<(), AllocError>
    requires few { length words.now ≤ 2 ^ 31 }
    requires room { length words.now ≤ 64 * length heads.old }
    requires reached { IsReachedFrom edition words.now roots.now i }
    requires met { AreReaching edition words.now roots.now queue.old.items heads.old }
    ensures met { OnOk result (AreReaching edition words.now roots.now queue.new.items heads.new) }
    ensures longer { length queue.old.items ≤ length queue.new.items }
    ensures length { length heads.new ≡ length heads.old }
{
    // Only the clauses read these.
    let _ = edition;
    let _ = words;
    let _ = roots;
    if is_set(heads, i) {
        return Ok(());
    }
    queue.push(i as u32)?;
    set(heads, i);
    Ok(())
}

// Meets the object to which a word leads, if it leads to one.
#[inline(always)]
fn meet_by(
    edition: Edition,
    words: &[u64],
    roots: &[u64],
    heads: &mut [u64],
    queue: &mut Vec<u32>,
    word: u64,
) -> Result<(), AllocError>
    requires few { length words.now ≤ 2 ^ 31 }
    requires room { length words.now ≤ 64 * length heads.old }
    requires lead { IsReachedBy edition words.now roots.now word }
    requires met { AreReaching edition words.now roots.now queue.old.items heads.old }
    ensures met { OnOk result (AreReaching edition words.now roots.now queue.new.items heads.new) }
    ensures longer { length queue.old.items ≤ length queue.new.items }
    ensures length { length heads.new ≡ length heads.old }
{
    let Some(i) = index_of(words.len(), word) else {
        return Ok(());
    };
    meet_object(edition, words, roots, heads, queue, i)
}

/// Meets the objects to which these words lead: puts those that were not met at the end of the queue, and sets their
/// bits.
#[inline(always)]
pub(crate) fn meet_led(
    edition: Edition,
    words: &[u64],
    roots: &[u64],
    heads: &mut [u64],
    queue: &mut Vec<u32>,
    from: &[u64],
) -> Result<(), AllocError>
    requires few { length words.now ≤ 2 ^ 31 }
    requires room { length words.now ≤ 64 * length heads.old }
    requires lead { LeadToReached edition words.now roots.now from.now }
    requires met { AreReaching edition words.now roots.now queue.old.items heads.old }
    ensures met { OnOk result (AreReaching edition words.now roots.now queue.new.items heads.new) }
    ensures longer { length queue.old.items ≤ length queue.new.items }
    ensures length { length heads.new ≡ length heads.old }
{
    for k in 0..from.len() {
        meet_by(edition, words, roots, heads, queue, from[k])?;
    }
    Ok(())
}

// Meets these objects.
fn meet_found(
    edition: Edition,
    words: &[u64],
    roots: &[u64],
    heads: &mut [u64],
    queue: &mut Vec<u32>,
    found: &[u32],
) -> Result<(), AllocError>
    requires few { length words.now ≤ 2 ^ 31 }
    requires room { length words.now ≤ 64 * length heads.old }
    requires found { All (IsReachedFrom edition words.now roots.now) found.now }
    requires met { AreReaching edition words.now roots.now queue.old.items heads.old }
    ensures met { OnOk result (AreReaching edition words.now roots.now queue.new.items heads.new) }
    ensures length { length heads.new ≡ length heads.old }
{
    for k in 0..found.len() {
        meet_object(edition, words, roots, heads, queue, found[k] as usize)?;
    }
    Ok(())
}

/// Meets the objects that threads found. The answer is false if a thread gave up, or memory runs out.
pub(crate) fn meet_parts(
    edition: Edition,
    words: &[u64],
    roots: &[u64],
    heads: &mut [u64],
    queue: &mut Vec<u32>,
    parts: &[Option<Vec<u32>>],
) -> bool
    requires few { length words.now ≤ 2 ^ 31 }
    requires room { length words.now ≤ 64 * length heads.old }
    requires parts { All (IsFoundPart edition words.now roots.now) parts.now }
    requires met { AreReaching edition words.now roots.now queue.old.items heads.old }
    ensures met { result ≡ true → AreReaching edition words.now roots.now queue.new.items heads.new }
    ensures length { length heads.new ≡ length heads.old }
{
    for part in parts {
        let Some(found) = part else {
            return false;
        };
        if meet_found(edition, words, roots, heads, queue, found).is_err() {
            return false;
        }
    }
    true
}

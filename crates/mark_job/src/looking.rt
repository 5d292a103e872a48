//! Looks up to which objects references lead.
ghost use Rattle.std.specs.Prelude.{◌≡◌, ℕ, ◌*◌, ◌<◌, ◌≤◌, true, length, slice_index, OnOk};
ghost use Rattle.heap_layout.specs.Header.{refs_of, size_of};
ghost use Rattle.heap_layout.specs.Heap.{header_at};
ghost use Rattle.mark_job.specs.Asked.{IsMetIn, AreMetIn};
ghost use Rattle.mark_job.specs.LeadingWords.{LeadsIn, LeadIn};

use crate::image::Image;
use crate::lane::Lane;
use std::alloc::AllocError;
use std::sync::atomic::{AtomicU64, Ordering};
use stopped_heap::{Ahead, Shape, WIDE};

/// Whether the bit of word `i` was not set. It is set afterwards.
#[inline(always)]
fn is_new(seen: &[AtomicU64], i: usize) -> bool
    requires { i < 64 * length seen.now }
{
    let word = &seen[i / 64];
    let bit = 1u64 << (i % 64);
    if word.load(Ordering::SeqCst) & bit != 0 {
        return false;
    }
    word.fetch_or(bit, Ordering::SeqCst) & bit == 0
}

/// Puts the object to which a word leads at the end of the list, if its bit is not set.
#[inline(always)]
fn meet(
    image: &Image,
    seen: &[AtomicU64],
    objects: &mut Vec<u32>,
    word: u64,
) -> Result<(), AllocError>
    requires room { length image.now.words ≤ 64 * length seen.now }
    requires lead { LeadsIn image.now word }
    requires reached { AreMetIn image.now objects.old.items }
    ensures met { AreMetIn image.now objects.new.items }
    ensures stay { OnOk result ((k : ℕ) → k < length objects.old.items
        → (k < length objects.new.items) × (slice_index objects.new.items k ≡ slice_index objects.old.items k)) }
{
    let Some(i) = image.index_of(word) else {
        return Ok(());
    };
    if is_new(seen, i) {
        objects.push(i as u32)?;
    }
    Ok(())
}

/// Puts the objects to which these words lead at the end of the list, of which the bits are not set.
#[inline(always)]
pub(crate) fn meet_all(
    image: &Image,
    seen: &[AtomicU64],
    objects: &mut Vec<u32>,
    from: &[u64],
) -> Result<(), AllocError>
    requires room { length image.now.words ≤ 64 * length seen.now }
    requires lead { LeadIn image.now from.now }
    requires reached { AreMetIn image.now objects.old.items }
    ensures met { AreMetIn image.now objects.new.items }
    ensures stay { OnOk result ((k : ℕ) → k < length objects.old.items
        → (k < length objects.new.items) × (slice_index objects.new.items k ≡ slice_index objects.old.items k)) }
{
    for k in 0..from.len() {
        meet(image, seen, objects, from[k])?;
    }
    Ok(())
}

// Follows the references of the object at index `i`, which has this shape. The answer is false if it is too long for
// the edition or ends past the words, or memory runs out.
#[inline(always)]
fn follow(image: &Image, seen: &[AtomicU64], objects: &mut Vec<u32>, i: usize, shape: Shape) -> bool
    requires room { length image.now.words ≤ 64 * length seen.now }
    requires met { IsMetIn image.now i }
    requires refs { shape.refs ≡ refs_of (header_at image.now.edition image.now.words i) }
    requires size { shape.size ≡ size_of (header_at image.now.edition image.now.words i) }
    requires reached { AreMetIn image.now objects.old.items }
    ensures met { AreMetIn image.now objects.new.items }
    ensures stay { result ≡ true → ((k : ℕ) → k < length objects.old.items
        → (k < length objects.new.items) × (slice_index objects.new.items k ≡ slice_index objects.old.items k)) }
{
    let Some(from) = image.references(i, shape) else {
        return false;
    };
    meet_all(image, seen, objects, from).is_ok()
}

/// Follows the references of up to so many objects of a lane. The answer is false if it gave up.
pub(crate) fn look(image: &Image, seen: &[AtomicU64], lane: &mut Lane, most: usize) -> bool
    requires room { length image.now.words ≤ 64 * length seen.now }
    requires reached { AreMetIn image.now lane.old }
    ensures { AreMetIn image.now lane.new }
{
    let mut ahead = Ahead::none(0);
    let mut headers = [0u64; WIDE];
    for _ in 0..most {
        if lane.next >= lane.objects.len() {
            return true;
        }
        let i = lane.objects[lane.next] as usize;
        let (edition, words) = (image.edition, &image.words);
        let shape = ahead.shape(edition, words, &lane.objects, &mut headers, lane.next, i);
        if !follow(image, seen, &mut lane.objects, i, shape) {
            return false;
        }
        lane.next += 1;
    }
    true
}

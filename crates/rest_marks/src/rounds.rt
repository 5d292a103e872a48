//! What the roots reach, found by several threads. It is the breadth-first search of the plain marker, done by rounds:
//! while many objects wait in the queue, each thread takes a run of them and looks up what their references lead to;
//! and so it does with a run of the references of one object that has very many. The threads only read, and each
//! answers a list. The caller then meets what they found, one list after the other. Else it follows an object alone.
//!
//! Nothing here shows that all was met. That, and that each object is sound, the threads ask afterwards of the objects
//! that were met, in the order of their addresses. Then they set the bits of the objects' words.
ghost use Rattle.std.specs.Prelude.{◌≡◌, ℕ, ◌*◌, ◌^◌, ◌<◌, ◌≤◌, true, false, All, length, IfOk, IfSome, OnOk};
ghost use Rattle.heap_layout.specs.Bits.{bit};
ghost use Rattle.heap_layout.specs.Header.{refs_of};
ghost use Rattle.heap_layout.specs.Heap.{header_at, IsPlaced};
ghost use Rattle.rest_marks.specs.Reached.{IsReachedFrom};
ghost use Rattle.rest_marks.specs.Rounds.{AreAllMarked, AreReaching, IsFoundPart, IsReachedBy};

use crate::asking::are_all_kept;
use crate::given_marks::check_kept;
use crate::live_bits::fill_by_threads;
use crate::lookups::{found_among, found_by, meet_led, meet_parts, refs_at};
use crate::marking::references;
use heap_layout::Edition;
use std::alloc::{AllocError, Global};
use std::thread;
use std::thread::Threads;

/// The most threads that are at work at once.
pub const MAX_WORKERS: usize = 64;

// Threads follow the references of one object if there are so many times `wide` of them or more.
const SHARED: usize = 12;

// How many objects are followed alone before the caller looks again at how the work goes.
const BATCH: usize = 4_096;

// The caller gives up once it followed as many objects alone as a heap has words, over this number, and `wide` of them
// never waited: then one thread does it all.
const PATIENCE: usize = 64;

// How many objects, or references of one object, are looked at to tell how they lie.
const SAMPLE: usize = 1_024;

// The most objects of a round, so that what the threads found is not long.
const LONG: usize = 262_144;

// Whether most of the first of these objects lie more than `near` words from the one before. If not, one thread has
// their headers from memory as fast as several.
fn lie_apart(objects: &[u32], near: usize) -> bool {
    let count = objects.len().min(SAMPLE);
    let mut far = 0_usize;
    for k in 1..count {
        if objects[k].abs_diff(objects[k - 1]) as usize > near {
            far = far.saturating_add(1);
        }
    }
    far >= count / 2
}

// The same of the words to which these references lead.
fn lead_apart(from: &[u64], near: usize) -> bool {
    let count = from.len().min(SAMPLE);
    let mut far = 0_usize;
    for k in 1..count {
        if from[k].abs_diff(from[k - 1]) > near as u64 {
            far = far.saturating_add(1);
        }
    }
    far >= count / 2
}

// What thread `k` finds: the objects to which the references of its run of `size` objects lead.
fn found_at(
    alloc: Global,
    edition: Edition,
    words: &[u64],
    roots: &[u64],
    heads: &[u64],
    objects: &[u32],
    size: usize,
    k: usize,
) -> Option<Vec<u32>>
    requires few { length words.now ≤ 2 ^ 31 }
    requires room { length words.now ≤ 64 * length heads.now }
    requires objects { All (IsReachedFrom edition words.now roots.now) objects.now }
    ensures { IsFoundPart edition words.now roots.now result }
{
    let first = k.saturating_mul(size).min(objects.len());
    let end = first.saturating_add(size).min(objects.len());
    found_by(alloc, edition, words, roots, heads, &objects[first..end])
}

// What the references of these objects lead to, found by so many threads, each of which has a run of them.
fn found_by_threads<R: Threads + Sync>(
    alloc: Global,
    rt: &R,
    workers: usize,
    edition: Edition,
    words: &[u64],
    roots: &[u64],
    heads: &[u64],
    objects: &[u32],
) -> Result<Vec<Option<Vec<u32>>>, AllocError>
    requires workers { 0 < workers }
    requires few { length words.now ≤ 2 ^ 31 }
    requires room { length words.now ≤ 64 * length heads.now }
    requires objects { All (IsReachedFrom edition words.now roots.now) objects.now }
    ensures { IfOk result (λ parts. All (IsFoundPart edition words.now roots.now) parts.items) }
{
    let size = objects.len().div_ceil(workers);
    let part = move |k: usize| -> Option<Vec<u32>>
        requires { (length words.now ≤ 2 ^ 31) × (length words.now ≤ 64 * length heads.now) × All (IsReachedFrom edition words.now roots.now) objects.now }
        ensures { IsFoundPart edition words.entry.now roots.entry.now result }
    { found_at(alloc, edition, words, roots, heads, objects, size, k) };
    thread::map_indices(rt, alloc, workers, &part)
}

// What thread `k` finds: the objects to which its run of `size` of these words leads.
fn led_at(
    alloc: Global,
    edition: Edition,
    words: &[u64],
    roots: &[u64],
    heads: &[u64],
    from: &[u64],
    size: usize,
    k: usize,
) -> Option<Vec<u32>>
    requires few { length words.now ≤ 2 ^ 31 }
    requires room { length words.now ≤ 64 * length heads.now }
    requires lead { All (IsReachedBy edition words.now roots.now) from.now }
    ensures { IsFoundPart edition words.now roots.now result }
{
    let first = k.saturating_mul(size).min(from.len());
    let end = first.saturating_add(size).min(from.len());
    found_among(alloc, edition, words, roots, heads, &from[first..end])
}

// What these words lead to, found by so many threads, each of which has a run of them.
fn led_by_threads<R: Threads + Sync>(
    alloc: Global,
    rt: &R,
    workers: usize,
    edition: Edition,
    words: &[u64],
    roots: &[u64],
    heads: &[u64],
    from: &[u64],
) -> Result<Vec<Option<Vec<u32>>>, AllocError>
    requires workers { 0 < workers }
    requires few { length words.now ≤ 2 ^ 31 }
    requires room { length words.now ≤ 64 * length heads.now }
    requires lead { All (IsReachedBy edition words.now roots.now) from.now }
    ensures { IfOk result (λ parts. All (IsFoundPart edition words.now roots.now) parts.items) }
{
    let size = from.len().div_ceil(workers);
    let part = move |k: usize| -> Option<Vec<u32>>
        requires { (length words.now ≤ 2 ^ 31) × (length words.now ≤ 64 * length heads.now) × All (IsReachedBy edition words.now roots.now) from.now }
        ensures { IsFoundPart edition words.entry.now roots.entry.now result }
    { led_at(alloc, edition, words, roots, heads, from, size, k) };
    thread::map_indices(rt, alloc, workers, &part)
}

// Follows the references of the object at index `i`, of which it has `refs`.
#[inline(always)]
fn follow_object(
    edition: Edition,
    words: &[u64],
    roots: &[u64],
    heads: &mut [u64],
    queue: &mut Vec<u32>,
    i: usize,
    refs: usize,
) -> Result<(), AllocError>
    requires few { length words.now ≤ 2 ^ 31 }
    requires room { length words.now ≤ 64 * length heads.old }
    requires reached { IsReachedFrom edition words.now roots.now i }
    requires placed { IsPlaced edition words.now i }
    requires refs { refs ≡ refs_of (header_at edition words.now i) }
    requires met { AreReaching edition words.now roots.now queue.old.items heads.old }
    ensures met { OnOk result (AreReaching edition words.now roots.now queue.new.items heads.new) }
    ensures longer { length queue.old.items ≤ length queue.new.items }
    ensures length { length heads.new ≡ length heads.old }
{
    let from = references(edition, words, i, refs);
    meet_led(edition, words, roots, heads, queue, from)
}

// The same of an object that has very many: so many threads look up runs of them. The answer is false if they lead
// where one thread is as fast and `asked` says to ask that, or a thread gave up, or memory runs out.
fn follow_large<R: Threads + Sync>(
    alloc: Global,
    rt: &R,
    workers: usize,
    near: usize,
    asked: bool,
    edition: Edition,
    words: &[u64],
    roots: &[u64],
    heads: &mut [u64],
    queue: &mut Vec<u32>,
    i: usize,
    refs: usize,
) -> bool
    requires workers { 0 < workers }
    requires few { length words.now ≤ 2 ^ 31 }
    requires room { length words.now ≤ 64 * length heads.old }
    requires reached { IsReachedFrom edition words.now roots.now i }
    requires placed { IsPlaced edition words.now i }
    requires refs { refs ≡ refs_of (header_at edition words.now i) }
    requires met { AreReaching edition words.now roots.now queue.old.items heads.old }
    ensures met { result ≡ true → AreReaching edition words.now roots.now queue.new.items heads.new }
    ensures length { length heads.new ≡ length heads.old }
{
    let from = references(edition, words, i, refs);
    if asked && !lead_apart(from, near) {
        return false;
    }
    let Ok(parts) = led_by_threads(alloc, rt, workers, edition, words, roots, heads, from) else {
        return false;
    };
    meet_parts(edition, words, roots, heads, queue, &parts)
}

// Follows the references of the objects from place `next` of the queue on, one object after the other, until `wide` of
// them or more wait, or one has `many` references or more, or enough were followed. The answer is the place behind what
// was followed. None if an object is too long for the edition or ends past the words, or memory runs out.
#[inline(always)]
fn follow_alone_by(
    edition: Edition,
    words: &[u64],
    roots: &[u64],
    heads: &mut [u64],
    queue: &mut Vec<u32>,
    wide: usize,
    many: usize,
    next: usize,
) -> Option<usize>
    requires few { length words.now ≤ 2 ^ 31 }
    requires room { length words.now ≤ 64 * length heads.old }
    requires within { next < length queue.old.items }
    requires met { AreReaching edition words.now roots.now queue.old.items heads.old }
    ensures met { IfSome result (λ _. AreReaching edition words.now roots.now queue.new.items heads.new) }
    ensures longer { length queue.old.items ≤ length queue.new.items }
    ensures order { IfSome result (λ end. next ≤ end) }
    ensures length { length heads.new ≡ length heads.old }
{
    let mut end = next;
    let mut turns = BATCH;
    while turns > 0 && end < queue.len() && queue.len() - end < wide {
        let i = queue[end] as usize;
        let refs = refs_at(edition, words, i)?;
        if refs >= many {
            return Some(end);
        }
        if follow_object(edition, words, roots, heads, queue, i, refs).is_err() {
            return None;
        }
        end += 1;
        turns -= 1;
    }
    Some(end)
}

// The same, compiled for each edition.
fn follow_alone(
    edition: Edition,
    words: &[u64],
    roots: &[u64],
    heads: &mut [u64],
    queue: &mut Vec<u32>,
    wide: usize,
    many: usize,
    next: usize,
) -> Option<usize>
    requires few { length words.now ≤ 2 ^ 31 }
    requires room { length words.now ≤ 64 * length heads.old }
    requires within { next < length queue.old.items }
    requires met { AreReaching edition words.now roots.now queue.old.items heads.old }
    ensures met { IfSome result (λ _. AreReaching edition words.now roots.now queue.new.items heads.new) }
    ensures longer { length queue.old.items ≤ length queue.new.items }
    ensures order { IfSome result (λ end. next ≤ end) }
    ensures length { length heads.new ≡ length heads.old }
{
    match edition {
        Edition::One => follow_alone_by(edition, words, roots, heads, queue, wide, many, next),
        Edition::Two => follow_alone_by(edition, words, roots, heads, queue, wide, many, next),
        Edition::Three => follow_alone_by(edition, words, roots, heads, queue, wide, many, next),
        Edition::Four => follow_alone_by(edition, words, roots, heads, queue, wide, many, next),
    }
}

// Follows the references of the objects from place `next` of the queue to place `end`, in so many threads. The answer
// is false if a thread gave up, or memory runs out.
fn follow_round<R: Threads + Sync>(
    alloc: Global,
    rt: &R,
    workers: usize,
    edition: Edition,
    words: &[u64],
    roots: &[u64],
    heads: &mut [u64],
    queue: &mut Vec<u32>,
    next: usize,
    end: usize,
) -> bool
    requires workers { 0 < workers }
    requires few { length words.now ≤ 2 ^ 31 }
    requires room { length words.now ≤ 64 * length heads.old }
    requires order { next ≤ end }
    requires within { end ≤ length queue.old.items }
    requires met { AreReaching edition words.now roots.now queue.old.items heads.old }
    ensures met { result ≡ true → AreReaching edition words.now roots.now queue.new.items heads.new }
    ensures length { length heads.new ≡ length heads.old }
{
    let objects = &queue[next..end];
    let Ok(parts) = found_by_threads(alloc, rt, workers, edition, words, roots, heads, objects)
    else {
        return false;
    };
    meet_parts(edition, words, roots, heads, queue, &parts)
}

// Follows the references of some objects from place `next` of the queue on: one after the other while fewer than `wide`
// of them wait, and else in so many threads; those of one object too if they are very many. The answer is the place
// behind what was followed. None if a thread gave up, or an object is too long for the edition or ends past the words,
// or memory runs out; and if `asked`, where what waits lies so that one thread is as fast.
fn follow_some<R: Threads + Sync>(
    alloc: Global,
    rt: &R,
    workers: usize,
    wide: usize,
    near: usize,
    asked: bool,
    edition: Edition,
    words: &[u64],
    roots: &[u64],
    heads: &mut [u64],
    queue: &mut Vec<u32>,
    next: usize,
) -> Option<usize>
    requires workers { 0 < workers }
    requires few { length words.now ≤ 2 ^ 31 }
    requires room { length words.now ≤ 64 * length heads.old }
    requires within { next < length queue.old.items }
    requires met { AreReaching edition words.now roots.now queue.old.items heads.old }
    ensures met { IfSome result (λ _. AreReaching edition words.now roots.now queue.new.items heads.new) }
    ensures length { length heads.new ≡ length heads.old }
{
    let waiting = (queue.len() - next).min(LONG);
    if waiting >= wide {
        let end = next + waiting;
        if asked && !lie_apart(&queue[next..end], near) {
            return None;
        }
        if !follow_round(
            alloc, rt, workers, edition, words, roots, heads, queue, next, end,
        ) {
            return None;
        }
        return Some(end);
    }
    let many = wide.saturating_mul(SHARED);
    let end = follow_alone(edition, words, roots, heads, queue, wide, many, next)?;
    if end > next {
        return Some(end);
    }
    let i = queue[next] as usize;
    let refs = refs_at(edition, words, i)?;
    if !follow_large(
        alloc, rt, workers, near, asked, edition, words, roots, heads, queue, i, refs,
    ) {
        return None;
    }
    Some(next + 1)
}

// Sets the bits of objects that the roots reach, and no others, in so many threads where `wide` objects or more wait.
// No bit may be set before. The answer is false if there is too little for threads to do, or memory runs out, or an
// object is too long for the edition or ends past the words.
fn reach<R: Threads + Sync>(
    alloc: Global,
    rt: &R,
    workers: usize,
    wide: usize,
    near: usize,
    edition: Edition,
    words: &[u64],
    roots: &[u64],
    heads: &mut [u64],
) -> bool
    requires workers { 0 < workers }
    requires few { length words.now ≤ 2 ^ 31 }
    requires room { length words.now ≤ 64 * length heads.old }
    requires none { (i : ℕ) → bit heads.old i ≡ false }
    ensures reached { result ≡ true → (i : ℕ) → bit heads.new i ≡ true → IsReachedFrom edition words.now roots.now i }
    ensures length { length heads.new ≡ length heads.old }
{
    let mut queue = Vec::new(alloc);
    if meet_led(edition, words, roots, heads, &mut queue, roots).is_err() {
        return false;
    }
    let mut next = 0;
    // Whether no round was shared out yet; one large object does not count. Then it is asked whether sharing gains.
    let mut asked = true;
    let patience = wide.max(words.len() / PATIENCE);
    // Each turn follows one object or more, and no more are met than there are words.
    let mut turns = words.len();
    while turns > 0 && next < queue.len() {
        let many = queue.len() - next >= wide;
        if asked && !many && next > patience {
            return false;
        }
        let Some(end) = follow_some(
            alloc, rt, workers, wide, near, asked, edition, words, roots, heads, &mut queue, next,
        ) else {
            return false;
        };
        asked = asked && !many;
        next = end;
        turns -= 1;
    }
    true
}

/// Sets the bits of the objects that the roots reach in `heads`, and those of all their words in `bits`, in so many
/// threads where `wide` objects or more wait. No bit may be set before. Err if memory runs out, and where there is a
/// fault too: one thread finds it; and where there is too little for threads to do, or most of what waits lies at most
/// `near` words from the one before.
pub fn mark_by_threads<R: Threads + Sync>(
    alloc: Global,
    rt: &R,
    workers: usize,
    wide: usize,
    near: usize,
    edition: Edition,
    words: &[u64],
    roots: &[u64],
    heads: &mut [u64],
    bits: &mut [u64],
) -> Result<(), AllocError>
    requires workers { 0 < workers }
    requires few { length words.now ≤ 2 ^ 31 }
    requires few_bits { length heads.old ≤ 2 ^ 25 }
    requires room { length words.now ≤ 64 * length heads.old }
    requires long { length bits.old ≡ length heads.old }
    requires no_heads { (i : ℕ) → bit heads.old i ≡ false }
    requires no_bits { (i : ℕ) → bit bits.old i ≡ false }
    ensures marked { OnOk result (AreAllMarked edition words.now roots.now heads.new bits.new) }
    ensures same { length heads.new ≡ length heads.old }
    ensures long { length bits.new ≡ length bits.old }
{
    if !reach(alloc, rt, workers, wide, near, edition, words, roots, heads) {
        return Err(AllocError);
    }
    if let Err(_) = check_kept(edition, heads, roots) {
        return Err(AllocError);
    }
    if !are_all_kept(alloc, rt, workers, edition, words, heads) {
        return Err(AllocError);
    }
    fill_by_threads(rt, workers, edition, words, heads, bits);
    Ok(())
}

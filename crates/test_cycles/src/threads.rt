//! The next heap of drawn heaps, marked by several threads beside one thread: the same heap, or the same refusal. Each
//! heap has so many objects, so far apart, that threads are started.
ghost use Rattle.comp_cycles.specs.Ends.{IsEndOf};

use crate::expected::{expect_eq, expect_so};
use crate::next_heaps::{follow_from, follow_reachable, ran};
use crate::three_objects::LINKED;
use comp_cycles::NotCycled;
use comp_trace::Ran;
use heap_layout::{Edition, FIRST_IMMEDIATE, Header, LayoutFault, MarkedHeap};
use reachable_cycles::{next_reachable_by_threads, next_reachable_with_by_threads};
use std::alloc::{AllocError, Global};
use std::process::Abort;
use std::thread::Threads;
use test_support::{At, F, Random, T, heap_of};

// The objects of a heap: roots with eight references each, which lead to all objects with one, and some without.
const ROOTS: u32 = 1_100;

const LEAVES: u32 = 8_800;

const SINGLES: u32 = 1_000;

// The addresses in a space of the objects with one reference, and of those without.
fn leaf(space: u64, leaf: u32) -> u64 {
    space
        .wrapping_add(9_900)
        .wrapping_add(u64::from(leaf.wrapping_mul(2)))
}

fn single(space: u64, single: u32) -> u64 {
    space.wrapping_add(27_500).wrapping_add(u64::from(single))
}

// A drawn word: of 16 one is null, one an immediate, and the others are addresses of drawn objects.
fn drawn(random: &mut Random) -> u64 {
    let target = leaf(F, u32::from(random.small(8_800)));
    match random.below(16) {
        0 => 0,
        1 => target | FIRST_IMMEDIATE,
        2 => single(F, u32::from(random.small(1_000))),
        _ => target,
    }
}

// The words of a heap. The references of a root lie far apart.
fn scattered_words(alloc: Global, seed: u64) -> Result<Vec<u64>, AllocError> {
    let mut random = Random { state: seed };
    let mut words = Vec::new(alloc);
    for field in 0..8 * ROOTS {
        if field % 8 == 0 {
            words.push(Header::new(8, 0, 0).word())?;
        }
        words.push(leaf(F, field.wrapping_mul(7_919) % LEAVES))?;
    }
    for _ in 0..LEAVES {
        words.push(Header::new(1, 0, 0).word())?;
        words.push(drawn(&mut random))?;
    }
    for _ in 0..SINGLES {
        words.push(Header::new(0, 0, 0).word())?;
    }
    Ok(words)
}

// All objects of such a heap.
fn all_marks(alloc: Global) -> Result<Vec<u32>, AllocError> {
    let mut marks = Vec::new(alloc);
    for root in 0..ROOTS {
        marks.push(root.wrapping_mul(9))?;
    }
    for leaf in 0..LEAVES {
        marks.push(leaf.wrapping_mul(2).wrapping_add(9_900))?;
    }
    for single in 0..SINGLES {
        marks.push(single.wrapping_add(27_500))?;
    }
    Ok(marks)
}

// The roots in a space, and one more.
fn roots(alloc: Global, space: u64, last: u64) -> Result<Vec<u64>, AllocError> {
    let mut roots = Vec::new(alloc);
    for root in 0..ROOTS {
        roots.push(space.wrapping_add(u64::from(root.wrapping_mul(9))))?;
    }
    roots.push(last)?;
    Ok(roots)
}

// Such a heap, all of it marked.
fn scattered(alloc: Global, seed: u64) -> Result<Option<MarkedHeap>, AllocError> {
    let words = scattered_words(alloc, seed)?;
    let marks = all_marks(alloc)?;
    let roots = roots(alloc, F, 0)?;
    Ok(heap_of(alloc, Edition::Four, &words, &marks, &roots))
}

// A run over such a heap. It makes an object, and writes it over a reference of the first root.
fn ran_scattered(rt: &(impl Abort + Threads + Sync), alloc: Global, seed: u64) -> Ran
    ensures { IsEndOf result.plan.value result.finished }
{
    let made = scattered(alloc, seed).expect(rt, "memory");
    ran(rt, alloc, made.expect(rt, "a heap"), LINKED, 1, 2)
}

// The same heap as by one thread.
fn expect_same(
    rt: &impl Abort,
    threads: usize,
    one: &MarkedHeap,
    several: &Result<MarkedHeap, NotCycled>,
) {
    match several {
        Ok(heap) => {
            expect_eq(rt, At::new("words", threads), heap.words(), one.words());
            expect_eq(rt, At::new("marks", threads), heap.marks(), one.marks());
            expect_eq(rt, At::new("roots", threads), heap.roots(), one.roots());
        }
        Err(_left) => expect_so(rt, At::new("a heap", threads), false),
    }
}

// With so many threads, from the first number up to the second, it is the heap that one makes.
fn expect_threads(rt: &(impl Abort + Threads + Sync), alloc: Global, first: usize, end: usize) {
    let one = follow_reachable(rt, alloc, ran_scattered(rt, alloc, 1));
    // So many objects wait at once that threads are started, and not all are reached.
    expect_so(rt, At::new("marks", 0), one.marks().len() > 9_900);
    expect_so(rt, At::new("marks", 1), one.marks().len() < 10_900);
    for threads in first..end {
        let ran = ran_scattered(rt, alloc, 1);
        let next = next_reachable_by_threads(ran.finished, alloc, rt, threads, &*ran.plan);
        expect_same(rt, threads, &one, &next);
    }
}

#[test]
fn few_threads_mark_the_next_heap_as_one_does(rt: HostRuntime) {
    expect_threads(&rt, rt.alloc(), 0, 5);
}

#[test]
fn more_threads_mark_the_next_heap_as_one_does(rt: HostRuntime) {
    expect_threads(&rt, rt.alloc(), 5, 9);
}

// The next heap with these roots, to-space addresses, by three threads.
fn followed_from(
    rt: &(impl Abort + Threads + Sync),
    alloc: Global,
    roots: &[u64],
) -> Result<MarkedHeap, NotCycled> {
    let ran = ran_scattered(rt, alloc, 2);
    next_reachable_with_by_threads(ran.finished, alloc, rt, 3, &*ran.plan, roots)
}

#[test]
fn threads_mark_from_other_roots_as_one_does(rt: HostRuntime) {
    let alloc = rt.alloc();
    let roots = roots(alloc, T, FIRST_IMMEDIATE).expect(&rt, "roots");
    let one = follow_from(&rt, alloc, ran_scattered(&rt, alloc, 2), &roots);
    expect_same(&rt, 3, &one, &followed_from(&rt, alloc, &roots));
}

#[test]
fn threads_refuse_a_root_as_one_does(rt: HostRuntime) {
    let alloc = rt.alloc();
    let roots = roots(alloc, T, T + 2).expect(&rt, "roots");
    match followed_from(&rt, alloc, &roots) {
        Ok(_heap) => expect_so(&rt, At::new("a refusal", 0), false),
        Err(left) => expect_eq(
            &rt,
            At::new("fault", 0),
            left.fault,
            LayoutFault::BadRoot(1_100),
        ),
    }
}

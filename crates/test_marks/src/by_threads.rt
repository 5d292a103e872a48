//! Heaps that are marked by several threads, beside one thread: the same marks, or the same fault.
use crate::expected::{expect_eq, expect_so};
use crate::heaps::{push_header, push_words, three, weak};
use heap_layout::{Edition, FIRST_IMMEDIATE, FROM_SPACE as F, Header};
use reachability::{reachable_marks, reachable_marks_by_threads};
use std::alloc::{AllocError, Global};
use std::process::Abort;
use std::test::Fail;
use std::thread::Threads;
use test_support::At;

// A heap of objects side by side.
#[derive(Drop)]
struct Heap {
    words: Vec<u64>,
    roots: Vec<u64>,
}

// The next of a row of numbers that look random.
fn next(seed: u64) -> u64 {
    seed.wrapping_mul(6_364_136_223_846_793_005)
        .wrapping_add(1_442_695_040_888_963_407)
}

// Objects of one to four words, each with as many references as fit, and the addresses of one in so many of them. Of 16
// references one leads into an object, or past the words, and one is the address of an object with the top bit set.
fn scattered(alloc: Global, objects: u32, often: u64, first_seed: u64) -> Result<Heap, AllocError> {
    let mut seed = first_seed;
    let mut starts = Vec::new(alloc);
    let mut roots = Vec::new(alloc);
    let mut start = 0u64;
    for _ in 0..objects {
        seed = next(seed);
        starts.push(start)?;
        if (seed >> 50) % often.max(1) == 0 {
            roots.push(F.wrapping_add(start))?;
        }
        start = start.wrapping_add(1).wrapping_add((seed >> 40) % 4);
    }
    starts.push(start)?;
    let mut words = Vec::new(alloc);
    for k in 0..objects as usize {
        let (Some(from), Some(to)) = (starts.get(k), starts.get(k.wrapping_add(1))) else {
            break;
        };
        let references = (to.wrapping_sub(*from).wrapping_sub(1) % 4) as u16;
        words.push(Header::new(references, 0, 0).word())?;
        for _ in 0..references {
            seed = next(seed);
            let target = starts.get(((seed >> 33) % 1_048_576) as usize % starts.len());
            let target = F.wrapping_add(*target.unwrap_or(&0));
            let word = match (seed >> 20) % 16 {
                0 => target.wrapping_add(1),
                1 => target | FIRST_IMMEDIATE,
                _ => target,
            };
            words.push(word)?;
        }
    }
    Ok(Heap { words, roots })
}

// With this number of threads, which is the row of the case, the marks or the fault are those of one thread.
fn expect_same<R: Abort + AllocGlobal + Threads + Sync>(
    rt: &R,
    case: &str,
    threads: usize,
    edition: Edition,
    words: &[u64],
    roots: &[u64],
) {
    let at = At::new(case, threads);
    let one = reachable_marks(rt.alloc(), edition, words, roots);
    let found = reachable_marks_by_threads(rt.alloc(), rt, threads, edition, words, roots);
    match (&one, &found) {
        (Ok(marks), Ok(others)) => expect_so(rt, at, marks.as_slice() == others.as_slice()),
        (Ok(_), Err(fault)) => expect_eq(rt, at, Some(*fault), None),
        (Err(fault), Ok(_)) => expect_eq(rt, at, None, Some(*fault)),
        (Err(fault), Err(other)) => expect_eq(rt, at, *other, *fault),
    }
}

#[test]
fn threads_mark_scattered_heaps_as_one_does(rt: HostRuntime) -> Result<(), Fail> {
    for threads in 0..9 {
        let heap = scattered(rt.alloc(), 30_000, 3, threads as u64)?;
        let (words, roots) = (heap.words.as_slice(), heap.roots.as_slice());
        expect_same(&rt, "three", threads, Edition::Three, words, roots);
        expect_same(&rt, "four", threads, Edition::Four, words, roots);
        let (few, _) = roots.split_at(roots.len().min(20));
        expect_same(&rt, "few roots", threads, Edition::Four, words, few);
        let (_, late) = words.split_at(words.len().min(1));
        expect_same(&rt, "late words", threads, Edition::Three, late, roots);
    }
    Ok(())
}

#[test]
fn as_many_threads_as_there_are_numbers_are_64(rt: HostRuntime) -> Result<(), Fail> {
    let heap = scattered(rt.alloc(), 30_000, 3, 11)?;
    let (words, roots) = (heap.words.as_slice(), heap.roots.as_slice());
    expect_same(&rt, "four", usize::MAX, Edition::Four, words, roots);
    expect_same(&rt, "two", 65, Edition::Two, words, roots);
    Ok(())
}

#[test]
fn a_hundred_times_the_marks_are_the_same(rt: HostRuntime) -> Result<(), Fail> {
    let heap = scattered(rt.alloc(), 8_200, 1, 5)?;
    let (words, roots) = (heap.words.as_slice(), heap.roots.as_slice());
    let one = reachable_marks(rt.alloc(), Edition::Three, words, roots)?;
    for time in 0..100 {
        let edition = Edition::Three;
        let marks = reachable_marks_by_threads(rt.alloc(), &rt, 3, edition, words, roots)?;
        expect_so(
            &rt,
            At::new("marks", time),
            marks.as_slice() == one.as_slice(),
        );
    }
    Ok(())
}

// More than 8,192 blocks of 64 words.
#[test]
fn threads_walk_long_rows_as_one_does(rt: HostRuntime) -> Result<(), Fail> {
    let heap = scattered(rt.alloc(), 212_000, 20, 7)?;
    let (words, roots) = (heap.words.as_slice(), heap.roots.as_slice());
    expect_so(&rt, At::new("words", words.len()), words.len() / 64 > 8_192);
    expect_same(&rt, "three", 2, Edition::Three, words, roots);
    expect_same(&rt, "four", 7, Edition::Four, words, roots);
    Ok(())
}

// As many words. An object of 400,002 words has data words that look like headers, so that the threads guess wrong.
// Then the last object ends past the words.
#[test]
fn threads_walk_data_that_looks_like_headers_as_one_does(rt: HostRuntime) -> Result<(), Fail> {
    let mut large = Vec::new(rt.alloc());
    push_header(&rt, &mut large, 1, 0, 400_000)?;
    push_words(&mut large, 1, F + 400_002)?;
    push_words(&mut large, 400_000, Header::new(0, 1, 0).word())?;
    push_words(&mut large, 125_000, Header::new(0, 0, 5).word())?;
    let roots = [F, F + 400_003];
    expect_same(&rt, "sound", 3, Edition::Three, &large, &roots);
    push_header(&rt, &mut large, 1, 0, 0)?;
    expect_same(&rt, "past the end", 5, Edition::Four, &large, &roots);
    Ok(())
}

#[test]
fn threads_mark_small_heaps_as_one_does(rt: HostRuntime) {
    let (words, held) = (three(), weak());
    for threads in 0..9 {
        expect_same(&rt, "no words", threads, Edition::One, &[], &[F]);
        expect_same(&rt, "three", threads, Edition::One, &words, &[F + 5, F + 2]);
        expect_same(&rt, "short", threads, Edition::One, &words[..6], &[F + 5]);
        expect_same(&rt, "weak", threads, Edition::Two, &held, &[F, F + 3]);
    }
}

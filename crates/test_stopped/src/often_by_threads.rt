//! One heap that threads mark and survey a thousand times: 225 times for each number of threads up to four, and 25
//! times for each from five to eight, which wait for a processor.
use crate::expected::{expect_eq, expect_so};
use heap_layout::{Edition, FROM_SPACE as F, Header};
use reachability::{reachable_marks, reachable_marks_by_threads};
use std::alloc::{AllocError, Global};
use std::process::Abort;
use std::thread::Threads;
use stopped_heap::Survey;
use test_support::At;

const MANY: usize = 225;

const FEW: usize = 25;

// Threads mark where 8,192 objects wait, and survey from 65,536 words on. So many roots lead to as many objects; 10,000
// objects are there, of 7 words each, and the first 9,500 are reached.
const ROOTS: u64 = 9_000;

const REACHED: u64 = 9_500;

const OBJECTS: u64 = 10_000;

// The address of the object with this number.
fn address(number: u64) -> u64 {
    F.saturating_add(number.saturating_mul(7))
}

// The objects side by side. Each has a reference to another one, and five data words.
fn objects(alloc: Global) -> Result<Vec<u64>, AllocError> {
    let mut words = Vec::new(alloc);
    for number in 0..OBJECTS {
        words.push(Header::new(1, 5, 0).word())?;
        words.push(address(number.saturating_mul(7).saturating_add(1) % REACHED))?;
        for _ in 0..5 {
            words.push(number)?;
        }
    }
    Ok(words)
}

// The roots, each far from the one before: threads are started only then.
fn roots(alloc: Global) -> Result<Vec<u64>, AllocError> {
    let mut roots = Vec::new(alloc);
    for number in 0..ROOTS {
        roots.push(address(number.saturating_mul(7_919) % ROOTS))?;
    }
    Ok(roots)
}

// Marks and surveys the heap by so many threads. What is live lies in front already, so the roots stay.
fn mark_again(
    rt: &(impl Abort + Threads + Sync),
    alloc: Global,
    threads: usize,
    words: &[u64],
    roots: &[u64],
    marks: &[u32],
) -> Result<(), AllocError> {
    let edition = Edition::Three;
    let Ok(found) = reachable_marks_by_threads(alloc, rt, threads, edition, words, roots) else {
        return Err(AllocError);
    };
    expect_so(rt, At::new("marks", threads), found.as_slice() == marks);
    let Ok(survey) = Survey::of_by_threads(alloc, rt, threads, edition, words, roots) else {
        return Err(AllocError);
    };
    expect_eq(
        rt,
        At::new("live", threads),
        survey.live_words(),
        7 * REACHED,
    );
    let mut moved = roots.to_vec(alloc)?;
    survey.forward_weak(&mut moved);
    expect_so(rt, At::new("roots", threads), moved.as_slice() == roots);
    Ok(())
}

// The same so often. Answers how many times memory was refused.
fn mark_often(
    rt: &(impl Abort + Threads + Sync),
    alloc: Global,
    threads: usize,
    times: usize,
) -> Result<usize, AllocError> {
    let words = objects(alloc)?;
    let roots = roots(alloc)?;
    let Ok(marks) = reachable_marks(alloc, Edition::Three, &words, &roots) else {
        return Err(AllocError);
    };
    expect_eq(
        rt,
        At::new("reached", threads),
        marks.len(),
        REACHED as usize,
    );
    let mut refused = 0usize;
    for _ in 0..times {
        if mark_again(rt, alloc, threads, &words, &roots, &marks).is_err() {
            refused = refused.saturating_add(1);
        }
    }
    Ok(refused)
}

// A run of the tests may refuse one allocation.
fn expect_often(rt: &(impl Abort + AllocGlobal + Threads + Sync), threads: usize, times: usize) {
    if let Ok(refused) = mark_often(rt, rt.alloc(), threads, times) {
        expect_so(rt, At::new("refused", refused), refused <= 1);
    }
}

#[test]
fn one_thread_marks_the_same_each_time(rt: HostRuntime) {
    expect_often(&rt, 1, MANY);
}

#[test]
fn two_threads_mark_the_same_each_time(rt: HostRuntime) {
    expect_often(&rt, 2, MANY);
}

#[test]
fn three_threads_mark_the_same_each_time(rt: HostRuntime) {
    expect_often(&rt, 3, MANY);
}

#[test]
fn four_threads_mark_the_same_each_time(rt: HostRuntime) {
    expect_often(&rt, 4, MANY);
}

#[test]
fn five_threads_mark_the_same_each_time(rt: HostRuntime) {
    expect_often(&rt, 5, FEW);
}

#[test]
fn six_threads_mark_the_same_each_time(rt: HostRuntime) {
    expect_often(&rt, 6, FEW);
}

#[test]
fn seven_threads_mark_the_same_each_time(rt: HostRuntime) {
    expect_often(&rt, 7, FEW);
}

#[test]
fn eight_threads_mark_the_same_each_time(rt: HostRuntime) {
    expect_often(&rt, 8, FEW);
}

//! Pseudorandom heaps of each edition, collected by one thread and by several, beside the plain model.
use crate::expected::{expect_eq, expect_so, expect_words};
use crate::plain_heap::{BEFORE, PlainHeap};
use heap_layout::Edition;
use std::alloc::{AllocError, Global};
use std::process::Abort;
use std::thread::Threads;
use stopped_heap::{CollectFault, SurveyFault, collect, collect_by_threads};
use test_support::{At, Random};

// The number of heaps of each edition.
const HEAPS: u64 = 100;

/// Memory into which a heap slides: so many words, all as they were.
pub fn untouched(alloc: Global, words: usize) -> Result<Vec<u64>, AllocError> {
    vec![in alloc; BEFORE; words]
}

/// Fails unless all these words are as they were.
pub fn expect_untouched(rt: &impl Abort, case: &str, to: &[u64]) {
    for (row, word) in to.iter().enumerate() {
        expect_eq(rt, At::new(case, row), *word, BEFORE);
    }
}

// Fails unless these live words, and no others, are the slid words of the model.
fn expect_slid(rt: &impl Abort, case: &str, to: &[u64], slid: &[u64]) {
    for (row, word) in to.iter().enumerate() {
        let wanted = slid.get(row).copied().unwrap_or(BEFORE);
        expect_eq(rt, At::new(case, row), *word, wanted);
    }
}

// Fails unless an answer of a collection, and what it left of the roots and of `to`, are those of the model. An error
// if memory was refused; then nothing may have changed.
fn judge(
    rt: &impl Abort,
    alloc: Global,
    heap: &PlainHeap,
    case: &str,
    answer: Result<u64, CollectFault>,
    roots: &[u64],
    to: &[u64],
) -> Result<(), AllocError> {
    let slid = heap.slid_words(alloc)?;
    match answer {
        Ok(live) => {
            expect_eq(rt, At::new(case, 0), live, slid.len() as u64);
            expect_slid(rt, case, to, &slid);
            expect_words(rt, case, roots, &heap.moved_roots(alloc)?);
            Ok(())
        }
        Err(fault) => {
            let wanted = CollectFault::Survey(SurveyFault::OutOfMemory);
            expect_eq(rt, At::new(case, 0), fault, wanted);
            expect_untouched(rt, case, to);
            expect_words(rt, case, roots, &heap.roots);
            Err(AllocError)
        }
    }
}

// Collects a heap into memory that is some words too long.
fn collect_alone(
    rt: &impl Abort,
    alloc: Global,
    heap: &PlainHeap,
    case: &str,
    spare: u64,
) -> Result<(), AllocError> {
    let length = heap.words.len().saturating_add(spare as usize);
    let mut to = untouched(alloc, length)?;
    let mut roots = heap.roots.to_vec(alloc)?;
    let answer = collect(alloc, heap.edition, &heap.words, &mut roots, &mut to);
    judge(rt, alloc, heap, case, answer, &roots, &to)
}

// Collects a heap by several threads, into memory that just holds the live words.
fn collect_together(
    rt: &(impl Abort + Threads + Sync),
    alloc: Global,
    heap: &PlainHeap,
    case: &str,
    workers: u64,
) -> Result<(), AllocError> {
    let slid = heap.slid_words(alloc)?;
    let mut to = untouched(alloc, slid.len())?;
    let mut roots = heap.roots.to_vec(alloc)?;
    let answer = collect_by_threads(
        alloc,
        rt,
        heap.edition,
        &heap.words,
        &mut roots,
        &mut to,
        workers as usize,
    );
    judge(rt, alloc, heap, case, answer, &roots, &to)
}

// Into memory that has a word too few for the live words nothing slides.
fn refuse_room(
    rt: &impl Abort,
    alloc: Global,
    heap: &PlainHeap,
    case: &str,
) -> Result<(), AllocError> {
    let live = heap.slid_words(alloc)?.len();
    let Some(length) = live.checked_sub(1) else {
        return Ok(());
    };
    let mut to = untouched(alloc, length)?;
    let mut roots = heap.roots.to_vec(alloc)?;
    let fault = collect(alloc, heap.edition, &heap.words, &mut roots, &mut to).err();
    expect_untouched(rt, case, &to);
    expect_words(rt, case, &roots, &heap.roots);
    if fault == Some(CollectFault::Survey(SurveyFault::OutOfMemory)) {
        return Err(AllocError);
    }
    let wanted = Some(CollectFault::NoRoom(live as u64));
    expect_eq(rt, At::new(case, live), fault, wanted);
    Ok(())
}

// Draws and collects a heap.
fn run(
    rt: &(impl Abort + Threads + Sync),
    alloc: Global,
    edition: Edition,
    seed: u64,
) -> Result<(), AllocError> {
    let case = format!(in alloc; "seed {seed}")?;
    let mut random = Random { state: seed };
    let heap = PlainHeap::draw(alloc, edition, &mut random)?;
    collect_alone(rt, alloc, &heap, &case, random.below(4))?;
    collect_together(rt, alloc, &heap, &case, random.below(9))?;
    refuse_room(rt, alloc, &heap, &case)
}

// Runs all heaps of an edition. Where a run of the tests refuses one allocation, at most one heap is cut off.
fn run_all(rt: &(impl Abort + Threads + Sync), alloc: Global, edition: Edition) {
    let mut compared = 0u64;
    for seed in 0..HEAPS {
        if run(rt, alloc, edition, seed).is_ok() {
            compared = compared.saturating_add(1);
        }
    }
    expect_so(
        rt,
        At::new("compared", compared as usize),
        compared >= HEAPS - 1,
    );
}

#[test]
fn heaps_of_edition_one_slide_as_in_the_plain_model(rt: HostRuntime) {
    run_all(&rt, rt.alloc(), Edition::One);
}

#[test]
fn heaps_of_edition_two_slide_as_in_the_plain_model(rt: HostRuntime) {
    run_all(&rt, rt.alloc(), Edition::Two);
}

#[test]
fn heaps_of_edition_three_slide_as_in_the_plain_model(rt: HostRuntime) {
    run_all(&rt, rt.alloc(), Edition::Three);
}

#[test]
fn heaps_of_edition_four_slide_as_in_the_plain_model(rt: HostRuntime) {
    run_all(&rt, rt.alloc(), Edition::Four);
}

//! Pseudorandom heaps of each edition, collected within their own words, beside the plain model.
use crate::expected::{expect_eq, expect_so, expect_words};
use crate::plain_heap::PlainHeap;
use heap_layout::Edition;
use std::alloc::{AllocError, Global};
use std::process::Abort;
use stopped_heap::{SurveyFault, collect_in_place};
use test_support::{At, Random};

// The number of heaps of each edition.
const HEAPS: u64 = 100;

// Fails unless the words begin with the slid words of the model, and are the heap's behind them.
fn expect_within(rt: &impl Abort, case: &str, words: &[u64], slid: &[u64], before: &[u64]) {
    expect_eq(rt, At::new(case, 0), words.len(), before.len());
    for (row, word) in words.iter().enumerate() {
        let wanted = match slid.get(row) {
            Some(word) => Some(*word),
            None => before.get(row).copied(),
        };
        expect_eq(rt, At::new(case, row), Some(*word), wanted);
    }
}

// Draws a heap and collects it. An error if memory was refused; then nothing may have changed.
fn run(rt: &impl Abort, alloc: Global, edition: Edition, seed: u64) -> Result<(), AllocError> {
    let case = format!(in alloc; "seed {seed}")?;
    let mut random = Random { state: seed };
    let heap = PlainHeap::draw(alloc, edition, &mut random)?;
    let slid = heap.slid_words(alloc)?;
    let moved = heap.moved_roots(alloc)?;
    let mut words = heap.words.to_vec(alloc)?;
    let mut roots = heap.roots.to_vec(alloc)?;
    match collect_in_place(alloc, edition, &mut words, &mut roots) {
        Ok(live) => {
            expect_eq(rt, At::new(&case, 0), live, slid.len() as u64);
            expect_within(rt, &case, &words, &slid, &heap.words);
            expect_words(rt, &case, &roots, &moved);
            Ok(())
        }
        Err(fault) => {
            expect_eq(rt, At::new(&case, 0), fault, SurveyFault::OutOfMemory);
            expect_words(rt, &case, &words, &heap.words);
            expect_words(rt, &case, &roots, &heap.roots);
            Err(AllocError)
        }
    }
}

// Runs all heaps of an edition. Where a run of the tests refuses one allocation, at most one heap is cut off.
fn run_all(rt: &impl Abort, alloc: Global, edition: Edition) {
    let mut compared = 0u64;
    for seed in 0..HEAPS {
        if run(rt, alloc, edition, seed).is_ok() {
            compared = compared.saturating_add(1);
        }
    }
    expect_so(
        rt,
        At::new("compared", compared as usize),
        compared >= HEAPS - 1,
    );
}

#[test]
fn heaps_of_editions_one_and_two_slide_within_their_words(rt: HostRuntime) {
    run_all(&rt, rt.alloc(), Edition::One);
    run_all(&rt, rt.alloc(), Edition::Two);
}

#[test]
fn heaps_of_editions_three_and_four_slide_within_their_words(rt: HostRuntime) {
    run_all(&rt, rt.alloc(), Edition::Three);
    run_all(&rt, rt.alloc(), Edition::Four);
}

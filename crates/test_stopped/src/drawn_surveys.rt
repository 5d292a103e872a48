//! Surveys of pseudorandom heaps beside the plain model: what leads where, the slide in parts, and marks of the
//! caller's own.
use crate::expected::{expect_eq, expect_so, expect_words};
use crate::plain_heap::PlainHeap;
use heap_layout::{Edition, FIRST_IMMEDIATE as I, FROM_SPACE as F};
use std::alloc::{AllocError, Global};
use std::process::Abort;
use stopped_heap::{MarksFault, Survey, SurveyFault};
use test_support::{At, Random};

// The number of heaps of each edition.
const HEAPS: u64 = 25;

// Where a word leads by the model: nowhere if it is neither null nor an immediate nor the address of a kept object.
fn led(heap: &PlainHeap, word: u64) -> Option<u64> {
    match heap.moved(word) {
        0 if word != 0 => None,
        moved => Some(moved),
    }
}

// Checks where each word of from-space leads, and words that are no address of it.
fn expect_leads(rt: &impl Abort, heap: &PlainHeap, survey: &Survey<'_>, case: &str) {
    for at in 0..heap.count().saturating_add(70) {
        let word = F.saturating_add(at);
        let found = survey.forward(word);
        expect_eq(rt, At::new(case, at as usize), found, led(heap, word));
    }
    for word in [0, 1, F - 1, I - 1, I, I + F, u64::MAX] {
        expect_eq(rt, At::new(case, 0), survey.forward(word), led(heap, word));
    }
}

// Slides word for word, and then the last words together.
fn expect_parts(
    rt: &impl Abort,
    alloc: Global,
    heap: &PlainHeap,
    survey: &Survey<'_>,
    case: &str,
) -> Result<(), AllocError> {
    let slid = heap.slid_words(alloc)?;
    let live = survey.live_words();
    expect_eq(rt, At::new(case, 0), live, slid.len() as u64);
    for first in 0..live {
        let mut part = [0];
        survey.slide(first, &mut part);
        let wanted = slid.get(first as usize).copied();
        expect_eq(
            rt,
            At::new(case, first as usize),
            part.first().copied(),
            wanted,
        );
    }
    let half = live / 2;
    let mut rest = vec![in alloc; 0; live.saturating_sub(half) as usize]?;
    survey.slide(half, &mut rest);
    for (row, word) in rest.iter().enumerate() {
        let wanted = slid.get(row.saturating_add(half as usize)).copied();
        expect_eq(rt, At::new(case, row), Some(*word), wanted);
    }
    Ok(())
}

// Forwards roots, and weak words of the caller's own: the address of each word of the heap.
fn expect_forwarded(
    rt: &impl Abort,
    alloc: Global,
    heap: &PlainHeap,
    survey: &Survey<'_>,
    case: &str,
) -> Result<(), AllocError> {
    let mut roots = heap.roots.to_vec(alloc)?;
    expect_eq(
        rt,
        At::new(case, 0),
        survey.forward_roots(&mut roots),
        Ok(()),
    );
    expect_words(rt, case, &roots, &heap.moved_roots(alloc)?);
    let mut weak = Vec::new(alloc);
    let mut moved = Vec::new(alloc);
    for at in 0..heap.count() {
        let word = F.saturating_add(at);
        weak.push(word)?;
        moved.push(heap.moved(word))?;
    }
    survey.forward_weak(&mut weak);
    expect_words(rt, case, &weak, &moved);
    Ok(())
}

// The survey of a heap by the marks of the model, which says the same as the survey of what its roots reach. A heap
// with one mark less is refused: something leads to the object that lost its mark.
fn expect_marked(
    rt: &impl Abort,
    alloc: Global,
    heap: &PlainHeap,
    case: &str,
) -> Result<(), AllocError> {
    let bits = heap.mark_bits(alloc)?;
    match Survey::of_marks(alloc, heap.edition, &heap.words, &heap.roots, &bits) {
        Ok(survey) => {
            expect_leads(rt, heap, &survey, case);
            expect_parts(rt, alloc, heap, &survey, case)?;
        }
        Err(fault) => {
            expect_eq(rt, At::new(case, 0), fault, MarksFault::OutOfMemory);
            return Err(AllocError);
        }
    }
    for object in &heap.objects {
        if object.kept {
            let mut fewer = bits.to_vec(alloc)?;
            if let Some(block) = fewer.get_mut((object.at / 64) as usize) {
                *block ^= 1u64 << (object.at % 64);
            }
            let answer = Survey::of_marks(alloc, heap.edition, &heap.words, &heap.roots, &fewer);
            expect_lost(rt, heap, object.address(), answer.err(), case);
        }
    }
    Ok(())
}

// Fails unless the fault is a root or a reference that leads to this address, or memory that was refused.
fn expect_lost(
    rt: &impl Abort,
    heap: &PlainHeap,
    address: u64,
    fault: Option<MarksFault>,
    case: &str,
) {
    match fault {
        Some(MarksFault::BadRoot(root)) => {
            let found = heap.roots.get(root as usize).copied();
            expect_eq(rt, At::new(case, root as usize), found, Some(address));
        }
        Some(MarksFault::UnmarkedTarget(at)) => {
            expect_eq(rt, At::new(case, at as usize), heap.word(at), address);
        }
        _ => expect_eq(rt, At::new(case, 0), fault, Some(MarksFault::OutOfMemory)),
    }
}

// Draws and surveys a heap.
fn run(rt: &impl Abort, alloc: Global, edition: Edition, seed: u64) -> Result<(), AllocError> {
    let case = format!(in alloc; "seed {seed}")?;
    let mut random = Random { state: seed };
    let heap = PlainHeap::draw(alloc, edition, &mut random)?;
    match Survey::of(alloc, edition, &heap.words, &heap.roots) {
        Ok(survey) => {
            expect_leads(rt, &heap, &survey, &case);
            expect_parts(rt, alloc, &heap, &survey, &case)?;
            expect_forwarded(rt, alloc, &heap, &survey, &case)?;
        }
        Err(fault) => {
            expect_eq(rt, At::new(&case, 0), fault, SurveyFault::OutOfMemory);
            return Err(AllocError);
        }
    }
    expect_marked(rt, alloc, &heap, &case)
}

#[test]
fn surveys_say_what_the_plain_model_says(rt: HostRuntime) {
    let mut refused = 0u64;
    for seed in 1_000..1_000 + HEAPS {
        for edition in [Edition::One, Edition::Two, Edition::Three, Edition::Four] {
            if run(&rt, rt.alloc(), edition, seed).is_err() {
                refused = refused.saturating_add(1);
            }
        }
    }
    // Where a run of the tests refuses one allocation, at most one heap is cut off.
    expect_so(&rt, At::new("refused", refused as usize), refused <= 1);
}

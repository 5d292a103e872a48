//! What the judge says of a heap that moved.
use crate::expected::expect_eq;
use heap_layout::{Edition, MarkedHeap};
use moved_heaps::{MovedFault, MovedHeap, Moves, judge};
use std::process::Abort;
use test_support::At;

pub fn heap_of(
    rt: &(impl Abort + AllocGlobal),
    edition: Edition,
    words: &[u64],
    marks: &[u32],
    roots: &[u64],
) -> MarkedHeap {
    let words = Vec::from_slice(rt.alloc(), words).expect(rt, "words");
    let marks = Vec::from_slice(rt.alloc(), marks).expect(rt, "marks");
    let roots = Vec::from_slice(rt.alloc(), roots).expect(rt, "roots");
    MarkedHeap::from_parts_of(edition, words, marks, roots).expect(rt, "a heap")
}

/// What the judge says of this heap with these places, roots and words.
pub fn judged(
    rt: &(impl Abort + AllocGlobal),
    heap: &MarkedHeap,
    edition: Edition,
    places: &[u32],
    roots: &[u64],
    words: &[u64],
) -> Result<Moves, MovedFault> {
    let places = Vec::from_slice(rt.alloc(), places).expect(rt, "places");
    let roots = Vec::from_slice(rt.alloc(), roots).expect(rt, "roots");
    let words = Vec::from_slice(rt.alloc(), words).expect(rt, "words");
    judge(
        rt.alloc(),
        heap,
        &MovedHeap::new(edition, places, roots, words),
    )
}

/// Fails unless so many objects of so many words moved.
pub fn expect_moves(
    rt: &impl Abort,
    at: At,
    verdict: Result<Moves, MovedFault>,
    objects: u64,
    words: u64,
) {
    expect_eq(rt, at, verdict, Ok(Moves { objects, words }));
}

/// Fails unless this is the fault.
pub fn expect_fault(
    rt: &impl Abort,
    at: At,
    verdict: Result<Moves, MovedFault>,
    fault: MovedFault,
) {
    expect_eq(rt, at, verdict, Err(fault));
}

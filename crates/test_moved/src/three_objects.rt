//! A heap with three marked objects, and what a collection left of it.
use crate::verdicts::{expect_fault, heap_of, judged};
use heap_layout::{Edition, FROM_SPACE as F, Header, MarkedHeap, TO_SPACE as T};
use moved_heaps::MovedFault;
use std::process::Abort;
use test_support::At;

/// Four objects of edition one. The marked ones are that at 0 with a data word, that at 4 with references to itself, to
/// the one at 0 and to nothing and a data word, and that at 9, which has no field. The one at 2 is not marked.
pub fn three(rt: &(impl Abort + AllocGlobal)) -> MarkedHeap {
    let words = [
        Header::new(0, 1, 1).word(),
        11,
        Header::new(0, 1, 2).word(),
        22,
        Header::new(3, 1, 3).word(),
        F + 4,
        F,
        0,
        33,
        Header::new(0, 0, 4).word(),
    ];
    heap_of(rt, Edition::One, &words, &[0, 4, 9], &[F + 4, 0, F + 9])
}

/// The same objects in the order of their addresses backwards, with a free word behind each.
pub const BACK: [u32; 3] = [8, 2, 0];

pub const BACK_ROOTS: [u64; 3] = [T + 2, 0, T];

pub fn back_words() -> [u64; 11] {
    [
        Header::new(0, 0, 4).word(),
        77,
        Header::new(3, 1, 3).word(),
        T + 2,
        T + 8,
        0,
        33,
        77,
        Header::new(0, 1, 1).word(),
        11,
        77,
    ]
}

/// Fails unless this is the fault of the three with these places, roots and words.
pub fn expect_back_fault(
    rt: &(impl Abort + AllocGlobal),
    at: At,
    places: &[u32],
    roots: &[u64],
    words: &[u64],
    fault: MovedFault,
) {
    let verdict = judged(rt, &three(rt), Edition::One, places, roots, words);
    expect_fault(rt, at, verdict, fault);
}

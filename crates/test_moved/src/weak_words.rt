//! Weak words of objects that moved.
use crate::verdicts::{expect_fault, expect_moves, heap_of, judged};
use heap_layout::{Edition, FROM_SPACE as F, Header, MarkedHeap, TO_SPACE as T};
use moved_heaps::MovedFault;
use std::process::Abort;
use test_support::At;

// Three objects of edition two. That at 0 has a reference to itself, weak words for the objects at 5 and 6, and a data
// word that looks like an address. That at 5 is not marked.
fn weak(rt: &(impl Abort + AllocGlobal)) -> MarkedHeap {
    let words = [
        Header::new_weak(1, 2, 1, 1).word(),
        F,
        F + 5,
        F + 6,
        F + 6,
        Header::new_weak(0, 0, 0, 2).word(),
        Header::new_weak(0, 0, 0, 3).word(),
    ];
    heap_of(rt, Edition::Two, &words, &[0, 6], &[F])
}

// What a collection left of them: that at 6, and behind it that at 0.
fn moved() -> [u64; 6] {
    [
        Header::new_weak(0, 0, 0, 3).word(),
        Header::new_weak(1, 2, 1, 1).word(),
        T + 1,
        0,
        T,
        F + 6,
    ]
}

#[test]
fn weak_words_follow_or_become_null(rt: HostRuntime) {
    let heap = weak(&rt);
    let verdict = judged(&rt, &heap, Edition::Two, &[1, 0], &[T + 1], &moved());
    expect_moves(&rt, At::new("lawful", 0), verdict, 2, 6);
    for (case, at, word, offset) in [
        ("of a lost object", 3, F + 5, 2),
        ("null", 4, 0, 3),
        ("data", 5, T, 4),
    ] {
        let mut words = moved();
        words[at] = word;
        let verdict = judged(&rt, &heap, Edition::Two, &[1, 0], &[T + 1], &words);
        let fault = MovedFault::WrongWord(0, offset);
        expect_fault(&rt, At::new(case, 0), verdict, fault);
    }
}

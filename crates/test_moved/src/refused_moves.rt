//! Moves whose heads, places and roots are refused.
use crate::three_objects::{BACK, BACK_ROOTS, back_words, expect_back_fault, three};
use crate::verdicts::{expect_fault, judged};
use heap_layout::{Edition, FROM_SPACE as F, TO_SPACE as T};
use moved_heaps::{HeadPart, MovedFault};
use test_support::At;

#[test]
fn heads_that_differ_are_refused(rt: HostRuntime) {
    let heap = three(&rt);
    let words = back_words();
    let verdict = judged(&rt, &heap, Edition::Two, &BACK[..2], &[], &words);
    let fault = MovedFault::WrongHead(HeadPart::Edition);
    expect_fault(&rt, At::new("edition", 0), verdict, fault);
    let fault = MovedFault::WrongHead(HeadPart::Places);
    let at = At::new("places", 0);
    expect_back_fault(&rt, at, &BACK[..2], &[], &words, fault);
    let at = At::new("places", 1);
    expect_back_fault(&rt, at, &[8, 2, 0, 11], &BACK_ROOTS, &words, fault);
    let fault = MovedFault::WrongHead(HeadPart::Roots);
    let at = At::new("roots", 0);
    expect_back_fault(&rt, at, &[99, 99, 99], &BACK_ROOTS[..2], &words, fault);
    let at = At::new("roots", 1);
    expect_back_fault(&rt, at, &BACK, &[T + 2, 0, T, 0], &words, fault);
}

#[test]
fn objects_outside_the_words_are_refused(rt: HostRuntime) {
    let words = back_words();
    for (case, places, roots, fault) in [
        ("the first", [10, 2, 0], BACK_ROOTS, 0),
        ("all", [10, 10, 10], [1, 1, 1], 0),
        ("the last", [8, 2, 11], BACK_ROOTS, 2),
        ("the last, far", [8, 2, u32::MAX], BACK_ROOTS, 2),
    ] {
        let fault = MovedFault::PlaceOutside(fault);
        expect_back_fault(&rt, At::new(case, 0), &places, &roots, &words, fault);
    }
    let fault = MovedFault::PlaceOutside(0);
    let at = At::new("fewer words", 0);
    expect_back_fault(&rt, at, &BACK, &BACK_ROOTS, &words[..9], fault);
}

// The object 1 has the words 2 to 6.
#[test]
fn objects_that_overlap_are_refused(rt: HostRuntime) {
    let words = back_words();
    for (case, places, roots, first, second) in [
        ("its last word", [6, 2, 0], BACK_ROOTS, 1, 0),
        ("its header", [1, 2, 0], BACK_ROOTS, 0, 1),
        ("the same place", [8, 2, 2], BACK_ROOTS, 1, 2),
        ("both inside", [4, 2, 3], BACK_ROOTS, 1, 2),
        ("one place for all", [5, 5, 5], [1, 1, 1], 0, 1),
    ] {
        let fault = MovedFault::Overlap(first, second);
        expect_back_fault(&rt, At::new(case, 0), &places, &roots, &words, fault);
    }
}

#[test]
fn wrong_roots_are_refused(rt: HostRuntime) {
    let words = back_words();
    for (case, roots, root) in [
        ("null", [0, 0, T], 0),
        ("from-space", [F + 4, 1, 1], 0),
        ("not null", [T + 2, T, T], 1),
        ("another object", [T + 2, 0, T + 8], 2),
    ] {
        let fault = MovedFault::WrongRoot(root);
        expect_back_fault(&rt, At::new(case, 0), &BACK, &roots, &words, fault);
    }
    let at = At::new("before words", 0);
    let fault = MovedFault::WrongRoot(2);
    expect_back_fault(&rt, at, &BACK, &[T + 2, 0, 0], &[0; 11], fault);
}

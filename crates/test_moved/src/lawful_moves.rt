//! Moves that are accepted.
use crate::three_objects::{BACK, BACK_ROOTS, back_words, three};
use crate::verdicts::{expect_fault, expect_moves, heap_of, judged};
use heap_layout::{Edition, Header, TO_SPACE as T};
use moved_heaps::MovedFault;
use test_support::At;

#[test]
fn lawful_heaps_are_accepted(rt: HostRuntime) {
    let heap = three(&rt);
    let back = judged(&rt, &heap, Edition::One, &BACK, &BACK_ROOTS, &back_words());
    expect_moves(&rt, At::new("back", 0), back, 3, 8);
    let slid = [
        Header::new(0, 1, 1).word(),
        11,
        Header::new(3, 1, 3).word(),
        T + 2,
        T,
        0,
        33,
        Header::new(0, 0, 4).word(),
    ];
    let roots = [T + 2, 0, T + 7];
    let verdict = judged(&rt, &heap, Edition::One, &[0, 2, 7], &roots, &slid);
    expect_moves(&rt, At::new("slid", 0), verdict, 3, 8);
}

#[test]
fn an_empty_heap_moves(rt: HostRuntime) {
    let heap = heap_of(&rt, Edition::One, &[], &[], &[]);
    let verdict = judged(&rt, &heap, Edition::One, &[], &[], &[]);
    expect_moves(&rt, At::new("no word", 0), verdict, 0, 0);
    let verdict = judged(&rt, &heap, Edition::One, &[], &[], &[1, 2, 3]);
    expect_moves(&rt, At::new("free words", 0), verdict, 0, 0);
    let unmarked = heap_of(&rt, Edition::One, &[0], &[], &[0]);
    let verdict = judged(&rt, &unmarked, Edition::One, &[], &[0], &[]);
    expect_moves(&rt, At::new("a null root", 0), verdict, 0, 0);
    let verdict = judged(&rt, &unmarked, Edition::One, &[], &[T], &[]);
    expect_fault(&rt, At::new("a root", 0), verdict, MovedFault::WrongRoot(0));
}

//! Large objects that moved.
use crate::verdicts::{expect_fault, expect_moves, heap_of, judged};
use heap_layout::{Edition, FROM_SPACE as F, Header, TO_SPACE as T};
use moved_heaps::MovedFault;
use test_support::At;

// The object at 0 has 70,000 data words, the last of which changes; the one at 70,001 a reference to it.
#[test]
fn large_objects_of_edition_three_move(rt: HostRuntime) {
    let header = Header::of_large_counts(0, 0, 70_000, 1).expect(&rt, "a header");
    let other = Header::of_large_counts(1, 0, 0, 2).expect(&rt, "a header");
    let mut words = Vec::new(rt.alloc());
    words.push(header.word()).expect(&rt, "words");
    for i in 0..70_000u64 {
        words.push(i).expect(&rt, "words");
    }
    let mut moved = Vec::new(rt.alloc());
    moved.push(other.word()).expect(&rt, "words");
    moved.push(T + 2).expect(&rt, "words");
    moved.extend_from_slice(&words).expect(&rt, "words");
    words.push(other.word()).expect(&rt, "words");
    words.push(F).expect(&rt, "words");
    let marks = [0, 70_001];
    let heap = heap_of(&rt, Edition::Three, &words, &marks, &[F + 70_001]);
    let verdict = judged(&rt, &heap, Edition::Three, &[2, 0], &[T], &moved);
    expect_moves(&rt, At::new("lawful", 0), verdict, 2, 70_003);
    let verdict = judged(&rt, &heap, Edition::Three, &[1, 0], &[T], &moved);
    let fault = MovedFault::Overlap(1, 0);
    expect_fault(&rt, At::new("overlap", 0), verdict, fault);
    let last = moved.len() - 1;
    moved[last] = 0;
    let verdict = judged(&rt, &heap, Edition::Three, &[2, 0], &[T], &moved);
    let fault = MovedFault::WrongWord(0, 70_000);
    expect_fault(&rt, At::new("the last word", 0), verdict, fault);
}

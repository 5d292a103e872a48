//! A collection by several threads, with the words that a person reads off.
use crate::expected::expect_words;
use crate::left::expect_left;
use crate::small_heaps::{eight, pair};
use heap_layout::{Edition, FROM_SPACE as F};
use pinned_heap::collect_pinned_by_threads;
use std::process::Abort;

// What the root F + 3 and pins at 15 and 6 leave of the eight pairs.
fn eight_left() -> [u64; 24] {
    [
        pair(2),
        F + 18,
        22,
        0,
        0,
        0,
        pair(3),
        F + 9,
        33,
        pair(5),
        F,
        55,
        0,
        0,
        0,
        pair(6),
        0,
        66,
        pair(8),
        F + 9,
        88,
        pair(8),
        F + 12,
        88,
    ]
}

#[test]
fn three_parts_slide_between_two_pins(rt: HostRuntime) {
    for (case, threads) in [
        ("no threads", 0),
        ("one thread", 1),
        ("two threads", 2),
        ("three threads", 3),
        ("four threads", 4),
    ] {
        let mut words = eight();
        let mut roots = [F + 3];
        let left = collect_pinned_by_threads(
            rt.alloc(),
            &rt,
            threads,
            Edition::One,
            &mut words,
            &mut roots,
            &[F + 15, F + 6],
            2,
        );
        expect_left(&rt, case, left, 21, &[(3, 6), (12, 15)]);
        expect_words(&rt, case, &roots, &[F]);
        expect_words(&rt, case, &words, &eight_left());
    }
}

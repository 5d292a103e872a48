//! Words that threads cut into parts: at objects that stay, and nowhere else.
use crate::expected::expect_words;
use crate::left::expect_left;
use heap_layout::{Edition, FROM_SPACE as F, Header};
use pinned_heap::collect_pinned_by_threads;
use std::process::Abort;

// Writes a word at an index.
fn set(words: &mut [u64; 256], at: u64, word: u64) {
    if let Some(there) = words.get_mut(at as usize) {
        *there = word;
    }
}

// Writes an object at an index: a reference to the object at index `leads`, and so many data words, each another one.
fn put(words: &mut [u64; 256], at: u64, tag: u32, data: u16, leads: u64) {
    set(words, at, Header::new(1, data, tag).word());
    set(words, at.wrapping_add(1), F.wrapping_add(leads));
    for k in 0..u64::from(data) {
        let index = at.wrapping_add(2).wrapping_add(k);
        set(words, index, u64::from(tag).wrapping_add(k));
    }
}

// Nine objects. Those at 64, 140 and 200 are to stay. Of their 90 words 10 are below word 64, 20 below word 128 and 80
// below word 192: half of them are in front of a word between 128 and 192. The first that stays there is at 140; the
// one at 129 slides to below 128.
fn nine() -> [u64; 256] {
    let mut words = [0; 256];
    put(&mut words, 10, 100, 2, 149);
    put(&mut words, 40, 200, 4, 200);
    put(&mut words, 64, 300, 1, 129);
    put(&mut words, 100, 400, 5, 10);
    put(&mut words, 129, 500, 7, 250);
    put(&mut words, 140, 600, 6, 40);
    put(&mut words, 149, 700, 41, 100);
    put(&mut words, 200, 800, 2, 140);
    put(&mut words, 250, 900, 4, 64);
    words
}

// What is left of them: the same objects in the same order. The words of the last one are where they were, too.
fn nine_left() -> [u64; 256] {
    let mut words = [0; 256];
    put(&mut words, 0, 100, 2, 148);
    put(&mut words, 4, 200, 4, 200);
    put(&mut words, 64, 300, 1, 74);
    put(&mut words, 67, 400, 5, 0);
    put(&mut words, 74, 500, 7, 204);
    put(&mut words, 140, 600, 6, 4);
    put(&mut words, 148, 700, 41, 67);
    put(&mut words, 200, 800, 2, 140);
    put(&mut words, 204, 900, 4, 64);
    put(&mut words, 250, 900, 4, 64);
    words
}

// Two threads cut at 140; four cut at 64 and 200 too, and more find nowhere else to cut.
#[test]
fn words_are_cut_at_objects_that_stay(rt: HostRuntime) {
    for (case, threads) in [
        ("one thread", 1),
        ("two threads", 2),
        ("three threads", 3),
        ("four threads", 4),
        ("ten threads", 10),
        ("a hundred threads", 100),
    ] {
        let mut words = nine();
        let mut roots = [F + 10, F + 250];
        let left = collect_pinned_by_threads(
            rt.alloc(),
            &rt,
            threads,
            Edition::One,
            &mut words,
            &mut roots,
            &[F + 200, F + 64, F + 140],
            3,
        );
        expect_left(&rt, case, left, 210, &[(10, 64), (83, 140), (191, 200)]);
        expect_words(&rt, case, &roots, &[F, F + 204]);
        expect_words(&rt, case, &words, &nine_left());
    }
}

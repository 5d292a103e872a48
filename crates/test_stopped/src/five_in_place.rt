//! Five objects, collected within the words of the heap.
use crate::expected::{expect_eq, expect_so, expect_words};
use crate::small_heaps::{five, three};
use heap_layout::{Edition, FROM_SPACE as F, Header};
use std::process::Abort;
use stopped_heap::{SurveyFault, collect_in_place};
use test_support::At;

// Collects these words in place, and expects these words and roots, and so many live words. Where memory runs out
// nothing may have changed.
fn expect_in_place(
    rt: &(impl Abort + AllocGlobal),
    words: &mut [u64; 12],
    roots: &mut [u64; 2],
    live: u64,
    left: [u64; 12],
    left_roots: [u64; 2],
) {
    let before = *words;
    let before_roots = *roots;
    match collect_in_place(rt.alloc(), Edition::Two, words, roots) {
        Ok(count) => {
            expect_eq(rt, At::new("live", 0), count, live);
            expect_words(rt, "words", words, &left);
            expect_words(rt, "roots", roots, &left_roots);
        }
        Err(fault) => {
            expect_eq(rt, At::new("fault", 0), fault, SurveyFault::OutOfMemory);
            expect_words(rt, "words stay", words, &before);
            expect_words(rt, "roots stay", roots, &before_roots);
        }
    }
}

// The words that are left of `five`, and behind them the last ones of `five`.
fn three_in_place() -> [u64; 12] {
    let mut words = five();
    for (at, word) in words.iter_mut().enumerate() {
        if let Some(&left) = three().get(at) {
            *word = left;
        }
    }
    words
}

#[test]
fn objects_slide_down_and_the_words_behind_them_stay(rt: HostRuntime) {
    let left = three_in_place();
    let mut roots = [F + 8, F + 2];
    expect_in_place(&rt, &mut five(), &mut roots, 9, left, [F + 6, F]);
}

#[test]
fn objects_that_stay_are_as_they_were(rt: HostRuntime) {
    let left = three_in_place();
    let mut words = left;
    expect_in_place(&rt, &mut words, &mut [F + 6, F], 9, left, [F + 6, F]);
}

#[test]
fn without_roots_no_word_is_live_and_all_stay(rt: HostRuntime) {
    let left = five();
    expect_in_place(&rt, &mut five(), &mut [0; 2], 0, left, [0; 2]);
}

// Each object is live: none moves, and weak words stay.
#[test]
fn where_all_is_live_all_stays(rt: HostRuntime) {
    let one = Header::new_weak(1, 0, 0, 0).word();
    let mut words = [
        one,
        F + 2,
        one,
        F + 4,
        one,
        F + 6,
        one,
        F + 8,
        one,
        F + 10,
        one,
        F,
    ];
    let left = words;
    expect_in_place(&rt, &mut words, &mut [F, F + 4], 12, left, [F, F + 4]);
}

#[test]
fn a_fault_leaves_words_and_roots(rt: HostRuntime) {
    let mut words = five();
    words[4] = F + 12;
    let left = words;
    let mut roots = [F + 8, F + 2];
    let answer = collect_in_place(rt.alloc(), Edition::Two, &mut words, &mut roots).err();
    let is_named = answer == Some(SurveyFault::BadReference(4));
    let no_memory = answer == Some(SurveyFault::OutOfMemory);
    expect_so(&rt, At::new("fault", 0), is_named || no_memory);
    expect_words(&rt, "words", &words, &left);
    expect_words(&rt, "roots", &roots, &[F + 8, F + 2]);
}

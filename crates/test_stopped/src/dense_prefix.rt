//! Collections in place of heaps whose first words are all live, with words that a person works out.
use crate::expected::{expect_eq, expect_words};
use heap_layout::{Edition, FIRST_IMMEDIATE as I, FROM_SPACE as F, Header};
use std::process::Abort;
use stopped_heap::{SurveyFault, collect_in_place};
use test_support::At;

// Collects `words` in place, which are those of `before`, and expects so many live words, what is `left`, and where the
// root leads then. Where memory runs out nothing may have changed.
fn expect(
    rt: &(impl Abort + AllocGlobal),
    edition: Edition,
    before: &[u64],
    words: &mut [u64],
    root: u64,
    live: u64,
    left: &[u64],
    left_root: u64,
) {
    let mut roots = [root, 0];
    match collect_in_place(rt.alloc(), edition, words, &mut roots) {
        Ok(count) => {
            expect_eq(rt, At::new("live", 0), count, live);
            expect_words(rt, "words", words, left);
            expect_words(rt, "roots", &roots, &[left_root, 0]);
        }
        Err(fault) => {
            expect_eq(rt, At::new("fault", 0), fault, SurveyFault::OutOfMemory);
            expect_words(rt, "words stay", words, before);
            expect_words(rt, "roots stay", &roots, &[root, 0]);
        }
    }
}

// The object at 0 stays. It has references to itself, to none and to the object at 9, weak words for the object at 7,
// which is not reached, and for that at 9, and a data word. The object at 9 moves to 7. It has a reference to the
// object at 0 and a weak word for that at 7.
fn stays_and_moves() -> [u64; 12] {
    [
        Header::new_weak(3, 2, 1, 1).word(),
        F,
        0,
        F + 9,
        F + 7,
        F + 9,
        F + 9,
        Header::new_weak(0, 0, 1, 2).word(),
        F,
        Header::new_weak(1, 1, 0, 3).word(),
        F,
        F + 7,
    ]
}

#[test]
fn references_out_of_a_dense_prefix_follow_what_moves(rt: HostRuntime) {
    let before = stays_and_moves();
    let mut words = before;
    let left = [
        Header::new_weak(3, 2, 1, 1).word(),
        F,
        0,
        F + 7,
        0,
        F + 7,
        F + 9,
        Header::new_weak(1, 1, 0, 3).word(),
        F,
        0,
        F,
        F + 7,
    ];
    expect(&rt, Edition::Two, &before, &mut words, F, 10, &left, F);
}

// The same objects behind a dead one: none stays where it is.
#[test]
fn without_a_dense_prefix_all_references_follow(rt: HostRuntime) {
    let before = [
        Header::new_weak(0, 0, 0, 4).word(),
        Header::new_weak(2, 1, 1, 5).word(),
        F + 1,
        F + 6,
        F,
        F + 6,
        Header::new_weak(1, 0, 0, 6).word(),
        F + 1,
    ];
    let left = [
        Header::new_weak(2, 1, 1, 5).word(),
        F,
        F + 5,
        0,
        F + 6,
        Header::new_weak(1, 0, 0, 6).word(),
        F,
        F + 1,
    ];
    let mut words = before;
    expect(&rt, Edition::Two, &before, &mut words, F + 1, 7, &left, F);
}

// Immediates of edition four are no addresses, though they are above the prefix as numbers.
#[test]
fn immediates_in_a_dense_prefix_stay(rt: HostRuntime) {
    let before = [
        Header::new_weak(3, 2, 0, 1).word(),
        I,
        I + F + 7,
        F + 8,
        u64::MAX,
        I + F + 6,
        Header::new_weak(0, 0, 1, 2).word(),
        F + 8,
        Header::new_weak(0, 0, 0, 3).word(),
    ];
    let mut left = before;
    left[3] = F + 6;
    left[6] = before[8];
    let mut words = before;
    expect(&rt, Edition::Four, &before, &mut words, F, 7, &left, F);
}

// The prefix is a whole block of the bits, and ends with it: the object at 0 has a reference, to the object at 66, and
// 62 data words. That at 64 is not reached.
#[test]
fn a_dense_prefix_that_ends_with_a_block(rt: HostRuntime) {
    let mut before = [F + 66; 67];
    before[0] = Header::new_weak(1, 0, 62, 1).word();
    before[64] = Header::new_weak(0, 0, 1, 2).word();
    before[66] = Header::new_weak(0, 0, 0, 3).word();
    let mut left = before;
    left[1] = F + 64;
    left[64] = before[66];
    let mut words = before;
    expect(&rt, Edition::Two, &before, &mut words, F, 65, &left, F);
}

// It ends within the next block, at 72. The object at 75 has a reference to itself.
#[test]
fn a_dense_prefix_that_ends_within_a_block(rt: HostRuntime) {
    let mut before = [F + 75; 77];
    before[0] = Header::new_weak(1, 0, 70, 1).word();
    before[72] = Header::new_weak(0, 0, 2, 2).word();
    before[75] = Header::new_weak(1, 0, 0, 3).word();
    let mut left = before;
    left[1] = F + 72;
    left[72] = before[75];
    left[73] = F + 72;
    let mut words = before;
    expect(&rt, Edition::Two, &before, &mut words, F, 74, &left, F);
}

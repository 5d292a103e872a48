//! Collections around pins, by one thread.
use crate::expected::{expect_eq, expect_words};
use crate::left::expect_left;
use crate::small_heaps::{five, pair};
use heap_layout::{Edition, FROM_SPACE as F, Header};
use pinned_heap::collect_pinned;
use std::process::Abort;
use stopped_heap::collect_in_place;
use test_support::At;

#[test]
fn objects_slide_around_a_pin_in_the_middle(rt: HostRuntime) {
    let mut words = five();
    let mut roots = [F + 3, F + 6, 0];
    let left = collect_pinned(
        rt.alloc(),
        Edition::One,
        &mut words,
        &mut roots,
        &[F + 6],
        1,
    );
    expect_left(&rt, "a pin", left, 12, &[(3, 6)]);
    expect_words(&rt, "roots", &roots, &[F, F + 6, 0]);
    expect_words(
        &rt,
        "words",
        &words,
        &[
            pair(2),
            0,
            22,
            0,
            0,
            0,
            pair(3),
            F + 9,
            33,
            pair(5),
            F,
            55,
            pair(5),
            F + 3,
            55,
        ],
    );
}

#[test]
fn a_pin_keeps_what_only_pins_reach(rt: HostRuntime) {
    let mut words = five();
    let mut roots = [0];
    let left = collect_pinned(
        rt.alloc(),
        Edition::One,
        &mut words,
        &mut roots,
        &[F + 12],
        1,
    );
    expect_left(&rt, "a pin", left, 15, &[(3, 12)]);
    expect_words(&rt, "roots", &roots, &[0]);
    expect_eq(&rt, At::new("word", 0), words[0], pair(2));
    expect_words(&rt, "free words", &words[3..12], &[0; 9]);
    expect_words(&rt, "words from 12 on", &words[12..], &[pair(5), F, 55]);
}

#[test]
fn there_is_no_run_between_pins_side_by_side(rt: HostRuntime) {
    let mut words = five();
    let mut roots = [F + 12];
    let left = collect_pinned(
        rt.alloc(),
        Edition::One,
        &mut words,
        &mut roots,
        &[F + 9, F + 6, F + 9],
        3,
    );
    expect_left(&rt, "pins", left, 15, &[(3, 6)]);
    expect_words(&rt, "roots", &roots, &[F + 12]);
    expect_eq(&rt, At::new("word", 6), words[6], pair(3));
    expect_eq(&rt, At::new("word", 9), words[9], pair(4));
    expect_eq(&rt, At::new("word", 13), words[13], F);
}

// The header of an object of edition three that may have many data words, and has so many.
fn many_data(count: u64) -> u64 {
    1 << 63 | count
}

#[test]
fn a_run_of_edition_three_is_one_object(rt: HostRuntime) {
    // Four objects: of two words, of one, of one, and a pinned one of two.
    let two = Header::new_mixed(0, 0, 1, 0).word();
    let mut words = [two, 7, many_data(0), many_data(0), two, 9];
    let left = collect_pinned(rt.alloc(), Edition::Three, &mut words, &mut [], &[F + 4], 1);
    expect_left(&rt, "a pin", left, 6, &[(0, 4)]);
    expect_eq(&rt, At::new("word", 0), words[0], many_data(3));
    expect_words(&rt, "words from 4 on", &words[4..], &[two, 9]);
}

#[test]
fn without_pins_it_is_a_collection_in_place(rt: HostRuntime) {
    let mut words = five();
    let mut roots = [F + 12, F + 9];
    let left = collect_pinned(rt.alloc(), Edition::One, &mut words, &mut roots, &[], 0);
    expect_left(&rt, "no pins", left, 9, &[]);
    let mut other = five();
    let mut other_roots = [F + 12, F + 9];
    let live = collect_in_place(rt.alloc(), Edition::One, &mut other, &mut other_roots);
    expect_eq(&rt, At::new("live", 0), live, Ok(9));
    expect_words(&rt, "words", &words, &other);
    expect_words(&rt, "roots", &roots, &other_roots);
}

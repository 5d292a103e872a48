//! Heaps that are refused, each by what is there, and that nothing has changed then.
use crate::expected::{expect_eq, expect_so, expect_words_at};
use crate::plain_heap::BEFORE;
use crate::small_heaps::five;
use heap_layout::{Edition, FROM_SPACE as F, Header};
use std::process::Abort;
use stopped_heap::{CollectFault, SurveyFault, collect};
use test_support::At;

const NO_MEMORY: CollectFault = CollectFault::Survey(SurveyFault::OutOfMemory);

// Collects these words into so many at most, and expects this fault, or that memory ran out. The roots are round 1 of
// the case, and the memory is round 2.
fn expect_refused(
    rt: &(impl Abort + AllocGlobal),
    case: &str,
    words: &[u64; 12],
    roots: [u64; 3],
    room: usize,
    fault: CollectFault,
) {
    let mut left = roots;
    let mut to = [BEFORE; 12];
    let (part, _) = to.split_at_mut(room.min(12));
    let answer = collect(rt.alloc(), Edition::Two, words, &mut left, part).err();
    if answer != Some(NO_MEMORY) {
        expect_eq(rt, At::new(case, 0), answer, Some(fault));
    }
    expect_words_at(rt, At::of_round(case, 1), &left, &roots);
    expect_words_at(rt, At::of_round(case, 2), &to, &[BEFORE; 12]);
}

// The heap of five objects, with one word changed, is refused with this fault by this root.
fn expect_fault(
    rt: &(impl Abort + AllocGlobal),
    case: &str,
    at: usize,
    word: u64,
    root: u64,
    fault: SurveyFault,
) {
    let mut words = five();
    expect_so(rt, At::new(case, at), at < 12);
    if let Some(changed) = words.get_mut(at) {
        *changed = word;
    }
    let fault = CollectFault::Survey(fault);
    expect_refused(rt, case, &words, [root, 0, 0], 12, fault);
}

#[test]
fn bad_roots_are_named(rt: HostRuntime) {
    for (name, root) in [
        ("past the words", F + 12),
        ("below the words", 5),
        ("an immediate", 1 << 63),
    ] {
        expect_fault(&rt, name, 1, 0, root, SurveyFault::BadRoot(0));
    }
}

#[test]
fn bad_words_of_objects_are_named(rt: HostRuntime) {
    let two = Header::new(0, 2, 0).word();
    let long = Header::new(0, 1_024, 0).word();
    for (name, at, word, root, fault) in [
        (
            "reference past the words",
            4,
            F + 12,
            F + 2,
            SurveyFault::BadReference(4),
        ),
        (
            "weak word below the words",
            6,
            F - 1,
            F + 2,
            SurveyFault::BadWeak(6),
        ),
        // The word inside the object, read as a header, has its next words.
        (
            "reference into an object",
            4,
            F + 3,
            F + 2,
            SurveyFault::Overlap(3),
        ),
        // The object at 10 has one word more than there are.
        (
            "one word more than there are",
            10,
            two,
            F + 10,
            SurveyFault::ObjectPastEnd(10),
        ),
        (
            "one word more than the edition allows",
            10,
            long,
            F + 10,
            SurveyFault::ObjectTooLong(10),
        ),
    ] {
        expect_fault(&rt, name, at, word, root, fault);
    }
}

#[test]
fn live_words_that_just_do_not_fit(rt: HostRuntime) {
    let roots = [0, F + 8, F + 2];
    let fault = CollectFault::NoRoom(9);
    expect_refused(&rt, "room for 8", &five(), roots, 8, fault);
}

// The object at 2 has a word more than before, which is that of the object at 8.
#[test]
fn an_overlap_by_one_word(rt: HostRuntime) {
    let mut words = five();
    words[2] = Header::new_weak(2, 2, 2, 0).word();
    let fault = CollectFault::Survey(SurveyFault::Overlap(8));
    expect_refused(&rt, "overlap", &words, [F + 2, F + 8, 0], 12, fault);
}

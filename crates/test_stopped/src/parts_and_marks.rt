//! Surveys of five objects, slid in parts, where words lead by them, and marks of the caller's own.
use crate::expected::{expect_eq, expect_words};
use crate::plain_heap::BEFORE;
use crate::small_heaps::{five, three};
use heap_layout::{Edition, FROM_SPACE as F};
use stopped_heap::{MarksFault, Survey};
use test_support::At;

#[test]
fn parts_are_those_of_the_whole(rt: HostRuntime) {
    let words = five();
    let survey = Survey::of(rt.alloc(), Edition::Two, &words, &[0, F + 8, F + 2]);
    let survey = survey.expect(&rt, "a survey of five objects");
    let live = survey.live_words();
    expect_eq(&rt, At::new("live", 0), live, 9);
    for (first, word) in three().iter().enumerate() {
        let mut part = [5];
        if (first as u64) < live {
            survey.slide(first as u64, &mut part);
        }
        expect_eq(&rt, At::new("part", first), part, [*word]);
    }
}

#[test]
fn words_lead_where_their_objects_are(rt: HostRuntime) {
    let words = five();
    let survey = Survey::of(rt.alloc(), Edition::Two, &words, &[0, F + 8, F + 2]);
    let survey = survey.expect(&rt, "a survey of five objects");
    for (name, word, to) in [
        ("a live object", F + 10, Some(F + 7)),
        ("null", 0, Some(0)),
        ("a dead object", F, None),
        ("a word inside an object", F + 3, None),
    ] {
        expect_eq(&rt, At::new(name, 0), survey.forward(word), to);
    }
    let mut roots = [F + 10, F + 9, F + 3];
    let answer = survey.forward_roots(&mut roots);
    expect_eq(&rt, At::new("two roots astray", 0), answer, Err(1));
    expect_words(&rt, "roots that stay", &roots, &[F + 10, F + 9, F + 3]);
    survey.forward_weak(&mut roots);
    expect_words(&rt, "weak words", &roots, &[F + 7, 0, 0]);
    let mut roots = [F + 10, 0, F + 8];
    let answer = survey.forward_roots(&mut roots);
    expect_eq(&rt, At::new("sound roots", 0), answer, Ok(()));
    expect_words(&rt, "sound roots", &roots, &[F + 7, 0, F + 6]);
}

// The three objects that the roots of the tests reach.
const OBJECTS: u64 = 1 << 2 | 1 << 8 | 1 << 10;

#[test]
fn marks_of_the_callers_own(rt: HostRuntime) {
    let words = five();
    let survey = Survey::of_marks(rt.alloc(), Edition::Two, &words, &[F + 2], &[OBJECTS]);
    let survey = survey.expect(&rt, "a survey by marks");
    let mut to = [BEFORE; 9];
    let live = survey.live_words();
    expect_eq(&rt, At::new("live", 0), live, 9);
    if live == 9 {
        survey.slide(0, &mut to);
    }
    expect_words(&rt, "to", &to, &three());
}

// The fault by these marks and this root, if there is one.
fn fault_of(rt: &impl AllocGlobal, marks: &[u64], root: u64) -> Option<MarksFault> {
    Survey::of_marks(rt.alloc(), Edition::Two, &five(), &[root], marks).err()
}

#[test]
fn marks_that_are_refused(rt: HostRuntime) {
    for (name, marks, root, fault) in [
        ("root at no mark", OBJECTS, F, MarksFault::BadRoot(0)),
        ("root past the end", OBJECTS, F + 12, MarksFault::BadRoot(0)),
        (
            "one mark too few",
            1 << 2 | 1 << 8,
            F + 2,
            MarksFault::UnmarkedTarget(4),
        ),
        (
            "a mark within an object",
            OBJECTS | 1 << 3,
            F + 2,
            MarksFault::Overlap(3),
        ),
        (
            "a mark past the words",
            1 << 12,
            0,
            MarksFault::ObjectPastEnd(12),
        ),
    ] {
        let found = fault_of(&rt, &[marks], root);
        expect_eq(&rt, At::new(name, 0), found, Some(fault));
    }
    let found = fault_of(&rt, &[], 0);
    let wanted = Some(MarksFault::WrongLength);
    expect_eq(&rt, At::new("no marks", 0), found, wanted);
}

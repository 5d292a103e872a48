//! Tables that are lent to one collection after another.
use crate::expected::{expect_eq, expect_so, expect_words, expect_words_at};
use crate::plain_heap::BEFORE;
use crate::small_heaps::{five, three};
use heap_layout::{Edition, FROM_SPACE as F, Header};
use std::process::Abort;
use stopped_heap::{
    CollectFault, CollectLentFault, LentFault, MarksFault, MarksLentFault, Survey, SurveyFault,
    Tables, collect_lent,
};
use test_support::At;

const BY: [u64; 3] = [0, F + 8, F + 2];

// Collects five objects by these tables, and expects what is left without them.
fn expect_three(rt: &impl Abort, case: &str, tables: &mut Tables) {
    let mut roots = BY;
    let mut to = [BEFORE; 10];
    let answer = collect_lent(tables, Edition::Two, &five(), &mut roots, &mut to);
    expect_eq(rt, At::new(case, 0), answer, Ok(9));
    let (words, behind) = to.split_at(9);
    expect_words_at(rt, At::of_round(case, 1), words, &three());
    expect_words_at(rt, At::of_round(case, 1).after(9), behind, &[BEFORE]);
    expect_words_at(rt, At::of_round(case, 2), &roots, &[0, F + 6, F]);
}

// Collects a row of 200 one-word objects, all of them roots. It has each bit of the tables set, and fills the queue.
fn expect_larger(rt: &impl Abort, case: &str, tables: &mut Tables) {
    let words = [Header::new_weak(0, 0, 0, 0).word(); 200];
    let mut roots = [0; 200];
    for (i, root) in roots.iter_mut().enumerate() {
        *root = F.wrapping_add(i as u64);
    }
    let mut to = [BEFORE; 200];
    let answer = collect_lent(tables, Edition::Two, &words, &mut roots, &mut to);
    expect_eq(rt, At::new(case, 0), answer, Ok(200));
    expect_words_at(rt, At::of_round(case, 1), &to, &words);
    expect_eq(rt, At::of_round(case, 2).after(199), roots[199], F + 199);
}

#[test]
fn a_heap_after_a_larger_one(rt: HostRuntime) {
    if let Ok(mut tables) = Tables::reserve(rt.alloc(), 200) {
        expect_larger(&rt, "a larger one", &mut tables);
        expect_three(&rt, "after it", &mut tables);
        expect_larger(&rt, "the larger one again", &mut tables);
        expect_eq(&rt, At::new("room", 0), tables.room(), 200);
    }
}

// Collects five objects, with this reference of one of them, into so many words, and expects this fault, and that
// nothing has changed.
fn expect_refused(
    rt: &impl Abort,
    case: &str,
    tables: &mut Tables,
    reference: u64,
    room: usize,
    fault: CollectLentFault,
) {
    let mut words = five();
    words[4] = reference;
    let mut roots = BY;
    let mut to = [BEFORE; 10];
    let (part, _) = to.split_at_mut(room.min(10));
    let answer = collect_lent(tables, Edition::Two, &words, &mut roots, part);
    expect_eq(rt, At::new(case, 0), answer, Err(fault));
    expect_words_at(rt, At::of_round(case, 1), &to, &[BEFORE; 10]);
    expect_words_at(rt, At::of_round(case, 2), &roots, &BY);
}

#[test]
fn tables_that_are_too_small(rt: HostRuntime) {
    if let Ok(mut tables) = Tables::reserve(rt.alloc(), 11) {
        let fault = CollectLentFault::ShortTables(11);
        expect_refused(&rt, "one word too small", &mut tables, F + 10, 10, fault);
    }
}

#[test]
fn refused_heaps_leave_the_tables(rt: HostRuntime) {
    let Ok(mut tables) = Tables::reserve(rt.alloc(), 12) else {
        return;
    };
    for (name, reference, room, fault) in [
        (
            "bad reference",
            F + 12,
            10,
            CollectFault::Survey(SurveyFault::BadReference(4)),
        ),
        ("no room", F + 10, 8, CollectFault::NoRoom(9)),
    ] {
        let fault = CollectLentFault::Collect(fault);
        expect_refused(&rt, name, &mut tables, reference, room, fault);
    }
    expect_three(&rt, "after both", &mut tables);
}

// A survey of five objects says what is left of them.
fn expect_surveyed(rt: &impl Abort, survey: &Survey<'_>) {
    let mut to = [BEFORE; 9];
    let live = survey.live_words();
    expect_eq(rt, At::new("live", 0), live, 9);
    if live == 9 {
        survey.slide(0, &mut to);
    }
    expect_words(rt, "to", &to, &three());
}

// The tables go into a survey and come back, whether it is made or not.
#[test]
fn a_survey_in_lent_tables(rt: HostRuntime) {
    let Ok(tables) = Tables::reserve(rt.alloc(), 12) else {
        return;
    };
    let mut words = five();
    words[4] = F + 12;
    let Err(refused) = Survey::of_lent(tables, Edition::Two, &words, &BY) else {
        expect_so(&rt, At::new("a bad reference is refused", 0), false);
        return;
    };
    let fault = LentFault::Survey(SurveyFault::BadReference(4));
    expect_eq(&rt, At::new("bad reference", 0), refused.fault, fault);
    let words = five();
    let Ok(survey) = Survey::of_lent(refused.tables, Edition::Two, &words, &BY) else {
        expect_so(&rt, At::new("five are surveyed", 0), false);
        return;
    };
    expect_surveyed(&rt, &survey);
    let mut tables = survey.into_tables();
    expect_eq(&rt, At::new("room", 0), tables.room(), 12);
    expect_three(&rt, "after a survey", &mut tables);
}

// The same by marks of the caller's own: first with one too few, then with all three.
#[test]
fn marks_in_lent_tables(rt: HostRuntime) {
    let Ok(mut tables) = Tables::reserve(rt.alloc(), 12) else {
        return;
    };
    expect_three(&rt, "before the marks", &mut tables);
    let words = five();
    let few = [1 << 2 | 1 << 8];
    let Err(refused) = Survey::of_marks_lent(tables, Edition::Two, &words, &[F + 2], &few) else {
        expect_so(&rt, At::new("too few marks are refused", 0), false);
        return;
    };
    let fault = MarksLentFault::Marks(MarksFault::UnmarkedTarget(4));
    expect_eq(&rt, At::new("too few marks", 0), refused.fault, fault);
    let marks = [1 << 2 | 1 << 8 | 1 << 10];
    let tables = refused.tables;
    let Ok(survey) = Survey::of_marks_lent(tables, Edition::Two, &words, &[F + 2], &marks) else {
        expect_so(&rt, At::new("the marks are taken", 0), false);
        return;
    };
    expect_surveyed(&rt, &survey);
    expect_eq(&rt, At::new("room", 0), survey.into_tables().room(), 12);
}

//! Collections of five objects, and of other small heaps, with the words that a person reads off.
use crate::expected::{expect_eq, expect_words_at};
use crate::plain_heap::BEFORE;
use crate::small_heaps::{five, three};
use heap_layout::{Edition, FIRST_IMMEDIATE as I, FROM_SPACE as F, Header};
use std::process::Abort;
use std::thread::Threads;
use stopped_heap::{CollectFault, SurveyFault, collect, collect_by_threads};
use test_support::At;

const NO_MEMORY: CollectFault = CollectFault::Survey(SurveyFault::OutOfMemory);

// The memory into which a heap slides, and its roots.
#[derive(Clone, Copy)]
struct Slid {
    to: [u64; 16],
    roots: [u64; 3],
}

// What was left of a heap, beside what is wanted. Where memory ran out nothing may have changed. The memory is round 1
// of the case, and the roots are round 2.
fn judge(
    rt: &impl Abort,
    case: &str,
    answer: Result<u64, CollectFault>,
    slid: &Slid,
    left: &[u64],
    left_roots: [u64; 3],
    before: [u64; 3],
) {
    let (to, roots) = (At::of_round(case, 1), At::of_round(case, 2));
    match answer {
        Ok(live) => {
            expect_eq(rt, At::new(case, 0), live, left.len() as u64);
            let (words, behind) = slid.to.split_at(left.len().min(15));
            expect_words_at(rt, to, words, left);
            let last = behind.last().copied();
            expect_eq(rt, to.after(15), last, Some(BEFORE));
            expect_words_at(rt, roots, &slid.roots, &left_roots);
        }
        Err(fault) => {
            expect_eq(rt, At::new(case, 0), fault, NO_MEMORY);
            expect_words_at(rt, to, &slid.to, &[BEFORE; 16]);
            expect_words_at(rt, roots, &slid.roots, &before);
        }
    }
}

// Collects these words, and expects these words and roots.
fn expect(
    rt: &(impl Abort + AllocGlobal),
    case: &str,
    edition: Edition,
    words: &[u64],
    roots: [u64; 3],
    left: &[u64],
    left_roots: [u64; 3],
) {
    let mut slid = Slid {
        to: [BEFORE; 16],
        roots,
    };
    let answer = collect(rt.alloc(), edition, words, &mut slid.roots, &mut slid.to);
    judge(rt, case, answer, &slid, left, left_roots, roots);
}

#[test]
fn what_is_reached_slides(rt: HostRuntime) {
    let (roots, moved) = ([0, F + 8, F + 2], [0, F + 6, F]);
    expect(&rt, "five", Edition::Two, &five(), roots, &three(), moved);
}

#[test]
fn a_heap_that_was_collected_stays_when_it_is_collected_again(rt: HostRuntime) {
    let roots = [0, F + 6, F];
    expect(&rt, "three", Edition::Two, &three(), roots, &three(), roots);
}

#[test]
fn without_roots_nothing_is_left(rt: HostRuntime) {
    expect(&rt, "five", Edition::Two, &five(), [0; 3], &[], [0; 3]);
    expect(&rt, "no words", Edition::One, &[], [0; 3], &[], [0; 3]);
}

// Of words that are no row of objects only the object at 2 is reached. It has a reference, a weak word and a data word.
#[test]
fn immediates_stay(rt: HostRuntime) {
    let header = Header::new_weak(1, 1, 1, 5).word();
    let words = [u64::MAX, 3, header, I + 1, I + F, I];
    let left = [header, I + 1, I + F, I];
    let (roots, moved) = ([I + 2, F + 2, I], [I + 2, F, I]);
    expect(
        &rt,
        "one object",
        Edition::Four,
        &words,
        roots,
        &left,
        moved,
    );
}

// Collects five objects by so many threads, which are the round of the case. Where memory ran out the roots stay too.
fn collect_five(rt: &(impl Abort + AllocGlobal + Threads + Sync), workers: usize) {
    let mut roots = [0, F + 8, F + 2];
    let mut to = [BEFORE; 10];
    let words = five();
    let edition = Edition::Two;
    let at = At::of_round("workers", workers);
    match collect_by_threads(
        rt.alloc(),
        rt,
        edition,
        &words,
        &mut roots,
        &mut to,
        workers,
    ) {
        Ok(live) => {
            expect_eq(rt, at, live, 9);
            let (words, behind) = to.split_at(9);
            expect_words_at(rt, at, words, &three());
            expect_words_at(rt, at.after(9), behind, &[BEFORE]);
            expect_words_at(rt, at.after(10), &roots, &[0, F + 6, F]);
        }
        Err(fault) => {
            expect_eq(rt, at, fault, NO_MEMORY);
            expect_words_at(rt, at, &to, &[BEFORE; 10]);
            expect_words_at(rt, at.after(10), &roots, &[0, F + 8, F + 2]);
        }
    }
}

#[test]
fn threads_leave_the_same(rt: HostRuntime) {
    for workers in [0, 1, 2, 5, 64, usize::MAX] {
        collect_five(&rt, workers);
    }
}

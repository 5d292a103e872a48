//! Collections that are refused, by one thread and by several.
use crate::expected::expect_words;
use crate::left::{expect_left, expect_refused};
use crate::small_heaps::five;
use heap_layout::{Edition, FROM_SPACE as F};
use pinned_heap::{CollectPinnedFault, collect_pinned, collect_pinned_by_threads};
use std::process::Abort;
use stopped_heap::SurveyFault;

// This collection is refused, and leaves the words.
fn refuse(rt: &(impl Abort + AllocGlobal), case: &str, pins: &[u64], fault: CollectPinnedFault) {
    let mut words = five();
    let mut roots = [F + 6];
    let left = collect_pinned(rt.alloc(), Edition::One, &mut words, &mut roots, pins, 2);
    expect_refused(rt, case, left, fault);
    expect_words(rt, case, &words, &five());
    expect_words(rt, case, &roots, &[F + 6]);
}

#[test]
fn bad_pins_are_refused(rt: HostRuntime) {
    refuse(&rt, "null", &[F + 6, 0], CollectPinnedFault::BadPin(1));
    refuse(&rt, "behind", &[F + 15], CollectPinnedFault::BadPin(0));
    refuse(&rt, "no address", &[F, F, 6], CollectPinnedFault::BadPin(2));
    // The word there is a reference. As a header it is that of an object of four words.
    let past = CollectPinnedFault::Survey(SurveyFault::ObjectPastEnd(13));
    refuse(&rt, "a reference", &[F + 13], past);
}

#[test]
fn more_runs_than_wanted_are_refused(rt: HostRuntime) {
    let pins = [F + 3, F + 9];
    let mut words = five();
    let few = collect_pinned(rt.alloc(), Edition::One, &mut words, &mut [], &pins, 1);
    expect_refused(&rt, "one run", few, CollectPinnedFault::TooManyRuns(2));
    expect_words(&rt, "words", &words, &five());
    let left = collect_pinned(rt.alloc(), Edition::One, &mut words, &mut [], &pins, 2);
    expect_left(&rt, "two runs", left, 12, &[(0, 3), (6, 9)]);
}

#[test]
fn threads_are_refused_what_one_is(rt: HostRuntime) {
    let mut words = five();
    let mut roots = [F + 12];
    let left = collect_pinned_by_threads(
        rt.alloc(),
        &rt,
        2,
        Edition::One,
        &mut words,
        &mut roots,
        &[F + 3, F + 9],
        1,
    );
    expect_refused(&rt, "one run", left, CollectPinnedFault::TooManyRuns(2));
    expect_words(&rt, "words", &words, &five());
    expect_words(&rt, "roots", &roots, &[F + 12]);
}

//! Young collections of heaps whose old objects have weak words.
use crate::expected::{expect_eq, expect_words};
use crate::small_heaps::{five_with_a_weak_word, six_are_old};
use heap_layout::{Edition, FROM_SPACE as F};
use std::process::Abort;
use stopped_heap::SurveyFault;
use test_support::At;
use young_heap::{OldFault, YoungFault};

#[test]
fn a_check_names_a_weak_word_that_leads_above(rt: HostRuntime) {
    let words = five_with_a_weak_word();
    if let Some(tables) = six_are_old(rt.alloc()) {
        let dirty = tables.check(Edition::Two, &words, &[1]);
        expect_eq(&rt, At::new("a dirty card", 0), dirty, Ok(()));
        let clean = tables.check(Edition::Two, &words, &[0]);
        let above = Err(OldFault::LeadsAbove(4));
        expect_eq(&rt, At::new("a clean card", 0), clean, above);
    }
}

#[test]
fn an_old_weak_word_follows_its_object(rt: HostRuntime) {
    let mut words = five_with_a_weak_word();
    let mut roots = [F + 12];
    if let Some(mut tables) = six_are_old(rt.alloc()) {
        let young = tables.collect_young(Edition::Two, &mut words, &[1], &mut roots);
        expect_eq(&rt, At::new("live", 0), young, Ok(9));
        expect_eq(&rt, At::new("word", 4), words[4], F + 6);
        expect_words(&rt, "roots", &roots, &[F + 6]);
    }
}

#[test]
fn an_old_weak_word_keeps_nothing_alive(rt: HostRuntime) {
    let mut words = five_with_a_weak_word();
    let mut wanted = words;
    let mut roots = [F + 9];
    if let Some(mut tables) = six_are_old(rt.alloc()) {
        // What the word leads to dies; the two that lead to each other stay where they are.
        let young = tables.collect_young(Edition::Two, &mut words, &[1], &mut roots);
        wanted[4] = 0;
        expect_eq(&rt, At::new("live", 0), young, Ok(12));
        expect_words(&rt, "words", &words, &wanted);
        expect_words(&rt, "roots", &roots, &[F + 9]);
    }
}

#[test]
fn an_old_weak_word_that_leads_to_no_word_is_refused(rt: HostRuntime) {
    let mut words = five_with_a_weak_word();
    words[4] = F + 15;
    let before = words;
    if let Some(mut tables) = six_are_old(rt.alloc()) {
        let young = tables.collect_young(Edition::Two, &mut words, &[1], &mut []);
        let bad = Err(YoungFault::Survey(SurveyFault::BadWeak(4)));
        expect_eq(&rt, At::new("refused", 0), young, bad);
        expect_words(&rt, "words", &words, &before);
        expect_eq(&rt, At::new("old", 0), tables.old(), 6);
    }
}

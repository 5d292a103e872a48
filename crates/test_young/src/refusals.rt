//! What is refused, and what a check finds.
use crate::expected::{expect_eq, expect_so, expect_words};
use crate::small_heaps::{five, six_are_old};
use heap_layout::{Edition, FROM_SPACE as F, Header};
use std::process::Abort;
use stopped_heap::SurveyFault;
use test_support::At;
use young_heap::{OldFault, YoungFault, are_old};

#[test]
fn a_reference_into_an_old_object_is_refused(rt: HostRuntime) {
    let mut words = five();
    words[13] = F + 1;
    let before = words;
    let mut roots = [F + 3];
    if let Some(mut tables) = six_are_old(rt.alloc()) {
        let young = tables.collect_young(Edition::One, &mut words, &[1], &mut roots);
        let bad = Err(YoungFault::Survey(SurveyFault::BadReference(13)));
        expect_eq(&rt, At::new("refused", 0), young, bad);
        expect_words(&rt, "words", &words, &before);
        expect_words(&rt, "roots", &roots, &[F + 3]);
    }
}

#[test]
fn what_does_not_fit_is_refused_by_name(rt: HostRuntime) {
    let (mut sixteen, mut five, mut six) = ([0u64; 16], [0u64; 5], [0u64; 6]);
    if let Some(mut tables) = six_are_old(rt.alloc()) {
        let more = tables.collect_young(Edition::One, &mut sixteen, &[1], &mut []);
        let short = Err(YoungFault::ShortTables(15));
        expect_eq(&rt, At::new("more words", 16), more, short);
        let fewer = tables.collect_young(Edition::One, &mut five, &[1], &mut []);
        let few = Err(YoungFault::FewWords(6));
        expect_eq(&rt, At::new("fewer words", 5), fewer, few);
        let no_card = tables.collect_young(Edition::One, &mut six, &[], &mut []);
        let none = Err(YoungFault::FewCards(1));
        expect_eq(&rt, At::new("cards", 0), no_card, none);
    }
}

#[test]
fn a_check_names_what_the_mutator_left_out(rt: HostRuntime) {
    let mut words = five();
    if let Some(tables) = six_are_old(rt.alloc()) {
        let dirty = tables.check(Edition::One, &words, &[1]);
        expect_eq(&rt, At::new("a dirty card", 0), dirty, Ok(()));
        let clean = tables.check(Edition::One, &words, &[0]);
        let above = Err(OldFault::LeadsAbove(4));
        expect_eq(&rt, At::new("a clean card", 0), clean, above);
        words[3] = Header::new(1, 2, 2).word();
        let changed = tables.check(Edition::One, &words, &[1]);
        let no_row = Err(OldFault::NotARow(3));
        expect_eq(&rt, At::new("a changed header", 3), changed, no_row);
    }
}

#[test]
fn old_objects_stand_side_by_side_at_their_bits(rt: HostRuntime) {
    let words = five();
    for (case, bits, old, so) in [
        ("two objects", 0b1001, 6usize, true),
        ("the first bit is missing", 0b1000, 6, false),
        ("a later bit is missing", 0b0001, 6, false),
        ("a bit too many", 0b1011, 6, false),
        ("an object ends behind", 0b1001, 5, false),
        ("bits behind are not read", 0b1_1001, 3, true),
    ] {
        let found = are_old(Edition::One, &words, &[bits], old);
        expect_eq(&rt, At::new(case, old), found, so);
    }
}

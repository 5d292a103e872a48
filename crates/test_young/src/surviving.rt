//! Small heaps whose objects are old once they have survived two collections.
use crate::expected::expect_eq;
use crate::small_heaps::{five, link, pair};
use heap_layout::{Edition, FROM_SPACE as F};
use std::alloc::Global;
use std::process::Abort;
use test_support::At;
use young_heap::{OldFault, OldTables, YoungFault};

// Tables of a heap of a pair, which is old, and of another one, which survived one collection: it stands at 3.
fn one_has_survived(alloc: Global, words: &mut [u64; 15]) -> Option<OldTables> {
    let mut tables = OldTables::reserve(alloc, 15).ok()?;
    let mut roots = [F, F];
    tables
        .collect_all(Edition::One, &mut words[..3], &mut roots)
        .ok()?;
    // Of the pairs at 3 and 6 the first dies.
    roots[1] = F + 6;
    words[7] = 0;
    tables
        .collect_aging(Edition::One, &mut words[..9], &mut [7], &mut roots)
        .ok()?;
    Some(tables)
}

#[test]
fn an_object_that_survives_once_is_young(rt: HostRuntime) {
    let mut words = five();
    if let Some(mut tables) = one_has_survived(rt.alloc(), &mut words) {
        expect_eq(&rt, At::new("old, once survived", 0), tables.old(), 3);
        expect_eq(&rt, At::new("word", 3), words[3], pair(3));
        // So it dies when no root leads there any more.
        let mut cards = [1];
        let young = tables.collect_aging(Edition::One, &mut words[..6], &mut cards, &mut [F]);
        expect_eq(&rt, At::new("live", 0), young, Ok(3));
        expect_eq(&rt, At::new("old", 0), tables.old(), 3);
        expect_eq(&rt, At::new("cards", 0), cards, [0]);
    }
}

// The same heap later: the pair at 3 leads to a third one, at 9, which was allocated since and comes to 6. One that was
// made at 6 dies. Beside the tables, how many words live.
fn two_have_survived(
    alloc: Global,
    words: &mut [u64; 15],
    cards: &mut [u8; 2],
) -> Option<(OldTables, u64)> {
    let mut tables = one_has_survived(alloc, words)?;
    words[4] = F + 9;
    words[10] = 0;
    let mut roots = [F + 3];
    let live = tables
        .collect_aging(Edition::One, &mut words[..12], cards, &mut roots)
        .ok()?;
    Some((tables, live))
}

#[test]
fn an_object_that_survives_twice_is_old_and_remembered(rt: HostRuntime) {
    let mut words = five();
    let mut cards = [0, 5];
    if let Some((tables, live)) = two_have_survived(rt.alloc(), &mut words, &mut cards) {
        expect_eq(&rt, At::new("live", 0), live, 9);
        expect_eq(&rt, At::new("old", 0), tables.old(), 6);
        expect_eq(&rt, At::new("word", 4), words[4], F + 6);
        expect_eq(&rt, At::new("cards", 0), cards, [1, 0]);
        let made = tables.check(Edition::One, &words, &cards);
        expect_eq(&rt, At::new("the cards made", 0), made, Ok(()));
        let clean = tables.check(Edition::One, &words, &[0]);
        let above = Err(OldFault::LeadsAbove(4));
        expect_eq(&rt, At::new("a clean card", 0), clean, above);
    }
}

#[test]
fn what_a_dirty_card_remembers_lives_with_no_root(rt: HostRuntime) {
    let mut words = five();
    let mut cards = [0, 5];
    if let Some((mut tables, _)) = two_have_survived(rt.alloc(), &mut words, &mut cards) {
        let third = tables.collect_aging(Edition::One, &mut words[..9], &mut cards, &mut []);
        expect_eq(&rt, At::new("live", 0), third, Ok(9));
        expect_eq(&rt, At::new("old", 0), tables.old(), 9);
        expect_eq(&rt, At::new("word", 6), words[6], pair(4));
        // Nothing leads above then.
        expect_eq(&rt, At::new("cards", 0), cards, [0, 0]);
    }
}

#[test]
fn cards_are_wanted_for_all_that_survived(rt: HostRuntime) {
    let mut words = five();
    if let Some(mut tables) = one_has_survived(rt.alloc(), &mut words) {
        let none = tables.collect_aging(Edition::One, &mut words[..6], &mut [], &mut []);
        expect_eq(&rt, At::new("cards", 0), none, Err(YoungFault::FewCards(1)));
        let fewer = tables.collect_aging(Edition::One, &mut words[..2], &mut [], &mut []);
        let few = Err(YoungFault::FewWords(3));
        expect_eq(&rt, At::new("fewer words", 2), fewer, few);
    }
}

#[test]
fn a_weak_word_of_an_old_object_that_leads_above_has_a_dirty_card(rt: HostRuntime) {
    // Links. The one at 0 survives twice; its weak word leads to the one at 3, which is allocated between and lives.
    let mut words = [link(), 0, 0, link(), 0, 0];
    if let Ok(mut tables) = OldTables::reserve(rt.alloc(), 6) {
        let mut cards = [0];
        let first = tables.collect_aging(Edition::Two, &mut words[..3], &mut cards, &mut [F]);
        expect_eq(&rt, At::new("first, live", 0), first, Ok(3));
        expect_eq(&rt, At::new("first, old", 0), tables.old(), 0);
        words[2] = F + 3;
        let mut roots = [F, F + 3];
        let second = tables.collect_aging(Edition::Two, &mut words, &mut cards, &mut roots);
        expect_eq(&rt, At::new("second, live", 0), second, Ok(6));
        expect_eq(&rt, At::new("second, old", 0), tables.old(), 3);
        expect_eq(&rt, At::new("second, cards", 0), cards, [1]);
        // It keeps nothing alive.
        let third = tables.collect_aging(Edition::Two, &mut words, &mut cards, &mut [F]);
        expect_eq(&rt, At::new("third, live", 0), third, Ok(3));
        expect_eq(&rt, At::new("third, word", 2), words[2], 0);
        expect_eq(&rt, At::new("third, cards", 0), cards, [0]);
    }
}

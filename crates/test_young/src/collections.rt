//! Collections of all, and of what is young, by cards.
ghost use Rattle.std.specs.Prelude.{◌≡◌, ◌+◌, ◌≤◌, length};

use crate::expected::{expect_eq, expect_so, expect_words};
use crate::small_heaps::{five, link, pair, six_are_old};
use heap_layout::{Edition, FROM_SPACE as F};
use std::alloc::Global;
use std::process::Abort;
use stopped_heap::collect_in_place;
use test_support::At;
use young_heap::OldTables;

#[test]
fn a_collection_of_all_sets_the_watermark(rt: HostRuntime) {
    let mut words = five();
    let mut roots = [F + 3, 0];
    let Ok(mut tables) = OldTables::reserve(rt.alloc(), 15) else {
        return;
    };
    expect_eq(&rt, At::new("old, before", 0), tables.old(), 0);
    let live = tables.collect_all(Edition::One, &mut words, &mut roots);
    expect_eq(&rt, At::new("live", 0), live, Ok(9));
    expect_eq(&rt, At::new("old", 0), tables.old(), 9);
    expect_eq(&rt, At::new("word", 4), words[4], F + 6);
    expect_eq(&rt, At::new("word", 6), words[6], pair(5));
    expect_eq(&rt, At::new("word", 7), words[7], F);
    expect_eq(&rt, At::new("word", 8), words[8], 55);
    expect_words(&rt, "roots", &roots, &[F + 3, 0]);
    let checked = tables.check(Edition::One, &words, &[0]);
    expect_eq(&rt, At::new("checked", 0), checked, Ok(()));
}

#[test]
fn what_an_old_object_leads_to_slides_down(rt: HostRuntime) {
    let mut words = five();
    let mut roots = [F, F + 12];
    let left = [pair(1), 0, 11, pair(2), F + 6, 22, pair(5), F, 55];
    if let Some(mut tables) = six_are_old(rt.alloc()) {
        let young = tables.collect_young(Edition::One, &mut words, &[1], &mut roots);
        expect_eq(&rt, At::new("live", 0), young, Ok(9));
        expect_words(&rt, "words", &words[..9], &left);
        expect_words(&rt, "roots", &roots, &[F, F + 6]);
    }
}

// Allocates two links at index `old`: one that dies, and one to which the last old one leads.
fn grow(words: &mut [u64], old: usize)
    requires { (2 ≤ old) × (old + 6 ≤ length words.old) }
    ensures { length words.new ≡ length words.old }
{
    let next = F + old as u64 + 3;
    words[old - 2] = next;
    words[old] = link();
    words[old + 1] = F;
    words[old + 2] = 0;
    words[old + 3] = link();
    words[old + 4] = 0;
    words[old + 5] = next;
}

// Collects what is young, and whether the words are those that a collection of all of a copy leaves.
fn is_as_all(alloc: Global, tables: &mut OldTables, words: &mut [u64; 32], old: usize) -> bool
    requires { (2 ≤ old) × (old ≤ 26) }
{
    grow(words, old);
    let mut copy = *words;
    let mut roots = [F];
    let mut copied = [F];
    let young = tables.collect_young(Edition::Two, &mut words[..old + 6], &[1], &mut roots);
    match collect_in_place(alloc, Edition::Two, &mut copy[..old + 6], &mut copied) {
        Ok(live) => young == Ok(live) && words[..old + 3] == copy[..old + 3] && roots == copied,
        Err(_) => young.is_ok(),
    }
}

// Collects what is young three times, and expects each time what a collection of all leaves.
fn expect_as_all(rt: &(impl Abort + AllocGlobal), tables: &mut OldTables, words: &mut [u64; 32]) {
    let first = is_as_all(rt.alloc(), tables, words, 3);
    expect_so(rt, At::new("as all, old words", 3), first);
    let second = is_as_all(rt.alloc(), tables, words, 6);
    expect_so(rt, At::new("as all, old words", 6), second);
    let third = is_as_all(rt.alloc(), tables, words, 9);
    expect_so(rt, At::new("as all, old words", 9), third);
}

#[test]
fn young_collections_in_a_row_leave_what_one_of_all_does(rt: HostRuntime) {
    let mut words = [0u64; 32];
    words[0] = link();
    let low = [link(), F + 3, 0, link(), F + 6, F + 3];
    let high = [link(), F + 9, F + 6, link(), 0, F + 9];
    if let Ok(mut tables) = OldTables::reserve(rt.alloc(), 32) {
        let all = tables.collect_all(Edition::Two, &mut words[..3], &mut [F]);
        expect_eq(&rt, At::new("live", 0), all, Ok(3));
        expect_as_all(&rt, &mut tables, &mut words);
        expect_words(&rt, "words below 6", &words[..6], &low);
        expect_words(&rt, "words from 6 on", &words[6..12], &high);
    }
}

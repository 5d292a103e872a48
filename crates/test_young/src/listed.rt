//! Young collections by a list of the words into which the mutator stored.
use crate::expected::{expect_eq, expect_words};
use crate::small_heaps::{five, five_with_a_weak_word, six_are_old};
use heap_layout::{Edition, FROM_SPACE as F};
use std::process::Abort;
use test_support::At;
use young_heap::YoungFault;

#[test]
fn a_list_in_any_order_names_what_was_stored(rt: HostRuntime) {
    let mut words = five();
    words[1] = F + 9;
    let mut list = [4u64, 1, 4];
    let mut roots = [F];
    if let Some(mut tables) = six_are_old(rt.alloc()) {
        // The old one at 0 leads to the one at 9, and that to the one at 6: all five live.
        let young = tables.collect_young_by(Edition::One, &mut words, &mut list, &mut roots);
        expect_eq(&rt, At::new("references, live", 0), young, Ok(15));
        expect_words(&rt, "list", &list, &[1, 4, 4]);
        expect_eq(&rt, At::new("references, word", 1), words[1], F + 9);
        expect_eq(&rt, At::new("references, word", 4), words[4], F + 12);
    }
    let mut words = five_with_a_weak_word();
    if let Some(mut tables) = six_are_old(rt.alloc()) {
        // The listed word is weak, and what it leads to dies with all that is young.
        let young = tables.collect_young_by(Edition::Two, &mut words, &mut [4], &mut [F]);
        expect_eq(&rt, At::new("a weak word, live", 0), young, Ok(6));
        expect_eq(&rt, At::new("a weak word, word", 4), words[4], 0);
    }
}

#[test]
fn what_is_listed_has_to_be_a_reference_or_a_weak_word(rt: HostRuntime) {
    let mut words = five();
    let before = words;
    let mut roots = [F + 3];
    if let Some(mut tables) = six_are_old(rt.alloc()) {
        for (case, list, bad) in [
            ("a word that is not old", [7u64, 4], 7),
            ("a data word", [4, 5], 5),
            ("a header", [3, 4], 3),
        ] {
            let mut fields = list;
            let young = tables.collect_young_by(Edition::One, &mut words, &mut fields, &mut roots);
            expect_eq(
                &rt,
                At::new(case, 0),
                young,
                Err(YoungFault::NotAField(bad)),
            );
        }
        expect_words(&rt, "words", &words, &before);
        expect_words(&rt, "roots", &roots, &[F + 3]);
        let good = tables.collect_young_by(Edition::One, &mut words, &mut [4], &mut roots);
        expect_eq(&rt, At::new("live", 0), good, Ok(9));
        expect_eq(&rt, At::new("word", 4), words[4], F + 6);
    }
}

//! Small heaps whose watermark is raised, and tables with more room than there are words.
use crate::expected::{expect_eq, expect_so, expect_words};
use crate::small_heaps::{five, pair, six_are_old};
use heap_layout::{Edition, FROM_SPACE as F, Header};
use std::process::Abort;
use test_support::At;
use young_heap::{OldTables, RaiseFault};

#[test]
fn what_is_young_is_old_where_it_stands(rt: HostRuntime) {
    let mut words = five();
    let before = words;
    if let Some(mut tables) = six_are_old(rt.alloc()) {
        // The pair at 12 is pinned. Those at 6 and 9 are dead, and stay too.
        let raised = tables.raise(Edition::One, &words, 15);
        expect_eq(&rt, At::new("raised", 15), raised, Ok(()));
        expect_eq(&rt, At::new("old", 0), tables.old(), 15);
        expect_words(&rt, "words, raised", &words, &before);
        // Each of the five starts where it did, and leads below.
        let checked = tables.check(Edition::One, &words, &[0]);
        expect_eq(&rt, At::new("checked", 0), checked, Ok(()));
        let young = tables.collect_young(Edition::One, &mut words, &[0], &mut []);
        expect_eq(&rt, At::new("young, live", 0), young, Ok(15));
        expect_words(&rt, "words, young", &words, &before);
        // The next collection of all frees the dead.
        let mut roots = [F + 3];
        let all = tables.collect_all(Edition::One, &mut words, &mut roots);
        expect_eq(&rt, At::new("all, live", 0), all, Ok(9));
        expect_words(&rt, "roots", &roots, &[F + 3]);
    }
}

#[test]
fn a_part_of_what_is_young_becomes_old(rt: HostRuntime) {
    let mut words = five();
    let e = Edition::One;
    if let Some(mut tables) = six_are_old(rt.alloc()) {
        // The pair at 6 is old then, and that at 9 is not: so its card is dirty, as is that of the one at 3.
        expect_eq(
            &rt,
            At::new("raised", 9),
            tables.raise(e, &words, 9),
            Ok(()),
        );
        expect_eq(&rt, At::new("old", 9), tables.old(), 9);
        let checked = tables.check(e, &words, &[1]);
        expect_eq(&rt, At::new("checked", 9), checked, Ok(()));
        let mut roots = [F + 3];
        let young = tables.collect_young(e, &mut words, &[1], &mut roots);
        // The dead one at 6 is old, so what it leads to lives.
        expect_eq(&rt, At::new("young, live", 0), young, Ok(15));
        // The same watermark once more changes nothing.
        let same = tables.raise(e, &words, 15);
        expect_eq(&rt, At::new("raised to the same", 15), same, Ok(()));
        expect_eq(&rt, At::new("old", 15), tables.old(), 15);
        // A collection of no words makes it 0.
        let none = tables.collect_all(e, &mut [], &mut []);
        expect_eq(&rt, At::new("no words, live", 0), none, Ok(0));
        expect_eq(&rt, At::new("old", 0), tables.old(), 0);
        let again = tables.raise(e, &words, 15);
        expect_eq(&rt, At::new("raised again", 15), again, Ok(()));
        let whole = tables.check(e, &words, &[0]);
        expect_eq(&rt, At::new("checked", 15), whole, Ok(()));
    }
}

#[test]
fn a_watermark_is_raised_to_the_end_of_a_row_alone(rt: HostRuntime) {
    let mut words = five();
    if let Some(mut tables) = six_are_old(rt.alloc()) {
        let e = Edition::One;
        let inside = tables.raise(e, &words, 14);
        let no_row = Err(RaiseFault::NotARow(12));
        expect_eq(&rt, At::new("inside of the pair at 12", 14), inside, no_row);
        words[9] = Header::new(1, 5, 4).word();
        let long = tables.raise(e, &words, 15);
        let no_row = Err(RaiseFault::NotARow(9));
        expect_eq(&rt, At::new("a long object", 9), long, no_row);
        // What is below the watermark is not looked at.
        words[9] = pair(4);
        words[0] = Header::new(9, 9, 0).word();
        expect_eq(&rt, At::new("old", 0), tables.old(), 6);
        let raised = tables.raise(e, &words, 15);
        expect_eq(&rt, At::new("raised", 15), raised, Ok(()));
    }
}

#[test]
fn an_object_that_ends_past_the_words_breaks_the_row(rt: HostRuntime) {
    let words = five();
    let front = &words[..14];
    if let Some(mut tables) = six_are_old(rt.alloc()) {
        let raised = tables.raise(Edition::One, front, 14);
        let no_row = Err(RaiseFault::NotARow(12));
        expect_eq(&rt, At::new("raised", 14), raised, no_row);
    }
}

#[test]
fn ends_that_no_watermark_may_have_are_refused_by_name(rt: HostRuntime) {
    let words = [0u64; 16];
    if let Some(mut tables) = six_are_old(rt.alloc()) {
        for (case, length, end, fault) in [
            (
                "short tables",
                16usize,
                16usize,
                RaiseFault::ShortTables(15),
            ),
            ("few words", 7, 8, RaiseFault::FewWords(8)),
            ("below the watermark", 7, 5, RaiseFault::BelowWatermark(6)),
            ("few and below", 3, 3, RaiseFault::BelowWatermark(6)),
        ] {
            let refused = tables.raise(Edition::One, &words[..length], end);
            expect_eq(&rt, At::new(case, end), refused, Err(fault));
        }
        expect_eq(&rt, At::new("old, refused", 0), tables.old(), 6);
        let raised = tables.raise(Edition::One, &words[..6], 6);
        expect_eq(&rt, At::new("raised", 6), raised, Ok(()));
        expect_eq(&rt, At::new("old, raised", 0), tables.old(), 6);
    }
}

// The header of an object of editions three and four that may have many data words, and has so many.
fn data_words(many: u64) -> u64 {
    1 << 63 | many
}

#[test]
fn runs_that_are_filled_are_rows(rt: HostRuntime) {
    // Four free words before an object of one word, as a collection around pins fills them.
    let zeros = [0u64, 0, 0, 0, 0];
    let filled = [data_words(3), 7, 7, 7, data_words(0)];
    for (case, edition, words) in [
        ("zeros, edition one", Edition::One, &zeros),
        ("filled, edition three", Edition::Three, &filled),
    ] {
        if let Ok(mut tables) = OldTables::reserve(rt.alloc(), 5) {
            let raised = tables.raise(edition, words, 5);
            expect_eq(&rt, At::new(case, 0), raised, Ok(()));
            let checked = tables.check(edition, words, &[0]);
            expect_eq(&rt, At::new(case, 1), checked, Ok(()));
        }
    }
    if let Ok(mut tables) = OldTables::reserve(rt.alloc(), 5) {
        let raised = tables.raise(Edition::Two, &zeros, 5);
        expect_eq(&rt, At::new("zeros, edition two", 0), raised, Ok(()));
    }
    if let Ok(mut tables) = OldTables::reserve(rt.alloc(), 5) {
        let inside = tables.raise(Edition::Four, &filled, 3);
        let no_row = Err(RaiseFault::NotARow(0));
        expect_eq(&rt, At::new("filled, edition four", 3), inside, no_row);
        let raised = tables.raise(Edition::Four, &filled, 5);
        expect_eq(&rt, At::new("filled, edition four", 5), raised, Ok(()));
    }
}

#[test]
fn more_words_may_come_after_fewer(rt: HostRuntime) {
    // Objects of one word each, 200 of them, then 70, then 200 once more: the tables have room for 1000 words.
    let mut words = [0u64; 200];
    let mut roots = [F + 199];
    if let Ok(mut tables) = OldTables::reserve(rt.alloc(), 1000) {
        let e = Edition::One;
        let first = tables.raise(e, &words, 200);
        expect_eq(&rt, At::new("raised", 200), first, Ok(()));
        let all = tables.collect_all(e, &mut words[..70], &mut [F + 69]);
        expect_eq(&rt, At::new("all, live", 0), all, Ok(1));
        expect_eq(&rt, At::new("old", 0), tables.old(), 1);
        // Of 200 words just those are old that are so now: the root leads to one that slides down.
        let young = tables.collect_young(e, &mut words, &[0], &mut roots);
        expect_eq(&rt, At::new("young, live", 0), young, Ok(2));
        expect_words(&rt, "roots", &roots, &[F + 1]);
        let second = tables.raise(e, &words, 130);
        expect_eq(&rt, At::new("raised", 130), second, Ok(()));
        let checked = tables.check(e, &words, &[0, 0, 0]);
        expect_eq(&rt, At::new("checked", 0), checked, Ok(()));
    }
}

#[test]
fn a_refused_collection_of_fewer_words_leaves_the_watermark(rt: HostRuntime) {
    let mut words = [0u64; 200];
    let mut few = [0u64; 9];
    let mut roots = [F + 140];
    if let Ok(mut tables) = OldTables::reserve(rt.alloc(), 1000) {
        let e = Edition::One;
        let raised = tables.raise(e, &words, 130);
        expect_eq(&rt, At::new("raised", 130), raised, Ok(()));
        let refused = tables.collect_all(e, &mut few, &mut [F + 50]);
        expect_so(&rt, At::new("refused", 0), refused.is_err());
        expect_eq(&rt, At::new("old", 0), tables.old(), 130);
        let young = tables.collect_young(e, &mut words, &[0, 0, 0], &mut roots);
        expect_eq(&rt, At::new("live", 0), young, Ok(131));
        expect_words(&rt, "roots", &roots, &[F + 130]);
    }
}

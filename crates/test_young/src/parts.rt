//! The parts of a young collection, over slices of the caller's.
use crate::expected::{expect_eq, expect_so, expect_words};
use crate::small_heaps::five;
use heap_layout::{Edition, FROM_SPACE as F, Header};
use std::process::Abort;
use test_support::At;
use young_heap::{CARD, are_old, collect_above, promote, remember};

#[test]
fn what_no_card_says_may_be_remembered_otherwise(rt: HostRuntime) {
    let mut words = five();
    let mut roots = [0, F + 9];
    let mut heads = [0u64];
    let mut bits = [0u64];
    let mut counts = [0u32, 0];
    let mut queue: Vec<u32> = Vec::new(rt.alloc());
    promote(
        Edition::One,
        &words,
        0,
        6,
        &mut heads,
        &mut bits,
        &mut counts,
    );
    let young = collect_above(
        Edition::One,
        6,
        &mut words,
        &[],
        &[],
        &mut roots,
        &mut heads,
        &mut bits,
        &mut counts,
        &mut queue,
    );
    if let Ok(live) = young {
        // No field is handed in, so the object at 12 is garbage, and word 4 stays as it is.
        expect_eq(&rt, At::new("live", 0), live, 12);
        expect_eq(&rt, At::new("word", 4), words[4], F + 12);
        expect_words(&rt, "words from 6 on", &words[6..12], &five()[6..12]);
        expect_words(&rt, "roots", &roots, &[0, F + 9]);
    }
}

#[test]
fn just_what_leads_above_from_dirty_cards_is_remembered(rt: HostRuntime) {
    // Objects of a reference each, at each even index. Those at 2 and 100 lead above, that at 64 leads to the first.
    let mut words = [0u64; 2 * CARD + 2];
    for k in 0..CARD + 1 {
        words[2 * k] = Header::new(1, 0, 0).word();
    }
    words[3] = F + 128;
    words[65] = F;
    words[101] = F + 129;
    let starts = [0x5555_5555_5555_5555u64, 0x5555_5555_5555_5555];
    let e = Edition::One;
    expect_so(&rt, At::new("old", 128), are_old(e, &words, &starts, 128));
    let mut fields: Vec<u32> = Vec::new(rt.alloc());
    let mut weaks: Vec<u32> = Vec::new(rt.alloc());
    if remember(e, 128, &words, &starts, &[1, 1], &mut fields, &mut weaks).is_ok() {
        let both = [3u32, 101].as_slice();
        expect_eq(&rt, At::new("both cards", 0), fields.as_slice(), both);
    }
    if remember(e, 128, &words, &starts, &[0, 255], &mut fields, &mut weaks).is_ok() {
        let second = [101u32].as_slice();
        expect_eq(
            &rt,
            At::new("the second card", 0),
            fields.as_slice(),
            second,
        );
    }
    if remember(e, 128, &words, &starts, &[0, 0], &mut fields, &mut weaks).is_ok() {
        expect_eq(&rt, At::new("no card", 0), fields.len(), 0);
    }
    expect_eq(&rt, At::new("weak words", 0), weaks.len(), 0);
}

#[test]
fn what_lives_becomes_old(rt: HostRuntime) {
    let words = five();
    let mut heads = [u64::MAX];
    let mut bits = [u64::MAX];
    let mut counts = [0u32, 7];
    promote(
        Edition::One,
        &words,
        0,
        9,
        &mut heads,
        &mut bits,
        &mut counts,
    );
    expect_words(&rt, "heads", &heads, &[0b1_001_001]);
    expect_words(&rt, "bits", &bits, &[0b111_111_111]);
    expect_eq(&rt, At::new("counts", 0), counts, [0, 9]);
}

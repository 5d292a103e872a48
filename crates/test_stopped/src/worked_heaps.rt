//! Heaps that a person worked out: objects that end at the last word or at the end of a block of bits, roots of each
//! edition, and the limits.
use crate::expected::{expect_eq, expect_words};
use crate::plain_heap::BEFORE;
use heap_layout::{Edition, FIRST_IMMEDIATE as I, FROM_SPACE as F, TO_SPACE as T};
use std::alloc::{AllocError, Global};
use std::process::Abort;
use stopped_heap::{CollectFault, SurveyFault, collect};
use test_support::{At, zeros_object};

const EDITIONS: [Edition; 4] = [Edition::One, Edition::Two, Edition::Three, Edition::Four];

const NO_MEMORY: Option<CollectFault> = Some(CollectFault::Survey(SurveyFault::OutOfMemory));

// A word of no object, then an object of one header and so many data words, which has the last word.
fn last_object(alloc: Global, data_words: u16) -> Result<Vec<u64>, AllocError> {
    let mut words = zeros_object(alloc, data_words)?;
    words.insert(0, u64::MAX)?;
    Ok(words)
}

// Collects the heap of that object into memory that is one word too long.
fn expect_last(rt: &impl Abort, alloc: Global, data_words: u16) -> Result<(), AllocError> {
    let words = last_object(alloc, data_words)?;
    let mut left = zeros_object(alloc, data_words)?;
    left.push(BEFORE)?;
    for edition in EDITIONS {
        let mut to = vec![in alloc; BEFORE; left.len()]?;
        let mut roots = [F + 1, 0, F + 1];
        match collect(alloc, edition, &words, &mut roots, &mut to) {
            Ok(live) => {
                expect_eq(rt, At::new("live", 0), live, u64::from(data_words) + 1);
                expect_words(rt, "to", &to, &left);
                expect_words(rt, "roots", &roots, &[F, 0, F]);
            }
            Err(fault) => expect_eq(rt, At::new("last", 0), Some(fault), NO_MEMORY),
        }
    }
    Ok(())
}

#[test]
fn an_object_that_ends_at_the_last_word_lives(rt: HostRuntime) {
    for data_words in [0, 1, 61, 62, 63, 64, 126, 127, 128, 1_022, 1_023] {
        // Memory that was refused ends the round.
        let _ = expect_last(&rt, rt.alloc(), data_words);
    }
}

// Collects an object at 0 with so many data words, and one of one word at 64. Answers the fault.
fn meet_at_64(rt: &impl Abort, alloc: Global, data_words: u64) -> Option<CollectFault> {
    let mut words = [0; 65];
    if let Some(header) = words.first_mut() {
        *header = data_words << 16;
    }
    let mut roots = [F, F + 64];
    let mut to = [BEFORE; 65];
    let fault = collect(alloc, Edition::Two, &words, &mut roots, &mut to).err();
    if fault.is_some() {
        expect_words(rt, "roots", &roots, &[F, F + 64]);
        expect_words(rt, "to", &to, &[BEFORE; 65]);
    }
    fault
}

#[test]
fn objects_may_meet_but_not_overlap_at_the_end_of_a_block(rt: HostRuntime) {
    for (data_words, overlap) in [(62, false), (63, false), (64, true)] {
        let fault = meet_at_64(&rt, rt.alloc(), data_words);
        if fault != NO_MEMORY {
            let first = Some(CollectFault::Survey(SurveyFault::Overlap(0)));
            let second = Some(CollectFault::Survey(SurveyFault::Overlap(64)));
            let found = fault == first || fault == second;
            expect_eq(&rt, At::new("overlap", 0), found, overlap);
            expect_eq(&rt, At::new("accepted", 0), fault.is_none(), !overlap);
        }
    }
}

// Collects an object of one word, to which the first root leads. Fails unless the second root is refused, or stays.
fn expect_root(rt: &impl Abort, alloc: Global, edition: Edition, root: u64, stays: bool) {
    let mut roots = [F, root];
    let mut to = [BEFORE];
    let fault = collect(alloc, edition, &[0], &mut roots, &mut to).err();
    expect_words(rt, "roots", &roots, &[F, root]);
    if fault != NO_MEMORY {
        let refused = Some(CollectFault::Survey(SurveyFault::BadRoot(1)));
        let wanted = match stays {
            true => None,
            false => refused,
        };
        expect_eq(rt, At::new("root", 0), fault, wanted);
    }
}

#[test]
fn roots_are_null_or_lead_to_words_or_are_immediates_of_edition_four(rt: HostRuntime) {
    for edition in EDITIONS {
        for root in [1, F - 1, F + 1, T, I - 1] {
            expect_root(&rt, rt.alloc(), edition, root, false);
        }
        for root in [I, I + 1, I + F, u64::MAX] {
            expect_root(&rt, rt.alloc(), edition, root, edition == Edition::Four);
        }
        for root in [0, F] {
            expect_root(&rt, rt.alloc(), edition, root, true);
        }
    }
}

// The fault of so many null roots and an object of so many words, which the first root reaches.
fn limits(
    alloc: Global,
    edition: Edition,
    roots: usize,
    data_words: u16,
) -> Result<Option<CollectFault>, AllocError> {
    let words = zeros_object(alloc, data_words)?;
    let mut roots = vec![in alloc; 0; roots]?;
    if let Some(root) = roots.first_mut() {
        *root = F;
    }
    let mut to = vec![in alloc; BEFORE; words.len()]?;
    Ok(collect(alloc, edition, &words, &mut roots, &mut to).err())
}

#[test]
fn each_edition_has_its_limits(rt: HostRuntime) {
    let many = Some(CollectFault::Survey(SurveyFault::TooLarge));
    let long = Some(CollectFault::Survey(SurveyFault::ObjectTooLong(0)));
    for (edition, roots, data_words, fault) in [
        (Edition::One, 4_096, 1_023, None),
        (Edition::One, 4_097, 1, many),
        (Edition::Two, 4_097, 1, many),
        (Edition::One, 1, 1_024, long),
        (Edition::Two, 1, 1_024, long),
        (Edition::Three, 4_097, 1_024, None),
        (Edition::Four, 4_097, 1_024, None),
        (Edition::Four, 1_048_577, 1, many),
    ] {
        // Memory that was refused ends the round.
        if let Ok(found) = limits(rt.alloc(), edition, roots, data_words) {
            if found != NO_MEMORY {
                expect_eq(&rt, At::new("limit", roots), found, fault);
            }
        }
    }
}

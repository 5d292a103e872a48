//! Surveys that grow.
ghost use Rattle.std.specs.Prelude.{◌≡◌, length, IfOk};

use crate::small_heaps::{five, three};
use heap_layout::{Edition, FROM_SPACE as F, Header};
use std::alloc::{AllocError, Global};
use std::process::Abort;
use stopped_heap::{Growing, Survey, SurveyFault, Tables};

#[test]
fn a_survey_grows_root_by_root(rt: HostRuntime) {
    let words = five();
    let growing = Growing::begin(rt.alloc(), Edition::Two, &words);
    let growing = growing.expect(&rt, "a beginning");
    assert_eq!(&rt; growing.keeps(F + 8), false);
    assert_eq!(&rt; growing.keeps(0), true);
    let Ok(growing) = growing.also(&[F + 8]) else {
        return;
    };
    assert_eq!(&rt; growing.keeps(F + 8), true);
    assert_eq!(&rt; growing.keeps(F + 2), false);
    let Ok(growing) = growing.also(&[0, F + 2, F + 8]) else {
        return;
    };
    assert_eq!(&rt; growing.keeps(F + 10), true);
    assert_eq!(&rt; growing.keeps(F), false);
    let survey = growing.settle();
    let mut to = [7; 9];
    assert_eq!(&rt; survey.live_words(), 9);
    survey.slide(0, &mut to);
    assert_eq!(&rt; to, three());
}

#[test]
fn a_growth_is_refused(rt: HostRuntime) {
    let mut words = five();
    words[4] = F + 12;
    let Ok(tables) = Tables::reserve(rt.alloc(), 12) else {
        return;
    };
    let Ok(growing) = Growing::begin_lent(tables, Edition::Two, &words) else {
        return;
    };
    let growing = growing.also(&[F + 8]).ok();
    let growing = growing.expect(&rt, "one object");
    let Err(refused) = growing.also(&[F + 2]) else {
        return;
    };
    assert_eq!(&rt; refused.fault, SurveyFault::BadReference(4));
    assert_eq!(&rt; refused.tables.room(), 12);
}

// A table at 0 with three pairs of weak words: key and value. The value of the first pair leads to its key. The second
// pair has a key that a root keeps; its value is the key of the third.
fn a_table() -> [u64; 13] {
    [
        Header::new_weak(0, 6, 0, 0).word(),
        F + 7,
        F + 8,
        F + 10,
        F + 11,
        F + 11,
        F + 12,
        Header::new_weak(0, 0, 0, 1).word(),
        Header::new_weak(1, 0, 0, 2).word(),
        F + 7,
        Header::new_weak(0, 0, 0, 3).word(),
        Header::new_weak(0, 0, 0, 4).word(),
        Header::new_weak(0, 0, 0, 5).word(),
    ]
}

#[test]
fn values_live_as_long_as_their_keys(rt: HostRuntime) {
    let words = a_table();
    let growing = Growing::begin(rt.alloc(), Edition::Two, &words);
    let growing = growing.expect(&rt, "a beginning");
    let Ok(mut growing) = growing.also(&[F, F + 10]) else {
        return;
    };
    // The last pair first: its key is kept only once the second pair was looked at.
    for k in [2_usize, 1, 0, 2, 1, 0] {
        if growing.keeps(words[1 + 2 * k]) {
            let Ok(grown) = growing.also(&[words[2 + 2 * k]]) else {
                return;
            };
            growing = grown;
        }
    }
    let survey = growing.settle();
    let mut to = [9; 10];
    assert_eq!(&rt; survey.live_words(), 10);
    survey.slide(0, &mut to);
    let left = [0, 0, F + 7, F + 8, F + 8, F + 9];
    assert_eq!(&rt; &to[1..7], left.as_slice());
}

#[test]
fn ephemerons_are_asked_again(rt: HostRuntime) {
    let words = a_table();
    let growing = Growing::begin(rt.alloc(), Edition::Two, &words);
    let growing = growing.expect(&rt, "a beginning");
    let Ok(growing) = growing.also(&[F, F + 10]) else {
        return;
    };
    // Holder, key and value, the last pair first; a null key is not kept.
    let ephemerons = [
        F,
        F + 11,
        F + 12,
        F,
        F + 10,
        F + 11,
        F,
        F + 7,
        F + 8,
        F,
        0,
        F + 7,
    ];
    let Ok(growing) = growing.also_values(&ephemerons) else {
        return;
    };
    assert_eq!(&rt; growing.keeps(F + 12), true);
    assert_eq!(&rt; growing.keeps(F + 8), false);
    assert_eq!(&rt; growing.keeps(F + 7), false);
    assert_eq!(&rt; growing.settle().live_words(), 10);
}

/// Pairs for a row of objects of one word: the keys are that at 1 and those behind it, so many, and each value is the
/// next key. The last pair stands first, so that a round of all of them finds one value. The object at 0 is the holder.
pub(crate) fn chain(alloc: Global, count: u32) -> Result<Vec<u64>, AllocError> {
    let mut pairs = Vec::new(alloc);
    for k in 0..count {
        let key = F + u64::from(count - k);
        pairs.extend_from_slice(&[F, key, key + 1])?;
    }
    Ok(pairs)
}

/// So many objects of one word.
pub(crate) fn row(alloc: Global, count: usize) -> Result<Vec<u64>, AllocError>
    ensures { IfOk result (λ words. length words.items ≡ count) }
{
    vec![in alloc; Header::new_weak(0, 0, 0, 1).word(); count]
}

#[test]
fn a_chain_of_keys_is_kept_in_the_worst_order(rt: HostRuntime) {
    let Ok(pairs) = chain(rt.alloc(), 200) else {
        return;
    };
    let Ok(words) = row(rt.alloc(), 20_000) else {
        return;
    };
    // Lent tables for so many words have room for an index, or have none.
    for objects in [202_usize, 20_000] {
        let words = &words[..objects];
        let growing = Growing::begin(rt.alloc(), Edition::Two, words);
        let growing = growing.expect(&rt, "a beginning");
        let Ok(growing) = growing.also(&[F, F + 1]) else {
            return;
        };
        let Ok(all) = growing.also_values(&pairs) else {
            return;
        };
        assert_eq!(&rt; all.keeps(F + 201), true);
        assert_eq!(&rt; all.settle().live_words(), 202);
        let Ok(tables) = Tables::reserve(rt.alloc(), objects) else {
            return;
        };
        let Ok(growing) = Growing::begin_lent(tables, Edition::Two, words) else {
            return;
        };
        let Ok(growing) = growing.also(&[F, F + 2]) else {
            return;
        };
        let Ok(most) = growing.also_values(&pairs) else {
            return;
        };
        assert_eq!(&rt; most.keeps(F + 1), false);
        assert_eq!(&rt; most.settle().live_words(), 201);
    }
}

#[test]
fn a_survey_by_marks_grows(rt: HostRuntime) {
    let words = a_table();
    // The table and the key of its second pair.
    let survey = Survey::of_marks(
        rt.alloc(),
        Edition::Two,
        &words,
        &[F, F + 10],
        &[1 | 1 << 10],
    );
    let survey = survey.ok().expect(&rt, "a survey");
    let growing = survey.grow().ok().expect(&rt, "memory");
    assert_eq!(&rt; growing.keeps(F + 10), true);
    assert_eq!(&rt; growing.keeps(F + 11), false);
    let pairs = [F, F + 11, F + 12, F, F + 10, F + 11, F, F + 7, F + 8];
    let growing = growing.also_values(&pairs).ok().expect(&rt, "values");
    assert_eq!(&rt; growing.keeps(F + 12), true);
    assert_eq!(&rt; growing.keeps(F + 8), false);
    assert_eq!(&rt; growing.settle().live_words(), 10);
}

// Each word is an object, and so many roots, each far from the one before, are followed by threads.
#[test]
fn a_survey_by_threads_grows(rt: HostRuntime) {
    let Ok(words) = vec![in rt.alloc(); 0; 70_000] else {
        return;
    };
    let mut roots = Vec::new(rt.alloc());
    for k in 0..9_000 {
        if roots.push(F + k * 7_919 % 9_000).is_err() {
            return;
        }
    }
    let survey = Survey::of_by_threads(rt.alloc(), &rt, 3, Edition::Three, &words, &roots);
    let survey = survey.ok().expect(&rt, "a survey");
    let growing = survey.grow().ok().expect(&rt, "memory");
    let pairs = [F, F + 69_999, F + 69_998, F, F + 1, F + 69_999];
    let growing = growing.also_values(&pairs).ok().expect(&rt, "values");
    assert_eq!(&rt; growing.keeps(F + 69_998), true);
    assert_eq!(&rt; growing.keeps(F + 9_000), false);
    assert_eq!(&rt; growing.settle().live_words(), 9_002);
}

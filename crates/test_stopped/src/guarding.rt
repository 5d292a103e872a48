//! Surveys with guardians.
use crate::small_heaps::{five, three};
use heap_layout::{Edition, FROM_SPACE as F, Header};
use std::process::Abort;
use stopped_heap::{SurveyFault, survey_guarded};

#[test]
fn the_lost_ones_come_first(rt: HostRuntime) {
    let words = five();
    let guarded = [0, F + 10, F + 9, F + 2, F];
    let found = survey_guarded(
        rt.alloc(),
        Edition::Two,
        &words,
        &[F + 8, F + 2],
        &[],
        &guarded,
    );
    match found {
        Ok(found) => {
            assert_eq!(&rt; found.lost, 2);
            assert_eq!(&rt; found.survey.live_words(), 12);
            assert_eq!(&rt;
                found.order.as_slice(),
                [F + 9, F, 0, F + 10, F + 2].as_slice()
            );
        }
        Err(fault) => {
            assert_eq!(&rt; fault, SurveyFault::OutOfMemory);
        }
    }
}

#[test]
fn with_no_guardian_it_is_a_survey(rt: HostRuntime) {
    let words = five();
    let found = survey_guarded(
        rt.alloc(),
        Edition::Two,
        &words,
        &[0, F + 8, F + 2],
        &[],
        &[],
    );
    let Ok(found) = found else {
        return;
    };
    let mut to = [7; 9];
    assert_eq!(&rt; (found.lost, found.survey.live_words()), (0, 9));
    found.survey.slide(0, &mut to);
    assert_eq!(&rt; to, three());
}

// Six objects of one word, and one at 6 with a reference to that at 5.
fn row() -> [u64; 8] {
    let one = Header::new_weak(0, 0, 0, 1).word();
    [
        one,
        one,
        one,
        one,
        one,
        one,
        Header::new_weak(1, 0, 0, 2).word(),
        F + 5,
    ]
}

#[test]
fn a_key_that_is_lost_brings_its_value_back(rt: HostRuntime) {
    let words = row();
    // The value of the key at 1 is the key of that at 2; that at 3 is the key of the object at 6.
    let ephemerons = [F, F + 2, F + 4, F, F + 1, F + 2, F, F + 3, F + 6];
    let guarded = [F + 4, F + 1, F, F + 2];
    let found = survey_guarded(
        rt.alloc(),
        Edition::Two,
        &words,
        &[F],
        &ephemerons,
        &guarded,
    );
    let Ok(found) = found else {
        return;
    };
    // The values wait for their guardians too: nothing but the object at 0 is held without them.
    assert_eq!(&rt; (found.lost, found.survey.live_words()), (3, 4));
    assert_eq!(&rt; found.order.as_slice(), [F + 4, F + 1, F + 2, F].as_slice());
}

#[test]
fn a_refusal_says_which_word(rt: HostRuntime) {
    let words = row();
    let far = F + 8;
    for (roots, ephemerons, guarded, k) in [
        ([F, far], [F, F, F], [F, F], 1_u64),
        ([F, F], [F, F, far], [F, F], 4),
        ([F, F], [F, F, F], [F, far], 6),
        ([F, F], [F, far, far], [F, F + 1], 9),
    ] {
        let found = survey_guarded(
            rt.alloc(),
            Edition::Two,
            &words,
            &roots,
            &ephemerons,
            &guarded,
        );
        match found {
            Ok(found) => assert_eq!(&rt; (k, found.lost), (9, 1)),
            Err(fault) => {
                assert!(&rt; fault == SurveyFault::BadRoot(k) || fault == SurveyFault::OutOfMemory);
            }
        }
    }
}

//! Finalizers in order, and weak words of both kinds.
use heap_layout::{Edition, FROM_SPACE as F, Header};
use std::process::Abort;
use stopped_heap::{Growing, SurveyFault, Tables};

// Objects of one word, and of a header and one reference: that at 0 leads to that at 2, which leads to that at 4; those
// at 5 and 7 lead to each other; that at 9 to itself; that at 12 to that at 4. Those at 4, 11 and 14 have one word.
fn waiting_row() -> [u64; 15] {
    let one = Header::new_weak(0, 0, 0, 1).word();
    let to = Header::new_weak(1, 0, 0, 2).word();
    [
        to,
        F + 2,
        to,
        F + 4,
        one,
        to,
        F + 7,
        to,
        F + 5,
        to,
        F + 9,
        one,
        to,
        F + 4,
        one,
    ]
}

#[test]
fn those_to_which_none_that_waits_leads_come_first(rt: HostRuntime) {
    let words = waiting_row();
    let growing = Growing::begin(rt.alloc(), Edition::Two, &words);
    let growing = growing.expect(&rt, "a beginning");
    let Ok(growing) = growing.also(&[F + 11]) else {
        return;
    };
    let waiting = [F + 4, 0, F + 5, F, F + 11, F + 9, F + 7, F + 12];
    let Ok(found) = growing.also_ready(rt.alloc(), &waiting) else {
        return;
    };
    // Null is not ready, nor what a root keeps, nor what leads to itself, alone or in a circle.
    assert_eq!(&rt; found.ready, 2);
    assert_eq!(&rt;
        found.order.as_slice(),
        [F, F + 12, F + 4, 0, F + 5, F + 11, F + 9, F + 7].as_slice()
    );
    // All but the last object is kept.
    assert_eq!(&rt; found.growing.keeps(F), true);
    assert_eq!(&rt; found.growing.keeps(F + 14), false);
    assert_eq!(&rt; found.growing.settle().live_words(), 14);
}

#[test]
fn none_is_ready_that_a_root_keeps(rt: HostRuntime) {
    let words = waiting_row();
    let growing = Growing::begin(rt.alloc(), Edition::Two, &words);
    let growing = growing.expect(&rt, "a beginning");
    let Ok(growing) = growing.also(&[F]) else {
        return;
    };
    let Ok(found) = growing.also_ready(rt.alloc(), &[F + 4, F]) else {
        return;
    };
    assert_eq!(&rt; found.ready, 0);
    assert_eq!(&rt; found.order.as_slice(), [F + 4, F].as_slice());
    assert_eq!(&rt; found.growing.settle().live_words(), 5);
}

#[test]
fn words_that_wait_are_refused(rt: HostRuntime) {
    let long = Header::new_weak(0, 0, 11, 1).word();
    for (at, word, waits, fault) in [
        (4_usize, long, F + 4, SurveyFault::ObjectPastEnd(4)),
        (
            4,
            Header::new_weak(0, 0, 1024, 1).word(),
            F + 4,
            SurveyFault::ObjectTooLong(4),
        ),
        (1, F + 15, F, SurveyFault::BadReference(1)),
        (3, F + 15, F, SurveyFault::BadReference(3)),
        (4, long, F + 15, SurveyFault::BadRoot(1)),
    ] {
        let mut words = waiting_row();
        words[at] = word;
        let Ok(tables) = Tables::reserve(rt.alloc(), 15) else {
            return;
        };
        let Ok(growing) = Growing::begin_lent(tables, Edition::Two, &words) else {
            return;
        };
        match growing.also_ready(rt.alloc(), &[F + 14, waits]) {
            Ok(found) => assert_eq!(&rt; found.ready, 9),
            Err(refused) => {
                assert!(&rt; refused.fault == fault || refused.fault == SurveyFault::OutOfMemory);
                assert_eq!(&rt; refused.tables.room(), 15);
            }
        }
    }
}

// Six objects of a thousand references each, of which the last one leads to the object behind them, and an object that
// has no references. An edition of so small objects allows 4,096 roots.
#[test]
fn more_references_than_roots_are_followed(rt: HostRuntime) {
    let Ok(mut words) = vec![in rt.alloc(); 0_u64; 6007] else {
        return;
    };
    for k in 0..6_usize {
        words[1001 * k] = Header::new_weak(1000, 0, 0, 1).word();
    }
    words[6006] = Header::new_weak(0, 0, 0, 2).word();
    words[6005] = F + 6006;
    let growing = Growing::begin(rt.alloc(), Edition::Two, &words);
    let growing = growing.expect(&rt, "a beginning");
    let waiting = [
        F + 6006,
        F,
        F + 1001,
        F + 2002,
        F + 3003,
        F + 4004,
        F + 5005,
    ];
    let Ok(found) = growing.also_ready(rt.alloc(), &waiting) else {
        return;
    };
    assert_eq!(&rt; found.ready, 6);
    assert_eq!(&rt; found.growing.settle().live_words(), 6007);
}

#[test]
fn a_short_weak_word_is_cleared_and_a_long_one_follows(rt: HostRuntime) {
    let words = waiting_row();
    let growing = Growing::begin(rt.alloc(), Edition::Two, &words);
    let growing = growing.expect(&rt, "a beginning");
    let Ok(growing) = growing.also(&[F + 11]) else {
        return;
    };
    let mut short = [F + 12, F + 11, 0, F + 14];
    let mut long = short;
    growing.clear_dead(&mut short);
    assert_eq!(&rt; short, [0, F + 11, 0, 0]);
    let Ok(found) = growing.also_ready(rt.alloc(), &[F + 12]) else {
        return;
    };
    let survey = found.growing.settle();
    survey.forward_weak(&mut short);
    survey.forward_weak(&mut long);
    // The objects at 4, 11 and 12 slide.
    assert_eq!(&rt; short, [0, F + 1, 0, 0]);
    assert_eq!(&rt; long, [F + 2, F + 1, 0, 0]);
}

//! A marking by looks, beside writes.
use crate::small_heaps::row;
use heap_layout::{Edition, FROM_SPACE as F};
use std::process::Abort;
use stopped_heap::{BitsFault, FinishFault, LookFault, Looks, SlideFault};

// Looks at all that waits, as it is now.
fn look_all(rt: &impl Abort, mut looks: Looks, words: &[u64; 12]) -> Result<Looks, LookFault> {
    for _ in 0..12 {
        let Some(i) = looks.waiting() else {
            return Ok(looks);
        };
        assert!(rt; i < 12);
        looks = looks.look(&words[i..])?;
    }
    Ok(looks)
}

// A is looked at; then a thread stores D in A, and null in B, which is looked at then.
fn written(rt: &(impl Abort + AllocGlobal), words: &mut [u64; 12]) -> Result<Looks, LookFault> {
    let Ok(looks) = Looks::begin(rt.alloc(), Edition::Four, 12, &[F]) else {
        return Err(LookFault::OutOfMemory);
    };
    let looks = looks.look(&words[..3])?;
    words[2] = F + 8;
    words[4] = 0;
    look_all(rt, looks, words)
}

#[test]
fn an_object_that_is_not_looked_at_again_is_refused_when_it_slides(rt: HostRuntime) {
    let mut words = row();
    let Ok(looks) = written(&rt, &mut words) else {
        return;
    };
    let Ok(places) = looks.finish(rt.alloc(), &[F]) else {
        return;
    };
    assert_eq!(&rt; places.live_words(), 6);
    let mut to = [0; 6];
    assert_eq!(&rt;
        places.try_slide(&words, 0, &mut to),
        Err(SlideFault::Unmarked(2))
    );
}

#[test]
fn what_an_object_leads_to_when_it_is_looked_at_again_is_live(rt: HostRuntime) {
    let mut words = row();
    let Ok(looks) = written(&rt, &mut words) else {
        return;
    };
    let Ok(looks) = looks.look_again(0, &words[..3]) else {
        return;
    };
    let Ok(looks) = look_all(&rt, looks, &words) else {
        return;
    };
    let Ok(places) = looks.finish(rt.alloc(), &[F, F + 8]) else {
        return;
    };
    let mut to = [0; 10];
    assert_eq!(&rt; places.try_slide(&words, 0, &mut to), Ok(()));
    assert_eq!(&rt;
        to,
        [
            words[0],
            F + 3,
            F + 6,
            words[3],
            0,
            9,
            words[8],
            F + 8,
            words[10],
            7
        ]
    );
}

#[test]
fn what_waits_is_looked_at_before_the_end(rt: HostRuntime) {
    let Ok(looks) = Looks::begin(rt.alloc(), Edition::Four, 12, &[F]) else {
        return;
    };
    match looks.finish(rt.alloc(), &[F]) {
        Ok(_) => assert!(&rt; false),
        Err(fault) => assert_eq!(&rt; fault, FinishFault::StillWaiting),
    }
}

// Begins with these roots.
fn begin(rt: &impl AllocGlobal, roots: &[u64]) -> Option<Looks> {
    Looks::begin(rt.alloc(), Edition::Four, 12, roots).ok()
}

#[test]
fn objects_that_wait_are_told(rt: HostRuntime) {
    let Some(looks) = begin(&rt, &[F, F + 8]) else {
        return;
    };
    let mut indices = [99; 3];
    assert_eq!(&rt; looks.waiting_in(&mut indices), 2);
    assert_eq!(&rt; indices, [0, 8, 99]);
    let Ok(looks) = looks.look(&row()) else {
        return;
    };
    let mut few = [99];
    assert_eq!(&rt; looks.waiting_in(&mut few), 1);
    assert_eq!(&rt; few, [8]);
    assert_eq!(&rt; looks.waiting_in(&mut []), 0);
    for (i, met) in [
        (0, true),
        (3, true),
        (8, true),
        (10, false),
        (12, false),
        (usize::MAX, false),
    ] {
        assert_eq!(&rt; looks.is_met(i), met);
    }
}

#[test]
fn rows_are_looked_at_in_two_calls_and_more(rt: HostRuntime) {
    let words = row();
    let Some(looks) = begin(&rt, &[F, F + 8]) else {
        return;
    };
    // A and D, then B, which has a data word that is not handed in.
    let Ok(looks) = looks.look_rows(&[words[0], F + 3, 0, words[8], F + 10]) else {
        return;
    };
    let Ok(looks) = looks.look_rows(&[words[3], F + 6]) else {
        return;
    };
    let mut indices = [99; 3];
    assert_eq!(&rt; looks.waiting_in(&mut indices), 2);
    assert_eq!(&rt; indices, [10, 6, 99]);
    let Ok(looks) = looks.look_rows(&[]) else {
        return;
    };
    let Ok(looks) = looks.look_rows(&[words[10], words[6]]) else {
        return;
    };
    let Ok(places) = looks.finish(rt.alloc(), &[F, F + 8]) else {
        return;
    };
    let mut to = [0; 12];
    assert_eq!(&rt; places.try_slide(&words, 0, &mut to), Ok(()));
    assert_eq!(&rt; to, words);
}

// A, whose references are null, is looked at.
fn alone(rt: &impl AllocGlobal, words: &mut [u64; 12]) -> Option<Looks> {
    words[1] = 0;
    begin(rt, &[F])?.look(&words[..3]).ok()
}

#[test]
fn a_root_of_now_that_nobody_met_is_refused(rt: HostRuntime) {
    let mut words = row();
    let Some(looks) = alone(&rt, &mut words) else {
        return;
    };
    match looks.finish(rt.alloc(), &[F, F + 8]) {
        Ok(_) => assert!(&rt; false),
        Err(fault) => assert_eq!(&rt; fault, FinishFault::Bits(BitsFault::BadRoot(1))),
    }
}

#[test]
fn a_root_of_now_that_is_met_lives(rt: HostRuntime) {
    let mut words = row();
    let Some(looks) = alone(&rt, &mut words) else {
        return;
    };
    let Ok(looks) = looks.meet(&[F, 0, F + 8, u64::MAX]) else {
        return;
    };
    let Ok(looks) = look_all(&rt, looks, &words) else {
        return;
    };
    let Ok(places) = looks.finish(rt.alloc(), &[F, F + 8]) else {
        return;
    };
    // A, D and E slide: D from 8 to 3, E from 10 to 5.
    let mut to = [1; 7];
    assert_eq!(&rt; places.live_words(), 7);
    assert_eq!(&rt; places.try_slide(&words, 0, &mut to), Ok(()));
    assert_eq!(&rt; to, [words[0], 0, 0, words[8], F + 5, words[10], 7]);
}

//! What a check of a marking by looks finds.
use crate::small_heaps::row;
use heap_layout::{Edition, FROM_SPACE as F, Header};
use std::process::Abort;
use stopped_heap::{CheckFault, Looks};

// A marking that looked at A, B and C.
fn looked(rt: &impl AllocGlobal, words: &[u64; 12]) -> Option<Looks> {
    let looks = Looks::begin(rt.alloc(), Edition::Four, 12, &[F]).ok()?;
    let looks = looks.look(&words[..3]).ok()?;
    let looks = looks.look(&words[3..6]).ok()?;
    looks.look(&words[6..]).ok()
}

// Expects this answer. Memory that was refused is no answer.
fn expect_answer(
    rt: &(impl Abort + AllocGlobal),
    looks: &Looks,
    words: &[u64],
    wanted: Result<(), CheckFault>,
) {
    let answer = looks.check(rt.alloc(), words);
    if answer != Err(CheckFault::OutOfMemory) {
        assert_eq!(rt; answer, wanted);
    }
}

#[test]
fn objects_that_were_not_written_to_since_they_were_looked_at_pass_a_check(rt: HostRuntime) {
    let mut words = row();
    let Ok(looks) = Looks::begin(rt.alloc(), Edition::Four, 12, &[F, F + 8]) else {
        return;
    };
    assert_eq!(&rt; looks.looked(), 0);
    expect_answer(&rt, &looks, &words, Ok(()));
    let Ok(looks) = looks.look(&words[..3]) else {
        return;
    };
    assert_eq!(&rt; looks.looked(), 1);
    // B waits still, and data words may be any.
    words[3] = 0;
    words[11] = 8;
    expect_answer(&rt, &looks, &words, Ok(()));
    expect_answer(&rt, &looks, &[0; 11], Err(CheckFault::WrongLength));
}

#[test]
fn a_word_that_was_written_to_since_is_found_by_a_check(rt: HostRuntime) {
    let longer = Header::new_weak(1, 0, 2, 2).word();
    let shorter = Header::new_weak(1, 0, 0, 2).word();
    let weak = Header::new_weak(1, 1, 0, 2).word();
    let past = Header::new_weak(0, 0, 9, 3).word();
    let rows = [
        (2, F + 8, CheckFault::Unmarked(2)),
        (4, F + 12, CheckFault::Unmarked(4)),
        (3, longer, CheckFault::Changed(6)),
        (3, shorter, CheckFault::Unowned(5)),
        (3, weak, CheckFault::BadWeak(5)),
        (6, past, CheckFault::Changed(6)),
    ];
    for (i, word, fault) in rows {
        let mut words = row();
        let Some(looks) = looked(&rt, &words) else {
            return;
        };
        if i < 12 {
            words[i] = word;
        }
        expect_answer(&rt, &looks, &words, Err(fault));
    }
}

//! What a survey found of five objects, and words that may have changed since.
use crate::expected::{expect_eq, expect_so, expect_words};
use crate::plain_heap::BEFORE;
use crate::small_heaps::{five, three};
use heap_layout::{Edition, FROM_SPACE as F, Header};
use std::process::Abort;
use stopped_heap::{Places, SlideFault, Survey};
use test_support::At;

// What a survey of five objects finds.
fn found(rt: &(impl Abort + AllocGlobal)) -> Places {
    let words = five();
    let survey = Survey::of(rt.alloc(), Edition::Two, &words, &[0, F + 8, F + 2]);
    survey.expect(rt, "a survey of five objects").release()
}

// Slides word for word, then all words, and then none.
fn expect_parts(rt: &impl Abort, places: &Places) {
    for (first, word) in three().iter().enumerate() {
        let at = At::new("one word", first);
        let mut part = [5];
        let answer = places.try_slide(&five(), first as u64, &mut part);
        expect_eq(rt, at, answer, Ok(()));
        expect_eq(rt, at, part, [*word]);
    }
    let mut part = [BEFORE; 9];
    let answer = places.try_slide(&five(), 0, &mut part);
    expect_eq(rt, At::new("all words", 0), answer, Ok(()));
    expect_words(rt, "all words", &part, &three());
    let answer = places.try_slide(&five(), 9, &mut []);
    expect_eq(rt, At::new("none", 0), answer, Ok(()));
}

// Forwards roots, of which one is led astray then, and weak words.
fn expect_forwarded(rt: &impl Abort, places: &Places) {
    let mut roots = [F + 10, 0, F + 8];
    let answer = places.forward_roots(&mut roots);
    expect_eq(rt, At::new("roots", 0), answer, Ok(()));
    expect_words(rt, "roots", &roots, &[F + 7, 0, F + 6]);
    let mut weak = [F + 10, F + 9, 0];
    let answer = places.forward_roots(&mut weak);
    expect_eq(rt, At::new("a root astray", 0), answer, Err(1));
    places.forward_weak(&mut weak);
    expect_words(rt, "weak words", &weak, &[F + 7, 0, 0]);
}

#[test]
fn words_that_have_not_changed(rt: HostRuntime) {
    let places = found(&rt);
    expect_eq(&rt, At::new("live", 0), places.live_words(), 9);
    expect_parts(&rt, &places);
    expect_forwarded(&rt, &places);
}

// Tries all nine words, with one word changed.
fn try_all(
    rt: &impl Abort,
    case: &str,
    places: &Places,
    at: usize,
    word: u64,
) -> Result<(), SlideFault> {
    let mut words = five();
    expect_so(rt, At::new(case, at), at < 12);
    if let Some(changed) = words.get_mut(at) {
        *changed = word;
    }
    places.try_slide(&words, 0, &mut [BEFORE; 9])
}

#[test]
fn changed_words_are_told(rt: HostRuntime) {
    let places = found(&rt);
    let data = Header::new_weak(0, 0, 5, 2).word();
    for (name, at, word, answer) in [
        ("data", 11, 3, Ok(())),
        ("a word of no live object", 0, u64::MAX, Ok(())),
        ("a reference to another live object", 3, F + 8, Ok(())),
        (
            "a reference to a dead object",
            3,
            F + 9,
            Err(SlideFault::Unmarked(3)),
        ),
        (
            "a reference into an object",
            4,
            F + 3,
            Err(SlideFault::Unmarked(4)),
        ),
        (
            "a reference that leads nowhere",
            4,
            u64::MAX,
            Err(SlideFault::Unmarked(4)),
        ),
        ("a weak word, which is null then", 5, 5, Ok(())),
        ("the header of one word", 8, 1, Err(SlideFault::Changed(8))),
        (
            "the header of two words",
            10,
            u64::MAX,
            Err(SlideFault::Changed(10)),
        ),
        ("a shorter header", 2, 0, Err(SlideFault::Changed(2))),
        ("a header of as many data words", 2, data, Ok(())),
    ] {
        let found = try_all(&rt, name, &places, at, word);
        expect_eq(&rt, At::new(name, at), found, answer);
    }
}

// A part that has no place among the live words, and one of other words than were surveyed.
fn expect_no_part(rt: &impl Abort, places: &Places) {
    let mut part = [BEFORE; 2];
    for first in [8, 9, 10, u64::MAX] {
        let answer = places.try_slide(&five(), first, &mut part);
        let at = At::new("no such part", first as usize);
        expect_eq(rt, at, answer, Err(SlideFault::NoSuchPart));
    }
    let answer = places.try_slide(&five()[..11], 0, &mut part);
    let at = At::new("one word less", 0);
    expect_eq(rt, at, answer, Err(SlideFault::OtherCount));
    expect_words(rt, "the part stays", &part, &[BEFORE; 2]);
}

#[test]
fn parts_that_are_not_there(rt: HostRuntime) {
    let places = found(&rt);
    expect_no_part(&rt, &places);
    expect_eq(&rt, At::new("room", 0), places.into_tables().room(), 0);
}

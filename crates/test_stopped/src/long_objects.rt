//! An object of 300 words that slides in parts: the first ends before its last reference, the second within its data
//! words.
use heap_layout::{Edition, FROM_SPACE as F, Header};
use std::process::Abort;
use stopped_heap::{Places, SlideFault, Survey};

// The header of the long object: 100 references, 10 weak words and 189 data words.
fn header() -> u64 {
    Header::new_weak(100, 10, 189, 1).word()
}

// The long object lies at 1, behind a word that is no object. At 301 lies an object that nothing reaches, at 303 one
// with a reference to the long one.
fn word(at: usize) -> u64 {
    match at {
        0 => u64::MAX,
        1 => header(),
        2..=101 if at % 2 == 0 => F + 303,
        2..=101 => 0,
        102..=111 if at % 2 == 0 => F + 301,
        102..=111 => F + 1,
        301 => Header::new_weak(0, 0, 1, 2).word(),
        303 => Header::new_weak(1, 0, 0, 3).word(),
        304 => F + 1,
        _ => at as u64,
    }
}

// The same, slid: the long object to 0, the other one to 300. Weak words that led to the one that nothing reaches are
// null.
fn slid(at: usize) -> u64 {
    match at {
        0 => header(),
        1..=100 if at % 2 == 1 => F + 300,
        1..=110 if at % 2 == 1 => 0,
        1..=100 => 0,
        101..=110 => F,
        300 => Header::new_weak(1, 0, 0, 3).word(),
        301 => F,
        _ => (at as u64).saturating_add(1),
    }
}

fn heap() -> [u64; 305] {
    let mut words = [0; 305];
    for (at, to) in words.iter_mut().enumerate() {
        *to = word(at);
    }
    words
}

fn places(rt: &impl AllocGlobal) -> Option<Places> {
    let words = heap();
    let survey = Survey::of(rt.alloc(), Edition::Four, &words, &[0, F + 303]);
    Some(survey.ok()?.release())
}

// The second part of these words.
fn second(places: &Places, words: &[u64]) -> Result<(), SlideFault> {
    places.try_slide(words, 100, &mut [7; 100])
}

// A part has the words that slide there, from word `first` on.
fn expect_part(rt: &impl Abort, part: &[u64], first: usize) {
    for (k, &found) in part.iter().enumerate() {
        assert_eq!(rt; found, slid(first.saturating_add(k)));
    }
}

#[test]
fn three_parts_are_the_whole(rt: HostRuntime) {
    let Some(places) = places(&rt) else {
        return;
    };
    let words = heap();
    assert_eq!(&rt; places.live_words(), 302);
    let (mut first, mut second, mut third) = ([7; 100], [7; 100], [7; 102]);
    assert_eq!(&rt; places.try_slide(&words, 0, &mut first), Ok(()));
    assert_eq!(&rt; places.try_slide(&words, 100, &mut second), Ok(()));
    assert_eq!(&rt; places.try_slide(&words, 200, &mut third), Ok(()));
    expect_part(&rt, &first, 0);
    expect_part(&rt, &second, 100);
    expect_part(&rt, &third, 200);
}

#[test]
fn a_header_that_changes_between_two_parts_is_told(rt: HostRuntime) {
    let Some(places) = places(&rt) else {
        return;
    };
    let mut words = heap();
    assert_eq!(&rt; places.try_slide(&words, 0, &mut [7; 100]), Ok(()));
    for (refs, weak, data, wanted) in [
        (100, 10, 190, Err(SlideFault::Changed(1))),
        (100, 10, 188, Err(SlideFault::Changed(1))),
        (0, 0, 0, Err(SlideFault::Changed(1))),
        (u16::MAX, 0, 0, Err(SlideFault::Changed(1))),
        // As long, with fewer references.
        (90, 0, 209, Ok(())),
        (100, 10, 189, Ok(())),
    ] {
        words[1] = Header::new_weak(refs, weak, data, 1).word();
        assert_eq!(&rt; second(&places, &words), wanted);
    }
}

#[test]
fn a_reference_is_asked_in_its_part(rt: HostRuntime) {
    let Some(places) = places(&rt) else {
        return;
    };
    let mut words = heap();
    // The last reference is the first word of the second part.
    words[101] = F + 301;
    assert_eq!(&rt; places.try_slide(&words, 0, &mut [7; 100]), Ok(()));
    assert_eq!(&rt; second(&places, &words), Err(SlideFault::Unmarked(101)));
    assert_eq!(&rt; places.try_slide(&words, 200, &mut [7; 102]), Ok(()));
}

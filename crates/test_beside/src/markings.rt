//! Markings beside what one thread finds.
use crate::expected::{expect_eq, expect_so, expect_words};
use heap_layout::{Edition, FROM_SPACE as F, Header};
use mark_job::{Help, Marking, MarkingEnd, WrongLength};
use std::alloc::{AllocError, Global};
use std::process::Abort;
use std::thread;
use std::thread::Threads;
use stopped_heap::{Places, Survey};
use test_support::At;

// Objects of three references each, which lead to any objects, by a generator of numbers.
fn graph(alloc: Global, count: u64, seed: u64) -> Result<Vec<u64>, AllocError> {
    let mut words = Vec::new(alloc);
    let mut state = seed;
    for _ in 0..count {
        words.push(Header::new_weak(3, 0, 1, 0).word())?;
        for _ in 0..3 {
            state = state
                .wrapping_mul(6_364_136_223_846_793_005)
                .wrapping_add(1);
            let to = (state >> 33) % count;
            let none = (state >> 20) % 4 == 0;
            words.push(if none {
                0
            } else {
                F.wrapping_add(to.wrapping_mul(5))
            })?;
        }
        words.push(state)?;
    }
    Ok(words)
}

/// Helps until all is done. The answer is whether the words were as many as they have to be.
pub fn help_all(marking: &Marking, alloc: Global, words: &[u64], who: usize) -> bool {
    for _ in 0..1_000_000 {
        match marking.help(alloc, words, who) {
            Ok(Help::Worked) => {}
            Ok(Help::Idle) => thread::yield_now(),
            Ok(Help::Done) => return true,
            Err(WrongLength) => return false,
        }
    }
    false
}

// The same by so many threads.
fn help_by<R: Threads + Sync>(
    rt: &R,
    alloc: Global,
    marking: &Marking,
    words: &[u64],
    threads: usize,
) -> Result<Vec<bool>, AllocError> {
    thread::map_indices(rt, alloc, threads, &|k| help_all(marking, alloc, words, k))
}

/// Ends with what was met at the beginning.
pub fn finished(marking: Marking, alloc: Global, roots: &[u64]) -> Result<Places, MarkingEnd> {
    let met = marking.enter();
    marking.finish(alloc, roots, met)
}

/// Begins a marking in edition four.
pub fn begun(rt: &(impl Abort + AllocGlobal), count: usize, roots: &[u64]) -> Marking {
    match Marking::begin(rt.alloc(), Edition::Four, count, roots) {
        Ok(marking) => marking,
        Err(_) => panic!(rt; "a marking"),
    }
}

// The words to which these slide. None if they do not slide.
fn slid(alloc: Global, places: &Places, words: &[u64]) -> Result<Option<Vec<u64>>, AllocError> {
    let live = places.live_words().min(words.len() as u64) as usize;
    let mut to = vec![in alloc; 7u64; live]?;
    Ok(places.try_slide(words, 0, &mut to).is_ok().then_some(to))
}

/// Fails unless this is what one thread finds.
pub fn expect_same(
    rt: &impl Abort,
    alloc: Global,
    case: &str,
    found: &Result<Places, MarkingEnd>,
    words: &[u64],
    roots: &[u64],
) {
    let at = At::new(case, 0);
    let Ok(found) = found else {
        panic!(rt; "not finished: {at}")
    };
    let survey = Survey::of(alloc, Edition::Four, words, roots).expect(rt, "a survey");
    expect_eq(rt, at, found.live_words(), survey.live_words());
    let there = slid(alloc, found, words).expect(rt, "memory");
    let wanted = slid(alloc, &survey.release(), words).expect(rt, "memory");
    match (there, wanted) {
        (Some(there), Some(wanted)) => expect_words(rt, case, &there, &wanted),
        _ => panic!(rt; "it does not slide: {at}"),
    }
}

// So many threads mark these words from these roots.
fn run(
    rt: &(impl Abort + AllocGlobal + Threads + Sync),
    case: &str,
    threads: usize,
    words: &[u64],
    roots: &[u64],
) {
    let alloc = rt.alloc();
    let marking = begun(rt, words.len(), roots);
    let done = help_by(rt, alloc, &marking, words, threads).expect(rt, "memory");
    expect_so(rt, At::new(case, 0), done.iter().all(|done| *done));
    expect_same(
        rt,
        alloc,
        case,
        &finished(marking, alloc, roots),
        words,
        roots,
    );
}

#[test]
fn threads_mark_what_one_finds(rt: HostRuntime) {
    for (case, threads) in [
        ("one thread", 1),
        ("two threads", 2),
        ("three threads", 3),
        ("four threads", 4),
    ] {
        for seed in 0..3 {
            let words = graph(rt.alloc(), 5_000, seed).expect(&rt, "words");
            run(&rt, case, threads, &words, &[0, F + 5, 1 << 63, F + 500]);
        }
    }
}

#[test]
fn heaps_by_hand(rt: HostRuntime) {
    let none: [u64; 0] = [];
    run(&rt, "no word", 1, &none, &[0]);
    run(&rt, "one word", 1, &[0], &[F]);
    run(&rt, "one object", 1, &[1, F, 9, 9], &[F]);
    run(
        &rt,
        "two objects",
        2,
        &[1, F + 2, 1, F + 2, 0, 0],
        &[F + 2, F],
    );
    // One reference and seventy data words, in the form of many references.
    let long = (1 << 62) | 1 | (70 << 31);
    run(&rt, "a long object", 2, &[long, F + 72, 0, 5], &[0]);
    // An object of 130 words, over three blocks of bits.
    let mut words = vec![in rt.alloc(); 0u64; 200].expect(&rt, "words");
    words[60] = Header::new_weak(1, 0, 128, 0).word();
    words[61] = F + 190;
    words[190] = Header::new_weak(0, 0, 9, 0).word();
    run(&rt, "three blocks", 2, &words, &[F + 60]);
}

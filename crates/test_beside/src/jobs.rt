//! Jobs beside what one thread finds.
use crate::expected::{expect_eq, expect_so, expect_words};
use crate::trees::tree;
use heap_layout::{Edition, FROM_SPACE as F};
use mark_job::{Ended, Help, Job};
use std::alloc::{AllocError, Global};
use std::process::Abort;
use std::thread;
use std::thread::Threads;
use stopped_heap::{Places, Survey, SurveyFault};
use test_support::At;

/// One thread to eight.
pub const THREADS: [(&str, usize); 8] = [
    ("one thread", 1),
    ("two threads", 2),
    ("three threads", 3),
    ("four threads", 4),
    ("five threads", 5),
    ("six threads", 6),
    ("seven threads", 7),
    ("eight threads", 8),
];

/// More calls than any job here needs.
pub const MANY: u64 = 1_000_000;

/// Begins a job.
pub fn begun(
    rt: &(impl Abort + AllocGlobal),
    edition: Edition,
    words: Vec<u64>,
    roots: &[u64],
) -> Job {
    let roots = Vec::from_slice(rt.alloc(), roots).expect(rt, "roots");
    match Job::begin(rt.alloc(), edition, words, roots) {
        Ok(job) => job,
        Err(_) => panic!(rt; "a job"),
    }
}

// Helps until all is done, or so many times. The answer is how often the thread worked.
fn help_all(job: &Job, alloc: Global, who: usize, most: u64) -> u64 {
    let mut worked = 0u64;
    for _ in 0..most {
        match job.help(alloc, who) {
            Help::Worked => worked = worked.saturating_add(1),
            Help::Idle => thread::yield_now(),
            Help::Done => return worked,
        }
    }
    worked
}

/// So many threads help until all is done, or each so many times. The answer is how often each of them worked.
pub fn help_by<R: Threads + Sync>(
    rt: &R,
    alloc: Global,
    job: &Job,
    threads: usize,
    most: u64,
) -> Result<Vec<u64>, AllocError> {
    thread::map_indices(rt, alloc, threads, &|k| help_all(job, alloc, k, most))
}

// The words to which these slide.
fn slid(alloc: Global, places: &Places, words: &[u64]) -> Result<Vec<u64>, AllocError> {
    let live = places.live_words().min(words.len() as u64) as usize;
    let mut to = vec![in alloc; 7u64; live]?;
    let _ = places.try_slide(words, 0, &mut to);
    Ok(to)
}

/// Fails unless the job found what one thread finds.
pub fn expect_same(rt: &impl Abort, alloc: Global, case: &str, edition: Edition, ended: &Ended) {
    let at = At::new(case, 0);
    let alone = Survey::of(alloc, edition, &ended.words, &ended.roots);
    match (&ended.found, alone) {
        (Ok(found), Ok(survey)) => {
            expect_eq(rt, at, found.live_words(), survey.live_words());
            let there = slid(alloc, found, &ended.words).expect(rt, "memory");
            let wanted = slid(alloc, &survey.release(), &ended.words).expect(rt, "memory");
            expect_words(rt, case, &there, &wanted);
        }
        (Err(found), Err(fault)) => expect_eq(rt, at, *found, fault),
        _ => panic!(rt; "one thread answers otherwise: {at}"),
    }
}

// So many threads help with a tree, each so many times at most, and one finishes.
fn run(rt: &(impl Abort + AllocGlobal + Threads + Sync), case: &str, threads: usize, most: u64) {
    let alloc = rt.alloc();
    let words = tree(alloc, 6_000).expect(rt, "words");
    let job = begun(rt, Edition::One, words, &[0, F + 3]);
    let worked = help_by(rt, alloc, &job, threads, most).expect(rt, "memory");
    expect_eq(rt, At::new(case, 0), worked.len(), threads);
    expect_same(rt, alloc, case, Edition::One, &job.finish(alloc));
}

#[test]
fn threads_find_what_one_finds(rt: HostRuntime) {
    for (case, threads) in THREADS {
        run(&rt, case, threads, MANY);
    }
}

#[test]
fn helpers_may_stop_early(rt: HostRuntime) {
    for (case, threads, most) in [
        ("no thread", 0, 0),
        ("one thread with no call", 1, 0),
        ("one thread with one call", 1, 1),
        ("two threads with one call", 2, 1),
        ("eight threads with one call", 8, 1),
        ("three threads with two calls", 3, 2),
    ] {
        run(&rt, case, threads, most);
    }
}

#[test]
fn a_job_may_be_dropped(rt: HostRuntime) {
    for most in 0..4 {
        let words = tree(rt.alloc(), 6_000).expect(&rt, "words");
        let job = begun(&rt, Edition::One, words, &[F]);
        let worked = help_by(&rt, rt.alloc(), &job, 2, most).expect(&rt, "memory");
        expect_eq(&rt, At::new("calls", most as usize), worked.len(), 2);
        drop(job);
    }
}

#[test]
fn faults_are_those_of_one_thread(rt: HostRuntime) {
    for (case, words, root, fault) in [
        ("no fault", [1, F + 2, 0, 0], F, None),
        ("root", [1, F + 2, 0, 0], 5, Some(SurveyFault::BadRoot(0))),
        (
            "reference",
            [1, F + 4, 0, 0],
            F,
            Some(SurveyFault::BadReference(1)),
        ),
        (
            "its own word",
            [1, F + 1, 0, 0],
            F,
            Some(SurveyFault::Overlap(1)),
        ),
        (
            "past the end",
            [2, F + 3, 0, 1],
            F,
            Some(SurveyFault::ObjectPastEnd(3)),
        ),
        (
            "its last word",
            [2, F + 2, 0, 1],
            F,
            Some(SurveyFault::Overlap(2)),
        ),
    ] {
        let words = Vec::from_slice(rt.alloc(), &words).expect(&rt, "words");
        let job = begun(&rt, Edition::One, words, &[root]);
        let helped = help_by(&rt, rt.alloc(), &job, 2, 9);
        expect_so(&rt, At::new(case, 0), helped.is_ok());
        let ended = job.finish(rt.alloc());
        expect_same(&rt, rt.alloc(), case, Edition::One, &ended);
        expect_eq(&rt, At::new(case, 1), ended.found.err(), fault);
    }
}

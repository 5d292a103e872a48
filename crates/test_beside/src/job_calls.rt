//! How often calls of a job work, and what they answer. A call looks at 1,024 objects, if so many come to wait in its
//! lane. So if too few or too many calls work before all is done, objects were lost, or met twice.
use crate::expected::{expect_eq, expect_so};
use crate::jobs::{MANY, THREADS, begun, expect_same, help_by};
use crate::trees::tree;
use heap_layout::{Edition, FROM_SPACE as F, Header};
use mark_job::{Help, Job};
use std::alloc::{AllocError, Global};
use std::process::Abort;
use std::thread;
use std::thread::Threads;
use test_support::At;

// An edition with no bound on the words of an object.
const E: Edition = Edition::Four;

// The address of an object of a chain.
fn address(i: u64) -> u64 {
    F.wrapping_add(i.wrapping_mul(4))
}

// A chain of so many objects. Each leads to the next one, to itself, and to the one before, if there are such. So few
// wait at a time that none moves to another lane.
fn chain(alloc: Global, count: u64) -> Result<Vec<u64>, AllocError> {
    let mut words = Vec::new(alloc);
    for i in 0..count {
        let next = i.wrapping_add(1);
        words.push(Header::new(3, 0, 0).word())?;
        words.push(if next < count { address(next) } else { 0 })?;
        words.push(address(i))?;
        words.push(if i != 0 {
            address(i.wrapping_sub(1))
        } else {
            0
        })?;
    }
    Ok(words)
}

// A job of such a chain, whose roots lead twice into its middle, and to its beginning.
fn begun_chain(rt: &(impl Abort + AllocGlobal), count: u64) -> Job {
    let words = chain(rt.alloc(), count).expect(rt, "words");
    let middle = address(count / 2);
    begun(rt, E, words, &[middle, F, 0, middle])
}

// Helps as number 0, 1, 2 and so on, until a call does not work. Answers how many calls worked, and what that one said.
fn help_in_turn(job: &Job, alloc: Global) -> (usize, Help) {
    for who in 0..100 {
        let help = job.help(alloc, who);
        if help != Help::Worked {
            return (who, help);
        }
    }
    (100, Help::Worked)
}

// One thread helps in turn, and finishes. Fails unless so many calls work until all is done.
fn expect_calls(rt: &(impl Abort + AllocGlobal), case: &str, job: Job, calls: usize) {
    let (worked, said) = help_in_turn(&job, rt.alloc());
    expect_eq(rt, At::new(case, 0), worked, calls);
    expect_eq(rt, At::new(case, 1), said, Help::Done);
    expect_same(rt, rt.alloc(), case, E, &job.finish(rt.alloc()));
}

#[test]
fn each_object_is_met_once(rt: HostRuntime) {
    for (case, count, calls) in [
        ("one object", 1, 1),
        ("one call", 1_024, 1),
        ("one object more than one call", 1_025, 2),
        ("six calls", 6_144, 6),
        ("one object more than six calls", 6_145, 7),
    ] {
        let job = begun_chain(&rt, count);
        expect_calls(&rt, case, job, calls);
    }
}

// An object that leads to each of 3,071 objects of one word, twice.
fn star(alloc: Global) -> Result<Vec<u64>, AllocError> {
    let mut words = Vec::new(alloc);
    words.push(Header::new(6_142, 0, 0).word())?;
    for k in 0..6_142u64 {
        words.push(F.wrapping_add(6_143).wrapping_add(k / 2))?;
    }
    for _ in 0..3_071 {
        words.push(0)?;
    }
    Ok(words)
}

// The first call looks at the first object and at 1,023 others, and moves half of those that wait, 1,024 objects, into
// another lane.
#[test]
fn each_object_that_moves_to_another_lane_is_met_once(rt: HostRuntime) {
    let words = star(rt.alloc()).expect(&rt, "words");
    let job = begun(&rt, E, words, &[F]);
    expect_calls(&rt, "a star", job, 3);
}

// How many calls of these threads worked. Fails unless all is done then.
fn calls_by(
    rt: &(impl Abort + AllocGlobal + Threads + Sync),
    case: &str,
    threads: usize,
    job: &Job,
) -> u64 {
    let worked = help_by(rt, rt.alloc(), job, threads, MANY).expect(rt, "memory");
    expect_eq(rt, At::new(case, 0), worked.len(), threads);
    expect_eq(rt, At::new(case, 1), job.help(rt.alloc(), 0), Help::Done);
    let mut sum = 0u64;
    for calls in &worked {
        sum = sum.saturating_add(*calls);
    }
    sum
}

// A thread may take the lane right after the one that looked at the last object there: then it works once in vain.
#[test]
fn each_object_is_met_once_by_threads(rt: HostRuntime) {
    for (case, threads) in THREADS {
        let job = begun_chain(&rt, 6_144);
        let calls = calls_by(&rt, case, threads, &job);
        let vain = calls.wrapping_sub(6);
        expect_so(&rt, At::new(case, 2), vain < threads as u64);
        expect_same(&rt, rt.alloc(), case, E, &job.finish(rt.alloc()));
    }
}

// If an object were lost between two lanes, or in two of them, all would never be done.
#[test]
fn lanes_of_a_tree_are_emptied_by_threads(rt: HostRuntime) {
    for (case, threads) in THREADS {
        let words = tree(rt.alloc(), 6_000).expect(&rt, "words");
        let job = begun(&rt, E, words, &[F, F + 3]);
        let calls = calls_by(&rt, case, threads, &job);
        expect_so(&rt, At::new(case, 2), 6 <= calls);
        expect_same(&rt, rt.alloc(), case, E, &job.finish(rt.alloc()));
    }
}

// How often this helper was idle until all was done.
fn idle_calls(job: &Job, alloc: Global, who: usize) -> u64 {
    let mut idle = 0u64;
    for _ in 0..MANY {
        match job.help(alloc, who) {
            Help::Worked => {}
            Help::Idle => {
                idle = idle.saturating_add(1);
                thread::yield_now();
            }
            Help::Done => return idle,
        }
    }
    idle
}

// The same of two helpers.
fn idle_by<R: Threads + Sync>(rt: &R, alloc: Global, job: &Job) -> Result<Vec<u64>, AllocError> {
    thread::map_indices(rt, alloc, 2, &|k| idle_calls(job, alloc, k))
}

// An object with this header and words that are 0, so many words in all.
fn long_object(alloc: Global, header: u64, count: usize) -> Result<Vec<u64>, AllocError> {
    let mut words = vec![in alloc; header]?;
    words.resize(count, 0)?;
    Ok(words)
}

// One object of a million references, all null. A call looks at all of them, and takes long. A call beside it does not
// wait. Threads may happen to run one after the other, so it is tried again.
#[test]
fn a_helper_is_idle_while_another_one_has_all_that_waits(rt: HostRuntime) {
    let alloc = rt.alloc();
    let header = Header::of_large_counts(1_000_000, 0, 0, 0).expect(&rt, "a header");
    for _ in 0..1_000 {
        let words = long_object(alloc, header.word(), 1_000_001).expect(&rt, "words");
        let job = begun(&rt, E, words, &[F]);
        let idle = idle_by(&rt, alloc, &job).expect(&rt, "memory");
        expect_same(&rt, alloc, "a long object", E, &job.finish(alloc));
        if idle.iter().any(|calls| *calls != 0) {
            return;
        }
    }
    panic!(&rt; "no call was idle");
}

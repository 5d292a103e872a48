//! If an allocation is refused, as a switch of the test run asks, a helper loses the objects of its lane. Then the
//! thread that finishes surveys alone, and finds all the same.
use crate::expected::expect_eq;
use crate::trees::tree;
use heap_layout::{Edition, FROM_SPACE as F};
use mark_job::{Ended, Help, Job};
use std::alloc::Global;
use test_support::At;

// A job that marks a tree. None if memory was refused before it began.
fn begun(alloc: Global) -> Option<Job> {
    let words = tree(alloc, 6_000).ok()?;
    let roots = [F, F + 3].to_vec(alloc).ok()?;
    Job::begin(alloc, Edition::One, words, roots).ok()
}

// How many words live by what a job found.
fn live_of(ended: &Ended) -> u64 {
    match &ended.found {
        Ok(found) => found.live_words(),
        Err(_) => 0,
    }
}

#[test]
fn a_job_is_finished_though_objects_were_lost(rt: HostRuntime) {
    let Some(job) = begun(rt.alloc()) else {
        return;
    };
    // Either all was met, or the helper gave up.
    for _ in 0..6_000 {
        let _ = job.help(rt.alloc(), 0);
    }
    expect_eq(&rt, At::new("help", 0), job.help(rt.alloc(), 0), Help::Done);
    let ended = job.finish(rt.alloc());
    expect_eq(&rt, At::new("live", 0), live_of(&ended), 18_000);
}

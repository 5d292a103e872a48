//! Heaps that are drawn, collected by several threads and by one.
use crate::expected::{expect_eq, expect_words};
use heap_layout::{Edition, FROM_SPACE as F, Header};
use pinned_heap::{collect_pinned, collect_pinned_by_threads};
use std::process::Abort;
use std::thread::Threads;
use test_support::At;

// A number that seems drawn at random from the `k` th on.
fn drawn(seed: u64, k: u64) -> u64 {
    let mixed = seed
        .wrapping_add(k)
        .wrapping_mul(0x9e37_79b9_7f4a_7c15)
        .rotate_left(29)
        .wrapping_mul(0xbf58_476d_1ce4_e5b9);
    mixed >> 33
}

// One of these words.
fn one_of(rt: &impl Abort, words: &[u64], seed: u64, k: u64) -> u64 {
    let count = words.len().max(1) as u64;
    let number = drawn(seed, k) % count;
    *words.get(number as usize).expect(rt, "a word")
}

// So many of these words.
fn some_of(rt: &(impl Abort + AllocGlobal), words: &[u64], seed: u64, count: u64) -> Vec<u64> {
    let mut chosen = Vec::new(rt.alloc());
    for k in 0..count {
        let word = one_of(rt, words, seed, k);
        chosen.push(word).expect(rt, "words");
    }
    chosen
}

// So many objects of two to six words, each with a reference to itself or to one before it; and their addresses.
fn scattered(rt: &(impl Abort + AllocGlobal), objects: u64, seed: u64) -> (Vec<u64>, Vec<u64>) {
    let mut words = Vec::new(rt.alloc());
    let mut addresses = Vec::new(rt.alloc());
    for i in 0..objects {
        let data = drawn(seed, i) % 5;
        let address = F.wrapping_add(words.len() as u64);
        addresses.push(address).expect(rt, "addresses");
        words
            .push(Header::new(1, data as u16, 0).word())
            .expect(rt, "words");
        let reference = one_of(rt, &addresses, seed, i.wrapping_add(objects));
        words.push(reference).expect(rt, "words");
        for k in 0..data {
            words.push(k).expect(rt, "words");
        }
    }
    (words, addresses)
}

// Threads leave what one leaves of so many objects, around so many pins.
fn expect_same<R: Threads + Sync + Abort + AllocGlobal>(
    rt: &R,
    threads: usize,
    objects: u64,
    pinned: u64,
    seed: u64,
) {
    let case = format!(in rt.alloc(); "{threads} threads, {pinned} pins, seed {seed}");
    let case = case.expect(rt, "a name");
    let (mut words, addresses) = scattered(rt, objects, seed);
    let (mut alone, _) = scattered(rt, objects, seed);
    let mut roots = some_of(rt, &addresses, seed, 40);
    let mut alone_roots = some_of(rt, &addresses, seed, 40);
    let pins = some_of(rt, &addresses, seed.wrapping_add(7), pinned);
    let wanted = collect_pinned(
        rt.alloc(),
        Edition::Two,
        &mut alone,
        &mut alone_roots,
        &pins,
        64,
    );
    let left = collect_pinned_by_threads(
        rt.alloc(),
        rt,
        threads,
        Edition::Two,
        &mut words,
        &mut roots,
        &pins,
        64,
    );
    let wanted = wanted.expect(rt, "it was refused");
    let left = left.expect(rt, "it was refused");
    expect_eq(rt, At::new(&case, 0), left.end, wanted.end);
    expect_eq(rt, At::new(&case, 1), left.runs.len(), wanted.runs.len());
    expect_words(rt, &case, &words, &alone);
    expect_words(rt, &case, &roots, &alone_roots);
}

#[test]
fn threads_leave_what_one_leaves(rt: HostRuntime) {
    for seed in 0..4u64 {
        for threads in [1, 2, 3, 100] {
            for pinned in [0, 1, 5, 40] {
                expect_same(&rt, threads, 200, pinned, seed);
            }
        }
    }
}

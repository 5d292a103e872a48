//! The heap with weak words in editions two and three, and the next heaps. All words are the same in both.
use crate::expected::expect_eq;
use crate::images::image;
use crate::next_heaps::{first_page, follow, ran};
use heap_layout::{Edition, Header, MarkedHeap};
use page_plan::Plan;
use std::alloc::Global;
use std::process::Abort;
use std::thread::Threads;
use test_support::{At, F, T, heap_of, weak_words};

/// The editions whose objects may have weak words.
pub static EDITIONS: [Edition; 2] = [Edition::Two, Edition::Three];

/// The heap with weak words, with this root.
pub fn weak_heap(rt: &impl Abort, alloc: Global, edition: Edition, root: u64) -> MarkedHeap {
    heap_of(alloc, edition, &weak_words(), &[0, 5], &[root]).expect(rt, "a heap")
}

// The next heap after a cycle without lines, with these marks.
fn next(
    rt: &(impl Abort + Threads + Sync),
    alloc: Global,
    edition: Edition,
    root: u64,
    marks: &[u32],
) -> MarkedHeap {
    let heap = weak_heap(rt, alloc, edition, root);
    follow(rt, alloc, ran(rt, alloc, heap, b"", 1, 0), marks)
}

fn expect_word(rt: &impl Abort, heap: &MarkedHeap, index: usize, word: u64) {
    let found = heap.words().get(index).copied();
    expect_eq(rt, At::new("word", index), found, Some(word));
}

fn expect_forwarded(rt: &(impl Abort + Threads + Sync), alloc: Global, edition: Edition) {
    let heap = next(rt, alloc, edition, F + 5, &[0, 4]);
    expect_eq(rt, At::new("edition", 0), heap.edition(), edition);
    expect_eq(rt, At::new("words", 0), heap.words().len(), 64);
    let first = [
        Header::new_weak(0, 2, 1, 1).word(),
        0,
        F + 4,
        9,
        Header::new_weak(1, 0, 0, 3).word(),
        F,
    ];
    for (index, word) in first.iter().enumerate() {
        expect_word(rt, &heap, index, *word);
    }
    expect_eq(rt, At::new("roots", 0), heap.roots(), [F + 4].as_slice());
    image(rt, alloc, &heap);
    let second = Plan::new(alloc, rt, heap).expect(rt, "a plan");
    expect_eq(rt, At::new("live", 0), second.live_words(), 6);
    let page = first_page(rt, alloc, &second);
    expect_eq(rt, At::new("field 0", 0), page.get(1), 0);
    expect_eq(rt, At::new("field 1", 0), page.get(2), T + 4);
}

#[test]
fn weak_words_are_forwarded_in_each_cycle(rt: HostRuntime) {
    for edition in &EDITIONS {
        expect_forwarded(&rt, rt.alloc(), *edition);
    }
}

// A weak word of an object that is not marked keeps its address in the next heap, and becomes 0 when that heap is
// compacted.
fn expect_null(rt: &(impl Abort + Threads + Sync), alloc: Global, edition: Edition) {
    let heap = next(rt, alloc, edition, F, &[0]);
    expect_word(rt, &heap, 2, F + 4);
    image(rt, alloc, &heap);
    let second = Plan::new(alloc, rt, heap).expect(rt, "a plan");
    expect_eq(rt, At::new("live", 0), second.live_words(), 4);
    let page = first_page(rt, alloc, &second);
    expect_eq(rt, At::new("cleared", 0), page.get(2), 0);
    expect_eq(rt, At::new("data", 0), page.get(3), 9);
}

#[test]
fn weak_words_for_dropped_objects_become_null(rt: HostRuntime) {
    for edition in &EDITIONS {
        expect_null(&rt, rt.alloc(), *edition);
    }
}

/// A line stores a weak word for a new object.
pub const STORED: &[u8] =
    b"0 root 0 0\n0 wnew 1 0 1 1 3\n0 put 1 0 5\n0 wstore 0 0 1\n0 wstore 1 0 0\n0 wload 2 0 0\n0 get 2 0\n";

fn expect_new(rt: &(impl Abort + Threads + Sync), alloc: Global, edition: Edition) {
    let left = ran(rt, alloc, weak_heap(rt, alloc, edition, F), STORED, 1, 1);
    expect_eq(rt, At::new("shown", 0), left.shown.len(), 1);
    let heap = follow(rt, alloc, left, &[0, 4, 64]);
    expect_eq(rt, At::new("words", 0), heap.words().len(), 128);
    expect_word(rt, &heap, 1, F + 64);
    expect_word(rt, &heap, 65, F);
    expect_word(rt, &heap, 66, 5);
    let second = Plan::new(alloc, rt, heap).expect(rt, "a plan");
    expect_eq(rt, At::new("live", 0), second.live_words(), 9);
    expect_eq(rt, At::new("new", 0), second.forward(F + 64), Some(T + 6));
}

#[test]
fn weak_words_for_new_objects_are_forwarded(rt: HostRuntime) {
    for edition in &EDITIONS {
        expect_new(&rt, rt.alloc(), *edition);
    }
}

//! The heap of the three objects through two cycles, with values worked out by hand: in each cycle the mutator makes an
//! object on page 3, its first fresh page, writes 9 into it, and stores it in the object of the root.
ghost use Rattle.comp_mutator.specs.Ends.{IsEndOf};
ghost use Rattle.comp_mutator.specs.Finishes.{IsOfFlip};

use crate::cycles::{compacted, followed, live_twice, planned};
use comp_audit::{Dump, Verdict, audit};
use comp_mutator::Finished;
use heap_layout::MarkedHeap;
use page_plan::Plan;
use std::alloc::Global;
use std::process::Abort;
use std::sync::Wait;
use std::thread::Threads;
use test_support::{At, F, T, Worked, worked_heap};

// The headers of the first of the three objects, of the last, and of an object that was made.
const FIRST: u64 = 4_295_032_832;

const LAST: u64 = 12_884_901_889;

const MADE: u64 = 17_179_934_720;

// Words that are not 0, each with its index, and where the root leads.
#[derive(Clone, Copy)]
struct Wanted {
    words: [(usize, u64); 6],
    root: u64,
}

// What is left of the first cycle, with a reference to this address in the last object.
fn after_first(made: u64, root: u64) -> Wanted {
    let words = [
        (0, FIRST),
        (1, 11),
        (2, LAST),
        (3, made),
        (192, MADE),
        (193, 9),
    ];
    Wanted { words, root }
}

// What is left of the second cycle, for which the last object and the one that was made were marked.
fn after_second(made: u64, root: u64) -> Wanted {
    let words = [
        (0, LAST),
        (1, made),
        (2, MADE),
        (3, 9),
        (192, MADE),
        (193, 9),
    ];
    Wanted { words, root }
}

// The word at an index.
fn word_at(wanted: &Wanted, index: usize) -> u64 {
    for (at, word) in &wanted.words {
        if *at == index {
            return *word;
        }
    }
    0
}

// The word of a finished heap at an index; 0 on a page that nobody touched.
fn word_left(left: &Finished, index: usize) -> u64 {
    match left.pages().page(index / 64) {
        Some(page) => page.words()[index % 64],
        None => 0,
    }
}

// Checks what is left of a cycle: nine pages, of which one was compacted, and the audit by the plan of its heap.
fn expect_left(
    rt: &impl Abort,
    alloc: Global,
    case: &str,
    plan: &Plan,
    left: &Finished,
    wanted: &Wanted,
)
    requires { IsOfFlip 3 8 left.now }
{
    assert_eq!(rt; plan.pages(), 1, "{}", At::new(case, 0));
    assert_eq!(rt; left.pages().len(), 9, "{}", At::new(case, 0));
    assert_eq!(rt; left.live_words(), 6, "{}", At::new(case, 0));
    assert_eq!(rt;
        left.roots(),
        [wanted.root].as_slice(),
        "{}",
        At::new(case, 0)
    );
    for index in 0..576 {
        assert_eq!(rt;
            word_left(left, index),
            word_at(wanted, index),
            "{}",
            At::new(case, index)
        );
    }
    let dump = Dump::of(alloc, left, 3, 8).expect(rt, "a dump");
    let verdict = audit(alloc, plan, &dump).expect(rt, "a verdict");
    assert_eq!(rt; verdict, Verdict::Yes, "{}", At::new(case, 0));
}

// Checks what page 0 began with, before the mutator wrote to it: these words, and then zeros.
fn expect_base(
    rt: &impl Abort,
    alloc: Global,
    case: &str,
    plan: &Plan,
    left: &Finished,
    base: [u64; 4],
)
    requires { IsEndOf plan.now left.now }
{
    let made = left.pages().journaled(alloc, plan, 0).expect(rt, "memory");
    let page = made.expect(rt, "a page that was built");
    for (index, word) in page.base().iter().enumerate() {
        let wanted = base.get(index).copied().unwrap_or(0);
        assert_eq!(rt; *word, wanted, "{}", At::new(case, index));
    }
}

// Checks the heap with which the next cycle begins.
fn expect_next(rt: &impl Abort, case: &str, heap: &MarkedHeap, marks: &[u32], wanted: &Wanted) {
    assert_eq!(rt; heap.words().len(), 576, "{}", At::new(case, 0));
    for (index, word) in heap.words().iter().enumerate() {
        assert_eq!(rt; *word, word_at(wanted, index), "{}", At::new(case, index));
    }
    assert_eq!(rt; heap.marks(), marks, "{}", At::new(case, 0));
    assert_eq!(rt;
        heap.roots(),
        [wanted.root].as_slice(),
        "{}",
        At::new(case, 0)
    );
}

// The three objects, which are compacted twice.
fn expect_two_cycles<R: Abort + Threads + Wait + Sync>(rt: &R, alloc: Global) {
    let heap = worked_heap(alloc, Worked::Three).expect(rt, "a heap");
    let plan = planned(alloc, rt, heap).expect(rt, "a plan");
    let left = compacted(alloc, rt, &plan).expect(rt, "a cycle");
    expect_left(
        rt,
        alloc,
        "first cycle",
        &plan,
        &left,
        &after_first(T + 192, T + 2),
    );
    expect_base(rt, alloc, "first base", &plan, &left, [FIRST, 11, LAST, T]);
    let kept = [2u32, 192].to_vec(alloc).expect(rt, "marks");
    let next = followed(alloc, &plan, left, kept).expect(rt, "the next heap");
    expect_next(
        rt,
        "next heap",
        &next,
        &[2, 192],
        &after_first(F + 192, F + 2),
    );
    let second = planned(alloc, rt, next).expect(rt, "a plan");
    let again = compacted(alloc, rt, &second).expect(rt, "a second cycle");
    expect_left(
        rt,
        alloc,
        "second cycle",
        &second,
        &again,
        &after_second(T + 192, T),
    );
    expect_base(
        rt,
        alloc,
        "second base",
        &second,
        &again,
        [LAST, T + 2, MADE, 9],
    );
}

#[test]
fn three_objects_live_through_two_cycles(rt: HostRuntime) {
    expect_two_cycles(&rt, rt.alloc());
}

// The same by one call, and the heap after it.
fn expect_a_life<R: Abort + Threads + Wait + Sync>(rt: &R, alloc: Global) {
    let heap = worked_heap(alloc, Worked::Three).expect(rt, "a heap");
    let marks = [2u32, 192].to_vec(alloc).expect(rt, "marks");
    let last_marks = [0u32, 192].to_vec(alloc).expect(rt, "marks");
    let last = live_twice(alloc, rt, heap, marks, last_marks).expect(rt, "the last heap");
    expect_next(rt, "last heap", &last, &[0, 192], &after_second(F + 192, F));
}

#[test]
fn three_objects_live_through_two_cycles_by_one_call(rt: HostRuntime) {
    expect_a_life(&rt, rt.alloc());
}

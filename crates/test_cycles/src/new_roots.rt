//! The next heap with roots that are handed in.
ghost use Rattle.comp_cycles.specs.Ends.{IsEndOf};

use crate::expected::{expect_eq, expect_so};
use crate::next_heaps::ran;
use crate::three_objects::linked;
use comp_cycles::{NotCycled, moved_words};
use comp_trace::Ran;
use heap_layout::{LayoutFault, MarkedHeap};
use std::alloc::{AllocError, Global};
use std::process::Abort;
use std::thread::Threads;
use test_support::{At, F, T};

// The next heap with these marks and roots, or the refusal.
fn rooted(
    rt: &impl Abort,
    alloc: Global,
    ran: Ran,
    marks: &[u32],
    roots: &[u64],
) -> Result<MarkedHeap, NotCycled>
    requires { IsEndOf ran.plan.value ran.finished }
{
    let marks = marks.to_vec(alloc).expect(rt, "marks");
    ran.finished
        .next_cycle_with(alloc, &*ran.plan, marks, roots)
}

// The same, out of words that were moved before.
fn moved_rooted(
    rt: &impl Abort,
    alloc: Global,
    ran: Ran,
    marks: &[u32],
    roots: &[u64],
) -> Result<MarkedHeap, NotCycled>
    requires { IsEndOf ran.plan.value ran.finished }
{
    let marks = marks.to_vec(alloc).expect(rt, "marks");
    let moved = moved_words(alloc, &*ran.plan, &ran.finished).expect(rt, "words");
    ran.finished
        .next_moved_with(alloc, &*ran.plan, moved, marks, roots)
}

// Marks and roots, and the roots of the next heap. Objects start at T, T + 2 and T + 64, and the first two are live at
// the flip.
struct TakenRoots(&'static [u32], &'static [u64], &'static [u64]);

static TAKEN: [TakenRoots; 4] = [
    TakenRoots(&[2, 64], &[], &[]),
    TakenRoots(&[64], &[T + 64], &[F + 64]),
    TakenRoots(
        &[2, 64],
        &[0, T + 64, T + 2, T + 64],
        &[0, F + 64, F + 2, F + 64],
    ),
    TakenRoots(&[0, 2, 64], &[T], &[F]),
];

#[test]
fn next_heap_has_the_roots_that_are_handed_in(rt: HostRuntime) {
    let alloc = rt.alloc();
    for (number, row) in TAKEN.iter().enumerate() {
        match rooted(&rt, alloc, linked(&rt, alloc), row.0, row.1) {
            Ok(heap) => {
                expect_eq(&rt, At::new("roots", number), heap.roots(), row.2);
                expect_eq(&rt, At::new("marks", number), heap.marks(), row.0);
            }
            Err(_left) => expect_so(&rt, At::new("a heap", number), false),
        }
        match moved_rooted(&rt, alloc, linked(&rt, alloc), row.0, row.1) {
            Ok(heap) => expect_eq(&rt, At::new("moved", number), heap.roots(), row.2),
            Err(_left) => expect_so(&rt, At::new("a heap of moved words", number), false),
        }
    }
}

// Marks and roots, and the fault that refuses them.
struct RefusedRoots(&'static [u32], &'static [u64], LayoutFault);

static REFUSED: [RefusedRoots; 7] = [
    // No mark keeps the object.
    RefusedRoots(&[64], &[T + 64, T + 2], LayoutFault::BadRoot(1)),
    // Words that are no to-space addresses are not taken as null.
    RefusedRoots(&[64], &[5], LayoutFault::BadRoot(0)),
    RefusedRoots(&[64], &[0, F], LayoutFault::BadRoot(1)),
    RefusedRoots(&[64], &[F + 64], LayoutFault::BadRoot(0)),
    // The address is inside an object.
    RefusedRoots(&[2, 64], &[T + 3], LayoutFault::BadRoot(0)),
    // Marks are checked before roots, and roots before references.
    RefusedRoots(&[65], &[5], LayoutFault::MarkNotStart(65)),
    RefusedRoots(&[2], &[5], LayoutFault::BadRoot(0)),
];

#[test]
fn next_heap_refuses_roots_that_lead_nowhere(rt: HostRuntime) {
    let alloc = rt.alloc();
    for (number, row) in REFUSED.iter().enumerate() {
        match rooted(&rt, alloc, linked(&rt, alloc), row.0, row.1) {
            Ok(_heap) => expect_so(&rt, At::new("accepted", number), false),
            Err(left) => {
                expect_eq(&rt, At::new("fault", number), left.fault, row.2);
                expect_eq(&rt, At::new("live", number), left.finished.live_words(), 5);
            }
        }
    }
}

// A list of `count` null roots.
fn nulls(alloc: Global, count: usize) -> Result<Vec<u64>, AllocError> {
    vec![in alloc; 0; count]
}

// The fault of the next heap with no marks and this many null roots, or `None`.
fn fault_of(
    rt: &(impl Abort + Threads + Sync),
    alloc: Global,
    count: usize,
) -> Option<LayoutFault> {
    let roots = nulls(alloc, count).expect(rt, "roots");
    match rooted(rt, alloc, linked(rt, alloc), &[], &roots) {
        Ok(_heap) => None,
        Err(left) => Some(left.fault),
    }
}

#[test]
fn next_heap_has_at_most_4_096_roots(rt: HostRuntime) {
    let alloc = rt.alloc();
    expect_eq(
        &rt,
        At::new("roots", 4_096),
        fault_of(&rt, alloc, 4_096),
        None,
    );
    let wanted = Some(LayoutFault::TooLarge);
    expect_eq(
        &rt,
        At::new("roots", 4_097),
        fault_of(&rt, alloc, 4_097),
        wanted,
    );
}

// No line runs over the second and the third heap.
const NOTHING: &[u8] = b"";

#[test]
fn roots_change_in_each_cycle(rt: HostRuntime) {
    let alloc = rt.alloc();
    let second = match rooted(&rt, alloc, linked(&rt, alloc), &[64], &[T + 64]) {
        Ok(heap) => heap,
        Err(_left) => rt.panic("a heap that follows"),
    };
    let left = ran(&rt, alloc, second, NOTHING, 1, 1);
    expect_eq(
        &rt,
        At::new("root", 2),
        left.finished.roots(),
        [T].as_slice(),
    );
    let third = match rooted(&rt, alloc, left, &[], &[0]) {
        Ok(heap) => heap,
        Err(_left) => rt.panic("a heap that follows"),
    };
    let left = ran(&rt, alloc, third, NOTHING, 1, 1);
    expect_eq(
        &rt,
        At::new("root", 3),
        left.finished.roots(),
        [0].as_slice(),
    );
    expect_eq(&rt, At::new("live", 3), left.finished.live_words(), 0);
}

//! Cycles whose next heaps are marked by given marks, or by what their roots reach.
ghost use Rattle.std.specs.Prelude.{◌≤◌};

use crate::expected::{expect_eq, expect_so};
use crate::limits::long_objects;
use crate::next_heaps::{follow_reachable, ran, three};
use crate::past_cycles::expect_values;
use crate::weak_words::{EDITIONS, STORED, weak_heap};
use comp_cycles::NotCycled;
use comp_trace::{CycleFault, Marking, next_marked, parse, replay_marked};
use heap_layout::{LayoutFault, MarkedHeap};
use page_plan::Plan;
use std::alloc::Global;
use std::process::Abort;
use std::thread::Threads;
use test_support::{At, F};

// The data word of the first of the three objects is shown, to which the root's object refers.
const SHOWN: &[u8] = b"0 root 0 0\n0 load 1 0 0\n0 get 1 0\n";

// The root's object loses its reference.
const CUT: &[u8] = b"0 root 0 0\n0 nil 1\n0 store 0 0 1\n";

// Checks three cycles over the three objects, with the second heap marked so and the third by what its roots reach: the
// object that is cut off is shown twice before, and dropped.
fn expect_cut(rt: &(impl Abort + Threads + Sync), alloc: Global, marking: Marking, case: &str) {
    let heap = three(rt, alloc);
    let roots = heap.roots().len() as u32;
    let first = parse(alloc, SHOWN, 1, roots).expect(rt, "a trace");
    let again = parse(alloc, SHOWN, 1, roots).expect(rt, "a trace");
    let cut = parse(alloc, CUT, 1, roots).expect(rt, "a trace");
    let empty = parse(alloc, b"", 1, roots).expect(rt, "a trace");
    let rest = [
        (marking, again),
        (Marking::Reachable, cut),
        (Marking::Reachable, empty),
    ];
    match replay_marked(alloc, rt, heap, &first, &rest, 1, 2) {
        Ok(run) => {
            expect_eq(rt, At::new(case, 0), run.shown.len(), 4);
            let shown: [&[u64]; 4] = [&[11], &[11], &[], &[]];
            for (values, wanted) in run.shown.iter().zip(&shown) {
                expect_values(rt, values, wanted, case);
            }
            expect_eq(rt, At::new(case, 1), run.finished.live_words(), 2);
        }
        Err(_stopped) => rt.panic("all cycles"),
    }
}

#[test]
fn cycles_keep_what_their_roots_reach(rt: HostRuntime) {
    let alloc = rt.alloc();
    expect_cut(&rt, alloc, Marking::Reachable, "reachable");
    let marks = vec![in alloc; 0u32, 2].expect(&rt, "marks");
    expect_cut(&rt, alloc, Marking::Given(marks), "given");
}

// The fault of two cycles without lines over the three objects, with these marks given between them.
fn fault_of(
    rt: &(impl Abort + Threads + Sync),
    alloc: Global,
    marks: &[u32],
) -> Option<CycleFault> {
    let heap = three(rt, alloc);
    let roots = heap.roots().len() as u32;
    let first = parse(alloc, b"", 1, roots).expect(rt, "a trace");
    let more = parse(alloc, b"", 1, roots).expect(rt, "a trace");
    let marks = marks.to_vec(alloc).expect(rt, "marks");
    let rest = [(Marking::Given(marks), more)];
    match replay_marked(alloc, rt, heap, &first, &rest, 1, 0) {
        Ok(_run) => None,
        Err(stopped) => Some(stopped.fault),
    }
}

#[test]
fn given_marks_are_refused_as_by_next_cycle(rt: HostRuntime) {
    let alloc = rt.alloc();
    let unmarked = CycleFault::NotMarked(0, LayoutFault::UnmarkedTarget(3));
    expect_so(
        &rt,
        At::new("not marked", 0),
        fault_of(&rt, alloc, &[2]) == Some(unmarked),
    );
    expect_so(
        &rt,
        At::new("marked", 0),
        fault_of(&rt, alloc, &[0, 2]) == None,
    );
}

// The next heap after the long objects, marked by what its roots reach, or the refusal.
fn behind_long_objects(
    rt: &(impl Abort + Threads + Sync),
    alloc: Global,
    fresh: u32,
) -> Result<MarkedHeap, NotCycled>
    requires { fresh ≤ 4096 }
{
    let heap = long_objects(alloc).expect(rt, "a heap");
    let left = ran(rt, alloc, heap, b"", 1, fresh);
    next_marked(left.finished, alloc, &*left.plan, Marking::Reachable)
}

#[test]
fn reachable_next_heap_has_at_most_16_384_pages(rt: HostRuntime) {
    let alloc = rt.alloc();
    match behind_long_objects(&rt, alloc, 4_081) {
        Ok(_heap) => expect_so(&rt, At::new("accepted", 16_385), false),
        Err(left) => expect_eq(
            &rt,
            At::new("fault", 16_385),
            left.fault,
            LayoutFault::TooLarge,
        ),
    }
    match behind_long_objects(&rt, alloc, 4_080) {
        Ok(heap) => {
            expect_eq(&rt, At::new("words", 16_384), heap.words().len(), 1_048_576);
            expect_eq(&rt, At::new("marks", 16_384), heap.marks().len(), 0);
        }
        Err(_left) => expect_so(&rt, At::new("a heap", 16_384), false),
    }
}

#[test]
fn weak_words_reach_nothing(rt: HostRuntime) {
    let alloc = rt.alloc();
    for edition in &EDITIONS {
        let left = ran(&rt, alloc, weak_heap(&rt, alloc, *edition, F), STORED, 1, 1);
        let heap = follow_reachable(&rt, alloc, left);
        expect_eq(&rt, At::new("edition", 0), heap.edition(), *edition);
        expect_eq(&rt, At::new("marks", 0), heap.marks(), [0].as_slice());
        let second = Plan::new(alloc, &rt, heap).expect(&rt, "a plan");
        expect_eq(&rt, At::new("live", 0), second.live_words(), 4);
    }
}

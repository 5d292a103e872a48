//! The audit accepts the dump of the last heap of several cycles.
use crate::expected::expect_so;
use crate::next_heaps::{follow, ran};
use crate::three_objects::LINKED;
use comp_audit::{Dump, Verdict, audit};
use comp_trace::{parse, replay_cycles};
use heap_layout::MarkedHeap;
use page_plan::Plan;
use std::alloc::Global;
use std::process::Abort;
use std::thread::Threads;
use test_support::{At, Worked, worked_heap};

// A heap of which each of two cycles runs the same text, and the marks that begin the second one.
struct TwoCycles(Worked, [u32; 2]);

// The three objects, and those of edition two in edition three.
static CASES: [TwoCycles; 2] = [
    TwoCycles(Worked::Three, [2, 64]),
    TwoCycles(Worked::Mixed, [4, 64]),
];

// The heap of a case.
fn heap_of(rt: &impl Abort, alloc: Global, case: &TwoCycles) -> MarkedHeap {
    worked_heap(alloc, case.0).expect(rt, "a heap")
}

// Whether the audit accepts this dump of the heap that this plan compacted.
fn is_lawful(rt: &impl Abort, alloc: Global, plan: &Plan, dump: &Dump<'_>) -> bool {
    let verdict = audit(alloc, plan, dump).expect(rt, "a verdict");
    verdict == Verdict::Yes
}

// Checks the dump of the last heap of two cycles by one call, and that the last heap keeps the edition of the first.
fn expect_last(rt: &(impl Abort + Threads + Sync), alloc: Global, case: &TwoCycles) {
    let heap = heap_of(rt, alloc, case);
    let edition = heap.edition();
    let roots = heap.roots().len() as u32;
    let first = parse(alloc, LINKED, 1, roots).expect(rt, "a trace");
    let more = parse(alloc, LINKED, 1, roots).expect(rt, "a trace");
    let rest = [(case.1.to_vec(alloc).expect(rt, "marks"), more)];
    let run = match replay_cycles(alloc, rt, heap, &first, &rest, 1, 2) {
        Ok(run) => run,
        Err(_stopped) => rt.panic("two cycles"),
    };
    let dump = Dump::of(alloc, &run.finished, 1, 2).expect(rt, "a dump");
    let left = ran(rt, alloc, heap_of(rt, alloc, case), LINKED, 1, 2);
    let before = left.plan.clone().expect(rt, "the plan of the first cycle");
    let last = follow(rt, alloc, left, &case.1);
    expect_so(
        rt,
        At::new("edition", 0),
        last.edition() == edition && dump.edition() == edition,
    );
    let plan = Plan::new(alloc, rt, last).expect(rt, "a plan");
    expect_so(rt, At::new("lawful", 0), is_lawful(rt, alloc, &plan, &dump));
    let by_first = is_lawful(rt, alloc, &before, &dump);
    expect_so(
        rt,
        At::new("lawful by the plan of the first cycle", 0),
        !by_first,
    );
}

#[test]
fn audit_accepts_the_last_heap_of_two_cycles(rt: HostRuntime) {
    for case in &CASES {
        expect_last(&rt, rt.alloc(), case);
    }
}

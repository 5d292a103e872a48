//! The example on the heap of the three objects.
use crate::cycle::compact;
use comp_audit::Verdict;
use std::alloc::Global;
use std::process::Abort;
use std::sync::Wait;
use std::thread::Threads;
use test_support::{Worked, worked_heap};

// Panics unless the heap is compacted and the audit accepts it.
fn expect_yes<R: Abort + Threads + Wait + Sync>(rt: &R, alloc: Global) {
    let heap = worked_heap(alloc, Worked::Three).expect(rt, "memory for a heap");
    let verdict = compact(alloc, rt, heap);
    assert_eq!(rt; verdict, Some(Verdict::Yes));
}

#[test]
fn three_objects_are_compacted_and_audited(rt: HostRuntime) {
    expect_yes(&rt, rt.alloc());
}

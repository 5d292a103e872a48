//! What the marker answers of a heap, beside what is wanted.
use crate::expected::{expect_eq, expect_items};
use heap_layout::{Edition, LayoutFault};
use reachability::{reachable_heap, reachable_marks};
use std::alloc::AllocError;
use std::process::Abort;
use test_support::At;

/// The objects have these marks.
pub fn expect_marks(
    rt: &(impl Abort + AllocGlobal),
    case: &str,
    edition: Edition,
    words: &[u64],
    roots: &[u64],
    marks: &[u32],
) {
    match reachable_marks(rt.alloc(), edition, words, roots) {
        Ok(found) => expect_items(rt, At::new(case, 0), &found, marks),
        Err(fault) => expect_eq(rt, At::new(case, 0), Some(fault), None),
    }
}

/// The heap is accepted with these marks.
pub fn expect_heap(
    rt: &(impl Abort + AllocGlobal),
    case: &str,
    edition: Edition,
    words: &[u64],
    roots: &[u64],
    marks: &[u32],
) -> Result<(), AllocError> {
    let words = Vec::from_slice(rt.alloc(), words)?;
    let roots = Vec::from_slice(rt.alloc(), roots)?;
    match reachable_heap(rt.alloc(), edition, words, roots) {
        Ok(heap) => expect_items(rt, At::new(case, 0), heap.marks(), marks),
        Err(fault) => expect_eq(rt, At::new(case, 0), Some(fault), None),
    }
    Ok(())
}

/// The heap is refused with this fault.
pub fn expect_heap_fault(
    rt: &(impl Abort + AllocGlobal),
    case: &str,
    edition: Edition,
    words: &[u64],
    roots: &[u64],
    fault: LayoutFault,
) -> Result<(), AllocError> {
    let words = Vec::from_slice(rt.alloc(), words)?;
    let roots = Vec::from_slice(rt.alloc(), roots)?;
    let made = reachable_heap(rt.alloc(), edition, words, roots);
    expect_eq(rt, At::new(case, 1), made.err(), Some(fault));
    Ok(())
}

/// The marks are refused with this fault, which is row 0 of the case, and so is the heap, which is row 1.
pub fn expect_fault(
    rt: &(impl Abort + AllocGlobal),
    case: &str,
    edition: Edition,
    words: &[u64],
    roots: &[u64],
    fault: LayoutFault,
) -> Result<(), AllocError> {
    let marks = reachable_marks(rt.alloc(), edition, words, roots);
    expect_eq(rt, At::new(case, 0), marks.err(), Some(fault));
    expect_heap_fault(rt, case, edition, words, roots, fault)
}

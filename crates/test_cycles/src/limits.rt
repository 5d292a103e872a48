//! The next heap has at most 1,048,576 words, and as many marks, but more in edition three.
ghost use Rattle.std.specs.Prelude.{◌≤◌};

use crate::expected::{expect_eq, expect_so};
use crate::next_heaps::{follow, followed, ran};
use crate::three_objects::linked;
use comp_cycles::NotCycled;
use heap_layout::{Edition, Header, LayoutFault, MarkedHeap};
use std::alloc::{AllocError, Global};
use std::process::Abort;
use std::thread::Threads;
use test_support::{At, Worked, heap, heap_of, worked_heap};

// The words and the marks of 769 objects of 1,024 words, all marked.
fn long_parts(alloc: Global) -> Result<(Vec<u64>, Vec<u32>), AllocError> {
    let header = Header::new(0, 1_023, 0).word();
    let mut words = vec![in alloc; 0; 787_456]?;
    let mut marks = Vec::new(alloc);
    for object in 0..769u32 {
        let start = object.wrapping_mul(1_024);
        if let Some(word) = words.get_mut(start as usize) {
            *word = header;
        }
        marks.push(start)?;
    }
    Ok((words, marks))
}

/// The heap of these objects. They fill 12,304 pages.
pub fn long_objects(alloc: Global) -> Option<MarkedHeap> {
    let (words, marks) = long_parts(alloc).ok()?;
    heap(alloc, &words, &marks, &[])
}

// The next heap after them, with `fresh` fresh pages and these marks, or the refusal.
fn behind_long_objects(
    rt: &(impl Abort + Threads + Sync),
    alloc: Global,
    fresh: u32,
    marks: &[u32],
) -> Result<MarkedHeap, NotCycled>
    requires { fresh ≤ 4096 }
{
    let heap = long_objects(alloc).expect(rt, "a heap");
    followed(rt, alloc, ran(rt, alloc, heap, b"", 1, fresh), marks)
}

fn is_too_large(heap: &Result<MarkedHeap, NotCycled>) -> bool {
    match heap {
        Ok(_heap) => false,
        Err(left) => left.fault == LayoutFault::TooLarge,
    }
}

#[test]
fn next_heap_has_at_most_16_384_pages(rt: HostRuntime) {
    let alloc = rt.alloc();
    // The mark is on no start, which is checked later.
    let refused = behind_long_objects(&rt, alloc, 4_081, &[1]);
    expect_so(&rt, At::new("too large", 16_385), is_too_large(&refused));
    match behind_long_objects(&rt, alloc, 4_080, &[0, 1_024]) {
        Ok(heap) => expect_eq(&rt, At::new("words", 16_384), heap.words().len(), 1_048_576),
        Err(_left) => expect_so(&rt, At::new("a heap", 16_384), false),
    }
}

#[test]
fn next_heap_has_at_most_1_048_576_marks(rt: HostRuntime) {
    let alloc = rt.alloc();
    // The marks do not rise, which is checked later.
    let marks = vec![in alloc; 0; 1_048_577].expect(&rt, "marks");
    let refused = followed(&rt, alloc, linked(&rt, alloc), &marks);
    expect_so(&rt, At::new("too large", 1_048_577), is_too_large(&refused));
}

// A list of `count` zeros.
fn zeros(alloc: Global, count: usize) -> Result<Vec<u64>, AllocError> {
    vec![in alloc; 0; count]
}

// An object of edition three with 787,455 data words, which fills 12,304 pages.
fn long_object(alloc: Global) -> Option<MarkedHeap> {
    let mut words = zeros(alloc, 787_456).ok()?;
    if let Some(word) = words.first_mut() {
        *word = 0x8000_0000_000c_03ff;
    }
    heap_of(alloc, Edition::Three, &words, &[0], &[])
}

#[test]
fn next_heap_of_edition_three_has_more_pages(rt: HostRuntime) {
    let alloc = rt.alloc();
    let first = long_object(alloc).expect(&rt, "a heap");
    let left = ran(&rt, alloc, first, b"", 1, 4_081);
    let next = follow(&rt, alloc, left, &[0]);
    expect_eq(&rt, At::new("words", 16_385), next.words().len(), 1_048_640);
    expect_eq(&rt, At::new("edition", 0), next.edition(), Edition::Three);
}

// The fault of the next heap with these marks after the three objects in edition three, or `None`.
fn fault_of(
    rt: &(impl Abort + Threads + Sync),
    alloc: Global,
    marks: &[u32],
) -> Option<LayoutFault> {
    let first = worked_heap(alloc, Worked::Mixed).expect(rt, "a heap");
    match followed(rt, alloc, ran(rt, alloc, first, b"", 1, 0), marks) {
        Ok(_heap) => None,
        Err(left) => Some(left.fault),
    }
}

#[test]
fn next_heap_of_edition_three_has_more_marks(rt: HostRuntime) {
    let alloc = rt.alloc();
    // The marks do not rise, which is checked after their number.
    let marks = vec![in alloc; 0; 1_048_577].expect(&rt, "marks");
    let found = fault_of(&rt, alloc, &marks);
    let wanted = Some(LayoutFault::MarksNotRising(0));
    expect_eq(&rt, At::new("not rising", 1_048_577), found, wanted);
    expect_eq(
        &rt,
        At::new("marks", 2),
        fault_of(&rt, alloc, &[0, 4]),
        None,
    );
}

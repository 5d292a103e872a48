//! The heap of the three objects through two cycles, with values worked out by hand.
use crate::lives::live_twice;
use std::process::Abort;
use test_support::{F, T, Worked, worked_heap};

// In each cycle the first object slides to page 0 at 0, and the last one, which refers to it, to 2. At the end of the
// second cycle the root refers to the first object, so that one alone is marked. The words of the other one stay.
const WORDS: [u64; 4] = [4_295_032_832, 11, 12_884_901_889, 4_294_967_296];

fn expect_a_life(rt: &impl Abort, alloc: std::alloc::Global) {
    let heap = worked_heap(alloc, Worked::Three).expect(rt, "a heap");
    let last = live_twice(alloc, heap, &[T + 2], &[T]).expect(rt, "the last heap");
    assert_eq!(rt; last.roots(), [F].as_slice());
    assert_eq!(rt; last.marks(), [0u32].as_slice());
    let words = last.words();
    assert_eq!(rt; words.len(), 192);
    for (index, word) in words.iter().enumerate() {
        assert_eq!(rt; *word, WORDS.get(index).copied().unwrap_or(0));
    }
}

#[test]
fn three_objects_live_through_two_cycles(rt: HostRuntime) {
    expect_a_life(&rt, rt.alloc());
}

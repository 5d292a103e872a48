//! Why heaps of edition three are refused: objects of many fields, and the most roots.
use crate::expected::expect_eq;
use heap_layout::{Edition, LayoutFault};
use std::alloc::{AllocError, Global};
use std::process::Abort;
use test_support::{At, F, judged};

// A heap whose one mark is 0: the number of its words, those of them that are not 0, each with its index, and the first
// fault, or `None`.
struct LargeHeap(usize, &'static [(usize, u64)], Option<LayoutFault>);

const PAST_END: Option<LayoutFault> = Some(LayoutFault::ObjectPastEnd(0));

const TOO_LONG: Option<LayoutFault> = Some(LayoutFault::ObjectTooLong(0));

// Headers of 69,999 references, data words and weak words.
const REFERENCES: u64 = 0x4000_0000_0001_116f;

const DATA: u64 = 0x8000_0000_0001_116f;

const WEAK: u64 = 0xc000_0000_0001_116f;

// The last field of these objects.
const LAST: usize = 69_999;

static LARGE: [LargeHeap; 31] = [
    // An object that fills the words, and one that is one word longer.
    LargeHeap(70_000, &[(0, REFERENCES)], None),
    LargeHeap(70_000, &[(0, DATA)], None),
    LargeHeap(70_000, &[(0, WEAK)], None),
    LargeHeap(70_000, &[(0, REFERENCES + 1)], PAST_END),
    LargeHeap(70_000, &[(0, DATA + 1)], PAST_END),
    LargeHeap(70_000, &[(0, WEAK + 1)], PAST_END),
    LargeHeap(69_999, &[(0, REFERENCES)], PAST_END),
    LargeHeap(69_999, &[(0, DATA)], PAST_END),
    LargeHeap(69_999, &[(0, WEAK)], PAST_END),
    // The other fields of the same forms: 65,536 of them.
    LargeHeap(65_537, &[(0, 0x4000_8000_0000_0000)], None),
    LargeHeap(65_537, &[(0, 0x8000_8000_0000_0000)], None),
    LargeHeap(65_537, &[(0, 0xc000_8000_0000_0000)], None),
    LargeHeap(65_536, &[(0, 0x4000_8000_0000_0000)], PAST_END),
    LargeHeap(65_536, &[(0, 0x8000_8000_0000_0000)], PAST_END),
    LargeHeap(65_536, &[(0, 0xc000_8000_0000_0000)], PAST_END),
    // An object of 2,147,483,648 words, and of one word more, and the largest header.
    LargeHeap(1, &[(0, 0x4000_0000_7fff_ffff)], PAST_END),
    LargeHeap(1, &[(0, 0x8000_0000_7fff_ffff)], PAST_END),
    LargeHeap(1, &[(0, 0xc000_0000_7fff_ffff)], PAST_END),
    LargeHeap(1, &[(0, 0x4000_0000_ffff_ffff)], TOO_LONG),
    LargeHeap(1, &[(0, 0x8000_0000_ffff_ffff)], TOO_LONG),
    LargeHeap(1, &[(0, 0xc000_0000_ffff_ffff)], TOO_LONG),
    LargeHeap(1, &[(0, u64::MAX)], TOO_LONG),
    // Mixed headers: one field of each kind, and the most.
    LargeHeap(4, &[(0, 0x3fff_0001_0001_0001)], None),
    LargeHeap(3, &[(0, 0x3fff_0001_0001_0001)], PAST_END),
    LargeHeap(1, &[(0, 0x3fff_ffff_ffff_ffff)], PAST_END),
    // The last field leads to its own object, or into it.
    LargeHeap(70_000, &[(0, REFERENCES), (LAST, F)], None),
    LargeHeap(
        70_000,
        &[(0, REFERENCES), (LAST, F + 1)],
        Some(LayoutFault::UnmarkedTarget(69_999)),
    ),
    LargeHeap(70_000, &[(0, WEAK), (LAST, F)], None),
    LargeHeap(
        70_000,
        &[(0, WEAK), (LAST, F + 1)],
        Some(LayoutFault::BadWeak(69_999)),
    ),
    LargeHeap(70_000, &[(0, DATA), (LAST, F + 1)], None),
    // Far beyond the words, at an address that the largest heap has.
    LargeHeap(
        70_000,
        &[(0, WEAK), (LAST, F + 2_147_483_647)],
        Some(LayoutFault::BadWeak(69_999)),
    ),
];

// A list of `count` zeros.
fn zeros(alloc: Global, count: usize) -> Result<Vec<u64>, AllocError> {
    vec![in alloc; 0; count]
}

// The words of a heap.
fn words_of(alloc: Global, large: &LargeHeap) -> Result<Vec<u64>, AllocError> {
    let LargeHeap(count, changes, _) = large;
    let mut words = zeros(alloc, *count)?;
    for (at, word) in *changes {
        if let Some(place) = words.get_mut(*at) {
            *place = *word;
        }
    }
    Ok(words)
}

// Checks the first fault of a heap of edition three.
fn expect_fault(
    rt: &impl Abort,
    alloc: Global,
    at: At,
    words: &[u64],
    marks: &[u32],
    roots: &[u64],
    wanted: Option<LayoutFault>,
) {
    let heap = judged(alloc, Edition::Three, words, marks, roots);
    let found = heap.expect(rt, "memory for a heap").err();
    expect_eq(rt, at, found, wanted);
}

#[test]
fn a_heap_of_large_objects_is_refused_for_its_first_fault(rt: HostRuntime) {
    let alloc = rt.alloc();
    for (row, large) in LARGE.iter().enumerate() {
        let words = words_of(alloc, large).expect(&rt, "memory for words");
        let at = At::new("a large object", row);
        expect_fault(&rt, alloc, at, &words, &[0], &[], large.2);
    }
}

// Numbers of words, of marks and of null roots of a heap whose objects have one word each, and the first fault.
struct ManyWords(usize, u32, usize, Option<LayoutFault>);

static MANY: [ManyWords; 5] = [
    ManyWords(1_048_577, 0, 0, None),
    ManyWords(1_048_577, 1_048_577, 0, None),
    ManyWords(0, 0, 4_097, None),
    ManyWords(0, 0, 1_048_576, None),
    ManyWords(0, 0, 1_048_577, Some(LayoutFault::TooLarge)),
];

// The marks 0, 1, .., this many.
fn marks_of(alloc: Global, count: u32) -> Result<Vec<u32>, AllocError> {
    let mut marks = Vec::new(alloc);
    for mark in 0..count {
        marks.push(mark)?;
    }
    Ok(marks)
}

#[test]
fn edition_three_takes_more_words_marks_and_roots(rt: HostRuntime) {
    let alloc = rt.alloc();
    for (row, ManyWords(words, marks, roots, wanted)) in MANY.iter().enumerate() {
        let words = zeros(alloc, *words).expect(&rt, "memory for words");
        let marks = marks_of(alloc, *marks).expect(&rt, "memory for marks");
        let roots = zeros(alloc, *roots).expect(&rt, "memory for roots");
        let at = At::new("many", row);
        expect_fault(&rt, alloc, at, &words, &marks, &roots, *wanted);
    }
}

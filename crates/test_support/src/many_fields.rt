//! Heaps of edition three: objects with many fields of one kind, and many roots; and one of edition four.
use crate::heaps::{F, heap_of, weak_words};
use heap_layout::{Edition, FIRST_IMMEDIATE, MarkedHeap};
use std::alloc::{AllocError, Global};

/// The header of an object with 70,000 references, 2 data words and tag 1.
pub const MANY_REFERENCES: u64 = 0x4001_0001_0001_1170;

/// The header of an object with 70,000 data words, 1 reference and tag 2.
pub const MANY_DATA: u64 = 0x8002_0000_8001_1170;

/// The header of an object with 70,000 weak words, 1 data word and tag 3.
pub const MANY_WEAK: u64 = 0xc003_0000_8001_1170;

// The words of the three objects that are not 0, each with its index. Of the references number 0 and the last lead to
// the object with many data words, number 65,535 to the one with many weak words, and number 65,536 to their own
// object. Of the weak words number 0 and number 65,536 lead to the object of one word before all others, which is not
// marked.
static OBJECTS: [(usize, u64); 19] = [
    (1, MANY_REFERENCES),
    (2, F + 70_004),
    (65_537, F + 140_006),
    (65_538, F + 1),
    (70_001, F + 70_004),
    (70_002, 5),
    (70_003, 6),
    (70_004, MANY_DATA),
    (70_005, F + 1),
    (70_006, 10),
    (135_541, 11),
    (135_542, 12),
    (140_005, 13),
    (140_006, MANY_WEAK),
    (140_007, F),
    (205_542, F + 70_004),
    (205_543, F),
    (210_006, F + 1),
    (210_007, 14),
];

// The roots that are not null, each with its number.
static FAR_ROOTS: [(usize, u64); 2] = [(65_536, F + 5), (69_999, F + 5)];

// A list of `count` zeros.
fn zeros(alloc: Global, count: usize) -> Result<Vec<u64>, AllocError> {
    vec![in alloc; 0; count]
}

// Puts these words at these indices.
fn put(words: &mut [u64], changes: &[(usize, u64)]) {
    for (at, word) in changes {
        if let Some(place) = words.get_mut(*at) {
            *place = *word;
        }
    }
}

/// An object of one word that is not marked, and three objects of 70,003, 70,002 and 70,002 words: one with 70,000
/// references, one with 70,000 data words and one with 70,000 weak words.
pub fn many_fields(alloc: Global) -> Option<MarkedHeap> {
    let mut words = zeros(alloc, 210_008).ok()?;
    put(&mut words, &OBJECTS);
    heap_of(
        alloc,
        Edition::Three,
        &words,
        &[1, 70_004, 140_006],
        &[F + 1, 0, F + 140_006],
    )
}

/// The three objects of `weak_words` in edition three, in which their words mean the same. The root refers to the last.
pub fn mixed(alloc: Global) -> Option<MarkedHeap> {
    heap_of(alloc, Edition::Three, &weak_words(), &[0, 5], &[F + 5])
}

/// The three objects of `weak_words` in edition four. One root refers to the last, the other is the immediate with
/// payload 5.
pub fn immediates(alloc: Global) -> Option<MarkedHeap> {
    let roots = [F + 5, FIRST_IMMEDIATE + 5];
    heap_of(alloc, Edition::Four, &weak_words(), &[0, 5], &roots)
}

/// The three objects of `weak_words` in edition three with this many roots. Number 65,536 and number 69,999 refer to
/// the last object; all others are null.
pub fn many_roots(alloc: Global, count: u32) -> Option<MarkedHeap> {
    let mut roots = zeros(alloc, count as usize).ok()?;
    put(&mut roots, &FAR_ROOTS);
    heap_of(alloc, Edition::Three, &weak_words(), &[0, 5], &roots)
}

//! Small heaps, with the words that a person reads off.
use heap_layout::{Edition, FROM_SPACE as F, Header};
use std::alloc::Global;
use young_heap::OldTables;

/// The header of an object with a reference and a data word.
pub fn pair(tag: u32) -> u64 {
    Header::new(1, 1, tag).word()
}

/// The header of an object with one reference and one weak word, in edition two.
pub fn link() -> u64 {
    Header::new_weak(1, 1, 0, 0).word()
}

/// Five pairs, at 0, 3, 6, 9 and 12. The one at 3 leads to the one at 12, which leads to the one at 0. Nothing leads to
/// those at 6 and 9 but they to each other.
pub fn five() -> [u64; 15] {
    [
        pair(1),
        0,
        11,
        pair(2),
        F + 12,
        22,
        pair(3),
        F + 9,
        33,
        pair(4),
        F + 6,
        44,
        pair(5),
        F,
        55,
    ]
}

/// The same five, in edition two; the second one has a weak word in place of its reference.
pub fn five_with_a_weak_word() -> [u64; 15] {
    let mut words = five();
    for k in 0..5 {
        words[3 * k] = Header::new_weak(1, 0, 1, 0).word();
    }
    words[3] = Header::new_weak(0, 1, 1, 0).word();
    words
}

/// The tables of the five when two pairs are old, at 0 and 3; the one at 3 leads to the one at 12, which is young, as
/// are those at 6 and 9.
pub fn six_are_old(alloc: Global) -> Option<OldTables> {
    let mut tables = OldTables::reserve(alloc, 15).ok()?;
    let mut before = five();
    before[4] = F;
    let mut roots = [F + 3];
    tables
        .collect_all(Edition::One, &mut before, &mut roots)
        .ok()?;
    Some(tables)
}

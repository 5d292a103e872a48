//! Small heaps, with the words that a person reads off.
use heap_layout::{FROM_SPACE as F, Header};

/// The header of an object with a reference and a data word.
pub fn pair(tag: u32) -> u64 {
    Header::new(1, 1, tag).word()
}

/// Five pairs, at 0, 3, 6, 9 and 12. The one at 6 leads to the one at 12, and that one to the one at 3.
pub fn five() -> [u64; 15] {
    [
        pair(1),
        0,
        11,
        pair(2),
        0,
        22,
        pair(3),
        F + 12,
        33,
        pair(4),
        0,
        44,
        pair(5),
        F + 3,
        55,
    ]
}

/// Eight pairs, at 0, 3, 6, .. 21. Those at 0, 9 and 18 are dead; the references of the others cross the pins at 6 and
/// 15.
pub fn eight() -> [u64; 24] {
    [
        pair(1),
        0,
        11,
        pair(2),
        F + 21,
        22,
        pair(3),
        F + 12,
        33,
        pair(4),
        0,
        44,
        pair(5),
        F + 3,
        55,
        pair(6),
        0,
        66,
        pair(7),
        F,
        77,
        pair(8),
        F + 12,
        88,
    ]
}

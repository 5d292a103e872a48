//! Heaps of five objects, with the words that a person reads off.
use heap_layout::{FROM_SPACE as F, Header};

/// Five objects of edition two. That at 0 has a data word and is not reached. That at 2 has a reference to itself, one
/// to the object at 10, a weak word for the object at 0 and one for that at 8. That at 8 has one word and is not
/// reached but by a root. That at 9 is not reached. That at 10 has a data word, which is the last word.
pub fn five() -> [u64; 12] {
    [
        Header::new_weak(0, 0, 1, 1).word(),
        11,
        Header::new_weak(2, 2, 1, 2).word(),
        F + 2,
        F + 10,
        F,
        F + 8,
        F + 2,
        Header::new_weak(0, 0, 0, 3).word(),
        Header::new_weak(0, 0, 0, 4).word(),
        Header::new_weak(0, 0, 1, 5).word(),
        0,
    ]
}

/// What the roots 0, F + 8 and F + 2 leave of them.
pub fn three() -> [u64; 9] {
    [
        Header::new_weak(2, 2, 1, 2).word(),
        F,
        F + 7,
        0,
        F + 6,
        F + 2,
        Header::new_weak(0, 0, 0, 3).word(),
        Header::new_weak(0, 0, 1, 5).word(),
        0,
    ]
}

/// A at 0 has two references, to B and null. B at 3 has one, to C, and a data word. C at 6 has a data word. D at 8 has
/// a reference to E. E at 10 has a data word.
pub fn row() -> [u64; 12] {
    [
        Header::new_weak(2, 0, 0, 1).word(),
        F + 3,
        0,
        Header::new_weak(1, 0, 1, 2).word(),
        F + 6,
        9,
        Header::new_weak(0, 0, 1, 3).word(),
        8,
        Header::new_weak(1, 0, 0, 4).word(),
        F + 10,
        Header::new_weak(0, 0, 1, 5).word(),
        7,
    ]
}

//! The heaps of the tests, encoded by hand.
use heap_layout::{Edition, Header, LayoutFault, MarkedHeap};
pub use heap_layout::{FROM_SPACE as F, TO_SPACE as T};
use std::alloc::{AllocError, Global};

/// Three objects. The first and the last are marked.
pub fn three_words() -> [u64; 7] {
    [
        Header::new(0, 1, 1).word(),
        11,
        Header::new(1, 1, 2).word(),
        0,
        22,
        Header::new(1, 0, 3).word(),
        F,
    ]
}

/// Three objects of edition two. The first and the last are marked. The first has two weak words, which name the other
/// two objects, and a data word; the last refers to the first.
pub fn weak_words() -> [u64; 7] {
    [
        Header::new_weak(0, 2, 1, 1).word(),
        F + 4,
        F + 5,
        9,
        Header::new_weak(0, 0, 0, 2).word(),
        Header::new_weak(1, 0, 0, 3).word(),
        F,
    ]
}

/// The heap of these parts, or the fault that refuses it.
pub fn judged(
    alloc: Global,
    edition: Edition,
    words: &[u64],
    marks: &[u32],
    roots: &[u64],
) -> Result<Result<MarkedHeap, LayoutFault>, AllocError> {
    Ok(MarkedHeap::from_parts_of(
        edition,
        words.to_vec(alloc)?,
        marks.to_vec(alloc)?,
        roots.to_vec(alloc)?,
    ))
}

/// The heap of these parts, or `None` if it is refused or memory runs out.
pub fn heap_of(
    alloc: Global,
    edition: Edition,
    words: &[u64],
    marks: &[u32],
    roots: &[u64],
) -> Option<MarkedHeap> {
    judged(alloc, edition, words, marks, roots).ok()?.ok()
}

/// The heap of edition one of these parts, or `None` if it is refused or memory runs out.
pub fn heap(alloc: Global, words: &[u64], marks: &[u32], roots: &[u64]) -> Option<MarkedHeap> {
    heap_of(alloc, Edition::One, words, marks, roots)
}

/// The three objects. The root refers to the last.
pub fn three(alloc: Global) -> Option<MarkedHeap> {
    heap(alloc, &three_words(), &[0, 5], &[F + 5])
}

/// The three objects of edition two. The root refers to the last.
pub fn weak(alloc: Global) -> Option<MarkedHeap> {
    heap_of(alloc, Edition::Two, &weak_words(), &[0, 5], &[F + 5])
}

/// An object without references whose data words count from 1.
pub fn counting_object(alloc: Global, data_words: u16) -> Result<Vec<u64>, AllocError> {
    let mut words = vec![in alloc; Header::new(0, data_words, 0).word()]?;
    for k in 0..data_words {
        words.push(u64::from(k) + 1)?;
    }
    Ok(words)
}

/// A heap of that object alone, marked.
pub fn counting_heap(alloc: Global, data_words: u16) -> Option<MarkedHeap> {
    heap(alloc, &counting_object(alloc, data_words).ok()?, &[0], &[])
}

/// An object without references whose data words are 0.
pub fn zeros_object(alloc: Global, data_words: u16) -> Result<Vec<u64>, AllocError> {
    let mut words = vec![in alloc; Header::new(0, data_words, 0).word()]?;
    for _ in 0..data_words {
        words.push(0)?;
    }
    Ok(words)
}

/// A heap of that object alone, marked.
pub fn zeros_heap(alloc: Global, data_words: u16) -> Option<MarkedHeap> {
    heap(alloc, &zeros_object(alloc, data_words).ok()?, &[0], &[])
}

/// The smallest heap: one object of one word, which the root refers to.
pub fn smallest(alloc: Global) -> Option<MarkedHeap> {
    heap(alloc, &[Header::new(0, 0, 7).word()], &[0], &[F])
}

/// The empty heap.
pub fn empty(alloc: Global) -> Option<MarkedHeap> {
    heap(alloc, &[], &[], &[])
}

/// An object of one word and one of 1,024 words, both marked. The last word alone is on page 16.
pub fn seventeen_pages(alloc: Global) -> Option<MarkedHeap> {
    let mut words = counting_object(alloc, 1_023).ok()?;
    words.insert(0, 0).ok()?;
    heap(alloc, &words, &[0, 1], &[])
}

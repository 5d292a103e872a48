//! Heaps of the tests, and words of objects with very many fields.
use crate::expected::expect_so;
use heap_layout::{FROM_SPACE as F, Header};
use std::alloc::AllocError;
use std::process::Abort;
use test_support::At;

/// Three objects of edition one. That at 0 has a data word; that at 2 leads to itself and to nothing; that at 5 leads
/// to the first.
pub fn three() -> [u64; 7] {
    [
        Header::new(0, 1, 1).word(),
        11,
        Header::new(2, 0, 2).word(),
        F + 2,
        0,
        Header::new(1, 0, 3).word(),
        F,
    ]
}

/// Three objects of edition two. That at 0 has a reference to the one at 4 and a weak word for the one at 3.
pub fn weak() -> [u64; 5] {
    [
        Header::new_weak(1, 1, 0, 1).word(),
        F + 4,
        F + 3,
        Header::new_weak(0, 0, 0, 2).word(),
        Header::new_weak(0, 0, 0, 3).word(),
    ]
}

/// Adds the header of an object of edition three with these counts.
pub fn push_header(
    rt: &impl Abort,
    words: &mut Vec<u64>,
    refs: u32,
    weak: u32,
    data_words: u32,
) -> Result<(), AllocError> {
    let header = Header::of_large_counts(refs, weak, data_words, 1);
    expect_so(
        rt,
        At::new("there is such a header", words.len()),
        header.is_some(),
    );
    if let Some(header) = header {
        words.push(header.word())?;
    }
    Ok(())
}

/// Adds this word so many times.
pub fn push_words(words: &mut Vec<u64>, count: u32, word: u64) -> Result<(), AllocError> {
    for _ in 0..count {
        words.push(word)?;
    }
    Ok(())
}

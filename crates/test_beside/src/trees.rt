//! Heaps that are trees.
use heap_layout::{FROM_SPACE as F, Header};
use std::alloc::{AllocError, Global};
use std::mem::replace;

/// A tree of so many objects of three words. Object `i` leads to the objects 2i + 1 and 2i + 2, if there are such.
pub fn tree(alloc: Global, count: u64) -> Result<Vec<u64>, AllocError> {
    let mut words = Vec::new(alloc);
    for i in 0..count {
        words.push(Header::new(2, 0, 0).word())?;
        for more in 1..3u64 {
            let child = i.wrapping_mul(2).wrapping_add(more);
            let at = F.wrapping_add(child.wrapping_mul(3));
            words.push(if child < count { at } else { 0 })?;
        }
    }
    Ok(words)
}

/// Puts another word at index `i`. Answers the one that was there, or 0 if there is none.
pub fn put_word(words: &mut [u64], i: usize, word: u64) -> u64 {
    match words.get_mut(i) {
        Some(at) => replace(at, word),
        None => 0,
    }
}

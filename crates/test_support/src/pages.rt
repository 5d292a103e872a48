//! The words of pages.

/// The words of a page that begins with these and has zeros after them. Words after the first 64 are left out.
pub fn page_words(begin: &[u64]) -> [u64; 64] {
    let mut words = [0; 64];
    for offset in 0..64 {
        words[offset] = begin.get(offset).copied().unwrap_or(0);
    }
    words
}

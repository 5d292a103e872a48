//! Free words between objects.

/// Words that no object has: from index `start` on, up to index `end`, which is not one of them.
#[derive(Clone, Copy)]
pub struct Run {
    pub start: u64,
    pub end: u64,
}

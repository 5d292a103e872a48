//! What a handle has of the marking of a heap by many threads.
use mark_job::{Marking, Met};
use std::sync::Arc;

/// A share of a marking, and what its handle knows of it.
#[derive(Drop)]
pub struct Marker {
    /// The marking.
    pub marking: Arc<Marking>,
    /// The objects of which the handle knows that they were met.
    pub met: Met,
}

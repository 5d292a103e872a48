//! The marker: it marks exactly the objects that the roots of a heap reach. It is a plain tracing marker. A queue has
//! the objects that were met, in the order in which they were met, as in Cheney's algorithm; the references of each are
//! looked at once (Jones, Hosking, Moss, The Garbage Collection Handbook, chapter 2).
//! Several threads may look up what the objects in the queue lead to; the marks are then the same.
#![tactic(auto)]

mod bits;
mod found;
mod heaps;
mod laws;
mod marker;
mod marks;
mod queue;
mod rounds;
mod row;
mod walks;

pub use heaps::{
    reachable_heap, reachable_heap_by_threads, remarked_heap, remarked_heap_by_threads,
};
pub use laws::{reachable_are_least, reachable_marks_are_sound, reachable_once};
pub use marker::reachable_marks;
pub use rounds::reachable_marks_by_threads;

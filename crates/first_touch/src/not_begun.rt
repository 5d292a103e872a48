//! Why a slide is not begun.
use std::sync::Arc;
use stopped_heap::Places;

/// Why a slide is not begun: the first of these that is so.
#[derive(Clone, Copy, Debug, PartialEq, Eq)]
pub enum BeginFault {
    /// A page has no words.
    NoSize,
    /// To-space has not as many words as slide, which are these. Turns are never refused so.
    OtherRoom(u64),
    /// An allocation failed.
    OutOfMemory,
}

/// A refusal of `Desk::begin`: why, and what the survey found, which comes back. Nothing was written.
#[derive(Drop)]
pub struct NotBegun {
    pub fault: BeginFault,
    pub places: Places,
}

/// A refusal of `Turns::begin`: why, and the share of what the survey found, which comes back.
#[derive(Drop)]
pub struct NotBegunTurns {
    pub fault: BeginFault,
    pub places: Arc<Places>,
}

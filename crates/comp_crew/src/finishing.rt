//! The end of a crew.
mod calls;
mod counts;
mod next;

use crate::bench::Bench;
use crate::fault::FinishFault;
pub use calls::finish;
use comp_cycles::Finished;
pub use next::NotFollowed;
use page_plan::Plan;
use std::sync::Arc;

/// A finished heap, and the plan of the heap that was compacted.
#[derive(Drop)]
pub struct Ended {
    pub(crate) plan: Arc<Plan>,
    pub(crate) finished: Finished,
}

/// A crew that was not finished: the fault, and the crew.
#[derive(Drop)]
pub struct Unfinished {
    /// Why the crew was not finished.
    pub fault: FinishFault,
    /// The crew with all the hands that it had.
    pub bench: Bench,
}

use crate::text::TraceFault;
use heap_layout::LayoutFault;
use thiserror::Error;

/// Why cycles were not run to their end. Cycles are counted from 0.
#[derive(Clone, Copy, Debug, PartialEq, Eq, Error)]
pub enum CycleFault {
    /// The next heap after this cycle is refused. The layout fault is the first fault of that heap, or `OutOfMemory`.
    #[error("Y1 NotMarked({0}, {1})")]
    NotMarked(u64, LayoutFault),
    /// A line of this cycle's trace was refused, or memory ran out for the values of its lines.
    #[error("Y2 Stopped({0}, {1})")]
    Stopped(u64, TraceFault),
    /// Out of memory for this cycle's plan, its flip or its finish, or for a copy of the marks that were handed in
    /// after it. At cycle 0 also for the list of all values.
    #[error("Y3 OutOfMemory({0})")]
    OutOfMemory(u64),
}

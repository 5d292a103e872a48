//! Runs cycles one after the other by one thread, with a trace over each.

mod cycle;
mod fault;
mod marking;
mod replaying;
mod roots;

pub use cycle::run_cycle;
pub use fault::CycleFault;
pub use marking::{Marking, next_marked};
pub use replaying::{CyclesRun, CyclesStopped, replay_cycles, replay_marked};
pub use roots::root_words;

//! Runs of traces by one thread, and laws about them.

mod laws;
mod replaying;
mod running;
mod texts;

pub use laws::{refusals_are_of_runs, replays_show_once, runs_are_determined};
pub use replaying::{Replayed, Stopped, replay, replay_registers};
pub use running::{Halt, Ran, run_over};
pub use texts::replay_text;

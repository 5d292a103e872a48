//! Races: the mutators run their own lines of a trace side by side, and wait for busy pages.

mod chains;
mod racing;
mod runner;
mod waiting;

pub use racing::{NotRaced, Raced, Run, race};

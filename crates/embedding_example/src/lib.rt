//! An example of a runtime that compacts its heap while one mutator works and two sweep, and audits the result.
#![tactic(auto)]

mod cycle;
mod cycles;
#[cfg(test)]
mod one_cycle;
#[cfg(test)]
mod two_cycles;

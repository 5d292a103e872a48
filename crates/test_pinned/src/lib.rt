//! Collections of a heap at rest in which some objects stay where they are, compared with words that a person reads
//! off, and those by threads with those by one.
//!
//! The modules, by what they try:
//!
//! - `expected`, `left`, `small_heaps`: checks, what a collection left, and heaps of five and of eight objects.
//! - `around_pins`: collections around pins.
//! - `refusals`: what is refused.
//! - `by_threads`, `cut_heaps`: collections by threads, of eight objects and of words that are cut into four parts.
//! - `drawn_by_threads`: the same of heaps that are drawn.
#![tactic(auto)]

#[cfg(test)]
mod around_pins;
#[cfg(test)]
mod by_threads;
#[cfg(test)]
mod cut_heaps;
#[cfg(test)]
mod drawn_by_threads;
#[cfg(test)]
mod expected;
#[cfg(test)]
mod left;
#[cfg(test)]
mod refusals;
#[cfg(test)]
mod small_heaps;

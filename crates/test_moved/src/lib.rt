//! Small heaps whose objects moved, with the verdicts that a person reads off.
//!
//! The modules, by what they try:
//!
//! - `expected`, `verdicts`, `three_objects`: checks, and the heap that most of them judge.
//! - `lawful_moves`: what is accepted.
//! - `refused_moves`, `wrong_words`: what is refused.
//! - `weak_words`, `large_objects`: the later editions.
#![tactic(auto)]

#[cfg(test)]
mod expected;
#[cfg(test)]
mod large_objects;
#[cfg(test)]
mod lawful_moves;
#[cfg(test)]
mod refused_moves;
#[cfg(test)]
mod three_objects;
#[cfg(test)]
mod verdicts;
#[cfg(test)]
mod weak_words;
#[cfg(test)]
mod wrong_words;

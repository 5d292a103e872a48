//! Marks of heaps, compared with those that a person reads off, and by several threads with those by one.
//!
//! The modules, by what they try:
//!
//! - `expected`, `heaps`, `judged`: checks, heaps, and what the marker answers of one.
//! - `small_heaps`: heaps that a person worked out, the faults of some, and heaps that are marked anew.
//! - `large_heaps`: objects with very many fields, and the limits of each edition.
//! - `by_threads`: marks by several threads.
#![tactic(auto)]

#[cfg(test)]
mod by_threads;
#[cfg(test)]
mod expected;
#[cfg(test)]
mod heaps;
#[cfg(test)]
mod judged;
#[cfg(test)]
mod large_heaps;
#[cfg(test)]
mod small_heaps;

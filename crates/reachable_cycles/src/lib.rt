//! Cycles after which exactly the objects are marked that the roots reach.
#![tactic(auto)]

mod laws;
mod marking;
mod next;

pub use laws::{
    cycle_keeps_reachable, cycles_keep_reachable, next_heap_is_accepted, numbers_reach,
};
pub use next::{
    next_reachable, next_reachable_by_threads, next_reachable_with, next_reachable_with_by_threads,
};

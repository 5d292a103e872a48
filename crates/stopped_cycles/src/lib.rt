//! A collection of a heap at rest, in object numbers: it moves objects and changes nothing.
#![tactic(auto)]

mod laws;

pub use laws::{
    collected_in_object_numbers, pinned_in_object_numbers, words_of_no_object_are_zero,
};

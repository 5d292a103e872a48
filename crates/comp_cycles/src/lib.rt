//! Cycles that follow one another: the heap with which the next cycle begins, and the one history of all cycles.
#![tactic(auto)]

mod accepted;
mod drawn;
mod finished;
mod laws;
mod moving;
mod next_cycle;

pub use drawn::{cycle_is_numbered, cycles_are_one_story, root_is_changed, words_are_lowered};
pub use finished::Finished;
pub use laws::{
    addresses_are_low, finished_is_end, first_numbering, numbers_are_apart, one_chapter, one_life,
    one_writing, weak_words_lead,
};
pub use moving::{Moved, moved_words};
pub use next_cycle::{NotCycled, lowered_roots};

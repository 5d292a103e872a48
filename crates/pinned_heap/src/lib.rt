//! A collection of a heap at rest that leaves some objects where they are: those that a runtime has pinned, since words
//! of a C stack may be their addresses, or a system call fills their words. All others slide as ever, each behind the
//! one before it, in the order of their addresses. So nothing moves up, and the free words below the last live object
//! lie in runs, one right before each pinned object.
//!
//! The modules, in the order in which to read them:
//!
//! - `run`, `fault`: runs of free words, and why calls are refused.
//! - `pinning`: the bits of the objects that stay.
//! - `bases`, `placing`: where live words end after the slide, and where words lead.
//! - `listing`, `filling`: the runs of free words.
//! - `sliding`: the slide of a part of the words, around objects that stay.
//! - `cutting`, `parts`: where to cut words into parts, and threads that slide them.
//! - `pinned`: a survey's tables with objects that stay.
//! - `collecting`: a whole collection.
//! - `laws`: what follows of the places of objects.
#![tactic(auto)]

mod bases;
mod collecting;
mod cutting;
mod fault;
mod filling;
mod laws;
mod listing;
mod parts;
mod pinned;
mod pinning;
mod placing;
mod run;
mod sliding;

pub use collecting::{Collected, collect_pinned, collect_pinned_by_threads};
pub use fault::{CollectPinnedFault, PinFault};
pub use laws::{
    gaps_rise, nothing_moves_up, places_are_a_placement, places_are_sums, places_are_the_least,
    without_pins_all_slides, without_pins_in_place,
};
pub use pinned::Pinned;
pub use run::Run;

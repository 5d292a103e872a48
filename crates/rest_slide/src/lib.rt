//! Where what lives goes: the slide of a heap at rest, by the tables of what was marked.
//!
//! The modules, in the order in which to read them:
//!
//! - `sliding`: into another memory, a part of it at a time.
//! - `staying`, `sliding_down`: within the words; what stays is only led.
//! - `trying`: out of words that may have changed since they were marked.
#![tactic(auto)]

mod sliding;
mod sliding_down;
mod staying;
mod trying;

pub use sliding::slide_part;
pub use sliding_down::slide_down;
pub use trying::try_slide_part;

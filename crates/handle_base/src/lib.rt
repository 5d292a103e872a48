//! What C keeps: handles, the box of each, and what a call is answered. A handle is empty, or the pointer of a box.
//!
//! The modules, in the order in which to read them:
//!
//! - `answer`, `status`: what a call is answered.
//! - `parts`, `kept`, `handle`: the box of a handle; the one place of raw pointers.
//! - `marker`, `pages`: what is kept of a marking, and of a slide by first touch.
//! - `kinds`, `opening`: what is kept, by its kind; handles that are filled.
//! - `making`, `copying`: marked heaps, and lists that are copied to C.
#![tactic(auto)]

mod answer;
mod copying;
mod handle;
mod kept;
mod kinds;
mod making;
mod marker;
mod opening;
mod pages;
mod parts;
pub mod status;

pub use answer::Answer;
pub use copying::{copy_bytes, end_roots, mutator_roots};
pub use handle::Handle;
pub use kept::Kept;
pub use kinds::{
    as_end, as_growing, as_heap, as_job, as_lane, as_looks, as_marking, as_mutator, as_old,
    as_pages, as_plan, as_survey, into_crew, into_end, into_growing, into_heap, into_job,
    into_lane, into_looks, into_marking, into_mutator, into_pages, into_survey, into_tables,
};
pub use making::{copied_marks, put_heap, put_marked};
pub use marker::Marker;
pub use opening::{Opened, Turned, close, is_full, keep, open, settle};
pub use pages::{Has, Paging};

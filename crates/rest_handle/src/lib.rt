//! A heap at rest by its handles, in words that are lent.
//!
//! The modules, in the order in which to read them:
//!
//! - `resting`, `lending`, `pinning`, `by_bits`: a heap at rest, collected and surveyed.
//! - `young`, `raising`: its young collections, and a watermark that goes up with none.
//! - `helping`, `growing`, `guarding`: its marking by several threads, surveys that grow, and guardians.
#![tactic(auto)]

mod by_bits;
mod growing;
mod guarding;
mod helping;
mod lending;
mod pinning;
mod raising;
mod resting;
mod young;

pub use by_bits::{survey_by_bits, untaken};
pub use growing::{
    begin_growing, begin_growing_lent, grow, grow_by_values, keeps, return_growing, settle_growing,
};
pub use guarding::survey_guarded;
pub use helping::{begin_job, finish_job, help_job, live_words, share_job};
pub use lending::{
    collect_in_place_lent, collect_lent, reserve_tables, return_tables, survey_lent,
};
pub use pinning::collect_pinned;
pub use raising::raise_old;
pub use resting::{
    SurveyFacts, collect, collect_in_place, forward_survey, forward_weak, share_survey,
    slide_survey, survey_by_marks, survey_by_roots, survey_facts,
};
pub use young::{
    check_old, collect_aging, collect_all, collect_young, collect_young_by, reserve_old, watermark,
};

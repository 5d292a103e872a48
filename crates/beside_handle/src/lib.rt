//! What goes on beside the threads of a runtime, by handles: marks, and the slide by first touch.
//!
//! The modules, in the order in which to read them:
//!
//! - `looks`, `looking`, `lanes`: a marking by looks while threads go on, by one marker and several.
//! - `marking`: a marking by many threads, by words that are lent.
//! - `paging`, `touching`: the slide by first touch.
#![tactic(auto)]

mod lanes;
mod looking;
mod looks;
mod marking;
mod paging;
mod touching;

pub use lanes::{
    begin_lane, give_lane, join_lanes, look_lane, meet_lane, share_lane, take_lane, waiting_lane,
    whole_lane,
};
pub use looking::{look_again, look_rows, meet_looks};
pub use looks::{begin_looks, check_looks, finish_looks, waiting_looks};
pub use marking::{begin_marking, finish_marking, help_marking, meet_marking, share_marking};
pub use paging::{begin_pages, end_pages, share_pages};
pub use touching::{build_page, claim_page, publish_page};

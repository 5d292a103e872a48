//! What lives in a heap at rest: what its roots reach, or what marks of the caller's own say, in words, bits and queues
//! that are lent. Nothing here owns a table or starts a collection; stopped_heap does.
//!
//! The modules, in the order in which to read them:
//!
//! - `shape`, `bits`, `bit_search`, `runs`: what a header says, and bits of words.
//! - `block_offsets`, `starts`: how many bits stand before a block, and where its first object begins.
//! - `fault`: why something is refused.
//! - `queue`, `following`, `marking`: what the roots reach.
//! - `forwarding`, `given_marks`: where words lead afterwards; marks of the caller's own.
//! - `live_bits`, `lookups`, `asking`, `rounds`: the same by several threads.
//! - `looking_at`, `looking_rows`: objects that are handed in one by one while the threads of the heap go on.
//! - `claims`, `lane_meeting`, `lane_looking`, `lane_bits`: the same by several markers.
#![tactic(auto)]

mod asking;
mod bit_search;
mod bits;
mod block_offsets;
mod claims;
mod fault;
mod following;
mod forwarding;
mod given_marks;
mod lane_bits;
mod lane_looking;
mod lane_meeting;
mod live_bits;
mod looking_at;
mod looking_rows;
mod lookups;
mod marking;
mod queue;
mod rounds;
mod runs;
mod shape;
mod starts;

pub use bit_search::{last_head, next_set};
pub use bits::{first_unset, inverted, take_run};
pub use block_offsets::{offsets, put_offsets};
pub use claims::Claims;
pub use fault::{
    BitsFault, ByBitsFault, CheckFault, CollectFault, CollectLentFault, FinishFault, JoinFault,
    LentFault, LookFault, MarksFault, MarksLentFault, MeetFault, Missing, SlideFault, SurveyFault,
};
pub use following::{Ahead, WIDE};
pub use forwarding::{below, is_kept, settle_all, settled_reference, settled_weak};
pub use given_marks::{check_kept, leads_to, take_marks};
pub use lane_bits::{clear, first_common, first_missing, united};
pub use lane_looking::look_known;
pub use lane_meeting::meet_known;
pub use looking_at::{look_again_at, look_at};
pub use looking_rows::{look_each, row_at};
pub use marking::{mark, mark_in, mark_with, references, weak_words};
pub use queue::{Stop, check_leads, is_leading, meet_all};
pub use rounds::{MAX_WORKERS, mark_by_threads};
pub use runs::{bit_past, odd_word};
pub use shape::{Shape, shape_of};
pub use starts::{is_last_before, put_starts, starts_of};

//! A crew: mutators of one space, each of which owns a share of it. They have no ledger and take no lock: each counts
//! its own words. So a program that starts no thread of its own, as a library that C calls, can flip and finish a heap,
//! and its caller's threads make the calls.
#![tactic(auto)]

mod bench;
mod calls;
mod crew;
mod fault;
mod fields;
mod finishing;
mod flipping;
mod meeting;
mod member;

pub use bench::Bench;
pub use comp_access::{PageCopy, Refusal, Touched};
pub use comp_cycles::Finished;
pub use crew::Crew;
pub use fault::{CrewFault, FinishFault};
pub use finishing::{Ended, NotFollowed, Unfinished, finish};
pub use flipping::flip;
pub use member::Member;

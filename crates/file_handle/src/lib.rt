//! The files of a heap by its handles: images, dumps, verdicts, and what a person is told.
//!
//! The modules, in the order in which to read them:
//!
//! - `imaging`: images of marked heaps.
//! - `sizes`, `dumping`: dumps.
//! - `judging`, `telling`, `moves`: verdicts on dumps, what explains them, and what any other collector left.
#![tactic(auto)]

mod dumping;
mod imaging;
mod judging;
mod moves;
mod sizes;
mod telling;

pub use dumping::copy_dump_of;
pub use imaging::{read_image, write_image};
pub use judging::judge_dump;
pub use moves::judge_moved;
pub use telling::explain_dump;

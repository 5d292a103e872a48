//! What a caller can conclude from the contracts and the laws of these crates, and from nothing else: from the layout
//! of heaps up to the mutators, the sweep, traces, the audit and the program.
//!
//! The modules, by what they conclude:
//!
//! - `images`, `built`, `states`, `journals`: of an image, a page and its cell.
//! - `alone`, `copied`, `meetings`, `counted`, `swept`: of mutators, their ledger and the sweep.
//! - `bases`, `lives`, `audits`: of finished heaps, the next ones and their dumps.
//! - `replayed`, `memory`, `program`: of traces, commands and the program.
#![tactic(auto)]

mod alone;
mod audits;
mod bases;
mod built;
mod copied;
mod counted;
mod images;
mod journals;
mod lives;
mod meetings;
mod memory;
mod program;
mod replayed;
mod states;
mod swept;

pub use alone::{make_and_read, make_weak_and_read, write_seven_and_read, write_weak_and_read};
pub use audits::finish_and_audit;
pub use bases::finish_and_ask;
pub use built::build_twice;
pub use copied::{read_again, store_made, store_reference, touch_copied};
pub use counted::post_and_gather;
pub use images::place_marked;
pub use journals::write_entry_and_read;
pub use lives::next_twice_in_memory;
pub use meetings::read_after_meeting;
pub use memory::{race_in_memory, replay_in_memory};
pub use program::run_no_words;
pub use replayed::read_replay_and_finish;
pub use states::claim_and_load;
pub use swept::{flip_and_sweep, sweep_and_finish};

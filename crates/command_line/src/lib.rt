//! Reads the words of the command line: which task they ask for.
#![tactic(auto)]

mod arguments;
mod audit;
mod mapping;
mod next;
mod values;
mod words;

pub use audit::AuditRun;
pub use mapping::MapRun;
pub use next::{NextMarks, NextRun};
pub use words::{Task, TraceRun, VERSION_LINE, read_task};

//! Reads the texts of traces, of marks and of roots.

mod fault;
mod line;
mod marks;
mod name;
mod numbers;
mod parsing;
mod reading;
mod roots;
mod trace;

pub use fault::{RefusedLine, TraceFault};
pub use line::{Action, Line};
pub use marks::{MarksFault, read_marks};
pub use parsing::parse;
pub use roots::{NewRoot, RootsFault, read_roots};
pub use trace::Trace;

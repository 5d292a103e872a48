//! One line of a trace: what its mutator does, its registers, the values that it shows, and the rounds of meetings
//! around it.

mod acting;
mod gathering;
mod registers;
mod shown;
mod stepping;

pub use acting::act;
pub use gathering::meet_all;
pub use shown::{Shown, show};
pub use stepping::step;

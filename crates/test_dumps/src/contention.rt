//! The largest number of mutators, one a thread, that write to one page at once: what they leave, and its audit.

mod fights;
mod left_journals;
mod racing_writes;
mod whole_fight;

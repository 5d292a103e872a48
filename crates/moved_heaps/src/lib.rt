//! The judge of any collection that moves objects: copying, mark-compact in any order, evacuation by regions. It is
//! given a marked heap, and what the collection left: the new place of each marked object, the roots, and the words of
//! to-space. These can be read from a file.
//!
//! The modules, in the order in which to read them:
//!
//! - `moved_heap`, `reading`: what is judged, and how it is read.
//! - `fault`, `index`, `leading`: what may be wrong, and where words lead after the move.
//! - `head`, `places`, `overlaps`, `roots`, `whole`: the five checks.
//! - `judging`, `laws`: the judgement, and what follows of it.
#![tactic(auto)]

mod fault;
mod head;
mod index;
mod judging;
mod laws;
mod leading;
mod moved_heap;
mod overlaps;
mod places;
mod reading;
mod roots;
mod whole;

pub use fault::{HeadPart, MovedFault};
pub use judging::{Moves, judge};
pub use laws::{
    lawful_has_no_fault, moved_is_read_again, one_first_fault, same_in_object_numbers,
    sliding_is_lawful,
};
pub use moved_heap::MovedHeap;
pub use reading::read_moved;

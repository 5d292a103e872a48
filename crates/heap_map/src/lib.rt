//! The picture of a heap: from-space above and to-space below, as an SVG.
//!
//! The modules, in the order in which to read them:
//!
//! - `layout`, `laws`, `grid`, `frame`: which word goes to which cell, and where all stands.
//! - `palette`, `markup`: colours and text.
//! - `words`, `pages`: a heap in cells of words, and in cells of pages.
//! - `view`, `made`, `dumped`, `dumped_cells`, `faulty`: a dump so, with the fault that its audit found.
//! - `arrows`, `legend`, `drawing`: what leads where, the head, and the whole picture.
#![tactic(auto)]

mod arrows;
mod drawing;
mod dumped;
mod dumped_cells;
mod faulty;
mod frame;
mod grid;
mod laws;
mod layout;
mod legend;
mod made;
mod markup;
mod pages;
mod palette;
mod view;
mod words;

pub use drawing::draw;
pub use laws::words_have_cells_of_their_own;
pub use layout::{Cell, Scale};
pub use view::DumpView;

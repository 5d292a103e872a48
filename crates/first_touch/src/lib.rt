//! The slide of a heap at rest while its threads go on, by first touch: a page of to-space is built by whoever accesses
//! it first, and from then on mutators read and write its words by plain loads and stores. The algorithm is that of
//! Kermany and Petrank's Compressor (PLDI 2006), where to-space is protected and a trap builds the page. How the first
//! access is noticed is left to the runtime, which may also build pages ahead of all accesses.
//!
//! In a pause the heap is surveyed and the roots are forwarded. Then a slide is begun, in one of two ways:
//!
//! - A `Desk` borrows from-space, and to-space, which it cuts into pages. `touch` builds a page, which this thread then
//!   has alone, and `publish` says to all threads that it is home, and hands it out.
//! - `Turns` have nothing of either space. `claim` gives the right to build a page, `build` fills memory that the
//!   caller lends, out of words that the caller lends, and `publish` says that the page is home.
//!
//! `end` gives what the survey found back, once all pages are home. From-space is never written. At most one thread has
//! a page at a time, and a page that is home is never built again. If from-space is not as it was surveyed, a page may
//! be refused: the thread that had it puts it back, and it waits again. Only a page that was built is published. If a
//! `Built`, a `Turn` or a `Filled` is dropped, its page never comes home.
//!
//! Any threads may make these calls at the same time. `begin` allocates, and `end` frees. No other call allocates,
//! frees, takes a lock, waits for a thread, or tries a step again, so a handler of a signal may make them. It may not
//! wait there for a page that is busy, since the thread that it interrupts may be the one that has it.
//!
//! Only tested: that page k of a desk lies at its place in to-space.
//!
//! The modules, in the order in which to read them:
//!
//! - `not_begun`: why a slide is not begun.
//! - `source`: what slides.
//! - `rows`: to-space, cut into pages.
//! - `view`: what a thread knows.
//! - `rule`: the rule of the pages, and the atomic steps.
//! - `built`: pages that threads have, and what they know of pages.
//! - `pages`: the pages that threads share, a function for each step.
//! - `desk`: the desk, from its beginning to its end.
//! - `turn_view`, `turn_rule`: what a thread knows of turns, their rule, and the atomic steps.
//! - `turn`: turns that threads have, and what they know of pages.
//! - `turn_words`: the words of the turns, a function for each step.
//! - `turns`: the turns, from their beginning to their end.
//! - `laws`: what a page is, and what all pages are together.
#![tactic(auto)]

mod built;
mod desk;
mod laws;
mod not_begun;
mod pages;
mod rows;
mod rule;
mod source;
mod turn;
mod turn_rule;
mod turn_view;
mod turn_words;
mod turns;
mod view;

pub use built::{Built, Home, Published, Sight};
pub use desk::{Desk, Ended, NotBuilt, NotEnded, Refused};
pub use laws::{page_is_collected, pages_are_whole};
pub use not_begun::{BeginFault, NotBegun, NotBegunTurns};
pub use turn::{Filled, HomeTurn, Turn, TurnSight};
pub use turns::{AllHome, EndedTurns, NotEndedTurns, NotFilled, NotHad, NotHome, TurnFault, Turns};

//! A job that marks a heap at rest, by threads that the caller owns. The job starts no thread, and no call of it waits
//! for another thread. One thread begins the job. Then any threads call `Job::help` again and again, each as often as
//! it likes, until the answer is that all is done, and one thread finishes the job and takes out what was found.
//!
//! What is taken out is what one thread alone finds, whoever helped, in whatever order, and whoever stopped in the
//! middle. The job owns the words and the roots while it runs, so that nobody changes them. Whoever finishes it owns
//! it: a reference that a helper still has rules that out, and `Arc::try_unwrap` tells of it at run time.
//!
//! The work lies in 64 lanes. A lane is a row of objects that the roots reach. A helper takes a lane, looks up to which
//! objects the references of some of its objects lead, puts those behind, and gives the lane back; if many wait there,
//! it moves some into an empty lane. A lane is taken by one atomic step, which a helper tries once and does not repeat.
//! One bit a word says which objects are in a lane, so that each is put into one lane once.
//!
//! The rule that holds between any two atomic steps says that the roots reach the objects in the lanes. That these are
//! all is asked of the words when the job is finished: the roots, and the references of the objects that were met, must
//! lead to objects that were met. If not, the thread that finishes the job surveys the heap alone.
//!
//! A `Marking` copies no words: they are lent at each call, and nothing is believed of them between two calls. Its
//! helpers set two bits a word, of the first words of the objects that were met, and of all words of those at which
//! they looked, and its end takes these bits as `Places::of_bits` does. What the end would ask of the words, a slide by
//! `Places::try_slide` asks. So other threads may go on beside it, if they hand what they write over, and what is new,
//! to `Marking::meet`. The bits of the objects that were met only grow: this is the rule of their table, and a `Met` is
//! what a thread knows of it.
//!
//! The modules, in the order in which to read them:
//!
//! - `image`, `view`, `lane`, `rule`, `lanes`: the heap that a job owns, and lanes with the rule of their steps.
//! - `looking`, `help`, `desk`: what one helper does.
//! - `surveying`, `ended`, `job`: what was found, and the job from its beginning to its end.
//! - `met_view`, `heads`, `free_lanes`, `waiting`: what the helpers of a marking share.
//! - `following`, `marking_fault`, `marking`: what one of them does, and the marking from its beginning to its end.
//! - `laws`: what follows of the clauses.
#![tactic(auto)]

mod desk;
mod ended;
mod following;
mod free_lanes;
mod heads;
mod help;
mod image;
mod job;
mod lane;
mod lanes;
mod laws;
mod looking;
mod marking;
mod marking_fault;
mod met_view;
mod rule;
mod surveying;
mod view;
mod waiting;

pub use ended::{Ended, NotBegun};
pub use heads::Met;
pub use help::Help;
pub use job::Job;
pub use laws::found_is_one;
pub use marking::Marking;
pub use marking_fault::{MarkingEnd, MarkingFault, MeetFault, WrongLength};

//! What goes on beside the threads of a runtime: jobs and markings with which they help, and slides by first touch.
//! What comes out is compared with what one thread finds, and with what slides at once.
//!
//! The modules, by what they try:
//!
//! - `expected`, `trees`: checks, and the heaps of jobs and slides.
//! - `jobs`, `job_calls`, `lost_objects`: jobs; what their calls work, and answer; objects that are lost.
//! - `markings`, `marking_faults`: markings; refusals, and words that change.
//! - `slides`: what slides at once, and what may cross threads.
//! - `desks`, `turns`: pages of memory that a desk borrows, and of memory that is lent at each call.
#![tactic(auto)]

#[cfg(test)]
mod desks;
#[cfg(test)]
mod expected;
#[cfg(test)]
mod job_calls;
#[cfg(test)]
mod jobs;
#[cfg(test)]
mod lost_objects;
#[cfg(test)]
mod marking_faults;
#[cfg(test)]
mod markings;
#[cfg(test)]
mod slides;
#[cfg(test)]
mod trees;
#[cfg(test)]
mod turns;

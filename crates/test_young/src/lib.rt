//! Collections of what is young in a heap at rest, compared with words that a person reads off. The heaps are small: of
//! five objects mostly, and of 200 at most.
//!
//! The modules, by what they try:
//!
//! - `expected`, `small_heaps`: checks, and the heap of five objects.
//! - `collections`: collections of all, and young ones by cards.
//! - `weak_words`: weak words of old objects.
//! - `listed`: young collections by a list of words.
//! - `refusals`: what is refused, and what `check` finds.
//! - `parts`: the parts of a young collection, over slices of the caller's.
//! - `raising`: watermarks that are raised, and tables with more room than there are words.
//! - `surviving`: objects that are old once they have survived two collections.
#![tactic(auto)]

#[cfg(test)]
mod collections;
#[cfg(test)]
mod expected;
#[cfg(test)]
mod listed;
#[cfg(test)]
mod parts;
#[cfg(test)]
mod raising;
#[cfg(test)]
mod refusals;
#[cfg(test)]
mod small_heaps;
#[cfg(test)]
mod surviving;
#[cfg(test)]
mod weak_words;

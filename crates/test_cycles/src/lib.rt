//! Cycles, one after another: the next heap, its image, and refused marks, with expected values from outside; and
//! chains and long lives of pseudorandom cycles, compared with a plain model whose objects never move.
//!
//! The modules, by what they try:
//!
//! - `expected`, `plain_life`: checks, and the plain model.
//! - `next_heaps`, `three_objects`, `weak_words`, `images`, `limits`: the next heap and its image.
//! - `mark_texts`, `new_roots`, `reachable_marks`, `threads`: how it is marked.
//! - `past_cycles`, `random_chains`, `long_life`, `audited_cycles`: cycles in a row.
//! - `collected_in_three_ways`: a cycle beside collections at rest.
//! - `refused_memory`: memory that is refused.
#![tactic(auto)]

#[cfg(test)]
mod audited_cycles;
#[cfg(test)]
mod collected_in_three_ways;
#[cfg(test)]
mod expected;
#[cfg(test)]
mod images;
#[cfg(test)]
mod limits;
#[cfg(test)]
mod long_life;
#[cfg(test)]
mod mark_texts;
#[cfg(test)]
mod new_roots;
#[cfg(test)]
mod next_heaps;
#[cfg(test)]
mod past_cycles;
#[cfg(test)]
mod plain_life;
#[cfg(test)]
mod random_chains;
#[cfg(test)]
mod reachable_marks;
#[cfg(test)]
mod refused_memory;
#[cfg(test)]
mod threads;
#[cfg(test)]
mod three_objects;
#[cfg(test)]
mod weak_words;

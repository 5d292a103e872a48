//! Collections of a heap at rest, compared with what a person works out and with a plain model. The heaps are drawn:
//! between their objects lie words that are no objects, and an object that nothing reaches may be no object any more.
//!
//! The modules, by what they try:
//!
//! - `expected`, `plain_heap`, `drawing`: checks, the plain model, and heaps that are drawn.
//! - `small_heaps`, `five_collected`, `five_in_place`, `dense_prefix`: heaps of few objects that a person worked out.
//! - `worked_heaps`, `long_objects`: others, up to the limits of each edition.
//! - `parts_and_marks`, `changed_words`, `lent_tables`: the parts of a collection, and tables that are lent.
//! - `drawn_heaps`, `drawn_in_place`, `drawn_lent`, `drawn_surveys`: drawn heaps, collected in each way.
//! - `shared_heaps`, `shared_surveys`, `drawn_by_threads`, `often_by_threads`: surveys by threads.
//! - `refused_heaps`, `drawn_faults`, `drawn_changes`, `refused_memory`: refusals.
//! - `growing`, `growths`, `guarding`, `finalizing`: surveys that grow.
//! - `given_bits`, `looked_at`, `checked_looks`, `refused_looks`: bits of the caller's own, and markings by looks.
//! - `lanes`, `given_lanes`, `joined_lanes`: lanes of one marking.
#![tactic(auto)]

#[cfg(test)]
mod changed_words;
#[cfg(test)]
mod checked_looks;
#[cfg(test)]
mod dense_prefix;
#[cfg(test)]
mod drawing;
#[cfg(test)]
mod drawn_by_threads;
#[cfg(test)]
mod drawn_changes;
#[cfg(test)]
mod drawn_faults;
#[cfg(test)]
mod drawn_heaps;
#[cfg(test)]
mod drawn_in_place;
#[cfg(test)]
mod drawn_lent;
#[cfg(test)]
mod drawn_surveys;
#[cfg(test)]
mod expected;
#[cfg(test)]
mod finalizing;
#[cfg(test)]
mod five_collected;
#[cfg(test)]
mod five_in_place;
#[cfg(test)]
mod given_bits;
#[cfg(test)]
mod given_lanes;
#[cfg(test)]
mod growing;
#[cfg(test)]
mod growths;
#[cfg(test)]
mod guarding;
#[cfg(test)]
mod joined_lanes;
#[cfg(test)]
mod lanes;
#[cfg(test)]
mod lent_tables;
#[cfg(test)]
mod long_objects;
#[cfg(test)]
mod looked_at;
#[cfg(test)]
mod often_by_threads;
#[cfg(test)]
mod parts_and_marks;
#[cfg(test)]
mod plain_heap;
#[cfg(test)]
mod refused_heaps;
#[cfg(test)]
mod refused_looks;
#[cfg(test)]
mod refused_memory;
#[cfg(test)]
mod shared_heaps;
#[cfg(test)]
mod shared_surveys;
#[cfg(test)]
mod small_heaps;
#[cfg(test)]
mod worked_heaps;

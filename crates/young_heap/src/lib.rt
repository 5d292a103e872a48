//! A collection of what is young in a heap at rest. The words below a watermark, which earlier collections left, stay
//! where they are; what lives above slides down to them. Its cost is that of the young objects that live, of the roots,
//! and of the dirty cards: other old objects are neither marked nor moved nor read.
//!
//! It is the mark and slide of stopped_heap, whose mark bits are kept for old objects from one collection to the next
//! (sticky mark bits), and whose remembered words of old objects come from cards that a write barrier marks. Sliding
//! keeps objects in the order of their ages, so that one index divides the old ones from the young.
//!
//! The result is sliding compaction of the heap of which all old objects are marked, and above them what the roots and
//! the remembered words reach: what is said of collections holds of it. Old objects that no root reaches stay, and what
//! they lead to, until the next collection of all, which is one with watermark 0.
//!
//! `OldTables` is the way in: tables that are made once and know the watermark.
//!
//! - `OldTables::collect_all` collects all, and makes what lives old.
//! - `OldTables::collect_young` collects what is young, by cards, and makes what lives old. It requires nothing: what
//!   it believes of the mutator is a premise of what it says of the result.
//! - `OldTables::collect_young_by` does so by a list of words into which the mutator stored.
//! - `OldTables::collect_aging` collects as `collect_young` does, but an object becomes old only when it has survived
//!   two collections: what was allocated since the last one stays young. It makes the cards anew; just those are dirty
//!   that have a word of an old object that leads above.
//! - `OldTables::raise` collects nothing, and makes old all that lies below an index: in place of a young collection,
//!   where something young is pinned, and after a collection by which these tables did not go.
//! - `OldTables::check` says whether the mutator kept that, for debug builds.
//!
//! The parts, over slices that the caller keeps right:
//!
//! - `remember` finds the words of old objects that lead above, from the cards.
//! - `collect_above` collects by words that were found, in whatever way.
//! - `promote` makes the tables of the next watermark.
//! - `are_old` looks whether the words below a watermark are what a collection left.
//!
//! A collection leaves the premise of the next one. What a young one believes of mutators is that they change no header
//! of an old object, and mark the card of each reference and each weak word that they store there, or list the word.
//!
//! The modules, in the order in which to read them:
//!
//! - `shape`, `bits`, `finding`: what a header says, and runs of bits.
//! - `meeting`, `marking`: what the roots and the remembered words reach above.
//! - `forwarding`, `recounting`: where words lead after the collection.
//! - `sliding_down`, `sliding`: the slide, of one object and of all above.
//! - `collecting`: a collection by words that are remembered.
//! - `remembering`: these words, from cards.
//! - `promoting`: the tables afterwards.
//! - `young`: the whole collection.
//! - `listing`: the same by a list of words.
//! - `dirtying`: cards that are made anew.
//! - `aging`: a collection after which what was allocated since the last one is young still.
//! - `checking`: whether what it believes is so.
//! - `raising`: a watermark that goes up with no collection.
//! - `fault`, `old_tables`, `aging_tables`, `raised_tables`: the tables with a watermark, and their calls.
//! - `laws`: what follows of the clauses.
#![tactic(auto)]

mod aging;
mod aging_tables;
mod bits;
mod checking;
mod collecting;
mod dirtying;
mod fault;
mod finding;
mod forwarding;
mod laws;
mod listing;
mod marking;
mod meeting;
mod old_tables;
mod promoting;
mod raised_tables;
mod raising;
mod recounting;
mod remembering;
mod shape;
mod sliding;
mod sliding_down;
mod young;

pub use checking::are_old;
pub use collecting::collect_above;
pub use fault::{OldFault, RaiseFault, YoungFault};
pub use laws::{
    all_is_collected, collected_is_old, gathered_is_remembered, nothing_is_old, promoted_is_old,
    raised_is_clean, remembered_is_clean, stored_is_clean,
};
pub use old_tables::OldTables;
pub use promoting::promote;
pub use remembering::{CARD, remember};

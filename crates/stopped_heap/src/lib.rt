//! A collection of a heap at rest: while all threads of its runtime stand still. The heap lies in memory of the
//! caller, and so does the memory into which it slides, if it does not slide within its own; between two collections
//! the caller reads, writes and allocates there, with no call of this crate.
//!
//! A survey finds what the roots reach, or takes marks of the caller's own; then each live object slides, the first
//! one to index 0, each behind the one before. It asks only of live objects that they lie within the words and do not
//! overlap, and looks at nothing else. This is mark and slide with one bit a live word, whose prefix sums say where
//! each word goes.
//!
//! A survey allocates its tables, or takes `Tables` that were made before; then nothing is allocated, and memory does
//! not run out. It borrows the words. `Survey::release` lets them go: `Places` keep what was found, and slide the
//! objects out of words that may have changed since, or tell which object changed.
//!
//! `Places::of_bits` takes bits of the caller's own with no look at the words: of which objects are marked, and which
//! words are theirs. Then the slide asks what a survey asks, and whatever it lets through loses nothing, whoever
//! marked. `Looks` is such a marking, of objects that are handed in one by one while threads write: if each object that
//! was written to is looked at again, no part that slides is refused. Several markers look at a heap each in a `Lane`
//! of its own; lanes are joined at the end.
//!
//! `Places::live_bits` is for crates that slide in a way of their own. What lives is found in rest_marks, and where it
//! goes in rest_slide.
//!
//! A root that is not handed in is lost. The addresses before and after a collection are numbers of one range, so one
//! that was kept elsewhere, or is forwarded twice, may be that of another object. During a call no other thread may
//! write to the words, the roots or the memory into which they slide.
//!
//! The modules, in the order in which to read them:
//!
//! - `making`, `lending`, `tables`: the tables of a survey.
//! - `survey`, `places`: what was found, with the words and without them.
//! - `collecting`, `collecting_lent`, `in_place`: whole collections.
//! - `survey_by_threads`, `threads`: the same by several threads.
//! - `growing`, `growth`, `regrowing`: surveys that grow, with the words and without them.
//! - `ephemerons`, `guarding`, `finalizing`: values kept by their keys, guardians, and finalizers.
//! - `given`: bits of the caller's own.
//! - `looks`, `checking`: a marking while the threads of the heap go on.
//! - `lane`, `lane_rows`, `lane_joining`: the same by several.
//! - `laws`, `tidied`: what follows of the clauses.
#![tactic(auto)]

mod checking;
mod collecting;
mod collecting_lent;
mod ephemerons;
mod finalizing;
mod given;
mod growing;
mod growth;
mod guarding;
mod in_place;
mod lane;
mod lane_joining;
mod lane_rows;
mod laws;
mod lending;
mod looks;
mod making;
mod places;
mod regrowing;
mod survey;
mod survey_by_threads;
mod tables;
mod threads;
mod tidied;

pub use collecting::collect;
pub use collecting_lent::collect_lent;
pub use finalizing::Ordered;
pub use given::{collect_by_bits, slid_is_sound};
pub use growing::{Growing, NotGrown};
pub use growth::{Growth, NotGrowth};
pub use guarding::{Guarded, survey_guarded};
pub use in_place::{collect_in_place, collect_in_place_lent};
pub use lane::Lane;
pub use laws::{
    accepted_is_sound, collected_is_accepted, collected_is_one, collected_is_reached,
    collected_is_slid, found_has_no_fault, led_is_settled, parts_are_whole, reached_is_marked,
    reached_is_one, sound_has_no_fault, steps_are_one, words_now_are_settled,
};
pub use looks::{Looks, clean_is_same, same_is_looked};
pub use places::{LiveBits, Places};
pub use rest_marks::{
    Ahead, BitsFault, ByBitsFault, CheckFault, CollectFault, CollectLentFault, FinishFault,
    JoinFault, LentFault, LookFault, MarksFault, MarksLentFault, MeetFault, Missing, Shape,
    SlideFault, SurveyFault, WIDE, next_set, shape_of,
};
pub use survey::Survey;
pub use tables::{NotSurveyed, NotTaken, Tables};
pub use threads::collect_by_threads;
pub use tidied::slid_is_tidied;

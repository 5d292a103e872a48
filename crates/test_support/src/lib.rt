//! What the test crates share: worked heaps; builders that count, refuse or hold a build; a plain model of the objects,
//! against which tests compare mutators; images, dumps and changes of them; writers that fail; and runs of the program.
//! No contract says anything about them: a test asserts what it needs of them. The builders build the pages that
//! sliding compaction defines.
//!
//! The modules, by what they hold:
//!
//! - `at`, `call`, `random`: where a test is, calls, and pseudorandom numbers.
//! - `heaps`, `larger_heaps`, `many_fields`, `two_live_objects`, `worked`: heaps.
//! - `object`, `objects`, `pages`: the plain model.
//! - `builders`: builders of pages.
//! - `images`, `parts`, `contents`, `changes`: the bytes of files, and changes of them.
//! - `readers`, `writers`: devices that fail.
//! - `runs`, `steps`: runs of the program.
#![tactic(auto)]

mod at;
mod builders;
mod call;
mod changes;
mod contents;
mod heaps;
mod images;
mod larger_heaps;
mod many_fields;
mod object;
mod objects;
mod pages;
mod parts;
mod random;
mod readers;
mod runs;
mod steps;
mod two_live_objects;
mod worked;
mod writers;

pub use at::At;
pub use builders::{Counting, Meeting, Refusing, both, met};
pub use call::Call;
pub use changes::{
    Change, FIRST_DATA, FIRST_MARK, HEADER_OFFSET, HEADER_STAMP, LAST_HEADER, LAST_PAGE,
    LAST_REFERENCE, LAST_WORD, MARKED_ROOT, REFERENCE, REFERENCE_KIND, REFERENCE_STAMP,
    REFERENCE_VALUE, ROOT, SECOND_DATA_COUNT, SECOND_REFERENCE, SLID_WEAK_WORD, TOTAL, VERSION,
    WEAK_WORD,
};
pub use contents::{Content, bytes_in};
pub use heaps::{
    F, T, counting_object, heap, heap_of, judged, three_words, weak_words, zeros_object,
};
pub use images::{
    ALL, BAD_ROOT_IMAGE, EMPTY_IMAGE, FRESH_DUMP, MARKED_IMAGE, MOVED, THREE_IMAGE, TWENTY_IMAGE,
    WEAK_DUMP, WEAK_IMAGE, WEAK_MOVED, WEAK_SWEPT_DUMP,
};
pub use many_fields::{MANY_DATA, MANY_REFERENCES, MANY_WEAK};
pub use object::Object;
pub use objects::{Objects, Written};
pub use pages::page_words;
pub use parts::{Part, bytes_of};
pub use random::Random;
pub use readers::Pieces;
pub use runs::{Run, Text, expect_ran, words_of};
pub use steps::{Step, run_of, take_file_step};
pub use two_live_objects::{opening, roots, two_live};
pub use worked::{Worked, plan_of, worked_heap};
pub use writers::{Failure, Narrow};

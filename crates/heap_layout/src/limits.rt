//! The limits of heaps, pages, mutators and dumps, and where the two spaces begin.

/// How many words a page has.
pub const PAGE_WORDS: usize = 64;

/// The most words of a heap of edition one or two.
pub const MAX_WORDS: usize = 1_048_576;

/// The most marks of a heap of edition one or two.
pub const MAX_MARKS: usize = 1_048_576;

/// The most roots of a heap of edition one or two.
pub const MAX_ROOTS: usize = 4_096;

/// The most words of an object in from-space, in edition one or two.
pub const MAX_OBJECT_WORDS: usize = 1_024;

/// The most words of a heap of edition three or four, and the most words of an object there, and the most marks.
pub const MAX_LARGE_WORDS: usize = 2_147_483_648;

/// The most roots of a heap of edition three or four.
pub const MAX_LARGE_ROOTS: usize = 1_048_576;

/// The most words of an object that is made, its header among them.
pub const MAX_FRESH_OBJECT_WORDS: u32 = 64;

/// The most entries of a journal.
pub const MAX_ENTRIES: usize = 1_024;

/// The most mutators of a space.
pub const MAX_MUTATORS: u32 = 64;

/// The most fresh pages of a space of edition one or two.
pub const MAX_FRESH_PAGES: u32 = 4_096;

/// The most fresh pages of a space of edition three or four.
pub const MAX_LARGE_FRESH_PAGES: u32 = 1_048_576;

/// The most pages of a space of edition one or two: 16,384 compacted ones, and the fresh ones.
pub const MAX_PAGES: u32 = 20_480;

/// The most pages of a space of edition three or four: 33,554,432 compacted ones, and the fresh ones.
pub const MAX_LARGE_PAGES: u32 = 34_603_008;

/// The address of from-space word 0.
pub const FROM_SPACE: u64 = 4_294_967_296;

/// The address of to-space word 0.
pub const TO_SPACE: u64 = 8_589_934_592;

/// The least immediate of edition four: the word with its top bit set, and no other.
pub const FIRST_IMMEDIATE: u64 = 9_223_372_036_854_775_808;

//! The statuses of answers by their names, which are those of the C headers. They say what each means.

// Calls of a mutator. `NOT_IN_EDITION` has no name there, since no call that is exported is refused so.
pub const BUSY: u32 = 1;

pub const NULL_OBJECT: u32 = 2;

pub const NOT_A_START: u32 = 3;

pub const NO_SUCH_FIELD: u32 = 4;

pub const NOT_IN_EDITION: u32 = 5;

pub const OBJECT_TOO_LARGE: u32 = 6;

pub const OUT_OF_PAGES: u32 = 7;

pub const JOURNAL_FULL: u32 = 8;

pub const OUT_OF_MEMORY: u32 = 9;

pub const EMPTY_HANDLE: u32 = 10;

pub const NOT_EMPTY: u32 = 11;

pub const NO_SUCH_PAGE: u32 = 12;

pub const NO_SUCH_ROOT: u32 = 13;

pub const BAD_MUTATORS: u32 = 14;

pub const TOO_MANY_PAGES: u32 = 15;

pub const MUTATOR_MISSING: u32 = 16;

pub const OTHER_CREW: u32 = 17;

pub const NO_MUTATOR_LEFT: u32 = 18;

pub const BAD_EDITION: u32 = 19;

pub const NOT_BUILT: u32 = 20;

pub const NO_SUCH_ENTRY: u32 = 21;

pub const TOO_SHORT: u32 = 22;

pub const NO_SUCH_BUILD: u32 = 23;

pub const NO_SUCH_MUTATOR: u32 = 24;

// Calls of a heap at rest.
pub const NO_SUCH_PART: u32 = 25;

pub const CHANGED: u32 = 26;

pub const UNMARKED: u32 = 27;

pub const STILL_SHARED: u32 = 28;

pub const OTHER_COUNT: u32 = 29;

pub const SHORT_TABLES: u32 = 30;

pub const WRONG_LENGTH: u32 = 31;

pub const BAD_OPTIONS: u32 = 32;

// 32 + n: fault Hn of a heap or an image (docs/FORMATS.md); H11 is `OUT_OF_MEMORY`.
pub const TOO_LARGE: u32 = 33;

pub const OBJECT_PAST_END: u32 = 34;

pub const OBJECT_TOO_LONG: u32 = 35;

pub const MARK_NOT_START: u32 = 36;

pub const MARKS_NOT_RISING: u32 = 37;

pub const BAD_ROOT: u32 = 38;

pub const UNMARKED_TARGET: u32 = 39;

pub const IMAGE_TRUNCATED: u32 = 40;

pub const IMAGE_TRAILING: u32 = 41;

pub const IMAGE_BAD_MAGIC: u32 = 42;

pub const BAD_WEAK: u32 = 45;

// 64 + n: fault An of a dump.
pub const WRONG_WORD: u32 = 65;

pub const LOOSE_REFERENCE: u32 = 66;

pub const BAD_ENTRY: u32 = 67;

pub const STAMP_REPEATED: u32 = 68;

pub const STAMP_MISSING: u32 = 69;

pub const WRONG_TOTAL: u32 = 70;

pub const BUILD_UNCLAIMED: u32 = 71;

pub const WRONG_HEAD: u32 = 72;

pub const PAGE_MISSING: u32 = 73;

// 96 + n: Bn, the bytes are no dump, no file of words, no moved heap.
pub const FILE_TRUNCATED: u32 = 97;

pub const FILE_TRAILING: u32 = 98;

pub const FILE_BAD_MAGIC: u32 = 99;

pub const FILE_BAD_FIELD: u32 = 100;

// 128 + n: fault Sn of a heap at rest; those that have the cause of a fault Hn are 32 + n.
pub const BAD_REFERENCE: u32 = 131;

pub const OVERLAP: u32 = 135;

// 160 + n: fault Vn of a moved heap. Objects are the marked ones, counted from 0.
pub const MOVED_WRONG_HEAD: u32 = 161;

pub const MOVED_PLACE_OUTSIDE: u32 = 162;

pub const MOVED_OVERLAP: u32 = 163;

pub const MOVED_WRONG_ROOT: u32 = 164;

pub const MOVED_WRONG_WORD: u32 = 165;

// Bits of the runtime's own.
pub const NOT_A_RUN: u32 = 192;

// Calls of a slide by pages.
pub const NO_SIZE: u32 = 193;

pub const PAGE_HOME: u32 = 194;

pub const PAGE_BUSY: u32 = 195;

pub const TURN_TAKEN: u32 = 196;

pub const NOT_HOME: u32 = 197;

pub const NO_TURN: u32 = 198;

pub const OTHER_LENGTH: u32 = 199;

// Calls of a marking by many threads.
pub const MARKERS_BUSY: u32 = 200;

pub const STILL_MARKING: u32 = 201;

pub const BAD_OBJECT: u32 = 202;

// Calls of a marking by looks.
pub const NO_SUCH_OBJECT: u32 = 210;

pub const STILL_WAITING: u32 = 211;

pub const MISSING_OBJECT: u32 = 212;

pub const OTHER_HEAP: u32 = 213;

// Young collections.
pub const FEW_WORDS: u32 = 221;

pub const FEW_CARDS: u32 = 222;

pub const NOT_A_FIELD: u32 = 223;

pub const NOT_A_ROW: u32 = 224;

pub const LEADS_ABOVE: u32 = 225;

// Collections around objects that stay.
pub const BAD_PIN: u32 = 226;

// A watermark that is raised.
pub const BELOW_WATERMARK: u32 = 227;

// A handle of another kind.
pub const WRONG_HANDLE: u32 = 255;

//! The bytes of dumps of the heap with many fields, encoded by hand: three objects over a thousand pages each, of which
//! most words are 0.
use crate::dump_bytes::Part;
use test_support::{MANY_DATA, MANY_REFERENCES, MANY_WEAK, T};

/// The slid objects with many data words and with many weak words. The one with many references is at T.
pub const DATA: u64 = T + 70_003;

pub const WEAK: u64 = T + 140_005;

/// The start of the one fresh page.
pub const FRESH: u64 = T + 210_048;

// The flag of a page that was built.
const BUILT: Part = Part::Bytes(&[1]);

/// The three objects of edition two in edition three.
pub static MIXED_TOUCHED: [Part; 9] = [
    Part::Bytes(b"COMPDUMP"),
    Part::Fours(&[3, 1, 0, 1, 1]),
    Part::Eights(&[T + 4]),
    BUILT,
    Part::WeakFields(0, 2, 1, 1, &[0, T + 4, 9]),
    Part::WeakFields(1, 0, 0, 3, &[T]),
    Part::Zeros(464 + 4),
    Part::Fours(&[1, 0]),
    Part::Eights(&[6]),
];

/// After two mutators wrote the last data word and the last weak word: 5,488 bytes. The comments give positions.
pub static MANY_WRITTEN: [Part; 35] = [
    Part::Bytes(b"COMPDUMP"),
    Part::Fours(&[3, 2, 1, 3_283, 3]),
    // 28
    Part::Eights(&[T, 0, WEAK]),
    // 52: no page before page 1,024 was built
    Part::Zeros(1_024),
    // 1,076: page 1,024, with references number 65,535 and number 65,536
    BUILT,
    Part::Eights(&[WEAK, T]),
    Part::Zeros(496 + 4),
    // 1,593
    Part::Zeros(1_162),
    // 2,755: page 2,187, with the last data word, which was written, and the next object
    BUILT,
    Part::Zeros(288),
    // 3,044
    Part::Eights(&[77, MANY_WEAK]),
    Part::Zeros(208),
    Part::Fours(&[1]),
    // 3,272
    Part::Eights(&[0]),
    Part::Bytes(&[1, 2, 36]),
    Part::Eights(&[77]),
    // 3,291
    Part::Zeros(1_093),
    // 4,384: page 3,281, with the last weak word, which was written
    BUILT,
    Part::Zeros(168),
    // 4,553
    Part::Eights(&[FRESH, 14]),
    Part::Zeros(328),
    Part::Fours(&[1]),
    // 4,901
    Part::Eights(&[2]),
    Part::Bytes(&[0, 3, 21]),
    Part::Eights(&[FRESH]),
    // 4,920: the fresh page, with a new object of one word
    BUILT,
    Part::Zeros(512),
    Part::Fours(&[1]),
    // 5,437
    Part::Eights(&[1]),
    Part::Bytes(&[0, 0, 0]),
    // 5,448
    Part::Eights(&[0]),
    // 5,456: the lists of builds
    Part::Fours(&[3, 1_024, 3_282, 3_281]),
    Part::Fours(&[1]),
    // 5,476
    Part::Fours(&[2_187]),
    // 5,480
    Part::Eights(&[210_008]),
];

/// After one mutator touched all pages, in order: 1,709,986 bytes.
pub static MANY_SWEPT: [Part; 36] = [
    Part::Bytes(b"COMPDUMP"),
    Part::Fours(&[3, 1, 0, 3_282, 3]),
    Part::Eights(&[T, 0, WEAK]),
    // page 0
    BUILT,
    Part::Eights(&[MANY_REFERENCES, DATA]),
    Part::Zeros(496 + 4),
    Part::Blank(1_023),
    // page 1,024
    BUILT,
    Part::Eights(&[WEAK, T]),
    Part::Zeros(496 + 4),
    Part::Blank(68),
    // page 1,093
    BUILT,
    Part::Zeros(384),
    Part::Eights(&[DATA, 5, 6, MANY_DATA, T, 10]),
    Part::Zeros(80 + 4),
    Part::Blank(1_023),
    // page 2,117
    BUILT,
    Part::Zeros(416),
    Part::Eights(&[11, 12]),
    Part::Zeros(80 + 4),
    Part::Blank(69),
    // page 2,187
    BUILT,
    Part::Zeros(288),
    Part::Eights(&[13, MANY_WEAK]),
    Part::Zeros(208 + 4),
    Part::Blank(1_023),
    // page 3,211
    BUILT,
    Part::Zeros(296),
    Part::Eights(&[DATA]),
    Part::Zeros(208 + 4),
    Part::Blank(69),
    // page 3,281
    BUILT,
    Part::Zeros(168),
    Part::Eights(&[T, 14]),
    Part::Zeros(328 + 4),
    // the list of builds, and the live words
    Part::Builds(3_282, 210_007),
];

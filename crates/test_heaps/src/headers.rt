//! Header words: their counts, tags and sizes in each edition, and the words of given counts.
use crate::expected::expect_eq;
use heap_layout::{Edition, Header, Kind};
use std::process::Abort;
use test_support::At;

// A word that is read as a header of this edition: its numbers of references, weak words and data words, its tag, and
// the number of words of its object.
struct ReadHeader(Edition, u64, [u32; 4], u32);

// The most fields of the kind of which there may be many, and of the other kind.
const MOST: u32 = 2_147_483_647;

const FEW: u32 = 131_071;

static READ: [ReadHeader; 47] = [
    // The largest word in editions one and two, and a word with both upper bits in them.
    ReadHeader(
        Edition::One,
        u64::MAX,
        [65_535, 0, 65_535, u32::MAX],
        131_071,
    ),
    ReadHeader(
        Edition::Two,
        u64::MAX,
        [65_535, 65_535, 65_535, 65_535],
        196_606,
    ),
    ReadHeader(
        Edition::One,
        0xc001_0002_0003_0004,
        [4, 0, 3, 0xc001_0002],
        8,
    ),
    ReadHeader(Edition::Two, 0xc001_0002_0003_0004, [4, 2, 3, 49_153], 10),
    // Mixed: no fields, one of a kind, and the most.
    ReadHeader(Edition::Three, 0, [0, 0, 0, 0], 1),
    ReadHeader(Edition::Three, 0x0000_0000_0000_0001, [1, 0, 0, 0], 2),
    ReadHeader(Edition::Three, 0x0000_0001_0000_0000, [0, 1, 0, 0], 2),
    ReadHeader(Edition::Three, 0x0000_0000_0001_0000, [0, 0, 1, 0], 2),
    ReadHeader(Edition::Three, 0x0001_0000_0000_0000, [0, 0, 0, 1], 1),
    ReadHeader(Edition::Three, 0x0005_0003_0002_0001, [1, 3, 2, 5], 7),
    ReadHeader(
        Edition::Three,
        0x0000_0000_0000_ffff,
        [65_535, 0, 0, 0],
        65_536,
    ),
    ReadHeader(
        Edition::Three,
        0x0000_ffff_0000_0000,
        [0, 65_535, 0, 0],
        65_536,
    ),
    ReadHeader(
        Edition::Three,
        0x0000_0000_ffff_0000,
        [0, 0, 65_535, 0],
        65_536,
    ),
    ReadHeader(Edition::Three, 0x3fff_0000_0000_0000, [0, 0, 0, 16_383], 1),
    ReadHeader(
        Edition::Three,
        0x3fff_ffff_ffff_ffff,
        [65_535, 65_535, 65_535, 16_383],
        196_606,
    ),
    // Many references.
    ReadHeader(Edition::Three, 0x4000_0000_0000_0000, [0, 0, 0, 0], 1),
    ReadHeader(Edition::Three, 0x4000_0000_0000_0001, [1, 0, 0, 0], 2),
    ReadHeader(
        Edition::Three,
        0x4000_0000_0000_ffff,
        [65_535, 0, 0, 0],
        65_536,
    ),
    ReadHeader(
        Edition::Three,
        0x4000_0000_0001_0000,
        [65_536, 0, 0, 0],
        65_537,
    ),
    ReadHeader(
        Edition::Three,
        0x4000_0000_7fff_ffff,
        [MOST, 0, 0, 0],
        2_147_483_648,
    ),
    ReadHeader(Edition::Three, 0x4000_0000_8000_0000, [0, 0, 1, 0], 2),
    ReadHeader(
        Edition::Three,
        0x4000_7fff_8000_0000,
        [0, 0, 65_535, 0],
        65_536,
    ),
    ReadHeader(
        Edition::Three,
        0x4000_8000_0000_0000,
        [0, 0, 65_536, 0],
        65_537,
    ),
    ReadHeader(
        Edition::Three,
        0x4000_ffff_8000_0000,
        [0, 0, FEW, 0],
        131_072,
    ),
    ReadHeader(Edition::Three, 0x7fff_0000_0000_0000, [0, 0, 0, 16_383], 1),
    ReadHeader(
        Edition::Three,
        0x7fff_ffff_ffff_ffff,
        [MOST, 0, FEW, 16_383],
        2_147_614_719,
    ),
    // Many data words.
    ReadHeader(Edition::Three, 0x8000_0000_0000_0000, [0, 0, 0, 0], 1),
    ReadHeader(Edition::Three, 0x8000_0000_0000_0001, [0, 0, 1, 0], 2),
    ReadHeader(
        Edition::Three,
        0x8000_0000_0000_ffff,
        [0, 0, 65_535, 0],
        65_536,
    ),
    ReadHeader(
        Edition::Three,
        0x8000_0000_0001_0000,
        [0, 0, 65_536, 0],
        65_537,
    ),
    ReadHeader(
        Edition::Three,
        0x8000_0000_7fff_ffff,
        [0, 0, MOST, 0],
        2_147_483_648,
    ),
    ReadHeader(Edition::Three, 0x8000_0000_8000_0000, [1, 0, 0, 0], 2),
    ReadHeader(
        Edition::Three,
        0x8000_7fff_8000_0000,
        [65_535, 0, 0, 0],
        65_536,
    ),
    ReadHeader(
        Edition::Three,
        0x8000_8000_0000_0000,
        [65_536, 0, 0, 0],
        65_537,
    ),
    ReadHeader(
        Edition::Three,
        0x8000_ffff_8000_0000,
        [FEW, 0, 0, 0],
        131_072,
    ),
    ReadHeader(Edition::Three, 0xbfff_0000_0000_0000, [0, 0, 0, 16_383], 1),
    ReadHeader(
        Edition::Three,
        0xbfff_ffff_ffff_ffff,
        [FEW, 0, MOST, 16_383],
        2_147_614_719,
    ),
    // Many weak words.
    ReadHeader(Edition::Three, 0xc000_0000_0000_0000, [0, 0, 0, 0], 1),
    ReadHeader(Edition::Three, 0xc000_0000_0000_0001, [0, 1, 0, 0], 2),
    ReadHeader(
        Edition::Three,
        0xc000_0000_0000_ffff,
        [0, 65_535, 0, 0],
        65_536,
    ),
    ReadHeader(
        Edition::Three,
        0xc000_0000_0001_0000,
        [0, 65_536, 0, 0],
        65_537,
    ),
    ReadHeader(
        Edition::Three,
        0xc000_0000_7fff_ffff,
        [0, MOST, 0, 0],
        2_147_483_648,
    ),
    ReadHeader(Edition::Three, 0xc000_0000_8000_0000, [0, 0, 1, 0], 2),
    ReadHeader(
        Edition::Three,
        0xc000_7fff_8000_0000,
        [0, 0, 65_535, 0],
        65_536,
    ),
    ReadHeader(
        Edition::Three,
        0xc000_8000_0000_0000,
        [0, 0, 65_536, 0],
        65_537,
    ),
    ReadHeader(
        Edition::Three,
        0xc000_ffff_8000_0000,
        [0, 0, FEW, 0],
        131_072,
    ),
    ReadHeader(
        Edition::Three,
        u64::MAX,
        [0, MOST, FEW, 16_383],
        2_147_614_719,
    ),
];

// Checks the counts, the tag and the size of a header, and where its fields of each kind begin.
fn expect_read(rt: &impl Abort, at: At, read: &ReadHeader) {
    let ReadHeader(edition, word, [refs, weak, data, tag], size) = *read;
    let header = Header::from_word_of(edition, word);
    let found = [
        header.refs(),
        header.weak(),
        header.data_words(),
        header.tag(),
    ];
    expect_eq(rt, at, found.as_slice(), [refs, weak, data, tag].as_slice());
    let counts = [
        header.count(Kind::Header),
        header.count(Kind::Reference),
        header.count(Kind::Weak),
        header.count(Kind::Data),
    ];
    expect_eq(rt, at, counts.as_slice(), [0, refs, weak, data].as_slice());
    let firsts = [
        header.first(Kind::Header),
        header.first(Kind::Reference),
        header.first(Kind::Weak),
        header.first(Kind::Data),
    ];
    let before = size.wrapping_sub(data);
    let wanted = [0, 1, before.wrapping_sub(weak), before];
    expect_eq(rt, at, firsts.as_slice(), wanted.as_slice());
    expect_eq(rt, at, header.size(), size);
    expect_eq(rt, at, header.word(), word);
}

#[test]
fn header_words_are_read_as_these_counts(rt: HostRuntime) {
    for (row, read) in READ.iter().enumerate() {
        expect_read(&rt, At::new("a word", row), read);
    }
}

// The edition, the numbers of references, weak words and data words, and the tag; and the word of their header, or
// `None` if the edition has none.
struct MadeHeader(Edition, [u16; 3], u32, Option<u64>);

static MADE: [MadeHeader; 13] = [
    MadeHeader(
        Edition::One,
        [1, 0, 3],
        u32::MAX,
        Some(0xffff_ffff_0003_0001),
    ),
    MadeHeader(Edition::One, [0, 1, 0], 0, None),
    MadeHeader(Edition::Two, [1, 2, 3], 4, Some(0x0004_0002_0003_0001)),
    MadeHeader(Edition::Two, [0, 0, 0], 16_384, Some(0x4000_0000_0000_0000)),
    MadeHeader(Edition::Two, [0, 0, 0], 65_535, Some(0xffff_0000_0000_0000)),
    MadeHeader(Edition::Two, [0, 0, 0], 65_536, None),
    MadeHeader(Edition::Three, [0, 0, 0], 0, Some(0)),
    MadeHeader(Edition::Three, [1, 2, 3], 4, Some(0x0004_0002_0003_0001)),
    MadeHeader(
        Edition::Three,
        [65_535, 65_535, 65_535],
        16_383,
        Some(0x3fff_ffff_ffff_ffff),
    ),
    MadeHeader(Edition::Three, [0, 0, 0], 16_384, None),
    MadeHeader(Edition::Three, [0, 0, 0], 65_535, None),
    MadeHeader(Edition::Three, [0, 0, 0], 65_536, None),
    MadeHeader(Edition::Three, [65_535, 65_535, 65_535], u32::MAX, None),
];

// Checks the header of given counts and tag.
fn expect_made(rt: &impl Abort, at: At, made: &MadeHeader) {
    let MadeHeader(edition, [refs, weak, data], tag, wanted) = *made;
    let found = Header::of_counts(edition, refs, weak, data, tag);
    let wanted = match wanted {
        Some(word) => Some(Header::from_word_of(edition, word)),
        None => None,
    };
    expect_eq(rt, at, found, wanted);
}

#[test]
fn headers_are_made_of_counts_that_the_edition_has(rt: HostRuntime) {
    for (row, made) in MADE.iter().enumerate() {
        expect_made(&rt, At::new("counts", row), made);
    }
}

// The numbers of references, weak words and data words, and the tag; and the word of their header in edition three, or
// `None` if it has none.
struct LongHeader([u32; 3], u32, Option<u64>);

static LONG: [LongHeader; 22] = [
    // Mixed.
    LongHeader([0, 0, 0], 0, Some(0)),
    LongHeader([1, 2, 3], 4, Some(0x0004_0002_0003_0001)),
    LongHeader(
        [65_535, 65_535, 65_535],
        16_383,
        Some(0x3fff_ffff_ffff_ffff),
    ),
    LongHeader([0, 0, 0], 16_384, None),
    LongHeader([65_536, 0, 0], u32::MAX, None),
    // Many of one kind.
    LongHeader([131_072, 0, 0], 1, Some(0x4001_0000_0002_0000)),
    LongHeader([131_072, 0, 2], 1, Some(0x4001_0001_0002_0000)),
    LongHeader([1, 0, 131_072], 2, Some(0x8002_0000_8002_0000)),
    LongHeader([0, 70_000, 1], 3, Some(0xc003_0000_8001_1170)),
    LongHeader([MOST, 0, FEW], 16_383, Some(0x7fff_ffff_ffff_ffff)),
    LongHeader([FEW, 0, MOST], 16_383, Some(0xbfff_ffff_ffff_ffff)),
    LongHeader([0, MOST, FEW], 16_383, Some(u64::MAX)),
    LongHeader([0, 1, 65_536], 0, Some(0xc000_8000_0000_0001)),
    // One field more than the most.
    LongHeader([MOST + 1, 0, 0], 0, None),
    LongHeader([0, MOST + 1, 0], 0, None),
    LongHeader([0, 0, MOST + 1], 0, None),
    LongHeader([MOST, 0, FEW + 1], 0, None),
    LongHeader([FEW + 1, 0, MOST], 0, None),
    LongHeader([0, MOST, FEW + 1], 0, None),
    // A field of a third kind.
    LongHeader([65_536, 1, 0], 0, None),
    LongHeader([1, 65_536, 0], 0, None),
    LongHeader([1, 1, 65_536], 0, None),
];

// Checks the header of edition three of given counts and tag.
fn expect_long(rt: &impl Abort, at: At, long: &LongHeader) {
    let LongHeader([refs, weak, data], tag, wanted) = *long;
    let found = Header::of_large_counts(refs, weak, data, tag);
    let wanted = match wanted {
        Some(word) => Some(Header::from_word_of(Edition::Three, word)),
        None => None,
    };
    expect_eq(rt, at, found, wanted);
}

#[test]
fn headers_of_edition_three_are_made_of_large_counts(rt: HostRuntime) {
    for (row, long) in LONG.iter().enumerate() {
        expect_long(&rt, At::new("large counts", row), long);
    }
}

// Numbers of references, weak words and data words, and a tag, which two headers of edition three say.
static EITHER: [[u32; 4]; 4] = [
    [65_536, 0, 0, 1],
    [70_000, 0, 2, 1],
    [1, 0, 70_000, 2],
    [FEW, 0, FEW, 16_383],
];

// Checks that the header of given counts and tag says these.
fn expect_said(rt: &impl Abort, at: At, counts: &[u32; 4]) {
    let [refs, weak, data, tag] = *counts;
    let header = Header::of_large_counts(refs, weak, data, tag).expect(rt, "a header");
    let found = [
        header.refs(),
        header.weak(),
        header.data_words(),
        header.tag(),
    ];
    expect_eq(rt, at, found.as_slice(), counts.as_slice());
}

#[test]
fn counts_that_two_headers_say_have_a_header_that_says_them(rt: HostRuntime) {
    for (row, counts) in EITHER.iter().enumerate() {
        expect_said(&rt, At::new("counts of two headers", row), counts);
    }
}

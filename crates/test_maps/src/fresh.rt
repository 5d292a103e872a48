//! Pictures of dumps with new objects: of two mutators, of full pages, and of pages whose entries no mutator leaves.
use crate::dumped::pictured;
use crate::expected::{expect_eq, expect_so};
use crate::pictures::{count_of, expect_defined};
use heap_layout::TO_SPACE as T;
use std::alloc::{AllocError, Global};
use test_support::{Part, bytes_of};

// A dump of the three objects and of two mutators. Mutator 1 built their page. Mutator 0 filled its fresh page with
// objects of 40 and 24 words, of which the first has a reference; mutator 1 has an object of one word on its own.
const TWO_MUTATORS: [Part; 26] = [
    Part::Bytes(b"COMPDUMP"),
    Part::Numbers(&[1, 2, 2, 3, 1]),
    Part::Words(&[T + 2]),
    // page 0, without an entry
    Part::Bytes(&[1]),
    Part::Fields(0, 1, 1, &[11]),
    Part::Fields(1, 0, 3, &[T]),
    Part::Words(&[0; 60]),
    Part::Numbers(&[0]),
    // page 1 and its two entries
    Part::Bytes(&[1]),
    Part::Fields(1, 38, 0, &[]),
    Part::Words(&[0; 39]),
    Part::Fields(0, 23, 0, &[]),
    Part::Words(&[0; 23]),
    Part::Numbers(&[2]),
    Part::Words(&[0]),
    Part::Bytes(&[0, 0, 0]),
    Part::Fields(1, 38, 0, &[]),
    Part::Words(&[1]),
    Part::Bytes(&[0, 0, 40]),
    Part::Fields(0, 23, 0, &[]),
    // page 2 and its entry
    Part::Bytes(&[1]),
    Part::Words(&[0; 64]),
    Part::Numbers(&[1]),
    Part::Words(&[2]),
    Part::Bytes(&[1, 0, 0]),
    Part::Words(&[0]),
];

// The pages that each mutator built, and the live words.
const ITS_BUILDS: [Part; 2] = [Part::Numbers(&[1, 1, 2, 0, 2]), Part::Words(&[69])];

// The bytes of these parts, and of those after them.
fn joined(alloc: Global, parts: &[Part], after: &[Part]) -> Result<Vec<u8>, AllocError> {
    let mut bytes = bytes_of(alloc, parts)?;
    bytes.extend_from_slice(&bytes_of(alloc, after)?)?;
    Ok(bytes)
}

#[test]
fn each_page_has_its_mutator_and_its_new_objects(rt: HostRuntime) {
    let alloc = rt.alloc();
    let bytes = joined(alloc, &TWO_MUTATORS, &ITS_BUILDS).expect(&rt, "the bytes");
    let picture = pictured(&rt, alloc, &bytes, None, "");
    let text = picture.as_str();
    // The legend shows a header of a new object.
    expect_eq(&rt, "new headers", count_of(text, "\"#h7\""), 1 + 3);
    expect_eq(&rt, "new references", count_of(text, "\"#r7\""), 1);
    expect_eq(&rt, "new data words", count_of(text, "\"#d7\""), 38 + 23);
    expect_eq(&rt, "pages of mutator 0", count_of(text, "\"#b0\""), 1);
    expect_eq(&rt, "pages of mutator 1", count_of(text, "\"#b1\""), 2);
    expect_eq(&rt, "told of mutator 0", count_of(text, ">m0</text>"), 1);
    expect_eq(&rt, "told of mutator 1", count_of(text, ">m1</text>"), 2);
    expect_eq(&rt, "two entries", count_of(text, ">entries 2</text>"), 1);
    expect_eq(&rt, "one entry", count_of(text, ">entries 1</text>"), 1);
    expect_eq(&rt, "never built", count_of(text, "\"#miss\""), 1);
    expect_defined(&rt, text);
}

// A dump of one page and 100 fresh ones, of two mutators. The first fresh page is full, the second has one word; the
// other pages were never built.
const FULL_PAGE: [Part; 17] = [
    Part::Bytes(b"COMPDUMP"),
    Part::Numbers(&[1, 2, 100, 101, 1]),
    Part::Words(&[T + 2]),
    Part::Bytes(&[0]),
    // page 1 and its entry, an object of 64 words
    Part::Bytes(&[1]),
    Part::Fields(0, 63, 0, &[]),
    Part::Words(&[0; 63]),
    Part::Numbers(&[1]),
    Part::Words(&[0]),
    Part::Bytes(&[0, 0, 0]),
    Part::Fields(0, 63, 0, &[]),
    // page 2 and its entry
    Part::Bytes(&[1]),
    Part::Words(&[0; 64]),
    Part::Numbers(&[1]),
    Part::Words(&[1]),
    Part::Bytes(&[1, 0, 0]),
    Part::Words(&[0]),
];

// The other pages, the pages that each mutator built, and the live words.
const ITS_REST: [Part; 3] = [
    Part::Bytes(&[0; 98]),
    Part::Numbers(&[1, 1, 1, 2]),
    Part::Words(&[69]),
];

#[test]
fn a_full_page_is_all_live(rt: HostRuntime) {
    let alloc = rt.alloc();
    let bytes = joined(alloc, &FULL_PAGE, &ITS_REST).expect(&rt, "the bytes");
    let picture = pictured(&rt, alloc, &bytes, None, "");
    let text = picture.as_str();
    // The legend shows each shade, a dot below 16 entries, a frame, and a page that was never built.
    expect_eq(&rt, "all live", count_of(text, "\"#s5\""), 1 + 1);
    expect_eq(
        &rt,
        "from-space and one word",
        count_of(text, "\"#s1\""),
        1 + 2,
    );
    expect_eq(&rt, "dots", count_of(text, "\"#e1\""), 1 + 2);
    expect_eq(&rt, "pages of mutator 0", count_of(text, "\"#m0\""), 1 + 1);
    expect_eq(&rt, "pages of mutator 1", count_of(text, "\"#m1\""), 1);
    expect_eq(&rt, "never built", count_of(text, "\"#miss\""), 1 + 99);
    expect_defined(&rt, text);
}

// A dump whose page 0 was never built. Each word of its fresh page leads to the first object.
const OVERLAPPED: [Part; 7] = [
    Part::Bytes(b"COMPDUMP"),
    Part::Numbers(&[1, 1, 1, 2, 1]),
    Part::Words(&[T + 2]),
    Part::Bytes(&[0]),
    Part::Bytes(&[1]),
    Part::Words(&[T; 64]),
    Part::Numbers(&[1_024]),
];

// The page that its mutator built, and the live words.
const BUILT: [Part; 2] = [Part::Numbers(&[1, 1]), Part::Words(&[68])];

// The header of an object of 63 references.
const REFERENCES: u64 = 63;

// The bytes of that dump: each of its 1,024 entries makes an object of 64 words at offset 0.
fn overlapping(alloc: Global) -> Result<Vec<u8>, AllocError> {
    let mut bytes = bytes_of(alloc, &OVERLAPPED)?;
    for stamp in 0..1_024u64 {
        bytes.extend_from_slice(&stamp.to_le_bytes())?;
        bytes.extend_from_slice(&[0, 0, 0])?;
        bytes.extend_from_slice(&REFERENCES.to_le_bytes())?;
    }
    bytes.extend_from_slice(&bytes_of(alloc, &BUILT)?)?;
    Ok(bytes)
}

#[test]
fn of_objects_that_overlap_the_first_is_drawn(rt: HostRuntime) {
    let alloc = rt.alloc();
    let bytes = overlapping(alloc).expect(&rt, "the bytes");
    let picture = pictured(&rt, alloc, &bytes, None, "");
    let text = picture.as_str();
    expect_eq(&rt, "new headers", count_of(text, "\"#h7\""), 1 + 1);
    expect_eq(&rt, "new references", count_of(text, "\"#r7\""), 63);
    // From-space has one arc; to-space has those of the first new object.
    expect_eq(&rt, "arcs", count_of(text, "Q"), 1 + 63);
    expect_so(&rt, "the size", picture.len() < 30_000);
    expect_defined(&rt, text);
}

// A dump of the three objects with 401 roots, none of whose pages was built.
const MANY_ROOTS: [Part; 6] = [
    Part::Bytes(b"COMPDUMP"),
    Part::Numbers(&[1, 1, 0, 1, 401]),
    Part::Words(&[T + 2; 401]),
    Part::Bytes(&[0]),
    Part::Numbers(&[0]),
    Part::Words(&[4]),
];

#[test]
fn more_than_400_roots_of_a_dump_have_no_arrows(rt: HostRuntime) {
    let alloc = rt.alloc();
    let bytes = bytes_of(alloc, &MANY_ROOTS).expect(&rt, "the bytes");
    let picture = pictured(&rt, alloc, &bytes, None, "");
    let text = picture.as_str();
    expect_so(&rt, "no arrows", text.contains("no arrows: 401 roots"));
    expect_eq(&rt, "arrows", count_of(text, "\"#root\""), 1);
}

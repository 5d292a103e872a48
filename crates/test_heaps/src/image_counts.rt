//! The counts at the beginning of images: the most, and one more, by both calls that read images.
use crate::images::{By, expect_fault, push_numbers};
use heap_layout::LayoutFault;
use std::process::Abort;
use test_support::At;

// An image that ends after its counts: its version, and its numbers of words, marks and roots; what `read_image` says,
// and what `read_large_image` says, or `None` if it is read.
struct ImageCounts(u32, [u32; 3], Option<LayoutFault>, Option<LayoutFault>);

const BAD_MAGIC: Option<LayoutFault> = Some(LayoutFault::BadMagic);

const TOO_LARGE: Option<LayoutFault> = Some(LayoutFault::TooLarge);

const TRUNCATED: Option<LayoutFault> = Some(LayoutFault::Truncated);

// The most words of edition three.
const MOST: u32 = 2_147_483_648;

static COUNTS: [ImageCounts; 27] = [
    // No words, marks and roots.
    ImageCounts(0, [0, 0, 0], BAD_MAGIC, BAD_MAGIC),
    ImageCounts(1, [0, 0, 0], None, None),
    ImageCounts(2, [0, 0, 0], None, None),
    ImageCounts(3, [0, 0, 0], BAD_MAGIC, None),
    ImageCounts(4, [0, 0, 0], BAD_MAGIC, None),
    ImageCounts(5, [0, 0, 0], BAD_MAGIC, BAD_MAGIC),
    ImageCounts(u32::MAX, [0, 0, 0], BAD_MAGIC, BAD_MAGIC),
    // Editions one and two.
    ImageCounts(1, [1_048_577, 0, 0], TOO_LARGE, TOO_LARGE),
    ImageCounts(2, [1_048_577, 0, 0], TOO_LARGE, TOO_LARGE),
    ImageCounts(1, [1_048_576, 0, 0], TRUNCATED, TRUNCATED),
    ImageCounts(2, [1_048_576, 0, 0], TRUNCATED, TRUNCATED),
    ImageCounts(1, [0, 1_048_577, 0], TOO_LARGE, TOO_LARGE),
    ImageCounts(2, [0, 1_048_577, 0], TOO_LARGE, TOO_LARGE),
    ImageCounts(1, [0, 1_048_576, 0], TRUNCATED, TRUNCATED),
    ImageCounts(1, [0, 0, 4_097], TOO_LARGE, TOO_LARGE),
    ImageCounts(2, [0, 0, 4_097], TOO_LARGE, TOO_LARGE),
    ImageCounts(1, [0, 0, 4_096], TRUNCATED, TRUNCATED),
    // Edition three.
    ImageCounts(3, [MOST + 1, 0, 0], BAD_MAGIC, TOO_LARGE),
    ImageCounts(3, [MOST, 0, 0], BAD_MAGIC, TRUNCATED),
    ImageCounts(3, [1_048_577, 0, 0], BAD_MAGIC, TRUNCATED),
    ImageCounts(3, [0, MOST + 1, 0], BAD_MAGIC, TOO_LARGE),
    ImageCounts(3, [0, MOST, 0], BAD_MAGIC, TRUNCATED),
    ImageCounts(3, [0, 0, 1_048_577], BAD_MAGIC, TOO_LARGE),
    ImageCounts(3, [0, 0, 1_048_576], BAD_MAGIC, TRUNCATED),
    ImageCounts(3, [0, 0, 4_097], BAD_MAGIC, TRUNCATED),
    ImageCounts(3, [MOST, MOST, 1_048_576], BAD_MAGIC, TRUNCATED),
    ImageCounts(3, [u32::MAX, u32::MAX, u32::MAX], BAD_MAGIC, TOO_LARGE),
];

// The first 24 bytes of an image: the magic, the version and the counts.
fn beginning(rt: &(impl Abort + AllocGlobal), version: u32, counts: &[u32]) -> Vec<u8> {
    let mut bytes = Vec::new(rt.alloc());
    bytes
        .extend_from_slice(b"COMPHEAP")
        .expect(rt, "memory for an image");
    push_numbers(rt, &mut bytes, &[version]);
    push_numbers(rt, &mut bytes, counts);
    bytes
}

#[test]
fn counts_above_the_limits_of_the_edition_are_refused(rt: HostRuntime) {
    for (row, ImageCounts(version, counts, small, large)) in COUNTS.iter().enumerate() {
        let bytes = beginning(&rt, *version, counts.as_slice());
        let at = At::new("counts", row);
        expect_fault(&rt, at, &bytes, By::ReadImage, *small);
        expect_fault(&rt, at, &bytes, By::ReadLargeImage, *large);
    }
}

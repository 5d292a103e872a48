//! Images of next heaps.
use crate::expected::{expect_eq, expect_so};
use crate::next_heaps::follow;
use crate::three_objects::linked;
use heap_layout::{Counted, Edition, MarkedHeap, read_large_image, write_image};
use std::alloc::Global;
use std::process::Abort;
use test_support::At;

/// The image of a heap. Checks that it is read as that heap.
pub fn image(rt: &impl Abort, alloc: Global, heap: &MarkedHeap) -> Vec<u8> {
    let mut writer = Counted::new(Vec::new(alloc));
    write_image(heap, &mut writer).expect(rt, "writing into memory");
    let bytes = writer.into_inner();
    let again = read_large_image(alloc, &mut Counted::new(&bytes[..])).expect(rt, "a heap");
    expect_eq(rt, At::new("words", 0), again.words(), heap.words());
    expect_eq(rt, At::new("marks", 0), again.marks(), heap.marks());
    expect_eq(rt, At::new("roots", 0), again.roots(), heap.roots());
    expect_eq(rt, At::new("edition", 0), again.edition(), heap.edition());
    bytes
}

// The first 24 bytes: the magic, the version, and the numbers of words, marks and roots.
const HEAD: [u8; 24] = [
    b'C', b'O', b'M', b'P', b'H', b'E', b'A', b'P', 1, 0, 0, 0, 192, 0, 0, 0, 2, 0, 0, 0, 1, 0, 0,
    0,
];

#[test]
fn image_of_the_next_heap_is_read_as_that_heap(rt: HostRuntime) {
    let alloc = rt.alloc();
    let heap = follow(&rt, alloc, linked(&rt, alloc), &[2, 64]);
    let bytes = image(&rt, alloc, &heap);
    expect_eq(&rt, At::new("bytes", 0), bytes.len(), 1_576);
    expect_so(&rt, At::new("head", 0), bytes.starts_with(HEAD.as_slice()));
    expect_eq(&rt, At::new("edition", 0), heap.edition(), Edition::One);
}

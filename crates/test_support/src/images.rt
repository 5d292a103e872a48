//! Images of worked heaps and dumps of them.
use crate::parts::Part;
use heap_layout::{FIRST_IMMEDIATE as I, FROM_SPACE as F, TO_SPACE as T};

/// All pages of the heap of twenty pages.
pub const ALL: [u32; 20] = [
    0, 1, 2, 3, 4, 5, 6, 7, 8, 9, 10, 11, 12, 13, 14, 15, 16, 17, 18, 19,
];

/// The image of two objects of 640 words, both marked. They fill twenty pages.
pub const TWENTY_IMAGE: [Part; 5] = [
    Part::Bytes(b"COMPHEAP"),
    Part::Numbers(&[1, 1_280, 2, 0]),
    Part::Object,
    Part::Object,
    Part::Numbers(&[0, 640]),
];

/// The image of the empty heap.
pub const EMPTY_IMAGE: [Part; 2] = [Part::Bytes(b"COMPHEAP"), Part::Numbers(&[1, 0, 0, 0])];

/// The image of the three objects. The first and the last are marked, and the root refers to the last.
pub const THREE_IMAGE: [Part; 7] = [
    Part::Bytes(b"COMPHEAP"),
    Part::Numbers(&[1, 7, 2, 1]),
    FIRST,
    SECOND,
    LAST,
    Part::Numbers(&[0, 5]),
    Part::Words(&[F + 5]),
];

/// What a collection leaves of the three objects: the first, and the last where the second was.
pub const COLLECTED_IMAGE: [Part; 6] = [
    Part::Bytes(b"COMPHEAP"),
    Part::Numbers(&[1, 4, 2, 1]),
    FIRST,
    LAST,
    Part::Numbers(&[0, 2]),
    Part::Words(&[F + 2]),
];

/// The next heap of the three objects after an empty run without fresh pages: the same on a whole page.
pub const FILLED_IMAGE: [Part; 7] = [
    Part::Bytes(b"COMPHEAP"),
    Part::Numbers(&[1, 64, 2, 1]),
    FIRST,
    LAST,
    Part::Words(&[0; 60]),
    Part::Numbers(&[0, 2]),
    Part::Words(&[F + 2]),
];

// The three objects. The last one refers to the first one, at F.
const FIRST: Part = Part::Fields(0, 1, 1, &[11]);

const SECOND: Part = Part::Fields(1, 1, 2, &[0, 22]);

const LAST: Part = Part::Fields(1, 0, 3, &[F]);

// The last one after the slide.
const SLID_LAST: Part = Part::Fields(1, 0, 3, &[T]);

/// The dump after the run that makes a new object. Its one mutator built page 1, then page 0, and never page 2.
pub const FRESH_DUMP: [Part; 20] = [
    Part::Bytes(b"COMPDUMP"),
    Part::Numbers(&[1, 1, 2, 3, 1]),
    Part::Words(&[T + 2]),
    // page 0 and its entry
    Part::Bytes(&[1]),
    FIRST,
    Part::Fields(1, 0, 3, &[T + 64]),
    Part::Words(&[0; 60]),
    Part::Numbers(&[1]),
    Part::Words(&[1]),
    Part::Bytes(&[0, 1, 3]),
    Part::Words(&[T + 64]),
    // page 1 and its entry
    Part::Bytes(&[1]),
    Part::Words(&[0; 64]),
    Part::Numbers(&[1]),
    Part::Words(&[0]),
    Part::Bytes(&[0, 0, 0]),
    Part::Words(&[0]),
    // page 2
    Part::Bytes(&[0]),
    // the number of pages that the mutator built, and which; then the live words
    Part::Numbers(&[2, 1, 0]),
    Part::Words(&[5]),
];

/// The image of the three objects of edition two. The first and the last are marked, and the root refers to the last.
/// The first object has two weak words, which refer to the others.
pub const WEAK_IMAGE: [Part; 7] = [
    Part::Bytes(b"COMPHEAP"),
    Part::Numbers(&[2, 7, 2, 1]),
    Part::WeakFields(0, 2, 1, 1, &[F + 4, F + 5, 9]),
    Part::WeakFields(0, 0, 0, 2, &[]),
    Part::WeakFields(1, 0, 0, 3, &[F]),
    Part::Numbers(&[0, 5]),
    Part::Words(&[F + 5]),
];

/// What a collection leaves of these objects. The weak word that referred to the second one is null.
pub const COLLECTED_WEAK_IMAGE: [Part; 6] = [
    Part::Bytes(b"COMPHEAP"),
    Part::Numbers(&[2, 6, 2, 1]),
    Part::WeakFields(0, 2, 1, 1, &[0, F + 4, 9]),
    Part::WeakFields(1, 0, 0, 3, &[F]),
    Part::Numbers(&[0, 4]),
    Part::Words(&[F + 4]),
];

/// The dump of these objects after a sweep by one worker.
pub const WEAK_SWEPT_DUMP: [Part; 9] = [
    Part::Bytes(b"COMPDUMP"),
    Part::Numbers(&[2, 1, 0, 1, 1]),
    Part::Words(&[T + 4]),
    Part::Bytes(&[1]),
    Part::WeakFields(0, 2, 1, 1, &[0, T + 4, 9]),
    Part::WeakFields(1, 0, 0, 3, &[T]),
    Part::Words(&[0; 58]),
    Part::Numbers(&[0, 1, 0]),
    Part::Words(&[6]),
];

/// The dump after the run that writes a weak word of these objects. Its one mutator built page 0, then page 1. Page 0
/// has the words of the objects that slid and the entry of the weak word. Page 1 has a new object with one weak word,
/// which is null, and its entry.
pub const WEAK_DUMP: [Part; 20] = [
    Part::Bytes(b"COMPDUMP"),
    Part::Numbers(&[2, 1, 1, 2, 1]),
    Part::Words(&[T + 4]),
    Part::Bytes(&[1]),
    Part::WeakFields(0, 2, 1, 1, &[T + 64, T + 4, 9]),
    Part::WeakFields(1, 0, 0, 3, &[T]),
    Part::Words(&[0; 58]),
    Part::Numbers(&[1]),
    Part::Words(&[1]),
    Part::Bytes(&[0, 3, 1]),
    Part::Words(&[T + 64]),
    Part::Bytes(&[1]),
    Part::WeakFields(0, 1, 0, 5, &[]),
    Part::Words(&[0; 63]),
    Part::Numbers(&[1]),
    Part::Words(&[0]),
    Part::Bytes(&[0, 0, 0]),
    Part::WeakFields(0, 1, 0, 5, &[]),
    // the number of pages that the mutator built, and which; then the live words
    Part::Numbers(&[2, 0, 1]),
    Part::Words(&[8]),
];

/// The image of the same three objects in edition four. The second weak word of the first object is an immediate whose
/// low bits are the address of that object, and a second root is the immediate with payload 5.
pub const IMMEDIATES_IMAGE: [Part; 7] = [
    Part::Bytes(b"COMPHEAP"),
    Part::Numbers(&[4, 7, 2, 2]),
    Part::WeakFields(0, 2, 1, 1, &[F + 4, I + F, 9]),
    Part::WeakFields(0, 0, 0, 2, &[]),
    Part::WeakFields(1, 0, 0, 3, &[F]),
    Part::Numbers(&[0, 5]),
    Part::Words(&[F + 5, I + 5]),
];

/// What a collection leaves of these objects: the weak word that referred to the second one is null, and the immediates
/// are as they were.
pub const COLLECTED_IMMEDIATES_IMAGE: [Part; 6] = [
    Part::Bytes(b"COMPHEAP"),
    Part::Numbers(&[4, 6, 2, 2]),
    Part::WeakFields(0, 2, 1, 1, &[0, I + F, 9]),
    Part::WeakFields(1, 0, 0, 3, &[F]),
    Part::Numbers(&[0, 4]),
    Part::Words(&[F + 4, I + 5]),
];

/// The dump after the run that writes immediates into a reference and a weak word of these objects.
pub const IMMEDIATES_DUMP: [Part; 14] = [
    Part::Bytes(b"COMPDUMP"),
    Part::Numbers(&[4, 1, 0, 1, 2]),
    Part::Words(&[T + 4, I + 5]),
    Part::Bytes(&[1]),
    Part::WeakFields(0, 2, 1, 1, &[I + 5, I + F, 9]),
    Part::WeakFields(1, 0, 0, 3, &[I + 7]),
    Part::Words(&[0; 58]),
    Part::Numbers(&[2]),
    Part::Words(&[0]),
    Part::Bytes(&[0, 1, 5]),
    Part::Words(&[I + 7, 1]),
    Part::Bytes(&[0, 3, 1]),
    Part::Words(&[I + 5]),
    // the number of pages that the mutator built, and which; then the live words
    Part::Numbers(&[1, 0, 6, 0]),
];

/// The image of the three objects, all three marked. The root refers to the last, and that one to the first.
pub const MARKED_IMAGE: [Part; 7] = [
    Part::Bytes(b"COMPHEAP"),
    Part::Numbers(&[1, 7, 3, 1]),
    FIRST,
    SECOND,
    LAST,
    Part::Numbers(&[0, 2, 5]),
    Part::Words(&[F + 5]),
];

/// The image of the three objects with a root that refers to none of them.
pub const BAD_ROOT_IMAGE: [Part; 7] = [
    Part::Bytes(b"COMPHEAP"),
    Part::Numbers(&[1, 7, 2, 1]),
    FIRST,
    SECOND,
    LAST,
    Part::Numbers(&[0, 5]),
    Part::Words(&[F + 1]),
];

/// What a collection left of the three objects that moved them backwards: the last is at 0, the second at 3 and the
/// first at 7. The words at 2 and 6 are free.
pub const MOVED: [Part; 7] = [
    Part::Bytes(b"COMPMOVE"),
    Part::Numbers(&[1, 3, 1, 9]),
    Part::Numbers(&[7, 3, 0]),
    Part::Words(&[T]),
    Part::Fields(1, 0, 3, &[T + 7, 77]),
    Part::Fields(1, 1, 2, &[0, 22, 77]),
    FIRST,
];

/// What a collection left of the three objects of edition two that moved the last to 0 and the first to 2.
pub const WEAK_MOVED: [Part; 6] = [
    Part::Bytes(b"COMPMOVE"),
    Part::Numbers(&[2, 2, 1, 6]),
    Part::Numbers(&[2, 0]),
    Part::Words(&[T]),
    Part::WeakFields(1, 0, 0, 3, &[T + 2]),
    Part::WeakFields(0, 2, 1, 1, &[0, T, 9]),
];

/// A dump of the three objects of which no page was built: 49 bytes.
pub const UNBUILT_DUMP: [Part; 6] = [
    Part::Bytes(b"COMPDUMP"),
    Part::Numbers(&[1, 1, 0, 1, 1]),
    Part::Words(&[T + 2]),
    Part::Bytes(&[0]),
    Part::Numbers(&[0]),
    Part::Words(&[4]),
];

/// The words of the three objects after sliding, with their root: 60 bytes.
pub const THREE_WORDS: [Part; 5] = [
    Part::Bytes(b"COMPWORD"),
    Part::Numbers(&[1, 4, 1]),
    Part::Words(&[T + 2]),
    FIRST,
    SLID_LAST,
];

/// The words of the three objects after sliding, with their root and a word 0 after them.
pub const LONGER_WORDS: [Part; 6] = [
    Part::Bytes(b"COMPWORD"),
    Part::Numbers(&[1, 5, 1]),
    Part::Words(&[T + 2]),
    FIRST,
    SLID_LAST,
    Part::Words(&[0]),
];

/// The words of the three objects of edition two after sliding, in edition three, with their root: 76 bytes.
pub const LARGE_WORDS: [Part; 5] = [
    Part::Bytes(b"COMPWORD"),
    Part::Numbers(&[3, 6, 1]),
    Part::Words(&[T + 4]),
    Part::WeakFields(0, 2, 1, 1, &[0, T + 4, 9]),
    Part::WeakFields(1, 0, 0, 3, &[T]),
];

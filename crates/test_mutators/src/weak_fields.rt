//! Weak fields in both editions: reads, writes, and new objects with weak words.
use crate::endings::{End, Ending};
use crate::mutated_heaps::{BuiltBy, MutatedHeap, play_heap};
use crate::mutator_steps::MutatorStep;
use comp_journal::Entry;
use comp_mutator::Refusal;
use heap_layout::Kind;
use test_support::{T, Worked};

// The start of the second slid object.
const SECOND: u64 = T + 4;

// A weak word of the first one.
const INNER: u64 = T + 2;

// The start of the first fresh page.
const FRESH: u64 = T + 64;

// The entries of the slid page after these calls: both weak words of the first object were written, each once.
const SLID: [Entry; 2] = [
    Entry {
        stamp: 0,
        writer: 0,
        kind: Kind::Weak,
        offset: 1,
        value: T + 4,
    },
    Entry {
        stamp: 3,
        writer: 0,
        kind: Kind::Weak,
        offset: 2,
        value: 0,
    },
];

// The entries of the fresh page: a new object, and its weak word, which refers to the first object.
const MADE: [Entry; 2] = [
    Entry {
        stamp: 1,
        writer: 0,
        kind: Kind::Header,
        offset: 0,
        value: 1_407_379_178_520_576,
    },
    Entry {
        stamp: 2,
        writer: 0,
        kind: Kind::Weak,
        offset: 1,
        value: T,
    },
];

// The object of the first weak word was not marked, so that word is null; the object of the other slid. Weak words are
// written, and an object with a weak word is made. At the end 6 words slid and 2 were made.
static FIELDS: MutatedHeap = MutatedHeap {
    name: "reads and writes weak words",
    heap: Worked::Weak,
    built_by: BuiltBy::Plan,
    mutators: 1,
    fresh_pages: 1,
    steps: &[
        MutatorStep::Roots(&[T + 4]),
        MutatorStep::ReadWeak(T, 0, Ok(0)),
        MutatorStep::ReadWeak(T, 1, Ok(T + 4)),
        MutatorStep::ReadWeak(T, 2, Err(Refusal::NoSuchField)),
        MutatorStep::ReadData(T, 0, Ok(9)),
        MutatorStep::ReadData(T, 1, Err(Refusal::NoSuchField)),
        MutatorStep::ReadRef(T, 0, Err(Refusal::NoSuchField)),
        MutatorStep::ReadRef(SECOND, 0, Ok(T)),
        MutatorStep::WriteWeak(T, 0, SECOND, Ok(0)),
        MutatorStep::WriteWeak(T, 0, INNER, Err(Refusal::NotAStart(T + 2))),
        MutatorStep::WriteWeak(T, 2, SECOND, Err(Refusal::NoSuchField)),
        MutatorStep::WriteWeak(SECOND, 0, T, Err(Refusal::NoSuchField)),
        MutatorStep::WriteRef(T, 0, T, Err(Refusal::NoSuchField)),
        MutatorStep::ReadWeak(T, 0, Ok(T + 4)),
        MutatorStep::AllocWeak(0, 1, 0, 5, Ok(T + 64)),
        MutatorStep::ReadWeak(FRESH, 0, Ok(0)),
        MutatorStep::ReadData(FRESH, 0, Err(Refusal::NoSuchField)),
        MutatorStep::WriteWeak(FRESH, 0, T, Ok(2)),
        MutatorStep::ReadWeak(FRESH, 0, Ok(T)),
        MutatorStep::WriteWeak(T, 1, 0, Ok(3)),
        MutatorStep::ReadWeak(T, 1, Ok(0)),
        MutatorStep::Unposted(2),
        MutatorStep::Page(
            0,
            &[281_483_566_710_784, T + 4, 0, 9, 844_424_930_131_969, T],
            &SLID,
        ),
        MutatorStep::Page(1, &[1_407_379_178_520_576, T], &MADE),
    ],
    end: End::Contents(Ending {
        live_words: 8,
        roots: &[T + 4],
        pages: &[true, true],
        entries: 4,
        builds: Some((&[0, 1], &[])),
    }),
};

#[test]
fn weak_words_are_read_and_written(rt: HostRuntime) {
    play_heap(&rt, rt.alloc(), &FIELDS);
}

// The refusals of a read or a write, each beside those that come after it. The page keeps its words.
static REFUSALS: MutatedHeap = MutatedHeap {
    name: "refuses weak fields as references",
    heap: Worked::Weak,
    built_by: BuiltBy::Plan,
    mutators: 1,
    fresh_pages: 1,
    steps: &[
        MutatorStep::ReadWeak(0, 9, Err(Refusal::Null)),
        MutatorStep::ReadWeak(INNER, 9, Err(Refusal::NotAStart(T + 2))),
        MutatorStep::ReadWeak(FRESH, 0, Err(Refusal::NotAStart(T + 64))),
        MutatorStep::ReadWeak(T, u16::MAX, Err(Refusal::NoSuchField)),
        MutatorStep::WriteWeak(0, 9, INNER, Err(Refusal::Null)),
        MutatorStep::WriteWeak(INNER, 9, INNER, Err(Refusal::NotAStart(T + 2))),
        MutatorStep::WriteWeak(T, u16::MAX, INNER, Err(Refusal::NoSuchField)),
        MutatorStep::WriteWeak(T, 1, FRESH, Err(Refusal::NotAStart(T + 64))),
        MutatorStep::Builds(&[]),
    ],
    end: End::Contents(Ending {
        live_words: 6,
        roots: &[T + 4],
        pages: &[false, false],
        entries: 0,
        builds: Some((&[], &[])),
    }),
};

#[test]
fn a_weak_field_is_refused_for_its_first_cause(rt: HostRuntime) {
    play_heap(&rt, rt.alloc(), &REFUSALS);
}

// Tags of 17 bits, which are refused whatever the size and the room, and tags and sizes that edition two has. At the
// end 6 words slid and 64 were made.
static TAGS: MutatedHeap = MutatedHeap {
    name: "refuses tags of 17 bits in edition two",
    heap: Worked::Weak,
    built_by: BuiltBy::Plan,
    mutators: 1,
    fresh_pages: 1,
    steps: &[
        MutatorStep::Alloc(0, 0, 65_536, Err(Refusal::NotInEdition)),
        MutatorStep::AllocWeak(0, 1, 0, 65_536, Err(Refusal::NotInEdition)),
        MutatorStep::Alloc(u16::MAX, u16::MAX, u32::MAX, Err(Refusal::NotInEdition)),
        MutatorStep::AllocWeak(65_535, 65_535, 65_535, 65_536, Err(Refusal::NotInEdition)),
        MutatorStep::AllocWeak(65_535, 65_535, 65_535, 65_535, Err(Refusal::ObjectTooLarge)),
        MutatorStep::AllocWeak(0, 64, 0, 0, Err(Refusal::ObjectTooLarge)),
        MutatorStep::Builds(&[]),
        MutatorStep::AllocWeak(21, 21, 21, 65_535, Ok(T + 64)),
        MutatorStep::ReadWeak(FRESH, 20, Ok(0)),
        MutatorStep::ReadWeak(FRESH, 21, Err(Refusal::NoSuchField)),
        MutatorStep::AllocWeak(0, 1, 0, 5, Err(Refusal::OutOfPages)),
        MutatorStep::AllocWeak(0, 1, 0, 65_536, Err(Refusal::NotInEdition)),
        MutatorStep::Alloc(0, 0, 65_536, Err(Refusal::NotInEdition)),
        MutatorStep::Alloc(0, 0, 65_535, Err(Refusal::OutOfPages)),
    ],
    end: End::Contents(Ending {
        live_words: 70,
        roots: &[T + 4],
        pages: &[false, true],
        entries: 1,
        builds: Some((&[1], &[])),
    }),
};

#[test]
fn a_tag_of_17_bits_is_refused_in_edition_two(rt: HostRuntime) {
    play_heap(&rt, rt.alloc(), &TAGS);
}

// In edition one no object has weak words. A read or a write of one is refused as a field that does not exist, and an
// object with weak words is refused whatever its size and the room. At the end 1 word slid and 64 were made.
static NONE: MutatedHeap = MutatedHeap {
    name: "has no weak words in edition one",
    heap: Worked::Smallest,
    built_by: BuiltBy::Plan,
    mutators: 1,
    fresh_pages: 1,
    steps: &[
        MutatorStep::ReadWeak(0, 0, Err(Refusal::Null)),
        MutatorStep::ReadWeak(FRESH, 0, Err(Refusal::NotAStart(T + 64))),
        MutatorStep::ReadWeak(T, 0, Err(Refusal::NoSuchField)),
        MutatorStep::WriteWeak(0, 0, FRESH, Err(Refusal::Null)),
        MutatorStep::WriteWeak(FRESH, 0, FRESH, Err(Refusal::NotAStart(T + 64))),
        MutatorStep::WriteWeak(T, 0, FRESH, Err(Refusal::NoSuchField)),
        MutatorStep::AllocWeak(0, 1, 0, 5, Err(Refusal::NotInEdition)),
        MutatorStep::AllocWeak(65_535, 65_535, 65_535, 65_536, Err(Refusal::NotInEdition)),
        MutatorStep::AllocWeak(0, 0, 65_535, 65_536, Err(Refusal::ObjectTooLarge)),
        MutatorStep::Builds(&[]),
        MutatorStep::AllocWeak(0, 0, 0, 65_536, Ok(T + 64)),
        MutatorStep::Alloc(1, 61, u32::MAX, Ok(T + 65)),
        MutatorStep::ReadWeak(FRESH, 0, Err(Refusal::NoSuchField)),
        MutatorStep::AllocWeak(0, 1, 0, 5, Err(Refusal::NotInEdition)),
        MutatorStep::AllocWeak(0, 0, 0, 5, Err(Refusal::OutOfPages)),
    ],
    end: End::Contents(Ending {
        live_words: 65,
        roots: &[T],
        pages: &[false, true],
        entries: 2,
        builds: Some((&[1], &[])),
    }),
};

#[test]
fn edition_one_has_no_weak_words(rt: HostRuntime) {
    play_heap(&rt, rt.alloc(), &NONE);
}

// The calls that wait, of a mutator that is alone. Each answers at once.
static AT_ONCE: MutatedHeap = MutatedHeap {
    name: "answers at once of weak words when no page is busy",
    heap: Worked::Weak,
    built_by: BuiltBy::Plan,
    mutators: 1,
    fresh_pages: 1,
    steps: &[
        MutatorStep::AtLast(&MutatorStep::AllocWeak(0, 1, 0, 5, Ok(T + 64))),
        MutatorStep::AtLast(&MutatorStep::WriteWeak(FRESH, 0, SECOND, Ok(1))),
        MutatorStep::AtLast(&MutatorStep::ReadWeak(FRESH, 0, Ok(T + 4))),
        MutatorStep::AtLast(&MutatorStep::ReadWeak(T, 0, Ok(0))),
        MutatorStep::AtLast(&MutatorStep::ReadWeak(T, 2, Err(Refusal::NoSuchField))),
        MutatorStep::AtLast(&MutatorStep::WriteWeak(T, 0, INNER, Err(Refusal::NotAStart(T + 2)))),
        MutatorStep::AtLast(&MutatorStep::AllocWeak(0, 1, 0, 65_536, Err(Refusal::NotInEdition))),
        MutatorStep::AtLast(&MutatorStep::Alloc(0, 0, 65_536, Err(Refusal::NotInEdition))),
    ],
    end: End::Unchecked,
};

#[test]
fn calls_on_weak_words_that_wait_answer_at_once(rt: HostRuntime) {
    play_heap(&rt, rt.alloc(), &AT_ONCE);
}

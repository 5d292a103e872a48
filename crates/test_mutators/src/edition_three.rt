//! Heaps of edition three: fields far from their headers, and more fresh pages than the other editions have.
use crate::endings::{End, Lent};
use crate::mutated_heaps::{BuiltBy, MutatedHeap, play_heap};
use crate::mutator_steps::MutatorStep;
use comp_mutator::{FlipFault, Refusal, Touched};
use heap_layout::Kind;
use test_support::{T, Worked};

// The slid objects with many data words and with many weak words. The one with many references is at T.
const DATA: u64 = T + 70_003;

const WEAK: u64 = T + 140_005;

// The start of the first fresh page.
const FRESH: u64 = T + 210_048;

// Fields number 65,535, number 65,536 and the last of each of the objects are read, and the page of each is built
// alone. No object has one more field.
static READ: MutatedHeap = MutatedHeap {
    name: "reads fields far from their headers",
    heap: Worked::ManyFields,
    built_by: BuiltBy::Counting(6),
    mutators: 1,
    fresh_pages: 0,
    steps: &[
        MutatorStep::Compacted(3_282),
        MutatorStep::Pages(3_282),
        MutatorStep::Roots(&[T, 0, T + 140_005]),
        MutatorStep::Touch(1_024, Ok(Touched::Built)),
        MutatorStep::Touch(1_024, Ok(Touched::AlreadyBuilt)),
        MutatorStep::Page(1_024, &[T + 140_005, T], &[]),
        MutatorStep::ReadRef(T, 65_535, Ok(T + 140_005)),
        MutatorStep::ReadAt(Kind::Reference, T, 65_535, Ok(T + 140_005)),
        MutatorStep::ReadAt(Kind::Reference, T, 65_536, Ok(T)),
        MutatorStep::Builds(&[1_024]),
        MutatorStep::ReadAt(Kind::Reference, T, 69_999, Ok(T + 70_003)),
        MutatorStep::ReadAt(Kind::Reference, T, 70_000, Err(Refusal::NoSuchField)),
        MutatorStep::ReadAt(Kind::Reference, T, u32::MAX, Err(Refusal::NoSuchField)),
        MutatorStep::ReadAt(Kind::Weak, T, 0, Err(Refusal::NoSuchField)),
        MutatorStep::ReadAt(Kind::Data, T, 0, Ok(5)),
        MutatorStep::ReadAt(Kind::Data, T, 1, Ok(6)),
        MutatorStep::ReadAt(Kind::Data, T, 2, Err(Refusal::NoSuchField)),
        MutatorStep::Builds(&[1_024, 1_093]),
        MutatorStep::ReadAt(Kind::Reference, DATA, 0, Ok(T)),
        MutatorStep::ReadAt(Kind::Reference, DATA, 1, Err(Refusal::NoSuchField)),
        MutatorStep::ReadData(DATA, 65_535, Ok(11)),
        MutatorStep::ReadAt(Kind::Data, DATA, 65_535, Ok(11)),
        MutatorStep::ReadAt(Kind::Data, DATA, 65_536, Ok(12)),
        MutatorStep::ReadAt(Kind::Data, DATA, 69_999, Ok(13)),
        MutatorStep::ReadAt(Kind::Data, DATA, 70_000, Err(Refusal::NoSuchField)),
        MutatorStep::ReadAt(Kind::Data, DATA, u32::MAX, Err(Refusal::NoSuchField)),
        MutatorStep::ReadAt(Kind::Weak, WEAK, 0, Ok(0)),
        MutatorStep::ReadWeak(WEAK, 65_535, Ok(T + 70_003)),
        MutatorStep::ReadAt(Kind::Weak, WEAK, 65_535, Ok(T + 70_003)),
        MutatorStep::ReadAt(Kind::Weak, WEAK, 65_536, Ok(0)),
        MutatorStep::ReadAt(Kind::Weak, WEAK, 69_999, Ok(T)),
        MutatorStep::ReadAt(Kind::Weak, WEAK, 70_000, Err(Refusal::NoSuchField)),
        MutatorStep::ReadAt(Kind::Data, WEAK, 0, Ok(14)),
        MutatorStep::ReadAt(Kind::Data, WEAK, 1, Err(Refusal::NoSuchField)),
        MutatorStep::ReadAt(Kind::Data, 0, 70_000, Err(Refusal::Null)),
        MutatorStep::ReadAt(Kind::Data, T + 1, 70_000, Err(Refusal::NotAStart(T + 1))),
        MutatorStep::ReadAt(
            Kind::Weak,
            T + 65_537,
            0,
            Err(Refusal::NotAStart(T + 65_537)),
        ),
        MutatorStep::Builds(&[1_024, 1_093, 2_117, 2_187, 3_211, 3_281]),
    ],
    end: End::Words(&[
        Lent(0, 0, None),
        Lent(500, 0, None),
        Lent(1_024, 1, Some(T)),
        Lent(3_281, 22, Some(14)),
        Lent(3_282, 0, None),
    ]),
};

#[test]
fn fields_far_from_their_headers_are_read(rt: HostRuntime) {
    play_heap(&rt, rt.alloc(), &READ);
}

// Such fields are written, also with the address of a new object.
static WRITTEN: MutatedHeap = MutatedHeap {
    name: "writes fields far from their headers",
    heap: Worked::ManyFields,
    built_by: BuiltBy::Plan,
    mutators: 1,
    fresh_pages: 1,
    steps: &[
        MutatorStep::WriteAt(Kind::Reference, T, 69_999, 0, Ok(0)),
        MutatorStep::WriteAt(Kind::Reference, T, 70_000, 0, Err(Refusal::NoSuchField)),
        MutatorStep::WriteAt(
            Kind::Reference,
            T,
            69_999,
            T + 1,
            Err(Refusal::NotAStart(T + 1)),
        ),
        MutatorStep::WriteAt(Kind::Data, DATA, 69_999, 77, Ok(1)),
        MutatorStep::WriteAt(Kind::Data, DATA, 70_000, 77, Err(Refusal::NoSuchField)),
        MutatorStep::WriteAt(Kind::Weak, WEAK, 65_536, DATA, Ok(2)),
        MutatorStep::WriteAt(Kind::Weak, WEAK, 70_000, DATA, Err(Refusal::NoSuchField)),
        MutatorStep::WriteAt(Kind::Weak, T, 0, DATA, Err(Refusal::NoSuchField)),
        MutatorStep::Alloc(0, 1, 16_384, Err(Refusal::NotInEdition)),
        MutatorStep::AllocWeak(65_535, 65_535, 65_535, 16_384, Err(Refusal::NotInEdition)),
        MutatorStep::AllocWeak(65_535, 65_535, 65_535, 16_383, Err(Refusal::ObjectTooLarge)),
        MutatorStep::AllocWeak(0, 0, 1, 16_383, Ok(T + 210_048)),
        MutatorStep::WriteAt(Kind::Reference, T, 65_536, FRESH, Ok(4)),
        MutatorStep::WriteAt(Kind::Weak, WEAK, 69_999, FRESH, Ok(5)),
        MutatorStep::WriteAt(Kind::Data, FRESH, 0, 9, Ok(6)),
        MutatorStep::ReadAt(Kind::Reference, T, 69_999, Ok(0)),
        MutatorStep::ReadAt(Kind::Data, DATA, 69_999, Ok(77)),
        MutatorStep::ReadAt(Kind::Weak, WEAK, 65_536, Ok(T + 70_003)),
        MutatorStep::ReadAt(Kind::Reference, T, 65_536, Ok(T + 210_048)),
        MutatorStep::ReadAt(Kind::Weak, WEAK, 69_999, Ok(T + 210_048)),
        MutatorStep::ReadAt(Kind::Data, FRESH, 0, Ok(9)),
        MutatorStep::ReadAt(Kind::Data, FRESH, 1, Err(Refusal::NoSuchField)),
        MutatorStep::Unposted(2),
        // The calls that wait, of a mutator that is alone.
        MutatorStep::AtLast(&MutatorStep::WriteAt(Kind::Reference, T, 65_535, DATA, Ok(7))),
        MutatorStep::AtLast(&MutatorStep::ReadAt(Kind::Reference, T, 65_535, Ok(T + 70_003))),
        MutatorStep::AtLast(&MutatorStep::WriteAt(Kind::Data, DATA, 65_536, 78, Ok(8))),
        MutatorStep::AtLast(&MutatorStep::ReadAt(Kind::Data, DATA, 65_536, Ok(78))),
        MutatorStep::AtLast(&MutatorStep::WriteAt(Kind::Weak, WEAK, 0, T, Ok(9))),
        MutatorStep::AtLast(&MutatorStep::ReadAt(Kind::Weak, WEAK, 0, Ok(T))),
        MutatorStep::AtLast(&MutatorStep::ReadAt(Kind::Data, WEAK, 1, Err(Refusal::NoSuchField))),
    ],
    end: End::Words(&[
        Lent(1_024, 0, Some(T + 70_003)),
        Lent(1_024, 1, Some(T + 210_048)),
        Lent(1_093, 48, Some(0)),
        Lent(2_117, 53, Some(78)),
        Lent(2_187, 36, Some(77)),
        Lent(2_187, 38, Some(T)),
        Lent(3_211, 38, Some(T + 70_003)),
        Lent(3_281, 21, Some(T + 210_048)),
        Lent(3_282, 0, Some(0x3fff_0000_0001_0000)),
        Lent(3_282, 1, Some(9)),
        Lent(3_282, 2, Some(0)),
        Lent(3_283, 0, None),
    ]),
};

#[test]
fn fields_far_from_their_headers_are_written(rt: HostRuntime) {
    play_heap(&rt, rt.alloc(), &WRITTEN);
}

// The first field, an inner one and the last one, and the same the other way round.
const FORTH: [MutatorStep; 4] = [
    MutatorStep::AtLast(&MutatorStep::ReadAt(Kind::Reference, T, 0, Ok(T + 70_003))),
    MutatorStep::AtLast(&MutatorStep::ReadAt(Kind::Reference, T, 65_536, Ok(T))),
    MutatorStep::AtLast(&MutatorStep::ReadAt(Kind::Data, DATA, 69_999, Ok(13))),
    MutatorStep::AtLast(&MutatorStep::ReadAt(Kind::Weak, WEAK, 69_999, Ok(T))),
];

const BACK: [MutatorStep; 4] = [
    MutatorStep::AtLast(&MutatorStep::ReadAt(Kind::Weak, WEAK, 69_999, Ok(T))),
    MutatorStep::AtLast(&MutatorStep::ReadAt(Kind::Data, DATA, 69_999, Ok(13))),
    MutatorStep::AtLast(&MutatorStep::ReadAt(Kind::Reference, T, 65_536, Ok(T))),
    MutatorStep::AtLast(&MutatorStep::ReadAt(Kind::Reference, T, 0, Ok(T + 70_003))),
];

// Two mutators read them at once. Each of the four pages is built once.
static BESIDE: MutatedHeap = MutatedHeap {
    name: "reads fields far from their headers beside another mutator",
    heap: Worked::ManyFields,
    built_by: BuiltBy::Counting(4),
    mutators: 2,
    fresh_pages: 0,
    steps: &[MutatorStep::AtOnce(&FORTH, &BACK)],
    end: End::Words(&[
        Lent(0, 1, Some(T + 70_003)),
        Lent(1, 0, None),
        Lent(1_024, 1, Some(T)),
        Lent(2_187, 36, Some(13)),
        Lent(3_281, 21, Some(T)),
    ]),
};

#[test]
fn fields_far_from_their_headers_are_read_by_two_mutators_at_once(rt: HostRuntime) {
    play_heap(&rt, rt.alloc(), &BESIDE);
}

// One fresh page more than edition two may have.
const PAGE_TOO_MANY: MutatedHeap = MutatedHeap {
    name: "flips edition two within its limits",
    heap: Worked::Weak,
    built_by: BuiltBy::Plan,
    mutators: 1,
    fresh_pages: 4_097,
    steps: &[],
    end: End::Refused(FlipFault::BadCounts),
};

// As many fresh pages in edition three. The first of 64 mutators has every 64th of them, 65 in all. It fills the first
// 64 of them, and then the last of all pages.
static MORE_PAGES: MutatedHeap = MutatedHeap {
    name: "flips with more than 4,096 fresh pages",
    heap: Worked::Mixed,
    built_by: BuiltBy::Plan,
    mutators: 64,
    fresh_pages: 4_097,
    steps: &[
        MutatorStep::New(64),
        MutatorStep::Compacted(1),
        MutatorStep::Pages(4_098),
        MutatorStep::Roots(&[T + 4]),
        MutatorStep::Fills(64),
        MutatorStep::Alloc(0, 63, 0, Ok(T + 262_208)),
        MutatorStep::ReadData(T + 262_208, 62, Ok(0)),
        MutatorStep::ReadData(T + 262_208, 63, Err(Refusal::NoSuchField)),
        MutatorStep::Alloc(0, 0, 0, Err(Refusal::OutOfPages)),
    ],
    end: End::Words(&[
        Lent(1, 0, Some(4_128_768)),
        Lent(2, 0, None),
        Lent(4_097, 0, Some(4_128_768)),
        Lent(4_097, 63, Some(0)),
        Lent(4_098, 0, None),
    ]),
};

#[test]
fn edition_three_has_more_than_4_096_fresh_pages(rt: HostRuntime) {
    play_heap(&rt, rt.alloc(), &MORE_PAGES);
}

// One fresh page more than edition three may have.
const FAR_TOO_MANY: MutatedHeap = MutatedHeap {
    name: "flips edition three within its limits",
    heap: Worked::Mixed,
    built_by: BuiltBy::Plan,
    mutators: 1,
    fresh_pages: 1_048_577,
    steps: &[],
    end: End::Refused(FlipFault::BadCounts),
};

// One fresh page more than the edition may have.
static TOO_MANY_PAGES: [MutatedHeap; 2] = [PAGE_TOO_MANY, FAR_TOO_MANY];

#[test]
fn a_flip_with_more_fresh_pages_than_the_edition_has_is_refused(rt: HostRuntime) {
    for heap in &TOO_MANY_PAGES {
        play_heap(&rt, rt.alloc(), heap);
    }
}

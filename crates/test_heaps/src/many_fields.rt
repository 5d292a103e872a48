//! Objects of edition three over a thousand pages each: their first, inner and last pages, each built alone.
use crate::plan_answers::{PlanAnswer, PlannedHeap, Slid, expect_planned};
use heap_layout::Kind;
use test_support::{F, MANY_DATA, MANY_REFERENCES, MANY_WEAK, T, Worked};

// The objects with many data words and many weak words, before and after the slide by one word.
const DATA: u64 = F + 70_004;

const WEAK: u64 = F + 140_006;

const SLID_DATA: u64 = T + 70_003;

const SLID_WEAK: u64 = T + 140_005;

// The last page: 22 weak words and a data word.
const LAST_KINDS: [Kind; 23] = [
    Kind::Weak,
    Kind::Weak,
    Kind::Weak,
    Kind::Weak,
    Kind::Weak,
    Kind::Weak,
    Kind::Weak,
    Kind::Weak,
    Kind::Weak,
    Kind::Weak,
    Kind::Weak,
    Kind::Weak,
    Kind::Weak,
    Kind::Weak,
    Kind::Weak,
    Kind::Weak,
    Kind::Weak,
    Kind::Weak,
    Kind::Weak,
    Kind::Weak,
    Kind::Weak,
    Kind::Weak,
    Kind::Data,
];

// The pages and the objects of the heap with many fields.
static MANY_FIELDS: [PlannedHeap; 1] = [PlannedHeap {
    name: "objects with many fields",
    heap: Worked::ManyFields,
    answers: &[
        PlanAnswer::Counts(210_007, 3_282),
        PlanAnswer::LiveWords(210_007),
        PlanAnswer::Roots(&[T, 0, T + 140_005]),
        PlanAnswer::Forward(F, None),
        PlanAnswer::Forward(F + 1, Some(T)),
        PlanAnswer::Forward(F + 2, None),
        PlanAnswer::Forward(DATA, Some(T + 70_003)),
        PlanAnswer::Forward(WEAK, Some(T + 140_005)),
        PlanAnswer::Forward(F + 210_008, None),
        PlanAnswer::Place(0, None),
        PlanAnswer::Place(1, Some(0)),
        PlanAnswer::Place(70_003, Some(70_002)),
        PlanAnswer::Place(210_007, Some(210_006)),
        PlanAnswer::Place(210_008, None),
        PlanAnswer::Shape(T, Some((70_000, 0, 2, 1))),
        PlanAnswer::Shape(SLID_DATA, Some((1, 0, 70_000, 2))),
        PlanAnswer::Shape(SLID_WEAK, Some((0, 70_000, 1, 3))),
        PlanAnswer::Shape(T + 65_537, None),
        PlanAnswer::First(0, Some(1)),
        PlanAnswer::First(1_024, Some(1)),
        PlanAnswer::First(1_093, Some(1)),
        PlanAnswer::First(1_094, Some(70_004)),
        PlanAnswer::First(2_187, Some(70_004)),
        PlanAnswer::First(2_188, Some(140_006)),
        PlanAnswer::First(3_281, Some(140_006)),
        PlanAnswer::First(3_282, None),
        // The last page: the last weak words, of which only the very last leads to an object, and the data word.
        PlanAnswer::Page(
            3_281,
            &[
                0, 0, 0, 0, 0, 0, 0, 0, 0, 0, 0, 0, 0, 0, 0, 0, 0, 0, 0, 0, 0, T, 14,
            ],
        ),
        // Inner pages: references number 65,535 and number 65,536, and none that is not null.
        PlanAnswer::Page(1_024, &[SLID_WEAK, T]),
        PlanAnswer::Page(500, &[]),
        PlanAnswer::Page(0, &[MANY_REFERENCES, SLID_DATA]),
        // The page on which the first object ends and the second one begins.
        PlanAnswer::Word(1_093, 47, 0),
        PlanAnswer::Word(1_093, 48, T + 70_003),
        PlanAnswer::Word(1_093, 49, 5),
        PlanAnswer::Word(1_093, 50, 6),
        PlanAnswer::Word(1_093, 51, MANY_DATA),
        PlanAnswer::Word(1_093, 52, T),
        PlanAnswer::Word(1_093, 53, 10),
        PlanAnswer::Word(1_093, 54, 0),
        // Data words number 65,535 and number 65,536.
        PlanAnswer::Word(2_117, 52, 11),
        PlanAnswer::Word(2_117, 53, 12),
        // The page on which the second object ends and the third one begins.
        PlanAnswer::Word(2_187, 36, 13),
        PlanAnswer::Word(2_187, 37, MANY_WEAK),
        PlanAnswer::Word(2_187, 38, 0),
        // Weak words number 65,535 and number 65,536.
        PlanAnswer::Word(3_211, 37, T + 70_003),
        PlanAnswer::Word(3_211, 38, 0),
        PlanAnswer::Kinds(3_281, &LAST_KINDS),
        PlanAnswer::Kinds(500, &[Kind::Reference; 64]),
        PlanAnswer::Kinds(2_000, &[Kind::Data; 64]),
        PlanAnswer::Kinds(3_000, &[Kind::Weak; 64]),
    ],
}];

#[test]
fn objects_with_70_000_fields_slide_over_a_thousand_pages(rt: HostRuntime) {
    expect_planned(&rt, &MANY_FIELDS);
}

// The objects of edition two in edition three.
static OF_EDITION_TWO: [PlannedHeap; 1] = [PlannedHeap {
    name: "the objects of edition two in edition three",
    heap: Worked::Mixed,
    answers: &[
        PlanAnswer::Counts(6, 1),
        PlanAnswer::Roots(&[T + 4]),
        PlanAnswer::Objects(0, Slid::Weak),
        PlanAnswer::Shape(T, Some((0, 2, 1, 1))),
        PlanAnswer::Shape(T + 4, Some((1, 0, 0, 3))),
    ],
}];

#[test]
fn objects_of_edition_two_slide_alike_in_edition_three(rt: HostRuntime) {
    expect_planned(&rt, &OF_EDITION_TWO);
}

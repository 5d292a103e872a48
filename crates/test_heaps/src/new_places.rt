//! The new places of live words by the tables, and the pages and objects there.
use crate::plan_answers::{PlanAnswer, PlannedHeap, expect_planned};
use test_support::{F, T, Worked};

// Which words are live, and their new places.
static PLACES: [PlannedHeap; 5] = [
    PlannedHeap {
        name: "places after a step",
        heap: Worked::Step,
        answers: &[
            PlanAnswer::LiveWords(81),
            PlanAnswer::Place(0, Some(0)),
            PlanAnswer::Place(39, Some(39)),
            PlanAnswer::Place(40, None),
            PlanAnswer::Place(50, Some(40)),
            PlanAnswer::Place(64, Some(54)),
            PlanAnswer::Place(90, Some(80)),
            PlanAnswer::Place(91, None),
            PlanAnswer::Place(u64::MAX, None),
        ],
    },
    PlannedHeap {
        name: "places of three objects",
        heap: Worked::Three,
        answers: &[
            PlanAnswer::Place(5, Some(2)),
            PlanAnswer::Place(6, Some(3)),
            PlanAnswer::Place(2, None),
            PlanAnswer::Place(7, None),
        ],
    },
    PlannedHeap {
        name: "places across blocks",
        heap: Worked::AcrossBlocks,
        answers: &[
            PlanAnswer::Place(62, None),
            PlanAnswer::Place(63, Some(0)),
            PlanAnswer::Place(64, Some(1)),
            PlanAnswer::Place(65, Some(2)),
            PlanAnswer::Place(66, None),
        ],
    },
    PlannedHeap {
        name: "places of objects in 2,100 blocks",
        heap: Worked::EverySecond(134_400),
        answers: &[
            PlanAnswer::Place(134_398, Some(67_199)),
            PlanAnswer::Counts(67_200, 1_050),
            PlanAnswer::First(1_049, Some(134_272)),
            PlanAnswer::Tagged(1_049, 0, 134_272),
        ],
    },
    // One thread counts the first 8,192 blocks, and another thread, if there is one, the others.
    PlannedHeap {
        name: "places of objects in 9,375 blocks",
        heap: Worked::EverySecond(600_000),
        answers: &[
            PlanAnswer::Place(524_286, Some(262_143)),
            PlanAnswer::Place(524_288, Some(262_144)),
            PlanAnswer::Place(599_998, Some(299_999)),
            PlanAnswer::Counts(300_000, 4_688),
            PlanAnswer::First(4_687, Some(599_936)),
            PlanAnswer::Tagged(4_687, 0, 599_936),
        ],
    },
];

#[test]
fn live_words_have_these_new_places(rt: HostRuntime) {
    expect_planned(&rt, &PLACES);
}

// The last object of the step.
const LAST: u64 = F + 50;

// A word of it.
const INNER: u64 = F + 51;

// The object before it.
const UNMARKED: u64 = F + 40;

// The start of the last object after the slide.
const SLID_LAST: u64 = T + 40;

// The data of the last object of the step continues with 23 on its second page.
const SECOND_PAGE: [u64; 17] = [
    23, 24, 25, 26, 27, 28, 29, 30, 31, 32, 33, 34, 35, 36, 37, 38, 39,
];

// The first objects of pages, the objects that references refer to, and the slid objects; and a page that is built
// before the first one.
static OBJECTS: [PlannedHeap; 2] = [
    PlannedHeap {
        name: "objects of a step",
        heap: Worked::Step,
        answers: &[
            PlanAnswer::Counts(81, 2),
            PlanAnswer::Page(1, &SECOND_PAGE),
            PlanAnswer::Word(0, 41, T + 40),
            PlanAnswer::First(0, Some(0)),
            PlanAnswer::First(1, Some(50)),
            PlanAnswer::First(2, None),
            PlanAnswer::First(u64::MAX, None),
            PlanAnswer::Forward(LAST, Some(T + 40)),
            PlanAnswer::Forward(UNMARKED, None),
            PlanAnswer::Forward(INNER, None),
            PlanAnswer::Forward(0, Some(0)),
            PlanAnswer::Shape(T, Some((0, 0, 39, 0))),
            PlanAnswer::Shape(SLID_LAST, Some((1, 0, 39, 0))),
            PlanAnswer::Shape(0, None),
            PlanAnswer::Shape(F, None),
            PlanAnswer::Shape(T + 1, None),
            PlanAnswer::Shape(T + 39, None),
            PlanAnswer::Shape(T + 41, None),
            PlanAnswer::Shape(T + 81, None),
            PlanAnswer::Shape(u64::MAX, None),
        ],
    },
    PlannedHeap {
        name: "many small objects",
        heap: Worked::EverySecond(134_400),
        answers: &[
            PlanAnswer::Counts(67_200, 1_050),
            PlanAnswer::First(1_049, Some(134_272)),
            PlanAnswer::Tagged(1_049, 0, 134_272),
            PlanAnswer::Place(134_398, Some(67_199)),
        ],
    },
];

#[test]
fn references_lead_to_slid_objects_and_pages_to_their_first(rt: HostRuntime) {
    expect_planned(&rt, &OBJECTS);
}

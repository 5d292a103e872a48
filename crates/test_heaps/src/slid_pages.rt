//! Pages of slid heaps.
use crate::expected::expect_eq;
use crate::plan_answers::{
    PlanAnswer, PlannedHeap, Slid, expect_planned, expect_words, page_of, slid_words,
};
use heap_layout::Kind;
use std::process::Abort;
use test_support::{At, Counting, F, T, Worked, plan_of};

// The kinds of the words of the three objects after the slide.
const THREE_KINDS: [Kind; 4] = [Kind::Header, Kind::Data, Kind::Header, Kind::Reference];

// The address of the last of the three objects.
const LAST: u64 = F + 5;

// The kinds of those of edition two.
const WEAK_KINDS: [Kind; 6] = [
    Kind::Header,
    Kind::Weak,
    Kind::Weak,
    Kind::Data,
    Kind::Header,
    Kind::Reference,
];

// Objects that slide over a gap; weak words and references, also to objects that are not marked.
static OVER_A_GAP: [PlannedHeap; 2] = [
    PlannedHeap {
        name: "slides a gap shut",
        heap: Worked::Three,
        answers: &[
            PlanAnswer::Counts(4, 1),
            PlanAnswer::Forward(LAST, Some(T + 2)),
            PlanAnswer::Forward(F, Some(T)),
            PlanAnswer::Forward(0, Some(0)),
            PlanAnswer::Forward(F + 1, None),
            PlanAnswer::Forward(F + 2, None),
            PlanAnswer::Forward(F + 6, None),
            PlanAnswer::Forward(F + 7, None),
            PlanAnswer::Forward(1, None),
            PlanAnswer::Forward(T, None),
            PlanAnswer::Forward(u64::MAX, None),
            PlanAnswer::Roots(&[T + 2]),
            PlanAnswer::Objects(0, Slid::Three),
            PlanAnswer::Kinds(0, &THREE_KINDS),
        ],
    },
    PlannedHeap {
        name: "slides weak words",
        heap: Worked::Weak,
        answers: &[
            PlanAnswer::Counts(6, 1),
            PlanAnswer::First(0, Some(0)),
            PlanAnswer::First(1, None),
            PlanAnswer::Forward(LAST, Some(T + 4)),
            PlanAnswer::Forward(F, Some(T)),
            PlanAnswer::Forward(F + 4, None),
            PlanAnswer::Forward(F + 1, None),
            PlanAnswer::Roots(&[T + 4]),
            PlanAnswer::Objects(0, Slid::Weak),
            PlanAnswer::Kinds(0, &WEAK_KINDS),
            PlanAnswer::Shape(T, Some((0, 2, 1, 1))),
            PlanAnswer::Shape(T + 4, Some((1, 0, 0, 3))),
            PlanAnswer::Shape(T + 1, None),
            PlanAnswer::Shape(T + 2, None),
            PlanAnswer::LiveWords(6),
            PlanAnswer::Place(2, Some(2)),
            PlanAnswer::Place(4, None),
            PlanAnswer::Place(5, Some(4)),
        ],
    },
];

#[test]
fn marked_objects_slide_over_gaps_and_references_follow(rt: HostRuntime) {
    expect_planned(&rt, &OVER_A_GAP);
}

// Pages of one object, of an object after a gap, of many, and of none.
static ONTO_PAGES: [PlannedHeap; 6] = [
    PlannedHeap {
        name: "the smallest heap",
        heap: Worked::Smallest,
        answers: &[PlanAnswer::Objects(0, Slid::Smallest)],
    },
    PlannedHeap {
        name: "an object of 65 words",
        heap: Worked::Counting(64),
        answers: &[PlanAnswer::Page(1, &[64])],
    },
    PlannedHeap {
        name: "an object of 64 words",
        heap: Worked::Zeros(63),
        answers: &[PlanAnswer::Counts(64, 1)],
    },
    PlannedHeap {
        name: "an object across blocks",
        heap: Worked::AcrossBlocks,
        answers: &[PlanAnswer::Page(0, &[131_072, 5, 6])],
    },
    PlannedHeap {
        name: "seventeen pages",
        heap: Worked::Seventeen,
        answers: &[
            PlanAnswer::Counts(1_025, 17),
            PlanAnswer::Page(16, &[1_023]),
            PlanAnswer::First(16, Some(1)),
        ],
    },
    PlannedHeap {
        name: "an empty heap",
        heap: Worked::Empty,
        answers: &[PlanAnswer::Counts(0, 0)],
    },
];

#[test]
fn slid_words_fill_pages_of_64_words(rt: HostRuntime) {
    expect_planned(&rt, &ONTO_PAGES);
}

// Checks page 0 of the three objects, as a builder that counts builds it and as its plan does.
fn expect_builds(rt: &(impl Abort + AllocGlobal), counting: &Counting) {
    let at = At::new("any builder", 0);
    let wanted = slid_words(Slid::Three);
    expect_eq(rt, at, counting.count(), 0);
    expect_words(rt, at, &page_of(rt, counting, 0), &wanted);
    expect_eq(rt, at, counting.count(), 1);
    expect_words(rt, at, &page_of(rt, &counting.plan, 0), &wanted);
}

#[test]
fn any_builder_builds_the_page_of_its_plan(rt: HostRuntime) {
    let plan = plan_of(&rt, rt.alloc(), Worked::Three).expect(&rt, "a plan");
    let counting = Counting::new(plan);
    expect_builds(&rt, &counting);
}

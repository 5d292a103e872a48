//! Plans and tables compared with the plain walk.
use crate::expected::{expect_eq, expect_so};
use crate::plain_walk::{self, Marked};
use crate::plan_answers::{page_of, tables_of};
use heap_layout::Edition;
use mark_tables::Tables;
use page_plan::Plan;
use std::process::Abort;
use std::thread::Threads;
use test_support::{At, F, T, Worked, plan_of};

// The heap of a plan, in the form that the plain walk reads.
fn marked(plan: &Plan) -> Marked<'_> {
    let heap = plan.heap();
    Marked {
        edition: heap.edition(),
        words: heap.words(),
        marks: heap.marks(),
    }
}

// The row that a failing comparison prints: the number of a page or a word.
fn by_walk(row: u64) -> At<'static> {
    At {
        case: "a plain walk",
        row,
    }
}

// Checks that the plan counts the same words and pages as the plain walk.
fn expect_plain_counts(rt: &impl Abort, plan: &Plan) {
    let heap = marked(plan);
    let (words, pages) = (plain_walk::live_words(heap), plain_walk::pages(heap));
    expect_eq(rt, by_walk(0), plan.live_words(), words);
    expect_eq(rt, by_walk(1), plan.pages(), pages);
}

// Checks that page `p` of the plan is that of the plain walk.
fn expect_plain_page(rt: &(impl Abort + AllocGlobal), plan: &Plan, p: u32) {
    let wanted = plain_walk::page(marked(plan), p);
    let page = page_of(rt, plan, u64::from(p));
    expect_so(rt, by_walk(u64::from(p)), *page.as_array() == wanted);
}

// Checks that the first objects and all pages of the plan are those of the plain walk.
fn expect_plain_pages(rt: &(impl Abort + AllocGlobal), plan: &Plan) {
    for p in 0..2_000u32 {
        let first = plain_walk::first_object(marked(plan), p);
        let row = u64::from(p);
        expect_eq(rt, by_walk(row), plan.first_object(row), first);
        if row >= plan.pages() {
            break;
        }
        expect_plain_page(rt, plan, p);
    }
}

// Checks forwarding addresses, starts and headers of objects, and the new places of words against the plain walk.
fn expect_plain_places(rt: &impl Abort, heap: Marked, plan: &Plan, tables: &Tables) {
    for i in 0..600u64 {
        let so = plan.forward(F + i) == plain_walk::forward(heap, F + i)
            && plan.shape_at(T + i) == plain_walk::shape_at(heap, T + i)
            && plan.is_start(T + i) == plain_walk::shape_at(heap, T + i).is_some()
            && tables.new_place(i) == plain_walk::new_place(heap, i);
        expect_so(rt, by_walk(i), so);
    }
}

// Checks that the plan of a heap and the new places of its words are those of the plain walk.
fn expect_plain(rt: &(impl Abort + AllocGlobal), plan: &Plan, tables: &Tables) {
    expect_plain_counts(rt, plan);
    expect_plain_pages(rt, plan);
    expect_plain_places(rt, marked(plan), plan, tables);
}

// Checks the plans of these heaps.
fn expect_all_plain(rt: &(impl Abort + AllocGlobal + Threads + Sync), heaps: &[Worked]) {
    for heap in heaps {
        let plan = plan_of(rt, rt.alloc(), *heap).expect(rt, "a plan");
        expect_plain(rt, &plan, &tables_of(rt, &plan));
    }
}

// Some heaps; one object of each of these sizes, marked and not; and scattered objects of each edition, few and many
// of them marked.
static HEAPS: [Worked; 100] = [
    Worked::Step,
    Worked::Three,
    Worked::Weak,
    Worked::EverySecond(1_000),
    Worked::Empty,
    Worked::Counting(62),
    Worked::Unmarked(62),
    Worked::Counting(63),
    Worked::Unmarked(63),
    Worked::Counting(64),
    Worked::Unmarked(64),
    Worked::Counting(127),
    Worked::Unmarked(127),
    Worked::Counting(128),
    Worked::Unmarked(128),
    Worked::Counting(150),
    Worked::Unmarked(150),
    Worked::Counting(1_023),
    Worked::Unmarked(1_023),
    Worked::Scattered(Edition::One, 0, 0),
    Worked::Scattered(Edition::One, 0, 1),
    Worked::Scattered(Edition::One, 0, 2),
    Worked::Scattered(Edition::One, 0, 4),
    Worked::Scattered(Edition::One, 1, 0),
    Worked::Scattered(Edition::One, 1, 1),
    Worked::Scattered(Edition::One, 1, 2),
    Worked::Scattered(Edition::One, 1, 4),
    Worked::Scattered(Edition::One, 2, 0),
    Worked::Scattered(Edition::One, 2, 1),
    Worked::Scattered(Edition::One, 2, 2),
    Worked::Scattered(Edition::One, 2, 4),
    Worked::Scattered(Edition::One, 3, 0),
    Worked::Scattered(Edition::One, 3, 1),
    Worked::Scattered(Edition::One, 3, 2),
    Worked::Scattered(Edition::One, 3, 4),
    Worked::Scattered(Edition::One, 4, 0),
    Worked::Scattered(Edition::One, 4, 1),
    Worked::Scattered(Edition::One, 4, 2),
    Worked::Scattered(Edition::One, 4, 4),
    Worked::Scattered(Edition::One, 5, 0),
    Worked::Scattered(Edition::One, 5, 1),
    Worked::Scattered(Edition::One, 5, 2),
    Worked::Scattered(Edition::One, 5, 4),
    Worked::Scattered(Edition::One, 6, 0),
    Worked::Scattered(Edition::One, 6, 1),
    Worked::Scattered(Edition::One, 6, 2),
    Worked::Scattered(Edition::One, 6, 4),
    Worked::Scattered(Edition::One, 7, 0),
    Worked::Scattered(Edition::One, 7, 1),
    Worked::Scattered(Edition::One, 7, 2),
    Worked::Scattered(Edition::One, 7, 4),
    Worked::Scattered(Edition::Two, 0, 0),
    Worked::Scattered(Edition::Two, 0, 1),
    Worked::Scattered(Edition::Two, 0, 2),
    Worked::Scattered(Edition::Two, 0, 4),
    Worked::Scattered(Edition::Two, 1, 0),
    Worked::Scattered(Edition::Two, 1, 1),
    Worked::Scattered(Edition::Two, 1, 2),
    Worked::Scattered(Edition::Two, 1, 4),
    Worked::Scattered(Edition::Two, 2, 0),
    Worked::Scattered(Edition::Two, 2, 1),
    Worked::Scattered(Edition::Two, 2, 2),
    Worked::Scattered(Edition::Two, 2, 4),
    Worked::Scattered(Edition::Two, 3, 0),
    Worked::Scattered(Edition::Two, 3, 1),
    Worked::Scattered(Edition::Two, 3, 2),
    Worked::Scattered(Edition::Two, 3, 4),
    Worked::Scattered(Edition::Two, 4, 0),
    Worked::Scattered(Edition::Two, 4, 1),
    Worked::Scattered(Edition::Two, 4, 2),
    Worked::Scattered(Edition::Two, 4, 4),
    Worked::Scattered(Edition::Two, 5, 0),
    Worked::Scattered(Edition::Two, 5, 1),
    Worked::Scattered(Edition::Two, 5, 2),
    Worked::Scattered(Edition::Two, 5, 4),
    Worked::Scattered(Edition::Two, 6, 0),
    Worked::Scattered(Edition::Two, 6, 1),
    Worked::Scattered(Edition::Two, 6, 2),
    Worked::Scattered(Edition::Two, 6, 4),
    Worked::Scattered(Edition::Two, 7, 0),
    Worked::Scattered(Edition::Two, 7, 1),
    Worked::Scattered(Edition::Two, 7, 2),
    Worked::Scattered(Edition::Two, 7, 4),
    Worked::Mixed,
    Worked::Scattered(Edition::Three, 0, 0),
    Worked::Scattered(Edition::Three, 0, 1),
    Worked::Scattered(Edition::Three, 0, 2),
    Worked::Scattered(Edition::Three, 0, 4),
    Worked::Scattered(Edition::Three, 1, 0),
    Worked::Scattered(Edition::Three, 1, 1),
    Worked::Scattered(Edition::Three, 1, 2),
    Worked::Scattered(Edition::Three, 1, 4),
    Worked::Scattered(Edition::Three, 2, 0),
    Worked::Scattered(Edition::Three, 2, 1),
    Worked::Scattered(Edition::Three, 2, 2),
    Worked::Scattered(Edition::Three, 2, 4),
    Worked::Scattered(Edition::Three, 3, 0),
    Worked::Scattered(Edition::Three, 3, 1),
    Worked::Scattered(Edition::Three, 3, 2),
    Worked::Scattered(Edition::Three, 3, 4),
];

#[test]
fn plans_and_tables_agree_with_a_plain_walk(rt: HostRuntime) {
    expect_all_plain(&rt, &HEAPS);
}

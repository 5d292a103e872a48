//! What the plan of a heap and its tables answer.
use crate::expected::expect_eq;
use heap_layout::{Header, Kind, PageWords};
use mark_tables::Tables;
use page_plan::{Builder, Plan};
use std::process::Abort;
use std::thread::Threads;
use test_support::{At, T, Worked, page_words, plan_of};

/// The objects that slide of a worked heap, by the name of the heap.
#[derive(Clone, Copy)]
pub enum Slid {
    Smallest,
    Three,
    Weak,
}

/// The words of these objects after the slide, and zeros behind them. Of the three objects of edition two the first
/// weak word is null, since its object was not marked.
pub fn slid_words(slid: Slid) -> [u64; 6] {
    match slid {
        Slid::Smallest => [Header::new(0, 0, 7).word(), 0, 0, 0, 0, 0],
        Slid::Three => [
            Header::new(0, 1, 1).word(),
            11,
            Header::new(1, 0, 3).word(),
            T,
            0,
            0,
        ],
        Slid::Weak => [
            Header::new_weak(0, 2, 1, 1).word(),
            0,
            T + 4,
            9,
            Header::new_weak(1, 0, 0, 3).word(),
            T,
        ],
    }
}

/// A question and its answer.
pub enum PlanAnswer {
    /// The numbers of live words and pages of the plan.
    Counts(u64, u64),
    /// The forwarding address of this reference.
    Forward(u64, Option<u64>),
    /// The forwarding addresses of all roots.
    Roots(&'static [u64]),
    /// The first object of the page.
    First(u64, Option<u64>),
    /// The slid object at this address: its numbers of references, weak words and data words, and its tag.
    Shape(u64, Option<(u32, u32, u32, u32)>),
    /// The kinds of the first words of the page. No other word has a kind.
    Kinds(u64, &'static [Kind]),
    /// The first words of the page, which exists. All others are 0.
    Page(u64, &'static [u64]),
    /// All words of the page, which exists: those of these objects.
    Objects(u64, Slid),
    /// A word of a page, which exists: the page, the offset and the word.
    Word(u64, u8, u64),
    /// The same of a header without fields, with its tag in place of the word.
    Tagged(u64, u8, u32),
    /// The number of live words below this word, which is live, or `None` if it is not.
    Place(u64, Option<u64>),
    /// The number of live words by the tables.
    LiveWords(u64),
}

/// A heap and what its plan answers.
pub struct PlannedHeap {
    /// The name that a failing test prints.
    pub name: &'static str,
    pub heap: Worked,
    pub answers: &'static [PlanAnswer],
}

/// Page `p`, which exists, by any builder, for example a plan.
pub fn page_of<B: Builder>(rt: &(impl Abort + AllocGlobal), builder: &B, p: u64) -> PageWords {
    assert!(rt; p < builder.plan().pages());
    builder.build(rt.alloc(), p).expect(rt, "memory for a page")
}

/// Checks that the page begins with these words and all others are 0.
pub fn expect_words(rt: &impl Abort, at: At, page: &PageWords, begin: &[u64]) {
    let wanted = page_words(begin);
    expect_eq(rt, at, page.as_array().as_slice(), wanted.as_slice());
}

// The word of the page at this offset.
fn word_of(page: &PageWords, offset: u8) -> Option<u64> {
    page.as_array().get(usize::from(offset)).copied()
}

// The shape of the slid object at an address.
fn shape_at(plan: &Plan, address: u64) -> Option<(u32, u32, u32, u32)> {
    let header = plan.shape_at(address)?;
    Some((
        header.refs(),
        header.weak(),
        header.data_words(),
        header.tag(),
    ))
}

// Checks that the first words of the page, which exists, have these kinds, and that no other word has one.
fn expect_kinds(rt: &impl Abort, at: At, plan: &Plan, p: u64, begin: &[Kind]) {
    assert!(rt; p < plan.pages());
    let kinds = plan.page_kinds(p);
    for (offset, kind) in kinds.iter().enumerate() {
        expect_eq(rt, at, *kind, begin.get(offset).copied());
    }
}

// Checks an answer.
fn expect_answer(
    rt: &(impl Abort + AllocGlobal),
    at: At,
    plan: &Plan,
    tables: &Tables,
    answer: &PlanAnswer,
) {
    match *answer {
        PlanAnswer::Counts(words, pages) => {
            expect_eq(rt, at, plan.live_words(), words);
            expect_eq(rt, at, plan.pages(), pages)
        }
        PlanAnswer::Forward(reference, address) => expect_eq(
            rt,
            at,
            plan.forward(reference),
            address,
        ),
        PlanAnswer::Roots(wanted) => {
            let roots = plan
                .forward_roots(rt.alloc())
                .expect(rt, "memory for roots");
            expect_eq(rt, at, roots.as_slice(), wanted)
        }
        PlanAnswer::First(p, first) => expect_eq(rt, at, plan.first_object(p), first),
        PlanAnswer::Shape(address, shape) => expect_eq(rt, at, shape_at(plan, address), shape),
        PlanAnswer::Kinds(p, begin) => expect_kinds(rt, at, plan, p, begin),
        PlanAnswer::Page(p, begin) => expect_words(rt, at, &page_of(rt, plan, p), begin),
        PlanAnswer::Objects(p, slid) => {
            expect_words(rt, at, &page_of(rt, plan, p), &slid_words(slid))
        }
        PlanAnswer::Word(p, offset, word) => {
            expect_eq(rt, at, word_of(&page_of(rt, plan, p), offset), Some(word))
        }
        PlanAnswer::Tagged(p, offset, tag) => {
            let word = Header::new(0, 0, tag).word();
            expect_eq(rt, at, word_of(&page_of(rt, plan, p), offset), Some(word))
        }
        PlanAnswer::Place(i, place) => {
            expect_eq(rt, at, tables.new_place(i), place);
            expect_eq(rt, at, tables.is_live(i), place.is_some())
        }
        PlanAnswer::LiveWords(wanted) => expect_eq(rt, at, tables.live_words(), wanted),
    }
}

// Checks the answers of a heap.
fn expect_answers(
    rt: &(impl Abort + AllocGlobal),
    name: &'static str,
    plan: &Plan,
    tables: &Tables,
    answers: &[PlanAnswer],
) {
    for (row, answer) in answers.iter().enumerate() {
        expect_answer(rt, At::new(name, row), plan, tables, answer);
    }
}

/// The tables of a plan.
pub fn tables_of(rt: &(impl Abort + AllocGlobal + Threads + Sync), plan: &Plan) -> Tables {
    Tables::build(rt.alloc(), rt, plan.heap()).expect(rt, "memory for tables")
}

/// Checks the answers of the plans of these heaps, and of their tables.
pub fn expect_planned(rt: &(impl Abort + AllocGlobal + Threads + Sync), heaps: &[PlannedHeap]) {
    for planned in heaps {
        let plan = plan_of(rt, rt.alloc(), planned.heap).expect(rt, "a plan");
        expect_answers(
            rt,
            planned.name,
            &plan,
            &tables_of(rt, &plan),
            planned.answers,
        );
    }
}

//! Pictures of heaps in cells of pages, by the number of their cells.
use crate::expected::{expect_eq, expect_so};
use crate::pictures::{count_of, expect_defined, picture_of};
use heap_layout::{Header, MarkedHeap};
use page_plan::Plan;
use std::alloc::Global;
use std::process::Abort;
use test_support::{Worked, plan_of};

// How many shades the legend shows.
const SHOWN: usize = 6;

// Checks the shades and the size of the picture of the heap of a plan.
fn expect_cells(rt: &impl Abort, alloc: Global, plan: &Plan, cells: usize, scale: &str) {
    let picture = picture_of(rt, alloc, plan, None);
    let text = picture.as_str();
    expect_eq(
        rt,
        scale,
        count_of(text, "<use xlink:href=\"#s"),
        SHOWN.saturating_add(cells),
    );
    expect_so(rt, scale, text.contains(scale));
    expect_so(rt, scale, picture.len() < 2_000_000);
    expect_defined(rt, text);
}

// 4,097 objects of one word fill 65 pages, and the marked ones 33.
#[test]
fn a_cell_is_a_page_from_65_pages_on(rt: HostRuntime) {
    let plan = plan_of(&rt, rt.alloc(), Worked::EverySecond(4_097)).expect(&rt, "the plan");
    expect_cells(&rt, rt.alloc(), &plan, 65 + 33, "Pages in a cell: 1.");
}

// The words of 1,024 objects of 1,024 words each, which are all marked.
fn largest(alloc: Global) -> Option<MarkedHeap> {
    let mut words = vec![in alloc; 0u64; 1_048_576].ok()?;
    let mut marks = Vec::new(alloc);
    for i in 0..1_024u32 {
        let start = i.wrapping_mul(1_024);
        *words.get_mut(start as usize)? = Header::new(0, 1_023, 0).word();
        marks.push(start).ok()?;
    }
    MarkedHeap::from_parts(words, marks, Vec::new(alloc)).ok()
}

// The most words of edition one are 16,384 pages in both spaces, two in a cell.
#[test]
fn the_largest_heap_of_edition_one_has_8192_cells(rt: HostRuntime) {
    let heap = largest(rt.alloc()).expect(&rt, "the heap");
    let plan = Plan::new(rt.alloc(), &rt, heap)
        .ok()
        .expect(&rt, "the plan");
    expect_cells(&rt, rt.alloc(), &plan, 2 * 8_192, "Pages in a cell: 2.");
}

// The first object has 70,000 references, and the second has one.
#[test]
fn many_fields_are_drawn_by_page(rt: HostRuntime) {
    let plan = plan_of(&rt, rt.alloc(), Worked::ManyFields).expect(&rt, "the plan");
    let picture = picture_of(&rt, rt.alloc(), &plan, None);
    let text = picture.as_str();
    expect_so(&rt, "no arcs", text.contains("no arcs: 70001 references"));
    expect_so(&rt, "the size", picture.len() < 2_000_000);
}

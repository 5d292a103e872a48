//! The picture of a heap with immediates: nothing is drawn where they would lead.
use crate::expected::expect_eq;
use crate::pictures::{around_shapes, count_of, picture_of};
use heap_layout::{Edition, FIRST_IMMEDIATE, FROM_SPACE, Header, MarkedHeap, TO_SPACE};
use page_plan::Plan;
use std::alloc::Global;

// One object, whose first reference is an immediate, and whose second leads to the object. The second root is an
// immediate whose low bits are a to-space address.
fn heap_of_two_immediates(alloc: Global) -> Option<MarkedHeap> {
    let header = Header::new_mixed(2, 0, 0, 7).word();
    let words = vec![in alloc; header, FIRST_IMMEDIATE + 5, FROM_SPACE].ok()?;
    let marks = vec![in alloc; 0u32].ok()?;
    let roots = vec![in alloc; FROM_SPACE, FIRST_IMMEDIATE + TO_SPACE].ok()?;
    MarkedHeap::from_parts_of(Edition::Four, words, marks, roots).ok()
}

#[test]
fn immediates_have_no_arcs_and_no_arrows(rt: HostRuntime) {
    let heap = heap_of_two_immediates(rt.alloc()).expect(&rt, "the heap");
    let plan = Plan::new(rt.alloc(), &rt, heap)
        .ok()
        .expect(&rt, "the plan");
    let picture = picture_of(&rt, rt.alloc(), &plan, None);
    let (_, body) = around_shapes(&rt, picture.as_str());
    // One arc in each space, and an arrow in each and in the legend.
    expect_eq(&rt, "arcs", count_of(body, "<path d=\"M"), 2);
    expect_eq(
        &rt,
        "arrows",
        count_of(body, "<use xlink:href=\"#root\""),
        3,
    );
}

//! Small heaps, with the marks that a person reads off.
use crate::expected::{expect_eq, expect_items};
use crate::heaps::{three, weak};
use crate::judged::{expect_fault, expect_heap, expect_heap_fault, expect_marks};
use heap_layout::{Edition, FROM_SPACE as F, Header, LayoutFault, MarkedHeap};
use reachability::{reachable_marks, remarked_heap};
use std::test::Fail;
use test_support::At;

#[test]
fn references_are_followed(rt: HostRuntime) {
    let words = three();
    let rows: [(&str, &[u64], &[u32]); 5] = [
        ("no roots", &[], &[]),
        ("null and the first", &[0, F], &[0]),
        ("the second twice", &[F + 2, F + 2], &[2]),
        ("the last", &[F + 5], &[0, 5]),
        ("the last and the second", &[F + 5, F + 2], &[0, 2, 5]),
    ];
    for (name, roots, marks) in rows {
        expect_marks(&rt, name, Edition::One, &words, roots, marks);
    }
    expect_marks(&rt, "no words", Edition::One, &[], &[], &[]);
}

#[test]
fn words_that_lead_to_no_object_are_passed_over(rt: HostRuntime) {
    let words = three();
    let roots = [F + 1, 5, F + 7, F + 64, F - 1, u64::MAX];
    expect_marks(&rt, "astray", Edition::One, &words, &roots, &[]);
}

#[test]
fn weak_words_are_not_followed(rt: HostRuntime) -> Result<(), Fail> {
    let words = weak();
    expect_marks(&rt, "marks", Edition::Two, &words, &[F], &[0, 4]);
    expect_heap(&rt, "heap", Edition::Two, &words, &[F], &[0, 4])?;
    expect_heap(&rt, "both", Edition::Two, &words, &[F, F + 3], &[0, 3, 4])?;
    Ok(())
}

#[test]
fn a_list_of_objects_is_followed_to_its_end(rt: HostRuntime) -> Result<(), Fail> {
    let mut words = Vec::new(rt.alloc());
    for i in 0..1000u64 {
        words.push(Header::new(1, 0, 0).word())?;
        words.push(if i == 0 { 0 } else { F + 2 * (i - 1) })?;
    }
    let marks = reachable_marks(rt.alloc(), Edition::One, &words, &[F + 1998])?;
    expect_eq(&rt, At::new("all", 0), marks.len(), 1000);
    let half = reachable_marks(rt.alloc(), Edition::One, &words, &[F + 998])?;
    expect_eq(&rt, At::new("half", 0), half.len(), 500);
    Ok(())
}

#[test]
fn the_first_fault_is_answered(rt: HostRuntime) -> Result<(), Fail> {
    let words = three();
    let (roots, fault) = ([F + 1, F], LayoutFault::BadRoot(0));
    expect_heap_fault(&rt, "two roots", Edition::One, &words, &roots, fault)?;
    let (short, fault) = (&words[..6], LayoutFault::ObjectPastEnd(5));
    expect_fault(&rt, "past the end", Edition::One, short, &[F + 1], fault)?;
    let mut bad = words;
    bad[6] = F + 1;
    let fault = LayoutFault::UnmarkedTarget(6);
    expect_heap_fault(&rt, "a reference", Edition::One, &bad, &[F + 5], fault)?;
    expect_heap(&rt, "not reached", Edition::One, &bad, &[F], &[0])?;
    let mut bad = weak();
    bad[2] = F + 1;
    let fault = LayoutFault::BadWeak(2);
    expect_heap_fault(&rt, "a weak word", Edition::Two, &bad, &[F], fault)?;
    expect_heap(&rt, "not held", Edition::Two, &bad, &[F + 4], &[4])?;
    Ok(())
}

#[test]
fn an_accepted_heap_is_marked_anew(rt: HostRuntime) -> Result<(), Fail> {
    let words = Vec::from_slice(rt.alloc(), &three())?;
    let marks = Vec::from_slice(rt.alloc(), &[0, 2, 5])?;
    let roots = Vec::from_slice(rt.alloc(), &[F])?;
    let heap = MarkedHeap::from_parts(words, marks, roots)?;
    let next = remarked_heap(rt.alloc(), &heap)?;
    expect_items(&rt, At::new("marks", 0), next.marks(), &[0]);
    expect_items(&rt, At::new("words", 0), next.words(), heap.words());
    expect_items(&rt, At::new("roots", 0), next.roots(), heap.roots());
    expect_items(&rt, At::new("marks before", 0), heap.marks(), &[0, 2, 5]);
    Ok(())
}

#[test]
fn an_accepted_heap_of_edition_three_is_marked_anew(rt: HostRuntime) -> Result<(), Fail> {
    let words = Vec::from_slice(rt.alloc(), &[0, 0, 0])?;
    let marks = Vec::from_slice(rt.alloc(), &[0, 1, 2])?;
    let roots = Vec::from_slice(rt.alloc(), &[F + 2, 0, F + 2])?;
    let heap = MarkedHeap::from_parts_of(Edition::Three, words, marks, roots)?;
    let next = remarked_heap(rt.alloc(), &heap)?;
    expect_items(&rt, At::new("marks", 0), next.marks(), &[2]);
    expect_eq(&rt, At::new("edition", 0), next.edition(), Edition::Three);
    Ok(())
}

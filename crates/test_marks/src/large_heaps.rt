//! Objects with very many fields, and the limits of each edition.
use crate::heaps::{push_header, push_words};
use crate::judged::{expect_fault, expect_heap, expect_marks};
use heap_layout::{Edition, FROM_SPACE as F, Header, LayoutFault};
use std::test::Fail;

// Of the 70,000 references of the object at 0 the last leads to the object at 70,001, whose 70,000 weak words are null.
// That at 140,002 is not reached.
#[test]
fn the_last_of_70_000_references_is_followed(rt: HostRuntime) -> Result<(), Fail> {
    let mut words = Vec::new(rt.alloc());
    push_header(&rt, &mut words, 70_000, 0, 0)?;
    push_words(&mut words, 69_999, 0)?;
    push_words(&mut words, 1, F + 70_001)?;
    push_header(&rt, &mut words, 0, 70_000, 0)?;
    push_words(&mut words, 70_000, 0)?;
    push_header(&rt, &mut words, 0, 0, 0)?;
    expect_heap(&rt, "first", Edition::Three, &words, &[F], &[0, 70_001])?;
    let (last, marks) = ([F + 140_002], [140_002]);
    expect_heap(&rt, "last", Edition::Three, &words, &last, &marks)?;
    let fault = LayoutFault::ObjectTooLong(0);
    expect_fault(&rt, "edition two", Edition::Two, &words, &[F], fault)?;
    Ok(())
}

// An object of 1,048,577 words, one behind it that leads to a third, and the third, which leads to the first.
#[test]
fn references_behind_word_1_048_576_are_followed(rt: HostRuntime) -> Result<(), Fail> {
    let mut words = Vec::new(rt.alloc());
    push_header(&rt, &mut words, 0, 0, 1_048_576)?;
    push_words(&mut words, 1_048_576, F)?;
    push_header(&rt, &mut words, 1, 0, 0)?;
    push_words(&mut words, 1, F + 1_048_579)?;
    push_header(&rt, &mut words, 1, 0, 0)?;
    push_words(&mut words, 1, F)?;
    let roots = [F + 1_048_577];
    let marks = [0, 1_048_577, 1_048_579];
    expect_heap(&rt, "second", Edition::Three, &words, &roots, &marks)?;
    expect_heap(&rt, "first", Edition::Three, &words, &[F], &[0])?;
    let fault = LayoutFault::TooLarge;
    expect_fault(&rt, "edition two", Edition::Two, &words, &roots, fault)?;
    expect_fault(&rt, "edition one", Edition::One, &words, &roots, fault)?;
    Ok(())
}

// A word that is 0 is an object of one word in each edition.
#[test]
fn the_words_of_an_edition_are_limited(rt: HostRuntime) -> Result<(), Fail> {
    let mut words = Vec::new(rt.alloc());
    push_words(&mut words, 1_048_576, 0)?;
    let last = [F + 1_048_575];
    expect_marks(
        &rt,
        "most of one",
        Edition::One,
        &words,
        &last,
        &[1_048_575],
    );
    expect_marks(
        &rt,
        "most of two",
        Edition::Two,
        &words,
        &last,
        &[1_048_575],
    );
    push_words(&mut words, 1, 0)?;
    let fault = LayoutFault::TooLarge;
    expect_fault(&rt, "edition one", Edition::One, &words, &last, fault)?;
    expect_fault(&rt, "edition two", Edition::Two, &words, &last, fault)?;
    let next = [F + 1_048_576];
    expect_marks(&rt, "three", Edition::Three, &words, &next, &[1_048_576]);
    Ok(())
}

#[test]
fn the_roots_of_an_edition_are_limited(rt: HostRuntime) -> Result<(), Fail> {
    let fault = LayoutFault::TooLarge;
    let mut roots = Vec::new(rt.alloc());
    push_words(&mut roots, 4_096, 0)?;
    expect_marks(&rt, "most of two", Edition::Two, &[0], &roots, &[]);
    push_words(&mut roots, 1, F)?;
    expect_fault(&rt, "edition two", Edition::Two, &[0], &roots, fault)?;
    expect_marks(&rt, "three", Edition::Three, &[0], &roots, &[0]);
    push_words(&mut roots, 1_044_479, 0)?;
    expect_marks(&rt, "most of three", Edition::Three, &[0], &roots, &[0]);
    push_words(&mut roots, 1, 0)?;
    expect_fault(&rt, "edition three", Edition::Three, &[0], &roots, fault)?;
    Ok(())
}

#[test]
fn objects_that_are_too_long_are_refused(rt: HostRuntime) -> Result<(), Fail> {
    let mut words = Vec::new(rt.alloc());
    push_words(&mut words, 1, Header::new(0, 1_023, 0).word())?;
    push_words(&mut words, 1_023, 0)?;
    expect_heap(&rt, "longest of one", Edition::One, &words, &[F], &[0])?;
    push_words(&mut words, 1, Header::new(0, 1_024, 0).word())?;
    push_words(&mut words, 1_024, 0)?;
    let fault = LayoutFault::ObjectTooLong(1_024);
    expect_fault(&rt, "edition one", Edition::One, &words, &[F], fault)?;
    expect_fault(&rt, "edition two", Edition::Two, &words, &[F], fault)?;
    expect_heap(&rt, "three", Edition::Three, &words, &[F], &[0])?;
    push_words(&mut words, 1, Header::new(0, 1, 0).word())?;
    let fault = LayoutFault::ObjectPastEnd(2_049);
    expect_fault(&rt, "past the end", Edition::Three, &words, &[F], fault)?;
    Ok(())
}

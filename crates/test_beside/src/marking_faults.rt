//! Markings that are refused, and markings of words that change meanwhile.
ghost use Rattle.std.specs.Prelude.{◌≡◌, IfSome};

use crate::expected::{expect_eq, expect_so};
use crate::markings::{begun, expect_same, finished, help_all};
use heap_layout::{Edition, FROM_SPACE as F};
use mark_job::{Help, Marking, MarkingEnd, MarkingFault, MeetFault, Met, WrongLength};
use std::alloc::Global;
use std::process::Abort;
use stopped_heap::{BitsFault, Places};
use test_support::At;

// What comes of one thread's marking of these words from these roots.
fn alone(
    rt: &(impl Abort + AllocGlobal),
    case: &str,
    words: &[u64],
    roots: &[u64],
) -> Result<Places, MarkingEnd> {
    let marking = begun(rt, words.len(), roots);
    let done = help_all(&marking, rt.alloc(), words, 0);
    expect_so(rt, At::new(case, 0), done);
    finished(marking, rt.alloc(), roots)
}

#[test]
fn faults(rt: HostRuntime) {
    for (case, words, root, fault) in [
        (
            "past the end",
            [2, F + 3, 0, 1],
            F,
            MarkingEnd::BadObject(3),
        ),
        (
            "its last word",
            [2, F + 2, 0, 1],
            F,
            MarkingEnd::BadObject(2),
        ),
        (
            "its own word",
            [1, F + 1, 0, 0],
            F,
            MarkingEnd::BadObject(1),
        ),
    ] {
        let found = alone(&rt, case, &words, &[root]).err();
        expect_eq(&rt, At::new(case, 1), found, Some(fault));
    }
    // A reference that leads nowhere is refused by the slide.
    let places = alone(&rt, "nowhere", &[1, F + 4, 0, 0], &[F]).ok();
    expect_so(&rt, At::new("nowhere", 1), places.is_some());
}

// An object is found, and a reference to it is written over before the other one is looked at.
#[test]
fn other_words_than_before(rt: HostRuntime) {
    let alloc = rt.alloc();
    let marking = begun(&rt, 6, &[F]);
    let said = marking.help(alloc, &[1, F + 2, 1, F + 4, 0, 0], 0);
    expect_eq(&rt, At::new("written over", 0), said, Ok(Help::Worked));
    let ended = finished(marking, alloc, &[F + 4]).is_ok();
    expect_so(&rt, At::new("written over", 1), ended);
    let marking = begun(&rt, 6, &[F]);
    let ended = finished(marking, alloc, &[F]).err();
    expect_eq(
        &rt,
        At::new("not helped", 0),
        ended,
        Some(MarkingEnd::Waiting),
    );
    let marking = begun(&rt, 6, &[F]);
    let said = marking.help(alloc, &[0; 5], 0);
    expect_eq(&rt, At::new("fewer words", 0), said, Err(WrongLength));
    let done = help_all(&marking, alloc, &[1, F + 2, 0, 0, 0, 0], 3);
    expect_so(&rt, At::new("fewer words", 1), done);
    let ended = finished(marking, alloc, &[F, F + 3]).err();
    let fault = MarkingEnd::Bits(BitsFault::BadRoot(1));
    expect_eq(&rt, At::new("another root", 0), ended, Some(fault));
}

// Meets these values, and goes on until all is done.
fn met_too(marking: &Marking, alloc: Global, words: &[u64], values: &[u64]) -> Option<Met>
    ensures { IfSome result (λ met. met.table ≡ marking.now.table) }
{
    let mut met = marking.enter();
    if marking.meet(alloc, values, &mut met).is_err() || !help_all(marking, alloc, words, 0) {
        return None;
    }
    Some(met)
}

#[test]
fn values_are_met(rt: HostRuntime) {
    let alloc = rt.alloc();
    let words = [0, 1, F, 1, F + 1, 0, 0];
    let marking = begun(&rt, 7, &[]);
    let said = marking.help(alloc, &words, 0);
    expect_eq(&rt, At::new("no root", 0), said, Ok(Help::Done));
    let mut met = marking.enter();
    let said = marking.meet(alloc, &[0, 7, F], &mut met);
    expect_eq(
        &rt,
        At::new("a value", 0),
        said,
        Err(MeetFault::BadValue(1)),
    );
    let said = marking.help(alloc, &words, 0);
    expect_eq(&rt, At::new("a value", 1), said, Ok(Help::Done));
    let met = met_too(&marking, alloc, &words, &[1 << 63, F + 3, 0]).expect(&rt, "met");
    let places = marking.finish(alloc, &[F + 1], met);
    expect_same(&rt, alloc, "values", &places, &words, &[F + 3]);
}

#[test]
fn not_begun(rt: HostRuntime) {
    let alloc = rt.alloc();
    for (case, edition, count, root, fault) in [
        (
            "edition one",
            Edition::One,
            4,
            0,
            MarkingFault::ShortObjects,
        ),
        (
            "edition two",
            Edition::Two,
            4,
            0,
            MarkingFault::ShortObjects,
        ),
        (
            "behind the words",
            Edition::Three,
            4,
            F + 4,
            MarkingFault::BadRoot(0),
        ),
        (
            "an immediate",
            Edition::Three,
            4,
            1 << 63,
            MarkingFault::BadRoot(0),
        ),
        (
            "too many words",
            Edition::Four,
            3_000_000_000,
            0,
            MarkingFault::TooLarge,
        ),
    ] {
        let refused = Marking::begin(alloc, edition, count, &[root]).err();
        expect_eq(&rt, At::new(case, 0), refused, Some(fault));
    }
}

//! The three objects: the next heap, refused marks, and how several cycles stop.
ghost use Rattle.comp_cycles.specs.Ends.{IsEndOf};

use crate::expected::{expect_eq, expect_so};
use crate::next_heaps::{first_page, follow, followed, ran, three};
use comp_access::Refusal;
use comp_trace::{CycleFault, Ran, TraceFault, parse, replay_cycles};
use heap_layout::{Header, LayoutFault};
use page_plan::Plan;
use std::alloc::Global;
use std::process::Abort;
use std::thread::Threads;
use test_support::{At, F, T};

/// The last of the three objects gets a reference to a new object.
pub const LINKED: &[u8] = b"0 root 0 0\n0 new 1 0 0 9\n0 store 0 0 1\n";

// The object that it refers to has no data word.
const PUT: &[u8] = b"0 root 0 0\n0 load 1 0 0\n0 put 1 0 1\n";

// The words of the next heap that are not 0, each with its index.
fn words() -> [(usize, u64); 5] {
    [
        (0, Header::new(0, 1, 1).word()),
        (1, 11),
        (2, Header::new(1, 0, 3).word()),
        (3, F + 64),
        (64, Header::new(0, 0, 9).word()),
    ]
}

/// A run of that text over the three objects.
pub fn linked(rt: &(impl Abort + Threads + Sync), alloc: Global) -> Ran
    ensures { IsEndOf result.plan.value result.finished }
{
    ran(rt, alloc, three(rt, alloc), LINKED, 1, 2)
}

// The word at an index of the next heap.
fn wanted(index: usize) -> u64 {
    for (at, word) in words() {
        if at == index {
            return word;
        }
    }
    0
}

#[test]
fn next_heap_has_these_words(rt: HostRuntime) {
    let alloc = rt.alloc();
    let heap = follow(&rt, alloc, linked(&rt, alloc), &[2, 64]);
    expect_eq(&rt, At::new("words", 0), heap.words().len(), 192);
    for (index, word) in heap.words().iter().enumerate() {
        expect_eq(&rt, At::new("word", index), *word, wanted(index));
    }
    expect_eq(&rt, At::new("marks", 0), heap.marks(), [2, 64].as_slice());
    expect_eq(&rt, At::new("roots", 0), heap.roots(), [F + 2].as_slice());
    let second = Plan::new(alloc, &rt, heap).expect(&rt, "a plan");
    expect_eq(&rt, At::new("live", 0), second.live_words(), 3);
    expect_eq(&rt, At::new("pages", 0), second.pages(), 1);
    expect_eq(&rt, At::new("first", 0), second.first_object(0), Some(2));
    expect_eq(&rt, At::new("root", 0), second.forward(F + 2), Some(T));
    let page = first_page(&rt, alloc, &second);
    expect_eq(
        &rt,
        At::new("page", 0),
        page.get(0),
        Header::new(1, 0, 3).word(),
    );
    expect_eq(&rt, At::new("page", 1), page.get(1), T + 2);
    expect_eq(
        &rt,
        At::new("page", 2),
        page.get(2),
        Header::new(0, 0, 9).word(),
    );
    for k in 3..64 {
        expect_eq(&rt, At::new("page", usize::from(k)), page.get(k), 0);
    }
}

// Marks, and the fault that refuses them.
struct RefusedMarks(&'static [u32], LayoutFault);

static REFUSED_MARKS: [RefusedMarks; 6] = [
    RefusedMarks(&[2], LayoutFault::UnmarkedTarget(3)),
    RefusedMarks(&[0, 64], LayoutFault::BadRoot(0)),
    RefusedMarks(&[2, 4], LayoutFault::MarkNotStart(4)),
    RefusedMarks(&[64, 2], LayoutFault::MarksNotRising(2)),
    RefusedMarks(&[2, 64, 65], LayoutFault::MarkNotStart(65)),
    RefusedMarks(&[2, 64, 192], LayoutFault::MarkNotStart(192)),
];

#[test]
fn next_heap_refuses_wrong_marks(rt: HostRuntime) {
    let alloc = rt.alloc();
    for (number, row) in REFUSED_MARKS.iter().enumerate() {
        match followed(&rt, alloc, linked(&rt, alloc), row.0) {
            Ok(_heap) => expect_so(&rt, At::new("accepted", number), false),
            Err(left) => {
                expect_eq(&rt, At::new("fault", number), left.fault, row.1);
                expect_eq(&rt, At::new("live", number), left.finished.live_words(), 5);
            }
        }
    }
}

// The fault of two cycles over the three objects with these marks between them, and the number of lists of shown
// values. `None` if they do not stop.
fn stop(
    rt: &(impl Abort + Threads + Sync),
    alloc: Global,
    marks: &[u32],
) -> Option<(CycleFault, usize)> {
    let heap = three(rt, alloc);
    let roots = heap.roots().len() as u32;
    let first = parse(alloc, LINKED, 1, roots).expect(rt, "a trace");
    let more = parse(alloc, PUT, 1, roots).expect(rt, "a trace");
    let rest = [(marks.to_vec(alloc).expect(rt, "marks"), more)];
    match replay_cycles(alloc, rt, heap, &first, &rest, 1, 2) {
        Ok(_run) => None,
        Err(stopped) => Some((stopped.fault, stopped.shown.len())),
    }
}

#[test]
fn cycles_stop_at_a_refused_line_or_mark(rt: HostRuntime) {
    let alloc = rt.alloc();
    let refused = TraceFault::Refused(3, Refusal::NoSuchField);
    let at_line = stop(&rt, alloc, &[2, 64]) == Some((CycleFault::Stopped(1, refused), 2));
    expect_so(&rt, At::new("stopped", 1), at_line);
    let unmarked = LayoutFault::UnmarkedTarget(3);
    let at_marks = stop(&rt, alloc, &[2]) == Some((CycleFault::NotMarked(0, unmarked), 1));
    expect_so(&rt, At::new("not marked", 0), at_marks);
}

#[test]
fn cycle_faults_are_printed_with_number_and_name(rt: HostRuntime) {
    let alloc = rt.alloc();
    let rows = [
        (
            CycleFault::NotMarked(0, LayoutFault::UnmarkedTarget(3)),
            "Y1 NotMarked(0, H7 UnmarkedTarget(3))",
        ),
        (
            CycleFault::Stopped(1, TraceFault::Refused(3, Refusal::NoSuchField)),
            "Y2 Stopped(1, T6 Refused(3, M3 NoSuchField))",
        ),
        (CycleFault::OutOfMemory(7), "Y3 OutOfMemory(7)"),
    ];
    for (number, (fault, text)) in rows.iter().enumerate() {
        let printed = fault.to_string(alloc).expect(&rt, "a text");
        expect_eq(&rt, At::new("printed", number), printed.as_str(), *text);
    }
}

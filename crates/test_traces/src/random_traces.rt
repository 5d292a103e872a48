//! Pseudorandom traces: of editions one and two a thousand each are replayed by one thread, and 1,200 each are raced;
//! of editions three and four 100 and 100. A replay must do as the plain model does.
use crate::drawn_traces::{Drawn, draw_trace};
use crate::finished_heaps::expect_pages;
use crate::finished_runs::replayed;
use crate::random_races::race_drawn;
use crate::replays::expect_replay;
use crate::text_runs::TextRun;
use crate::trace_texts::expect_lines;
use comp_mutator::Finished;
use comp_trace::{Shown, Stopped, TraceFault};
use heap_layout::Edition;
use page_plan::Plan;
use std::alloc::Global;
use std::marker::Brand;
use std::process::Abort;
use std::sync::Wait;
use std::sync::ledger::Blank;
use std::thread::Threads;
use test_support::two_live;

// Whether a trace is raced, or replayed by one thread.
#[derive(Clone, Copy)]
enum Way {
    Replayed,
    Raced,
}

// A number of mutators, how many of their traces are drawn in each edition, and what is done with each.
struct Draws(u8, u64, Way);

static DRAWS: [Draws; 7] = [
    Draws(1, 250, Way::Replayed),
    Draws(2, 250, Way::Replayed),
    Draws(3, 250, Way::Replayed),
    Draws(4, 250, Way::Replayed),
    Draws(1, 1_000, Way::Raced),
    Draws(2, 100, Way::Raced),
    Draws(4, 100, Way::Raced),
];

// The traces of editions three and four.
static LARGE_DRAWS: [Draws; 4] = [
    Draws(1, 50, Way::Replayed),
    Draws(4, 50, Way::Replayed),
    Draws(1, 50, Way::Raced),
    Draws(4, 50, Way::Raced),
];

/// The case of a trace for `n` mutators.
pub fn case_of(drawn: &Drawn, n: u8) -> TextRun<'_> {
    TextRun {
        name: &drawn.name,
        mutators: n,
        fresh_pages: 6,
        text: drawn.text.as_bytes(),
    }
}

// Checks that the values, the fault and the pages are those of the plain model.
fn expect_drawn(
    rt: &impl Abort,
    alloc: Global,
    drawn: &Drawn,
    run: &Result<Vec<Shown>, Stopped>,
    finished: &Finished,
) {
    let fault = drawn.stop.map(TraceFault::from);
    expect_replay(rt, &drawn.name, run, &drawn.run.shown, fault);
    expect_pages(rt, alloc, &drawn.name, finished, &drawn.run.objects);
}

// Replays the trace by one thread, and checks the finished heap.
fn replay_drawn(
    rt: &(impl Abort + Threads + Sync),
    alloc: Global,
    plan: &Plan,
    n: u8,
    drawn: &Drawn,
) {
    let case = case_of(drawn, n);
    let blank = Blank::new(u64::from(case.mutators));
    let builder = two_live(alloc, rt, drawn.run.objects.edition).expect(rt, "a plan");
    let (run, finished) = replayed::<Brand>(rt, alloc, blank, case, builder, plan);
    expect_drawn(rt, alloc, drawn, &run, &finished);
}

// Replays or races the trace by `n` mutators. Its text, read for the three roots of the two live objects, must have its
// lines.
fn run_drawn<R: Abort + Threads + Wait + Sync>(
    rt: &R,
    alloc: Global,
    plan: &Plan,
    n: u8,
    drawn: &Drawn,
    way: Way,
) {
    let text = drawn.text.as_bytes();
    expect_lines(rt, alloc, &drawn.name, text, n, 3, &drawn.lines);
    match way {
        Way::Replayed => replay_drawn(rt, alloc, plan, n, drawn),
        Way::Raced => race_drawn(rt, alloc, plan, n, drawn),
    }
}

// The trace of this seed.
fn run_seed<R: Abort + Threads + Wait + Sync>(
    rt: &R,
    alloc: Global,
    plan: &Plan,
    edition: Edition,
    n: u8,
    seed: u64,
    way: Way,
) {
    let drawn = draw_trace(rt, alloc, edition, n, seed);
    run_drawn(rt, alloc, plan, n, &drawn, way);
}

// These traces on the two live objects of an edition.
fn run_all<R: Abort + Threads + Wait + Sync>(
    rt: &R,
    alloc: Global,
    edition: Edition,
    draws: &[Draws],
) {
    let plan = two_live(alloc, rt, edition).expect(rt, "a plan");
    for Draws(n, count, way) in draws {
        for seed in 0..*count {
            run_seed(rt, alloc, &plan, edition, *n, seed, *way);
        }
    }
}

#[test]
fn random_traces_of_edition_one_run_as_in_the_plain_model(rt: HostRuntime) {
    run_all(&rt, rt.alloc(), Edition::One, &DRAWS);
}

#[test]
fn random_traces_of_edition_two_run_as_in_the_plain_model(rt: HostRuntime) {
    run_all(&rt, rt.alloc(), Edition::Two, &DRAWS);
}

#[test]
fn random_traces_of_edition_three_run_as_in_the_plain_model(rt: HostRuntime) {
    run_all(&rt, rt.alloc(), Edition::Three, &LARGE_DRAWS);
}

#[test]
fn random_traces_of_edition_four_run_as_in_the_plain_model(rt: HostRuntime) {
    run_all(&rt, rt.alloc(), Edition::Four, &LARGE_DRAWS);
}

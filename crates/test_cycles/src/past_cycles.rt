//! Cycles that were run one by one, and all of them by one call, which shows what they showed.
ghost use Rattle.std.specs.Prelude.{All};
ghost use Rattle.comp_trace.specs.CycleRuns.{IsParsedFor};

use crate::expected::expect_eq;
use crate::random_chains::{FRESH, MUTATORS};
use comp_trace::{Shown, Trace, parse, replay_cycles};
use heap_layout::MarkedHeap;
use std::alloc::Global;
use std::process::Abort;
use std::thread::Threads;
use test_support::At;

/// A cycle that was run: the marks with which its heap was made (none for the first), the text of its lines, and the
/// values shown.
#[derive(Drop)]
pub struct Past {
    pub marks: Vec<u32>,
    pub text: String,
    pub shown: Vec<u64>,
}

/// Checks that these values were shown, and no others.
pub fn expect_values(rt: &impl Abort, shown: &[Shown], wanted: &[u64], name: &str) {
    expect_eq(rt, At::new(name, 0), shown.len(), wanted.len());
    for (value, wanted) in shown.iter().zip(wanted) {
        expect_eq(
            rt,
            At {
                case: name,
                row: value.line,
            },
            value.value,
            *wanted,
        );
    }
}

// The traces of these cycles, each with its marks.
fn further(rt: &impl Abort, alloc: Global, past: &[Past], roots: u32) -> Vec<(Vec<u32>, Trace)>
    ensures { All (λ one. IsParsedFor 2 roots one.1) result.items }
{
    let mut further = Vec::new(alloc);
    for one in past {
        let marks = one.marks.to_vec(alloc).expect(rt, "marks");
        let trace = parse(alloc, one.text.as_bytes(), MUTATORS, roots).expect(rt, "a trace");
        further
            .push((marks, trace))
            .expect(rt, "memory for a trace");
    }
    further
}

/// Checks that one call over this heap shows what the cycles of the chain showed.
pub fn expect_past(
    rt: &(impl Abort + Threads + Sync),
    alloc: Global,
    heap: MarkedHeap,
    past: &[Past],
    name: &str,
) {
    let (Some(first), Some(others)) = (past.first(), past.get(1..)) else {
        return;
    };
    let roots = heap.roots().len() as u32;
    let trace = parse(alloc, first.text.as_bytes(), MUTATORS, roots).expect(rt, "a trace");
    let rest = further(rt, alloc, others, roots);
    match replay_cycles(alloc, rt, heap, &trace, &rest, MUTATORS, FRESH) {
        Ok(run) => {
            expect_eq(rt, At::new(name, 0), run.shown.len(), past.len());
            for (values, one) in run.shown.iter().zip(past) {
                expect_values(rt, values, &one.shown, name);
            }
        }
        Err(_stopped) => rt.panic("all cycles"),
    }
}

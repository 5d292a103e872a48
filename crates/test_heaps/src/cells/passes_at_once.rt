//! Two passes over the cells of pages, at once or by turns.
ghost use Rattle.std.specs.Prelude.{All};
ghost use Rattle.cell_steps.specs.Passes.{Rests};
ghost use Rattle.page_cells.specs.CellViews.{IsPassOf};

use crate::cells::pass_calls::{PassCall, at_once};
use crate::expected::expect_eq;
use page_cells::{CellRefusal, Cells, Pass};
use page_plan::{Builder, Plan};
use std::alloc::Global;
use std::process::Abort;
use std::sync::Arc;
use std::thread::Threads;
use test_support::{At, Meeting, Refusing, Worked, plan_of};

// What two passes do at once: the calls of the first and of the second.
type Round = (&'static [PassCall], &'static [PassCall]);

// What two passes do, round by round, and how many pages both have built at the end.
struct PassPlay {
    // The name that a failing test prints.
    name: &'static str,
    rounds: &'static [Round],
    builds: usize,
}

/// New cells with two passes.
pub(crate) fn opened<B: Builder>(
    rt: &impl Abort,
    alloc: Global,
    builder: B,
) -> (Cells<B>, Vec<Pass>)
    ensures { All (λ pass. IsPassOf result.0 pass × Rests pass) result.1.items }
{
    let builder = Arc::new(alloc, builder).expect(rt, "memory for a builder");
    let Ok(opened) = Cells::new(alloc, builder, 0, 2) else {
        panic!(rt; "no memory for cells");
    };
    opened
}

// The number of pages that the passes have built.
fn builds_of(passes: &[Pass]) -> usize {
    let mut builds: usize = 0;
    for pass in passes {
        builds = builds.saturating_add(pass.builds().len());
    }
    builds
}

// Plays the rounds of a case, one after another.
fn play_rounds<B: Builder, R: Abort + Threads + Sync>(
    rt: &R,
    alloc: Global,
    cells: &Cells<B>,
    passes: &mut [Pass],
    case: &PassPlay,
)
    requires of { All (λ pass. IsPassOf cells.now pass × Rests pass) passes.old }
{
    for (round, (first, second)) in case.rounds.iter().enumerate() {
        let at = At::of_round(case.name, round);
        at_once(rt, alloc, cells, passes, at, first, second);
    }
    let end = At::of_round(case.name, case.rounds.len());
    expect_eq(rt, end, builds_of(passes), case.builds);
}

// Plays a case with this builder.
fn play_case<B: Builder, R: Abort + Threads + Sync>(
    rt: &R,
    alloc: Global,
    builder: B,
    case: &PassPlay,
) {
    let (cells, mut passes) = opened(rt, alloc, builder);
    play_rounds(rt, alloc, &cells, &mut passes, case);
}

/// The plan of the heap of three objects.
pub(crate) fn planned_three(rt: &(impl Abort + Threads + Sync), alloc: Global) -> Plan {
    plan_of(rt, alloc, Worked::Three).expect(rt, "a plan")
}

// The plan of a heap of one object of 255 data words, which are 0.
fn planned_four_pages(rt: &(impl Abort + Threads + Sync), alloc: Global) -> Plan {
    plan_of(rt, alloc, Worked::Zeros(255)).expect(rt, "a plan")
}

// The first pass writes, then the other one reads.
const WRITTEN: PassPlay = PassPlay {
    name: "reads a write of another pass",
    rounds: &[
        (&[PassCall::WriteSeven], &[]),
        (&[], &[PassCall::FindSeven]),
    ],
    builds: 1,
};

#[test]
fn a_pass_reads_what_another_pass_wrote(rt: HostRuntime) {
    let alloc = rt.alloc();
    play_case(&rt, alloc, planned_three(&rt, alloc), &WRITTEN);
}

// Two passes build one page at once.
const RACE: PassPlay = PassPlay {
    name: "builds a page once",
    rounds: &[(&[PassCall::Race], &[PassCall::Race])],
    builds: 1,
};

#[test]
fn a_page_is_built_once_by_two_passes(rt: HostRuntime) {
    let alloc = rt.alloc();
    play_case(&rt, alloc, planned_three(&rt, alloc), &RACE);
}

// The first build asks for more memory than there is.
const REFUSED: PassPlay = PassPlay {
    name: "builds after a refusal",
    rounds: &[(
        &[
            PassCall::Visit(0, Err(CellRefusal::OutOfMemory)),
            PassCall::Builds(0),
            PassCall::Visit(0, Ok(())),
            PassCall::Builds(1),
        ],
        &[],
    )],
    builds: 1,
};

#[test]
fn a_page_is_built_after_a_build_found_no_memory(rt: HostRuntime) {
    let alloc = rt.alloc();
    let refusing = Refusing::new(planned_three(&rt, alloc), 0);
    play_case(&rt, alloc, refusing, &REFUSED);
}

// The builds of two pages wait for one another.
const TWO_PAGES: PassPlay = PassPlay {
    name: "builds two pages at once",
    rounds: &[
        (&[PassCall::Pages(4)], &[]),
        (&[PassCall::Visit(0, Ok(()))], &[PassCall::Visit(1, Ok(()))]),
    ],
    builds: 2,
};

#[test]
fn two_pages_are_built_at_once(rt: HostRuntime) {
    let alloc = rt.alloc();
    let meeting = Meeting::new(planned_four_pages(&rt, alloc));
    play_case(&rt, alloc, meeting, &TWO_PAGES);
}

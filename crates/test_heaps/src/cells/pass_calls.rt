//! What a pass asks its cells for, one call after another, and the answers.
ghost use Rattle.std.specs.Prelude.{All};
ghost use Rattle.cell_steps.specs.Passes.{Rests};
ghost use Rattle.page_cells.specs.CellViews.{IsPassOf};

use crate::cells::taken_pages::{finds_seven, visit, write_seven};
use crate::expected::expect_so;
use page_cells::{CellRefusal, Cells, Pass};
use page_plan::Builder;
use std::alloc::Global;
use std::process::Abort;
use std::thread::{self, Threads};
use test_support::At;

/// A call of a pass: its arguments first and its answer last.
pub(crate) enum PassCall {
    /// The number of pages.
    Pages(u64),
    /// A page is taken and put back.
    Visit(u64, Result<(), CellRefusal>),
    /// A page is built. The answer is true if this call built it.
    Build(u64, Result<bool, CellRefusal>),
    /// Page 0 is built at the same time as by another pass. This pass built it, or finds it built, or finds it busy.
    Race,
    /// The pass writes 7 into the first data word of the first object, as the first entry of all.
    WriteSeven,
    /// The pass finds that 7, written once by the first pass.
    FindSeven,
    /// The number of pages that the pass has built.
    Builds(usize),
}

// Whether the pass built page 0, as it counts, or found it built or busy.
fn is_of_race(built: Result<bool, CellRefusal>, builds: &[u64]) -> bool {
    match built {
        Ok(true) => matches!(builds, [0]),
        Ok(false) | Err(CellRefusal::Busy(0)) => builds.is_empty(),
        Err(_) => false,
    }
}

// Whether a call is answered so.
fn is_so<B: Builder>(alloc: Global, cells: &Cells<B>, pass: &mut Pass, call: &PassCall) -> bool
    requires of { IsPassOf cells.now pass.old × Rests pass.old }
    ensures of { IsPassOf cells.now pass.new × Rests pass.new }
{
    match *call {
        PassCall::Pages(wanted) => cells.pages() == wanted,
        PassCall::Visit(p, wanted) => visit(alloc, cells, pass, p) == wanted,
        PassCall::Build(p, wanted) => cells.try_build(alloc, pass, p) == wanted,
        PassCall::Race => {
            let built = cells.try_build(alloc, pass, 0);
            is_of_race(built, pass.builds())
        }
        PassCall::WriteSeven => write_seven(alloc, cells, pass) == Ok(Ok(0)),
        PassCall::FindSeven => finds_seven(alloc, cells, pass),
        PassCall::Builds(wanted) => pass.builds().len() == wanted,
    }
}

/// Plays the calls of a pass, one after another.
pub(crate) fn play<B: Builder>(
    rt: &impl Abort,
    alloc: Global,
    cells: &Cells<B>,
    pass: &mut Pass,
    at: At,
    calls: &[PassCall],
)
    requires of { IsPassOf cells.now pass.old × Rests pass.old }
    ensures of { IsPassOf cells.now pass.new × Rests pass.new }
{
    for (row, call) in calls.iter().enumerate() {
        let so = is_so(alloc, cells, pass, call);
        expect_so(rt, at.after(row), so);
    }
}

/// Plays the calls of two passes, each in a thread of its own.
pub(crate) fn at_once<B: Builder, R: Abort + Threads + Sync>(
    rt: &R,
    alloc: Global,
    cells: &Cells<B>,
    passes: &mut [Pass],
    at: At,
    first: &[PassCall],
    second: &[PassCall],
)
    requires of { All (λ pass. IsPassOf cells.now pass × Rests pass) passes.old }
    ensures of { All (λ pass. IsPassOf cells.now pass × Rests pass) passes.new }
{
    thread::for_each_mut(
        rt,
        passes,
        2,
        &|number, pass: &mut Pass|
            requires { IsPassOf cells.now pass.old × Rests pass.old }
            ensures { IsPassOf cells.entry.now pass.new × Rests pass.new }
        {
            let calls = if number == 0 { first } else { second };
            play(rt, alloc, cells, pass, at, calls);
        },
    );
}

//! A page that one pass holds while another pass works, and cells that are closed with one of two passes.
ghost use Rattle.cell_steps.specs.Passes.{Rests};
ghost use Rattle.page_cells.specs.CellViews.{IsPassOf};

use crate::cells::pass_calls::{PassCall, play};
use crate::cells::passes_at_once::{opened, planned_three};
use crate::cells::taken_pages::take_and_write;
use crate::expected::{expect_eq, expect_so};
use heap_layout::Header;
use page_cells::{CellRefusal, Cells, Closed, Pass};
use page_plan::{Builder, Plan};
use std::alloc::Global;
use std::process::Abort;
use test_support::At;

// The first row of a case.
fn begin_of(case: &'static str) -> At<'static> {
    At { case, row: 0 }
}

// New cells with two passes.
fn two<B: Builder>(rt: &impl Abort, alloc: Global, builder: B) -> (Cells<B>, Pass, Pass)
    ensures first { IsPassOf result.0 result.1 × Rests result.1 }
    ensures second { IsPassOf result.0 result.2 × Rests result.2 }
{
    let (cells, mut passes) = opened(rt, alloc, builder);
    let second = passes.pop().expect(rt, "the second pass");
    let first = passes.pop().expect(rt, "the first pass");
    (cells, first, second)
}

// The answers that another pass gets while page 0 is held.
const WHILE_HELD: [PassCall; 3] = [
    PassCall::Visit(0, Err(CellRefusal::Busy(0))),
    PassCall::Build(0, Ok(false)),
    PassCall::Visit(1, Err(CellRefusal::NoSuchPage)),
];

// The first pass holds page 0 while the second one plays rows, and puts it back.
fn hold<B: Builder>(
    rt: &impl Abort,
    alloc: Global,
    cells: &Cells<B>,
    first: &mut Pass,
    second: &mut Pass,
)
    requires first { IsPassOf cells.now first.old × Rests first.old }
    requires second { IsPassOf cells.now second.old × Rests second.old }
{
    let Ok(held) = cells.try_take(alloc, first, 0) else {
        panic!(rt; "page 0");
    };
    play(
        rt,
        alloc,
        cells,
        second,
        begin_of("a page that is held"),
        &WHILE_HELD,
    );
    cells.put_back(first, held);
    play(
        rt,
        alloc,
        cells,
        second,
        begin_of("a page that was put back"),
        &[PassCall::Visit(0, Ok(()))],
    );
}

// The first pass holds the page, writes and meets the second one.
fn write_and_meet<B: Builder>(
    rt: &impl Abort,
    alloc: Global,
    cells: &Cells<B>,
    first: &mut Pass,
    second: &mut Pass,
)
    requires first { IsPassOf cells.now first.old × Rests first.old }
    requires second { IsPassOf cells.now second.old × Rests second.old }
{
    let Ok((held, stamp)) = take_and_write(alloc, cells, first) else {
        panic!(rt; "page 0");
    };
    cells.meet(first, second);
    cells.put_back(first, held);
    let at = begin_of("a page held through a meeting");
    expect_eq(rt, at, stamp, Ok(0));
    play(
        rt,
        alloc,
        cells,
        second,
        at,
        &[
            PassCall::Build(0, Ok(false)),
            PassCall::FindSeven,
            PassCall::Builds(0),
        ],
    );
    play(rt, alloc, cells, first, at, &[PassCall::Builds(1)]);
}

// The second pass loads words of page 0 while the first one, which has written to it, holds it.
fn load_while_held<B: Builder>(
    rt: &impl Abort,
    alloc: Global,
    cells: &Cells<B>,
    first: &mut Pass,
    second: &mut Pass,
)
    requires first { IsPassOf cells.now first.old × Rests first.old }
    requires second { IsPassOf cells.now second.old × Rests second.old }
{
    let Ok((held, stamp)) = take_and_write(alloc, cells, first) else {
        panic!(rt; "page 0");
    };
    let at = begin_of("a page that is held and read");
    let written = cells.try_load(alloc, second, 0, 1);
    let beside = cells.try_load(alloc, second, 0, 2);
    play(
        rt,
        alloc,
        cells,
        second,
        at,
        &[PassCall::Visit(0, Err(CellRefusal::Busy(0)))],
    );
    cells.put_back(first, held);
    expect_eq(rt, at, stamp, Ok(0));
    expect_eq(rt, at, written, Ok(7));
    expect_eq(rt, at, beside, Ok(Header::new(1, 0, 3).word()));
}

const CLOSED: &str = "closes when no pass is missing";

// Whether one page was built, by the first of two passes.
fn is_end(closed: &Closed) -> bool {
    let Some(builds) = closed.builds.first() else {
        return false;
    };
    closed.pages.len() == 1 && closed.builds.len() == 2 && builds.first() == Some(&0)
}

// Closes the cells, first without the first pass, which is refused.
fn close_late<B: Builder>(
    rt: &impl Abort,
    alloc: Global,
    cells: Cells<B>,
    first: Pass,
    second: Pass,
)
    requires first { IsPassOf cells first × Rests first }
    requires second { IsPassOf cells second × Rests second }
{
    let alone = vec![in alloc; second].expect(rt, "memory for a pass");
    let Err(mut left) = cells.close(alloc, alone) else {
        panic!(rt; "a pass was missing");
    };
    let at = begin_of(CLOSED);
    expect_eq(rt, at, left.fault, CellRefusal::PassMissing(0));
    left.passes.push(first).expect(rt, "memory for a pass");
    let closed = left.cells.close(alloc, left.passes).ok();
    expect_so(rt, at, is_end(&closed.expect(rt, "no pass is missing")));
}

// What happens while the first pass holds page 0 of new cells.
#[derive(Clone, Copy)]
enum Held {
    Alone,
    ThroughMeeting,
    AndRead,
}

// Plays that on new cells.
fn play_held(rt: &impl Abort, alloc: Global, plan: Plan, held: Held) {
    let (cells, mut first, mut second) = two(rt, alloc, plan);
    match held {
        Held::Alone => hold(rt, alloc, &cells, &mut first, &mut second),
        Held::ThroughMeeting => write_and_meet(rt, alloc, &cells, &mut first, &mut second),
        Held::AndRead => load_while_held(rt, alloc, &cells, &mut first, &mut second),
    }
}

#[test]
fn a_page_that_a_pass_holds_is_busy(rt: HostRuntime) {
    let alloc = rt.alloc();
    play_held(&rt, alloc, planned_three(&rt, alloc), Held::Alone);
}

#[test]
fn a_pass_finds_what_a_pass_wrote_that_it_met(rt: HostRuntime) {
    let alloc = rt.alloc();
    play_held(&rt, alloc, planned_three(&rt, alloc), Held::ThroughMeeting);
}

#[test]
fn a_pass_loads_words_of_a_page_that_another_holds(rt: HostRuntime) {
    let alloc = rt.alloc();
    play_held(&rt, alloc, planned_three(&rt, alloc), Held::AndRead);
}

// Closes new cells after the first pass has built a page.
fn play_closed(rt: &impl Abort, alloc: Global, plan: Plan) {
    let (cells, mut first, second) = two(rt, alloc, plan);
    play(
        rt,
        alloc,
        &cells,
        &mut first,
        begin_of(CLOSED),
        &[PassCall::Visit(0, Ok(()))],
    );
    close_late(rt, alloc, cells, first, second);
}

#[test]
fn cells_close_when_no_pass_is_missing(rt: HostRuntime) {
    let alloc = rt.alloc();
    play_closed(&rt, alloc, planned_three(&rt, alloc));
}

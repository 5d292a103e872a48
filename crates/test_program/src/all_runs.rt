//! One test makes the runs of all tables, since that costs its proof less than a test for each.
use crate::narrow_outputs::{LINES, REFUSED, REMOVED, WRITTEN, expect_lines, expect_refused};
use crate::taken_steps::take_steps;
use crate::{
    audit_runs, collect_runs, edition_four_runs, edition_three_runs, edition_two_runs, map_runs,
    mark_runs, moved_runs, next_runs, race_runs, reachable_runs, replay_runs,
    whole_and_words_audits, word_plan_and_compact_runs,
};
use std::rt::Files;
use std::sync::Wait;
use std::test::Fail;
use std::thread::Threads;
use test_support::Step;

// All tables. The last one writes the files that `LINES` read. As a constant they would cost the proof of the test five
// times as much.
fn tables() -> [&'static [Step]; 38] {
    [
        word_plan_and_compact_runs::RUNS,
        audit_runs::PASSED,
        audit_runs::JUDGED,
        audit_runs::FORGED,
        whole_and_words_audits::WHOLES,
        whole_and_words_audits::WORDED,
        race_runs::RACED,
        race_runs::HALTED,
        replay_runs::REPLAYED,
        replay_runs::STOPPED,
        replay_runs::PLACED,
        replay_runs::LINKED,
        replay_runs::WRONG_FILES,
        next_runs::CYCLED,
        next_runs::UNMARKED,
        next_runs::ORDERED,
        map_runs::MAPPED,
        map_runs::REFUSED,
        mark_runs::MARKED,
        mark_runs::EDITIONS,
        mark_runs::REFUSED,
        collect_runs::COLLECTED,
        collect_runs::NO_ROWS,
        collect_runs::EDITIONS,
        collect_runs::REFUSED,
        moved_runs::LAWFUL,
        moved_runs::UNLAWFUL,
        moved_runs::REFUSED,
        reachable_runs::REACHED,
        reachable_runs::ROOTS_NAMED,
        reachable_runs::REFUSED,
        edition_two_runs::RUN,
        edition_two_runs::REFUSED,
        edition_three_runs::RUN,
        edition_three_runs::REFUSED,
        edition_four_runs::RUN,
        edition_four_runs::REFUSED,
        WRITTEN,
    ]
}

// Takes the steps of these tables, one table after another.
fn take_tables<R: Files + AllocGlobal + Threads + Wait + Sync>(
    rt: &R,
    tables: &[&[Step]],
) -> Result<(), Fail> {
    for steps in tables {
        take_steps(rt, steps)?;
    }
    Ok(())
}

#[test]
fn program_prints_writes_and_refuses_as_worked_by_hand(rt: HostRuntime) -> Result<(), Fail> {
    take_tables(&rt, &tables())?;
    expect_lines(&rt, &LINES)?;
    expect_refused(&rt, &REFUSED)?;
    take_steps(&rt, REMOVED)
}

//! Runs of the program on the words of a line, and tests that are lists of steps.
use commands::run;
use heap_layout::Counted;
use std::rt::Files;
use std::sync::Wait;
use std::test::Fail;
use std::thread::Threads;
use test_support::{Run, Step, expect_ran, run_of, take_file_step, words_of};

// Runs the program. Fails unless the result is as expected.
fn expect_run<R: Files + AllocGlobal + Threads + Wait + Sync>(
    rt: &R,
    wanted: &Run,
) -> Result<(), Fail> {
    let mut out = Vec::new(rt.alloc());
    let mut err = Vec::new(rt.alloc());
    let words = words_of(rt.alloc(), wanted.line)?;
    let status = run(rt, words, &mut out, &mut Counted::new(&mut err));
    expect_ran(wanted, status, &out, &err)
}

// Takes a step of a test.
fn take_step<R: Files + AllocGlobal + Threads + Wait + Sync>(
    rt: &R,
    step: &Step,
) -> Result<(), Fail> {
    match run_of(step) {
        Some(wanted) => expect_run(rt, &wanted),
        None => take_file_step(rt, step),
    }
}

/// Takes the steps of a table, one after another.
pub fn take_steps<R: Files + AllocGlobal + Threads + Wait + Sync>(
    rt: &R,
    steps: &[Step],
) -> Result<(), Fail> {
    for step in steps {
        take_step(rt, step)?;
    }
    Ok(())
}

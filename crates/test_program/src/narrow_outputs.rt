//! Runs whose output takes a limited number of bytes, three bytes at a time.
use commands::run;
use heap_layout::Counted;
use std::rt::Files;
use std::sync::Wait;
use std::test::Fail;
use std::thread::Threads;
use test_support::{Change, Content, Failure, Narrow, ROOT, Run, Step, Text, expect_ran, words_of};

// The refusal of a line that cannot print.
const CUT_OFF: Option<&str> = Some("P4 CannotPrint");

// The expected result of a line, with its refusal, if there is one. Its output is not checked.
fn wanted_of(line: &'static str, refusal: Option<&'static str>) -> Run {
    Run {
        line,
        status: u8::from(refusal.is_some()),
        out: Text::Is(""),
        err: match refusal {
            Some(text) => Text::Refusal(text),
            None => Text::Is(""),
        },
    }
}

// Checks a run of a line whose output has room for `room` bytes.
fn expect_narrow<R: Files + AllocGlobal + Threads + Wait + Sync>(
    rt: &R,
    line: &'static str,
    refusal: Option<&'static str>,
    room: usize,
    failure: Failure,
) -> Result<(), Fail> {
    let mut taken = Vec::new(rt.alloc());
    let mut err = Vec::new(rt.alloc());
    let mut out = Narrow {
        taken: &mut taken,
        room,
        at_once: 3,
        failure,
    };
    let words = words_of(rt.alloc(), line)?;
    let status = run(rt, words, &mut out, &mut Counted::new(&mut err));
    expect_ran(&wanted_of(line, refusal), status, &[], &err)
}

// Checks that a run cannot print with less room than this line needs. With more its refusal is its own, if it has one,
// unless the output cannot be flushed.
fn expect_cut_off<R: Files + AllocGlobal + Threads + Wait + Sync>(
    rt: &R,
    line: &'static str,
    length: usize,
    own: Option<&'static str>,
) -> Result<(), Fail> {
    for room in 0..length {
        expect_narrow(rt, line, CUT_OFF, room, Failure::Error)?;
        expect_narrow(rt, line, CUT_OFF, room, Failure::TakesNone)?;
    }
    expect_narrow(rt, line, own, 4_096, Failure::Error)?;
    expect_narrow(rt, line, CUT_OFF, 4_096, Failure::Flush)
}

/// Lines, and the least number of bytes that they print.
pub const LINES: [(&str, usize); 13] = [
    ("word print.tests.img 2", 12),
    ("plan print.tests.img", 48),
    (
        "replay print.tests.img print.tests.trace print.tests.out",
        11,
    ),
    ("race print.tests.img print.tests.trace print.tests.out", 11),
    ("audit print.tests.img print.tests.dump", 5),
    ("audit --explain print.tests.img print.tests.dump", 34),
    ("compact print.tests.img print.tests.out", 7),
    (
        "next --fresh 0 print.tests.img print.tests.trace print.tests.marks print.tests.new",
        11,
    ),
    (
        "next --fresh 0 print.tests.img print.tests.lines print.tests.marks print.tests.new",
        7,
    ),
    ("mark print.tests.img print.tests.marked", 7),
    ("collect print.tests.img print.tests.collected", 7),
    ("--help", 1),
    ("--version", 17),
];

/// Lines that are refused after they printed, the least number of bytes that they print, and their refusals.
pub const REFUSED: [(&str, usize, &str); 3] = [
    (
        "audit --explain print.tests.img print.tests.fault",
        57,
        "A8 WrongHead",
    ),
    (
        "replay print.tests.img print.tests.halted print.tests.out",
        5,
        "T6 Refused(4, M3 NoSuchField)",
    ),
    (
        "next --fresh 0 print.tests.img print.tests.halted print.tests.marks print.tests.new",
        5,
        "T6 Refused(4, M3 NoSuchField)",
    ),
];

/// Checks that each of these lines fails if it cannot print, and else is done.
pub fn expect_lines<R: Files + AllocGlobal + Threads + Wait + Sync>(
    rt: &R,
    lines: &[(&'static str, usize)],
) -> Result<(), Fail> {
    for (line, length) in lines {
        expect_cut_off(rt, line, *length, None)?;
    }
    Ok(())
}

/// Checks that each of these lines has its own refusal only if what it printed was flushed.
pub fn expect_refused<R: Files + AllocGlobal + Threads + Wait + Sync>(
    rt: &R,
    lines: &[(&'static str, usize, &'static str)],
) -> Result<(), Fail> {
    for (line, length, refusal) in lines {
        expect_cut_off(rt, line, *length, Some(*refusal))?;
    }
    Ok(())
}

/// The files that the lines read. A race of the trace shows 7 or 11, which is one byte more.
pub const WRITTEN: &[Step] = &[
    Step::Write("print.tests.img", Content::ThreeImage),
    Step::Write("print.tests.trace", Content::SeenTrace),
    Step::Write("print.tests.lines", Content::Text("")),
    Step::Write("print.tests.marks", Content::Text("0\n2\n")),
    Step::Write("print.tests.dump", Content::FreshDump),
    Step::Write(
        "print.tests.fault",
        Content::ForgedDump(Change::Word(ROOT, 0), Change::None),
    ),
    Step::Write(
        "print.tests.halted",
        Content::Text("0 root 0 0\n0 load 1 0 0\n0 get 1 0\n0 get 1 9\n"),
    ),
];

/// The last dump and the last images that the lines wrote are whole. Then the files are removed.
pub const REMOVED: &[Step] = &[
    Step::Length("print.tests.out", 573),
    Step::Length("print.tests.new", 552),
    Step::Holds("print.tests.marked", Content::ThreeImage),
    Step::Holds("print.tests.collected", Content::CollectedImage),
    Step::Remove("print.tests.img"),
    Step::Remove("print.tests.trace"),
    Step::Remove("print.tests.lines"),
    Step::Remove("print.tests.marks"),
    Step::Remove("print.tests.new"),
    Step::Remove("print.tests.marked"),
    Step::Remove("print.tests.collected"),
    Step::Remove("print.tests.dump"),
    Step::Remove("print.tests.fault"),
    Step::Remove("print.tests.halted"),
    Step::Remove("print.tests.out"),
];

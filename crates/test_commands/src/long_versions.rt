//! The long version, of programs in memory.
use crate::memory_files::{File, Memory};
use command_io::{CommandRefusal, Input};
use command_line::Task;
use commands::perform;
use heap_layout::Counted;
use std::process::Abort;
use std::sync::Wait;
use std::test::Fail;
use std::thread::Threads;

// Checks what is answered, and what is printed, with these files.
fn expect_said(
    rt: &(impl Abort + AllocGlobal + Threads + Wait + Sync),
    files: &[File],
    wanted: Result<(), CommandRefusal>,
    text: &str,
) {
    let mut memory = Memory { files };
    let mut printed = Vec::new(rt.alloc());
    let mut out = Counted::new(&mut printed);
    let found = perform(rt.alloc(), rt, &mut memory, Task::VersionLong, &mut out);
    let same = found == wanted && printed.as_slice() == text.as_bytes();
    assert!(rt; same, "wanted {text}, found {found:?} and {printed:?}");
}

// Checks what is printed of a program with these bytes.
fn expect_said_of(
    rt: &(impl Abort + AllocGlobal + Threads + Wait + Sync),
    bytes: &[u8],
    text: &str,
) {
    let path = "/proc/self/exe";
    expect_said(rt, &[File { path, bytes }], Ok(()), text);
}

static TOLD: &str = "compressor: made of and proved by\ncommit   c\ngate     21 passed, 0 failed\n";

static SAID: &str = "compressor 1.0.0\ncommit   c\ngate     21 passed, 0 failed\n";

static NOT_PACKED: &str = "compressor 1.0.0\nnot packed: nothing here says what it was proved by\n";

#[test]
fn what_stands_behind_a_program_is_printed(rt: HostRuntime) -> Result<(), Fail> {
    let packed = format!(in rt.alloc(); "its code{TOLD:<1023}\n")?;
    expect_said_of(&rt, packed.as_bytes(), SAID);
    expect_said_of(&rt, TOLD.as_bytes(), SAID);
    expect_said_of(
        &rt,
        b"compressor: made of and proved by\n",
        "compressor 1.0.0\n",
    );
    Ok(())
}

#[test]
fn a_program_with_nothing_behind_it_says_so(rt: HostRuntime) -> Result<(), Fail> {
    let short = format!(in rt.alloc(); "its code{TOLD:<1022}\n")?;
    expect_said_of(&rt, short.as_bytes(), NOT_PACKED);
    let long = format!(in rt.alloc(); "its code{TOLD:<1024}\n")?;
    expect_said_of(&rt, long.as_bytes(), NOT_PACKED);
    expect_said_of(&rt, b"", NOT_PACKED);
    expect_said_of(&rt, b"compressor: made of and proved by", NOT_PACKED);
    // No text.
    expect_said_of(
        &rt,
        b"compressor: made of and proved by\ncommit \xff\n",
        NOT_PACKED,
    );
    Ok(())
}

#[test]
fn a_program_that_cannot_be_opened_is_refused(rt: HostRuntime) {
    expect_said(
        &rt,
        &[],
        Err(CommandRefusal::CannotOpen(Input::Program)),
        "",
    );
}

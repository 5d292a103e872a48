//! Tests of the program as lists of steps: writes of files, runs, and checks of what the runs leave.
use crate::contents::{Content, bytes_in};
use crate::runs::{Run, Text};
use std::fs;
use std::io::ErrorKind;
use std::os::unix::fs::symlink;
use std::rt::Files;
use std::test::Fail;

/// A step of a test. A run begins with its command line.
pub enum Step {
    /// Writes this content to the file at this path.
    Write(&'static str, Content),
    /// Makes a folder.
    MakeFolder(&'static str),
    /// Makes a symbolic link at this path (the first) that leads to the second one, seen from the folder of the first.
    Link(&'static str, &'static str),
    /// This run succeeds and prints this text.
    Prints(&'static str, &'static str),
    /// This run succeeds and prints one of these two texts.
    PrintsEither(&'static str, &'static str, &'static str),
    /// This run prints how the program is used.
    Helps(&'static str),
    /// This run prints this text (the second) and fails with this refusal (the third), in one line on standard error.
    Refuses(&'static str, &'static str, &'static str),
    /// The words of this run are no command: it prints nothing, and an error on standard error.
    Misuses(&'static str),
    /// The file at this path holds this content.
    Holds(&'static str, Content),
    /// The file at this path has this number of bytes.
    Length(&'static str, usize),
    /// The file at this path (the first) is a text that contains the second one.
    Has(&'static str, &'static str),
    /// There is no file at this path.
    Absent(&'static str),
    /// There is a symbolic link at this path (the first), and it leads to the second one.
    Leads(&'static str, &'static str),
    /// Removes a file.
    Remove(&'static str),
    /// Removes a folder.
    RemoveFolder(&'static str),
}

/// The run of a step, or `None` if the step is no run.
pub fn run_of(step: &Step) -> Option<Run> {
    let (line, status, out, err) = match step {
        Step::Prints(line, out) => (*line, 0, Text::Is(*out), Text::Is("")),
        Step::PrintsEither(line, one, other) => (
            *line,
            0,
            Text::Either(*one, *other),
            Text::Is(""),
        ),
        Step::Helps(line) => (*line, 0, Text::Has("Usage: compressor"), Text::Is("")),
        Step::Refuses(line, out, refusal) => (*line, 1, Text::Is(*out), Text::Refusal(*refusal)),
        Step::Misuses(line) => (*line, 2, Text::Is(""), Text::Some),
        _ => return None,
    };
    Some(Run {
        line,
        status,
        out,
        err,
    })
}

/// Takes a step that is no run. Fails if the file is not as the step says.
pub fn take_file_step<R: Files + AllocGlobal>(rt: &R, step: &Step) -> Result<(), Fail> {
    match step {
        Step::Write(path, content) => write_file(rt, path, *content),
        Step::MakeFolder(path) => Ok(fs::create_dir(rt, path)?),
        Step::Link(path, target) => Ok(symlink(rt, target, path)?),
        Step::Holds(path, content) => expect_file(rt, path, *content),
        Step::Length(path, length) => expect_length(rt, path, *length),
        Step::Has(path, piece) => expect_piece(rt, path, piece),
        Step::Absent(path) => expect_absent(rt, path),
        Step::Leads(path, target) => expect_link(rt, path, target),
        Step::Remove(path) => Ok(fs::remove_file(rt, path)?),
        Step::RemoveFolder(path) => Ok(fs::remove_dir(rt, path)?),
        _ => Err("a run".into()),
    }
}

// Writes this content to the file at a path.
fn write_file<R: Files + AllocGlobal>(rt: &R, path: &str, content: Content) -> Result<(), Fail> {
    let bytes = bytes_in(rt.alloc(), content)?;
    Ok(fs::write(rt, path, bytes.as_slice())?)
}

// Fails unless the file at a path holds this content.
fn expect_file<R: Files + AllocGlobal>(rt: &R, path: &str, content: Content) -> Result<(), Fail> {
    let wanted = bytes_in(rt.alloc(), content)?;
    let found = fs::read(rt, path)?;
    if found == wanted {
        return Ok(());
    }
    let (found, wanted) = (found.len(), wanted.len());
    Err(Fail::new(format_args!(
        "{path}: found {found} bytes, other than the {wanted} bytes wanted"
    )))
}

// Fails unless the file at a path has this length.
fn expect_length<R: Files + AllocGlobal>(rt: &R, path: &str, length: usize) -> Result<(), Fail> {
    let found = fs::read(rt, path)?.len();
    if found == length {
        return Ok(());
    }
    Err(Fail::new(format_args!("{path}: found {found} bytes, wanted {length}")))
}

// Fails unless the file at a path is a text that contains this one.
fn expect_piece<R: Files + AllocGlobal>(rt: &R, path: &str, piece: &str) -> Result<(), Fail> {
    let found = fs::read_to_string(rt, path)?;
    if found.contains(piece) {
        return Ok(());
    }
    Err(Fail::new(format_args!("{path}: does not contain {piece}")))
}

// Fails if there is a file at a path.
fn expect_absent<R: Files + AllocGlobal>(rt: &R, path: &str) -> Result<(), Fail> {
    match fs::read(rt, path) {
        Err(error) if error.kind() == ErrorKind::NotFound => Ok(()),
        _ => Err(Fail::new(format_args!("{path}: found a file, wanted none"))),
    }
}

// Fails unless there is a symbolic link at a path that leads to this target.
fn expect_link<R: Files + AllocGlobal>(rt: &R, path: &str, target: &str) -> Result<(), Fail> {
    let found = fs::read_link(rt, path)?;
    if found.as_str() == target {
        return Ok(());
    }
    Err(Fail::new(format_args!("{path}: found another link than the one to {target}")))
}

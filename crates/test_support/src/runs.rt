//! Runs of the program and their expected results.
use std::alloc::{AllocError, Global};
use std::str::from_utf8;
use std::test::Fail;

/// What a text is expected to be.
#[derive(Clone, Copy, Debug)]
pub enum Text {
    /// This text.
    Is(&'static str),
    /// One of these two texts.
    Either(&'static str, &'static str),
    /// A text that contains this one.
    Has(&'static str),
    /// Any text but the empty one.
    Some,
    /// The line that prints this refusal.
    Refusal(&'static str),
}

/// A run on the words of a line, with its expected status, output and standard error.
#[derive(Clone, Copy)]
pub struct Run {
    pub line: &'static str,
    pub status: u8,
    pub out: Text,
    pub err: Text,
}

/// The words of a line.
pub fn words_of(alloc: Global, line: &str) -> Result<Vec<String>, AllocError> {
    let mut words = Vec::new(alloc);
    for word in line.split_whitespace() {
        words.push(String::from_str(alloc, word)?)?;
    }
    Ok(words)
}

/// Fails unless the run ended with the expected status, output and standard error. The failure has the line, what was
/// found and what was wanted.
pub fn expect_ran(run: &Run, status: u8, out: &[u8], err: &[u8]) -> Result<(), Fail> {
    if status == run.status && fits(text_of(out), run.out) && fits(text_of(err), run.err) {
        return Ok(());
    }
    let (found, wanted) = ((text_of(out), text_of(err)), (run.out, run.err));
    Err(Fail::new(format_args!(
        "{}: found {status} {found:?}, wanted {} {wanted:?}",
        run.line, run.status
    )))
}

// The text of these bytes.
fn text_of(bytes: &[u8]) -> &str {
    match from_utf8(bytes) {
        Ok(text) => text,
        Err(_) => "(bytes that are no text)",
    }
}

// Whether a text is as expected.
fn fits(text: &str, wanted: Text) -> bool {
    match wanted {
        Text::Is(whole) => text == whole,
        Text::Either(one, other) => text == one || text == other,
        Text::Has(piece) => text.contains(piece),
        Text::Some => !text.is_empty(),
        Text::Refusal(refusal) => match text.strip_prefix("compressor: ") {
            Some(rest) => rest.strip_suffix('\n') == Some(refusal),
            None => false,
        },
    }
}

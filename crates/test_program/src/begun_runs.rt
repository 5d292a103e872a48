//! How runs begin: the words of a machine in memory, and the report if they cannot be had.
use commands::{fetch_words, report_unstarted};
use heap_layout::Counted;
use std::env::FillError;
use std::io::ErrorKind;
use std::process::Abort;
use std::rt::Env;
use test_support::words_of;

// A machine that gives these words. The program's name comes first.
#[derive(Drop)]
struct Machine<'a> {
    words: &'a [&'a [u8]],
}

impl Env for Machine<'_> {
    fn arg(&self, i: usize, buf: &mut [u8]) -> Result<usize, FillError> {
        let Some(word) = self.words.get(i) else {
            return Err(FillError::NotPresent);
        };
        let Some((place, _)) = buf.split_at_mut_checked(word.len()) else {
            return Err(FillError::TooLong);
        };
        place.copy_from_slice(word);
        Ok(word.len())
    }

    fn var(&self, _name: &str, _buf: &mut [u8]) -> Result<usize, FillError> {
        Err(FillError::NotPresent)
    }

    fn var_at(&self, _i: usize, _buf: &mut [u8]) -> Result<usize, FillError> {
        Err(FillError::NotPresent)
    }
}

// Whether the words after the program's name are those of a line, or the error is of this kind.
fn is_given(
    rt: &(impl Abort + AllocGlobal),
    words: &[&[u8]],
    wanted: Result<&str, ErrorKind>,
) -> bool {
    match (fetch_words(&(Machine { words }, rt.alloc())), wanted) {
        (Ok(found), Ok(line)) => found == words_of(rt.alloc(), line).expect(rt, "memory for words"),
        (Err(error), Err(kind)) => error.kind() == kind,
        _ => false,
    }
}

// Checks that these words are given, or that the error is of this kind.
fn expect_given(rt: &(impl Abort + AllocGlobal), words: &[&[u8]], wanted: Result<&str, ErrorKind>) {
    assert!(rt; is_given(rt, words, wanted), "wanted {wanted:?}");
}

// Checks the status and the text that a kind of error ends with.
fn expect_report(rt: &(impl Abort + AllocGlobal), kind: ErrorKind, status: u8, text: &str) {
    let mut err = Vec::new(rt.alloc());
    let found = report_unstarted(kind, &mut Counted::new(&mut err));
    assert_eq!(rt; found, status, "{text}");
    assert_eq!(rt; err.as_slice(), text.as_bytes(), "{text}");
}

// The report on a word that is not UTF-8.
const NO_TEXT: &str = "error: invalid UTF-8 was detected in one or more arguments\n";

#[test]
fn runs_begin_only_with_words_in_utf_8(rt: HostRuntime) {
    let no_text = Err(ErrorKind::InvalidData);
    expect_given(&rt, &[b"compressor", b"plan", b"a.img"], Ok("plan a.img"));
    expect_given(
        &rt,
        &[b"compressor", b"plan", b"\xc3\xa4"],
        Ok("plan \u{e4}"),
    );
    expect_given(&rt, &[b"compressor"], Ok(""));
    expect_given(&rt, &[b"compressor", b"plan", b"\xff"], no_text);
    expect_given(&rt, &[b"compressor", b"a\xc3", b"--help"], no_text);
    expect_report(&rt, ErrorKind::InvalidData, 2, NO_TEXT);
    expect_report(
        &rt,
        ErrorKind::OutOfMemory,
        1,
        "compressor: P7 OutOfMemory\n",
    );
}

//! Checks of tests. They end the process, which nothing but a test may do, so each test crate has its own.
use std::fmt::Debug;
use std::process::Abort;
use test_support::At;

/// Fails at `at` unless `so` holds.
pub fn expect_so(rt: &impl Abort, at: At, so: bool) {
    assert!(rt; so, "{at}");
}

/// Fails at `at` unless both are equal, and prints what was found and what was wanted.
pub fn expect_eq<T: Copy + PartialEq + Debug>(rt: &impl Abort, at: At, found: T, wanted: T) {
    assert_eq!(rt; found, wanted, "{at}");
}

/// Fails at `at`, or at one of the rows behind it, unless both are equal, word for word.
pub fn expect_words_at(rt: &impl Abort, at: At, found: &[u64], wanted: &[u64]) {
    expect_eq(rt, at, found.len(), wanted.len());
    for (row, word) in found.iter().enumerate() {
        expect_eq(rt, at.after(row), Some(*word), wanted.get(row).copied());
    }
}

/// Fails at a row of the case unless both are equal, word for word.
pub fn expect_words(rt: &impl Abort, case: &str, found: &[u64], wanted: &[u64]) {
    expect_words_at(rt, At::new(case, 0), found, wanted);
}

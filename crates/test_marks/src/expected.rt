//! Checks of tests. They end the process, which nothing but a test may do, so each test crate has its own.
use std::fmt::Debug;
use std::process::Abort;
use test_support::At;

/// Fails at `at` unless `so` holds.
pub fn expect_so(rt: &impl Abort, at: At, so: bool) {
    assert!(rt; so, "{at}");
}

/// Fails at `at` unless both are equal, and prints what was found and what was wanted.
pub fn expect_eq<T: Copy + PartialEq + Debug>(rt: &impl Abort, at: At, found: T, wanted: T) {
    assert_eq!(rt; found, wanted, "{at}");
}

/// Fails at `at`, or at one of the rows behind it, unless both are equal, item for item.
pub fn expect_items<T: Copy + PartialEq + Debug>(
    rt: &impl Abort,
    at: At,
    found: &[T],
    wanted: &[T],
) {
    expect_eq(rt, at, found.len(), wanted.len());
    for (row, item) in found.iter().enumerate() {
        expect_eq(rt, at.after(row), Some(*item), wanted.get(row).copied());
    }
}

//! Checks of tests. They end the process, which nothing but a test may do, so each test crate has its own.
use std::fmt::Debug;
use std::process::Abort;
use test_support::At;

/// Fails at `at` unless both are equal, and prints what was found and what was wanted.
pub fn expect_eq<T: Copy + PartialEq + Debug>(rt: &impl Abort, at: At, found: T, wanted: T) {
    assert_eq!(rt; found, wanted, "{at}");
}

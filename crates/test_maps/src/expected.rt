//! Checks of tests. They end the process, which nothing but a test may do, so each test crate has its own.
use std::fmt::Debug;
use std::process::Abort;

/// Fails at `case` unless both are equal, and prints what was found and what was wanted.
pub fn expect_eq<T: Copy + PartialEq + Debug>(rt: &impl Abort, case: &str, found: T, wanted: T) {
    assert_eq!(rt; found, wanted, "{case}");
}

/// Fails at `case` unless `so` holds.
pub fn expect_so(rt: &impl Abort, case: &str, so: bool) {
    assert!(rt; so, "{case}");
}

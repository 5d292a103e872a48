//! What a collection left.
use crate::expected::{expect_eq, expect_so};
use pinned_heap::{CollectPinnedFault, Collected};
use std::process::Abort;
use test_support::At;

/// Fails unless a collection has left the last object up to this index, and these runs, each by its start and its end.
pub fn expect_left(
    rt: &impl Abort,
    case: &str,
    left: Result<Collected, CollectPinnedFault>,
    end: u64,
    runs: &[(u64, u64)],
) {
    let left = match left {
        Ok(left) => left,
        Err(fault) => return expect_eq(rt, At::new(case, 0), Some(fault), None),
    };
    expect_eq(rt, At::new(case, 0), left.end, end);
    expect_eq(rt, At::new(case, 0), left.runs.len(), runs.len());
    for (row, (run, wanted)) in left.runs.iter().zip(runs).enumerate() {
        expect_eq(rt, At::new(case, row), (run.start, run.end), *wanted);
    }
}

/// Fails unless a collection was refused with this fault.
pub fn expect_refused(
    rt: &impl Abort,
    case: &str,
    left: Result<Collected, CollectPinnedFault>,
    fault: CollectPinnedFault,
) {
    match left {
        Ok(_left) => expect_so(rt, At::new(case, 0), false),
        Err(refused) => expect_eq(rt, At::new(case, 0), refused, fault),
    }
}

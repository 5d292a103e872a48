//! Checks of sweeps, builds and finished heaps.
use crate::sweeping::swept_heaps::SweptHeap;
use comp_mutator::{Finished, Mutator};
use comp_sweep::{NotSwept, SweepFault};
use std::process::Abort;
use std::sync::ledger::Ledger as Named;

/// Checks a number of a case, and prints what was found and what was wanted.
pub fn expect_count(
    rt: &impl Abort,
    case: &'static str,
    what: &'static str,
    found: u64,
    wanted: u64,
) {
    assert_eq!(rt; found, wanted, "{case}: {what}");
}

/// Checks a condition of a case.
pub fn expect(rt: &impl Abort, case: &'static str, what: &'static str, so: bool) {
    assert!(rt; so, "{case}: {what}");
}

// Whether one of these mutators built the page.
fn is_built<L: Named>(mutators: &[Mutator<L>], p: u64) -> bool {
    for m in mutators {
        if m.builds().contains(&p) {
            return true;
        }
    }
    false
}

// The number of pages that these mutators built.
fn count_builds<L: Named>(mutators: &[Mutator<L>]) -> u64 {
    let mut builds = 0u64;
    for m in mutators {
        builds = builds.wrapping_add(m.builds().len() as u64);
    }
    builds
}

/// Checks that these mutators built each page of the case once, and no other page.
pub fn expect_built_once<L: Named>(rt: &impl Abort, case: &SweptHeap, mutators: &[Mutator<L>]) {
    let builds = count_builds(mutators);
    expect_count(rt, case.name, "builds", builds, case.pages);
    for p in 0..case.pages {
        expect(rt, case.name, "each page is built", is_built(mutators, p));
    }
}

// The number of places of the region in these lists.
fn places(lists: &[Vec<u64>], region: u64) -> u64 {
    let mut places = 0u64;
    for list in lists {
        for listed in list {
            if *listed == region {
                places = places.wrapping_add(1);
            }
        }
    }
    places
}

/// Checks that the lists of the workers together are the regions of the case, each once.
pub fn expect_regions(rt: &impl Abort, case: &SweptHeap, lists: &[Vec<u64>]) {
    let (count, workers) = (lists.len() as u64, case.workers as u64);
    expect_count(rt, case.name, "lists, one a worker", count, workers);
    let mut listed = 0u64;
    for list in lists {
        listed = listed.wrapping_add(list.len() as u64);
    }
    expect_count(rt, case.name, "listed regions", listed, case.regions);
    for region in 0..case.regions {
        let places = places(lists, region);
        expect_count(rt, case.name, "places of a region", places, 1);
    }
}

/// Checks that the sweep was refused for this cause, that `workers` mutators came back, and that page 9 is not built.
pub fn expect_refused<L: Named>(
    rt: &impl Abort,
    case: &SweptHeap,
    refused: &NotSwept<L>,
    cause: SweepFault,
    workers: usize,
) {
    let mutators = refused.mutators.as_slice();
    let (count, wanted) = (mutators.len() as u64, workers as u64);
    expect(rt, case.name, "why it is refused", refused.fault == cause);
    expect_count(rt, case.name, "workers that came back", count, wanted);
    expect(rt, case.name, "page 9 is not built", !is_built(mutators, 9));
}

/// Checks that the finished heap has all pages and all words of the case.
pub fn expect_whole(rt: &impl Abort, case: &SweptHeap, finished: &Finished) {
    let pages = finished.pages();
    let count = pages.len() as u64;
    expect_count(rt, case.name, "pages", count, case.pages);
    let words = finished.live_words();
    expect_count(rt, case.name, "live words", words, case.live_words);
    for p in 0..pages.len() {
        expect(rt, case.name, "each page is there", pages.page(p).is_some());
    }
}

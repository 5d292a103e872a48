//! What is said of a build that is not claimed once. All numbers are worked by hand.
use crate::dump_bytes::{Change, PAGE_1, PAGE_1_AND_TWO, PAGES_0_AND_2, Whole, changed};
use crate::dumps_in_memory::read;
use crate::expected::expect_eq;
use crate::explained_faults::explained;
use comp_audit::{Claims, Explanation};
use page_plan::Plan;
use std::alloc::Global;
use std::process::Abort;
use test_support::{At, Worked, plan_of};

// The list of builds in the dump after a new object, and the second list in the dump of two mutators.
const BUILDS: usize = 1_109;

const SECOND_BUILDS: usize = 644;

// Whether a page was built, its number, how often all lists name it, and how often those mutators do whose lists name
// it.
#[derive(Clone, Copy)]
struct Naming {
    is_built: bool,
    page: u64,
    named: u64,
    by: &'static [(usize, u32)],
}

// The same as it is told. No other list names the page.
fn claims_of(naming: Naming) -> Claims {
    let mut by = [0; 64];
    for (mutator, times) in naming.by {
        if let Some(here) = by.get_mut(*mutator) {
            *here = *times;
        }
    }
    Claims {
        page: naming.page,
        is_built: naming.is_built,
        named: naming.named,
        by,
    }
}

// A dump, the changes of it, and what is said of its first fault.
struct ClaimedBuild(Whole, &'static [Change], Naming);

static CLAIMED: [ClaimedBuild; 5] = [
    // The list names page 1 alone.
    ClaimedBuild(
        Whole::Linked,
        &[Change(BUILDS, 12, 8, PAGE_1)],
        Naming {
            is_built: true,
            page: 0,
            named: 0,
            by: &[],
        },
    ),
    // It names page 2 too, which was never built; or page 0 twice.
    ClaimedBuild(
        Whole::Linked,
        &[
            Change(BUILDS, 12, 8, PAGE_1_AND_TWO),
            Change(BUILDS + 12, 0, 8, PAGES_0_AND_2),
        ],
        Naming {
            is_built: false,
            page: 2,
            named: 1,
            by: &[(0, 1)],
        },
    ),
    ClaimedBuild(
        Whole::Linked,
        &[
            Change(BUILDS, 12, 8, PAGE_1_AND_TWO),
            Change(BUILDS + 12, 0, 8, 0),
        ],
        Naming {
            is_built: true,
            page: 0,
            named: 2,
            by: &[(0, 2)],
        },
    ),
    // Both mutators name page 0; the second names it twice.
    ClaimedBuild(
        Whole::Put,
        &[Change(SECOND_BUILDS, 4, 8, 1)],
        Naming {
            is_built: true,
            page: 0,
            named: 2,
            by: &[(0, 1), (1, 1)],
        },
    ),
    ClaimedBuild(
        Whole::Put,
        &[Change(SECOND_BUILDS, 4, 12, 2)],
        Naming {
            is_built: true,
            page: 0,
            named: 3,
            by: &[(0, 1), (1, 2)],
        },
    ),
];

// Checks what is said of each dump, for the plan of the three objects.
fn expect_claimed(rt: &impl Abort, alloc: Global, plan: &Plan) {
    for (at, ClaimedBuild(whole, changes, naming)) in CLAIMED.iter().enumerate() {
        let bytes = changed(rt, alloc, whole, changes);
        let dump = read(alloc, &bytes).expect(rt, "a dump");
        let found = explained(rt, alloc, plan, &dump);
        let wanted = Explanation::BuildUnclaimed(claims_of(*naming));
        expect_eq(rt, At::new("claimed", at), found, Some(wanted));
    }
}

#[test]
fn a_build_that_is_not_claimed_once_is_explained_by_the_lists(rt: HostRuntime) {
    let plan = plan_of(&rt, rt.alloc(), Worked::Three).expect(&rt, "a plan");
    expect_claimed(&rt, rt.alloc(), &plan);
}

// Claims, and how they read.
struct WordedClaims(Naming, &'static str);

static WORDED: [WordedClaims; 4] = [
    WordedClaims(
        Naming {
            is_built: true,
            page: 0,
            named: 3,
            by: &[(3, 1), (9, 2)],
        },
        "page 0 is built, and named 3 times\nmutator 3 names it 1 times\nmutator 9 names it 2 times",
    ),
    WordedClaims(
        Naming {
            is_built: true,
            page: 0,
            named: 2,
            by: &[(63, 2)],
        },
        "page 0 is built, and named 2 times\nmutator 63 names it 2 times",
    ),
    WordedClaims(
        Naming {
            is_built: false,
            page: 2,
            named: 1,
            by: &[(0, 1)],
        },
        "page 2 is not built, and named 1 times\nmutator 0 names it 1 times",
    ),
    WordedClaims(
        Naming {
            is_built: true,
            page: 2,
            named: 0,
            by: &[],
        },
        "page 2 is built, and named 0 times",
    ),
];

// Checks how all claims read.
fn expect_claims_worded(rt: &impl Abort, alloc: Global) {
    for (at, WordedClaims(naming, wanted)) in WORDED.iter().enumerate() {
        let claims = Explanation::BuildUnclaimed(claims_of(*naming));
        let found = format!(in alloc; "{claims}").expect(rt, "a text");
        expect_eq(rt, At::new("claims", at), found.as_str(), *wanted);
    }
}

#[test]
fn explanations_of_builds_are_printed_as_these_lines(rt: HostRuntime) {
    expect_claims_worded(&rt, rt.alloc());
}

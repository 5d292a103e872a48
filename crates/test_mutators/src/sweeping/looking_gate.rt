//! A gate at which another mutator looks at the pages of each region, before its first page and after its last.
ghost use Rattle.comp_mutator.specs.Mutators.{IsMutatorOf};

use crate::sweeping::sweep_checks::{expect, expect_count};
use comp_mutator::{Builder, Mutator, Space, Touched};
use comp_sweep::Gate;
use std::alloc::Global;
use std::hint;
use std::process::Abort;
use std::sync::Wait;
use std::sync::atomic::{AtomicU64, Ordering};
use std::sync::ledger::Ledger as Named;

// How often a worker looks whether its region was looked at.
const TURNS: u64 = 10_000_000;

// The states of a region, in their order. A worker asks for a look twice.
const BEGUN: u64 = 1;

const LOOKED_BEFORE: u64 = 2;

const ENDED: u64 = 3;

const LOOKED_AFTER: u64 = 4;

/// The gate. A worker waits at its calls until the region was looked at.
#[derive(Drop)]
pub struct Looked {
    states: [AtomicU64; 3],
    missed: AtomicU64,
    done: AtomicU64,
}

// Waits until the region is in this state. Answers whether it is. The wait is bounded.
fn reaches(state: &AtomicU64, wanted: u64) -> bool {
    for _ in 0..TURNS {
        if state.load(Ordering::SeqCst) == wanted {
            return true;
        }
        hint::spin_loop();
    }
    false
}

impl Looked {
    /// A gate that no region has reached.
    pub fn new() -> Looked {
        Looked {
            states: [AtomicU64::new(0), AtomicU64::new(0), AtomicU64::new(0)],
            missed: AtomicU64::new(0),
            done: AtomicU64::new(0),
        }
    }

    // Asks for a look at the region, and waits for it.
    fn ask(&self, region: u64, asked: u64, wanted: u64) {
        if let Some(state) = self.states.get(region as usize) {
            state.store(asked, Ordering::SeqCst);
            if !reaches(state, wanted) {
                self.missed.fetch_add(1, Ordering::SeqCst);
            }
        }
    }

    /// No region comes any more.
    pub fn end(&self) {
        self.done.store(1, Ordering::SeqCst);
    }

    /// Checks that each region was looked at twice, and that no worker waited in vain.
    pub fn expect_all_looked_at(&self, rt: &impl Abort, case: &'static str) {
        let missed = self.missed.load(Ordering::SeqCst);
        expect_count(rt, case, "looks that were missed", missed, 0);
        for state in &self.states {
            let state = state.load(Ordering::SeqCst);
            expect_count(rt, case, "the state of a region", state, LOOKED_AFTER);
        }
    }
}

impl Gate for Looked {
    fn before(&self, region: u64) {
        self.ask(region, BEGUN, LOOKED_BEFORE);
    }

    fn after(&self, region: u64) {
        self.ask(region, ENDED, LOOKED_AFTER);
    }
}

// Touches a page, which must be found as it is wanted.
fn expect_found<L: Named, B: Builder>(
    rt: &impl Abort,
    alloc: Global,
    space: &Space<L, B>,
    m: &mut Mutator<L>,
    p: u64,
    wanted: Touched,
    case: &'static str,
)
    requires of { IsMutatorOf space.now m.old }
    ensures of { IsMutatorOf space.now m.new }
{
    assert!(rt; p < space.pages());
    let found = space.try_touch(alloc, m, p);
    expect(rt, case, "how a page is found", found == Ok(wanted));
}

// Touches the pages from one to before another, all of which must be built.
fn expect_built<L: Named, B: Builder>(
    rt: &impl Abort,
    alloc: Global,
    space: &Space<L, B>,
    m: &mut Mutator<L>,
    first: u64,
    end: u64,
    case: &'static str,
)
    requires of { IsMutatorOf space.now m.old }
    ensures of { IsMutatorOf space.now m.new }
{
    for p in first..end {
        expect_found(rt, alloc, space, m, p, Touched::AlreadyBuilt, case);
    }
}

// Looks at a region, if a worker asks for it. Before the region its first page is not built yet; after it all its pages
// are built.
fn look<L: Named, B: Builder>(
    rt: &impl Abort,
    alloc: Global,
    space: &Space<L, B>,
    m: &mut Mutator<L>,
    gate: &Looked,
    region: u64,
    case: &'static str,
)
    requires of { IsMutatorOf space.now m.old }
    ensures of { IsMutatorOf space.now m.new }
{
    let Some(state) = gate.states.get(region as usize) else {
        return;
    };
    let first = region.wrapping_mul(8);
    let asked = state.load(Ordering::SeqCst);
    if asked == BEGUN {
        expect_found(rt, alloc, space, m, first, Touched::Built, case);
        state.store(LOOKED_BEFORE, Ordering::SeqCst);
    } else if asked == ENDED {
        let end = first.wrapping_add(8).min(space.compacted_pages());
        expect_built(rt, alloc, space, m, first, end, case);
        state.store(LOOKED_AFTER, Ordering::SeqCst);
    }
}

/// Looks at the regions 0, 1 and 2 whenever a worker asks for it, until no region comes any more.
pub fn look_on<L: Named, B: Builder, R: Abort + Wait>(
    rt: &R,
    alloc: Global,
    space: &Space<L, B>,
    m: &mut Mutator<L>,
    gate: &Looked,
    case: &'static str,
)
    requires of { IsMutatorOf space.now m.old }
    ensures of { IsMutatorOf space.now m.new }
{
    for _ in rt.forever() {
        look(rt, alloc, space, m, gate, 0, case);
        look(rt, alloc, space, m, gate, 1, case);
        look(rt, alloc, space, m, gate, 2, case);
        if gate.done.load(Ordering::SeqCst) == 1 {
            return;
        }
        hint::spin_loop();
    }
    unreachable!()
}

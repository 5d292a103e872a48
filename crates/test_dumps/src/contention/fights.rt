//! The fights: how many mutators write into the first data word of a heap, how often, and what is left.
use crate::contention::whole_fight::fight_named;
use std::alloc::Global;
use std::marker::Brand;
use std::process::Abort;
use std::sync::ledger::Blank;
use std::sync::{Arc, Wait};
use std::thread::Threads;
use test_support::{At, Worked, plan_of};

/// A fight for page 0.
#[derive(Clone, Copy)]
pub struct Fight {
    /// The name that a failing test prints.
    pub name: &'static str,
    pub heap: Worked,
    /// The offset on page 0 of the first data word of the first object.
    pub offset: u8,
    pub mutators: u8,
    /// How often each mutator writes, or tries to.
    pub writes: u64,
    /// Whether a write waits while the page is busy.
    pub waits: bool,
    /// Whether the writes fill the journal.
    pub fills: bool,
}

impl Fight {
    /// Where a failing test is, by the number of a mutator, a stamp, a value or entries.
    pub fn at(self, number: u64) -> At<'static> {
        At {
            case: self.name,
            row: number,
        }
    }
}

// All writes wait while the page is busy.
static FILLING: [Fight; 2] = [
    Fight {
        name: "sixty-four mutators fill a journal",
        heap: Worked::Three,
        offset: 1,
        mutators: 64,
        writes: 16,
        waits: true,
        fills: true,
    },
    Fight {
        name: "sixteen mutators fill a journal of edition three",
        heap: Worked::Mixed,
        offset: 3,
        mutators: 16,
        writes: 64,
        waits: true,
        fills: true,
    },
];

// No write waits.
static TRYING: [Fight; 2] = [
    Fight {
        name: "eight mutators try a hundred times",
        heap: Worked::Three,
        offset: 1,
        mutators: 8,
        writes: 100,
        waits: false,
        fills: false,
    },
    Fight {
        name: "sixty-four mutators try ten times",
        heap: Worked::Three,
        offset: 1,
        mutators: 64,
        writes: 10,
        waits: false,
        fills: false,
    },
];

// Runs a fight on its heap.
fn fight_out<R: Abort + Threads + Wait + Sync>(rt: &R, alloc: Global, fight: &Fight) {
    let plan = plan_of(rt, alloc, fight.heap).expect(rt, "a plan");
    let shared = plan_of(rt, alloc, fight.heap).expect(rt, "a plan");
    let builder = Arc::new(alloc, shared).expect(rt, "memory for the builder");
    let blank = Blank::new(u64::from(fight.mutators));
    fight_named::<Brand, R>(rt, alloc, blank, builder, &plan, *fight);
}

#[test]
fn racing_writes_that_wait_fill_a_journal(rt: HostRuntime) {
    for fight in &FILLING {
        fight_out(&rt, rt.alloc(), fight);
    }
}

#[test]
fn racing_writes_that_do_not_wait_have_an_entry_or_find_the_page_busy(rt: HostRuntime) {
    for fight in &TRYING {
        fight_out(&rt, rt.alloc(), fight);
    }
}

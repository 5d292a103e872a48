//! A gate that counts or holds regions.
use crate::sweeping::sweep_checks::expect;
use crate::sweeping::swept_heaps::Beside;
use comp_sweep::Gate;
use std::hint;
use std::process::Abort;
use std::sync::atomic::{AtomicU64, Ordering};
use test_support::{both, met};

// How often a held worker looks whether it may go on.
const TURNS: u64 = 100_000_000;

/// The gate of a case. It counts the begun and ended regions, or the regions that it held in vain.
#[derive(Drop)]
pub struct Watch {
    beside: Beside,
    begun: [AtomicU64; 3],
    ended: [AtomicU64; 3],
    counted: AtomicU64,
    missed: AtomicU64,
}

// Waits until there are so many. Answers whether there are. The wait is bounded.
fn reaches(counted: &AtomicU64, wanted: u64) -> bool {
    for _ in 0..TURNS {
        if counted.load(Ordering::SeqCst) >= wanted {
            return true;
        }
        hint::spin_loop();
    }
    false
}

impl Watch {
    /// A gate that has counted nothing.
    pub fn new(beside: Beside) -> Watch {
        Watch {
            beside,
            begun: [AtomicU64::new(0), AtomicU64::new(0), AtomicU64::new(0)],
            ended: [AtomicU64::new(0), AtomicU64::new(0), AtomicU64::new(0)],
            counted: AtomicU64::new(0),
            missed: AtomicU64::new(0),
        }
    }

    // Waits until the regions 0 and 1 have both begun.
    fn hold(&self, region: u64) {
        let together = if region == 0 {
            met(&self.begun[0], &self.begun[1])
        } else {
            met(&self.begun[1], &self.begun[0])
        };
        if !together {
            self.missed.fetch_add(1, Ordering::SeqCst);
        }
    }

    // Waits until the regions 1 and 2 have both ended.
    fn wait(&self) {
        if !both(&self.ended[1], &self.ended[2]) {
            self.missed.fetch_add(1, Ordering::SeqCst);
        }
    }

    // Waits until so many regions were counted.
    fn wait_for(&self, wanted: u64) {
        if !reaches(&self.counted, wanted) {
            self.missed.fetch_add(1, Ordering::SeqCst);
        }
    }

    /// Checks that no region was held in vain. If regions are counted, each must have begun and ended once.
    pub fn expect_none_missed(&self, rt: &impl Abort, case: &'static str) {
        let missed = self.missed.load(Ordering::SeqCst);
        expect(rt, case, "no region held in vain", missed == 0);
        if matches!(self.beside, Beside::Counts) {
            expect_once(rt, case, &self.begun);
            expect_once(rt, case, &self.ended);
        }
    }
}

// Counts a call for this region.
fn count(calls: &[AtomicU64], region: u64) {
    if let Some(calls) = calls.get(region as usize) {
        calls.fetch_add(1, Ordering::SeqCst);
    }
}

// Checks that each region was counted once.
fn expect_once(rt: &impl Abort, case: &'static str, calls: &[AtomicU64]) {
    for calls in calls {
        let once = calls.load(Ordering::SeqCst) == 1;
        expect(rt, case, "each region once", once);
    }
}

impl Gate for Watch {
    fn before(&self, region: u64) {
        match self.beside {
            Beside::Counts => count(&self.begun, region),
            Beside::Holds => self.hold(region),
            Beside::Steals if region == 0 => self.wait(),
            Beside::Together(held) if region < held => {
                self.counted.fetch_add(1, Ordering::SeqCst);
                self.wait_for(held);
            }
            Beside::Frees(held, others) if region < held => self.wait_for(others),
            _ => {}
        }
    }

    fn after(&self, region: u64) {
        match self.beside {
            Beside::Counts | Beside::Steals => count(&self.ended, region),
            Beside::Frees(held, _) if region >= held => {
                self.counted.fetch_add(1, Ordering::SeqCst);
            }
            _ => {}
        }
    }
}

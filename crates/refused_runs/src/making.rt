//! A builder that counts the pages that it made.
use heap_layout::{OutOfMemory, PageWords};
use page_plan::{Builder, Plan};
use std::alloc::Global;
use std::sync::atomic::{AtomicU64, Ordering};

/// A plan that counts the pages that it made.
#[derive(Drop)]
pub struct Making {
    plan: Plan,
    made: AtomicU64,
}

impl Making {
    /// Over a plan, with the count 0.
    pub fn new(plan: Plan) -> Making {
        Making {
            plan,
            made: AtomicU64::new(0),
        }
    }

    /// How many pages were made. A refused build makes none.
    pub fn count(&self) -> u64 {
        self.made.load(Ordering::SeqCst)
    }
}

impl Builder for Making {
    ghost heap = { λ making. making.plan };

    fn plan(&self) -> &Plan {
        &self.plan
    }

    fn build(&self, alloc: Global, p: u64) -> Result<PageWords, OutOfMemory> {
        let page = self.plan.build_page(alloc, p)?;
        self.made.fetch_add(1, Ordering::SeqCst);
        Ok(page)
    }
}

//! Builders that count, refuse or hold a build.
use heap_layout::{OutOfMemory, PageWords};
use page_plan::{Builder, Plan};
use std::alloc::Global;
use std::hint;
use std::sync::atomic::{AtomicU64, Ordering};

// The most times that a thread looks for the other. It rests between two looks, so that the other thread gets its turn.
const TURNS: u64 = 10_000_000;

/// A plan that counts its builds.
#[derive(Drop)]
pub struct Counting {
    pub plan: Plan,
    pub builds: AtomicU64,
}

impl Counting {
    /// Over a plan, with the count 0.
    pub fn new(plan: Plan) -> Counting {
        Counting {
            plan,
            builds: AtomicU64::new(0),
        }
    }

    /// How many builds were begun.
    pub fn count(&self) -> u64 {
        self.builds.load(Ordering::SeqCst)
    }
}

impl Builder for Counting {
    ghost heap = { λ counting. counting.plan };

    fn plan(&self) -> &Plan {
        &self.plan
    }

    fn build(&self, alloc: Global, p: u64) -> Result<PageWords, OutOfMemory> {
        self.builds.fetch_add(1, Ordering::SeqCst);
        self.plan.build_page(alloc, p)
    }
}

/// A plan whose builds of pages 0 and 1 each wait until the other has begun.
#[derive(Drop)]
pub struct Meeting {
    plan: Plan,
    begun: [AtomicU64; 2],
}

impl Meeting {
    /// Over a plan, with neither build begun.
    pub fn new(plan: Plan) -> Meeting {
        Meeting {
            plan,
            begun: [AtomicU64::new(0), AtomicU64::new(0)],
        }
    }
}

impl Builder for Meeting {
    ghost heap = { λ meeting. meeting.plan };

    fn plan(&self) -> &Plan {
        &self.plan
    }

    fn build(&self, alloc: Global, p: u64) -> Result<PageWords, OutOfMemory> {
        if p == 0 && !met(&self.begun[0], &self.begun[1]) {
            return Err(OutOfMemory);
        }
        if p == 1 && !met(&self.begun[1], &self.begun[0]) {
            return Err(OutOfMemory);
        }
        self.plan.build_page(alloc, p)
    }
}

/// Notes that the build of `own` has begun and waits for the other. Answers whether the other began. The wait is
/// bounded.
pub fn met(own: &AtomicU64, other: &AtomicU64) -> bool {
    own.store(1, Ordering::SeqCst);
    both(own, other)
}

/// Waits until both have begun. Answers whether they have. The wait is bounded.
pub fn both(one: &AtomicU64, other: &AtomicU64) -> bool {
    for _ in 0..TURNS {
        if one.load(Ordering::SeqCst) == 1 && other.load(Ordering::SeqCst) == 1 {
            return true;
        }
        hint::spin_loop();
    }
    false
}

/// A plan whose first build of one page asks for more memory than there is, and answers the refusal.
#[derive(Drop)]
pub struct Refusing {
    plan: Plan,
    page: u64,
    calls: AtomicU64,
}

impl Refusing {
    /// Over a plan, with no build of page `page` begun.
    pub fn new(plan: Plan, page: u64) -> Refusing {
        Refusing {
            plan,
            page,
            calls: AtomicU64::new(0),
        }
    }
}

impl Builder for Refusing {
    ghost heap = { λ refusing. refusing.plan };

    fn plan(&self) -> &Plan {
        &self.plan
    }

    fn build(&self, alloc: Global, p: u64) -> Result<PageWords, OutOfMemory> {
        if p == self.page && self.calls.fetch_add(1, Ordering::SeqCst) == 0 {
            let mut many: Vec<u64> = Vec::new(alloc);
            many.reserve(1 << 60)?;
        }
        self.plan.build_page(alloc, p)
    }
}

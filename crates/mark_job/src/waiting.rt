//! The objects that wait in the lanes of a marking, which threads share, and what one does there.
ghost use Rattle.std.specs.Prelude.{◌≡◌, ℕ, ◌<◌, List, length, IfSome};
ghost use Rattle.heap_layout.specs.declared.edition.Edition.{Edition};
ghost use Rattle.mark_job.specs.Lanes.{IsOut};
ghost use Rattle.mark_job.specs.Marking.{IsEndFaultOf};

use crate::desk::{FEW, MOST_MOVED, zeros};
use crate::free_lanes::{FreeLanes, FreeTaken};
use crate::lane::Lane;
use crate::lanes::LANES;
use crate::marking_fault::MarkingEnd;
use std::alloc::{AllocError, Global};
use std::sync::atomic::{AtomicU64, Ordering};

/// Which lanes a thread looks for.
#[derive(Clone, Copy)]
pub(crate) enum Wanted {
    /// Objects wait there.
    Some,
    /// No objects wait there.
    None,
    /// Either.
    Any,
}

/// Why a helper gave up.
#[derive(Clone, Copy)]
pub(crate) enum Lost {
    /// An allocation failed.
    Memory,
    /// The object at this index is too long, ends past the words, or has a word with another one.
    Object(usize),
}

/// The lanes; how many objects wait in each, as the thread said that had it last; how many wait in all, those that
/// threads have among them; 1 if a helper got no memory; and one more than the index of an object for which a helper
/// gave up, or 0.
#[derive(Drop)]
pub(crate) struct Waiting {
    lanes: FreeLanes,
    sizes: Vec<AtomicU64>,
    left: AtomicU64,
    no_memory: AtomicU64,
    bad_object: AtomicU64,
    ghost sized: { length sizes.items ≡ 64 },
}

impl Waiting {
    /// The objects of this lane wait.
    pub(crate) fn new(alloc: Global, first: Lane) -> Result<Waiting, AllocError> {
        let sizes = zeros(alloc, LANES)?;
        let count = first.objects.len() as u64;
        let lanes = FreeLanes::new(alloc, first)?;
        sizes[0].store(count, Ordering::SeqCst);
        Ok(Waiting {
            lanes,
            sizes,
            left: AtomicU64::new(count),
            no_memory: AtomicU64::new(0),
            bad_object: AtomicU64::new(0),
        })
    }

    // Whether a helper gave up.
    fn is_lost(&self) -> bool {
        self.no_memory.load(Ordering::SeqCst) != 0 || self.bad_object.load(Ordering::SeqCst) != 0
    }

    /// Whether nothing waits, or a helper gave up.
    pub(crate) fn is_done(&self) -> bool {
        self.left.load(Ordering::SeqCst) == 0 || self.is_lost()
    }

    /// Why the marking is not at its end, if it is not.
    pub(crate) fn not_ended(&self) -> Option<MarkingEnd>
        ensures { IfSome result (λ why. (edition : Edition) (roots : List ℕ) → IsEndFaultOf edition roots why) }
    {
        if self.no_memory.load(Ordering::SeqCst) != 0 {
            return Some(MarkingEnd::NoMemory);
        }
        let bad = self.bad_object.load(Ordering::SeqCst);
        if bad != 0 {
            return Some(MarkingEnd::BadObject(bad - 1));
        }
        if self.left.load(Ordering::SeqCst) != 0 {
            return Some(MarkingEnd::Waiting);
        }
        None
    }

    /// The thread gives up.
    pub(crate) fn give_up(&self, why: Lost) {
        match why {
            Lost::Memory => self.no_memory.store(1, Ordering::SeqCst),
            Lost::Object(i) => self
                .bad_object
                .store((i as u64).wrapping_add(1), Ordering::SeqCst),
        }
    }

    // Whether lane `k` is wanted, as the thread said that had it last.
    fn is_wanted(&self, k: usize, wanted: Wanted) -> bool
        requires { k < 64 }
    {
        let size = self.sizes[k].load(Ordering::SeqCst);
        match wanted {
            Wanted::Some => size != 0,
            Wanted::None => size == 0,
            Wanted::Any => true,
        }
    }

    /// Takes a lane that is wanted, the first one from lane `first` on.
    pub(crate) fn pick(&self, alloc: Global, first: usize, wanted: Wanted) -> Option<FreeTaken>
        ensures { IfSome result (λ taken. IsOut self.now.lanes.table.shared.table_id taken.seat.table_id taken.seat.me taken.k) }
    {
        for d in 0..LANES {
            let k = (first % LANES + d) % LANES;
            if self.is_wanted(k, wanted) && self.lanes.was_home(k) {
                if let Some(taken) = self.lanes.take(alloc, k) {
                    return Some(taken);
                }
            }
        }
        None
    }

    /// Puts a lane back where so many objects waited before, and says how many wait there and in all.
    pub(crate) fn put(&self, taken: FreeTaken, before: usize)
        requires { IsOut self.now.lanes.table.shared.table_id taken.seat.table_id taken.seat.me taken.k }
    {
        let now = taken.lane.waiting() as u64;
        let more = now.wrapping_sub(before as u64);
        if more != 0 {
            self.left.fetch_add(more, Ordering::SeqCst);
        }
        self.sizes[taken.k].store(now, Ordering::SeqCst);
        self.lanes.put(taken);
    }

    /// Moves objects that wait in lane `k`, which the caller has, into an empty lane, if many wait there.
    pub(crate) fn share(&self, alloc: Global, k: usize, lane: &mut Lane) {
        if lane.waiting() < FEW {
            return;
        }
        let Some(mut taken) = self.pick(alloc, k.wrapping_add(1), Wanted::None) else {
            return;
        };
        let before = taken.lane.waiting();
        lane.give_half(&mut taken.lane, MOST_MOVED);
        self.put(taken, before);
    }
}

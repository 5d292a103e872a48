//! What the helpers of a job share beside the heap, and what one does there.
ghost use Rattle.std.specs.Prelude.{◌≡◌, ◌*◌, ◌<◌, ◌≤◌, length, IfOk, IfSome};
ghost use Rattle.mark_job.specs.Asked.{AreMetIn};
ghost use Rattle.mark_job.specs.Lanes.{IsOut};

use crate::help::Help;
use crate::image::Image;
use crate::lane::Lane;
use crate::lanes::{LANES, Lanes, Taken};
use crate::looking::{look, meet_all};
use std::alloc::{AllocError, Global};
use std::sync::atomic::{AtomicU64, Ordering};

/// At how many objects a call looks.
pub(crate) const BATCH: usize = 1024;

/// A lane where fewer objects wait is not parted.
pub(crate) const FEW: usize = 32;

/// How many objects are moved at once into another lane.
pub(crate) const MOST_MOVED: usize = 8192;

/// The lanes; the bits of the words whose objects were put into one; how many objects wait in each lane, as the helper
/// said that had it last; how many wait in all, those that helpers have among them; and 1 if a helper gave up.
#[derive(Drop)]
pub struct Desk {
    pub(crate) lanes: Lanes,
    pub(crate) seen: Vec<AtomicU64>,
    pub(crate) sizes: Vec<AtomicU64>,
    pub(crate) left: AtomicU64,
    pub(crate) lost: AtomicU64,
    ghost sized: { length sizes.items ≡ 64 },
}

/// So many words, which are 0.
pub(crate) fn zeros(alloc: Global, count: usize) -> Result<Vec<AtomicU64>, AllocError>
    ensures { IfOk result (λ words. length words.items ≡ count) }
{
    let mut words = Vec::with_capacity(alloc, count)?;
    for _ in 0..count {
        words.push(AtomicU64::new(0))?;
    }
    Ok(words)
}

impl Desk {
    /// Puts the objects to which the roots lead into the first lane.
    pub(crate) fn new(alloc: Global, image: &Image) -> Result<Desk, AllocError>
        ensures key { IfOk result (λ desk. desk.lanes.table.shared.key ≡ image.now) }
        ensures seen { IfOk result (λ desk. length image.now.words ≤ 64 * length desk.seen.items) }
    {
        let seen = zeros(alloc, image.words.len().div_ceil(64))?;
        let sizes = zeros(alloc, LANES)?;
        let mut first = Lane::new(alloc);
        meet_all(image, &seen, &mut first.objects, image.roots())?;
        let count = first.objects.len() as u64;
        let lanes = Lanes::new(alloc, image, first)?;
        sizes[0].store(count, Ordering::SeqCst);
        Ok(Desk {
            lanes,
            seen,
            sizes,
            left: AtomicU64::new(count),
            lost: AtomicU64::new(0),
        })
    }

    // Whether nothing waits, or a helper gave up.
    fn is_done(&self) -> bool {
        self.left.load(Ordering::SeqCst) == 0 || self.lost.load(Ordering::SeqCst) != 0
    }

    // How many objects wait in lane `k`, as the helper said that had it last.
    fn size(&self, k: usize) -> u64
        requires { k < 64 }
    {
        self.sizes[k].load(Ordering::SeqCst)
    }

    // Takes a lane where objects wait, the first one from lane `first` on.
    fn pick(&self, alloc: Global, image: &Image, first: usize) -> Option<Taken>
        requires first { first < 64 }
        requires key { self.now.lanes.table.shared.key ≡ image.now }
        ensures met { IfSome result (λ taken. AreMetIn image.now taken.lane) }
        ensures out { IfSome result (λ taken. IsOut self.now.lanes.table.shared.table_id taken.seat.table_id taken.seat.me taken.k) }
    {
        for d in 0..LANES {
            let k = (first + d) % LANES;
            if self.size(k) != 0 && self.lanes.was_home(k) {
                if let Some(taken) = self.lanes.take(alloc, image, k) {
                    return Some(taken);
                }
            }
        }
        None
    }

    // Takes an empty lane, the first one behind lane `k`.
    fn pick_empty(&self, alloc: Global, image: &Image, k: usize) -> Option<Taken>
        requires inside { k < 64 }
        requires key { self.now.lanes.table.shared.key ≡ image.now }
        ensures met { IfSome result (λ taken. AreMetIn image.now taken.lane) }
        ensures out { IfSome result (λ taken. IsOut self.now.lanes.table.shared.table_id taken.seat.table_id taken.seat.me taken.k) }
    {
        for d in 1..LANES {
            let other = (k + d) % LANES;
            if self.size(other) == 0 && self.lanes.was_home(other) {
                if let Some(taken) = self.lanes.take(alloc, image, other) {
                    return Some(taken);
                }
            }
        }
        None
    }

    // Puts a lane back, and says how many objects wait there.
    fn put(&self, image: &Image, taken: Taken)
        requires key { self.now.lanes.table.shared.key ≡ image.now }
        requires met { AreMetIn image.now taken.lane }
        requires out { IsOut self.now.lanes.table.shared.table_id taken.seat.table_id taken.seat.me taken.k }
    {
        self.sizes[taken.k].store(taken.lane.waiting() as u64, Ordering::SeqCst);
        self.lanes.put(image, taken);
    }

    // Moves objects that wait in lane `k` into an empty lane, if many wait there. The caller has lane `k`.
    fn share(&self, alloc: Global, image: &Image, k: usize, lane: &mut Lane)
        requires inside { k < 64 }
        requires key { self.now.lanes.table.shared.key ≡ image.now }
        requires met { AreMetIn image.now lane.old }
        ensures { AreMetIn image.now lane.new }
    {
        if lane.waiting() < FEW {
            return;
        }
        let Some(mut taken) = self.pick_empty(alloc, image, k) else {
            return;
        };
        lane.move_half(image, &mut taken.lane, MOST_MOVED);
        self.put(image, taken);
    }

    // Follows the references of some objects of a lane that was taken.
    fn work(&self, image: &Image, lane: &mut Lane)
        requires room { length image.now.words ≤ 64 * length self.now.seen.items }
        requires met { AreMetIn image.now lane.old }
        ensures { AreMetIn image.now lane.new }
    {
        let before = lane.waiting() as u64;
        if !look(image, &self.seen, lane, BATCH) {
            self.lost.store(1, Ordering::SeqCst);
        }
        let more = (lane.waiting() as u64).wrapping_sub(before);
        self.left.fetch_add(more, Ordering::SeqCst);
    }

    /// Looks at some of the objects that wait, in the first lane from lane `first` on that nobody has.
    pub(crate) fn help(&self, alloc: Global, image: &Image, first: usize) -> Help
        requires first { first < 64 }
        requires key { self.now.lanes.table.shared.key ≡ image.now }
        requires room { length image.now.words ≤ 64 * length self.now.seen.items }
    {
        if self.is_done() {
            return Help::Done;
        }
        let Some(mut taken) = self.pick(alloc, image, first) else {
            return Help::Idle;
        };
        let k = taken.k;
        self.work(image, &mut taken.lane);
        self.share(alloc, image, k, &mut taken.lane);
        self.put(image, taken);
        Help::Worked
    }
}

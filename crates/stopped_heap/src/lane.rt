//! One of several markers of a heap while its threads go on: what it met and looked at itself. Nothing here reads the
//! heap.
ghost use Rattle.std.specs.Prelude.{◌≡◌, ℕ, ◌-◌, ◌<◌, ◌≤◌, ◌++◌, false, List, [], length, slice_index, take, drop, min, IfErr, IfOk};
ghost use Rattle.heap_layout.specs.Bits.{bit};
ghost use Rattle.heap_layout.specs.Limits.{most_words};
ghost use Rattle.rest_marks.specs.Lanes.{AreKnownMore, AreLanedIn, IsBeginFault, IsLaneMeetFault, IsLedTo, IsTold};
ghost use Rattle.rest_marks.specs.Marks.{AllKept};

use heap_layout::Edition;
use rest_marks::{Claims, MeetFault, Stop, SurveyFault, meet_known};
use std::alloc::{AllocError, Global};
use std::marker::Model;
use std::sync::Arc;

/// What one of several markers met and looked at itself, and of which objects it knows that they were met. Contracts
/// see a `Laned`. The lanes of a marking share claims, by which a lane that meets an object first makes it its own. No
/// proof rests on them: that lanes have no object twice, and each known object once, is asked when they are joined.
/// `AreLanedIn lane words` says that the objects at which the lane looked are, in these words, as they must be.
#[derive(Drop)]
pub struct Lane {
    pub(crate) edition: Edition,
    pub(crate) count: usize,
    pub(crate) known: Vec<u64>,
    pub(crate) heads: Vec<u64>,
    pub(crate) bits: Vec<u64>,
    pub(crate) queue: Vec<u32>,
    pub(crate) next: usize,
    pub(crate) claims: Arc<Claims>,
}

impl Model for Lane {
    ghost use Rattle.std.specs.Prelude.{◌≡◌, ◌*◌, ◌+◌, ◌/◌, ◌≤◌, length};
    ghost use Rattle.heap_layout.specs.Limits.{most_words};
    ghost use Rattle.rest_marks.specs.Lanes.{Laned, laned};
    ghost use Rattle.rest_marks.specs.Meeting.{AreMet, AreOnce};

    ghost Value = { Laned };

    ghost view = { λ lane. laned lane.edition lane.count lane.queue.items lane.next lane.heads.items lane.bits.items lane.known.items };

    ghost invariant = { λ lane. (lane.count ≤ most_words lane.edition) × (length lane.heads.items ≡ (lane.count + 63) / 64) × (length lane.bits.items ≡ (lane.count + 63) / 64)
        × (length lane.known.items ≡ (lane.count + 63) / 64)
        × AreMet lane.queue.items lane.heads.items × AreOnce lane.count lane.queue.items × (lane.next ≤ length lane.queue.items) };
}

// A lane that met nothing, with these claims.
fn empty(
    alloc: Global,
    edition: Edition,
    count: usize,
    claims: Arc<Claims>,
) -> Result<Lane, AllocError>
    requires { count ≤ most_words edition }
    ensures edition { IfOk result (λ lane. lane.own.edition ≡ edition) }
    ensures count { IfOk result (λ lane. lane.own.count ≡ count) }
    ensures none { IfOk result (λ lane. lane.own.looked ≡ 0) }
    ensures met { IfOk result (λ lane. lane.own.met ≡ []) }
    ensures known { IfOk result (λ lane. (i : ℕ) → bit lane.known i ≡ false) }
    ensures looked { IfOk result (λ lane. (words : List ℕ) → AreLanedIn lane words) }
{
    let blocks = count.div_ceil(64);
    let known = vec![in alloc; 0u64; blocks]?;
    let heads = vec![in alloc; 0u64; blocks]?;
    let bits = vec![in alloc; 0u64; blocks]?;
    let queue = Vec::new(alloc);
    Ok(Lane {
        edition,
        count,
        known,
        heads,
        bits,
        queue,
        next: 0,
        claims,
    })
}

impl Lane {
    /// The first lane of a marking of a heap of so many words. It met nothing, so any words will do. Err if the words
    /// are too many, or if memory runs out.
    pub fn begin(alloc: Global, edition: Edition, count: usize) -> Result<Lane, SurveyFault>
        ensures edition { IfOk result (λ lane. lane.own.edition ≡ edition) }
        ensures count { IfOk result (λ lane. lane.own.count ≡ count) }
        ensures none { IfOk result (λ lane. lane.own.looked ≡ 0) }
        ensures met { IfOk result (λ lane. lane.own.met ≡ []) }
        ensures known { IfOk result (λ lane. (i : ℕ) → bit lane.known i ≡ false) }
        ensures looked { IfOk result (λ lane. (words : List ℕ) → AreLanedIn lane words) }
        ensures fault { IfErr result (IsBeginFault edition count) }
    {
        if count > edition.max_words() {
            return Err(SurveyFault::TooLarge);
        }
        let Ok(claims) = Arc::new(alloc, Claims::new(alloc, count)?) else {
            return Err(SurveyFault::OutOfMemory);
        };
        Ok(empty(alloc, edition, count, claims)?)
    }

    /// A lane of the same marking for another marker. It met nothing, and shares the claims of this one. Err if memory
    /// runs out.
    pub fn share(&self, alloc: Global) -> Result<Lane, AllocError>
        ensures edition { IfOk result (λ lane. lane.own.edition ≡ self.now.own.edition) }
        ensures count { IfOk result (λ lane. lane.own.count ≡ self.now.own.count) }
        ensures none { IfOk result (λ lane. lane.own.looked ≡ 0) }
        ensures met { IfOk result (λ lane. lane.own.met ≡ []) }
        ensures known { IfOk result (λ lane. (i : ℕ) → bit lane.known i ≡ false) }
        ensures looked { IfOk result (λ lane. (words : List ℕ) → AreLanedIn lane words) }
    {
        let claims = Arc::try_clone(&self.claims)?;
        empty(alloc, self.edition, self.count, claims)
    }

    /// Copies the indices of the objects that wait into `indices`, from the one that is looked at next on, as many as
    /// there is room for, and answers how many. What is behind them in `indices` stays.
    pub fn waiting_in(&self, indices: &mut [u64]) -> usize
        ensures many { result ≡ min (length self.now.own.met - self.now.own.looked) (length indices.old) }
        ensures indices { indices.new ≡ take result (drop self.now.own.looked self.now.own.met) ++ drop result indices.old }
    {
        let many = (self.queue.len() - self.next).min(indices.len());
        for k in 0..many {
            indices[k] = u64::from(self.queue[self.next + k]);
        }
        many
    }

    /// Meets the objects to which these values lead, those that the lane did not know: roots as they are now, or the
    /// addresses of new objects. They are known then, and those that the lane claims wait. Err with the number of a
    /// value that leads to none of the words, or if memory runs out; the lane ends then.
    pub fn meet(self, values: &[u64]) -> Result<Lane, MeetFault>
        ensures edition { IfOk result (λ lane. lane.own.edition ≡ self.own.edition) }
        ensures count { IfOk result (λ lane. lane.own.count ≡ self.own.count) }
        ensures many { IfOk result (λ lane. lane.own.looked ≡ self.own.looked) }
        ensures bits { IfOk result (λ lane. lane.own.bits ≡ self.own.bits) }
        ensures stay { IfOk result (λ lane. (k : ℕ) → k < length self.own.met
            → slice_index lane.own.met k ≡ slice_index self.own.met k) }
        ensures known { IfOk result (λ lane. AllKept self.own.edition lane.known values.now) }
        ensures more { IfOk result (AreKnownMore self) }
        ensures told { IfOk result (λ lane.
            IsTold (IsLedTo self.own.count values.now) self.own.met self.known lane.own.met lane.known) }
        ensures looked { IfOk result (λ lane. (words : List ℕ) → AreLanedIn self words → AreLanedIn lane words) }
        ensures fault { IfErr result (IsLaneMeetFault self values.now) }
    {
        let Lane {
            edition,
            count,
            mut known,
            mut heads,
            bits,
            mut queue,
            next,
            claims,
        } = self;
        match meet_known(
            edition, count, &mut known, &mut heads, &mut queue, &claims, values,
        ) {
            Ok(()) => {}
            Err(Stop::Memory) => return Err(MeetFault::OutOfMemory),
            Err(Stop::Stray(k)) => return Err(MeetFault::BadValue(k as u64)),
        }
        Ok(Lane {
            edition,
            count,
            known,
            heads,
            bits,
            queue,
            next,
            claims,
        })
    }
}

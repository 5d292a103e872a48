//! Lanes of a marking that give objects which wait to another, take them over, and are joined at the end.
ghost use Rattle.std.specs.Prelude.{◌≡◌, ◌⊎◌, ℕ, ◌+◌, ◌-◌, ◌*◌, ◌^◌, ◌<◌, ◌≤◌, ◌++◌, true, false, List, length, slice_index, take, drop, min, IfErr, IfOk, OnErr, OnOk};
ghost use Rattle.heap_layout.specs.Bits.{bit};
ghost use Rattle.rest_marks.specs.LaneParts.{joined_met, met_at, with_one, AreBoth, AreDisjoint, IsMissingOf, IsOneOf, IsTakeFault};
ghost use Rattle.rest_marks.specs.Lanes.{AreKnownMore, AreLanedIn, IsJoinFault};
ghost use Rattle.rest_marks.specs.Looks.{AreLooked};
ghost use Rattle.rest_marks.specs.Meeting.{AreMet, AreOnce};
ghost use Rattle.rest_marks.specs.declared.fault.JoinFault.TheVariants as join;

use crate::lane::Lane;
use crate::looks::Looks;
use heap_layout::{is_set, set};
use rest_marks::{JoinFault, MeetFault, Missing, clear, first_common, first_missing, united};
use std::alloc::AllocError;

// Copies the last objects of the queue into `indices`, from number `first` of the queue on, of which there must not be
// more than there is room for.
fn copy_last(queue: &[u32], first: usize, indices: &mut [u64])
    requires inside { first ≤ length queue.now }
    requires room { length queue.now - first ≤ length indices.old }
    ensures { indices.new ≡ drop first queue.now ++ drop (length queue.now - first) indices.old }
{
    for k in 0..queue.len() - first {
        indices[k] = u64::from(queue[first + k]);
    }
}

// Clears the bits of the objects of the queue from number `keep` on.
fn clear_last(count: usize, heads: &mut [u64], queue: &[u32], keep: usize)
    requires room { count ≤ 64 * length heads.old }
    requires met { AreMet queue.now heads.old }
    requires once { AreOnce count queue.now }
    requires inside { keep ≤ length queue.now }
    ensures met { AreMet (take keep queue.now) heads.new }
    ensures heads { length heads.new ≡ length heads.old }
{
    for k in keep..queue.len() {
        clear(heads, queue[k] as usize);
    }
}

// The bits of the first `keep` objects of the queue, from those of all of them.
fn kept_bits(count: usize, mut heads: Vec<u64>, queue: &[u32], keep: usize) -> Vec<u64>
    requires room { count ≤ 64 * length heads.items }
    requires met { AreMet queue.now heads.items }
    requires once { AreOnce count queue.now }
    requires inside { keep ≤ length queue.now }
    ensures met { AreMet (take keep queue.now) result.items }
    ensures heads { length result.items ≡ length heads.items }
{
    clear_last(count, &mut heads, queue, keep);
    heads
}

// Puts the object at index `i` at the end of the queue, if it is not there.
#[inline(always)]
fn let_wait(
    count: usize,
    heads: &mut [u64],
    queue: &mut Vec<u32>,
    i: usize,
) -> Result<(), AllocError>
    requires few { count ≤ 2 ^ 31 }
    requires room { count ≤ 64 * length heads.old }
    requires met { AreMet queue.old.items heads.old }
    requires once { AreOnce count queue.old.items }
    requires inside { i < count }
    ensures queue { OnOk result (queue.new.items ≡ with_one queue.old.items i) }
    ensures here { OnOk result (bit heads.new i ≡ true) }
    ensures stay { OnOk result ((j : ℕ) → bit heads.old j ≡ true → bit heads.new j ≡ true) }
    ensures met { OnOk result (AreMet queue.new.items heads.new) }
    ensures once { OnOk result (AreOnce count queue.new.items) }
    ensures lack { OnErr result (bit heads.old i ≡ false) }
    ensures heads { length heads.new ≡ length heads.old }
{
    if is_set(heads, i) {
        return Ok(());
    }
    queue.push(i as u32)?;
    set(heads, i);
    Ok(())
}

// Puts the objects at these indices at the end of the queue, those that are not there, and makes them known.
fn take_all(
    count: usize,
    known: &mut [u64],
    heads: &mut [u64],
    queue: &mut Vec<u32>,
    indices: &[u64],
) -> Result<(), MeetFault>
    requires few { count ≤ 2 ^ 31 }
    requires room { count ≤ 64 * length heads.old }
    requires room_known { count ≤ 64 * length known.old }
    requires met { AreMet queue.old.items heads.old }
    requires once { AreOnce count queue.old.items }
    ensures queue { OnOk result (queue.new.items ≡ met_at queue.old.items indices.now) }
    ensures has { OnOk result ((k : ℕ) → k < length indices.now → bit heads.new (slice_index indices.now k) ≡ true) }
    ensures knows { OnOk result ((k : ℕ) → k < length indices.now → bit known.new (slice_index indices.now k) ≡ true) }
    ensures more { OnOk result ((i : ℕ) → bit known.old i ≡ true → bit known.new i ≡ true) }
    ensures told { OnOk result ((i : ℕ) → bit known.new i ≡ true → (bit known.old i ≡ true) ⊎ IsOneOf indices.now i) }
    ensures met { OnOk result (AreMet queue.new.items heads.new) }
    ensures once { OnOk result (AreOnce count queue.new.items) }
    ensures fault { IfErr result (IsTakeFault count heads.old indices.now) }
    ensures known { length known.new ≡ length known.old }
    ensures heads { length heads.new ≡ length heads.old }
{
    for k in 0..indices.len() {
        let index = indices[k];
        if index >= count as u64 {
            return Err(MeetFault::BadValue(k as u64));
        }
        let i = index as usize;
        let Ok(()) = let_wait(count, heads, queue, i) else {
            return Err(MeetFault::OutOfMemory);
        };
        set(known, i);
    }
    Ok(())
}

// Puts the objects of the other queue into the queue: first those that were looked at, of both, then those that wait.
fn join_queues(
    queue: &mut Vec<u32>,
    next: usize,
    other: &[u32],
    other_next: usize,
) -> Result<(), AllocError>
    requires inside { next ≤ length queue.old.items }
    requires other_inside { other_next ≤ length other.now }
    ensures { OnOk result (queue.new.items ≡ joined_met queue.old.items next other.now other_next) }
{
    let waiting = queue.len() - next;
    queue.rotate_left(next);
    queue.extend_from_slice(&other[..other_next])?;
    queue.rotate_left(waiting);
    queue.extend_from_slice(&other[other_next..])?;
    Ok(())
}

impl Lane {
    /// Lets go of the last of the objects that wait, as many as `indices` has room for, and writes their indices there,
    /// for another lane to take. They are no longer the lane's own, but it knows them. Answers how many; what is behind
    /// them in `indices` stays.
    pub fn give(self, indices: &mut [u64]) -> (Lane, usize)
        ensures many { result.1 ≡ min (length self.own.met - self.own.looked) (length indices.old) }
        ensures met { result.0.own.met ≡ take (length self.own.met - result.1) self.own.met }
        ensures indices { indices.new ≡ drop (length self.own.met - result.1) self.own.met ++ drop result.1 indices.old }
        ensures edition { result.0.own.edition ≡ self.own.edition }
        ensures count { result.0.own.count ≡ self.own.count }
        ensures looked_at { result.0.own.looked ≡ self.own.looked }
        ensures known { result.0.known ≡ self.known }
        ensures looked { (words : List ℕ) → AreLanedIn self words → AreLanedIn result.0 words }
    {
        let Lane {
            edition,
            count,
            known,
            heads,
            bits,
            mut queue,
            next,
            claims,
        } = self;
        let many = (queue.len() - next).min(indices.len());
        let keep = queue.len() - many;
        copy_last(&queue, keep, indices);
        let heads = kept_bits(count, heads, &queue, keep);
        queue.truncate(keep);
        let lane = Lane {
            edition,
            count,
            known,
            heads,
            bits,
            queue,
            next,
            claims,
        };
        (lane, many)
    }

    /// Takes over the objects at these indices, which another lane gave: those that the lane has not wait, and it knows
    /// all of them. Err with the number of an index that is past the words, or if memory runs out; the lane ends then.
    pub fn take(self, indices: &[u64]) -> Result<Lane, MeetFault>
        ensures edition { IfOk result (λ lane. lane.own.edition ≡ self.own.edition) }
        ensures count { IfOk result (λ lane. lane.own.count ≡ self.own.count) }
        ensures many { IfOk result (λ lane. lane.own.looked ≡ self.own.looked) }
        ensures met { IfOk result (λ lane. lane.own.met ≡ met_at self.own.met indices.now) }
        ensures has { IfOk result (λ lane. (k : ℕ) → k < length indices.now → bit lane.own.heads (slice_index indices.now k) ≡ true) }
        ensures knows { IfOk result (λ lane. (k : ℕ) → k < length indices.now → bit lane.known (slice_index indices.now k) ≡ true) }
        ensures stay { IfOk result (λ lane. (k : ℕ) → k < length self.own.met
            → slice_index lane.own.met k ≡ slice_index self.own.met k) }
        ensures more { IfOk result (AreKnownMore self) }
        ensures told { IfOk result (λ lane. (i : ℕ) → bit lane.known i ≡ true → (bit self.known i ≡ true) ⊎ IsOneOf indices.now i) }
        ensures looked { IfOk result (λ lane. (words : List ℕ) → AreLanedIn self words → AreLanedIn lane words) }
        ensures fault { IfErr result (IsTakeFault self.own.count self.own.heads indices.now) }
    {
        let Lane {
            edition,
            count,
            mut known,
            mut heads,
            bits,
            mut queue,
            next,
            claims,
        } = self;
        match take_all(count, &mut known, &mut heads, &mut queue, indices) {
            Ok(()) => Ok(Lane {
                edition,
                count,
                known,
                heads,
                bits,
                queue,
                next,
                claims,
            }),
            Err(fault) => Err(fault),
        }
    }

    /// Both lanes together, as one: first the objects at which one of them looked, then those that wait in either. Err
    /// with `OtherHeap` if they are not of heaps of one edition and of as many words; else with a word that both have,
    /// of an object that both met or of objects at which they looked; else if memory runs out. Both lanes end then.
    pub fn join(self, other: Lane) -> Result<Lane, JoinFault>
        ensures edition { IfOk result (λ lane. lane.own.edition ≡ self.own.edition) }
        ensures count { IfOk result (λ lane. lane.own.count ≡ self.own.count) }
        ensures other_edition { IfOk result (λ _. other.own.edition ≡ self.own.edition) }
        ensures other_count { IfOk result (λ _. other.own.count ≡ self.own.count) }
        ensures met { IfOk result (λ lane.
            lane.own.met ≡ joined_met self.own.met self.own.looked other.own.met other.own.looked) }
        ensures many { IfOk result (λ lane. lane.own.looked ≡ self.own.looked + other.own.looked) }
        ensures known { IfOk result (λ lane. AreBoth self.known other.known lane.known) }
        ensures heads { IfOk result (λ lane. AreBoth self.own.heads other.own.heads lane.own.heads) }
        ensures bits { IfOk result (λ lane. AreBoth self.own.bits other.own.bits lane.own.bits) }
        ensures apart { IfOk result (λ _. AreDisjoint self.own.heads other.own.heads) }
        ensures apart_words { IfOk result (λ _. AreDisjoint self.own.bits other.own.bits) }
        ensures looked { IfOk result (λ lane. (words : List ℕ) → AreLanedIn self words → AreLanedIn other words → AreLanedIn lane words) }
        ensures fault { IfErr result (IsJoinFault self other) }
        ensures memory { IfErr result (λ fault. fault ≡ join.OutOfMemory
            → AreDisjoint self.own.heads other.own.heads × AreDisjoint self.own.bits other.own.bits) }
    {
        let Lane {
            edition,
            count,
            known,
            heads,
            bits,
            mut queue,
            next,
            claims,
        } = self;
        let Lane {
            edition: other_edition,
            count: other_count,
            known: other_known,
            heads: other_heads,
            bits: other_bits,
            queue: other_queue,
            next: other_next,
            claims: _,
        } = other;
        if edition != other_edition || count != other_count {
            return Err(JoinFault::OtherHeap);
        }
        if let Some(i) = first_common(&heads, &other_heads) {
            return Err(JoinFault::Overlap(i as u64));
        }
        if let Some(i) = first_common(&bits, &other_bits) {
            return Err(JoinFault::Overlap(i as u64));
        }
        let Ok(()) = join_queues(&mut queue, next, &other_queue, other_next) else {
            return Err(JoinFault::OutOfMemory);
        };
        Ok(Lane {
            edition,
            count,
            known: united(known, other_known),
            heads: united(heads, other_heads),
            bits: united(bits, other_bits),
            queue,
            next: next + other_next,
            claims,
        })
    }

    /// The whole marking, once all its lanes are joined into this one: then each object that a lane knows is one that a
    /// lane met itself. Err with a known object that the lane has not, since it is that of a lane that was not joined,
    /// or of none. Then the marking ends.
    pub fn whole(self) -> Result<Looks, Missing>
        ensures same { IfOk result (λ looks. looks ≡ self.own) }
        ensures all { IfOk result (λ _. (i : ℕ) → bit self.known i ≡ true → bit self.own.heads i ≡ true) }
        ensures looked { IfOk result (λ looks. (words : List ℕ) → AreLanedIn self words → AreLooked looks words) }
        ensures fault { IfErr result (IsMissingOf self) }
    {
        let Lane {
            edition,
            count,
            known,
            heads,
            bits,
            queue,
            next,
            claims: _,
        } = self;
        if let Some(i) = first_missing(&known, &heads) {
            return Err(Missing(i as u64));
        }
        Ok(Looks {
            edition,
            count,
            heads,
            bits,
            queue,
            next,
        })
    }
}

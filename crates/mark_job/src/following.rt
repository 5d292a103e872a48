//! Marks the words of objects that wait, and looks up to which objects their references lead.
ghost use Rattle.std.specs.Prelude.{Some, ◌≡◌, ℕ, ◌+◌, ◌*◌, ◌/◌, ◌^◌, ◌<◌, ◌≤◌, ◌==◌, true, false, length, slice_index, IfSome, OnOk};
ghost use Rattle.std.specs.Int.{bit_at};
ghost use Rattle.heap_layout.specs.Bits.{bit};
ghost use Rattle.heap_layout.specs.Header.{refs_of, size_of};
ghost use Rattle.heap_layout.specs.Heap.{from_address, header_at};
ghost use Rattle.mark_job.specs.Heads.{AreAmong};
ghost use Rattle.mark_job.specs.Marking.{AreMarked};

use crate::heads::{Heads, Met};
use crate::lane::Lane;
use crate::waiting::Lost;
use heap_layout::{Edition, FROM_SPACE};
use std::sync::atomic::{AtomicU64, Ordering};
use stopped_heap::{Ahead, Shape, WIDE};

/// The heap that is marked: its edition, its number of words, the bits of the objects that were met, and the blocks of
/// the bits of the words of those at which a helper looked.
#[derive(Drop)]
pub(crate) struct Marks {
    pub(crate) edition: Edition,
    pub(crate) count: usize,
    pub(crate) heads: Heads,
    pub(crate) live: Vec<AtomicU64>,
    ghost few: { count ≤ 2 ^ 31 },
    ghost room: { count < 64 * heads.table.shared.table_id.words },
    ghost live_long: { length live.items ≡ (count + 63) / 64 },
}

/// The index of the word whose address this is, if it is that of one of so many words.
#[inline(always)]
pub(crate) fn index_of(count: usize, word: u64) -> Option<usize>
    requires { count ≤ 2 ^ 31 }
    ensures inside { IfSome result (λ i. i < count) }
    ensures address { IfSome result (λ i. word ≡ from_address i) }
    ensures only { (i : ℕ) → i < count → word ≡ from_address i → result ≡ Some i }
{
    let i = word.wrapping_sub(FROM_SPACE);
    if i >= count as u64 {
        return None;
    }
    Some(i as usize)
}

// A block with the bits from `from` up to `to` set, and no others.
#[inline(always)]
fn mask(from: usize, to: usize) -> u64
    requires some { from < to }
    requires within { to ≤ 64 }
    ensures below { (k : ℕ) → k < from → bit_at result k ≡ 0 }
    ensures inside { (k : ℕ) → from ≤ k → k < to → bit_at result k ≡ 1 }
    ensures above { (k : ℕ) → to ≤ k → bit_at result k ≡ 0 }
{
    (u64::MAX << from) & (u64::MAX >> (64 - to))
}

// Whether none of the bits that are wanted was found set.
#[inline(always)]
fn is_free(found: u64, wanted: u64) -> bool
    ensures { result ≡ true → (k : ℕ) → k < 64 → bit_at wanted k ≡ 1 → bit_at found k ≡ 0 }
{
    found & wanted == 0
}

/// Sets `size` bits from `start` on, block by block. The answer is false if one of them was set before.
#[inline(always)]
fn take_run(live: &[AtomicU64], start: usize, size: usize) -> bool
    requires few { start + size ≤ 2 ^ 31 }
    requires known { start + size ≤ 64 * length live.now }
{
    let end = start + size;
    let mut next = start;
    while next < end {
        let stop = end.min(next - next % 64 + 64);
        let from = next % 64;
        let wanted = mask(from, from + (stop - next));
        if !is_free(live[next / 64].fetch_or(wanted, Ordering::SeqCst), wanted) {
            return false;
        }
        next = stop;
    }
    true
}

impl Marks {
    /// Puts the object to which a word leads at the end of the list, if its bit is not set.
    #[inline(always)]
    pub(crate) fn meet(&self, met: &mut Met, objects: &mut Vec<u32>, word: u64) -> Result<(), Lost>
        requires table { met.old.table ≡ self.now.heads.table.shared.table_id }
        ensures table { met.new.table ≡ met.old.table }
        ensures stay { AreAmong met.old.bits met.new.bits }
        ensures met { (i : ℕ) → i < self.now.count → word ≡ from_address i → bit met.new.bits i ≡ true }
        ensures places { OnOk result ((k : ℕ) → k < length objects.old.items
            → (k < length objects.new.items) × (slice_index objects.new.items k ≡ slice_index objects.old.items k)) }
    {
        let Some(i) = index_of(self.count, word) else {
            return Ok(());
        };
        if self.heads.mark(met, i) && objects.push(i as u32).is_err() {
            return Err(Lost::Memory);
        }
        Ok(())
    }

    /// Puts the objects to which these words lead at the end of the list, of which the bits are not set.
    #[inline(always)]
    pub(crate) fn meet_each(
        &self,
        met: &mut Met,
        objects: &mut Vec<u32>,
        from: &[u64],
    ) -> Result<(), Lost>
        requires table { met.old.table ≡ self.now.heads.table.shared.table_id }
        ensures table { met.new.table ≡ met.old.table }
        ensures stay { AreAmong met.old.bits met.new.bits }
        ensures marked { OnOk result (AreMarked self.now.count from.now met.new.bits) }
        ensures places { OnOk result ((k : ℕ) → k < length objects.old.items
            → (k < length objects.new.items) × (slice_index objects.new.items k ≡ slice_index objects.old.items k)) }
    {
        for k in 0..from.len() {
            self.meet(met, objects, from[k])?;
        }
        Ok(())
    }

    // Marks the words of the object at index `i`, which has this shape, and follows its references.
    #[inline(always)]
    fn follow(
        &self,
        words: &[u64],
        met: &mut Met,
        objects: &mut Vec<u32>,
        i: usize,
        shape: Shape,
    ) -> Result<(), Lost>
        requires count { length words.now ≡ self.now.count }
        requires inside { i < length words.now }
        requires refs { shape.refs ≡ refs_of (header_at self.now.edition words.now i) }
        requires size { shape.size ≡ size_of (header_at self.now.edition words.now i) }
        requires table { met.old.table ≡ self.now.heads.table.shared.table_id }
        ensures table { met.new.table ≡ met.old.table }
        ensures places { OnOk result ((k : ℕ) → k < length objects.old.items
            → (k < length objects.new.items) × (slice_index objects.new.items k ≡ slice_index objects.old.items k)) }
    {
        if shape.size > self.edition.max_object_words() || shape.size > words.len() - i {
            return Err(Lost::Object(i));
        }
        if !take_run(&self.live, i, shape.size) {
            return Err(Lost::Object(i));
        }
        self.meet_each(met, objects, &words[i + 1..i + 1 + shape.refs])
    }

    /// Does so with up to so many objects of a lane.
    pub(crate) fn look(
        &self,
        words: &[u64],
        met: &mut Met,
        lane: &mut Lane,
        most: usize,
    ) -> Result<(), Lost>
        requires count { length words.now ≡ self.now.count }
        requires table { met.old.table ≡ self.now.heads.table.shared.table_id }
    {
        let mut ahead = Ahead::none(0);
        let mut headers = [0u64; WIDE];
        for _ in 0..most {
            let next = lane.next;
            if next >= lane.objects.len() {
                return Ok(());
            }
            let i = lane.objects[next] as usize;
            lane.next += 1;
            if i >= words.len() {
                return Err(Lost::Object(i));
            }
            let edition = self.edition;
            let shape = ahead.shape(edition, words, &lane.objects, &mut headers, next, i);
            self.follow(words, met, &mut lane.objects, i, shape)?;
        }
        Ok(())
    }
}

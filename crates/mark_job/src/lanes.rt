//! The lanes, which threads share.
ghost use Rattle.std.specs.Prelude.{◌≡◌, ℕ, ◌*◌, ◌<◌, ◌≤◌, All, length, true, IfOk, IfSome};
ghost use Rattle.heap_layout.specs.Bits.{bit};
ghost use Rattle.mark_job.specs.Asked.{IsMetIn, AreMetIn};
ghost use Rattle.mark_job.specs.Lanes.{Holds, IsOut};
ghost use Rattle.std.specs.Mem.Slots.{slots_items, slots_len, IsFull};
ghost use Rattle.atomic_table.specs.Table.{Final};

use crate::image::Image;
use crate::lane::Lane;
use crate::rule::{LaneRule, PutLane, TakeLane};
use crate::view::View;
use atomic_table::{Closed, Seat, Table};
use std::alloc::{AllocError, Global};

/// How many lanes there are.
pub(crate) const LANES: usize = 64;

/// All lanes.
#[derive(Drop)]
pub struct Lanes {
    pub(crate) table: Table<Lane, View, Image, LaneRule, Global>,
    ghost words: { table.shared.table_id.words ≡ 64 },
    ghost slots: { table.shared.table_id.slots ≡ 64 },
}

/// A lane that was taken, with its number and the right to put it back.
#[derive(Drop)]
pub(crate) struct Taken {
    pub(crate) seat: Seat<Lane, View>,
    pub(crate) k: usize,
    pub(crate) lane: Lane,
    ghost inside: { k < 64 },
}

// The rows of objects of all lanes: this one, and others that are empty.
fn rows(alloc: Global, image: &Image, first: Lane) -> Result<Vec<Lane>, AllocError>
    requires { AreMetIn image.now first }
    ensures count { IfOk result (λ rows. length rows.items ≡ 64) }
    ensures met { IfOk result (λ rows. All (AreMetIn image.now) rows.items) }
{
    // Only the clauses read it.
    let _ = image;
    let mut rows = Vec::with_capacity(alloc, LANES)?;
    rows.push(first)?;
    for _ in 1..LANES {
        rows.push(Lane::new(alloc))?;
    }
    Ok(rows)
}

impl Lanes {
    /// The lanes of this heap, of which the first one is given and the others are empty.
    pub(crate) fn new(alloc: Global, image: &Image, first: Lane) -> Result<Lanes, AllocError>
        requires { AreMetIn image.now first }
        ensures { IfOk result (λ lanes. lanes.table.shared.key ≡ image.now) }
    {
        let rows = rows(alloc, image, first)?;
        let words = vec![in alloc; 0u64; LANES]?;
        match Table::new(alloc, &words, rows, image) {
            Ok((table, _seat)) => Ok(Lanes { table }),
            Err(_refused) => Err(AllocError),
        }
    }

    /// Whether lane `k` was at home a moment ago.
    pub(crate) fn was_home(&self, k: usize) -> bool
        requires { k < 64 }
    {
        self.table.shared.peek(k) == 0
    }

    // Takes lane `k`, by what the table was made for.
    fn take_out(&self, alloc: Global, k: usize) -> Option<Taken>
        requires { k < 64 }
        ensures met { IfSome result (λ taken. AreMetIn self.now.table.shared.key taken.lane) }
        ensures out { IfSome result (λ taken. IsOut self.now.table.shared.table_id taken.seat.table_id taken.seat.me taken.k) }
    {
        let (found, mut seat) = self.table.shared.swap_new_seat::<TakeLane>(k, 1);
        if found != 0 {
            return None;
        }
        let lane = self.table.shared.exchange(&mut seat, k, Lane::new(alloc));
        Some(Taken { seat, k, lane })
    }

    /// Takes lane `k`. None if another helper has it. This is one atomic step, and is not tried again.
    pub(crate) fn take(&self, alloc: Global, image: &Image, k: usize) -> Option<Taken>
        requires key { self.now.table.shared.key ≡ image.now }
        requires inside { k < 64 }
        ensures met { IfSome result (λ taken. AreMetIn image.now taken.lane) }
        ensures out { IfSome result (λ taken. IsOut self.now.table.shared.table_id taken.seat.table_id taken.seat.me taken.k) }
    {
        // Only the clauses read it.
        let _ = image;
        self.take_out(alloc, k)
    }

    /// Puts a lane back.
    pub(crate) fn put(&self, image: &Image, taken: Taken)
        requires key { self.now.table.shared.key ≡ image.now }
        requires met { AreMetIn image.now taken.lane }
        requires out { IsOut self.now.table.shared.table_id taken.seat.table_id taken.seat.me taken.k }
    {
        // Only the clauses read it.
        let _ = image;
        let Taken { mut seat, k, lane } = taken;
        let _empty = self.table.shared.exchange(&mut seat, k, lane);
        self.table.shared.store::<PutLane>(&mut seat, k, 0);
    }

    /// Sets the bits of the objects in the lanes that are at home. Those of a helper that never put its lane back are
    /// left out.
    pub(crate) fn mark(self, image: &Image, heads: &mut [u64])
        requires key { self.table.shared.key ≡ image.now }
        requires room { length image.now.words ≤ 64 * length heads.old }
        requires met { (i : ℕ) → bit heads.old i ≡ true → IsMetIn image.now i }
        ensures met { (i : ℕ) → bit heads.new i ≡ true → IsMetIn image.now i }
        ensures length { length heads.new ≡ length heads.old }
    {
        let closed = self.table.close();
        mark_closed(closed, image, heads);
    }
}

// The same of a table that no helper shares any more, and frees it.
fn mark_closed(mut closed: Closed<Lane, Global>, image: &Image, heads: &mut [u64])
    requires slots { IsFull closed.slots }
    requires words { IsFull closed.words }
    requires same { slots_len closed.words ≡ slots_len closed.slots }
    requires ends { Final (Holds image.now) (slots_items closed.words) (slots_items closed.slots) }
    requires room { length image.now.words ≤ 64 * length heads.old }
    requires met { (i : ℕ) → bit heads.old i ≡ true → IsMetIn image.now i }
    ensures met { (i : ℕ) → bit heads.new i ≡ true → IsMetIn image.now i }
    ensures length { length heads.new ≡ length heads.old }
{
    for k in 0..closed.slot_count() {
        let found = closed.word(k);
        let lane = closed.take(k);
        lane.mark_if(found, image, heads);
    }
    closed.free();
}

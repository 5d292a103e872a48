//! The lanes of a marking over words that others may change.
ghost use Rattle.std.specs.Prelude.{◌≡◌, ◌<◌, length, IfOk, IfSome};
ghost use Rattle.mark_job.specs.FreeLanes.{HoldsAny, knows_none, takes_any};
ghost use Rattle.mark_job.specs.Lanes.{puts, IsOut};

use crate::lane::Lane;
use crate::lanes::LANES;
use crate::rule::{PutLane, TakeLane};
use atomic_table::{Play, Seat, Table, TableRule};
use std::alloc::{AllocError, Global};

/// The rule: a lane whose word is 0 is at home. Nothing is said of the objects in it.
pub struct FreeRule;

impl TableRule<Lane, (), ()> for FreeRule {
    ghost holds = { HoldsAny };

    ghost first = { knows_none };
}

impl Play<Lane, ()> for TakeLane {
    ghost then = { takes_any };
}

impl Play<Lane, ()> for PutLane {
    ghost then = { puts };
}

/// All lanes.
#[derive(Drop)]
pub struct FreeLanes {
    pub(crate) table: Table<Lane, (), (), FreeRule, Global>,
    ghost words: { table.shared.table_id.words ≡ 64 },
    ghost slots: { table.shared.table_id.slots ≡ 64 },
}

/// A lane that was taken, with its number and the right to put it back.
#[derive(Drop)]
pub(crate) struct FreeTaken {
    pub(crate) seat: Seat<Lane, ()>,
    pub(crate) k: usize,
    pub(crate) lane: Lane,
    ghost inside: { k < 64 },
}

// This lane, and others that are empty.
fn rows(alloc: Global, first: Lane) -> Result<Vec<Lane>, AllocError>
    ensures { IfOk result (λ rows. length rows.items ≡ 64) }
{
    let mut rows = Vec::with_capacity(alloc, LANES)?;
    rows.push(first)?;
    for _ in 1..LANES {
        rows.push(Lane::new(alloc))?;
    }
    Ok(rows)
}

impl FreeLanes {
    /// Lanes of which the first one is given and the others are empty.
    pub(crate) fn new(alloc: Global, first: Lane) -> Result<FreeLanes, AllocError> {
        let rows = rows(alloc, first)?;
        let words = vec![in alloc; 0u64; LANES]?;
        match Table::new(alloc, &words, rows, &()) {
            Ok((table, _seat)) => Ok(FreeLanes { table }),
            Err(_refused) => Err(AllocError),
        }
    }

    /// Whether lane `k` was at home a moment ago.
    pub(crate) fn was_home(&self, k: usize) -> bool
        requires { k < 64 }
    {
        self.table.shared.peek(k) == 0
    }

    /// Takes lane `k`. None if another thread has it. This is one atomic step, and is not tried again.
    pub(crate) fn take(&self, alloc: Global, k: usize) -> Option<FreeTaken>
        requires { k < 64 }
        ensures { IfSome result (λ taken. IsOut self.now.table.shared.table_id taken.seat.table_id taken.seat.me taken.k) }
    {
        let (found, mut seat) = self.table.shared.swap_new_seat::<TakeLane>(k, 1);
        if found != 0 {
            return None;
        }
        let lane = self.table.shared.exchange(&mut seat, k, Lane::new(alloc));
        Some(FreeTaken { seat, k, lane })
    }

    /// Puts a lane back.
    pub(crate) fn put(&self, taken: FreeTaken)
        requires { IsOut self.now.table.shared.table_id taken.seat.table_id taken.seat.me taken.k }
    {
        let FreeTaken { mut seat, k, lane } = taken;
        let _empty = self.table.shared.exchange(&mut seat, k, lane);
        self.table.shared.store::<PutLane>(&mut seat, k, 0);
    }
}

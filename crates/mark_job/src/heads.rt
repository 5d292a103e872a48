//! The bits of the objects that were met, which threads share.
ghost use Rattle.std.specs.Prelude.{◌≡◌, ℕ, ◌*◌, ◌/◌, ◌<◌, ◌≤◌, ◌==◌, true, length, slice_index, IfOk};
ghost use Rattle.std.specs.Int.{bit_at};
ghost use Rattle.heap_layout.specs.Bits.{bit};
ghost use Rattle.mark_job.specs.Heads.{Grows, knows_first, sees, AreAmong};
ghost use Rattle.atomic_table.specs.Table.{Final, Seen};
ghost use Rattle.std.specs.Mem.Slots.{slots_items, slots_len, IsFull};

use crate::met_view::MetView;
use atomic_table::{Closed, Play, Seat, Table, TableRule};
use std::alloc::{AllocError, Global};
use std::marker::Model;

/// The blocks of bits with which a table of bits begins.
#[derive(Drop)]
pub struct Blocks {
    pub(crate) blocks: Vec<u64>,
}

impl Model for Blocks {
    ghost use Rattle.std.specs.Prelude.{ℕ, List};

    ghost Value = { List ℕ };

    ghost view = { λ blocks. blocks.blocks.items };
}

/// The rule: the bits only grow.
pub struct HeadRule;

impl TableRule<(), MetView, Blocks> for HeadRule {
    ghost holds = { Grows };

    ghost first = { knows_first };
}

/// Looks at a block, by a load, or sets bits of it, by an or.
pub struct SeeHeads;

impl Play<(), MetView> for SeeHeads {
    ghost then = { sees };
}

/// What is known of the objects that were met: a receipt of `Marking::meet`. It has no bytes. Contracts see the table
/// of the bits, by its name, and the bits that are known to be set.
#[derive(Drop)]
pub struct Met {
    pub(crate) seat: Seat<(), MetView>,
}

impl Model for Met {
    ghost use Rattle.mark_job.specs.Met.{KnownMet};

    ghost Value = { KnownMet };

    ghost view = { λ met. record { table = met.seat.table_id; bits = met.seat.me.0.bits } };
}

/// A bit for each word, set if an object there was met.
#[derive(Drop)]
pub struct Heads {
    pub(crate) table: Table<(), MetView, Blocks, HeadRule, Global>,
    ghost long: { length table.shared.key ≡ table.shared.table_id.words },
    ghost bare: { table.shared.table_id.slots ≡ 0 },
}

// Whether bit `p` of a block is set.
#[inline(always)]
fn has(block: u64, p: usize) -> bool
    requires { p < 64 }
    ensures { result ≡ (bit_at block p == 1) }
{
    (block >> p) & 1 == 1
}

// A block with bit `p` set alone.
#[inline(always)]
fn block_of(p: usize) -> u64
    requires { p < 64 }
    ensures { bit_at result p ≡ 1 }
{
    1 << p
}

impl Heads {
    /// A table whose bits are these.
    pub(crate) fn new(alloc: Global, first: &Blocks) -> Result<Heads, AllocError>
        ensures { IfOk result (λ heads. heads.table.shared.key ≡ first.now) }
    {
        let (table, _seat) = Table::of_words(alloc, &first.blocks, first)?;
        Ok(Heads { table })
    }

    /// Who knows nothing but what was met at the beginning.
    pub(crate) fn enter(&self) -> Met
        requires { 0 < self.now.table.shared.table_id.words }
        ensures table { result.table ≡ self.now.table.shared.table_id }
        ensures begun { AreAmong self.now.table.shared.key result.bits }
    {
        let (_, seat) = self.table.shared.load_new_seat::<SeeHeads>(0);
        Met { seat }
    }

    // Whether the bit of word `i` was set a moment ago.
    #[inline(always)]
    fn sees(&self, met: &mut Met, i: usize) -> bool
        requires inside { i < 64 * self.now.table.shared.table_id.words }
        requires table { met.old.table ≡ self.now.table.shared.table_id }
        ensures table { met.new.table ≡ met.old.table }
        ensures stay { AreAmong met.old.bits met.new.bits }
        ensures here { result ≡ true → bit met.new.bits i ≡ true }
    {
        let found = self.table.shared.load::<SeeHeads>(&mut met.seat, i / 64);
        has(found, i % 64)
    }

    // Sets the bit of word `i`. Whether it was not set before.
    #[inline(always)]
    fn sets(&self, met: &mut Met, i: usize) -> bool
        requires inside { i < 64 * self.now.table.shared.table_id.words }
        requires table { met.old.table ≡ self.now.table.shared.table_id }
        ensures table { met.new.table ≡ met.old.table }
        ensures stay { AreAmong met.old.bits met.new.bits }
        ensures here { bit met.new.bits i ≡ true }
    {
        let bit = block_of(i % 64);
        let found = self
            .table
            .shared
            .fetch_or::<SeeHeads>(&mut met.seat, i / 64, bit);
        !has(found, i % 64)
    }

    /// Whether the bit of word `i` was not set. It is set afterwards.
    #[inline(always)]
    pub(crate) fn mark(&self, met: &mut Met, i: usize) -> bool
        requires inside { i < 64 * self.now.table.shared.table_id.words }
        requires table { met.old.table ≡ self.now.table.shared.table_id }
        ensures table { met.new.table ≡ met.old.table }
        ensures stay { AreAmong met.old.bits met.new.bits }
        ensures here { bit met.new.bits i ≡ true }
    {
        !self.sees(met, i) && self.sets(met, i)
    }

    /// The first blocks, so many, when no thread shares them any more.
    pub(crate) fn close(self, alloc: Global, met: Met, count: usize) -> Result<Vec<u64>, AllocError>
        requires count { count ≤ self.table.shared.table_id.words }
        requires table { met.table ≡ self.table.shared.table_id }
        ensures length { IfOk result (λ heads. length heads.items ≡ count) }
        ensures begun { IfOk result (λ heads. (i : ℕ) → i < 64 * count → bit self.table.shared.key i ≡ true → bit heads.items i ≡ true) }
        ensures met { IfOk result (λ heads. (i : ℕ) → i < 64 * count → bit met.bits i ≡ true → bit heads.items i ≡ true) }
    {
        let Met { seat } = met;
        let closed = self.table.close_with(seat);
        let heads = first_blocks(alloc, &closed, count);
        closed.free();
        heads
    }
}

// The first blocks of a table, so many.
fn first_blocks(
    alloc: Global,
    closed: &Closed<(), Global>,
    count: usize,
) -> Result<Vec<u64>, AllocError>
    requires count { count ≤ slots_len closed.now.words }
    requires full { IsFull closed.now.words }
    ensures length { IfOk result (λ heads. length heads.items ≡ count) }
    ensures same { IfOk result (λ heads. (k : ℕ) → k < count → slice_index heads.items k ≡ slice_index (slots_items closed.now.words) k) }
{
    let mut heads = Vec::with_capacity(alloc, count)?;
    for k in 0..count {
        heads.push(closed.word(k))?;
    }
    Ok(heads)
}

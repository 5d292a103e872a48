//! Looks at objects one after the other, whose rows were handed in one behind the other.
ghost use Rattle.std.specs.Prelude.{◌≡◌, ◌⊎◌, ℕ, ◌+◌, ◌*◌, ◌^◌, ◌<◌, ◌≤◌, true, List, length, slice_index, take, drop, IfErr, IfOk, OnOk};
ghost use Rattle.heap_layout.specs.Bits.{bit};
ghost use Rattle.rest_marks.specs.LookFaults.{IsRowsFault};
ghost use Rattle.rest_marks.specs.Looks.{met_by_rows, row_size, rows_of, AreLookedAt, AreRowsAt};
ghost use Rattle.rest_marks.specs.Meeting.{AreMet, AreOnce};

use crate::fault::LookFault;
use crate::looking_at::look_at;
use crate::shape::shape_of;
use heap_layout::Edition;

/// The row that begins at this word: as many words as its header says, or those that are left.
#[inline(always)]
pub fn row_at(edition: Edition, rows: &[u64], at: usize) -> &[u64]
    requires { at < length rows.now }
    ensures { result.now ≡ take (row_size edition (slice_index rows.now at)) (drop at rows.now) }
{
    let shape = shape_of(edition, rows[at]);
    let fields = shape.refs + shape.weak;
    let left = rows.len() - at;
    let size = if fields < left { 1 + fields } else { left };
    &rows[at..at + size]
}

/// Looks at the objects of the queue from number `first` on, one for each row, and answers the number of the one behind
/// them.
pub fn look_each(
    edition: Edition,
    count: usize,
    heads: &mut [u64],
    bits: &mut [u64],
    queue: &mut Vec<u32>,
    first: usize,
    rows: &[u64],
) -> Result<usize, LookFault>
    requires few { count ≤ 2 ^ 31 }
    requires few_bits { length bits.old ≤ 2 ^ 25 }
    requires room { count ≤ 64 * length heads.old }
    requires long { length heads.old ≡ length bits.old }
    requires met { AreMet queue.old.items heads.old }
    requires once { AreOnce count queue.old.items }
    requires inside { first ≤ length queue.old.items }
    ensures many { IfOk result (λ end. end ≡ first + length (rows_of edition rows.now)) }
    ensures inside { IfOk result (λ end. end ≤ length queue.new.items) }
    ensures queue { OnOk result (
        queue.new.items ≡ met_by_rows edition count queue.old.items (rows_of edition rows.now)) }
    ensures stay { OnOk result ((k : ℕ) → k < length queue.old.items
        → slice_index queue.new.items k ≡ slice_index queue.old.items k) }
    ensures looked { IfOk result (λ end. (words : List ℕ) → length words ≡ count
        → AreRowsAt words queue.new.items first (rows_of edition rows.now)
        → AreLookedAt edition words queue.old.items first heads.old bits.old
        → AreLookedAt edition words queue.new.items end heads.new bits.new) }
    ensures met { OnOk result (AreMet queue.new.items heads.new) }
    ensures once { OnOk result (AreOnce count queue.new.items) }
    ensures fault { IfErr result (IsRowsFault
        (record { edition = edition; count = count; met = queue.old.items; looked = first; heads = heads.old; bits = bits.old })
        (rows_of edition rows.now)) }
    ensures heads { length heads.new ≡ length heads.old }
    ensures bits { length bits.new ≡ length bits.old }
{
    let mut next = first;
    let mut at = 0;
    while at < rows.len() {
        if next >= queue.len() {
            return Err(LookFault::NoSuchObject);
        }
        let i = queue[next] as usize;
        let row = row_at(edition, rows, at);
        look_at(edition, count, heads, bits, queue, i, row)?;
        next += 1;
        at += row.len();
    }
    Ok(next)
}

//! Looks for one of several markers at an object whose words were handed in.
ghost use Rattle.std.specs.Prelude.{◌≡◌, ◌⊎◌, ℕ, ◌+◌, ◌*◌, ◌^◌, ◌<◌, ◌≤◌, true, List, length, slice_index, IfErr, OnOk};
ghost use Rattle.heap_layout.specs.Bits.{bit};
ghost use Rattle.heap_layout.specs.Header.{refs_of, weak_of, size_of};
ghost use Rattle.heap_layout.specs.Heap.{header_at, object_at};
ghost use Rattle.rest_marks.specs.Lanes.{IsLaneFieldsFault, IsLedTo, IsTold};
ghost use Rattle.rest_marks.specs.LookFaults.{IsPlacingFault};
ghost use Rattle.rest_marks.specs.Looks.{IsAt, AreLookedAt};
ghost use Rattle.rest_marks.specs.Marks.{AllKept};
ghost use Rattle.rest_marks.specs.Meeting.{AllLead, AreMet, AreOnce};

use crate::claims::Claims;
use crate::fault::LookFault;
use crate::lane_meeting::meet_known;
use crate::looking_at::{part, place};
use crate::queue::{Stop, check_leads};
use crate::shape::shape_of;
use heap_layout::Edition;

// Meets the objects to which the references of the object at index `i` lead.
fn meet_fields(
    edition: Edition,
    count: usize,
    known: &mut [u64],
    heads: &mut [u64],
    queue: &mut Vec<u32>,
    claims: &Claims,
    i: usize,
    run: &[u64],
) -> Result<(), LookFault>
    requires few { count ≤ 2 ^ 31 }
    requires room_known { count ≤ 64 * length known.old }
    requires room { count ≤ 64 * length heads.old }
    requires met { AreMet queue.old.items heads.old }
    requires once { AreOnce count queue.old.items }
    requires inside { i < count }
    requires some { 0 < length run.now }
    ensures long { OnOk result (1 + refs_of (header_at edition run.now 0) + weak_of (header_at edition run.now 0) ≤ length run.now) }
    ensures kept { OnOk result (AllKept edition known.new (object_at edition run.now 0).references) }
    ensures told { OnOk result (IsTold (IsLedTo count (object_at edition run.now 0).references) queue.old.items known.old queue.new.items known.new) }
    ensures references { OnOk result (AllLead edition count (object_at edition run.now 0).references) }
    ensures weak { OnOk result (AllLead edition count (object_at edition run.now 0).weak) }
    ensures met { OnOk result (AreMet queue.new.items heads.new) }
    ensures once { OnOk result (AreOnce count queue.new.items) }
    ensures fault { IfErr result (IsLaneFieldsFault edition count known.old i run.now) }
    ensures known { length known.new ≡ length known.old }
    ensures heads { length heads.new ≡ length heads.old }
{
    let shape = shape_of(edition, run[0]);
    let fields = shape.refs + shape.weak;
    if run.len() <= fields {
        return Err(LookFault::ShortRun(1 + fields as u64));
    }
    let references = part(run, 1, shape.refs);
    match meet_known(edition, count, known, heads, queue, claims, references) {
        Ok(()) => {}
        Err(Stop::Memory) => return Err(LookFault::OutOfMemory),
        Err(Stop::Stray(k)) => return Err(LookFault::BadReference((i + 1 + k) as u64)),
    }
    let weak = part(run, 1 + shape.refs, shape.weak);
    if let Err(k) = check_leads(edition, count, weak) {
        return Err(LookFault::BadWeak((i + 1 + shape.refs + k) as u64));
    }
    Ok(())
}

/// Looks at the object at index `i`, whose words are these, as far as they were handed in: sets the bits of its words,
/// and meets the objects to which its references lead, those that were not known.
pub fn look_known(
    edition: Edition,
    count: usize,
    known: &mut [u64],
    heads: &mut [u64],
    bits: &mut [u64],
    queue: &mut Vec<u32>,
    claims: &Claims,
    i: usize,
    run: &[u64],
) -> Result<(), LookFault>
    requires few { count ≤ 2 ^ 31 }
    requires few_bits { length bits.old ≤ 2 ^ 25 }
    requires room_bits { count ≤ 64 * length bits.old }
    requires room_known { count ≤ 64 * length known.old }
    requires room { count ≤ 64 * length heads.old }
    requires met { AreMet queue.old.items heads.old }
    requires once { AreOnce count queue.old.items }
    requires inside { i < count }
    ensures looked { OnOk result ((words : List ℕ) (next : ℕ) → length words ≡ count → next < length queue.old.items → slice_index queue.old.items next ≡ i
        → IsAt words i run.now → AreLookedAt edition words queue.old.items next known.old bits.old
        → AreLookedAt edition words queue.new.items (next + 1) known.new bits.new) }
    ensures told { OnOk result (IsTold (IsLedTo count (object_at edition run.now 0).references) queue.old.items known.old queue.new.items known.new) }
    ensures met { OnOk result (AreMet queue.new.items heads.new) }
    ensures once { OnOk result (AreOnce count queue.new.items) }
    ensures set { OnOk result ((j : ℕ) → bit bits.old j ≡ true → bit bits.new j ≡ true) }
    ensures words { OnOk result ((j : ℕ) → i ≤ j → j < i + size_of (header_at edition run.now 0) → bit bits.new j ≡ true) }
    ensures only { OnOk result ((j : ℕ) → bit bits.new j ≡ true → (bit bits.old j ≡ true) ⊎ ((i ≤ j) × (j < i + size_of (header_at edition run.now 0)))) }
    ensures fault { IfErr result (λ fault. IsPlacingFault edition count bits.old i run.now fault ⊎ IsLaneFieldsFault edition count known.old i run.now fault) }
    ensures known { length known.new ≡ length known.old }
    ensures heads { length heads.new ≡ length heads.old }
    ensures bits { length bits.new ≡ length bits.old }
{
    if run.len() == 0 {
        return Err(LookFault::ShortRun(1));
    }
    place(edition, count, bits, i, run)?;
    meet_fields(edition, count, known, heads, queue, claims, i, run)?;
    Ok(())
}

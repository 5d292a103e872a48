//! The marks of the objects that the roots reach.
ghost use Rattle.std.specs.Prelude.{◌≡◌, ℕ, ◌^◌, ◌≤◌, [], ◌++◌, true, length, IfErr, IfOk, OnOk};
ghost use Rattle.std.specs.List.{flat_map};
ghost use Rattle.heap_layout.specs.declared.fault.LayoutFault.TheVariants as layout;
ghost use Rattle.heap_layout.specs.Bits.{bit};
ghost use Rattle.heap_layout.specs.Faults.{object_faults, size_faults};
ghost use Rattle.heap_layout.specs.Heap.{object_at, starts, is_start, IsPlaced};
ghost use Rattle.reachability.specs.Queue.{is_met};
ghost use Rattle.reachability.specs.Reachable.{AreReachable, IsReachable, RefusesFor};

use crate::marks::indices;
use crate::queue::meet_all;
use crate::row::set_starts;
use heap_layout::{Edition, Header, Kind, LayoutFault, check_sizes};
use std::alloc::{AllocError, Global};

/// The references of the object at index `i`.
pub(crate) fn references(edition: Edition, words: &[u64], i: usize) -> &[u64]
    requires few { length words.now ≤ 2 ^ 31 }
    requires placed { IsPlaced edition words.now i }
    ensures { result.now ≡ (object_at edition words.now i).references }
{
    let count = Header::from_word_of(edition, words[i]).count(Kind::Reference) as usize;
    &words[i + 1..i + 1 + count]
}

// Meets each object that the roots reach, and clears its bit in `unmet`. `row` has the bits of all objects, and so must
// `unmet` before. The answer is the queue, for its memory.
fn meet_reached(
    alloc: Global,
    edition: Edition,
    words: &[u64],
    roots: &[u64],
    row: &[u64],
    unmet: &mut [u64],
) -> Result<Vec<u32>, AllocError>
    requires few { length words.now ≤ 2 ^ 31 }
    requires few_bits { length row.now ≤ 2 ^ 25 }
    requires unmet { unmet.old ≡ row.now }
    requires sound { flat_map (object_faults edition words.now) (starts edition words.now) ≡ [] }
    requires row { (i : ℕ) → bit row.now i ≡ is_start (starts edition words.now) i }
    ensures reachable { OnOk result ((i : ℕ) → is_met row.now unmet.new i ≡ true → IsReachable edition words.now roots.now i) }
    ensures all { OnOk result ((i : ℕ) → IsReachable edition words.now roots.now i → is_met row.now unmet.new i ≡ true) }
    ensures length { length unmet.new ≡ length unmet.old }
{
    let mut queue = Vec::new(alloc);
    meet_all(row, unmet, &mut queue, roots)?;
    let mut next = 0;
    while next < queue.len() {
        let i = queue[next] as usize;
        meet_all(row, unmet, &mut queue, references(edition, words, i))?;
        next += 1;
    }
    Ok(queue)
}

/// The marks of the objects that the roots reach: their indices, in words, rising. A root or a reference that leads to
/// no object reaches nothing, and weak words are not followed. The words must be objects side by side: Err with the
/// first fault of the sizes, which is `TooLarge`, or of the objects in turn, or with `OutOfMemory`. `TooLarge` comes
/// before `OutOfMemory`.
///
/// It allocates two bits for each word, and the queue, a list of four bytes for each object that is reached, which
/// doubles as it grows; the marks are then written there. It reads each header once, and that of each object that is
/// reached once more, and looks at each reference of these objects once.
pub fn reachable_marks(
    alloc: Global,
    edition: Edition,
    words: &[u64],
    roots: &[u64],
) -> Result<Vec<u32>, LayoutFault>
    ensures reachable { IfOk result (λ marks. AreReachable edition words.now roots.now marks.items) }
    ensures faultless { IfOk result (λ _. size_faults edition (length words.now) 0 (length roots.now)
        ++ flat_map (object_faults edition words.now) (starts edition words.now) ≡ []) }
    ensures refused { IfErr result (RefusesFor (size_faults edition (length words.now) 0 (length roots.now)
        ++ flat_map (object_faults edition words.now) (starts edition words.now))) }
    ensures memory { IfErr result (λ fault. fault ≡ layout.OutOfMemory → size_faults edition (length words.now) 0 (length roots.now) ≡ []) }
{
    check_sizes(edition, words.len(), 0, roots.len())?;
    let mut row = vec![in alloc; 0u64; words.len().div_ceil(64)]?;
    set_starts(edition, words, &mut row)?;
    let mut unmet = Vec::from_slice(alloc, &row)?;
    let queue = meet_reached(alloc, edition, words, roots, &row, &mut unmet)?;
    Ok(indices(queue, &row, &unmet)?)
}

//! What the references of some objects lead to. It is looked up with the bits of the objects that were not met read
//! alone, so several threads may do so at once. The caller then puts what they found in the queue, in order.
ghost use Rattle.std.specs.Prelude.{◌≡◌, ◌*◌, ◌^◌, ◌<◌, ◌≤◌, [], All, fold, map, length, IfOk, OnOk};
ghost use Rattle.heap_layout.specs.Bits.{bit};
ghost use Rattle.heap_layout.specs.Heap.{from_address, IsPlaced};
ghost use Rattle.reachability.specs.Queue.{after_found, after_part, after_word, found_items, found_more, AreUnmet, IsFound};

use crate::marker::references;
use crate::queue::{meet, object_of};
use heap_layout::{Edition, FROM_SPACE};
use std::alloc::{AllocError, Global};

// Puts the object to which a word leads at the end of the list, if its bit is set.
fn find(bits: &[u64], found: &mut Vec<u32>, word: u64) -> Result<(), AllocError>
    requires few { length bits.now ≤ 2 ^ 25 }
    ensures { OnOk result (found.new.items ≡ after_found (bit bits.now) found.old.items word) }
{
    if let Some(i) = object_of(bits, word) {
        found.push(i as u32)?;
    }
    Ok(())
}

// Puts the objects to which these words lead at the end of the list, those whose bits are set, in order.
fn find_all(bits: &[u64], found: &mut Vec<u32>, words: &[u64]) -> Result<(), AllocError>
    requires few { length bits.now ≤ 2 ^ 25 }
    ensures { OnOk result (found.new.items ≡ fold (after_found (bit bits.now)) found.old.items words.now) }
{
    for &word in words {
        find(bits, found, word)?;
    }
    Ok(())
}

/// The objects to which the references of these objects lead, those whose bits are set, in order. One to which several
/// references lead is there as often.
pub(crate) fn found_by(
    alloc: Global,
    edition: Edition,
    words: &[u64],
    bits: &[u64],
    objects: &[u32],
) -> Result<Vec<u32>, AllocError>
    requires few { length words.now ≤ 2 ^ 31 }
    requires few_bits { length bits.now ≤ 2 ^ 25 }
    requires placed { All (IsPlaced edition words.now) objects.now }
    ensures { IfOk result (λ found. found.items ≡ fold (found_more edition words.now (bit bits.now)) [] objects.now) }
{
    let mut found = Vec::with_capacity(alloc, objects.len())?;
    for &i in objects {
        find_all(bits, &mut found, references(edition, words, i as usize))?;
    }
    Ok(found)
}

// Puts these objects at the end of the queue, except those that were met.
fn meet_found(
    starts: &[u64],
    unmet: &mut [u64],
    queue: &mut Vec<u32>,
    found: &[u32],
) -> Result<(), AllocError>
    requires few { length unmet.old ≤ 2 ^ 25 }
    requires unmet { AreUnmet starts.now queue.old.items unmet.old }
    ensures queue { OnOk result (queue.new.items ≡ fold (after_word (bit starts.now)) queue.old.items (map from_address found.now)) }
    ensures unmet { OnOk result (AreUnmet starts.now queue.new.items unmet.new) }
    ensures length { length unmet.new ≡ length unmet.old }
{
    for &i in found {
        meet(starts, unmet, queue, FROM_SPACE + u64::from(i))?;
    }
    Ok(())
}

/// Puts the objects that threads found at the end of the queue, except those that were met. Err if a thread had no
/// memory for what it found.
pub(crate) fn meet_parts(
    starts: &[u64],
    unmet: &mut [u64],
    queue: &mut Vec<u32>,
    parts: &[Result<Vec<u32>, AllocError>],
) -> Result<(), AllocError>
    requires few { length unmet.old ≤ 2 ^ 25 }
    requires unmet { AreUnmet starts.now queue.old.items unmet.old }
    ensures queue { OnOk result (queue.new.items ≡ fold (after_part (bit starts.now)) queue.old.items parts.now) }
    ensures found { OnOk result (All IsFound parts.now) }
    ensures unmet { OnOk result (AreUnmet starts.now queue.new.items unmet.new) }
    ensures length { length unmet.new ≡ length unmet.old }
{
    for part in parts {
        match part {
            Ok(found) => meet_found(starts, unmet, queue, found)?,
            Err(_) => return Err(AllocError),
        }
    }
    Ok(())
}

/// Whether each thread had the memory for what it found.
pub(crate) fn are_found(parts: &[Result<Vec<u32>, AllocError>]) -> bool {
    for part in parts {
        if part.is_err() {
            return false;
        }
    }
    true
}

//! The queue of the objects that were met, in the order in which they were met. Each is there once: its bit among those
//! of the objects that were not met is cleared when it is met.
ghost use Rattle.std.specs.Prelude.{◌≡◌, ◌*◌, ◌^◌, ◌<◌, ◌≤◌, fold, length, IfSome, OnOk};
ghost use Rattle.heap_layout.specs.Bits.{bit};
ghost use Rattle.reachability.specs.Queue.{after_word, object_of, AreUnmet};

use crate::bits::clear;
use heap_layout::{FROM_SPACE, is_set};
use std::alloc::AllocError;

/// The index of the object to which a word leads, if the bit of that object is set.
pub(crate) fn object_of(bits: &[u64], word: u64) -> Option<usize>
    requires few { length bits.now ≤ 2 ^ 25 }
    ensures object { result ≡ object_of (bit bits.now) word }
    ensures inside { IfSome result (λ i. i < 64 * length bits.now) }
{
    let i = word.wrapping_sub(FROM_SPACE);
    if i >= 64 * bits.len() as u64 {
        return None;
    }
    let i = i as usize;
    if is_set(bits, i) { Some(i) } else { None }
}

/// Puts the object to which a word leads at the end of the queue. If the word leads to no object, or to one that was
/// met, nothing changes. `starts` has the bits of all objects, `unmet` those of the objects that are not in the queue.
pub(crate) fn meet(
    starts: &[u64],
    unmet: &mut [u64],
    queue: &mut Vec<u32>,
    word: u64,
) -> Result<(), AllocError>
    requires few { length unmet.old ≤ 2 ^ 25 }
    requires unmet { AreUnmet starts.now queue.old.items unmet.old }
    ensures queue { OnOk result (queue.new.items ≡ after_word (bit starts.now) queue.old.items word) }
    ensures unmet { OnOk result (AreUnmet starts.now queue.new.items unmet.new) }
    ensures length { length unmet.new ≡ length unmet.old }
{
    if let Some(i) = object_of(unmet, word) {
        queue.push(i as u32)?;
        clear(unmet, i);
    }
    Ok(())
}

/// Puts the objects to which these words lead at the end of the queue, except those that were met. `starts` has the
/// bits of all objects, `unmet` those of the objects that are not in the queue.
pub(crate) fn meet_all(
    starts: &[u64],
    unmet: &mut [u64],
    queue: &mut Vec<u32>,
    words: &[u64],
) -> Result<(), AllocError>
    requires few { length unmet.old ≤ 2 ^ 25 }
    requires unmet { AreUnmet starts.now queue.old.items unmet.old }
    ensures queue { OnOk result (queue.new.items ≡ fold (after_word (bit starts.now)) queue.old.items words.now) }
    ensures unmet { OnOk result (AreUnmet starts.now queue.new.items unmet.new) }
    ensures length { length unmet.new ≡ length unmet.old }
{
    for &word in words {
        meet(starts, unmet, queue, word)?;
    }
    Ok(())
}

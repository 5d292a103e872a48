//! The starts of the objects in a row.
ghost use Rattle.std.specs.Prelude.{◌≡◌, ℕ, ◌*◌, ◌^◌, ◌≤◌, false, length, OnOk};
ghost use Rattle.std.specs.List.{flat_map};
ghost use Rattle.heap_layout.specs.Bits.{bit};
ghost use Rattle.heap_layout.specs.Faults.{object_faults, Reports};
ghost use Rattle.heap_layout.specs.Heap.{starts, is_start};

use heap_layout::{Edition, Header, LayoutFault, set};

/// Checks that no object is longer than the edition allows or ends past the words, and sets the bit of each object's
/// first word. No bit may be set before, and there must be a bit for each word.
pub(crate) fn set_starts(
    edition: Edition,
    words: &[u64],
    bits: &mut [u64],
) -> Result<(), LayoutFault>
    requires few { length words.now ≤ 2 ^ 31 }
    requires room { length words.now ≤ 64 * length bits.old }
    requires none { (i : ℕ) → bit bits.old i ≡ false }
    ensures reported { Reports (flat_map (object_faults edition words.now) (starts edition words.now)) result }
    ensures starts { OnOk result ((i : ℕ) → bit bits.new i ≡ is_start (starts edition words.now) i) }
    ensures length { length bits.new ≡ length bits.old }
{
    let mut start = 0;
    while start < words.len() {
        let size = Header::from_word_of(edition, words[start]).size() as usize;
        if size > edition.max_object_words() {
            return Err(LayoutFault::ObjectTooLong(start as u64));
        }
        if size > words.len() - start {
            return Err(LayoutFault::ObjectPastEnd(start as u64));
        }
        set(bits, start);
        start += size;
    }
    Ok(())
}

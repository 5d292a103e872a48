//! Which object has a slid word, by the object-start bits: one bit for each slid word, a block of 64 for each page.
ghost use Rattle.std.specs.Prelude.{◌≡◌, ◌/◌, ◌%◌, ◌^◌, ◌<◌, count_ones};
ghost use Rattle.heap_layout.specs.Heap.{live};
ghost use Rattle.page_plan.specs.Planned.{Covers};
ghost use Rattle.page_plan.specs.Sliding.{live_words};

use crate::plan::Plan;

/// The number of the live object that has the slid word with the to-space index `new_index`: that of the first object
/// of its page, and one more for each start from the second word of the page up to this word. There must be such a
/// word.
pub fn number_at(plan: &Plan, new_index: u64) -> usize
    requires { new_index < live_words (live plan.now) }
    ensures { Covers (live plan.now) new_index result }
{
    let page = (new_index / 64) as usize;
    let later = later_starts(plan.starts()[page], new_index % 64);
    plan.first_objects()[page] as usize + later as usize
}

// How many bits of a block are set from bit 1 up to and including bit `offset`.
fn later_starts(block: u64, offset: u64) -> u32
    requires { offset < 64 }
    ensures { result ≡ count_ones (block / 2 % 2 ^ offset) }
{
    ((block >> 1) & ((1 << offset) - 1)).count_ones()
}

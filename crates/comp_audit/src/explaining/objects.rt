//! The marked objects after the slide: which one has a word, and which one is out of place.
ghost use Rattle.std.specs.Prelude.{◌≡◌, ◌+◌, ◌<◌, length, take};
ghost use Rattle.heap_layout.specs.Heap.{live};
ghost use Rattle.page_plan.specs.Sliding.{live_words};
ghost use Rattle.comp_audit.specs.Explained.{IsOutOfPlace, IsOwner, IsSlidObject};

use crate::explaining::words::word_in;
use crate::explanation::{OutOfPlace, SlidObject};
use comp_dump::Dump;
use page_plan::{Plan, TO_SPACE};

/// The object that has the slid word with this to-space index; None after the last slid word.
pub fn owner(plan: &Plan, new_index: u64) -> Option<SlidObject>
    ensures { IsOwner plan.now new_index result }
{
    let mut begin = 0;
    for number in 0..plan.heap().marks().len() {
        let end = end_of(plan, number, begin);
        if new_index < end {
            return Some(slid_object(plan, number, begin));
        }
        begin = end;
    }
    None
}

/// The first marked object whose header is not at its address in the dump. Pages that were not built do not count.
pub fn out_of_place(plan: &Plan, dump: &Dump<'_>) -> Option<OutOfPlace>
    ensures { IsOutOfPlace plan.now dump.now result }
{
    let mut begin = 0;
    for number in 0..plan.heap().marks().len() {
        let object = slid_object(plan, number, begin);
        if let Some(is) = word_in(dump, object.address)
            && is != object.header
        {
            return Some(OutOfPlace { object, is });
        }
        begin = end_of(plan, number, begin);
    }
    None
}

// The marked object with this number. It begins at the to-space index `begin`.
fn slid_object(plan: &Plan, number: usize, begin: u64) -> SlidObject
    requires known { number < length plan.now.marks }
    requires begin { begin ≡ live_words (take number (live plan.now)) }
    ensures object { IsSlidObject plan.now result }
    ensures number { result.number ≡ number }
{
    let mark = plan.heap().marks()[number];
    SlidObject {
        number: number as u64,
        index: u64::from(mark),
        address: TO_SPACE + begin,
        header: plan.heap().words()[mark as usize],
    }
}

// The to-space index at which the marked object with this number ends. It begins at `begin`.
fn end_of(plan: &Plan, number: usize, begin: u64) -> u64
    requires known { number < length plan.now.marks }
    requires begin { begin ≡ live_words (take number (live plan.now)) }
    ensures { result ≡ live_words (take (number + 1) (live plan.now)) }
{
    let mark = plan.heap().marks()[number];
    begin + u64::from(plan.heap().header_at(mark as usize).size())
}

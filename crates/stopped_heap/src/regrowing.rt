//! A survey that grows again, though it was settled: by threads or by marks first, and by ephemerons then.
ghost use Rattle.std.specs.Prelude.{◌≡◌, ℕ, ◌*◌, ◌^◌, ◌<◌, ◌≤◌, true, length, vec_capacity, IfErr, IfOk, OnErr, OnOk};
ghost use Rattle.heap_layout.specs.Bits.{bit};
ghost use Rattle.rest_marks.specs.Meeting.{AreMet, AreOnce};

use crate::growing::Growing;
use crate::survey::Survey;
use heap_layout::is_set;
use std::alloc::AllocError;

// Puts the indices of the bits that are set into the queue, rising, in place of what it had. None may be set from
// `count` on. Err if memory runs out, which never comes if the queue has room for `count` of them.
fn put_queue(heads: &[u64], count: usize, queue: &mut Vec<u32>) -> Result<(), AllocError>
    requires few { count ≤ 2 ^ 31 }
    requires known { count ≤ 64 * length heads.now }
    requires inside { (i : ℕ) → bit heads.now i ≡ true → i < count }
    ensures met { OnOk result (AreMet queue.new.items heads.now) }
    ensures once { OnOk result (AreOnce count queue.new.items) }
    ensures short { OnErr result (vec_capacity queue.old < count) }
    ensures capacity { vec_capacity queue.old ≤ vec_capacity queue.new }
{
    queue.clear();
    for i in 0..count {
        if is_set(heads, i) {
            queue.push(i as u32)?;
        }
    }
    Ok(())
}

impl<'w> Survey<'w> {
    /// Goes on with what was found, so that more roots and ephemerons are marked beside it, whoever marked it: threads,
    /// or marks of the caller's own. It looks at each bit of the first words, and at no word of the heap.
    ///
    /// Err with the survey as it was if there is no memory for the numbers of the kept objects, 4 bytes each. That
    /// never comes if its tables have room for the words; then it takes no memory.
    pub fn grow(self) -> Result<Growing<'w>, Survey<'w>>
        ensures same { IfOk result (λ growing. growing ≡ self.entry) }
        ensures back { IfErr result (λ survey. survey ≡ self.entry) }
        ensures short { IfErr result (λ _. self.entry.room < length self.entry.words) }
    {
        let Survey {
            edition,
            words,
            room,
            heads,
            bits,
            counts,
            starts,
            mut queue,
        } = self;
        if let Err(_) = put_queue(&heads, words.len(), &mut queue) {
            return Err(Survey {
                edition,
                words,
                room,
                heads,
                bits,
                counts,
                starts,
                queue,
            });
        }
        Ok(Growing {
            edition,
            words,
            room,
            heads,
            bits,
            counts,
            starts,
            queue,
        })
    }
}

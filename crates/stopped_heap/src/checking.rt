//! Asks of all objects at which a marking looked, at once, whether they are as they must be.
ghost use Rattle.std.specs.Prelude.{◌≡◌, ℕ, ◌+◌, ◌*◌, ◌^◌, ◌<◌, ◌≤◌, ◌⊎◌, true, false, length, slice_index, IfErr, OnOk};
ghost use Rattle.heap_layout.specs.Bits.{bit};
ghost use Rattle.heap_layout.specs.Heap.{object_at, IsPlaced};
ghost use Rattle.rest_marks.specs.Checks.{AreAsked, AreOthers, IsAskFault, IsAskedFault, IsCheckFault};
ghost use Rattle.rest_marks.specs.Looks.{AreLooked, AreLookedAt};
ghost use Rattle.rest_marks.specs.Marks.{AllKept};
ghost use Rattle.rest_marks.specs.Meeting.{AllLead, AreMet, AreOnce};
ghost use Rattle.rest_marks.specs.Reached.{IsWordOf};

use crate::looks::Looks;
use heap_layout::Edition;
use rest_marks::{
    CheckFault, check_kept, check_leads, first_unset, inverted, references, shape_of, take_run,
    weak_words,
};
use std::alloc::Global;

// Asks whether the object at index `i` is as it must be, and sets the bits of its words in `taken`, none of which may
// be set.
#[inline(always)]
fn ask(
    edition: Edition,
    words: &[u64],
    heads: &[u64],
    taken: &mut [u64],
    i: usize,
) -> Result<(), CheckFault>
    requires few { length words.now ≤ 2 ^ 31 }
    requires few_bits { length heads.now ≤ 2 ^ 25 }
    requires room { length words.now ≤ 64 * length heads.now }
    requires long { length taken.old ≡ length heads.now }
    requires inside { i < length words.now }
    ensures placed { OnOk result (IsPlaced edition words.now i) }
    ensures references { OnOk result (AllKept edition heads.now (object_at edition words.now i).references) }
    ensures weak { OnOk result (AllLead edition (length words.now) (object_at edition words.now i).weak) }
    ensures free { OnOk result ((j : ℕ) → IsWordOf edition words.now i j → bit taken.old j ≡ false) }
    ensures set { OnOk result ((j : ℕ) → IsWordOf edition words.now i j → bit taken.new j ≡ true) }
    ensures stay { OnOk result ((j : ℕ) → bit taken.old j ≡ true → bit taken.new j ≡ true) }
    ensures only { OnOk result ((j : ℕ) → bit taken.new j ≡ true → (bit taken.old j ≡ true) ⊎ IsWordOf edition words.now i j) }
    ensures fault { IfErr result (IsAskFault edition words.now heads.now taken.old i) }
    ensures length { length taken.new ≡ length taken.old }
{
    let count = words.len();
    let shape = shape_of(edition, words[i]);
    if shape.size > edition.max_object_words() {
        return Err(CheckFault::Changed(i as u64));
    }
    if shape.size > count - i {
        return Err(CheckFault::Changed(i as u64));
    }
    if !take_run(taken, i, shape.size) {
        return Err(CheckFault::Changed(i as u64));
    }
    let references = references(edition, words, i, shape.refs);
    if let Err(k) = check_kept(edition, heads, references) {
        return Err(CheckFault::Unmarked((i + 1 + k) as u64));
    }
    let weak = weak_words(edition, words, i, shape.refs, shape.weak);
    if let Err(k) = check_leads(edition, count, weak) {
        return Err(CheckFault::BadWeak((i + 1 + shape.refs + k) as u64));
    }
    Ok(())
}

// Asks so of the first `many` of these objects, one after the other.
fn ask_all(
    edition: Edition,
    words: &[u64],
    heads: &[u64],
    taken: &mut [u64],
    objects: &[u32],
    many: usize,
) -> Result<(), CheckFault>
    requires few { length words.now ≤ 2 ^ 31 }
    requires few_bits { length heads.now ≤ 2 ^ 25 }
    requires room { length words.now ≤ 64 * length heads.now }
    requires long { length taken.old ≡ length heads.now }
    requires many { many ≤ length objects.now }
    requires once { AreOnce (length words.now) objects.now }
    ensures asked { OnOk result (AreAsked edition words.now heads.now objects.now many taken.old taken.new) }
    ensures fault { IfErr result (IsAskedFault edition words.now heads.now objects.now many taken.old) }
    ensures length { length taken.new ≡ length taken.old }
{
    for k in 0..many {
        ask(edition, words, heads, taken, objects[k] as usize)?;
    }
    Ok(())
}

// Asks so of the objects of a marking, the first `many` of the queue, and whether all words whose bits are set are
// theirs. `taken` must have the bits that are not set.
fn ask_whole(
    edition: Edition,
    count: usize,
    words: &[u64],
    heads: &[u64],
    bits: &[u64],
    taken: &mut [u64],
    queue: &[u32],
    many: usize,
) -> Result<(), CheckFault>
    requires few { count ≤ 2 ^ 31 }
    requires counted { length words.now ≡ count }
    requires few_bits { length heads.now ≤ 2 ^ 25 }
    requires room { count ≤ 64 * length heads.now }
    requires same { length bits.now ≡ length heads.now }
    requires long { length taken.old ≡ length heads.now }
    requires others { AreOthers bits.now taken.old }
    requires many { many ≤ length queue.now }
    requires met { AreMet queue.now heads.now }
    requires once { AreOnce count queue.now }
    ensures looked { OnOk result (AreLookedAt edition words.now queue.now many heads.now bits.now) }
    ensures fault { IfErr result (IsCheckFault
        (record { edition = edition; count = count; met = queue.now; looked = many; heads = heads.now; bits = bits.now }) words.now) }
{
    // Only the clauses read these.
    let _ = count;
    let _ = bits;
    ask_all(edition, words, heads, taken, queue, many)?;
    if let Some(j) = first_unset(taken) {
        return Err(CheckFault::Unowned(j as u64));
    }
    Ok(())
}

impl Looks {
    /// Asks of all objects that were looked at, at once, whether they are in these words as they must be: a marking
    /// that is right passes at any time when no object was written to since it was looked at. This is for debugging. It
    /// looks at every object, and believes nothing that was said of cards or barriers. It takes memory for a bit a
    /// word, and leaves the marking as it was. Err with `WrongLength` if there are not as many words as the marking
    /// has; else with a fault that is there, or if memory runs out.
    pub fn check(&self, alloc: Global, words: &[u64]) -> Result<(), CheckFault>
        ensures looked { OnOk result (AreLooked self.now words.now) }
        ensures fault { IfErr result (IsCheckFault self.now words.now) }
    {
        if words.len() != self.count {
            return Err(CheckFault::WrongLength);
        }
        // The bits of the words that no object may have: at first of those of no object, then also of those of the
        // objects that were asked.
        let Ok(mut taken) = inverted(alloc, &self.bits) else {
            return Err(CheckFault::OutOfMemory);
        };
        ask_whole(
            self.edition,
            self.count,
            words,
            &self.heads,
            &self.bits,
            &mut taken,
            &self.queue,
            self.next,
        )
    }
}

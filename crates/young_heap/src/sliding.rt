//! Forwards the fields of old objects, and slides what lives above down to the old ones.
ghost use Rattle.std.specs.Prelude.{◌≡◌, ℕ, ◌-◌, ◌*◌, ◌<◌, ◌^◌, ◌++◌, false, All, length, drop, slice_index};
ghost use Rattle.std.specs.List.Sorted.{IsStrictlyIncreasing};
ghost use Rattle.heap_layout.specs.Heap.{live};
ghost use Rattle.heap_layout.specs.Values.{is_immediate};
ghost use Rattle.mark_tables.specs.MarkBitmap.{set_bits, AreOffsets};
ghost use Rattle.page_plan.specs.Sliding.{live_words};
ghost use Rattle.reachability.specs.Queue.{has};
ghost use Rattle.rest_marks.specs.Looking.{led_to, kept_by};
ghost use Rattle.rest_slide.specs.Settled.{settled_words};
ghost use Rattle.rest_marks.specs.Surveys.{told, AreTables};
ghost use Rattle.young_heap.specs.Young.{AreFieldsBelow, AreOld, AreRemembered, AreYoungTables};

use crate::finding::next_set;
use crate::forwarding::{settled_reference, settled_weak};
use crate::shape::shape_of;
use crate::sliding_down::slide_down_object;
use heap_layout::Edition;

// Makes these fields lead to where their objects are after the collection.
fn settle_fields(edition: Edition, bits: &[u64], counts: &[u32], words: &mut [u64], fields: &[u32])
    requires offsets { AreOffsets bits.now counts.now }
    requires below { All (λ j. j < length words.old) fields.now }
    requires rising { IsStrictlyIncreasing fields.now }
    requires known { (n : ℕ) → n < length fields.now
        → is_immediate edition (slice_index words.old (slice_index fields.now n)) ≡ false
        → slice_index words.old (slice_index fields.now n) - 2 ^ 32 < 64 * length bits.now }
    ensures settled { (n : ℕ) → n < length fields.now → slice_index words.new (slice_index fields.now n)
        ≡ led_to edition (set_bits bits.now) (slice_index words.old (slice_index fields.now n)) }
    ensures others { (j : ℕ) → has fields.now j ≡ false → slice_index words.new j ≡ slice_index words.old j }
    ensures length { length words.new ≡ length words.old }
{
    for n in 0..fields.len() {
        let j = fields[n] as usize;
        words[j] = settled_reference(edition, bits, counts, words[j]);
    }
}

// Makes these weak words lead to where their objects are after the collection, or makes them null.
fn settle_weaks(
    edition: Edition,
    heads: &[u64],
    bits: &[u64],
    counts: &[u32],
    words: &mut [u64],
    weaks: &[u32],
)
    requires offsets { AreOffsets bits.now counts.now }
    requires same { length heads.now ≡ length bits.now }
    requires below { All (λ j. j < length words.old) weaks.now }
    requires rising { IsStrictlyIncreasing weaks.now }
    ensures settled { (n : ℕ) → n < length weaks.now → slice_index words.new (slice_index weaks.now n)
        ≡ kept_by edition heads.now (set_bits bits.now) (slice_index words.old (slice_index weaks.now n)) }
    ensures others { (j : ℕ) → has weaks.now j ≡ false → slice_index words.new j ≡ slice_index words.old j }
    ensures length { length words.new ≡ length words.old }
{
    for n in 0..weaks.len() {
        let j = weaks[n] as usize;
        words[j] = settled_weak(edition, heads, bits, counts, words[j]);
    }
}

/// Slides the live objects above index `old` down to it, each behind the one before, and makes the fields and the weak
/// words of old objects lead there; a weak word whose object died becomes null.
/// Nothing else below index `old` is read or written; the words behind the live ones stay as they are.
pub(crate) fn slide_above(
    edition: Edition,
    old: usize,
    heads: &[u64],
    bits: &[u64],
    counts: &[u32],
    words: &mut [u64],
    fields: &[u32],
    weaks: &[u32],
)
    requires tables { AreYoungTables edition words.old old heads.now bits.now counts.now }
    requires fields { AreFieldsBelow old fields.now }
    requires weaks { AreFieldsBelow old weaks.now }
    requires known { (n : ℕ) → n < length fields.now
        → is_immediate edition (slice_index words.old (slice_index fields.now n)) ≡ false
        → slice_index words.old (slice_index fields.now n) - 2 ^ 32 < 64 * length bits.now }
    ensures slid { AreTables edition words.old heads.now bits.now counts.now → AreOld edition words.old heads.now old
        → AreRemembered edition words.old heads.now old fields.now weaks.now
        → words.new ≡ settled_words (live (told edition words.old heads.now))
        ++ drop (live_words (live (told edition words.old heads.now))) words.old }
    ensures others { (j : ℕ) → j < old → has fields.now j ≡ false → has weaks.now j ≡ false
        → slice_index words.new j ≡ slice_index words.old j }
    ensures length { length words.new ≡ length words.old }
{
    settle_fields(edition, bits, counts, words, fields);
    settle_weaks(edition, heads, bits, counts, words, weaks);
    let live = counts[bits.len()] as usize;
    let mut next = old;
    let mut place = old;
    while place < live {
        let start = next_set(heads, next);
        let shape = shape_of(edition, words[start]);
        slide_down_object(edition, heads, bits, counts, words, start, place, shape);
        place += shape.size;
        next = start + shape.size;
    }
}

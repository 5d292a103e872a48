//! Fills the tables of a survey, in memory that is there.
ghost use Rattle.std.specs.Prelude.{◌≡◌, ◌≢◌, ◌+◌, ◌*◌, ◌/◌, ◌≤◌, length, replicate, vec_capacity, vec_len, IfErr, OnOk};
ghost use Rattle.heap_layout.specs.Limits.{most_words, most_roots};
ghost use Rattle.rest_marks.specs.Marks.{IsMarksFaultOf};
ghost use Rattle.rest_marks.specs.Reached.{AreReached, IsFaultOf, IsSound};
ghost use Rattle.rest_marks.specs.Surveys.{marks_of, AreTables};
ghost use Rattle.stopped_heap.specs.Tables.{HaveRoom};
ghost use Rattle.rest_marks.specs.declared.fault.MarksFault.TheVariants as refusal;
ghost use Rattle.rest_marks.specs.declared.fault.SurveyFault.TheVariants as survey;

use heap_layout::Edition;
use rest_marks::{MarksFault, SurveyFault, check_kept, mark_with, put_offsets, take_marks};

/// So many blocks, in which no bit is set. There must be room for them.
pub(crate) fn clear(bits: &mut Vec<u64>, blocks: usize)
    requires { blocks ≤ vec_capacity bits.old }
    ensures items { bits.new.items ≡ replicate blocks 0 }
    ensures len { vec_len bits.new ≡ blocks }
    ensures capacity { vec_capacity bits.old ≤ vec_capacity bits.new }
{
    bits.clear();
    // There is room, so this allocates nothing and does not fail.
    let _ = bits.resize(blocks, 0);
}

/// Fills tables in which there is room: finds what the roots reach, and where it slides. What the tables had before is
/// dropped. This does not allocate. Err with a fault that is there.
pub(crate) fn fill(
    edition: Edition,
    words: &[u64],
    roots: &[u64],
    heads: &mut Vec<u64>,
    bits: &mut Vec<u64>,
    counts: &mut Vec<u32>,
    queue: &mut Vec<u32>,
) -> Result<(), SurveyFault>
    requires sizes { (length words.now ≤ most_words edition) × (length roots.now ≤ most_roots edition) }
    requires room { HaveRoom (length words.now) (vec_capacity heads.old) (vec_capacity bits.old) (vec_capacity counts.old) (vec_capacity queue.old) }
    ensures reached { OnOk result (AreReached edition words.now roots.now (marks_of heads.new.items)) }
    ensures sound { OnOk result (IsSound (record { edition = edition; words = words.now; marks = marks_of heads.new.items; roots = roots.now })) }
    ensures tables { OnOk result (AreTables edition words.now heads.new.items bits.new.items counts.new.items) }
    ensures long { OnOk result (length heads.new.items ≡ (length words.now + 63) / 64) }
    ensures fault { IfErr result (IsFaultOf edition words.now roots.now) }
    ensures never { IfErr result (λ fault. fault ≢ survey.OutOfMemory) }
    ensures heads { vec_capacity heads.old ≤ vec_capacity heads.new }
    ensures bits { vec_capacity bits.old ≤ vec_capacity bits.new }
    ensures counts { vec_capacity counts.old ≤ vec_capacity counts.new }
    ensures queue { vec_capacity queue.old ≤ vec_capacity queue.new }
{
    let blocks = words.len().div_ceil(64);
    clear(heads, blocks);
    clear(bits, blocks);
    queue.clear();
    mark_with(edition, words, roots, heads, bits, queue)?;
    put_offsets(bits, counts);
    Ok(())
}

/// Fills tables by marks of the caller's own, which have a bit for each word, as `fill` does by roots. The queue is not
/// wanted.
pub(crate) fn fill_by_marks(
    edition: Edition,
    words: &[u64],
    roots: &[u64],
    marks: &[u64],
    heads: &mut Vec<u64>,
    bits: &mut Vec<u64>,
    counts: &mut Vec<u32>,
) -> Result<(), MarksFault>
    requires sizes { (length words.now ≤ most_words edition) × (length roots.now ≤ most_roots edition) }
    requires blocks { length marks.now ≡ (length words.now + 63) / 64 }
    requires for_heads { length words.now ≤ 64 * vec_capacity heads.old }
    requires for_bits { length words.now ≤ 64 * vec_capacity bits.old }
    requires for_counts { length words.now + 64 ≤ 64 * vec_capacity counts.old }
    ensures same { OnOk result (heads.new.items ≡ marks.now) }
    ensures sound { OnOk result (IsSound (record { edition = edition; words = words.now; marks = marks_of marks.now; roots = roots.now })) }
    ensures tables { OnOk result (AreTables edition words.now marks.now bits.new.items counts.new.items) }
    ensures fault { IfErr result (IsMarksFaultOf edition words.now roots.now marks.now) }
    ensures never { IfErr result (λ fault. fault ≢ refusal.OutOfMemory) }
    ensures heads { vec_capacity heads.old ≤ vec_capacity heads.new }
    ensures bits { vec_capacity bits.old ≤ vec_capacity bits.new }
    ensures counts { vec_capacity counts.old ≤ vec_capacity counts.new }
{
    if let Err(k) = check_kept(edition, marks, roots) {
        return Err(MarksFault::BadRoot(k as u64));
    }
    clear(bits, marks.len());
    if let Err(fault) = take_marks(edition, words, marks, bits) {
        return Err(fault);
    }
    heads.clear();
    // There is room, so this allocates nothing and does not fail.
    let _ = heads.extend_from_slice(marks);
    put_offsets(bits, counts);
    Ok(())
}

//! A young collection by words of old objects that are remembered.
ghost use Rattle.std.specs.Prelude.{◌≡◌, ℕ, ◌+◌, ◌*◌, ◌^◌, ◌/◌, ◌<◌, ◌≤◌, true, false, [], length, slice_index, vec_capacity, IfErr, IfOk, OnErr, OnOk};
ghost use Rattle.heap_layout.specs.Bits.{bit};
ghost use Rattle.heap_layout.specs.Limits.{most_words, most_roots};
ghost use Rattle.reachability.specs.Queue.{has};
ghost use Rattle.rest_marks.specs.declared.fault.SurveyFault.TheVariants as survey;
ghost use Rattle.young_heap.specs.Refusals.{IsYoungFaultOf};
ghost use Rattle.young_heap.specs.Young.{AreFieldsBelow, AreKeptBelow, AreOld, AreRemembered, AreYoungMarks, AreYoungTables, HasCollectedYoung};

use crate::forwarding::settle_all;
use crate::marking::mark_above;
use crate::meeting::check_at;
use crate::recounting::recount;
use crate::sliding::slide_above;
use heap_layout::Edition;
use stopped_heap::SurveyFault;

/// Collects what is young of the heap of these words and roots, within the words: the words below index `old` stay
/// where they are, and what the roots and these fields reach above slides down to them. The fields are the indices of
/// words of old objects that lead above, rising. Ok with the number of words that are there then; the words behind are
/// as they were. `collect_young` finds the fields by cards.
///
/// In `heads`, a bit for each word, those of the words at which old objects start are set, and none from bit `old` on;
/// in `bits`, which is as long, just those below bit `old`. `counts` has one number more than there are blocks of 64
/// bits, and its first `old / 64 + 1` are the bits before their blocks. The queue is empty. Afterwards the tables are
/// so below; above, `heads` has the first words of what was kept, and `bits` all its words, until `promote` makes them.
///
/// The result is a collection if the words below are a row of objects (`AreOld`), and each of their references and weak
/// words that is none of these leads below (`AreRemembered`). Whether it is so or not, of the words below only the
/// fields and these weak words change, and no word is read or written outside of the slices.
///
/// Err with a fault that is there; there may be others too. It looks at `weaks`, then at the roots, then at the fields,
/// and then at the young objects in the order in which they are met. `BadRoot` and `BadReference` are a root, a field,
/// or a reference of a young object that leads neither to a young word nor to the start of an old object; `BadWeak` is
/// a weak word that leads to no word. `OutOfMemory` comes only if the queue has room for fewer objects than there are
/// words. `TooLarge` never comes. Then words and roots are as they were, and the tables below.
pub fn collect_above(
    edition: Edition,
    old: usize,
    words: &mut [u64],
    fields: &[u32],
    weaks: &[u32],
    roots: &mut [u64],
    heads: &mut [u64],
    bits: &mut [u64],
    counts: &mut [u32],
    queue: &mut Vec<u32>,
) -> Result<u64, SurveyFault>
    requires few { length words.old ≤ 2 ^ 31 }
    requires sizes { (length words.old ≤ most_words edition) × (length roots.old ≤ most_roots edition) }
    requires few_bits { length heads.old ≤ 2 ^ 25 }
    requires room { length words.old ≤ 64 * length heads.old }
    requires long { length bits.old ≡ length heads.old }
    requires counts_long { length counts.old ≡ length bits.old + 1 }
    requires no_heads { (i : ℕ) → old ≤ i → bit heads.old i ≡ false }
    requires no_bits { (i : ℕ) → old ≤ i → bit bits.old i ≡ false }
    requires ones { (i : ℕ) → i < old → bit bits.old i ≡ true }
    requires offsets { (b : ℕ) → b ≤ old / 64 → slice_index counts.old b ≡ 64 * b }
    requires empty { queue.old.items ≡ [] }
    requires fields { AreFieldsBelow old fields.now }
    requires weaks { AreFieldsBelow old weaks.now }
    requires within { old ≤ length words.old }
    ensures collected { IfOk result (λ live. AreOld edition words.old heads.old old
        → AreRemembered edition words.old heads.old old fields.now weaks.now
        → HasCollectedYoung edition words.old roots.old heads.old old fields.now live roots.new words.new) }
    ensures marks { IfOk result (λ live. AreOld edition words.old heads.old old
        → AreRemembered edition words.old heads.old old fields.now weaks.now
        → AreYoungMarks edition words.old roots.old heads.old old fields.now heads.new bits.new counts.new
        live roots.new words.new) }
    ensures tables { OnOk result (AreYoungTables edition words.old old heads.new bits.new counts.new) }
    ensures fault { IfErr result (IsYoungFaultOf edition words.old roots.old heads.old old fields.now weaks.now) }
    ensures short { IfErr result (λ fault. fault ≡ survey.OutOfMemory → vec_capacity queue.old < length words.old) }
    ensures others { (j : ℕ) → j < old → has fields.now j ≡ false → has weaks.now j ≡ false
        → slice_index words.new j ≡ slice_index words.old j }
    ensures length { length words.new ≡ length words.old }
    ensures order { IfOk result (λ live. (old ≤ live) × (live ≤ length words.old)) }
    ensures queue_room { vec_capacity queue.old ≤ vec_capacity queue.new }
    ensures heads_below { AreKeptBelow old heads.old heads.new }
    ensures bits_below { AreKeptBelow old bits.old bits.new }
    ensures counts_below { (b : ℕ) → b ≤ old / 64 → slice_index counts.new b ≡ 64 * b }
    ensures heads_long { length heads.new ≡ length heads.old }
    ensures bits_long { length bits.new ≡ length bits.old }
    ensures offsets_long { length counts.new ≡ length counts.old }
    ensures words_stay { OnErr result (words.new ≡ words.old) }
    ensures roots_stay { OnErr result (roots.new ≡ roots.old) }
{
    if let Err(j) = check_at(edition, words, weaks) {
        return Err(SurveyFault::BadWeak(j as u64));
    }
    mark_above(edition, old, words, fields, roots, heads, bits, queue)?;
    recount(bits, counts, old / 64);
    slide_above(edition, old, heads, bits, counts, words, fields, weaks);
    // Each root was met, so none leads astray, and none becomes null.
    settle_all(edition, heads, bits, counts, roots);
    Ok(u64::from(counts[bits.len()]))
}

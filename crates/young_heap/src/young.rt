//! The whole young collection.
ghost use Rattle.std.specs.Prelude.{◌≡◌, ◌≢◌, ◌⊎◌, ℕ, ◌+◌, ◌*◌, ◌^◌, ◌/◌, ◌<◌, ◌≤◌, true, false, [], length, slice_index, vec_capacity, IfErr, IfOk, OnErr};
ghost use Rattle.heap_layout.specs.Bits.{bit};
ghost use Rattle.heap_layout.specs.Limits.{most_words, most_roots};
ghost use Rattle.reachability.specs.Queue.{has};
ghost use Rattle.rest_marks.specs.declared.fault.SurveyFault.TheVariants as survey;
ghost use Rattle.young_heap.specs.Cards.{is_dirty, AreCleanCards};
ghost use Rattle.young_heap.specs.Refusals.{IsYoungFaultOf};
ghost use Rattle.young_heap.specs.Tables.{IsFaultBy, IsYoungCollected};
ghost use Rattle.young_heap.specs.Young.{is_below_led, AreFieldsBelow, AreKeptBelow, AreOld, AreRemembered, HasCollectedYoung};

use crate::collecting::collect_above;
use crate::promoting::{clear_from, promote};
use crate::remembering::remember;
use heap_layout::Edition;
use stopped_heap::SurveyFault;

/// Collects what is young of the heap of these words and roots, within the words, by the references and the weak words
/// of old objects that are remembered, and by tables for at least so many words:
///
/// - `heads`, `bits`: a bit for each word, in blocks of 64; `heads` has those of the words at which old objects start,
///   and in `bits` all below the watermark are set. `counts`: one number more than there are blocks; the first
///   `old / 64 + 1` are the bits before their blocks. What any of them has behind is not asked. After the call they are
///   so for the new watermark.
/// - `queue`: what it holds before is dropped.
///
/// `OutOfMemory` comes only if the queue has room for fewer indices than there are words. `TooLarge` never comes.
pub(crate) fn collect_remembered(
    edition: Edition,
    old: usize,
    words: &mut [u64],
    fields: &[u32],
    weaks: &[u32],
    roots: &mut [u64],
    heads: &mut [u64],
    bits: &mut [u64],
    counts: &mut [u32],
    queue: &mut Vec<u32>,
) -> Result<u64, SurveyFault>
    requires few { length words.old ≤ 2 ^ 31 }
    requires sizes { (length words.old ≤ most_words edition) × (length roots.old ≤ most_roots edition) }
    requires few_bits { length heads.old ≤ 2 ^ 25 }
    requires room { length words.old ≤ 64 * length heads.old }
    requires long { length bits.old ≡ length heads.old }
    requires counts_long { length counts.old ≡ length bits.old + 1 }
    requires ones { (i : ℕ) → i < old → bit bits.old i ≡ true }
    requires offsets { (b : ℕ) → b ≤ old / 64 → slice_index counts.old b ≡ 64 * b }
    requires within { old ≤ length words.old }
    requires fields { AreFieldsBelow old fields.now }
    requires weaks { AreFieldsBelow old weaks.now }
    ensures collected { IfOk result (λ live. AreOld edition words.old heads.old old
        → AreRemembered edition words.old heads.old old fields.now weaks.now
        → HasCollectedYoung edition words.old roots.old heads.old old fields.now live roots.new words.new) }
    ensures next { IfOk result (λ live. AreOld edition words.old heads.old old
        → AreRemembered edition words.old heads.old old fields.now weaks.now
        → AreOld edition words.new heads.new live) }
    ensures clean { IfOk result (λ live. AreOld edition words.old heads.old old
        → AreRemembered edition words.old heads.old old fields.now weaks.now
        → AreRemembered edition words.new heads.new live [] []) }
    ensures ones { IfOk result (λ live. (i : ℕ) → i < live → bit bits.new i ≡ true) }
    ensures offsets { IfOk result (λ live. (b : ℕ) → b ≤ live / 64 → slice_index counts.new b ≡ 64 * b) }
    ensures order { IfOk result (λ live. (old ≤ live) × (live ≤ length words.old)) }
    ensures others { (j : ℕ) → j < old → has fields.now j ≡ false → has weaks.now j ≡ false
        → slice_index words.new j ≡ slice_index words.old j }
    ensures fault { IfErr result (IsYoungFaultOf edition words.old roots.old heads.old old fields.now weaks.now) }
    ensures short { IfErr result (λ fault. fault ≡ survey.OutOfMemory → vec_capacity queue.old < length words.old) }
    ensures length { length words.new ≡ length words.old }
    ensures words_stay { OnErr result (words.new ≡ words.old) }
    ensures roots_stay { OnErr result (roots.new ≡ roots.old) }
    ensures heads_stay { AreKeptBelow old heads.old heads.new }
    ensures bits_stay { OnErr result (AreKeptBelow old bits.old bits.new) }
    ensures heads_long { length heads.new ≡ length heads.old }
    ensures bits_long { length bits.new ≡ length bits.old }
    ensures counts_same { length counts.new ≡ length counts.old }
    ensures queue_room { vec_capacity queue.old ≤ vec_capacity queue.new }
    ensures counts_stay { OnErr result ((b : ℕ) → b ≤ old / 64 → slice_index counts.new b ≡ 64 * b) }
{
    // The tables of these words, whatever room there is.
    let blocks = words.len().div_ceil(64);
    let heads = &mut heads[..blocks];
    let bits = &mut bits[..blocks];
    let counts = &mut counts[..blocks + 1];
    clear_from(heads, old);
    clear_from(bits, old);
    queue.clear();
    let live = collect_above(
        edition, old, words, fields, weaks, roots, heads, bits, counts, queue,
    )?;
    promote(edition, words, old, live as usize, heads, bits, counts);
    Ok(live)
}

/// Collects what is young by cards, as `OldTables::collect_young` says. What `fields` and `weaks` hold before is
/// dropped; afterwards they are the indices of the references and of the weak words of old objects that were
/// remembered.
///
/// `OutOfMemory` comes only if one of these has room for fewer than `old` indices, or the queue for fewer than there
/// are words. `TooLarge` never comes.
pub(crate) fn collect_by_cards(
    edition: Edition,
    old: usize,
    words: &mut [u64],
    cards: &[u8],
    roots: &mut [u64],
    heads: &mut [u64],
    bits: &mut [u64],
    counts: &mut [u32],
    queue: &mut Vec<u32>,
    fields: &mut Vec<u32>,
    weaks: &mut Vec<u32>,
) -> Result<u64, SurveyFault>
    requires few { length words.old ≤ 2 ^ 31 }
    requires sizes { (length words.old ≤ most_words edition) × (length roots.old ≤ most_roots edition) }
    requires few_bits { length heads.old ≤ 2 ^ 25 }
    requires room { length words.old ≤ 64 * length heads.old }
    requires long { length bits.old ≡ length heads.old }
    requires counts_long { length counts.old ≡ length bits.old + 1 }
    requires ones { (i : ℕ) → i < old → bit bits.old i ≡ true }
    requires offsets { (b : ℕ) → b ≤ old / 64 → slice_index counts.old b ≡ 64 * b }
    requires cards { old ≤ 64 * length cards.now }
    requires within { old ≤ length words.old }
    ensures collected { IfOk result (λ live. AreOld edition words.old heads.old old
        → AreCleanCards edition words.old heads.old old cards.now
        → IsYoungCollected edition words.old roots.old heads.old old cards.now live roots.new words.new) }
    ensures next { IfOk result (λ live. AreOld edition words.old heads.old old
        → AreCleanCards edition words.old heads.old old cards.now → AreOld edition words.new heads.new live) }
    ensures clean { IfOk result (λ live. AreOld edition words.old heads.old old
        → AreCleanCards edition words.old heads.old old cards.now
        → AreRemembered edition words.new heads.new live [] []) }
    ensures ones { IfOk result (λ live. (i : ℕ) → i < live → bit bits.new i ≡ true) }
    ensures offsets { IfOk result (λ live. (b : ℕ) → b ≤ live / 64 → slice_index counts.new b ≡ 64 * b) }
    ensures order { IfOk result (λ live. (old ≤ live) × (live ≤ length words.old)) }
    ensures clean_stay { (j : ℕ) → j < old → is_dirty cards.now j ≡ false
        → slice_index words.new j ≡ slice_index words.old j }
    ensures below_stay { (j : ℕ) → j < old → is_below_led edition heads.old old (slice_index words.old j) ≡ true
        → slice_index words.new j ≡ slice_index words.old j }
    ensures fault { IfErr result (λ fault. fault ≢ survey.OutOfMemory
        → IsFaultBy edition words.old roots.old heads.old old (is_dirty cards.now) fault) }
    ensures short { IfErr result (λ fault. fault ≡ survey.OutOfMemory → (vec_capacity fields.old < old)
        ⊎ (vec_capacity weaks.old < old) ⊎ (vec_capacity queue.old < length words.old)) }
    ensures length { length words.new ≡ length words.old }
    ensures words_stay { OnErr result (words.new ≡ words.old) }
    ensures roots_stay { OnErr result (roots.new ≡ roots.old) }
    ensures heads_stay { AreKeptBelow old heads.old heads.new }
    ensures bits_stay { OnErr result (AreKeptBelow old bits.old bits.new) }
    ensures heads_long { length heads.new ≡ length heads.old }
    ensures bits_long { length bits.new ≡ length bits.old }
    ensures counts_same { length counts.new ≡ length counts.old }
    ensures queue_room { vec_capacity queue.old ≤ vec_capacity queue.new }
    ensures fields_room { vec_capacity fields.old ≤ vec_capacity fields.new }
    ensures weaks_room { vec_capacity weaks.old ≤ vec_capacity weaks.new }
    ensures counts_stay { OnErr result ((b : ℕ) → b ≤ old / 64 → slice_index counts.new b ≡ 64 * b) }
{
    let Ok(()) = remember(edition, old, words, heads, cards, fields, weaks) else {
        return Err(SurveyFault::OutOfMemory);
    };
    collect_remembered(
        edition, old, words, fields, weaks, roots, heads, bits, counts, queue,
    )
}

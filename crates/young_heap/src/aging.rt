//! A young collection that leaves some objects young: those that were allocated since the last one.
ghost use Rattle.std.specs.Prelude.{◌≡◌, ◌≢◌, ◌⊎◌, ℕ, List, ◌*◌, ◌+◌, ◌/◌, ◌<◌, ◌≤◌, ◌^◌, true, false, length, slice_index, vec_capacity, IfErr, IfOk, OnErr};
ghost use Rattle.heap_layout.specs.Bits.{bit};
ghost use Rattle.heap_layout.specs.Limits.{most_words, most_roots};
ghost use Rattle.mark_tables.specs.LiveWords.{live_below};
ghost use Rattle.mark_tables.specs.MarkBitmap.{set_bits, AreOffsets};
ghost use Rattle.reachability.specs.Queue.{has};
ghost use Rattle.rest_marks.specs.declared.fault.SurveyFault.TheVariants as survey;
ghost use Rattle.young_heap.specs.Aging.{IsAgedBy, IsPartedBy};
ghost use Rattle.young_heap.specs.Cards.{is_dirty, AreCleanCards};
ghost use Rattle.young_heap.specs.Dirty.{AreMade};
ghost use Rattle.young_heap.specs.Refusals.{IsYoungFaultOf};
ghost use Rattle.young_heap.specs.Tables.{IsFaultBy};
ghost use Rattle.young_heap.specs.Young.{is_below_led, AreFieldsBelow, AreKeptBelow, AreKeptYoung, AreOld, AreRemembered};

use crate::collecting::collect_above;
use crate::dirtying::make_cards;
use crate::forwarding::below;
use crate::promoting::{clear_from, promote};
use crate::remembering::{last_start, remember};
use heap_layout::Edition;
use stopped_heap::SurveyFault;

// How many live words are below word `i`, which may be behind all bits. `counts` are the offsets of the blocks.
fn live_before(bits: &[u64], counts: &[u32], i: usize) -> usize
    requires offsets { AreOffsets bits.now counts.now }
    ensures { result ≡ live_below (set_bits bits.now) i }
{
    if i >= 64 * bits.len() {
        return counts[bits.len()] as usize;
    }
    below(bits, counts, i) as usize
}

// The last start at or before index `place`, or `live`, if that is not behind it.
fn last_end(starts: &[u64], old: usize, live: usize, place: usize) -> usize
    requires known { live ≤ 64 * length starts.now }
    requires order { (old ≤ live) × (old ≤ place) }
    requires first { old < live → bit starts.now old ≡ true }
    ensures order { (old ≤ result) × (result ≤ live) × (result ≤ place) }
    ensures start { result < live → bit starts.now result ≡ true }
    ensures last { (j : ℕ) → result < j → j ≤ place → j < live → bit starts.now j ≡ false }
    ensures all { live ≤ place → result ≡ live }
{
    // Only the clauses read it.
    let _ = old;
    if live <= place {
        return live;
    }
    last_start(starts, place)
}

/// Collects what is young, as `collect_remembered` does, by tables that are so, and with words that are remembered so.
/// `survived` is how many words the last collection left. Ok with the number of live words, and with the index behind
/// the last object that had ended by word `survived`. The tables are so for the watermark of all live words, and so for
/// each lower one.
pub(crate) fn collect_parted(
    edition: Edition,
    old: usize,
    survived: usize,
    words: &mut [u64],
    fields: &[u32],
    weaks: &[u32],
    roots: &mut [u64],
    heads: &mut [u64],
    bits: &mut [u64],
    counts: &mut [u32],
    queue: &mut Vec<u32>,
) -> Result<(u64, usize), SurveyFault>
    requires few { length words.old ≤ 2 ^ 31 }
    requires sizes { (length words.old ≤ most_words edition) × (length roots.old ≤ most_roots edition) }
    requires few_bits { length heads.old ≤ 2 ^ 25 }
    requires room { length words.old ≤ 64 * length heads.old }
    requires long { length bits.old ≡ length heads.old }
    requires counts_long { length counts.old ≡ length bits.old + 1 }
    requires ones { (i : ℕ) → i < old → bit bits.old i ≡ true }
    requires offsets { (b : ℕ) → b ≤ old / 64 → slice_index counts.old b ≡ 64 * b }
    requires within { old ≤ length words.old }
    requires survived { old ≤ survived }
    requires fields { AreFieldsBelow old fields.now }
    requires weaks { AreFieldsBelow old weaks.now }
    ensures parted { IfOk result (λ r. AreOld edition words.old heads.old old
        → AreRemembered edition words.old heads.old old fields.now weaks.now
        → (marks : List ℕ) × AreKeptYoung edition words.old roots.old heads.old old fields.now marks
        × IsPartedBy edition words.old roots.old marks survived r.0 r.1 roots.new words.new) }
    ensures next { IfOk result (λ r. AreOld edition words.old heads.old old
        → AreRemembered edition words.old heads.old old fields.now weaks.now → AreOld edition words.new heads.new r.1) }
    ensures bounds { IfOk result (λ r. (old ≤ r.1) × (r.1 ≤ survived) × (r.1 ≤ r.0) × (r.0 ≤ length words.old)) }
    ensures ones { IfOk result (λ r. (i : ℕ) → i < r.0 → bit bits.new i ≡ true) }
    ensures offsets { IfOk result (λ r. (b : ℕ) → b ≤ r.0 / 64 → slice_index counts.new b ≡ 64 * b) }
    ensures others { (j : ℕ) → j < old → has fields.now j ≡ false → has weaks.now j ≡ false
        → slice_index words.new j ≡ slice_index words.old j }
    ensures fault { IfErr result (IsYoungFaultOf edition words.old roots.old heads.old old fields.now weaks.now) }
    ensures short { IfErr result (λ fault. fault ≡ survey.OutOfMemory → vec_capacity queue.old < length words.old) }
    ensures length { length words.new ≡ length words.old }
    ensures words_stay { OnErr result (words.new ≡ words.old) }
    ensures roots_stay { OnErr result (roots.new ≡ roots.old) }
    ensures heads_stay { AreKeptBelow old heads.old heads.new }
    ensures bits_stay { OnErr result (AreKeptBelow old bits.old bits.new) }
    ensures heads_long { length heads.new ≡ length heads.old }
    ensures bits_long { length bits.new ≡ length bits.old }
    ensures counts_same { length counts.new ≡ length counts.old }
    ensures queue_room { vec_capacity queue.old ≤ vec_capacity queue.new }
    ensures counts_stay { OnErr result ((b : ℕ) → b ≤ old / 64 → slice_index counts.new b ≡ 64 * b) }
{
    // The tables of these words, whatever room there is.
    let blocks = words.len().div_ceil(64);
    let heads = &mut heads[..blocks];
    let bits = &mut bits[..blocks];
    let counts = &mut counts[..blocks + 1];
    clear_from(heads, old);
    clear_from(bits, old);
    queue.clear();
    let live = collect_above(
        edition, old, words, fields, weaks, roots, heads, bits, counts, queue,
    )?;
    let ended = live_before(bits, counts, survived);
    promote(edition, words, old, live as usize, heads, bits, counts);
    let middle = last_end(heads, old, live as usize, ended);
    Ok((live, middle))
}

/// Collects what is young by cards, as `OldTables::collect_aging` says, which are made anew for the watermark that it
/// answers beside the number of live words. What `fields` and `weaks` hold before is dropped.
///
/// `OutOfMemory` comes only if one of these has room for fewer than `old` indices, or the queue for fewer than there
/// are words. `TooLarge` never comes.
pub(crate) fn collect_by_age(
    edition: Edition,
    old: usize,
    survived: usize,
    words: &mut [u64],
    cards: &mut [u8],
    roots: &mut [u64],
    heads: &mut [u64],
    bits: &mut [u64],
    counts: &mut [u32],
    queue: &mut Vec<u32>,
    fields: &mut Vec<u32>,
    weaks: &mut Vec<u32>,
) -> Result<(u64, usize), SurveyFault>
    requires few { length words.old ≤ 2 ^ 31 }
    requires sizes { (length words.old ≤ most_words edition) × (length roots.old ≤ most_roots edition) }
    requires few_bits { length heads.old ≤ 2 ^ 25 }
    requires room { length words.old ≤ 64 * length heads.old }
    requires long { length bits.old ≡ length heads.old }
    requires counts_long { length counts.old ≡ length bits.old + 1 }
    requires ones { (i : ℕ) → i < old → bit bits.old i ≡ true }
    requires offsets { (b : ℕ) → b ≤ old / 64 → slice_index counts.old b ≡ 64 * b }
    requires cards { survived ≤ 64 * length cards.old }
    requires within { old ≤ length words.old }
    requires survived { old ≤ survived }
    ensures aged { IfOk result (λ r. AreOld edition words.old heads.old old
        → AreCleanCards edition words.old heads.old old cards.old
        → IsAgedBy edition words.old roots.old heads.old old survived (is_dirty cards.old) r.0 r.1
        roots.new words.new) }
    ensures next { IfOk result (λ r. AreOld edition words.old heads.old old
        → AreCleanCards edition words.old heads.old old cards.old → AreOld edition words.new heads.new r.1) }
    ensures made { IfOk result (λ r. AreOld edition words.old heads.old old
        → AreCleanCards edition words.old heads.old old cards.old
        → AreMade edition words.new heads.new r.1 cards.new) }
    ensures bounds { IfOk result (λ r. (old ≤ r.1) × (r.1 ≤ survived) × (r.1 ≤ r.0) × (r.0 ≤ length words.old)) }
    ensures ones { IfOk result (λ r. (i : ℕ) → i < r.1 → bit bits.new i ≡ true) }
    ensures offsets { IfOk result (λ r. (b : ℕ) → b ≤ r.1 / 64 → slice_index counts.new b ≡ 64 * b) }
    ensures clean_stay { (j : ℕ) → j < old → is_dirty cards.old j ≡ false
        → slice_index words.new j ≡ slice_index words.old j }
    ensures below_stay { (j : ℕ) → j < old → is_below_led edition heads.old old (slice_index words.old j) ≡ true
        → slice_index words.new j ≡ slice_index words.old j }
    ensures fault { IfErr result (λ fault. fault ≢ survey.OutOfMemory
        → IsFaultBy edition words.old roots.old heads.old old (is_dirty cards.old) fault) }
    ensures short { IfErr result (λ fault. fault ≡ survey.OutOfMemory → (vec_capacity fields.old < old)
        ⊎ (vec_capacity weaks.old < old) ⊎ (vec_capacity queue.old < length words.old)) }
    ensures length { length words.new ≡ length words.old }
    ensures cards_long { length cards.new ≡ length cards.old }
    ensures words_stay { OnErr result (words.new ≡ words.old) }
    ensures roots_stay { OnErr result (roots.new ≡ roots.old) }
    ensures cards_stay { OnErr result (cards.new ≡ cards.old) }
    ensures heads_stay { AreKeptBelow old heads.old heads.new }
    ensures bits_stay { OnErr result (AreKeptBelow old bits.old bits.new) }
    ensures heads_long { length heads.new ≡ length heads.old }
    ensures bits_long { length bits.new ≡ length bits.old }
    ensures counts_same { length counts.new ≡ length counts.old }
    ensures queue_room { vec_capacity queue.old ≤ vec_capacity queue.new }
    ensures fields_room { vec_capacity fields.old ≤ vec_capacity fields.new }
    ensures weaks_room { vec_capacity weaks.old ≤ vec_capacity weaks.new }
    ensures counts_stay { OnErr result ((b : ℕ) → b ≤ old / 64 → slice_index counts.new b ≡ 64 * b) }
{
    let Ok(()) = remember(edition, old, words, heads, cards, fields, weaks) else {
        return Err(SurveyFault::OutOfMemory);
    };
    let (live, middle) = collect_parted(
        edition, old, survived, words, fields, weaks, roots, heads, bits, counts, queue,
    )?;
    make_cards(edition, old, middle, words, heads, fields, weaks, cards);
    Ok((live, middle))
}

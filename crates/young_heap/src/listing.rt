//! A young collection by a list of the words of old objects into which the mutator stored.
ghost use Rattle.std.specs.Prelude.{◌≡◌, ◌≢◌, ℕ, ◌+◌, ◌*◌, ◌^◌, ◌/◌, ◌<◌, ◌≤◌, ◌⊎◌, true, false, [], length, slice_index, vec_capacity, IfErr, IfOk, OnErr, OnOk};
ghost use Rattle.std.specs.List.Sorted.{IsNonDecreasing};
ghost use Rattle.heap_layout.specs.Bits.{bit};
ghost use Rattle.heap_layout.specs.Limits.{most_words, most_roots};
ghost use Rattle.reachability.specs.Queue.{has};
ghost use Rattle.rest_marks.specs.declared.fault.SurveyFault.TheVariants as survey;
ghost use Rattle.young_heap.specs.Cards.{AreFound, AreGathered, AreGatheredWeak, AreListed};
ghost use Rattle.young_heap.specs.Listing.{AreFields, IsField, IsMisfitOf, IsMisfitShort};
ghost use Rattle.young_heap.specs.Tables.{IsCollectedBy, IsListFault};
ghost use Rattle.young_heap.specs.Young.{is_below_led, AreKeptBelow, AreOld, AreRemembered};
ghost use Rattle.young_heap.specs.declared.fault.YoungFault.TheVariants as young;

use crate::fault::YoungFault;
use crate::remembering::{first_owner, gather};
use crate::young::collect_remembered;
use heap_layout::Edition;
use stopped_heap::SurveyFault;

/// Why words that are listed are not remembered.
pub(crate) enum Misfit {
    /// An allocation failed.
    Memory,
    /// This word is no reference and no weak word of an old object.
    NotAField(u64),
}

// Gathers word `j`, which is listed, and behind those that were gathered. Err if it is no reference and no weak word of
// an old object, or if memory runs out.
fn gather_word(
    edition: Edition,
    old: usize,
    words: &[u64],
    starts: &[u64],
    list: &[u64],
    j: usize,
    fields: &mut Vec<u32>,
    weaks: &mut Vec<u32>,
) -> Result<(), Misfit>
    requires few { length words.now ≤ 2 ^ 31 }
    requires within { old ≤ length words.now }
    requires known { old ≤ 64 * length starts.now }
    requires low { j < old }
    requires listed { has list.now j ≡ true }
    requires found { AreFound edition words.now starts.now old (has list.now) j fields.old.items }
    requires found_weak { AreFound edition words.now starts.now old (has list.now) j weaks.old.items }
    ensures found { OnOk result (AreFound edition words.now starts.now old (has list.now) (j + 1) fields.new.items) }
    ensures found_weak { OnOk result
        (AreFound edition words.now starts.now old (has list.now) (j + 1) weaks.new.items) }
    ensures gathered { OnOk result (AreOld edition words.now starts.now old
        → AreGathered edition words.now starts.now old (has list.now) j fields.old.items
        → AreGathered edition words.now starts.now old (has list.now) (j + 1) fields.new.items) }
    ensures gathered_weak { OnOk result (AreOld edition words.now starts.now old
        → AreGatheredWeak edition words.now starts.now old (has list.now) j weaks.old.items
        → AreGatheredWeak edition words.now starts.now old (has list.now) (j + 1) weaks.new.items) }
    ensures field { OnOk result (AreOld edition words.now starts.now old → IsField edition words.now starts.now old j) }
    ensures misfit { IfErr result (IsMisfitOf edition words.now starts.now old list.now) }
    ensures short { IfErr result (IsMisfitShort old (vec_capacity fields.old) (vec_capacity weaks.old)) }
    ensures capacity { vec_capacity fields.old ≤ vec_capacity fields.new }
    ensures weak_capacity { vec_capacity weaks.old ≤ vec_capacity weaks.new }
{
    // Only the clauses read it.
    let _ = list;
    let owner = first_owner(edition, old, words, starts, j);
    if j <= owner.start || j > owner.last_weak {
        return Err(Misfit::NotAField(j as u64));
    }
    let (first, last) = (owner.start, owner.last_ref);
    let Ok(()) = gather(edition, old, words, starts, first, last, j, fields) else {
        return Err(Misfit::Memory);
    };
    let (first, last) = (owner.last_ref, owner.last_weak);
    let Ok(()) = gather(edition, old, words, starts, first, last, j, weaks) else {
        return Err(Misfit::Memory);
    };
    Ok(())
}

/// As `remember`, by a list of words, of which each is at least as large as those before. Err with the first of them
/// that is no reference and no weak word of an old object, or if memory runs out.
pub(crate) fn remember_by(
    edition: Edition,
    old: usize,
    words: &[u64],
    starts: &[u64],
    list: &[u64],
    fields: &mut Vec<u32>,
    weaks: &mut Vec<u32>,
) -> Result<(), Misfit>
    requires few { length words.now ≤ 2 ^ 31 }
    requires within { old ≤ length words.now }
    requires known { old ≤ 64 * length starts.now }
    requires sorted { IsNonDecreasing list.now }
    ensures found { OnOk result (AreFound edition words.now starts.now old (has list.now) old fields.new.items) }
    ensures found_weak { OnOk result (AreFound edition words.now starts.now old (has list.now) old weaks.new.items) }
    ensures gathered { OnOk result (AreOld edition words.now starts.now old
        → AreGathered edition words.now starts.now old (has list.now) old fields.new.items) }
    ensures gathered_weak { OnOk result (AreOld edition words.now starts.now old
        → AreGatheredWeak edition words.now starts.now old (has list.now) old weaks.new.items) }
    ensures fields { OnOk result (AreOld edition words.now starts.now old
        → AreFields edition words.now starts.now old list.now) }
    ensures misfit { IfErr result (IsMisfitOf edition words.now starts.now old list.now) }
    ensures short { IfErr result (IsMisfitShort old (vec_capacity fields.old) (vec_capacity weaks.old)) }
    ensures capacity { vec_capacity fields.old ≤ vec_capacity fields.new }
    ensures weak_capacity { vec_capacity weaks.old ≤ vec_capacity weaks.new }
{
    fields.clear();
    weaks.clear();
    // The listed words below it are gathered.
    let mut next = 0;
    for k in 0..list.len() {
        if list[k] >= old as u64 {
            return Err(Misfit::NotAField(list[k]));
        }
        let j = list[k] as usize;
        if j >= next {
            gather_word(edition, old, words, starts, list, j, fields, weaks)?;
            next = j + 1;
        }
    }
    Ok(())
}

/// As `collect_by_cards`, by a list of words, of which each is at least as large as those before.
pub(crate) fn collect_by_list(
    edition: Edition,
    old: usize,
    words: &mut [u64],
    list: &[u64],
    roots: &mut [u64],
    heads: &mut [u64],
    bits: &mut [u64],
    counts: &mut [u32],
    queue: &mut Vec<u32>,
    fields: &mut Vec<u32>,
    weaks: &mut Vec<u32>,
) -> Result<u64, YoungFault>
    requires few { length words.old ≤ 2 ^ 31 }
    requires sizes { (length words.old ≤ most_words edition) × (length roots.old ≤ most_roots edition) }
    requires few_bits { length heads.old ≤ 2 ^ 25 }
    requires room { length words.old ≤ 64 * length heads.old }
    requires long { length bits.old ≡ length heads.old }
    requires counts_long { length counts.old ≡ length bits.old + 1 }
    requires ones { (i : ℕ) → i < old → bit bits.old i ≡ true }
    requires offsets { (b : ℕ) → b ≤ old / 64 → slice_index counts.old b ≡ 64 * b }
    requires within { old ≤ length words.old }
    requires sorted { IsNonDecreasing list.now }
    ensures collected { IfOk result (λ live. AreOld edition words.old heads.old old
        → AreListed edition words.old heads.old old list.now
        → IsCollectedBy edition words.old roots.old heads.old old (has list.now) live roots.new words.new) }
    ensures next { IfOk result (λ live. AreOld edition words.old heads.old old
        → AreListed edition words.old heads.old old list.now → AreOld edition words.new heads.new live) }
    ensures clean { IfOk result (λ live. AreOld edition words.old heads.old old
        → AreListed edition words.old heads.old old list.now
        → AreRemembered edition words.new heads.new live [] []) }
    ensures listed { OnOk result (AreOld edition words.old heads.old old
        → AreFields edition words.old heads.old old list.now) }
    ensures ones { IfOk result (λ live. (i : ℕ) → i < live → bit bits.new i ≡ true) }
    ensures offsets { IfOk result (λ live. (b : ℕ) → b ≤ live / 64 → slice_index counts.new b ≡ 64 * b) }
    ensures order { IfOk result (λ live. (old ≤ live) × (live ≤ length words.old)) }
    ensures unlisted_stay { (j : ℕ) → j < old → has list.now j ≡ false
        → slice_index words.new j ≡ slice_index words.old j }
    ensures below_stay { (j : ℕ) → j < old → is_below_led edition heads.old old (slice_index words.old j) ≡ true
        → slice_index words.new j ≡ slice_index words.old j }
    ensures fault { IfErr result (λ fault. fault ≢ young.Survey survey.OutOfMemory
        → IsListFault edition words.old roots.old heads.old old list.now fault) }
    ensures short { IfErr result (λ fault. fault ≡ young.Survey survey.OutOfMemory → (vec_capacity fields.old < old)
        ⊎ (vec_capacity weaks.old < old) ⊎ (vec_capacity queue.old < length words.old)) }
    ensures length { length words.new ≡ length words.old }
    ensures words_stay { OnErr result (words.new ≡ words.old) }
    ensures roots_stay { OnErr result (roots.new ≡ roots.old) }
    ensures heads_stay { AreKeptBelow old heads.old heads.new }
    ensures bits_stay { OnErr result (AreKeptBelow old bits.old bits.new) }
    ensures heads_long { length heads.new ≡ length heads.old }
    ensures bits_long { length bits.new ≡ length bits.old }
    ensures counts_same { length counts.new ≡ length counts.old }
    ensures queue_room { vec_capacity queue.old ≤ vec_capacity queue.new }
    ensures fields_room { vec_capacity fields.old ≤ vec_capacity fields.new }
    ensures weaks_room { vec_capacity weaks.old ≤ vec_capacity weaks.new }
    ensures counts_stay { OnErr result ((b : ℕ) → b ≤ old / 64 → slice_index counts.new b ≡ 64 * b) }
{
    match remember_by(edition, old, words, heads, list, fields, weaks) {
        Ok(()) => {}
        Err(Misfit::Memory) => return Err(YoungFault::Survey(SurveyFault::OutOfMemory)),
        Err(Misfit::NotAField(j)) => return Err(YoungFault::NotAField(j)),
    }
    let collected = collect_remembered(
        edition, old, words, fields, weaks, roots, heads, bits, counts, queue,
    );
    match collected {
        Ok(live) => Ok(live),
        Err(fault) => Err(YoungFault::Survey(fault)),
    }
}

//! A collection within the memory of the heap.
ghost use Rattle.std.specs.Prelude.{◌≡◌, ◌≢◌, ◌≤◌, length, vec_capacity, IfOk, IfErr, OnErr};
ghost use Rattle.heap_layout.specs.Limits.{most_words, most_roots};
ghost use Rattle.stopped_heap.specs.Collecting.{HasCollected};
ghost use Rattle.rest_marks.specs.Reached.{AreReached, IsSound, IsFaultOf};
ghost use Rattle.rest_marks.specs.Surveys.{marks_of, AreTables};
ghost use Rattle.stopped_heap.specs.Tables.{HaveRoom, IsLentFaultOf};
ghost use Rattle.rest_marks.specs.declared.fault.SurveyFault.TheVariants as survey;

use crate::lending::fill;
use crate::making::tables_of;
use crate::tables::Tables;
use heap_layout::Edition;
use rest_marks::{LentFault, SurveyFault, settle_all};
use rest_slide::slide_down;
use std::alloc::Global;

// Slides what these tables have down to the beginning of the words, and makes the roots lead there. Answers the number
// of live words.
fn slide_home(
    edition: Edition,
    heads: &[u64],
    bits: &[u64],
    counts: &[u32],
    words: &mut [u64],
    roots: &mut [u64],
) -> u64
    requires { AreTables edition words.old heads.now bits.now counts.now }
    ensures { AreReached edition words.old roots.old (marks_of heads.now)
        → IsSound (record { edition = edition; words = words.old; marks = marks_of heads.now; roots = roots.old })
        → HasCollected edition words.old roots.old result roots.new words.old words.new }
{
    slide_down(edition, heads, bits, counts, words);
    // Each root was met, so none leads astray, and none becomes null.
    settle_all(edition, heads, bits, counts, roots);
    u64::from(counts[bits.len()])
}

/// Collects the heap of these words and roots within the words, with no second memory: slides what the roots reach down
/// to the beginning of the words, and makes the roots lead there. Ok with the number of live words, which are the first
/// ones then; the words behind them are as they were. So the words are those that `collect` leaves in a memory that
/// held them. Err if the heap is refused, or if memory for the tables runs out; then neither the words nor the roots
/// have changed. Beside the words it takes two bits a word, 4 bytes for each 64 words, and 4 for each object that is
/// reached.
pub fn collect_in_place(
    alloc: Global,
    edition: Edition,
    words: &mut [u64],
    roots: &mut [u64],
) -> Result<u64, SurveyFault>
    ensures collected { IfOk result (λ live. HasCollected edition words.old roots.old live roots.new words.old words.new) }
    ensures fault { IfErr result (IsFaultOf edition words.old roots.old) }
    ensures words_stay { OnErr result (words.new ≡ words.old) }
    ensures roots_stay { OnErr result (roots.new ≡ roots.old) }
{
    let tables = tables_of(alloc, edition, words, roots)?;
    Ok(slide_home(
        edition,
        &tables.heads,
        &tables.bits,
        &tables.counts,
        words,
        roots,
    ))
}

// Collects the heap within its words by these tables, in which there must be room.
fn collect_within(
    edition: Edition,
    words: &mut [u64],
    roots: &mut [u64],
    heads: &mut Vec<u64>,
    bits: &mut Vec<u64>,
    counts: &mut Vec<u32>,
    queue: &mut Vec<u32>,
) -> Result<u64, SurveyFault>
    requires sizes { (length words.old ≤ most_words edition) × (length roots.old ≤ most_roots edition) }
    requires room { HaveRoom (length words.old) (vec_capacity heads.old) (vec_capacity bits.old) (vec_capacity counts.old) (vec_capacity queue.old) }
    ensures collected { IfOk result (λ live. HasCollected edition words.old roots.old live roots.new words.old words.new) }
    ensures fault { IfErr result (IsFaultOf edition words.old roots.old) }
    ensures never { IfErr result (λ fault. fault ≢ survey.OutOfMemory) }
    ensures words_stay { OnErr result (words.new ≡ words.old) }
    ensures roots_stay { OnErr result (roots.new ≡ roots.old) }
    ensures heads { vec_capacity heads.old ≤ vec_capacity heads.new }
    ensures bits { vec_capacity bits.old ≤ vec_capacity bits.new }
    ensures counts { vec_capacity counts.old ≤ vec_capacity counts.new }
    ensures queue { vec_capacity queue.old ≤ vec_capacity queue.new }
{
    if let Err(fault) = fill(edition, words, roots, heads, bits, counts, queue) {
        return Err(fault);
    }
    Ok(slide_home(edition, heads, bits, counts, words, roots))
}

/// Like `collect_in_place`, by tables that were made before, with no allocation, so that `OutOfMemory` never comes. Err
/// also if the tables have room for fewer words than there are; that is asked first, but for the limits of the edition.
/// The tables keep their room.
pub fn collect_in_place_lent(
    tables: &mut Tables,
    edition: Edition,
    words: &mut [u64],
    roots: &mut [u64],
) -> Result<u64, LentFault>
    ensures collected { IfOk result (λ live. HasCollected edition words.old roots.old live roots.new words.old words.new) }
    ensures fits { IfOk result (λ _. length words.old ≤ tables.old.room) }
    ensures fault { IfErr result (IsLentFaultOf edition words.old roots.old tables.old.room) }
    ensures words_stay { OnErr result (words.new ≡ words.old) }
    ensures roots_stay { OnErr result (roots.new ≡ roots.old) }
    ensures room { tables.new.room ≡ tables.old.room }
{
    if words.len() > edition.max_words() || roots.len() > edition.max_roots() {
        return Err(LentFault::Survey(SurveyFault::TooLarge));
    }
    if words.len() > tables.room {
        return Err(LentFault::ShortTables(tables.room as u64));
    }
    let collected = collect_within(
        edition,
        words,
        roots,
        &mut tables.heads,
        &mut tables.bits,
        &mut tables.counts,
        &mut tables.queue,
    );
    match collected {
        Ok(live) => Ok(live),
        Err(fault) => Err(LentFault::Survey(fault)),
    }
}

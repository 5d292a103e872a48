//! The whole collection, by tables that are lent.
ghost use Rattle.std.specs.Prelude.{◌≡◌, ◌≢◌, ◌*◌, ◌<◌, ◌≤◌, ℕ, List, length, vec_capacity, IfOk, IfErr, OnErr};
ghost use Rattle.heap_layout.specs.Limits.{most_words, most_roots};
ghost use Rattle.stopped_heap.specs.Collecting.{HasCollected, RefusesCollection};
ghost use Rattle.stopped_heap.specs.Tables.{HaveRoom, RefusesLent};
ghost use Rattle.rest_marks.specs.declared.fault.CollectFault.TheVariants as collect;
ghost use Rattle.rest_marks.specs.declared.fault.SurveyFault.TheVariants as survey;

use crate::lending::fill;
use crate::tables::Tables;
use heap_layout::Edition;
use rest_marks::{CollectFault, CollectLentFault, SurveyFault, put_starts, settle_all};
use rest_slide::slide_part;

// Collects the heap by these tables, in which there must be room.
fn collect_in(
    edition: Edition,
    words: &[u64],
    roots: &mut [u64],
    to: &mut [u64],
    heads: &mut Vec<u64>,
    bits: &mut Vec<u64>,
    counts: &mut Vec<u32>,
    starts: &mut Vec<u32>,
    queue: &mut Vec<u32>,
) -> Result<u64, CollectFault>
    requires sizes { (length words.now ≤ most_words edition) × (length roots.old ≤ most_roots edition) }
    requires room { HaveRoom (length words.now) (vec_capacity heads.old) (vec_capacity bits.old) (vec_capacity counts.old) (vec_capacity queue.old) }
    requires for_starts { length words.now ≤ 64 * vec_capacity starts.old }
    ensures collected { IfOk result (λ live. HasCollected edition words.now roots.old live roots.new to.old to.new) }
    ensures fault { IfErr result (RefusesCollection edition words.now roots.old (length to.old)) }
    ensures never { IfErr result (λ fault. fault ≢ collect.Survey survey.OutOfMemory) }
    ensures roots_stay { OnErr result (roots.new ≡ roots.old) }
    ensures to_stays { OnErr result (to.new ≡ to.old) }
    ensures heads { vec_capacity heads.old ≤ vec_capacity heads.new }
    ensures bits { vec_capacity bits.old ≤ vec_capacity bits.new }
    ensures counts { vec_capacity counts.old ≤ vec_capacity counts.new }
    ensures starts { vec_capacity starts.old ≤ vec_capacity starts.new }
    ensures queue { vec_capacity queue.old ≤ vec_capacity queue.new }
{
    if let Err(fault) = fill(edition, words, roots, heads, bits, counts, queue) {
        return Err(CollectFault::Survey(fault));
    }
    put_starts(heads, starts);
    let live = u64::from(counts[bits.len()]);
    if live > to.len() as u64 {
        return Err(CollectFault::NoRoom(live));
    }
    slide_part(
        edition,
        words,
        heads,
        bits,
        counts,
        starts,
        0,
        &mut to[..live as usize],
    );
    // Each root was met, so none leads astray, and none becomes null.
    settle_all(edition, heads, bits, counts, roots);
    Ok(live)
}

/// Like `collect`, by tables that were made before, with no allocation, so that `OutOfMemory` never comes. Err also if
/// the tables have room for fewer words than there are; that is asked first, but for the limits of the edition. The
/// tables keep their room.
pub fn collect_lent(
    tables: &mut Tables,
    edition: Edition,
    words: &[u64],
    roots: &mut [u64],
    to: &mut [u64],
) -> Result<u64, CollectLentFault>
    ensures collected { IfOk result (λ live. HasCollected edition words.now roots.old live roots.new to.old to.new) }
    ensures fits { IfOk result (λ _. length words.now ≤ tables.old.room) }
    ensures fault { IfErr result (RefusesLent edition words.now roots.old tables.old.room (length to.old)) }
    ensures roots_stay { OnErr result (roots.new ≡ roots.old) }
    ensures to_stays { OnErr result (to.new ≡ to.old) }
    ensures room { tables.new.room ≡ tables.old.room }
{
    if words.len() > edition.max_words() || roots.len() > edition.max_roots() {
        let fault = CollectFault::Survey(SurveyFault::TooLarge);
        return Err(CollectLentFault::Collect(fault));
    }
    if words.len() > tables.room {
        return Err(CollectLentFault::ShortTables(tables.room as u64));
    }
    let collected = collect_in(
        edition,
        words,
        roots,
        to,
        &mut tables.heads,
        &mut tables.bits,
        &mut tables.counts,
        &mut tables.starts,
        &mut tables.queue,
    );
    match collected {
        Ok(live) => Ok(live),
        Err(fault) => Err(CollectLentFault::Collect(fault)),
    }
}

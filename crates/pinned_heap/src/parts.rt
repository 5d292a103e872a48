//! Slides parts of the words at once, each in a thread: between two objects that stay all words are independent of the
//! others.
ghost use Rattle.std.specs.Prelude.{◌≡◌, ℕ, ◌≤◌, true};
ghost use Rattle.std.specs.Thread.{IsSync};
ghost use Rattle.heap_layout.specs.Bits.{bit};
ghost use Rattle.mark_tables.specs.MarkBitmap.{AreOffsets};
ghost use Rattle.rest_marks.specs.Surveys.{told, AreTables};
ghost use Rattle.pinned_heap.specs.Around.{IsSlidAround};
ghost use Rattle.pinned_heap.specs.Parts.{ArePartTables, IsPartSlid};
ghost use Rattle.pinned_heap.specs.Tables.{AreBases};

use crate::cutting::cut_of;
use crate::sliding::slide_part;
use heap_layout::Edition;
use std::thread::{Threads, join_mut};

// So many threads slide at most.
const MAX_THREADS: usize = 64;

// Slides a part, in at most so many threads: it is cut at an object that stays, and each half slides in its share of
// them.
fn slide_parts<R: Threads + Sync>(
    rt: &R,
    threads: usize,
    edition: Edition,
    heads: &[u64],
    bits: &[u64],
    counts: &[u32],
    stays: &[u64],
    bases: &[u32],
    low: usize,
    part: &mut [u64],
)
    requires offsets { AreOffsets bits.now counts.now }
    requires bases { AreBases bits.now stays.now bases.now }
    requires tables { ArePartTables edition heads.now bits.now stays.now low part.old }
    requires small { threads ≤ 64 }
    ensures { IsPartSlid edition heads.now bits.now stays.now low part.old part.new }
{
    let Some(cut) = cut_of(counts, stays, low, low + part.len(), threads) else {
        return slide_part(edition, heads, bits, stays, bases, low, part);
    };
    let share = threads / 2;
    let rest = threads - share;
    let (front, back) = part.split_at_mut(cut - low);
    join_mut(
        rt,
        &mut ||
            requires sync { IsSync R.row }
            requires offsets { AreOffsets bits.now counts.now }
            requires bases { AreBases bits.now stays.now bases.now }
            requires tables { ArePartTables edition heads.now bits.now stays.now low front.now }
            requires small { share ≤ 64 }
            ensures { IsPartSlid edition heads.entry.now bits.entry.now stays.entry.now low front.entry.now front.exit.now }
        {
            slide_parts(
                rt, share, edition, heads, bits, counts, stays, bases, low, front,
            )
        },
        &mut ||
            requires sync { IsSync R.row }
            requires offsets { AreOffsets bits.now counts.now }
            requires bases { AreBases bits.now stays.now bases.now }
            requires tables { ArePartTables edition heads.now bits.now stays.now cut back.now }
            requires small { rest ≤ 64 }
            ensures { IsPartSlid edition heads.entry.now bits.entry.now stays.entry.now cut back.entry.now back.exit.now }
        {
            slide_parts(
                rt, rest, edition, heads, bits, counts, stays, bases, cut, back,
            )
        },
    );
}

/// Like `slide_around`, in at most so many threads, and 64 at most: what is left is the same.
pub(crate) fn slide_around_by_threads<R: Threads + Sync>(
    rt: &R,
    threads: usize,
    edition: Edition,
    heads: &[u64],
    bits: &[u64],
    counts: &[u32],
    stays: &[u64],
    bases: &[u32],
    words: &mut [u64],
)
    requires tables { AreTables edition words.old heads.now bits.now counts.now }
    requires bases { AreBases bits.now stays.now bases.now }
    requires objects { (i : ℕ) → bit stays.now i ≡ true → bit heads.now i ≡ true }
    ensures { IsSlidAround (told edition words.old heads.now) (bit stays.now) words.new }
{
    slide_parts(
        rt,
        threads.min(MAX_THREADS),
        edition,
        heads,
        bits,
        counts,
        stays,
        bases,
        0,
        words,
    );
}

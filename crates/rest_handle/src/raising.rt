//! The watermark of tables that a handle keeps goes up, and nothing is collected.
ghost use Rattle.std.specs.Prelude.{◌≡◌};
ghost use Rattle.rest_handle.specs.Raising.{of_raise, Raises, RaisesOf};
ghost use Rattle.rest_handle.specs.Young.{ChangesOld};

use handle_base::{Answer, Handle, Kept, status};
use heap_layout::{Edition, edition_of};
use std::alloc::Global;
use young_heap::{OldTables, RaiseFault};

// The answer of a watermark that is not raised.
fn unraised(fault: RaiseFault) -> Answer
    ensures { result ≡ of_raise fault }
{
    match fault {
        RaiseFault::TooLarge => Answer::bare(status::TOO_LARGE, 0),
        RaiseFault::ShortTables(room) => Answer::bare(status::SHORT_TABLES, room),
        RaiseFault::FewWords(end) => Answer::bare(status::FEW_WORDS, end),
        RaiseFault::BelowWatermark(watermark) => Answer::bare(status::BELOW_WATERMARK, watermark),
        RaiseFault::NotARow(i) => Answer::bare(status::NOT_A_ROW, i),
    }
}

// Raises it by words of this edition.
fn raise_of(tables: &mut OldTables, edition: Edition, words: &[u64], end: u64) -> Answer
    ensures { RaisesOf edition words.now end tables.old tables.new result }
{
    match tables.raise(edition, words, end as usize) {
        Ok(()) => Answer::done(end),
        Err(fault) => unraised(fault),
    }
}

// The same of the edition of this number.
fn raise_by(tables: &mut OldTables, edition: u32, words: &[u64], end: u64) -> Answer
    ensures { Raises edition words.now end tables.old tables.new result }
{
    match edition_of(edition, true) {
        Some(found) => raise_of(tables, found, words, end),
        None => Answer::bare(status::BAD_EDITION, u64::from(edition)),
    }
}

/// Raises the watermark of the tables that a handle keeps to word `end`, which the answer has: all that lies below is
/// old then, what is dead too, and stays where it is. The words from the watermark up to `end` have to be a row of
/// objects of this edition, 1 to 4; of each of them the header alone is read. If it is refused, the tables are as they
/// were.
pub fn raise_old(alloc: Global, h: &mut Handle, edition: u32, words: &[u64], end: u64) -> Answer
    ensures { ChangesOld (Raises edition words.now end) (Unit {0}) h.old.kept h.new.kept result }
{
    let Some(mut kept) = h.take(alloc) else {
        return Answer::bare(status::EMPTY_HANDLE, 0);
    };
    let answer = match kept.as_mut() {
        Kept::Old(tables) => raise_by(tables, edition, words, end),
        _ => Answer::bare(status::WRONG_HANDLE, 0),
    };
    h.put_back(kept);
    answer
}

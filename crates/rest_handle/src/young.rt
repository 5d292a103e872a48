//! Young collections of a heap at rest, by handles: by tables that know a watermark. None of them takes memory.
ghost use Rattle.std.specs.Prelude.{◌≡◌};
ghost use Rattle.handle_base.specs.HandleKinds.{old_in, Asks, Fills};
ghost use Rattle.rest_handle.specs.Young.{of_old, of_young, ChangesOld, ChecksOld, ChecksOldOf, CollectsAging, CollectsAgingOf, CollectsAll, CollectsAllOf, CollectsYoung, CollectsYoungBy, CollectsYoungByOf, CollectsYoungOf, ReservesOld, SaysWatermark};

use handle_base::{Answer, Handle, Kept, as_old, is_full, keep, status};
use heap_layout::{Edition, edition_of};
use std::alloc::Global;
use young_heap::{OldFault, OldTables, YoungFault};

/// Makes tables with room for collections of so many words, whose watermark is 0, and puts them into an empty handle.
/// If memory runs out, it stays empty.
pub fn reserve_old(alloc: Global, words: u64, h: &mut Handle) -> Answer
    ensures { Fills 0 (ReservesOld words) (Unit {0}) h.old.kept h.new.kept result }
{
    if is_full(alloc, h) {
        return Answer::bare(status::NOT_EMPTY, 0);
    }
    let Ok(made) = OldTables::reserve(alloc, words as usize) else {
        return Answer::bare(status::OUT_OF_MEMORY, 0);
    };
    if keep(alloc, h, Kept::Old(made)) {
        Answer::done(0)
    } else {
        Answer::bare(status::OUT_OF_MEMORY, 0)
    }
}

// Says the watermark.
fn say_watermark(tables: &OldTables) -> Answer
    ensures { SaysWatermark tables.now result }
{
    Answer::done(tables.old() as u64)
}

/// The watermark of the tables that a handle keeps: the objects below this index are old. It is 0 before the first
/// collection.
pub fn watermark(alloc: Global, h: &mut Handle) -> Answer
    ensures same { h.new.kept ≡ h.old.kept }
    ensures says { Asks 0 old_in SaysWatermark (Unit {0}) h.old.kept result }
{
    let Some(kept) = h.take(alloc) else {
        return Answer::bare(status::EMPTY_HANDLE, 0);
    };
    let answer = match as_old(kept.as_ref()) {
        Some(tables) => say_watermark(tables),
        None => Answer::bare(status::WRONG_HANDLE, 0),
    };
    h.put_back(kept);
    answer
}

/// The answer of a heap that is not collected by tables with a watermark.
pub(crate) fn uncollected(fault: YoungFault) -> Answer
    ensures { result ≡ of_young fault }
{
    match fault {
        YoungFault::TooLarge => Answer::bare(status::TOO_LARGE, 0),
        YoungFault::ShortTables(room) => Answer::bare(status::SHORT_TABLES, room),
        YoungFault::FewWords(watermark) => Answer::bare(status::FEW_WORDS, watermark),
        YoungFault::FewCards(count) => Answer::bare(status::FEW_CARDS, count),
        YoungFault::NotAField(i) => Answer::bare(status::NOT_A_FIELD, i),
        YoungFault::Survey(fault) => Answer::unsurveyed(fault),
    }
}

// Collects all of a heap of this edition.
fn collect_all_of(
    tables: &mut OldTables,
    edition: Edition,
    words: &mut [u64],
    roots: &mut [u64],
) -> Answer
    ensures { CollectsAllOf edition words.old words.new roots.old roots.new tables.old tables.new result }
{
    match tables.collect_all(edition, words, roots) {
        Ok(live) => Answer::done(live),
        Err(fault) => uncollected(fault),
    }
}

// The same of the edition of this number.
fn collect_all_by(
    tables: &mut OldTables,
    edition: u32,
    words: &mut [u64],
    roots: &mut [u64],
) -> Answer
    ensures { CollectsAll edition words.old words.new roots.old roots.new tables.old tables.new result }
{
    match edition_of(edition, true) {
        Some(found) => collect_all_of(tables, found, words, roots),
        None => Answer::bare(status::BAD_EDITION, u64::from(edition)),
    }
}

/// Collects the heap of these words and roots, of this edition, 1 to 4, within the words, by the tables that a handle
/// keeps, whatever is old. The answer has the number of live words, which is the watermark then: all that lives is old.
/// If it is refused, words, roots and tables are as they were: there are too many words or roots; the tables have room
/// for fewer words; or there is a fault.
pub fn collect_all(
    alloc: Global,
    h: &mut Handle,
    edition: u32,
    words: &mut [u64],
    roots: &mut [u64],
) -> Answer
    ensures { ChangesOld (CollectsAll edition words.old words.new roots.old roots.new) ((words.new ≡ words.old) × (roots.new ≡ roots.old)) h.old.kept h.new.kept result }
{
    let Some(mut kept) = h.take(alloc) else {
        return Answer::bare(status::EMPTY_HANDLE, 0);
    };
    let answer = match kept.as_mut() {
        Kept::Old(tables) => collect_all_by(tables, edition, words, roots),
        _ => Answer::bare(status::WRONG_HANDLE, 0),
    };
    h.put_back(kept);
    answer
}

// Collects what is young of a heap of this edition.
fn collect_young_of(
    tables: &mut OldTables,
    edition: Edition,
    words: &mut [u64],
    cards: &[u8],
    roots: &mut [u64],
) -> Answer
    ensures { CollectsYoungOf edition words.old words.new cards.now roots.old roots.new tables.old tables.new result }
{
    match tables.collect_young(edition, words, cards, roots) {
        Ok(live) => Answer::done(live),
        Err(fault) => uncollected(fault),
    }
}

// The same of the edition of this number.
fn collect_young_in(
    tables: &mut OldTables,
    edition: u32,
    words: &mut [u64],
    cards: &[u8],
    roots: &mut [u64],
) -> Answer
    ensures { CollectsYoung edition words.old words.new cards.now roots.old roots.new tables.old tables.new result }
{
    match edition_of(edition, true) {
        Some(found) => collect_young_of(tables, found, words, cards, roots),
        None => Answer::bare(status::BAD_EDITION, u64::from(edition)),
    }
}

/// Collects what is young of the heap of these words and roots, of this edition, 1 to 4, within the words, by the
/// tables that a handle keeps. Card `k`, a byte that is 0 while it is clean, has the 64 words from `64 * k` on. The
/// answer has the number of words that are there then, which is the watermark: all of them are old, and each card may
/// be clean. If it is refused, words, roots and watermark are as they were: there are too many words or roots; the
/// tables have room for fewer words; there are fewer words than the watermark, or fewer cards than they want; or there
/// is a fault.
pub fn collect_young(
    alloc: Global,
    h: &mut Handle,
    edition: u32,
    words: &mut [u64],
    cards: &[u8],
    roots: &mut [u64],
) -> Answer
    ensures { ChangesOld (CollectsYoung edition words.old words.new cards.now roots.old roots.new) ((words.new ≡ words.old) × (roots.new ≡ roots.old)) h.old.kept h.new.kept result }
{
    let Some(mut kept) = h.take(alloc) else {
        return Answer::bare(status::EMPTY_HANDLE, 0);
    };
    let answer = match kept.as_mut() {
        Kept::Old(tables) => collect_young_in(tables, edition, words, cards, roots),
        _ => Answer::bare(status::WRONG_HANDLE, 0),
    };
    h.put_back(kept);
    answer
}

// Collects what is young of a heap of this edition, by a list.
fn collect_young_by_of(
    tables: &mut OldTables,
    edition: Edition,
    words: &mut [u64],
    fields: &mut [u64],
    roots: &mut [u64],
) -> Answer
    ensures { CollectsYoungByOf edition words.old words.new fields.old fields.new roots.old roots.new tables.old tables.new result }
{
    match tables.collect_young_by(edition, words, fields, roots) {
        Ok(live) => Answer::done(live),
        Err(fault) => uncollected(fault),
    }
}

// The same of the edition of this number.
fn collect_young_by_in(
    tables: &mut OldTables,
    edition: u32,
    words: &mut [u64],
    fields: &mut [u64],
    roots: &mut [u64],
) -> Answer
    ensures { CollectsYoungBy edition words.old words.new fields.old fields.new roots.old roots.new tables.old tables.new result }
{
    match edition_of(edition, true) {
        Some(found) => collect_young_by_of(tables, found, words, fields, roots),
        None => Answer::bare(status::BAD_EDITION, u64::from(edition)),
    }
}

/// Collects what is young, as `collect_young` does, by a list in place of cards: the indices of words of old objects
/// into which the mutators stored since the last collection, in any order, each maybe several times. They may be put
/// into another order, also if the call is refused. In place of few cards the refusal is a listed word that is no
/// reference and no weak word of an old object.
pub fn collect_young_by(
    alloc: Global,
    h: &mut Handle,
    edition: u32,
    words: &mut [u64],
    fields: &mut [u64],
    roots: &mut [u64],
) -> Answer
    ensures { ChangesOld (CollectsYoungBy edition words.old words.new fields.old fields.new roots.old roots.new) ((words.new ≡ words.old) × (fields.new ≡ fields.old) × (roots.new ≡ roots.old)) h.old.kept h.new.kept result }
{
    let Some(mut kept) = h.take(alloc) else {
        return Answer::bare(status::EMPTY_HANDLE, 0);
    };
    let answer = match kept.as_mut() {
        Kept::Old(tables) => collect_young_by_in(tables, edition, words, fields, roots),
        _ => Answer::bare(status::WRONG_HANDLE, 0),
    };
    h.put_back(kept);
    answer
}

// Collects what is young of a heap of this edition, and makes old what has survived two collections.
fn collect_aging_of(
    tables: &mut OldTables,
    edition: Edition,
    words: &mut [u64],
    cards: &mut [u8],
    roots: &mut [u64],
) -> Answer
    ensures { CollectsAgingOf edition words.old words.new cards.old cards.new roots.old roots.new tables.old tables.new result }
{
    match tables.collect_aging(edition, words, cards, roots) {
        Ok(live) => Answer::done(live),
        Err(fault) => uncollected(fault),
    }
}

// The same of the edition of this number.
fn collect_aging_in(
    tables: &mut OldTables,
    edition: u32,
    words: &mut [u64],
    cards: &mut [u8],
    roots: &mut [u64],
) -> Answer
    ensures { CollectsAging edition words.old words.new cards.old cards.new roots.old roots.new tables.old tables.new result }
{
    match edition_of(edition, true) {
        Some(found) => collect_aging_of(tables, found, words, cards, roots),
        None => Answer::bare(status::BAD_EDITION, u64::from(edition)),
    }
}

/// Collects as `collect_young` does, but an object becomes old when it has survived two collections: the watermark is
/// then behind those that the last collection left. The cards are made anew: just those are dirty that have a reference
/// or a weak word of an old object that does not lead below the watermark. They are one for each 64 words that the last
/// collection left, or more. If it is refused, the cards are as they were too.
pub fn collect_aging(
    alloc: Global,
    h: &mut Handle,
    edition: u32,
    words: &mut [u64],
    cards: &mut [u8],
    roots: &mut [u64],
) -> Answer
    ensures { ChangesOld (CollectsAging edition words.old words.new cards.old cards.new roots.old roots.new) ((words.new ≡ words.old) × (cards.new ≡ cards.old) × (roots.new ≡ roots.old)) h.old.kept h.new.kept result }
{
    let Some(mut kept) = h.take(alloc) else {
        return Answer::bare(status::EMPTY_HANDLE, 0);
    };
    let answer = match kept.as_mut() {
        Kept::Old(tables) => collect_aging_in(tables, edition, words, cards, roots),
        _ => Answer::bare(status::WRONG_HANDLE, 0),
    };
    h.put_back(kept);
    answer
}

// The answer of words below the watermark that are not as they have to be kept.
fn unkept(fault: OldFault) -> Answer
    ensures { result ≡ of_old fault }
{
    match fault {
        OldFault::NotARow(i) => Answer::bare(status::NOT_A_ROW, i),
        OldFault::LeadsAbove(i) => Answer::bare(status::LEADS_ABOVE, i),
    }
}

// Looks at the words of this edition below the watermark.
fn check_of(tables: &OldTables, edition: Edition, words: &[u64], cards: &[u8]) -> Answer
    ensures { ChecksOldOf edition words.now cards.now tables.now result }
{
    match tables.check(edition, words, cards) {
        Ok(()) => Answer::done(0),
        Err(fault) => unkept(fault),
    }
}

// The same of the edition of this number.
fn check_by(tables: &OldTables, edition: u32, words: &[u64], cards: &[u8]) -> Answer
    ensures { ChecksOld edition words.now cards.now tables.now result }
{
    match edition_of(edition, true) {
        Some(found) => check_of(tables, found, words, cards),
        None => Answer::bare(status::BAD_EDITION, u64::from(edition)),
    }
}

/// Whether the words below the watermark of the tables that a handle keeps are as a young collection by these cards
/// believes. For debugging: it reads all old objects. Of a card that is not handed in it takes that it is clean.
pub fn check_old(alloc: Global, h: &mut Handle, edition: u32, words: &[u64], cards: &[u8]) -> Answer
    ensures same { h.new.kept ≡ h.old.kept }
    ensures checks { Asks 0 old_in (ChecksOld edition words.now cards.now) (Unit {0}) h.old.kept result }
{
    let Some(kept) = h.take(alloc) else {
        return Answer::bare(status::EMPTY_HANDLE, 0);
    };
    let answer = match as_old(kept.as_ref()) {
        Some(tables) => check_by(tables, edition, words, cards),
        None => Answer::bare(status::WRONG_HANDLE, 0),
    };
    h.put_back(kept);
    answer
}

//! A survey of a heap at rest that grows, by handles. The words are lent at each call, and may be others then.
ghost use Rattle.std.specs.Prelude.{◌≡◌, ◌≤◌, None, Some, [], is_some, length, IfErr, IfOk, IsFalse, IsTrue};
ghost use Rattle.handle_base.specs.Answers.{bare, done, of_survey};
ghost use Rattle.rest_handle.specs.Growing.{BeginsGrowing, BeginsIn, BeginsLent, BeginsLentIn, GivesBack, Grows, GrowsByValues, GrowsIn, HasAlso, IsFresh, IsNever, IsUnbegun, IsUnbegunIn, SaysKept, SettlesGrowing};
ghost use Rattle.handle_base.specs.HandleKinds.{growing_in, room_in, tables_in, Asks, Turns, TurnsKept};
ghost use Rattle.handle_base.specs.Keeping.{IsKept};
ghost use Rattle.rest_handle.specs.Lending.{room_for};
ghost use Rattle.handle_base.specs.declared.kept.Kept.TheVariants as kinds;
ghost use Rattle.handle_base.specs.Statuses.{wrong_length};
ghost use Rattle.heap_layout.specs.Heap.{Heap};
ghost use Rattle.stopped_heap.specs.Growth.{HasGrown, HasHeld, IsGrowthFaultOf, IsGrowthHeldFaultOf};
ghost use Rattle.rest_marks.specs.Places.{IsFoundOf};
ghost use Rattle.rest_marks.specs.Reached.{IsFaultOf};
ghost use Rattle.stopped_heap.specs.Tables.{IsLentFaultOf};

use crate::helping::live_words;
use handle_base::{
    Answer, Handle, Kept, Opened, Turned, as_growing, close, into_growing, into_tables, is_full,
    keep, open, settle, status,
};
use heap_layout::{Edition, edition_of};
use std::alloc::Global;
use std::sync::Arc;
use stopped_heap::{Growth, NotGrown, NotGrowth, NotSurveyed, Places, SurveyFault, Tables};

// A survey of these words that has marked nothing.
fn fresh(alloc: Global, edition: Edition, words: &[u64]) -> Result<Growth, SurveyFault>
    ensures fresh { IfOk result (IsFresh edition words.now 0) }
    ensures fault { IfErr result (IsFaultOf edition words.now []) }
{
    Growth::begin(alloc, edition, words)
}

// Puts such a survey into the handle, which is empty.
fn begin(alloc: Global, edition: Edition, words: &[u64], out: &mut Handle) -> Answer
    requires { out.old.kept ≡ None }
    ensures { BeginsIn edition words.now out.new.kept result }
{
    match fresh(alloc, edition, words) {
        Ok(growth) => {
            if keep(alloc, out, Kept::Growing(growth)) {
                Answer::done(0)
            } else {
                Answer::unsurveyed(SurveyFault::OutOfMemory)
            }
        }
        Err(fault) => Answer::unsurveyed(fault),
    }
}

/// Begins a survey of these words, of this edition, 1 to 4, that grows: it has marked nothing, and an empty handle
/// keeps it then. It keeps nothing of the words. If it is refused, the handle stays as it is.
pub fn begin_growing(alloc: Global, edition: u32, words: &[u64], out: &mut Handle) -> Answer
    ensures { BeginsGrowing edition words.now out.old.kept out.new.kept result }
{
    if is_full(alloc, out) {
        return Answer::bare(status::NOT_EMPTY, 0);
    }
    match edition_of(edition, true) {
        Some(found) => begin(alloc, found, words, out),
        None => Answer::bare(status::BAD_EDITION, u64::from(edition)),
    }
}

// The same by these tables.
fn fresh_by(tables: Tables, edition: Edition, words: &[u64]) -> Result<Growth, NotSurveyed>
    ensures fresh { IfOk result (IsFresh edition words.now tables.room) }
    ensures fits { IfOk result (λ _. length words.now ≤ tables.room) }
    ensures fault { IfErr result (λ refused. IsLentFaultOf edition words.now [] tables.room refused.fault) }
    ensures back { IfErr result (λ refused. refused.tables ≡ tables) }
{
    Growth::begin_lent(tables, edition, words)
}

// What becomes of these tables.
fn begin_by(tables: Tables, edition: Edition, words: &[u64]) -> Turned
    ensures kept { IsKept result.kept }
    ensures gone { IsTrue result.goes → BeginsLentIn edition words.now tables (Some result.kept) result.answer }
    ensures stays { IsFalse result.goes → (result.kept ≡ kinds.Tables tables) × IsUnbegunIn edition words.now tables result.answer }
{
    match fresh_by(tables, edition, words) {
        Ok(growth) => Turned::gone(Kept::Growing(growth), 0),
        Err(refused) => {
            let answer = Answer::unlent(refused.fault);
            Turned::stays(Kept::Tables(refused.tables), answer)
        }
    }
}

// The same of the edition of this number.
fn begin_of(tables: Tables, edition: u32, words: &[u64]) -> Turned
    ensures kept { IsKept result.kept }
    ensures gone { IsTrue result.goes → BeginsLent edition words.now tables (Some result.kept) result.answer }
    ensures stays { IsFalse result.goes → (result.kept ≡ kinds.Tables tables) × IsUnbegun edition words.now tables result.answer }
{
    match edition_of(edition, true) {
        Some(found) => begin_by(tables, found, words),
        None => Turned::stays(
            Kept::Tables(tables),
            Answer::bare(status::BAD_EDITION, u64::from(edition)),
        ),
    }
}

fn begun(kept: Kept, full: bool, edition: u32, words: &[u64]) -> Turned
    requires { IsKept kept }
    ensures kept { IsKept result.kept }
    ensures free { IsTrue result.goes → IsFalse full }
    ensures turns { TurnsKept tables_in (BeginsLent edition words.now) (IsUnbegun edition words.now) full kept result.kept result.goes result.answer }
{
    let tables = match into_tables(kept) {
        Ok(tables) => tables,
        Err(kept) => return Turned::stays(kept, Answer::bare(status::WRONG_HANDLE, 0)),
    };
    if full {
        return Turned::stays(Kept::Tables(tables), Answer::bare(status::NOT_EMPTY, 1));
    }
    begin_of(tables, edition, words)
}

/// Begins such a survey by the tables that a handle keeps; another one, which was empty, keeps the survey then, and
/// that of the tables is empty. Neither this nor what grows then takes memory. If it is refused, both stay as they
/// were.
pub fn begin_growing_lent(
    alloc: Global,
    tables: &mut Handle,
    edition: u32,
    words: &[u64],
    out: &mut Handle,
) -> Answer
    ensures { Turns tables_in (BeginsLent edition words.now) (IsUnbegun edition words.now) tables.old.kept tables.new.kept out.old.kept out.new.kept result }
{
    let full = is_full(alloc, out);
    let Some(Opened { room, kept }) = open(alloc, tables) else {
        return Answer::bare(status::EMPTY_HANDLE, 0);
    };
    let turned = begun(kept, full, edition, words);
    settle(tables, out, room, turned)
}

// What a handle keeps of a survey that was to grow, and the answer.
#[derive(Drop)]
struct Left {
    kept: Kept,
    answer: Answer,
}

// It has grown, and goes on.
fn goes_on(growth: Growth) -> Left
    ensures kept { result.kept ≡ kinds.Growing growth }
    ensures answer { result.answer ≡ done (length growth.marks) }
{
    let answer = Answer::done(growth.kept());
    Left {
        kept: Kept::Growing(growth),
        answer,
    }
}

// There are not as many words as it is of, and it stays as it was.
fn stays(growth: Growth) -> Left
    ensures kept { result.kept ≡ kinds.Growing growth }
    ensures answer { result.answer ≡ bare wrong_length 0 }
{
    Left {
        kept: Kept::Growing(growth),
        answer: Answer::bare(status::WRONG_LENGTH, 0),
    }
}

// It is over, and its tables are left.
fn over(refused: NotGrown) -> Left
    ensures kept { result.kept ≡ kinds.Tables refused.tables }
    ensures answer { result.answer ≡ of_survey refused.fault }
{
    let NotGrown { fault, tables } = refused;
    Left {
        kept: Kept::Tables(tables),
        answer: Answer::unsurveyed(fault),
    }
}

// What is left of a survey that is to mark what more roots reach.
fn also(growth: Growth, words: &[u64], more: &[u64]) -> Left
    ensures kept { IsKept result.kept }
    ensures grows { GrowsIn (HasAlso words.now more.now growth) (IsGrowthFaultOf growth words.now more.now) (length words.now) growth (Some result.kept) result.answer }
{
    match growth.also(words, more) {
        Ok(growth) => goes_on(growth),
        Err(NotGrowth::WrongLength(growth)) => stays(growth),
        Err(NotGrowth::Over(refused)) => over(refused),
    }
}

// The same of what was kept.
fn also_of(kept: Kept, words: &[u64], more: &[u64]) -> Left
    requires { IsKept kept }
    ensures kept { IsKept result.kept }
    ensures grows { Grows words.now more.now (Some kept) (Some result.kept) result.answer }
{
    match into_growing(kept) {
        Ok(growth) => also(growth, words, more),
        Err(kept) => Left {
            kept,
            answer: Answer::bare(status::WRONG_HANDLE, 0),
        },
    }
}

/// Marks what more roots reach in these words, beside what the survey that a handle keeps has marked. The answer has
/// the number of objects that are kept so far. If these are not as many words as it is of, nothing was done. After
/// another refusal the survey is over, and the handle keeps its tables: there are too many roots, there is a fault, or
/// memory ran out.
pub fn grow(alloc: Global, h: &mut Handle, words: &[u64], more: &[u64]) -> Answer
    ensures { Grows words.now more.now h.old.kept h.new.kept result }
{
    let Some(Opened { room, kept }) = open(alloc, h) else {
        return Answer::bare(status::EMPTY_HANDLE, 0);
    };
    let Left { kept, answer } = also_of(kept, words, more);
    close(h, room, kept);
    answer
}

// What is left of a survey that is to keep the values of ephemerons.
fn values(growth: Growth, words: &[u64], ephemerons: &[u64]) -> Left
    ensures kept { IsKept result.kept }
    ensures grows { GrowsIn (HasHeld growth words.now ephemerons.now) (IsGrowthHeldFaultOf growth words.now ephemerons.now) (length words.now) growth (Some result.kept) result.answer }
{
    match growth.also_values(words, ephemerons) {
        Ok(growth) => goes_on(growth),
        Err(NotGrowth::WrongLength(growth)) => stays(growth),
        Err(NotGrowth::Over(refused)) => over(refused),
    }
}

// The same of what was kept.
fn values_of(kept: Kept, words: &[u64], ephemerons: &[u64]) -> Left
    requires { IsKept kept }
    ensures kept { IsKept result.kept }
    ensures grows { GrowsByValues words.now ephemerons.now (Some kept) (Some result.kept) result.answer }
{
    match into_growing(kept) {
        Ok(growth) => values(growth, words, ephemerons),
        Err(kept) => Left {
            kept,
            answer: Answer::bare(status::WRONG_HANDLE, 0),
        },
    }
}

/// Keeps the values of ephemerons, of three words each, holder, key and value, as soon as the survey that a handle
/// keeps has kept the other two. Answers and refusals are those of `grow`; a bad root is a value.
pub fn grow_by_values(alloc: Global, h: &mut Handle, words: &[u64], ephemerons: &[u64]) -> Answer
    ensures { GrowsByValues words.now ephemerons.now h.old.kept h.new.kept result }
{
    let Some(Opened { room, kept }) = open(alloc, h) else {
        return Answer::bare(status::EMPTY_HANDLE, 0);
    };
    let Left { kept, answer } = values_of(kept, words, ephemerons);
    close(h, room, kept);
    answer
}

// Says whether a word is kept so far.
fn say_kept(growth: &Growth, word: u64) -> Answer
    ensures { SaysKept word growth.now result }
{
    if growth.keeps(word) {
        Answer::done(1)
    } else {
        Answer::done(0)
    }
}

/// Whether a word leads to an object that the survey that a handle keeps has kept so far, or to none, as null and
/// immediates: 1 or 0. Takes no memory.
pub fn keeps(alloc: Global, h: &mut Handle, word: u64) -> Answer
    ensures same { h.new.kept ≡ h.old.kept }
    ensures says { Asks 0 growing_in (SaysKept word) (Unit {0}) h.old.kept result }
{
    let Some(kept) = h.take(alloc) else {
        return Answer::bare(status::EMPTY_HANDLE, 0);
    };
    let answer = match as_growing(kept.as_ref()) {
        Some(growth) => say_kept(growth, word),
        None => Answer::bare(status::WRONG_HANDLE, 0),
    };
    h.put_back(kept);
    answer
}

// What it found, or its tables if there is no memory for a share of that.
fn found_of(alloc: Global, growth: Growth) -> Result<Arc<Places>, Tables>
    ensures same { IfOk result (λ found. found.value ≡ growth) }
    ensures found { IfOk result (λ found. (heap : Heap) × IsFoundOf found.value heap) }
    ensures back { IfErr result (λ tables. tables ≡ room_for growth.room) }
{
    match Arc::new(alloc, growth.settle()) {
        Ok(found) => Ok(found),
        Err(left) => Err(left.value.into_tables()),
    }
}

/// Ends the growth of the survey that a handle keeps; another one, which was empty, keeps the survey of all that was
/// kept then, and the first one is empty. The answer has the number of live words. It takes a few bytes of memory; if
/// there are none, the survey is over, and the first handle keeps its tables.
pub fn settle_growing(alloc: Global, h: &mut Handle, survey: &mut Handle) -> Answer
    ensures { SettlesGrowing h.old.kept h.new.kept survey.old.kept survey.new.kept result }
{
    let full = is_full(alloc, survey);
    let Some(Opened { room, kept }) = open(alloc, h) else {
        return Answer::bare(status::EMPTY_HANDLE, 0);
    };
    let growth = match into_growing(kept) {
        Ok(growth) => growth,
        Err(kept) => {
            close(h, room, kept);
            return Answer::bare(status::WRONG_HANDLE, 0);
        }
    };
    if full {
        close(h, room, Kept::Growing(growth));
        return Answer::bare(status::NOT_EMPTY, 1);
    }
    match found_of(alloc, growth) {
        Ok(found) => {
            let live = live_words(&found);
            close(survey, room, Kept::Survey(found));
            Answer::done(live)
        }
        Err(tables) => {
            close(h, room, Kept::Tables(tables));
            Answer::bare(status::OUT_OF_MEMORY, 0)
        }
    }
}

// Whether there are tables to give back.
fn has_room(kept: &Kept) -> bool
    ensures { result ≡ is_some (room_in (Some kept.now)) }
{
    match kept {
        Kept::Growing(_) => true,
        Kept::Tables(_) => true,
        _ => false,
    }
}

// The tables of a survey that grows, or that it left. Err with what is kept if it is neither.
fn into_room(kept: Kept) -> Result<Tables, Kept>
    ensures tables { IfOk result (λ tables. room_in (Some kept) ≡ Some tables) }
    ensures other { IfErr result (λ left. (left ≡ kept) × (room_in (Some kept) ≡ None)) }
{
    match kept {
        Kept::Growing(growth) => Ok(growth.into_tables()),
        Kept::Tables(tables) => Ok(tables),
        other => Err(other),
    }
}

fn given_back(kept: Kept, full: bool) -> Turned
    requires { IsKept kept }
    ensures kept { IsKept result.kept }
    ensures free { IsTrue result.goes → IsFalse full }
    ensures turns { TurnsKept room_in GivesBack IsNever full kept result.kept result.goes result.answer }
{
    if full && has_room(&kept) {
        return Turned::stays(kept, Answer::bare(status::NOT_EMPTY, 1));
    }
    match into_room(kept) {
        Ok(tables) => {
            let room = tables.room() as u64;
            Turned::gone(Kept::Tables(tables), room)
        }
        Err(kept) => Turned::stays(kept, Answer::bare(status::WRONG_HANDLE, 0)),
    }
}

/// Ends the survey that a handle keeps, at any time, or takes the tables that it left when it was over; another handle,
/// which was empty, keeps the tables then, and the first one is empty. The answer has their room. Takes no memory.
pub fn return_growing(alloc: Global, h: &mut Handle, tables: &mut Handle) -> Answer
    ensures { Turns room_in GivesBack IsNever h.old.kept h.new.kept tables.old.kept tables.new.kept result }
{
    let full = is_full(alloc, tables);
    let Some(Opened { room, kept }) = open(alloc, h) else {
        return Answer::bare(status::EMPTY_HANDLE, 0);
    };
    let turned = given_back(kept, full);
    settle(h, tables, room, turned)
}

//! Tables for surveys of heaps at rest, made before, so that a collection by them takes no memory.
ghost use Rattle.std.specs.Prelude.{◌≡◌, ◌≤◌, length, IfErr, IfOk, IsFalse, IsTrue};
ghost use Rattle.handle_base.specs.Keeping.{IsKept};
ghost use Rattle.handle_base.specs.HandleKinds.{survey_in, tables_in, Asks, Fills, Turns, TurnsKept};
ghost use Rattle.rest_handle.specs.Lending.{CollectsLent, CollectsLentIn, CollectsLentInPlace, CollectsLentWithin, IsStillShared, IsUnlent, IsUnlentIn, Reserves, Returns, SurveysLent, SurveysLentIn};
ghost use Rattle.rest_handle.specs.Resting.{asked};
ghost use Rattle.handle_base.specs.declared.kept.Kept.TheVariants as kinds;
ghost use Rattle.mark_job.specs.Asked.{IsMarkedOf};
ghost use Rattle.stopped_heap.specs.Tables.{IsLentFaultOf};

use handle_base::{
    Answer, Handle, Kept, Opened, Turned, into_survey, into_tables, is_full, keep, open, settle,
    status,
};
use heap_layout::{Edition, edition_of};
use std::alloc::Global;
use std::sync::Arc;
use stopped_heap::{NotSurveyed, Places, Survey, SurveyFault, Tables};

/// Makes tables with room for a survey of so many words, and puts them into an empty handle. If memory runs out, it
/// stays empty.
pub fn reserve_tables(alloc: Global, words: u64, tables: &mut Handle) -> Answer
    ensures { Fills 0 (Reserves words) (Unit {0}) tables.old.kept tables.new.kept result }
{
    if is_full(alloc, tables) {
        return Answer::bare(status::NOT_EMPTY, 0);
    }
    let Ok(made) = Tables::reserve(alloc, words as usize) else {
        return Answer::bare(status::OUT_OF_MEMORY, 0);
    };
    if keep(alloc, tables, Kept::Tables(made)) {
        Answer::done(0)
    } else {
        Answer::bare(status::OUT_OF_MEMORY, 0)
    }
}

// Collects a heap of this edition by these tables.
fn collect_of(
    tables: &mut Tables,
    edition: Edition,
    words: &[u64],
    roots: &mut [u64],
    to: &mut [u64],
) -> Answer
    ensures same { tables.new ≡ tables.old }
    ensures collects { CollectsLentIn edition words.now roots.old roots.new to.old to.new tables.old result }
{
    match stopped_heap::collect_lent(tables, edition, words, roots, to) {
        Ok(live) => Answer::done(live),
        Err(fault) => Answer::uncollected_lent(fault),
    }
}

// The same of the edition of this number.
fn collect_by(
    tables: &mut Tables,
    edition: u32,
    words: &[u64],
    roots: &mut [u64],
    to: &mut [u64],
) -> Answer
    ensures same { tables.new ≡ tables.old }
    ensures collects { CollectsLent edition words.now roots.old roots.new to.old to.new tables.old result }
{
    match edition_of(edition, true) {
        Some(found) => collect_of(tables, found, words, roots, to),
        None => Answer::bare(status::BAD_EDITION, u64::from(edition)),
    }
}

/// Collects like `collect`, by the tables that a handle keeps, with no memory: it is never refused for want of any. If
/// the tables have room for fewer words than there are, it is refused before anything is looked at.
pub fn collect_lent(
    alloc: Global,
    h: &mut Handle,
    edition: u32,
    words: &[u64],
    roots: &mut [u64],
    to: &mut [u64],
) -> Answer
    ensures same { h.new.kept ≡ h.old.kept }
    ensures collects { Asks 0 tables_in (CollectsLent edition words.now roots.old roots.new to.old to.new) ((roots.new ≡ roots.old) × (to.new ≡ to.old)) h.old.kept result }
{
    let Some(mut kept) = h.take(alloc) else {
        return Answer::bare(status::EMPTY_HANDLE, 0);
    };
    let answer = match kept.as_mut() {
        Kept::Tables(tables) => collect_by(tables, edition, words, roots, to),
        _ => Answer::bare(status::WRONG_HANDLE, 0),
    };
    h.put_back(kept);
    answer
}

// Collects a heap of this edition within its words by these tables.
fn collect_within(
    tables: &mut Tables,
    edition: Edition,
    words: &mut [u64],
    roots: &mut [u64],
) -> Answer
    ensures same { tables.new ≡ tables.old }
    ensures collects { CollectsLentWithin edition words.old words.new roots.old roots.new tables.old result }
{
    match stopped_heap::collect_in_place_lent(tables, edition, words, roots) {
        Ok(live) => Answer::done(live),
        Err(fault) => Answer::unlent(fault),
    }
}

// The same of the edition of this number.
fn collect_home(tables: &mut Tables, edition: u32, words: &mut [u64], roots: &mut [u64]) -> Answer
    ensures same { tables.new ≡ tables.old }
    ensures collects { CollectsLentInPlace edition words.old words.new roots.old roots.new tables.old result }
{
    match edition_of(edition, true) {
        Some(found) => collect_within(tables, found, words, roots),
        None => Answer::bare(status::BAD_EDITION, u64::from(edition)),
    }
}

/// Collects like `collect_in_place`, by the tables that a handle keeps, with no memory, as `collect_lent` does.
pub fn collect_in_place_lent(
    alloc: Global,
    h: &mut Handle,
    edition: u32,
    words: &mut [u64],
    roots: &mut [u64],
) -> Answer
    ensures same { h.new.kept ≡ h.old.kept }
    ensures collects { Asks 0 tables_in (CollectsLentInPlace edition words.old words.new roots.old roots.new) ((roots.new ≡ roots.old) × (words.new ≡ words.old)) h.old.kept result }
{
    let Some(mut kept) = h.take(alloc) else {
        return Answer::bare(status::EMPTY_HANDLE, 0);
    };
    let answer = match kept.as_mut() {
        Kept::Tables(tables) => collect_home(tables, edition, words, roots),
        _ => Answer::bare(status::WRONG_HANDLE, 0),
    };
    h.put_back(kept);
    answer
}

// What a survey by tables that are lent finds.
fn found_by_tables(
    tables: Tables,
    edition: Edition,
    words: &[u64],
    roots: &[u64],
) -> Result<Places, NotSurveyed>
    ensures found { IfOk result (IsMarkedOf (asked edition words.now roots.now)) }
    ensures room { IfOk result (λ found. found.room ≡ tables.room) }
    ensures fits { IfOk result (λ _. length words.now ≤ tables.room) }
    ensures fault { IfErr result (λ refused. IsLentFaultOf edition words.now roots.now tables.room refused.fault) }
    ensures back { IfErr result (λ refused. refused.tables ≡ tables) }
{
    match Survey::of_lent(tables, edition, words, roots) {
        Ok(survey) => Ok(survey.release()),
        Err(refused) => Err(refused),
    }
}

// Surveys a heap of this edition by these tables.
fn survey_of(
    alloc: Global,
    tables: Tables,
    edition: Edition,
    words: &[u64],
    roots: &[u64],
) -> Turned
    ensures kept { IsKept result.kept }
    ensures gone { IsTrue result.goes → SurveysLentIn (asked edition words.now roots.now) tables (Some result.kept) result.answer }
    ensures stays { IsFalse result.goes → (result.kept ≡ kinds.Tables tables) × IsUnlentIn (asked edition words.now roots.now) tables result.answer }
{
    let found = match found_by_tables(tables, edition, words, roots) {
        Ok(found) => found,
        Err(refused) => {
            let answer = Answer::unlent(refused.fault);
            return Turned::stays(Kept::Tables(refused.tables), answer);
        }
    };
    let live = found.live_words();
    match Arc::new(alloc, found) {
        Ok(found) => Turned::gone(Kept::Survey(found), live),
        Err(left) => {
            let answer = Answer::unsurveyed(SurveyFault::OutOfMemory);
            Turned::stays(Kept::Tables(left.value.into_tables()), answer)
        }
    }
}

// The same of the edition of this number.
fn survey_by(alloc: Global, tables: Tables, edition: u32, words: &[u64], roots: &[u64]) -> Turned
    ensures kept { IsKept result.kept }
    ensures gone { IsTrue result.goes → SurveysLent edition words.now roots.now tables (Some result.kept) result.answer }
    ensures stays { IsFalse result.goes → (result.kept ≡ kinds.Tables tables) × IsUnlent edition words.now roots.now tables result.answer }
{
    match edition_of(edition, true) {
        Some(found) => survey_of(alloc, tables, found, words, roots),
        None => Turned::stays(
            Kept::Tables(tables),
            Answer::bare(status::BAD_EDITION, u64::from(edition)),
        ),
    }
}

fn surveyed(
    alloc: Global,
    kept: Kept,
    full: bool,
    edition: u32,
    words: &[u64],
    roots: &[u64],
) -> Turned
    requires { IsKept kept }
    ensures kept { IsKept result.kept }
    ensures free { IsTrue result.goes → IsFalse full }
    ensures turns { TurnsKept tables_in (SurveysLent edition words.now roots.now) (IsUnlent edition words.now roots.now) full kept result.kept result.goes result.answer }
{
    let tables = match into_tables(kept) {
        Ok(tables) => tables,
        Err(kept) => return Turned::stays(kept, Answer::bare(status::WRONG_HANDLE, 0)),
    };
    if full {
        return Turned::stays(Kept::Tables(tables), Answer::bare(status::NOT_EMPTY, 1));
    }
    survey_by(alloc, tables, edition, words, roots)
}

/// Surveys like `survey_by_roots`, by the tables that a handle keeps; another one, which was empty, keeps the survey
/// then, and that of the tables is empty. It takes a few bytes of memory, for the handle, and none by the size of the
/// heap; that there are none is answered only if the tables have room for the heap, and it has no fault. If it is
/// refused, both stay as they were.
pub fn survey_lent(
    alloc: Global,
    tables: &mut Handle,
    edition: u32,
    words: &[u64],
    roots: &[u64],
    survey: &mut Handle,
) -> Answer
    ensures { Turns tables_in (SurveysLent edition words.now roots.now) (IsUnlent edition words.now roots.now) tables.old.kept tables.new.kept survey.old.kept survey.new.kept result }
{
    let full = is_full(alloc, survey);
    let Some(Opened { room, kept }) = open(alloc, tables) else {
        return Answer::bare(status::EMPTY_HANDLE, 0);
    };
    let turned = surveyed(alloc, kept, full, edition, words, roots);
    settle(tables, survey, room, turned)
}

fn returned(kept: Kept, full: bool) -> Turned
    requires { IsKept kept }
    ensures kept { IsKept result.kept }
    ensures free { IsTrue result.goes → IsFalse full }
    ensures turns { TurnsKept survey_in Returns IsStillShared full kept result.kept result.goes result.answer }
{
    let survey = match into_survey(kept) {
        Ok(survey) => survey,
        Err(kept) => return Turned::stays(kept, Answer::bare(status::WRONG_HANDLE, 0)),
    };
    if full {
        return Turned::stays(Kept::Survey(survey), Answer::bare(status::NOT_EMPTY, 1));
    }
    match Arc::try_unwrap(survey) {
        Ok(places) => {
            let tables = places.into_tables();
            let room = tables.room() as u64;
            Turned::gone(Kept::Tables(tables), room)
        }
        Err(survey) => Turned::stays(Kept::Survey(survey), Answer::bare(status::STILL_SHARED, 0)),
    }
}

/// Ends the survey that a handle keeps; another one, which was empty, keeps the tables then in which it was made, and
/// that of the survey is empty. The answer has their room. If another handle keeps a share of the survey, both stay as
/// they were. Takes no memory.
pub fn return_tables(alloc: Global, survey: &mut Handle, tables: &mut Handle) -> Answer
    ensures { Turns survey_in Returns IsStillShared survey.old.kept survey.new.kept tables.old.kept tables.new.kept result }
{
    let full = is_full(alloc, tables);
    let Some(Opened { room, kept }) = open(alloc, survey) else {
        return Answer::bare(status::EMPTY_HANDLE, 0);
    };
    let turned = returned(kept, full);
    settle(survey, tables, room, turned)
}

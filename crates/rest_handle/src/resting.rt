//! A heap at rest, in memory of the caller: it is collected, or surveyed, and slides by the survey that a handle keeps.
ghost use Rattle.std.specs.Prelude.{◌≡◌, ◌⊎◌, None, Some, IfErr, IfOk, IsFalse, IsTrue};
ghost use Rattle.handle_base.specs.Answers.{bare};
ghost use Rattle.handle_base.specs.HandleKinds.{survey_in, Asks};
ghost use Rattle.rest_handle.specs.Resting.{asked, nulls, Collects, CollectsIn, CollectsInPlace, CollectsWithin, CountsSurvey, ForwardsRoots, ForwardsWeak, IsTakenOf, RefusesMarks, Slides, Surveys, SurveysByMarks, SurveysByRoots, TakesMarks};
ghost use Rattle.handle_base.specs.Sharing.{IsUnsharedIn, Shares};
ghost use Rattle.handle_base.specs.Statuses.{not_empty, out_of_memory};
ghost use Rattle.mark_job.specs.Asked.{IsMarkedOf};
ghost use Rattle.rest_marks.specs.Reached.{IsFaultOf};

use handle_base::{Answer, Handle, Kept, as_survey, is_full, keep, status};
use heap_layout::{Edition, edition_of};
use std::alloc::Global;
use std::sync::Arc;
use stopped_heap::{MarksFault, Places, Survey, SurveyFault};

// Collects a heap of this edition.
fn collect_of(
    alloc: Global,
    edition: Edition,
    words: &[u64],
    roots: &mut [u64],
    to: &mut [u64],
) -> Answer
    ensures { CollectsIn edition words.now roots.old roots.new to.old to.new result }
{
    match stopped_heap::collect(alloc, edition, words, roots, to) {
        Ok(live) => Answer::done(live),
        Err(fault) => Answer::uncollected(fault),
    }
}

/// Collects the heap of these words and roots, of this edition, 1 to 4: slides what the roots reach to the beginning of
/// `to`, and makes the roots lead there. The answer has the number of live words. If it is refused, neither the roots
/// nor `to` have changed.
pub fn collect(
    alloc: Global,
    edition: u32,
    words: &[u64],
    roots: &mut [u64],
    to: &mut [u64],
) -> Answer
    ensures { Collects edition words.now roots.old roots.new to.old to.new result }
{
    match edition_of(edition, true) {
        Some(found) => collect_of(alloc, found, words, roots, to),
        None => Answer::bare(status::BAD_EDITION, u64::from(edition)),
    }
}

// Collects a heap of this edition within its words.
fn collect_within(alloc: Global, edition: Edition, words: &mut [u64], roots: &mut [u64]) -> Answer
    ensures { CollectsWithin edition words.old words.new roots.old roots.new result }
{
    match stopped_heap::collect_in_place(alloc, edition, words, roots) {
        Ok(live) => Answer::done(live),
        Err(fault) => Answer::unsurveyed(fault),
    }
}

/// Collects the heap of these words and roots within the words, as `collect` does with no second memory: the live words
/// are the first ones then, and the answer has their number. If it is refused, neither words nor roots have changed.
pub fn collect_in_place(alloc: Global, edition: u32, words: &mut [u64], roots: &mut [u64]) -> Answer
    ensures { CollectsInPlace edition words.old words.new roots.old roots.new result }
{
    match edition_of(edition, true) {
        Some(found) => collect_within(alloc, found, words, roots),
        None => Answer::bare(status::BAD_EDITION, u64::from(edition)),
    }
}

/// Puts what was found into the handle, which is empty. If there is no memory, the answer is false.
pub(crate) fn keep_found(alloc: Global, out: &mut Handle, found: Places) -> bool
    requires { out.old.kept ≡ None }
    ensures kept { IsTrue result → survey_in out.new.kept ≡ Some found }
    ensures empty { IsFalse result → out.new.kept ≡ None }
{
    match Arc::new(alloc, found) {
        Ok(found) => keep(alloc, out, Kept::Survey(found)),
        Err(_) => false,
    }
}

// What a survey by roots finds.
fn found_by_roots(
    alloc: Global,
    edition: Edition,
    words: &[u64],
    roots: &[u64],
) -> Result<Places, SurveyFault>
    ensures found { IfOk result (IsMarkedOf (asked edition words.now roots.now)) }
    ensures fault { IfErr result (IsFaultOf edition words.now roots.now) }
{
    let survey = Survey::of(alloc, edition, words, roots)?;
    Ok(survey.release())
}

// Surveys a heap of this edition by its roots. The handle is empty before.
fn survey_roots(
    alloc: Global,
    edition: Edition,
    words: &[u64],
    roots: &[u64],
    out: &mut Handle,
) -> Answer
    requires { out.old.kept ≡ None }
    ensures { Surveys (asked edition words.now roots.now) out.new.kept result }
{
    let found = match found_by_roots(alloc, edition, words, roots) {
        Ok(found) => found,
        Err(fault) => return Answer::unsurveyed(fault),
    };
    let live = found.live_words();
    if keep_found(alloc, out, found) {
        Answer::done(live)
    } else {
        Answer::unsurveyed(SurveyFault::OutOfMemory)
    }
}

/// Surveys the heap of these words and roots, of this edition, 1 to 4: finds what the roots reach, and where it slides,
/// and puts that into an empty handle. The answer has the number of live words. It keeps nothing of the words. If it is
/// refused, the handle stays as it is.
pub fn survey_by_roots(
    alloc: Global,
    edition: u32,
    words: &[u64],
    roots: &[u64],
    out: &mut Handle,
) -> Answer
    ensures { SurveysByRoots edition words.now roots.now out.old.kept out.new.kept result }
{
    if is_full(alloc, out) {
        return Answer::bare(status::NOT_EMPTY, 0);
    }
    match edition_of(edition, true) {
        Some(found) => survey_roots(alloc, found, words, roots, out),
        None => Answer::bare(status::BAD_EDITION, u64::from(edition)),
    }
}

// What a survey by marks finds.
fn found_by_marks(
    alloc: Global,
    edition: Edition,
    words: &[u64],
    roots: &[u64],
    marks: &[u64],
) -> Result<Places, MarksFault>
    ensures found { IfOk result (IsTakenOf (asked edition words.now roots.now) marks.now) }
    ensures fault { IfErr result (RefusesMarks (asked edition words.now roots.now) marks.now) }
{
    if marks.len() != words.len().div_ceil(64) {
        return Err(MarksFault::WrongLength);
    }
    let survey = Survey::of_marks(alloc, edition, words, roots, marks)?;
    Ok(survey.release())
}

// Surveys a heap of this edition by these marks. The handle is empty before.
fn survey_marks(
    alloc: Global,
    edition: Edition,
    words: &[u64],
    roots: &[u64],
    marks: &[u64],
    out: &mut Handle,
) -> Answer
    requires { out.old.kept ≡ None }
    ensures { TakesMarks (asked edition words.now roots.now) marks.now out.new.kept result }
{
    let found = match found_by_marks(alloc, edition, words, roots, marks) {
        Ok(found) => found,
        Err(fault) => return Answer::unmarked(fault),
    };
    let live = found.live_words();
    if keep_found(alloc, out, found) {
        Answer::done(live)
    } else {
        Answer::unmarked(MarksFault::OutOfMemory)
    }
}

/// Surveys by marks of the caller's own, a bit for each word, as `survey_by_roots` does by roots: marked are the
/// objects at the bits that are set. Each root, and each reference of a marked object, must lead to a marked object.
pub fn survey_by_marks(
    alloc: Global,
    edition: u32,
    words: &[u64],
    roots: &[u64],
    marks: &[u64],
    out: &mut Handle,
) -> Answer
    ensures { SurveysByMarks edition words.now roots.now marks.now out.old.kept out.new.kept result }
{
    if is_full(alloc, out) {
        return Answer::bare(status::NOT_EMPTY, 0);
    }
    match edition_of(edition, true) {
        Some(found) => survey_marks(alloc, found, words, roots, marks, out),
        None => Answer::bare(status::BAD_EDITION, u64::from(edition)),
    }
}

/// The counts of a survey, as C sees them.
#[repr(C)]
#[derive(Clone, Copy, Debug, PartialEq, Eq)]
pub struct SurveyFacts {
    /// The words of the live objects.
    pub live_words: u64,
}

// Copies the counts of a survey.
fn count(places: &Arc<Places>, out: &mut SurveyFacts) -> Answer
    ensures { CountsSurvey out.new places.now.value result }
{
    *out = SurveyFacts {
        live_words: (&**places).live_words(),
    };
    Answer::done(0)
}

/// Copies the counts of the survey that a handle keeps. Takes no memory.
pub fn survey_facts(alloc: Global, h: &mut Handle, out: &mut SurveyFacts) -> Answer
    ensures same { h.new.kept ≡ h.old.kept }
    ensures counts { Asks 0 survey_in (CountsSurvey out.new) (out.new ≡ out.old) h.old.kept result }
{
    let Some(kept) = h.take(alloc) else {
        return Answer::bare(status::EMPTY_HANDLE, 0);
    };
    let answer = match as_survey(kept.as_ref()) {
        Some(places) => count(places, out),
        None => Answer::bare(status::WRONG_HANDLE, 0),
    };
    h.put_back(kept);
    answer
}

// A share of a survey, for a handle that is full or not.
fn share(places: &Arc<Places>, full: bool) -> Result<Arc<Places>, Answer>
    ensures same { IfOk result (λ own. own.value ≡ places.now.value) }
    ensures free { IfOk result (λ _. IsFalse full) }
    ensures none { IfErr result (λ a. (IsTrue full × (a ≡ bare not_empty 1)) ⊎ (IsFalse full × (a ≡ bare out_of_memory 0))) }
{
    if full {
        return Err(Answer::bare(status::NOT_EMPTY, 1));
    }
    match Arc::try_clone(places) {
        Ok(own) => Ok(own),
        Err(_) => Err(Answer::bare(status::OUT_OF_MEMORY, 0)),
    }
}

// The same of the survey that the handle keeps, which stays as it is.
fn share_of(alloc: Global, h: &mut Handle, full: bool) -> Result<Arc<Places>, Answer>
    ensures same { h.new.kept ≡ h.old.kept }
    ensures own { IfOk result (λ own. survey_in h.old.kept ≡ Some own.value) }
    ensures free { IfOk result (λ _. IsFalse full) }
    ensures none { IfErr result (IsUnsharedIn survey_in full h.old.kept) }
{
    let Some(kept) = h.take(alloc) else {
        return Err(Answer::bare(status::EMPTY_HANDLE, 0));
    };
    let own = match as_survey(kept.as_ref()) {
        Some(places) => share(places, full),
        None => Err(Answer::bare(status::WRONG_HANDLE, 0)),
    };
    h.put_back(kept);
    own
}

/// Puts another share of the survey that a handle keeps into an empty handle, for another thread. If memory runs out,
/// it stays empty.
pub fn share_survey(alloc: Global, h: &mut Handle, other: &mut Handle) -> Answer
    ensures same { h.new.kept ≡ h.old.kept }
    ensures shares { Shares survey_in h.old.kept other.old.kept other.new.kept result }
{
    let full = is_full(alloc, other);
    match share_of(alloc, h, full) {
        Ok(own) => {
            if keep(alloc, other, Kept::Survey(own)) {
                Answer::done(0)
            } else {
                Answer::bare(status::OUT_OF_MEMORY, 0)
            }
        }
        Err(answer) => answer,
    }
}

// Fills a part by a survey.
fn slide(places: &Arc<Places>, words: &[u64], first: u64, part: &mut [u64]) -> Answer
    ensures { Slides words.now first part.old part.new places.now.value result }
{
    match (&**places).try_slide(words, first, part) {
        Ok(()) => Answer::done(0),
        Err(fault) => Answer::unslid(fault),
    }
}

/// Fills a part of the memory into which the heap slides by the survey that a handle keeps, from word `first` on, with
/// the words of the objects as they are in these words now. It is safe for any words, and writes nothing but the part.
/// After a refusal for another number of words, or since the part ends behind the live words, the part is as it was;
/// after the other ones it has any words.
pub fn slide_survey(
    alloc: Global,
    h: &mut Handle,
    words: &[u64],
    first: u64,
    part: &mut [u64],
) -> Answer
    ensures same { h.new.kept ≡ h.old.kept }
    ensures slides { Asks 0 survey_in (Slides words.now first part.old part.new) (part.new ≡ part.old) h.old.kept result }
{
    let Some(kept) = h.take(alloc) else {
        return Answer::bare(status::EMPTY_HANDLE, 0);
    };
    let answer = match as_survey(kept.as_ref()) {
        Some(places) => slide(places, words, first, part),
        None => Answer::bare(status::WRONG_HANDLE, 0),
    };
    h.put_back(kept);
    answer
}

// Forwards roots by a survey.
fn forward(places: &Arc<Places>, roots: &mut [u64]) -> Answer
    ensures { ForwardsRoots roots.old roots.new places.now.value result }
{
    match (&**places).forward_roots(roots) {
        Ok(()) => Answer::done(0),
        Err(k) => Answer::bare(status::BAD_ROOT, k as u64),
    }
}

/// Makes these roots lead to where their objects are after the collection, by the survey that a handle keeps. If one is
/// neither null nor the address of a live object, nor an immediate, the answer has the number of the first such one,
/// and the roots are as they were. Roots are forwarded once.
pub fn forward_survey(alloc: Global, h: &mut Handle, roots: &mut [u64]) -> Answer
    ensures same { h.new.kept ≡ h.old.kept }
    ensures forwards { Asks 0 survey_in (ForwardsRoots roots.old roots.new) (roots.new ≡ roots.old) h.old.kept result }
{
    let Some(kept) = h.take(alloc) else {
        return Answer::bare(status::EMPTY_HANDLE, 0);
    };
    let answer = match as_survey(kept.as_ref()) {
        Some(places) => forward(places, roots),
        None => Answer::bare(status::WRONG_HANDLE, 0),
    };
    h.put_back(kept);
    answer
}

// How many of these words are null.
fn count_nulls(words: &[u64]) -> u64
    ensures { result ≡ nulls words.now }
{
    let mut count = 0;
    for k in 0..words.len() {
        if words[k] == 0 {
            count += 1;
        }
    }
    count
}

// Forwards weak words by a survey.
fn forward_lost(places: &Arc<Places>, words: &mut [u64]) -> Answer
    ensures { ForwardsWeak words.old words.new places.now.value result }
{
    let before = count_nulls(words);
    (&**places).forward_weak(words);
    Answer::done(count_nulls(words).saturating_sub(before))
}

/// Makes these weak words, of tables of the caller's own, lead to where their objects are after the collection, by the
/// survey that a handle keeps. One that leads to no live object becomes null; answers how many became so.
pub fn forward_weak(alloc: Global, h: &mut Handle, words: &mut [u64]) -> Answer
    ensures same { h.new.kept ≡ h.old.kept }
    ensures forwards { Asks 0 survey_in (ForwardsWeak words.old words.new) (words.new ≡ words.old) h.old.kept result }
{
    let Some(kept) = h.take(alloc) else {
        return Answer::bare(status::EMPTY_HANDLE, 0);
    };
    let answer = match as_survey(kept.as_ref()) {
        Some(places) => forward_lost(places, words),
        None => Answer::bare(status::WRONG_HANDLE, 0),
    };
    h.put_back(kept);
    answer
}

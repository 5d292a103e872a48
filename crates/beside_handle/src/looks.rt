//! A marking of a heap while its threads go on, by handles: how it begins, what waits, and how it ends.
ghost use Rattle.std.specs.Prelude.{◌≡◌, ◌≤◌, None, length, IfErr, IfOk};
ghost use Rattle.handle_base.specs.HandleKinds.{looks_in, Asks};
ghost use Rattle.beside_handle.specs.Lanes.{of_check, Checks};
ghost use Rattle.beside_handle.specs.Looks.{BeginsLooks, BeginsOf, CopiesWaiting, EndsIn, EndsLooks, IsBeginFault, IsBegun, IsEnded, IsUnended, SaysWaiting};
ghost use Rattle.heap_layout.specs.Limits.{most_roots, most_words};

use handle_base::{
    Answer, Handle, Kept, Opened, as_looks, close, into_looks, is_full, keep, open, status,
};
use heap_layout::{Edition, edition_of};
use rest_handle::{live_words, untaken};
use std::alloc::Global;
use std::sync::Arc;
use stopped_heap::{CheckFault, FinishFault, Looks, Places, SurveyFault};

// A marking that begins with these roots.
fn looks_of(
    alloc: Global,
    edition: Edition,
    count: u64,
    roots: &[u64],
) -> Result<Looks, SurveyFault>
    ensures begun { IfOk result (IsBegun edition count roots.now) }
    ensures few { IfOk result (λ _. (count ≤ most_words edition) × (length roots.now ≤ most_roots edition)) }
    ensures fault { IfErr result (IsBeginFault edition count roots.now) }
{
    if count > edition.max_words() as u64 || roots.len() > edition.max_roots() {
        return Err(SurveyFault::TooLarge);
    }
    Looks::begin(alloc, edition, count as usize, roots)
}

/// Says whether an object waits to be looked at.
pub(crate) fn say_waiting(looks: &Looks) -> Answer
    ensures { SaysWaiting looks.now result }
{
    match looks.waiting() {
        Some(_) => Answer::done(1),
        None => Answer::done(0),
    }
}

// Puts such a marking into the handle, which is empty, if the edition of number `n` has no short objects.
fn begin(
    alloc: Global,
    n: u32,
    edition: Edition,
    count: u64,
    roots: &[u64],
    out: &mut Handle,
) -> Answer
    requires { out.old.kept ≡ None }
    ensures { BeginsOf n count roots.now out.new.kept result edition }
{
    if edition.max_object_words() < edition.max_words() {
        return Answer::bare(status::BAD_EDITION, u64::from(n));
    }
    match looks_of(alloc, edition, count, roots) {
        Ok(looks) => {
            let answer = say_waiting(&looks);
            if keep(alloc, out, Kept::Looks(looks)) {
                answer
            } else {
                Answer::unsurveyed(SurveyFault::OutOfMemory)
            }
        }
        Err(fault) => Answer::unsurveyed(fault),
    }
}

/// Begins to mark what these roots reach, in a heap of this edition, 3 or 4, and of `count` words, while its threads go
/// on; an empty handle keeps the marking then. No word of the heap is looked at: the caller hands in those of one
/// object after the other. The answer is 1 if one waits, else 0. If it is refused, the handle stays as it is.
pub fn begin_looks(
    alloc: Global,
    edition: u32,
    count: u64,
    roots: &[u64],
    out: &mut Handle,
) -> Answer
    ensures { BeginsLooks edition count roots.now out.old.kept out.new.kept result }
{
    if is_full(alloc, out) {
        return Answer::bare(status::NOT_EMPTY, 0);
    }
    match edition_of(edition, true) {
        Some(found) => begin(alloc, edition, found, count, roots, out),
        None => Answer::bare(status::BAD_EDITION, u64::from(edition)),
    }
}

// Copies the indices of objects that wait.
fn copy(looks: &Looks, indices: &mut [u64]) -> Answer
    ensures { CopiesWaiting indices.old indices.new looks.now result }
{
    Answer::done(looks.waiting_in(indices) as u64)
}

/// Copies the indices of the objects that wait to be looked at, the next one first, as many as there is room for. The
/// answer has their number. Takes no memory.
pub fn waiting_looks(alloc: Global, h: &mut Handle, indices: &mut [u64]) -> Answer
    ensures same { h.new.kept ≡ h.old.kept }
    ensures copies { Asks 0 looks_in (CopiesWaiting indices.old indices.new) (indices.new ≡ indices.old) h.old.kept result }
{
    let Some(kept) = h.take(alloc) else {
        return Answer::bare(status::EMPTY_HANDLE, 0);
    };
    let answer = match as_looks(kept.as_ref()) {
        Some(looks) => copy(looks, indices),
        None => Answer::bare(status::WRONG_HANDLE, 0),
    };
    h.put_back(kept);
    answer
}

// The answer of objects that are not as they must be.
fn unsound(fault: CheckFault) -> Answer
    ensures { result ≡ of_check fault }
{
    match fault {
        CheckFault::WrongLength => Answer::bare(status::WRONG_LENGTH, 0),
        CheckFault::Changed(i) => Answer::bare(status::CHANGED, i),
        CheckFault::Unmarked(i) => Answer::bare(status::UNMARKED, i),
        CheckFault::BadWeak(i) => Answer::bare(status::BAD_WEAK, i),
        CheckFault::Unowned(i) => Answer::bare(status::NOT_A_RUN, i),
        CheckFault::OutOfMemory => Answer::bare(status::OUT_OF_MEMORY, 0),
    }
}

// Asks of all objects that were looked at.
fn check(alloc: Global, looks: &Looks, words: &[u64]) -> Answer
    ensures { Checks words.now looks.now result }
{
    match looks.check(alloc, words) {
        Ok(()) => Answer::done(0),
        Err(fault) => unsound(fault),
    }
}

/// Asks of all objects at which a marking looked, at once, whether they are in these words as they must be. For
/// debugging: it believes nothing that was said of cards or barriers.
pub fn check_looks(alloc: Global, h: &mut Handle, words: &[u64]) -> Answer
    ensures same { h.new.kept ≡ h.old.kept }
    ensures checks { Asks 0 looks_in (Checks words.now) (Unit {0}) h.old.kept result }
{
    let Some(kept) = h.take(alloc) else {
        return Answer::bare(status::EMPTY_HANDLE, 0);
    };
    let answer = match as_looks(kept.as_ref()) {
        Some(looks) => check(alloc, looks, words),
        None => Answer::bare(status::WRONG_HANDLE, 0),
    };
    h.put_back(kept);
    answer
}

// What a marking found of which nothing waits, or why it found nothing.
fn found_by(alloc: Global, looks: Looks, roots: &[u64]) -> Result<Arc<Places>, Answer>
    requires { length looks.met ≤ looks.looked }
    ensures ended { IfOk result (λ found. IsEnded looks roots.now found.value) }
    ensures why { IfErr result (IsUnended looks roots.now) }
{
    let found = match looks.finish(alloc, roots) {
        Ok(found) => found,
        Err(FinishFault::StillWaiting) => return Err(Answer::bare(status::STILL_WAITING, 0)),
        Err(FinishFault::Bits(fault)) => return Err(untaken(0, fault)),
    };
    match Arc::new(alloc, found) {
        Ok(found) => Ok(found),
        Err(_) => Err(Answer::bare(status::OUT_OF_MEMORY, 0)),
    }
}

// Ends a marking of which nothing waits, and puts what it found into the handle, which is empty, by this box.
fn end(alloc: Global, looks: Looks, roots: &[u64], room: Box<Kept>, survey: &mut Handle) -> Answer
    requires empty { survey.old.kept ≡ None }
    requires whole { length looks.met ≤ looks.looked }
    ensures { EndsIn roots.now looks survey.new.kept result }
{
    match found_by(alloc, looks, roots) {
        Ok(found) => {
            let live = live_words(&found);
            close(survey, room, Kept::Survey(found));
            Answer::done(live)
        }
        Err(answer) => answer,
    }
}

/// Ends the marking that a handle keeps, once no object waits, with the roots as they are now; another one, which was
/// empty, keeps the survey then, and that of the marking is empty. The answer has the number of live words. No word of
/// the heap is looked at. While objects wait, both keep what they kept, and the answer has the index of the next one.
/// If it is refused for another reason, the marking is gone all the same, and nothing is kept.
pub fn finish_looks(alloc: Global, looks: &mut Handle, roots: &[u64], survey: &mut Handle) -> Answer
    ensures { EndsLooks roots.now looks.old.kept looks.new.kept survey.old.kept survey.new.kept result }
{
    let full = is_full(alloc, survey);
    let Some(Opened { room, kept }) = open(alloc, looks) else {
        return Answer::bare(status::EMPTY_HANDLE, 0);
    };
    let own = match into_looks(kept) {
        Ok(own) => own,
        Err(kept) => {
            close(looks, room, kept);
            return Answer::bare(status::WRONG_HANDLE, 0);
        }
    };
    if full {
        close(looks, room, Kept::Looks(own));
        return Answer::bare(status::NOT_EMPTY, 1);
    }
    if let Some(i) = own.waiting() {
        close(looks, room, Kept::Looks(own));
        return Answer::bare(status::STILL_WAITING, i as u64);
    }
    end(alloc, own, roots, room, survey)
}

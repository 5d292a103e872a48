//! The marking of a heap by many threads, by handles: any threads help, each by a share of its own, and lend the words
//! at each call.
ghost use Rattle.std.specs.Prelude.{◌≡◌, ◌⊎◌, None, Some, length, IfErr, IfOk, IsFalse, IsTrue, MatchOption};
ghost use Rattle.handle_base.specs.Answers.{bare};
ghost use Rattle.handle_base.specs.HandleKinds.{marking_in, Asks, Turns};
ghost use Rattle.handle_base.specs.Keeping.{IsKept};
ghost use Rattle.handle_base.specs.Knowing.{knowing, knows, IsOwnMet};
ghost use Rattle.rest_handle.specs.Lending.{IsStillShared};
ghost use Rattle.beside_handle.specs.Marking.{of_begin, of_ending, of_meeting, BeginsMarking, BeginsMarkingOf, EndsMarking, HelpsMarking, IsBegunWith, IsFoundBy, IsUnendedMarking, KnowsBegun, Meets, MeetsMarking, SharesMarking};
ghost use Rattle.handle_base.specs.Sharing.{IsUnsharedIn};
ghost use Rattle.handle_base.specs.Statuses.{not_empty, out_of_memory};
ghost use Rattle.mark_job.specs.Marking.{IsBeginFaultOf, IsEndFaultOf};

use handle_base::{
    Answer, Handle, Kept, Marker, Opened, as_marking, close, into_marking, is_full, keep, open,
    status,
};
use heap_layout::{Edition, edition_of};
use mark_job::{Help, Marking, MarkingEnd, MarkingFault, MeetFault, Met, WrongLength};
use rest_handle::{live_words, untaken};
use std::alloc::Global;
use std::sync::Arc;
use stopped_heap::Places;

// The answer of a marking of a heap of edition `n` that does not begin.
fn unbegun(n: u32, fault: MarkingFault) -> Answer
    ensures { result ≡ of_begin n fault }
{
    match fault {
        MarkingFault::TooLarge => Answer::bare(status::TOO_LARGE, 0),
        MarkingFault::ShortObjects => Answer::bare(status::BAD_EDITION, u64::from(n)),
        MarkingFault::BadRoot(k) => Answer::bare(status::BAD_ROOT, k),
        MarkingFault::OutOfMemory => Answer::bare(status::OUT_OF_MEMORY, 0),
    }
}

// The first share of a marking that begins with these roots.
fn marker_of(
    alloc: Global,
    edition: Edition,
    count: u64,
    roots: &[u64],
) -> Result<Marker, MarkingFault>
    ensures begun { IfOk result (λ marker. IsBegunWith edition count roots.now marker.marking.value) }
    ensures knows { IfOk result (λ marker. KnowsBegun marker.marking.value (knowing marker)) }
    ensures own { IfOk result (λ marker. IsOwnMet (knowing marker)) }
    ensures fault { IfErr result (IsBeginFaultOf edition count roots.now) }
{
    let marking = Marking::begin(alloc, edition, count as usize, roots)?;
    let met = marking.enter();
    match Arc::new(alloc, marking) {
        Ok(marking) => Ok(Marker { marking, met }),
        Err(_) => Err(MarkingFault::OutOfMemory),
    }
}

// Puts it into the handle, which is empty, or answers why the marking does not begin. The edition has number `n`.
fn begin(
    alloc: Global,
    n: u32,
    edition: Edition,
    count: u64,
    roots: &[u64],
    out: &mut Handle,
) -> Answer
    requires { out.old.kept ≡ None }
    ensures { BeginsMarkingOf n count roots.now out.new.kept result edition }
{
    match marker_of(alloc, edition, count, roots) {
        Ok(marker) => {
            if keep(alloc, out, Kept::Marking(marker)) {
                Answer::done(0)
            } else {
                unbegun(n, MarkingFault::OutOfMemory)
            }
        }
        Err(fault) => unbegun(n, fault),
    }
}

/// Begins to mark what these roots reach, in a heap of this edition, 3 or 4, and of `count` words, by many threads; an
/// empty handle keeps the first share of the marking then. No word of the heap is copied, or looked at. If it is
/// refused, the handle stays as it is.
pub fn begin_marking(
    alloc: Global,
    edition: u32,
    count: u64,
    roots: &[u64],
    out: &mut Handle,
) -> Answer
    ensures { BeginsMarking edition count roots.now out.old.kept out.new.kept result }
{
    if is_full(alloc, out) {
        return Answer::bare(status::NOT_EMPTY, 0);
    }
    match edition_of(edition, true) {
        Some(found) => begin(alloc, edition, found, count, roots, out),
        None => Answer::bare(status::BAD_EDITION, u64::from(edition)),
    }
}

// Another share of a marking, for a handle that is full or not.
fn share(marker: &Marker, full: bool) -> Result<Marker, Answer>
    ensures knows { IfOk result (λ own. KnowsBegun marker.now.marking.value (knowing own)) }
    ensures own { IfOk result (λ own. IsOwnMet (knowing own)) }
    ensures free { IfOk result (λ _. IsFalse full) }
    ensures none { IfErr result (λ a. (IsTrue full × (a ≡ bare not_empty 1)) ⊎ (IsFalse full × (a ≡ bare out_of_memory 0))) }
{
    if full {
        return Err(Answer::bare(status::NOT_EMPTY, 1));
    }
    match Arc::try_clone(&marker.marking) {
        Ok(marking) => {
            let met = (&*marking).enter();
            Ok(Marker { marking, met })
        }
        Err(_) => Err(Answer::bare(status::OUT_OF_MEMORY, 0)),
    }
}

// The same of the marking that the handle keeps, which stays as it is.
fn share_of(alloc: Global, h: &mut Handle, full: bool) -> Result<Marker, Answer>
    ensures same { h.new.kept ≡ h.old.kept }
    ensures knows { IfOk result (λ own. MatchOption (marking_in h.old.kept) ⊥ (λ m. KnowsBegun m.begun (knowing own))) }
    ensures own { IfOk result (λ own. IsOwnMet (knowing own)) }
    ensures free { IfOk result (λ _. IsFalse full) }
    ensures none { IfErr result (IsUnsharedIn marking_in full h.old.kept) }
{
    let Some(kept) = h.take(alloc) else {
        return Err(Answer::bare(status::EMPTY_HANDLE, 0));
    };
    let own = match as_marking(kept.as_ref()) {
        Some(marker) => share(marker, full),
        None => Err(Answer::bare(status::WRONG_HANDLE, 0)),
    };
    h.put_back(kept);
    own
}

/// Puts another share of the marking that a handle keeps into an empty handle, for another thread. If memory runs out,
/// it stays empty.
pub fn share_marking(alloc: Global, h: &mut Handle, other: &mut Handle) -> Answer
    ensures same { h.new.kept ≡ h.old.kept }
    ensures shares { SharesMarking h.old.kept other.old.kept other.new.kept result }
{
    let full = is_full(alloc, other);
    match share_of(alloc, h, full) {
        Ok(own) => {
            if keep(alloc, other, Kept::Marking(own)) {
                Answer::done(0)
            } else {
                Answer::bare(status::OUT_OF_MEMORY, 0)
            }
        }
        Err(answer) => answer,
    }
}

// Helps with a marking.
fn help(alloc: Global, marker: &Marker, words: &[u64], who: u64) -> Answer
    ensures { HelpsMarking (length words.now) (knowing marker.now) result }
{
    match (&*marker.marking).help(alloc, words, who as usize) {
        Ok(Help::Done) => Answer::done(0),
        Ok(Help::Worked) => Answer::done(1),
        Ok(Help::Idle) => Answer::done(2),
        Err(WrongLength) => Answer::bare(status::WRONG_LENGTH, 0),
    }
}

/// Helps with the marking that a handle keeps: looks at some of the objects that wait, in these words of the heap as
/// they are now. It waits for no other thread. The answer is 0 if nothing is left to help with, 1 if it looked at some
/// objects, and 2 if other threads have those that wait. `who` is any number: threads with different ones seldom get in
/// each other's way. If these are not as many words as the marking is of, nothing was done.
pub fn help_marking(alloc: Global, h: &mut Handle, words: &[u64], who: u64) -> Answer
    ensures same { h.new.kept ≡ h.old.kept }
    ensures helps { Asks 0 marking_in (HelpsMarking (length words.now)) (Unit {0}) h.old.kept result }
{
    let Some(kept) = h.take(alloc) else {
        return Answer::bare(status::EMPTY_HANDLE, 0);
    };
    let answer = match as_marking(kept.as_ref()) {
        Some(marker) => help(alloc, marker, words, who),
        None => Answer::bare(status::WRONG_HANDLE, 0),
    };
    h.put_back(kept);
    answer
}

// The answer of values that are not met.
fn unmet(fault: MeetFault) -> Answer
    ensures { result ≡ of_meeting fault }
{
    match fault {
        MeetFault::BadValue(k) => Answer::bare(status::BAD_ROOT, k),
        MeetFault::Busy => Answer::bare(status::MARKERS_BUSY, 0),
        MeetFault::OutOfMemory => Answer::bare(status::OUT_OF_MEMORY, 0),
    }
}

// Meets values.
fn meet(alloc: Global, marker: &mut Marker, values: &[u64]) -> Answer
    requires { IsOwnMet (knowing marker.old) }
    ensures own { IsOwnMet (knowing marker.new) }
    ensures meets { Meets values.now (knowing marker.old) (knowing marker.new) result }
{
    match (&*marker.marking).meet(alloc, values, &mut marker.met) {
        Ok(()) => Answer::done(0),
        Err(fault) => unmet(fault),
    }
}

/// Meets the objects to which these values lead, by the marking that a handle keeps: roots as they are now, objects
/// that are new, or what was written over. If the handle ends the marking, the survey has all that it met. After a
/// refusal nothing was met: a value leads outside; other threads had all lanes a moment ago; or memory ran out.
pub fn meet_marking(alloc: Global, h: &mut Handle, values: &[u64]) -> Answer
    ensures { MeetsMarking values.now h.old.kept h.new.kept result }
{
    let Some(mut kept) = h.take(alloc) else {
        return Answer::bare(status::EMPTY_HANDLE, 0);
    };
    let answer = match kept.as_mut() {
        Kept::Marking(marker) => meet(alloc, marker, values),
        _ => Answer::bare(status::WRONG_HANDLE, 0),
    };
    h.put_back(kept);
    answer
}

// What goes back to the handle of a marking that does not end, and the answer.
#[derive(Drop)]
struct Left {
    kept: Kept,
    answer: Answer,
}

// A marking of which no other handle keeps a share, and what its last one knows.
#[derive(Drop)]
struct Last {
    marking: Marking,
    met: Met,
}

// The marking that is kept, if no other handle keeps a share of it, given whether the handle of the survey is full.
fn sole(kept: Kept, full: bool) -> Result<Last, Left>
    requires { IsKept kept }
    ensures marking { IfOk result (λ own. marking_in (Some kept) ≡ Some (knows own.marking own.met)) }
    ensures own { IfOk result (λ own. IsOwnMet (knows own.marking own.met)) }
    ensures free { IfOk result (λ _. IsFalse full) }
    ensures same { IfErr result (λ left. left.kept ≡ kept) }
    ensures why { IfErr result (λ left. IsUnendedMarking full kept left.answer) }
{
    let marker = match into_marking(kept) {
        Ok(marker) => marker,
        Err(kept) => {
            return Err(Left {
                kept,
                answer: Answer::bare(status::WRONG_HANDLE, 0),
            });
        }
    };
    if full {
        return Err(Left {
            kept: Kept::Marking(marker),
            answer: Answer::bare(status::NOT_EMPTY, 1),
        });
    }
    let Marker { marking, met } = marker;
    match Arc::try_unwrap(marking) {
        Ok(marking) => Ok(Last { marking, met }),
        Err(marking) => Err(Left {
            kept: Kept::Marking(Marker { marking, met }),
            answer: Answer::bare(status::STILL_SHARED, 0),
        }),
    }
}

// The answer of a marking that does not end.
fn unended(fault: MarkingEnd) -> Answer
    ensures { result ≡ of_ending fault }
{
    match fault {
        MarkingEnd::Waiting => Answer::bare(status::STILL_MARKING, 0),
        MarkingEnd::NoMemory => Answer::bare(status::OUT_OF_MEMORY, 0),
        MarkingEnd::BadObject(i) => Answer::bare(status::BAD_OBJECT, i),
        MarkingEnd::Bits(fault) => untaken(0, fault),
    }
}

// What a marking found.
fn found_by(alloc: Global, own: Last, roots: &[u64]) -> Result<Arc<Places>, MarkingEnd>
    requires { IsOwnMet (knows own.marking own.met) }
    ensures found { IfOk result (λ found. IsFoundBy (knows own.marking own.met) roots.now found.value) }
    ensures fault { IfErr result (IsEndFaultOf own.marking.edition roots.now) }
{
    let Last { marking, met } = own;
    let found = marking.finish(alloc, roots, met)?;
    match Arc::new(alloc, found) {
        Ok(found) => Ok(found),
        Err(_) => Err(MarkingEnd::NoMemory),
    }
}

// Ends a marking, and puts what it found into the handle, which is empty, by this box.
fn end(alloc: Global, own: Last, roots: &[u64], room: Box<Kept>, survey: &mut Handle) -> Answer
    requires empty { survey.old.kept ≡ None }
    requires own { IsOwnMet (knows own.marking own.met) }
    ensures { EndsMarking roots.now (knows own.marking own.met) survey.new.kept result }
{
    match found_by(alloc, own, roots) {
        Ok(found) => {
            let live = live_words(&found);
            close(survey, room, Kept::Survey(found));
            Answer::done(live)
        }
        Err(fault) => unended(fault),
    }
}

/// Ends the marking that a handle keeps, with the roots as they are now; another one, which was empty, keeps the survey
/// then, and that of the marking is empty. The answer has the number of live words. No word of the heap is looked at.
/// If another handle keeps a share of the marking, both stay as they were. If it is refused for another reason, the
/// marking is gone all the same, and nothing is kept: objects wait, a helper gave up, a root leads to no object that
/// was met, there are too many roots, or memory ran out.
pub fn finish_marking(
    alloc: Global,
    marking: &mut Handle,
    roots: &[u64],
    survey: &mut Handle,
) -> Answer
    ensures { Turns marking_in (EndsMarking roots.now) IsStillShared marking.old.kept marking.new.kept survey.old.kept survey.new.kept result }
{
    let full = is_full(alloc, survey);
    let Some(Opened { room, kept }) = open(alloc, marking) else {
        return Answer::bare(status::EMPTY_HANDLE, 0);
    };
    match sole(kept, full) {
        Ok(own) => end(alloc, own, roots, room, survey),
        Err(Left { kept, answer }) => {
            close(marking, room, kept);
            answer
        }
    }
}

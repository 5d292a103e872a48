//! The steps of a marking of a heap while its threads go on, by handles. A step that is refused ends the marking,
//! unless it says otherwise: its handle is empty then.
ghost use Rattle.std.specs.Prelude.{◌≡◌, IfErr, IfOk};
ghost use Rattle.beside_handle.specs.Looking.{of_look, of_meet, HasLooked, HasLookedAgain, HasMet, LooksAgain, LooksAtRows, MeetsValues};

use crate::looks::say_waiting;
use handle_base::{Answer, Handle, Kept, Opened, close, into_looks, open, status};
use std::alloc::Global;
use stopped_heap::{LookFault, MeetFault};

/// The answer of an object that is not looked at.
pub(crate) fn unlooked(fault: LookFault) -> Answer
    ensures { result ≡ of_look fault }
{
    match fault {
        LookFault::NoSuchObject => Answer::bare(status::NO_SUCH_OBJECT, 0),
        LookFault::ShortRun(n) => Answer::bare(status::TOO_SHORT, n),
        LookFault::ObjectTooLong(i) => Answer::bare(status::OBJECT_TOO_LONG, i),
        LookFault::ObjectPastEnd(i) => Answer::bare(status::OBJECT_PAST_END, i),
        LookFault::Overlap(i) => Answer::bare(status::OVERLAP, i),
        LookFault::BadReference(i) => Answer::bare(status::BAD_REFERENCE, i),
        LookFault::BadWeak(i) => Answer::bare(status::BAD_WEAK, i),
        LookFault::OutOfMemory => Answer::bare(status::OUT_OF_MEMORY, 0),
    }
}

/// The answer of values that are not met.
pub(crate) fn unmet(fault: MeetFault) -> Answer
    ensures { result ≡ of_meet fault }
{
    match fault {
        MeetFault::BadValue(k) => Answer::bare(status::BAD_ROOT, k),
        MeetFault::OutOfMemory => Answer::bare(status::OUT_OF_MEMORY, 0),
    }
}

/// Looks at the next objects that wait, by the marking that a handle keeps. `rows` has a row for each, in the order in
/// which they wait, one behind the other: the header, the references and the weak words, as they are now. The answer is
/// 1 if an object waits still, else 0.
pub fn look_rows(alloc: Global, h: &mut Handle, rows: &[u64]) -> Answer
    ensures { LooksAtRows rows.now h.old.kept h.new.kept result }
{
    let Some(Opened { room, kept }) = open(alloc, h) else {
        return Answer::bare(status::EMPTY_HANDLE, 0);
    };
    let looks = match into_looks(kept) {
        Ok(looks) => looks,
        Err(kept) => {
            close(h, room, kept);
            return Answer::bare(status::WRONG_HANDLE, 0);
        }
    };
    match looks.look_rows(rows) {
        Ok(looks) => {
            let answer = say_waiting(&looks);
            close(h, room, Kept::Looks(looks));
            answer
        }
        Err(fault) => unlooked(fault),
    }
}

/// Looks again at the object at index `i`, since it may have been written to, by the marking that a handle keeps. `row`
/// has its header, references and weak words, as they are now. The answer is 1 if an object waits then, else 0. If no
/// object was met there, the marking stays as it is.
pub fn look_again(alloc: Global, h: &mut Handle, i: u64, row: &[u64]) -> Answer
    ensures { LooksAgain i row.now h.old.kept h.new.kept result }
{
    let Some(Opened { room, kept }) = open(alloc, h) else {
        return Answer::bare(status::EMPTY_HANDLE, 0);
    };
    let looks = match into_looks(kept) {
        Ok(looks) => looks,
        Err(kept) => {
            close(h, room, kept);
            return Answer::bare(status::WRONG_HANDLE, 0);
        }
    };
    if !looks.is_met(i as usize) {
        close(h, room, Kept::Looks(looks));
        return Answer::bare(status::NO_SUCH_OBJECT, i);
    }
    match looks.look_again(i as usize, row) {
        Ok(looks) => {
            let answer = say_waiting(&looks);
            close(h, room, Kept::Looks(looks));
            answer
        }
        Err(fault) => unlooked(fault),
    }
}

/// Meets the objects to which these values lead, by the marking that a handle keeps: roots as they are now, or new
/// objects. Those that were not met before wait then. The answer is 1 if an object waits, else 0.
pub fn meet_looks(alloc: Global, h: &mut Handle, values: &[u64]) -> Answer
    ensures { MeetsValues values.now h.old.kept h.new.kept result }
{
    let Some(Opened { room, kept }) = open(alloc, h) else {
        return Answer::bare(status::EMPTY_HANDLE, 0);
    };
    let looks = match into_looks(kept) {
        Ok(looks) => looks,
        Err(kept) => {
            close(h, room, kept);
            return Answer::bare(status::WRONG_HANDLE, 0);
        }
    };
    match looks.meet(values) {
        Ok(looks) => {
            let answer = say_waiting(&looks);
            close(h, room, Kept::Looks(looks));
            answer
        }
        Err(fault) => unmet(fault),
    }
}

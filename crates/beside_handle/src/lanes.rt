//! The lanes of a marking by several markers while threads go on, by handles. A step that is refused ends its lane: the
//! handle is empty then.
ghost use Rattle.std.specs.Prelude.{◌≡◌, ◌≤◌, ◌⊎◌, None, IfErr, IfOk, IsFalse, IsTrue, MatchOption};
ghost use Rattle.handle_base.specs.Answers.{bare};
ghost use Rattle.handle_base.specs.HandleKinds.{lane_in, Asks};
ghost use Rattle.beside_handle.specs.Lanes.{of_join, BeginsLane, BeginsLaneOf, GivesInLane, IsEmptyLane, JoinsLanes, LooksInLane, MeetsInLane, SharesLane, TakesInLane, WholesLane};
ghost use Rattle.beside_handle.specs.Looks.{CopiesWaiting, SaysWaiting};
ghost use Rattle.handle_base.specs.Sharing.{IsUnsharedIn};
ghost use Rattle.handle_base.specs.Statuses.{not_empty, out_of_memory};
ghost use Rattle.heap_layout.specs.Limits.{most_words};
ghost use Rattle.rest_marks.specs.Lanes.{IsBeginFault};

use crate::looking::{unlooked, unmet};
use crate::looks::say_waiting;
use handle_base::{
    Answer, Handle, Kept, Opened, as_lane, close, into_lane, is_full, keep, open, status,
};
use heap_layout::{Edition, edition_of};
use std::alloc::Global;
use stopped_heap::{JoinFault, Lane, SurveyFault};

// Says whether an object of the lane waits to be looked at.
fn say_lane(lane: &Lane) -> Answer
    ensures { SaysWaiting lane.now.own result }
{
    let mut next = [0u64; 1];
    Answer::done(lane.waiting_in(&mut next) as u64)
}

// A lane of a new marking.
fn lane_of(alloc: Global, edition: Edition, count: u64) -> Result<Lane, SurveyFault>
    ensures empty { IfOk result (IsEmptyLane edition count) }
    ensures few { IfOk result (λ _. count ≤ most_words edition) }
    ensures fault { IfErr result (IsBeginFault edition count) }
{
    if count > edition.max_words() as u64 {
        return Err(SurveyFault::TooLarge);
    }
    Lane::begin(alloc, edition, count as usize)
}

// Puts such a lane into the handle, which is empty, if the edition of number `n` has no short objects.
fn begin(alloc: Global, n: u32, edition: Edition, count: u64, out: &mut Handle) -> Answer
    requires { out.old.kept ≡ None }
    ensures { BeginsLaneOf n count out.new.kept result edition }
{
    if edition.max_object_words() < edition.max_words() {
        return Answer::bare(status::BAD_EDITION, u64::from(n));
    }
    match lane_of(alloc, edition, count) {
        Ok(lane) => {
            if keep(alloc, out, Kept::Lane(lane)) {
                Answer::done(0)
            } else {
                Answer::unsurveyed(SurveyFault::OutOfMemory)
            }
        }
        Err(fault) => Answer::unsurveyed(fault),
    }
}

/// Begins to mark a heap of this edition, 3 or 4, and of `count` words by several markers, while its threads go on; an
/// empty handle keeps the first lane then, which met nothing. If it is refused, the handle stays as it is.
pub fn begin_lane(alloc: Global, edition: u32, count: u64, out: &mut Handle) -> Answer
    ensures { BeginsLane edition count out.old.kept out.new.kept result }
{
    if is_full(alloc, out) {
        return Answer::bare(status::NOT_EMPTY, 0);
    }
    match edition_of(edition, true) {
        Some(found) => begin(alloc, edition, found, count, out),
        None => Answer::bare(status::BAD_EDITION, u64::from(edition)),
    }
}

// Another lane of a marking, for a handle that is full or not.
fn share(alloc: Global, lane: &Lane, full: bool) -> Result<Lane, Answer>
    ensures empty { IfOk result (IsEmptyLane lane.now.own.edition lane.now.own.count) }
    ensures free { IfOk result (λ _. IsFalse full) }
    ensures none { IfErr result (λ a. (IsTrue full × (a ≡ bare not_empty 1)) ⊎ (IsFalse full × (a ≡ bare out_of_memory 0))) }
{
    if full {
        return Err(Answer::bare(status::NOT_EMPTY, 1));
    }
    match lane.share(alloc) {
        Ok(own) => Ok(own),
        Err(_) => Err(Answer::bare(status::OUT_OF_MEMORY, 0)),
    }
}

// The same of the lane that the handle keeps, which stays as it is.
fn share_of(alloc: Global, h: &mut Handle, full: bool) -> Result<Lane, Answer>
    ensures same { h.new.kept ≡ h.old.kept }
    ensures empty { IfOk result (λ own. MatchOption (lane_in h.old.kept) ⊥ (λ lane. IsEmptyLane lane.own.edition lane.own.count own)) }
    ensures free { IfOk result (λ _. IsFalse full) }
    ensures none { IfErr result (IsUnsharedIn lane_in full h.old.kept) }
{
    let Some(kept) = h.take(alloc) else {
        return Err(Answer::bare(status::EMPTY_HANDLE, 0));
    };
    let own = match as_lane(kept.as_ref()) {
        Some(lane) => share(alloc, lane, full),
        None => Err(Answer::bare(status::WRONG_HANDLE, 0)),
    };
    h.put_back(kept);
    own
}

/// Puts another lane of the marking of which a handle keeps a lane into an empty handle, for another marker. It met
/// nothing. If memory runs out, the handle stays empty.
pub fn share_lane(alloc: Global, h: &mut Handle, other: &mut Handle) -> Answer
    ensures same { h.new.kept ≡ h.old.kept }
    ensures shares { SharesLane h.old.kept other.old.kept other.new.kept result }
{
    let full = is_full(alloc, other);
    match share_of(alloc, h, full) {
        Ok(own) => {
            if keep(alloc, other, Kept::Lane(own)) {
                Answer::done(0)
            } else {
                Answer::bare(status::OUT_OF_MEMORY, 0)
            }
        }
        Err(answer) => answer,
    }
}

// Copies the indices of objects that wait.
fn copy(lane: &Lane, indices: &mut [u64]) -> Answer
    ensures { CopiesWaiting indices.old indices.new lane.now.own result }
{
    Answer::done(lane.waiting_in(indices) as u64)
}

/// Copies the indices of the objects of a lane that wait to be looked at, the next one first, as many as there is room
/// for. The answer has their number. Takes no memory.
pub fn waiting_lane(alloc: Global, h: &mut Handle, indices: &mut [u64]) -> Answer
    ensures same { h.new.kept ≡ h.old.kept }
    ensures copies { Asks 0 lane_in (λ lane a. CopiesWaiting indices.old indices.new lane.own a) (indices.new ≡ indices.old) h.old.kept result }
{
    let Some(kept) = h.take(alloc) else {
        return Answer::bare(status::EMPTY_HANDLE, 0);
    };
    let answer = match as_lane(kept.as_ref()) {
        Some(lane) => copy(lane, indices),
        None => Answer::bare(status::WRONG_HANDLE, 0),
    };
    h.put_back(kept);
    answer
}

/// Meets the objects to which these values lead, by the lane that a handle keeps: roots as they are now, or new
/// objects. They are known then, and those that the lane claims wait. The answer is 1 if an object waits, else 0.
pub fn meet_lane(alloc: Global, h: &mut Handle, values: &[u64]) -> Answer
    ensures { MeetsInLane values.now h.old.kept h.new.kept result }
{
    let Some(Opened { room, kept }) = open(alloc, h) else {
        return Answer::bare(status::EMPTY_HANDLE, 0);
    };
    let lane = match into_lane(kept) {
        Ok(lane) => lane,
        Err(kept) => {
            close(h, room, kept);
            return Answer::bare(status::WRONG_HANDLE, 0);
        }
    };
    match lane.meet(values) {
        Ok(lane) => {
            let answer = say_lane(&lane);
            close(h, room, Kept::Lane(lane));
            answer
        }
        Err(fault) => unmet(fault),
    }
}

/// Looks at the next objects of a lane that wait, by their rows in this order, one behind the other. The answer is 1 if
/// an object waits still, else 0.
pub fn look_lane(alloc: Global, h: &mut Handle, rows: &[u64]) -> Answer
    ensures { LooksInLane rows.now h.old.kept h.new.kept result }
{
    let Some(Opened { room, kept }) = open(alloc, h) else {
        return Answer::bare(status::EMPTY_HANDLE, 0);
    };
    let lane = match into_lane(kept) {
        Ok(lane) => lane,
        Err(kept) => {
            close(h, room, kept);
            return Answer::bare(status::WRONG_HANDLE, 0);
        }
    };
    match lane.look_rows(rows) {
        Ok(lane) => {
            let answer = say_lane(&lane);
            close(h, room, Kept::Lane(lane));
            answer
        }
        Err(fault) => unlooked(fault),
    }
}

/// Takes over the objects at these indices, which another lane gave: they wait here then, and are known. The answer is
/// 1 if an object waits, else 0.
pub fn take_lane(alloc: Global, h: &mut Handle, indices: &[u64]) -> Answer
    ensures { TakesInLane indices.now h.old.kept h.new.kept result }
{
    let Some(Opened { room, kept }) = open(alloc, h) else {
        return Answer::bare(status::EMPTY_HANDLE, 0);
    };
    let lane = match into_lane(kept) {
        Ok(lane) => lane,
        Err(kept) => {
            close(h, room, kept);
            return Answer::bare(status::WRONG_HANDLE, 0);
        }
    };
    match lane.take(indices) {
        Ok(lane) => {
            let answer = say_lane(&lane);
            close(h, room, Kept::Lane(lane));
            answer
        }
        Err(fault) => unmet(fault),
    }
}

/// Lets go of the last objects of a lane that wait, as many as there is room for, for another lane to take. The answer
/// has their number. Takes no memory.
pub fn give_lane(alloc: Global, h: &mut Handle, indices: &mut [u64]) -> Answer
    ensures { GivesInLane indices.old indices.new h.old.kept h.new.kept result }
{
    let Some(Opened { room, kept }) = open(alloc, h) else {
        return Answer::bare(status::EMPTY_HANDLE, 0);
    };
    let lane = match into_lane(kept) {
        Ok(lane) => lane,
        Err(kept) => {
            close(h, room, kept);
            return Answer::bare(status::WRONG_HANDLE, 0);
        }
    };
    let (lane, many) = lane.give(indices);
    close(h, room, Kept::Lane(lane));
    Answer::done(many as u64)
}

// The answer of lanes that are not joined.
fn unjoined(fault: JoinFault) -> Answer
    ensures { result ≡ of_join fault }
{
    match fault {
        JoinFault::OtherHeap => Answer::bare(status::OTHER_HEAP, 0),
        JoinFault::Overlap(i) => Answer::bare(status::OVERLAP, i),
        JoinFault::OutOfMemory => Answer::bare(status::OUT_OF_MEMORY, 0),
    }
}

/// Joins the lane that the second handle keeps to that of the first one, and the second one is empty then. The answer
/// is 1 if an object waits, else 0. If they are refused, both are gone.
pub fn join_lanes(alloc: Global, h: &mut Handle, other: &mut Handle) -> Answer
    ensures { JoinsLanes h.old.kept h.new.kept other.old.kept other.new.kept result }
{
    let Some(Opened { room, kept }) = open(alloc, h) else {
        return Answer::bare(status::EMPTY_HANDLE, 0);
    };
    let lane = match into_lane(kept) {
        Ok(lane) => lane,
        Err(kept) => {
            close(h, room, kept);
            return Answer::bare(status::WRONG_HANDLE, 0);
        }
    };
    let Some(
        Opened {
            room: other_room,
            kept: other_kept,
        },
    ) = open(alloc, other)
    else {
        close(h, room, Kept::Lane(lane));
        return Answer::bare(status::EMPTY_HANDLE, 1);
    };
    let second = match into_lane(other_kept) {
        Ok(second) => second,
        Err(other_kept) => {
            close(other, other_room, other_kept);
            close(h, room, Kept::Lane(lane));
            return Answer::bare(status::WRONG_HANDLE, 1);
        }
    };
    drop(other_room);
    match lane.join(second) {
        Ok(lane) => {
            let answer = say_lane(&lane);
            close(h, room, Kept::Lane(lane));
            answer
        }
        Err(fault) => unjoined(fault),
    }
}

/// Makes the whole marking of a lane to which all others were joined; another handle, which was empty, keeps it then,
/// and that of the lane is empty. The answer is 1 if an object waits, else 0. If an object is known that no lane has,
/// the answer has its index, the lane is gone, and nothing is kept. Takes no memory.
pub fn whole_lane(alloc: Global, lane: &mut Handle, looks: &mut Handle) -> Answer
    ensures { WholesLane lane.old.kept lane.new.kept looks.old.kept looks.new.kept result }
{
    let full = is_full(alloc, looks);
    let Some(Opened { room, kept }) = open(alloc, lane) else {
        return Answer::bare(status::EMPTY_HANDLE, 0);
    };
    let own = match into_lane(kept) {
        Ok(own) => own,
        Err(kept) => {
            close(lane, room, kept);
            return Answer::bare(status::WRONG_HANDLE, 0);
        }
    };
    if full {
        close(lane, room, Kept::Lane(own));
        return Answer::bare(status::NOT_EMPTY, 1);
    }
    match own.whole() {
        Ok(whole) => {
            let answer = say_waiting(&whole);
            close(looks, room, Kept::Looks(whole));
            answer
        }
        Err(missing) => Answer::bare(status::MISSING_OBJECT, missing.0),
    }
}

//! Two handles at once: a mutator goes back to its crew, and two mutators meet.
ghost use Rattle.std.specs.Prelude.{◌≡◌};
ghost use Rattle.flip_handle.specs.Joining.{AreApart, Brings, Gives, IsToldFrom};

use handle_base::{Answer, Handle, Kept, Opened, close, into_crew, into_mutator, open, status};
use std::alloc::Global;

/// Hands the mutator that a handle keeps back to its crew, which another handle keeps. The mutator's handle is empty
/// then. A mutator of another crew is refused. If it is refused, neither handle has changed. Takes no memory.
///
/// Requires that the names tell crews apart.
pub fn give_member(alloc: Global, crew: &mut Handle, h: &mut Handle) -> Answer
    requires { IsToldFrom crew.old.kept h.old.kept }
    ensures { Gives crew.old.kept crew.new.kept h.old.kept h.new.kept result }
{
    let Some(Opened { room, kept }) = open(alloc, crew) else {
        return Answer::bare(status::EMPTY_HANDLE, 0);
    };
    let mut bench = match into_crew(kept) {
        Ok(bench) => bench,
        Err(kept) => {
            close(crew, room, kept);
            return Answer::bare(status::WRONG_HANDLE, 0);
        }
    };
    let Some(
        Opened {
            room: seat,
            kept: own,
        },
    ) = open(alloc, h)
    else {
        close(crew, room, Kept::Crew(bench));
        return Answer::bare(status::EMPTY_HANDLE, 1);
    };
    let m = match into_mutator(own) {
        Ok(m) => m,
        Err(own) => {
            close(crew, room, Kept::Crew(bench));
            close(h, seat, own);
            return Answer::bare(status::WRONG_HANDLE, 1);
        }
    };
    let given = bench.give(m);
    close(crew, room, Kept::Crew(bench));
    match given {
        Ok(()) => {
            drop(seat);
            Answer::done(0)
        }
        Err(m) => {
            close(h, seat, Kept::Mutator(m));
            Answer::bare(status::OTHER_CREW, 0)
        }
    }
}

/// Lets the mutators that two handles keep meet: each has then seen what the other has seen. Two of different crews are
/// refused, and then neither has changed. Takes no memory.
///
/// Requires that the names tell their crews apart.
pub fn meet_members(alloc: Global, h: &mut Handle, other: &mut Handle) -> Answer
    requires { AreApart h.old.kept other.old.kept }
    ensures { Brings h.old.kept other.old.kept h.new.kept other.new.kept result }
{
    let Some(Opened { room, kept }) = open(alloc, h) else {
        return Answer::bare(status::EMPTY_HANDLE, 0);
    };
    let mut m = match into_mutator(kept) {
        Ok(m) => m,
        Err(kept) => {
            close(h, room, kept);
            return Answer::bare(status::WRONG_HANDLE, 0);
        }
    };
    let Some(
        Opened {
            room: seat,
            kept: own,
        },
    ) = open(alloc, other)
    else {
        close(h, room, Kept::Mutator(m));
        return Answer::bare(status::EMPTY_HANDLE, 1);
    };
    let mut o = match into_mutator(own) {
        Ok(o) => o,
        Err(own) => {
            close(h, room, Kept::Mutator(m));
            close(other, seat, own);
            return Answer::bare(status::WRONG_HANDLE, 1);
        }
    };
    let met = m.meet(&mut o);
    close(h, room, Kept::Mutator(m));
    close(other, seat, Kept::Mutator(o));
    if met {
        Answer::done(0)
    } else {
        Answer::bare(status::OTHER_CREW, 0)
    }
}

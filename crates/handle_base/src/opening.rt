//! A handle's content, out of its box and back, or into the box of another handle.
ghost use Rattle.std.specs.Prelude.{◌≡◌, None, Some, is_some, IsTrue, MatchOption};
ghost use Rattle.handle_base.specs.Keeping.{IsKept, KeepsIf};
ghost use Rattle.handle_base.specs.HandleKinds.{Settles};

use crate::answer::Answer;
use crate::handle::Handle;
use crate::kept::Kept;
use std::alloc::Global;

/// What a handle kept, and the box in which it was.
#[derive(Drop)]
pub struct Opened {
    pub room: Box<Kept>,
    pub kept: Kept,
}

/// Takes what the handle keeps out of its box. The handle is empty then.
pub fn open(alloc: Global, h: &mut Handle) -> Option<Opened>
    ensures empty { h.new.kept ≡ None }
    ensures opened { MatchOption result (h.old.kept ≡ None) (λ o. (h.old.kept ≡ Some o.kept) × IsKept o.kept) }
{
    let mut room = h.take(alloc)?;
    let kept = Box::replace(&mut room, Kept::Nothing);
    Some(Opened { room, kept })
}

/// Puts this into the box, and the box into the handle, which is empty.
pub fn close(h: &mut Handle, mut room: Box<Kept>, kept: Kept)
    requires empty { h.old.kept ≡ None }
    requires kept { IsKept kept }
    ensures { h.new.kept ≡ Some kept }
{
    drop(Box::replace(&mut room, kept));
    h.put_back(room);
}

/// Puts this into a new box, and the box into the handle, which is empty. If there is no memory for a box, the handle
/// stays empty, and the answer is false.
pub fn keep(alloc: Global, h: &mut Handle, kept: Kept) -> bool
    requires empty { h.old.kept ≡ None }
    requires kept { IsKept kept }
    ensures { KeepsIf result kept h.old.kept h.new.kept }
{
    match Box::new(alloc, kept) {
        Ok(room) => {
            h.put_back(room);
            true
        }
        Err(_) => false,
    }
}

/// Whether the handle keeps something. It stays as it is.
pub fn is_full(alloc: Global, h: &mut Handle) -> bool
    ensures same { h.new.kept ≡ h.old.kept }
    ensures full { result ≡ is_some h.old.kept }
{
    match h.take(alloc) {
        Some(kept) => {
            h.put_back(kept);
            true
        }
        None => false,
    }
}

/// What is kept after a turn, whether it goes to the second handle, and the answer.
#[derive(Drop)]
pub struct Turned {
    pub kept: Kept,
    pub goes: bool,
    pub answer: Answer,
}

impl Turned {
    /// What was made goes to the second handle, and the value is the result.
    pub fn gone(kept: Kept, value: u64) -> Turned
        ensures { result ≡ record { kept = kept; goes = true; answer = done value } }
    {
        Turned {
            kept,
            goes: true,
            answer: Answer::done(value),
        }
    }

    /// Nothing changes, and the answer says why.
    pub fn stays(kept: Kept, answer: Answer) -> Turned
        ensures { result ≡ record { kept = kept; goes = false; answer = answer } }
    {
        Turned {
            kept,
            goes: false,
            answer,
        }
    }

    ghost use Rattle.std.specs.Prelude.{false, true};
    ghost use Rattle.handle_base.specs.Answers.{done};
}

/// Puts what is kept after a turn into one of the two handles, by the box of the first one. Takes no memory.
pub fn settle(from: &mut Handle, to: &mut Handle, room: Box<Kept>, turned: Turned) -> Answer
    requires empty { from.old.kept ≡ None }
    requires free { IsTrue turned.goes → to.old.kept ≡ None }
    requires kept { IsKept turned.kept }
    ensures settles { Settles turned.goes turned.kept from.new.kept to.old.kept to.new.kept }
    ensures answer { result ≡ turned.answer }
{
    let Turned { kept, goes, answer } = turned;
    if goes {
        close(to, room, kept);
    } else {
        close(from, room, kept);
    }
    answer
}

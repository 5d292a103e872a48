//! Lists are copied into buffers of C.
ghost use Rattle.std.specs.Prelude.{◌≡◌};
ghost use Rattle.handle_base.specs.Copying.{CopiesAll, CopiesEndRoots, CopiesRoots};
ghost use Rattle.handle_base.specs.HandleKinds.{end_in, mutator_in, Asks};

use crate::answer::Answer;
use crate::handle::Handle;
use crate::kinds::{as_end, as_mutator};
use crate::status;
use comp_crew::{Ended, Member};
use std::alloc::Global;

// Copies all numbers, if the buffer is long enough.
fn copy_numbers(list: &[u64], out: &mut [u64]) -> Answer
    ensures { CopiesAll list.now out.old out.new result }
{
    let count = list.len();
    if out.len() < count {
        return Answer::bare(status::TOO_SHORT, count as u64);
    }
    out[..count].copy_from_slice(list);
    Answer::done(count as u64)
}

/// Copies all bytes, if the buffer is long enough.
pub fn copy_bytes(list: &[u8], out: &mut [u8]) -> Answer
    ensures { CopiesAll list.now out.old out.new result }
{
    let count = list.len();
    if out.len() < count {
        return Answer::bare(status::TOO_SHORT, count as u64);
    }
    out[..count].copy_from_slice(list);
    Answer::done(count as u64)
}

// Copies the forwarded roots of a mutator's heap.
fn copy_roots(m: &Member, out: &mut [u64]) -> Answer
    ensures { CopiesRoots out.old out.new m.now result }
{
    copy_numbers(m.roots(), out)
}

/// Copies all forwarded roots of the heap of the mutator that a handle keeps, in order. The answer has their number. If
/// the buffer is too short, it stays as it was.
pub fn mutator_roots(alloc: Global, h: &mut Handle, out: &mut [u64]) -> Answer
    ensures same { h.new.kept ≡ h.old.kept }
    ensures copies { Asks 0 mutator_in (CopiesRoots out.old out.new) (out.new ≡ out.old) h.old.kept result }
{
    let Some(kept) = h.take(alloc) else {
        return Answer::bare(status::EMPTY_HANDLE, 0);
    };
    let answer = match as_mutator(kept.as_ref()) {
        Some(m) => copy_roots(m, out),
        None => Answer::bare(status::WRONG_HANDLE, 0),
    };
    h.put_back(kept);
    answer
}

// Copies the roots of a finished heap.
fn copy_end_roots(e: &Ended, out: &mut [u64]) -> Answer
    ensures { CopiesEndRoots out.old out.new e.now result }
{
    copy_numbers(e.finished().roots(), out)
}

/// Copies all roots of the finished heap that a handle keeps, in order. The answer has their number. If the buffer is
/// too short, it stays as it was.
pub fn end_roots(alloc: Global, h: &mut Handle, out: &mut [u64]) -> Answer
    ensures same { h.new.kept ≡ h.old.kept }
    ensures copies { Asks 0 end_in (CopiesEndRoots out.old out.new) (out.new ≡ out.old) h.old.kept result }
{
    let Some(kept) = h.take(alloc) else {
        return Answer::bare(status::EMPTY_HANDLE, 0);
    };
    let answer = match as_end(kept.as_ref()) {
        Some(e) => copy_end_roots(e, out),
        None => Answer::bare(status::WRONG_HANDLE, 0),
    };
    h.put_back(kept);
    answer
}

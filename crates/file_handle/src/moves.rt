//! What another collection left of a heap is judged.
ghost use Rattle.std.specs.Prelude.{◌≡◌, true, IfErr, IfOk};
ghost use Rattle.comp_dump.specs.DumpReading.{Fails};
ghost use Rattle.handle_base.specs.HandleKinds.{heap_in, Asks};
ghost use Rattle.file_handle.specs.Moves.{head_number, of_moved, JudgesMoved};
ghost use Rattle.moved_heaps.specs.MovedFiles.{moved_bytes, IsStored};
ghost use Rattle.moved_heaps.specs.MovedReading.{read_whole};

use crate::judging::unread;
use comp_audit::DumpFault;
use handle_base::{Answer, Handle, as_heap, status};
use heap_layout::{Counted, MarkedHeap};
use moved_heaps::{HeadPart, MovedFault, MovedHeap, judge, read_moved};
use std::alloc::Global;

// The number of what is wrong with a head.
fn head_number(part: HeadPart) -> u64
    ensures { result ≡ head_number part }
{
    match part {
        HeadPart::Edition => 0,
        HeadPart::Places => 1,
        HeadPart::Roots => 2,
    }
}

// The answer of a fault of a moved heap.
fn unlawful(fault: MovedFault) -> Answer
    ensures { result ≡ of_moved fault }
{
    match fault {
        MovedFault::WrongHead(part) => Answer::bare(status::MOVED_WRONG_HEAD, head_number(part)),
        MovedFault::PlaceOutside(k) => Answer::bare(status::MOVED_PLACE_OUTSIDE, k),
        MovedFault::Overlap(k, l) => Answer::two(
            status::MOVED_OVERLAP,
            k,
            l.min(4_294_967_295) as u32,
        ),
        MovedFault::WrongRoot(i) => Answer::bare(status::MOVED_WRONG_ROOT, i),
        MovedFault::WrongWord(k, i) => Answer::two(
            status::MOVED_WRONG_WORD,
            k,
            i.min(4_294_967_295) as u32,
        ),
        MovedFault::OutOfMemory => Answer::bare(status::OUT_OF_MEMORY, 0),
    }
}

// The moved heap whose bytes these are.
fn moved_in(alloc: Global, bytes: &[u8]) -> Result<MovedHeap, DumpFault>
    ensures read { IfOk result (λ moved. bytes.now ≡ moved_bytes moved) }
    ensures stored { IfOk result IsStored }
    ensures cause { IfErr result (λ fault. Fails fault (read_whole true bytes.now)) }
{
    read_moved(alloc, &mut Counted::new(bytes), true)
}

// Judges bytes for a heap.
fn judge_bytes(alloc: Global, heap: &MarkedHeap, bytes: &[u8]) -> Answer
    ensures { JudgesMoved bytes.now heap.now result }
{
    let moved = match moved_in(alloc, bytes) {
        Ok(moved) => moved,
        Err(fault) => return unread(fault),
    };
    match judge(alloc, heap, &moved) {
        Ok(moves) => Answer::done(moves.words),
        Err(fault) => unlawful(fault),
    }
}

/// Reads a moved heap from these bytes, and judges whether a collection of the heap that a handle keeps may have left
/// it. The answer has the number of words that moved, those of the marked objects; else the first fault.
pub fn judge_moved(alloc: Global, h: &mut Handle, bytes: &[u8]) -> Answer
    ensures same { h.new.kept ≡ h.old.kept }
    ensures judges { Asks 0 heap_in (JudgesMoved bytes.now) (Unit {0}) h.old.kept result }
{
    let Some(kept) = h.take(alloc) else {
        return Answer::bare(status::EMPTY_HANDLE, 0);
    };
    let answer = match as_heap(kept.as_ref()) {
        Some(heap) => judge_bytes(alloc, heap, bytes),
        None => Answer::bare(status::WRONG_HANDLE, 0),
    };
    h.put_back(kept);
    answer
}

//! Images of heaps are read and written.
ghost use Rattle.std.specs.Prelude.{◌≡◌, true, length, None, IfErr, IfOk};
ghost use Rattle.heap_layout.specs.Encoding.{encoding, RefusesBy};
ghost use Rattle.heap_layout.specs.Faults.{IsAccepted};
ghost use Rattle.file_handle.specs.Imaging.{ReadsHeap, ReadsImage, WritesImage};
ghost use Rattle.handle_base.specs.HandleKinds.{heap_in, Asks};

use handle_base::{Answer, Handle, Kept, as_heap, copy_bytes, is_full, keep, status};
use heap_layout::{Counted, LayoutFault, MarkedHeap, OutOfMemory, read_large_image};
use std::alloc::Global;

// The heap whose image these bytes are.
fn heap_of(alloc: Global, bytes: &[u8]) -> Result<MarkedHeap, LayoutFault>
    ensures image { IfOk result (λ heap. bytes.now ≡ encoding heap) }
    ensures accepted { IfOk result IsAccepted }
    ensures cause { IfErr result (λ fault. RefusesBy true fault bytes.now) }
{
    read_large_image(alloc, &mut Counted::new(bytes))
}

// Reads the image of a heap into a handle, which is empty.
fn read_into(alloc: Global, bytes: &[u8], out: &mut Handle) -> Answer
    requires { out.old.kept ≡ None }
    ensures { ReadsHeap bytes.now out.new.kept result }
{
    match heap_of(alloc, bytes) {
        Ok(heap) => {
            if keep(alloc, out, Kept::Heap(heap)) {
                Answer::done(0)
            } else {
                Answer::unaccepted(LayoutFault::OutOfMemory)
            }
        }
        Err(fault) => Answer::unaccepted(fault),
    }
}

/// Reads the image of a heap of any edition; the handle, which was empty, keeps that heap then. If it is refused, the
/// handle stays as it is.
pub fn read_image(alloc: Global, bytes: &[u8], out: &mut Handle) -> Answer
    ensures { ReadsImage bytes.now out.old.kept out.new.kept result }
{
    if is_full(alloc, out) {
        return Answer::bare(status::NOT_EMPTY, 0);
    }
    read_into(alloc, bytes, out)
}

// How many bytes the image of a heap has.
#[tactic(auto, using(heap_layout::proofs::Bounds::words_most, heap_layout::proofs::Bounds::roots_most, crate::proofs::Lengths::image_len))]
fn size_of(heap: &MarkedHeap) -> u64
    ensures { result ≡ length (encoding heap.now) }
{
    24 + 8 * heap.words().len() as u64
        + 4 * heap.marks().len() as u64
        + 8 * heap.roots().len() as u64
}

// The image of a heap, of this many bytes.
fn image_of(alloc: Global, heap: &MarkedHeap, size: usize) -> Result<Vec<u8>, OutOfMemory>
    ensures { IfOk result (λ image. image.items ≡ encoding heap.now) }
{
    let mut w = Counted::new(Vec::with_capacity(alloc, size)?);
    match heap_layout::write_image(heap, &mut w) {
        Ok(()) => Ok(w.into_inner()),
        Err(_) => Err(OutOfMemory),
    }
}

// Copies the image of a heap.
fn copy_image(alloc: Global, heap: &MarkedHeap, out: &mut [u8]) -> Answer
    ensures { WritesImage out.old out.new heap.now result }
{
    let size = size_of(heap);
    if (out.len() as u64) < size {
        return Answer::bare(status::TOO_SHORT, size);
    }
    match image_of(alloc, heap, size as usize) {
        Ok(image) => copy_bytes(&image, out),
        Err(_) => Answer::bare(status::OUT_OF_MEMORY, 0),
    }
}

/// Copies the image of the heap that a handle keeps. The answer has the number of its bytes. If the buffer is too
/// short, the answer has that number too. Then, and if there is no memory, the buffer stays as it was.
pub fn write_image(alloc: Global, h: &mut Handle, out: &mut [u8]) -> Answer
    ensures same { h.new.kept ≡ h.old.kept }
    ensures copies { Asks 0 heap_in (WritesImage out.old out.new) (out.new ≡ out.old) h.old.kept result }
{
    let Some(kept) = h.take(alloc) else {
        return Answer::bare(status::EMPTY_HANDLE, 0);
    };
    let answer = match as_heap(kept.as_ref()) {
        Some(heap) => copy_image(alloc, heap, out),
        None => Answer::bare(status::WRONG_HANDLE, 0),
    };
    h.put_back(kept);
    answer
}

//! Reads the heaps of images, and their parts.
ghost use Rattle.std.specs.Prelude.{◌≡◌, ◌-◌, ◌^◌, ◌<◌, IfOk, IfErr};
ghost use Rattle.heap_layout.specs.Counted.{inner_of, failures_of};
ghost use Rattle.heap_layout.specs.ImageParts.{heap_in};
ghost use Rattle.command_io.specs.Disk.{RefusesFile};
ghost use Rattle.command_io.specs.FileCalls.{LeavesRead};
ghost use Rattle.command_io.specs.Images.{ArePartsAt, ArePartsOf, IsHeapAt, IsImageOf, RefusesImage, RefusesImageParts};
ghost use Rattle.command_io.specs.Reading.{CountsRead};
ghost use Rattle.command_io.specs.declared.refusal.Input.TheVariants as inputs;

use crate::opening::Files;
use crate::reading::end_reading;
use crate::refusal::{CommandRefusal, Input};
use heap_layout::{Counted, ImageParts, MarkedHeap, read_image, read_large_image, read_parts};
use std::alloc::Global;
use std::io::Read;

/// Reads the heap whose image is at a path, of edition three or four only if `large`. Refuses if the file cannot be
/// opened or read, if the image is refused, with its first fault, and if memory runs out. The files count a failed call
/// if the refusal names one; else they stay as they were.
pub fn heap_at<F: Files>(
    alloc: Global,
    files: &mut F,
    path: &str,
    large: bool,
) -> Result<MarkedHeap, CommandRefusal>
    ensures heap { IfOk result (IsHeapAt (F.disk files.old) large path.now) }
    ensures cause { IfErr result (RefusesFile (F.disk files.old) inputs.Image path.now (RefusesImage large)) }
    ensures left { LeavesRead (F.disk files.old) files.old files.new result }
{
    let mut reader = Counted::new(files.open(Input::Image, path)?);
    let read = image_in(alloc, &mut reader, large);
    end_reading(files, reader, read)
}

// Reads the heap of an image to the end of the reader, of edition three or four only if `large`.
fn image_in<S: Read>(
    alloc: Global,
    r: &mut Counted<S>,
    large: bool,
) -> Result<MarkedHeap, CommandRefusal>
    requires read { failures_of r.old < 2 ^ 64 - 1 }
    ensures heap { IfOk result (λ heap. IsImageOf large (λ other. other ≡ heap) (S.remaining (inner_of r.old))) }
    ensures cause { IfErr result (λ refusal. RefusesImage large refusal (S.remaining (inner_of r.old))) }
    ensures reads { CountsRead (failures_of r.old) (failures_of r.new) result }
{
    if large {
        Ok(read_large_image(alloc, r)?)
    } else {
        Ok(read_image(alloc, r)?)
    }
}

/// Reads the parts of the image at a path, of edition three or four only if `large`. Their heap is not checked: it may
/// have any fault but `TooLarge`. Refuses if the file cannot be opened or read, if the bytes are no image, if a count
/// is above its limit, and if memory runs out. The files count a failed call if the refusal names one; else they stay
/// as they were.
pub fn parts_at<F: Files>(
    alloc: Global,
    files: &mut F,
    path: &str,
    large: bool,
) -> Result<ImageParts, CommandRefusal>
    ensures parts { IfOk result (λ parts. ArePartsAt (F.disk files.old) large path.now (heap_in parts)) }
    ensures cause { IfErr result (RefusesFile (F.disk files.old) inputs.Image path.now (RefusesImageParts large)) }
    ensures left { LeavesRead (F.disk files.old) files.old files.new result }
{
    let mut reader = Counted::new(files.open(Input::Image, path)?);
    let read = parts_in(alloc, &mut reader, large);
    end_reading(files, reader, read)
}

// Reads the parts of an image to the end of the reader, of edition three or four only if `large`.
fn parts_in<S: Read>(
    alloc: Global,
    r: &mut Counted<S>,
    large: bool,
) -> Result<ImageParts, CommandRefusal>
    requires read { failures_of r.old < 2 ^ 64 - 1 }
    ensures parts { IfOk result (λ parts. ArePartsOf large (λ other. other ≡ heap_in parts) (S.remaining (inner_of r.old))) }
    ensures cause { IfErr result (λ refusal. RefusesImageParts large refusal (S.remaining (inner_of r.old))) }
    ensures reads { CountsRead (failures_of r.old) (failures_of r.new) result }
{
    Ok(read_parts(alloc, r, large)?)
}

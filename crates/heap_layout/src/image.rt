//! Reads an image, in pieces of bounded size.
ghost use Rattle.std.specs.Prelude.{◌≡◌, ℕ, ◌+◌, ◌-◌, ◌*◌, ◌/◌, ◌%◌, ◌^◌, ◌<◌, ◌≤◌, ◌++◌, true, false, All, IfOk, IfErr, IfSome, OnOk, length, slice_index, vec_len, vec_capacity};
ghost use Rattle.std.specs.Io.KnownBytes.{Consumes, IsAtEnd};
ghost use Rattle.std.specs.List.{flat_map};
ghost use Rattle.heap_layout.specs.Counted.{inner_of, failures_of, CountsFailure};
ghost use Rattle.heap_layout.specs.Encoding.{encoding, preamble, counts, eight_bytes, four_bytes, AreWithin, Refuses, RefusesBy, RefusesCounts, RefusesParts, RefusesEnd, EndsBefore};
ghost use Rattle.heap_layout.specs.Faults.{IsAccepted};
ghost use Rattle.heap_layout.specs.Heap.{IsStored};
ghost use Rattle.heap_layout.specs.ImageParts.{heap_in};
ghost use Rattle.heap_layout.specs.Versions.{IsRead};

use crate::checks::check_sizes;
use crate::counted::Counted;
use crate::edition::Edition;
use crate::fault::LayoutFault;
use crate::heap::MarkedHeap;
use crate::parts::{Cut, fill};
use crate::versions::edition_of;
use byteorder::{ByteOrder, LittleEndian};
use std::alloc::Global;
use std::io::Read;

/// The first bytes of an image.
pub const MAGIC: [u8; 8] = *b"COMPHEAP";

// How many numbers are read in one piece.
const PIECE: usize = 8_192;

// How many numbers there is room for before the first is read. Room for more is asked for as they come, so that a few
// bytes that announce many numbers take little memory.
const FIRST_ROOM: usize = 1_048_576;

/// Reads an image of edition one or two from all bytes that the reader has left. Answers its heap, or why it is
/// refused.
///
/// The magic is checked as soon as its 8 bytes are read, the version after its 4 bytes, and the three counts after
/// theirs, whatever follows. Then the numbers are read, then one byte more is asked for, and then the heap is checked
/// as by `from_parts_of`. The first call of the reader that fails ends the reading, even if it was only interrupted.
/// After an Err the bytes that were read are lost. Fewer than `u64::MAX` calls of the reader may have failed before.
pub fn read_image<R: Read>(alloc: Global, r: &mut Counted<R>) -> Result<MarkedHeap, LayoutFault>
    requires { failures_of r.old < 2 ^ 64 - 1 }
    ensures image { IfOk result (λ heap. IfSome (R.remaining (inner_of r.old)) (λ bytes. bytes ≡ encoding heap)) }
    ensures edition { IfOk result (λ heap. IsRead false heap.edition) }
    ensures accepted { IfOk result IsAccepted }
    ensures stored { IfOk result IsStored }
    ensures cause { IfErr result (λ fault. IfSome (R.remaining (inner_of r.old)) (Refuses fault)) }
    ensures counts { CountsFailure (failures_of r.old) (failures_of r.new) result }
{
    read_image_by(alloc, r, false)
}

/// Reads an image of any edition, otherwise as `read_image` does.
pub fn read_large_image<R: Read>(
    alloc: Global,
    r: &mut Counted<R>,
) -> Result<MarkedHeap, LayoutFault>
    requires { failures_of r.old < 2 ^ 64 - 1 }
    ensures image { IfOk result (λ heap. IfSome (R.remaining (inner_of r.old)) (λ bytes. bytes ≡ encoding heap)) }
    ensures accepted { IfOk result IsAccepted }
    ensures stored { IfOk result IsStored }
    ensures cause { IfErr result (λ fault. IfSome (R.remaining (inner_of r.old)) (RefusesBy true fault)) }
    ensures counts { CountsFailure (failures_of r.old) (failures_of r.new) result }
{
    read_image_by(alloc, r, true)
}

// Reads an image, of editions three and four only if `large`.
fn read_image_by<R: Read>(
    alloc: Global,
    r: &mut Counted<R>,
    large: bool,
) -> Result<MarkedHeap, LayoutFault>
    requires { failures_of r.old < 2 ^ 64 - 1 }
    ensures image { IfOk result (λ heap. IfSome (R.remaining (inner_of r.old)) (λ bytes. bytes ≡ encoding heap)) }
    ensures edition { IfOk result (λ heap. IsRead large heap.edition) }
    ensures accepted { IfOk result IsAccepted }
    ensures stored { IfOk result IsStored }
    ensures cause { IfErr result (λ fault. IfSome (R.remaining (inner_of r.old)) (RefusesBy large fault)) }
    ensures counts { CountsFailure (failures_of r.old) (failures_of r.new) result }
{
    let parts = read_parts(alloc, r, large)?;
    MarkedHeap::from_parts_of(parts.edition, parts.words, parts.marks, parts.roots)
}

/// What an image says of a heap. Only the counts are checked: no more than the limits of the edition.
#[derive(Drop)]
pub struct ImageParts {
    /// The layout by which the objects are read.
    pub edition: Edition,
    /// The from-space words, from index 0 on.
    pub words: Vec<u64>,
    /// The indices that are marked.
    pub marks: Vec<u32>,
    /// The roots.
    pub roots: Vec<u64>,
}

/// Reads the parts of an image from all bytes that the reader has left, as `read_image` does before the heap is
/// checked; those of an image of editions three and four only if `large`.
pub fn read_parts<R: Read>(
    alloc: Global,
    r: &mut Counted<R>,
    large: bool,
) -> Result<ImageParts, LayoutFault>
    requires { failures_of r.old < 2 ^ 64 - 1 }
    ensures image { IfOk result (λ parts. IfSome (R.remaining (inner_of r.old)) (λ bytes. bytes ≡ encoding (heap_in parts))) }
    ensures edition { IfOk result (λ parts. IsRead large parts.edition) }
    ensures within { IfOk result (λ parts. AreWithin parts.edition (length parts.words.items) (length parts.marks.items) (length parts.roots.items)) }
    ensures stored { IfOk result (λ parts. IsStored (heap_in parts)) }
    ensures cause { IfErr result (λ fault. IfSome (R.remaining (inner_of r.old)) (RefusesParts large fault)) }
    ensures counts { CountsFailure (failures_of r.old) (failures_of r.new) result }
{
    let edition = read_magic(r, large)?;
    let counts = read_counts(r, edition)?;
    let words = read_words(alloc, r, counts.words as usize)?;
    let marks = read_marks(alloc, r, counts.marks as usize)?;
    let roots = read_words(alloc, r, counts.roots as usize)?;
    expect_end(r)?;
    Ok(ImageParts {
        edition,
        words,
        marks,
        roots,
    })
}

// How many words, marks and roots an image has.
#[derive(Clone, Copy)]
struct Counts {
    words: u32,
    marks: u32,
    roots: u32,
}

// Fills the buffer, as `fill` does.
fn read_part<R: Read>(r: &mut Counted<R>, buf: &mut [u8]) -> Result<(), LayoutFault>
    requires { failures_of r.old < 2 ^ 64 - 1 }
    ensures read { OnOk result (Consumes (R.remaining (inner_of r.old)) (R.remaining (inner_of r.new)) buf.new) }
    ensures small { (i : ℕ) → slice_index buf.new i < 2 ^ 8 }
    ensures cut { IfErr result (λ fault. IfSome (R.remaining (inner_of r.old)) (EndsBefore (length buf.old) fault)) }
    ensures counts { CountsFailure (failures_of r.old) (failures_of r.new) result }
{
    match fill(r, buf) {
        Ok(()) => Ok(()),
        Err(Cut::Ended) => Err(LayoutFault::Truncated),
        Err(Cut::Failed) => Err(LayoutFault::Device),
    }
}

// Reads the magic and the version, and answers the edition of that version: three or four only if `large`.
fn read_magic<R: Read>(r: &mut Counted<R>, large: bool) -> Result<Edition, LayoutFault>
    requires { failures_of r.old < 2 ^ 64 - 1 }
    ensures read { IfOk result (λ edition. Consumes (R.remaining (inner_of r.old)) (R.remaining (inner_of r.new)) (preamble edition)) }
    ensures edition { IfOk result (IsRead large) }
    ensures cause { IfErr result (λ fault. IfSome (R.remaining (inner_of r.old)) (RefusesParts large fault)) }
    ensures counts { CountsFailure (failures_of r.old) (failures_of r.new) result }
{
    let mut magic = [0; 8];
    read_part(r, &mut magic)?;
    if magic != MAGIC {
        return Err(LayoutFault::BadMagic);
    }
    let mut version = [0; 4];
    read_part(r, &mut version)?;
    match edition_of(LittleEndian::read_u32(&version), large) {
        Some(edition) => Ok(edition),
        None => Err(LayoutFault::BadMagic),
    }
}

// Reads the three counts. Err with `TooLarge` if one is above its limit in this edition.
fn read_counts<R: Read>(r: &mut Counted<R>, edition: Edition) -> Result<Counts, LayoutFault>
    requires { failures_of r.old < 2 ^ 64 - 1 }
    ensures read { IfOk result (λ found. Consumes (R.remaining (inner_of r.old)) (R.remaining (inner_of r.new))
        (counts found.words found.marks found.roots)) }
    ensures within { IfOk result (λ found. AreWithin edition found.words found.marks found.roots) }
    ensures cause { IfErr result (λ fault. IfSome (R.remaining (inner_of r.old)) (RefusesCounts edition fault)) }
    ensures counts { CountsFailure (failures_of r.old) (failures_of r.new) result }
{
    let mut bytes = [0; 12];
    read_part(r, &mut bytes)?;
    let words = LittleEndian::read_u32(&bytes);
    let marks = LittleEndian::read_u32(&bytes[4..]);
    let roots = LittleEndian::read_u32(&bytes[8..]);
    check_sizes(edition, words as usize, marks as usize, roots as usize)?;
    Ok(Counts {
        words,
        marks,
        roots,
    })
}

// Reads `count` words or roots.
fn read_words<R: Read>(
    alloc: Global,
    r: &mut Counted<R>,
    count: usize,
) -> Result<Vec<u64>, LayoutFault>
    requires few { count ≤ 2 ^ 31 }
    requires room { failures_of r.old < 2 ^ 64 - 1 }
    ensures long { IfOk result (λ words. length words.items ≡ count) }
    ensures small { IfOk result (λ words. All (λ n. n < 2 ^ 64) words.items) }
    ensures read { IfOk result (λ words. Consumes (R.remaining (inner_of r.old)) (R.remaining (inner_of r.new))
        (flat_map eight_bytes words.items)) }
    ensures cut { IfErr result (λ fault. IfSome (R.remaining (inner_of r.old)) (EndsBefore (8 * count) fault)) }
    ensures counts { CountsFailure (failures_of r.old) (failures_of r.new) result }
{
    let mut words = Vec::with_capacity(alloc, count.min(FIRST_ROOM))?;
    let mut piece = vec![in alloc; 0u8; 8 * count.min(PIECE)]?;
    while words.len() < count {
        let n = (count - words.len()).min(PIECE);
        let bytes = &mut piece[..8 * n];
        read_part(r, bytes)?;
        words.reserve(n)?;
        push_words(&mut words, bytes);
    }
    Ok(words)
}

// Reads `count` marks.
fn read_marks<R: Read>(
    alloc: Global,
    r: &mut Counted<R>,
    count: usize,
) -> Result<Vec<u32>, LayoutFault>
    requires few { count ≤ 2 ^ 31 }
    requires room { failures_of r.old < 2 ^ 64 - 1 }
    ensures long { IfOk result (λ marks. length marks.items ≡ count) }
    ensures small { IfOk result (λ marks. All (λ n. n < 2 ^ 32) marks.items) }
    ensures read { IfOk result (λ marks. Consumes (R.remaining (inner_of r.old)) (R.remaining (inner_of r.new))
        (flat_map four_bytes marks.items)) }
    ensures cut { IfErr result (λ fault. IfSome (R.remaining (inner_of r.old)) (EndsBefore (4 * count) fault)) }
    ensures counts { CountsFailure (failures_of r.old) (failures_of r.new) result }
{
    let mut marks = Vec::with_capacity(alloc, count.min(FIRST_ROOM))?;
    let mut piece = vec![in alloc; 0u8; 4 * count.min(PIECE)]?;
    while marks.len() < count {
        let n = (count - marks.len()).min(PIECE);
        let bytes = &mut piece[..4 * n];
        read_part(r, bytes)?;
        marks.reserve(n)?;
        push_marks(&mut marks, bytes);
    }
    Ok(marks)
}

// Appends the numbers in these bytes, 8 bytes each. The vector must have room for them.
fn push_words(words: &mut Vec<u64>, bytes: &[u8])
    requires whole { length bytes.now % 8 ≡ 0 }
    requires room { vec_len words.old + length bytes.now / 8 ≤ vec_capacity words.old }
    ensures bytes { flat_map eight_bytes words.new.items ≡ flat_map eight_bytes words.old.items ++ bytes.now }
    ensures small { All (λ n. n < 2 ^ 64) words.old.items → All (λ n. n < 2 ^ 64) words.new.items }
    ensures len { vec_len words.new ≡ vec_len words.old + length bytes.now / 8 }
    ensures capacity { vec_capacity words.new ≡ vec_capacity words.old }
{
    for i in 0..bytes.len() / 8 {
        words.push_reserved(LittleEndian::read_u64(&bytes[8 * i..]));
    }
}

// Appends the numbers in these bytes, 4 bytes each. The vector must have room for them.
fn push_marks(marks: &mut Vec<u32>, bytes: &[u8])
    requires whole { length bytes.now % 4 ≡ 0 }
    requires room { vec_len marks.old + length bytes.now / 4 ≤ vec_capacity marks.old }
    ensures bytes { flat_map four_bytes marks.new.items ≡ flat_map four_bytes marks.old.items ++ bytes.now }
    ensures small { All (λ n. n < 2 ^ 32) marks.old.items → All (λ n. n < 2 ^ 32) marks.new.items }
    ensures len { vec_len marks.new ≡ vec_len marks.old + length bytes.now / 4 }
    ensures capacity { vec_capacity marks.new ≡ vec_capacity marks.old }
{
    for i in 0..bytes.len() / 4 {
        marks.push_reserved(LittleEndian::read_u32(&bytes[4 * i..]));
    }
}

// Checks that the reader has no byte left.
fn expect_end<R: Read>(r: &mut Counted<R>) -> Result<(), LayoutFault>
    requires { failures_of r.old < 2 ^ 64 - 1 }
    ensures end { OnOk result (IsAtEnd (R.remaining (inner_of r.old))) }
    ensures cause { IfErr result (λ fault. IfSome (R.remaining (inner_of r.old)) (RefusesEnd fault)) }
    ensures counts { CountsFailure (failures_of r.old) (failures_of r.new) result }
{
    let mut byte = [0; 1];
    match r.read(&mut byte) {
        Ok(0) => Ok(()),
        Ok(_) => Err(LayoutFault::TrailingBytes),
        Err(_) => Err(LayoutFault::Device),
    }
}

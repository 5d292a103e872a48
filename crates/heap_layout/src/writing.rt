//! Writes whole images, and the parts that images and dumps share.
ghost use Rattle.std.specs.Prelude.{◌≡◌, ◌^◌, ◌<◌, ◌≤◌, ◌++◌, IfErr, length};
ghost use Rattle.std.specs.List.{flat_map};
ghost use Rattle.heap_layout.specs.Counted.{inner_of, failures_of};
ghost use Rattle.heap_layout.specs.Encoding.{encoding, eight_bytes, four_bytes, version};
ghost use Rattle.heap_layout.specs.Writing.{Writes, CountsOne};
ghost use Rattle.heap_layout.specs.declared.fault.LayoutFault.TheVariants as fault;

use crate::counted::Counted;
use crate::edition::Edition;
use crate::fault::LayoutFault;
use crate::heap::MarkedHeap;
use crate::image::MAGIC;
use crate::parts::write_part;
use crate::versions::version_of;
use byteorder::{ByteOrder, LittleEndian};
use std::io::Write;

/// Writes a number in 4 bytes, little-endian.
pub fn write_four<W: Write>(w: &mut Counted<W>, n: u32) -> std::io::Result<()>
    ensures writes { Writes (W.contents (inner_of w.old)) (W.contents (inner_of w.new)) (four_bytes n) result }
    ensures counts { CountsOne (failures_of w.old) (failures_of w.new) result }
{
    write_part(w, &n.to_le_bytes())
}

// Writes the version of the edition, as it stands in images and dumps.
fn write_version<W: Write>(w: &mut Counted<W>, edition: Edition) -> std::io::Result<()>
    ensures writes { Writes (W.contents (inner_of w.old)) (W.contents (inner_of w.new)) (version edition) result }
    ensures counts { CountsOne (failures_of w.old) (failures_of w.new) result }
{
    write_four(w, version_of(edition))
}

// Writes at most 64 numbers, 8 bytes each, as one part.
fn write_some_words<W: Write>(w: &mut Counted<W>, words: &[u64]) -> std::io::Result<()>
    requires { length words.now ≤ 64 }
    ensures writes { Writes (W.contents (inner_of w.old)) (W.contents (inner_of w.new)) (flat_map eight_bytes words.now) result }
    ensures counts { CountsOne (failures_of w.old) (failures_of w.new) result }
{
    let mut bytes = [0; 512];
    let part = &mut bytes[..8 * words.len()];
    LittleEndian::write_u64_into(words, part);
    write_part(w, part)
}

/// Writes numbers of 8 bytes each, at most 64 in one part.
pub fn write_words<W: Write>(w: &mut Counted<W>, words: &[u64]) -> std::io::Result<()>
    ensures writes { Writes (W.contents (inner_of w.old)) (W.contents (inner_of w.new)) (flat_map eight_bytes words.now) result }
    ensures counts { CountsOne (failures_of w.old) (failures_of w.new) result }
{
    let mut written = 0;
    while written < words.len() {
        let some = (words.len() - written).min(64);
        write_some_words(w, &words[written..written + some])?;
        written += some;
    }
    Ok(())
}

/// Writes numbers of 4 bytes each.
pub fn write_numbers<W: Write>(w: &mut Counted<W>, numbers: &[u32]) -> std::io::Result<()>
    ensures writes { Writes (W.contents (inner_of w.old)) (W.contents (inner_of w.new)) (flat_map four_bytes numbers.now) result }
    ensures counts { CountsOne (failures_of w.old) (failures_of w.new) result }
{
    for number in numbers {
        write_four(w, *number)?;
    }
    Ok(())
}

/// Writes the head of an image or of a dump: its magic, the version of the edition, and its counts, 4 bytes each.
pub fn write_head<W: Write>(
    w: &mut Counted<W>,
    magic: &[u8; 8],
    edition: Edition,
    numbers: &[u32],
) -> std::io::Result<()>
    ensures writes { Writes (W.contents (inner_of w.old)) (W.contents (inner_of w.new)) (magic.now ++ (version edition ++ flat_map four_bytes numbers.now)) result }
    ensures counts { CountsOne (failures_of w.old) (failures_of w.new) result }
{
    write_part(w, magic)?;
    write_version(w, edition)?;
    write_numbers(w, numbers)
}

// Writes the image of a heap with these parts.
fn write_heap<W: Write>(
    w: &mut Counted<W>,
    edition: Edition,
    words: &[u64],
    marks: &[u32],
    roots: &[u64],
) -> std::io::Result<()>
    requires { (length words.now < 2 ^ 32) × (length marks.now < 2 ^ 32) × (length roots.now < 2 ^ 32) }
    ensures writes { Writes (W.contents (inner_of w.old)) (W.contents (inner_of w.new))
        (encoding (record { edition = edition; words = words.now; marks = marks.now; roots = roots.now })) result }
    ensures counts { CountsOne (failures_of w.old) (failures_of w.new) result }
{
    let counts = [words.len() as u32, marks.len() as u32, roots.len() as u32];
    write_head(w, &MAGIC, edition, &counts)?;
    write_words(w, words)?;
    write_numbers(w, marks)?;
    write_words(w, roots)
}

/// Writes the image of a heap, without allocating. The only refusal is `Device`: the first call of the writer that
/// fails ends the writing, even if it was only interrupted, and also one that takes no byte. What was taken before
/// stays written: it is a beginning of the image. The image is not flushed: the caller does that.
pub fn write_image<W: Write>(heap: &MarkedHeap, w: &mut Counted<W>) -> Result<(), LayoutFault>
    ensures writes { Writes (W.contents (inner_of w.old)) (W.contents (inner_of w.new)) (encoding heap.now) result }
    ensures counts { CountsOne (failures_of w.old) (failures_of w.new) result }
    ensures cause { IfErr result (λ given. given ≡ fault.Device) }
{
    match write_heap(w, heap.edition(), heap.words(), heap.marks(), heap.roots()) {
        Ok(()) => Ok(()),
        Err(_) => Err(LayoutFault::Device),
    }
}

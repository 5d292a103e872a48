//! The bytes of dumps, encoded by hand, and changes of them.
ghost use Rattle.std.specs.Prelude.{◌≤◌};

use crate::large_dump_bytes::{MANY_SWEPT, MANY_WRITTEN, MIXED_TOUCHED};
use heap_layout::{FROM_SPACE as F, Header, TO_SPACE as T};
use std::alloc::{AllocError, Global};
use std::process::Abort;

/// A part of a dump.
pub enum Part {
    /// These bytes.
    Bytes(&'static [u8]),
    /// Numbers of 4 bytes each.
    Fours(&'static [u64]),
    /// Numbers of 8 bytes each.
    Eights(&'static [u64]),
    /// The header, in edition one, of an object with this many references and data words and this tag, and words after
    /// it.
    Fields(u16, u16, u32, &'static [u64]),
    /// The header, in edition two, of an object with this many references, weak words and data words and this tag, and
    /// words after it.
    WeakFields(u16, u16, u16, u16, &'static [u64]),
    /// This many bytes 0.
    Zeros(usize),
    /// This many pages that were built, have no entries, and whose words are 0.
    Blank(u32),
    /// The list of builds of the only mutator, which built this many pages, in order, and the live words.
    Builds(u32, u64),
}

/// A dump that is encoded by hand.
#[derive(Drop)]
pub enum Whole {
    /// The dump of the empty heap and two mutators, all bytes by hand: 44 bytes.
    Nothing,
    /// The dump of the smallest heap, whose page one mutator touched: 569 bytes.
    Smallest,
    /// The dump of the smallest heap, all bytes by hand.
    Touched,
    /// The dump of the three objects after one mutator stored a new object in the last. The new object is on the first
    /// of two fresh pages: 1,129 bytes.
    Linked,
    /// The dump of the three objects and 64 fresh pages, after the first of two mutators wrote 7 into the first object:
    /// 656 bytes.
    Put,
    /// The dump of the three objects after the one mutator wrote a number that looks like an address into the first:
    /// 588 bytes.
    Address,
    /// The dump of two objects of 640 words each, all 0 after their headers: 20 pages in three regions. The first of
    /// two mutators built the first and the last region, and the second the second one: 10,464 bytes.
    Twenty,
    /// The dump of the three objects of edition two, whose page one mutator touched: 569 bytes.
    WeakTouched,
    /// The dump of the three objects of edition two after one mutator wrote a new object into a weak word of the first,
    /// and the first object into the weak word of the new one. The new object is on the one fresh page: 1,147 bytes.
    WeakLinked,
    /// The dump of the three objects of edition two in edition three, whose page one mutator touched: 569 bytes.
    MixedTouched,
    /// The dump of the heap with many fields after two mutators wrote the last data word and the last weak word: 5,488
    /// bytes.
    ManyWritten,
    /// The dump of the heap with many fields after one mutator touched all its pages: 1,709,986 bytes.
    ManySwept,
    /// A head with nothing after it: the numbers of mutators, fresh pages, pages and roots.
    Head(u64, u64, u64, u64),
}

/// From this byte on, this many bytes are replaced by this many others: those of this number, little-endian, and zeros
/// after them.
#[derive(Clone, Copy)]
pub struct Change(pub usize, pub usize, pub usize, pub u64);

/// A list of builds of one page, page 1.
pub const PAGE_1: u64 = 1 + (1 << 32);

/// The beginning of a list of builds of three pages, page 1 and two others.
pub const PAGE_1_AND_TWO: u64 = 3 + (1 << 32);

/// Page 0 and page 2 in a list of builds.
pub const PAGES_0_AND_2: u64 = 2 << 32;

/// A count that reaches to the end of the dump.
pub const REST: usize = usize::MAX;

// The first 8 bytes of a dump. Then come five numbers of 4 bytes: the version, which is the edition, and the numbers of
// mutators, fresh pages, pages and roots.
const MAGIC: Part = Part::Bytes(b"COMPDUMP");

// The flag of a page that was built. Its words follow, then the number of its entries in 4 bytes. An entry is its
// stamp, its writer, the code of its kind and its offset in a byte each, and its value.
const BUILT: Part = Part::Bytes(&[1]);

// The magic and the version.
static HEAD: [Part; 2] = [MAGIC, Part::Fours(&[1])];

static NOTHING: [Part; 1] = [Part::Bytes(&[
    0x43, 0x4f, 0x4d, 0x50, 0x44, 0x55, 0x4d, 0x50, 1, 0, 0, 0, 2, 0, 0, 0, 0, 0, 0, 0, 0, 0, 0, 0,
    0, 0, 0, 0, 0, 0, 0, 0, 0, 0, 0, 0, 0, 0, 0, 0, 0, 0, 0, 0,
])];

static SMALLEST: [Part; 8] = [
    MAGIC,
    Part::Fours(&[1, 1, 0, 1, 1]),
    Part::Eights(&[T]),
    BUILT,
    Part::Fields(0, 0, 7, &[]),
    Part::Zeros(504 + 4),
    Part::Fours(&[1, 0]),
    Part::Eights(&[1]),
];

static TOUCHED: [Part; 8] = [
    Part::Bytes(b"COMPDUMP"),
    Part::Bytes(&[1, 0, 0, 0, 1, 0, 0, 0, 0, 0, 0, 0, 1, 0, 0, 0, 1, 0, 0, 0]),
    Part::Bytes(&[0, 0, 0, 0, 2, 0, 0, 0]),
    Part::Bytes(&[1, 0, 0, 0, 0, 7, 0, 0, 0]),
    // From byte 45 up to byte 549.
    Part::Zeros(504),
    Part::Bytes(&[0, 0, 0, 0]),
    Part::Bytes(&[1, 0, 0, 0, 0, 0, 0, 0]),
    Part::Bytes(&[1, 0, 0, 0, 0, 0, 0, 0]),
];

static LINKED: [Part; 20] = [
    MAGIC,
    Part::Fours(&[1, 1, 2, 3, 1]),
    Part::Eights(&[T + 2]),
    BUILT,
    Part::Fields(0, 1, 1, &[11]),
    Part::Fields(1, 0, 3, &[T + 64]),
    Part::Zeros(480),
    Part::Fours(&[1]),
    Part::Eights(&[1]),
    Part::Bytes(&[0, 1, 3]),
    Part::Eights(&[T + 64]),
    BUILT,
    Part::Zeros(512),
    Part::Fours(&[1]),
    Part::Eights(&[0]),
    Part::Bytes(&[0, 0, 0]),
    Part::Eights(&[0]),
    Part::Bytes(&[0]),
    // The list of builds: 2 pages, page 1 and page 0.
    Part::Fours(&[2, 1, 0]),
    Part::Eights(&[5]),
];

static PUT: [Part; 14] = [
    MAGIC,
    Part::Fours(&[1, 2, 64, 65, 1]),
    Part::Eights(&[T + 2]),
    BUILT,
    Part::Fields(0, 1, 1, &[7]),
    Part::Fields(1, 0, 3, &[T]),
    Part::Zeros(480),
    Part::Fours(&[1]),
    Part::Eights(&[0]),
    Part::Bytes(&[0, 2, 1]),
    Part::Eights(&[7]),
    Part::Zeros(64),
    Part::Fours(&[1, 0, 0]),
    Part::Eights(&[4]),
];

// The number that was written is at byte 45.
static ADDRESS: [Part; 13] = [
    MAGIC,
    Part::Fours(&[1, 1, 0, 1, 1]),
    Part::Eights(&[T + 2]),
    BUILT,
    Part::Fields(0, 1, 1, &[F]),
    Part::Fields(1, 0, 3, &[T]),
    Part::Zeros(480),
    Part::Fours(&[1]),
    Part::Eights(&[0]),
    Part::Bytes(&[0, 2, 1]),
    Part::Eights(&[F]),
    Part::Fours(&[1, 0]),
    Part::Eights(&[4]),
];

static WEAK_TOUCHED: [Part; 9] = [
    MAGIC,
    Part::Fours(&[2, 1, 0, 1, 1]),
    Part::Eights(&[T + 4]),
    BUILT,
    Part::WeakFields(0, 2, 1, 1, &[0, T + 4, 9]),
    Part::WeakFields(1, 0, 0, 3, &[T]),
    Part::Zeros(464 + 4),
    Part::Fours(&[1, 0]),
    Part::Eights(&[6]),
];

// The weak word of the first object is at byte 45, and that of the new object at byte 581.
static WEAK_LINKED: [Part; 23] = [
    MAGIC,
    Part::Fours(&[2, 1, 1, 2, 1]),
    Part::Eights(&[T + 4]),
    BUILT,
    Part::WeakFields(0, 2, 1, 1, &[T + 64, T + 4, 9]),
    Part::WeakFields(1, 0, 0, 3, &[T]),
    Part::Zeros(464),
    Part::Fours(&[1]),
    Part::Eights(&[1]),
    Part::Bytes(&[0, 3, 1]),
    Part::Eights(&[T + 64]),
    BUILT,
    Part::WeakFields(0, 1, 0, 5, &[T]),
    Part::Zeros(496),
    Part::Fours(&[2]),
    Part::Eights(&[0]),
    Part::Bytes(&[0, 0, 0]),
    Part::WeakFields(0, 1, 0, 5, &[]),
    Part::Eights(&[2]),
    Part::Bytes(&[0, 3, 1]),
    Part::Eights(&[T]),
    // The list of builds: 2 pages, page 1 and page 0.
    Part::Fours(&[2, 1, 0]),
    Part::Eights(&[8]),
];

// The rest of a page without entries: the header of an object of 640 words and zeros, or zeros alone.
const BEGUN: Part = Part::Fields(0, 639, 0, &[]);

const NO_MORE: Part = Part::Zeros(504 + 4);

const EMPTY: Part = Part::Zeros(512 + 4);

static TWENTY: [Part; 47] = [
    MAGIC,
    Part::Fours(&[1, 2, 0, 20, 0]),
    BUILT,
    BEGUN,
    NO_MORE,
    BUILT,
    EMPTY,
    BUILT,
    EMPTY,
    BUILT,
    EMPTY,
    BUILT,
    EMPTY,
    BUILT,
    EMPTY,
    BUILT,
    EMPTY,
    BUILT,
    EMPTY,
    BUILT,
    EMPTY,
    BUILT,
    EMPTY,
    BUILT,
    BEGUN,
    NO_MORE,
    BUILT,
    EMPTY,
    BUILT,
    EMPTY,
    BUILT,
    EMPTY,
    BUILT,
    EMPTY,
    BUILT,
    EMPTY,
    BUILT,
    EMPTY,
    BUILT,
    EMPTY,
    BUILT,
    EMPTY,
    BUILT,
    EMPTY,
    Part::Fours(&[12, 0, 1, 2, 3, 4, 5, 6, 7, 16, 17, 18, 19]),
    Part::Fours(&[8, 8, 9, 10, 11, 12, 13, 14, 15]),
    Part::Eights(&[1_280]),
];

// Appends numbers of `width` bytes each, little-endian.
fn put_numbers(bytes: &mut Vec<u8>, width: usize, numbers: &[u64]) -> Result<(), AllocError>
    requires { width ≤ 8 }
{
    for n in numbers {
        bytes.extend_from_slice(&n.to_le_bytes()[..width])?;
    }
    Ok(())
}

// Appends a header and the words after it.
fn put_object(bytes: &mut Vec<u8>, header: Header, words: &[u64]) -> Result<(), AllocError> {
    put_numbers(bytes, 8, &[header.word()])?;
    put_numbers(bytes, 8, words)
}

// Appends the records of `count` pages without entries, whose words are 0.
fn put_blank(bytes: &mut Vec<u8>, count: u32) -> Result<(), AllocError> {
    for _ in 0..count {
        bytes.push(1)?;
        bytes.resize(bytes.len().saturating_add(512 + 4), 0)?;
    }
    Ok(())
}

// Appends a list of builds of the pages 0, 1, .., this many, and the live words.
fn put_builds(bytes: &mut Vec<u8>, count: u32, words: u64) -> Result<(), AllocError> {
    bytes.extend_from_slice(&count.to_le_bytes())?;
    for page in 0..count {
        bytes.extend_from_slice(&page.to_le_bytes())?;
    }
    bytes.extend_from_slice(&words.to_le_bytes())
}

fn put_part(bytes: &mut Vec<u8>, part: &Part) -> Result<(), AllocError> {
    match part {
        Part::Bytes(some) => bytes.extend_from_slice(some),
        Part::Fours(numbers) => put_numbers(bytes, 4, numbers),
        Part::Eights(numbers) => put_numbers(bytes, 8, numbers),
        Part::Fields(refs, data, tag, words) => {
            put_object(bytes, Header::new(*refs, *data, *tag), words)
        }
        Part::WeakFields(refs, weak, data, tag, words) => {
            put_object(bytes, Header::new_weak(*refs, *weak, *data, *tag), words)
        }
        Part::Zeros(count) => bytes.resize(bytes.len().saturating_add(*count), 0),
        Part::Blank(count) => put_blank(bytes, *count),
        Part::Builds(count, words) => put_builds(bytes, *count, *words),
    }
}

fn parts_of(whole: &Whole) -> &'static [Part] {
    match whole {
        Whole::Nothing => &NOTHING,
        Whole::Smallest => &SMALLEST,
        Whole::Touched => &TOUCHED,
        Whole::Linked => &LINKED,
        Whole::Put => &PUT,
        Whole::Address => &ADDRESS,
        Whole::Twenty => &TWENTY,
        Whole::WeakTouched => &WEAK_TOUCHED,
        Whole::WeakLinked => &WEAK_LINKED,
        Whole::MixedTouched => &MIXED_TOUCHED,
        Whole::ManyWritten => &MANY_WRITTEN,
        Whole::ManySwept => &MANY_SWEPT,
        Whole::Head(..) => &HEAD,
    }
}

/// The bytes of this dump.
pub fn encoded(rt: &impl Abort, alloc: Global, whole: &Whole) -> Vec<u8> {
    let mut bytes = Vec::new(alloc);
    for part in parts_of(whole) {
        put_part(&mut bytes, part).expect(rt, "memory");
    }
    if let Whole::Head(mutators, fresh, pages, roots) = whole {
        let counts = [*mutators, *fresh, *pages, *roots];
        put_numbers(&mut bytes, 4, &counts).expect(rt, "memory");
    }
    bytes
}

// Appends `count` bytes: this number, little-endian, and zeros after it.
fn put_number(bytes: &mut Vec<u8>, count: usize, number: u64) -> Result<(), AllocError> {
    let end = bytes.len().saturating_add(count);
    let width = count.min(8);
    bytes.extend_from_slice(&number.to_le_bytes()[..width])?;
    bytes.resize(end, 0)
}

// Appends these bytes with these changes, which are in order.
fn put_changed(rt: &impl Abort, out: &mut Vec<u8>, bytes: &[u8], changes: &[Change]) {
    let mut from = 0;
    for Change(at, width, count, number) in changes {
        let kept = bytes.get(from..*at).expect(rt, "changes inside, in order");
        out.extend_from_slice(kept).expect(rt, "memory");
        put_number(out, *count, *number).expect(rt, "memory");
        from = at.saturating_add(*width);
    }
    let kept = bytes.get(from..).unwrap_or(&[]);
    out.extend_from_slice(kept).expect(rt, "memory");
}

/// The bytes of this dump with these changes, which are in order.
pub fn changed(rt: &impl Abort, alloc: Global, whole: &Whole, changes: &[Change]) -> Vec<u8> {
    let bytes = encoded(rt, alloc, whole);
    let mut out = Vec::new(alloc);
    put_changed(rt, &mut out, &bytes, changes);
    out
}

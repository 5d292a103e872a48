//! Changes of files, and the positions of fields in the dump after the run that makes a new object, in the files with
//! weak words, and in the image with three marks.
use std::alloc::AllocError;

/// A change of a file.
#[derive(Clone, Copy)]
pub enum Change {
    /// No change.
    None,
    /// The byte at this position becomes this one.
    Byte(usize, u8),
    /// The word of 8 bytes at this position becomes this one.
    Word(usize, u64),
    /// The file is cut to this length.
    Cut(usize),
    /// This byte is added at the end.
    Push(u8),
    /// These numbers become the lists of builds of that dump.
    Builds(&'static [u32]),
}

/// The position of its version.
pub const VERSION: usize = 8;

/// The position of its root.
pub const ROOT: usize = 28;

/// The position of the data word of the first object.
pub const FIRST_DATA: usize = 45;

/// The position of the reference that was written.
pub const REFERENCE: usize = 61;

/// The position of the last word of page 0.
pub const LAST_WORD: usize = 541;

/// The position of the stamp of the reference's entry.
pub const REFERENCE_STAMP: usize = 553;

/// The position of the kind of the reference's entry.
pub const REFERENCE_KIND: usize = 562;

/// The position of the value of the reference's entry.
pub const REFERENCE_VALUE: usize = 564;

/// The position of the stamp of the header's entry.
pub const HEADER_STAMP: usize = 1_089;

/// The position of the offset of the header's entry.
pub const HEADER_OFFSET: usize = 1_099;

/// The position of the record of the last page.
pub const LAST_PAGE: usize = 1_108;

/// The position of its live words.
pub const TOTAL: usize = 1_121;

/// The position of the first weak word in the image of the three objects of edition two.
pub const WEAK_WORD: usize = 32;

/// The position of that weak word in a dump of them. The entry of page 0 is at the position of the reference's entry.
pub const SLID_WEAK_WORD: usize = 45;

/// The position of the data count in the header of the second object, in the image of the three objects.
pub const SECOND_DATA_COUNT: usize = 42;

/// The position of the reference of the second object in that image.
pub const SECOND_REFERENCE: usize = 48;

/// The position of the header of the last object in that image.
pub const LAST_HEADER: usize = 64;

/// The position of the reference of the last object in that image.
pub const LAST_REFERENCE: usize = 72;

/// The position of the first mark in the image with three marks. The second one follows.
pub const FIRST_MARK: usize = 80;

/// The position of the root in the image with three marks.
pub const MARKED_ROOT: usize = 92;

// The position of the lists of builds.
const BUILDS: usize = 1_109;

// Its live words.
const LIVE_WORDS: u64 = 5;

/// Makes a change.
pub fn make_change(bytes: &mut Vec<u8>, change: Change) -> Result<(), AllocError> {
    match change {
        Change::None => (),
        Change::Byte(at, new) => put(bytes, at, &[new]),
        Change::Word(at, new) => put(bytes, at, &new.to_le_bytes()),
        Change::Cut(length) => bytes.truncate(length),
        Change::Push(new) => bytes.push(new)?,
        Change::Builds(numbers) => put_builds(bytes, numbers)?,
    }
    Ok(())
}

// Puts bytes at a position. Bytes past the end are dropped.
fn put(bytes: &mut [u8], at: usize, new: &[u8]) {
    for (place, byte) in bytes.iter_mut().skip(at).zip(new) {
        *place = *byte;
    }
}

// Replaces the lists of builds of a dump, and puts its live words after them.
fn put_builds(bytes: &mut Vec<u8>, numbers: &[u32]) -> Result<(), AllocError> {
    bytes.truncate(BUILDS);
    for number in numbers {
        bytes.extend_from_slice(&number.to_le_bytes())?;
    }
    bytes.extend_from_slice(&LIVE_WORDS.to_le_bytes())
}

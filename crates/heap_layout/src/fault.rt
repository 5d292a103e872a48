ghost use Rattle.std.specs.Prelude.{◌≡◌};
ghost use Rattle.heap_layout.specs.declared.fault.LayoutFault.TheVariants as layout;

use std::alloc::AllocError;
use thiserror::Error;

/// An allocation failed. No contract says when that happens.
#[derive(Clone, Copy, Debug, PartialEq, Eq, Error)]
#[error("OutOfMemory")]
pub struct OutOfMemory;

impl From<AllocError> for OutOfMemory {
    fn from(_error: AllocError) -> OutOfMemory {
        OutOfMemory
    }
}

/// Why a heap, or the image of one, is refused. If there are several causes, the first in this order counts: the sizes;
/// for each object in turn its length and its end; for each mark in turn its order and its position; the roots; the
/// references; the weak words. While an image is read, its magic, its version, its length and bytes after its end come
/// before these, except that the sizes are checked as soon as the counts are read.
#[derive(Clone, Copy, Debug, PartialEq, Eq, Error)]
pub enum LayoutFault {
    /// There are more words, marks or roots than the edition allows.
    #[error("H1 TooLarge")]
    TooLarge,
    /// The object at this index ends past the words.
    #[error("H2 ObjectPastEnd({0})")]
    ObjectPastEnd(u64),
    /// The object at this index has more words than the edition allows.
    #[error("H3 ObjectTooLong({0})")]
    ObjectTooLong(u64),
    /// No object starts at the index that this mark gives.
    #[error("H4 MarkNotStart({0})")]
    MarkNotStart(u64),
    /// This mark is not above the mark before it.
    #[error("H5 MarksNotRising({0})")]
    MarksNotRising(u64),
    /// The root with this number is neither null nor the address of a marked object, nor an immediate of edition
    /// four.
    #[error("H6 BadRoot({0})")]
    BadRoot(u64),
    /// The word at this index is a reference of a marked object, but neither null nor the address of a marked object,
    /// nor an immediate of edition four.
    #[error("H7 UnmarkedTarget({0})")]
    UnmarkedTarget(u64),
    /// The image ends early.
    #[error("H8 Truncated")]
    Truncated,
    /// Bytes follow the image.
    #[error("H9 TrailingBytes")]
    TrailingBytes,
    /// The first 8 bytes are not the magic, or the version is unknown.
    #[error("H10 BadMagic")]
    BadMagic,
    /// An allocation failed.
    #[error("H11 OutOfMemory")]
    OutOfMemory,
    /// A call of the reader or writer failed, even if it was only interrupted.
    #[error("H12 Device")]
    Device,
    /// The word at this index is a weak word of a marked object, but neither null nor the address of an object, marked
    /// or not, nor an immediate of edition four.
    #[error("H13 BadWeak({0})")]
    BadWeak(u64),
}

impl From<AllocError> for LayoutFault {
    ghost from_gives = { λ _ fault. fault ≡ layout.OutOfMemory };

    fn from(_error: AllocError) -> LayoutFault {
        LayoutFault::OutOfMemory
    }
}

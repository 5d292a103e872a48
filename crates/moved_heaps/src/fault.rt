//! Why a moved heap is not lawful.
ghost use Rattle.std.specs.Prelude.{◌≡◌};
ghost use Rattle.moved_heaps.specs.declared.fault.MovedFault.TheVariants as faults;

use std::alloc::AllocError;
use thiserror::Error;

/// What of the head of a moved heap is wrong.
#[derive(Clone, Copy, Debug, PartialEq, Eq)]
pub enum HeadPart {
    /// The edition is not that of the heap.
    Edition,
    /// There are not as many places as marked objects.
    Places,
    /// There are not as many roots as the heap has.
    Roots,
}

/// Why a moved heap is not lawful. If there are several causes, the first in this order counts, with the least number.
/// Objects are the marked ones, counted from 0 in the order of the marks.
#[derive(Clone, Copy, Debug, PartialEq, Eq, Error)]
pub enum MovedFault {
    /// The edition, the number of places or the number of roots is not that of the heap.
    #[error("V1 WrongHead({0:?})")]
    WrongHead(HeadPart),
    /// This object ends past the words.
    #[error("V2 PlaceOutside({0})")]
    PlaceOutside(u64),
    /// The second of these objects begins inside the first. In the order of the new places, and of the numbers if
    /// places are equal, no object before the first overlaps a later one, and the second is the one after the first.
    #[error("V3 Overlap({0}, {1})")]
    Overlap(u64, u64),
    /// The root with this number is not the new address of its object, or not null although the root was.
    #[error("V4 WrongRoot({0})")]
    WrongRoot(u64),
    /// Of this object the word at this offset, in words, is wrong.
    #[error("V5 WrongWord({0}, {1})")]
    WrongWord(u64, u64),
    /// An allocation failed.
    #[error("V6 OutOfMemory")]
    OutOfMemory,
}

impl From<AllocError> for MovedFault {
    ghost from_gives = { λ _ fault. fault ≡ faults.OutOfMemory };

    fn from(_error: AllocError) -> MovedFault {
        MovedFault::OutOfMemory
    }
}

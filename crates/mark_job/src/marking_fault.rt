//! Why a marking does not begin, go on, or end.
use std::alloc::AllocError;
use stopped_heap::BitsFault;

/// Why no marking begins.
#[derive(Clone, Copy, Debug, PartialEq, Eq)]
pub enum MarkingFault {
    /// There are more words or roots than the edition allows.
    TooLarge,
    /// The edition, one or two, allows fewer words in an object than in a heap, so bits do not say that an object is
    /// short enough.
    ShortObjects,
    /// The root with this number is neither null nor the address of one of the words, nor an immediate.
    BadRoot(u64),
    /// An allocation failed.
    OutOfMemory,
}

impl From<AllocError> for MarkingFault {
    ghost use Rattle.std.specs.Prelude.{◌≡◌};
    ghost use Rattle.mark_job.specs.declared.marking_fault.MarkingFault.TheVariants as begin;

    ghost from_gives = { λ _ fault. fault ≡ begin.OutOfMemory };

    fn from(_error: AllocError) -> MarkingFault {
        MarkingFault::OutOfMemory
    }
}

/// The words that were lent are not as many as the marking is of. Nothing was done.
#[derive(Clone, Copy, Debug, PartialEq, Eq)]
pub struct WrongLength;

/// Why values were not met. Then none of them was.
#[derive(Clone, Copy, Debug, PartialEq, Eq)]
pub enum MeetFault {
    /// The value with this number is neither null nor the address of one of the words, nor an immediate.
    BadValue(u64),
    /// Other threads had all lanes a moment ago. Call again.
    Busy,
    /// An allocation failed.
    OutOfMemory,
}

/// Why a marking does not end.
#[derive(Clone, Copy, Debug, PartialEq, Eq)]
pub enum MarkingEnd {
    /// Objects wait still, or a thread died in the middle of a call.
    Waiting,
    /// A helper got no memory.
    NoMemory,
    /// The object at this index was met, and is too long for the edition, ends past the words, or has a word with
    /// another object that was met.
    BadObject(u64),
    /// The bits or the roots are not taken, as `Places::of_bits` says.
    Bits(BitsFault),
}

impl From<AllocError> for MarkingEnd {
    ghost use Rattle.std.specs.Prelude.{◌≡◌};
    ghost use Rattle.rest_marks.specs.declared.fault.BitsFault.TheVariants as given;
    ghost use Rattle.mark_job.specs.declared.marking_fault.MarkingEnd.TheVariants as end;

    ghost from_gives = { λ _ fault. fault ≡ end.Bits given.OutOfMemory };

    fn from(_error: AllocError) -> MarkingEnd {
        MarkingEnd::Bits(BitsFault::OutOfMemory)
    }
}

use std::alloc::AllocError;
use thiserror::Error;

/// Why the words and roots of a heap are not surveyed. `TooLarge` comes before the others. Among those no order is
/// promised: the fault that is answered is there, and there may be others too.
#[derive(Clone, Copy, Debug, PartialEq, Eq, Error)]
pub enum SurveyFault {
    /// There are more words or roots than the edition allows.
    #[error("S1 TooLarge")]
    TooLarge,
    /// The root with this number is neither null nor the address of one of the words, nor an immediate.
    #[error("S2 BadRoot({0})")]
    BadRoot(u64),
    /// The word at this index is a reference of a reached object, and neither null nor the address of one of the words,
    /// nor an immediate.
    #[error("S3 BadReference({0})")]
    BadReference(u64),
    /// The word at this index is a weak word of a reached object, and neither null nor the address of one of the words,
    /// nor an immediate.
    #[error("S4 BadWeak({0})")]
    BadWeak(u64),
    /// The object at this index is reached, and has more words than the edition allows.
    #[error("S5 ObjectTooLong({0})")]
    ObjectTooLong(u64),
    /// The object at this index is reached, and ends past the words.
    #[error("S6 ObjectPastEnd({0})")]
    ObjectPastEnd(u64),
    /// The object at this index is reached, and so is another one that has a word with it.
    #[error("S7 Overlap({0})")]
    Overlap(u64),
    /// An allocation failed. No other fault was met before, and there are not too many words or roots.
    #[error("S8 OutOfMemory")]
    OutOfMemory,
}

impl From<AllocError> for SurveyFault {
    ghost use Rattle.std.specs.Prelude.{◌≡◌};
    ghost use Rattle.rest_marks.specs.declared.fault.SurveyFault.TheVariants as survey;

    ghost from_gives = { λ _ fault. fault ≡ survey.OutOfMemory };

    fn from(_error: AllocError) -> SurveyFault {
        SurveyFault::OutOfMemory
    }
}

/// Why words are not surveyed by marks that the caller made. `TooLarge` comes first, then `WrongLength`, then the
/// others. Among those no order is promised: the fault that is answered is there, and there may be others too.
#[derive(Clone, Copy, Debug, PartialEq, Eq, Error)]
pub enum MarksFault {
    /// There are more words or roots than the edition allows.
    #[error("there are too many words or roots")]
    TooLarge,
    /// There is not just one block of bits for each 64 words, the last ones in part.
    #[error("there are not as many bits as words")]
    WrongLength,
    /// The root with this number is neither null nor the address of a marked object, nor an immediate.
    #[error("root {0} leads to no marked object")]
    BadRoot(u64),
    /// The object at this index is marked, and has more words than the edition allows.
    #[error("the object at {0} is too long")]
    ObjectTooLong(u64),
    /// The object at this index is marked, and ends past the words.
    #[error("the object at {0} ends past the words")]
    ObjectPastEnd(u64),
    /// The object at this index is marked, and so is another one that has a word with it.
    #[error("the object at {0} overlaps another one")]
    Overlap(u64),
    /// The word at this index is a reference of a marked object, and neither null nor the address of a marked object,
    /// nor an immediate.
    #[error("the reference at {0} leads to no marked object")]
    UnmarkedTarget(u64),
    /// The word at this index is a weak word of a marked object, and neither null nor the address of one of the words,
    /// nor an immediate.
    #[error("the weak word at {0} leads nowhere")]
    BadWeak(u64),
    /// An allocation failed. No other fault was met before, there are not too many words or roots, and there are as
    /// many bits as words.
    #[error("out of memory")]
    OutOfMemory,
}

impl From<AllocError> for MarksFault {
    ghost use Rattle.std.specs.Prelude.{◌≡◌};
    ghost use Rattle.rest_marks.specs.declared.fault.MarksFault.TheVariants as marks;

    ghost from_gives = { λ _ fault. fault ≡ marks.OutOfMemory };

    fn from(_error: AllocError) -> MarksFault {
        MarksFault::OutOfMemory
    }
}

/// Why bits that the caller set are not taken: `ShortObjects` comes first, then `TooLarge`, then `WrongLength`, then
/// the others. Among those no order is promised: the fault that is answered is there, and there may be others too.
#[derive(Clone, Copy, Debug, PartialEq, Eq, Error)]
pub enum BitsFault {
    /// There are more words or roots than a heap of the edition has.
    #[error("too many words or roots")]
    TooLarge,
    /// The edition, one or two, allows fewer words in an object than in a heap, so bits do not say that an object is
    /// short enough.
    #[error("the edition has short objects")]
    ShortObjects,
    /// There is not just one block of bits for each 64 words, the last ones in part.
    #[error("there are not as many bits as words")]
    WrongLength,
    /// The root with this number is neither null nor the address of a marked object, nor an immediate.
    #[error("root {0} leads to no marked object")]
    BadRoot(u64),
    /// The word at this index is a first word and not live, or it is live, and neither a first word nor behind a live
    /// one.
    #[error("the word at {0} belongs to no run")]
    NotARun(u64),
    /// The bit at this index is behind those of the words, and set.
    #[error("the live word at {0} is past the end")]
    PastEnd(u64),
    /// An allocation failed. There is no other fault.
    #[error("out of memory")]
    OutOfMemory,
}

impl From<AllocError> for BitsFault {
    ghost use Rattle.std.specs.Prelude.{◌≡◌};
    ghost use Rattle.rest_marks.specs.declared.fault.BitsFault.TheVariants as given;

    ghost from_gives = { λ _ fault. fault ≡ given.OutOfMemory };

    fn from(_error: AllocError) -> BitsFault {
        BitsFault::OutOfMemory
    }
}

/// Why a heap is not collected by bits that the caller set. A fault that is answered is there.
#[derive(Clone, Copy, Debug, PartialEq, Eq, Error)]
pub enum ByBitsFault {
    /// The bits are not taken.
    #[error("{0}")]
    Bits(BitsFault),
    /// The live words are so many, and the memory into which they would slide has fewer.
    #[error("{0} live words do not fit")]
    NoRoom(u64),
    /// An object is not as the bits say, or leads to one that is not marked.
    #[error("{0}")]
    Slide(SlideFault),
}

/// Why a marking by looks is not ended.
#[derive(Clone, Copy, Debug, PartialEq, Eq, Error)]
pub enum FinishFault {
    /// Objects wait to be looked at.
    #[error("objects wait to be looked at")]
    StillWaiting,
    /// The bits that the marking set are not taken, or a root leads to no object that was met.
    #[error("{0}")]
    Bits(BitsFault),
}

/// Why an object is not looked at. A fault that is answered is there; there may be others too.
#[derive(Clone, Copy, Debug, PartialEq, Eq, Error)]
pub enum LookFault {
    /// No object waits for these words, or none was met at this index.
    #[error("there is no such object")]
    NoSuchObject,
    /// The words that were handed in are fewer than these: the header, or the header, the references and the weak
    /// words.
    #[error("{0} words are wanted")]
    ShortRun(u64),
    /// The object at this index is longer than an object of the edition may be.
    #[error("the object at {0} is too long")]
    ObjectTooLong(u64),
    /// The object at this index ends past the words.
    #[error("the object at {0} ends past the words")]
    ObjectPastEnd(u64),
    /// The object at this index has a word with an object that was looked at before.
    #[error("the object at {0} overlaps another one")]
    Overlap(u64),
    /// The word at this index is a reference, and neither null nor the address of one of the words, nor an immediate.
    #[error("the reference at {0} leads nowhere")]
    BadReference(u64),
    /// The word at this index is a weak word, and neither null nor the address of one of the words, nor an immediate.
    #[error("the weak word at {0} leads nowhere")]
    BadWeak(u64),
    /// An allocation failed. As many words were handed in as are wanted, and a reference leads to an object that was
    /// not met.
    #[error("out of memory")]
    OutOfMemory,
}

/// Why the objects at which a marking looked are not as they must be. `WrongLength` comes first. Among the others no
/// order is promised: the fault that is answered is there, and there may be others too.
#[derive(Clone, Copy, Debug, PartialEq, Eq, Error)]
pub enum CheckFault {
    /// There are not as many words as the marking has.
    #[error("there are not as many words as the marking has")]
    WrongLength,
    /// The object at this index was looked at, and it is too long, it ends past the words, the bit of one of its words
    /// is not set, or it has a word with another object that was looked at. So its header is another one now.
    #[error("the object at {0} was changed")]
    Changed(u64),
    /// The word at this index is a reference of an object that was looked at, and neither null nor the address of an
    /// object that was met, nor an immediate.
    #[error("the reference at {0} leads to no object that was met")]
    Unmarked(u64),
    /// The word at this index is a weak word of an object that was looked at, and neither null nor the address of one
    /// of the words, nor an immediate.
    #[error("the weak word at {0} leads nowhere")]
    BadWeak(u64),
    /// The bit of the word at this index is set, and the word belongs to no object that was looked at. So an object is
    /// shorter now.
    #[error("the word at {0} belongs to no object")]
    Unowned(u64),
    /// An allocation failed. There are as many words as the marking has.
    #[error("out of memory")]
    OutOfMemory,
}

/// Why the objects to which values lead are not met.
#[derive(Clone, Copy, Debug, PartialEq, Eq, Error)]
pub enum MeetFault {
    /// The value with this number is neither null nor the address of one of the words, nor an immediate.
    #[error("value {0} leads nowhere")]
    BadValue(u64),
    /// An allocation failed. One of the values leads to an object that was not met.
    #[error("out of memory")]
    OutOfMemory,
}

/// Why the lanes of two markers are not joined.
#[derive(Clone, Copy, Debug, PartialEq, Eq, Error)]
pub enum JoinFault {
    /// They are not of heaps of one edition and of as many words.
    #[error("the lanes are of different heaps")]
    OtherHeap,
    /// Both met the object at this index and let it wait or looked at it, or both looked at an object with this word.
    #[error("both lanes have the word at {0}")]
    Overlap(u64),
    /// An allocation failed. There is no other fault.
    #[error("out of memory")]
    OutOfMemory,
}

impl From<AllocError> for JoinFault {
    ghost use Rattle.std.specs.Prelude.{◌≡◌};
    ghost use Rattle.rest_marks.specs.declared.fault.JoinFault.TheVariants as join;

    ghost from_gives = { λ _ fault. fault ≡ join.OutOfMemory };

    fn from(_error: AllocError) -> JoinFault {
        JoinFault::OutOfMemory
    }
}

/// Why lanes are not the whole of a marking: the object at this index is known, and none of them has it.
#[derive(Clone, Copy, Debug, PartialEq, Eq, Error)]
#[error("no lane has the object at {0}")]
pub struct Missing(pub u64);

/// Why a heap is not collected.
#[derive(Clone, Copy, Debug, PartialEq, Eq, Error)]
pub enum CollectFault {
    /// The heap is refused, or memory ran out.
    #[error("{0}")]
    Survey(SurveyFault),
    /// The live words are so many, and the memory into which they would slide has fewer.
    #[error("{0} live words do not fit")]
    NoRoom(u64),
}

/// Why a heap is not surveyed by tables that were lent: `TooLarge` comes first, then `ShortTables`, then the others.
/// `OutOfMemory` never comes.
#[derive(Clone, Copy, Debug, PartialEq, Eq, Error)]
pub enum LentFault {
    /// There are more words than these, for which the tables have room, though not too many words or roots for the
    /// edition. Nothing else was looked at.
    #[error("the tables have room for {0} words")]
    ShortTables(u64),
    /// The heap is refused.
    #[error("{0}")]
    Survey(SurveyFault),
}

/// Why words are not surveyed by marks of the caller's own in tables that were lent: `TooLarge` comes first, then
/// `ShortTables`, then `WrongLength`, then the others. `OutOfMemory` never comes.
#[derive(Clone, Copy, Debug, PartialEq, Eq, Error)]
pub enum MarksLentFault {
    /// There are more words than these, for which the tables have room, though not too many words or roots for the
    /// edition. Nothing else was looked at.
    #[error("the tables have room for {0} words")]
    ShortTables(u64),
    /// The words, the roots or the marks are refused.
    #[error("{0}")]
    Marks(MarksFault),
}

/// Why a heap is not collected by tables that were lent: `TooLarge` comes first, then `ShortTables`, then the others.
/// `OutOfMemory` never comes.
#[derive(Clone, Copy, Debug, PartialEq, Eq, Error)]
pub enum CollectLentFault {
    /// There are more words than these, for which the tables have room, though not too many words or roots for the
    /// edition. Nothing else was looked at.
    #[error("the tables have room for {0} words")]
    ShortTables(u64),
    /// The heap is refused, or its live words do not fit.
    #[error("{0}")]
    Collect(CollectFault),
}

/// Why a part is not filled from words that may be others than those that were surveyed: `NoSuchPart` comes first, then
/// `OtherCount`, then a fault of an object that has a word in the part.
#[derive(Clone, Copy, Debug, PartialEq, Eq, Error)]
pub enum SlideFault {
    /// The part ends behind the live words.
    #[error("the part ends behind the live words")]
    NoSuchPart,
    /// There are not as many words as were surveyed.
    #[error("there are not as many words as were surveyed")]
    OtherCount,
    /// The object at this index has a word in the part, and not as many words as when it was surveyed: its header was
    /// changed.
    #[error("the object at {0} was changed")]
    Changed(u64),
    /// The word at this index is a reference in the part, and neither null nor the address of a live object, nor an
    /// immediate.
    #[error("the reference at {0} leads to no live object")]
    Unmarked(u64),
}

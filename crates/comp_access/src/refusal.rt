use thiserror::Error;

/// Why a call of a mutator was refused. If several causes hold, the call answers the first one in this list. One
/// exception: `NotAStart` of the value to be written comes after `NoSuchField`.
#[derive(Clone, Copy, Debug, PartialEq, Eq, Error)]
pub enum Refusal {
    /// The object is null.
    #[error("M1 Null")]
    Null,
    /// The pass knows of no object that starts at this address. The address was given as the object, or as the
    /// reference or weak word to be written.
    #[error("M2 NotAStart({0})")]
    NotAStart(u64),
    /// The object has no field of this kind with this index.
    #[error("M3 NoSuchField")]
    NoSuchField,
    /// The heap's edition has no header like this: edition one has no weak words, edition two no tag of 2^16 or more,
    /// editions three and four no tag of 2^14 or more.
    #[error("M11 NotInEdition")]
    NotInEdition,
    /// The object would have more than 64 words.
    #[error("M4 ObjectTooLarge")]
    ObjectTooLarge,
    /// No fresh page of the mutator has room for the object.
    #[error("M5 OutOfPages")]
    OutOfPages,
    /// Another mutator builds or holds this page, or was faster.
    #[error("M6 Busy({0})")]
    Busy(u64),
    /// The journal of this page is full: it has 1,024 entries.
    #[error("M7 JournalFull({0})")]
    JournalFull(u64),
    /// Out of memory.
    #[error("M8 OutOfMemory")]
    OutOfMemory,
}

//! Why calls by tables with a watermark are refused.
use stopped_heap::SurveyFault;
use thiserror::Error;

/// Why a heap is not collected by tables with a watermark. They come in this order: a fault comes only if there is none
/// of those before it. Of the last kind the fault that is answered is there, and there may be others too.
#[derive(Clone, Copy, Debug, PartialEq, Eq, Error)]
pub enum YoungFault {
    /// There are more words or roots than the edition allows.
    #[error("there are too many words or roots")]
    TooLarge,
    /// There are more words than these, for which the tables have room.
    #[error("the tables have room for {0} words")]
    ShortTables(u64),
    /// There are fewer words than these, the watermark.
    #[error("there are fewer words than the watermark, {0}")]
    FewWords(u64),
    /// There are fewer cards than these: one for each 64 words below the watermark, or, where the cards are made anew,
    /// one for each 64 words that the last collection left.
    #[error("{0} cards are wanted")]
    FewCards(u64),
    /// The word at this index is listed, and is no reference and no weak word of an old object. Maybe it is not below
    /// the watermark, or is a header or a data word.
    #[error("no old object has a reference or a weak word at {0}")]
    NotAField(u64),
    /// A root, a remembered word or an object that is met is refused. It is never `TooLarge` or `OutOfMemory`.
    #[error("{0}")]
    Survey(SurveyFault),
}

/// Why a watermark is not raised. They come in this order: a fault comes only if there is none of those before it.
#[derive(Clone, Copy, Debug, PartialEq, Eq, Error)]
pub enum RaiseFault {
    /// There are more words than the edition allows.
    #[error("there are too many words")]
    TooLarge,
    /// There are more words than these, for which the tables have room.
    #[error("the tables have room for {0} words")]
    ShortTables(u64),
    /// There are fewer words than these, up to which they would be old.
    #[error("there are fewer words than the end, {0}")]
    FewWords(u64),
    /// The end is below this, the watermark.
    #[error("the end is below the watermark, {0}")]
    BelowWatermark(u64),
    /// The words from the watermark up to this index are a row of objects; the header there says more words than an
    /// object may have, or more than there are up to the end.
    #[error("no object that ends in time is at {0}")]
    NotARow(u64),
}

/// What is not as mutators have to keep it below the watermark. A fault that is answered is there; there may be others
/// too.
#[derive(Clone, Copy, Debug, PartialEq, Eq, Error)]
pub enum OldFault {
    /// The words below this index are a row of objects that start where they did after the last collection; the row
    /// does not go on there, so a header was changed, or the words were moved or are fewer.
    #[error("no old object is at {0}")]
    NotARow(u64),
    /// The word at this index is a reference or a weak word of an old object on a clean card, and leads to no old
    /// object: its store marked no card.
    #[error("the word at {0} leads above from a clean card")]
    LeadsAbove(u64),
}

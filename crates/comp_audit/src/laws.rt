//! Laws of the audit. Each is the contract of a function that does nothing.
ghost use Rattle.comp_audit.specs.Faultless.{FaultlessIsLawful};
ghost use Rattle.comp_audit.specs.Meant.{FinishedIsYes, LawfulIsYes, YesIsSound};
ghost use Rattle.comp_audit.specs.WholeAudit.{UnwrittenIsSlid, WholeIsReplayed};

/// A journal has no fault if and only if it is lawful and its stamps rise.
pub fn faultless_is_lawful()
    ensures { FaultlessIsLawful }
{}

/// If the heap is accepted, the dump is in range and the audit says yes, then a compaction can have left the dump. Its
/// entries have one history, which a single thread could have written. Each of its references and weak words is null or
/// the address of an object.
pub fn yes_is_sound()
    ensures { YesIsSound }
{}

/// The audit says yes to each lawful dump in range, unless memory runs out. So it does to the dump of each finished
/// heap.
pub fn lawful_is_yes()
    ensures lawful { LawfulIsYes }
    ensures finished { FinishedIsYes }
{}

/// If the heap is accepted, the dump is in range and the whole audit says yes, then the words of the compacted pages
/// are what their journals make of the slid words, page by page, with zeros after the last slid word. If these pages
/// have no entry, their words are the slid words, with zeros after them.
pub fn whole_is_slid()
    ensures replayed { WholeIsReplayed }
    ensures unwritten { UnwrittenIsSlid }
{}

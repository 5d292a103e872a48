//! Reports that several tests expect. An entry is named by its page and by its number in the journal.
use crate::judged_dumps::Report;
use comp_audit::{AuditFault, DumpFault, Verdict};
use test_support::T;

/// The dump is lawful.
pub const YES: Report = Ok(Verdict::Yes);

/// The bytes before the first number are not those of a dump of a known edition.
pub const BAD_MAGIC: Report = Err(DumpFault::BadMagic);

/// A field is out of range.
pub const BAD_FIELD: Report = Err(DumpFault::BadField);

/// The bytes end too early.
pub const TRUNCATED: Report = Err(DumpFault::Truncated);

/// There are bytes after the end.
pub const TOO_LONG: Report = Err(DumpFault::TrailingBytes);

/// The head is not that of the plan.
pub const WRONG_HEAD: Report = Ok(Verdict::No(AuditFault::WrongHead));

/// The number of live words is wrong.
pub const WRONG_TOTAL: Report = Ok(Verdict::No(AuditFault::WrongTotal));

/// The entry of the compacted page does not fit.
pub const BAD_SLID: Report = Ok(Verdict::No(AuditFault::BadEntry(0, 0)));

/// The entry of the new object's header does not fit.
pub const BAD_HEADER: Report = Ok(Verdict::No(AuditFault::BadEntry(1, 0)));

/// The entry after it does not fit.
pub const BAD_MADE: Report = Ok(Verdict::No(AuditFault::BadEntry(1, 1)));

/// Word 1 of the compacted page is wrong.
pub const WRONG_WORD_1: Report = Ok(Verdict::No(AuditFault::WrongWord(T + 1)));

/// The first word of the first fresh page is wrong.
pub const WRONG_WORD_64: Report = Ok(Verdict::No(AuditFault::WrongWord(T + 64)));

/// Its next word is wrong.
pub const WRONG_WORD_65: Report = Ok(Verdict::No(AuditFault::WrongWord(T + 65)));

/// Stamp 0 stands twice.
pub const REPEATED_0: Report = Ok(Verdict::No(AuditFault::StampRepeated(0)));

/// Stamp 1 stands twice.
pub const REPEATED_1: Report = Ok(Verdict::No(AuditFault::StampRepeated(1)));

/// Stamp 1 is missing.
pub const MISSING_1: Report = Ok(Verdict::No(AuditFault::StampMissing(1)));

/// Stamp 2 is missing.
pub const MISSING_2: Report = Ok(Verdict::No(AuditFault::StampMissing(2)));

/// Page 0 was built, and no list of builds names it.
pub const UNCLAIMED_0: Report = Ok(Verdict::No(AuditFault::BuildUnclaimed(0)));

//! The dump of the heap with many fields with some fields changed, and the report on each.
use crate::dump_bytes::{Change, Whole};
use crate::expected_reports::{BAD_FIELD, WRONG_HEAD, WRONG_TOTAL, YES};
use crate::judged_dumps::{JudgedDump, Report, expect_large_judged};
use comp_audit::{AuditFault, Verdict};
use test_support::{T, VERSION, Worked};

// Reports on the dump of the heap with many fields.
const WRONG_DATA: Report = Ok(Verdict::No(AuditFault::WrongWord(T + 140_004)));

const BAD_DATA: Report = Ok(Verdict::No(AuditFault::BadEntry(2_187, 0)));

const BAD_WEAK: Report = Ok(Verdict::No(AuditFault::BadEntry(3_281, 0)));

const BAD_FRESH: Report = Ok(Verdict::No(AuditFault::BadEntry(3_282, 0)));

const LOOSE_WEAK: Report = Ok(Verdict::No(AuditFault::LooseReference(T + 210_005)));

// The positions of the last weak word and of the value of its entry.
const LAST_WEAK: usize = 4_553;

const WEAK_VALUE: usize = 4_912;

// The positions of the word of the new object and of the value of its entry.
const NEW_OBJECT: usize = 4_921;

const FRESH_VALUE: usize = 5_448;

// For the compacted heap with many fields.
static MANY_FORGED: [JudgedDump; 27] = [
    JudgedDump(Whole::ManyWritten, &[], YES),
    // Another version. Edition one has no entry of a weak word.
    JudgedDump(Whole::ManyWritten, &[Change(VERSION, 4, 4, 2)], WRONG_HEAD),
    JudgedDump(Whole::ManyWritten, &[Change(VERSION, 4, 4, 1)], BAD_FIELD),
    // The last root is null.
    JudgedDump(Whole::ManyWritten, &[Change(44, 8, 8, 0)], WRONG_HEAD),
    // Reference number 65,536 is null.
    JudgedDump(
        Whole::ManyWritten,
        &[Change(1_085, 8, 8, 0)],
        Ok(Verdict::No(AuditFault::WrongWord(T + 65_537))),
    ),
    // The last data word: as it slid, and another one by its entry.
    JudgedDump(Whole::ManyWritten, &[Change(3_044, 8, 8, 13)], WRONG_DATA),
    JudgedDump(
        Whole::ManyWritten,
        &[Change(3_044, 8, 8, 78), Change(3_283, 8, 8, 78)],
        YES,
    ),
    // Its entry writes a reference, a weak word or a header there, or data into the header or the weak word after it.
    JudgedDump(Whole::ManyWritten, &[Change(3_281, 1, 1, 1)], BAD_DATA),
    JudgedDump(Whole::ManyWritten, &[Change(3_281, 1, 1, 3)], BAD_DATA),
    JudgedDump(Whole::ManyWritten, &[Change(3_281, 1, 1, 0)], BAD_DATA),
    JudgedDump(Whole::ManyWritten, &[Change(3_282, 1, 1, 37)], BAD_DATA),
    JudgedDump(Whole::ManyWritten, &[Change(3_282, 1, 1, 38)], BAD_DATA),
    // The entry of the last weak word writes the one before it, or the data word after it.
    JudgedDump(
        Whole::ManyWritten,
        &[Change(4_911, 1, 1, 20)],
        Ok(Verdict::No(AuditFault::WrongWord(T + 210_004))),
    ),
    JudgedDump(Whole::ManyWritten, &[Change(4_911, 1, 1, 22)], BAD_WEAK),
    // It leads to each object, and into objects.
    JudgedDump(
        Whole::ManyWritten,
        &[
            Change(LAST_WEAK, 8, 8, T + 70_003),
            Change(WEAK_VALUE, 8, 8, T + 70_003),
        ],
        YES,
    ),
    JudgedDump(
        Whole::ManyWritten,
        &[
            Change(LAST_WEAK, 8, 8, T + 140_005),
            Change(WEAK_VALUE, 8, 8, T + 140_005),
        ],
        YES,
    ),
    JudgedDump(
        Whole::ManyWritten,
        &[
            Change(LAST_WEAK, 8, 8, T + 65_537),
            Change(WEAK_VALUE, 8, 8, T + 65_537),
        ],
        LOOSE_WEAK,
    ),
    JudgedDump(
        Whole::ManyWritten,
        &[
            Change(LAST_WEAK, 8, 8, T + 210_006),
            Change(WEAK_VALUE, 8, 8, T + 210_006),
        ],
        LOOSE_WEAK,
    ),
    JudgedDump(
        Whole::ManyWritten,
        &[
            Change(LAST_WEAK, 8, 8, T + 210_049),
            Change(WEAK_VALUE, 8, 8, T + 210_049),
        ],
        LOOSE_WEAK,
    ),
    // The new object has 63 fields, and 64, and the most.
    JudgedDump(
        Whole::ManyWritten,
        &[
            Change(NEW_OBJECT, 8, 8, 0x8000_0000_0000_003f),
            Change(FRESH_VALUE, 8, 8, 0x8000_0000_0000_003f),
            Change(5_480, 8, 8, 210_071),
        ],
        YES,
    ),
    JudgedDump(
        Whole::ManyWritten,
        &[
            Change(NEW_OBJECT, 8, 8, 0x8000_0000_0000_0040),
            Change(FRESH_VALUE, 8, 8, 0x8000_0000_0000_0040),
        ],
        BAD_FRESH,
    ),
    JudgedDump(
        Whole::ManyWritten,
        &[
            Change(NEW_OBJECT, 8, 8, 0x4000_0000_7fff_ffff),
            Change(FRESH_VALUE, 8, 8, 0x4000_0000_7fff_ffff),
        ],
        BAD_FRESH,
    ),
    JudgedDump(
        Whole::ManyWritten,
        &[
            Change(NEW_OBJECT, 8, 8, u64::MAX),
            Change(FRESH_VALUE, 8, 8, u64::MAX),
        ],
        BAD_FRESH,
    ),
    // The weak word was written before its object was made.
    JudgedDump(
        Whole::ManyWritten,
        &[Change(4_901, 8, 8, 1), Change(5_437, 8, 8, 2)],
        BAD_WEAK,
    ),
    // Stamps 0, 3 and 1.
    JudgedDump(
        Whole::ManyWritten,
        &[Change(4_901, 8, 8, 3)],
        Ok(Verdict::No(AuditFault::StampMissing(2))),
    ),
    // The second mutator built the page before.
    JudgedDump(
        Whole::ManyWritten,
        &[Change(5_476, 4, 4, 2_186)],
        Ok(Verdict::No(AuditFault::BuildUnclaimed(2_186))),
    ),
    // Only the words that slid.
    JudgedDump(
        Whole::ManyWritten,
        &[Change(5_480, 8, 8, 210_007)],
        WRONG_TOTAL,
    ),
];

#[test]
fn a_forged_dump_of_many_fields_is_refused_for_its_fault(rt: HostRuntime) {
    expect_large_judged(&rt, Worked::ManyFields, "many fields", &MANY_FORGED);
}

//! Runs of `audit`.
use test_support::{
    Change, Content, FIRST_DATA, HEADER_OFFSET, HEADER_STAMP, LAST_PAGE, LAST_WORD, REFERENCE,
    REFERENCE_STAMP, REFERENCE_VALUE, ROOT, Step, TOTAL, VERSION,
};

/// Dumps that are accepted.
pub const PASSED: &[Step] = &[
    Step::Write("left.tests.img", Content::ThreeImage),
    Step::Write("left.tests.trace", Content::FreshTrace),
    Step::Prints("compact left.tests.img left.tests.out", "live 4\n"),
    Step::Prints("audit left.tests.img left.tests.out", "ok 4\n"),
    Step::Prints(
        "replay --fresh 2 left.tests.img left.tests.trace left.tests.out",
        "live 5\n",
    ),
    Step::Prints("audit left.tests.img left.tests.out", "ok 5\n"),
    Step::Remove("left.tests.img"),
    Step::Remove("left.tests.trace"),
    Step::Remove("left.tests.out"),
];

/// Dumps that are refused, and files that are no dumps.
pub const JUDGED: &[Step] = &[
    Step::Write("judge.tests.img", Content::ThreeImage),
    Step::MakeFolder("judge.tests"),
    Step::Refuses(
        "audit judge.tests.img absent.tests.dump",
        "",
        "P1 CannotOpen(dump)",
    ),
    Step::Refuses(
        "audit absent.tests.img absent.tests.dump",
        "",
        "P1 CannotOpen(image)",
    ),
    Step::Refuses("audit judge.tests.img judge.tests.img", "", "B3 BadMagic"),
    Step::Refuses("audit judge.tests.img judge.tests", "", "B6 Device"),
    Step::Refuses("audit judge.tests judge.tests.img", "", "H12 Device"),
    Step::Remove("judge.tests.img"),
    Step::RemoveFolder("judge.tests"),
];

// The audit of the dump that was forged last.
const AUDIT: &str = "audit forge.tests.img forged.tests.dump";

/// Dumps with one thing forged. A reference that was written has its value both in its entry and in its word on the
/// page, and two stamps that are exchanged are one thing.
pub const FORGED: &[Step] = &[
    Step::Write("forge.tests.img", Content::ThreeImage),
    Step::Write("forged.tests.dump", Content::FreshDump),
    Step::Prints(AUDIT, "ok 5\n"),
    Step::Write(
        "forged.tests.dump",
        Content::ForgedDump(Change::Word(ROOT, 0), Change::None),
    ),
    Step::Refuses(AUDIT, "", "A8 WrongHead"),
    Step::Write(
        "forged.tests.dump",
        Content::ForgedDump(Change::Builds(&[1, 1]), Change::None),
    ),
    Step::Refuses(AUDIT, "", "A7 BuildUnclaimed(0)"),
    Step::Write(
        "forged.tests.dump",
        Content::ForgedDump(Change::Builds(&[3, 1, 0, 2]), Change::None),
    ),
    Step::Refuses(AUDIT, "", "A7 BuildUnclaimed(2)"),
    Step::Write(
        "forged.tests.dump",
        Content::ForgedDump(Change::Byte(HEADER_OFFSET, 1), Change::None),
    ),
    Step::Refuses(AUDIT, "", "A3 BadEntry(1, 0)"),
    Step::Write(
        "forged.tests.dump",
        Content::ForgedDump(Change::Word(FIRST_DATA, 12), Change::None),
    ),
    Step::Refuses(AUDIT, "", "A1 WrongWord(8589934593)"),
    Step::Write(
        "forged.tests.dump",
        Content::ForgedDump(Change::Word(LAST_WORD, 1), Change::None),
    ),
    Step::Refuses(AUDIT, "", "A1 WrongWord(8589934655)"),
    Step::Write(
        "forged.tests.dump",
        Content::ForgedDump(
            Change::Word(REFERENCE_VALUE, 8_589_934_593),
            Change::Word(REFERENCE, 8_589_934_593),
        ),
    ),
    Step::Refuses(AUDIT, "", "A2 LooseReference(8589934595)"),
    Step::Write(
        "forged.tests.dump",
        Content::ForgedDump(Change::Word(REFERENCE_STAMP, 0), Change::None),
    ),
    Step::Refuses(AUDIT, "", "A4 StampRepeated(0)"),
    Step::Write(
        "forged.tests.dump",
        Content::ForgedDump(Change::Word(REFERENCE_STAMP, 2), Change::None),
    ),
    Step::Refuses(AUDIT, "", "A5 StampMissing(1)"),
    Step::Write(
        "forged.tests.dump",
        Content::ForgedDump(
            Change::Word(HEADER_STAMP, 1),
            Change::Word(REFERENCE_STAMP, 0),
        ),
    ),
    Step::Refuses(AUDIT, "", "A3 BadEntry(0, 0)"),
    Step::Write(
        "forged.tests.dump",
        Content::ForgedDump(Change::Word(TOTAL, 6), Change::None),
    ),
    Step::Refuses(AUDIT, "", "A6 WrongTotal"),
    Step::Write(
        "forged.tests.dump",
        Content::ForgedDump(Change::Cut(1_128), Change::None),
    ),
    Step::Refuses(AUDIT, "", "B1 Truncated"),
    Step::Write(
        "forged.tests.dump",
        Content::ForgedDump(Change::Push(0), Change::None),
    ),
    Step::Refuses(AUDIT, "", "B2 TrailingBytes"),
    Step::Write(
        "forged.tests.dump",
        Content::ForgedDump(Change::Byte(VERSION, 9), Change::None),
    ),
    Step::Refuses(AUDIT, "", "B3 BadMagic"),
    Step::Write(
        "forged.tests.dump",
        Content::ForgedDump(Change::Byte(LAST_PAGE, 2), Change::None),
    ),
    Step::Refuses(AUDIT, "", "B4 BadField"),
    Step::Remove("forge.tests.img"),
    Step::Remove("forged.tests.dump"),
];

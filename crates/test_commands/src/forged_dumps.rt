//! Audits of forged dumps.
use crate::memory_files::{File, Memory};
use crate::printed_answers::{Asked, is_answered};
use command_io::CommandRefusal;
use comp_dump::{AuditFault, DumpFault};
use heap_layout::TO_SPACE as T;
use std::process::Abort;
use std::sync::Wait;
use std::thread::Threads;
use test_support::{
    Change, Content, FIRST_DATA, HEADER_OFFSET, HEADER_STAMP, LAST_PAGE, LAST_WORD, REFERENCE,
    REFERENCE_KIND, REFERENCE_STAMP, REFERENCE_VALUE, ROOT, TOTAL, VERSION, bytes_in,
};

// A forged dump: its name, two changes, and the refusal.
type Forgery = (&'static str, Change, Change, CommandRefusal);

// Whether a dump is refused so for the heap of an image, with nothing printed.
fn is_refused(
    rt: &(impl AllocGlobal + Threads + Wait + Sync),
    image: &[u8],
    dump: &[u8],
    refusal: CommandRefusal,
) -> bool {
    let files = [
        File {
            path: "heap.img",
            bytes: image,
        },
        File {
            path: "left.dump",
            bytes: dump,
        },
    ];
    let asked = Asked::Audit("heap.img", "left.dump");
    is_answered(rt, &Memory { files: &files }, asked, Err(refusal), "")
}

// Checks these forgeries.
fn expect_refused(
    rt: &(impl Abort + AllocGlobal + Threads + Wait + Sync),
    image: &[u8],
    forgeries: &[Forgery],
) {
    for (name, first, second, refusal) in forgeries {
        let forged = Content::ForgedDump(*first, *second);
        let left = bytes_in(rt.alloc(), forged).expect(rt, "memory for a dump");
        assert!(rt; is_refused(rt, image, &left, *refusal), "{name}");
    }
}

/// Forgeries of the dump after the run that makes a new object in the heap of three objects.
pub fn expect_forgeries(rt: &(impl Abort + AllocGlobal + Threads + Wait + Sync), three: &[u8]) {
    expect_refused(rt, three, &FORGED);
}

const TRUNCATED: CommandRefusal = CommandRefusal::Dump(DumpFault::Truncated);

// All forged dumps.
static FORGED: [Forgery; 28] = [
    // Most of these dumps have a second fault, which is not reported.
    (
        "a root",
        Change::Word(ROOT, 0),
        Change::Word(TOTAL, 6),
        CommandRefusal::Audit(AuditFault::WrongHead),
    ),
    (
        "the edition",
        Change::Byte(VERSION, 2),
        Change::Word(TOTAL, 6),
        CommandRefusal::Audit(AuditFault::WrongHead),
    ),
    (
        "the edition, and an entry of a weak word",
        Change::Byte(VERSION, 2),
        Change::Byte(REFERENCE_KIND, 3),
        CommandRefusal::Audit(AuditFault::WrongHead),
    ),
    (
        "an entry's offset",
        Change::Byte(HEADER_OFFSET, 1),
        Change::Word(TOTAL, 6),
        CommandRefusal::Audit(AuditFault::BadEntry(1, 0)),
    ),
    (
        "a data word",
        Change::Word(FIRST_DATA, 12),
        Change::Word(TOTAL, 6),
        CommandRefusal::Audit(AuditFault::WrongWord(T + 1)),
    ),
    (
        "the last word",
        Change::Word(LAST_WORD, 1),
        Change::Word(TOTAL, 6),
        CommandRefusal::Audit(AuditFault::WrongWord(T + 63)),
    ),
    (
        "a reference into an object",
        Change::Word(REFERENCE_VALUE, T + 1),
        Change::Word(REFERENCE, T + 1),
        CommandRefusal::Audit(AuditFault::LooseReference(T + 3)),
    ),
    (
        "a stamp twice",
        Change::Word(REFERENCE_STAMP, 0),
        Change::Word(TOTAL, 6),
        CommandRefusal::Audit(AuditFault::StampRepeated(0)),
    ),
    (
        "a stamp that is not there",
        Change::Word(REFERENCE_STAMP, 2),
        Change::Word(TOTAL, 6),
        CommandRefusal::Audit(AuditFault::StampMissing(1)),
    ),
    (
        "a stamp that is too late",
        Change::Word(HEADER_STAMP, 1),
        Change::Word(REFERENCE_STAMP, 0),
        CommandRefusal::Audit(AuditFault::BadEntry(0, 0)),
    ),
    (
        "the total",
        Change::Word(TOTAL, 6),
        Change::Word(REFERENCE_STAMP, 1),
        CommandRefusal::Audit(AuditFault::WrongTotal),
    ),
    // The dump with other lists of builds.
    (
        "without page 0",
        Change::Builds(&[1, 1]),
        Change::None,
        CommandRefusal::Audit(AuditFault::BuildUnclaimed(0)),
    ),
    (
        "with page 2",
        Change::Builds(&[3, 1, 0, 2]),
        Change::None,
        CommandRefusal::Audit(AuditFault::BuildUnclaimed(2)),
    ),
    (
        "with page 0 twice",
        Change::Builds(&[3, 1, 0, 0]),
        Change::None,
        CommandRefusal::Audit(AuditFault::BuildUnclaimed(0)),
    ),
    // Bytes that are no dump.
    ("no byte", Change::Cut(0), Change::None, TRUNCATED),
    ("7 bytes", Change::Cut(7), Change::None, TRUNCATED),
    ("8 bytes", Change::Cut(8), Change::None, TRUNCATED),
    ("27 bytes", Change::Cut(27), Change::None, TRUNCATED),
    ("36 bytes", Change::Cut(36), Change::None, TRUNCATED),
    ("548 bytes", Change::Cut(548), Change::None, TRUNCATED),
    ("1108 bytes", Change::Cut(1_108), Change::None, TRUNCATED),
    ("1120 bytes", Change::Cut(1_120), Change::None, TRUNCATED),
    ("1128 bytes", Change::Cut(1_128), Change::None, TRUNCATED),
    (
        "a byte more",
        Change::Push(0),
        Change::None,
        CommandRefusal::Dump(DumpFault::TrailingBytes),
    ),
    (
        "the magic",
        Change::Byte(0, 0),
        Change::None,
        CommandRefusal::Dump(DumpFault::BadMagic),
    ),
    (
        "the version",
        Change::Byte(VERSION, 9),
        Change::None,
        CommandRefusal::Dump(DumpFault::BadMagic),
    ),
    (
        "an entry of a weak word",
        Change::Byte(REFERENCE_KIND, 3),
        Change::Word(TOTAL, 6),
        CommandRefusal::Dump(DumpFault::BadField),
    ),
    (
        "the last page",
        Change::Byte(LAST_PAGE, 2),
        Change::None,
        CommandRefusal::Dump(DumpFault::BadField),
    ),
];

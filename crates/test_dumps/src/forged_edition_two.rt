//! Dumps of edition two with some fields changed, dumps of the other edition, and the report on each.
use crate::dump_bytes::{Change, Whole};
use crate::expected::expect_eq;
use crate::expected_reports::{
    BAD_FIELD, BAD_HEADER, BAD_MADE, BAD_MAGIC, BAD_SLID, MISSING_2, REPEATED_0, WRONG_HEAD,
    WRONG_TOTAL, WRONG_WORD_1, WRONG_WORD_65, YES,
};
use crate::judged_dumps::{JudgedDump, Report, expect_judged, report_on_changed};
use comp_audit::{AuditFault, Verdict};
use heap_layout::Header;
use page_plan::Plan;
use std::alloc::Global;
use std::process::Abort;
use test_support::{
    At, F, HEADER_STAMP, REFERENCE_KIND, REFERENCE_STAMP, REFERENCE_VALUE, ROOT, SLID_WEAK_WORD, T,
    VERSION, Worked, plan_of,
};

// The positions of fields of the dump.
const WORD_2: usize = 53;

const WORD_5: usize = 77;

const OFFSET: usize = 563;

const MADE: usize = 573;

const MADE_WEAK: usize = 581;

const MADE_AFTER: usize = 589;

const HEADER: usize = 1_100;

const MADE_STAMP: usize = 1_108;

const MADE_KIND: usize = 1_117;

const MADE_VALUE: usize = 1_119;

const BUILD: usize = 1_131;

const TOTAL: usize = 1_139;

// Reports that no other file expects.
const WRONG_WORD_2: Report = Ok(Verdict::No(AuditFault::WrongWord(T + 2)));

const WRONG_WORD_66: Report = Ok(Verdict::No(AuditFault::WrongWord(T + 66)));

const LOOSE_1: Report = Ok(Verdict::No(AuditFault::LooseReference(T + 1)));

const LOOSE_65: Report = Ok(Verdict::No(AuditFault::LooseReference(T + 65)));

// For the compacted three objects of edition two.
static WEAK_FORGED: [JudgedDump; 42] = [
    // No change.
    JudgedDump(Whole::WeakLinked, &[], YES),
    // A dump of edition one has no weak word.
    JudgedDump(Whole::WeakLinked, &[Change(VERSION, 4, 4, 1)], BAD_FIELD),
    // A version that does not exist.
    JudgedDump(Whole::WeakLinked, &[Change(VERSION, 4, 4, 3)], BAD_MAGIC),
    // A dump of edition one, with entries of references in place of weak words.
    JudgedDump(
        Whole::WeakLinked,
        &[
            Change(VERSION, 4, 4, 1),
            Change(REFERENCE_KIND, 1, 1, 1),
            Change(MADE_KIND, 1, 1, 1),
        ],
        WRONG_HEAD,
    ),
    // The same with a wrong build, and with a wrong total.
    JudgedDump(
        Whole::WeakLinked,
        &[
            Change(VERSION, 4, 4, 1),
            Change(REFERENCE_KIND, 1, 1, 1),
            Change(MADE_KIND, 1, 1, 1),
            Change(BUILD, 4, 4, 0),
        ],
        WRONG_HEAD,
    ),
    JudgedDump(
        Whole::WeakLinked,
        &[
            Change(VERSION, 4, 4, 1),
            Change(REFERENCE_KIND, 1, 1, 1),
            Change(MADE_KIND, 1, 1, 1),
            Change(TOTAL, 8, 8, 6),
        ],
        WRONG_HEAD,
    ),
    // The root is null.
    JudgedDump(Whole::WeakLinked, &[Change(ROOT, 8, 8, 0)], WRONG_HEAD),
    // An entry of a header, of a reference and of data at a weak word.
    JudgedDump(
        Whole::WeakLinked,
        &[Change(REFERENCE_KIND, 1, 1, 0)],
        BAD_SLID,
    ),
    JudgedDump(
        Whole::WeakLinked,
        &[Change(REFERENCE_KIND, 1, 1, 1)],
        BAD_SLID,
    ),
    JudgedDump(
        Whole::WeakLinked,
        &[Change(REFERENCE_KIND, 1, 1, 2)],
        BAD_SLID,
    ),
    // An entry of a weak word at a header, at data, at a reference, and after all objects.
    JudgedDump(Whole::WeakLinked, &[Change(OFFSET, 1, 1, 0)], BAD_SLID),
    JudgedDump(Whole::WeakLinked, &[Change(OFFSET, 1, 1, 3)], BAD_SLID),
    JudgedDump(Whole::WeakLinked, &[Change(OFFSET, 1, 1, 5)], BAD_SLID),
    JudgedDump(Whole::WeakLinked, &[Change(OFFSET, 1, 1, 6)], BAD_SLID),
    // At the other weak word.
    JudgedDump(Whole::WeakLinked, &[Change(OFFSET, 1, 1, 2)], WRONG_WORD_1),
    // The reference was written in place of the weak word, by an entry of a weak word and by one of a reference.
    JudgedDump(
        Whole::WeakLinked,
        &[
            Change(SLID_WEAK_WORD, 8, 8, 0),
            Change(WORD_5, 8, 8, T + 64),
            Change(OFFSET, 1, 1, 5),
        ],
        BAD_SLID,
    ),
    JudgedDump(
        Whole::WeakLinked,
        &[
            Change(SLID_WEAK_WORD, 8, 8, 0),
            Change(WORD_5, 8, 8, T + 64),
            Change(REFERENCE_KIND, 1, 1, 1),
            Change(OFFSET, 1, 1, 5),
        ],
        YES,
    ),
    // The same at the new object, which has one weak word.
    JudgedDump(Whole::WeakLinked, &[Change(MADE_KIND, 1, 1, 1)], BAD_MADE),
    JudgedDump(Whole::WeakLinked, &[Change(MADE_KIND, 1, 1, 2)], BAD_MADE),
    // A weak word that is neither what its entry says nor what slid.
    JudgedDump(
        Whole::WeakLinked,
        &[Change(SLID_WEAK_WORD, 8, 8, 0)],
        WRONG_WORD_1,
    ),
    JudgedDump(Whole::WeakLinked, &[Change(WORD_2, 8, 8, 0)], WRONG_WORD_2),
    JudgedDump(
        Whole::WeakLinked,
        &[Change(MADE_WEAK, 8, 8, 0)],
        WRONG_WORD_65,
    ),
    JudgedDump(
        Whole::WeakLinked,
        &[Change(MADE_AFTER, 8, 8, 1)],
        WRONG_WORD_66,
    ),
    // A weak word for the inside of an object, after all objects, on a fresh page, and in from-space for an object that
    // did not slide.
    JudgedDump(
        Whole::WeakLinked,
        &[
            Change(SLID_WEAK_WORD, 8, 8, T + 1),
            Change(REFERENCE_VALUE, 8, 8, T + 1),
        ],
        LOOSE_1,
    ),
    JudgedDump(
        Whole::WeakLinked,
        &[
            Change(SLID_WEAK_WORD, 8, 8, T + 6),
            Change(REFERENCE_VALUE, 8, 8, T + 6),
        ],
        LOOSE_1,
    ),
    JudgedDump(
        Whole::WeakLinked,
        &[
            Change(SLID_WEAK_WORD, 8, 8, T + 65),
            Change(REFERENCE_VALUE, 8, 8, T + 65),
        ],
        LOOSE_1,
    ),
    JudgedDump(
        Whole::WeakLinked,
        &[
            Change(SLID_WEAK_WORD, 8, 8, F + 4),
            Change(REFERENCE_VALUE, 8, 8, F + 4),
        ],
        LOOSE_1,
    ),
    // The weak word of the new object for the inside of that object.
    JudgedDump(
        Whole::WeakLinked,
        &[
            Change(MADE_WEAK, 8, 8, T + 65),
            Change(MADE_VALUE, 8, 8, T + 65),
        ],
        LOOSE_65,
    ),
    // A weak word that is null or for either object that slid, and that of the new object for itself.
    JudgedDump(
        Whole::WeakLinked,
        &[
            Change(SLID_WEAK_WORD, 8, 8, 0),
            Change(REFERENCE_VALUE, 8, 8, 0),
        ],
        YES,
    ),
    JudgedDump(
        Whole::WeakLinked,
        &[
            Change(SLID_WEAK_WORD, 8, 8, T),
            Change(REFERENCE_VALUE, 8, 8, T),
        ],
        YES,
    ),
    JudgedDump(
        Whole::WeakLinked,
        &[
            Change(SLID_WEAK_WORD, 8, 8, T + 4),
            Change(REFERENCE_VALUE, 8, 8, T + 4),
        ],
        YES,
    ),
    JudgedDump(
        Whole::WeakLinked,
        &[
            Change(MADE_WEAK, 8, 8, T + 64),
            Change(MADE_VALUE, 8, 8, T + 64),
        ],
        YES,
    ),
    // A weak word for an object that was made later.
    JudgedDump(
        Whole::WeakLinked,
        &[
            Change(REFERENCE_STAMP, 8, 8, 0),
            Change(HEADER_STAMP, 8, 8, 1),
        ],
        BAD_SLID,
    ),
    // Stamps 0, 0 and 2; 1, 0 and 3; and 2, 0 and 1.
    JudgedDump(
        Whole::WeakLinked,
        &[Change(REFERENCE_STAMP, 8, 8, 0)],
        REPEATED_0,
    ),
    JudgedDump(Whole::WeakLinked, &[Change(MADE_STAMP, 8, 8, 3)], MISSING_2),
    JudgedDump(
        Whole::WeakLinked,
        &[
            Change(REFERENCE_STAMP, 8, 8, 2),
            Change(MADE_STAMP, 8, 8, 1),
        ],
        YES,
    ),
    // Total: only the words that slid, and one word more than there are.
    JudgedDump(Whole::WeakLinked, &[Change(TOTAL, 8, 8, 6)], WRONG_TOTAL),
    JudgedDump(Whole::WeakLinked, &[Change(TOTAL, 8, 8, 9)], WRONG_TOTAL),
    // A page that was only touched: a dump of edition one differs by the version alone.
    JudgedDump(Whole::WeakTouched, &[], YES),
    JudgedDump(Whole::WeakTouched, &[Change(VERSION, 4, 4, 1)], WRONG_HEAD),
    // Dumps of other heaps.
    JudgedDump(Whole::Linked, &[], WRONG_HEAD),
    JudgedDump(Whole::Linked, &[Change(VERSION, 4, 4, 2)], WRONG_HEAD),
];

#[test]
fn a_forged_dump_of_edition_two_is_refused_for_its_fault(rt: HostRuntime) {
    expect_judged(&rt, Worked::Weak, "weak words", &WEAK_FORGED);
}

// The new object with another header: the name of the row, the numbers of references, weak words and data words, a
// further change, and the report on the dump for the compacted three objects of edition two.
struct OtherHeader(&'static str, u16, u16, u16, Option<Change>, Report);

static OTHER_HEADERS: [OtherHeader; 7] = [
    OtherHeader(
        "a reference in place of the weak word",
        1,
        0,
        0,
        None,
        BAD_MADE,
    ),
    OtherHeader(
        "a reference that is written",
        1,
        0,
        0,
        Some(Change(MADE_KIND, 1, 1, 1)),
        YES,
    ),
    OtherHeader("a data word in place of it", 0, 0, 1, None, BAD_MADE),
    OtherHeader(
        "a data word that is written",
        0,
        0,
        1,
        Some(Change(MADE_KIND, 1, 1, 2)),
        YES,
    ),
    OtherHeader(
        "63 weak words",
        0,
        63,
        0,
        Some(Change(TOTAL, 8, 8, 70)),
        YES,
    ),
    OtherHeader(
        "63 weak words that are not live",
        0,
        63,
        0,
        None,
        WRONG_TOTAL,
    ),
    OtherHeader(
        "64 weak words",
        0,
        64,
        0,
        Some(Change(TOTAL, 8, 8, 71)),
        BAD_HEADER,
    ),
];

// The report on the dump whose new object has this header, in its page and in its entry.
fn with_header(
    rt: &impl Abort,
    alloc: Global,
    plan: &Plan,
    header: Header,
    more: Option<Change>,
) -> Report {
    let made = Change(MADE, 8, 8, header.word());
    let entry = Change(HEADER, 8, 8, header.word());
    match more {
        Some(more) => report_on_changed(rt, alloc, plan, &Whole::WeakLinked, &[made, entry, more]),
        None => report_on_changed(rt, alloc, plan, &Whole::WeakLinked, &[made, entry]),
    }
}

#[test]
fn a_new_object_of_edition_two_with_another_header_is_judged(rt: HostRuntime) {
    let alloc = rt.alloc();
    let plan = plan_of(&rt, alloc, Worked::Weak).expect(&rt, "a plan");
    for OtherHeader(name, refs, weak, data, more, wanted) in &OTHER_HEADERS {
        let header = Header::new_weak(*refs, *weak, *data, 5);
        let found = with_header(&rt, alloc, &plan, header, *more);
        expect_eq(&rt, At::new(name, 0), found, *wanted);
    }
}

// For the compacted three objects of edition one.
static OTHER_EDITION: [JudgedDump; 8] = [
    // A dump of edition two that differs by the version alone, and with a null root, a wrong build, an entry of a weak
    // word, or a wrong total too.
    JudgedDump(Whole::Linked, &[Change(VERSION, 4, 4, 2)], WRONG_HEAD),
    JudgedDump(
        Whole::Linked,
        &[Change(VERSION, 4, 4, 2), Change(ROOT, 8, 8, 0)],
        WRONG_HEAD,
    ),
    JudgedDump(
        Whole::Linked,
        &[Change(VERSION, 4, 4, 2), Change(1_113, 4, 4, 0)],
        WRONG_HEAD,
    ),
    JudgedDump(
        Whole::Linked,
        &[Change(VERSION, 4, 4, 2), Change(REFERENCE_KIND, 1, 1, 3)],
        WRONG_HEAD,
    ),
    JudgedDump(
        Whole::Linked,
        &[Change(VERSION, 4, 4, 2), Change(1_121, 8, 8, 6)],
        WRONG_HEAD,
    ),
    // Edition one has no entry of a weak word.
    JudgedDump(Whole::Linked, &[Change(REFERENCE_KIND, 1, 1, 3)], BAD_FIELD),
    // Dumps of other heaps.
    JudgedDump(Whole::WeakLinked, &[], WRONG_HEAD),
    JudgedDump(Whole::WeakTouched, &[], WRONG_HEAD),
];

#[test]
fn a_dump_of_another_edition_than_the_heap_is_refused(rt: HostRuntime) {
    expect_judged(&rt, Worked::Three, "other edition", &OTHER_EDITION);
}

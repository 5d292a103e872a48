//! Words and roots without pages, each field of them, and dumps that are to be whole.
use crate::dumps_in_memory::read;
use crate::expected::expect_eq;
use crate::expected_reports::{
    BAD_FIELD, BAD_MAGIC, TOO_LONG, TRUNCATED, WRONG_HEAD, WRONG_TOTAL, WRONG_WORD_1, YES,
};
use crate::judged_dumps::Report;
use comp_audit::{AuditFault, Dump, DumpFault, Verdict, audit, audit_whole, read_words};
use heap_layout::Counted;
use page_plan::Plan;
use std::alloc::Global;
use std::process::Abort;
use test_support::{At, Change, Content, Worked, bytes_in, plan_of};

// The one compacted page was never built.
const MISSING_PAGE_0: Report = Ok(Verdict::No(AuditFault::PageMissing(0)));

// The report of the whole audit on a dump, if one was read.
fn judged(alloc: Global, plan: &Plan, found: Result<Dump<'static>, DumpFault>) -> Report {
    match found {
        Ok(dump) => Ok(audit_whole(alloc, plan, &dump)?),
        Err(fault) => Err(fault),
    }
}

// The report on the bytes of words.
fn report_on_words(alloc: Global, plan: &Plan, large: bool, bytes: &[u8]) -> Report {
    judged(
        alloc,
        plan,
        read_words(alloc, &mut Counted::new(bytes), large),
    )
}

// Words, and their report.
struct JudgedWords(Content, Report);

static WORDS: [JudgedWords; 13] = [
    JudgedWords(Content::ThreeWords(Change::None), YES),
    JudgedWords(Content::LongerWords, WRONG_TOTAL),
    JudgedWords(Content::ThreeWords(Change::Push(0)), TOO_LONG),
    // Each byte of the version, and the first and the last byte of the magic.
    JudgedWords(Content::ThreeWords(Change::Byte(0, 75)), BAD_MAGIC),
    JudgedWords(Content::ThreeWords(Change::Byte(7, 80)), BAD_MAGIC),
    JudgedWords(Content::ThreeWords(Change::Byte(8, 0)), BAD_MAGIC),
    JudgedWords(Content::ThreeWords(Change::Byte(8, 3)), BAD_MAGIC),
    JudgedWords(Content::ThreeWords(Change::Byte(11, 1)), BAD_MAGIC),
    // Edition two.
    JudgedWords(Content::ThreeWords(Change::Byte(8, 2)), WRONG_HEAD),
    // More words and more roots than there may be, and the most roots.
    JudgedWords(Content::ThreeWords(Change::Byte(14, 16)), BAD_FIELD),
    JudgedWords(Content::ThreeWords(Change::Byte(17, 16)), BAD_FIELD),
    // The root, and a word.
    JudgedWords(Content::ThreeWords(Change::Byte(20, 0)), WRONG_HEAD),
    JudgedWords(Content::ThreeWords(Change::Byte(36, 12)), WRONG_WORD_1),
];

// Checks each of these words.
fn expect_words(rt: &impl Abort, alloc: Global, plan: &Plan) {
    for (at, JudgedWords(content, wanted)) in WORDS.iter().enumerate() {
        let bytes = bytes_in(alloc, *content).expect(rt, "memory for words");
        let found = report_on_words(alloc, plan, false, &bytes);
        expect_eq(rt, At::new("words", at), found, *wanted);
    }
}

#[test]
fn words_without_pages_are_refused_for_their_first_fault(rt: HostRuntime) {
    let plan = plan_of(&rt, rt.alloc(), Worked::Three).expect(&rt, "a plan");
    expect_words(&rt, rt.alloc(), &plan);
}

// Checks that each proper beginning of the 60 bytes is refused as truncated.
fn expect_beginnings(rt: &impl Abort, alloc: Global, plan: &Plan) {
    let bytes = bytes_in(alloc, Content::ThreeWords(Change::None)).expect(rt, "memory for words");
    expect_eq(rt, At::new("bytes", 0), bytes.len(), 60);
    for (n, _) in bytes.iter().enumerate() {
        let found = report_on_words(alloc, plan, true, &bytes[..n]);
        expect_eq(rt, At::new("a beginning", n), found, TRUNCATED);
    }
}

#[test]
fn each_beginning_of_words_is_truncated(rt: HostRuntime) {
    let plan = plan_of(&rt, rt.alloc(), Worked::Three).expect(&rt, "a plan");
    expect_beginnings(&rt, rt.alloc(), &plan);
}

// A dump, its report, and the report if it is to be whole.
struct JudgedWhole(Content, Report, Report);

static DUMPS: [JudgedWhole; 4] = [
    JudgedWhole(Content::FreshDump, YES, YES),
    JudgedWhole(Content::UnbuiltDump(Change::None), YES, MISSING_PAGE_0),
    // The total is 5, and the root is null.
    JudgedWhole(
        Content::UnbuiltDump(Change::Byte(41, 5)),
        WRONG_TOTAL,
        WRONG_TOTAL,
    ),
    JudgedWhole(
        Content::UnbuiltDump(Change::Byte(28, 0)),
        WRONG_HEAD,
        WRONG_HEAD,
    ),
];

// Checks each of these dumps.
fn expect_whole(rt: &impl Abort, alloc: Global, plan: &Plan) {
    for (at, JudgedWhole(content, wanted, whole)) in DUMPS.iter().enumerate() {
        let bytes = bytes_in(alloc, *content).expect(rt, "memory for a dump");
        let dump = read(alloc, &bytes).expect(rt, "a dump");
        let found = audit(alloc, plan, &dump).expect(rt, "memory for an audit");
        expect_eq(rt, At::new("dumps", at), Ok(found), *wanted);
        let found = audit_whole(alloc, plan, &dump).expect(rt, "memory for an audit");
        expect_eq(rt, At::new("whole dumps", at), Ok(found), *whole);
    }
}

#[test]
fn dumps_that_are_to_be_whole_lack_no_compacted_page(rt: HostRuntime) {
    let plan = plan_of(&rt, rt.alloc(), Worked::Three).expect(&rt, "a plan");
    expect_whole(&rt, rt.alloc(), &plan);
}

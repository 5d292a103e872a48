//! The dump after a new object with each byte changed to each other value. What becomes of it follows from the position
//! of the byte in the format and from the order of the checks. No such dump is lawful. A field of the format is refused
//! if it differs. Each word has the one value that its base and its journal give it. Each other field is given by the
//! plan or by the other fields.
use crate::changed_bytes::{Becomes, KnownDump, Rule, expect_bytes};
use crate::dump_bytes::Whole;
use crate::expected_reports::{
    BAD_FIELD, BAD_HEADER, BAD_MAGIC, BAD_SLID, MISSING_1, REPEATED_0, REPEATED_1, TOO_LONG,
    UNCLAIMED_0, WRONG_HEAD, WRONG_TOTAL, WRONG_WORD_64,
};
use crate::judged_dumps::Report;
use comp_audit::{AuditFault, Verdict};
use test_support::{T, Worked, plan_of};

const MISSING_0: Report = Ok(Verdict::No(AuditFault::StampMissing(0)));

const UNCLAIMED_1: Report = Ok(Verdict::No(AuditFault::BuildUnclaimed(1)));

const WRONG_WORD_3: Report = Ok(Verdict::No(AuditFault::WrongWord(T + 3)));

// What becomes of the dump after a change of a byte, by the first rule for that byte and value.
static RULES: [Rule; 39] = [
    // A dump of edition two, which is not the edition of the heap.
    Rule(8, 8, 2, 2, Becomes::Is(WRONG_HEAD)),
    Rule(0, 11, 0, 255, Becomes::Is(BAD_MAGIC)),
    // The numbers of mutators (1), fresh pages (2), pages (3) and roots (1). With more mutators the live words are read
    // as a list of builds, which is too long. With another number of fresh pages, up to that of all pages, there are
    // too many or too few. With more or fewer pages a record or a list of builds is read where there is none, and is
    // out of range.
    Rule(16, 16, 0, 3, Becomes::Is(WRONG_HEAD)),
    Rule(24, 27, 0, 255, Becomes::Shifted),
    Rule(12, 23, 0, 255, Becomes::Is(BAD_FIELD)),
    // The root.
    Rule(28, 35, 0, 255, Becomes::Is(WRONG_HEAD)),
    // The flag of a record: it is out of range, or says that the page was not built.
    Rule(36, 36, 0, 1, Becomes::Shifted),
    Rule(36, 36, 2, 255, Becomes::Is(BAD_FIELD)),
    // The words of the compacted page, and the number of its entries.
    Rule(37, 548, 0, 255, Becomes::WrongWord(T)),
    Rule(549, 552, 0, 255, Becomes::Shifted),
    // The entry on the compacted page: its stamp is 1, its offset is 3, and its value is in word 3.
    Rule(553, 553, 0, 0, Becomes::Is(REPEATED_0)),
    Rule(553, 560, 0, 255, Becomes::Is(MISSING_1)),
    Rule(561, 561, 0, 255, Becomes::Is(BAD_FIELD)),
    Rule(562, 562, 0, 2, Becomes::Is(BAD_SLID)),
    Rule(563, 563, 0, 63, Becomes::Is(BAD_SLID)),
    Rule(562, 563, 0, 255, Becomes::Is(BAD_FIELD)),
    Rule(564, 571, 0, 255, Becomes::Is(WRONG_WORD_3)),
    // The first fresh page.
    Rule(572, 572, 0, 1, Becomes::Shifted),
    Rule(572, 572, 2, 255, Becomes::Is(BAD_FIELD)),
    Rule(573, 1_084, 0, 255, Becomes::WrongWord(T + 64)),
    Rule(1_085, 1_088, 0, 255, Becomes::Shifted),
    // The entry of the header on that page: its stamp is 0, its offset is 0, and the header has no field and tag 0.
    // With more than 63 fields the object has no room on its page.
    Rule(1_089, 1_089, 1, 1, Becomes::Is(REPEATED_1)),
    Rule(1_089, 1_096, 0, 255, Becomes::Is(MISSING_0)),
    Rule(1_097, 1_097, 0, 255, Becomes::Is(BAD_FIELD)),
    Rule(1_098, 1_098, 0, 2, Becomes::Is(BAD_HEADER)),
    Rule(1_099, 1_099, 0, 63, Becomes::Is(BAD_HEADER)),
    Rule(1_098, 1_099, 0, 255, Becomes::Is(BAD_FIELD)),
    Rule(1_100, 1_100, 64, 255, Becomes::Is(BAD_HEADER)),
    Rule(1_101, 1_101, 0, 255, Becomes::Is(BAD_HEADER)),
    Rule(1_102, 1_102, 64, 255, Becomes::Is(BAD_HEADER)),
    Rule(1_103, 1_103, 0, 255, Becomes::Is(BAD_HEADER)),
    Rule(1_100, 1_107, 0, 255, Becomes::Is(WRONG_WORD_64)),
    // The flag of the last page: it says that the page was built, or is out of range.
    Rule(1_108, 1_108, 0, 1, Becomes::Shifted),
    // The list of builds: 2 pages, page 1 and page 0. The last of 3 pages was never built. After a shorter list bytes
    // are left at the end, and a longer list takes the live words for a page.
    Rule(1_109, 1_109, 0, 1, Becomes::Is(TOO_LONG)),
    Rule(1_113, 1_113, 0, 0, Becomes::Is(UNCLAIMED_0)),
    Rule(1_113, 1_113, 2, 2, Becomes::Is(UNCLAIMED_1)),
    Rule(1_117, 1_117, 0, 2, Becomes::Is(UNCLAIMED_0)),
    Rule(1_108, 1_120, 0, 255, Becomes::Is(BAD_FIELD)),
    Rule(1_121, 1_128, 0, 255, Becomes::Is(WRONG_TOTAL)),
];

#[test]
fn no_changed_byte_of_edition_one_leaves_a_lawful_dump(rt: HostRuntime) {
    let alloc = rt.alloc();
    let plan = plan_of(&rt, alloc, Worked::Three).expect(&rt, "a plan");
    let known = KnownDump {
        dump: &Whole::Linked,
        changes: &[],
        large: false,
        length: 1_129,
        own_rules: &[],
        rules: &RULES,
    };
    expect_bytes(&rt, alloc, &plan, &known);
}

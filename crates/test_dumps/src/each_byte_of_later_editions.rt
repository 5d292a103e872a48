//! A dump of edition two, and the same of edition three, with each byte changed to each other value, by rules as in
//! `each_byte_of_edition_one`.
use crate::changed_bytes::{Becomes, KnownDump, Rule, expect_bytes};
use crate::dump_bytes::{Change, Whole};
use crate::expected_reports::{
    BAD_FIELD, BAD_HEADER, BAD_MADE, BAD_MAGIC, BAD_SLID, MISSING_1, MISSING_2, REPEATED_0,
    REPEATED_1, TOO_LONG, UNCLAIMED_0, WRONG_HEAD, WRONG_TOTAL, WRONG_WORD_1, WRONG_WORD_64,
    WRONG_WORD_65,
};
use crate::judged_dumps::Report;
use comp_audit::{AuditFault, Verdict};
use test_support::{T, VERSION, Worked, plan_of};

const REPEATED_2: Report = Ok(Verdict::No(AuditFault::StampRepeated(2)));

// What becomes of the dump after a change of a byte, by the first rule for that byte and value.
static RULES: [Rule; 46] = [
    // A dump of edition one has no entry of a weak word.
    Rule(8, 8, 1, 1, Becomes::Is(BAD_FIELD)),
    Rule(0, 11, 0, 255, Becomes::Is(BAD_MAGIC)),
    // The numbers of mutators (1), fresh pages (1), pages (2) and roots (1).
    Rule(16, 16, 0, 2, Becomes::Is(WRONG_HEAD)),
    Rule(24, 27, 0, 255, Becomes::Shifted),
    Rule(12, 23, 0, 255, Becomes::Is(BAD_FIELD)),
    // The root.
    Rule(28, 35, 0, 255, Becomes::Is(WRONG_HEAD)),
    // The flag of the compacted page, its words, and the number of its entries.
    Rule(36, 36, 0, 1, Becomes::Shifted),
    Rule(36, 36, 2, 255, Becomes::Is(BAD_FIELD)),
    Rule(37, 548, 0, 255, Becomes::WrongWord(T)),
    Rule(549, 552, 0, 255, Becomes::Shifted),
    // The entry on the compacted page: its stamp is 1, its kind is weak, its offset is 1, and its value is in word 1.
    // Word 2 is a weak word too.
    Rule(553, 553, 0, 0, Becomes::Is(REPEATED_0)),
    Rule(553, 553, 2, 2, Becomes::Is(REPEATED_2)),
    Rule(553, 560, 0, 255, Becomes::Is(MISSING_1)),
    Rule(561, 561, 0, 255, Becomes::Is(BAD_FIELD)),
    Rule(562, 562, 0, 2, Becomes::Is(BAD_SLID)),
    Rule(563, 563, 2, 2, Becomes::Is(WRONG_WORD_1)),
    Rule(563, 563, 0, 63, Becomes::Is(BAD_SLID)),
    Rule(562, 563, 0, 255, Becomes::Is(BAD_FIELD)),
    Rule(564, 571, 0, 255, Becomes::Is(WRONG_WORD_1)),
    // The fresh page.
    Rule(572, 572, 0, 1, Becomes::Shifted),
    Rule(572, 572, 2, 255, Becomes::Is(BAD_FIELD)),
    Rule(573, 1_084, 0, 255, Becomes::WrongWord(T + 64)),
    Rule(1_085, 1_088, 0, 255, Becomes::Shifted),
    // The entry of the header on that page. Its stamp is 0, which must be less than that of the next entry; its offset
    // is 0. The header gives one weak word and tag 5. With a reference, that word is no weak word; without a weak word,
    // it is none either; with more than 63 fields the object has no room on its page.
    Rule(1_089, 1_089, 1, 1, Becomes::Is(REPEATED_1)),
    Rule(1_089, 1_096, 0, 255, Becomes::Is(BAD_MADE)),
    Rule(1_098, 1_098, 0, 3, Becomes::Is(BAD_HEADER)),
    Rule(1_099, 1_099, 0, 63, Becomes::Is(BAD_HEADER)),
    Rule(1_097, 1_099, 0, 255, Becomes::Is(BAD_FIELD)),
    Rule(1_100, 1_100, 1, 62, Becomes::Is(BAD_MADE)),
    Rule(1_104, 1_104, 0, 0, Becomes::Is(BAD_MADE)),
    Rule(1_102, 1_102, 1, 62, Becomes::Is(WRONG_WORD_64)),
    Rule(1_104, 1_104, 2, 63, Becomes::Is(WRONG_WORD_64)),
    Rule(1_106, 1_107, 0, 255, Becomes::Is(WRONG_WORD_64)),
    Rule(1_100, 1_105, 0, 255, Becomes::Is(BAD_HEADER)),
    // The entry of the new object's weak word: its stamp is 2, its offset is 1, and its value is in word 1.
    Rule(1_108, 1_108, 0, 0, Becomes::Is(BAD_MADE)),
    Rule(1_108, 1_108, 1, 1, Becomes::Is(REPEATED_1)),
    Rule(1_108, 1_115, 0, 255, Becomes::Is(MISSING_2)),
    Rule(1_117, 1_117, 0, 2, Becomes::Is(BAD_MADE)),
    Rule(1_118, 1_118, 0, 63, Becomes::Is(BAD_MADE)),
    Rule(1_116, 1_118, 0, 255, Becomes::Is(BAD_FIELD)),
    Rule(1_119, 1_126, 0, 255, Becomes::Is(WRONG_WORD_65)),
    // The list of builds: 2 pages, page 1 and page 0.
    Rule(1_127, 1_127, 0, 1, Becomes::Is(TOO_LONG)),
    Rule(1_131, 1_131, 0, 0, Becomes::Is(UNCLAIMED_0)),
    Rule(1_135, 1_135, 1, 1, Becomes::Is(UNCLAIMED_0)),
    Rule(1_127, 1_138, 0, 255, Becomes::Is(BAD_FIELD)),
    Rule(1_139, 1_146, 0, 255, Becomes::Is(WRONG_TOTAL)),
];

#[test]
fn no_changed_byte_of_edition_two_leaves_a_lawful_dump(rt: HostRuntime) {
    let alloc = rt.alloc();
    let plan = plan_of(&rt, alloc, Worked::Weak).expect(&rt, "a plan");
    let known = KnownDump {
        dump: &Whole::WeakLinked,
        changes: &[],
        large: false,
        length: 1_147,
        own_rules: &[],
        rules: &RULES,
    };
    expect_bytes(&rt, alloc, &plan, &known);
}

// What is otherwise in edition three: edition two is another edition, and the last two bits of the new object's header
// are its form. In each other form the object has two fields, of which the first is no weak word.
static RULES_OF_THREE: [Rule; 3] = [
    Rule(8, 8, 2, 2, Becomes::Is(WRONG_HEAD)),
    Rule(8, 8, 4, 4, Becomes::Is(WRONG_HEAD)),
    Rule(1_107, 1_107, 64, 255, Becomes::Is(BAD_MADE)),
];

#[test]
fn no_changed_byte_of_edition_three_leaves_a_lawful_dump(rt: HostRuntime) {
    let alloc = rt.alloc();
    let plan = plan_of(&rt, alloc, Worked::Mixed).expect(&rt, "a plan");
    let known = KnownDump {
        dump: &Whole::WeakLinked,
        changes: &[Change(VERSION, 4, 4, 3)],
        large: true,
        length: 1_147,
        own_rules: &RULES_OF_THREE,
        rules: &RULES,
    };
    expect_bytes(&rt, alloc, &plan, &known);
}

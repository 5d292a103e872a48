//! Dumps of edition three with some fields changed, and the report on each.
use crate::dump_bytes::{Change, Whole};
use crate::expected_reports::{
    BAD_FIELD, BAD_HEADER, BAD_MADE, BAD_MAGIC, TOO_LONG, TRUNCATED, WRONG_HEAD, WRONG_TOTAL,
    WRONG_WORD_64, YES,
};
use crate::judged_dumps::{JudgedDump, expect_judged, expect_large_judged};
use test_support::{REFERENCE_KIND, ROOT, VERSION, Worked};

// Version 3.
const THREE: Change = Change(VERSION, 4, 4, 3);

// Positions in the dump of the three objects whose weak words were written.

// The new object's word, and the word in the entry of its header.
const MADE: usize = 573;

const HEADER: usize = 1_100;

const MADE_KIND: usize = 1_117;

const TOTAL: usize = 1_139;

// For the compacted three objects in edition three. The new object has one weak word and tag 5.
static THREE_FORGED: [JudgedDump; 29] = [
    // No change but the version, and the other versions.
    JudgedDump(Whole::WeakLinked, &[THREE], YES),
    JudgedDump(Whole::WeakTouched, &[THREE], YES),
    JudgedDump(Whole::WeakLinked, &[], WRONG_HEAD),
    JudgedDump(Whole::WeakTouched, &[Change(VERSION, 4, 4, 1)], WRONG_HEAD),
    JudgedDump(Whole::WeakLinked, &[Change(VERSION, 4, 4, 1)], BAD_FIELD),
    JudgedDump(Whole::WeakLinked, &[Change(VERSION, 4, 4, 4)], WRONG_HEAD),
    JudgedDump(Whole::WeakLinked, &[Change(VERSION, 4, 4, 5)], BAD_MAGIC),
    JudgedDump(
        Whole::WeakLinked,
        &[THREE, Change(ROOT, 8, 8, 0)],
        WRONG_HEAD,
    ),
    // A byte more, a byte less, and a kind that does not exist.
    JudgedDump(
        Whole::WeakLinked,
        &[THREE, Change(1_147, 0, 1, 0)],
        TOO_LONG,
    ),
    JudgedDump(
        Whole::WeakLinked,
        &[THREE, Change(1_146, 1, 0, 0)],
        TRUNCATED,
    ),
    JudgedDump(
        Whole::WeakLinked,
        &[THREE, Change(REFERENCE_KIND, 1, 1, 4)],
        BAD_FIELD,
    ),
    // The same counts in the form of many weak words.
    JudgedDump(
        Whole::WeakLinked,
        &[
            THREE,
            Change(MADE, 8, 8, 0xc005_0000_0000_0001),
            Change(HEADER, 8, 8, 0xc005_0000_0000_0001),
        ],
        YES,
    ),
    // In the word alone, and in the entry alone.
    JudgedDump(
        Whole::WeakLinked,
        &[THREE, Change(MADE, 8, 8, 0xc005_0000_0000_0001)],
        WRONG_WORD_64,
    ),
    JudgedDump(
        Whole::WeakLinked,
        &[THREE, Change(HEADER, 8, 8, 0xc005_0000_0000_0001)],
        WRONG_WORD_64,
    ),
    // 63 weak words, and 64.
    JudgedDump(
        Whole::WeakLinked,
        &[
            THREE,
            Change(MADE, 8, 8, 0xc005_0000_0000_003f),
            Change(HEADER, 8, 8, 0xc005_0000_0000_003f),
            Change(TOTAL, 8, 8, 70),
        ],
        YES,
    ),
    JudgedDump(
        Whole::WeakLinked,
        &[
            THREE,
            Change(MADE, 8, 8, 0xc005_0000_0000_003f),
            Change(HEADER, 8, 8, 0xc005_0000_0000_003f),
        ],
        WRONG_TOTAL,
    ),
    JudgedDump(
        Whole::WeakLinked,
        &[
            THREE,
            Change(MADE, 8, 8, 0xc005_0000_0000_0040),
            Change(HEADER, 8, 8, 0xc005_0000_0000_0040),
            Change(TOTAL, 8, 8, 71),
        ],
        BAD_HEADER,
    ),
    // One data word in the form of many data words, and one reference in the same form.
    JudgedDump(
        Whole::WeakLinked,
        &[
            THREE,
            Change(MADE, 8, 8, 0x8005_0000_0000_0001),
            Change(HEADER, 8, 8, 0x8005_0000_0000_0001),
        ],
        BAD_MADE,
    ),
    JudgedDump(
        Whole::WeakLinked,
        &[
            THREE,
            Change(MADE, 8, 8, 0x8005_0000_8000_0000),
            Change(HEADER, 8, 8, 0x8005_0000_8000_0000),
        ],
        BAD_MADE,
    ),
    JudgedDump(
        Whole::WeakLinked,
        &[
            THREE,
            Change(MADE, 8, 8, 0x8005_0000_8000_0000),
            Change(HEADER, 8, 8, 0x8005_0000_8000_0000),
            Change(MADE_KIND, 1, 1, 1),
        ],
        YES,
    ),
    // 2,147,483,647 references, data words and weak words.
    JudgedDump(
        Whole::WeakLinked,
        &[
            THREE,
            Change(MADE, 8, 8, 0x4005_0000_7fff_ffff),
            Change(HEADER, 8, 8, 0x4005_0000_7fff_ffff),
        ],
        BAD_HEADER,
    ),
    JudgedDump(
        Whole::WeakLinked,
        &[
            THREE,
            Change(MADE, 8, 8, 0x8005_0000_7fff_ffff),
            Change(HEADER, 8, 8, 0x8005_0000_7fff_ffff),
        ],
        BAD_HEADER,
    ),
    JudgedDump(
        Whole::WeakLinked,
        &[
            THREE,
            Change(MADE, 8, 8, 0xc005_0000_7fff_ffff),
            Change(HEADER, 8, 8, 0xc005_0000_7fff_ffff),
        ],
        BAD_HEADER,
    ),
    // The same with 131,071 other fields, the last one with a total that has their words.
    JudgedDump(
        Whole::WeakLinked,
        &[
            THREE,
            Change(MADE, 8, 8, 0x4005_ffff_ffff_ffff),
            Change(HEADER, 8, 8, 0x4005_ffff_ffff_ffff),
        ],
        BAD_HEADER,
    ),
    JudgedDump(
        Whole::WeakLinked,
        &[
            THREE,
            Change(MADE, 8, 8, 0x8005_ffff_ffff_ffff),
            Change(HEADER, 8, 8, 0x8005_ffff_ffff_ffff),
        ],
        BAD_HEADER,
    ),
    JudgedDump(
        Whole::WeakLinked,
        &[
            THREE,
            Change(MADE, 8, 8, 0xc005_ffff_ffff_ffff),
            Change(HEADER, 8, 8, 0xc005_ffff_ffff_ffff),
            Change(TOTAL, 8, 8, 2_147_614_725),
        ],
        BAD_HEADER,
    ),
    JudgedDump(
        Whole::WeakLinked,
        &[
            THREE,
            Change(MADE, 8, 8, u64::MAX),
            Change(HEADER, 8, 8, u64::MAX),
        ],
        BAD_HEADER,
    ),
    // The most words that the entry alone announces.
    JudgedDump(
        Whole::WeakLinked,
        &[THREE, Change(HEADER, 8, 8, 0xc005_0000_7fff_ffff)],
        BAD_HEADER,
    ),
    // The same in the word alone.
    JudgedDump(
        Whole::WeakLinked,
        &[THREE, Change(MADE, 8, 8, 0xc005_0000_7fff_ffff)],
        WRONG_WORD_64,
    ),
];

#[test]
fn a_forged_dump_of_edition_three_is_refused_for_its_fault(rt: HostRuntime) {
    expect_large_judged(&rt, Worked::Mixed, "edition three", &THREE_FORGED);
}

// Heads of edition three: counts above their limits, and the most without what they announce.
static THREE_HEADS: [JudgedDump; 12] = [
    JudgedDump(Whole::Head(0, 0, 0, 0), &[THREE], BAD_FIELD),
    JudgedDump(Whole::Head(65, 0, 0, 0), &[THREE], BAD_FIELD),
    JudgedDump(
        Whole::Head(1, 1_048_577, 34_603_008, 0),
        &[THREE],
        BAD_FIELD,
    ),
    JudgedDump(Whole::Head(1, 4_097, 4_096, 0), &[THREE], BAD_FIELD),
    JudgedDump(Whole::Head(1, 0, 34_603_009, 0), &[THREE], BAD_FIELD),
    JudgedDump(Whole::Head(1, 0, 0, 1_048_577), &[THREE], BAD_FIELD),
    JudgedDump(Whole::Head(1, 0, 4_294_967_295, 0), &[THREE], BAD_FIELD),
    JudgedDump(
        Whole::Head(64, 1_048_576, 34_603_008, 1_048_576),
        &[THREE],
        TRUNCATED,
    ),
    JudgedDump(
        Whole::Head(64, 1_048_576, 34_603_008, 0),
        &[THREE],
        TRUNCATED,
    ),
    JudgedDump(Whole::Head(1, 4_097, 4_097, 4_097), &[THREE], TRUNCATED),
    JudgedDump(Whole::Head(1, 0, 20_481, 0), &[THREE], TRUNCATED),
    // The other editions keep their limits.
    JudgedDump(Whole::Head(1, 4_097, 4_097, 0), &[], BAD_FIELD),
];

#[test]
fn head_counts_of_edition_three_have_their_own_limits(rt: HostRuntime) {
    expect_large_judged(&rt, Worked::Mixed, "heads", &THREE_HEADS);
}

// What the call that reads editions one and two says of dumps of edition three.
static THREE_REFUSED: [JudgedDump; 3] = [
    JudgedDump(Whole::WeakLinked, &[THREE], BAD_MAGIC),
    JudgedDump(Whole::ManyWritten, &[], BAD_MAGIC),
    JudgedDump(Whole::Head(1, 0, 0, 0), &[THREE], BAD_MAGIC),
];

#[test]
fn the_call_for_editions_one_and_two_refuses_edition_three(rt: HostRuntime) {
    expect_judged(&rt, Worked::Mixed, "refused", &THREE_REFUSED);
}

//! Runs on objects with weak words.
use crate::replay_runs::KEPT;
use test_support::{
    Change, Content, REFERENCE_KIND, REFERENCE_VALUE, SLID_WEAK_WORD, Step, VERSION,
};

// The audit of the dump written last.
const AUDIT: &str = "audit weak.tests.img weak.tests.out";

// Runs of the trace written last.
const REPLAY: &str = "replay --mutators 1 --fresh 1 weak.tests.img weak.tests.trace weak.tests.out";

const RACE: &str = "race --mutators 1 --fresh 1 weak.tests.img weak.tests.trace weak.tests.out";

// Cycles of that trace with the marks written last.
const NEXT: &str =
    "next --mutators 1 --fresh 1 weak.tests.img weak.tests.trace weak.tests.marks weak.tests.new";

/// Plan and words, a trace that is replayed and raced, a compaction, the dumps, and the next heaps.
pub const RUN: &[Step] = &[
    Step::Write("weak.tests.img", Content::WeakImage),
    Step::Length("weak.tests.img", 96),
    Step::Prints(
        "plan weak.tests.img",
        "live 6\npages 1\npage 0 first 0\nroot 0 8589934596\n",
    ),
    Step::Prints("word weak.tests.img 0", "281483566710784\n"),
    Step::Prints("word weak.tests.img 1", "0\n"),
    Step::Prints("word weak.tests.img 2", "8589934596\n"),
    Step::Prints("word weak.tests.img 3", "9\n"),
    Step::Prints("word weak.tests.img 4", "844424930131969\n"),
    Step::Prints("word weak.tests.img 5", "8589934592\n"),
    Step::Prints("word weak.tests.img 6", "0\n"),
    Step::Write("weak.tests.trace", Content::WeakTrace),
    Step::Prints(REPLAY, "6 9\nlive 8\n"),
    Step::Length("weak.tests.out", 1_128),
    Step::Holds("weak.tests.out", Content::WeakDump),
    Step::Prints(AUDIT, "ok 8\n"),
    Step::Remove("weak.tests.out"),
    Step::Prints(RACE, "6 9\nlive 8\n"),
    Step::Holds("weak.tests.out", Content::WeakDump),
    Step::Prints(AUDIT, "ok 8\n"),
    Step::Prints("compact weak.tests.img weak.tests.out", "live 6\n"),
    Step::Length("weak.tests.out", 573),
    Step::Prints(AUDIT, "ok 6\n"),
    Step::Prints(
        "compact --workers 1 weak.tests.img weak.tests.out",
        "live 6\n",
    ),
    Step::Holds("weak.tests.out", Content::WeakSweptDump),
    Step::Prints(AUDIT, "ok 6\n"),
    // The new object is marked first, and then not: the weak word that refers to it becomes null.
    Step::Write("weak.tests.marks", Content::Text("0\n4\n64\n")),
    Step::Prints(NEXT, "6 9\nlive 8\n"),
    Step::Length("weak.tests.new", 1_068),
    Step::Prints("word weak.tests.new 1", "8589934598\n"),
    Step::Prints("compact weak.tests.new weak.tests.swept", "live 8\n"),
    Step::Prints("audit weak.tests.new weak.tests.swept", "ok 8\n"),
    Step::Write("weak.tests.marks", Content::Text("0\n4\n")),
    Step::Prints(NEXT, "6 9\nlive 6\n"),
    Step::Length("weak.tests.new", 1_064),
    Step::Prints(
        "plan weak.tests.new",
        "live 6\npages 1\npage 0 first 0\nroot 0 8589934596\n",
    ),
    Step::Prints("word weak.tests.new 1", "0\n"),
    Step::Prints("word weak.tests.new 2", "8589934596\n"),
    Step::Prints("compact weak.tests.new weak.tests.swept", "live 6\n"),
    Step::Prints("audit weak.tests.new weak.tests.swept", "ok 6\n"),
    Step::Remove("weak.tests.swept"),
    Step::Remove("weak.tests.marks"),
    Step::Remove("weak.tests.new"),
    Step::Remove("weak.tests.trace"),
    Step::Remove("weak.tests.out"),
    Step::Remove("weak.tests.img"),
];

/// A weak word for the inside of an object, refused lines, and forged dumps.
pub const REFUSED: &[Step] = &[
    Step::Write("weak.tests.out", KEPT),
    Step::Write("weak.tests.trace", Content::WeakTrace),
    Step::Write("weak.tests.img", Content::BadWeakImage(4_294_967_297)),
    Step::Refuses("plan weak.tests.img", "", "H13 BadWeak(1)"),
    Step::Write("weak.tests.img", Content::BadWeakImage(4_294_967_302)),
    Step::Refuses("plan weak.tests.img", "", "H13 BadWeak(1)"),
    Step::Refuses("word weak.tests.img 0", "", "H13 BadWeak(1)"),
    Step::Refuses(REPLAY, "", "H13 BadWeak(1)"),
    Step::Refuses(RACE, "", "H13 BadWeak(1)"),
    Step::Refuses(
        "compact weak.tests.img weak.tests.out",
        "",
        "H13 BadWeak(1)",
    ),
    Step::Refuses(AUDIT, "", "H13 BadWeak(1)"),
    Step::Refuses(NEXT, "", "H13 BadWeak(1)"),
    Step::Write("weak.tests.img", Content::WeakImage),
    // The object of the first weak word did not slide.
    Step::Write(
        "weak.tests.trace",
        Content::Text("0 root 0 0\n0 load 1 0 0\n0 get 1 0\n0 wload 2 1 0\n0 get 2 0\n"),
    ),
    Step::Refuses(REPLAY, "3 9\n", "T6 Refused(5, M1 Null)"),
    Step::Refuses(RACE, "3 9\n", "T6 Refused(5, M1 Null)"),
    // The object of the root has no weak word.
    Step::Write(
        "weak.tests.trace",
        Content::Text("0 root 0 0\n0 wload 1 0 0\n"),
    ),
    Step::Refuses(REPLAY, "", "T6 Refused(2, M3 NoSuchField)"),
    Step::Refuses(RACE, "", "T6 Refused(2, M3 NoSuchField)"),
    // A tag of 17 bits, and a count of 17 bits.
    Step::Write("weak.tests.trace", Content::Text("0 new 0 0 0 65536\n")),
    Step::Refuses(REPLAY, "", "T6 Refused(1, M11 NotInEdition)"),
    Step::Refuses(RACE, "", "T6 Refused(1, M11 NotInEdition)"),
    Step::Write("weak.tests.trace", Content::Text("0 wnew 0 0 65536 0 0\n")),
    Step::Refuses(REPLAY, "", "T4 NumberTooLarge(1)"),
    Step::Holds("weak.tests.out", KEPT),
    // Forged dumps.
    Step::Write(
        "weak.tests.out",
        Content::ForgedWeakDump(Change::Byte(VERSION, 1), Change::None),
    ),
    Step::Refuses(AUDIT, "", "B4 BadField"),
    Step::Write(
        "weak.tests.out",
        Content::ForgedWeakDump(Change::Byte(VERSION, 1), Change::Byte(REFERENCE_KIND, 1)),
    ),
    Step::Refuses(AUDIT, "", "A8 WrongHead"),
    Step::Write(
        "weak.tests.out",
        Content::ForgedWeakDump(Change::Byte(REFERENCE_KIND, 1), Change::None),
    ),
    Step::Refuses(AUDIT, "", "A3 BadEntry(0, 0)"),
    Step::Write(
        "weak.tests.out",
        Content::ForgedWeakDump(
            Change::Word(REFERENCE_VALUE, 8_589_934_594),
            Change::Word(SLID_WEAK_WORD, 8_589_934_594),
        ),
    ),
    Step::Refuses(AUDIT, "", "A2 LooseReference(8589934593)"),
    Step::Write(
        "weak.tests.out",
        Content::ForgedWeakDump(Change::Word(SLID_WEAK_WORD, 0), Change::None),
    ),
    Step::Refuses(AUDIT, "", "A1 WrongWord(8589934593)"),
    Step::Write("weak.tests.out", Content::FreshDump),
    Step::Refuses(AUDIT, "", "A8 WrongHead"),
    // In edition one no object has a weak word.
    Step::Write("weak.tests.out", KEPT),
    Step::Write("weak.tests.img", Content::ThreeImage),
    Step::Write("weak.tests.trace", Content::Text("0 wnew 0 0 1 0 5\n")),
    Step::Refuses(REPLAY, "", "T6 Refused(1, M11 NotInEdition)"),
    Step::Refuses(RACE, "", "T6 Refused(1, M11 NotInEdition)"),
    Step::Write(
        "weak.tests.trace",
        Content::Text("0 root 0 0\n0 wload 1 0 0\n"),
    ),
    Step::Refuses(REPLAY, "", "T6 Refused(2, M3 NoSuchField)"),
    Step::Holds("weak.tests.out", KEPT),
    Step::Write("weak.tests.out", Content::WeakDump),
    Step::Refuses(AUDIT, "", "A8 WrongHead"),
    Step::Write(
        "weak.tests.out",
        Content::ForgedDump(Change::Byte(VERSION, 2), Change::None),
    ),
    Step::Refuses(AUDIT, "", "A8 WrongHead"),
    Step::Write(
        "weak.tests.out",
        Content::ForgedDump(Change::Byte(REFERENCE_KIND, 3), Change::None),
    ),
    Step::Refuses(AUDIT, "", "B4 BadField"),
    Step::Remove("weak.tests.trace"),
    Step::Remove("weak.tests.out"),
    Step::Remove("weak.tests.img"),
];

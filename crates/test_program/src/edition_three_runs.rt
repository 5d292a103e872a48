//! Runs on heaps of edition three, which are read if the words ask for it.
use crate::replay_runs::KEPT;
use test_support::{Content, Step};

// The audit of the dump written last.
const AUDIT: &str = "audit --large large.tests.img large.tests.out";

// Runs of the trace written last.
const REPLAY: &str =
    "replay --large --mutators 1 --fresh 1 large.tests.img large.tests.trace large.tests.out";

const RACE: &str =
    "race --mutators 1 --large --fresh 1 large.tests.img large.tests.trace large.tests.out";

// Cycles of that trace with the marks written last.
const NEXT: &str =
    "next --mutators 1 --fresh 1 large.tests.img large.tests.trace large.tests.marks large.tests.new --large";

/// Plan and words, a trace that is replayed and raced, a compaction, the dumps, and the next heap.
pub const RUN: &[Step] = &[
    Step::Write("large.tests.img", Content::LargeImage),
    Step::Length("large.tests.img", 96),
    Step::Prints(
        "plan --large large.tests.img",
        "live 6\npages 1\npage 0 first 0\nroot 0 8589934596\n",
    ),
    Step::Prints("word --large large.tests.img 1", "0\n"),
    Step::Prints("word large.tests.img --large 4", "844424930131969\n"),
    Step::Write("large.tests.trace", Content::WeakTrace),
    Step::Prints(REPLAY, "6 9\nlive 8\n"),
    Step::Length("large.tests.out", 1_128),
    Step::Holds("large.tests.out", Content::LargeDump),
    Step::Prints(AUDIT, "ok 8\n"),
    Step::Remove("large.tests.out"),
    Step::Prints(RACE, "6 9\nlive 8\n"),
    Step::Holds("large.tests.out", Content::LargeDump),
    Step::Prints(
        "compact --workers 1 --large large.tests.img large.tests.out",
        "live 6\n",
    ),
    Step::Length("large.tests.out", 569),
    Step::Prints(AUDIT, "ok 6\n"),
    Step::Write("large.tests.marks", Content::Text("0\n4\n64\n")),
    Step::Prints(NEXT, "6 9\nlive 8\n"),
    Step::Length("large.tests.new", 1_068),
    Step::Prints("word --large large.tests.new 1", "8589934598\n"),
    Step::Refuses("word large.tests.new 1", "", "H10 BadMagic"),
    // An image and a dump of edition two are read as well.
    Step::Write("large.tests.new", Content::WeakImage),
    Step::Prints("word --large large.tests.new 4", "844424930131969\n"),
    Step::Write("large.tests.out", Content::WeakDump),
    Step::Prints("audit --large large.tests.new large.tests.out", "ok 8\n"),
    Step::Remove("large.tests.marks"),
    Step::Remove("large.tests.new"),
    Step::Remove("large.tests.trace"),
    Step::Remove("large.tests.out"),
    Step::Remove("large.tests.img"),
];

/// Version 3 if the words do not ask for it, dumps of another edition, and a tag of 15 bits.
pub const REFUSED: &[Step] = &[
    Step::Write("large.tests.img", Content::LargeImage),
    Step::Write("large.tests.trace", Content::WeakTrace),
    Step::Write("large.tests.marks", Content::Text("0\n4\n")),
    Step::Write("large.tests.out", KEPT),
    Step::Write("large.tests.new", KEPT),
    Step::Refuses("plan large.tests.img", "", "H10 BadMagic"),
    Step::Refuses("word large.tests.img 4", "", "H10 BadMagic"),
    Step::Refuses(
        "replay large.tests.img large.tests.trace large.tests.out",
        "",
        "H10 BadMagic",
    ),
    Step::Refuses(
        "race large.tests.img large.tests.trace large.tests.out",
        "",
        "H10 BadMagic",
    ),
    Step::Refuses(
        "compact large.tests.img large.tests.out",
        "",
        "H10 BadMagic",
    ),
    Step::Refuses("audit large.tests.img large.tests.out", "", "H10 BadMagic"),
    Step::Refuses(
        "next large.tests.img large.tests.trace large.tests.marks large.tests.new",
        "",
        "H10 BadMagic",
    ),
    Step::Write("large.tests.trace", Content::Text("0 new 0 0 0 16384\n")),
    Step::Refuses(REPLAY, "", "T6 Refused(1, M11 NotInEdition)"),
    Step::Refuses(NEXT, "", "T6 Refused(1, M11 NotInEdition)"),
    Step::Holds("large.tests.out", KEPT),
    Step::Holds("large.tests.new", KEPT),
    // A dump of edition two for a heap of edition three, and the other way.
    Step::Write("large.tests.out", Content::WeakDump),
    Step::Refuses(AUDIT, "", "A8 WrongHead"),
    Step::Write("large.tests.img", Content::WeakImage),
    Step::Write("large.tests.out", Content::LargeDump),
    Step::Refuses(AUDIT, "", "A8 WrongHead"),
    Step::Refuses("audit large.tests.img large.tests.out", "", "B3 BadMagic"),
    Step::Remove("large.tests.marks"),
    Step::Remove("large.tests.new"),
    Step::Remove("large.tests.trace"),
    Step::Remove("large.tests.out"),
    Step::Remove("large.tests.img"),
];

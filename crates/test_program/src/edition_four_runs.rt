//! Runs on heaps of edition four, in which roots, references and weak words may be immediates.
use crate::replay_runs::KEPT;
use test_support::{Content, Step};

// The audit of the dump written last.
const AUDIT: &str = "audit --large --whole --explain imm.tests.img imm.tests.out";

// Runs of the trace written last.
const REPLAY: &str =
    "replay --large --mutators 1 --fresh 0 imm.tests.img imm.tests.trace imm.tests.out";

const RACE: &str =
    "race --large --mutators 1 --fresh 0 imm.tests.img imm.tests.trace imm.tests.out";

// A cycle of that trace, by the roots written last.
const NEXT: &str =
    "next --large --mutators 1 --fresh 0 --reachable --roots imm.tests.roots imm.tests.img imm.tests.trace imm.tests.new";

// A line that makes an immediate.
const MADE: Content = Content::Text("0 imm 0 0\n");

// The immediate that is made names no object.
const READ: Content = Content::Text("0 imm 3 0\n0 get 3 0\n");

// The payload has 64 bits.
const TOO_LARGE: Content = Content::Text("0 imm 0 9223372036854775808\n");

/// Immediates stay where they slide; a trace makes, stores and loads them; roots that are handed in may be such, by
/// their words and by a register.
pub const RUN: &[Step] = &[
    Step::Write("imm.tests.img", Content::ImmediatesImage),
    Step::Prints(
        "plan --large imm.tests.img",
        "live 6\npages 1\npage 0 first 0\nroot 0 8589934596\nroot 1 9223372036854775813\n",
    ),
    Step::Prints("word --large imm.tests.img 1", "0\n"),
    Step::Prints("word --large imm.tests.img 2", "9223372041149743104\n"),
    Step::Prints("map --large imm.tests.img imm.tests.new", "live 6\n"),
    Step::Prints("mark --large imm.tests.img imm.tests.new", "live 6\n"),
    Step::Holds("imm.tests.new", Content::ImmediatesImage),
    Step::Write("imm.tests.trace", Content::ImmediatesTrace),
    Step::Prints(REPLAY, "8 9\nlive 6\n"),
    Step::Holds("imm.tests.out", Content::ImmediatesDump),
    Step::Prints(AUDIT, "built 1 of 1 pages\nentries 2\nok 6\n"),
    Step::Remove("imm.tests.out"),
    Step::Prints(RACE, "8 9\nlive 6\n"),
    Step::Holds("imm.tests.out", Content::ImmediatesDump),
    Step::Write(
        "imm.tests.roots",
        Content::Text("0 3\n9223372036854775808\n0 1\n18446744073709551615\n"),
    ),
    Step::Prints(NEXT, "8 9\nlive 4\n"),
    Step::Prints(
        "plan --large imm.tests.new",
        "live 4\npages 1\npage 0 first 0\nroot 0 9223372036854775815\nroot 1 9223372036854775808\nroot 2 8589934592\nroot 3 18446744073709551615\n",
    ),
    Step::Prints("word --large imm.tests.new 1", "9223372036854775813\n"),
    Step::Write(
        "imm.tests.roots",
        Content::Text("0 3\n9223372036854775807\n"),
    ),
    Step::Refuses(NEXT, "", "H6 BadRoot(1)"),
    Step::Remove("imm.tests.roots"),
    Step::Remove("imm.tests.new"),
    Step::Remove("imm.tests.trace"),
    Step::Remove("imm.tests.out"),
    Step::Remove("imm.tests.img"),
];

/// Version 4 if the words do not ask for it, words below 2^63, immediates as objects, and lines that make immediates in
/// the other editions.
pub const REFUSED: &[Step] = &[
    Step::Write("imm.tests.img", Content::ImmediatesImage),
    Step::Write("imm.tests.out", KEPT),
    Step::Write("imm.tests.trace", READ),
    Step::Refuses("plan imm.tests.img", "", "H10 BadMagic"),
    Step::Refuses(
        REPLAY,
        "",
        "T6 Refused(2, M2 NotAStart(9223372036854775808))",
    ),
    Step::Refuses(RACE, "", "T6 Refused(2, M2 NotAStart(9223372036854775808))"),
    Step::Write("imm.tests.trace", TOO_LARGE),
    Step::Refuses(REPLAY, "", "T4 NumberTooLarge(1)"),
    Step::Write("imm.tests.trace", MADE),
    Step::Write(
        "imm.tests.img",
        Content::BadImmediatesImage(9_223_372_036_854_775_807),
    ),
    Step::Refuses(REPLAY, "", "H13 BadWeak(1)"),
    Step::Write("imm.tests.img", Content::ThreeImage),
    Step::Refuses(REPLAY, "", "T6 Refused(1, M11 NotInEdition)"),
    Step::Write("imm.tests.img", Content::WeakImage),
    Step::Refuses(RACE, "", "T6 Refused(1, M11 NotInEdition)"),
    Step::Write("imm.tests.img", Content::LargeImage),
    Step::Refuses(REPLAY, "", "T6 Refused(1, M11 NotInEdition)"),
    Step::Refuses(RACE, "", "T6 Refused(1, M11 NotInEdition)"),
    Step::Holds("imm.tests.out", KEPT),
    // A dump of edition three for a heap of edition four.
    Step::Write("imm.tests.img", Content::ImmediatesImage),
    Step::Write("imm.tests.out", Content::LargeDump),
    Step::Refuses(
        "audit --large imm.tests.img imm.tests.out",
        "",
        "A8 WrongHead",
    ),
    Step::Remove("imm.tests.trace"),
    Step::Remove("imm.tests.out"),
    Step::Remove("imm.tests.img"),
];

//! Replays of traces: the dump, the printed lines, and what a refusal leaves.
use test_support::{Content, Step};

/// Traces that run to their end.
pub const REPLAYED: &[Step] = &[
    Step::Write("rows.tests.img", Content::ThreeImage),
    Step::Write("rows.tests.trace", Content::SeenTrace),
    Step::Prints(
        "replay rows.tests.img rows.tests.trace rows.tests.out",
        "6 7\nlive 4\n",
    ),
    Step::Length("rows.tests.out", 656),
    Step::Prints("audit rows.tests.img rows.tests.out", "ok 4\n"),
    Step::Write("rows.tests.trace", Content::FreshTrace),
    Step::Prints(
        "replay --mutators 1 --fresh 2 rows.tests.img rows.tests.trace rows.tests.out",
        "live 5\n",
    ),
    Step::Length("rows.tests.out", 1_129),
    Step::Holds("rows.tests.out", Content::FreshDump),
    Step::Prints("audit rows.tests.img rows.tests.out", "ok 5\n"),
    Step::Write("rows.tests.trace", Content::Text("")),
    Step::Prints(
        "replay --mutators=64 --fresh 0 rows.tests.img rows.tests.trace rows.tests.out",
        "live 4\n",
    ),
    Step::Length("rows.tests.out", 301),
    Step::Prints("audit rows.tests.img rows.tests.out", "ok 4\n"),
    Step::Remove("rows.tests.img"),
    Step::Remove("rows.tests.trace"),
    Step::Remove("rows.tests.out"),
];

// Line 3 shows a value, and line 4 reads a field that does not exist.
const HALTED: Content = Content::Text(
    "0 root 0 0\n0 load 1 0 0\n0 get 1 0\n0 get 1 9\n0 get 1 0\n",
);

/// The file that a dump would replace.
pub const KEPT: Content = Content::Text("kept");

// The replay of the trace written last.
const HALT: &str = "replay halt.tests.img halt.tests.trace halt.tests.out";

/// Refused traces. No dump is created, and a file at its path stays as it was.
pub const STOPPED: &[Step] = &[
    Step::Write("halt.tests.img", Content::ThreeImage),
    Step::Write("halt.tests.trace", HALTED),
    Step::Refuses(HALT, "3 11\n", "T6 Refused(4, M3 NoSuchField)"),
    Step::Absent("halt.tests.out"),
    Step::Write("halt.tests.out", KEPT),
    Step::Refuses(HALT, "3 11\n", "T6 Refused(4, M3 NoSuchField)"),
    Step::Holds("halt.tests.out", KEPT),
    Step::Write(
        "halt.tests.trace",
        Content::Text("0 new 0 65535 65535 4294967295\n"),
    ),
    Step::Refuses(HALT, "", "T6 Refused(1, M4 ObjectTooLarge)"),
    Step::Holds("halt.tests.out", KEPT),
    Step::Write("halt.tests.trace", Content::Text("0 nil 0")),
    Step::Refuses(HALT, "", "T1 BadLine(1)"),
    Step::Holds("halt.tests.out", KEPT),
    Step::Write("halt.tests.trace", Content::Text("0 nil 0\n2 nil 0\n")),
    Step::Refuses(HALT, "", "T2 NoSuchMutator(2)"),
    Step::Holds("halt.tests.out", KEPT),
    Step::Write("halt.tests.trace", Content::Text("0 nil 16\n")),
    Step::Refuses(HALT, "", "T3 NoSuchRegister(1)"),
    Step::Holds("halt.tests.out", KEPT),
    Step::Write("halt.tests.trace", Content::Text("0 new 0 65536 0 0\n")),
    Step::Refuses(HALT, "", "T4 NumberTooLarge(1)"),
    Step::Holds("halt.tests.out", KEPT),
    Step::Write("halt.tests.trace", Content::Text("0 root 0 1\n")),
    Step::Refuses(HALT, "", "T5 NoSuchRoot(1)"),
    Step::Holds("halt.tests.out", KEPT),
    Step::Remove("halt.tests.img"),
    Step::Remove("halt.tests.trace"),
    Step::Remove("halt.tests.out"),
];

// The run that makes a new object. Its dump goes to a file of the folder.
const TO_TRACE: &str =
    "replay --mutators 1 --fresh 2 place.tests/img place.tests/trace place.tests/trace";

const TO_IMAGE: &str =
    "replay --mutators 1 --fresh 2 place.tests/img place.tests/trace place.tests/img";

/// Dumps that replace the trace and the image that the run read, beside a file that a killed run left.
pub const PLACED: &[Step] = &[
    Step::MakeFolder("place.tests"),
    Step::Write("place.tests/.compressor-0.part", KEPT),
    Step::Write("place.tests/img", Content::ThreeImage),
    Step::Write("place.tests/trace", Content::FreshTrace),
    Step::Prints(TO_TRACE, "live 5\n"),
    Step::Holds("place.tests/trace", Content::FreshDump),
    Step::Holds("place.tests/img", Content::ThreeImage),
    Step::Refuses(TO_TRACE, "", "T1 BadLine(1)"),
    Step::Holds("place.tests/trace", Content::FreshDump),
    Step::Write("place.tests/trace", Content::FreshTrace),
    Step::Prints(TO_IMAGE, "live 5\n"),
    Step::Holds("place.tests/img", Content::FreshDump),
    Step::Refuses(TO_IMAGE, "", "H10 BadMagic"),
    Step::Holds("place.tests/img", Content::FreshDump),
    Step::Holds("place.tests/.compressor-0.part", KEPT),
    Step::Absent("place.tests/.compressor-1.part"),
    Step::Remove("place.tests/.compressor-0.part"),
    Step::Remove("place.tests/img"),
    Step::Remove("place.tests/trace"),
    Step::RemoveFolder("place.tests"),
];

// The run that makes a new object. Its dump goes to the target of a link.
const TO_LINK: &str =
    "replay --mutators 1 --fresh 2 link.tests/img link.tests/trace link.tests/out";

// The same run and then the next cycle. Its image goes to the target of a link.
const TO_NEXT: &str =
    "next --mutators 1 --fresh 2 link.tests/img link.tests/trace link.tests/marks link.tests/out";

/// Symbolic links at the path of a dump or of a new image. A link stays, and its target is written; or it stays, and
/// the run is refused.
pub const LINKED: &[Step] = &[
    Step::MakeFolder("link.tests"),
    Step::Write("link.tests/img", Content::ThreeImage),
    Step::Write("link.tests/trace", Content::FreshTrace),
    Step::Write("link.tests/marks", Content::Text("2\n64\n")),
    // To a longer file.
    Step::Write("link.tests/old", Content::TwentyImage),
    Step::Link("link.tests/out", "old"),
    Step::Prints(TO_LINK, "live 5\n"),
    Step::Leads("link.tests/out", "old"),
    Step::Holds("link.tests/old", Content::FreshDump),
    Step::Prints(TO_NEXT, "live 3\n"),
    Step::Leads("link.tests/out", "old"),
    Step::Length("link.tests/old", 1_576),
    // Refused before anything is written.
    Step::Write("link.tests/trace", HALTED),
    Step::Refuses(TO_LINK, "3 11\n", "T6 Refused(4, M3 NoSuchField)"),
    Step::Leads("link.tests/out", "old"),
    Step::Length("link.tests/old", 1_576),
    Step::Write("link.tests/trace", Content::FreshTrace),
    Step::Remove("link.tests/out"),
    Step::Remove("link.tests/old"),
    // To nothing.
    Step::Link("link.tests/out", "new"),
    Step::Prints(TO_LINK, "live 5\n"),
    Step::Leads("link.tests/out", "new"),
    Step::Holds("link.tests/new", Content::FreshDump),
    Step::Remove("link.tests/out"),
    Step::Remove("link.tests/new"),
    // To a folder, and into one that does not exist.
    Step::Link("link.tests/out", "."),
    Step::Refuses(TO_LINK, "", "P2 CannotCreate(dump)"),
    Step::Refuses(TO_NEXT, "", "P2 CannotCreate(new)"),
    Step::Leads("link.tests/out", "."),
    Step::Remove("link.tests/out"),
    Step::Link("link.tests/out", "absent/new"),
    Step::Refuses(TO_LINK, "", "P2 CannotCreate(dump)"),
    Step::Refuses(TO_NEXT, "", "P2 CannotCreate(new)"),
    Step::Leads("link.tests/out", "absent/new"),
    Step::Remove("link.tests/out"),
    // No other file is left: the folder can be removed.
    Step::Remove("link.tests/img"),
    Step::Remove("link.tests/trace"),
    Step::Remove("link.tests/marks"),
    Step::RemoveFolder("link.tests"),
];

/// Files that do not exist, and folders in place of files.
pub const WRONG_FILES: &[Step] = &[
    Step::Write("file.tests.img", Content::ThreeImage),
    Step::Write("file.tests.trace", Content::SeenTrace),
    Step::MakeFolder("file.tests"),
    Step::Refuses(
        "replay absent.img absent.trace out",
        "",
        "P1 CannotOpen(image)",
    ),
    Step::Refuses(
        "replay file.tests.img absent.trace out",
        "",
        "P1 CannotOpen(trace)",
    ),
    Step::Refuses(
        "replay file.tests.img file.tests out",
        "",
        "P3 ReadFailed(trace)",
    ),
    Step::Refuses(
        "replay file.tests.img file.tests.trace file.tests",
        "",
        "P2 CannotCreate(dump)",
    ),
    Step::Remove("file.tests.img"),
    Step::Remove("file.tests.trace"),
    Step::RemoveFolder("file.tests"),
];

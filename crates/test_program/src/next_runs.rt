//! Cycles: the image of the next heap, the printed lines, and what a refusal leaves.
use test_support::{Content, Step};

// The last of the three objects gets a reference to a new object.
const LINKED: Content = Content::Text("0 root 0 0\n0 new 1 0 0 9\n0 store 0 0 1\n");

// The first object's data word is shown.
const SHOWN: Content = Content::Text("0 root 0 0\n0 load 1 0 0\n0 get 1 0\n");

// Line 3 writes a data word into the object that the root's object refers to.
const PUT: Content = Content::Text("0 root 0 0\n0 load 1 0 0\n0 put 1 0 1\n");

// A new object alone. Its data word is shown.
const ALONE: Content = Content::Text("0 new 0 0 1 7\n0 put 0 0 5\n0 get 0 0\n");

// Line 3 shows a value, and line 4 reads a field that does not exist.
const HALTED: Content = Content::Text("0 root 0 0\n0 load 1 0 0\n0 get 1 0\n0 get 1 9\n");

const NO_TEXT: Content = Content::Text("");

/// Cycles that end, and other commands on the next heaps.
pub const CYCLED: &[Step] = &[
    Step::Write("cycle.tests.img", Content::ThreeImage),
    Step::Write("cycle.tests.trace", LINKED),
    Step::Write("cycle.tests.marks", Content::Text("2\n64\n")),
    Step::Prints(
        "next --mutators 1 --fresh 2 cycle.tests.img cycle.tests.trace cycle.tests.marks new.tests.img",
        "live 3\n",
    ),
    Step::Length("new.tests.img", 1_576),
    Step::Prints(
        "plan new.tests.img",
        "live 3\npages 1\npage 0 first 2\nroot 0 8589934592\n",
    ),
    Step::Prints("word new.tests.img 0", "12884901889\n"),
    Step::Prints("word new.tests.img 1", "8589934594\n"),
    Step::Prints("word new.tests.img 2", "38654705664\n"),
    Step::Prints("word new.tests.img 3", "0\n"),
    Step::Prints(
        "compact --workers 1 new.tests.img new.tests.out",
        "live 3\n",
    ),
    Step::Prints("audit new.tests.img new.tests.out", "ok 3\n"),
    // The new object has no data word, nor has it one in the second cycle.
    Step::Write("cycle.tests.trace", PUT),
    Step::Refuses(
        "next --mutators 1 --fresh 2 new.tests.img cycle.tests.trace cycle.tests.marks newer.tests.img",
        "",
        "T6 Refused(3, M3 NoSuchField)",
    ),
    Step::Absent("newer.tests.img"),
    // The image may replace the one that was read.
    Step::Write("cycle.tests.trace", NO_TEXT),
    Step::Write("cycle.tests.marks", Content::Text("0\n2\n")),
    Step::Prints(
        "next --fresh=0 new.tests.img cycle.tests.trace cycle.tests.marks new.tests.img",
        "live 3\n",
    ),
    Step::Length("new.tests.img", 552),
    Step::Write("cycle.tests.trace", SHOWN),
    Step::Prints(
        "next cycle.tests.img cycle.tests.trace cycle.tests.marks new.tests.img",
        "3 11\nlive 4\n",
    ),
    Step::Length("new.tests.img", 33_320),
    // The empty heap, and one new object.
    Step::Write("cycle.tests.img", Content::EmptyImage),
    Step::Write("cycle.tests.trace", NO_TEXT),
    Step::Write("cycle.tests.marks", NO_TEXT),
    Step::Prints(
        "next --fresh 0 cycle.tests.img cycle.tests.trace cycle.tests.marks new.tests.img",
        "live 0\n",
    ),
    Step::Length("new.tests.img", 24),
    Step::Write("cycle.tests.trace", ALONE),
    Step::Write("cycle.tests.marks", Content::Text("0\n")),
    Step::Prints(
        "next --fresh 1 cycle.tests.img cycle.tests.trace cycle.tests.marks new.tests.img",
        "3 5\nlive 2\n",
    ),
    Step::Prints("word new.tests.img 1", "5\n"),
    Step::Remove("cycle.tests.img"),
    Step::Remove("cycle.tests.trace"),
    Step::Remove("cycle.tests.marks"),
    Step::Remove("new.tests.img"),
    Step::Remove("new.tests.out"),
];

// The cycle of the files written last.
const NEXT: &str =
    "next --mutators 1 --fresh 2 stay.tests.img stay.tests.trace stay.tests.marks stay.tests.new";

// The file that the image would replace.
const KEPT: Content = Content::Text("kept");

/// Refused marks. The file at the path of the image stays as it was.
pub const UNMARKED: &[Step] = &[
    Step::Write("stay.tests.img", Content::ThreeImage),
    Step::Write("stay.tests.trace", LINKED),
    Step::Write("stay.tests.new", KEPT),
    Step::Write("stay.tests.marks", Content::Text("2\n")),
    Step::Refuses(NEXT, "", "H7 UnmarkedTarget(3)"),
    Step::Write("stay.tests.marks", Content::Text("0\n64\n")),
    Step::Refuses(NEXT, "", "H6 BadRoot(0)"),
    Step::Write("stay.tests.marks", Content::Text("2\n4\n")),
    Step::Refuses(NEXT, "", "H4 MarkNotStart(4)"),
    Step::Write("stay.tests.marks", Content::Text("64\n2\n")),
    Step::Refuses(NEXT, "", "H5 MarksNotRising(2)"),
    Step::Write("stay.tests.marks", NO_TEXT),
    Step::Refuses(NEXT, "", "H6 BadRoot(0)"),
    Step::Write("stay.tests.marks", Content::Text("4294967295\n")),
    Step::Refuses(NEXT, "", "H4 MarkNotStart(4294967295)"),
    // Lines that are no marks.
    Step::Write("stay.tests.marks", Content::Text("02\n")),
    Step::Refuses(NEXT, "", "P6 BadMarks(1)"),
    Step::Write("stay.tests.marks", Content::Text("2\n64")),
    Step::Refuses(NEXT, "", "P6 BadMarks(2)"),
    Step::Write("stay.tests.marks", Content::Text("2\n\n64\n")),
    Step::Refuses(NEXT, "", "P6 BadMarks(2)"),
    Step::Write("stay.tests.marks", Content::Text("2\n64\r\n")),
    Step::Refuses(NEXT, "", "P6 BadMarks(2)"),
    Step::Write("stay.tests.marks", Content::Text("4294967296\n")),
    Step::Refuses(NEXT, "", "P6 BadMarks(1)"),
    Step::Write("stay.tests.marks", Content::Text("+2\n")),
    Step::Refuses(NEXT, "", "P6 BadMarks(1)"),
    Step::Write("stay.tests.marks", Content::Text("2 64\n")),
    Step::Refuses(NEXT, "", "P6 BadMarks(1)"),
    Step::Holds("stay.tests.new", KEPT),
    Step::Remove("stay.tests.img"),
    Step::Remove("stay.tests.trace"),
    Step::Remove("stay.tests.marks"),
    Step::Remove("stay.tests.new"),
];

// The cycle of the files written last, with the image in a folder that does not exist.
const NOWHERE: &str = "next stay.tests.img stay.tests.trace stay.tests.marks absent.tests/new.img";

/// Files that do not exist or are refused: the image first, then the trace, the marks, the run, the next heap, and the
/// new image last.
pub const ORDERED: &[Step] = &[
    Step::Refuses(NOWHERE, "", "P1 CannotOpen(image)"),
    Step::Write("stay.tests.img", Content::BadRootImage),
    Step::Refuses(NOWHERE, "", "H6 BadRoot(0)"),
    Step::Write("stay.tests.img", Content::ThreeImage),
    Step::Refuses(NOWHERE, "", "P1 CannotOpen(trace)"),
    Step::Write("stay.tests.trace", Content::Text("0 jump\n")),
    Step::Refuses(NOWHERE, "", "T1 BadLine(1)"),
    Step::Write("stay.tests.trace", HALTED),
    Step::Refuses(NOWHERE, "", "P1 CannotOpen(marks)"),
    Step::MakeFolder("stay.tests.marks"),
    Step::Refuses(NOWHERE, "", "P3 ReadFailed(marks)"),
    Step::RemoveFolder("stay.tests.marks"),
    Step::Write("stay.tests.marks", Content::Text("2\nx\n")),
    Step::Refuses(NOWHERE, "", "P6 BadMarks(2)"),
    Step::Write("stay.tests.marks", Content::Text("2\n")),
    Step::Refuses(NOWHERE, "3 11\n", "T6 Refused(4, M3 NoSuchField)"),
    Step::Write("stay.tests.trace", SHOWN),
    Step::Refuses(NOWHERE, "", "H7 UnmarkedTarget(3)"),
    Step::Write("stay.tests.marks", Content::Text("0\n2\n")),
    Step::Refuses(NOWHERE, "", "P2 CannotCreate(new)"),
    Step::Remove("stay.tests.img"),
    Step::Remove("stay.tests.trace"),
    Step::Remove("stay.tests.marks"),
    // Words that are no command.
    Step::Misuses("next three.img t18 marks"),
    Step::Misuses("next three.img t18 marks new more"),
    Step::Misuses("next --workers 1 three.img t18 marks new"),
    Step::Misuses("next --mutators 0 three.img t18 marks new"),
    Step::Misuses("next --fresh 4097 three.img t18 marks new"),
    Step::Helps("next --help"),
    Step::Helps("help next"),
];

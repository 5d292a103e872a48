//! Cycles whose next heap is marked by what its roots reach.
use crate::replay_runs::KEPT;
use test_support::{Content, Step};

// The last of the three objects gets a reference to a new object, in place of that to the first.
const LINKED: Content = Content::Text("0 root 0 0\n0 new 1 0 0 9\n0 store 0 0 1\n");

// The last object loses its reference.
const CUT: Content = Content::Text("0 root 0 0\n0 nil 1\n0 store 0 0 1\n");

// The first object's data word is shown.
const SHOWN: Content = Content::Text("0 root 0 0\n0 load 1 0 0\n0 get 1 0\n");

// A new object that only a register holds. Its data word is shown.
const ALONE: Content = Content::Text("0 new 0 0 1 7\n0 put 0 0 5\n0 get 0 0\n");

// Line 3 shows a value, and line 4 reads a field that does not exist.
const HALTED: Content = Content::Text("0 root 0 0\n0 load 1 0 0\n0 get 1 0\n0 get 1 9\n");

const NO_TEXT: Content = Content::Text("");

// A new object that only register 1 holds. Register 0 has the root.
const MADE: Content = Content::Text("0 root 0 0\n0 new 1 0 0 9\n");

// A cycle of the files written last.
const NEXT: &str =
    "next --reachable --mutators 1 --fresh 2 reach.tests.img reach.tests.trace reach.tests.new";

// The same cycle with one worker, to another path.
const ALONE_MARKED: &str =
    "next --reachable --workers 1 --mutators 1 --fresh 2 reach.tests.img reach.tests.trace reach.tests.one";

/// Cycles in editions one, two and three.
pub const REACHED: &[Step] = &[
    Step::Write("reach.tests.img", Content::ThreeImage),
    Step::Write("reach.tests.trace", LINKED),
    Step::Prints(NEXT, "live 3\n"),
    Step::Length("reach.tests.new", 1_576),
    Step::Prints(
        "plan reach.tests.new",
        "live 3\npages 1\npage 0 first 2\nroot 0 8589934592\n",
    ),
    Step::Prints("word reach.tests.new 0", "12884901889\n"),
    Step::Prints("word reach.tests.new 1", "8589934594\n"),
    Step::Prints("word reach.tests.new 2", "38654705664\n"),
    // However many workers there are.
    Step::Prints(ALONE_MARKED, "live 3\n"),
    Step::Length("reach.tests.one", 1_576),
    Step::Prints("word reach.tests.one 2", "38654705664\n"),
    Step::Remove("reach.tests.one"),
    // The image may replace the one that was read.
    Step::Write("reach.tests.trace", NO_TEXT),
    Step::Prints(
        "next reach.tests.new reach.tests.trace reach.tests.new --fresh=0 --reachable --workers=64",
        "live 3\n",
    ),
    Step::Length("reach.tests.new", 552),
    // Nothing is dropped.
    Step::Write("reach.tests.trace", SHOWN),
    Step::Prints(NEXT, "3 11\nlive 4\n"),
    Step::Length("reach.tests.new", 1_576),
    // The first object is dropped, and later the object without a reference is left.
    Step::Write("reach.tests.trace", CUT),
    Step::Prints(NEXT, "live 2\n"),
    Step::Length("reach.tests.new", 1_572),
    Step::Prints(
        "plan reach.tests.new",
        "live 2\npages 1\npage 0 first 2\nroot 0 8589934592\n",
    ),
    Step::Prints("word reach.tests.new 1", "0\n"),
    // What only a register holds is dropped.
    Step::Write("reach.tests.img", Content::EmptyImage),
    Step::Write("reach.tests.trace", ALONE),
    Step::Prints(NEXT, "3 5\nlive 0\n"),
    Step::Length("reach.tests.new", 1_048),
    // A weak word keeps no object.
    Step::Write("reach.tests.img", Content::WeakImage),
    Step::Write("reach.tests.trace", Content::WeakTrace),
    Step::Prints(
        "next --reachable --mutators 1 --fresh 1 reach.tests.img reach.tests.trace reach.tests.new",
        "6 9\nlive 6\n",
    ),
    Step::Length("reach.tests.new", 1_064),
    Step::Prints("word reach.tests.new 1", "0\n"),
    Step::Write("reach.tests.img", Content::LargeImage),
    Step::Refuses(NEXT, "", "H10 BadMagic"),
    Step::Prints(
        "next --reachable --large --mutators 1 --fresh 1 reach.tests.img reach.tests.trace reach.tests.new",
        "6 9\nlive 6\n",
    ),
    Step::Length("reach.tests.new", 1_064),
    Step::Prints("word --large reach.tests.new 1", "0\n"),
    Step::Remove("reach.tests.img"),
    Step::Remove("reach.tests.trace"),
    Step::Remove("reach.tests.new"),
];

// A cycle of the files written last, with other roots.
const ROOTED: &str =
    "next --reachable --roots reach.tests.roots --mutators 1 --fresh 2 reach.tests.img reach.tests.trace reach.tests.new";

// The same by one worker.
const ROOTED_ALONE: &str =
    "next --reachable --workers 1 --roots reach.tests.roots --mutators 1 --fresh 2 reach.tests.img reach.tests.trace reach.tests.new";

// The plan of a next heap in which only the object of word 64 is marked.
const MADE_ALONE: &str = "live 1\npages 1\npage 0 first 64\nroot 0 8589934592\n";

/// Cycles whose next heap has the roots that are named.
pub const ROOTS_NAMED: &[Step] = &[
    Step::Write("reach.tests.img", Content::ThreeImage),
    Step::Write("reach.tests.trace", MADE),
    // The register keeps the new object alone; what the root of before reaches is dropped.
    Step::Write("reach.tests.roots", Content::Text("0 1\n")),
    Step::Prints(ROOTED, "live 1\n"),
    Step::Length("reach.tests.new", 1_572),
    Step::Prints("plan reach.tests.new", MADE_ALONE),
    Step::Prints("word reach.tests.new 0", "38654705664\n"),
    // So does its address.
    Step::Write("reach.tests.roots", Content::Text("8589934656\n")),
    Step::Prints(ROOTED, "live 1\n"),
    Step::Prints("plan reach.tests.new", MADE_ALONE),
    // However many workers there are.
    Step::Prints(ROOTED_ALONE, "live 1\n"),
    Step::Prints("plan reach.tests.new", MADE_ALONE),
    // The first object alone, by its address.
    Step::Write("reach.tests.roots", Content::Text("8589934592\n")),
    Step::Prints(ROOTED, "live 2\n"),
    Step::Length("reach.tests.new", 1_572),
    Step::Prints(
        "plan reach.tests.new",
        "live 2\npages 1\npage 0 first 0\nroot 0 8589934592\n",
    ),
    // The last object, which reaches the first, and the new one; null between them.
    Step::Write("reach.tests.roots", Content::Text("0 0\n0\n0 2\n0 1\n")),
    Step::Prints(ROOTED, "live 5\n"),
    Step::Length("reach.tests.new", 1_604),
    Step::Prints(
        "plan reach.tests.new",
        "live 5\npages 1\npage 0 first 0\nroot 0 8589934594\nroot 1 0\nroot 2 0\nroot 3 8589934596\n",
    ),
    // No root.
    Step::Write("reach.tests.roots", NO_TEXT),
    Step::Prints(ROOTED, "live 0\n"),
    Step::Length("reach.tests.new", 1_560),
    Step::Prints("plan reach.tests.new", "live 0\npages 0\n"),
    // Roots that lead to no object. What was written last stays.
    Step::Write("reach.tests.new", KEPT),
    Step::Write("reach.tests.roots", Content::Text("8589934593\n")),
    Step::Refuses(ROOTED, "", "H6 BadRoot(0)"),
    Step::Write(
        "reach.tests.roots",
        Content::Text("0 1\n4294967298\n8589934593\n"),
    ),
    Step::Refuses(ROOTED, "", "H6 BadRoot(1)"),
    Step::Write("reach.tests.roots", Content::Text("18446744073709551615\n")),
    Step::Refuses(ROOTED, "", "H6 BadRoot(0)"),
    // Texts that are no roots.
    Step::Write("reach.tests.roots", Content::Text("0 1")),
    Step::Refuses(ROOTED, "", "P8 BadRoots(1)"),
    Step::Write("reach.tests.roots", Content::Text("0 1\n0 16\n")),
    Step::Refuses(ROOTED, "", "P8 BadRoots(2)"),
    Step::Write("reach.tests.roots", Content::Text("1 0\n")),
    Step::Refuses(ROOTED, "", "P8 BadRoots(1)"),
    Step::Write("reach.tests.roots", Content::Text("0 0 0\n")),
    Step::Refuses(ROOTED, "", "P8 BadRoots(1)"),
    Step::Write("reach.tests.roots", Content::Text("18446744073709551616\n")),
    Step::Refuses(ROOTED, "", "P8 BadRoots(1)"),
    Step::Write("reach.tests.roots", Content::Text("0\n\n")),
    Step::Refuses(ROOTED, "", "P8 BadRoots(2)"),
    Step::Remove("reach.tests.roots"),
    Step::Refuses(ROOTED, "", "P1 CannotOpen(roots)"),
    Step::MakeFolder("reach.tests.roots"),
    Step::Refuses(ROOTED, "", "P3 ReadFailed(roots)"),
    Step::RemoveFolder("reach.tests.roots"),
    Step::Holds("reach.tests.new", KEPT),
    Step::Remove("reach.tests.img"),
    Step::Remove("reach.tests.trace"),
    Step::Remove("reach.tests.new"),
    Step::Misuses("next --roots r three.img t18 marks new"),
    Step::Misuses("next --roots r three.img t18 new"),
    Step::Misuses("next --reachable --roots three.img t18 new"),
];

// A cycle of the files written last, with the image in a folder that does not exist.
const NOWHERE: &str = "next --reachable reach.tests.img reach.tests.trace absent.tests/new.img";

/// Files that do not exist or are refused, and words that are no command.
pub const REFUSED: &[Step] = &[
    Step::Refuses(NOWHERE, "", "P1 CannotOpen(image)"),
    Step::Write("reach.tests.img", Content::BadRootImage),
    Step::Refuses(NOWHERE, "", "H6 BadRoot(0)"),
    Step::Write("reach.tests.img", Content::ThreeImage),
    Step::Refuses(NOWHERE, "", "P1 CannotOpen(trace)"),
    Step::Write("reach.tests.trace", Content::Text("0 jump\n")),
    Step::Refuses(NOWHERE, "", "T1 BadLine(1)"),
    Step::Write("reach.tests.trace", HALTED),
    Step::Write("reach.tests.new", KEPT),
    Step::Refuses(NEXT, "3 11\n", "T6 Refused(4, M3 NoSuchField)"),
    Step::Holds("reach.tests.new", KEPT),
    Step::Write("reach.tests.trace", SHOWN),
    Step::Refuses(NOWHERE, "", "P2 CannotCreate(new)"),
    Step::Remove("reach.tests.new"),
    Step::Remove("reach.tests.img"),
    Step::Remove("reach.tests.trace"),
    Step::Misuses("next --reachable three.img t18 marks new"),
    Step::Misuses("next --reachable three.img t18"),
    Step::Misuses("next three.img t18 new"),
    Step::Helps("next --reachable --help"),
];

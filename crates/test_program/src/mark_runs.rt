//! Runs of `mark`: the new image, its live words, and what a refusal leaves. The first and the last of the three
//! objects are reached from the root, and the second one is not.
use crate::replay_runs::KEPT;
use test_support::{
    Change, Content, FIRST_MARK, LAST_HEADER, LAST_REFERENCE, MARKED_ROOT, SECOND_DATA_COUNT,
    SECOND_REFERENCE, Step, VERSION,
};

// The marking of the image written last.
const MARK: &str = "mark mark.tests.img mark.tests.new";

// The same by one worker.
const MARK_ALONE: &str = "mark --workers 1 mark.tests.img mark.tests.new";

// The plan of that image, and of the new one.
const OLD_PLAN: &str = "plan mark.tests.img";

const PLAN: &str = "plan mark.tests.new";

/// Heaps that are marked, whatever their marks were.
pub const MARKED: &[Step] = &[
    // The marks are those of the roots.
    Step::Write("mark.tests.img", Content::ThreeImage),
    Step::Prints(MARK, "live 4\n"),
    Step::Holds("mark.tests.new", Content::ThreeImage),
    Step::Prints(PLAN, "live 4\npages 1\npage 0 first 0\nroot 0 8589934594\n"),
    // All three objects are marked.
    Step::Write(
        "mark.tests.img",
        Content::ForgedImage(Change::None, Change::None),
    ),
    Step::Length("mark.tests.img", 100),
    Step::Prints(
        OLD_PLAN,
        "live 7\npages 1\npage 0 first 0\nroot 0 8589934597\n",
    ),
    Step::Prints(MARK_ALONE, "live 4\n"),
    Step::Holds("mark.tests.new", Content::ThreeImage),
    Step::Prints("compact mark.tests.new mark.tests.out", "live 4\n"),
    Step::Prints("audit mark.tests.new mark.tests.out", "ok 4\n"),
    // The first mark is after the second one; no object starts at the second one.
    Step::Write(
        "mark.tests.img",
        Content::ForgedImage(Change::Byte(FIRST_MARK, 5), Change::None),
    ),
    Step::Refuses(OLD_PLAN, "", "H5 MarksNotRising(2)"),
    Step::Prints(MARK, "live 4\n"),
    Step::Holds("mark.tests.new", Content::ThreeImage),
    Step::Write(
        "mark.tests.img",
        Content::ForgedImage(Change::Byte(FIRST_MARK + 4, 3), Change::None),
    ),
    Step::Refuses(OLD_PLAN, "", "H4 MarkNotStart(3)"),
    Step::Prints(MARK, "live 4\n"),
    Step::Holds("mark.tests.new", Content::ThreeImage),
    // The reference of the second object leads into the first one. Only what is marked may not do so.
    Step::Write(
        "mark.tests.img",
        Content::ForgedImage(Change::Word(SECOND_REFERENCE, 4_294_967_297), Change::None),
    ),
    Step::Refuses(OLD_PLAN, "", "H7 UnmarkedTarget(3)"),
    Step::Prints(MARK, "live 4\n"),
    Step::Length("mark.tests.new", 96),
    Step::Prints("word mark.tests.new 3", "8589934592\n"),
    // The last object refers to the second one, and no longer to the first.
    Step::Write(
        "mark.tests.img",
        Content::ForgedImage(Change::Word(LAST_REFERENCE, 4_294_967_298), Change::None),
    ),
    Step::Prints(MARK, "live 5\n"),
    Step::Prints(PLAN, "live 5\npages 1\npage 0 first 2\nroot 0 8589934595\n"),
    // The root leads to the second object, which refers to itself.
    Step::Write(
        "mark.tests.img",
        Content::ForgedImage(
            Change::Word(MARKED_ROOT, 4_294_967_298),
            Change::Word(SECOND_REFERENCE, 4_294_967_298),
        ),
    ),
    Step::Prints(MARK, "live 3\n"),
    Step::Length("mark.tests.new", 92),
    Step::Prints(PLAN, "live 3\npages 1\npage 0 first 2\nroot 0 8589934592\n"),
    // The root leads to the second object, that one to the last, and the last to the first.
    Step::Write(
        "mark.tests.img",
        Content::ForgedImage(
            Change::Word(MARKED_ROOT, 4_294_967_298),
            Change::Word(SECOND_REFERENCE, 4_294_967_301),
        ),
    ),
    Step::Prints(MARK, "live 7\n"),
    Step::Length("mark.tests.new", 100),
    // The root is null.
    Step::Write(
        "mark.tests.img",
        Content::ForgedImage(Change::Word(MARKED_ROOT, 0), Change::None),
    ),
    Step::Prints(MARK, "live 0\n"),
    Step::Length("mark.tests.new", 88),
    Step::Prints(PLAN, "live 0\npages 0\nroot 0 0\n"),
    // No root, and no object.
    Step::Write("mark.tests.img", Content::TwentyImage),
    Step::Prints(MARK, "live 0\n"),
    Step::Length("mark.tests.new", 10_264),
    Step::Write("mark.tests.img", Content::EmptyImage),
    Step::Prints(MARK, "live 0\n"),
    Step::Holds("mark.tests.new", Content::EmptyImage),
    // The image may replace the one that was read.
    Step::Write(
        "mark.tests.img",
        Content::ForgedImage(Change::None, Change::None),
    ),
    Step::Prints("mark mark.tests.img mark.tests.img", "live 4\n"),
    Step::Holds("mark.tests.img", Content::ThreeImage),
    Step::Remove("mark.tests.img"),
    Step::Remove("mark.tests.new"),
    Step::Remove("mark.tests.out"),
];

/// Heaps of editions two and three. A weak word of the first object leads to the second, and that does not mark it.
pub const EDITIONS: &[Step] = &[
    Step::Write("mark.tests.img", Content::WeakImage),
    Step::Prints(MARK, "live 6\n"),
    Step::Holds("mark.tests.new", Content::WeakImage),
    Step::Prints("word mark.tests.new 1", "0\n"),
    Step::Prints("mark --large mark.tests.img mark.tests.new", "live 6\n"),
    Step::Holds("mark.tests.new", Content::WeakImage),
    // The weak word leads into an object.
    Step::Write("mark.tests.img", Content::BadWeakImage(4_294_967_302)),
    Step::Write("mark.tests.new", KEPT),
    Step::Refuses(MARK, "", "H13 BadWeak(1)"),
    Step::Holds("mark.tests.new", KEPT),
    Step::Write("mark.tests.img", Content::LargeImage),
    Step::Refuses(MARK, "", "H10 BadMagic"),
    Step::Holds("mark.tests.new", KEPT),
    Step::Prints("mark mark.tests.img --large mark.tests.new", "live 6\n"),
    Step::Holds("mark.tests.new", Content::LargeImage),
    Step::Prints(
        "plan --large mark.tests.new",
        "live 6\npages 1\npage 0 first 0\nroot 0 8589934596\n",
    ),
    Step::Remove("mark.tests.img"),
    Step::Remove("mark.tests.new"),
];

// The marking of the image written last, with the new image in a folder that does not exist.
const NOWHERE: &str = "mark mark.tests.img absent.tests/new.img";

/// What is refused: the image first, then the heap, and the new image last. The file at its path stays as it was.
pub const REFUSED: &[Step] = &[
    Step::Refuses(NOWHERE, "", "P1 CannotOpen(image)"),
    Step::Refuses(MARK, "", "P1 CannotOpen(image)"),
    Step::Absent("mark.tests.new"),
    Step::Write("mark.tests.new", KEPT),
    Step::MakeFolder("mark.tests.img"),
    Step::Refuses(MARK, "", "H12 Device"),
    Step::RemoveFolder("mark.tests.img"),
    // The bytes are no image.
    Step::Write("mark.tests.img", Content::Text("COMPHEAP")),
    Step::Refuses(NOWHERE, "", "H8 Truncated"),
    Step::Write(
        "mark.tests.img",
        Content::ForgedImage(Change::Push(0), Change::Byte(FIRST_MARK, 9)),
    ),
    Step::Refuses(MARK, "", "H9 TrailingBytes"),
    Step::Write(
        "mark.tests.img",
        Content::ForgedImage(Change::Byte(VERSION, 5), Change::None),
    ),
    Step::Refuses(
        "mark --large mark.tests.img mark.tests.new",
        "",
        "H10 BadMagic",
    ),
    // More marks are counted than there may be.
    Step::Write(
        "mark.tests.img",
        Content::ForgedImage(Change::Byte(VERSION + 11, 1), Change::Cut(24)),
    ),
    Step::Refuses(MARK, "", "H1 TooLarge"),
    // The sizes of all objects count, also of those that are not reached; then the roots, then the references.
    Step::Write(
        "mark.tests.img",
        Content::ForgedImage(
            Change::Byte(SECOND_DATA_COUNT, 9),
            Change::Word(MARKED_ROOT, 4_294_967_297),
        ),
    ),
    Step::Refuses(MARK, "", "H2 ObjectPastEnd(2)"),
    Step::Write(
        "mark.tests.img",
        Content::ForgedImage(Change::Byte(SECOND_DATA_COUNT + 1, 4), Change::None),
    ),
    Step::Refuses(MARK, "", "H3 ObjectTooLong(2)"),
    Step::Write(
        "mark.tests.img",
        Content::ForgedImage(Change::Byte(LAST_HEADER, 2), Change::None),
    ),
    Step::Refuses(MARK, "", "H2 ObjectPastEnd(5)"),
    Step::Write("mark.tests.img", Content::BadRootImage),
    Step::Refuses(MARK, "", "H6 BadRoot(0)"),
    Step::Refuses(NOWHERE, "", "H6 BadRoot(0)"),
    Step::Write(
        "mark.tests.img",
        Content::ForgedImage(Change::Word(LAST_REFERENCE, 4_294_967_297), Change::None),
    ),
    Step::Refuses(MARK, "", "H7 UnmarkedTarget(6)"),
    Step::Refuses(NOWHERE, "", "H7 UnmarkedTarget(6)"),
    Step::Holds("mark.tests.new", KEPT),
    // There is no place for the new image.
    Step::Write(
        "mark.tests.img",
        Content::ForgedImage(Change::None, Change::None),
    ),
    Step::Refuses(NOWHERE, "", "P2 CannotCreate(new)"),
    Step::MakeFolder("mark.tests"),
    Step::Refuses("mark mark.tests.img mark.tests", "", "P2 CannotCreate(new)"),
    Step::RemoveFolder("mark.tests"),
    Step::Remove("mark.tests.img"),
    Step::Remove("mark.tests.new"),
    // Words that are no command.
    Step::Misuses("mark three.img"),
    Step::Misuses("mark three.img new more"),
    Step::Misuses("mark --marks marks three.img new"),
    Step::Helps("mark --help"),
    Step::Helps("help mark"),
];

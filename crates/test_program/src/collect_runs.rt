//! Runs of `collect`: the new image, its live words, and what a refusal leaves. The first and the last of the three
//! objects are reached from the root, and the second one is not.
use crate::replay_runs::KEPT;
use test_support::{
    Change, Content, FIRST_MARK, LAST_HEADER, LAST_REFERENCE, MARKED_ROOT, SECOND_DATA_COUNT,
    SECOND_REFERENCE, Step, VERSION,
};

// The collection of the image written last, and of the image that it leaves.
const COLLECT: &str = "collect collect.tests.img collect.tests.new";

const AGAIN: &str = "collect collect.tests.new collect.tests.again";

// The marking of the image written last.
const MARK: &str = "mark collect.tests.img collect.tests.marked";

// The next heap of an empty run.
const NEXT: &str =
    "next --reachable --fresh 0 collect.tests.img collect.tests.trace collect.tests.again";

const NEXT_OF_MARKED: &str =
    "next --reachable --fresh 0 collect.tests.marked collect.tests.trace collect.tests.again";

const NEXT_OF_NEW: &str =
    "next --reachable --fresh 0 collect.tests.new collect.tests.trace collect.tests.again";

/// Heaps that are rows of objects. What is left is what `mark`, `compact` and `next` make, but that `next` fills a
/// page.
pub const COLLECTED: &[Step] = &[
    Step::Write("collect.tests.img", Content::ThreeImage),
    Step::Prints(COLLECT, "live 4\n"),
    Step::Holds("collect.tests.new", Content::CollectedImage),
    Step::Prints(
        "plan collect.tests.new",
        "live 4\npages 1\npage 0 first 0\nroot 0 8589934594\n",
    ),
    Step::Prints("mark collect.tests.new collect.tests.again", "live 4\n"),
    Step::Holds("collect.tests.again", Content::CollectedImage),
    Step::Prints(AGAIN, "live 4\n"),
    Step::Holds("collect.tests.again", Content::CollectedImage),
    Step::Write("collect.tests.trace", Content::Text("")),
    Step::Prints(MARK, "live 4\n"),
    Step::Prints("compact collect.tests.marked collect.tests.out", "live 4\n"),
    Step::Prints("audit collect.tests.new collect.tests.out", "ok 4\n"),
    Step::Prints(NEXT, "live 4\n"),
    Step::Holds("collect.tests.again", Content::FilledImage),
    Step::Prints(NEXT_OF_MARKED, "live 4\n"),
    Step::Holds("collect.tests.again", Content::FilledImage),
    Step::Prints(NEXT_OF_NEW, "live 4\n"),
    Step::Holds("collect.tests.again", Content::FilledImage),
    // What lies behind the objects that are reached goes.
    Step::Prints("collect collect.tests.again collect.tests.new", "live 4\n"),
    Step::Holds("collect.tests.new", Content::CollectedImage),
    Step::Remove("collect.tests.marked"),
    Step::Remove("collect.tests.trace"),
    Step::Remove("collect.tests.out"),
    // However many workers there are; and whatever is marked.
    Step::Write(
        "collect.tests.img",
        Content::ForgedImage(Change::None, Change::None),
    ),
    Step::Prints(
        "collect --workers 1 collect.tests.img collect.tests.new",
        "live 4\n",
    ),
    Step::Holds("collect.tests.new", Content::CollectedImage),
    Step::Write(
        "collect.tests.img",
        Content::ForgedImage(Change::Byte(FIRST_MARK, 5), Change::None),
    ),
    Step::Prints(
        "collect collect.tests.img --workers=64 collect.tests.new",
        "live 4\n",
    ),
    Step::Holds("collect.tests.new", Content::CollectedImage),
    // The root is null; there are no roots; there is no object.
    Step::Write(
        "collect.tests.img",
        Content::ForgedImage(Change::Word(MARKED_ROOT, 0), Change::None),
    ),
    Step::Prints(COLLECT, "live 0\n"),
    Step::Length("collect.tests.new", 32),
    Step::Write("collect.tests.img", Content::TwentyImage),
    Step::Prints(COLLECT, "live 0\n"),
    Step::Holds("collect.tests.new", Content::EmptyImage),
    Step::Write("collect.tests.img", Content::EmptyImage),
    Step::Prints(COLLECT, "live 0\n"),
    Step::Holds("collect.tests.new", Content::EmptyImage),
    // The image may replace the one that was read.
    Step::Write("collect.tests.img", Content::ThreeImage),
    Step::Prints("collect collect.tests.img collect.tests.img", "live 4\n"),
    Step::Holds("collect.tests.img", Content::CollectedImage),
    Step::Remove("collect.tests.img"),
    Step::Remove("collect.tests.new"),
    Step::Remove("collect.tests.again"),
];

/// Words that are no row of objects. Nothing is asked of those that are not reached.
pub const NO_ROWS: &[Step] = &[
    // The second object would end past the words, and is too long.
    Step::Write(
        "collect.tests.img",
        Content::ForgedImage(Change::Byte(SECOND_DATA_COUNT, 9), Change::None),
    ),
    Step::Refuses(MARK, "", "H2 ObjectPastEnd(2)"),
    Step::Prints(COLLECT, "live 4\n"),
    Step::Holds("collect.tests.new", Content::CollectedImage),
    Step::Write(
        "collect.tests.img",
        Content::ForgedImage(Change::Byte(SECOND_DATA_COUNT + 1, 4), Change::None),
    ),
    Step::Refuses(MARK, "", "H3 ObjectTooLong(2)"),
    Step::Prints(COLLECT, "live 4\n"),
    Step::Holds("collect.tests.new", Content::CollectedImage),
    // The last object refers to a word within the second one: an object of one word.
    Step::Write(
        "collect.tests.img",
        Content::ForgedImage(Change::Word(LAST_REFERENCE, 4_294_967_299), Change::None),
    ),
    Step::Refuses(MARK, "", "H7 UnmarkedTarget(6)"),
    Step::Prints(COLLECT, "live 3\n"),
    Step::Prints(
        "plan collect.tests.new",
        "live 3\npages 1\npage 0 first 0\nroot 0 8589934593\n",
    ),
    Step::Prints("word collect.tests.new 0", "0\n"),
    Step::Prints("word collect.tests.new 2", "8589934592\n"),
    Step::Remove("collect.tests.img"),
    Step::Remove("collect.tests.new"),
];

/// Heaps of the other editions: a weak word to what dies becomes null, and immediates stay.
pub const EDITIONS: &[Step] = &[
    Step::Write("collect.tests.img", Content::WeakImage),
    Step::Prints(COLLECT, "live 6\n"),
    Step::Holds("collect.tests.new", Content::CollectedWeakImage),
    // The weak word leads to a word within an object, and where no word is.
    Step::Write("collect.tests.img", Content::BadWeakImage(4_294_967_302)),
    Step::Prints(COLLECT, "live 6\n"),
    Step::Holds("collect.tests.new", Content::CollectedWeakImage),
    Step::Write("collect.tests.img", Content::BadWeakImage(4_294_967_303)),
    Step::Refuses(COLLECT, "", "S4 BadWeak(1)"),
    Step::Holds("collect.tests.new", Content::CollectedWeakImage),
    Step::Write("collect.tests.img", Content::LargeImage),
    Step::Refuses(COLLECT, "", "H10 BadMagic"),
    Step::Prints(
        "collect collect.tests.img --large collect.tests.new",
        "live 6\n",
    ),
    Step::Length("collect.tests.new", 88),
    Step::Prints("word --large collect.tests.new 1", "0\n"),
    Step::Write("collect.tests.img", Content::ImmediatesImage),
    Step::Refuses(COLLECT, "", "H10 BadMagic"),
    Step::Prints(
        "collect --large collect.tests.img collect.tests.new",
        "live 6\n",
    ),
    Step::Holds("collect.tests.new", Content::CollectedImmediatesImage),
    Step::Remove("collect.tests.img"),
    Step::Remove("collect.tests.new"),
];

// The collection of the image written last, with the new image in a folder that does not exist.
const NOWHERE: &str = "collect collect.tests.img absent.tests/new.img";

/// What is refused: the image first, then the heap, and the new image last. The file at its path stays as it was.
pub const REFUSED: &[Step] = &[
    Step::Refuses(NOWHERE, "", "P1 CannotOpen(image)"),
    Step::Write("collect.tests.new", KEPT),
    Step::MakeFolder("collect.tests.img"),
    Step::Refuses(COLLECT, "", "H12 Device"),
    Step::RemoveFolder("collect.tests.img"),
    Step::Write("collect.tests.img", Content::Text("COMPHEAP")),
    Step::Refuses(NOWHERE, "", "H8 Truncated"),
    Step::Write(
        "collect.tests.img",
        Content::ForgedImage(Change::Push(0), Change::None),
    ),
    Step::Refuses(COLLECT, "", "H9 TrailingBytes"),
    // More marks are counted than there may be.
    Step::Write(
        "collect.tests.img",
        Content::ForgedImage(Change::Byte(VERSION + 11, 1), Change::Cut(24)),
    ),
    Step::Refuses(COLLECT, "", "H1 TooLarge"),
    // The root leads behind the words; a reference does.
    Step::Write(
        "collect.tests.img",
        Content::ForgedImage(Change::Word(MARKED_ROOT, 4_294_967_303), Change::None),
    ),
    Step::Refuses(COLLECT, "", "S2 BadRoot(0)"),
    Step::Refuses(NOWHERE, "", "S2 BadRoot(0)"),
    Step::Write(
        "collect.tests.img",
        Content::ForgedImage(Change::Word(LAST_REFERENCE, 5), Change::None),
    ),
    Step::Refuses(COLLECT, "", "S3 BadReference(6)"),
    // The last object has 1,024 data words; or a reference more than there are words; or refers to its reference.
    Step::Write(
        "collect.tests.img",
        Content::ForgedImage(Change::Byte(LAST_HEADER + 3, 4), Change::None),
    ),
    Step::Refuses(COLLECT, "", "S5 ObjectTooLong(5)"),
    Step::Write(
        "collect.tests.img",
        Content::ForgedImage(Change::Byte(LAST_HEADER, 2), Change::None),
    ),
    Step::Refuses(COLLECT, "", "S6 ObjectPastEnd(5)"),
    Step::Write(
        "collect.tests.img",
        Content::ForgedImage(Change::Word(LAST_REFERENCE, 4_294_967_302), Change::None),
    ),
    Step::Refuses(COLLECT, "", "S6 ObjectPastEnd(6)"),
    // The second object refers to its reference, which as a header has the words of both objects.
    Step::Write(
        "collect.tests.img",
        Content::ForgedImage(
            Change::Word(MARKED_ROOT, 4_294_967_298),
            Change::Word(SECOND_REFERENCE, 4_294_967_299),
        ),
    ),
    Step::Refuses(COLLECT, "", "S7 Overlap(3)"),
    Step::Holds("collect.tests.new", KEPT),
    // There is no place for the new image.
    Step::Write("collect.tests.img", Content::ThreeImage),
    Step::Refuses(NOWHERE, "", "P2 CannotCreate(new)"),
    Step::MakeFolder("collect.tests"),
    Step::Refuses(
        "collect collect.tests.img collect.tests",
        "",
        "P2 CannotCreate(new)",
    ),
    Step::RemoveFolder("collect.tests"),
    Step::Remove("collect.tests.img"),
    Step::Remove("collect.tests.new"),
    // Words that are no command.
    Step::Misuses("collect three.img"),
    Step::Misuses("collect three.img new more"),
    Step::Misuses("collect --mutators 1 three.img new"),
    Step::Misuses("collect --workers 65 three.img new"),
    Step::Helps("collect --help"),
    Step::Helps("help collect"),
];

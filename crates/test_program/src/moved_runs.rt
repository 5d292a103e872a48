//! Runs of `moved`. The three objects are all marked, and the root leads to the last.
use test_support::{Change, Content, Step, VERSION};

// The positions in the moved heap: of the numbers of places, roots and words, of the places of the first and the last
// object, of the root, and of the words.
const PLACES: usize = 12;

const ROOTS: usize = 16;

const WORDS: usize = 20;

const FIRST_PLACE: usize = 24;

const LAST_PLACE: usize = 32;

const ROOT: usize = 36;

const LAST_REFERENCE: usize = 52;

const HOLE: usize = 60;

const SECOND_HEADER: usize = 68;

const SECOND_REFERENCE: usize = 76;

const SECOND_DATA: usize = 84;

const FIRST_DATA: usize = 108;

// The positions of the weak words in the moved heap of edition two.
const FIRST_WEAK: usize = 64;

const SECOND_WEAK: usize = 72;

// The judgement of the file that was written last.
const MOVED: &str = "moved moved.tests.img moved.tests.file";

const LARGE: &str = "moved --large moved.tests.img moved.tests.file";

/// Moved heaps that are accepted: with free words, whatever they are, and with weak words.
pub const LAWFUL: &[Step] = &[
    Step::Write(
        "moved.tests.img",
        Content::ForgedImage(Change::None, Change::None),
    ),
    Step::Write(
        "moved.tests.file",
        Content::ForgedMoved(Change::None, Change::None),
    ),
    Step::Prints(MOVED, "ok 7\nobjects 3\n"),
    Step::Length("moved.tests.file", 116),
    Step::Prints(LARGE, "ok 7\nobjects 3\n"),
    Step::Write(
        "moved.tests.file",
        Content::ForgedMoved(Change::Word(HOLE, 8_589_934_599), Change::None),
    ),
    Step::Prints(MOVED, "ok 7\nobjects 3\n"),
    Step::Write("moved.tests.img", Content::WeakImage),
    Step::Write(
        "moved.tests.file",
        Content::ForgedWeakMoved(Change::None, Change::None),
    ),
    Step::Prints(MOVED, "ok 6\nobjects 2\n"),
    Step::Length("moved.tests.file", 88),
    Step::Write("moved.tests.img", Content::LargeImage),
    Step::Write(
        "moved.tests.file",
        Content::ForgedWeakMoved(Change::Byte(VERSION, 3), Change::None),
    ),
    Step::Prints(LARGE, "ok 6\nobjects 2\n"),
    Step::Remove("moved.tests.img"),
    Step::Remove("moved.tests.file"),
];

/// Each fault alone.
pub const UNLAWFUL: &[Step] = &[
    Step::Write(
        "moved.tests.img",
        Content::ForgedImage(Change::None, Change::None),
    ),
    Step::Write(
        "moved.tests.file",
        Content::ForgedMoved(Change::Byte(VERSION, 2), Change::None),
    ),
    Step::Refuses(MOVED, "", "V1 WrongHead(Edition)"),
    // One place less, of which the bytes are cut off at the end; and so one root less.
    Step::Write(
        "moved.tests.file",
        Content::ForgedMoved(Change::Byte(PLACES, 2), Change::Cut(112)),
    ),
    Step::Refuses(MOVED, "", "V1 WrongHead(Places)"),
    Step::Write(
        "moved.tests.file",
        Content::ForgedMoved(Change::Byte(ROOTS, 0), Change::Cut(108)),
    ),
    Step::Refuses(MOVED, "", "V1 WrongHead(Roots)"),
    // The first object ends at 9, and there are 8 words; or it would end at 10, and there are 9.
    Step::Write(
        "moved.tests.file",
        Content::ForgedMoved(Change::Byte(WORDS, 8), Change::Cut(108)),
    ),
    Step::Refuses(MOVED, "", "V2 PlaceOutside(0)"),
    Step::Write(
        "moved.tests.file",
        Content::ForgedMoved(Change::Byte(FIRST_PLACE, 8), Change::None),
    ),
    Step::Refuses(MOVED, "", "V2 PlaceOutside(0)"),
    Step::Write(
        "moved.tests.file",
        Content::ForgedMoved(Change::Byte(LAST_PLACE, 8), Change::None),
    ),
    Step::Refuses(MOVED, "", "V2 PlaceOutside(2)"),
    // The second object has the words 3 to 5.
    Step::Write(
        "moved.tests.file",
        Content::ForgedMoved(Change::Byte(FIRST_PLACE, 5), Change::None),
    ),
    Step::Refuses(MOVED, "", "V3 Overlap(1, 0)"),
    Step::Write(
        "moved.tests.file",
        Content::ForgedMoved(Change::Byte(LAST_PLACE, 2), Change::None),
    ),
    Step::Refuses(MOVED, "", "V3 Overlap(2, 1)"),
    Step::Write(
        "moved.tests.file",
        Content::ForgedMoved(Change::Word(ROOT, 0), Change::None),
    ),
    Step::Refuses(MOVED, "", "V4 WrongRoot(0)"),
    Step::Write(
        "moved.tests.file",
        Content::ForgedMoved(Change::Word(ROOT, 4_294_967_301), Change::None),
    ),
    Step::Refuses(MOVED, "", "V4 WrongRoot(0)"),
    // A header, data words, a reference to another object, and one that was null.
    Step::Write(
        "moved.tests.file",
        Content::ForgedMoved(Change::Byte(SECOND_HEADER, 0), Change::None),
    ),
    Step::Refuses(MOVED, "", "V5 WrongWord(1, 0)"),
    Step::Write(
        "moved.tests.file",
        Content::ForgedMoved(Change::Word(SECOND_DATA, 23), Change::None),
    ),
    Step::Refuses(MOVED, "", "V5 WrongWord(1, 2)"),
    Step::Write(
        "moved.tests.file",
        Content::ForgedMoved(Change::Word(FIRST_DATA, 12), Change::None),
    ),
    Step::Refuses(MOVED, "", "V5 WrongWord(0, 1)"),
    Step::Write(
        "moved.tests.file",
        Content::ForgedMoved(Change::Word(LAST_REFERENCE, 8_589_934_595), Change::None),
    ),
    Step::Refuses(MOVED, "", "V5 WrongWord(2, 1)"),
    Step::Write(
        "moved.tests.file",
        Content::ForgedMoved(Change::Word(SECOND_REFERENCE, 8_589_934_592), Change::None),
    ),
    Step::Refuses(MOVED, "", "V5 WrongWord(1, 1)"),
    // A weak word for an object that is not marked, and one for an object that is.
    Step::Write("moved.tests.img", Content::WeakImage),
    Step::Write(
        "moved.tests.file",
        Content::ForgedWeakMoved(Change::Word(FIRST_WEAK, 8_589_934_592), Change::None),
    ),
    Step::Refuses(MOVED, "", "V5 WrongWord(0, 1)"),
    Step::Write(
        "moved.tests.file",
        Content::ForgedWeakMoved(Change::Word(SECOND_WEAK, 0), Change::None),
    ),
    Step::Refuses(MOVED, "", "V5 WrongWord(0, 2)"),
    // Version 3, if the words do not ask for it, and for a heap of edition two.
    Step::Write(
        "moved.tests.file",
        Content::ForgedWeakMoved(Change::Byte(VERSION, 3), Change::None),
    ),
    Step::Refuses(MOVED, "", "B3 BadMagic"),
    Step::Refuses(LARGE, "", "V1 WrongHead(Edition)"),
    Step::Write("moved.tests.img", Content::LargeImage),
    Step::Refuses(MOVED, "", "H10 BadMagic"),
    Step::Remove("moved.tests.img"),
    Step::Remove("moved.tests.file"),
];

/// Files that are not read: the image first, then the moved heap.
pub const REFUSED: &[Step] = &[
    Step::Refuses(MOVED, "", "P1 CannotOpen(image)"),
    Step::Write("moved.tests.img", Content::BadRootImage),
    Step::Refuses(MOVED, "", "H6 BadRoot(0)"),
    Step::Write("moved.tests.img", Content::ThreeImage),
    Step::Refuses(MOVED, "", "P1 CannotOpen(moved)"),
    Step::Refuses("moved moved.tests.img moved.tests.img", "", "B3 BadMagic"),
    Step::MakeFolder("moved.tests"),
    Step::Refuses("moved moved.tests.img moved.tests", "", "B6 Device"),
    Step::Refuses("moved moved.tests moved.tests.img", "", "H12 Device"),
    Step::RemoveFolder("moved.tests"),
    Step::Write(
        "moved.tests.file",
        Content::ForgedMoved(Change::Cut(115), Change::None),
    ),
    Step::Refuses(MOVED, "", "B1 Truncated"),
    Step::Write(
        "moved.tests.file",
        Content::ForgedMoved(Change::Cut(23), Change::None),
    ),
    Step::Refuses(MOVED, "", "B1 Truncated"),
    // More than two thousand million words are announced.
    Step::Write(
        "moved.tests.file",
        Content::ForgedMoved(Change::Byte(WORDS + 3, 127), Change::None),
    ),
    Step::Refuses(MOVED, "", "B1 Truncated"),
    Step::Write(
        "moved.tests.file",
        Content::ForgedMoved(Change::Push(0), Change::None),
    ),
    Step::Refuses(MOVED, "", "B2 TrailingBytes"),
    Step::Write(
        "moved.tests.file",
        Content::ForgedMoved(Change::Byte(0, 68), Change::None),
    ),
    Step::Refuses(MOVED, "", "B3 BadMagic"),
    Step::Write(
        "moved.tests.file",
        Content::ForgedMoved(Change::Byte(VERSION, 5), Change::None),
    ),
    Step::Refuses(LARGE, "", "B3 BadMagic"),
    // One more than there may be, of places, of roots and of words.
    Step::Write(
        "moved.tests.file",
        Content::ForgedMoved(Change::Word(PLACES, 4_296_015_873), Change::None),
    ),
    Step::Refuses(MOVED, "", "B4 BadField"),
    Step::Write(
        "moved.tests.file",
        Content::ForgedMoved(Change::Word(ROOTS, 38_654_709_761), Change::None),
    ),
    Step::Refuses(MOVED, "", "B4 BadField"),
    Step::Write(
        "moved.tests.file",
        Content::ForgedMoved(Change::Word(WORDS, 2_147_483_649), Change::None),
    ),
    Step::Refuses(MOVED, "", "B4 BadField"),
    Step::Remove("moved.tests.img"),
    Step::Remove("moved.tests.file"),
    // Words that are no command.
    Step::Misuses("moved three.img"),
    Step::Misuses("moved three.img file more"),
    Step::Misuses("moved --whole three.img file"),
    Step::Helps("moved --help"),
    Step::Helps("help moved"),
];

//! Runs of `map`. The three objects are all marked, and the root leads to the last.
use test_support::{Change, Content, FIRST_DATA, Step};

// The picture of the image that was written last, and that of it with the dump.
const MAP: &str = "map map.tests.img map.tests.svg";

const DUMPED: &str = "map --dump map.tests.dump map.tests.img map.tests.svg";

// What was at the path of the picture before.
const KEPT: Content = Content::Text("what was there before");

/// Pictures of all editions, with a dump and without, and of a dump that has a fault.
pub const MAPPED: &[Step] = &[
    Step::Write("map.tests.img", Content::ThreeImage),
    Step::Prints(MAP, "live 4\n"),
    Step::Has("map.tests.svg", "</svg>"),
    Step::Write("map.tests.svg", KEPT),
    Step::Prints("map --large map.tests.img map.tests.svg", "live 4\n"),
    Step::Has("map.tests.svg", "</svg>"),
    Step::Write("map.tests.dump", Content::FreshDump),
    Step::Prints(DUMPED, "live 4\n"),
    Step::Has("map.tests.svg", "</svg>"),
    Step::Prints(
        "map map.tests.img --dump=map.tests.dump map.tests.svg",
        "live 4\n",
    ),
    // The picture may replace the dump that is drawn, or the image.
    Step::Prints(
        "map --dump map.tests.dump map.tests.img map.tests.dump",
        "live 4\n",
    ),
    Step::Has("map.tests.dump", "</svg>"),
    // A fault of the dump is drawn.
    Step::Write(
        "map.tests.dump",
        Content::ForgedDump(Change::Word(FIRST_DATA, 12), Change::None),
    ),
    Step::Prints(DUMPED, "live 4\n"),
    Step::Has("map.tests.svg", "page 0 offset 1 has 12, not 11"),
    Step::Prints("map map.tests.img map.tests.img", "live 4\n"),
    Step::Has("map.tests.img", "</svg>"),
    Step::Write("map.tests.img", Content::EmptyImage),
    Step::Prints(MAP, "live 0\n"),
    Step::Has("map.tests.svg", "</svg>"),
    Step::Write("map.tests.img", Content::TwentyImage),
    Step::Prints(MAP, "live 1280\n"),
    Step::Write("map.tests.img", Content::WeakImage),
    Step::Write("map.tests.dump", Content::WeakDump),
    Step::Prints(DUMPED, "live 6\n"),
    Step::Write("map.tests.img", Content::LargeImage),
    Step::Write("map.tests.dump", Content::LargeDump),
    Step::Write("map.tests.svg", KEPT),
    Step::Refuses(DUMPED, "", "H10 BadMagic"),
    Step::Holds("map.tests.svg", KEPT),
    Step::Prints(
        "map --large --dump map.tests.dump map.tests.img map.tests.svg",
        "live 6\n",
    ),
    Step::Has("map.tests.svg", "</svg>"),
    Step::Remove("map.tests.img"),
    Step::Remove("map.tests.dump"),
    Step::Remove("map.tests.svg"),
];

// The same with the picture in a folder that does not exist.
const NOWHERE: &str = "map --dump map.tests.dump map.tests.img absent.tests/out.svg";

/// What is refused: the image first, then the dump, and the picture last. The file at its path stays as it was.
pub const REFUSED: &[Step] = &[
    Step::Refuses(NOWHERE, "", "P1 CannotOpen(image)"),
    Step::Refuses(MAP, "", "P1 CannotOpen(image)"),
    Step::Absent("map.tests.svg"),
    Step::Write("map.tests.svg", KEPT),
    Step::MakeFolder("map.tests.img"),
    Step::Refuses(MAP, "", "H12 Device"),
    Step::RemoveFolder("map.tests.img"),
    Step::Write("map.tests.img", Content::Text("COMPHEAP")),
    Step::Refuses(NOWHERE, "", "H8 Truncated"),
    Step::Write("map.tests.img", Content::BadRootImage),
    Step::Refuses(MAP, "", "H6 BadRoot(0)"),
    // Then the dump.
    Step::Write("map.tests.img", Content::ThreeImage),
    Step::Refuses(NOWHERE, "", "P1 CannotOpen(dump)"),
    Step::MakeFolder("map.tests.dump"),
    Step::Refuses(DUMPED, "", "B6 Device"),
    Step::RemoveFolder("map.tests.dump"),
    Step::Write("map.tests.dump", Content::Text("COMPDUMP")),
    Step::Refuses(DUMPED, "", "B1 Truncated"),
    Step::Write(
        "map.tests.dump",
        Content::ForgedDump(Change::Push(0), Change::None),
    ),
    Step::Refuses(DUMPED, "", "B2 TrailingBytes"),
    Step::Refuses(NOWHERE, "", "B2 TrailingBytes"),
    Step::Write("map.tests.dump", Content::LargeDump),
    Step::Refuses(DUMPED, "", "B3 BadMagic"),
    // There is no place for the picture.
    Step::Write("map.tests.dump", Content::FreshDump),
    Step::Refuses(NOWHERE, "", "P2 CannotCreate(map)"),
    Step::MakeFolder("map.tests"),
    Step::Refuses("map map.tests.img map.tests", "", "P2 CannotCreate(map)"),
    Step::RemoveFolder("map.tests"),
    Step::Holds("map.tests.svg", KEPT),
    // The device takes no byte.
    Step::Refuses("map map.tests.img /dev/full", "", "P9 CannotWrite(map)"),
    Step::Remove("map.tests.img"),
    Step::Remove("map.tests.dump"),
    Step::Remove("map.tests.svg"),
    // Words that are no command.
    Step::Misuses("map three.img"),
    Step::Misuses("map --dump three.img out"),
    Step::Helps("map --help"),
    Step::Helps("help map"),
];

//! Runs of `audit` that ask for whole dumps or for what was compared, or judge words and roots.
use test_support::{Change, Content, FIRST_DATA, ROOT, Step};

// The audits of the dump that was written last.
const AUDIT: &str = "audit whole.tests.img whole.tests.dump";

const WHOLE: &str = "audit --whole whole.tests.img whole.tests.dump";

const EXPLAINED: &str = "audit --explain whole.tests.img whole.tests.dump";

const WHOLE_EXPLAINED: &str = "audit --whole --explain whole.tests.img whole.tests.dump";

/// Dumps of which a page was not built.
pub const WHOLES: &[Step] = &[
    Step::Write("whole.tests.img", Content::ThreeImage),
    // The last of the two fresh pages was not built.
    Step::Write("whole.tests.dump", Content::FreshDump),
    Step::Prints(WHOLE, "ok 5\n"),
    Step::Prints(WHOLE_EXPLAINED, "built 2 of 3 pages\nentries 2\nok 5\n"),
    // The one compacted page was not built.
    Step::Write("whole.tests.dump", Content::UnbuiltDump(Change::None)),
    Step::Prints(AUDIT, "ok 4\n"),
    Step::Prints(EXPLAINED, "built 0 of 1 pages\nentries 0\nok 4\n"),
    Step::Refuses(WHOLE, "", "A9 PageMissing(0)"),
    Step::Refuses(
        WHOLE_EXPLAINED,
        "built 0 of 1 pages\nentries 0\npage 0 of 1 was never built\n",
        "A9 PageMissing(0)",
    ),
    // Other faults come first: the total is 5.
    Step::Write(
        "whole.tests.dump",
        Content::UnbuiltDump(Change::Word(41, 5)),
    ),
    Step::Refuses(AUDIT, "", "A6 WrongTotal"),
    Step::Refuses(WHOLE, "", "A6 WrongTotal"),
    Step::Write(
        "whole.tests.dump",
        Content::ForgedDump(Change::Word(FIRST_DATA, 12), Change::None),
    ),
    Step::Refuses(
        WHOLE_EXPLAINED,
        "built 2 of 3 pages\nentries 2\npage 0 offset 1 has 12, not 11\nobject 0 at index 0, address 8589934592, header 4295032832\n",
        "A1 WrongWord(8589934593)",
    ),
    Step::Write(
        "whole.tests.dump",
        Content::ForgedDump(Change::Word(ROOT, 0), Change::None),
    ),
    Step::Refuses(
        WHOLE_EXPLAINED,
        "built 2 of 3 pages\nentries 2\nroot 0 is 0, not 8589934594\n",
        "A8 WrongHead",
    ),
    // Only page 1 is in the list of builds.
    Step::Write(
        "whole.tests.dump",
        Content::ForgedDump(Change::Builds(&[1, 1]), Change::None),
    ),
    Step::Refuses(
        WHOLE_EXPLAINED,
        "built 2 of 3 pages\nentries 2\npage 0 is built, and named 0 times\n",
        "A7 BuildUnclaimed(0)",
    ),
    // A file that is no dump has no counts.
    Step::Write("whole.tests.dump", Content::ThreeImage),
    Step::Refuses(WHOLE_EXPLAINED, "", "B3 BadMagic"),
    Step::Remove("whole.tests.img"),
    Step::Remove("whole.tests.dump"),
];

// The audits of the words that were written last. The root is at position 20, and the words are from 28 on.
const WORDS: &str = "audit --words words.tests.img words.tests.words";

const WHOLE_WORDS: &str = "audit --whole --words words.tests.img words.tests.words";

const EXPLAINED_WORDS: &str = "audit --words --explain words.tests.img words.tests.words";

const LARGE_WORDS: &str = "audit --large --words words.tests.img words.tests.words";

/// Words that are accepted, words with one thing forged, and files that are no words.
pub const WORDED: &[Step] = &[
    Step::Write("words.tests.img", Content::ThreeImage),
    Step::MakeFolder("words.tests"),
    Step::Refuses(WORDS, "", "P1 CannotOpen(dump)"),
    Step::Write("words.tests.words", Content::ThreeWords(Change::None)),
    Step::Prints(WORDS, "ok 4\n"),
    Step::Prints(WHOLE_WORDS, "ok 4\n"),
    Step::Prints(LARGE_WORDS, "ok 4\n"),
    Step::Prints(EXPLAINED_WORDS, "built 1 of 1 pages\nentries 0\nok 4\n"),
    Step::Refuses("audit words.tests.img words.tests.words", "", "B3 BadMagic"),
    Step::Refuses(
        "audit --words words.tests.img words.tests.img",
        "",
        "B3 BadMagic",
    ),
    Step::Refuses("audit --words words.tests.img words.tests", "", "B6 Device"),
    Step::Write(
        "words.tests.words",
        Content::ThreeWords(Change::Word(36, 12)),
    ),
    Step::Refuses(WORDS, "", "A1 WrongWord(8589934593)"),
    Step::Refuses(
        EXPLAINED_WORDS,
        "built 1 of 1 pages\nentries 0\npage 0 offset 1 has 12, not 11\nobject 0 at index 0, address 8589934592, header 4295032832\n",
        "A1 WrongWord(8589934593)",
    ),
    Step::Write(
        "words.tests.words",
        Content::ThreeWords(Change::Word(20, 0)),
    ),
    Step::Refuses(WORDS, "", "A8 WrongHead"),
    Step::Write("words.tests.words", Content::LongerWords),
    Step::Refuses(WHOLE_WORDS, "", "A6 WrongTotal"),
    Step::Write("words.tests.words", Content::ThreeWords(Change::Cut(59))),
    Step::Refuses(WORDS, "", "B1 Truncated"),
    Step::Write("words.tests.words", Content::ThreeWords(Change::Push(0))),
    Step::Refuses(WORDS, "", "B2 TrailingBytes"),
    // Version 3.
    Step::Write("words.tests.words", Content::ThreeWords(Change::Byte(8, 3))),
    Step::Refuses(WORDS, "", "B3 BadMagic"),
    Step::Refuses(LARGE_WORDS, "", "A8 WrongHead"),
    // 1,048,580 words, and 4,097 roots.
    Step::Write(
        "words.tests.words",
        Content::ThreeWords(Change::Byte(14, 16)),
    ),
    Step::Refuses(WORDS, "", "B4 BadField"),
    Step::Write(
        "words.tests.words",
        Content::ThreeWords(Change::Byte(17, 16)),
    ),
    Step::Refuses(WORDS, "", "B4 BadField"),
    // Edition three.
    Step::Write("words.tests.img", Content::LargeImage),
    Step::Write("words.tests.words", Content::LargeWords),
    Step::Prints(LARGE_WORDS, "ok 6\n"),
    Step::Refuses(WORDS, "", "H10 BadMagic"),
    Step::Remove("words.tests.img"),
    Step::Remove("words.tests.words"),
    Step::RemoveFolder("words.tests"),
];

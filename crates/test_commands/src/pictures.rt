//! Pictures of heaps on files in memory: how a picture begins and ends, what it says of a dump, and the printed line,
//! also with writers that fail.
use crate::memory_files::{File, Place};
use command_io::{CommandRefusal, Input, Output};
use command_line::{MapRun, Task};
use commands::perform;
use comp_dump::DumpFault;
use heap_layout::{Counted, LayoutFault};
use std::process::Abort;
use std::sync::Wait;
use std::thread::Threads;
use test_support::{Failure, Narrow};

// A picture that is asked for, and what comes of it.
#[derive(Clone, Copy)]
struct AskedPicture {
    name: &'static str,
    image: &'static str,
    dump: Option<&'static str>,
    // The path of the picture. Only `out` exists.
    path: &'static str,
    // How many bytes less than the picture has its writer takes, and how it fails then.
    short: Option<usize>,
    failure: Failure,
    // The number of bytes that can be printed.
    printable: usize,
    answer: Result<(), CommandRefusal>,
    // Whether a picture was begun.
    begun: bool,
}

// What is printed of the three objects.
const LINE: &str = "live 4\n";

// What came of a picture that was asked for.
#[derive(Drop)]
struct Drawn {
    answer: Result<(), CommandRefusal>,
    begun: bool,
    kept: bool,
    picture: Vec<u8>,
    printed: Vec<u8>,
}

// Asks for this picture, of which the writer takes this number of bytes.
fn ask<R: Abort + AllocGlobal + Threads + Wait + Sync>(
    rt: &R,
    files: &[File],
    asked: &AskedPicture,
    room: usize,
) -> Drawn {
    let mut picture = Vec::new(rt.alloc());
    let mut printed = Vec::new(rt.alloc());
    let mut place = Place {
        files,
        writer: Some(Narrow {
            taken: &mut picture,
            room,
            at_once: usize::MAX,
            failure: asked.failure,
        }),
        kept: false,
    };
    let mut out = Narrow {
        taken: &mut printed,
        room: asked.printable,
        at_once: usize::MAX,
        failure: Failure::TakesNone,
    };
    let task = Task::Map(MapRun {
        image: asked.image,
        dump: asked.dump,
        out: asked.path,
        large: false,
    });
    let mut counted = Counted::new(&mut out);
    let answer = perform(rt.alloc(), rt, &mut place, task, &mut counted);
    let begun = place.writer.is_none();
    let kept = place.kept;
    Drawn {
        answer,
        begun,
        kept,
        picture,
        printed,
    }
}

// What is printed if a picture is answered so.
fn printed_of(asked: &AskedPicture) -> &'static str {
    match asked.answer {
        Ok(()) => LINE,
        Err(CommandRefusal::CannotPrint) => LINE.get(..asked.printable).unwrap_or(""),
        Err(_) => "",
    }
}

// Checks a picture: `whole` is the one that is written if nothing fails.
fn expect_picture<R: Abort + AllocGlobal + Threads + Wait + Sync>(
    rt: &R,
    files: &[File],
    asked: &AskedPicture,
    whole: &[u8],
) {
    let room = match asked.short {
        Some(short) => whole.len().saturating_sub(short),
        None => usize::MAX,
    };
    let drawn = ask(rt, files, asked, room);
    let name = asked.name;
    assert!(rt; drawn.answer == asked.answer, "{name}: answer");
    assert!(rt;
        drawn.printed.as_slice() == printed_of(asked).as_bytes(),
        "{name}: printed"
    );
    assert!(rt; drawn.begun == asked.begun, "{name}: begun");
    let printing = asked.answer.is_ok() || asked.answer == Err(CommandRefusal::CannotPrint);
    assert!(rt; drawn.kept == (asked.begun && printing), "{name}: kept");
    let left = if asked.begun {
        whole.len().min(room)
    } else {
        0
    };
    assert!(rt;
        drawn.picture.len() == left && whole.starts_with(drawn.picture.as_slice()),
        "{name}: written"
    );
}

// A picture that is not refused. It is an SVG to its end, and has this text in it.
fn picture_with<R: Abort + AllocGlobal + Threads + Wait + Sync>(
    rt: &R,
    files: &[File],
    asked: &AskedPicture,
    text: &str,
) -> Vec<u8> {
    let drawn = ask(rt, files, asked, usize::MAX);
    let name = asked.name;
    assert!(rt; drawn.answer.is_ok(), "{name}: answer");
    match std::str::from_utf8(drawn.picture.as_slice()) {
        Ok(svg) => {
            assert!(rt;
                svg.starts_with("<svg") || svg.starts_with("<?xml"),
                "{name}: begins"
            );
            assert!(rt; svg.trim_end().ends_with("</svg>"), "{name}: ends");
            assert!(rt; svg.contains(text), "{name}: does not have {text}");
        }
        Err(_) => assert!(rt; false, "{name}: no text"),
    }
    drawn.picture
}

/// Checks pictures of the three objects: without a dump, with the dump after the run that makes a new object, and with
/// that dump in which a data word is wrong. A fault is drawn, and is no refusal.
pub fn expect_maps<'a, R: Abort + AllocGlobal + Threads + Wait + Sync>(
    rt: &R,
    three: &'a [u8],
    fresh: &'a [u8],
    wrong: &'a [u8],
) {
    let files = [
        File {
            path: "three.img",
            bytes: three,
        },
        File {
            path: "cut.img",
            bytes: b"COMPHEAP",
        },
        File {
            path: "fresh.dump",
            bytes: fresh,
        },
        File {
            path: "wrong.dump",
            bytes: wrong,
        },
        File {
            path: "cut.dump",
            bytes: b"COMPDUMP",
        },
    ];
    let whole = picture_with(rt, &files, &PLAIN, "<title");
    let dumped = picture_with(rt, &files, &DUMPED, "<title");
    let faulty = picture_with(rt, &files, &FAULTY, "page 0 offset 1 has 12, not 11");
    assert!(rt; whole != dumped && dumped != faulty, "other pictures");
    for asked in &PICTURES {
        expect_picture(rt, &files, asked, &whole);
    }
    expect_picture(rt, &files, &DUMPED, &dumped);
    expect_picture(rt, &files, &FAULTY, &faulty);
    for printable in 0..LINE.len() {
        let cut = AskedPicture {
            printable,
            answer: Err(CommandRefusal::CannotPrint),
            ..PLAIN
        };
        expect_picture(rt, &files, &cut, &whole);
    }
}

const PLAIN: AskedPicture = AskedPicture {
    name: "room for all",
    image: "three.img",
    dump: None,
    path: "out",
    short: None,
    failure: Failure::Error,
    printable: 7,
    answer: Ok(()),
    begun: true,
};

const DUMPED: AskedPicture = AskedPicture {
    name: "with a dump",
    dump: Some("fresh.dump"),
    ..PLAIN
};

const FAULTY: AskedPicture = AskedPicture {
    name: "with a dump that has a fault",
    dump: Some("wrong.dump"),
    ..PLAIN
};

// The picture cannot be flushed.
const UNFLUSHED: AskedPicture = AskedPicture {
    name: "no flush",
    failure: Failure::Flush,
    answer: Err(CommandRefusal::CannotWrite(Output::Map)),
    ..PLAIN
};

// There is no image to be read, no dump, and no place for the picture.
const ABSENT: AskedPicture = AskedPicture {
    name: "no image",
    image: "absent.img",
    dump: Some("absent.dump"),
    path: "absent",
    answer: Err(CommandRefusal::CannotOpen(Input::Image)),
    begun: false,
    ..PLAIN
};

static PICTURES: [AskedPicture; 9] = [
    PLAIN,
    UNFLUSHED,
    AskedPicture {
        name: "room for 0 bytes",
        short: Some(usize::MAX),
        failure: Failure::Error,
        ..UNFLUSHED
    },
    AskedPicture {
        name: "no room for the last byte",
        short: Some(1),
        failure: Failure::TakesNone,
        ..UNFLUSHED
    },
    ABSENT,
    AskedPicture {
        name: "an image that is cut",
        image: "cut.img",
        answer: Err(CommandRefusal::Layout(LayoutFault::Truncated)),
        ..ABSENT
    },
    AskedPicture {
        name: "no dump",
        image: "three.img",
        answer: Err(CommandRefusal::CannotOpen(Input::Dump)),
        ..ABSENT
    },
    AskedPicture {
        name: "a dump that is cut",
        image: "three.img",
        dump: Some("cut.dump"),
        answer: Err(CommandRefusal::Dump(DumpFault::Truncated)),
        ..ABSENT
    },
    AskedPicture {
        name: "no place for the picture",
        image: "three.img",
        dump: Some("wrong.dump"),
        answer: Err(CommandRefusal::CannotCreate(Output::Map)),
        ..ABSENT
    },
];

//! Markings on files in memory: the new image and the printed line, also with writers that fail.
use crate::memory_files::{Memory, Place};
use command_io::{CommandRefusal, Input, Output};
use command_line::Task;
use commands::perform;
use heap_layout::{Counted, LayoutFault};
use std::process::Abort;
use std::sync::Wait;
use std::thread::Threads;
use test_support::{Content, Failure, Narrow, bytes_in};

// A marking on files in memory and its expected result.
#[derive(Clone, Copy)]
struct Marking {
    name: &'static str,
    image: &'static str,
    // The path of the new image. Only `out` exists.
    path: &'static str,
    // The number of bytes that the writer of the image takes, and how it fails then.
    room: usize,
    failure: Failure,
    // The number of bytes that can be printed.
    printable: usize,
    answer: Result<(), CommandRefusal>,
    // Whether an image was created, and the number of its bytes left.
    created: bool,
    left: usize,
}

// What is printed of the three objects.
const LINE: &str = "live 4\n";

// Marks the heap of an image as a marking says.
fn mark(
    rt: &(impl AllocGlobal + Threads + Wait + Sync),
    marking: &Marking,
    place: &mut Place,
    out: &mut Narrow,
) -> Result<(), CommandRefusal> {
    let task = Task::Mark {
        image: marking.image,
        new: marking.path,
        workers: 2,
        large: false,
    };
    perform(rt.alloc(), rt, place, task, &mut Counted::new(out))
}

// What is printed if a marking is answered so.
fn printed_of(marking: &Marking) -> &'static str {
    match marking.answer {
        Ok(()) => LINE,
        Err(CommandRefusal::CannotPrint) => LINE.get(..marking.printable).unwrap_or(""),
        Err(_) => "",
    }
}

// Checks a marking.
fn expect_marking(
    rt: &(impl Abort + AllocGlobal + Threads + Wait + Sync),
    memory: &Memory,
    marking: &Marking,
) {
    let whole = bytes_in(rt.alloc(), Content::ThreeImage).expect(rt, "memory for an image");
    let mut written = Vec::new(rt.alloc());
    let mut printed = Vec::new(rt.alloc());
    let mut place = Place {
        files: memory.files,
        writer: Some(Narrow {
            taken: &mut written,
            room: marking.room,
            at_once: usize::MAX,
            failure: marking.failure,
        }),
        kept: false,
    };
    let mut out = Narrow {
        taken: &mut printed,
        room: marking.printable,
        at_once: usize::MAX,
        failure: Failure::TakesNone,
    };
    let answer = mark(rt, marking, &mut place, &mut out);
    let created = place.writer.is_none();
    assert!(rt; answer == marking.answer, "{}: answer", marking.name);
    assert!(rt;
        printed.as_slice() == printed_of(marking).as_bytes(),
        "{}: printed",
        marking.name
    );
    assert!(rt; created == marking.created, "{}: created", marking.name);
    let printing = marking.answer.is_ok() || marking.answer == Err(CommandRefusal::CannotPrint);
    assert!(rt;
        place.kept == (created && printing),
        "{}: kept",
        marking.name
    );
    assert!(rt;
        written.len() == marking.left && whole.starts_with(written.as_slice()),
        "{}: written",
        marking.name
    );
}

/// Checks markings of the three objects on files in memory, also with an output that takes fewer bytes than the line
/// has.
pub fn expect_marked(rt: &(impl Abort + AllocGlobal + Threads + Wait + Sync), memory: &Memory) {
    for marking in &MARKINGS {
        expect_marking(rt, memory, marking);
    }
    for printable in 0..LINE.len() {
        let cut = Marking {
            printable,
            answer: Err(CommandRefusal::CannotPrint),
            ..WRITTEN
        };
        expect_marking(rt, memory, &cut);
    }
}

const WRITTEN: Marking = Marking {
    name: "room for all",
    image: "three.img",
    path: "out",
    room: 96,
    failure: Failure::Error,
    printable: 7,
    answer: Ok(()),
    created: true,
    left: 96,
};

// The image cannot be flushed.
const UNFLUSHED: Marking = Marking {
    name: "no flush",
    failure: Failure::Flush,
    answer: Err(CommandRefusal::Layout(LayoutFault::Device)),
    ..WRITTEN
};

// There is no image to be read, and no place for the new one.
const ABSENT: Marking = Marking {
    name: "no image",
    image: "absent.img",
    path: "absent",
    answer: Err(CommandRefusal::CannotOpen(Input::Image)),
    created: false,
    left: 0,
    ..WRITTEN
};

static MARKINGS: [Marking; 8] = [
    WRITTEN,
    UNFLUSHED,
    Marking {
        name: "room for 0 bytes",
        room: 0,
        failure: Failure::Error,
        left: 0,
        ..UNFLUSHED
    },
    Marking {
        name: "room for 95 bytes",
        room: 95,
        failure: Failure::TakesNone,
        left: 95,
        ..UNFLUSHED
    },
    ABSENT,
    Marking {
        name: "an image that is cut",
        image: "cut.img",
        answer: Err(CommandRefusal::Layout(LayoutFault::Truncated)),
        ..ABSENT
    },
    Marking {
        name: "a weak word for the inside of an object",
        image: "bad_weak.img",
        answer: Err(CommandRefusal::Layout(LayoutFault::BadWeak(1))),
        ..ABSENT
    },
    Marking {
        name: "no place for the new image",
        image: "three.img",
        answer: Err(CommandRefusal::CannotCreate(Output::New)),
        ..ABSENT
    },
];

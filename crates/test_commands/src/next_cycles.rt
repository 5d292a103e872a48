//! Cycles on files in memory: the image of the next heap and the printed lines, also with writers that fail.
use crate::memory_files::{Memory, Place};
use command_io::{CommandRefusal, Input, Output};
use command_line::{NextMarks, NextRun, Task};
use commands::perform;
use comp_access::Refusal;
use comp_trace::TraceFault;
use heap_layout::{Counted, FROM_SPACE as F, LayoutFault};
use std::process::Abort;
use std::sync::Wait;
use std::thread::Threads;
use test_support::{Failure, Narrow, Part, bytes_of};

// A cycle on files in memory and its expected result.
#[derive(Clone, Copy)]
struct NextCycle {
    name: &'static str,
    trace: &'static str,
    marks: &'static str,
    // The path of the new image. Only `out` exists.
    path: &'static str,
    // The number of bytes that the writer of the image takes, and how it fails then.
    room: usize,
    failure: Failure,
    // The number of bytes that can be printed.
    printable: usize,
    answer: Result<(), CommandRefusal>,
    printed: &'static str,
    // Whether an image was created, and the number of its bytes left.
    created: bool,
    left: usize,
}

const ZEROS: [u64; 188] = [0; 188];

// The image of the next heap of the three objects after the run that makes a new one.
const NEW_IMAGE: [Part; 6] = [
    Part::Bytes(b"COMPHEAP"),
    Part::Numbers(&[1, 192, 2, 1]),
    Part::Words(&[4_295_032_832, 11, 12_884_901_889, F + 64]),
    Part::Words(&ZEROS),
    Part::Numbers(&[2, 64]),
    Part::Words(&[F + 2]),
];

// Writes the new image as a cycle says.
fn write_next(
    rt: &(impl AllocGlobal + Threads + Wait + Sync),
    cycle: &NextCycle,
    place: &mut Place,
    out: &mut Narrow,
) -> Result<(), CommandRefusal> {
    let task = Task::Next(NextRun {
        image: "three.img",
        trace: cycle.trace,
        marks: NextMarks::Given(cycle.marks),
        new: cycle.path,
        mutators: 1,
        fresh: 2,
        workers: 1,
        large: false,
    });
    perform(rt.alloc(), rt, place, task, &mut Counted::new(out))
}

// Checks a cycle.
fn expect_cycle(
    rt: &(impl Abort + AllocGlobal + Threads + Wait + Sync),
    memory: &Memory,
    cycle: &NextCycle,
) {
    let whole = bytes_of(rt.alloc(), &NEW_IMAGE).expect(rt, "memory for an image");
    let mut written = Vec::new(rt.alloc());
    let mut printed = Vec::new(rt.alloc());
    let mut place = Place {
        files: memory.files,
        writer: Some(Narrow {
            taken: &mut written,
            room: cycle.room,
            at_once: usize::MAX,
            failure: cycle.failure,
        }),
        kept: false,
    };
    let mut out = Narrow {
        taken: &mut printed,
        room: cycle.printable,
        at_once: usize::MAX,
        failure: Failure::TakesNone,
    };
    let answer = write_next(rt, cycle, &mut place, &mut out);
    let created = place.writer.is_none();
    assert!(rt; answer == cycle.answer, "{}: answer", cycle.name);
    assert!(rt;
        printed.as_slice() == cycle.printed.as_bytes(),
        "{}: printed",
        cycle.name
    );
    assert!(rt; created == cycle.created, "{}: created", cycle.name);
    let printing = cycle.answer.is_ok() || cycle.answer == Err(CommandRefusal::CannotPrint);
    assert!(rt; place.kept == (created && printing), "{}: kept", cycle.name);
    assert!(rt;
        written.len() == cycle.left && whole.starts_with(written.as_slice()),
        "{}: written",
        cycle.name
    );
}

// Checks a cycle whose text finds room for each smaller number of bytes.
fn expect_cut(
    rt: &(impl Abort + AllocGlobal + Threads + Wait + Sync),
    memory: &Memory,
    cycle: &NextCycle,
) {
    for printable in 0..cycle.printed.len() {
        let cut = NextCycle {
            printable,
            answer: Err(CommandRefusal::CannotPrint),
            printed: cycle.printed.get(..printable).unwrap_or(""),
            ..*cycle
        };
        expect_cycle(rt, memory, &cut);
    }
}

/// Checks cycles of the three objects on files in memory.
pub fn expect_cycles(rt: &(impl Abort + AllocGlobal + Threads + Wait + Sync), memory: &Memory) {
    for cycle in &REFUSED {
        expect_cycle(rt, memory, cycle);
    }
    for cycle in &PRINTED {
        expect_cycle(rt, memory, cycle);
        expect_cut(rt, memory, cycle);
    }
}

const WRITTEN: NextCycle = NextCycle {
    name: "room for all",
    trace: "fresh.trace",
    marks: "fresh.marks",
    path: "out",
    room: 1_576,
    failure: Failure::Error,
    printable: 7,
    answer: Ok(()),
    printed: "live 3\n",
    created: true,
    left: 1_576,
};

// The image cannot be flushed.
const UNFLUSHED: NextCycle = NextCycle {
    name: "no flush",
    failure: Failure::Flush,
    answer: Err(CommandRefusal::Layout(LayoutFault::Device)),
    printed: "",
    ..WRITTEN
};

// The file of marks does not exist.
const UNMARKED: NextCycle = NextCycle {
    name: "marks that are absent",
    marks: "absent.marks",
    answer: Err(CommandRefusal::CannotOpen(Input::Marks)),
    printed: "",
    created: false,
    left: 0,
    ..WRITTEN
};

// What is printed: after the image is written, also with a value; and a value alone, since line 4 is refused and no
// image is created.
static PRINTED: [NextCycle; 3] = [
    WRITTEN,
    NextCycle {
        name: "a value",
        trace: "shown.trace",
        printable: 12,
        printed: "3 11\nlive 3\n",
        ..WRITTEN
    },
    NextCycle {
        name: "a value, and a refused line",
        trace: "halted.trace",
        answer: Err(CommandRefusal::Trace(TraceFault::Refused(4, Refusal::NoSuchField))),
        printed: "3 11\n",
        created: false,
        left: 0,
        ..WRITTEN
    },
];

static REFUSED: [NextCycle; 7] = [
    UNFLUSHED,
    NextCycle {
        name: "room for 0 bytes",
        room: 0,
        failure: Failure::Error,
        left: 0,
        ..UNFLUSHED
    },
    NextCycle {
        name: "room for 28 bytes",
        room: 28,
        failure: Failure::TakesNone,
        left: 28,
        ..UNFLUSHED
    },
    NextCycle {
        name: "room for 1575 bytes",
        room: 1_575,
        failure: Failure::Error,
        left: 1_575,
        ..UNFLUSHED
    },
    UNMARKED,
    // The marks are those of a trace, and there is no place for the image.
    NextCycle {
        name: "a trace as marks",
        marks: "fresh.trace",
        path: "absent",
        answer: Err(CommandRefusal::BadMarks(1)),
        ..UNMARKED
    },
    NextCycle {
        name: "no place for the image",
        marks: "fresh.marks",
        path: "absent",
        answer: Err(CommandRefusal::CannotCreate(Output::New)),
        ..UNMARKED
    },
];

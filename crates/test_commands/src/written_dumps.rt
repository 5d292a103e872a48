//! Compactions and replays on files in memory: the dump and the printed line, and the refusals.
ghost use Rattle.command_line.specs.AskedTasks.{HasLawfulCounts};

use crate::memory_files::{File, Memory, Place};
use crate::printed_answers::{Asked, is_answered};
use crate::whole_dumps::{Dump, agree_but_for_builds, dump_of};
use command_io::{CommandRefusal, Input};
use command_line::{Task, TraceRun};
use commands::perform;
use comp_dump::DumpFault;
use heap_layout::{Counted, LayoutFault};
use std::process::Abort;
use std::sync::Wait;
use std::thread::Threads;
use test_support::{Failure, Narrow};

// The command that writes a dump.
#[derive(Clone, Copy)]
enum Writing {
    // A compaction by this many workers.
    Compact(u8),
    // A replay of the trace at this path, by one mutator and with this many fresh pages.
    Replay(&'static str, u32),
}

/// A command in memory that writes a dump, and its expected result.
#[derive(Clone, Copy)]
pub struct DumpingCommand {
    name: &'static str,
    writing: Writing,
    /// The path of the image, and that of the dump. Only `out` can be created.
    image: &'static str,
    path: &'static str,
    /// The number of bytes that the writer of the dump takes, and how it fails then.
    room: usize,
    failure: Failure,
    /// The number of bytes that can be printed.
    printable: usize,
    answer: Result<(), CommandRefusal>,
    printed: &'static str,
    /// The whole dump, if one is created.
    dump: Dump,
    /// The number of its bytes left. A dump is cut only if the command is refused.
    left: usize,
}

// The task of a command. Aborts unless its numbers of workers and of fresh pages are lawful.
fn task_of(rt: &impl Abort, command: &DumpingCommand) -> Task<'static>
    ensures { HasLawfulCounts result }
{
    match command.writing {
        Writing::Compact(workers) => {
            assert!(rt; 1 <= workers && workers <= 64);
            Task::Compact {
                image: command.image,
                dump: command.path,
                workers,
                large: false,
            }
        }
        Writing::Replay(trace, fresh) => {
            assert!(rt; fresh <= 4_096);
            Task::Replay(TraceRun {
                image: command.image,
                trace,
                dump: command.path,
                mutators: 1,
                fresh,
                large: false,
            })
        }
    }
}

// Writes a dump as this command says.
fn write_dump<R: Abort + AllocGlobal + Threads + Wait + Sync>(
    rt: &R,
    command: &DumpingCommand,
    place: &mut Place,
    out: &mut Narrow,
) -> Result<(), CommandRefusal> {
    let task = task_of(rt, command);
    perform(rt.alloc(), rt, place, task, &mut Counted::new(out))
}

// Whether this is the dump of the command, as far as it goes. If several workers sweep, the lists of builds may be any.
fn is_dump(command: &DumpingCommand, dumped: &[u8], whole: &[u8]) -> bool {
    match command.writing {
        Writing::Compact(workers) if workers > 1 && !whole.is_empty() => {
            agree_but_for_builds(dumped, whole)
        }
        _ => whole.starts_with(dumped),
    }
}

// If several workers swept, checks that the audit accepts the dump.
fn is_judged(
    rt: &(impl AllocGlobal + Threads + Wait + Sync),
    command: &DumpingCommand,
    image: &[u8],
    dumped: &[u8],
) -> bool {
    let files = [
        File {
            path: "heap.img",
            bytes: image,
        },
        File {
            path: "left.dump",
            bytes: dumped,
        },
    ];
    let asked = Asked::Audit("heap.img", "left.dump");
    match command.writing {
        Writing::Compact(workers) if workers > 1 && command.left > 0 => {
            is_answered(rt, &Memory { files: &files }, asked, Ok(()), "ok 1280\n")
        }
        _ => true,
    }
}

// Whether the answer, the output, the creation of the dump and the number of its bytes are as the command says.
fn is_so(
    command: &DumpingCommand,
    found: (Result<(), CommandRefusal>, &[u8]),
    created: bool,
    dumped: &[u8],
    whole: &[u8],
) -> bool {
    let (answer, printed) = found;
    let cut_off = answer == Err(CommandRefusal::Dump(DumpFault::Device));
    answer == command.answer
        && printed == command.printed.as_bytes()
        && created == !whole.is_empty()
        && dumped.len() == command.left
        && is_dump(command, dumped, whole)
        && (cut_off || dumped.len() == whole.len())
}

// Checks a command.
fn expect_command<R: Abort + AllocGlobal + Threads + Wait + Sync>(
    rt: &R,
    memory: &Memory,
    command: &DumpingCommand,
) {
    let whole = dump_of(rt, command.dump);
    let mut dumped = Vec::new(rt.alloc());
    let mut printed = Vec::new(rt.alloc());
    let mut place = Place {
        files: memory.files,
        writer: Some(Narrow {
            taken: &mut dumped,
            room: command.room,
            at_once: usize::MAX,
            failure: command.failure,
        }),
        kept: false,
    };
    let mut out = Narrow {
        taken: &mut printed,
        room: command.printable,
        at_once: usize::MAX,
        failure: Failure::TakesNone,
    };
    let answer = write_dump(rt, command, &mut place, &mut out);
    let created = place.writer.is_none();
    let printing = command.answer.is_ok() || command.answer == Err(CommandRefusal::CannotPrint);
    assert!(rt;
        place.kept == (created && printing),
        "{}: kept",
        command.name
    );
    assert!(rt;
        is_so(command, (answer, &printed), created, &dumped, &whole),
        "{}",
        command.name
    );
    assert!(rt;
        is_judged(
            rt,
            command,
            memory.bytes_at(command.image).unwrap_or(b""),
            &dumped
        ),
        "{}: judged",
        command.name
    );
}

/// Checks compactions and replays on files in memory.
pub fn expect_dumps<R: Abort + AllocGlobal + Threads + Wait + Sync>(rt: &R, memory: &Memory) {
    for command in &COMMANDS {
        expect_command(rt, memory, command);
    }
}

// One worker compacts the twenty pages.
const ALONE: DumpingCommand = DumpingCommand {
    name: "one worker",
    writing: Writing::Compact(1),
    image: "twenty.img",
    path: "out",
    room: 10_460,
    failure: Failure::Error,
    printable: 10,
    answer: Ok(()),
    printed: "live 1280\n",
    dump: Dump::ByOne,
    left: 10_460,
};

// The dump cannot be flushed.
const UNFLUSHED: DumpingCommand = DumpingCommand {
    name: "no flush",
    failure: Failure::Flush,
    answer: Err(CommandRefusal::Dump(DumpFault::Device)),
    printed: "",
    ..ALONE
};

// An image that is cut, with two workers.
const CUT_IMAGE: DumpingCommand = DumpingCommand {
    name: "an image that is cut off",
    writing: Writing::Compact(2),
    image: "cut.img",
    path: "out",
    room: 4_096,
    failure: Failure::Error,
    printable: 10,
    answer: Err(CommandRefusal::Layout(LayoutFault::Truncated)),
    printed: "",
    dump: Dump::None,
    left: 0,
};

// A replay whose dump is cut.
const UNWRITTEN: DumpingCommand = DumpingCommand {
    name: "a replay, and no room",
    writing: Writing::Replay("fresh.trace", 2),
    image: "three.img",
    path: "out",
    room: 0,
    failure: Failure::Error,
    printable: 10,
    answer: Err(CommandRefusal::Dump(DumpFault::Device)),
    printed: "",
    dump: Dump::Fresh,
    left: 0,
};

// A weak word is written. It refers to a new object.
const WEAK: DumpingCommand = DumpingCommand {
    name: "weak words",
    writing: Writing::Replay("weak.trace", 1),
    image: "weak.img",
    path: "out",
    room: 1_128,
    failure: Failure::Error,
    printable: 11,
    answer: Ok(()),
    printed: "6 9\nlive 8\n",
    dump: Dump::Weak,
    left: 1_128,
};

static COMMANDS: [DumpingCommand; 21] = [
    // By several workers, with just enough room for the dump.
    ALONE,
    DumpingCommand {
        name: "two workers",
        writing: Writing::Compact(2),
        room: 10_464,
        dump: Dump::ByTwo,
        left: 10_464,
        ..ALONE
    },
    DumpingCommand {
        name: "four workers",
        writing: Writing::Compact(4),
        room: 10_472,
        dump: Dump::ByFour,
        left: 10_472,
        ..ALONE
    },
    DumpingCommand {
        name: "sixty-four workers",
        writing: Writing::Compact(64),
        room: 10_712,
        dump: Dump::BySixtyFour,
        left: 10_712,
        ..ALONE
    },
    // The dump is cut after this many bytes.
    DumpingCommand {
        name: "room for 0 bytes",
        room: 0,
        failure: Failure::Error,
        left: 0,
        ..UNFLUSHED
    },
    DumpingCommand {
        name: "room for 7 bytes",
        room: 7,
        failure: Failure::Error,
        left: 7,
        ..UNFLUSHED
    },
    DumpingCommand {
        name: "room for 28 bytes",
        room: 28,
        failure: Failure::TakesNone,
        left: 28,
        ..UNFLUSHED
    },
    DumpingCommand {
        name: "room for 5000 bytes",
        room: 5_000,
        failure: Failure::TakesNone,
        left: 5_000,
        ..UNFLUSHED
    },
    DumpingCommand {
        name: "room for 10459 bytes",
        room: 10_459,
        failure: Failure::Error,
        left: 10_459,
        ..UNFLUSHED
    },
    UNFLUSHED,
    // No dump is created if the image is refused.
    CUT_IMAGE,
    DumpingCommand {
        name: "an image that is absent",
        image: "absent.img",
        path: "out",
        answer: Err(CommandRefusal::CannotOpen(Input::Image)),
        ..CUT_IMAGE
    },
    DumpingCommand {
        name: "an image that is absent, and no place for the dump",
        image: "absent.img",
        path: "absent",
        answer: Err(CommandRefusal::CannotOpen(Input::Image)),
        ..CUT_IMAGE
    },
    // Three bytes of the line can be printed.
    DumpingCommand {
        name: "room for 3 bytes of the line",
        printable: 3,
        answer: Err(CommandRefusal::CannotPrint),
        printed: "liv",
        ..ALONE
    },
    // The dump of a replay is cut after this many bytes.
    UNWRITTEN,
    DumpingCommand {
        name: "a replay, and room for 600 bytes",
        room: 600,
        failure: Failure::TakesNone,
        left: 600,
        ..UNWRITTEN
    },
    DumpingCommand {
        name: "a replay, and room for 1128 bytes",
        room: 1_128,
        failure: Failure::Error,
        left: 1_128,
        ..UNWRITTEN
    },
    DumpingCommand {
        name: "a replay, and no flush",
        room: 1_129,
        failure: Failure::Flush,
        left: 1_129,
        ..UNWRITTEN
    },
    // Objects with weak words, compacted and replayed, with just enough room for the dump and the lines, and with less.
    WEAK,
    DumpingCommand {
        name: "weak words, and room for 570 bytes",
        room: 570,
        answer: Err(CommandRefusal::Dump(DumpFault::Device)),
        printed: "",
        left: 570,
        ..WEAK
    },
    DumpingCommand {
        name: "weak words that slide",
        writing: Writing::Compact(1),
        room: 569,
        printable: 7,
        printed: "live 6\n",
        dump: Dump::WeakSwept,
        left: 569,
        ..WEAK
    },
];

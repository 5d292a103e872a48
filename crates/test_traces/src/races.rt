//! Races: what lines show and refuse with one thread a mutator.
use crate::expected::{expect_eq, expect_so};
use crate::finished_runs::raced;
use crate::replays::WEAK_TEXT;
use crate::text_runs::TextRun;
use comp_mutator::{Builder, Finished, Refusal};
use comp_trace::{RefusedLine, Run};
use heap_layout::Header;
use page_plan::Plan;
use std::alloc::Global;
use std::marker::Brand;
use std::process::Abort;
use std::sync::Wait;
use std::sync::ledger::Blank;
use std::thread::Threads;
use test_support::{At, F, Meeting, Worked, heap, plan_of};

/// The expected run of a mutator.
pub enum Wanted {
    /// It runs to its end and shows nothing.
    Nothing,
    /// It runs to its end, and this line shows one of these two values.
    Shows(u64, u64, u64),
    /// This line is refused for this cause, and nothing is shown.
    Refused(u64, Refusal),
}

/// A text that all its mutators race, the expected runs, and the live words at the end.
pub struct RacedText {
    pub case: TextRun<'static>,
    pub runs: &'static [Wanted],
    pub live_words: u64,
}

// On the three objects.
static ON_THREE: [RacedText; 5] = [
    RacedText {
        case: TextRun {
            name: "shows what is read beside a write",
            mutators: 2,
            fresh_pages: 0,
            text: b"0 root 0 0\n0 load 1 0 0\n0 put 1 0 7\n1 root 0 0\n1 load 1 0 0\n1 get 1 0\n",
        },
        runs: &[Wanted::Nothing, Wanted::Shows(6, 7, 11)],
        live_words: 4,
    },
    RacedText {
        case: TextRun {
            name: "shows what the same mutator wrote",
            mutators: 2,
            fresh_pages: 0,
            text: b"0 root 0 0\n0 load 1 0 0\n1 nil 3\n0 put 1 0 7\n0 get 1 0\n",
        },
        runs: &[Wanted::Shows(5, 7, 7), Wanted::Nothing],
        live_words: 4,
    },
    RacedText {
        case: TextRun {
            name: "ends at a refused line",
            mutators: 2,
            fresh_pages: 0,
            text: b"0 nil 0\n0 get 0 0\n0 root 0 0\n0 load 1 0 0\n0 get 1 0\n",
        },
        runs: &[Wanted::Refused(2, Refusal::Null), Wanted::Nothing],
        live_words: 4,
    },
    RacedText {
        case: TextRun {
            name: "refuses an object that is too large",
            mutators: 2,
            fresh_pages: 0,
            text: b"0 new 0 65535 65535 4294967295\n",
        },
        runs: &[Wanted::Refused(1, Refusal::ObjectTooLarge), Wanted::Nothing],
        live_words: 4,
    },
    RacedText {
        case: TextRun {
            name: "makes an object alone, and stores it",
            mutators: 1,
            fresh_pages: 2,
            text: b"0 root 0 0\n0 new 1 0 0 0\n0 store 0 0 1\n0 load 2 0 0\n0 store 0 0 2\n",
        },
        runs: &[Wanted::Nothing],
        live_words: 5,
    },
];

// On the three objects of edition two.
static ON_WEAK: [RacedText; 3] = [
    RacedText {
        case: TextRun {
            name: "writes a weak word that leads to a new object, and reads it",
            mutators: 1,
            fresh_pages: 1,
            text: WEAK_TEXT,
        },
        runs: &[Wanted::Shows(6, 9, 9)],
        live_words: 8,
    },
    RacedText {
        case: TextRun {
            name: "reads a weak word beside a write",
            mutators: 2,
            fresh_pages: 0,
            text: b"0 root 0 0\n0 load 1 0 0\n0 wstore 1 1 1\n1 root 0 0\n1 load 1 0 0\n1 wload 2 1 1\n1 get 1 0\n",
        },
        runs: &[Wanted::Nothing, Wanted::Shows(7, 9, 9)],
        live_words: 6,
    },
    RacedText {
        case: TextRun {
            name: "refuses a tag of 17 bits",
            mutators: 2,
            fresh_pages: 1,
            text: b"0 new 0 0 0 65536\n1 root 0 0\n1 wload 1 0 0\n",
        },
        runs: &[
            Wanted::Refused(1, Refusal::NotInEdition),
            Wanted::Refused(3, Refusal::NoSuchField),
        ],
        live_words: 6,
    },
];

// On the three objects of edition two in edition three, with 70,000 roots, of which number 65,536 and the last refer to
// the last object and all others are null.
static ON_MANY_ROOTS: [RacedText; 1] = [RacedText {
    case: TextRun {
        name: "reads roots far from the first beside one another",
        mutators: 2,
        fresh_pages: 0,
        text: b"0 root 0 65536\n0 load 1 0 0\n0 get 1 0\n1 root 0 69999\n1 load 1 0 0\n1 get 1 0\n1 root 0 65535\n",
    },
    runs: &[Wanted::Shows(3, 9, 9), Wanted::Shows(6, 9, 9)],
    live_words: 6,
}];

// On an object of four pages. Two of them are only built at the same time.
static SIDE_BY_SIDE: RacedText = RacedText {
    case: TextRun {
        name: "runs lines side by side",
        mutators: 2,
        fresh_pages: 0,
        text: b"0 root 0 0\n0 get 0 0\n1 root 0 0\n1 get 0 63\n",
    },
    runs: &[Wanted::Shows(2, 0, 0), Wanted::Shows(4, 0, 0)],
    live_words: 256,
};

// Whether the run showed one of these values by this line, and nothing else.
fn is_shown(run: &Run, line: u64, one: u64, other: u64) -> bool {
    match run.shown.first() {
        Some(shown) => {
            run.shown.len() == 1
                && shown.line == line
                && (shown.value == one || shown.value == other)
        }
        None => false,
    }
}

// Whether the run is as expected.
fn is_run(run: &Run, wanted: &Wanted) -> bool {
    match *wanted {
        Wanted::Nothing => run.shown.is_empty() && run.fault.is_none(),
        Wanted::Shows(line, one, other) => {
            is_shown(run, line, one, other) && run.fault.is_none()
        }
        Wanted::Refused(line, refusal) => {
            run.shown.is_empty() && run.fault == Some(RefusedLine { line, refusal })
        }
    }
}

// Checks that all runs and the live words are as expected.
fn expect_runs(rt: &impl Abort, row: &RacedText, runs: &[Run], finished: &Finished) {
    let at = At::new(row.case.name, 0);
    expect_eq(rt, at, runs.len(), row.runs.len());
    expect_eq(rt, at, finished.live_words(), row.live_words);
    for (k, (run, wanted)) in runs.iter().zip(row.runs).enumerate() {
        expect_so(rt, at.after(k), is_run(run, wanted));
    }
}

// Races the text on the heap of this builder, which this plan compacted, and finishes.
fn race_one<B: Builder, R: Abort + Threads + Wait + Sync>(
    rt: &R,
    alloc: Global,
    builder: B,
    plan: &Plan,
    row: &RacedText,
) {
    let blank = Blank::new(u64::from(row.case.mutators));
    let (runs, finished) = raced::<Brand, B, R>(rt, alloc, blank, row.case, builder, plan);
    expect_runs(rt, row, &runs, &finished);
}

// The plan of one object of 255 data words, which are 0.
fn zeros(rt: &(impl Abort + Threads + Sync), alloc: Global) -> Plan {
    let mut words = [0u64; 256];
    words[0] = Header::new(0, 255, 0).word();
    let heap = heap(alloc, &words, &[0], &[F]).expect(rt, "a heap");
    Plan::new(alloc, rt, heap).expect(rt, "a plan")
}

/// Races each of these texts on this heap.
pub fn race_all<R: Abort + Threads + Wait + Sync>(
    rt: &R,
    alloc: Global,
    heap: Worked,
    texts: &[RacedText],
) {
    let plan = plan_of(rt, alloc, heap).expect(rt, "a plan");
    for text in texts {
        let builder = plan_of(rt, alloc, heap).expect(rt, "a plan");
        race_one(rt, alloc, builder, &plan, text);
    }
}

#[test]
fn races_show_and_leave_what_their_lines_do(rt: HostRuntime) {
    race_all(&rt, rt.alloc(), Worked::Three, &ON_THREE);
}

#[test]
fn races_read_and_write_weak_words(rt: HostRuntime) {
    race_all(&rt, rt.alloc(), Worked::Weak, &ON_WEAK);
}

#[test]
fn races_read_roots_far_from_the_first(rt: HostRuntime) {
    race_all(&rt, rt.alloc(), Worked::ManyRoots(70_000), &ON_MANY_ROOTS);
}

// On the object of four pages.
fn race_side_by_side<R: Abort + Threads + Wait + Sync>(rt: &R, alloc: Global) {
    let plan = zeros(rt, alloc);
    let builder = Meeting::new(zeros(rt, alloc));
    race_one(rt, alloc, builder, &plan, &SIDE_BY_SIDE);
}

#[test]
fn lines_of_two_mutators_run_side_by_side(rt: HostRuntime) {
    race_side_by_side(&rt, rt.alloc());
}

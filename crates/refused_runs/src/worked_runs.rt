//! The runs of mutators.
use crate::answered_calls::{AnsweredCall, Call};
use crate::mutator_runs::MutatorRun;
use comp_journal::Entry;
use comp_mutator::Refusal;
use heap_layout::Kind;
use test_support::{T, Worked};

// The first address on the second page of to-space, and on the third.
const SECOND: u64 = T + 64;

const THIRD: u64 = T + 128;

// Writes a data word.
const WRITTEN: MutatorRun = MutatorRun {
    name: "a write",
    heap: Worked::Three,
    mutators: 1,
    fresh_pages: 0,
    calls: &[
        AnsweredCall(0, Call::Write(Kind::Data, T, 0, 7), 0, 0, Ok(0)),
        AnsweredCall(0, Call::Read(Kind::Data, T, 0), 0, 1, Ok(7)),
    ],
    settles: false,
    sweeps: false,
    live_words: 4,
    builds: &[&[0]],
};

// Objects fill two fresh pages.
const ALLOCATED: MutatorRun = MutatorRun {
    name: "allocations",
    heap: Worked::Smallest,
    mutators: 1,
    fresh_pages: 2,
    calls: &[
        AnsweredCall(0, Call::Alloc(0, 63, 0), 1, 0, Ok(SECOND)),
        AnsweredCall(0, Call::Alloc(0, 0, 5), 2, 0, Ok(THIRD)),
        AnsweredCall(0, Call::Alloc(0, 64, 0), 2, 1, Err(Refusal::ObjectTooLarge)),
        AnsweredCall(0, Call::Alloc(0, 63, 0), 2, 1, Err(Refusal::OutOfPages)),
        AnsweredCall(0, Call::Alloc(0, 62, 0), 2, 1, Ok(THIRD + 1)),
        AnsweredCall(0, Call::Alloc(0, 0, 0), 2, 2, Err(Refusal::OutOfPages)),
    ],
    settles: false,
    sweeps: false,
    live_words: 129,
    builds: &[&[1, 2]],
};

// Touches a page.
const TOUCHED: MutatorRun = MutatorRun {
    name: "a touch",
    heap: Worked::Zeros(255),
    mutators: 1,
    fresh_pages: 0,
    calls: &[
        AnsweredCall(0, Call::Touch(3), 3, 0, Ok(1)),
        AnsweredCall(0, Call::Touch(3), 3, 0, Ok(0)),
    ],
    settles: false,
    sweeps: false,
    live_words: 256,
    builds: &[&[3]],
};

// Two mutators make objects, and the first settles.
const SETTLED: MutatorRun = MutatorRun {
    name: "allocations that are settled",
    heap: Worked::Zeros(9),
    mutators: 2,
    fresh_pages: 2,
    calls: &[
        AnsweredCall(0, Call::Alloc(0, 2, 0), 1, 0, Ok(SECOND)),
        AnsweredCall(1, Call::Alloc(1, 3, 0), 2, 0, Ok(THIRD)),
    ],
    settles: true,
    sweeps: false,
    live_words: 18,
    builds: &[&[1], &[2]],
};

// The journal of the first fresh page after objects of two mutators refer to one another.
const WRITTEN_BY_TWO: &[Entry] = &[
    Entry {
        stamp: 0,
        writer: 0,
        kind: Kind::Header,
        offset: 0,
        value: 17_179_869_185,
    },
    Entry {
        stamp: 1,
        writer: 0,
        kind: Kind::Reference,
        offset: 1,
        value: T + 2,
    },
    Entry {
        stamp: 3,
        writer: 1,
        kind: Kind::Reference,
        offset: 1,
        value: 0,
    },
];

// Objects of two mutators refer to one another.
const REFERRED: MutatorRun = MutatorRun {
    name: "references to new objects",
    heap: Worked::Three,
    mutators: 2,
    fresh_pages: 2,
    calls: &[
        AnsweredCall(0, Call::Alloc(1, 0, 4), 1, 0, Ok(SECOND)),
        AnsweredCall(
            0,
            Call::Write(Kind::Reference, SECOND, 0, T + 2),
            1,
            1,
            Ok(1),
        ),
        AnsweredCall(
            0,
            Call::Write(Kind::Reference, T + 2, 0, SECOND),
            0,
            0,
            Ok(2),
        ),
        AnsweredCall(1, Call::Read(Kind::Reference, SECOND, 0), 1, 2, Ok(T + 2)),
        AnsweredCall(1, Call::Read(Kind::Reference, T + 2, 0), 0, 1, Ok(SECOND)),
        AnsweredCall(1, Call::Write(Kind::Reference, SECOND, 0, 0), 1, 2, Ok(3)),
        AnsweredCall(1, Call::Alloc(0, 0, 0), 2, 0, Ok(THIRD)),
        AnsweredCall(
            0,
            Call::Copy(1, &[17_179_869_185], WRITTEN_BY_TWO),
            1,
            3,
            Ok(3),
        ),
    ],
    settles: false,
    sweeps: false,
    live_words: 7,
    builds: &[&[1, 0], &[2]],
};

// A heap of edition three, with so many fresh pages that the zeros of its table take memory.
const LARGE: MutatorRun = MutatorRun {
    name: "a large table",
    heap: Worked::Mixed,
    mutators: 1,
    fresh_pages: 21_000,
    calls: &[AnsweredCall(0, Call::Touch(0), 0, 0, Ok(1))],
    settles: false,
    sweeps: false,
    live_words: 6,
    builds: &[&[0]],
};

// One worker sweeps the twenty pages.
const SWEPT: MutatorRun = MutatorRun {
    name: "a sweep",
    heap: Worked::Twenty,
    mutators: 1,
    fresh_pages: 0,
    calls: &[],
    settles: false,
    sweeps: true,
    live_words: 1_280,
    builds: &[&[
        0, 1, 2, 3, 4, 5, 6, 7, 8, 9, 10, 11, 12, 13, 14, 15, 16, 17, 18, 19,
    ]],
};

static RUNS: [MutatorRun; 7] = [WRITTEN, ALLOCATED, TOUCHED, SETTLED, REFERRED, SWEPT, LARGE];

/// All of them.
pub fn all() -> &'static [MutatorRun] {
    &RUNS
}

//! Replays and races of lines that make, store and load immediates.
use crate::races::{RacedText, Wanted, race_all};
use crate::replays::{Only, ReplayedText, replay_all};
use crate::text_runs::TextRun;
use comp_mutator::Refusal;
use comp_trace::{Shown, TraceFault};
use heap_layout::{FIRST_IMMEDIATE as I, Kind, TO_SPACE as T};
use test_support::Worked;

// On the three objects of edition two in edition four, whose second root is the immediate with payload 5.
static ON_IMMEDIATES: [ReplayedText; 4] = [
    ReplayedText {
        case: TextRun {
            name: "stores the largest immediate into a reference, and loads it",
            mutators: 2,
            fresh_pages: 0,
            text: b"0 root 0 0\n0 load 1 0 0\n0 imm 2 9223372036854775807\n0 store 0 0 2\n0 load 3 0 0\n0 get 1 0\n0 get 3 0\n",
        },
        shown: &[Shown { line: 6, value: 9 }],
        fault: Some(TraceFault::Refused(7, Refusal::NotAStart(u64::MAX))),
        live_words: 6,
        entries: &[Only::Word(0, 0, Kind::Reference, 5, u64::MAX)],
    },
    ReplayedText {
        case: TextRun {
            name: "stores a root that is an immediate into a weak word, and loads it",
            mutators: 1,
            fresh_pages: 0,
            text: b"0 root 0 0\n0 load 1 0 0\n0 root 2 1\n0 wstore 1 1 2\n0 wload 3 1 1\n0 get 1 0\n0 put 3 0 1\n",
        },
        shown: &[Shown { line: 6, value: 9 }],
        fault: Some(TraceFault::Refused(7, Refusal::NotAStart(I + 5))),
        live_words: 6,
        entries: &[Only::Word(0, 0, Kind::Weak, 2, I + 5)],
    },
    ReplayedText {
        case: TextRun {
            name: "stops at an immediate whose low bits are the address of the object",
            mutators: 1,
            fresh_pages: 0,
            text: b"0 root 0 0\n0 imm 1 8589934596\n0 store 0 0 1\n0 load 0 0 0\n0 load 0 0 0\n",
        },
        shown: &[],
        fault: Some(TraceFault::Refused(5, Refusal::NotAStart(I + T + 4))),
        live_words: 6,
        entries: &[Only::Word(0, 0, Kind::Reference, 5, I + T + 4)],
    },
    ReplayedText {
        case: TextRun {
            name: "refuses a payload of 64 bits before any line runs",
            mutators: 1,
            fresh_pages: 0,
            text: b"0 root 0 0\n0 nil 1\n0 store 0 0 1\n0 imm 1 9223372036854775808\n",
        },
        shown: &[],
        fault: Some(TraceFault::NumberTooLarge(4)),
        live_words: 6,
        entries: &[],
    },
];

// In the other editions a line that makes an immediate is refused when it runs.
static ELSEWHERE: [ReplayedText; 1] = [ReplayedText {
    case: TextRun {
        name: "stops at an immediate, which the edition has not",
        mutators: 1,
        fresh_pages: 0,
        text: b"0 root 0 0\n0 imm 0 0\n0 store 0 0 0\n",
    },
    shown: &[],
    fault: Some(TraceFault::Refused(2, Refusal::NotInEdition)),
    live_words: 6,
    entries: &[],
}];

// What two mutators do with immediates beside each other.
static RACED: [RacedText; 1] = [RacedText {
    case: TextRun {
        name: "stores immediates beside a read of data",
        mutators: 2,
        fresh_pages: 0,
        text: b"0 imm 1 0\n0 root 0 0\n0 store 0 0 1\n0 get 1 0\n1 root 2 1\n1 root 0 0\n1 wstore 0 0 2\n",
    },
    runs: &[
        Wanted::Refused(4, Refusal::NotAStart(I)),
        Wanted::Refused(7, Refusal::NoSuchField),
    ],
    live_words: 6,
}];

static RACED_ELSEWHERE: [RacedText; 1] = [RacedText {
    case: TextRun {
        name: "refuses an immediate, which the edition has not",
        mutators: 2,
        fresh_pages: 0,
        text: b"0 imm 1 0\n1 root 0 0\n1 load 1 0 0\n1 get 1 0\n",
    },
    runs: &[
        Wanted::Refused(1, Refusal::NotInEdition),
        Wanted::Shows(4, 9, 9),
    ],
    live_words: 6,
}];

#[test]
fn replays_make_store_and_load_immediates(rt: HostRuntime) {
    replay_all(&rt, rt.alloc(), Worked::Immediates, &ON_IMMEDIATES);
    replay_all(&rt, rt.alloc(), Worked::Weak, &ELSEWHERE);
    replay_all(&rt, rt.alloc(), Worked::Mixed, &ELSEWHERE);
}

#[test]
fn races_make_and_store_immediates(rt: HostRuntime) {
    race_all(&rt, rt.alloc(), Worked::Immediates, &RACED);
    race_all(&rt, rt.alloc(), Worked::Weak, &RACED_ELSEWHERE);
    race_all(&rt, rt.alloc(), Worked::Mixed, &RACED_ELSEWHERE);
}

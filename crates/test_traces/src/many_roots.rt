//! Replays that read roots far from the first.
use crate::replays::{Only, ReplayedText, replay_all};
use crate::text_runs::TextRun;
use comp_mutator::Refusal;
use comp_trace::{Shown, TraceFault};
use heap_layout::{Kind, TO_SPACE as T};
use test_support::Worked;

// On the three objects of edition two in edition three, with 70,000 roots, of which number 65,536 and the last refer to
// the last object and all others are null.
static ON_MANY_ROOTS: [ReplayedText; 5] = [
    ReplayedText {
        case: TextRun {
            name: "reads a root far from the first",
            mutators: 1,
            fresh_pages: 1,
            text: b"0 root 0 65536\n0 load 1 0 0\n0 get 1 0\n0 root 2 65535\n0 get 2 0\n",
        },
        shown: &[Shown { line: 3, value: 9 }],
        fault: Some(TraceFault::Refused(5, Refusal::Null)),
        live_words: 6,
        entries: &[],
    },
    ReplayedText {
        case: TextRun {
            name: "reads the last root, and stores it",
            mutators: 2,
            fresh_pages: 4_097,
            text: b"0 root 0 69999\n0 store 0 0 0\n0 wnew 1 1 1 1 16383\n0 load 2 0 0\n0 load 3 2 0\n0 get 3 0\n",
        },
        shown: &[],
        fault: Some(TraceFault::Refused(6, Refusal::NoSuchField)),
        live_words: 10,
        entries: &[
            Only::Word(0, 0, Kind::Reference, 5, T + 4),
            Only::Word(1, 1, Kind::Header, 0, 0x3fff_0001_0001_0001),
        ],
    },
    ReplayedText {
        case: TextRun {
            name: "stops at a tag of 15 bits",
            mutators: 1,
            fresh_pages: 1,
            text: b"0 root 0 0\n0 new 1 0 0 16384\n",
        },
        shown: &[],
        fault: Some(TraceFault::Refused(2, Refusal::NotInEdition)),
        live_words: 6,
        entries: &[],
    },
    ReplayedText {
        case: TextRun {
            name: "stops at a root after the last",
            mutators: 1,
            fresh_pages: 0,
            text: b"0 root 0 69999\n0 root 0 70000\n",
        },
        shown: &[],
        fault: Some(TraceFault::NoSuchRoot(2)),
        live_words: 6,
        entries: &[],
    },
    ReplayedText {
        case: TextRun {
            name: "stops at a root of 33 bits",
            mutators: 1,
            fresh_pages: 0,
            text: b"0 root 0 4294967296\n",
        },
        shown: &[],
        fault: Some(TraceFault::NoSuchRoot(1)),
        live_words: 6,
        entries: &[],
    },
];

#[test]
fn replays_read_roots_far_from_the_first(rt: HostRuntime) {
    replay_all(&rt, rt.alloc(), Worked::ManyRoots(70_000), &ON_MANY_ROOTS);
}

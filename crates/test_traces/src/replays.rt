//! Replays: what lines show, write and refuse, one after another.
use crate::expected::{expect_eq, expect_so};
use crate::finished_runs::replayed;
use crate::text_runs::TextRun;
use comp_journal::Entry;
use comp_mutator::{Finished, Refusal};
use comp_trace::{Shown, Stopped, TraceFault};
use heap_layout::{Header, Kind, TO_SPACE as T};
use page_plan::Plan;
use std::alloc::Global;
use std::marker::Brand;
use std::process::Abort;
use std::sync::ledger::Blank;
use std::thread::Threads;
use test_support::{At, Worked, plan_of};

/// The only entry of a page, by mutator 0.
#[derive(Clone, Copy)]
pub enum Only {
    /// The number of the page, and the stamp, kind, offset and value of the entry.
    Word(usize, u64, Kind, u8, u64),
    /// An object at the beginning of a page: the number of the page, the stamp of the entry, and of its header, which
    /// is of edition one, the numbers of references and data words and the tag.
    Made(usize, u64, u16, u16, u32),
    /// The same of edition two: the numbers of references, weak words and data words and the tag.
    MadeWeak(usize, u64, u16, u16, u16, u16),
}

impl Only {
    // The number of the page, and the entry.
    fn entry(self) -> (usize, Entry) {
        let (page, stamp, kind, offset, value) = match self {
            Only::Word(page, stamp, kind, offset, value) => (page, stamp, kind, offset, value),
            Only::Made(page, stamp, refs, data, tag) => {
                let header = Header::new(refs, data, tag).word();
                (page, stamp, Kind::Header, 0, header)
            }
            Only::MadeWeak(page, stamp, refs, weak, data, tag) => {
                let header = Header::new_weak(refs, weak, data, tag).word();
                (page, stamp, Kind::Header, 0, header)
            }
        };
        let entry = Entry {
            stamp,
            writer: 0,
            kind,
            offset,
            value,
        };
        (page, entry)
    }
}

/// A text, what its replay shows, and the finished heap.
pub struct ReplayedText {
    pub case: TextRun<'static>,
    pub shown: &'static [Shown],
    pub fault: Option<TraceFault>,
    pub live_words: u64,
    pub entries: &'static [Only],
}

// On the three objects.
static ON_THREE: [ReplayedText; 11] = [
    ReplayedText {
        case: TextRun {
            name: "shows what another mutator wrote, and leaves it to the words that slid",
            mutators: 2,
            fresh_pages: 2,
            text: b"0 root 0 0\n0 load 1 0 0\n0 put 1 0 7\n1 root 0 0\n1 load 1 0 0\n1 get 1 0\n",
        },
        shown: &[Shown { line: 6, value: 7 }],
        fault: None,
        live_words: 4,
        entries: &[Only::Word(0, 0, Kind::Data, 1, 7)],
    },
    ReplayedText {
        case: TextRun {
            name: "shows what another mutator wrote, without fresh pages",
            mutators: 2,
            fresh_pages: 0,
            text: b"0 root 0 0\n0 load 1 0 0\n0 put 1 0 7\n1 root 0 0\n1 load 1 0 0\n1 get 1 0\n",
        },
        shown: &[Shown { line: 6, value: 7 }],
        fault: None,
        live_words: 4,
        entries: &[],
    },
    ReplayedText {
        case: TextRun {
            name: "writes an object and then a reference to it",
            mutators: 1,
            fresh_pages: 2,
            text: b"0 root 0 0\n0 new 1 0 0 0\n0 store 0 0 1\n",
        },
        shown: &[],
        fault: None,
        live_words: 5,
        entries: &[
            Only::Word(1, 0, Kind::Header, 0, 0),
            Only::Word(0, 1, Kind::Reference, 3, T + 64),
        ],
    },
    ReplayedText {
        case: TextRun {
            name: "shows nothing without lines",
            mutators: 2,
            fresh_pages: 0,
            text: b"",
        },
        shown: &[],
        fault: None,
        live_words: 4,
        entries: &[],
    },
    ReplayedText {
        case: TextRun {
            name: "shows what was there and what was written",
            mutators: 2,
            fresh_pages: 0,
            text: b"1 root 15 0\n1 load 3 15 0\n0 root 2 0\n0 load 4 2 0\n1 get 3 0\n0 put 4 0 9\n1 get 3 0\n",
        },
        shown: &[Shown { line: 5, value: 11 }, Shown { line: 7, value: 9 }],
        fault: None,
        live_words: 4,
        entries: &[],
    },
    ReplayedText {
        case: TextRun {
            name: "stops at a null register",
            mutators: 2,
            fresh_pages: 0,
            text: b"0 nil 0\n0 get 0 0\n",
        },
        shown: &[],
        fault: Some(TraceFault::Refused(2, Refusal::Null)),
        live_words: 4,
        entries: &[],
    },
    ReplayedText {
        case: TextRun {
            name: "keeps what was shown before a stop",
            mutators: 2,
            fresh_pages: 0,
            text: b"0 root 0 0\n0 load 1 0 0\n0 get 1 0\n1 get 1 0\n0 get 1 0\n",
        },
        shown: &[Shown { line: 3, value: 11 }],
        fault: Some(TraceFault::Refused(4, Refusal::Null)),
        live_words: 4,
        entries: &[],
    },
    ReplayedText {
        case: TextRun {
            name: "stops at an object that is too large",
            mutators: 2,
            fresh_pages: 0,
            text: b"0 new 0 65535 65535 4294967295\n",
        },
        shown: &[],
        fault: Some(TraceFault::Refused(1, Refusal::ObjectTooLarge)),
        live_words: 4,
        entries: &[],
    },
    ReplayedText {
        case: TextRun {
            name: "stops at an object with a weak word, which edition one has not",
            mutators: 1,
            fresh_pages: 0,
            text: b"0 wnew 0 65535 1 65535 4294967295\n",
        },
        shown: &[],
        fault: Some(TraceFault::Refused(1, Refusal::NotInEdition)),
        live_words: 4,
        entries: &[],
    },
    ReplayedText {
        case: TextRun {
            name: "stops at a weak field, which no object of edition one has",
            mutators: 1,
            fresh_pages: 1,
            text: b"0 root 0 0\n0 load 1 0 0\n0 wnew 2 0 0 1 65536\n0 get 2 0\n0 wstore 1 0 2\n0 get 1 0\n",
        },
        shown: &[Shown { line: 4, value: 0 }],
        fault: Some(TraceFault::Refused(5, Refusal::NoSuchField)),
        live_words: 6,
        entries: &[Only::Made(1, 0, 0, 1, 65_536)],
    },
    ReplayedText {
        case: TextRun {
            name: "stops at a text that is none",
            mutators: 2,
            fresh_pages: 0,
            text: b"0 nil 0\n0 root 0 1\n",
        },
        shown: &[],
        fault: Some(TraceFault::NoSuchRoot(2)),
        live_words: 4,
        entries: &[],
    },
];

// On the three objects of edition two.
static ON_WEAK: [ReplayedText; 4] = [
    ReplayedText {
        case: TextRun {
            name: "writes a weak word that leads to a new object, and reads it",
            mutators: 1,
            fresh_pages: 1,
            text: WEAK_TEXT,
        },
        shown: &[Shown { line: 6, value: 9 }],
        fault: None,
        live_words: 8,
        entries: &[
            Only::MadeWeak(1, 0, 0, 1, 0, 5),
            Only::Word(0, 1, Kind::Weak, 1, T + 64),
        ],
    },
    ReplayedText {
        case: TextRun {
            name: "reads a weak word that is null since its object did not slide",
            mutators: 2,
            fresh_pages: 0,
            text: b"1 root 0 0\n1 load 1 0 0\n1 wload 2 1 1\n1 wload 3 1 0\n1 load 4 2 0\n1 get 4 0\n1 get 3 0\n",
        },
        shown: &[Shown { line: 6, value: 9 }],
        fault: Some(TraceFault::Refused(7, Refusal::Null)),
        live_words: 6,
        entries: &[],
    },
    ReplayedText {
        case: TextRun {
            name: "stops at a weak field that is not there",
            mutators: 1,
            fresh_pages: 0,
            text: b"0 root 0 0\n0 load 1 0 0\n0 get 1 0\n0 wload 2 1 2\n0 get 1 0\n",
        },
        shown: &[Shown { line: 3, value: 9 }],
        fault: Some(TraceFault::Refused(4, Refusal::NoSuchField)),
        live_words: 6,
        entries: &[],
    },
    ReplayedText {
        case: TextRun {
            name: "stops at a tag of 17 bits",
            mutators: 1,
            fresh_pages: 0,
            text: b"0 wnew 0 65535 65535 65535 65536\n",
        },
        shown: &[],
        fault: Some(TraceFault::Refused(1, Refusal::NotInEdition)),
        live_words: 6,
        entries: &[],
    },
];

/// The text makes an object with a weak word, writes it into a weak word of the first object, reads that, and shows the
/// data word of the first object.
pub const WEAK_TEXT: &[u8] =
    b"0 root 0 0\n0 load 1 0 0\n0 wnew 2 0 1 0 5\n0 wstore 1 0 2\n0 wload 3 1 0\n0 get 1 0\n";

// Its text is followed by 1,025 lines `0 put 1 0 7`.
static FULL: ReplayedText = ReplayedText {
    case: TextRun {
        name: "stops at a full journal",
        mutators: 2,
        fresh_pages: 0,
        text: b"0 root 0 0\n0 load 1 0 0\n",
    },
    shown: &[],
    fault: Some(TraceFault::Refused(1_027, Refusal::JournalFull(0))),
    live_words: 4,
    entries: &[],
};

/// Checks what the replay showed, and the cause of its stop, if it stopped.
pub fn expect_replay(
    rt: &impl Abort,
    name: &str,
    run: &Result<Vec<Shown>, Stopped>,
    shown: &[Shown],
    fault: Option<TraceFault>,
) {
    let (all, cause) = match run {
        Ok(all) => (all, None),
        Err(stopped) => (&stopped.shown, Some(stopped.fault)),
    };
    expect_eq(rt, At::new(name, 0), all.as_slice(), shown);
    expect_eq(rt, At::new(name, 0), cause, fault);
}

// Whether the page has this entry alone.
fn has_only(finished: &Finished, only: &Only) -> bool {
    let (page, entry) = only.entry();
    match finished.pages().page(page) {
        Some(page) => page.journal() == [entry].as_slice(),
        _ => false,
    }
}

// Checks the live words and the entries of the finished heap.
fn expect_finished(rt: &impl Abort, row: &ReplayedText, finished: &Finished) {
    let live = finished.live_words();
    expect_eq(rt, At::new(row.case.name, 0), live, row.live_words);
    for (k, only) in row.entries.iter().enumerate() {
        expect_so(rt, At::new(row.case.name, k), has_only(finished, only));
    }
}

// Replays this text, of which the case says what comes of it, on the heap of this builder, which this plan compacted,
// and finishes.
fn replay_one(
    rt: &impl Abort,
    alloc: Global,
    builder: Plan,
    plan: &Plan,
    row: &ReplayedText,
    text: &[u8],
) {
    let case = TextRun { text, ..row.case };
    let blank = Blank::new(u64::from(row.case.mutators));
    let (run, finished) = replayed::<Brand>(rt, alloc, blank, case, builder, plan);
    expect_replay(rt, row.case.name, &run, row.shown, row.fault);
    expect_finished(rt, row, &finished);
}

/// Replays each of these texts on this heap.
pub fn replay_all(
    rt: &(impl Abort + Threads + Sync),
    alloc: Global,
    heap: Worked,
    texts: &[ReplayedText],
) {
    let plan = plan_of(rt, alloc, heap).expect(rt, "a plan");
    for text in texts {
        let builder = plan_of(rt, alloc, heap).expect(rt, "a plan");
        replay_one(rt, alloc, builder, &plan, text, text.case.text);
    }
}

#[test]
fn replays_show_and_leave_what_their_lines_do(rt: HostRuntime) {
    replay_all(&rt, rt.alloc(), Worked::Three, &ON_THREE);
}

#[test]
fn replays_read_and_write_weak_words(rt: HostRuntime) {
    replay_all(&rt, rt.alloc(), Worked::Weak, &ON_WEAK);
}

// More writes to one page than its journal holds.
fn replay_full(rt: &(impl Abort + Threads + Sync), alloc: Global) {
    let plan = plan_of(rt, alloc, Worked::Three).expect(rt, "a plan");
    let mut text = FULL.case.text.to_vec(alloc).expect(rt, "a text");
    for _ in 0..1_025 {
        text.extend_from_slice(b"0 put 1 0 7\n")
            .expect(rt, "a line");
    }
    let builder = plan_of(rt, alloc, Worked::Three).expect(rt, "a plan");
    replay_one(rt, alloc, builder, &plan, &FULL, &text);
}

#[test]
fn a_replay_stops_at_a_full_journal(rt: HostRuntime) {
    replay_full(&rt, rt.alloc());
}

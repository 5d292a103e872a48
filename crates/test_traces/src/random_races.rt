//! Pseudorandom traces, raced by one mutator, which must do as the plain model does, and by several, whose history must
//! be a run of the model.
use crate::drawn_traces::Drawn;
use crate::expected::{expect_eq, expect_so};
use crate::finished_heaps::{expect_pages, take_history};
use crate::finished_runs::raced;
use crate::random_traces::case_of;
use comp_journal::Entry;
use comp_mutator::{Finished, Refusal};
use comp_trace::{Action, Line, Run};
use heap_layout::Kind;
use page_plan::Plan;
use std::alloc::Global;
use std::marker::Brand;
use std::process::Abort;
use std::sync::Wait;
use std::sync::ledger::Blank;
use std::thread::Threads;
use test_support::{At, Objects, opening, two_live};

// The refusals of a line that waits and has memory.
const STOPS: [Refusal; 5] = [
    Refusal::Null,
    Refusal::NoSuchField,
    Refusal::ObjectTooLarge,
    Refusal::OutOfPages,
    Refusal::NotInEdition,
];

// The data words of the two live objects and of a new object.
const FIRST_VALUES: [u64; 4] = [10, 30, 31, 0];

// Whether a line that waits and has memory may be refused for this cause in a heap of these objects. Registers hold no
// word that is neither null nor a start, but immediates.
fn may_stop(objects: &Objects, refusal: Refusal) -> bool {
    match refusal {
        Refusal::NotAStart(word) => objects.edition.is_immediate(word),
        _ => STOPS.contains(&refusal),
    }
}

// The number and the run of a mutator, and what all mutators wrote.
#[derive(Clone, Copy)]
struct Deeds<'a> {
    mutator: u8,
    run: &'a Run,
    objects: &'a Objects,
}

// What a line writes; of a reference or a weak word only the kind. `None` if it writes nothing or makes an object that
// its edition does not have.
fn write_of(objects: &Objects, action: Action) -> Option<(Kind, u64)> {
    match action {
        Action::Store { weak: false, .. } => Some((Kind::Reference, 0)),
        Action::Store { .. } => Some((Kind::Weak, 0)),
        Action::Put { value, .. } => Some((Kind::Data, value)),
        Action::New {
            refs,
            weak,
            data_words,
            tag,
            ..
        } => {
            let header = objects.header(refs, weak, data_words, tag).ok()?;
            Some((Kind::Header, header.word()))
        }
        _ => None,
    }
}

// What an entry writes; of a reference or a weak word only the kind.
fn content(entry: Entry) -> (Kind, u64) {
    match entry.kind {
        Kind::Reference => (Kind::Reference, 0),
        Kind::Weak => (Kind::Weak, 0),
        kind => (kind, entry.value),
    }
}

// What a mutator wrote in its write number `count`, or `None`.
fn write_at(objects: &Objects, mutator: u8, count: usize) -> Option<(Kind, u64)> {
    let mut left = count;
    for written in &objects.written {
        if written.entry.writer == mutator {
            if left == 0 {
                return Some(content(written.entry));
            }
            left = left.wrapping_sub(1);
        }
    }
    None
}

// Whether a write or one of the first objects has this value.
fn is_known(objects: &Objects, value: u64) -> bool {
    let mut known = FIRST_VALUES.contains(&value);
    for written in &objects.written {
        let entry = written.entry;
        known = known || (entry.kind == Kind::Data && entry.value == value);
    }
    known
}

// Whether the next thing that a mutator did, after the given numbers of shown values and writes, is what line `number`
// shows or writes. A value must be known.
fn is_next(
    deeds: Deeds,
    shown: &mut usize,
    written: &mut usize,
    number: u64,
    action: Action,
) -> bool {
    if let Action::Get { .. } = action {
        let count = *shown;
        *shown = count.wrapping_add(1);
        return match deeds.run.shown.get(count) {
            Some(shown) => shown.line == number && is_known(deeds.objects, shown.value),
            None => false,
        };
    }
    let write = write_of(deeds.objects, action);
    if write.is_none() {
        return true;
    }
    let count = *written;
    *written = count.wrapping_add(1);
    write_at(deeds.objects, deeds.mutator, count) == write
}

// Whether a mutator showed and wrote what its own lines up to the refused one say, in their order, and nothing else.
fn showed_and_wrote(lines: &[Line], deeds: Deeds) -> bool {
    let end = match deeds.run.fault {
        Some(stop) => stop.line,
        None => u64::MAX,
    };
    let mut shown = 0;
    let mut written = 0;
    let mut same = true;
    for (at, line) in lines.iter().enumerate() {
        let number = (at as u64).wrapping_add(1);
        if line.mutator == deeds.mutator && number < end {
            same = is_next(deeds, &mut shown, &mut written, number, line.action) && same;
        }
    }
    same && deeds.run.shown.len() == shown
        && write_at(deeds.objects, deeds.mutator, written).is_none()
}

// Whether a mutator did what its lines say. A refused line must be its own, for a cause that a line may have that waits
// and has memory.
fn is_run(lines: &[Line], deeds: Deeds) -> bool {
    if let Some(stop) = deeds.run.fault {
        let at = stop.line.wrapping_sub(1) as usize;
        let is_own = match lines.get(at) {
            Some(line) => { line.mutator == deeds.mutator && may_stop(deeds.objects, stop.refusal) }
            None => false,
        };
        if !is_own {
            return false;
        }
    }
    showed_and_wrote(lines, deeds)
}

// Checks that each mutator wrote and showed what its lines say.
fn expect_runs(rt: &impl Abort, drawn: &Drawn, runs: &[Run], objects: &Objects) {
    for (k, run) in runs.iter().enumerate() {
        let mutator = (k % 256) as u8;
        let deeds = Deeds {
            mutator,
            run,
            objects,
        };
        expect_so(rt, At::new(&drawn.name, k), is_run(&drawn.lines, deeds));
    }
}

// Checks that a mutator alone showed the values of the plain model and stopped where the model did.
fn expect_alone(rt: &impl Abort, drawn: &Drawn, runs: &[Run]) {
    let run = runs.first().expect(rt, &drawn.name);
    let at = At::new(&drawn.name, 0);
    expect_eq(rt, at, run.shown.as_slice(), drawn.run.shown.as_slice());
    expect_eq(rt, at, run.fault, drawn.stop);
}

// Checks that the finished heap has one history, and that it is what `n` mutators ran. A mutator alone must do as the
// plain model does.
fn expect_raced(
    rt: &impl Abort,
    alloc: Global,
    drawn: &Drawn,
    n: u8,
    runs: &[Run],
    finished: &Finished,
) {
    let count = runs.len();
    expect_eq(rt, At::new(&drawn.name, count), count, usize::from(n));
    if n == 1 {
        expect_alone(rt, drawn, runs);
        expect_pages(rt, alloc, &drawn.name, finished, &drawn.run.objects);
    }
    let opened = opening(alloc, drawn.run.objects.edition, usize::from(n));
    let mut objects = opened.expect(rt, "the two live objects");
    take_history(rt, alloc, &drawn.name, finished, &mut objects);
    expect_runs(rt, drawn, runs, &objects);
}

/// Races the trace by `n` mutators, and checks the finished heap.
pub fn race_drawn<R: Abort + Threads + Wait + Sync>(
    rt: &R,
    alloc: Global,
    plan: &Plan,
    n: u8,
    drawn: &Drawn,
) {
    let case = case_of(drawn, n);
    let blank = Blank::new(u64::from(case.mutators));
    let builder = two_live(alloc, rt, drawn.run.objects.edition).expect(rt, "a plan");
    let (runs, finished) = raced::<Brand, Plan, R>(rt, alloc, blank, case, builder, plan);
    expect_raced(rt, alloc, drawn, n, &runs, &finished);
}

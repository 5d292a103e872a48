//! If an allocation is refused, as a switch of the test run asks, cycles report that they are out of memory and show
//! what they showed before.
use crate::expected::{expect_eq, expect_so};
use comp_access::Refusal;
use comp_trace::{CycleFault, CyclesStopped, Shown, TraceFault, parse, replay_cycles};
use heap_layout::{Edition, LayoutFault, MarkedHeap};
use std::alloc::Global;
use std::process::Abort;
use std::thread::Threads;
use test_support::{At, F, three_words};

// The first object's data word is shown and a new object is stored. The second cycle shows the data word again.
const FIRST: &[u8] =
    b"0 root 0 0\n0 load 1 0 0\n0 get 1 0\n0 new 2 1 0 9\n0 store 2 0 1\n0 store 0 0 2\n";

const SECOND: &[u8] = b"0 root 0 0\n0 load 1 0 0\n0 load 2 1 0\n0 get 2 0\n";

// Whether the fault reports that memory was refused.
fn wants_memory(fault: CycleFault) -> bool {
    match fault {
        CycleFault::NotMarked(_, fault) => fault == LayoutFault::OutOfMemory,
        CycleFault::Stopped(_, fault) => fault == TraceFault::OutOfMemory || is_refused(fault),
        CycleFault::OutOfMemory(_) => true,
    }
}

// Whether the fault is a line whose call was refused memory.
fn is_refused(fault: TraceFault) -> bool {
    match fault {
        TraceFault::Refused(_, refusal) => refusal == Refusal::OutOfMemory,
        _ => false,
    }
}

// In each of the two cycles, the line that shows the data word.
const SHOWING: [u64; 2] = [3, 4];

// The least and the most cycles with a list of values. A cycle has a list if its lines had begun, and so have those
// before it.
fn lists(fault: CycleFault) -> (u64, u64) {
    match fault {
        CycleFault::NotMarked(c, _fault) => (c.wrapping_add(1), c.wrapping_add(1)),
        CycleFault::Stopped(c, _fault) => (c.wrapping_add(1), c.wrapping_add(1)),
        CycleFault::OutOfMemory(c) => (c, c.wrapping_add(1)),
    }
}

// Whether this line of cycle `c` had shown its value.
fn had_shown(fault: CycleFault, c: u64, line: u64) -> bool {
    match fault {
        CycleFault::Stopped(at, fault) if at == c => match fault {
            TraceFault::Refused(refused, _refusal) => line < refused,
            _ => false,
        },
        _ => true,
    }
}

// Checks that the values are those of the cycles before the stopped one, and of its lines before the refused one.
fn expect_shown(rt: &impl Abort, stopped: &CyclesStopped) {
    let (least, most) = lists(stopped.fault);
    let count = stopped.shown.len() as u64;
    expect_so(
        rt,
        At {
            case: "lists",
            row: count,
        },
        least <= count && count <= most,
    );
    for (c, values) in stopped.shown.iter().enumerate() {
        let line = SHOWING.get(c).copied().unwrap_or(0);
        let wanted = match had_shown(stopped.fault, c as u64, line) {
            true => Some(Shown { line, value: 11 }),
            false => None,
        };
        expect_so(rt, At::new("values", c), values.len() <= 1);
        expect_eq(rt, At::new("value", c), values.first().copied(), wanted);
    }
}

// The cycles, or `None` if memory was refused before they began.
fn cycles(rt: &(impl Abort + Threads + Sync), alloc: Global) -> Option<Result<u64, CyclesStopped>> {
    let words = three_words().to_vec(alloc).ok()?;
    let marks = [0, 5].to_vec(alloc).ok()?;
    let roots = [F + 5].to_vec(alloc).ok()?;
    let heap = MarkedHeap::from_parts_of(Edition::One, words, marks, roots).ok()?;
    let roots = heap.roots().len() as u32;
    let first = parse(alloc, FIRST, 1, roots).ok()?;
    let second = parse(alloc, SECOND, 1, roots).ok()?;
    let rest = [([0, 2, 64].to_vec(alloc).ok()?, second)];
    match replay_cycles(alloc, rt, heap, &first, &rest, 1, 2) {
        Ok(run) => {
            let mut sum = 0u64;
            for values in &run.shown {
                for value in values {
                    sum = sum.wrapping_add(value.value);
                }
            }
            Some(Ok(sum))
        }
        Err(stopped) => Some(Err(stopped)),
    }
}

#[test]
fn cycles_without_memory_keep_what_they_showed(rt: HostRuntime) {
    match cycles(&rt, rt.alloc()) {
        Some(Ok(sum)) => expect_eq(
            &rt,
            At {
                case: "shown",
                row: sum,
            },
            sum,
            22,
        ),
        Some(Err(stopped)) => {
            expect_so(&rt, At::new("fault", 0), wants_memory(stopped.fault));
            expect_shown(&rt, &stopped);
        }
        None => {}
    }
}

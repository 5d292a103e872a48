//! Two cycles of a heap, which begin again if memory is refused in either.
use comp_mutator::Refusal;
use comp_trace::{CycleFault, CyclesStopped, Shown, TraceFault, parse, replay_cycles};
use heap_layout::LayoutFault;
use std::alloc::Global;
use std::thread::Threads;
use test_support::{Worked, worked_heap};

// The data word of the first object is shown, and a new object is stored.
const FIRST: &[u8] =
    b"0 root 0 0\n0 load 1 0 0\n0 get 1 0\n0 new 2 1 0 9\n0 store 2 0 1\n0 store 0 0 2\n";

// The same data word is shown by way of that object.
const SECOND: &[u8] = b"0 root 0 0\n0 load 1 0 0\n0 load 2 1 0\n0 get 2 0\n";

// In each cycle, the line that shows the data word.
const SHOWING: [u64; 2] = [3, 4];

// The data word.
const VALUE: u64 = 11;

// Whether each of the first `cycles` cycles showed the data word, and nothing else was shown.
fn are_shown(shown: &[Vec<Shown>], cycles: usize) -> bool {
    let mut so = shown.len() == cycles;
    for (cycle, values) in shown.iter().enumerate() {
        let line = SHOWING.get(cycle).copied().unwrap_or(0);
        let wanted = Shown { line, value: VALUE };
        so = so && values.len() == 1 && values.first().copied() == Some(wanted);
    }
    so
}

// Whether the values are those before line `n` of a cycle, which was refused, and of the cycles before it.
fn are_cut(shown: &[Vec<Shown>], cycle: usize, n: u64) -> bool {
    if SHOWING.get(cycle).copied().unwrap_or(0) < n {
        return are_shown(shown, cycle.wrapping_add(1));
    }
    let Some((last, before)) = shown.split_last() else {
        return false;
    };
    last.is_empty() && are_shown(before, cycle)
}

// Whether the cycles were refused memory and had shown what they must have shown by then. A cycle that did not finish
// has shown all that its lines show, since the list of marks is copied in the cycle that it ends.
fn is_memory(stopped: &CyclesStopped) -> bool {
    let shown = stopped.shown.as_slice();
    match stopped.fault {
        CycleFault::Stopped(cycle, TraceFault::OutOfMemory) => are_cut(shown, cycle as usize, 1),
        CycleFault::Stopped(cycle, TraceFault::Refused(n, Refusal::OutOfMemory)) => {
            are_cut(shown, cycle as usize, n)
        }
        CycleFault::Stopped(_, _) => false,
        CycleFault::NotMarked(cycle, fault) => {
            cycle == 0 && fault == LayoutFault::OutOfMemory && are_shown(shown, 1)
        }
        CycleFault::OutOfMemory(cycle) => {
            let before = cycle as usize;
            are_shown(shown, before) || are_shown(shown, before.wrapping_add(1))
        }
    }
}

// The cycles, or `None` if memory was refused before they began.
fn cycles_once(rt: &(impl Threads + Sync), alloc: Global) -> Option<bool> {
    let heap = worked_heap(alloc, Worked::Three)?;
    let roots = heap.roots().len() as u32;
    let first = parse(alloc, FIRST, 1, roots).ok()?;
    let second = parse(alloc, SECOND, 1, roots).ok()?;
    let rest = [([0, 2, 64].to_vec(alloc).ok()?, second)];
    match replay_cycles(alloc, rt, heap, &first, &rest, 1, 2) {
        Ok(run) => Some(are_shown(&run.shown, 2) && run.finished.live_words() == 6),
        Err(stopped) => match is_memory(&stopped) {
            true => None,
            false => Some(false),
        },
    }
}

/// Whether the cycles are as expected.
pub fn are_cycled(rt: &(impl Threads + Sync), alloc: Global) -> bool {
    match cycles_once(rt, alloc) {
        Some(well) => well,
        None => cycles_once(rt, alloc) == Some(true),
    }
}

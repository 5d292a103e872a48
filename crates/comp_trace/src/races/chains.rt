//! Chains that lead from each line to the next line of the same mutator.
ghost use Rattle.std.specs.Prelude.{IfOk};
ghost use Rattle.comp_trace.specs.Chains.{AreChained};

use crate::text::Line;
use heap_layout::OutOfMemory;
use std::alloc::Global;

// The number of mutators that a line can name.
const NUMBERS: usize = 256;

/// The index of each mutator's first line, the number of lines of each mutator, and for each line the index of the next
/// line of its mutator. If there is no such line, the index is the number of all lines.
#[derive(Drop)]
pub(crate) struct Chains {
    pub(crate) firsts: [usize; NUMBERS],
    pub(crate) counts: [usize; NUMBERS],
    pub(crate) nexts: Vec<usize>,
}

/// Makes the chains of these lines, from the last line to the first.
pub(crate) fn chained(alloc: Global, lines: &[Line]) -> Result<Chains, OutOfMemory>
    ensures { IfOk result (AreChained lines.now) }
{
    let mut nexts = vec![in alloc; 0usize; lines.len()]?;
    let mut firsts = [lines.len(); NUMBERS];
    let mut counts = [0; NUMBERS];
    let mut position = lines.len();
    while position > 0 {
        position -= 1;
        let number = lines[position].mutator as usize;
        nexts[position] = firsts[number];
        firsts[number] = position;
        counts[number] += 1;
    }
    Ok(Chains {
        firsts,
        counts,
        nexts,
    })
}

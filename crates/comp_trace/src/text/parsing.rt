//! Reads the texts of traces.
ghost use Rattle.std.specs.Prelude.{◌≡◌, IfOk, IsTrue};
ghost use Rattle.std.specs.List.{list_all};
ghost use Rattle.comp_trace.specs.Grammar.{is_within, trace_of, IsReadAs};
ghost use Rattle.comp_trace.specs.Traces.{lines_of, mutators_of, roots_of};

use crate::text::fault::TraceFault;
use crate::text::line::Line;
use crate::text::reading::read_line;
use crate::text::trace::Trace;
use std::alloc::Global;

impl Trace {
    /// The lines, in order; the first is line 1. They name only mutators and roots that the trace was parsed for.
    pub fn lines(&self) -> &[Line]
        ensures lines { result.now ≡ lines_of self.now }
        ensures within { IsTrue (list_all (is_within (mutators_of self.now) (roots_of self.now)) (lines_of self.now)) }
    {
        &self.lines
    }
}

/// Reads the text of a trace for `mutators` mutators and `roots` shared roots. Answers its lines, or the first fault.
///
/// A fault has the number of its line, counted from 1; only `OutOfMemory` has none.
pub fn parse(alloc: Global, text: &[u8], mutators: u8, roots: u32) -> Result<Trace, TraceFault>
    ensures lines { IsReadAs lines_of result (trace_of mutators roots text.now) }
    ensures bounds { IfOk result (λ trace. (mutators_of trace ≡ mutators) × (roots_of trace ≡ roots)) }
{
    let mut lines = Vec::new(alloc);
    let mut n = 1;
    let mut rest = text;
    while !rest.is_empty() {
        let (line, more) = read_line(rest, mutators, roots, n)?;
        lines.push(line)?;
        n += 1;
        rest = more;
    }
    Ok(Trace {
        lines,
        mutators,
        roots,
    })
}

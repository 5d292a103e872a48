ghost use Rattle.std.specs.Prelude.{IsTrue};
ghost use Rattle.std.specs.List.{list_all};
ghost use Rattle.comp_trace.specs.Grammar.{is_within};

use crate::text::line::Line;

/// A trace: what its text says, line by line. It was parsed for a number of mutators and a number of shared roots, and
/// its lines name no others.
#[derive(Debug, Drop)]
pub struct Trace {
    pub(crate) lines: Vec<Line>,
    pub(crate) mutators: u8,
    pub(crate) roots: u32,
    ghost within: { IsTrue (list_all (is_within mutators roots) lines.items) },
}

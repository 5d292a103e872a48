//! The values that lines show.
ghost use Rattle.std.specs.Prelude.{◌≡◌, ◌+◌, ◌≤◌, ◌++◌, length, vec_capacity};
ghost use Rattle.comp_trace.specs.Acting.{shown_at};

use crate::text::Action;

/// A value that a line showed, with the number of the line, counted from 1.
#[derive(Clone, Copy, Debug, PartialEq, Eq)]
pub struct Shown {
    pub line: u64,
    pub value: u64,
}

/// Adds what a line shows, if its call answered `value`: a line `get` shows it, and other lines show nothing. Requires
/// room for it.
pub fn show(shown: &mut Vec<Shown>, line: u64, action: Action, value: u64)
    requires room { length shown.old.items + length (shown_at line action value) ≤ vec_capacity shown.old }
    ensures shown { shown.new.items ≡ shown.old.items ++ shown_at line action value }
    ensures room { vec_capacity shown.new ≡ vec_capacity shown.old }
{
    if let Action::Get { .. } = action {
        shown.push_reserved(Shown { line, value });
    }
}

//! Joins the runs of a race: their values in the order of the lines, and the least refused line.
ghost use Rattle.std.specs.Prelude.{◌≡◌, ◌<◌, ◌≤◌, [], All, drop, length, vec_capacity, IfSome};
ghost use Rattle.commands.specs.TraceTasks.{AreByLine};
ghost use Rattle.commands.specs.JoinedRaces.{earlier_of, printed_at, AreOwn, IsFirstRefusedLine};

use comp_trace::{Line, RefusedLine, Run, Shown};

/// All values that the runs showed, in the order of their lines. `runs` has the run of each mutator over its own
/// lines, at most 64 of them. `shown` is empty, and has room for one value of each line.
pub fn by_line(lines: &[Line], runs: &[Run], mut shown: Vec<Shown>) -> Vec<Shown>
    requires own { AreOwn lines.now runs.now }
    requires inside { All (λ line. line.mutator < length runs.now) lines.now }
    requires few { length runs.now ≤ 64 }
    requires room { (shown.items ≡ []) × (length lines.now ≤ vec_capacity shown) }
    ensures { AreByLine runs.now result.items }
{
    let mut next = [0; 64];
    for (at, line) in lines.iter().enumerate() {
        let m = usize::from(line.mutator);
        if let Some(value) = shown_at(&runs[m], next[m], at as u64 + 1) {
            shown.push_reserved(value);
            next[m] += 1;
        }
    }
    shown
}

// The value with index `from` of a run, if it is of this line.
fn shown_at(run: &Run, from: usize, line: u64) -> Option<Shown>
    ensures value { result ≡ printed_at line (drop from run.now.shown.items) }
    ensures inside { IfSome result (λ _. from < length run.now.shown.items) }
{
    if let Some(value) = run.shown.get(from) {
        if value.line == line {
            return Some(*value);
        }
    }
    None
}

/// The refused line with the least number, if any was refused.
pub fn first_refused_line(runs: &[Run]) -> Option<RefusedLine>
    ensures { IsFirstRefusedLine runs.now result }
{
    let mut first = None;
    for run in runs {
        first = earlier(first, run.fault);
    }
    first
}

// Of two refused lines the one with the lower number.
fn earlier(first: Option<RefusedLine>, other: Option<RefusedLine>) -> Option<RefusedLine>
    ensures { result ≡ earlier_of first other }
{
    match (first, other) {
        (Some(known), Some(stop)) if stop.line < known.line => other,
        (None, _) => other,
        _ => first,
    }
}

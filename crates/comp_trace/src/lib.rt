//! Traces: scripts of what mutators do, line by line, and their runs: a replay by one thread, a race of several
//! threads, and a chain of cycles.
#![tactic(auto)]

mod cycles;
mod races;
mod replays;
mod steps;
mod text;

pub use cycles::{
    CycleFault, CyclesStopped, Marking, next_marked, replay_cycles, replay_marked, root_words,
    run_cycle,
};
pub use races::{NotRaced, Raced, Run, race};
pub use replays::{
    Halt, Ran, Replayed, Stopped, refusals_are_of_runs, replay, replay_registers, replay_text,
    replays_show_once, runs_are_determined,
};
pub use steps::Shown;
pub use text::{
    Action, Line, MarksFault, NewRoot, RefusedLine, RootsFault, Trace, TraceFault, parse,
    read_marks, read_roots,
};

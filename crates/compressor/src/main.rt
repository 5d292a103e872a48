//! The program: fetches its words, and does what they ask for.
#![tactic(auto)]

ghost use Rattle.std.specs.Prelude.{◌≡◌, ◌≤◌};
ghost use Rattle.heap_layout.specs.Counted.{failures_of};

use commands::{fetch_words, report_unstarted, run};
use heap_layout::Counted;
use std::io::{self, BufWriter, ErrorKind, Write};
use std::process::ExitCode;
use std::rt::{Env, Files};
use std::sync::Wait;
use std::thread::Threads;

fn main(rt: HostRuntime) -> ExitCode {
    let mut err = rt.stderr();
    ExitCode::from(start(&rt, &mut Counted::new(&mut err)))
}

// Fetches the words, sets up standard output with a buffer, and does what the words ask for. No call of `err` has
// failed before.
fn start<R: Env + Files + Print + AllocGlobal + Threads + Wait + Sync, E: Write>(
    rt: &R,
    err: &mut Counted<&mut E>,
) -> u8
    requires { failures_of err.old ≡ 0 }
    ensures status { result ≤ 2 }
{
    let words = match fetch_words(rt) {
        Ok(words) => words,
        Err(error) => return report_unstarted(error.kind(), err),
    };
    let Ok(mut out) = BufWriter::new(rt.alloc(), io::writer(rt)) else {
        return report_unstarted(ErrorKind::OutOfMemory, err);
    };
    let status = run(rt, words, &mut out, err);
    // A run that could print has flushed its output. What is left after a failed call is not written again, as a drop
    // of the buffer would do.
    let (_writer, _unsent) = out.into_parts();
    status
}

//! Calls of one mutator in a loop, on heaps whose pages are all built. `tools/timed-calls` runs this program beside an
//! unverified one that makes the same calls and prints the same lines, and counts what each takes.
//!
//! Words: CALLS OBJECTS STEP HEAPS LOOP... For each LOOP (none, read, write or alloc) it makes HEAPS heaps, one after
//! the other. Each has OBJECTS objects of one reference and one data word, and each object refers to the one that is
//! STEP further on. On each heap the loop makes at most CALLS calls.
#![tactic(auto)]

mod asked;
mod heaps;
mod loops;
mod running;

use asked::{Asked, Loop, asked_by, loop_of};
use running::run;
use std::env;
use std::io::Result as IoResult;
use std::process::ExitCode;
use std::rt::Env;
use std::thread::Threads;

// Everything was done; a loop was not; or the words ask nothing.
const DONE: u8 = 0;

const FAILED: u8 = 1;

const MISUSED: u8 = 2;

fn main(rt: HostRuntime) -> ExitCode {
    ExitCode::from(start(&rt))
}

// The words after the program's name.
fn words_of<R: Env + AllocGlobal>(rt: &R) -> IoResult<Vec<String>> {
    Ok(env::args(rt)?.skip(1).collect(rt.alloc())?)
}

// Does what the words ask for.
fn start<R: Env + Print + Eprint + AllocGlobal + Threads + Sync>(rt: &R) -> u8 {
    let Ok(words) = words_of(rt) else {
        return FAILED;
    };
    match asked_by(&words) {
        Some(asked) => run_loops(rt, asked, words.get(4..).unwrap_or(&[])),
        None => misused(rt),
    }
}

// Says what words there are.
fn misused<R: Eprint>(rt: &R) -> u8 {
    let _ = rt.eprintln("timed_calls: wants CALLS OBJECTS STEP HEAPS LOOP...");
    MISUSED
}

// Runs the loops that these words name, until one is not done.
fn run_loops<R: Print + Eprint + AllocGlobal + Threads + Sync>(
    rt: &R,
    asked: Asked,
    names: &[String],
) -> u8 {
    for name in names {
        let Some(which) = loop_of(name) else {
            return misused(rt);
        };
        if !run_loop(rt, asked, which, name) {
            return FAILED;
        }
    }
    DONE
}

// Runs a loop and prints what it did.
fn run_loop<R: Print + AllocGlobal + Threads + Sync>(
    rt: &R,
    asked: Asked,
    which: Loop,
    name: &str,
) -> bool {
    let Some(done) = run(rt, rt.alloc(), asked, which) else {
        return false;
    };
    let calls = done.calls;
    let sum = done.sum;
    let words = done.words;
    println!(rt; "{name} calls {calls} sum {sum} words {words}").is_ok()
}

//! Collections of a heap at rest, in rounds. `tools/timed-collection` runs this program beside an unverified one that
//! does the same and prints the same lines, and counts what each phase takes.
//!
//! Words: WORDS REFS DATA LIVE SHAPE ROUNDS MODE... For each MODE it makes a heap of WORDS words, of objects with REFS
//! references and DATA data words each, and as many words into which they may slide. SHAPE says what the root reaches.
//! 0 and 1: of all objects about LIVE of a hundred, in a binary tree, in an order that looks as if it were drawn, or in
//! the one in which they lie. The others reach nearly all. 2: a binary tree, each subtree behind its parent; 3: objects
//! whose references lead anywhere; 4: a table whose references lead to chains; 5: arrays of 500 references, most of
//! which lead to objects with none; 6: a list; 7: one array whose references lead to all objects, which have none.
//!
//! Then, ROUNDS times, it does what the mode says: 0, nothing; 1, a survey with no roots; 2, a survey with the heap's
//! root; 3, a slide, by a survey that is made once before; 4, a whole collection; 5, one within a copy of the words,
//! which is made first; 6, one by tables that are made once before; 7, one by 4 threads; 8, a copy of the words; 9, 10
//! and 11, a survey with the root by 1, 2 and 4 threads.
#![tactic(auto)]

mod asked;
mod heaps;
mod rounds;
mod shapes;

use asked::{Asked, Mode, asked_by, mode_of};
use heaps::{made, sum};
use rounds::{Left, run};
use std::env;
use std::io::Result as IoResult;
use std::process::ExitCode;
use std::rt::Env;
use std::thread::Threads;

// Everything was done; a mode was not; or the words ask nothing.
const DONE: u8 = 0;

const FAILED: u8 = 1;

const MISUSED: u8 = 2;

fn main(rt: HostRuntime) -> ExitCode {
    ExitCode::from(start(&rt))
}

// The words after the program's name.
fn words_of<R: Env + AllocGlobal>(rt: &R) -> IoResult<Vec<String>> {
    Ok(env::args(rt)?.skip(1).collect(rt.alloc())?)
}

// Does what the words ask for.
fn start<R: Env + Print + Eprint + AllocGlobal + Threads + Sync>(rt: &R) -> u8 {
    let Ok(words) = words_of(rt) else {
        return FAILED;
    };
    match asked_by(&words) {
        Some(asked) => run_modes(rt, asked, words.get(6..).unwrap_or(&[])),
        None => misused(rt),
    }
}

// Says what words there are.
fn misused<R: Eprint>(rt: &R) -> u8 {
    let _ = rt.eprintln("timed_collection: wants WORDS REFS DATA LIVE SHAPE ROUNDS MODE...");
    MISUSED
}

// Runs the modes that these words name, until one is not done.
fn run_modes<R: Print + Eprint + AllocGlobal + Threads + Sync>(
    rt: &R,
    asked: Asked,
    names: &[String],
) -> u8 {
    for name in names {
        let Some(mode) = mode_of(name) else {
            return misused(rt);
        };
        if !run_mode(rt, asked, mode, name) {
            return FAILED;
        }
    }
    DONE
}

// What a mode left, and the sum of the words of the heap and of those into which it slid.
fn left_by<R: AllocGlobal + Threads + Sync>(
    rt: &R,
    asked: Asked,
    mode: Mode,
) -> Option<(Left, u64)> {
    let heap = made(rt.alloc(), asked).ok()?;
    let mut to = vec![in rt.alloc(); 1u64; asked.words as usize].ok()?;
    let left = run(rt, asked, mode, &heap, &mut to)?;
    Some((left, sum(sum(0, &heap.words), &to)))
}

// Runs a mode and prints what it left.
fn run_mode<R: Print + AllocGlobal + Threads + Sync>(
    rt: &R,
    asked: Asked,
    mode: Mode,
    name: &str,
) -> bool {
    let Some((left, sum)) = left_by(rt, asked, mode) else {
        return false;
    };
    let live = left.live;
    let root = left.root;
    println!(rt; "{name} live {live} root {root} sum {sum}").is_ok()
}

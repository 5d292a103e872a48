//! Runs in which each allocation can be made to fail, one at a time. A call that is refused memory names that cause,
//! has changed nothing except that it may have built a page, and is made again. So the output is the same, whichever
//! allocation fails.
#![tactic(auto)]

mod answered_calls;
mod answers;
mod cycling;
mod finishing;
mod flipped;
mod judging;
mod ledgers;
mod making;
mod mutator_runs;
mod replaying;
mod worked_runs;

use std::sync::Wait;
use std::thread::Threads;

fn main(rt: HostRuntime) {
    run_all(&rt);
}

// Prints how a run went.
fn report<R: Print>(rt: &R, name: &str, well: bool) {
    let _ = match well {
        true => println!(rt; "{name}: as it has to be"),
        false => println!(rt; "{name}: NOT as it has to be"),
    };
}

// Makes all runs. The exit status says nothing about them: the tool that lets an allocation fail looks for another text
// with the same status.
fn run_all<R: Print + AllocGlobal + Threads + Wait + Sync>(rt: &R) {
    let alloc = rt.alloc();
    for run in worked_runs::all() {
        report(rt, run.name, mutator_runs::is_played(rt, alloc, run));
    }
    report(rt, "a ledger", ledgers::is_kept(rt, alloc));
    report(rt, "a replay", replaying::is_replayed(rt, alloc));
    report(rt, "two cycles", cycling::are_cycled(rt, alloc));
}

//! Texts that are to be run, the flipped heaps for them, and their traces.
ghost use Rattle.std.specs.Prelude.{◌≡◌, length};
ghost use Rattle.comp_mutator.specs.Mutators.{setup_of};
ghost use Rattle.comp_trace.specs.WrittenEntries.{DidNothingYet};
ghost use Rattle.comp_trace.specs.AllMutators.{AreAll};
ghost use Rattle.comp_trace.specs.TraceLines.{IsParsedFor};

use comp_mutator::{Builder, Mutator, Space, flip};
use comp_trace::{Trace, parse};
use std::alloc::Global;
use std::process::Abort;
use std::sync::Arc;
use std::sync::ledger::{Blank, Ledger};

/// A text that is run on a flipped heap by `mutators` mutators and with `fresh` fresh pages. A failing test prints its
/// name.
#[derive(Clone, Copy)]
pub struct TextRun<'a> {
    pub name: &'a str,
    pub mutators: u8,
    pub fresh_pages: u32,
    pub text: &'a [u8],
}

/// A flipped heap and all its mutators.
pub fn flipped<L: Ledger, B: Builder>(
    rt: &impl Abort,
    alloc: Global,
    blank: Blank,
    builder: B,
    case: TextRun,
) -> (Space<L, B>, Vec<Mutator<L>>)
    requires name { blank.name ≡ L.name }
    requires parts { blank.parts ≡ L.parts }
    requires count { blank.parts ≡ case.mutators }
    ensures all { AreAll result.0 result.1.items }
    ensures new { DidNothingYet result.1.items }
    ensures whole { (setup_of result.0).mutators ≡ case.entry.mutators }
    ensures fresh { (setup_of result.0).fresh ≡ case.entry.fresh_pages }
{
    let builder = Arc::new(alloc, builder).expect(rt, case.name);
    match flip(alloc, blank, builder, case.mutators, case.fresh_pages) {
        Ok((space, mutators)) => (space, mutators),
        Err(_) => rt.panic(case.name),
    }
}

/// The number of roots of the heap.
pub fn root_count<L: Ledger, B: Builder>(rt: &impl Abort, space: &Space<L, B>) -> u32
    ensures { result ≡ length (setup_of space.now).heap.roots }
{
    let all = space.roots();
    let count = all.len();
    assert!(rt; count <= 1_048_576);
    count as u32
}

/// The trace of a text, read for the roots and the mutators of this space.
pub fn read_for<L: Ledger, B: Builder>(
    rt: &impl Abort,
    alloc: Global,
    space: &Space<L, B>,
    case: TextRun,
) -> Trace
    requires { case.mutators ≡ (setup_of space.now).mutators }
    ensures { IsParsedFor (setup_of space.now) result }
{
    let roots = root_count(rt, space);
    parse(alloc, case.text, case.mutators, roots).expect(rt, case.name)
}

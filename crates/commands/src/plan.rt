//! The command `plan`.
ghost use Rattle.std.specs.Prelude.{◌≡◌, ◌++◌, ◌-◌, ◌^◌, ◌<◌, OnOk, OnErr, Err};
ghost use Rattle.std.specs.Io.KnownBytes.{Appends};
ghost use Rattle.heap_layout.specs.Counted.{inner_of, failures_of, writer_of};
ghost use Rattle.heap_layout.specs.Heap.{live};
ghost use Rattle.heap_layout.specs.Writing.{AppendsSome};
ghost use Rattle.command_io.specs.Images.{SomeHeapAt};
ghost use Rattle.command_io.specs.Printing.{CountsPrint};
ghost use Rattle.commands.specs.TaskAnswers.{IsAnswered, IsComing};
ghost use Rattle.commands.specs.Inputs.{RefusesHeapAt};
ghost use Rattle.commands.specs.HeapTasks.{count_lines, page_lines, root_lines, IsPlanned};

use crate::answers::Answer;
use command_io::{CommandRefusal, Files, heap_at, print_line, print_numbered};
use heap_layout::{Counted, MarkedHeap};
use page_plan::Plan;
use std::alloc::Global;
use std::io::Write;
use std::thread::Threads;

/// The plan of the heap whose image is at a path, of edition three or four only if `large`: a line each for the live
/// words, the pages, the first object of each page, and the address of each root after the flip.
pub fn plan_at<F: Files>(
    alloc: Global,
    rt: &(impl Threads + Sync),
    files: &mut F,
    image: &str,
    large: bool,
) -> Result<Answer, CommandRefusal>
    ensures { IsAnswered (F.disk files.old) files.old files.new (λ outcome. SomeHeapAt (F.disk files.old) large image.now (λ heap. IsPlanned heap outcome)) (RefusesHeapAt (F.disk files.old) large image.now) result }
{
    let heap = heap_at(alloc, files, image, large)?;
    planned(alloc, rt, heap)
}

// The plan of a heap.
fn planned(
    alloc: Global,
    rt: &(impl Threads + Sync),
    heap: MarkedHeap,
) -> Result<Answer, CommandRefusal>
    ensures { IsComing (IsPlanned heap) result }
{
    let plan = Plan::new(alloc, rt, heap)?;
    let roots = plan.forward_roots(alloc)?;
    Ok(Answer::Planned(plan, roots))
}

/// Prints all lines of a plan, with these roots after the flip.
pub fn print_plan<O: Write>(
    plan: &Plan,
    roots: &[u64],
    out: &mut Counted<&mut O>,
) -> Result<(), CommandRefusal>
    requires { failures_of out.old < 2 ^ 64 - 1 }
    ensures printed { OnOk result (Appends (O.contents (inner_of out.old).now) (O.contents (inner_of out.new).now) (count_lines (live plan.now) ++ page_lines (live plan.now) ++ root_lines roots.now)) }
    ensures begun { OnErr result (AppendsSome (O.contents (inner_of out.old).now) (O.contents (inner_of out.new).now) (count_lines (live plan.now) ++ page_lines (live plan.now) ++ root_lines roots.now)) }
    ensures cause { OnErr result (result ≡ Err CommandRefusal.CannotPrint) }
    ensures counts { CountsPrint (failures_of out.old) (failures_of out.new) result }
    ensures same_writer { writer_of out.new ≡ writer_of out.old }
{
    print_counts(plan, out)?;
    print_pages(plan, out)?;
    print_roots(roots, out)
}

// Prints the live words and the number of pages.
fn print_counts<O: Write>(plan: &Plan, out: &mut Counted<&mut O>) -> Result<(), CommandRefusal>
    requires { failures_of out.old < 2 ^ 64 - 1 }
    ensures printed { OnOk result (Appends (O.contents (inner_of out.old).now) (O.contents (inner_of out.new).now) (count_lines (live plan.now))) }
    ensures begun { OnErr result (AppendsSome (O.contents (inner_of out.old).now) (O.contents (inner_of out.new).now) (count_lines (live plan.now))) }
    ensures cause { OnErr result (result ≡ Err CommandRefusal.CannotPrint) }
    ensures counts { CountsPrint (failures_of out.old) (failures_of out.new) result }
    ensures same_writer { writer_of out.new ≡ writer_of out.old }
{
    print_line("live ", plan.live_words(), out)?;
    print_line("pages ", plan.pages(), out)
}

// Prints the first object of each page.
fn print_pages<O: Write>(plan: &Plan, out: &mut Counted<&mut O>) -> Result<(), CommandRefusal>
    requires { failures_of out.old < 2 ^ 64 - 1 }
    ensures printed { OnOk result (Appends (O.contents (inner_of out.old).now) (O.contents (inner_of out.new).now) (page_lines (live plan.now))) }
    ensures begun { OnErr result (AppendsSome (O.contents (inner_of out.old).now) (O.contents (inner_of out.new).now) (page_lines (live plan.now))) }
    ensures cause { OnErr result (result ≡ Err CommandRefusal.CannotPrint) }
    ensures counts { CountsPrint (failures_of out.old) (failures_of out.new) result }
    ensures same_writer { writer_of out.new ≡ writer_of out.old }
{
    for p in 0..plan.pages() {
        let first = plan.first_object(p).unwrap_or(0);
        print_numbered("page ", p, " first ", first, out)?;
    }
    Ok(())
}

// Prints each root after the flip.
fn print_roots<O: Write>(roots: &[u64], out: &mut Counted<&mut O>) -> Result<(), CommandRefusal>
    requires { failures_of out.old < 2 ^ 64 - 1 }
    ensures printed { OnOk result (Appends (O.contents (inner_of out.old).now) (O.contents (inner_of out.new).now) (root_lines roots.now)) }
    ensures begun { OnErr result (AppendsSome (O.contents (inner_of out.old).now) (O.contents (inner_of out.new).now) (root_lines roots.now)) }
    ensures cause { OnErr result (result ≡ Err CommandRefusal.CannotPrint) }
    ensures counts { CountsPrint (failures_of out.old) (failures_of out.new) result }
    ensures same_writer { writer_of out.new ≡ writer_of out.old }
{
    for (number, address) in roots.iter().enumerate() {
        print_numbered("root ", number as u64, " ", *address, out)?;
    }
    Ok(())
}

//! Delivers what a task comes to: a file is made of it, and kept; then its lines are printed.
ghost use Rattle.std.specs.Prelude.{◌≡◌, ◌-◌, ◌^◌, ◌<◌, ℕ, List, true, Some, IfErr, OnOk, OnErr, Err};
ghost use Rattle.std.specs.Io.KnownBytes.{Appends};
ghost use Rattle.heap_layout.specs.Counted.{inner_of, failures_of, is_flushed_of, writer_of};
ghost use Rattle.heap_layout.specs.Writing.{AppendsSome};
ghost use Rattle.command_io.specs.Printing.{CountsPrint, LeavesFlushed};
ghost use Rattle.command_io.specs.declared.refusal.CommandRefusal.TheVariants as refusals;
ghost use Rattle.commands.specs.TaskAnswers.{outcome_of, IsLawful};
ghost use Rattle.commands.specs.UnkeptFiles.{IsUnkept};
ghost use Rattle.commands.specs.Outcome.{IsDelivered, IsKept, IsUndelivered};

use crate::answers::Answer;
use crate::live::live_words;
use crate::moved::print_moves;
use crate::plan::print_plan;
use crate::shown::{print_run, print_shown};
use command_io::{
    CommandRefusal, Files, Made, flush, print_help, print_line, print_text, write_to,
};
use command_line::VERSION_LINE;
use comp_audit::Dump;
use heap_layout::Counted;
use std::alloc::Global;
use std::io::Write;

/// Makes the file of an answer, and keeps it at a path; then prints its lines, and flushes the output. If the answer is
/// a refusal, that is the answer then. Requires an answer whose counts are those of its heap's flip. Fewer than
/// `u64::MAX` calls of the output must have failed before.
pub fn deliver<F: Files, O: Write>(
    alloc: Global,
    files: &mut F,
    path: &str,
    answer: &Answer,
    out: &mut Counted<&mut O>,
) -> Result<(), CommandRefusal>
    requires lawful { IsLawful answer.now }
    requires written { failures_of out.old < 2 ^ 64 - 1 }
    ensures done { OnOk result (IsDelivered (F.disk files.old) path.now (outcome_of answer.now) files.old files.new (O.contents (inner_of out.old).now) (O.contents (inner_of out.new).now)) }
    ensures cause { IfErr result (IsUndelivered (F.disk files.old) path.now (outcome_of answer.now) files.old files.new (failures_of out.old) (failures_of out.new) (O.contents (inner_of out.old).now) (O.contents (inner_of out.new).now)) }
    ensures counts { OnOk result (failures_of out.new ≡ failures_of out.old) }
    ensures flushed { OnOk result (is_flushed_of out.new ≡ true) }
    ensures sent { IfErr result (LeavesFlushed (is_flushed_of out.old) (is_flushed_of out.new)) }
    ensures same_writer { writer_of out.new ≡ writer_of out.old }
{
    make_file(alloc, files, path, answer)?;
    print_answer(answer, out)?;
    flush(out)?;
    match answer.refusal() {
        Some(refusal) => Err(refusal),
        None => Ok(()),
    }
}

// Makes the file of an answer, if it has one, and keeps it at a path.
fn make_file<F: Files>(
    alloc: Global,
    files: &mut F,
    path: &str,
    answer: &Answer,
) -> Result<(), CommandRefusal>
    requires { IsLawful answer.now }
    ensures kept { OnOk result (IsKept (F.disk files.old) path.now (outcome_of answer.now).made files.old files.new) }
    ensures cause { IfErr result (IsUnkept (F.disk files.old) path.now (outcome_of answer.now).made files.old files.new) }
{
    match answer {
        Answer::Ran(left) => {
            let dump = Dump::of(alloc, &left.finished, left.mutators, left.fresh)?;
            write_to(files, path, &Made::Dump(&dump))
        }
        Answer::Followed(_, heap) => write_to(files, path, &Made::Image(heap)),
        Answer::Drawn(picture, _) => write_to(files, path, &Made::Picture(picture.as_str())),
        Answer::Planned(_, _)
        | Answer::Word(_)
        | Answer::Passed(_)
        | Answer::Explained(_, _)
        | Answer::Moved(_)
        | Answer::Halted(_, _)
        | Answer::Help(_)
        | Answer::Version => Ok(()),
    }
}

// Prints the lines of an answer.
fn print_answer<O: Write>(answer: &Answer, out: &mut Counted<&mut O>) -> Result<(), CommandRefusal>
    requires { failures_of out.old < 2 ^ 64 - 1 }
    ensures printed { OnOk result (Appends (O.contents (inner_of out.old).now) (O.contents (inner_of out.new).now) (outcome_of answer.now).text) }
    ensures begun { OnErr result (AppendsSome (O.contents (inner_of out.old).now) (O.contents (inner_of out.new).now) (outcome_of answer.now).text) }
    ensures cause { OnErr result (result ≡ Err refusals.CannotPrint) }
    ensures counts { CountsPrint (failures_of out.old) (failures_of out.new) result }
    ensures same_writer { writer_of out.new ≡ writer_of out.old }
{
    match answer {
        Answer::Planned(plan, roots) => print_plan(plan, roots, out),
        Answer::Word(word) => print_line("", *word, out),
        Answer::Ran(left) => print_run(&left.shown, left.finished.live_words(), out),
        Answer::Followed(shown, heap) => print_run(shown, live_words(heap), out),
        Answer::Drawn(_, words) => print_line("live ", *words, out),
        Answer::Passed(words) => print_line("ok ", *words, out),
        Answer::Explained(text, _) => print_text(text, out),
        Answer::Moved(moves) => print_moves(moves, out),
        Answer::Halted(shown, _) => print_shown(shown, out),
        Answer::Help(text) => print_help(text, out),
        Answer::Version => print_text(VERSION_LINE, out),
    }
}

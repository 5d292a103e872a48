//! What is said by `audit --explain`: how much the dump has, and what is wrong where, or that nothing is.
ghost use Rattle.std.specs.Prelude.{true, IfOk, Some};
ghost use Rattle.commands.specs.TaskAnswers.{IsComing};
ghost use Rattle.commands.specs.HeapTasks.{IsAudited};
ghost use Rattle.commands.specs.Compared.{compared_lines, found_lines, IsFound};

use crate::answers::Answer;
use crate::audit::verdict_by;
use command_io::CommandRefusal;
use comp_audit::{AuditFault, Dump, DumpCounts, Explanation, Verdict, count, explain};
use heap_layout::OutOfMemory;
use page_plan::Plan;
use std::alloc::Global;
use std::fmt::{self, Display, Formatter};

/// How much a dump has, and what its audit found.
#[derive(Drop)]
pub struct Compared {
    pub counts: DumpCounts,
    pub found: Found,
}

/// What an audit found: the live words of a dump that passes, or its first fault, and what is said of it.
#[derive(Drop)]
pub enum Found {
    Passed(u64),
    Failed(AuditFault, Explanation),
}

impl Display for Found {
    ghost output = { λ found. Some (found_lines found) };

    fn fmt<W: fmt::Write>(&self, f: &mut Formatter<W>) -> fmt::Result {
        match self {
            Found::Passed(words) => writeln!(f, "ok {words}"),
            Found::Failed(_, explanation) => writeln!(f, "{explanation}"),
        }
    }
}

impl Display for Compared {
    ghost output = { λ compared. Some (compared_lines compared) };

    fn fmt<W: fmt::Write>(&self, f: &mut Formatter<W>) -> fmt::Result {
        write!(f, "{}\n{}", self.counts, self.found)
    }
}

/// What an audit of the dump finds, and what is said of it.
pub(crate) fn explained(
    alloc: Global,
    plan: &Plan,
    dump: &Dump<'_>,
    whole: bool,
) -> Result<Answer, CommandRefusal>
    ensures { IsComing (IsAudited whole true plan.now dump.now) result }
{
    let found = found_by(alloc, plan, dump, whole)?;
    let compared = Compared {
        counts: count(dump),
        found,
    };
    let text = format!(in alloc; "{compared}")?;
    match compared.found {
        Found::Passed(_) => Ok(Answer::Explained(text, None)),
        Found::Failed(fault, _) => Ok(Answer::Explained(text, Some(fault))),
    }
}

// What the audit of a dump finds. Err if out of memory.
fn found_by(alloc: Global, plan: &Plan, dump: &Dump<'_>, whole: bool) -> Result<Found, OutOfMemory>
    ensures { IfOk result (IsFound whole plan.now dump.now) }
{
    match verdict_by(alloc, plan, dump, whole)? {
        Verdict::Yes => Ok(Found::Passed(dump.live_words())),
        Verdict::No(fault) => Ok(Found::Failed(fault, explain(alloc, plan, dump, fault)?)),
    }
}

//! What a task comes to, before a file is made of it and its lines are printed.
ghost use Rattle.std.specs.Prelude.{◌≡◌};
ghost use Rattle.commands.specs.TaskAnswers.{halted_outcome, outcome_of, IsLawful};

use command_io::CommandRefusal;
use comp_audit::AuditFault;
use comp_mutator::{Finished, Refusal};
use comp_trace::{Halt, Shown};
use heap_layout::MarkedHeap;
use moved_heaps::Moves;
use page_plan::Plan;
use std::alloc::Global;

/// What a task comes to. It has what a file is made of and what is printed, so neither is held twice.
#[derive(Drop)]
pub enum Answer {
    /// The plan of a heap, and its roots after the flip, are printed.
    Planned(Plan, Vec<u64>),
    /// A word is printed.
    Word(u64),
    /// A dump is made of what a run left.
    Ran(Left),
    /// A new image is made of a heap. These values are printed before its live words.
    Followed(Vec<Shown>, MarkedHeap),
    /// A picture was drawn, of a heap with so many live words.
    Drawn(String, u64),
    /// A dump with so many live words passes.
    Passed(u64),
    /// This is said of a dump, and this is its fault, if it has one.
    Explained(String, Option<AuditFault>),
    /// So much moved.
    Moved(Moves),
    /// A run was halted, after it had shown these values.
    Halted(Vec<Shown>, CommandRefusal),
    /// A text of help is printed.
    Help(String),
    /// The version of the program is printed.
    Version,
}

/// A finished heap over which lines were run, and what they showed.
#[derive(Drop)]
pub struct Left {
    /// The values that lines showed, in the order of the lines.
    pub shown: Vec<Shown>,
    pub finished: Finished,
    /// The numbers of mutators and of fresh pages of the flip.
    pub mutators: u8,
    pub fresh: u32,
}

impl Answer {
    /// Why the task is refused, once its lines are printed, if it is.
    pub fn refusal(&self) -> Option<CommandRefusal>
        ensures { result ≡ (outcome_of self.now).refusal }
    {
        match self {
            Answer::Halted(_, refusal) => Some(*refusal),
            Answer::Explained(_, Some(fault)) => Some(CommandRefusal::Audit(*fault)),
            Answer::Planned(_, _)
            | Answer::Word(_)
            | Answer::Ran(_)
            | Answer::Followed(_, _)
            | Answer::Drawn(_, _)
            | Answer::Passed(_)
            | Answer::Explained(_, None)
            | Answer::Moved(_)
            | Answer::Help(_)
            | Answer::Version => None,
        }
    }
}

/// What a halted run comes to. Only lines that were cut short come with values.
pub fn halted(alloc: Global, halt: Halt) -> Answer
    ensures outcome { outcome_of result ≡ halted_outcome halt }
    ensures lawful { IsLawful result }
{
    match halt {
        Halt::Unplanned => Answer::Halted(Vec::new(alloc), CommandRefusal::OutOfMemory),
        Halt::Cut(stopped) => Answer::Halted(stopped.shown, CommandRefusal::Trace(stopped.fault)),
        Halt::Unflipped | Halt::Unfinished(_) => Answer::Halted(
            Vec::new(alloc),
            CommandRefusal::Mutator(Refusal::OutOfMemory),
        ),
    }
}

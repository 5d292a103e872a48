ghost use Rattle.std.specs.Prelude.{◌≡◌, Some};
ghost use Rattle.command_io.specs.declared.refusal.CommandRefusal.TheVariants as refusal;

use comp_dump::{AuditFault, DumpFault};
use comp_sweep::SweepFault;
use comp_trace::TraceFault;
use heap_layout::LayoutFault;
use moved_heaps::MovedFault;
use std::alloc::AllocError;
use std::fmt;
use stopped_heap::SurveyFault;
use thiserror::Error;

/// A file that the program reads.
#[derive(Clone, Copy, Debug, PartialEq, Eq)]
pub enum Input {
    Image,
    Trace,
    Dump,
    Marks,
    Roots,
    Moved,
    /// The program's own file.
    Program,
}

impl fmt::Display for Input {
    ghost use Rattle.command_io.specs.Naming.{input_name};

    ghost output = { λ input. Some (input_name input) };

    fn fmt<W: fmt::Write>(&self, f: &mut fmt::Formatter<W>) -> fmt::Result {
        f.write_str(match self {
            Input::Image => "image",
            Input::Trace => "trace",
            Input::Dump => "dump",
            Input::Marks => "marks",
            Input::Roots => "roots",
            Input::Moved => "moved",
            Input::Program => "program",
        })
    }
}

/// A file that the program makes.
#[derive(Clone, Copy, Debug, PartialEq, Eq)]
pub enum Output {
    Dump,
    New,
    Map,
}

impl fmt::Display for Output {
    ghost use Rattle.command_io.specs.Naming.{output_name};

    ghost output = { λ output. Some (output_name output) };

    fn fmt<W: fmt::Write>(&self, f: &mut fmt::Formatter<W>) -> fmt::Result {
        f.write_str(match self {
            Output::Dump => "dump",
            Output::New => "new",
            Output::Map => "map",
        })
    }
}

/// Why the program did not do what it was asked.
#[derive(Clone, Copy, Debug, PartialEq, Eq, Error)]
pub enum CommandRefusal {
    /// The image is refused; or no next heap follows with the marks or the roots; or the new image was not written
    /// whole.
    #[error(transparent)]
    Layout(LayoutFault),
    /// A call of a mutator, the flip or the finish is refused. In every command the cause is out of memory.
    #[error(transparent)]
    Mutator(comp_access::Refusal),
    /// The heap was not swept.
    #[error(transparent)]
    Sweep(SweepFault),
    /// The text of the trace is refused, or one of its lines; or memory ran out for the text or for the values.
    #[error(transparent)]
    Trace(TraceFault),
    /// The dump was not written whole, or no dump, or no moved heap, could be read at its path.
    #[error(transparent)]
    Dump(DumpFault),
    /// No compaction of the heap can have left this dump.
    #[error(transparent)]
    Audit(AuditFault),
    /// No collection of the heap can have left this moved heap.
    #[error(transparent)]
    Moved(MovedFault),
    /// The heap is not collected: its words and roots have this fault.
    #[error(transparent)]
    Survey(SurveyFault),
    /// The file could not be opened.
    #[error("P1 CannotOpen({0})")]
    CannotOpen(Input),
    /// The file could not be created.
    #[error("P2 CannotCreate({0})")]
    CannotCreate(Output),
    /// A call of the file's reader returned an error.
    #[error("P3 ReadFailed({0})")]
    ReadFailed(Input),
    /// A call of standard output failed: it returned an error, or took no byte of what was to be written.
    #[error("P4 CannotPrint")]
    CannotPrint,
    /// The index is after the last page.
    #[error("P5 NoSuchWord({0})")]
    NoSuchWord(u64),
    /// The line with this number, counted from 1, is no mark.
    #[error("P6 BadMarks({0})")]
    BadMarks(u64),
    /// An allocation failed.
    #[error("P7 OutOfMemory")]
    OutOfMemory,
    /// The line with this number, counted from 1, is no root.
    #[error("P8 BadRoots({0})")]
    BadRoots(u64),
    /// A call of the writer of this file, a picture, failed: it returned an error (an interrupted call too), or took no
    /// byte of what was to be written.
    #[error("P9 CannotWrite({0})")]
    CannotWrite(Output),
}

impl From<LayoutFault> for CommandRefusal {
    ghost from_gives = { λ fault given. given ≡ refusal.Layout fault };

    fn from(fault: LayoutFault) -> CommandRefusal {
        CommandRefusal::Layout(fault)
    }
}

impl From<comp_access::Refusal> for CommandRefusal {
    ghost from_gives = { λ refused given. given ≡ refusal.Mutator refused };

    fn from(refused: comp_access::Refusal) -> CommandRefusal {
        CommandRefusal::Mutator(refused)
    }
}

impl From<TraceFault> for CommandRefusal {
    ghost from_gives = { λ fault given. given ≡ refusal.Trace fault };

    fn from(fault: TraceFault) -> CommandRefusal {
        CommandRefusal::Trace(fault)
    }
}

impl From<DumpFault> for CommandRefusal {
    ghost from_gives = { λ fault given. given ≡ refusal.Dump fault };

    fn from(fault: DumpFault) -> CommandRefusal {
        CommandRefusal::Dump(fault)
    }
}

impl From<SurveyFault> for CommandRefusal {
    ghost from_gives = { λ fault given. given ≡ refusal.Survey fault };

    fn from(fault: SurveyFault) -> CommandRefusal {
        CommandRefusal::Survey(fault)
    }
}

impl From<heap_layout::OutOfMemory> for CommandRefusal {
    ghost from_gives = { λ _ given. given ≡ refusal.OutOfMemory };

    fn from(_fault: heap_layout::OutOfMemory) -> CommandRefusal {
        CommandRefusal::OutOfMemory
    }
}

impl From<AllocError> for CommandRefusal {
    ghost from_gives = { λ _ given. given ≡ refusal.OutOfMemory };

    fn from(_error: AllocError) -> CommandRefusal {
        CommandRefusal::OutOfMemory
    }
}

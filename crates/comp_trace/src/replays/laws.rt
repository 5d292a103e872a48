//! Laws about runs. Each is the contract of a function that does nothing.
ghost use Rattle.std.specs.Prelude.{List};
ghost use Rattle.comp_mutator.specs.Setup.{Setup};
ghost use Rattle.comp_trace.specs.Bytes.{ShowOnce};
ghost use Rattle.comp_trace.specs.LineCauses.{AreOfRuns};
ghost use Rattle.comp_trace.specs.Runs.{IsDetermined};
ghost use Rattle.comp_trace.specs.declared.text.line.Line.{Line};

/// The run of a trace by one thread is determined by the heap, the numbers of mutators and of fresh pages, the entries
/// at the start, and the lines. That is: the values shown, the words in registers, which mutator builds which page, and
/// the entries added, except for their stamps.
pub fn runs_are_determined()
    ensures { (u : Setup) (lines : List Line) → IsDetermined u lines }
{}

/// The values that a replay shows are determined by the bytes of the image and of the trace, and by the numbers of
/// mutators and of fresh pages.
pub fn replays_show_once()
    ensures { ShowOnce }
{
    heap_layout::images_differ();
}

/// A line that cuts a run short has the cause of its refusal in the run before it: the lines before it made an object
/// without the field, filled the journal of the line's page, or left that page unbuilt.
pub fn refusals_are_of_runs()
    ensures { AreOfRuns }
{}

//! The line of a refusal: which text it has, and how it is printed.
ghost use Rattle.std.specs.Prelude.{◌≡◌, ◌-◌, ◌^◌, ◌<◌, Err, OnErr, OnOk};
ghost use Rattle.std.specs.Io.KnownBytes.{Appends};
ghost use Rattle.heap_layout.specs.Counted.{inner_of, failures_of, writer_of};
ghost use Rattle.heap_layout.specs.Writing.{AppendsSome};
ghost use Rattle.command_io.specs.Naming.{input_name, output_name};
ghost use Rattle.command_io.specs.Printing.{CountsPrint};
ghost use Rattle.command_io.specs.Wording.{access_text, audit_text, call_text, dump_text, layout_text, moved_text, one_text, part_name, piece_text, pieces_text, refusal_line, refusal_text, some_text, survey_text, sweep_text, trace_text, two_text, word_text};

use crate::print::{print_digits, print_text};
use crate::refusal::{CommandRefusal, Input, Output};
use comp_access::Refusal;
use comp_dump::{AuditFault, DumpFault};
use comp_sweep::SweepFault;
use comp_trace::TraceFault;
use heap_layout::{Counted, LayoutFault};
use moved_heaps::{HeadPart, MovedFault};
use std::io::Write;
use stopped_heap::SurveyFault;

/// A piece of a text.
#[derive(Clone, Copy, Debug)]
pub enum Piece {
    Text(&'static str),
    /// A number, in decimal digits.
    Number(u64),
}

// The pieces of the longest text. A shorter one ends with empty ones.
type Pieces = [Piece; 8];

// No text.
const NONE: Piece = Piece::Text("");

// A name alone.
fn plain(name: &'static str) -> Pieces
    ensures { pieces_text result ≡ name.now }
{
    [Piece::Text(name), NONE, NONE, NONE, NONE, NONE, NONE, NONE]
}

// A name, and a word in brackets.
fn word(name: &'static str, inside: &'static str) -> Pieces
    ensures { pieces_text result ≡ word_text name.now inside.now }
{
    [
        Piece::Text(name),
        Piece::Text("("),
        Piece::Text(inside),
        Piece::Text(")"),
        NONE,
        NONE,
        NONE,
        NONE,
    ]
}

// A name, and a number in brackets.
fn one(name: &'static str, n: u64) -> Pieces
    ensures { pieces_text result ≡ one_text name.now n }
{
    [
        Piece::Text(name),
        Piece::Text("("),
        Piece::Number(n),
        Piece::Text(")"),
        NONE,
        NONE,
        NONE,
        NONE,
    ]
}

// A name, and two numbers in brackets.
fn two(name: &'static str, n: u64, m: u64) -> Pieces
    ensures { pieces_text result ≡ two_text name.now n m }
{
    [
        Piece::Text(name),
        Piece::Text("("),
        Piece::Number(n),
        Piece::Text(", "),
        Piece::Number(m),
        Piece::Text(")"),
        NONE,
        NONE,
    ]
}

// A name, and a number and a refused call in brackets.
fn call(name: &'static str, n: u64, refused: Refusal) -> Pieces
    ensures { pieces_text result ≡ call_text name.now n (access_text refused) }
{
    match access_parts(refused) {
        (inside, None) => [
            Piece::Text(name),
            Piece::Text("("),
            Piece::Number(n),
            Piece::Text(", "),
            Piece::Text(inside),
            Piece::Text(")"),
            NONE,
            NONE,
        ],
        (inside, Some(m)) => [
            Piece::Text(name),
            Piece::Text("("),
            Piece::Number(n),
            Piece::Text(", "),
            Piece::Text(inside),
            Piece::Text("("),
            Piece::Number(m),
            Piece::Text("))"),
        ],
    }
}

// What of the head of a moved heap is wrong.
fn part_name(part: HeadPart) -> &'static str
    ensures { result.now ≡ part_name part }
{
    match part {
        HeadPart::Edition => "Edition",
        HeadPart::Places => "Places",
        HeadPart::Roots => "Roots",
    }
}

// The name of a file that is read.
fn input_name(input: Input) -> &'static str
    ensures { result.now ≡ input_name input }
{
    match input {
        Input::Image => "image",
        Input::Trace => "trace",
        Input::Dump => "dump",
        Input::Marks => "marks",
        Input::Roots => "roots",
        Input::Moved => "moved",
        Input::Program => "program",
    }
}

// The name of a file that is made.
fn output_name(output: Output) -> &'static str
    ensures { result.now ≡ output_name output }
{
    match output {
        Output::Dump => "dump",
        Output::New => "new",
        Output::Map => "map",
    }
}

// A fault of an image or of its heap.
fn layout_pieces(fault: LayoutFault) -> Pieces
    ensures { pieces_text result ≡ layout_text fault }
{
    match fault {
        LayoutFault::TooLarge => plain("H1 TooLarge"),
        LayoutFault::ObjectPastEnd(n) => one("H2 ObjectPastEnd", n),
        LayoutFault::ObjectTooLong(n) => one("H3 ObjectTooLong", n),
        LayoutFault::MarkNotStart(n) => one("H4 MarkNotStart", n),
        LayoutFault::MarksNotRising(n) => one("H5 MarksNotRising", n),
        LayoutFault::BadRoot(n) => one("H6 BadRoot", n),
        LayoutFault::UnmarkedTarget(n) => one("H7 UnmarkedTarget", n),
        LayoutFault::Truncated => plain("H8 Truncated"),
        LayoutFault::TrailingBytes => plain("H9 TrailingBytes"),
        LayoutFault::BadMagic => plain("H10 BadMagic"),
        LayoutFault::OutOfMemory => plain("H11 OutOfMemory"),
        LayoutFault::Device => plain("H12 Device"),
        LayoutFault::BadWeak(n) => one("H13 BadWeak", n),
    }
}

// The name of a refused call, and its number, if it has one.
fn access_parts(refused: Refusal) -> (&'static str, Option<u64>)
    ensures { some_text result.0.now result.1 ≡ access_text refused }
{
    match refused {
        Refusal::Null => ("M1 Null", None),
        Refusal::NotAStart(n) => ("M2 NotAStart", Some(n)),
        Refusal::NoSuchField => ("M3 NoSuchField", None),
        Refusal::NotInEdition => ("M11 NotInEdition", None),
        Refusal::ObjectTooLarge => ("M4 ObjectTooLarge", None),
        Refusal::OutOfPages => ("M5 OutOfPages", None),
        Refusal::Busy(n) => ("M6 Busy", Some(n)),
        Refusal::JournalFull(n) => ("M7 JournalFull", Some(n)),
        Refusal::OutOfMemory => ("M8 OutOfMemory", None),
    }
}

// A fault of a call of a mutator.
fn access_pieces(refused: Refusal) -> Pieces
    ensures { pieces_text result ≡ access_text refused }
{
    match access_parts(refused) {
        (name, None) => plain(name),
        (name, Some(n)) => one(name, n),
    }
}

// A fault of a sweep.
fn sweep_pieces(fault: SweepFault) -> Pieces
    ensures { pieces_text result ≡ sweep_text fault }
{
    match fault {
        SweepFault::OutOfMemory(n) => one("W1 OutOfMemory", n),
        SweepFault::NoWorkers => plain("W2 NoWorkers"),
        SweepFault::Resources => plain("W3 Resources"),
    }
}

// A fault of a trace.
fn trace_pieces(fault: TraceFault) -> Pieces
    ensures { pieces_text result ≡ trace_text fault }
{
    match fault {
        TraceFault::BadLine(n) => one("T1 BadLine", n),
        TraceFault::NoSuchMutator(n) => one("T2 NoSuchMutator", n),
        TraceFault::NoSuchRegister(n) => one("T3 NoSuchRegister", n),
        TraceFault::NumberTooLarge(n) => one("T4 NumberTooLarge", n),
        TraceFault::NoSuchRoot(n) => one("T5 NoSuchRoot", n),
        TraceFault::Refused(n, refused) => call("T6 Refused", n, refused),
        TraceFault::OutOfMemory => plain("T7 OutOfMemory"),
    }
}

// A fault of what is read as a dump.
fn dump_pieces(fault: DumpFault) -> Pieces
    ensures { pieces_text result ≡ dump_text fault }
{
    match fault {
        DumpFault::Truncated => plain("B1 Truncated"),
        DumpFault::TrailingBytes => plain("B2 TrailingBytes"),
        DumpFault::BadMagic => plain("B3 BadMagic"),
        DumpFault::BadField => plain("B4 BadField"),
        DumpFault::OutOfMemory => plain("B5 OutOfMemory"),
        DumpFault::Device => plain("B6 Device"),
    }
}

// A fault of a dump, for its heap.
fn audit_pieces(fault: AuditFault) -> Pieces
    ensures { pieces_text result ≡ audit_text fault }
{
    match fault {
        AuditFault::WrongWord(n) => one("A1 WrongWord", n),
        AuditFault::LooseReference(n) => one("A2 LooseReference", n),
        AuditFault::BadEntry(n, m) => two("A3 BadEntry", n, m),
        AuditFault::StampRepeated(n) => one("A4 StampRepeated", n),
        AuditFault::StampMissing(n) => one("A5 StampMissing", n),
        AuditFault::WrongTotal => plain("A6 WrongTotal"),
        AuditFault::BuildUnclaimed(n) => one("A7 BuildUnclaimed", n),
        AuditFault::WrongHead => plain("A8 WrongHead"),
        AuditFault::PageMissing(n) => one("A9 PageMissing", n),
    }
}

// A fault of a moved heap.
fn moved_pieces(fault: MovedFault) -> Pieces
    ensures { pieces_text result ≡ moved_text fault }
{
    match fault {
        MovedFault::WrongHead(part) => word("V1 WrongHead", part_name(part)),
        MovedFault::PlaceOutside(n) => one("V2 PlaceOutside", n),
        MovedFault::Overlap(n, m) => two("V3 Overlap", n, m),
        MovedFault::WrongRoot(n) => one("V4 WrongRoot", n),
        MovedFault::WrongWord(n, m) => two("V5 WrongWord", n, m),
        MovedFault::OutOfMemory => plain("V6 OutOfMemory"),
    }
}

// A fault of a heap at rest.
fn survey_pieces(fault: SurveyFault) -> Pieces
    ensures { pieces_text result ≡ survey_text fault }
{
    match fault {
        SurveyFault::TooLarge => plain("S1 TooLarge"),
        SurveyFault::BadRoot(n) => one("S2 BadRoot", n),
        SurveyFault::BadReference(n) => one("S3 BadReference", n),
        SurveyFault::BadWeak(n) => one("S4 BadWeak", n),
        SurveyFault::ObjectTooLong(n) => one("S5 ObjectTooLong", n),
        SurveyFault::ObjectPastEnd(n) => one("S6 ObjectPastEnd", n),
        SurveyFault::Overlap(n) => one("S7 Overlap", n),
        SurveyFault::OutOfMemory => plain("S8 OutOfMemory"),
    }
}

// The text of a refusal.
fn refusal_pieces(refusal: CommandRefusal) -> Pieces
    ensures { pieces_text result ≡ refusal_text refusal }
{
    match refusal {
        CommandRefusal::Layout(fault) => layout_pieces(fault),
        CommandRefusal::Mutator(fault) => access_pieces(fault),
        CommandRefusal::Sweep(fault) => sweep_pieces(fault),
        CommandRefusal::Trace(fault) => trace_pieces(fault),
        CommandRefusal::Dump(fault) => dump_pieces(fault),
        CommandRefusal::Audit(fault) => audit_pieces(fault),
        CommandRefusal::Moved(fault) => moved_pieces(fault),
        CommandRefusal::Survey(fault) => survey_pieces(fault),
        CommandRefusal::CannotOpen(named) => word("P1 CannotOpen", input_name(named)),
        CommandRefusal::CannotCreate(named) => word("P2 CannotCreate", output_name(named)),
        CommandRefusal::ReadFailed(named) => word("P3 ReadFailed", input_name(named)),
        CommandRefusal::CannotPrint => plain("P4 CannotPrint"),
        CommandRefusal::NoSuchWord(n) => one("P5 NoSuchWord", n),
        CommandRefusal::BadMarks(n) => one("P6 BadMarks", n),
        CommandRefusal::OutOfMemory => plain("P7 OutOfMemory"),
        CommandRefusal::BadRoots(n) => one("P8 BadRoots", n),
        CommandRefusal::CannotWrite(named) => word("P9 CannotWrite", output_name(named)),
    }
}

// Prints a piece.
fn print_piece<O: Write>(piece: Piece, out: &mut Counted<&mut O>) -> Result<(), CommandRefusal>
    requires { failures_of out.old < 2 ^ 64 - 1 }
    ensures printed { OnOk result (Appends (O.contents (inner_of out.old).now) (O.contents (inner_of out.new).now) (piece_text piece)) }
    ensures begun { OnErr result (AppendsSome (O.contents (inner_of out.old).now) (O.contents (inner_of out.new).now) (piece_text piece)) }
    ensures cause { OnErr result (result ≡ Err CommandRefusal.CannotPrint) }
    ensures counts { CountsPrint (failures_of out.old) (failures_of out.new) result }
    ensures same_writer { writer_of out.new ≡ writer_of out.old }
{
    match piece {
        Piece::Text(text) => print_text(text, out),
        Piece::Number(n) => print_digits(n, out),
    }
}

// Prints pieces, one after another.
fn print_pieces<O: Write>(pieces: &[Piece], out: &mut Counted<&mut O>) -> Result<(), CommandRefusal>
    requires { failures_of out.old < 2 ^ 64 - 1 }
    ensures printed { OnOk result (Appends (O.contents (inner_of out.old).now) (O.contents (inner_of out.new).now) (pieces_text pieces.now)) }
    ensures begun { OnErr result (AppendsSome (O.contents (inner_of out.old).now) (O.contents (inner_of out.new).now) (pieces_text pieces.now)) }
    ensures cause { OnErr result (result ≡ Err CommandRefusal.CannotPrint) }
    ensures counts { CountsPrint (failures_of out.old) (failures_of out.new) result }
    ensures same_writer { writer_of out.new ≡ writer_of out.old }
{
    for piece in pieces {
        print_piece(*piece, out)?;
    }
    Ok(())
}

/// Prints the line of a refusal: `compressor: `, its text and a line feed.
pub fn print_refusal<O: Write>(
    refusal: CommandRefusal,
    out: &mut Counted<&mut O>,
) -> Result<(), CommandRefusal>
    requires { failures_of out.old < 2 ^ 64 - 1 }
    ensures printed { OnOk result (Appends (O.contents (inner_of out.old).now) (O.contents (inner_of out.new).now) (refusal_line refusal)) }
    ensures begun { OnErr result (AppendsSome (O.contents (inner_of out.old).now) (O.contents (inner_of out.new).now) (refusal_line refusal)) }
    ensures cause { OnErr result (result ≡ Err CommandRefusal.CannotPrint) }
    ensures counts { CountsPrint (failures_of out.old) (failures_of out.new) result }
    ensures same_writer { writer_of out.new ≡ writer_of out.old }
{
    print_text("compressor: ", out)?;
    print_pieces(&refusal_pieces(refusal), out)?;
    print_text("\n", out)
}

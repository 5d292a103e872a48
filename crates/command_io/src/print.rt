//! Prints to the program's output, and counts its calls that fail. Each function here requires that fewer than
//! `u64::MAX` calls have failed so far.
//!
//! All is printed in parts: std's `write!` promises nothing of an error, so a refused print could not be traced to a
//! call that failed. A part is not tried again after an error: what a refused print leaves is a beginning of its text.
ghost use Rattle.std.specs.Prelude.{◌≡◌, ◌-◌, ◌^◌, ◌<◌, true, OnOk, OnErr, Err};
ghost use Rattle.std.specs.Fmt.{decimal};
ghost use Rattle.std.specs.Io.KnownBytes.{Appends, Keeps};
ghost use Rattle.heap_layout.specs.Counted.{inner_of, failures_of, is_flushed_of, writer_of};
ghost use Rattle.heap_layout.specs.Writing.{AppendsSome};
ghost use Rattle.command_io.specs.Printing.{CountsPrint, help_lines, named, numbered};

use crate::refusal::CommandRefusal;
use heap_layout::Counted;
use itoa::Buffer;
use std::io::Write;

/// Prints bytes.
#[tactic(auto, using(crate::proofs::Begun::of_part))]
pub fn print_bytes<O: Write>(bytes: &[u8], out: &mut Counted<&mut O>) -> Result<(), CommandRefusal>
    requires { failures_of out.old < 2 ^ 64 - 1 }
    ensures printed { OnOk result (Appends (O.contents (inner_of out.old).now) (O.contents (inner_of out.new).now) bytes.now) }
    ensures begun { OnErr result (AppendsSome (O.contents (inner_of out.old).now) (O.contents (inner_of out.new).now) bytes.now) }
    ensures cause { OnErr result (result ≡ Err CommandRefusal.CannotPrint) }
    ensures counts { CountsPrint (failures_of out.old) (failures_of out.new) result }
    ensures same_writer { writer_of out.new ≡ writer_of out.old }
{
    out.write_part(bytes)
        .map_err(|_| CommandRefusal::CannotPrint)
}

/// Prints a text.
pub fn print_text<O: Write>(text: &str, out: &mut Counted<&mut O>) -> Result<(), CommandRefusal>
    requires { failures_of out.old < 2 ^ 64 - 1 }
    ensures printed { OnOk result (Appends (O.contents (inner_of out.old).now) (O.contents (inner_of out.new).now) text.now) }
    ensures begun { OnErr result (AppendsSome (O.contents (inner_of out.old).now) (O.contents (inner_of out.new).now) text.now) }
    ensures cause { OnErr result (result ≡ Err CommandRefusal.CannotPrint) }
    ensures counts { CountsPrint (failures_of out.old) (failures_of out.new) result }
    ensures same_writer { writer_of out.new ≡ writer_of out.old }
{
    print_bytes(text.as_bytes(), out)
}

/// Prints the decimal digits of a number.
pub fn print_digits<O: Write>(number: u64, out: &mut Counted<&mut O>) -> Result<(), CommandRefusal>
    requires { failures_of out.old < 2 ^ 64 - 1 }
    ensures printed { OnOk result (Appends (O.contents (inner_of out.old).now) (O.contents (inner_of out.new).now) (decimal number)) }
    ensures begun { OnErr result (AppendsSome (O.contents (inner_of out.old).now) (O.contents (inner_of out.new).now) (decimal number)) }
    ensures cause { OnErr result (result ≡ Err CommandRefusal.CannotPrint) }
    ensures counts { CountsPrint (failures_of out.old) (failures_of out.new) result }
    ensures same_writer { writer_of out.new ≡ writer_of out.old }
{
    let mut digits = Buffer::new();
    print_text(digits.format(number), out)
}

/// Prints a name, a number and a line feed.
pub fn print_line<O: Write>(
    name: &str,
    number: u64,
    out: &mut Counted<&mut O>,
) -> Result<(), CommandRefusal>
    requires { failures_of out.old < 2 ^ 64 - 1 }
    ensures printed { OnOk result (Appends (O.contents (inner_of out.old).now) (O.contents (inner_of out.new).now) (named name.now number)) }
    ensures begun { OnErr result (AppendsSome (O.contents (inner_of out.old).now) (O.contents (inner_of out.new).now) (named name.now number)) }
    ensures cause { OnErr result (result ≡ Err CommandRefusal.CannotPrint) }
    ensures counts { CountsPrint (failures_of out.old) (failures_of out.new) result }
    ensures same_writer { writer_of out.new ≡ writer_of out.old }
{
    print_text(name, out)?;
    print_digits(number, out)?;
    print_text("\n", out)
}

/// Prints a name and a number, then a second name, a second number and a line feed.
pub fn print_numbered<O: Write>(
    name: &str,
    number: u64,
    second: &str,
    value: u64,
    out: &mut Counted<&mut O>,
) -> Result<(), CommandRefusal>
    requires { failures_of out.old < 2 ^ 64 - 1 }
    ensures printed { OnOk result (Appends (O.contents (inner_of out.old).now) (O.contents (inner_of out.new).now)
        (numbered name.now number second.now value)) }
    ensures begun { OnErr result (AppendsSome (O.contents (inner_of out.old).now) (O.contents (inner_of out.new).now)
        (numbered name.now number second.now value)) }
    ensures cause { OnErr result (result ≡ Err CommandRefusal.CannotPrint) }
    ensures counts { CountsPrint (failures_of out.old) (failures_of out.new) result }
    ensures same_writer { writer_of out.new ≡ writer_of out.old }
{
    print_text(name, out)?;
    print_digits(number, out)?;
    print_line(second, value, out)
}

/// Prints a text of help: the text without white space at its end, and a line feed.
pub fn print_help<O: Write>(text: &str, out: &mut Counted<&mut O>) -> Result<(), CommandRefusal>
    requires { failures_of out.old < 2 ^ 64 - 1 }
    ensures printed { OnOk result (Appends (O.contents (inner_of out.old).now) (O.contents (inner_of out.new).now) (help_lines text.now)) }
    ensures begun { OnErr result (AppendsSome (O.contents (inner_of out.old).now) (O.contents (inner_of out.new).now) (help_lines text.now)) }
    ensures cause { OnErr result (result ≡ Err CommandRefusal.CannotPrint) }
    ensures counts { CountsPrint (failures_of out.old) (failures_of out.new) result }
    ensures same_writer { writer_of out.new ≡ writer_of out.old }
{
    print_text(text.trim_end(), out)?;
    print_text("\n", out)
}

/// Flushes the output.
pub fn flush<O: Write>(out: &mut Counted<&mut O>) -> Result<(), CommandRefusal>
    requires { failures_of out.old < 2 ^ 64 - 1 }
    ensures kept { Keeps (O.contents (inner_of out.old).now) (O.contents (inner_of out.new).now) }
    ensures flushed { OnOk result (is_flushed_of out.new ≡ true) }
    ensures cause { OnErr result (result ≡ Err CommandRefusal.CannotPrint) }
    ensures counts { CountsPrint (failures_of out.old) (failures_of out.new) result }
    ensures same_writer { writer_of out.new ≡ writer_of out.old }
{
    out.flush_all().map_err(|_| CommandRefusal::CannotPrint)
}

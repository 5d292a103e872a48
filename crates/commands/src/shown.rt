//! Prints the values that the lines of a trace showed, and the line of live words after them.
ghost use Rattle.std.specs.Prelude.{◌≡◌, ◌-◌, ◌^◌, ◌<◌, drop, OnOk, OnErr, Err};
ghost use Rattle.std.specs.Io.KnownBytes.{Appends};
ghost use Rattle.heap_layout.specs.Counted.{inner_of, failures_of, writer_of};
ghost use Rattle.heap_layout.specs.Writing.{AppendsSome};
ghost use Rattle.commands.specs.TraceTasks.{run_lines, shown_line, shown_lines};
ghost use Rattle.command_io.specs.Printing.{CountsPrint};

use command_io::{CommandRefusal, print_bytes, print_line};
use comp_trace::Shown;
use heap_layout::Counted;
use itoa::write_digits;
use std::io::Write;

// The greatest length of the line of a shown value: two numbers of twenty digits, the space between them, and the line
// feed.
const LONGEST: usize = 42;

/// Prints what a run showed, and then the live words of the heap that it left.
pub fn print_run<O: Write>(
    shown: &[Shown],
    live: u64,
    out: &mut Counted<&mut O>,
) -> Result<(), CommandRefusal>
    requires { failures_of out.old < 2 ^ 64 - 1 }
    ensures printed { OnOk result (Appends (O.contents (inner_of out.old).now) (O.contents (inner_of out.new).now) (run_lines shown.now live)) }
    ensures begun { OnErr result (AppendsSome (O.contents (inner_of out.old).now) (O.contents (inner_of out.new).now) (run_lines shown.now live)) }
    ensures cause { OnErr result (result ≡ Err CommandRefusal.CannotPrint) }
    ensures counts { CountsPrint (failures_of out.old) (failures_of out.new) result }
    ensures same_writer { writer_of out.new ≡ writer_of out.old }
{
    print_shown(shown, out)?;
    print_line("live ", live, out)
}

/// Prints shown values, a line each: the number of the line that showed it, and the value.
pub fn print_shown<O: Write>(
    shown: &[Shown],
    out: &mut Counted<&mut O>,
) -> Result<(), CommandRefusal>
    requires { failures_of out.old < 2 ^ 64 - 1 }
    ensures printed { OnOk result (Appends (O.contents (inner_of out.old).now) (O.contents (inner_of out.new).now) (shown_lines shown.now)) }
    ensures begun { OnErr result (AppendsSome (O.contents (inner_of out.old).now) (O.contents (inner_of out.new).now) (shown_lines shown.now)) }
    ensures cause { OnErr result (result ≡ Err CommandRefusal.CannotPrint) }
    ensures counts { CountsPrint (failures_of out.old) (failures_of out.new) result }
    ensures same_writer { writer_of out.new ≡ writer_of out.old }
{
    for value in shown {
        print_value(*value, out)?;
    }
    Ok(())
}

// Prints a shown value, with one call of the writer.
fn print_value<O: Write>(shown: Shown, out: &mut Counted<&mut O>) -> Result<(), CommandRefusal>
    requires { failures_of out.old < 2 ^ 64 - 1 }
    ensures printed { OnOk result (Appends (O.contents (inner_of out.old).now) (O.contents (inner_of out.new).now) (shown_line shown)) }
    ensures begun { OnErr result (AppendsSome (O.contents (inner_of out.old).now) (O.contents (inner_of out.new).now) (shown_line shown)) }
    ensures cause { OnErr result (result ≡ Err CommandRefusal.CannotPrint) }
    ensures counts { CountsPrint (failures_of out.old) (failures_of out.new) result }
    ensures same_writer { writer_of out.new ≡ writer_of out.old }
{
    let mut room = [0; LONGEST];
    let start = fill_line(shown, &mut room);
    print_bytes(&room[start..], out)
}

// Writes the line of a shown value at the end of a buffer for the longest one, and answers where it begins.
fn fill_line(shown: Shown, room: &mut [u8; LONGEST]) -> usize
    ensures within { result < 42 }
    ensures filled { drop result room.new ≡ shown_line shown }
{
    room[LONGEST - 1] = b'\n';
    let value = write_digits(shown.value, room, LONGEST - 1);
    room[value - 1] = b' ';
    write_digits(shown.line, room, value - 1)
}

//! How a run begins: the words that the machine gives, and what is printed if it cannot begin.
ghost use Rattle.std.specs.Prelude.{◌≡◌, ◌≢◌, ◌-◌, ◌^◌, ◌<◌};
ghost use Rattle.heap_layout.specs.Counted.{inner_of, failures_of};
ghost use Rattle.command_io.specs.declared.refusal.CommandRefusal.TheVariants as refusals;
ghost use Rattle.commands.specs.Tasks.{Says};
ghost use Rattle.std.specs.declared.io.ErrorKind.TheVariants as kinds;

use crate::running::{MISUSED, REFUSED, say};
use command_io::{CommandRefusal, flush, print_text};
use heap_layout::Counted;
use std::env;
use std::io::{ErrorKind, Result as IoResult, Write};
use std::rt::Env;

// What is printed if a word is not UTF-8.
const NO_TEXT: &str = "error: invalid UTF-8 was detected in one or more arguments\n";

/// The words after the program's name. If memory runs out, the error is of that kind. The kit's source has one other
/// kind, `InvalidData`, for a word that is not UTF-8; its contract names none.
pub fn fetch_words<R: Env + AllocGlobal>(rt: &R) -> IoResult<Vec<String>> {
    Ok(env::args(rt)?.skip(1).collect(rt.alloc())?)
}

/// Prints on `err` why a run could not begin, by the kind of the error, and answers the status. Out of memory is a
/// refusal, whose line is printed; any other kind is that of a word that is not UTF-8. If a call of `err` fails, a
/// beginning was printed, and the call is counted. Fewer than `u64::MAX` calls of it must have failed before.
pub fn report_unstarted<E: Write>(kind: ErrorKind, err: &mut Counted<&mut E>) -> u8
    requires written { failures_of err.old < 2 ^ 64 - 1 }
    ensures refused { kind ≡ kinds.OutOfMemory → result ≡ 1 }
    ensures said { kind ≡ kinds.OutOfMemory → Says (failures_of err.old) (failures_of err.new) (E.contents (inner_of err.old).now) (E.contents (inner_of err.new).now) refusals.OutOfMemory }
    ensures misused { kind ≢ kinds.OutOfMemory → result ≡ 2 }
{
    if kind == ErrorKind::OutOfMemory {
        say(CommandRefusal::OutOfMemory, err);
        return REFUSED;
    }
    if let Ok(()) = print_text(NO_TEXT, err) {
        let _ = flush(err);
    }
    MISUSED
}

//! The long version: what the program's own file says of what it was made of and proved by.
ghost use Rattle.std.specs.Prelude.{◌≡◌, ◌≢◌, ℕ, List, ◌++◌, IfOk, MatchOption};
ghost use Rattle.std.specs.String.{string_bytes};
ghost use Rattle.command_io.specs.Disk.{RefusesFile};
ghost use Rattle.command_io.specs.Texts.{RefusesProgram, SomeProgramAt};
ghost use Rattle.command_io.specs.declared.refusal.Input.TheVariants as inputs;
ghost use Rattle.commands.specs.LongVersion.{program_path, trailer, trailer_head, IsSaid, IsTold};
ghost use Rattle.commands.specs.TaskAnswers.{IsAnswered, IsComing};

use crate::answers::Answer;
use command_io::{CommandRefusal, Files, program_at};
use command_line::VERSION_LINE;
use std::alloc::{AllocError, Global};
use std::str;

// Where the system has the program's own file.
const PROGRAM: &str = "/proc/self/exe";

// The first line of a trailer.
const HEAD: &[u8] = b"compressor: made of and proved by\n";

// What is said if there is no trailer.
const UNPACKED: &str = "not packed: nothing here says what it was proved by";

// How many bytes a trailer has.
const TRAILER: usize = 1024;

/// The version's line, and what the program's file says behind it. It is refused if the file is not read whole.
pub fn long_version<F: Files>(alloc: Global, files: &mut F) -> Result<Answer, CommandRefusal>
    ensures { IsAnswered (F.disk files.old) files.old files.new (λ outcome. SomeProgramAt (F.disk files.old) program_path (λ bytes. IsSaid bytes outcome)) (RefusesFile (F.disk files.old) inputs.Program program_path RefusesProgram) result }
{
    let bytes = program_at(alloc, files, PROGRAM)?;
    said_by(alloc, &bytes)
}

// The version's line, and what the bytes of the program's file say.
fn said_by(alloc: Global, bytes: &[u8]) -> Result<Answer, CommandRefusal>
    ensures { IsComing (IsSaid bytes.now) result }
{
    match behind(alloc, VERSION_LINE, told_in(bytes)) {
        Ok(text) => Ok(Answer::Help(text)),
        Err(_) => Err(CommandRefusal::OutOfMemory),
    }
}

// A line, and then a text.
fn behind(alloc: Global, line: &str, text: &str) -> Result<String, AllocError>
    ensures { IfOk result (λ both. string_bytes both ≡ line.now ++ text.now) }
{
    let mut both = String::new(alloc);
    both.push_str(line)?;
    both.push_str(text)?;
    Ok(both)
}

// What the bytes of the program's file say.
fn told_in(bytes: &[u8]) -> &str
    ensures { IsTold bytes.now result.now }
{
    match behind_head(last_of(bytes)) {
        Some(rest) => match str::from_utf8(rest) {
            Ok(text) => text,
            Err(_) => UNPACKED,
        },
        None => UNPACKED,
    }
}

// What a trailer says behind its first line; none if it begins otherwise.
fn behind_head(tail: &[u8]) -> Option<&[u8]>
    ensures { MatchOption result ((rest : List ℕ) → tail.now ≢ trailer_head ++ rest) (λ rest. tail.now ≡ trailer_head ++ rest.now) }
{
    tail.strip_prefix(HEAD)
}

// The last bytes of a file, as many as a trailer has, or all if there are fewer.
fn last_of(bytes: &[u8]) -> &[u8]
    ensures { result.now ≡ trailer bytes.now }
{
    if bytes.len() > TRAILER {
        &bytes[bytes.len() - TRAILER..]
    } else {
        bytes
    }
}

//! Makes files: dumps, new images and pictures.
ghost use Rattle.std.specs.Prelude.{◌≡◌, ◌-◌, ◌^◌, ◌<◌, IfErr, OnOk};
ghost use Rattle.heap_layout.specs.Counted.{inner_of, failures_of};
ghost use Rattle.heap_layout.specs.Writing.{CountsOne, Writes};
ghost use Rattle.command_io.specs.Disk.{IsOfMaking, WritesWhole, unwritten};
ghost use Rattle.command_io.specs.MadeFiles.{made_of};

use crate::keeping::{Unkept, keep_all};
use crate::opening::Files;
use crate::refusal::{CommandRefusal, Output};
use comp_dump::{Dump, DumpFault, write_dump};
use heap_layout::{Counted, LayoutFault, MarkedHeap, write_image, write_part};
use std::io::Write;

/// What a file is made of. It is lent, so nothing is held twice.
#[derive(Drop)]
pub enum Made<'a> {
    /// A dump.
    Dump(&'a Dump<'a>),
    /// A new image, of this heap.
    Image(&'a MarkedHeap),
    /// A picture of a heap, drawn.
    Picture(&'a str),
}

impl Made<'_> {
    // Which file it is.
    fn output(&self) -> Output
        ensures { result ≡ (made_of self.now).0 }
    {
        match self {
            Made::Dump(_) => Output::Dump,
            Made::Image(_) => Output::New,
            Made::Picture(_) => Output::Map,
        }
    }

    // Writes all of it. If a call of the writer fails, the writer has taken a beginning.
    fn write_in<W: Write>(&self, w: &mut Counted<W>) -> Result<(), CommandRefusal>
        requires { failures_of w.old < 2 ^ 64 - 1 }
        ensures writes { Writes (W.contents (inner_of w.old)) (W.contents (inner_of w.new)) (made_of self.now).1 result }
        ensures counts { CountsOne (failures_of w.old) (failures_of w.new) result }
        ensures cause { IfErr result (λ given. given ≡ unwritten (made_of self.now).0) }
    {
        match self {
            Made::Dump(dump) => match write_dump(dump, w) {
                Ok(()) => Ok(()),
                Err(_) => Err(CommandRefusal::Dump(DumpFault::Device)),
            },
            Made::Image(heap) => match write_image(heap, w) {
                Ok(()) => Ok(()),
                Err(_) => Err(CommandRefusal::Layout(LayoutFault::Device)),
            },
            Made::Picture(picture) => match write_part(w, picture.as_bytes()) {
                Ok(()) => Ok(()),
                Err(_) => Err(CommandRefusal::CannotWrite(Output::Map)),
            },
        }
    }
}

// How a file is refused of which a call of the writer failed.
fn unwritten(output: Output) -> CommandRefusal
    ensures { result ≡ unwritten output }
{
    match output {
        Output::Dump => CommandRefusal::Dump(DumpFault::Device),
        Output::New => CommandRefusal::Layout(LayoutFault::Device),
        Output::Map => CommandRefusal::CannotWrite(Output::Map),
    }
}

/// Writes what is made to a path, and keeps it there. If a call of its writer fails, the writer has taken a beginning
/// of it, and the files count the call. A refused call keeps nothing: at most a file was begun.
pub fn write_to<F: Files>(files: &mut F, path: &str, made: &Made<'_>) -> Result<(), CommandRefusal>
    ensures written { OnOk result (WritesWhole (F.disk files.old) (made_of made.now).0 path.now (made_of made.now).1 files.new) }
    ensures cause { IfErr result (IsOfMaking (F.disk files.old) (made_of made.now).0 path.now (made_of made.now).1 files.old files.new) }
{
    let output = made.output();
    let mut w = Counted::new(files.create(output, path)?);
    if let Err(refusal) = made.write_in(&mut w) {
        files.give_up(w);
        return Err(refusal);
    }
    match keep_all(files, output, path, w) {
        Ok(()) => Ok(()),
        Err(Unkept::Device) => Err(unwritten(output)),
        Err(Unkept::OutOfMemory) => Err(CommandRefusal::OutOfMemory),
    }
}

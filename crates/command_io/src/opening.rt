//! How the program opens the files that it reads, and creates those that it makes.
ghost use Rattle.std.specs.Prelude.{◌≡◌, ◌≢◌, ℕ, List, refl, codes, IfOk, IfErr, OnOk, OnErr};
ghost use Rattle.heap_layout.specs.Counted.{failures_of, inner_of};
ghost use Rattle.heap_layout.specs.declared.counted.Counted.{Counted as ACounted};
ghost use Rattle.command_io.specs.declared.refusal.Output.{Output as AnOutput};
ghost use Rattle.command_io.specs.Counting.{more_by};
ghost use Rattle.command_io.specs.Disk.{Disk, IsOfOpening};
ghost use Rattle.command_io.specs.FileCalls.{counted_once_begun, AfterCreating, IsOfCreating, LeavesRead};
ghost use Rattle.command_io.specs.Flushing.{counted_in};
ghost use Rattle.command_io.specs.KeptFiles.{LeavesUnkept};
ghost use Rattle.command_io.specs.PlacedFiles.{placing, IsPut};

use crate::flushed::Flushed;
use crate::keeping::Unkept;
use crate::output_files::{OutputFile, create_file};
use crate::parts::Placed;
use crate::refusal::{CommandRefusal, Input, Output};
use heap_layout::Counted;
use std::alloc::Global;
use std::io::{BufReader, Read, Write};
use std::{fs, rt};

/// Opens the files that the program reads, and creates those that it makes, by their kinds and paths.
pub trait Files {
    type Reader: Read + Drop;

    type Writer: Write + Drop;

    // what is known of the files
    ghost disk: { Self → Disk Self Self.Writer };

    /// Opens a file, to be read from its first byte. A refusal other than for memory counts a failed call.
    fn open(&mut self, input: Input, path: &str) -> Result<Self::Reader, CommandRefusal>
        ensures after { LeavesRead (disk self.old) self.old self.new result }
        ensures given { IfOk result (λ reader. (disk self.old).holds input path.now (Self.Reader.remaining reader)) }
        ensures cause { IfErr result (IsOfOpening input ((disk self.old).lacks input path.now)) };

    /// Takes back a reader. Its calls that failed are counted.
    fn take_back(&mut self, read: Counted<Self::Reader>)
        ensures { (disk self.old).counts (failures_of read) self.new };

    /// Begins a file that is to be made at a path: gives its writer, to be written from its first byte. A refusal other
    /// than for memory counts a failed call.
    fn create(&mut self, output: Output, path: &str) -> Result<Self::Writer, CommandRefusal>
        ensures after { AfterCreating (disk self.old) self.new result }
        ensures given { IfOk result ((disk self.old).makes output path.now) }
        ensures cause { IfErr result (IsOfCreating output ((disk self.old).bars output path.now)) };

    /// Keeps, at a path, all that a writer has taken that this path gave. It replaces what was there. The calls of the
    /// writer that failed are counted, and one more if what it took cannot be put at the path. If memory runs out, the
    /// files stay as they were.
    fn keep(
        &mut self,
        output: Output,
        path: &str,
        written: Flushed<Self::Writer>,
    ) -> Result<(), Unkept>
        ensures kept { OnOk result ((disk self.old).puts output path.now (counted_in written) self.new) }
        ensures unkept { IfErr result (LeavesUnkept self.old self.new (failures_of (counted_in written)) (disk self.old).counts) };

    /// Gives up a writer: nothing of what it took is kept. Its calls that failed are counted.
    fn give_up(&mut self, written: Counted<Self::Writer>)
        ensures { (disk self.old).counts (failures_of written) self.new };

    // what a writer has taken is what its own contract says
    ghost contents_are: { (files : Self) (w : Self.Writer) → (disk files).contents w ≡ Self.Writer.contents w };

    // what is kept once a file was begun is kept in the files as they were before
    ghost begun_puts: { (from between to : Self) (output : AnOutput) (path : List ℕ) (w : ACounted Self.Writer)
        → (disk from).begins between → (disk between).puts output path w to → (disk from).puts output path w to };

    // what is counted once a file was begun is counted in the files as they were before
    ghost begun_counts: { (from between to : Self) (n : ℕ)
        → (disk from).begins between → (disk between).counts n to → (disk from).counts n to };
}

/// The files of a runtime, read and written through buffers. What is read at the path `-` is standard input. As
/// long as a file that is made is not whole, a regular file at its path stays as it was.
#[derive(Drop)]
pub struct RuntimeFiles<'a, R> {
    rt: &'a R,
    // How many calls failed that opened or created a file, read or wrote one, or put it at its path. The count
    // saturates.
    failures: u64,
    // What was put at its path when a file was kept last, if it stood beside it.
    latest: Option<Placed>,
}

impl<'a, R> RuntimeFiles<'a, R> {
    /// The files of this runtime, of which no call has failed yet.
    pub fn new(rt: &'a R) -> RuntimeFiles<'a, R> {
        RuntimeFiles {
            rt,
            failures: 0,
            latest: None,
        }
    }

    // Counts failed calls.
    fn count(&mut self, failures: u64)
        ensures count { self.new.failures ≡ more_by self.old.failures failures }
        ensures same { self.new.latest ≡ self.old.latest }
    {
        self.failures = self.failures.saturating_add(failures);
    }
}

// The path at which the system has what is read: standard input for `-`.
fn readable(path: &str) -> &str
    ensures dash { path.now ≡ codes "-" → result.now ≡ codes "/dev/stdin" }
    ensures others { path.now ≢ codes "-" → result.now ≡ path.now }
{
    if path == "-" { "/dev/stdin" } else { path }
}

impl<'a, R: rt::Files + AllocGlobal> Files for RuntimeFiles<'a, R> {
    type Reader = BufReader<R::File, Global>;

    type Writer = OutputFile<'a, R>;

    // The kit's contracts do not say which file a path leads to, nor what a file holds or takes.
    ghost disk = { placing (λ files. files.failures) (λ files. files.latest) (λ file. file.beside) };

    ghost contents_are = { λ _ _. refl };

    ghost begun_puts = { λ from between to _ _ w begun kept. (counted_once_begun (λ files. files.failures) from between to (failures_of w) begun kept.0, kept.1) };

    ghost begun_counts = { counted_once_begun (λ files. files.failures) };

    fn open(
        &mut self,
        input: Input,
        path: &str,
    ) -> Result<BufReader<R::File, Global>, CommandRefusal> {
        let file = match fs::open(self.rt, readable(path)) {
            Ok(file) => file,
            Err(_) => {
                self.count(1);
                return Err(CommandRefusal::CannotOpen(input));
            }
        };
        match BufReader::new(self.rt.alloc(), file) {
            Ok(reader) => Ok(reader),
            Err(_) => Err(CommandRefusal::OutOfMemory),
        }
    }

    fn take_back(&mut self, read: Counted<BufReader<R::File, Global>>)
        ensures { self.new.failures ≡ more_by self.old.failures (failures_of read) }
    {
        self.count(read.failures());
    }

    fn create(&mut self, output: Output, path: &str) -> Result<OutputFile<'a, R>, CommandRefusal> {
        let made = create_file(self.rt, path, output);
        if let Err(CommandRefusal::CannotCreate(_)) = &made {
            self.count(1);
        }
        made
    }

    fn keep(
        &mut self,
        _output: Output,
        _path: &str,
        written: Flushed<OutputFile<'a, R>>,
    ) -> Result<(), Unkept>
        ensures kept { OnOk result ((self.new.failures ≡ more_by self.old.failures (failures_of (counted_in written.entry))) × IsPut (inner_of (counted_in written.entry)).beside self.new.latest) }
        ensures unkept { IfErr result (LeavesUnkept self.old self.new (failures_of (counted_in written.entry)) (λ n to. to.failures ≡ more_by self.old.failures n)) }
    {
        let failures = written.failures();
        match written.into_inner().put() {
            Ok(latest) => {
                self.latest = latest;
                self.count(failures);
                Ok(())
            }
            Err(_) => {
                self.count(failures.saturating_add(1));
                Err(Unkept::Device)
            }
        }
    }

    fn give_up(&mut self, written: Counted<OutputFile<'a, R>>)
        ensures { self.new.failures ≡ more_by self.old.failures (failures_of written.entry) }
    {
        self.count(written.failures());
    }
}

//! The files of dumps, of new images and of pictures. Once such a file is whole, it replaces what was at its path.
ghost use Rattle.std.specs.Prelude.{◌≡◌, ◌<◌, None, bit_and, false, if◌then◌else◌, length, true, IfErr, IfOk, OnErr, OnOk};
ghost use Rattle.std.specs.String.{string_bytes};
ghost use Rattle.std.specs.Io.{WritesAtMost};
ghost use Rattle.std.specs.Io.KnownBytes.{Keeps, WriteAppends};
ghost use Rattle.heap_layout.specs.Counted.{failures_of, is_flushed_of};
ghost use Rattle.command_io.specs.FileCalls.{IsOfCreating};
ghost use Rattle.command_io.specs.PlacedFiles.{IsMeantFor, IsPut};
ghost use Rattle.command_io.specs.declared.refusal.CommandRefusal.TheVariants as refusal;

use crate::flushed::Flushed;
use crate::parts::{Part, Placed, Unplaced};
use crate::refusal::{CommandRefusal, Output};
use heap_layout::Counted;
use std::alloc::Global;
use std::fs::{self, Metadata, OpenFile, OpenOptions, Permissions};
use std::io::{BufWriter, Error, ErrorKind, Result as IoResult, Write};
use std::os::unix::fs::{MetadataExt, OpenOptionsExt, PermissionsExt};
use std::rt::Files;

// The greatest number of bytes that one call of a file writes.
const WRITTEN_AT_ONCE: usize = 65_536;

// How many names are tried for the file beside a path. A run that was killed leaves one of them in use.
const MAX_NAMES: u32 = 1_000;

// The bits of a mode that say who may read, write and run a file.
const MODE_BITS: u32 = 0o777;

// The bits of a mode but setuid and setgid, by which a program runs as the owner of its file.
const BUT_SET_IDS: u32 = 0xffff_f3ff;

/// The file of a dump, of a new image or of a picture, written through a buffer.
///
/// If a regular file or nothing is at its path, this is a file beside the path, which `put` renames onto the path. If a
/// call fails, the file is removed, and what is at the path stays as it was. If anything else is at the path, that is
/// written directly. After a call that failed each later call fails too.
#[derive(Drop)]
pub struct OutputFile<'a, R: Files> {
    rt: &'a R,
    // It counts the calls that failed, and records whether all that was taken was flushed.
    writer: Counted<BufWriter<R::File, Global>>,
    beside: Option<Part>,
}

impl<R: Files> OutputFile<'_, R> {
    /// Flushes the file, and then puts it at its path, if it does not stand there: answers what was put, if anything
    /// was. It is refused if a call of the file failed before, or if its flush or the rename fails.
    pub(crate) fn put(self) -> Result<Option<Placed>, Unplaced>
        ensures put { IfOk result (IsPut self.entry.beside) }
        ensures unfailed { OnOk result (failures_of self.entry.writer ≡ 0) }
    {
        let OutputFile { rt, writer, beside } = self;
        let flushed = if writer.failures() == 0 {
            Flushed::of(writer)
        } else {
            Err(writer)
        };
        match (flushed, beside) {
            (Ok(_), None) => Ok(None),
            (Ok(flushed), Some(part)) => Ok(Some(part.place(rt, &flushed)?)),
            (Err(_), None) => Err(Unplaced),
            (Err(_), Some(part)) => {
                part.remove(rt);
                Err(Unplaced)
            }
        }
    }

    // Fails if an earlier call did.
    fn check(&self) -> IoResult<()>
        ensures unfailed { OnOk result (failures_of self.now.writer ≡ 0) }
        ensures failed { OnErr result (0 < failures_of self.now.writer) }
    {
        if self.writer.failures() > 0 {
            return Err(Error::from(ErrorKind::Other));
        }
        Ok(())
    }

    // Removes the file beside the path once a call failed, if it can be.
    fn settle(&mut self)
        ensures same { self.new.writer ≡ self.old.writer }
        ensures gone { 0 < failures_of self.old.writer → self.new.beside ≡ None }
        ensures stays { failures_of self.old.writer ≡ 0 → self.new.beside ≡ self.old.beside }
    {
        if self.writer.failures() > 0 {
            if let Some(part) = self.beside.take() {
                part.remove(self.rt);
            }
        }
    }
}

impl<R: Files> Write for OutputFile<'_, R> {
    fn write(&mut self, buf: &[u8]) -> IoResult<usize>
        ensures bound { WritesAtMost result buf.now }
        ensures bytes { WriteAppends None None result buf.now }
        ensures unfailed { OnOk result (failures_of self.old.writer ≡ 0) }
        ensures taken { IfOk result (λ n. 0 < n → (failures_of self.new.writer ≡ 0) × (is_flushed_of self.new.writer ≡ false)) }
        ensures none_taken { IfOk result (λ n. n ≡ 0 → 0 < length buf.now → 0 < failures_of self.new.writer) }
        ensures failed { OnErr result (0 < failures_of self.new.writer) }
        ensures gone { 0 < failures_of self.new.writer → self.new.beside ≡ None }
        ensures stays { failures_of self.new.writer ≡ 0 → self.new.beside ≡ self.old.beside }
    {
        let written = match self.check() {
            Ok(()) => self.writer.write(buf),
            Err(error) => Err(error),
        };
        self.settle();
        written
    }

    fn flush(&mut self) -> IoResult<()>
        ensures bytes { Keeps None None }
        ensures unfailed { OnOk result ((failures_of self.old.writer ≡ 0) × (failures_of self.new.writer ≡ 0)) }
        ensures flushed { OnOk result (is_flushed_of self.new.writer ≡ true) }
        ensures failed { OnErr result (0 < failures_of self.new.writer) }
        ensures gone { 0 < failures_of self.new.writer → self.new.beside ≡ None }
        ensures stays { failures_of self.new.writer ≡ 0 → self.new.beside ≡ self.old.beside }
    {
        let flushed = match self.check() {
            Ok(()) => self.writer.flush(),
            Err(error) => Err(error),
        };
        self.settle();
        flushed
    }
}

/// Creates the file for this output at a path. No call of it has failed. If it stands beside the path, it is meant for
/// the path.
pub fn create_file<'a, R: Files + AllocGlobal>(
    rt: &'a R,
    path: &str,
    output: Output,
) -> Result<OutputFile<'a, R>, CommandRefusal>
    ensures begun { IfOk result (λ file. failures_of file.writer ≡ 0) }
    ensures meant { IfOk result (λ file. IsMeantFor path.now file.beside) }
    ensures cause { IfErr result (IsOfCreating output (Unit {0})) }
{
    match fs::symlink_metadata(rt, path) {
        Ok(found) if found.is_file() => create_for(rt, path, output, &found),
        Err(error) if error.kind() == ErrorKind::NotFound && !path.is_empty() => {
            let (file, part) = create_beside(rt, path, output, &new_file())?;
            buffered(rt, file, Some(part))
        }
        _ => create_there(rt, path, output),
    }
}

// Opens the file at the path itself.
fn create_there<'a, R: Files + AllocGlobal>(
    rt: &'a R,
    path: &str,
    output: Output,
) -> Result<OutputFile<'a, R>, CommandRefusal>
    ensures begun { IfOk result (λ file. failures_of file.writer ≡ 0) }
    ensures there { IfOk result (λ file. file.beside ≡ None) }
    ensures cause { IfErr result (IsOfCreating output (Unit {0})) }
{
    let Ok(file) = fs::create(rt, path) else {
        return Err(CommandRefusal::CannotCreate(output));
    };
    buffered(rt, file, None)
}

// Creates a file beside the one at the path, which must be writable. The new file has the permissions of that one, and
// at no time more.
fn create_for<'a, R: Files + AllocGlobal>(
    rt: &'a R,
    path: &str,
    output: Output,
    found: &Metadata,
) -> Result<OutputFile<'a, R>, CommandRefusal>
    ensures begun { IfOk result (λ file. failures_of file.writer ≡ 0) }
    ensures meant { IfOk result (λ file. IsMeantFor path.now file.beside) }
    ensures cause { IfErr result (IsOfCreating output (Unit {0})) }
{
    if OpenOptions::new().write(true).open(rt, path).is_err() {
        return Err(CommandRefusal::CannotCreate(output));
    }
    let mut how = new_file();
    how.mode(found.permissions().mode() & MODE_BITS);
    let (file, part) = create_beside(rt, path, output, &how)?;
    if !takes_permissions(&file, found) {
        part.remove(rt);
        return Err(CommandRefusal::CannotCreate(output));
    }
    buffered(rt, file, Some(part))
}

// Gives a new file the permissions of the one that was found, also those that the system's mask removed. Answers
// whether it has them. If it has not the owner and the group of that one, it has neither setuid nor setgid.
fn takes_permissions<F: OpenFile>(file: &F, found: &Metadata) -> bool {
    let Ok(made) = file.metadata() else {
        return false;
    };
    let same = made.uid() == found.uid() && made.gid() == found.gid();
    let mode = lasting_mode(found.permissions().mode(), same);
    file.set_permissions(Permissions::from_mode(mode)).is_ok()
}

// The mode of a file that replaces one of this mode: the same, but without setuid and setgid if the owner or the group
// is another.
fn lasting_mode(mode: u32, same: bool) -> u32
    ensures { result ≡ (if same then mode else bit_and mode 0xffff_f3ff) }
{
    if same { mode } else { mode & BUT_SET_IDS }
}

// Creates a file beside the path, with these options.
fn create_beside<R: Files + AllocGlobal>(
    rt: &R,
    path: &str,
    output: Output,
    how: &OpenOptions,
) -> Result<(R::File, Part), CommandRefusal>
    ensures meant { IfOk result (λ made. string_bytes made.1.path ≡ path.now) }
    ensures cause { IfErr result (IsOfCreating output (Unit {0})) }
{
    let whole = String::from_str(rt.alloc(), path)?;
    for number in 0..MAX_NAMES {
        let part = part_of(rt, path, number)?;
        match create_new(rt, &part, how) {
            Ok(file) => return Ok((file, Part::new(part, whole))),
            Err(ErrorKind::AlreadyExists) => {}
            Err(_) => return Err(CommandRefusal::CannotCreate(output)),
        }
    }
    Err(CommandRefusal::CannotCreate(output))
}

// The options for a file that must not exist yet.
fn new_file() -> OpenOptions {
    let mut how = OpenOptions::new();
    how.write(true).create_new(true);
    how
}

// Creates a file of this name that did not exist, or answers why it cannot.
fn create_new<R: Files>(rt: &R, path: &str, how: &OpenOptions) -> Result<R::File, ErrorKind> {
    match how.open(rt, path) {
        Ok(file) => Ok(file),
        Err(error) => Err(error.kind()),
    }
}

// The name with this number in the folder of a path. Its length does not depend on the last name of the path.
fn part_of<R: AllocGlobal>(rt: &R, path: &str, number: u32) -> Result<String, CommandRefusal>
    ensures { IfErr result (λ given. given ≡ refusal.OutOfMemory) }
{
    let folder = match path.rfind('/') {
        Some(at) => &path[..at + 1],
        None => "",
    };
    Ok(format!(in rt.alloc(); "{folder}.compressor-{number}.part")?)
}

// A file with its buffer. If memory runs out, a file beside the path is removed.
fn buffered<'a, R: Files + AllocGlobal>(
    rt: &'a R,
    file: R::File,
    beside: Option<Part>,
) -> Result<OutputFile<'a, R>, CommandRefusal>
    ensures begun { IfOk result (λ made. failures_of made.writer ≡ 0) }
    ensures beside { IfOk result (λ made. made.beside ≡ beside) }
    ensures cause { IfErr result (λ given. given ≡ refusal.OutOfMemory) }
{
    match BufWriter::with_capacity(rt.alloc(), WRITTEN_AT_ONCE, file) {
        Ok(writer) => Ok(OutputFile {
            rt,
            writer: Counted::new(writer),
            beside,
        }),
        Err(_) => {
            if let Some(part) = beside {
                part.remove(rt);
            }
            Err(CommandRefusal::OutOfMemory)
        }
    }
}

//! Files in memory.
ghost use Rattle.std.specs.Prelude.{◌≡◌, ℕ, List, None, refl, option_map, IfErr, OnOk, OnErr};
ghost use Rattle.heap_layout.specs.Counted.{failures_of};
ghost use Rattle.command_io.specs.Flushing.{counted_in};
ghost use Rattle.command_io.specs.KeptFiles.{LeavesUnkept};
ghost use Rattle.command_io.specs.Memory.{bytes_at, counted_after, memory_disk, put_after, HasPut, WrittenIsThere};

use crate::flushed::Flushed;
use crate::keeping::Unkept;
use crate::opening::Files;
use crate::refusal::{CommandRefusal, Input, Output};
use heap_layout::Counted;
use std::alloc::{AllocError, Global};
use std::collections::LinkedList;
use std::io::Cursor;

/// A file in memory.
#[derive(Drop)]
pub struct MemoryFile {
    pub path: String,
    pub bytes: Vec<u8>,
}

/// Files in memory. A path leads to the file that was put there last, whatever kind of file is asked for.
#[derive(Drop)]
pub struct MemoryFiles {
    alloc: Global,
    // The newest comes first.
    files: LinkedList<MemoryFile>,
}

impl MemoryFiles {
    /// No file at any path.
    pub fn new(alloc: Global) -> MemoryFiles
        ensures { (path : List ℕ) → bytes_at result path ≡ None }
    {
        MemoryFiles {
            alloc,
            files: LinkedList::new(alloc),
        }
    }

    /// The bytes of the file at a path.
    pub fn bytes_at(&self, path: &str) -> Option<&Vec<u8>>
        ensures { option_map (λ bytes. bytes.now.items) result ≡ bytes_at self.now path.now }
    {
        for file in self.files.iter() {
            if file.path.as_str() == path {
                return Some(&file.bytes);
            }
        }
        None
    }

    /// Puts a file at a path. It replaces what was there. If memory runs out, all files stay as they were.
    pub fn put(&mut self, path: &str, bytes: Vec<u8>) -> Result<(), AllocError>
        ensures put { OnOk result (HasPut self.old path.now bytes.items self.new) }
        ensures unput { OnErr result (self.new ≡ self.old) }
    {
        let path = String::from_str(self.alloc, path)?;
        match self.files.push_front(MemoryFile { path, bytes }) {
            Ok(()) => Ok(()),
            Err(_) => Err(AllocError),
        }
    }
}

impl Files for MemoryFiles {
    type Reader = Cursor<Vec<u8>>;

    type Writer = Vec<u8>;

    ghost disk = { memory_disk };

    ghost contents_are = { λ _ _. refl };

    ghost begun_puts = { put_after };

    ghost begun_counts = { counted_after };

    fn open(&mut self, input: Input, path: &str) -> Result<Cursor<Vec<u8>>, CommandRefusal> {
        match self.bytes_at(path) {
            Some(bytes) => Ok(Cursor::new(bytes.clone()?)),
            None => Err(CommandRefusal::CannotOpen(input)),
        }
    }

    fn take_back(&mut self, _read: Counted<Cursor<Vec<u8>>>)
        ensures { (memory_disk self.old).counts (failures_of _read) self.new }
    {}

    fn create(&mut self, _output: Output, _path: &str) -> Result<Vec<u8>, CommandRefusal> {
        Ok(Vec::new(self.alloc))
    }

    fn keep(&mut self, _output: Output, path: &str, written: Flushed<Vec<u8>>) -> Result<(), Unkept>
        ensures kept { OnOk result ((memory_disk self.old).puts _output path.now (counted_in written) self.new) }
        ensures unkept { IfErr result (LeavesUnkept self.old self.new (failures_of (counted_in written)) (memory_disk self.old).counts) }
    {
        match self.put(path, written.into_inner()) {
            Ok(()) => Ok(()),
            Err(_) => Err(Unkept::OutOfMemory),
        }
    }

    fn give_up(&mut self, _written: Counted<Vec<u8>>)
        ensures { (memory_disk self.old).counts (failures_of _written) self.new }
    {}
}

/// What was written whole to a path of files in memory is at that path, and each other path has what it had.
pub fn written_is_there()
    ensures { WrittenIsThere }
{}

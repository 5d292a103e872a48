//! Files that stand beside the paths for which they are meant. Only here a file is renamed or removed.
ghost use Rattle.std.specs.Prelude.{◌≡◌, IfOk};
ghost use Rattle.command_io.specs.PlacedFiles.{part_of};

use crate::flushed::Flushed;
use std::fs;
use std::rt::Files;

/// A file beside the path for which it is meant.
#[derive(Drop)]
pub struct Part {
    name: String,
    path: String,
}

/// A file that was put at its path. Only `Part::place` makes one, by a rename that succeeded after a flush.
#[derive(Drop)]
pub struct Placed {
    part: Part,
}

/// A file could not be put at its path.
#[derive(Clone, Copy, Debug, PartialEq, Eq)]
pub(crate) struct Unplaced;

impl Part {
    /// The file of this name, which is meant for a path.
    pub(crate) fn new(name: String, path: String) -> Part
        ensures name { result.name ≡ name }
        ensures path { result.path ≡ path }
    {
        Part { name, path }
    }

    /// Renames the file onto its path, once its writer was flushed. If the rename fails, the file is removed, if it can
    /// be.
    pub(crate) fn place<R: Files, W>(
        self,
        rt: &R,
        _written: &Flushed<W>,
    ) -> Result<Placed, Unplaced>
        ensures { IfOk result (λ placed. part_of placed ≡ self) }
    {
        match fs::rename(rt, self.name.as_str(), self.path.as_str()) {
            Ok(()) => Ok(Placed { part: self }),
            Err(_) => {
                self.remove(rt);
                Err(Unplaced)
            }
        }
    }

    /// Removes the file, if it can be.
    pub(crate) fn remove<R: Files>(self, rt: &R) {
        let _ = fs::remove_file(rt, self.name.as_str());
    }
}

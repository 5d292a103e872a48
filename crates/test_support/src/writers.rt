//! Writers that take a limited number of bytes.
use std::io::{Error, ErrorKind, Result as IoResult, Write};

/// How a writer fails.
#[derive(Clone, Copy, PartialEq, Eq)]
pub enum Failure {
    Error,
    TakesNone,
    Flush,
}

/// Takes at most `at_once` bytes a call until `room` bytes are taken, and then fails as `failure` says.
#[derive(Drop)]
pub struct Narrow<'a> {
    pub taken: &'a mut Vec<u8>,
    pub room: usize,
    pub at_once: usize,
    pub failure: Failure,
}

impl<'a> Write for Narrow<'a> {
    fn write(&mut self, buf: &[u8]) -> IoResult<usize> {
        let (taken, _) = buf.split_at(buf.len().min(self.room).min(self.at_once));
        if taken.is_empty() && self.failure == Failure::Error {
            return Err(Error::from(ErrorKind::StorageFull));
        }
        if self.taken.extend_from_slice(taken).is_err() {
            return Err(Error::from(ErrorKind::OutOfMemory));
        }
        self.room -= taken.len();
        Ok(taken.len())
    }

    fn flush(&mut self) -> IoResult<()> {
        if self.failure == Failure::Flush {
            return Err(Error::from(ErrorKind::StorageFull));
        }
        Ok(())
    }
}

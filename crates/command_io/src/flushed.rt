//! Writers that were flushed.
ghost use Rattle.std.specs.Prelude.{◌≡◌, true, IfErr, IfOk};
ghost use Rattle.std.specs.Io.KnownBytes.{Keeps};
ghost use Rattle.heap_layout.specs.Counted.{inner_of, failures_of, is_flushed_of, one_more};
ghost use Rattle.command_io.specs.Flushing.{counted_in};

use heap_layout::Counted;
use std::io::Write;

/// A writer that was flushed after all that it took. Only `of` makes one, so what is kept was flushed.
#[derive(Drop)]
pub struct Flushed<W> {
    written: Counted<W>,
}

impl<W> Flushed<W> {
    /// How many calls of the writer failed, as its `Counted` says.
    pub fn failures(&self) -> u64
        ensures { result ≡ failures_of (counted_in self.now) }
    {
        self.written.failures()
    }

    /// The writer inside.
    pub fn into_inner(self) -> W
        ensures { result ≡ inner_of (counted_in self) }
    {
        self.written.into_inner()
    }
}

impl<W: Write> Flushed<W> {
    /// Flushes a writer. If the flush fails, gives the writer back, which has counted the failed call.
    pub fn of(written: Counted<W>) -> Result<Flushed<W>, Counted<W>>
        ensures flushed { IfOk result (λ flushed. is_flushed_of (counted_in flushed) ≡ true) }
        ensures kept { IfOk result (λ flushed. Keeps (W.contents (inner_of written)) (W.contents (inner_of (counted_in flushed)))) }
        ensures uncounted { IfOk result (λ flushed. failures_of (counted_in flushed) ≡ failures_of written) }
        ensures failed { IfErr result (λ failed. Keeps (W.contents (inner_of written)) (W.contents (inner_of failed))) }
        ensures counted { IfErr result (λ failed. failures_of failed ≡ one_more (failures_of written)) }
    {
        let mut written = written;
        match written.flush() {
            Ok(()) => Ok(Flushed { written }),
            Err(_) => Err(written),
        }
    }
}

ghost use Rattle.std.specs.Prelude.{◌≡◌, ◌<◌, true, false, length, IfOk, OnOk, OnErr};
ghost use Rattle.std.specs.Io.{ReadsAtMost, WritesAtMost};
ghost use Rattle.std.specs.Io.KnownBytes.{Appends, Keeps, ReadConsumes, WriteAppends};
ghost use Rattle.heap_layout.specs.Counted.{inner_of, failures_of, is_flushed_of, writer_of, one_more, AppendsBeginning};

use std::io::{Error, ErrorKind, Read, Result, Write};

/// A reader or writer that counts the calls through it that failed. A call fails if it answers an error. A write also
/// fails if it takes no byte of a part that is not empty. For a writer it also records whether all bytes that were
/// taken through it have been flushed since.
#[derive(Debug, Drop)]
pub struct Counted<R> {
    inner: R,
    failures: u64,
    // Only the calls of a writer change this.
    flushed: bool,
}

impl<R> Counted<R> {
    /// Wraps a reader or writer. No call through this has failed yet, and no byte was taken through it that is left to
    /// flush. Of what the writer took before nothing is said.
    pub fn new(inner: R) -> Counted<R>
        ensures inner { inner_of result ≡ inner }
        ensures none { failures_of result ≡ 0 }
        ensures flushed { is_flushed_of result ≡ true }
    {
        Counted {
            inner,
            failures: 0,
            flushed: true,
        }
    }

    /// How many calls have failed. The count saturates at `u64::MAX`.
    pub fn failures(&self) -> u64
        ensures { result ≡ failures_of self.now }
    {
        self.failures
    }

    /// The reader or writer inside.
    pub fn into_inner(self) -> R
        ensures { result ≡ inner_of self }
    {
        self.inner
    }

    // Counts a failed call.
    fn count_failure(&mut self)
        ensures inner { inner_of self.new ≡ inner_of self.old }
        ensures counted { failures_of self.new ≡ one_more (failures_of self.old) }
        ensures flushed { is_flushed_of self.new ≡ is_flushed_of self.old }
    {
        self.failures = self.failures.saturating_add(1);
    }

    // Records the answer to a write: counts it if it failed, and clears `flushed` if bytes were taken.
    fn note_write(&mut self, answer: &Result<usize>, part: &[u8])
        ensures inner { inner_of self.new ≡ inner_of self.old }
        ensures taken { IfOk answer.now (λ n. 0 < n → (failures_of self.new ≡ failures_of self.old) × (is_flushed_of self.new ≡ false)) }
        ensures empty { OnOk answer.now (length part.now ≡ 0 → failures_of self.new ≡ failures_of self.old) }
        ensures none_taken { IfOk answer.now (λ n. n ≡ 0 → 0 < length part.now → failures_of self.new ≡ one_more (failures_of self.old)) }
        ensures flushed { IfOk answer.now (λ n. n ≡ 0 → is_flushed_of self.new ≡ is_flushed_of self.old) }
        ensures err { OnErr answer.now ((failures_of self.new ≡ one_more (failures_of self.old)) × (is_flushed_of self.new ≡ is_flushed_of self.old)) }
    {
        match answer {
            Ok(0) if part.is_empty() => (),
            Ok(0) | Err(_) => self.count_failure(),
            Ok(_) => self.flushed = false,
        }
    }

    // Records the answer to a flush: sets `flushed` if it succeeded, and counts it if it failed.
    fn note_flush(&mut self, answer: &Result<()>)
        ensures inner { inner_of self.new ≡ inner_of self.old }
        ensures ok { OnOk answer.now ((failures_of self.new ≡ failures_of self.old) × (is_flushed_of self.new ≡ true)) }
        ensures err { OnErr answer.now ((failures_of self.new ≡ one_more (failures_of self.old)) × (is_flushed_of self.new ≡ is_flushed_of self.old)) }
    {
        match answer {
            Ok(()) => self.flushed = true,
            Err(_) => self.count_failure(),
        }
    }
}

impl<R: Read> Read for Counted<R> {
    ghost remaining = { λ counted. R.remaining (inner_of counted) };

    fn read(&mut self, buf: &mut [u8]) -> Result<usize>
        ensures bound { ReadsAtMost result buf.new }
        ensures bytes { ReadConsumes (R.remaining (inner_of self.old)) (R.remaining (inner_of self.new)) result buf.new }
        ensures ok { OnOk result (failures_of self.new ≡ failures_of self.old) }
        ensures err { OnErr result (failures_of self.new ≡ one_more (failures_of self.old)) }
        ensures flushed { is_flushed_of self.new ≡ is_flushed_of self.old }
    {
        let result = self.inner.read(buf);
        if result.is_err() {
            self.count_failure();
        }
        result
    }
}

impl<W: Write> Write for Counted<W> {
    ghost contents = { λ counted. W.contents (inner_of counted) };

    fn write(&mut self, buf: &[u8]) -> Result<usize>
        ensures bound { WritesAtMost result buf.now }
        ensures bytes { WriteAppends (W.contents (inner_of self.old)) (W.contents (inner_of self.new)) result buf.now }
        ensures taken { IfOk result (λ n. 0 < n → failures_of self.new ≡ failures_of self.old) }
        ensures empty { OnOk result (length buf.now ≡ 0 → failures_of self.new ≡ failures_of self.old) }
        ensures none_taken { IfOk result (λ n. n ≡ 0 → 0 < length buf.now → failures_of self.new ≡ one_more (failures_of self.old)) }
        ensures err { OnErr result (failures_of self.new ≡ one_more (failures_of self.old)) }
        ensures unflushed { IfOk result (λ n. 0 < n → is_flushed_of self.new ≡ false) }
        ensures flushed { IfOk result (λ n. n ≡ 0 → is_flushed_of self.new ≡ is_flushed_of self.old) }
        ensures refused { OnErr result (is_flushed_of self.new ≡ is_flushed_of self.old) }
    {
        let result = self.inner.write(buf);
        self.note_write(&result, buf);
        result
    }

    fn flush(&mut self) -> Result<()>
        ensures bytes { Keeps (W.contents (inner_of self.old)) (W.contents (inner_of self.new)) }
        ensures ok { OnOk result (failures_of self.new ≡ failures_of self.old) }
        ensures err { OnErr result (failures_of self.new ≡ one_more (failures_of self.old)) }
        ensures flushed { OnOk result (is_flushed_of self.new ≡ true) }
        ensures refused { OnErr result (is_flushed_of self.new ≡ is_flushed_of self.old) }
    {
        let result = self.inner.flush();
        self.note_flush(&result);
        result
    }
}

/// A borrowed writer: these methods write into the writer that was lent, which its owner gets back.
impl<W: Write> Counted<&mut W> {
    // Writes the part or a beginning of it, by one call, and answers how many bytes were taken.
    fn write_some(&mut self, part: &[u8]) -> Result<usize>
        ensures bound { WritesAtMost result part.now }
        ensures bytes { WriteAppends (W.contents (inner_of self.old).now) (W.contents (inner_of self.new).now) result part.now }
        ensures taken { IfOk result (λ n. 0 < n → (failures_of self.new ≡ failures_of self.old) × (is_flushed_of self.new ≡ false)) }
        ensures empty { OnOk result (length part.now ≡ 0 → failures_of self.new ≡ failures_of self.old) }
        ensures none_taken { IfOk result (λ n. n ≡ 0 → 0 < length part.now → failures_of self.new ≡ one_more (failures_of self.old)) }
        ensures err { OnErr result (failures_of self.new ≡ one_more (failures_of self.old)) }
        ensures flushed { IfOk result (λ n. n ≡ 0 → is_flushed_of self.new ≡ is_flushed_of self.old) }
        ensures refused { OnErr result (is_flushed_of self.new ≡ is_flushed_of self.old) }
        ensures same_writer { writer_of self.new ≡ writer_of self.old }
    {
        let answer = (*self.inner).write(part);
        self.note_write(&answer, part);
        answer
    }

    /// Writes a whole part, by as many calls as the writer needs. The first call that fails ends the writing, even if
    /// it was only interrupted. What was taken before it stays written.
    pub fn write_part(&mut self, part: &[u8]) -> Result<()>
        ensures written { OnOk result (Appends (W.contents (inner_of self.old).now) (W.contents (inner_of self.new).now) part.now) }
        ensures begun { OnErr result (AppendsBeginning (W.contents (inner_of self.old).now) (W.contents (inner_of self.new).now) (is_flushed_of self.old) (is_flushed_of self.new) part.now) }
        ensures ok { OnOk result (failures_of self.new ≡ failures_of self.old) }
        ensures err { OnErr result (failures_of self.new ≡ one_more (failures_of self.old)) }
        ensures unflushed { OnOk result (0 < length part.now → is_flushed_of self.new ≡ false) }
        ensures empty { length part.now ≡ 0 → is_flushed_of self.new ≡ is_flushed_of self.old }
        ensures same_writer { writer_of self.new ≡ writer_of self.old }
    {
        let mut taken = 0;
        while taken < part.len() {
            let n = self.write_some(&part[taken..])?;
            if n == 0 {
                return Err(Error::from(ErrorKind::WriteZero));
            }
            taken += n;
        }
        Ok(())
    }

    /// Flushes the writer, by one call.
    pub fn flush_all(&mut self) -> Result<()>
        ensures kept { Keeps (W.contents (inner_of self.old).now) (W.contents (inner_of self.new).now) }
        ensures ok { OnOk result (failures_of self.new ≡ failures_of self.old) }
        ensures err { OnErr result (failures_of self.new ≡ one_more (failures_of self.old)) }
        ensures flushed { OnOk result (is_flushed_of self.new ≡ true) }
        ensures refused { OnErr result (is_flushed_of self.new ≡ is_flushed_of self.old) }
        ensures same_writer { writer_of self.new ≡ writer_of self.old }
    {
        let answer = (*self.inner).flush();
        self.note_flush(&answer);
        answer
    }
}

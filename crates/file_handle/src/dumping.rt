//! The dump of a finished heap is written.
ghost use Rattle.std.specs.Prelude.{◌≡◌, IfOk, OnOk};
ghost use Rattle.comp_crew.specs.Finishing.{IsEnded};
ghost use Rattle.comp_dump.specs.DumpEncoding.{dump_bytes};
ghost use Rattle.file_handle.specs.Dumping.{dump_of, IsLawful, WritesDump};
ghost use Rattle.handle_base.specs.Copying.{WritesBytes};
ghost use Rattle.handle_base.specs.HandleKinds.{end_in, Asks};

use crate::sizes::dump_len;
use comp_crew::Ended;
use comp_dump::{Dump, write_dump};
use handle_base::{Answer, Handle, as_end, copy_bytes, status};
use heap_layout::{Counted, OutOfMemory};
use std::alloc::Global;

// The bytes of a dump, of which there are this many.
fn bytes_of(alloc: Global, dump: &Dump<'_>, size: usize) -> Result<Vec<u8>, OutOfMemory>
    ensures { IfOk result (λ bytes. bytes.items ≡ dump_bytes dump.now) }
{
    let mut w = Counted::new(Vec::with_capacity(alloc, size)?);
    match write_dump(dump, &mut w) {
        Ok(()) => Ok(w.into_inner()),
        Err(_) => Err(OutOfMemory),
    }
}

// The dump of a finished heap.
fn dump_at<'a>(alloc: Global, e: &'a Ended) -> Result<Dump<'a>, OutOfMemory>
    requires { IsEnded e.now }
    ensures is { IfOk result (λ dump. dump ≡ dump_of e.now) }
    ensures lawful { OnOk result (IsLawful e.now) }
{
    comp_audit::lawful_is_yes();
    let dump = Dump::of(alloc, e.finished(), e.mutators(), e.fresh_pages())?;
    comp_dump::dump_is_stored(&dump);
    Ok(dump)
}

// Copies a dump.
fn copy_bytes_of(alloc: Global, dump: &Dump<'_>, out: &mut [u8]) -> Answer
    ensures { WritesBytes (dump_bytes dump.now) out.old out.new result }
{
    let size = dump_len(dump);
    if (out.len() as u64) < size {
        return Answer::bare(status::TOO_SHORT, size);
    }
    match bytes_of(alloc, dump, size as usize) {
        Ok(bytes) => copy_bytes(&bytes, out),
        Err(_) => Answer::bare(status::OUT_OF_MEMORY, 0),
    }
}

// Copies the dump of a finished heap.
fn copy_dump(alloc: Global, e: &Ended, out: &mut [u8]) -> Answer
    requires { IsEnded e.now }
    ensures { WritesDump out.old out.new e.now result }
{
    match dump_at(alloc, e) {
        Ok(dump) => copy_bytes_of(alloc, &dump, out),
        Err(_) => Answer::bare(status::OUT_OF_MEMORY, 0),
    }
}

/// Copies the dump of the finished heap that a handle keeps, with the counts of its flip. The answer has the number of
/// its bytes. If the buffer is too short, the answer has that number too. Then, and if there is no memory, the buffer
/// stays as it was.
pub fn copy_dump_of(alloc: Global, h: &mut Handle, out: &mut [u8]) -> Answer
    ensures same { h.new.kept ≡ h.old.kept }
    ensures copies { Asks 0 end_in (WritesDump out.old out.new) (out.new ≡ out.old) h.old.kept result }
{
    let Some(kept) = h.take(alloc) else {
        return Answer::bare(status::EMPTY_HANDLE, 0);
    };
    let answer = match as_end(kept.as_ref()) {
        Some(e) => copy_dump(alloc, e, out),
        None => Answer::bare(status::WRONG_HANDLE, 0),
    };
    h.put_back(kept);
    answer
}

//! Dumps that are made, written, read and audited. Each step is made again if memory is refused.
ghost use Rattle.comp_mutator.specs.Finishes.{IsOfFlip};

use comp_audit::{Dump, DumpFault, Verdict, audit, read_dump, write_dump};
use comp_mutator::Finished;
use heap_layout::Counted;
use page_plan::Plan;
use std::alloc::Global;

// The dump of a finished heap of two mutators and 64 fresh pages.
fn dump_of<'a>(alloc: Global, finished: &'a Finished) -> Option<Dump<'a>>
    requires { IsOfFlip 2 64 finished.now }
{
    match Dump::of(alloc, finished, 2, 64) {
        Ok(dump) => Some(dump),
        Err(_) => Dump::of(alloc, finished, 2, 64).ok(),
    }
}

// Room for `bytes` bytes.
fn room(alloc: Global, bytes: usize) -> Option<Vec<u8>> {
    match Vec::with_capacity(alloc, bytes) {
        Ok(room) => Some(room),
        Err(_) => Vec::with_capacity(alloc, bytes).ok(),
    }
}

// The bytes of a dump. Writing takes no memory.
fn bytes_of(alloc: Global, dump: &Dump<'_>) -> Option<Vec<u8>> {
    let mut writer = Counted::new(room(alloc, 656)?);
    match write_dump(dump, &mut writer) {
        Ok(()) => Some(writer.into_inner()),
        Err(_) => None,
    }
}

// The dump that these bytes are read as.
fn dump_in(alloc: Global, bytes: &[u8]) -> Option<Dump<'static>> {
    match read_dump(alloc, &mut Counted::new(bytes)) {
        Ok(dump) => Some(dump),
        Err(DumpFault::OutOfMemory) => read_dump(alloc, &mut Counted::new(bytes)).ok(),
        Err(_) => None,
    }
}

// Whether the audit accepts the dump.
fn is_yes(alloc: Global, plan: &Plan, dump: &Dump<'_>) -> bool {
    let verdict = match audit(alloc, plan, dump) {
        Ok(verdict) => Some(verdict),
        Err(_) => audit(alloc, plan, dump).ok(),
    };
    verdict == Some(Verdict::Yes)
}

// Whether the bytes of a dump are read as a dump that the audit accepts.
fn passes(alloc: Global, plan: &Plan, bytes: &[u8]) -> bool {
    match dump_in(alloc, bytes) {
        Some(dump) => bytes.len() == 656 && is_yes(alloc, plan, &dump),
        None => false,
    }
}

/// Whether the dump of the finished heap has 656 bytes and the audit accepts it.
pub fn is_lawful(alloc: Global, plan: &Plan, finished: &Finished) -> bool
    requires { IsOfFlip 2 64 finished.now }
{
    let Some(dump) = dump_of(alloc, finished) else {
        return false;
    };
    match bytes_of(alloc, &dump) {
        Some(bytes) => passes(alloc, plan, &bytes),
        None => false,
    }
}

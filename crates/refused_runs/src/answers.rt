//! Calls that are made again if memory is refused.
ghost use Rattle.comp_mutator.specs.Mutators.{IsMutatorOf};

use crate::answered_calls::{AnsweredCall, Call};
use crate::making::Making;
use comp_journal::Entry;
use comp_mutator::{Mutator, Refusal, Space, Touched};
use heap_layout::Kind;
use std::alloc::Global;
use std::sync::ledger::Ledger as Named;
use test_support::page_words;

// The answer of a touch of a page, which exists.
fn touch<L: Named>(
    alloc: Global,
    space: &Space<L, Making>,
    m: &mut Mutator<L>,
    p: u64,
) -> Result<u64, Refusal>
    requires of { IsMutatorOf space.now m.old }
    ensures of { IsMutatorOf space.now m.new }
{
    if p >= space.pages() {
        return Ok(u64::MAX);
    }
    match space.try_touch(alloc, m, p) {
        Ok(Touched::Built) => Ok(1),
        Ok(Touched::AlreadyBuilt) => Ok(0),
        Err(refusal) => Err(refusal),
    }
}

// The number of entries of the journal of a page, which exists.
fn copy<L: Named>(
    alloc: Global,
    space: &Space<L, Making>,
    m: &mut Mutator<L>,
    p: u64,
) -> Result<u64, Refusal>
    requires of { IsMutatorOf space.now m.old }
    ensures of { IsMutatorOf space.now m.new }
{
    if p >= space.pages() {
        return Ok(u64::MAX);
    }
    match space.page_copy(alloc, m, p) {
        Ok(copy) => Ok(copy.journal.len() as u64),
        Err(refusal) => Err(refusal),
    }
}

// The number of these entries, if a copy of the page, which exists, has them and begins with these words; all other
// words are 0.
fn copy_whole<L: Named>(
    alloc: Global,
    space: &Space<L, Making>,
    m: &mut Mutator<L>,
    p: u64,
    begin: &[u64],
    entries: &[Entry],
) -> Result<u64, Refusal>
    requires of { IsMutatorOf space.now m.old }
    ensures of { IsMutatorOf space.now m.new }
{
    if p >= space.pages() {
        return Ok(u64::MAX);
    }
    let copy = space.page_copy(alloc, m, p)?;
    let words = page_words(begin);
    if copy.words.as_array().as_slice() == words.as_slice() && copy.journal.as_slice() == entries {
        return Ok(entries.len() as u64);
    }
    Ok(u64::MAX)
}

// The answer of a call.
fn answer<L: Named>(
    alloc: Global,
    space: &Space<L, Making>,
    m: &mut Mutator<L>,
    call: Call,
) -> Result<u64, Refusal>
    requires of { IsMutatorOf space.now m.old }
    ensures of { IsMutatorOf space.now m.new }
{
    match call {
        Call::Touch(p) => touch(alloc, space, m, p),
        Call::Copy(p, begin, entries) => copy_whole(alloc, space, m, p, begin, entries),
        Call::Read(Kind::Reference, object, field) => space.try_read_ref(alloc, m, object, field),
        Call::Read(_, object, field) => space.try_read_data(alloc, m, object, field),
        Call::Write(Kind::Reference, object, field, value) => {
            space.try_write_ref(alloc, m, object, field, value)
        }
        Call::Write(_, object, field, value) => {
            space.try_write_data(alloc, m, object, field, value)
        }
        Call::Alloc(refs, data_words, tag) => space.try_alloc(alloc, m, refs, data_words, tag),
    }
}

// Whether no object starts at the address that a refused allocation would have used.
fn is_unknown<L: Named>(
    alloc: Global,
    space: &Space<L, Making>,
    m: &mut Mutator<L>,
    row: &AnsweredCall,
) -> bool
    requires of { IsMutatorOf space.now m.old }
    ensures of { IsMutatorOf space.now m.new }
{
    match (row.1, row.4) {
        (Call::Alloc(_, _, _), Ok(address)) => {
            space.try_read_data(alloc, m, address, 0) == Err(Refusal::NotAStart(address))
        }
        _ => true,
    }
}

// Whether the journal of the page that a refused call touches is as long as before, if this mutator built the page.
fn is_as_long<L: Named>(
    alloc: Global,
    space: &Space<L, Making>,
    m: &mut Mutator<L>,
    row: &AnsweredCall,
) -> bool
    requires of { IsMutatorOf space.now m.old }
    ensures of { IsMutatorOf space.now m.new }
{
    if !m.builds().contains(&row.2) {
        return true;
    }
    copy(alloc, space, m, row.2) == Ok(row.3 as u64)
}

// Whether a refused call added nothing to the builds, of which there were `before`, or the page that it touches: a
// compacted page exactly if a page was made.
fn are_builds(builds: &[u64], before: usize, touched: u64, compacted: bool, made: bool) -> bool {
    let added = builds.len() != before;
    let touching = builds.len() == before.wrapping_add(1) && builds.last() == Some(&touched);
    (!added || touching) && (!compacted || added == made)
}

/// Whether the call is answered as its row says. If memory is refused, the mutator wrote nothing, has posted and not
/// posted the same words, and has built no page except perhaps the one that the call touches: a compacted page exactly
/// if its words were made. The call is then made again.
pub fn is_answered<L: Named>(
    alloc: Global,
    space: &Space<L, Making>,
    m: &mut Mutator<L>,
    making: &Making,
    row: &AnsweredCall,
) -> bool
    requires of { IsMutatorOf space.now m.old }
    ensures of { IsMutatorOf space.now m.new }
{
    let entries = m.entries();
    let unposted = m.unposted();
    let builds = m.builds().len();
    let count = making.count();
    let first = answer(alloc, space, m, row.1);
    if first != Err(Refusal::OutOfMemory) {
        return first == row.4;
    }
    let same = m.entries() == entries && m.unposted() == unposted;
    let compacted = row.2 < space.compacted_pages();
    let made = making.count() != count;
    let built = are_builds(m.builds(), builds, row.2, compacted, made);
    let unknown = is_unknown(alloc, space, m, row);
    let as_long = is_as_long(alloc, space, m, row);
    let again = answer(alloc, space, m, row.1);
    same && built && unknown && as_long && again == row.4
}

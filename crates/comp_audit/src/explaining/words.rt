//! Words of a dump: a wrong word, and a loose one.
ghost use Rattle.std.specs.Prelude.{◌≡◌, ◌<◌, IfOk};
ghost use Rattle.comp_dump.specs.Lawful.{kind_at};
ghost use Rattle.comp_dump.specs.Objects.{word_on};
ghost use Rattle.comp_dump.specs.declared.fault.AuditFault.TheVariants as fault;
ghost use Rattle.comp_audit.specs.Checks.{all_entries, is_start};
ghost use Rattle.comp_audit.specs.Meant.{journals_of};
ghost use Rattle.comp_audit.specs.Explained.{is_tied, setup_of, word_in, Explains};

use crate::checks::{Setting, journal_of, refers, right_words};
use crate::explaining::causes::word_kind;
use crate::explaining::entries::loose_entry;
use crate::explaining::made::header_stamp;
use crate::explaining::objects::{out_of_place, owner};
use crate::explanation::{Explanation, LooseWordAt, WrongWordAt};
use comp_dump::Dump;
use heap_layout::{Kind, OutOfMemory};
use page_plan::{Plan, TO_SPACE};
use std::alloc::Global;

/// The word at an address on a page that was built; None elsewhere.
pub fn word_in(dump: &Dump<'_>, address: u64) -> Option<u64>
    ensures { result ≡ word_in dump.now address }
{
    if address < TO_SPACE {
        return None;
    }
    let index = address - TO_SPACE;
    match dump.pages().page((index / 64) as usize) {
        None => None,
        Some(page) => Some(page.words()[(index % 64) as usize]),
    }
}

/// What is said of a wrong word at this address. Err if out of memory.
pub fn explain_word(
    alloc: Global,
    plan: &Plan,
    dump: &Dump<'_>,
    address: u64,
) -> Result<Explanation, OutOfMemory>
    ensures { IfOk result (Explains plan.now dump.now (fault.WrongWord address)) }
{
    let Some(is) = word_in(dump, address) else {
        return Ok(Explanation::NoSuchFault);
    };
    let new_index = address.saturating_sub(TO_SPACE);
    let should_be = right_word(alloc, plan, dump, new_index / 64, new_index % 64)?;
    if is == should_be {
        return Ok(Explanation::NoSuchFault);
    }
    Ok(Explanation::WrongWord(WrongWordAt {
        page: new_index / 64,
        offset: new_index % 64,
        is,
        should_be,
        object: owner(plan, new_index),
        out_of_place: out_of_place(plan, dump),
    }))
}

// What the journal of page `p` makes of its base, at this offset. Err if out of memory.
fn right_word(
    alloc: Global,
    plan: &Plan,
    dump: &Dump<'_>,
    p: u64,
    offset: u64,
) -> Result<u64, OutOfMemory>
    requires { offset < 64 }
    ensures { IfOk result (λ word. word ≡ word_on (setup_of plan.now dump.now) (journals_of dump.now) p offset) }
{
    comp_dump::dump_is_stored(dump);
    let journal = journal_of(dump.pages(), p as usize);
    let words = right_words(alloc, Setting { plan, dump }, p, journal)?;
    Ok(words.get(offset as u8))
}

/// What is said of a loose reference or weak word at this address: the word, and the last entry at its offset.
pub fn explain_loose(plan: &Plan, dump: &Dump<'_>, address: u64) -> Explanation
    ensures { Explains plan.now dump.now (fault.LooseReference address) result }
{
    let Some(is) = word_in(dump, address) else {
        return Explanation::NoSuchFault;
    };
    let new_index = address.saturating_sub(TO_SPACE);
    let (page, offset) = (new_index / 64, new_index % 64);
    if is_tied(plan, dump, page, offset, is) {
        return Explanation::NoSuchFault;
    }
    Explanation::LooseReference(LooseWordAt {
        page,
        offset,
        is,
        entry: loose_entry(plan, dump, page, offset),
    })
}

// Whether this word at this offset of page `p` is no reference or weak word, or null or an immediate, or leads to an
// object.
fn is_tied(plan: &Plan, dump: &Dump<'_>, p: u64, offset: u64, word: u64) -> bool
    requires { offset < 64 }
    ensures { result ≡ is_tied plan.now dump.now (kind_at (setup_of plan.now dump.now) p (journals_of dump.now p) offset) word }
{
    let found = kind_found(plan, dump, p, offset);
    if !refers(found) {
        return true;
    }
    if plan.heap().edition().leads_nowhere(word) {
        return true;
    }
    is_start(plan, dump, word)
}

// The kind of the word at this offset of page `p`; None if it belongs to no object.
fn kind_found(plan: &Plan, dump: &Dump<'_>, p: u64, offset: u64) -> Option<Kind>
    requires { offset < 64 }
    ensures { result ≡ kind_at (setup_of plan.now dump.now) p (journals_of dump.now p) offset }
{
    let entries = journal_of(dump.pages(), p as usize);
    word_kind(plan, p, entries, offset as u8)
}

// Whether an object starts at the address: a slid one, or one that an entry makes.
fn is_start(plan: &Plan, dump: &Dump<'_>, address: u64) -> bool
    ensures { result ≡ is_start plan.now (all_entries dump.now.pages) address }
{
    if plan.is_start(address) {
        return true;
    }
    header_stamp(dump, address).is_some()
}

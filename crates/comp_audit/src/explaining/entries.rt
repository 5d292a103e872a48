//! Entries: one that does not fit, and the last one at an offset.
ghost use Rattle.std.specs.Prelude.{◌≡◌, ◌^◌, ◌<◌, ◌≤◌, length, slice_get, Some};
ghost use Rattle.comp_dump.specs.Lawful.{filled};
ghost use Rattle.comp_dump.specs.declared.fault.AuditFault.TheVariants as fault;
ghost use Rattle.comp_audit.specs.Meant.{journals_of};
ghost use Rattle.comp_audit.specs.Explained.{maker_of, setup_of, stamp_before, Explains, IsCauseAt, IsEntryExplained, IsLastAt, IsLooseEntry};

use crate::checks::journal_of;
use crate::explaining::causes::cause_of;
use crate::explaining::made::words_made;
use crate::explanation::{BadEntryAt, EntryCause, Explanation, LooseEntry};
use comp_dump::Dump;
use comp_journal::Entry;
use heap_layout::Edition;
use page_plan::Plan;

/// What is said of an entry that does not fit: the entry, what it is held against, and why it does not.
pub fn explain_entry(plan: &Plan, dump: &Dump<'_>, p: u64, number: u64) -> Explanation
    ensures { Explains plan.now dump.now (fault.BadEntry p number) result }
{
    comp_dump::dump_is_stored(dump);
    let journal = journal_of(dump.pages(), p as usize);
    let Some(entry) = journal.get(number as usize) else {
        return Explanation::NoSuchFault;
    };
    match cause_at(plan, dump, p, number as usize, *entry) {
        None => Explanation::NoSuchFault,
        Some(cause) => Explanation::BadEntry(bad_entry(plan, dump, p, number, *entry, cause)),
    }
}

// What is said of this entry, which has this number on page `p`, and which does not fit by this cause.
fn bad_entry(
    plan: &Plan,
    dump: &Dump<'_>,
    p: u64,
    number: u64,
    entry: Entry,
    cause: EntryCause,
) -> BadEntryAt
    requires entry { slice_get (journals_of dump.now p) number ≡ Some entry }
    requires cause { IsCauseAt plan.now dump.now p number entry (Some cause) }
    ensures { IsEntryExplained plan.now dump.now p number result }
{
    comp_dump::dump_is_stored(dump);
    let journal = journal_of(dump.pages(), p as usize);
    BadEntryAt {
        page: p,
        number,
        entry,
        stamp_before: stamp_before(journal, number as usize),
        maker: maker(plan, dump, p),
        filled: filled_by(plan.heap().edition(), &journal[..number as usize]),
        cause,
    }
}

/// The last entry of page `p` at this offset, and why it does not fit; None if no entry of the page is at it.
pub fn loose_entry(plan: &Plan, dump: &Dump<'_>, p: u64, offset: u64) -> Option<LooseEntry>
    ensures { IsLooseEntry plan.now dump.now p offset result }
{
    let journal = journal_of(dump.pages(), p as usize);
    let Some((number, entry)) = last_at(journal, offset) else {
        return None;
    };
    Some(LooseEntry {
        number: number as u64,
        entry,
        cause: cause_at(plan, dump, p, number, entry),
    })
}

// The last of these entries at this offset, with its number; None if none is at it.
fn last_at(journal: &[Entry], offset: u64) -> Option<(usize, Entry)>
    ensures { IsLastAt journal.now offset result }
{
    let mut last = None;
    for (number, &entry) in journal.iter().enumerate() {
        if u64::from(entry.offset) == offset {
            last = Some((number, entry));
        }
    }
    last
}

// Why this entry, which has this number on page `p`, does not fit; None if nothing is wrong with it.
fn cause_at(plan: &Plan, dump: &Dump<'_>, p: u64, number: usize, entry: Entry) -> Option<EntryCause>
    requires { slice_get (journals_of dump.now p) number ≡ Some entry }
    ensures { IsCauseAt plan.now dump.now p number entry result }
{
    comp_dump::dump_is_stored(dump);
    let journal = journal_of(dump.pages(), p as usize);
    let before = &journal[..number];
    cause_of(
        plan,
        dump,
        p,
        entry,
        before,
        stamp_before(journal, number),
        filled_by(plan.heap().edition(), before),
    )
}

// The stamp of the entry before entry `number`.
fn stamp_before(journal: &[Entry], number: usize) -> Option<u64>
    requires { number < length journal.now }
    ensures { result ≡ stamp_before journal.now number }
{
    match number {
        0 => None,
        _ => Some(journal[number - 1].stamp),
    }
}

// The mutator that makes objects on page `p`; None if it is a compacted page.
fn maker(plan: &Plan, dump: &Dump<'_>, p: u64) -> Option<u64>
    ensures { result ≡ maker_of (setup_of plan.now dump.now) p }
{
    comp_dump::dump_is_stored(dump);
    if p < plan.pages() {
        return None;
    }
    Some((p - plan.pages()) % u64::from(dump.mutators()))
}

// How many words the objects have that these entries make.
fn filled_by(edition: Edition, journal: &[Entry]) -> u64
    requires { length journal.now ≤ 1024 }
    ensures filled { result ≡ filled edition journal.now }
    ensures few { result < 2 ^ 63 }
{
    let mut filled = 0;
    for entry in journal {
        filled += words_made(edition, *entry);
    }
    filled
}

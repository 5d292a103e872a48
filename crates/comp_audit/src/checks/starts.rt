//! Where new objects start: the address of each header that was written, with the least stamp of a header there.
ghost use Rattle.std.specs.Prelude.{◌≡◌, ◌^◌, ◌≢◌, ℕ, List, ◌<◌, [], ◌∷◌, ◌++◌, ◌||◌, IfOk, OnOk, length, nat_lt, is_some, true, Some, None};
ghost use Rattle.comp_journal.specs.declared.entry.Entry.{Entry};
ghost use Rattle.comp_history.specs.Setup.{pages};
ghost use Rattle.comp_history.specs.Merged.{with_page};
ghost use Rattle.comp_audit.specs.Checks.{all_entries};
ghost use Rattle.comp_audit.specs.Noted.{is_below, is_noted_before, leads, setup_at, stamp_at, Notes};

use crate::checks::record::journal_of;
use crate::checks::setting::Setting;
use comp_journal::Entry;
use heap_layout::Kind;
use page_plan::{Plan, TO_SPACE};
use std::alloc::{AllocError, Global};
use std::collections::BTreeMap;
use std::marker::Model;

/// For each address at which a header was written the least stamp of a header there. It takes room by the headers, and
/// not by the pages, of which a dump of few bytes may announce many.
#[derive(Drop)]
pub struct Starts {
    stamps: BTreeMap<u64, u64>,
}

impl Model for Starts {
    ghost use Rattle.comp_audit.specs.Noted.{Stamped};

    ghost Value = { Stamped };

    ghost view = { λ starts. record { stamps = starts.stamps.entries } };
}

impl Starts {
    // No start so far.
    fn new(alloc: Global) -> Starts
        ensures { (a : ℕ) → stamp_at result a ≡ None }
    {
        Starts {
            stamps: BTreeMap::new(alloc),
        }
    }

    // Notes that a header of this stamp was written at the address.
    fn note(&mut self, address: u64, stamp: u64) -> Result<(), AllocError>
        ensures some { OnOk result (is_some (stamp_at self.new address) ≡ true) }
        ensures older { OnOk result ((n : ℕ) → is_noted_before self.new address n ≡ (is_noted_before self.old address n || nat_lt stamp n)) }
        ensures elsewhere { OnOk result ((a : ℕ) → a ≢ address → stamp_at self.new a ≡ stamp_at self.old a) }
    {
        let least = lesser(self.stamp_at(address), stamp);
        match self.stamps.insert(address, least) {
            Ok(_) => Ok(()),
            Err(_) => Err(AllocError),
        }
    }

    // The least stamp of a header that was written at the address.
    fn stamp_at(&self, address: u64) -> Option<u64>
        ensures { result ≡ stamp_at self.now address }
    {
        self.stamps.get(&address).copied()
    }

    /// Whether an object starts at the address, a slid or a new one.
    pub fn leads(&self, plan: &Plan, address: u64) -> bool
        ensures { result ≡ leads plan.now self.now address }
    {
        plan.is_start(address) || self.stamp_at(address).is_some()
    }

    /// Whether a header with a stamp below this one was written at the address.
    pub fn is_before(&self, address: u64, stamp: u64) -> bool
        ensures { result ≡ is_noted_before self.now address stamp }
    {
        match self.stamp_at(address) {
            Some(other) => other < stamp,
            None => false,
        }
    }
}

// The lesser of this stamp and the one that was noted, if there is one.
fn lesser(noted: Option<u64>, stamp: u64) -> u64
    ensures { (n : ℕ) → nat_lt result n ≡ (is_below noted n || nat_lt stamp n) }
{
    match noted {
        Some(other) => other.min(stamp),
        None => stamp,
    }
}

/// The starts of all new objects.
pub fn starts_of(alloc: Global, setting: Setting<'_>) -> Result<Starts, AllocError>
    requires { length setting.dump.now.pages ≡ pages (setup_at setting) }
    ensures { IfOk result (λ starts. Notes starts (all_entries setting.entry.dump.now.pages)) }
{
    comp_dump::dump_is_stored(setting.dump);
    let mut starts = Starts::new(alloc);
    let records = setting.dump.pages();
    for p in 0..records.len() {
        note_page(&mut starts, p as u64, journal_of(records, p))?;
    }
    Ok(starts)
}

// Notes the headers of page `p`.
fn note_page(starts: &mut Starts, p: u64, journal: &[Entry]) -> Result<(), AllocError>
    requires { p < 2 ^ 26 }
    ensures { OnOk result ((all : List (ℕ × Entry)) → Notes starts.old all → Notes starts.new (all ++ with_page p journal.now)) }
{
    for &entry in journal {
        note_entry(starts, p, entry)?;
    }
    Ok(())
}

// Notes an entry of page `p`, if it writes a header.
fn note_entry(starts: &mut Starts, p: u64, entry: Entry) -> Result<(), AllocError>
    requires { p < 2 ^ 26 }
    ensures { OnOk result ((all : List (ℕ × Entry)) → Notes starts.old all → Notes starts.new (all ++ (p, entry) ∷ [])) }
{
    match entry.kind {
        Kind::Header => starts.note(TO_SPACE + 64 * p + u64::from(entry.offset), entry.stamp),
        Kind::Reference | Kind::Weak | Kind::Data => Ok(()),
    }
}

//! Counts over all pages of a dump: its pages and entries, and its total.
ghost use Rattle.std.specs.Prelude.{◌≡◌};
ghost use Rattle.comp_dump.specs.declared.fault.AuditFault.TheVariants as fault;
ghost use Rattle.comp_audit.specs.Explained.{AreCountsOf, Explains};

use crate::checks::{journal_of, right_total};
use crate::explanation::{DumpCounts, Explanation, Totals};
use comp_dump::Dump;
use page_plan::Plan;

/// How many pages a dump has, how many of them are built, and how many entries these have.
pub fn count(dump: &Dump<'_>) -> DumpCounts
    ensures { AreCountsOf dump.now result }
{
    comp_dump::dump_is_stored(dump);
    let pages = dump.pages();
    let mut built = 0;
    let mut entries = 0;
    for p in 0..pages.len() {
        if pages.page(p).is_some() {
            built += 1;
        }
        entries += journal_of(pages, p).len() as u64;
    }
    DumpCounts {
        built,
        pages: pages.len() as u64,
        entries,
    }
}

/// What is said of a wrong total.
pub fn explain_total(plan: &Plan, dump: &Dump<'_>) -> Explanation
    ensures { Explains plan.now dump.now fault.WrongTotal result }
{
    let is = dump.live_words();
    let should_be = right_total(plan, dump);
    if u128::from(is) == should_be {
        return Explanation::NoSuchFault;
    }
    Explanation::WrongTotal(Totals { is, should_be })
}

//! Why an entry does not fit.
ghost use Rattle.std.specs.Prelude.{◌≡◌, ◌≢◌, ◌<◌, ◌^◌, List, true, IfNone, IfSome};
ghost use Rattle.comp_dump.specs.Dumped.{Dumped};
ghost use Rattle.comp_dump.specs.Lawful.{filled, kind_at};
ghost use Rattle.comp_dump.specs.Entry.{Entry};
ghost use Rattle.comp_dump.specs.Setup.{Setup};
ghost use Rattle.page_plan.specs.Sliding as sliding;
ghost use Rattle.heap_layout.specs.Heap.{live};
ghost use Rattle.heap_layout.specs.declared.kind.Kind.TheVariants as sorts;
ghost use Rattle.comp_audit.specs.EntryCauses.{fits_after, leads_back, setup_of, HasNoCause, IsCauseOf, IsLate, IsMisfit};

use crate::checks::is_word_of;
use crate::explaining::made::{header_stamp, kind_made, words_made};
use crate::explanation::EntryCause;
use comp_dump::Dump;
use comp_journal::Entry;
use heap_layout::Kind;
use page_plan::Plan;

/// Why an entry of page `p` is bad, if its page has the entries `before` before it, whose objects end at offset `end`,
/// and the last of which has the stamp `stamp_before`; None if it is not bad.
pub fn cause_of(
    plan: &Plan,
    dump: &Dump<'_>,
    p: u64,
    entry: Entry,
    before: &[Entry],
    stamp_before: Option<u64>,
    end: u64,
) -> Option<EntryCause>
    requires inside { entry.offset < 64 }
    requires end { end ≡ filled plan.now.edition before.now }
    requires few { end < 2 ^ 63 }
    ensures some { IfSome result (IsCauseOf plan.now dump.now p stamp_before before.now entry) }
    ensures none { IfNone result (HasNoCause plan.now dump.now p stamp_before before.now entry) }
{
    if let Some(stamp) = stamp_before
        && entry.stamp <= stamp
    {
        return Some(EntryCause::StampNotAbove(stamp));
    }
    match misfit(plan, dump, p, entry, before, end) {
        Some(cause) => Some(cause),
        None => late(plan, dump, entry),
    }
}

// Why the entry does not fit those before it, whose objects end at offset `end`; None if it fits.
fn misfit(
    plan: &Plan,
    dump: &Dump<'_>,
    p: u64,
    entry: Entry,
    before: &[Entry],
    end: u64,
) -> Option<EntryCause>
    requires inside { entry.offset < 64 }
    requires end { end ≡ filled plan.now.edition before.now }
    requires few { end < 2 ^ 63 }
    ensures some { IfSome result (IsMisfit (setup_of plan.now dump.now) p before.now entry) }
    ensures none { IfNone result (fits_after (setup_of plan.now dump.now) p before.now entry ≡ true) }
{
    match entry.kind {
        Kind::Header => header_misfit(plan, dump, p, entry, end),
        Kind::Reference => field_misfit(plan, p, entry, before),
        Kind::Weak => field_misfit(plan, p, entry, before),
        Kind::Data => field_misfit(plan, p, entry, before),
    }
}

// The same for an entry that writes another word.
fn field_misfit(plan: &Plan, p: u64, entry: Entry, before: &[Entry]) -> Option<EntryCause>
    requires inside { entry.offset < 64 }
    requires other { entry.kind ≢ sorts.Header }
    ensures some { IfSome result (λ cause. (dump : Dumped) → IsMisfit (setup_of plan.now dump) p before.now entry cause) }
    ensures none { IfNone result ((dump : Dumped) → fits_after (setup_of plan.now dump) p before.now entry ≡ true) }
{
    let found = word_kind(plan, p, before, entry.offset);
    if is_word_of(found, entry.kind) {
        None
    } else {
        Some(EntryCause::OtherWord(found))
    }
}

// The same for an entry that writes a header.
fn header_misfit(plan: &Plan, dump: &Dump<'_>, p: u64, entry: Entry, end: u64) -> Option<EntryCause>
    requires header { entry.kind ≡ sorts.Header }
    requires few { end < 2 ^ 63 }
    ensures some { IfSome result (λ cause. (before : List Entry) → end ≡ filled plan.now.edition before → IsMisfit (setup_of plan.now dump.now) p before entry cause) }
    ensures none { IfNone result ((before : List Entry) → end ≡ filled plan.now.edition before → fits_after (setup_of plan.now dump.now) p before entry ≡ true) }
{
    comp_dump::dump_is_stored(dump);
    if p < plan.pages() || p >= plan.pages() + u64::from(dump.fresh_pages()) {
        return Some(EntryCause::NoFreshPage);
    }
    let maker = (p - plan.pages()) % u64::from(dump.mutators());
    if maker != u64::from(entry.writer) {
        return Some(EntryCause::OtherMaker(maker));
    }
    if u64::from(entry.offset) != end {
        return Some(EntryCause::NotNext(end));
    }
    let object_end = end + words_made(plan.heap().edition(), entry);
    if object_end > 64 {
        return Some(EntryCause::PastPage(object_end));
    }
    None
}

/// The kind of the word at this offset of page `p`, if the page has this journal; None if it belongs to no object.
pub fn word_kind(plan: &Plan, p: u64, journal: &[Entry], offset: u8) -> Option<Kind>
    requires { offset < 64 }
    ensures { (u : Setup) → u.heap ≡ plan.now → u.compacted ≡ sliding.pages (live plan.now) → result ≡ kind_at u p journal.now offset }
{
    if p < plan.pages() {
        plan.page_kinds(p)[offset as usize]
    } else {
        kind_made(plan.heap().edition(), journal, offset)
    }
}

// Why the entry is late; None if it is null, or no reference or weak word, or leads to an object that is older.
fn late(plan: &Plan, dump: &Dump<'_>, entry: Entry) -> Option<EntryCause>
    ensures some { IfSome result (IsLate plan.now dump.now entry) }
    ensures none { IfNone result (leads_back plan.now dump.now entry ≡ true) }
{
    if !entry.kind.refers()
        || plan.heap().edition().leads_nowhere(entry.value)
        || plan.is_start(entry.value)
    {
        return None;
    }
    match header_stamp(dump, entry.value) {
        None => Some(EntryCause::LeadsNowhere),
        Some(stamp) if stamp < entry.stamp => None,
        Some(stamp) => Some(EntryCause::LeadsAhead(stamp)),
    }
}

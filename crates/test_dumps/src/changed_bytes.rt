//! Dumps with each byte changed to each other value.
use crate::dump_bytes::{Change, Whole, changed};
use crate::expected::expect_eq;
use crate::judged_dumps::{Report, report_on, report_on_large};
use comp_audit::{AuditFault, DumpFault, Verdict};
use page_plan::Plan;
use std::alloc::Global;
use std::process::Abort;
use test_support::At;

/// What becomes of a dump after a change of one byte.
pub enum Becomes {
    /// This is reported.
    Is(Report),
    /// It is no dump: the bytes after the change are read as other fields than they were written for, and these do not
    /// fit.
    Shifted,
    /// The word of the byte is wrong. Words are counted from the first byte of the words of this page.
    WrongWord(u64),
}

/// The first and the last position of a byte, the least and the most value, and what becomes of the dump.
pub struct Rule(pub usize, pub usize, pub u8, pub u8, pub Becomes);

// The expected report for a byte at a position, by its rule. If the rule allows several, and `found` is one of them, it
// is `found`.
fn reckoned(rule: &Rule, at: usize, found: Report) -> Report {
    let Rule(first, _, _, _, becomes) = rule;
    match becomes {
        Becomes::Is(wanted) => *wanted,
        Becomes::WrongWord(page) => {
            let offset = (at.wrapping_sub(*first) / 8) as u64;
            Ok(Verdict::No(AuditFault::WrongWord(page.wrapping_add(offset))))
        }
        Becomes::Shifted => match found {
            Err(DumpFault::TrailingBytes | DumpFault::BadField) => found,
            _ => Err(DumpFault::Truncated),
        },
    }
}

/// What is known of a dump: its bytes are those of this one with these changes, it is read with those of edition three
/// or not, and the rules for each byte, of which the first counts.
#[derive(Clone, Copy)]
pub struct KnownDump<'a> {
    pub dump: &'a Whole,
    pub changes: &'a [Change],
    pub large: bool,
    pub length: usize,
    pub own_rules: &'a [Rule],
    pub rules: &'a [Rule],
}

// The report on these bytes.
fn report(alloc: Global, plan: &Plan, large: bool, bytes: &[u8]) -> Report {
    if large {
        report_on_large(alloc, plan, bytes)
    } else {
        report_on(alloc, plan, bytes)
    }
}

// The first of these rules for this byte at that position.
fn rule_for(rules: &[Rule], at: usize, byte: u8) -> Option<&Rule> {
    rules.iter().find(|rule| {
        let Rule(first, last, least, most, _) = rule;
        *first <= at && at <= *last && *least <= byte && byte <= *most
    })
}

// Checks the report for this byte at that position.
fn expect_reckoned(rt: &impl Abort, known: &KnownDump<'_>, found: Report, at: usize, byte: u8) {
    let own = rule_for(known.own_rules, at, byte);
    let Some(rule) = own.or(rule_for(known.rules, at, byte)) else {
        rt.panic("no rule")
    };
    let number = at.wrapping_mul(256).wrapping_add(usize::from(byte));
    let wanted = reckoned(rule, at, found);
    let at = At::new("256 times the position, plus the byte", number);
    expect_eq(rt, at, found, wanted)
}

// Checks each other value at each position of a dump with these bytes. The last value at a position is the right one,
// which stays.
fn expect_each(
    rt: &impl Abort,
    alloc: Global,
    plan: &Plan,
    known: &KnownDump<'_>,
    bytes: &mut [u8],
) {
    let mut right = 0;
    let mut byte = 0u8;
    for n in 0..bytes.len().saturating_mul(256) {
        let at = n / 256;
        if let Some(place) = bytes.get_mut(at) {
            if n % 256 == 0 {
                right = *place;
                byte = right;
            }
            byte = byte.wrapping_add(1);
            *place = byte;
        }
        if byte != right {
            let found = report(alloc, plan, known.large, bytes);
            expect_reckoned(rt, known, found, at, byte);
        }
    }
}

/// Checks that the dump has its number of bytes, that each change of a byte is reported as the first rule for it says,
/// and that the dump is lawful with all bytes right again.
pub fn expect_bytes(rt: &impl Abort, alloc: Global, plan: &Plan, known: &KnownDump<'_>) {
    let mut bytes = changed(rt, alloc, known.dump, known.changes);
    expect_eq(rt, At::new("bytes", 0), bytes.len(), known.length);
    expect_each(rt, alloc, plan, known, &mut bytes);
    let found = report(alloc, plan, known.large, &bytes);
    expect_eq(rt, At::new("no change", 0), found, Ok(Verdict::Yes));
}

ghost use Rattle.std.specs.Prelude.{◌≡◌};
ghost use Rattle.comp_audit.specs.Checks.{journals_in};

use comp_dump::DumpedPages;
use comp_journal::Entry;

/// The entries of page `p`; an empty list if it was never built, or if there is no such page.
pub fn journal_of<'a>(records: &'a DumpedPages<'_>, p: usize) -> &'a [Entry]
    ensures { result.now ≡ journals_in records.now p }
{
    match records.page(p) {
        None => &[],
        Some(page) => page.journal(),
    }
}

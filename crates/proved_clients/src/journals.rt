//! What a page reads after a write.
ghost use Rattle.std.specs.Prelude.{◌≡◌, ◌<◌, IfOk, OnErr};

use comp_journal::{Entry, JournalRefusal, JournaledPage};

/// Writes an entry into a page, and reads the word at its offset. The word is the value of the entry. If the write is
/// refused, the page is as it was.
pub fn write_entry_and_read(page: &mut JournaledPage, entry: Entry) -> Result<u64, JournalRefusal>
    requires inside { entry.offset < 64 }
    ensures read { IfOk result (λ word. word ≡ entry.value) }
    ensures refused { OnErr result (page.new.page ≡ page.old.page) }
{
    page.reserve_entry()?;
    page.append_reserved(entry);
    Ok(page.words()[usize::from(entry.offset)])
}

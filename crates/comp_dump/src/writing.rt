//! Writes a dump, field by field.
ghost use Rattle.std.specs.Prelude.{◌≡◌, ◌-◌, ◌^◌, ◌+◌, ◌*◌, ◌<◌, ◌≤◌, ◌++◌, All, IfErr, length, take, Some};
ghost use Rattle.std.specs.List.{flat_map};
ghost use Rattle.heap_layout.specs.Counted.{inner_of, failures_of};
ghost use Rattle.heap_layout.specs.Writing.{Writes, CountsOne};
ghost use Rattle.comp_cycles.specs.CellEnds.{lists as items_of};
ghost use Rattle.comp_dump.specs.Codes.{kind_code};
ghost use Rattle.comp_dump.specs.Dumped.{HasFewEntries, IsWritable};
ghost use Rattle.comp_dump.specs.DumpEncoding.{builds_bytes, dump_bytes, eight_bytes, entry_bytes, one_byte, page_bytes};
ghost use Rattle.comp_dump.specs.DumpReading.{CountsFailure};
ghost use Rattle.comp_dump.specs.declared.fault.DumpFault.TheVariants as fault;

use crate::dump::Dump;
use crate::fault::DumpFault;
use crate::kept_pages::DumpedPages;
use crate::page::DumpedPage;
use crate::reading::fields::MAGIC;
use byteorder::{ByteOrder, LittleEndian};
use comp_journal::Entry;
use heap_layout::{
    Counted, Edition, Kind, write_four, write_head, write_numbers, write_part, write_words,
};
use std::io::Write;

// Writes a number of one byte.
fn write_one<W: Write>(w: &mut Counted<W>, n: u8) -> std::io::Result<()>
    ensures writes { Writes (W.contents (inner_of w.old)) (W.contents (inner_of w.new)) (one_byte n) result }
    ensures counts { CountsOne (failures_of w.old) (failures_of w.new) result }
{
    write_part(w, &[n])
}

// Writes a number of 8 bytes.
fn write_eight<W: Write>(w: &mut Counted<W>, n: u64) -> std::io::Result<()>
    ensures writes { Writes (W.contents (inner_of w.old)) (W.contents (inner_of w.new)) (eight_bytes n) result }
    ensures counts { CountsOne (failures_of w.old) (failures_of w.new) result }
{
    write_part(w, &n.to_le_bytes())
}

// The byte of a kind.
fn kind_byte(kind: Kind) -> u8
    ensures { result ≡ kind_code kind }
{
    match kind {
        Kind::Header => 0,
        Kind::Reference => 1,
        Kind::Data => 2,
        Kind::Weak => 3,
    }
}

// The bytes of an entry.
fn entry_part(entry: Entry) -> [u8; 19]
    ensures { result ≡ entry_bytes entry }
{
    let mut part = [0; 19];
    LittleEndian::write_u64(&mut part, entry.stamp);
    part[8] = entry.writer;
    part[9] = kind_byte(entry.kind);
    part[10] = entry.offset;
    LittleEndian::write_u64(&mut part[11..], entry.value);
    part
}

// How many entries are written in one part.
const SOME_ENTRIES: usize = 32;

// Puts the bytes of entry number `i` of a part in their place, and changes no byte before it.
fn put_entry(part: &mut [u8; 608], i: usize, entry: Entry)
    requires { i < 32 }
    ensures { take (19 * (i + 1)) part.new ≡ take (19 * i) part.old ++ entry_bytes entry }
{
    let begin = 19 * i;
    part[begin..begin + 19].copy_from_slice(&entry_part(entry));
}

// Writes at most 32 entries, in one part.
fn write_some_entries<W: Write>(w: &mut Counted<W>, journal: &[Entry]) -> std::io::Result<()>
    requires { length journal.now ≤ 32 }
    ensures writes { Writes (W.contents (inner_of w.old)) (W.contents (inner_of w.new)) (flat_map entry_bytes journal.now) result }
    ensures counts { CountsOne (failures_of w.old) (failures_of w.new) result }
{
    let mut part = [0; 19 * SOME_ENTRIES];
    for i in 0..journal.len() {
        put_entry(&mut part, i, journal[i]);
    }
    write_part(w, &part[..19 * journal.len()])
}

// Writes the entries of a page, at most 32 in one part.
fn write_entries<W: Write>(w: &mut Counted<W>, journal: &[Entry]) -> std::io::Result<()>
    ensures writes { Writes (W.contents (inner_of w.old)) (W.contents (inner_of w.new)) (flat_map entry_bytes journal.now) result }
    ensures counts { CountsOne (failures_of w.old) (failures_of w.new) result }
{
    let mut written = 0;
    while written < journal.len() {
        let some = (journal.len() - written).min(SOME_ENTRIES);
        write_some_entries(w, &journal[written..written + some])?;
        written += some;
    }
    Ok(())
}

// Writes a page that was built, after a byte 1.
fn write_there<W: Write>(
    w: &mut Counted<W>,
    words: &[u64],
    journal: &[Entry],
) -> std::io::Result<()>
    requires { length journal.now ≤ 1024 }
    ensures writes { Writes (W.contents (inner_of w.old)) (W.contents (inner_of w.new)) (page_bytes (Some (record { words = words.now; journal = journal.now }))) result }
    ensures counts { CountsOne (failures_of w.old) (failures_of w.new) result }
{
    write_one(w, 1)?;
    write_words(w, words)?;
    write_four(w, journal.len() as u32)?;
    write_entries(w, journal)
}

// Writes a page, or a byte 0 if it was never built.
fn write_page<W: Write>(w: &mut Counted<W>, page: &Option<DumpedPage<'_>>) -> std::io::Result<()>
    requires { HasFewEntries page.now }
    ensures writes { Writes (W.contents (inner_of w.old)) (W.contents (inner_of w.new)) (page_bytes page.now) result }
    ensures counts { CountsOne (failures_of w.old) (failures_of w.new) result }
{
    match page {
        None => write_one(w, 0),
        Some(page) => write_there(w, &page.words(), page.journal()),
    }
}

// Writes the pages.
fn write_pages<W: Write>(w: &mut Counted<W>, pages: &DumpedPages<'_>) -> std::io::Result<()>
    requires { All HasFewEntries pages.now }
    ensures writes { Writes (W.contents (inner_of w.old)) (W.contents (inner_of w.new)) (flat_map page_bytes pages.now) result }
    ensures counts { CountsOne (failures_of w.old) (failures_of w.new) result }
{
    for p in 0..pages.len() {
        write_page(w, &pages.page(p))?;
    }
    Ok(())
}

// Writes the pages that one mutator built.
fn write_builds<W: Write>(w: &mut Counted<W>, list: &[u32]) -> std::io::Result<()>
    requires { length list.now < 2 ^ 32 }
    ensures writes { Writes (W.contents (inner_of w.old)) (W.contents (inner_of w.new)) (builds_bytes list.now) result }
    ensures counts { CountsOne (failures_of w.old) (failures_of w.new) result }
{
    write_four(w, list.len() as u32)?;
    write_numbers(w, list)
}

// Writes the pages that each mutator built.
fn write_all_builds<W: Write>(w: &mut Counted<W>, lists: &[Vec<u32>]) -> std::io::Result<()>
    requires { All (λ list. length list < 2 ^ 32) (items_of lists.now) }
    ensures writes { Writes (W.contents (inner_of w.old)) (W.contents (inner_of w.new)) (flat_map builds_bytes (items_of lists.now)) result }
    ensures counts { CountsOne (failures_of w.old) (failures_of w.new) result }
{
    for list in lists {
        write_builds(w, list)?;
    }
    Ok(())
}

// Writes a dump of these parts.
fn write_parts<W: Write>(
    w: &mut Counted<W>,
    edition: Edition,
    mutators: u8,
    fresh: u32,
    roots: &[u64],
    pages: &DumpedPages<'_>,
    builds: &[Vec<u32>],
    total: u64,
) -> std::io::Result<()>
    requires { IsWritable (record { edition = edition; mutators = mutators; fresh = fresh; roots = roots.now; pages = pages.now; builds = items_of builds.now; total = total }) }
    ensures writes { Writes (W.contents (inner_of w.old)) (W.contents (inner_of w.new))
        (dump_bytes (record { edition = edition; mutators = mutators; fresh = fresh; roots = roots.now; pages = pages.now; builds = items_of builds.now; total = total })) result }
    ensures counts { CountsOne (failures_of w.old) (failures_of w.new) result }
{
    let counts = [
        u32::from(mutators),
        fresh,
        pages.len() as u32,
        roots.len() as u32,
    ];
    write_head(w, &MAGIC, edition, &counts)?;
    write_words(w, roots)?;
    write_pages(w, pages)?;
    write_all_builds(w, builds)?;
    write_eight(w, total)
}

/// Writes a dump, and allocates nothing.
///
/// The first call of the writer that fails ends the writing, an interrupted call too. A beginning of the dump stays
/// written. The writer is not flushed: the caller does that. Fewer than `u64::MAX` calls of the writer must have
/// failed before.
pub fn write_dump<W: Write>(dump: &Dump<'_>, w: &mut Counted<W>) -> Result<(), DumpFault>
    requires { failures_of w.old < 2 ^ 64 - 1 }
    ensures writes { Writes (W.contents (inner_of w.old)) (W.contents (inner_of w.new)) (dump_bytes dump.now) result }
    ensures counts { CountsFailure (failures_of w.old) (failures_of w.new) result }
    ensures cause { IfErr result (λ given. given ≡ fault.Device) }
{
    let answer = write_parts(
        w,
        dump.edition(),
        dump.mutators(),
        dump.fresh_pages(),
        dump.roots(),
        dump.pages(),
        dump.builds(),
        dump.live_words(),
    );
    match answer {
        Ok(()) => Ok(()),
        Err(_) => Err(DumpFault::Device),
    }
}

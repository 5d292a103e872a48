//! Reads a dump, field by field, and checks each field as soon as it is read.
ghost use Rattle.std.specs.Prelude.{◌≡◌, true, false, ◌+◌, ◌-◌, ◌^◌, ◌<◌, ◌≤◌, IfOk, IfErr, IfSome, All, length};
ghost use Rattle.std.specs.Io.KnownBytes.{Consumes};
ghost use Rattle.std.specs.List.{flat_map};
ghost use Rattle.heap_layout.specs.Limits.{most_pages, most_fresh_pages, most_roots};
ghost use Rattle.heap_layout.specs.Versions.{IsRead};
ghost use Rattle.heap_layout.specs.Counted.{inner_of, failures_of};
ghost use Rattle.comp_cycles.specs.CellEnds.{lists as items_of};
ghost use Rattle.comp_dump.specs.Dumped.{AreCounts, IsStored, IsStoredList};
ghost use Rattle.comp_dump.specs.DumpEncoding.{builds_bytes, dump_bytes, eight_bytes, four_bytes, head};
ghost use Rattle.comp_dump.specs.DumpReading as reading;
ghost use Rattle.comp_dump.specs.DumpReading.{number, read_whole, read_whole_by, times_read, word, CountsFailure, Fails, Stops};

pub(crate) mod fields;
mod pages;
pub(crate) mod words;

use crate::dump::Dump;
use crate::fault::DumpFault;
use crate::reading::fields::{MAGIC, expect, expect_end, read_edition, read_eight, read_four};
use crate::reading::pages::read_pages;
use heap_layout::{Counted, Edition, MAX_MUTATORS};
use std::alloc::Global;
use std::io::Read;

/// Reads a dump of edition one or two, to the end of the reader.
///
/// Each field is checked as soon as it is read, whatever follows it. The version gives the edition, and the edition
/// gives the kinds that an entry may have. A call of the reader that returns an error ends the reading, an
/// interrupted call too. After an Err the bytes that were read are lost. Fewer than `u64::MAX` calls of the reader
/// must have failed before.
pub fn read_dump<R: Read>(alloc: Global, r: &mut Counted<R>) -> Result<Dump<'static>, DumpFault>
    requires { failures_of r.old < 2 ^ 64 - 1 }
    ensures read { IfOk result (λ dump. IfSome (R.remaining (inner_of r.old)) (λ bytes. bytes ≡ dump_bytes dump)) }
    ensures edition { IfOk result (λ dump. IsRead false dump.edition) }
    ensures stored { IfOk result IsStored }
    ensures cause { IfErr result (λ fault. IfSome (R.remaining (inner_of r.old)) (λ bytes. Fails fault (read_whole bytes))) }
    ensures counts { CountsFailure (failures_of r.old) (failures_of r.new) result }
{
    read_dump_by(alloc, r, false)
}

/// Reads a dump of any edition, otherwise as `read_dump` does.
pub fn read_large_dump<R: Read>(
    alloc: Global,
    r: &mut Counted<R>,
) -> Result<Dump<'static>, DumpFault>
    requires { failures_of r.old < 2 ^ 64 - 1 }
    ensures read { IfOk result (λ dump. IfSome (R.remaining (inner_of r.old)) (λ bytes. bytes ≡ dump_bytes dump)) }
    ensures stored { IfOk result IsStored }
    ensures cause { IfErr result (λ fault. IfSome (R.remaining (inner_of r.old)) (λ bytes. Fails fault (read_whole_by true bytes))) }
    ensures counts { CountsFailure (failures_of r.old) (failures_of r.new) result }
{
    read_dump_by(alloc, r, true)
}

// Reads a dump, of edition three or four only if `large`, to the end of the reader.
fn read_dump_by<R: Read>(
    alloc: Global,
    r: &mut Counted<R>,
    large: bool,
) -> Result<Dump<'static>, DumpFault>
    requires { failures_of r.old < 2 ^ 64 - 1 }
    ensures read { IfOk result (λ dump. IfSome (R.remaining (inner_of r.old)) (λ bytes. bytes ≡ dump_bytes dump)) }
    ensures edition { IfOk result (λ dump. IsRead large dump.edition) }
    ensures stored { IfOk result IsStored }
    ensures cause { IfErr result (λ fault. IfSome (R.remaining (inner_of r.old)) (λ bytes. Fails fault (read_whole_by large bytes))) }
    ensures counts { CountsFailure (failures_of r.old) (failures_of r.new) result }
{
    let dump = read_parts(alloc, r, large)?;
    expect_end(r)?;
    Ok(dump)
}

// Reads a dump. More bytes may follow it.
fn read_parts<R: Read>(
    alloc: Global,
    r: &mut Counted<R>,
    large: bool,
) -> Result<Dump<'static>, DumpFault>
    requires { failures_of r.old < 2 ^ 64 - 1 }
    ensures read { IfOk result (λ dump. Consumes (R.remaining (inner_of r.old)) (R.remaining (inner_of r.new)) (dump_bytes dump)) }
    ensures edition { IfOk result (λ dump. IsRead large dump.edition) }
    ensures stored { IfOk result IsStored }
    ensures cause { IfErr result (Stops (reading.dump large) (R.remaining (inner_of r.old))) }
    ensures counts { CountsFailure (failures_of r.old) (failures_of r.new) result }
{
    let head = read_head(r, large)?;
    let roots = read_list(alloc, r, head.roots)?;
    let pages = read_pages(alloc, r, head.edition, head.mutators, head.pages)?;
    let builds = read_all_builds(alloc, r, head.pages, head.mutators)?;
    let total = read_eight(r)?;
    Ok(Dump::from_parts(
        head.edition,
        head.mutators,
        head.fresh,
        roots,
        pages,
        builds,
        total,
    ))
}

// The edition and the counts of a dump.
#[derive(Clone, Copy)]
struct Head {
    edition: Edition,
    mutators: u8,
    fresh: u32,
    pages: u32,
    roots: u32,
}

// Reads the number of fresh pages: at most as many as a heap of the edition may have.
fn read_fresh<R: Read>(r: &mut Counted<R>, edition: Edition) -> Result<u32, DumpFault>
    requires { failures_of r.old < 2 ^ 64 - 1 }
    ensures read { IfOk result (λ n. Consumes (R.remaining (inner_of r.old)) (R.remaining (inner_of r.new)) (four_bytes n)) }
    ensures within { IfOk result (λ n. (0 ≤ n) × (n ≤ most_fresh_pages edition)) }
    ensures cause { IfErr result (Stops (number 4 0 (most_fresh_pages edition)) (R.remaining (inner_of r.old))) }
    ensures counts { CountsFailure (failures_of r.old) (failures_of r.new) result }
{
    read_four(r, 0, edition.max_fresh_pages())
}

// Reads the number of all pages: at most as many as a heap of the edition may have, and no fewer than the fresh ones.
fn read_page_count<R: Read>(
    r: &mut Counted<R>,
    edition: Edition,
    fresh: u32,
) -> Result<u32, DumpFault>
    requires { failures_of r.old < 2 ^ 64 - 1 }
    ensures read { IfOk result (λ n. Consumes (R.remaining (inner_of r.old)) (R.remaining (inner_of r.new)) (four_bytes n)) }
    ensures within { IfOk result (λ n. (fresh ≤ n) × (n ≤ most_pages edition + most_fresh_pages edition)) }
    ensures cause { IfErr result (Stops (number 4 fresh (most_pages edition + most_fresh_pages edition)) (R.remaining (inner_of r.old))) }
    ensures counts { CountsFailure (failures_of r.old) (failures_of r.new) result }
{
    read_four(r, fresh, edition.max_pages())
}

/// Reads the number of roots: at most as many as a heap of the edition may have. Fewer than `u64::MAX` calls of the
/// reader must have failed before.
#[tactic(auto, using(heap_layout::proofs::Bounds::roots_most))]
pub fn read_root_count<R: Read>(r: &mut Counted<R>, edition: Edition) -> Result<u32, DumpFault>
    requires { failures_of r.old < 2 ^ 64 - 1 }
    ensures read { IfOk result (λ n. Consumes (R.remaining (inner_of r.old)) (R.remaining (inner_of r.new)) (four_bytes n)) }
    ensures within { IfOk result (λ n. (0 ≤ n) × (n ≤ most_roots edition)) }
    ensures cause { IfErr result (Stops (number 4 0 (most_roots edition)) (R.remaining (inner_of r.old))) }
    ensures counts { CountsFailure (failures_of r.old) (failures_of r.new) result }
{
    read_four(r, 0, edition.max_roots() as u32)
}

// Reads all that precedes the roots.
fn read_head<R: Read>(r: &mut Counted<R>, large: bool) -> Result<Head, DumpFault>
    requires { failures_of r.old < 2 ^ 64 - 1 }
    ensures read { IfOk result (λ found. Consumes (R.remaining (inner_of r.old)) (R.remaining (inner_of r.new))
        (head found.edition found.mutators found.fresh found.pages found.roots)) }
    ensures edition { IfOk result (λ found. IsRead large found.edition) }
    ensures within { IfOk result (λ found. AreCounts found.edition found.mutators found.fresh found.pages found.roots) }
    ensures cause { IfErr result (Stops (reading.head large) (R.remaining (inner_of r.old))) }
    ensures counts { CountsFailure (failures_of r.old) (failures_of r.new) result }
{
    expect(r, &MAGIC)?;
    let edition = read_edition(r, large)?;
    let mutators = read_four(r, 1, MAX_MUTATORS)?;
    let fresh = read_fresh(r, edition)?;
    let pages = read_page_count(r, edition, fresh)?;
    let roots = read_root_count(r, edition)?;
    Ok(Head {
        edition,
        mutators: mutators as u8,
        fresh,
        pages,
        roots,
    })
}

/// Reads `count` numbers of 8 bytes. Room for them grows as they come. After an Err those that were read are lost.
/// Fewer than `u64::MAX` calls of the reader must have failed before.
pub fn read_list<R: Read>(
    alloc: Global,
    r: &mut Counted<R>,
    count: u32,
) -> Result<Vec<u64>, DumpFault>
    requires room { failures_of r.old < 2 ^ 64 - 1 }
    ensures read { IfOk result (λ list. Consumes (R.remaining (inner_of r.old)) (R.remaining (inner_of r.new)) (flat_map eight_bytes list.items)) }
    ensures long { IfOk result (λ list. length list.items ≡ count) }
    ensures stored { IfOk result (λ list. All (λ n. n < 2 ^ 64) list.items) }
    ensures cause { IfErr result (Stops (times_read count word) (R.remaining (inner_of r.old))) }
    ensures counts { CountsFailure (failures_of r.old) (failures_of r.new) result }
{
    let mut list = Vec::new(alloc);
    for _ in 0..count {
        let number = read_eight(r)?;
        list.push(number)?;
    }
    Ok(list)
}

// Reads the pages that each mutator built.
fn read_all_builds<R: Read>(
    alloc: Global,
    r: &mut Counted<R>,
    pages: u32,
    mutators: u8,
) -> Result<Vec<Vec<u32>>, DumpFault>
    requires room { failures_of r.old < 2 ^ 64 - 1 }
    ensures read { IfOk result (λ lists. Consumes (R.remaining (inner_of r.old)) (R.remaining (inner_of r.new)) (flat_map builds_bytes (items_of lists.items))) }
    ensures long { IfOk result (λ lists. length lists.items ≡ mutators) }
    ensures stored { IfOk result (λ lists. All (IsStoredList pages) (items_of lists.items)) }
    ensures cause { IfErr result (Stops (times_read mutators (reading.builds pages)) (R.remaining (inner_of r.old))) }
    ensures counts { CountsFailure (failures_of r.old) (failures_of r.new) result }
{
    let mut lists = Vec::new(alloc);
    for _ in 0..mutators {
        let list = read_builds(alloc, r, pages)?;
        lists.push(list)?;
    }
    Ok(lists)
}

// Reads the pages that one mutator built.
fn read_builds<R: Read>(
    alloc: Global,
    r: &mut Counted<R>,
    pages: u32,
) -> Result<Vec<u32>, DumpFault>
    requires room { failures_of r.old < 2 ^ 64 - 1 }
    ensures read { IfOk result (λ list. Consumes (R.remaining (inner_of r.old)) (R.remaining (inner_of r.new)) (builds_bytes list.items)) }
    ensures stored { IfOk result (λ list. IsStoredList pages list.items) }
    ensures cause { IfErr result (Stops (reading.builds pages) (R.remaining (inner_of r.old))) }
    ensures counts { CountsFailure (failures_of r.old) (failures_of r.new) result }
{
    let count = read_four(r, 0, pages)?;
    let list = read_numbers(alloc, r, pages, count)?;
    Ok(list)
}

// Reads `count` page numbers, each less than `pages`.
fn read_numbers<R: Read>(
    alloc: Global,
    r: &mut Counted<R>,
    pages: u32,
    count: u32,
) -> Result<Vec<u32>, DumpFault>
    requires room { failures_of r.old < 2 ^ 64 - 1 }
    requires few { count ≤ pages }
    ensures read { IfOk result (λ list. Consumes (R.remaining (inner_of r.old)) (R.remaining (inner_of r.new)) (flat_map four_bytes list.items)) }
    ensures long { IfOk result (λ list. length list.items ≡ count) }
    ensures stored { IfOk result (λ list. All (λ p. p < pages) list.items) }
    ensures cause { IfErr result (Stops (times_read count (number 4 0 (pages - 1))) (R.remaining (inner_of r.old))) }
    ensures counts { CountsFailure (failures_of r.old) (failures_of r.new) result }
{
    let mut list = Vec::new(alloc);
    for _ in 0..count {
        let p = read_four(r, 0, pages - 1)?;
        list.push(p)?;
    }
    Ok(list)
}

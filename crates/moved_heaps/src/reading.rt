//! Reads a moved heap, field by field, and checks each field as soon as it is read.
ghost use Rattle.std.specs.Prelude.{◌≡◌, ◌-◌, ◌^◌, ◌<◌, ◌≤◌, IfOk, IfErr, IfSome, All, length};
ghost use Rattle.std.specs.Io.KnownBytes.{Consumes};
ghost use Rattle.std.specs.List.{flat_map};
ghost use Rattle.heap_layout.specs.Limits.{most_words};
ghost use Rattle.heap_layout.specs.Versions.{IsRead};
ghost use Rattle.heap_layout.specs.Counted.{inner_of, failures_of};
ghost use Rattle.comp_dump.specs.DumpEncoding.{four_bytes};
ghost use Rattle.comp_dump.specs.DumpReading.{number, times_read, CountsFailure, Fails, Stops};
ghost use Rattle.moved_heaps.specs.MovedFiles.{head, moved_bytes, AreCounts, IsStored};
ghost use Rattle.moved_heaps.specs.MovedReading as reading;
ghost use Rattle.moved_heaps.specs.MovedReading.{index, read_whole};

use crate::moved_heap::MovedHeap;
use comp_dump::{
    DumpFault, expect, expect_end, read_edition, read_four, read_list, read_root_count,
};
use heap_layout::{Counted, Edition};
use std::alloc::Global;
use std::io::Read;

// The first bytes of a moved heap.
const MAGIC: [u8; 8] = *b"COMPMOVE";

// The most words of to-space, in every edition.
const MAX_MOVED_WORDS: u32 = 2_147_483_648;

/// Reads a moved heap, of edition three or four only if `large`, to the end of the reader.
///
/// Each field is checked as soon as it is read, whatever follows it. The version gives the edition. There may be as
/// many places as a heap of the edition may have marks, as many roots as it may have roots, and 2,147,483,648 words.
/// Memory is taken as the numbers come. A call of the reader that returns an error ends the reading, an interrupted
/// call too. After an Err the bytes that were read are lost. Fewer than `u64::MAX` calls of the reader must have failed
/// before.
pub fn read_moved<R: Read>(
    alloc: Global,
    r: &mut Counted<R>,
    large: bool,
) -> Result<MovedHeap, DumpFault>
    requires { failures_of r.old < 2 ^ 64 - 1 }
    ensures read { IfOk result (λ moved. IfSome (R.remaining (inner_of r.old)) (λ bytes. bytes ≡ moved_bytes moved)) }
    ensures edition { IfOk result (λ moved. IsRead large moved.edition) }
    ensures stored { IfOk result IsStored }
    ensures cause { IfErr result (λ fault. IfSome (R.remaining (inner_of r.old)) (λ bytes. Fails fault (read_whole large bytes))) }
    ensures counts { CountsFailure (failures_of r.old) (failures_of r.new) result }
{
    let moved = read_parts(alloc, r, large)?;
    expect_end(r)?;
    Ok(moved)
}

// Reads a moved heap. More bytes may follow it.
fn read_parts<R: Read>(
    alloc: Global,
    r: &mut Counted<R>,
    large: bool,
) -> Result<MovedHeap, DumpFault>
    requires { failures_of r.old < 2 ^ 64 - 1 }
    ensures read { IfOk result (λ moved. Consumes (R.remaining (inner_of r.old)) (R.remaining (inner_of r.new)) (moved_bytes moved)) }
    ensures edition { IfOk result (λ moved. IsRead large moved.edition) }
    ensures stored { IfOk result IsStored }
    ensures cause { IfErr result (Stops (reading.moved large) (R.remaining (inner_of r.old))) }
    ensures counts { CountsFailure (failures_of r.old) (failures_of r.new) result }
{
    let head = read_head(r, large)?;
    let places = read_places(alloc, r, head.places)?;
    let roots = read_list(alloc, r, head.roots)?;
    let words = read_list(alloc, r, head.words)?;
    Ok(MovedHeap::new(head.edition, places, roots, words))
}

// The edition and the counts of a moved heap.
#[derive(Clone, Copy)]
struct Head {
    edition: Edition,
    places: u32,
    roots: u32,
    words: u32,
}

// Reads all that precedes the places.
fn read_head<R: Read>(r: &mut Counted<R>, large: bool) -> Result<Head, DumpFault>
    requires { failures_of r.old < 2 ^ 64 - 1 }
    ensures read { IfOk result (λ found. Consumes (R.remaining (inner_of r.old)) (R.remaining (inner_of r.new)) (head found.edition found.places found.roots found.words)) }
    ensures edition { IfOk result (λ found. IsRead large found.edition) }
    ensures within { IfOk result (λ found. AreCounts found.edition found.places found.roots found.words) }
    ensures cause { IfErr result (Stops (reading.head large) (R.remaining (inner_of r.old))) }
    ensures counts { CountsFailure (failures_of r.old) (failures_of r.new) result }
{
    expect(r, &MAGIC)?;
    let edition = read_edition(r, large)?;
    let places = read_place_count(r, edition)?;
    let roots = read_root_count(r, edition)?;
    let words = read_four(r, 0, MAX_MOVED_WORDS)?;
    Ok(Head {
        edition,
        places,
        roots,
        words,
    })
}

// Reads the number of places: at most as many as a heap of the edition may have marks.
#[tactic(auto, using(heap_layout::proofs::Bounds::words_most))]
fn read_place_count<R: Read>(r: &mut Counted<R>, edition: Edition) -> Result<u32, DumpFault>
    requires { failures_of r.old < 2 ^ 64 - 1 }
    ensures read { IfOk result (λ n. Consumes (R.remaining (inner_of r.old)) (R.remaining (inner_of r.new)) (four_bytes n)) }
    ensures within { IfOk result (λ n. (0 ≤ n) × (n ≤ most_words edition)) }
    ensures cause { IfErr result (Stops (number 4 0 (most_words edition)) (R.remaining (inner_of r.old))) }
    ensures counts { CountsFailure (failures_of r.old) (failures_of r.new) result }
{
    read_four(r, 0, edition.max_marks() as u32)
}

// Reads `count` places.
fn read_places<R: Read>(
    alloc: Global,
    r: &mut Counted<R>,
    count: u32,
) -> Result<Vec<u32>, DumpFault>
    requires room { failures_of r.old < 2 ^ 64 - 1 }
    ensures read { IfOk result (λ places. Consumes (R.remaining (inner_of r.old)) (R.remaining (inner_of r.new)) (flat_map four_bytes places.items)) }
    ensures long { IfOk result (λ places. length places.items ≡ count) }
    ensures stored { IfOk result (λ places. All (λ n. n < 2 ^ 32) places.items) }
    ensures cause { IfErr result (Stops (times_read count index) (R.remaining (inner_of r.old))) }
    ensures counts { CountsFailure (failures_of r.old) (failures_of r.new) result }
{
    let mut places = Vec::new(alloc);
    for _ in 0..count {
        let place = read_four(r, 0, u32::MAX)?;
        places.push(place)?;
    }
    Ok(places)
}

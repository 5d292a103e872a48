//! The starts of the objects in a row, found by several threads. Each walks a part of the row from a guess of where the
//! first object of the part starts. A guess that was wrong is seen when the parts are joined, and the part is walked
//! anew, so it costs time and nothing else.
ghost use Rattle.std.specs.Prelude.{◌≡◌, ℕ, ◌+◌, ◌*◌, ◌^◌, ◌<◌, ◌≤◌, [], true, false, length, All, IfErr, IfOk, IfSome, OnOk};
ghost use Rattle.std.specs.List.{flat_map};
ghost use Rattle.heap_layout.specs.Bits.{bit};
ghost use Rattle.heap_layout.specs.Faults.{object_faults};
ghost use Rattle.heap_layout.specs.Heap.{starts, is_start};
ghost use Rattle.reachability.specs.Reachable.{RefusesFor};
ghost use Rattle.reachability.specs.Walks.{IsPart, IsPartIfOk, IsWalkedFrom, IsRowOf};

use crate::row::set_starts;
use heap_layout::{Edition, Header, LayoutFault, set};
use std::alloc::{AllocError, Global};
use std::thread;
use std::thread::Threads;

// With fewer blocks of 64 words than these one thread walks alone: starting threads costs more.
const LONG: usize = 8_192;

// The most blocks of a row.
const MOST: usize = 33_554_432;

// How many words before a part a guess begins.
const RUN_UP: usize = 65_536;

// How many beginnings are tried.
const TRIES: usize = 64;

/// A part of a row: the word at which it begins, where the first object was taken to start, the bits of its objects,
/// and where the last one ends, if no object had a fault.
#[derive(Drop)]
pub(crate) struct Part {
    base: usize,
    entry: usize,
    bits: Vec<u64>,
    end: Option<usize>,
}

// Walks from object to object, from `entry` to the end of the bits or of the words, and sets the bit of each object's
// first word; the first bit is that of word `base`. The answer is where the last object ends; None if one has a fault.
fn walk(
    edition: Edition,
    words: &[u64],
    bits: &mut [u64],
    base: usize,
    entry: usize,
) -> Option<usize>
    requires few { length words.now ≤ 2 ^ 31 }
    requires few_bits { length bits.old ≤ 2 ^ 25 }
    requires from { base ≤ entry }
    requires within { entry ≤ length words.now }
    requires none { (i : ℕ) → bit bits.old i ≡ false }
    ensures walked { IfSome result (λ end. IsWalkedFrom edition words.now base bits.new entry end) }
    ensures length { length bits.new ≡ length bits.old }
{
    let limit = words.len().min(base + 64 * bits.len());
    let mut start = entry;
    while start < limit {
        let size = Header::from_word_of(edition, words[start]).size() as usize;
        if size > edition.max_object_words() || size > words.len() - start {
            return None;
        }
        set(bits, start - base);
        start += size;
    }
    Some(start)
}

// The part of so many blocks that begins at word `base`, walked from `entry`.
fn part_of(
    alloc: Global,
    edition: Edition,
    words: &[u64],
    base: usize,
    blocks: usize,
    entry: usize,
) -> Result<Part, AllocError>
    requires few { length words.now ≤ 2 ^ 31 }
    ensures walked { IfOk result (IsPart edition words.now) }
    ensures base { IfOk result (λ part. part.base ≡ base) }
    ensures entry { IfOk result (λ part. part.entry ≡ entry) }
{
    let mut bits = vec![in alloc; 0u64; blocks.min(MOST)]?;
    if entry < base || entry > words.len() {
        return Ok(Part {
            base,
            entry,
            bits,
            end: None,
        });
    }
    let end = walk(edition, words, &mut bits, base, entry);
    Ok(Part {
        base,
        entry,
        bits,
        end,
    })
}

// Where a walk from `from` comes to word `base` or behind it; None if an object on the way has a fault.
fn crossing(edition: Edition, words: &[u64], from: usize, base: usize) -> Option<usize> {
    let mut start = from;
    for _ in 0..RUN_UP {
        if start >= base {
            return Some(start);
        }
        let size = Header::from_word_of(edition, *words.get(start)?).size() as usize;
        if size > edition.max_object_words() {
            return None;
        }
        start = start.wrapping_add(size);
    }
    Some(start)
}

// Where an object may start at or behind word `base`: where a walk comes that begins somewhere before.
fn guess(edition: Edition, words: &[u64], base: usize) -> usize {
    let first = base.saturating_sub(RUN_UP);
    for k in 0..TRIES {
        if let Some(start) = crossing(edition, words, first.wrapping_add(k), base) {
            return start;
        }
    }
    base
}

// Puts the bits of a part behind those of the row, whose objects end at `entry`. If the part was walked from elsewhere
// it is walked anew. The answer is where the part's last object ends, and None if an object has a fault.
fn join(
    alloc: Global,
    edition: Edition,
    words: &[u64],
    row: &mut Vec<u64>,
    entry: usize,
    part: &Part,
) -> Result<Option<usize>, AllocError>
    requires few { length words.now ≤ 2 ^ 31 }
    requires row { IsRowOf edition words.now row.old.items entry }
    requires part { IsPart edition words.now part.now }
    ensures { IfOk result (λ end. IfSome end (IsRowOf edition words.now row.new.items)) }
{
    let base = part.base;
    // The parts come in a row, as `part_at` makes them. No clause of it says so, and the bits rest on it.
    if row.len() > MOST || base != 64 * row.len() {
        return Ok(None);
    }
    if part.entry == entry {
        row.extend_from_slice(&part.bits)?;
        return Ok(part.end);
    }
    let again = part_of(alloc, edition, words, base, part.bits.len(), entry)?;
    row.extend_from_slice(&again.bits)?;
    Ok(again.end)
}

// Part `k` of parts of so many blocks, walked from a guess.
fn part_at(
    alloc: Global,
    edition: Edition,
    words: &[u64],
    per: usize,
    k: usize,
) -> Result<Part, AllocError>
    requires few { length words.now ≤ 2 ^ 31 }
    ensures { IsPartIfOk edition words.now result }
{
    let first = k.saturating_mul(per);
    let blocks = words.len().div_ceil(64).saturating_sub(first).min(per);
    let base = first.saturating_mul(64);
    let entry = if k == 0 {
        0
    } else {
        guess(edition, words, base)
    };
    part_of(alloc, edition, words, base, blocks, entry)
}

// The parts of the row, each walked by a thread.
fn parts_by_threads<R: Threads + Sync>(
    alloc: Global,
    rt: &R,
    threads: usize,
    edition: Edition,
    words: &[u64],
) -> Result<Vec<Result<Part, AllocError>>, AllocError>
    requires threads { 0 < threads }
    requires few { length words.now ≤ 2 ^ 31 }
    ensures { IfOk result (λ parts. All (IsPartIfOk edition words.now) parts.items) }
{
    let per = words.len().div_ceil(64).div_ceil(threads);
    let walked = move |k: usize| -> Result<Part, AllocError>
        requires { length words.now ≤ 2 ^ 31 }
        ensures { IsPartIfOk edition words.entry.now result }
    { part_at(alloc, edition, words, per, k) };
    thread::map_indices(rt, alloc, threads, &walked)
}

// The bits of the first words of the objects of the row, in so many threads. None if an object has a fault.
fn row_by_threads<R: Threads + Sync>(
    alloc: Global,
    rt: &R,
    threads: usize,
    edition: Edition,
    words: &[u64],
) -> Result<Option<Vec<u64>>, AllocError>
    requires threads { 0 < threads }
    requires few { length words.now ≤ 2 ^ 31 }
    ensures starts { IfOk result (λ row. IfSome row (λ bits. (i : ℕ) → bit bits.items i ≡ is_start (starts edition words.now) i)) }
    ensures sound { IfOk result (λ row. IfSome row (λ _. flat_map (object_faults edition words.now) (starts edition words.now) ≡ [])) }
    ensures few { IfOk result (λ row. IfSome row (λ bits. length bits.items ≤ 2 ^ 25)) }
{
    let parts = parts_by_threads(alloc, rt, threads, edition, words)?;
    let mut row = Vec::with_capacity(alloc, words.len().div_ceil(64))?;
    let mut entry = 0;
    for part in &parts {
        let Ok(part) = part else {
            return Err(AllocError);
        };
        let Some(end) = join(alloc, edition, words, &mut row, entry, part)? else {
            return Ok(None);
        };
        entry = end;
    }
    // The last part ends with the words: the same holds of this.
    if entry < words.len() || row.len() > MOST {
        return Ok(None);
    }
    Ok(Some(row))
}

// The same in one thread.
fn row_alone(alloc: Global, edition: Edition, words: &[u64]) -> Result<Vec<u64>, LayoutFault>
    requires few { length words.now ≤ 2 ^ 31 }
    ensures starts { IfOk result (λ bits. (i : ℕ) → bit bits.items i ≡ is_start (starts edition words.now) i) }
    ensures sound { IfOk result (λ _. flat_map (object_faults edition words.now) (starts edition words.now) ≡ []) }
    ensures few { IfOk result (λ bits. length bits.items ≤ 2 ^ 25) }
    ensures refused { IfErr result (RefusesFor (flat_map (object_faults edition words.now) (starts edition words.now))) }
{
    let mut row = vec![in alloc; 0u64; words.len().div_ceil(64)]?;
    set_starts(edition, words, &mut row)?;
    Ok(row)
}

/// The bits of the first words of the objects of the row, in so many threads if it is long, but in none for fewer than
/// 524,288 words. If a thread has no memory for its part, or meets a fault, one thread walks alone. Err with the first
/// fault of the objects in turn, or with `OutOfMemory`.
pub(crate) fn row_of<R: Threads + Sync>(
    alloc: Global,
    rt: &R,
    threads: usize,
    edition: Edition,
    words: &[u64],
) -> Result<Vec<u64>, LayoutFault>
    requires few { length words.now ≤ 2 ^ 31 }
    ensures starts { IfOk result (λ bits. (i : ℕ) → bit bits.items i ≡ is_start (starts edition words.now) i) }
    ensures sound { IfOk result (λ _. flat_map (object_faults edition words.now) (starts edition words.now) ≡ []) }
    ensures few { IfOk result (λ bits. length bits.items ≤ 2 ^ 25) }
    ensures refused { IfErr result (RefusesFor (flat_map (object_faults edition words.now) (starts edition words.now))) }
{
    if threads > 1 && words.len() / 64 >= LONG {
        let threads = threads.min(words.len() / RUN_UP);
        if let Ok(Some(row)) = row_by_threads(alloc, rt, threads, edition, words) {
            return Ok(row);
        }
    }
    row_alone(alloc, edition, words)
}

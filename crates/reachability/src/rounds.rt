//! The marker in several threads. It is the breadth-first search of the plain marker, done by rounds, as graphs are
//! searched in parallel, level by level: while many objects wait in the queue, each thread takes a run of them and
//! looks up what their references lead to. The threads only read, and each answers a list. The caller then puts the
//! lists in the queue, one after the other. So the queue is, object by object, the one that a single thread makes.
//! While few objects wait, the caller follows them alone.
ghost use Rattle.std.specs.Prelude.{◌≡◌, ℕ, ◌^◌, ◌-◌, ◌<◌, ◌≤◌, [], ◌++◌, true, false, fold, take, drop, get_or, length, All, IfErr, IfOk, OnOk};
ghost use Rattle.std.specs.List.{flat_map};
ghost use Rattle.heap_layout.specs.Bits.{bit};
ghost use Rattle.heap_layout.specs.declared.fault.LayoutFault.TheVariants as layout;
ghost use Rattle.heap_layout.specs.Faults.{object_faults, size_faults};
ghost use Rattle.heap_layout.specs.Heap.{starts, is_start, IsPlaced};
ghost use Rattle.reachability.specs.Queue.{after_object, found_more, is_met, AreUnmet};
ghost use Rattle.reachability.specs.Reachable.{AreReachable, IsReachable, RefusesFor};

use crate::found::{are_found, found_by, meet_parts};
use crate::marker::{reachable_marks, references};
use crate::marks::indices;
use crate::queue::meet_all;
use crate::walks::row_of;
use heap_layout::{Edition, LayoutFault, check_sizes};
use std::alloc::{AllocError, Global};
use std::thread;
use std::thread::Threads;

// The most threads that are at work at once.
const MOST: usize = 64;

// With fewer objects than these in the queue one thread does the work alone: starting threads costs more.
const WIDE: usize = 8_192;

// The most objects of a round, so that what the threads found is not long.
const LONG: usize = 262_144;

// The fewest objects that a thread is started for.
const FEW: usize = 1_024;

// How many objects are followed alone before the queue is looked at again.
const BATCH: usize = 256;

// The place of the queue behind the objects that wait, or behind as many as a round has.
#[inline(always)]
fn end_of_round(len: usize, next: usize) -> usize
    requires { next < len }
    ensures above { next < result }
    ensures within { result ≤ len }
{
    len.min(next.saturating_add(LONG))
}

// Follows the references of the objects from place `next` of the queue to place `end`, in so many threads. The answer
// is false if there are too few of them, or no memory for what the threads found; then nothing has changed.
fn meet_round<R: Threads + Sync>(
    alloc: Global,
    rt: &R,
    threads: usize,
    edition: Edition,
    words: &[u64],
    row: &[u64],
    unmet: &mut [u64],
    queue: &mut Vec<u32>,
    next: usize,
    end: usize,
) -> Result<bool, AllocError>
    requires few { length words.now ≤ 2 ^ 31 }
    requires few_bits { length unmet.old ≤ 2 ^ 25 }
    requires above { next < end }
    requires within { end ≤ length queue.old.items }
    requires placed { All (IsPlaced edition words.now) (take (end - next) (drop next queue.old.items)) }
    requires unmet { AreUnmet row.now queue.old.items unmet.old }
    ensures queue { IfOk result (λ done. done ≡ true → queue.new.items
        ≡ fold (after_object edition words.now (bit row.now)) queue.old.items (take (end - next) (drop next queue.old.items))) }
    ensures unmet { IfOk result (λ done. done ≡ true → AreUnmet row.now queue.new.items unmet.new) }
    ensures same { IfOk result (λ done. done ≡ false → queue.new.items ≡ queue.old.items) }
    ensures same_unmet { IfOk result (λ done. done ≡ false → unmet.new ≡ unmet.old) }
    ensures length { length unmet.new ≡ length unmet.old }
{
    if threads < 2 || end - next < WIDE {
        return Ok(false);
    }
    let bits: &[u64] = unmet;
    let objects = &queue[next..end];
    let size = objects.len().div_ceil(threads).max(FEW);
    let part = move |_: usize, chunk: &[u32]| -> Result<Vec<u32>, AllocError>
        requires { (length words.now ≤ 2 ^ 31) × (length bits.now ≤ 2 ^ 25) × All (IsPlaced edition words.now) chunk.now }
        ensures { IfOk result (λ found. found.items ≡ fold (found_more edition words.entry.now (bit bits.entry.now)) [] chunk.now) }
    { found_by(alloc, edition, words, bits, chunk) };
    let Ok(parts) = thread::map_chunks(rt, alloc, objects, size, &part) else {
        return Ok(false);
    };
    if !are_found(&parts) {
        return Ok(false);
    }
    meet_parts(row, unmet, queue, &parts)?;
    Ok(true)
}

// Follows the references of the object at place `next` of the queue.
#[inline(always)]
fn meet_next(
    edition: Edition,
    words: &[u64],
    row: &[u64],
    unmet: &mut [u64],
    queue: &mut Vec<u32>,
    next: usize,
) -> Result<(), AllocError>
    requires few { length words.now ≤ 2 ^ 31 }
    requires few_bits { length unmet.old ≤ 2 ^ 25 }
    requires within { next < length queue.old.items }
    requires placed { IsPlaced edition words.now (get_or queue.old.items next 0) }
    requires unmet { AreUnmet row.now queue.old.items unmet.old }
    ensures queue { OnOk result (queue.new.items ≡ after_object edition words.now (bit row.now) queue.old.items (get_or queue.old.items next 0)) }
    ensures unmet { OnOk result (AreUnmet row.now queue.new.items unmet.new) }
    ensures length { length unmet.new ≡ length unmet.old }
{
    let i = queue[next] as usize;
    meet_all(row, unmet, queue, references(edition, words, i))
}

// Meets each object that the roots reach, and clears its bit in `unmet`, in so many threads. `row` has the bits of all
// objects, and so must `unmet` before. The answer is the queue, for its memory. It is the one that a single thread
// makes.
fn meet_reached_by_threads<R: Threads + Sync>(
    alloc: Global,
    rt: &R,
    threads: usize,
    edition: Edition,
    words: &[u64],
    roots: &[u64],
    row: &[u64],
    unmet: &mut [u64],
) -> Result<Vec<u32>, AllocError>
    requires few { length words.now ≤ 2 ^ 31 }
    requires few_bits { length row.now ≤ 2 ^ 25 }
    requires unmet { unmet.old ≡ row.now }
    requires sound { flat_map (object_faults edition words.now) (starts edition words.now) ≡ [] }
    requires row { (i : ℕ) → bit row.now i ≡ is_start (starts edition words.now) i }
    ensures reachable { OnOk result ((i : ℕ) → is_met row.now unmet.new i ≡ true → IsReachable edition words.now roots.now i) }
    ensures all { OnOk result ((i : ℕ) → IsReachable edition words.now roots.now i → is_met row.now unmet.new i ≡ true) }
    ensures length { length unmet.new ≡ length unmet.old }
{
    let mut queue = Vec::new(alloc);
    meet_all(row, unmet, &mut queue, roots)?;
    let mut next = 0;
    // The objects before this place are followed alone.
    let mut alone = 0;
    while next < queue.len() {
        if next < alone {
            meet_next(edition, words, row, unmet, &mut queue, next)?;
            next += 1;
        } else {
            let end = end_of_round(queue.len(), next);
            alone = end.max(next.saturating_add(BATCH));
            if meet_round(
                alloc, rt, threads, edition, words, row, unmet, &mut queue, next, end,
            )? {
                next = end;
            } else {
                meet_next(edition, words, row, unmet, &mut queue, next)?;
                next += 1;
            }
        }
    }
    Ok(queue)
}

// The marks, in so many threads. `OutOfMemory` also where there is memory for one thread.
fn marks_by_threads<R: Threads + Sync>(
    alloc: Global,
    rt: &R,
    threads: usize,
    edition: Edition,
    words: &[u64],
    roots: &[u64],
) -> Result<Vec<u32>, LayoutFault>
    ensures reachable { IfOk result (λ marks. AreReachable edition words.now roots.now marks.items) }
    ensures faultless { IfOk result (λ _. size_faults edition (length words.now) 0 (length roots.now)
        ++ flat_map (object_faults edition words.now) (starts edition words.now) ≡ []) }
    ensures refused { IfErr result (RefusesFor (size_faults edition (length words.now) 0 (length roots.now)
        ++ flat_map (object_faults edition words.now) (starts edition words.now))) }
    ensures memory { IfErr result (λ fault. fault ≡ layout.OutOfMemory → size_faults edition (length words.now) 0 (length roots.now) ≡ []) }
{
    check_sizes(edition, words.len(), 0, roots.len())?;
    let row = row_of(alloc, rt, threads, edition, words)?;
    let mut unmet = Vec::from_slice(alloc, &row)?;
    let queue = meet_reached_by_threads(
        alloc, rt, threads, edition, words, roots, &row, &mut unmet,
    )?;
    Ok(indices(queue, &row, &unmet)?)
}

/// Like `reachable_marks`, in so many threads, the caller among them; the marks are the same, and so is a fault. More
/// than 64 are taken for 64. With none or one the caller marks alone, and so it does where a thread cannot be started.
///
/// It gains where the objects lie far apart and many wait to be followed, as in trees, graphs and tables: there the
/// time goes into fetching each object's header, and that is shared out. The caller puts what the threads found in the
/// queue, and reads off the marks, alone. A list, where one object waits at a time, is marked as by one thread. Threads
/// are started while 8,192 objects or more wait, for at most 262,144 of them at a time, and once before, if there are
/// 524,288 words or more, to walk the row of objects in parts. For fewer words or objects none is started.
///
/// While the threads are at work each has a list of four bytes for each reference that leads to an object that was not
/// met when they began; the rest is as in `reachable_marks`. Where there is no memory for a list the caller follows
/// these objects alone, and where there is none for the rest it marks anew, alone: so no heap is refused that one
/// thread can mark.
pub fn reachable_marks_by_threads<R: Threads + Sync>(
    alloc: Global,
    rt: &R,
    threads: usize,
    edition: Edition,
    words: &[u64],
    roots: &[u64],
) -> Result<Vec<u32>, LayoutFault>
    ensures reachable { IfOk result (λ marks. AreReachable edition words.now roots.now marks.items) }
    ensures faultless { IfOk result (λ _. size_faults edition (length words.now) 0 (length roots.now)
        ++ flat_map (object_faults edition words.now) (starts edition words.now) ≡ []) }
    ensures refused { IfErr result (RefusesFor (size_faults edition (length words.now) 0 (length roots.now)
        ++ flat_map (object_faults edition words.now) (starts edition words.now))) }
    ensures memory { IfErr result (λ fault. fault ≡ layout.OutOfMemory → size_faults edition (length words.now) 0 (length roots.now) ≡ []) }
{
    if threads > 1 {
        let found = marks_by_threads(alloc, rt, threads.min(MOST), edition, words, roots);
        let short = matches!(&found, Err(LayoutFault::OutOfMemory));
        if !short {
            return found;
        }
    }
    reachable_marks(alloc, edition, words, roots)
}

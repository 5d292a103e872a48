//! Asks of the objects that were met whether each is as it must be. Several threads do, each for a run of blocks of
//! bits.
ghost use Rattle.std.specs.Prelude.{◌≡◌, ℕ, ◌*◌, ◌^◌, ◌<◌, ◌≤◌, true, false, length, All, IfOk};
ghost use Rattle.heap_layout.specs.Bits.{bit};
ghost use Rattle.rest_marks.specs.Kept.{AreKeptIn, EndsBefore, IsAsked};
ghost use Rattle.rest_marks.specs.Marks.{IsKept};

use crate::bit_search::next_set;
use crate::given_marks::check_kept;
use crate::marking::{references, weak_words};
use crate::queue::check_leads;
use crate::shape::shape_of;
use heap_layout::Edition;
use std::alloc::{AllocError, Global};
use std::thread;
use std::thread::Threads;

/// A run of blocks of bits, and whether the objects there are as they must be.
#[derive(Drop)]
pub(crate) struct Asked {
    first: usize,
    end: usize,
    kept: bool,
}

// The first bit behind bit `i` that is set; or the first behind all bits, if there is none.
#[inline(always)]
fn head_behind(bits: &[u64], i: usize) -> usize
    requires few { length bits.now ≤ 2 ^ 25 }
    requires known { i < 64 * length bits.now }
    ensures behind { i < result }
    ensures none { (j : ℕ) → i < j → j < result → bit bits.now j ≡ false }
{
    if i + 1 < 64 * bits.len() {
        return next_set(bits, i + 1);
    }
    i + 1
}

// Whether the marked object at index `i` is as it must be. The next one is at `after`, or there is none before `after`.
#[inline(always)]
fn is_kept_at(edition: Edition, words: &[u64], heads: &[u64], i: usize, after: usize) -> bool
    requires few { length words.now ≤ 2 ^ 31 }
    requires few_bits { length heads.now ≤ 2 ^ 25 }
    requires order { i < after }
    requires none { (j : ℕ) → i < j → j < after → bit heads.now j ≡ false }
    ensures kept { result ≡ true → IsKept edition words.now heads.now i }
    ensures apart { result ≡ true → EndsBefore edition words.now heads.now i }
{
    let count = words.len();
    if i >= count {
        return false;
    }
    let shape = shape_of(edition, words[i]);
    if shape.size > edition.max_object_words() {
        return false;
    }
    if shape.size > count - i || shape.size > after - i {
        return false;
    }
    let references = references(edition, words, i, shape.refs);
    if let Err(_) = check_kept(edition, heads, references) {
        return false;
    }
    let weak = weak_words(edition, words, i, shape.refs, shape.weak);
    if let Err(_) = check_leads(edition, count, weak) {
        return false;
    }
    true
}

// Whether the marked objects are as they must be whose bits are in the blocks from `first` up to `end`.
fn are_kept(edition: Edition, words: &[u64], heads: &[u64], first: usize, end: usize) -> bool
    requires few { length words.now ≤ 2 ^ 31 }
    requires few_bits { length heads.now ≤ 2 ^ 25 }
    requires order { first ≤ end }
    requires within { end ≤ length heads.now }
    ensures { result ≡ true → AreKeptIn edition words.now heads.now (64 * first) (64 * end) }
{
    let limit = 64 * end;
    let mut next = 64 * first;
    while next < limit {
        let i = next_set(heads, next);
        if i >= limit {
            return true;
        }
        let after = head_behind(heads, i);
        if !is_kept_at(edition, words, heads, i, after) {
            return false;
        }
        next = after;
    }
    true
}

// What thread `k` answers, if each has so many blocks.
fn asked_at(edition: Edition, words: &[u64], heads: &[u64], size: usize, k: usize) -> Asked
    requires few { length words.now ≤ 2 ^ 31 }
    requires few_bits { length heads.now ≤ 2 ^ 25 }
    ensures { IsAsked edition words.now heads.now result }
{
    let first = k.saturating_mul(size).min(heads.len());
    let end = first.saturating_add(size).min(heads.len());
    let kept = are_kept(edition, words, heads, first, end);
    Asked { first, end, kept }
}

// What threads answer of all objects, so many of them.
fn asked_by_threads<R: Threads + Sync>(
    alloc: Global,
    rt: &R,
    workers: usize,
    edition: Edition,
    words: &[u64],
    heads: &[u64],
) -> Result<Vec<Asked>, AllocError>
    requires workers { 0 < workers }
    requires few { length words.now ≤ 2 ^ 31 }
    requires few_bits { length heads.now ≤ 2 ^ 25 }
    ensures { IfOk result (λ parts. All (IsAsked edition words.now heads.now) parts.items) }
{
    let size = heads.len().div_ceil(workers);
    let part = move |k: usize| -> Asked
        requires { (length words.now ≤ 2 ^ 31) × (length heads.now ≤ 2 ^ 25) }
        ensures { IsAsked edition words.entry.now heads.entry.now result }
    { asked_at(edition, words, heads, size, k) };
    thread::map_indices(rt, alloc, workers, &part)
}

/// Whether each marked object is as it must be: it lies within the words, is not too long, and ends before the next
/// one; and its references and weak words lead to marked objects and to words. So many threads ask. The answer is false
/// too if memory runs out.
pub(crate) fn are_all_kept<R: Threads + Sync>(
    alloc: Global,
    rt: &R,
    workers: usize,
    edition: Edition,
    words: &[u64],
    heads: &[u64],
) -> bool
    requires workers { 0 < workers }
    requires few { length words.now ≤ 2 ^ 31 }
    requires few_bits { length heads.now ≤ 2 ^ 25 }
    ensures { result ≡ true → AreKeptIn edition words.now heads.now 0 (64 * length heads.now) }
{
    let Ok(parts) = asked_by_threads(alloc, rt, workers, edition, words, heads) else {
        return false;
    };
    let mut next = 0;
    for part in &parts {
        // The parts come in a row, as `asked_at` makes them. No clause of it says so, and the answer rests on it.
        if !part.kept || part.first != next {
            return false;
        }
        next = part.end;
    }
    next == heads.len()
}

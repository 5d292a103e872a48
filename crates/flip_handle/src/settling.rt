//! A finished cycle comes to rest: its words and roots are copied as those of a heap at rest.
ghost use Rattle.std.specs.Prelude.{◌≡◌, ◌≤◌, ◌++◌, drop, length, map};
ghost use Rattle.comp_crew.specs.Finishes.{edition_in, roots_of};
ghost use Rattle.comp_crew.specs.Finishing.{IsEnded};
ghost use Rattle.comp_crew.specs.NextHeap.{lowered};
ghost use Rattle.handle_base.specs.HandleKinds.{end_in, Asks};
ghost use Rattle.flip_handle.specs.Settling.{RestsAt};

use comp_crew::{Ended, Finished};
use handle_base::{Answer, Handle, as_end, status};
use heap_layout::{Edition, FROM_SPACE};
use std::alloc::Global;

// A to-space address as an address of the heap at rest. Null and immediates stay.
fn rested(edition: Edition, address: u64) -> u64
    ensures { result ≡ lowered edition address }
{
    if edition.is_immediate(address) {
        address
    } else {
        address.saturating_sub(FROM_SPACE)
    }
}

// Copies these addresses, as addresses of the heap at rest. Requires as much room.
fn copy_rested(edition: Edition, addresses: &[u64], out: &mut [u64])
    requires { length out.old ≡ length addresses.now }
    ensures { out.new ≡ map (lowered edition) addresses.now }
{
    for k in 0..addresses.len() {
        out[k] = rested(edition, addresses[k]);
    }
}

// Copies words. Requires room for them.
fn copy_words(list: &[u64], out: &mut [u64])
    requires { length list.now ≤ length out.old }
    ensures { out.new ≡ list.now ++ drop (length list.now) out.old }
{
    out[..list.len()].copy_from_slice(list);
}

// Copies the roots of a finished heap, as roots of the heap at rest. Requires room for them.
fn copy_roots(finished: &Finished, out: &mut [u64])
    requires { length (roots_of finished.now) ≤ length out.old }
    ensures { out.new ≡ map (lowered (edition_in finished.now)) (roots_of finished.now) ++ drop (length (roots_of finished.now)) out.old }
{
    let roots = finished.roots();
    copy_rested(finished.edition(), roots, &mut out[..roots.len()]);
}

// Copies the words of all pages and the roots.
#[tactic(auto, using(crate::proofs::Rests::words_long, crate::proofs::Rests::roots_long))]
fn settle_end(alloc: Global, e: &Ended, words: &mut [u64], roots: &mut [u64]) -> Answer
    requires { IsEnded e.now }
    ensures { RestsAt words.old words.new roots.old roots.new e.now result }
{
    let finished = e.finished();
    let count = 64 * finished.pages().len();
    if words.len() < count {
        return Answer::two(status::TOO_SHORT, count as u64, 0);
    }
    if roots.len() < finished.roots().len() {
        return Answer::two(status::TOO_SHORT, finished.roots().len() as u64, 1);
    }
    let Ok(all) = e.rest_words(alloc) else {
        return Answer::bare(status::OUT_OF_MEMORY, 0);
    };
    copy_words(&all, words);
    copy_roots(finished, roots);
    Answer::done(count as u64)
}

/// Copies the words of all pages of the finished cycle that a handle keeps, 64 each, with addresses of from-space, and
/// all roots so: a heap at rest. The words of a page that nobody built are those of the plan, or zeros. The answer has
/// the number of words. If a buffer is too short, the answer has the number that it lacks, and 0 for the words or 1 for
/// the roots. Then, and if there is no memory, both buffers stay as they were. It takes as much memory again as the
/// words.
pub fn rest_end(alloc: Global, h: &mut Handle, words: &mut [u64], roots: &mut [u64]) -> Answer
    ensures same { h.new.kept ≡ h.old.kept }
    ensures rests { Asks 0 end_in (RestsAt words.old words.new roots.old roots.new) ((words.new ≡ words.old) × (roots.new ≡ roots.old)) h.old.kept result }
{
    let Some(kept) = h.take(alloc) else {
        return Answer::bare(status::EMPTY_HANDLE, 0);
    };
    let answer = match as_end(kept.as_ref()) {
        Some(e) => settle_end(alloc, e, words, roots),
        None => Answer::bare(status::WRONG_HANDLE, 0),
    };
    h.put_back(kept);
    answer
}

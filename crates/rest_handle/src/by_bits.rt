//! A survey by bits of the caller's own, with no look at the words of the heap.
ghost use Rattle.std.specs.Prelude.{◌≡◌, None};
ghost use Rattle.rest_handle.specs.ByBits.{of_bits, SurveysByBits, TakesBits};

use crate::resting::keep_found;
use handle_base::{Answer, Handle, is_full, status};
use heap_layout::{Edition, edition_of};
use std::alloc::Global;
use stopped_heap::{BitsFault, Places};

/// The answer of bits of a heap of edition `n` that are not taken.
pub fn untaken(n: u32, fault: BitsFault) -> Answer
    ensures { result ≡ of_bits n fault }
{
    match fault {
        BitsFault::TooLarge => Answer::bare(status::TOO_LARGE, 0),
        BitsFault::ShortObjects => Answer::bare(status::BAD_EDITION, u64::from(n)),
        BitsFault::WrongLength => Answer::bare(status::WRONG_LENGTH, 0),
        BitsFault::BadRoot(k) => Answer::bare(status::BAD_ROOT, k),
        BitsFault::NotARun(i) => Answer::bare(status::NOT_A_RUN, i),
        BitsFault::PastEnd(i) => Answer::bare(status::OBJECT_PAST_END, i),
        BitsFault::OutOfMemory => Answer::bare(status::OUT_OF_MEMORY, 0),
    }
}

// Surveys a heap of this edition, which has number `n`, by these bits. The handle is empty before.
fn survey_bits(
    alloc: Global,
    n: u32,
    edition: Edition,
    count: u64,
    roots: &[u64],
    heads: &[u64],
    bits: &[u64],
    out: &mut Handle,
) -> Answer
    requires { out.old.kept ≡ None }
    ensures { TakesBits n count roots.now heads.now bits.now out.new.kept result edition }
{
    let found = match Places::of_bits(alloc, edition, count as usize, roots, heads, bits) {
        Ok(found) => found,
        Err(fault) => return untaken(n, fault),
    };
    let live = found.live_words();
    if keep_found(alloc, out, found) {
        Answer::done(live)
    } else {
        untaken(n, BitsFault::OutOfMemory)
    }
}

/// Surveys a heap of this edition, 3 or 4, and of `count` words, by bits of the caller's own: of the first words of
/// marked objects, and of all their words. It looks at no word: the slide asks of each object what a survey asks. Puts
/// what the bits say into an empty handle; the answer has the number of live words. If it is refused, the handle stays
/// as it is.
pub fn survey_by_bits(
    alloc: Global,
    edition: u32,
    count: u64,
    roots: &[u64],
    heads: &[u64],
    bits: &[u64],
    out: &mut Handle,
) -> Answer
    ensures { SurveysByBits edition count roots.now heads.now bits.now out.old.kept out.new.kept result }
{
    if is_full(alloc, out) {
        return Answer::bare(status::NOT_EMPTY, 0);
    }
    match edition_of(edition, true) {
        Some(found) => survey_bits(alloc, edition, found, count, roots, heads, bits, out),
        None => Answer::bare(status::BAD_EDITION, u64::from(edition)),
    }
}

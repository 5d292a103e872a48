//! A heap at rest is surveyed with ephemerons and guardians.
ghost use Rattle.std.specs.Prelude.{◌≡◌, ◌≤◌, None, length, IfErr, IfOk};
ghost use Rattle.rest_handle.specs.Guarding.{Guards, IsGuardedOf, SurveysGuarded};
ghost use Rattle.rest_handle.specs.Resting.{asked};
ghost use Rattle.heap_layout.specs.Limits.{most_roots};
ghost use Rattle.stopped_heap.specs.Guarded.{AreParted, IsGuardedFaultOf};

use crate::resting::keep_found;
use handle_base::{Answer, Handle, is_full, status};
use heap_layout::{Edition, edition_of};
use std::alloc::Global;
use stopped_heap::{Guarded, Places, SurveyFault};

// What is found with guarded words: where what is held slides, and the guarded words, the lost ones first.
#[derive(Drop)]
struct Watched {
    places: Places,
    order: Vec<u64>,
    lost: usize,
}

// What a survey with guarded words finds.
fn found_guarded(
    alloc: Global,
    edition: Edition,
    words: &[u64],
    roots: &[u64],
    ephemerons: &[u64],
    guarded: &[u64],
) -> Result<Watched, SurveyFault>
    ensures found { IfOk result (λ watched. IsGuardedOf (asked edition words.now roots.now) ephemerons.now guarded.now watched.places) }
    ensures parted { IfOk result (λ watched. AreParted edition words.now roots.now ephemerons.now guarded.now watched.order.items watched.lost) }
    ensures long { IfOk result (λ watched. length watched.order.items ≡ length guarded.now) }
    ensures few_roots { IfOk result (λ _. length roots.now ≤ most_roots edition) }
    ensures fault { IfErr result (IsGuardedFaultOf edition words.now roots.now ephemerons.now guarded.now) }
{
    match stopped_heap::survey_guarded(alloc, edition, words, roots, ephemerons, guarded) {
        Ok(found) => {
            let Guarded {
                survey,
                order,
                lost,
            } = found;
            Ok(Watched {
                places: survey.release(),
                order,
                lost,
            })
        }
        Err(fault) => Err(fault),
    }
}

// Surveys a heap of this edition. The handle is empty before.
fn survey_of(
    alloc: Global,
    edition: Edition,
    words: &[u64],
    roots: &[u64],
    ephemerons: &[u64],
    guarded: &mut [u64],
    out: &mut Handle,
    lost: &mut u64,
) -> Answer
    requires { out.old.kept ≡ None }
    ensures { Guards (asked edition words.now roots.now) ephemerons.now guarded.old guarded.new lost.old lost.new out.new.kept result }
{
    let watched = match found_guarded(alloc, edition, words, roots, ephemerons, guarded) {
        Ok(watched) => watched,
        Err(fault) => return Answer::unsurveyed(fault),
    };
    let Watched {
        places,
        order,
        lost: count,
    } = watched;
    let live = places.live_words();
    if keep_found(alloc, out, places) {
        guarded.copy_from_slice(&order);
        *lost = count as u64;
        Answer::done(live)
    } else {
        Answer::unsurveyed(SurveyFault::OutOfMemory)
    }
}

/// Surveys the heap of these words and roots, of this edition, 1 to 4, with ephemerons and guarded words: finds what
/// they hold, and where it slides, and puts that into an empty handle. The guarded words that lead to no object that
/// roots and ephemerons hold without them come first then, in the order that they had, and the other ones behind them;
/// `lost` is the number of the former. The answer has the number of live words. It keeps nothing of the words. If it is
/// refused, the handle, the guarded words and `lost` stay as they are; a bad root is the word with this number of the
/// roots, the ephemerons and the guarded words, counted one behind the other.
pub fn survey_guarded(
    alloc: Global,
    edition: u32,
    words: &[u64],
    roots: &[u64],
    ephemerons: &[u64],
    guarded: &mut [u64],
    out: &mut Handle,
    lost: &mut u64,
) -> Answer
    ensures { SurveysGuarded edition words.now roots.now ephemerons.now guarded.old guarded.new lost.old lost.new out.old.kept out.new.kept result }
{
    if is_full(alloc, out) {
        return Answer::bare(status::NOT_EMPTY, 0);
    }
    match edition_of(edition, true) {
        Some(found) => survey_of(alloc, found, words, roots, ephemerons, guarded, out, lost),
        None => Answer::bare(status::BAD_EDITION, u64::from(edition)),
    }
}

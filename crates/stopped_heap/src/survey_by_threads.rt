//! What the roots reach, and where it slides, found by several threads.
ghost use Rattle.std.specs.Prelude.{◌≡◌, ◌<◌, IfErr, IfOk};
ghost use Rattle.rest_marks.specs.Reached.{AreReached, IsFaultOf, IsSound};
ghost use Rattle.rest_marks.specs.Surveys.{with_roots};

use crate::survey::Survey;
use heap_layout::Edition;
use rest_marks::{MAX_WORKERS, SurveyFault, mark_by_threads, offsets, starts_of};
use std::alloc::{AllocError, Global};
use std::thread::Threads;

// With fewer words than these one thread surveys alone.
const LONG: usize = 65_536;

// With fewer objects than these in the queue one thread follows them alone: starting threads costs more. It follows an
// object alone that has fewer than twelve times as many references.
const WIDE: usize = 8_192;

// Objects that lie so many words from the one before, or fewer, are near: one thread follows them as fast.
const NEAR: usize = 512;

impl<'w> Survey<'w> {
    /// Like `of`, in at most so many threads, the caller among them, and 64 at most; the survey is the same, and a
    /// fault is the one of `of`. With none or one the caller surveys alone, and so it does for fewer than 65,536 words.
    /// Threads are started while 8,192 objects or more wait to be looked at, and for 98,304 references or more of one
    /// object: it gains where that is often so, as in trees, graphs and tables, and the objects lie far apart. The
    /// caller surveys alone where so many never wait, as in a list, once it followed as many objects as a 64th of the
    /// words; and where most of the first that wait lie within 512 words of the one before, as in arrays whose objects
    /// were made in order.
    ///
    /// While threads are at work each has a list of four bytes for each reference that leads to an object that was not
    /// met when they began. Where there is no memory for that, and where a fault is met, the caller surveys anew,
    /// alone. So no heap is refused that `of` surveys.
    pub fn of_by_threads<R: Threads + Sync>(
        alloc: Global,
        rt: &R,
        workers: usize,
        edition: Edition,
        words: &'w [u64],
        roots: &[u64],
    ) -> Result<Survey<'w>, SurveyFault>
        ensures reached { IfOk result (λ survey. AreReached edition words.now roots.now survey.marks) }
        ensures sound { IfOk result (λ survey. IsSound (with_roots survey roots.now)) }
        ensures words { IfOk result (λ survey. survey.words ≡ words.now) }
        ensures edition { IfOk result (λ survey. survey.edition ≡ edition) }
        ensures room { IfOk result (λ survey. survey.room ≡ 0) }
        ensures fault { IfErr result (IsFaultOf edition words.now roots.now) }
    {
        if workers > 1 && words.len() >= LONG {
            let workers = workers.min(MAX_WORKERS);
            if let Ok(survey) = Survey::of_rounds(
                alloc, rt, workers, WIDE, NEAR, edition, words, roots,
            ) {
                return Ok(survey);
            }
        }
        Survey::of(alloc, edition, words, roots)
    }

    // Surveys in so many threads where `wide` objects or more wait in the queue. Err if memory runs out, and where
    // there is a fault too: one thread finds it; and where so many never wait, or what waits lies near.
    pub(crate) fn of_rounds<R: Threads + Sync>(
        alloc: Global,
        rt: &R,
        workers: usize,
        wide: usize,
        near: usize,
        edition: Edition,
        words: &'w [u64],
        roots: &[u64],
    ) -> Result<Survey<'w>, AllocError>
        requires workers { 0 < workers }
        ensures reached { IfOk result (λ survey. AreReached edition words.now roots.now survey.marks) }
        ensures sound { IfOk result (λ survey. IsSound (with_roots survey roots.now)) }
        ensures words { IfOk result (λ survey. survey.words ≡ words.now) }
        ensures edition { IfOk result (λ survey. survey.edition ≡ edition) }
        ensures room { IfOk result (λ survey. survey.room ≡ 0) }
    {
        if words.len() > edition.max_words() || roots.len() > edition.max_roots() {
            return Err(AllocError);
        }
        let blocks = words.len().div_ceil(64);
        let mut heads = vec![in alloc; 0u64; blocks]?;
        let mut bits = vec![in alloc; 0u64; blocks]?;
        mark_by_threads(
            alloc, rt, workers, wide, near, edition, words, roots, &mut heads, &mut bits,
        )?;
        let counts = offsets(alloc, &bits)?;
        let starts = starts_of(alloc, &heads)?;
        Ok(Survey {
            edition,
            words,
            room: 0,
            heads,
            bits,
            counts,
            starts,
            queue: Vec::new(alloc),
        })
    }
}

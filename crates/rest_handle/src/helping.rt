//! A job that marks a heap at rest, by handles: any threads help, each by a share of its own.
ghost use Rattle.std.specs.Prelude.{◌≡◌, ◌⊎◌, None, Some, length, IfErr, IfOk, IsFalse, IsTrue};
ghost use Rattle.handle_base.specs.Answers.{bare};
ghost use Rattle.rest_handle.specs.Helping.{Begins, BeginsJob, Helps, IsUnended};
ghost use Rattle.handle_base.specs.Keeping.{IsKept};
ghost use Rattle.handle_base.specs.HandleKinds.{job_in, Asks, Turns};
ghost use Rattle.rest_handle.specs.Lending.{IsStillShared};
ghost use Rattle.rest_handle.specs.Resting.{asked, Surveys};
ghost use Rattle.handle_base.specs.Sharing.{IsUnsharedIn, Shares};
ghost use Rattle.handle_base.specs.Statuses.{not_empty, out_of_memory};
ghost use Rattle.mark_job.specs.Asked.{IsBeginFault, IsMarkedOf, IsSmall};
ghost use Rattle.rest_marks.specs.Reached.{IsFaultOf};

use handle_base::{
    Answer, Handle, Kept, Opened, as_job, close, into_job, is_full, keep, open, status,
};
use heap_layout::{Edition, edition_of};
use mark_job::{Ended, Help, Job};
use std::alloc::Global;
use std::sync::Arc;
use stopped_heap::{Places, SurveyFault};

// A job for a copy of these words and roots.
fn job_of(
    alloc: Global,
    edition: Edition,
    words: &[u64],
    roots: &[u64],
) -> Result<Arc<Job>, SurveyFault>
    ensures asked { IfOk result (λ job. job.value ≡ asked edition words.now roots.now) }
    ensures few { IfOk result (λ _. IsSmall (asked edition words.now roots.now)) }
    ensures fault { IfErr result (IsBeginFault (asked edition words.now roots.now)) }
{
    if words.len() > edition.max_words() || roots.len() > edition.max_roots() {
        return Err(SurveyFault::TooLarge);
    }
    let words = Vec::from_slice(alloc, words)?;
    let roots = Vec::from_slice(alloc, roots)?;
    let job = match Job::begin(alloc, edition, words, roots) {
        Ok(job) => job,
        Err(refused) => return Err(refused.fault),
    };
    match Arc::new(alloc, job) {
        Ok(job) => Ok(job),
        Err(_) => Err(SurveyFault::OutOfMemory),
    }
}

// Puts that job into the handle, which is empty, or answers why it is not begun.
fn begin(alloc: Global, edition: Edition, words: &[u64], roots: &[u64], out: &mut Handle) -> Answer
    requires { out.old.kept ≡ None }
    ensures { Begins (asked edition words.now roots.now) out.new.kept result }
{
    match job_of(alloc, edition, words, roots) {
        Ok(job) => {
            if keep(alloc, out, Kept::Job(job)) {
                Answer::done(0)
            } else {
                Answer::unsurveyed(SurveyFault::OutOfMemory)
            }
        }
        Err(fault) => Answer::unsurveyed(fault),
    }
}

/// Begins a job that marks what these roots reach in these words, of this edition, 1 to 4, and puts it into an empty
/// handle. It has a copy of words and roots. If it is refused, the handle stays as it is; too many words or roots are
/// refused before memory is asked for. A fault of the heap comes out at the end.
pub fn begin_job(
    alloc: Global,
    edition: u32,
    words: &[u64],
    roots: &[u64],
    job: &mut Handle,
) -> Answer
    ensures { BeginsJob edition words.now roots.now job.old.kept job.new.kept result }
{
    if is_full(alloc, job) {
        return Answer::bare(status::NOT_EMPTY, 0);
    }
    match edition_of(edition, true) {
        Some(found) => begin(alloc, found, words, roots, job),
        None => Answer::bare(status::BAD_EDITION, u64::from(edition)),
    }
}

// A share of a job, for a handle that is full or not.
fn share(job: &Arc<Job>, full: bool) -> Result<Arc<Job>, Answer>
    ensures same { IfOk result (λ own. own.value ≡ job.now.value) }
    ensures free { IfOk result (λ _. IsFalse full) }
    ensures none { IfErr result (λ a. (IsTrue full × (a ≡ bare not_empty 1)) ⊎ (IsFalse full × (a ≡ bare out_of_memory 0))) }
{
    if full {
        return Err(Answer::bare(status::NOT_EMPTY, 1));
    }
    match Arc::try_clone(job) {
        Ok(own) => Ok(own),
        Err(_) => Err(Answer::bare(status::OUT_OF_MEMORY, 0)),
    }
}

// The same of the job that the handle keeps, which stays as it is.
fn share_of(alloc: Global, h: &mut Handle, full: bool) -> Result<Arc<Job>, Answer>
    ensures same { h.new.kept ≡ h.old.kept }
    ensures own { IfOk result (λ own. job_in h.old.kept ≡ Some own.value) }
    ensures free { IfOk result (λ _. IsFalse full) }
    ensures none { IfErr result (IsUnsharedIn job_in full h.old.kept) }
{
    let Some(kept) = h.take(alloc) else {
        return Err(Answer::bare(status::EMPTY_HANDLE, 0));
    };
    let own = match as_job(kept.as_ref()) {
        Some(job) => share(job, full),
        None => Err(Answer::bare(status::WRONG_HANDLE, 0)),
    };
    h.put_back(kept);
    own
}

/// Puts another share of the job that a handle keeps into an empty handle, for another thread. If memory runs out, it
/// stays empty.
pub fn share_job(alloc: Global, h: &mut Handle, other: &mut Handle) -> Answer
    ensures same { h.new.kept ≡ h.old.kept }
    ensures shares { Shares job_in h.old.kept other.old.kept other.new.kept result }
{
    let full = is_full(alloc, other);
    match share_of(alloc, h, full) {
        Ok(own) => {
            if keep(alloc, other, Kept::Job(own)) {
                Answer::done(0)
            } else {
                Answer::bare(status::OUT_OF_MEMORY, 0)
            }
        }
        Err(answer) => answer,
    }
}

// Helps with a job.
fn help(alloc: Global, job: &Arc<Job>, who: u64) -> Answer
    ensures { Helps job.now.value result }
{
    match (&**job).help(alloc, who as usize) {
        Help::Done => Answer::done(0),
        Help::Worked => Answer::done(1),
        Help::Idle => Answer::done(2),
    }
}

/// Helps with the job that a handle keeps: looks at some of the objects that wait. It waits for no other thread. The
/// answer is 0 if nothing is left to help with, 1 if it looked at some objects, and 2 if other threads have those that
/// wait. `who` is any number: threads with different ones seldom get in each other's way.
pub fn help_job(alloc: Global, h: &mut Handle, who: u64) -> Answer
    ensures same { h.new.kept ≡ h.old.kept }
    ensures helps { Asks 0 job_in Helps (Unit {0}) h.old.kept result }
{
    let Some(kept) = h.take(alloc) else {
        return Answer::bare(status::EMPTY_HANDLE, 0);
    };
    let answer = match as_job(kept.as_ref()) {
        Some(job) => help(alloc, job, who),
        None => Answer::bare(status::WRONG_HANDLE, 0),
    };
    h.put_back(kept);
    answer
}

// What goes back to the handle of a job that is not finished, and the answer.
#[derive(Drop)]
struct Left {
    kept: Kept,
    answer: Answer,
}

// The job that is kept, if no other handle keeps a share of it, given whether the handle of the survey is full.
fn sole(kept: Kept, full: bool) -> Result<Job, Left>
    requires { IsKept kept }
    ensures job { IfOk result (λ job. job_in (Some kept) ≡ Some job) }
    ensures free { IfOk result (λ _. IsFalse full) }
    ensures same { IfErr result (λ left. left.kept ≡ kept) }
    ensures why { IfErr result (λ left. IsUnended full kept left.answer) }
{
    let job = match into_job(kept) {
        Ok(job) => job,
        Err(kept) => {
            return Err(Left {
                kept,
                answer: Answer::bare(status::WRONG_HANDLE, 0),
            });
        }
    };
    if full {
        return Err(Left {
            kept: Kept::Job(job),
            answer: Answer::bare(status::NOT_EMPTY, 1),
        });
    }
    match Arc::try_unwrap(job) {
        Ok(job) => Ok(job),
        Err(job) => Err(Left {
            kept: Kept::Job(job),
            answer: Answer::bare(status::STILL_SHARED, 0),
        }),
    }
}

// What a job found.
fn found_by(alloc: Global, job: Job) -> Result<Arc<Places>, SurveyFault>
    ensures found { IfOk result (λ found. IsMarkedOf job found.value) }
    ensures fault { IfErr result (IsFaultOf job.edition job.words job.roots) }
{
    let Ended {
        words,
        roots,
        found,
    } = job.finish(alloc);
    drop(words);
    drop(roots);
    let found = found?;
    match Arc::new(alloc, found) {
        Ok(found) => Ok(found),
        Err(_) => Err(SurveyFault::OutOfMemory),
    }
}

// Finishes a job, and puts what it found into the handle, which is empty, by this box.
fn end(alloc: Global, job: Job, room: Box<Kept>, survey: &mut Handle) -> Answer
    requires { survey.old.kept ≡ None }
    ensures { Surveys job survey.new.kept result }
{
    match found_by(alloc, job) {
        Ok(found) => {
            let live = live_words(&found);
            close(survey, room, Kept::Survey(found));
            Answer::done(live)
        }
        Err(fault) => Answer::unsurveyed(fault),
    }
}

/// How many words the live objects have.
pub fn live_words(places: &Arc<Places>) -> u64
    ensures { result ≡ length places.now.value.indices }
{
    (&**places).live_words()
}

/// Finishes the job that a handle keeps, whatever was done before; another one, which was empty, keeps the survey then,
/// and that of the job is empty. The answer has the number of live words. If another handle keeps a share of the job,
/// both stay as they were. If the heap has a fault, or memory runs out, the job is gone all the same, and nothing is
/// kept.
pub fn finish_job(alloc: Global, job: &mut Handle, survey: &mut Handle) -> Answer
    ensures { Turns job_in Surveys IsStillShared job.old.kept job.new.kept survey.old.kept survey.new.kept result }
{
    let full = is_full(alloc, survey);
    let Some(Opened { room, kept }) = open(alloc, job) else {
        return Answer::bare(status::EMPTY_HANDLE, 0);
    };
    match sole(kept, full) {
        Ok(own) => end(alloc, own, room, survey),
        Err(Left { kept, answer }) => {
            close(job, room, kept);
            answer
        }
    }
}
